//! The line of a publication that was read last.

ghost use Rattle.std.specs.Prelude.{◌≡◌, true, ⊤, IfSome, Ok};
ghost use Rattle.client_frames.specs.LastLine.{plain_head};
ghost use Rattle.client_frames.specs.Lines.{line_meaning};
ghost use Rattle.client_frames.specs.declared.client_line.ClientLine.TheVariants.{Pub};

use std::alloc::Global;
use std::marker::Model;

/// The most bytes of a line that is noted. (Profile.)
const MOST_BYTES: usize = 128;

/// Where the subject stands in a line that is noted: behind `PUB` and one blank.
const SUBJECT_AT: usize = 4;

/// Whether both are the same bytes.
fn are_same(text: &[u8], other: &[u8]) -> bool
    ensures { result ≡ true → other.now ≡ text.now }
{
    text == other
}

/// The line of a publication without a reply and without a header block, and what it means: clients mostly send the same line again.
///
/// Nothing is seen of it but what it tells.
#[derive(Drop)]
pub(crate) struct LastLine {
    text: Vec<u8>,
    /// The place behind its subject. 0 where no line is noted.
    subject_end: usize,
    size: u64,
}

impl Model for LastLine {
    ghost use Rattle.std.specs.Prelude.{⊤};
    ghost use Rattle.client_frames.specs.LastLine.{IsNoted};

    ghost Value = { ⊤ };

    ghost view = { λ _. tt };

    ghost invariant = { λ last. IsNoted last.text.items last.subject_end last.size };
}

impl LastLine {
    /// None is noted. It takes no memory before one is.
    pub fn new(alloc: Global) -> LastLine {
        LastLine {
            text: Vec::new(alloc),
            subject_end: 0,
            size: 0,
        }
    }

    /// How many bytes follow the line, where it is the one that is noted and publishes on this subject.
    pub fn size_of(&self, line: &[u8], subject: &[u8]) -> Option<u64>
        ensures { IfSome result (λ size.
            line_meaning line.now ≡ Ok (Pub (plain_head subject.now size))) }
    {
        if self.subject_end == 0 || !are_same(&self.text, line) {
            return None;
        }
        if !are_same(&self.text[SUBJECT_AT..self.subject_end], subject) {
            return None;
        }
        Some(self.size)
    }

    /// Notes a line that publishes on this subject: so many bytes follow it. None is noted where it is long or written in another way, and
    /// for want of memory.
    pub fn note(&mut self, line: &[u8], subject: &[u8], size: u64)
        requires { line_meaning line.now ≡ Ok (Pub (plain_head subject.now size)) }
    {
        self.subject_end = 0;
        self.text.clear();
        let end = SUBJECT_AT + subject.len();
        if line.len() > MOST_BYTES || line.len() < end {
            return;
        }
        if !are_same(&line[SUBJECT_AT..end], subject) {
            return;
        }
        let Ok(()) = self.text.extend_from_slice(line) else {
            return;
        };
        self.subject_end = end;
        self.size = size;
    }
}
