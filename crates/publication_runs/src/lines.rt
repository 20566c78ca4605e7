//! The line of a publication.

ghost use Rattle.std.specs.Prelude.{◌≡◌, ◌++◌, is_none, MatchOption};
ghost use Rattle.std.specs.Option.{option_copied};
ghost use Rattle.client_frames.specs.Lines.{reply_fault};
ghost use Rattle.publication_runs.specs.Cuts.{HasNoLine, HasNoLineOn, fields_in};
ghost use Rattle.publication_runs.specs.Lines.{IsPlainLine};

use crate::cuts::{LineFields, PUB, behind};
use line_fields::read_digits;
use subj::{LentSubject, MAX_PAYLOAD, Subject};

/// The most digits of a size, as in any line of a client. (Profile.)
const SIZE_DIGITS: usize = 10;

/// The line of a publication that is plainly written and not refused.
#[derive(Clone, Copy)]
pub(crate) struct PlainLine<'a> {
    /// Its bytes, CR LF among them.
    pub(crate) text: &'a [u8],
    pub(crate) fields: LineFields<'a>,
    /// How many bytes the payload has: at most [`MAX_PAYLOAD`].
    pub(crate) size: usize,
    ghost plain: { IsPlainLine text.now (fields_in fields) size },
}

/// Whether the reply, where there is one, is a subject.
fn is_reply(reply: Option<&[u8]>) -> bool
    ensures { result ≡ is_none (reply_fault (option_copied reply.entry)) }
{
    match reply {
        None => true,
        Some(reply) => Subject::fault(reply).is_none(),
    }
}

impl<'a> PlainLine<'a> {
    /// The line that a text begins with, and what stands behind it. None just where the text begins with no line of a publication that is
    /// plainly written: also where its subject or its reply is none, and where its size is not one to ten digits or is above
    /// [`MAX_PAYLOAD`]. (Profile.)
    #[inline(never)]
    pub(crate) fn read(text: &'a [u8]) -> Option<(PlainLine<'a>, &'a [u8])>
        ensures { MatchOption result (HasNoLine text.now)
            (λ read. text.now ≡ read.0.text.now ++ read.1.now) }
    {
        let (fields, rest) = LineFields::cut(text)?;
        let size = read_digits(fields.digits, SIZE_DIGITS)?;
        if size > MAX_PAYLOAD as u64
            || Subject::fault(fields.subject).is_some()
            || !is_reply(fields.reply)
        {
            return None;
        }
        let line = PlainLine {
            text: &text[..text.len() - rest.len()],
            fields,
            size: size as usize,
        };
        Some((line, rest))
    }

    /// The same of a line on this subject. None also where the line is on another, which most often is told without reading it.
    pub(crate) fn read_on(
        text: &'a [u8],
        subject: &LentSubject<'_>,
    ) -> Option<(PlainLine<'a>, &'a [u8])>
        ensures { MatchOption result (HasNoLineOn subject.now text.now) (λ read.
            (read.0.fields.subject.now ≡ subject.now)
            × (text.now ≡ read.0.text.now ++ read.1.now)) }
    {
        behind(behind(text, PUB)?, subject.bytes())?;
        let (line, rest) = PlainLine::read(text)?;
        if line.fields.subject != subject.bytes() {
            return None;
        }
        Some((line, rest))
    }
}
