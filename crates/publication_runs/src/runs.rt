//! Scans publications that are lent: those that stand one behind another in a text, on one subject, are published without a message.

ghost use Rattle.std.specs.Prelude.{◌≡◌, ◌++◌, length, IfNone, IfSome, IsSomeAnd};
ghost use Rattle.publication_runs.specs.Cuts.{HasNoLineOn};

use crate::cuts::{PUB, behind, split_payload};
use crate::lines::PlainLine;
use job_block::LentPub;
use std::marker::Model;
use subj::{LentSubject, Subject};

/// What stands behind the line that a text begins with; this is the last line then. A line that is the last one again is not read again:
/// its bytes are compared once. None just where the text begins with no line on the subject that is plainly written. Required: the last
/// line is on the subject.
#[inline(always)]
fn pass_line<'a>(
    last: &mut Option<PlainLine<'a>>,
    subject: &LentSubject<'_>,
    text: &'a [u8],
) -> Option<&'a [u8]>
    requires { IfSome last.old (λ line. line.fields.subject.now ≡ subject.now) }
    ensures on { IfSome last.new (λ line. line.fields.subject.now ≡ subject.now) }
    ensures line { IfSome result (λ behind.
        IsSomeAnd last.new (λ line. text.now ≡ line.text.now ++ behind.now)) }
    ensures none { IfNone result (HasNoLineOn subject.now text.now) }
{
    if let Some(line) = last {
        if let Some(behind) = behind(text, line.text) {
            return Some(behind);
        }
    }
    let (line, behind) = PlainLine::read_on(text, subject)?;
    *last = Some(line);
    Some(behind)
}

/// Whether a text may begin with a publication on this subject, as far as it goes: it does not begin with one on another that is plainly
/// written.
pub fn may_be_on(text: &[u8], subject: &Subject) -> bool {
    let Some(fields) = behind(text, PUB) else {
        return true;
    };
    let subject = subject.bytes();
    fields.len() < subject.len() || behind(fields, subject).is_some()
}

/// Publications that a connection lends: they stand one behind another in what was read, plainly written, on one subject: `PUB` in
/// capitals, one blank before each field, and CR LF; then the payload, whole, and CR LF. Nothing is copied, and it takes no memory. (NATS
/// documentation, "Client Protocol": `PUB`.)
///
/// Seen as how far they are given, their subject, and whether the client's own subscriptions may get them.
#[derive(Drop)]
pub struct LentRun<'a> {
    behind: &'a [u8],
    subject: &'a [u8],
    /// The line that was passed last, or, at first, the one that comes next.
    last: Option<PlainLine<'a>>,
    left: usize,
    echo: bool,
}

impl<'a> Model for LentRun<'a> {
    ghost use Rattle.std.specs.Prelude.{◌≡◌, None, IfSome};
    ghost use Rattle.subj.specs.Names.{subject_fault};
    ghost use Rattle.publication_runs.specs.Lent.{LentState};

    ghost Value = { LentState };

    ghost view = { λ lent. record {
      run = record { behind = lent.behind.now; left = lent.left };
      subject = lent.subject.now;
      echo = lent.echo;
    } };

    ghost invariant = { λ lent.
        (subject_fault lent.subject.now ≡ None)
        × IfSome lent.last (λ line. line.fields.subject.now ≡ lent.subject.now) };
}

impl<'a> LentRun<'a> {
    ghost use Rattle.publication_runs.specs.Cuts.{HasNoLine};
    ghost use Rattle.publication_runs.specs.Scans.{HasEnded};
    ghost use Rattle.publication_runs.specs.Lent.{GivesOne, IsAheadAs, begins_lent};

    /// The publications on one subject that a text begins with, at most so many. None just where it does not begin with the line of one.
    pub fn new(text: &'a [u8], most: usize, echo: bool) -> Option<LentRun<'a>>
        ensures some { IfSome result (λ lent.
            lent ≡ begins_lent text.now lent.subject most echo) }
        ensures none { IfNone result (HasNoLine text.now) }
    {
        let (line, _) = PlainLine::read(text)?;
        Some(LentRun {
            behind: text,
            subject: line.fields.subject,
            last: Some(line),
            left: most,
            echo,
        })
    }

    /// What they are published on.
    pub fn subject(&self) -> LentSubject<'a>
        ensures { result ≡ self.now.subject }
    {
        LentSubject::of(self.subject)
    }

    /// Whether the client's own subscriptions may get them.
    pub fn echo(&self) -> bool
        ensures { result ≡ self.now.echo }
    {
        self.echo
    }

    /// How many bytes stand behind those that were given.
    pub fn left(&self) -> usize
        ensures { result ≡ length self.now.run.behind }
    {
        self.behind.len()
    }

    /// The next one, which is not given yet. None just where as many were given as were wanted, or the text goes on with none that is
    /// lent: with another command, with a line that is on another subject, written in another way or refused, or with a payload that is
    /// not whole.
    #[inline(always)]
    pub fn peek(&mut self) -> Option<LentAhead<'a>>
        ensures found { IfSome result (λ ahead.
            IsAheadAs ahead.behind.now ahead.publication self.old) }
        ensures same { self.new ≡ self.old }
        ensures ended { IfNone result (HasEnded self.old.subject self.old.run) }
    {
        if self.left == 0 {
            return None;
        }
        let behind_line = pass_line(&mut self.last, &LentSubject::of(self.subject), self.behind)?;
        let Some(line) = self.last else {
            // ensured: a line was passed
            unreachable!()
        };
        let (payload, behind) = split_payload(behind_line, line.size)?;
        Some(LentAhead {
            publication: LentPub::new(self.subject(), line.fields.reply, payload, self.echo),
            behind,
        })
    }

    /// The next one is given. Required: it is this one.
    #[inline(always)]
    pub fn pass(&mut self, ahead: &LentAhead<'a>)
        requires { IsAheadAs ahead.now.behind.now ahead.now.publication self.old }
        ensures { GivesOne ahead.now.publication self.old self.new }
    {
        self.behind = ahead.behind;
        self.left -= 1;
    }
}

/// A publication that is lent next.
#[derive(Drop)]
pub struct LentAhead<'a> {
    pub publication: LentPub<'a>,
    /// What stands behind it in what was read.
    pub behind: &'a [u8],
}
