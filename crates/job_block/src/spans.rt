//! Parts of the text of a block.

ghost use Rattle.std.specs.Prelude.{◌≡◌, true, IfOk, IfSome, OnErr};
ghost use Rattle.std.specs.Option.{option_copied};
ghost use Rattle.job_block.specs.Publications.{content_by};
ghost use Rattle.job_block.specs.Spans.{AreSpans, Extends, IsOptionalPart, IsPart, IsSpan, IsSpelt, content_in, optional_part, part};

use crate::publications::PublicationParts;
use std::alloc::AllocError;

/// Where bytes stand in a text.
#[derive(Clone, Copy)]
pub(crate) struct Span {
    pub(crate) start: usize,
    /// The place behind the last of them.
    pub(crate) end: usize,
}

impl Span {
    /// The bytes.
    pub(crate) fn of(self, text: &[u8]) -> &[u8]
        requires { IsSpan text.now self }
        ensures { result.now ≡ part text.now self }
    {
        &text[self.start..self.end]
    }
}

/// The bytes, where there is a span.
fn optional_of(span: Option<Span>, text: &[u8]) -> Option<&[u8]>
    requires { IfSome span (IsSpan text.now) }
    ensures { option_copied result ≡ optional_part text.now span }
{
    match span {
        None => None,
        Some(span) => Some(span.of(text)),
    }
}

/// Where the parts of a publication stand in a text.
#[derive(Clone, Copy)]
pub(crate) struct Spans {
    pub(crate) subject: Span,
    pub(crate) reply: Option<Span>,
    pub(crate) headers: Option<Span>,
    pub(crate) payload: Span,
}

impl Spans {
    /// The parts.
    pub(crate) fn parts<'a>(&self, text: &'a [u8]) -> PublicationParts<'a>
        requires { AreSpans text.now self.now }
        ensures { content_by result ≡ content_in text.now self.now }
    {
        PublicationParts {
            subject: self.subject.of(text),
            reply: optional_of(self.reply, text),
            headers: optional_of(self.headers, text),
            payload: self.payload.of(text),
        }
    }
}

/// Puts bytes behind the text: where they stand then.
#[tactic(auto, using(crate::proofs::Texts::part_put, crate::proofs::Texts::extends_by, crate::proofs::Texts::extends_same))]
fn append(text: &mut Vec<u8>, bytes: &[u8]) -> Result<Span, AllocError>
    ensures part { IfOk result (λ span. IsPart text.new.items span bytes.now) }
    ensures text { Extends text.old.items text.new.items }
{
    let start = text.len();
    text.extend_from_slice(bytes)?;
    let end = text.len();
    Ok(Span { start, end })
}

/// Puts bytes behind the text, where there are any: where they stand then.
#[inline(always)]
fn append_optional(text: &mut Vec<u8>, bytes: Option<&[u8]>) -> Result<Option<Span>, AllocError>
    ensures part { IfOk result (λ span.
        IsOptionalPart text.new.items span (option_copied bytes.entry)) }
    ensures text { Extends text.old.items text.new.items }
{
    match bytes {
        None => Ok(None),
        Some(bytes) => Ok(Some(append(text, bytes)?)),
    }
}

/// Puts a subject behind the text, if it does not stand there already: where it stands then.
fn append_subject(
    text: &mut Vec<u8>,
    there: Option<Span>,
    subject: &[u8],
) -> Result<Span, AllocError>
    requires { IfSome there (λ span. IsPart text.old.items span subject.now) }
    ensures part { IfOk result (λ span. IsPart text.new.items span subject.now) }
    ensures text { Extends text.old.items text.new.items }
{
    match there {
        None => append(text, subject),
        Some(span) => Ok(span),
    }
}

/// Puts the parts of a publication behind the text; its subject may stand there already. For want of memory some of them may
/// stand there.
#[inline(always)]
fn append_parts(
    text: &mut Vec<u8>,
    subject: Option<Span>,
    publication: &PublicationParts<'_>,
) -> Result<Spans, AllocError>
    requires { IfSome subject (λ span.
        IsPart text.old.items span publication.now.subject.now) }
    ensures spans { IfOk result (λ spans.
        IsSpelt text.new.items spans (content_by publication.now)) }
    ensures text { Extends text.old.items text.new.items }
{
    let subject = append_subject(text, subject, publication.subject)?;
    let reply = append_optional(text, publication.reply)?;
    let headers = append_optional(text, publication.headers)?;
    let payload = append(text, publication.payload)?;
    Ok(Spans {
        subject,
        reply,
        headers,
        payload,
    })
}

/// Puts the parts of a publication behind the text; its subject may stand there already. Want of memory leaves the text as it was.
#[inline(always)]
pub(crate) fn put(
    text: &mut Vec<u8>,
    subject: Option<Span>,
    publication: &PublicationParts<'_>,
) -> Result<Spans, AllocError>
    requires { IfSome subject (λ span.
        IsPart text.old.items span publication.now.subject.now) }
    ensures spans { IfOk result (λ spans.
        IsSpelt text.new.items spans (content_by publication.now)) }
    ensures text { Extends text.old.items text.new.items }
    ensures err { OnErr result (text.new.items ≡ text.old.items) }
{
    let before = text.len();
    let put = append_parts(text, subject, publication);
    if put.is_err() {
        text.truncate(before);
    }
    put
}
