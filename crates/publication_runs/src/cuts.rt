//! Cuts a text: what it begins with, the fields of a line, a payload.

ghost use Rattle.std.specs.Prelude.{◌≡◌, ◌++◌, MatchOption};
ghost use Rattle.std.specs.Option.{option_copied};
ghost use Rattle.client_frames.specs.Messages.{reply_field};
ghost use Rattle.publication_runs.specs.Cuts.{BeginsOtherwise, BeginsWithFields, BeginsWithPayload, HasNo, HasNoFields, HasNoPayload, IsCutAt, IsCutTail, fields_in};

use line_fields::CR_LF;
use memchr::memchr;

/// What the line of a publication begins with. (NATS documentation, "Client Protocol".)
pub(crate) const PUB: &[u8] = b"PUB ";

/// What stands behind these bytes. None just where the text does not begin with them.
#[inline(always)]
pub(crate) fn behind<'a>(text: &'a [u8], front: &[u8]) -> Option<&'a [u8]>
    ensures { MatchOption result (BeginsOtherwise front.now text.now)
        (λ rest. text.now ≡ front.now ++ rest.now) }
{
    text.strip_prefix(front)
}

/// What stands before the first such byte, and behind it. None just where the text has none.
fn split_at_byte(text: &[u8], byte: u8) -> Option<(&[u8], &[u8])>
    ensures { MatchOption result (HasNo byte text.now)
        (λ split. IsCutAt byte text.now split.0.now split.1.now) }
{
    let at = memchr(byte, text)?;
    let (front, rest) = text.split_at(at);
    Some((front, &rest[1..]))
}

/// The payload of so many bytes that a text begins with, and what stands behind its CR LF. None just where there are fewer bytes, or no
/// CR LF stands behind them.
#[inline(always)]
pub(crate) fn split_payload(text: &[u8], size: usize) -> Option<(&[u8], &[u8])>
    ensures { MatchOption result (HasNoPayload size text.now)
        (λ split. BeginsWithPayload size text.now split.0.now split.1.now) }
{
    let (payload, end) = text.split_at_checked(size)?;
    Some((payload, behind(end, CR_LF)?))
}

/// The reply, where there is one, and what stands behind it.
fn split_reply(tail: &[u8]) -> (Option<&[u8]>, &[u8])
    ensures whole { tail.now ≡ reply_field (option_copied result.0) ++ result.1.now }
    ensures cut { IsCutTail (option_copied result.0) result.1.now }
{
    match split_at_byte(tail, b' ') {
        Some((reply, digits)) => (Some(reply), digits),
        None => (None, tail),
    }
}

/// The fields of the line of a publication, as they are written.
#[derive(Clone, Copy)]
pub(crate) struct LineFields<'a> {
    pub(crate) subject: &'a [u8],
    pub(crate) reply: Option<&'a [u8]>,
    /// All that stands where the size is due.
    pub(crate) digits: &'a [u8],
}

impl<'a> LineFields<'a> {
    /// The fields of the line that a text begins with, and what stands behind its CR LF. None just where the text does not begin with
    /// `PUB`, a blank, a field, another blank, and more up to CR LF.
    pub(crate) fn cut(text: &'a [u8]) -> Option<(LineFields<'a>, &'a [u8])>
        ensures { MatchOption result (HasNoFields text.now)
            (λ cut. BeginsWithFields (fields_in cut.0) text.now cut.1.now) }
    {
        let (line, end) = split_at_byte(behind(text, PUB)?, b'\r')?;
        let behind_line = behind(end, b"\n")?;
        let (subject, tail) = split_at_byte(line, b' ')?;
        let (reply, digits) = split_reply(tail);
        let fields = LineFields {
            subject,
            reply,
            digits,
        };
        Some((fields, behind_line))
    }
}
