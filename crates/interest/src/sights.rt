//! What a pattern tells of those behind it in the order of bytes: whether it matches a subject itself, and
//! which beginning the next one that may match has.

ghost use Rattle.std.specs.Prelude.{◌≡◌, ◌&&◌, true, false, is_none, None};
ghost use Rattle.std.specs.Option.{option_copied};
ghost use Rattle.subj.specs.Names.{is_rest_wildcard};
ghost use Rattle.subj.specs.Matching.{takes_token as takes};
ghost use Rattle.subj.specs.QueueNames.{is_before as stands_before};
ghost use Rattle.interest.specs.Sights.{nearer as nearer_of, nearest as nearest_of, next_of, later as later_of, sight_of, text_if, text_of, IsLevelOf, IsSightOf};

use subj::split_token;

/// A beginning of patterns.
#[derive(Clone, Copy)]
pub(crate) struct Beginning<'a> {
    /// What stands before its last token.
    before: &'a [u8],
    /// Its last token, with the dot behind it where one has to follow.
    last: &'a [u8],
}

/// What the first tokens of a pattern and of a subject tell.
#[derive(Clone, Copy)]
enum Level<'a> {
    /// The pattern matches.
    Match,
    /// The first token of the pattern takes that of the subject. With its dot it has this width, and the
    /// subject goes on so.
    Further(usize, &'a [u8]),
    /// The pattern does not match.
    Apart,
}

/// What a pattern tells of itself and of those behind it.
#[derive(Clone, Copy)]
pub(crate) enum Sight<'a> {
    /// It matches.
    Match,
    /// It does not match, and nor does any behind it that stands before this beginning.
    Before(Beginning<'a>),
    /// It does not match, and nor does any behind it.
    Nothing,
}

/// Whether a text stands before another in the order of bytes.
fn is_before(text: &[u8], other: &[u8]) -> bool
    ensures { result ≡ stands_before text.now other.now }
{
    text.cmp(other).is_lt()
}

impl Beginning<'_> {
    /// Whether the text stands before the beginning.
    pub(crate) fn is_behind(&self, text: &[u8]) -> bool
        ensures { result ≡ stands_before text.now (text_of self.now) }
    {
        match text.strip_prefix(self.before) {
            Some(rest) => is_before(rest, self.last),
            None => is_before(text, self.before),
        }
    }
}

/// The nearer of two texts that stand behind the rest of a pattern, where the second may be none.
fn nearer<'a>(rest: &[u8], text: &'a [u8], other: Option<&'a [u8]>) -> Option<&'a [u8]>
    ensures { option_copied result ≡ nearer_of rest.now text.now (option_copied other.entry) }
{
    if !is_before(rest, text) {
        return other;
    }
    match other {
        Some(other) if !is_before(text, other) => Some(other),
        _ => Some(text),
    }
}

/// The nearest of `>` and these two that stands behind the rest of a pattern.
fn nearest<'a>(rest: &[u8], star: &'a [u8], token: &'a [u8]) -> Option<&'a [u8]>
    ensures { option_copied result ≡ nearest_of rest.now star.now token.now }
{
    nearer(rest, token, nearer(rest, star, nearer(rest, b">", None)))
}

/// The next token behind the rest of a pattern that takes the first token of the subject, with its dot.
fn next_token<'a>(rest: &[u8], subject: &'a [u8]) -> Option<&'a [u8]>
    ensures { option_copied result ≡ next_of rest.now subject.now }
{
    let (token, behind) = split_token(subject);
    match behind {
        None => nearest(rest, b"*", token),
        Some(_) => nearest(rest, b"*.", &subject[..token.len() + 1]),
    }
}

/// Whether the token of a pattern takes all that is left, with what stands behind it.
fn takes_rest(wanted: &[u8], behind: Option<&[u8]>) -> bool
    ensures rest { result ≡ true → is_rest_wildcard wanted.now ≡ true }
    ensures last { result ≡ true → option_copied behind.entry ≡ None }
    ensures other { result ≡ false
        → (is_rest_wildcard wanted.now && is_none (option_copied behind.entry)) ≡ false }
{
    behind.is_none() && matches!(wanted, b">")
}

/// Whether the token of a pattern takes the token of a subject.
fn takes_token(wanted: &[u8], token: &[u8]) -> bool
    ensures { result ≡ takes wanted.now token.now }
{
    matches!(wanted, b"*") || wanted == token
}

/// What the first tokens of the rest of a pattern and of a subject tell.
fn first_level<'a>(rest: &[u8], subject: &'a [u8]) -> Level<'a>
    ensures { IsLevelOf rest.now subject.now result }
{
    let (wanted, behind) = split_token(rest);
    let (token, subject_behind) = split_token(subject);
    if takes_rest(wanted, behind) {
        return Level::Match;
    }
    if !takes_token(wanted, token) {
        return Level::Apart;
    }
    match (behind, subject_behind) {
        (Some(_), Some(left)) => Level::Further(wanted.len() + 1, left),
        (None, None) => Level::Match,
        (Some(_), None) => Level::Apart,
        (None, Some(_)) => Level::Apart,
    }
}

/// The beginning of this token, where there is one, or the one that was known.
fn later<'a>(
    before: &'a [u8],
    last: Option<&'a [u8]>,
    known: Option<Beginning<'a>>,
) -> Option<Beginning<'a>>
    ensures { text_if result
        ≡ later_of before.now (option_copied last.entry) (text_if known.entry) }
{
    match last {
        Some(last) => Some(Beginning { before, last }),
        None => known,
    }
}

/// What a pattern tells that does not match, and that has this beginning behind it.
fn sight_before(beginning: Option<Beginning<'_>>) -> Sight<'_>
    ensures { result ≡ sight_of beginning.entry }
{
    match beginning {
        Some(beginning) => Sight::Before(beginning),
        None => Sight::Nothing,
    }
}

/// What a pattern tells where a subject is looked for.
pub(crate) fn look<'a>(pattern: &'a [u8], subject: &'a [u8]) -> Sight<'a>
    ensures { IsSightOf pattern.now subject.now result }
{
    let mut done = 0;
    let mut left = subject;
    let mut beginning = None;
    loop {
        let rest = &pattern[done..];
        beginning = later(&pattern[..done], next_token(rest, left), beginning);
        match first_level(rest, left) {
            Level::Match => return Sight::Match,
            Level::Further(width, behind) => {
                done += width;
                left = behind;
            }
            Level::Apart => return sight_before(beginning),
        }
    }
}
