//! What the bytes of a name must be, tested without memory.

ghost use Rattle.std.specs.Prelude.{◌≡◌, ◌+◌, ◌<◌, ◌∷◌, length, position, IfSome};
ghost use Rattle.std.specs.Option.{option_copied};
ghost use Rattle.subj.specs.Names.{tokens, tokens_behind, is_dot, is_forbidden, is_one_wildcard as one_wildcard, is_rest_wildcard as rest_wildcard, has_forbidden as some_forbidden, forbidden_fault};

use crate::faults::NameFault;

/// Whether the byte is in no subject, pattern, queue name or subscription id.
pub(crate) fn is_forbidden_byte(byte: u8) -> bool
    ensures { result ≡ is_forbidden byte }
{
    matches!(byte, 0 | b'\t' | b'\n' | b'\r' | b' ')
}

/// Whether the token stands for one token, whatever it is.
pub(crate) fn is_one_wildcard(token: &[u8]) -> bool
    ensures { result ≡ one_wildcard token.now }
{
    matches!(token, b"*")
}

/// Whether the token stands for one or more tokens, where it is the last.
pub(crate) fn is_rest_wildcard(token: &[u8]) -> bool
    ensures { result ≡ rest_wildcard token.now }
{
    matches!(token, b">")
}

/// Where the first dot of a text stands.
fn first_dot(text: &[u8]) -> Option<usize>
    ensures { result ≡ position is_dot text.now }
{
    text.iter().position(|byte| *byte == b'.')
}

/// The first token of a text, and what stands behind its dot where there is one.
pub fn split_token(text: &[u8]) -> (&[u8], Option<&[u8]>)
    ensures cut { tokens text.now ≡ result.0.now ∷ tokens_behind (option_copied result.1) }
    ensures shorter { IfSome result.1 (λ rest. length rest.now < length text.now) }
{
    match first_dot(text) {
        None => (text, None),
        Some(dot) => (&text[..dot], Some(&text[dot + 1..])),
    }
}

/// Whether there is a byte that no such name may have.
fn has_forbidden(text: &[u8]) -> bool
    ensures { result ≡ some_forbidden text.now }
{
    text.iter().any(|byte| is_forbidden_byte(*byte))
}

/// Too few or too many bytes, or one that no such name may have.
pub(crate) fn text_fault(text: &[u8], most: usize) -> Option<NameFault>
    ensures { result ≡ forbidden_fault most text.now }
{
    if text.is_empty() {
        return Some(NameFault::Empty);
    }
    if text.len() > most {
        return Some(NameFault::TooLong);
    }
    if has_forbidden(text) {
        return Some(NameFault::BadByte);
    }
    None
}
