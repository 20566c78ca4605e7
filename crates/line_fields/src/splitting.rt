//! The fields of a line.

ghost use Rattle.std.specs.Prelude.{◌≡◌, ◌∷◌, ◌++◌, [], true, position, MatchOption, IfSome, IfOk};
ghost use Rattle.line_fields.specs.Fields.{fields as fields_of, line_fields, texts, begins_with_field, is_blank as is_a_blank, is_field_byte, is_word as is_this_word};

use std::alloc::{AllocError, Global};

/// Whether the byte separates fields.
fn is_blank(byte: u8) -> bool
    ensures { result ≡ is_a_blank byte }
{
    byte == b' ' || byte == b'\t'
}

fn first_blank(text: &[u8]) -> Option<usize>
    ensures { result ≡ position is_a_blank text.now }
{
    text.iter().position(|byte| is_blank(*byte))
}

fn first_other(text: &[u8]) -> Option<usize>
    ensures { result ≡ position is_field_byte text.now }
{
    text.iter().position(|byte| !is_blank(*byte))
}

/// The field that a text begins with, and what stands behind it.
fn split_at_blank(text: &[u8]) -> (&[u8], &[u8])
    requires { begins_with_field text.now ≡ true }
    ensures fields { fields_of text.now ≡ result.0.now ∷ fields_of result.1.now }
    ensures whole { text.now ≡ result.0.now ++ result.1.now }
{
    match first_blank(text) {
        None => (text, &[]),
        Some(end) => text.split_at(end),
    }
}

/// The first field of a text, and what stands behind it; None just where the text has no field. Fields
/// are separated by spaces and tabs. (NATS documentation, "Client Protocol".)
pub fn split_field(text: &[u8]) -> Option<(&[u8], &[u8])>
    ensures { MatchOption result (fields_of text.now ≡ [])
        (λ split. fields_of text.now ≡ split.0.now ∷ fields_of split.1.now) }
{
    let Some(start) = first_other(text) else {
        return None;
    };
    let (_, rest) = text.split_at(start);
    Some(split_at_blank(rest))
}

/// The first field of a line, and all bytes behind it; None just where the line has none, as where it
/// begins with a blank. (Profile.)
pub fn split_line(line: &[u8]) -> Option<(&[u8], &[u8])>
    ensures fields { MatchOption result (line_fields line.now ≡ [])
        (λ split. line_fields line.now ≡ split.0.now ∷ fields_of split.1.now) }
    ensures whole { IfSome result (λ split. line.now ≡ split.0.now ++ split.1.now) }
{
    if is_blank(*line.first()?) {
        return None;
    }
    Some(split_at_blank(line))
}

/// All fields of a text, in order.
pub fn fields(alloc: Global, text: &[u8]) -> Result<Vec<&[u8]>, AllocError>
    ensures { IfOk result (λ all. texts all.items ≡ fields_of text.now) }
{
    let mut all = Vec::new(alloc);
    let mut rest = text;
    while let Some((field, behind)) = split_field(rest) {
        all.push(field)?;
        rest = behind;
    }
    Ok(all)
}

/// Whether the field is the word, whatever the case of its ASCII letters. (NATS documentation, "Client
/// Protocol".)
pub fn is_word(word: &[u8], field: &[u8]) -> bool
    ensures { result ≡ is_this_word word.now field.now }
{
    field.eq_ignore_ascii_case(word)
}
