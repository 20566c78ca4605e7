//! Calls by the parts of their names, and calls that are played once more.

use crate::words::Words;
use std::alloc::AllocError;

/// A call: what it is made on, what it is, and its arguments.
#[derive(Clone, Copy)]
pub struct Call<'a> {
    pub of: &'a str,
    pub name: &'a str,
    pub words: Words<'a>,
}

/// The call that a line is.
pub fn call_of(line: &str) -> Call<'_> {
    let (name, text) = line.split_once(' ').unwrap_or((line, ""));
    let (of, name) = name.split_once('.').unwrap_or((name, ""));
    Call {
        of,
        name,
        words: Words { text },
    }
}

/// Puts a call behind others, as a line: for a program that plays all of them anew.
pub fn push_line(calls: &mut String, name: &str, words: &Words<'_>) -> Result<(), AllocError> {
    calls.push_str(name)?;
    calls.push_str(" ")?;
    calls.push_str(words.text)?;
    calls.push_str("\n")
}
