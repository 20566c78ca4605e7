//! A line of a file of cases.

use crate::words::number;

/// What a line says.
#[derive(Clone, Copy)]
pub enum Line<'a> {
    /// Nothing: it is empty or a comment.
    Nothing,
    /// The case of this name begins.
    Case(&'a str),
    /// A call, with its answer.
    Call(&'a str),
    /// Calls, once for each of some numbers.
    Times(Times<'a>),
}

/// Calls with their answers, and the first and the last number that they are made for.
#[derive(Clone, Copy)]
pub struct Times<'a> {
    pub first: u64,
    pub last: u64,
    pub calls: &'a str,
}

/// Reads a line. One that begins with `times` and has no numbers there is a call of that name, which no program has.
pub fn read_line(text: &str) -> Line<'_> {
    if text.is_empty() || text.starts_with('#') {
        return Line::Nothing;
    }
    if let Some(name) = text.strip_prefix("case ") {
        return Line::Case(name);
    }
    match read_times(text) {
        Some(times) if times.first <= times.last => Line::Times(times),
        _ => Line::Call(text),
    }
}

/// The calls of a line that begins with `times N` or `times FIRST..LAST`.
fn read_times(text: &str) -> Option<Times<'_>> {
    let (numbers, calls) = text.strip_prefix("times ")?.split_once(' ')?;
    let (first, last) = numbers.split_once("..").unwrap_or(("1", numbers));
    Some(Times {
        first: number(first),
        last: number(last),
        calls,
    })
}
