//! Bytes as a file of cases writes them.

ghost use Rattle.std.specs.Prelude.{◌<◌};

use crate::words::number;
use std::alloc::{AllocError, Global};
use std::fmt::{Display, Write};

/// The text with each `<<TEXT*N>>` written out.
pub fn written_out(alloc: Global, text: &str) -> Result<String, AllocError> {
    let mut whole = String::new(alloc);
    let mut parts = text.split("<<");
    whole.push_str(parts.next().unwrap_or(""))?;
    for part in parts {
        push_part(&mut whole, part)?;
    }
    Ok(whole)
}

/// What stands behind `<<`, up to the next one: the repeated text, `>>`, and what is as it stands.
fn push_part(whole: &mut String, part: &str) -> Result<(), AllocError> {
    let (repeated, rest) = part.split_once(">>").unwrap_or((part, ""));
    let (text, times) = repeated.rsplit_once('*').unwrap_or((repeated, "1"));
    for _time in 0..number(times) {
        whole.push_str(text)?;
    }
    whole.push_str(rest)
}

/// Where in an escape a byte stands.
#[derive(Clone, Copy)]
enum Place {
    /// In none.
    Plain,
    /// Behind the backslash.
    Escaped,
    /// Behind `\x`.
    FirstDigit,
    /// Behind `\x` and a digit of this value.
    LastDigit(u8),
}

/// The value of a hexadecimal digit, 0 where it is none.
fn digit(byte: u8) -> u8
    ensures { result < 16 }
{
    match byte {
        b'0'..=b'9' => byte - b'0',
        b'a'..=b'f' => byte - b'a' + 10,
        _ => 0,
    }
}

/// The byte that is meant, where this one ends one, and where the next one stands.
fn step(place: Place, byte: u8) -> (Option<u8>, Place) {
    match (place, byte) {
        (Place::Plain, b'\\') => (None, Place::Escaped),
        (Place::Plain, _) => (Some(byte), Place::Plain),
        (Place::Escaped, b'r') => (Some(b'\r'), Place::Plain),
        (Place::Escaped, b'n') => (Some(b'\n'), Place::Plain),
        (Place::Escaped, b'x') => (None, Place::FirstDigit),
        (Place::Escaped, _) => (Some(byte), Place::Plain),
        (Place::FirstDigit, _) => (None, Place::LastDigit(digit(byte))),
        (Place::LastDigit(first), _) => (Some(first % 16 * 16 + digit(byte)), Place::Plain),
    }
}

/// The bytes that the text stands for.
pub fn bytes_of(alloc: Global, text: &str) -> Result<Vec<u8>, AllocError> {
    let whole = written_out(alloc, text)?;
    let mut bytes = Vec::new(alloc);
    let mut place = Place::Plain;
    for byte in whole.bytes() {
        let (meant, next) = step(place, byte);
        if let Some(meant) = meant {
            bytes.push(meant)?;
        }
        place = next;
    }
    Ok(bytes)
}

/// Puts a byte as a file of cases writes it.
fn push_byte(text: &mut String, byte: u8) -> Result<(), AllocError> {
    match byte {
        b'\r' => text.push_str("\\r"),
        b'\n' => text.push_str("\\n"),
        b'\\' => text.push_str("\\\\"),
        b' '..=b'~' => text.push(char::from(byte)),
        _ => Ok(write!(text, "\\x{byte:02x}")?),
    }
}

/// Puts the bytes as a file of cases writes them.
pub fn push_shown(text: &mut String, bytes: &[u8]) -> Result<(), AllocError> {
    for byte in bytes {
        push_byte(text, *byte)?;
    }
    Ok(())
}

/// This text, and the bytes behind it.
pub fn shown(alloc: Global, before: &str, bytes: &[u8]) -> Result<String, AllocError> {
    let mut answer = text(alloc, before)?;
    push_shown(&mut answer, bytes)?;
    Ok(answer)
}

/// The text as an answer.
pub fn text(alloc: Global, text: &str) -> Result<String, AllocError> {
    String::from_str(alloc, text)
}

/// The answer to a question.
pub fn yes_or_no(alloc: Global, is_so: bool) -> Result<String, AllocError> {
    text(alloc, if is_so { "yes" } else { "no" })
}

/// The value stands in this place from now on.
pub fn put<T: Drop>(place: &mut T, value: T) {
    *place = value;
}

/// Tells this text.
pub fn tell(answer: &mut String, text: &str) -> Option<()> {
    answer.push_str(text).ok()
}

/// Tells this text, and a number behind it.
pub fn tell_number(answer: &mut String, before: &str, number: u64) -> Option<()> {
    write!(answer, "{before}{number}").ok()
}

/// What is told to a call. Each part is told by a call that gives nothing where memory ran out, for this part or for one before it: of
/// several parts only the last has to be asked.
#[derive(Drop)]
pub struct Answer {
    text: String,
    is_whole: bool,
}

impl Answer {
    /// Nothing is told.
    pub fn new(alloc: Global) -> Answer {
        Answer {
            text: String::new(alloc),
            is_whole: true,
        }
    }

    /// Nothing is told any more.
    pub fn clear(&mut self) {
        self.text.clear();
    }

    /// Whether nothing is told.
    pub fn is_empty(&self) -> bool {
        self.text.is_empty()
    }

    /// What is told so far.
    pub fn as_str(&self) -> &str {
        self.text.as_str()
    }

    /// Gives nothing where memory ran out for a part.
    pub fn so_far(&self) -> Option<()> {
        if self.is_whole { Some(()) } else { None }
    }

    /// Notes whether there was memory for a part.
    fn note(&mut self, is_told: bool) -> Option<()> {
        self.is_whole = self.is_whole && is_told;
        self.so_far()
    }

    /// Tells this text.
    pub fn tell(&mut self, text: &str) -> Option<()> {
        let is_told = self.text.push_str(text).is_ok();
        self.note(is_told)
    }

    /// Tells this text, and the bytes behind it.
    pub fn tell_bytes(&mut self, before: &str, bytes: &[u8]) -> Option<()> {
        self.tell(before);
        let is_told = push_shown(&mut self.text, bytes).is_ok();
        self.note(is_told)
    }

    /// Tells this text, and a number behind it.
    pub fn tell_number(&mut self, before: &str, number: u64) -> Option<()> {
        let is_told = tell_number(&mut self.text, before, number).is_some();
        self.note(is_told)
    }

    /// Tells this text, and a value behind it.
    pub fn tell_value<T: Display>(&mut self, before: &str, value: &T) -> Option<()> {
        self.tell(before);
        let is_told = write!(self.text, "{value}").is_ok();
        self.note(is_told)
    }

    /// Tells the number of a refusal.
    pub fn tell_refusal(&mut self, number: u16) -> Option<()> {
        self.tell_number("refused ", u64::from(number))
    }

    /// Tells this text and a number behind it, or that there is none.
    pub fn tell_choice(&mut self, before: &str, number: Option<u64>) -> Option<()> {
        match number {
            None => self.tell("none"),
            Some(number) => self.tell_number(before, number),
        }
    }

    /// Tells this text and a number behind it, where there is one.
    pub fn tell_any(&mut self, before: &str, number: Option<u64>) -> Option<()> {
        match number {
            None => self.so_far(),
            Some(number) => self.tell_number(before, number),
        }
    }

    /// Tells this text where something is so.
    pub fn tell_if(&mut self, is_so: bool, text: &str) -> Option<()> {
        self.tell(if is_so { text } else { "" })
    }

    /// Answers a question.
    pub fn tell_whether(&mut self, is_so: bool) -> Option<()> {
        self.tell(if is_so { "yes" } else { "no" })
    }

    /// All that was told, or this text in place of an empty answer. It is want of memory where a call could not be made.
    pub fn told_or(
        self,
        alloc: Global,
        empty: &str,
        is_told: Option<()>,
    ) -> Result<String, AllocError> {
        if is_told.is_none() || !self.is_whole {
            return Err(AllocError);
        }
        if self.text.is_empty() {
            return text(alloc, empty);
        }
        Ok(self.text)
    }

    /// All that was told, or `nothing` in place of an empty answer. Where a call could not be made, there is none of its name, or one of its
    /// words stands for nothing.
    pub fn told(self, alloc: Global, is_told: Option<()>) -> Result<String, AllocError> {
        if is_told.is_none() || !self.is_whole {
            return text(alloc, "no such call or value");
        }
        if self.text.is_empty() {
            return text(alloc, "nothing");
        }
        Ok(self.text)
    }
}
