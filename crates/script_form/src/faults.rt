//! Why bytes are no script.

ghost use Rattle.std.specs.Prelude.{◌≡◌};
ghost use Rattle.script_form.specs.Faults.{script_fault_number};

use crate::steps::Member;
use std::fmt;
use std::fmt::{Debug, Display, Formatter, Write};
use subj::{JOIN_EVENTS, SCRIPT_BYTES, SCRIPT_EVENTS};
use thiserror::Error;

/// Why bytes are no script. The first cause that holds is told. (Profile.)
#[derive(Clone, Copy, Debug, Error)]
pub enum ScriptFault {
    /// The bytes are no JSON, or not UTF-8.
    #[error("the script is not JSON")]
    NotJson = 90,
    /// The JSON has not the form of a script.
    #[error("the script has not the form that it has to have")]
    BadShape = 91,
    /// There are more than [`subj::SCRIPT_BYTES`] bytes, or more than [`subj::SCRIPT_EVENTS`] events, of which a
    /// join counts as [`subj::JOIN_EVENTS`].
    #[error("the script is too long: at most {bytes} bytes, and {events} events, of which a join counts as {join}", bytes = SCRIPT_BYTES, events = SCRIPT_EVENTS, join = JOIN_EVENTS)]
    TooLong = 92,
}

impl ScriptFault {
    /// The number that the router tells of this refusal, 90 to 92.
    pub fn number(self) -> u16
        ensures { result ≡ script_fault_number self }
    {
        self as u16
    }
}

/// Where a script is not as it has to be.
#[derive(Clone, Copy)]
pub enum Place {
    /// The script as a whole.
    Whole,
    /// Where the bytes cease to be JSON: the line and the column, each from 1.
    Text { line: usize, column: usize },
    /// This member of the script.
    Member { member: Member },
    /// This member of the step of this number, from 1.
    Step { number: usize, member: Member },
}

impl Display for Place {
    fn fmt<W: Write>(&self, f: &mut Formatter<W>) -> fmt::Result {
        match self {
            Place::Whole => f.write_str("the script"),
            Place::Text { line, column } => write!(f, "line {line}, column {column}"),
            Place::Member { member } => write!(f, "member \"{}\"", member.name()),
            Place::Step { number, member } => write!(
                f,
                "step {number}, member \"{}\"",
                member.name()
            ),
        }
    }
}

/// Why bytes are no script, and where.
#[derive(Clone, Copy, Error)]
#[error("{place}: {fault}")]
pub struct ScriptError {
    /// The first cause that holds.
    pub fault: ScriptFault,
    /// A place where it does, to be shown to who wrote the script.
    pub place: Place,
}

/// As it is told.
impl Debug for ScriptError {
    fn fmt<W: Write>(&self, f: &mut Formatter<W>) -> fmt::Result {
        Display::fmt(self, f)
    }
}
