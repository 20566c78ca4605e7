//! Why bytes are no log.

ghost use Rattle.std.specs.Prelude.{◌≡◌};
ghost use Rattle.audit_log.specs.Faults.{log_fault_number};

use thiserror::Error;

/// Why a line that begins as an object is none of a log's. The first cause that holds is told. (Profile.)
#[derive(Clone, Copy, Debug, Error)]
pub enum LogFault {
    /// It is no JSON, or not UTF-8.
    #[error("the line is not JSON")]
    NotJson = 90,
    /// It is a publication, a subscription or a placement, and has not the form of one.
    #[error("the line has not the form that it has to have")]
    BadShape = 91,
}

impl LogFault {
    /// The number that is told of this refusal, 90 or 91.
    pub fn number(self) -> u16
        ensures { result ≡ log_fault_number self }
    {
        self as u16
    }
}

/// Why bytes are no log, and where.
#[derive(Clone, Copy, Debug, Error)]
#[error("line {line}: {fault}")]
pub struct LogError {
    /// The cause.
    pub fault: LogFault,
    /// The line that is refused, from 1, to be shown to who wrote the log.
    pub line: u64,
}
