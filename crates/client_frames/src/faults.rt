//! Why a line is refused.

ghost use Rattle.std.specs.Prelude.{◌≡◌};
ghost use Rattle.client_frames.specs.Faults.{line_fault_number};

use subj::Failure;
use thiserror::Error;

/// Why a control line of a client is refused, or what comes behind it. (Profile.)
#[derive(Clone, Copy, Debug, PartialEq, Eq, Error)]
pub enum LineFault {
    /// The line is empty or begins with a blank, or its first field is no operation.
    #[error("the line begins with no known operation")]
    UnknownOp = 20,
    /// Too few or too many fields, or a size, a subscription id or the name of a queue group that is none.
    #[error("the operation has other fields than it takes")]
    BadArgs = 21,
    /// The text of a `CONNECT` is no JSON object, or one of its members is of another kind.
    #[error("the options are not a JSON object of the members that are known")]
    BadJson = 22,
    /// The pattern of a `SUB` is none, or the subject or the reply of a publication.
    #[error("the subject is not valid: tokens with dots between them, none of them empty, and wildcards in a pattern alone")]
    BadSubject = 23,
    /// The header block of an `HPUB` is none.
    #[error("the header block does not begin with NATS/1.0")]
    BadHeader = 24,
}

impl LineFault {
    /// The number that the router tells of this refusal, 20 to 24.
    pub fn number(self) -> u16
        ensures { result ≡ line_fault_number self }
    {
        self as u16
    }
}

impl From<LineFault> for Failure<LineFault> {
    ghost use Rattle.std.specs.Prelude.{◌≡◌};
    ghost use Rattle.subj.specs.declared.failures.Failure.TheVariants.{Refused};

    ghost from_gives = { λ fault failure. failure ≡ Refused fault };

    fn from(fault: LineFault) -> Failure<LineFault> {
        Failure::Refused(fault)
    }
}
