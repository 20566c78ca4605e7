//! How a call that can be refused, and that takes memory, fails.

use std::alloc::{AllocError, AllocFailed};
use std::error::Error;
use std::fmt;
use std::fmt::{Display, Formatter, Write};

/// Why a call did not do what it was asked.
///
/// A call tells a refusal wherever it has a cause for one, and want of memory only where it has none.
#[derive(Clone, Copy, Debug, PartialEq, Eq, Drop)]
pub enum Failure<R> {
    /// A named refusal of the crate that answers.
    Refused(R),
    /// The allocator gave no memory.
    OutOfMemory,
}

impl<R: Drop> Failure<R> {
    ghost use Rattle.subj.specs.Answers.{IsWantOfMemory};

    /// How a call failed that had no cause to be refused. Required: it was not refused.
    pub fn want_of_memory(self) -> AllocError
        requires { IsWantOfMemory self }
    {
        match self {
            // required: the call was not refused
            Failure::Refused(_) => unreachable!(),
            Failure::OutOfMemory => AllocError,
        }
    }
}

impl<R: Display> Display for Failure<R> {
    fn fmt<W: Write>(&self, f: &mut Formatter<W>) -> fmt::Result {
        match self {
            Failure::Refused(cause) => write!(f, "{cause}"),
            Failure::OutOfMemory => f.write_str("out of memory"),
        }
    }
}

impl<R: Error> Error for Failure<R> {}

impl<R> From<AllocError> for Failure<R> {
    ghost use Rattle.std.specs.Prelude.{◌≡◌};
    ghost use Rattle.subj.specs.declared.failures.Failure.TheVariants.{OutOfMemory};

    ghost from_gives = { λ _ failure. failure ≡ OutOfMemory };

    fn from(_: AllocError) -> Failure<R> {
        Failure::OutOfMemory
    }
}

impl<R, T: Drop> From<AllocFailed<T>> for Failure<R> {
    ghost use Rattle.std.specs.Prelude.{◌≡◌};
    ghost use Rattle.subj.specs.declared.failures.Failure.TheVariants.{OutOfMemory};

    ghost from_gives = { λ _ failure. failure ≡ OutOfMemory };

    fn from(_: AllocFailed<T>) -> Failure<R> {
        Failure::OutOfMemory
    }
}
