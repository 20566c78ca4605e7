//! Why a server did not do what it was asked.

ghost use Rattle.std.specs.Prelude.{◌≡◌};
ghost use Rattle.node_core.specs.InCode.{result_in_code, number_of};

use node_law::NodeFault;
use subj::Failure;
use thiserror::Error;

/// Why a server did not do what it was asked.
///
/// It tells a fault wherever there is one, and want of memory only where there is none. (Profile.)
#[derive(Clone, Copy, Debug, PartialEq, Eq, Error)]
pub enum Refused {
    /// A named refusal.
    #[error("{0}")]
    Fault(NodeFault),
    /// The allocator gave no memory.
    #[error("out of memory")]
    OutOfMemory,
}

impl Refused {
    /// The number that the router tells of this refusal; none of want of memory.
    pub fn number(self) -> Option<u16>
        ensures { result ≡ number_of self }
    {
        match self {
            Refused::Fault(fault) => Some(fault.number()),
            Refused::OutOfMemory => None,
        }
    }
}

/// An answer whose refusal is a failure.
pub(crate) fn as_refused<X: Drop>(answer: Result<X, Failure<NodeFault>>) -> Result<X, Refused>
    ensures { result_in_code result ≡ answer }
{
    match answer {
        Ok(x) => Ok(x),
        Err(Failure::Refused(fault)) => Err(Refused::Fault(fault)),
        Err(Failure::OutOfMemory) => Err(Refused::OutOfMemory),
    }
}
