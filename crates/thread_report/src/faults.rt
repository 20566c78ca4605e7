//! Why a server on threads gives no report.

use std::alloc::AllocError;
use subj::Failure;
use thiserror::Error;

/// Why a server gave no report.
#[derive(Clone, Copy, Debug, PartialEq, Eq, Error)]
pub enum Unfinished {
    /// The allocator gave no memory, now or when a step was to be written down.
    #[error("there was no memory to write all down, or to tell of it")]
    OutOfMemory,
    /// The value under the lock of this shard, from 1, or the hub's end of its lane, is another shard's, or the
    /// deltas that the hub took of it are not those that it gave; 0 where the race is held by somebody else
    /// still. No server comes to it: the locks' types cannot say so.
    #[error("what stands under the lock of shard {0} is not its own (0: under none)")]
    Torn(u64),
    /// The passes do not tell each step and each refusal once of which a caller was told under a lock, as it was
    /// asked and answered, and nothing else.
    #[error("the passes do not tell each call once, as it was asked and answered")]
    Untold,
}

impl From<AllocError> for Unfinished {
    fn from(_error: AllocError) -> Unfinished {
        Unfinished::OutOfMemory
    }
}

/// A step that stands on a tape is done again at the end, and no server comes to one that is refused then.
impl<F: Drop> From<Failure<F>> for Unfinished {
    fn from(failure: Failure<F>) -> Unfinished {
        match failure {
            Failure::Refused(_fault) => Unfinished::Untold,
            Failure::OutOfMemory => Unfinished::OutOfMemory,
        }
    }
}
