//! Why a stream cannot be cut.
ghost use Rattle.std.specs.Prelude.{◌≡◌};
ghost use Rattle.wire_cut.specs.declared.faults.FeedFault.TheVariants as feed;
ghost use Rattle.wire_cut.specs.declared.faults.FillFault.TheVariants as fill;

use crate::source::ReadFailed;
use std::alloc::AllocError;
use thiserror::Error;

/// Why a stream cannot be cut any further. A cutter that has told one answers it to every later
/// call.
#[derive(Clone, Copy, Debug, PartialEq, Eq, Error)]
pub enum CutFault {
    /// The next `line_max + 2` bytes hold no CR LF.
    #[error("a line is longer than its reader takes")]
    LineTooLong = 10,
    /// The announced payload is above the cutter's limit.
    #[error("a payload is announced that is larger than its reader takes")]
    PayloadTooLong = 11,
    /// The two bytes behind a payload are not CR LF.
    #[error("a payload is not ended by CR LF")]
    NoCrLfAfterPayload = 12,
}

impl CutFault {
    ghost use Rattle.wire_cut.specs.Faults.{cut_fault_number};

    /// The number of the refusal, 10 to 12.
    pub fn number(self) -> u16
        ensures { result ≡ cut_fault_number self }
    {
        self as u16
    }
}

/// Why bytes were not taken in.
#[derive(Clone, Copy, Debug, PartialEq, Eq, Error)]
pub enum FeedFault {
    /// The cutter told this fault before, and keeps nothing any more.
    #[error("the stream cannot be cut any further: {0}")]
    Cut(CutFault),
    /// No memory was left for the bytes. Nothing has changed.
    #[error("out of memory")]
    OutOfMemory,
}

/// Why a read brought no bytes. The cutter is as it was.
#[derive(Clone, Copy, Debug, PartialEq, Eq, Error)]
pub enum FillFault {
    /// The cutter told this fault before, and nothing was read.
    #[error("the stream cannot be cut any further: {0}")]
    Cut(CutFault),
    /// The source's read failed.
    #[error("reading failed")]
    Read,
    /// No memory was left for the bytes, and nothing was read.
    #[error("out of memory")]
    OutOfMemory,
}

impl From<AllocError> for FeedFault {
    ghost from_gives = { λ _ fault. fault ≡ feed.OutOfMemory };

    fn from(_error: AllocError) -> FeedFault {
        FeedFault::OutOfMemory
    }
}

impl From<AllocError> for FillFault {
    ghost from_gives = { λ _ fault. fault ≡ fill.OutOfMemory };

    fn from(_error: AllocError) -> FillFault {
        FillFault::OutOfMemory
    }
}

impl From<ReadFailed> for FillFault {
    ghost from_gives = { λ _ fault. fault ≡ fill.Read };

    fn from(_failed: ReadFailed) -> FillFault {
        FillFault::Read
    }
}
