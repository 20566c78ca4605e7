//! Why a pipe breaks off.

use std::alloc::AllocError;
use std::error::Error;
use std::fmt;
use std::fmt::{Display, Formatter, Write};
use wire_cut::WriteFailed;

/// Why a pipe broke off.
#[derive(Clone, Copy, Debug)]
pub enum PipeFault {
    /// The reader failed, or 2^64 - 1 reads did not come to its end.
    Read,
    /// The writer failed.
    Write,
    /// The allocator gave no memory.
    OutOfMemory,
}

impl PipeFault {
    /// What is told of it.
    pub fn text(self) -> &'static str {
        match self {
            PipeFault::Read => "reading failed",
            PipeFault::Write => "writing failed",
            PipeFault::OutOfMemory => "out of memory",
        }
    }
}

impl Display for PipeFault {
    fn fmt<W: Write>(&self, f: &mut Formatter<W>) -> fmt::Result {
        f.write_str(self.text())
    }
}

impl Error for PipeFault {}

impl From<AllocError> for PipeFault {
    ghost use Rattle.std.specs.Prelude.{◌≡◌};
    ghost use Rattle.mesh_pipe.specs.declared.faults.PipeFault.TheVariants.{OutOfMemory};

    ghost from_gives = { λ _ fault. fault ≡ OutOfMemory };

    fn from(_: AllocError) -> PipeFault {
        PipeFault::OutOfMemory
    }
}

impl From<WriteFailed> for PipeFault {
    ghost use Rattle.std.specs.Prelude.{◌≡◌};
    ghost use Rattle.mesh_pipe.specs.declared.faults.PipeFault.TheVariants.{Write};

    ghost from_gives = { λ _ fault. fault ≡ Write };

    fn from(_: WriteFailed) -> PipeFault {
        PipeFault::Write
    }
}
