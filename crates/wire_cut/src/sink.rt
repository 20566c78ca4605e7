//! Where bytes go to.
ghost use Rattle.std.specs.Prelude.{ℕ, ◌<◌, List, Option, IfOk, OnOk, OnErr, length};
ghost use Rattle.std.specs.Io.{WritesAtMost};
ghost use Rattle.std.specs.Io.KnownBytes.{Appends, WriteAppends};
ghost use Rattle.wire_cut.specs.Flow.{AppendsFront, CountsFailure};

use thiserror::Error;

/// A write failed. The sink's count of failures tells it too.
#[derive(Clone, Copy, Debug, PartialEq, Eq, Error)]
#[error("writing failed")]
pub struct WriteFailed;

/// A sink of bytes, such as standard output. It keeps what it writes to, so a call takes no
/// runtime.
pub trait Sink {
    // The bytes that were written, where they are known.
    ghost written: { Self → Option (List ℕ) };

    // How many writes failed.
    ghost failures: { Self → ℕ };

    /// Writes bytes from the front of `bytes`, and answers how many: at least one, where there is
    /// one. A write that fails writes none.
    fn write(&mut self, bytes: &[u8]) -> Result<usize, WriteFailed>
        ensures bound { WritesAtMost result bytes.now }
        ensures some { 0 < length bytes.now → IfOk result (λ n. 0 < n) }
        ensures bytes { WriteAppends (written self.old) (written self.new) result bytes.now }
        ensures failures { CountsFailure result (failures self.old) (failures self.new) };

    /// Writes all of `bytes`, by as many writes as it takes. Where one fails, what was written
    /// before is a front of `bytes`, and not all of it.
    final fn write_all(&mut self, bytes: &[u8]) -> Result<(), WriteFailed>
        ensures ok { OnOk result (Appends (written self.old) (written self.new) bytes.now) }
        ensures err { OnErr result (AppendsFront (written self.old) (written self.new) bytes.now) }
        ensures failures { CountsFailure result (failures self.old) (failures self.new) }
    {
        let mut rest = bytes;
        while !rest.is_empty() {
            let count = self.write(rest)?;
            rest = &rest[count..];
        }
        Ok(())
    }
}
