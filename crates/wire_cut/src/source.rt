//! Where bytes come from.
ghost use Rattle.std.specs.Prelude.{◌≡◌, ℕ, ◌+◌, List, Option};
ghost use Rattle.std.specs.Io.{ReadsAtMost};
ghost use Rattle.std.specs.Io.KnownBytes.{ReadConsumes};
ghost use Rattle.wire_cut.specs.Flow.{CountsFailure};

use thiserror::Error;

/// A read failed. The source's count of failures tells it too.
#[derive(Clone, Copy, Debug, PartialEq, Eq, Error)]
#[error("reading failed")]
pub struct ReadFailed;

/// A source of bytes, such as standard input. It keeps what it reads from, so a call takes no
/// runtime.
pub trait Source {
    // The bytes that reads will give from here on, where they are known.
    ghost remaining: { Self → Option (List ℕ) };

    // How many reads were made.
    ghost reads: { Self → ℕ };

    // How many of them failed.
    ghost failures: { Self → ℕ };

    /// Reads bytes into the front of `buffer`, and answers how many. 0, where `buffer` has room, is
    /// the end. A read that fails takes no byte, and leaves `buffer` at anything.
    fn read(&mut self, buffer: &mut [u8]) -> Result<usize, ReadFailed>
        ensures bound { ReadsAtMost result buffer.new }
        ensures bytes { ReadConsumes (remaining self.old) (remaining self.new) result buffer.new }
        ensures reads { reads self.new ≡ reads self.old + 1 }
        ensures failures { CountsFailure result (failures self.old) (failures self.new) };
}
