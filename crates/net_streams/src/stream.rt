//! What the bytes of a connection come from and go to.

ghost use Rattle.std.specs.Io.{ReadsAtMost, WritesAtMost};
ghost use Rattle.net_streams.specs.Writes.{Came, came_of};

/// Why a stream gave or took no bytes.
#[derive(Clone, Copy, PartialEq, Eq)]
pub enum StreamFault {
    /// It would have to wait for its other end. It is told elsewhere when it is worth another call.
    WouldBlock,
    /// It failed, and gives and takes nothing any more.
    Failed,
}

/// One end of a connection, both to read and to write. No call waits.
///
/// Each call says that it was made, and with what bytes, in order, and no more: where the bytes come from and go to is the
/// stream's own to say.
pub trait Stream: Drop {
    // From the first state a read came to this, and left the second.
    ghost gave: { Self → Came → Self → Type 0 };

    // From the first state a write came to this, and left the second.
    ghost wrote: { Self → Came → Self → Type 0 };

    /// Reads bytes into the front of `buffer`, and answers how many. 0, where `buffer` has room, is the
    /// end of what the other end sends.
    fn read(&mut self, buffer: &mut [u8]) -> Result<usize, StreamFault>
        ensures bound { ReadsAtMost result buffer.new }
        ensures gave { gave self.old (came_of result buffer.new) self.new };

    /// Writes bytes from the front of `bytes`, and answers how many. At a fault none is written.
    fn write(&mut self, bytes: &[u8]) -> Result<usize, StreamFault>
        ensures bound { WritesAtMost result bytes.now }
        ensures wrote { wrote self.old (came_of result bytes.now) self.new };
}
