//! The sockets of mio as streams.

ghost use Rattle.std.specs.Prelude.{⊤};
ghost use Rattle.std.specs.Io.{ReadsAtMost, WritesAtMost};

use crate::stream::{Stream, StreamFault};
use mio::net::TcpStream;
use std::io;
use std::io::{Read, Write};

/// Whether a call of a socket is made again, and what it comes to where it is not.
fn fault_of(error: &io::Error) -> Option<StreamFault> {
    match error.kind() {
        io::ErrorKind::Interrupted => None,
        io::ErrorKind::WouldBlock => Some(StreamFault::WouldBlock),
        _ => Some(StreamFault::Failed),
    }
}

/// A socket. Which bytes the kernel took and gave cannot be seen from here: so all that its calls say is that they were made, and that
/// they took or gave no more than they were asked for. A call that was interrupted is made again.
impl Stream for TcpStream {
    ghost gave = { λ _ _ _. ⊤ };

    ghost wrote = { λ _ _ _. ⊤ };

    fn read(&mut self, buffer: &mut [u8]) -> Result<usize, StreamFault>
        ensures bound { ReadsAtMost result buffer.new }
    {
        for _try in 0..u64::MAX {
            match Read::read(self, buffer) {
                Ok(count) => return Ok(count),
                Err(error) => {
                    if let Some(fault) = fault_of(&error) {
                        return Err(fault);
                    }
                }
            }
        }
        Err(StreamFault::Failed)
    }

    fn write(&mut self, bytes: &[u8]) -> Result<usize, StreamFault>
        ensures bound { WritesAtMost result bytes.now }
    {
        for _try in 0..u64::MAX {
            match Write::write(self, bytes) {
                Ok(count) => return Ok(count),
                Err(error) => {
                    if let Some(fault) = fault_of(&error) {
                        return Err(fault);
                    }
                }
            }
        }
        Err(StreamFault::Failed)
    }
}
