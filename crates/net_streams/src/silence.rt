//! The other end of a socket that answers nothing any more, as that of a machine that has vanished.

ghost use Rattle.std.specs.Prelude.{◌≡◌, ◌++◌, replicate};
ghost use Rattle.std.specs.Int.{w32, to_le_bytes};

use libc::net as c;
use mio::net::TcpStream;
use std::os::fd::AsRawFd;

/// How many bytes the value of an option has that is a number.
const NUMBER: u32 = 4;

/// A number as an option's value: its bytes in the machine's order, and room behind them.
fn value_of(number: u32) -> [u8; 16]
    ensures { result ≡ to_le_bytes w32 number ++ replicate 12 0 }
{
    let mut value = [0; 16];
    value[..4].copy_from_slice(&number.to_ne_bytes());
    value
}

/// Has the system end a connection once its other end has left unanswered for so many milliseconds what was sent to it, or has taken no byte of
/// it: reads and writes fail then. Where nothing is sent, the system asks the other end itself, each time that nothing came for so many seconds.
/// Else TCP would go on for minutes, and ask nothing. Whether the system does so.
pub fn end_unanswered(stream: &TcpStream, milliseconds: u32, seconds: u32) -> bool {
    let fd = stream.as_raw_fd();
    let (on, ask, limit) = (value_of(1), value_of(seconds), value_of(milliseconds));
    let answers = unsafe {
        [
            c::setsockopt(fd, c::IPPROTO_TCP, c::TCP_USER_TIMEOUT, &limit, NUMBER),
            c::setsockopt(fd, c::IPPROTO_TCP, c::TCP_KEEPIDLE, &ask, NUMBER),
            c::setsockopt(fd, c::IPPROTO_TCP, c::TCP_KEEPINTVL, &ask, NUMBER),
            c::setsockopt(fd, c::SOL_SOCKET, c::SO_KEEPALIVE, &on, NUMBER),
        ]
    };
    answers.iter().all(|answer| *answer == 0)
}
