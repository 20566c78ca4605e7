//! The socket by which operators have the servers of a process drain. One line is read of each connection and answered, and then it is closed.

use crate::limits::{ACCEPTS, CONTROL_LINE, CONTROL_LINKS};
use crate::shutdown::Shutdown;
use mio::net::{UnixListener, UnixStream};
use mio::{Interest, Poll, Token};
use std::alloc::Global;
use std::io;
use std::io::{Read, Write};
use subj::NodeId;

/// The token of the socket where operators connect.
pub(crate) const CONTROL: Token = Token(usize::MAX - 3);

/// The token of each of their connections.
pub(crate) const CONTROL_LINK: Token = Token(usize::MAX - 4);

/// The line that has all servers drain. Behind a blank it may have the name of a server, which drains alone then.
pub const DRAIN: &str = "drain";

/// The answer where servers are told to drain.
pub const DRAINS: &str = "+OK\r\n";

/// The answer where no server has the name.
pub const NO_SERVER: &str = "-ERR 'No Such Server'\r\n";

/// The answer to any other line.
const NO_COMMAND: &str = "-ERR 'Unknown Command'\r\n";

/// An operator's connection, and what was read of its line.
#[derive(Drop)]
struct ControlLink {
    stream: UnixStream,
    line: Vec<u8>,
}

/// What reading an operator's line came to.
#[derive(Clone, Copy)]
enum Heard {
    /// Its first so many bytes are a line.
    Line(usize),
    /// It is not whole yet.
    Part,
    /// It is too long, or its connection has ended.
    Nothing,
}

/// Where a line ends, without the line's end: that is LF, with a CR before it or none.
fn line_end(bytes: &[u8]) -> Option<usize> {
    let end = bytes.iter().position(|byte| *byte == b'\n')?;
    let has_return = end > 0 && bytes.get(end.saturating_sub(1)).copied() == Some(b'\r');
    Some(if has_return {
        end.saturating_sub(1)
    } else {
        end
    })
}

/// Tells the server of this name to drain. The answer.
fn drain_named(name: &str, names: &[NodeId], shutdown: &Shutdown) -> &'static str {
    for (place, known) in names.iter().enumerate() {
        if known.text() == name {
            return if shutdown.ask_drain(place) {
                DRAINS
            } else {
                NO_SERVER
            };
        }
    }
    NO_SERVER
}

/// Does what a line says. The answer.
fn obey(line: &[u8], names: &[NodeId], shutdown: &Shutdown) -> &'static str {
    let Ok(text) = std::str::from_utf8(line) else {
        return NO_COMMAND;
    };
    if text == DRAIN {
        shutdown.ask_all();
        return DRAINS;
    }
    match text.split_once(' ') {
        Some((word, name)) if word == DRAIN => drain_named(name, names, shutdown),
        _ => NO_COMMAND,
    }
}

impl ControlLink {
    /// Reads until a line is whole, or no more comes.
    fn read_line(&mut self) -> Heard {
        let mut buffer = [0_u8; CONTROL_LINE];
        for _read in 0..u64::MAX {
            if let Some(end) = line_end(&self.line) {
                return Heard::Line(end);
            }
            if self.line.len() >= CONTROL_LINE {
                return Heard::Nothing;
            }
            match self.stream.read(&mut buffer) {
                Ok(0) => return Heard::Nothing,
                Ok(count) => {
                    let read = buffer.get(..count).unwrap_or(&[]);
                    if self.line.extend_from_slice(read).is_err() {
                        return Heard::Nothing;
                    }
                }
                Err(error) if error.kind() == io::ErrorKind::Interrupted => {}
                Err(error) if error.kind() == io::ErrorKind::WouldBlock => return Heard::Part,
                Err(_) => return Heard::Nothing,
            }
        }
        Heard::Nothing
    }

    /// Does what its line says, and answers it. Whether it is not whole yet.
    fn serve(&mut self, names: &[NodeId], shutdown: &Shutdown) -> bool {
        match self.read_line() {
            Heard::Part => true,
            Heard::Nothing => false,
            Heard::Line(end) => {
                let line = self.line.get(..end).unwrap_or(&[]);
                let answer = obey(line, names, shutdown);
                // an answer has room in the socket; an operator who has gone gets none
                let _ = self.stream.write(answer.as_bytes());
                false
            }
        }
    }
}

/// The socket where operators connect, and those of them whose line is not whole yet.
pub struct Control {
    alloc: Global,
    listener: UnixListener,
    links: Vec<ControlLink>,
}

/// One call, also for crates above: `docs/PROVING.md`, "What a proof costs".
impl Drop for Control {
    fn drop(self) {
        let Control {
            alloc: _,
            listener: _,
            links: _,
        } = self;
    }
}

impl Control {
    /// Operators connect here.
    pub fn new(alloc: Global, listener: UnixListener) -> Control {
        Control {
            alloc,
            listener,
            links: Vec::new(alloc),
        }
    }

    /// Has the socket tell when operators connect.
    pub(crate) fn register(&mut self, poll: &Poll) -> io::Result<()> {
        poll.registry()
            .register(&mut self.listener, CONTROL, Interest::READABLE)
    }

    /// Takes the operators who wait, and does what each says whose line is whole. The servers have these names, in their order.
    pub(crate) fn hear(&mut self, poll: &Poll, names: &[NodeId], shutdown: &Shutdown) {
        for _accept in 0..ACCEPTS {
            match self.listener.accept() {
                Ok((stream, _)) => self.take(poll, stream),
                Err(_) => break,
            }
        }
        for mut link in std::mem::replace(&mut self.links, Vec::new(self.alloc)) {
            if link.serve(names, shutdown) {
                let _ = self.links.push(link);
            }
        }
    }

    /// Takes an operator's connection. Of more than [`CONTROL_LINKS`] whose lines are not whole, the first one is closed.
    fn take(&mut self, poll: &Poll, mut stream: UnixStream) {
        let registry = poll.registry();
        if registry
            .register(&mut stream, CONTROL_LINK, Interest::READABLE)
            .is_err()
        {
            return;
        }
        if self.links.len() >= CONTROL_LINKS {
            let _ = self.links.remove(0);
        }
        let line = Vec::new(self.alloc);
        let _ = self.links.push(ControlLink { stream, line });
    }
}
