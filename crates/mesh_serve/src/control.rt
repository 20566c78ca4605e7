//! The socket at a path by which the servers of a process are told to drain: its two ends.

use crate::faults::{DrainFault, ServeFault};
use mio::net::UnixListener;
use node_net::{DRAIN, DRAINS, NO_SERVER};
use std::fs::{Files, Permissions};
use std::io::{Read, Write};
use std::net::Net;
use std::os::unix::fs::{FileTypeExt, PermissionsExt};
use std::os::unix::net::UnixStream;
use std::time::Duration;
use std::{fs, io};

/// Who may use the socket: its owner alone.
const OWNER_ALONE: u32 = 0o600;

/// How long an answer may take, in seconds.
const ANSWER_SECONDS: u64 = 5;

/// The most bytes of an answer.
const ANSWER_BYTES: usize = 64;

/// Whether a socket is left at the path at which nobody answers: the process that had it is gone.
fn is_stale<R: Files + Net>(rt: &R, path: &str) -> bool {
    let is_socket = match fs::symlink_metadata(rt, path) {
        Ok(metadata) => metadata.file_type().is_socket(),
        Err(_) => false,
    };
    if !is_socket {
        return false;
    }
    match UnixStream::connect(rt, path) {
        Ok(_) => false,
        Err(error) => error.kind() == io::ErrorKind::ConnectionRefused,
    }
}

/// Binds a socket at the path, in place of one that is left there and at which nobody answers.
fn bind_anew<R: Files + Net>(rt: &R, path: &str) -> io::Result<UnixListener> {
    match UnixListener::bind(rt, path) {
        Err(error) if error.kind() == io::ErrorKind::AddrInUse && is_stale(rt, path) => {
            fs::remove_file(rt, path)?;
            UnixListener::bind(rt, path)
        }
        bound => bound,
    }
}

/// Lets nobody but the owner use the socket. Who has connected before is turned away.
fn close_to_others<R: Files>(rt: &R, path: &str, listener: &UnixListener) -> io::Result<()> {
    fs::set_permissions(rt, path, Permissions::from_mode(OWNER_ALONE))?;
    for _early in 0..u64::MAX {
        if listener.accept().is_err() {
            break;
        }
    }
    Ok(())
}

/// A socket at this path, which its owner alone may use. One that is left there by a process that is gone is replaced.
pub fn bind_control<R: Files + Net>(rt: &R, path: &str) -> Result<UnixListener, ServeFault> {
    match bind_anew(rt, path) {
        Err(error) => Err(ServeFault::Control(error)),
        Ok(listener) => match close_to_others(rt, path, &listener) {
            Ok(()) => Ok(listener),
            Err(error) => {
                remove_control(rt, path);
                Err(ServeFault::Control(error))
            }
        },
    }
}

/// Takes the socket's file away, whose process ends.
pub fn remove_control<R: Files>(rt: &R, path: &str) {
    let _ = fs::remove_file(rt, path);
}

/// Connects to the socket at this path.
fn connect<R: Net>(rt: &R, path: &str) -> Result<UnixStream, DrainFault> {
    match UnixStream::connect(rt, path) {
        Ok(stream) => Ok(stream),
        Err(error) => Err(match error.kind() {
            io::ErrorKind::NotFound => DrainFault::NoSocket,
            io::ErrorKind::ConnectionRefused => DrainFault::NobodyListens,
            _ => DrainFault::NotReached(error),
        }),
    }
}

/// Writes the line that has servers drain.
fn ask(stream: &UnixStream, server: Option<&str>) -> io::Result<()> {
    let mut stream = stream;
    stream.set_read_timeout(Some(Duration::from_secs(ANSWER_SECONDS)))?;
    stream.set_write_timeout(Some(Duration::from_secs(ANSWER_SECONDS)))?;
    stream.write_all(DRAIN.as_bytes())?;
    if let Some(server) = server {
        stream.write_all(b" ")?;
        stream.write_all(server.as_bytes())?;
    }
    stream.write_all(b"\n")
}

/// Reads the answer until its connection ends, or there is no room. How many bytes came.
fn read_answer(stream: &UnixStream, answer: &mut [u8; ANSWER_BYTES]) -> usize {
    let mut stream = stream;
    let mut count = 0;
    for _read in 0..ANSWER_BYTES {
        let Some(room) = answer.get_mut(count..) else {
            break;
        };
        match stream.read(room) {
            Ok(0) | Err(_) => break,
            Ok(read) => count = count.saturating_add(read),
        }
    }
    count
}

/// What an answer says.
fn said(answer: &[u8]) -> Result<(), DrainFault> {
    if answer == DRAINS.as_bytes() {
        Ok(())
    } else if answer == NO_SERVER.as_bytes() {
        Err(DrainFault::NoServer)
    } else {
        Err(DrainFault::NoAnswer)
    }
}

/// Has the servers drain that take what they are told at this path, or the one of this name alone: the name has no blank, and no line's
/// end. It comes back once they have heard it, and does not wait until they have drained. The error says why nobody drains by it; for
/// [`DrainFault::NoAnswer`] it is not known whether somebody does.
pub fn ask_drain<R: Net>(rt: &R, path: &str, server: Option<&str>) -> Result<(), DrainFault> {
    let stream = connect(rt, path)?;
    if ask(&stream, server).is_err() {
        return Err(DrainFault::NoAnswer);
    }
    let mut answer = [0_u8; ANSWER_BYTES];
    let count = read_answer(&stream, &mut answer);
    said(answer.get(..count).unwrap_or(&[]))
}
