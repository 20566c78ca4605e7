//! What the words of a command line are, and how a program ends.

ghost use Rattle.std.specs.Prelude.{◌≡◌, is_ok};
ghost use Rattle.command_line.specs.Statuses.{bad_line, status_of_end, status_of_line};

use clap::Error;
use clap::error::ErrorKind;
use std::alloc::Global;
use std::fmt::Display;
use std::{env, io};

/// The exit status of a command line that is no text, that has a value out of its range, or that asks for what the program does not do.
pub const BAD_LINE: u8 = 2;

/// The words of the command line, the program's name among them.
///
/// The error is that of the system; its kind is `InvalidData` where a word is no text.
pub fn words<R: env::Env + Alloc<A = Global>>(rt: &R) -> io::Result<Vec<String>> {
    let mut words = Vec::new(rt.alloc());
    for word in env::args(rt)? {
        words.push(word)?;
    }
    Ok(words)
}

/// Tells on standard error that the words cannot be read ([`words`]). Gives the exit status: [`BAD_LINE`] where a word is no text, and else 1.
pub fn tell_unreadable<R: Eprint>(rt: &R, error: &io::Error) -> u8 {
    let _ = eprintln!(rt; "nats_mesh: the command line cannot be read: {error}");
    if error.kind() == io::ErrorKind::InvalidData {
        BAD_LINE
    } else {
        1
    }
}

/// The exit status of a command line of which this is told: 0 of the version, 1 of want of memory, and else 2,
/// of help as well. (Profile.)
pub fn line_status(kind: ErrorKind) -> u8
    ensures { result ≡ status_of_line kind }
{
    match kind {
        ErrorKind::DisplayVersion => 0,
        ErrorKind::OutOfMemory => 1,
        _ => 2,
    }
}

/// Tells what is wrong with the command line on standard error, and the version on standard output. Gives the exit
/// status: [`line_status`].
pub fn tell_line<R: Print + Eprint>(rt: &R, error: &Error) -> u8
    ensures { result ≡ status_of_line error.now.kind }
{
    let status = line_status(error.kind());
    let _ = if status == 0 {
        rt.print(error)
    } else {
        rt.eprint(error)
    };
    status
}

/// The exit status of what was done, or was refused or failed: 0 or 1. (Profile.)
pub fn status_of<E>(ended: &Result<(), E>) -> u8
    ensures { result ≡ status_of_end (is_ok ended.now) }
{
    if ended.is_ok() { 0 } else { 1 }
}

/// Tells on standard error why something was not done. Gives the exit status: [`status_of`].
pub fn report<R: Eprint, E: Display + Drop>(rt: &R, ended: Result<(), E>) -> u8
    ensures { result ≡ status_of_end (is_ok ended) }
{
    let status = status_of(&ended);
    if let Err(fault) = &ended {
        let _ = eprintln!(rt; "nats_mesh: {fault}");
    }
    status
}

/// Tells on standard error that the command is one of another program of the repository. Gives the exit status: [`BAD_LINE`].
pub fn tell_elsewhere<R: Eprint>(rt: &R, program: &str) -> u8
    ensures { result ≡ bad_line }
{
    let _ = eprintln!(rt;
        "nats_mesh: the program {program} has this command, and ./nats_mesh starts it"
    );
    BAD_LINE
}
