//! Files of cases are played.

use crate::lines::{Line, Times, read_line};
use crate::texts::{put, written_out};
use crate::words::Words;
use std::alloc::{AllocError, Global};
use std::process::ExitCode;
use std::rt::Files;
use std::{env, fs, io};

/// What makes the calls of a file of cases.
pub trait Rig {
    /// Lets go of all that was made: the next case begins.
    fn renew(&mut self) -> Result<(), AllocError>;

    /// Makes the call of this name with these arguments, and tells its answer.
    fn answer(&mut self, name: &str, words: &Words<'_>) -> Result<String, AllocError>;
}

/// How many cases were played and calls made, and which case was the first that differs.
#[derive(Drop)]
struct Tally {
    cases: u64,
    calls: u64,
    differing: u64,
    case: String,
    first: Option<String>,
}

impl Tally {
    fn new(alloc: Global) -> Tally {
        Tally {
            cases: 0,
            calls: 0,
            differing: 0,
            case: String::new(alloc),
            first: None,
        }
    }

    /// The case of this name begins.
    fn begin(&mut self, alloc: Global, name: &str) -> Result<(), AllocError> {
        self.cases = self.cases.saturating_add(1);
        let case = String::from_str(alloc, name)?;
        put(&mut self.case, case);
        Ok(())
    }

    /// An answer differs in this case.
    fn note(&mut self, alloc: Global) -> Result<(), AllocError> {
        self.differing = self.differing.saturating_add(1);
        if self.first.is_none() {
            let first = String::from_str(alloc, self.case.as_str())?;
            put(&mut self.first, Some(first));
        }
        Ok(())
    }
}

/// Whether an answer is what was written for it.
fn is_as_written(alloc: Global, answer: &str, written: &str) -> Result<bool, AllocError> {
    let whole = written_out(alloc, written)?;
    Ok(answer == whole.as_str())
}

/// Makes a call once.
fn answer_of<G: Rig>(rig: &mut G, call: &str) -> Result<String, AllocError> {
    let (name, text) = call.split_once(' ').unwrap_or((call, ""));
    rig.answer(name, &Words { text })
}

/// Makes the call of a line, of which what stands behind ` => ` is the answer. Gives whether it is answered so.
fn play_call<R: Print + Alloc<A = Global>, G: Rig>(
    rt: &R,
    rig: &mut G,
    tally: &mut Tally,
    line: &str,
) -> io::Result<bool> {
    let (call, written) = line.split_once(" => ").unwrap_or((line, "ok"));
    let answer = answer_of(rig, call)?;
    tally.calls = tally.calls.saturating_add(1);
    if is_as_written(rt.alloc(), answer.as_str(), written)? {
        return Ok(true);
    }
    tally.note(rt.alloc())?;
    println!(rt; "{}: {call} => {answer}, and not {written}", tally.case)?;
    Ok(false)
}

/// Makes the calls of a text, up to the first that is answered otherwise. Gives whether none was.
fn play_calls<R: Print + Alloc<A = Global>, G: Rig>(
    rt: &R,
    rig: &mut G,
    tally: &mut Tally,
    calls: &str,
) -> io::Result<bool> {
    for call in calls.split(" ; ") {
        if !play_call(rt, rig, tally, call)? {
            return Ok(false);
        }
    }
    Ok(true)
}

/// The text with this number in place of each `#`.
fn with_number(alloc: Global, text: &str, number: u64) -> Result<String, AllocError> {
    let digits = number.to_string(alloc)?;
    text.replace(alloc, '#', digits.as_str())
}

/// Makes the calls of a line for each number, up to the first that is answered otherwise.
fn play_times<R: Print + Alloc<A = Global>, G: Rig>(
    rt: &R,
    rig: &mut G,
    tally: &mut Tally,
    times: &Times<'_>,
) -> io::Result<()> {
    for number in times.first..=times.last {
        let calls = with_number(rt.alloc(), times.calls, number)?;
        if !play_calls(rt, rig, tally, calls.as_str())? {
            break;
        }
    }
    Ok(())
}

/// A case begins.
fn begin_case<G: Rig>(
    alloc: Global,
    rig: &mut G,
    tally: &mut Tally,
    name: &str,
) -> Result<(), AllocError> {
    tally.begin(alloc, name)?;
    rig.renew()
}

/// Plays one line.
fn play_line<R: Print + Alloc<A = Global>, G: Rig>(
    rt: &R,
    rig: &mut G,
    tally: &mut Tally,
    line: &Line<'_>,
) -> io::Result<()> {
    match line {
        Line::Nothing => Ok(()),
        Line::Case(name) => Ok(begin_case(rt.alloc(), rig, tally, name)?),
        Line::Times(times) => play_times(rt, rig, tally, times),
        Line::Call(line) => {
            play_call(rt, rig, tally, line)?;
            Ok(())
        }
    }
}

/// Plays the file at this path.
fn play_file<R: Files + Print + Alloc<A = Global>, G: Rig>(
    rt: &R,
    rig: &mut G,
    tally: &mut Tally,
    path: &str,
) -> io::Result<()> {
    let text = fs::read_to_string(rt, path)?;
    for line in text.as_str().lines() {
        play_line(rt, rig, tally, &read_line(line))?;
    }
    Ok(())
}

/// Plays the files that the command line names.
fn play_all<R: Files + env::Env + Print + Alloc<A = Global>, G: Rig>(
    rt: &R,
    rig: &mut G,
    tally: &mut Tally,
) -> io::Result<()> {
    for path in env::args(rt)?.skip(1) {
        play_file(rt, rig, tally, path.as_str())?;
    }
    Ok(())
}

/// Tells how many cases and calls there were, and the first case that differs.
fn tell<R: Print>(rt: &R, tally: &Tally) -> io::Result<()> {
    let (cases, calls) = (tally.cases, tally.calls);
    match &tally.first {
        None => println!(rt; "{cases} cases, {calls} calls: all as written"),
        Some(first) => {
            println!(rt;
                "{cases} cases, {calls} calls: {} differ, the first in {first}",
                tally.differing
            )
        }
    }
}

/// Plays the files of cases that the command line names. Tells each call whose answer differs from the one beside it, and at the end how
/// many cases and calls there were and the first case that differs. The exit status is 0 just where none differs.
pub fn play<R: Files + env::Env + Print + Eprint + Alloc<A = Global>, G: Rig + Drop>(
    rt: &R,
    mut rig: G,
) -> ExitCode {
    let mut tally = Tally::new(rt.alloc());
    let played = play_all(rt, &mut rig, &mut tally);
    drop(rig);
    let told = tell(rt, &tally);
    match played.and(told) {
        Ok(()) if tally.first.is_none() => ExitCode::SUCCESS,
        Ok(()) => ExitCode::FAILURE,
        Err(error) => {
            let _ = eprintln!(rt; "the cases cannot be played: {error}");
            ExitCode::FAILURE
        }
    }
}
