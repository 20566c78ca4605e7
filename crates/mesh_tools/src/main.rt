//! The program of the commands that need no socket: `match` tells whether a pattern matches a subject, `script` plays a script, and `audit`
//! audits a log. It takes the command line of `nats_mesh`, and the launcher starts it for these commands, so that whoever serves need not wait
//! for its proofs.
//!
//! ```text
//! mesh_tools match orders.* orders.new
//! ```
#![tactic(auto)]

use claim_cells::CellsRace;
use command_line::{report, tell_elsewhere, tell_line, tell_unreadable, words};
use mesh_audit::{audit_run, script_audit_run};
use mesh_script::{match_run, script_run};
use router_command::{Command, command_of};
use std::alloc::Global;
use std::io;
use std::process::ExitCode;
use sub_trie::TrieTable;
use wire_cut::Raw;

/// Tells whether the pattern matches the subject.
fn run_match<R: Print + Eprint + Alloc<A = Global>>(rt: &R, pattern: &str, subject: &str) -> u8 {
    let mut sink = Raw::new(io::writer(rt));
    let ended = match_run(
        rt.alloc(),
        pattern.as_bytes(),
        subject.as_bytes(),
        &mut sink,
    );
    report(rt, ended)
}

/// Plays a script. For an audit, writes what was published, subscribed and placed behind its text.
fn run_script<R: Input + Print + Eprint + Alloc<A = Global>>(rt: &R, audit: bool) -> u8 {
    let alloc = rt.alloc();
    let mut source = Raw::new(rt.reader());
    let mut sink = Raw::new(io::writer(rt));
    let ended = if audit {
        script_audit_run::<TrieTable, CellsRace, _, _>(alloc, &mut source, &mut sink)
    } else {
        script_run::<TrieTable, CellsRace, _, _>(alloc, &mut source, &mut sink)
    };
    report(rt, ended)
}

/// Audits a log.
fn run_audit<R: Input + Print + Eprint + Alloc<A = Global>>(rt: &R) -> u8 {
    let mut source = Raw::new(rt.reader());
    let mut sink = Raw::new(io::writer(rt));
    let ended = audit_run(rt.alloc(), &mut source, &mut sink);
    report(rt, ended)
}

/// Does what the command line asks for. Gives the exit status.
fn run<R: Input + Print + Eprint + Alloc<A = Global>>(rt: &R, words: &[String]) -> u8 {
    match command_of(rt.alloc(), words) {
        Ok(Command::Match { pattern, subject }) => run_match(rt, pattern, subject),
        Ok(Command::Script { audit }) => run_script(rt, audit),
        Ok(Command::Audit) => run_audit(rt),
        Ok(
            Command::Pipe
            | Command::Serve(_)
            | Command::Drain { .. }
            | Command::Node(_)
            | Command::Check { .. },
        ) => tell_elsewhere(rt, "nats_mesh"),
        Err(error) => tell_line(rt, &error),
    }
}

fn main(rt: HostRuntime) -> ExitCode {
    match words(&rt) {
        Ok(words) => ExitCode::from(run(&rt, &words)),
        Err(error) => ExitCode::from(tell_unreadable(&rt, &error)),
    }
}
