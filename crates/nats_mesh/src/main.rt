//! The router: `serve` serves a mesh on sockets, `node` one server of a mesh that a file describes, `check` tells what such a file means, `drain` has
//! servers drain, and `pipe` serves one client on standard input and output. The other commands of its command line are those of `mesh_tools`.
//!
//! ```text
//! nats_mesh serve --nodes 3 --port 4222
//! ```
#![tactic(auto)]

use claim_race::PlainRace;
use command_line::{BAD_LINE, report, tell_elsewhere, tell_line, tell_unreadable, words};
use mesh_pipe::{pipe_complaint, pipe_run, pipe_status};
use mesh_serve::{NodeFault, ask_drain, check_mesh, serve, serve_node};
use router_command::{Command, Given, NodeGiven, NodeOptions, Options, command_of};
use std::alloc::Global;
use std::fmt::Display;
use std::fs::{File, Files};
use std::io;
use std::net::{Net, TcpListener, TcpStream};
use std::process::ExitCode;
use std::random::RandomSource;
use std::rt::Clock;
use std::sync::Wait;
use std::thread::Threads;
use subj::NodeId;
use wire_cut::Raw;

/// Tells on standard error what is wrong with the command line, or with a file that it names. Gives the exit status.
fn refuse<R: Eprint, E: Display>(rt: &R, fault: &E) -> u8 {
    let _ = eprintln!(rt; "nats_mesh: {fault}");
    BAD_LINE
}

/// Serves one client.
fn run_pipe<R: Input + Print + Eprint + Alloc<A = Global>>(rt: &R) -> u8 {
    let mut source = Raw::new(rt.reader());
    let mut sink = Raw::new(io::writer(rt));
    let ended = pipe_run::<PlainRace, _, _>(rt.alloc(), &mut source, &mut sink);
    if let Some(complaint) = pipe_complaint(ended) {
        let _ = eprintln!(rt; "nats_mesh: {complaint}");
    }
    pipe_status(ended)
}

/// Serves a mesh.
fn run_serve<R>(rt: &R, given: Given<'_>) -> u8
where
    R: Threads
        + Wait
        + Net<Listener = TcpListener, Stream = TcpStream>
        + RandomSource
        + Files
        + Clock
        + Print
        + Eprint
        + Alloc<A = Global>
        + Copy
        + Send
        + Sync
        + 'static,
{
    match Options::new(given) {
        Ok(options) => report(rt, serve(rt, rt.alloc(), &options)),
        Err(fault) => refuse(rt, &fault),
    }
}

/// Tells on standard error why a server of a mesh is not served, or what its file is not. Gives the exit status.
fn report_node<R: Eprint>(rt: &R, ended: Result<(), NodeFault>) -> u8 {
    match ended {
        Err(fault) if fault.is_given() => refuse(rt, &fault),
        ended => report(rt, ended),
    }
}

/// Serves one server of a mesh.
fn run_node<R>(rt: &R, given: NodeGiven<'_>) -> u8
where
    R: Threads
        + Wait
        + Net<Listener = TcpListener, Stream = TcpStream>
        + RandomSource
        + Files<File = File>
        + Clock
        + Print
        + Eprint
        + Alloc<A = Global>
        + Copy
        + Send
        + Sync
        + 'static,
{
    match NodeOptions::new(given) {
        Ok(options) => report_node(rt, serve_node(rt, rt.alloc(), &options)),
        Err(fault) => refuse(rt, &fault),
    }
}

/// Has the servers drain that are told so at this path, or the one of this name.
fn run_drain<R: Net + Eprint>(rt: &R, path: &str, server: Option<&str>) -> u8 {
    if let Some(name) = server {
        if NodeId::read(name.as_bytes()).is_err() {
            let _ = eprintln!(rt; "nats_mesh: '{name}' is no name of a server");
            return BAD_LINE;
        }
    }
    report(rt, ask_drain(rt, path, server))
}

/// Does what the command line asks for. Gives the exit status.
fn run<R>(rt: &R, words: &[String]) -> u8
where
    R: Threads
        + Wait
        + Net<Listener = TcpListener, Stream = TcpStream>
        + RandomSource
        + Files<File = File>
        + Clock
        + Input
        + Print
        + Eprint
        + Alloc<A = Global>
        + Copy
        + Send
        + Sync
        + 'static,
{
    match command_of(rt.alloc(), words) {
        Ok(Command::Pipe) => run_pipe(rt),
        Ok(Command::Serve(given)) => run_serve(rt, given),
        Ok(Command::Drain { path, server }) => run_drain(rt, path, server),
        Ok(Command::Node(given)) => run_node(rt, given),
        Ok(Command::Check { path }) => report_node(rt, check_mesh(rt, path)),
        Ok(Command::Match { .. } | Command::Script { .. } | Command::Audit) => {
            tell_elsewhere(rt, "mesh_tools")
        }
        Err(error) => tell_line(rt, &error),
    }
}

fn main(rt: HostRuntime) -> ExitCode {
    match words(&rt) {
        Ok(words) => ExitCode::from(run(&rt, &words)),
        Err(error) => ExitCode::from(tell_unreadable(&rt, &error)),
    }
}
