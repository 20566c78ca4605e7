//! One client on a reader and a writer, and how a program ends whose pipe has ended.

ghost use Rattle.std.specs.Prelude.{◌≡◌, ◌≤◌, ◌+◌, [], IfOk, OnOk, OnErr, ◌≢◌, ◌↔◌, IsSome};
ghost use Rattle.wire_cut.specs.Flow.{AppendsFront};
ghost use Rattle.mesh_pipe.specs.PipeTheorem.{Pipes, CountsReads, CountsFailedWrites, all_reads};
ghost use Rattle.client_conn.specs.Asks.{first_asking};
ghost use Rattle.mesh_pipe.specs.PipeText.{pipe_info};
ghost use Rattle.mesh_pipe.specs.PipeStates.{IsNew};
ghost use Rattle.mesh_pipe.specs.PipeRuns.{IsInStep, IsFlushed, CountsWrites, HasLooked, Works, AnswersAll};
ghost use Rattle.mesh_pipe.specs.Ending.{exit_status};

use crate::faults::PipeFault;
use crate::pipe_server::{Outcome, PipeServer, info};
use claim_race::Race;
use client_conn::{Conn, ReadFault};
use std::alloc::{AllocError, Global};
use subj::READ_BYTES;
use wire_cut::{Sink, Source};

/// Whether the connection goes on.
#[derive(Clone, Copy)]
pub enum Flow {
    /// More bytes are needed.
    Open,
    /// A closing text was put.
    Closed,
}

/// How a pipe ended.
#[derive(Clone, Copy)]
pub enum PipeEnd {
    /// The reader came to its end. An unfinished frame is dropped.
    Ended,
    /// A closing `-ERR` was written.
    Closed,
}

/// Serves one client by a server with any race: reads its commands, and writes what a server sends. Each read is
/// of at most [`READ_BYTES`] bytes, and all that is known by then is written before the next one.
pub fn pipe_run<R: Race, S: Source, W: Sink>(
    alloc: Global,
    source: &mut S,
    sink: &mut W,
) -> Result<PipeEnd, PipeFault>
    ensures text { Pipes result (S.remaining source.old) (S.remaining source.new)
        (W.written sink.old) (W.written sink.new) }
    ensures most_reads { S.reads source.new ≤ S.reads source.old + all_reads }
    ensures reads { CountsReads result (S.reads source.old) (S.reads source.new)
        (S.failures source.old) (S.failures source.new) }
    ensures writes { CountsFailedWrites result (W.failures sink.old) (W.failures sink.new) }
{
    let told = info(alloc)?;
    let mut server: PipeServer<R> = PipeServer::new(alloc)?;
    let mut conn = Conn::new(alloc, told);
    serve(&mut conn, &mut server, source, sink)
}

/// Serves a client of whom nothing was read yet.
fn serve<R: Race, S: Source, W: Sink>(
    conn: &mut Conn,
    server: &mut PipeServer<R>,
    source: &mut S,
    sink: &mut W,
) -> Result<PipeEnd, PipeFault>
    requires asks { conn.old.asking ≡ first_asking pipe_info }
    requires new { IsNew server.old }
    ensures text { Pipes result (S.remaining source.old) (S.remaining source.new)
        (W.written sink.old) (W.written sink.new) }
    ensures most_reads { S.reads source.new ≤ S.reads source.old + all_reads }
    ensures reads { CountsReads result (S.reads source.old) (S.reads source.new)
        (S.failures source.old) (S.failures source.new) }
    ensures writes { CountsFailedWrites result (W.failures sink.old) (W.failures sink.new) }
{
    match answer_all(conn, server, sink)? {
        Flow::Open => {}
        Flow::Closed => return Ok(PipeEnd::Closed),
    }
    for _ in 0..u64::MAX {
        let count = match conn.read_from(source, READ_BYTES) {
            Ok(count) => count,
            Err(ReadFault::OutOfMemory) => return Err(PipeFault::OutOfMemory),
            Err(ReadFault::Failed) => return Err(PipeFault::Read),
            // what was answered left the connection open
            Err(ReadFault::Closed) => unreachable!(),
        };
        if count == 0 {
            return Ok(PipeEnd::Ended);
        }
        match answer_all(conn, server, sink)? {
            Flow::Open => {}
            Flow::Closed => return Ok(PipeEnd::Closed),
        }
    }
    Err(PipeFault::Read)
}

/// Does all that is asked, and writes what was put.
fn answer_all<R: Race, W: Sink>(
    conn: &mut Conn,
    server: &mut PipeServer<R>,
    sink: &mut W,
) -> Result<Flow, PipeFault>
    requires step { IsInStep conn.old server.old }
    requires empty { server.old.output.items ≡ [] }
    ensures answers { AnswersAll result conn.old server.old (W.written sink.old) conn.new server.new
        (W.written sink.new) }
    ensures failures { CountsWrites result (W.failures sink.old) (W.failures sink.new) }
{
    let flow = work(conn, server, sink)?;
    flush(server, sink)?;
    Ok(flow)
}

/// Writes what was put.
fn flush<R: Race, W: Sink>(server: &mut PipeServer<R>, sink: &mut W) -> Result<(), PipeFault>
    ensures ok { OnOk result
        (IsFlushed server.old (W.written sink.old) server.new (W.written sink.new)) }
    ensures err { OnErr result
        (AppendsFront (W.written sink.old) (W.written sink.new) server.old.output.items) }
    ensures failures { CountsWrites result (W.failures sink.old) (W.failures sink.new) }
{
    sink.write_all(server.output())?;
    server.clear_output();
    Ok(())
}

/// Does all that is asked. What was put is written as soon as it is [`READ_BYTES`] long.
fn work<R: Race, W: Sink>(
    conn: &mut Conn,
    server: &mut PipeServer<R>,
    sink: &mut W,
) -> Result<Flow, PipeFault>
    requires { IsInStep conn.old server.old }
    ensures works { Works result conn.old server.old (W.written sink.old) conn.new server.new
        (W.written sink.new) }
    ensures failures { CountsWrites result (W.failures sink.old) (W.failures sink.new) }
{
    loop {
        match look(conn, server)? {
            None => return Ok(Flow::Open),
            Some(Flow::Closed) => return Ok(Flow::Closed),
            Some(Flow::Open) => {}
        }
        if server.output().len() < READ_BYTES {
            continue;
        }
        flush(server, sink)?;
    }
}

/// Does what is asked next. None where more bytes are needed.
fn look<R: Race>(conn: &mut Conn, server: &mut PipeServer<R>) -> Result<Option<Flow>, AllocError>
    requires { IsInStep conn.old server.old }
    ensures { IfOk result (λ looked. HasLooked looked conn.old server.old conn.new server.new) }
{
    let outcome = match conn.next()? {
        None => return Ok(None),
        Some(ask) => server.serve(ask)?,
    };
    match outcome {
        Outcome::Closed => Ok(Some(Flow::Closed)),
        Outcome::Answered(answer) => {
            conn.answer(answer);
            Ok(Some(Flow::Open))
        }
    }
}

/// The exit status of a pipe: 0 where its input came to its end, and else 1. (Profile.)
pub fn pipe_status(ended: Result<PipeEnd, PipeFault>) -> u8
    ensures { result ≡ exit_status ended }
{
    match ended {
        Ok(PipeEnd::Ended) => 0,
        Ok(PipeEnd::Closed) => 1,
        Err(_) => 1,
    }
}

/// What is told of a pipe whose exit status is not 0.
pub fn pipe_complaint(ended: Result<PipeEnd, PipeFault>) -> Option<&'static str>
    ensures { IsSome result ↔ (exit_status ended ≢ 0) }
{
    match ended {
        Ok(PipeEnd::Ended) => None,
        Ok(PipeEnd::Closed) => Some("the connection was closed by an -ERR"),
        Err(fault) => Some(fault.text()),
    }
}
