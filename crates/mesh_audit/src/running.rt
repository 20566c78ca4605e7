//! A log is read and audited.

ghost use Rattle.std.specs.Prelude.{◌≡◌, length, Some, IfErr, IfOk, OnErr};
ghost use Rattle.wire_cut.specs.Flow.{Gains};
ghost use Rattle.mesh_audit.specs.Runs.{Audits, HasRead, IsOfReading, ReadsAway, TellsRefusal, TellsVerdict, refused_line, verdict_line};

use audit_log::{Log, LogError, LogFault};
use itoa::Buffer;
use std::alloc::{AllocError, Global};
use subj::Failure;
use thiserror::Error;
use wire_cut::{Sink, Source, WriteFailed};

/// Why lines did not pass an audit. (Profile.)
#[derive(Clone, Copy, Debug, Error)]
pub enum AuditFault {
    /// The placement of this number, from 1, breaks the clause with those before it. The number was written.
    #[error("placement {0} breaks the clause with those before it")]
    Breach(u64),
    /// The bytes are no log. The refusal was written.
    #[error("log refused: {0}")]
    Refused(LogError),
    /// The reader failed, or did not come to its end in 2^64 - 1 reads. Nothing was written.
    #[error("reading failed")]
    Read,
    /// The writer failed.
    #[error("writing failed")]
    Write,
    /// The allocator gave no memory. Nothing was written.
    #[error("out of memory")]
    OutOfMemory,
}

impl From<AllocError> for AuditFault {
    ghost use Rattle.std.specs.Prelude.{◌≡◌};
    ghost use Rattle.mesh_audit.specs.declared.running.AuditFault.TheVariants.{OutOfMemory};

    ghost from_gives = { λ _ fault. fault ≡ OutOfMemory };

    fn from(_: AllocError) -> AuditFault {
        AuditFault::OutOfMemory
    }
}

impl From<WriteFailed> for AuditFault {
    ghost use Rattle.std.specs.Prelude.{◌≡◌};
    ghost use Rattle.mesh_audit.specs.declared.running.AuditFault.TheVariants.{Write};

    ghost from_gives = { λ _ fault. fault ≡ Write };

    fn from(_: WriteFailed) -> AuditFault {
        AuditFault::Write
    }
}

/// How many bytes are read at once at most.
const CHUNK: usize = 4_096;

/// Reads bytes behind the others, at most as many as there is room for; none is the end.
fn read_behind<S: Source>(
    bytes: &mut Vec<u8>,
    room: &mut [u8],
    source: &mut S,
) -> Result<usize, AuditFault>
    ensures ok { IfOk result (λ n. Gains bytes.old.items bytes.new.items
        (S.remaining source.old) (S.remaining source.new) (length room.old) n) }
    ensures err { OnErr result (ReadsAway (S.remaining source.old) (S.remaining source.new)) }
    ensures cause { IfErr result IsOfReading }
{
    let Ok(count) = source.read(room) else {
        return Err(AuditFault::Read);
    };
    bytes.extend_from_slice(&room[..count])?;
    Ok(count)
}

/// Reads all that is left.
fn read_all<S: Source>(alloc: Global, source: &mut S) -> Result<Vec<u8>, AuditFault>
    ensures ok { IfOk result (λ bytes. HasRead bytes.items
        (S.remaining source.old) (S.remaining source.new)) }
    ensures err { OnErr result (ReadsAway (S.remaining source.old) (S.remaining source.new)) }
    ensures cause { IfErr result IsOfReading }
{
    let mut bytes = Vec::new(alloc);
    let mut chunk = [0u8; CHUNK];
    for _read in 0..u64::MAX {
        if read_behind(&mut bytes, &mut chunk, source)? == 0 {
            return Ok(bytes);
        }
    }
    Err(AuditFault::Read)
}

/// The line of a placement that breaks the clause.
fn number_line(alloc: Global, number: u64) -> Result<Vec<u8>, AllocError>
    ensures { IfOk result (λ line. line.items ≡ verdict_line (Some number)) }
{
    let mut digits = Buffer::new();
    let mut line = Vec::from_slice(alloc, digits.format(number).as_bytes())?;
    line.push(b'\n')?;
    Ok(line)
}

/// The line of a refusal.
fn refusal_line(alloc: Global, fault: LogFault) -> Result<Vec<u8>, AllocError>
    ensures { IfOk result (λ line. line.items ≡ refused_line fault) }
{
    let mut digits = Buffer::new();
    let mut line = Vec::from_slice(alloc, b"audit refused ")?;
    line.extend_from_slice(digits.format(fault.number() as u64).as_bytes())?;
    line.push(b'\n')?;
    Ok(line)
}

/// Writes what the audit of the log tells.
fn tell_verdict<S: Sink>(alloc: Global, log: &Log, sink: &mut S) -> Result<(), AuditFault>
    ensures { TellsVerdict log.now result (S.written sink.old) (S.written sink.new) }
{
    match log.audit()? {
        None => {
            sink.write_all(b"none\n")?;
            Ok(())
        }
        Some(number) => {
            let line = number_line(alloc, number)?;
            sink.write_all(&line)?;
            Err(AuditFault::Breach(number))
        }
    }
}

/// Writes why the bytes are no log.
fn tell_refusal<S: Sink>(alloc: Global, error: LogError, sink: &mut S) -> Result<(), AuditFault>
    ensures { TellsRefusal error.fault result (S.written sink.old) (S.written sink.new) }
{
    let line = refusal_line(alloc, error.fault)?;
    sink.write_all(&line)?;
    Err(AuditFault::Refused(error))
}

/// Reads a log to the end of what the source gives, and writes one line: `none` where no placement breaks the clause, the number from 1 of the
/// first that does, or `audit refused` with the number of the refusal. Ok just where `none` was written. (Profile.)
pub fn audit_run<I: Source, O: Sink>(
    alloc: Global,
    source: &mut I,
    sink: &mut O,
) -> Result<(), AuditFault>
    ensures { Audits result (I.remaining source.old) (I.remaining source.new)
        (O.written sink.old) (O.written sink.new) }
{
    let bytes = read_all(alloc, source)?;
    match Log::read(alloc, &bytes) {
        Ok(log) => tell_verdict(alloc, &log, sink),
        Err(Failure::Refused(error)) => tell_refusal(alloc, error, sink),
        Err(Failure::OutOfMemory) => Err(AuditFault::OutOfMemory),
    }
}
