//! Scripts are read to their end, and played; and patterns are matched.

ghost use Rattle.std.specs.Prelude.{◌≡◌, IfOk, length, OnErr, None};
ghost use Rattle.wire_cut.specs.Flow.{Gains};
ghost use Rattle.mesh_script.specs.Runs.{RunsScript, CountsReads, CountsFailedWrites, HasRead, HasReadSome, ReadsAway, CountsFailedReads, broken_by};
ghost use Rattle.subj.specs.Matching.{subject_matches};
ghost use Rattle.subj.specs.Names.{pattern_fault, subject_fault};
ghost use Rattle.mesh_script.specs.Matching.{Matches, CountsMatchWrites};

use crate::output::{PlayFault, write_line, write_refusal};
use crate::player::play;
use claim_race::Race;
use cluster_world::World;
use script_form::{Script, ScriptError};
use std::alloc::{AllocError, Global};
use sub_table::SubTable;
use subj::{Failure, NameFault, Pattern, SCRIPT_BYTES, Subject};
use thiserror::Error;
use wire_cut::{Sink, Source};

/// Why a script was not read and played to its end.
#[derive(Clone, Copy, Debug, Error)]
pub enum RunFault {
    /// The bytes are no script. Its refusal was written.
    #[error("script refused: {0}")]
    Refused(ScriptError),
    /// The reader failed. Nothing was written.
    #[error("reading failed")]
    Read,
    /// The writer failed. What was written is a beginning of the text.
    #[error("writing failed")]
    Write,
    /// The allocator gave no memory. What was written is a beginning of the text.
    #[error("out of memory")]
    OutOfMemory,
}

/// Why it was not told whether a pattern matches a subject.
#[derive(Clone, Copy, Debug, Error)]
pub enum MatchFault {
    /// The pattern is none. Its refusal was written.
    #[error("pattern refused: {0}")]
    BadPattern(NameFault),
    /// The subject is none. Its refusal was written.
    #[error("subject refused: {0}")]
    BadSubject(NameFault),
    /// The writer failed.
    #[error("writing failed")]
    Write,
    /// The allocator gave no memory.
    #[error("out of memory")]
    OutOfMemory,
}

impl From<AllocError> for MatchFault {
    ghost use Rattle.std.specs.Prelude.{◌≡◌};
    ghost use Rattle.mesh_script.specs.declared.whole_runs.MatchFault.TheVariants.{OutOfMemory};

    ghost from_gives = { λ _ fault. fault ≡ OutOfMemory };

    fn from(_: AllocError) -> MatchFault {
        MatchFault::OutOfMemory
    }
}

impl From<PlayFault> for MatchFault {
    ghost use Rattle.std.specs.Prelude.{◌≡◌};
    ghost use Rattle.mesh_script.specs.Matching.{unmatched_by};

    ghost from_gives = { λ fault match_fault. match_fault ≡ unmatched_by fault };

    fn from(fault: PlayFault) -> MatchFault {
        match fault {
            PlayFault::Write => MatchFault::Write,
            PlayFault::OutOfMemory => MatchFault::OutOfMemory,
        }
    }
}

/// How many bytes are read at once at most.
const CHUNK: usize = 4_096;

/// Reads bytes behind the others, at most as many as there is room for; none is the end.
fn read_behind<S: Source>(
    bytes: &mut Vec<u8>,
    room: &mut [u8],
    source: &mut S,
) -> Result<usize, RunFault>
    ensures ok { IfOk result (λ n.
        Gains bytes.old.items bytes.new.items (S.remaining source.old) (S.remaining source.new)
        (length room.old) n) }
    ensures err { OnErr result
        (ReadsAway (S.remaining source.old) (S.remaining source.new) (length room.old)) }
    ensures failures { CountsFailedReads result (S.failures source.old) (S.failures source.new) }
{
    let Ok(count) = source.read(room) else {
        return Err(RunFault::Read);
    };
    if bytes.extend_from_slice(&room[..count]).is_err() {
        return Err(RunFault::OutOfMemory);
    }
    Ok(count)
}

/// Reads all that is left, but at most one byte more than a script has.
fn read_all<S: Source>(alloc: Global, source: &mut S) -> Result<Vec<u8>, RunFault>
    ensures ok { IfOk result (λ bytes.
        HasRead bytes.items (S.remaining source.old) (S.remaining source.new)) }
    ensures err { OnErr result (HasReadSome (S.remaining source.old) (S.remaining source.new)) }
    ensures failures { CountsFailedReads result (S.failures source.old) (S.failures source.new) }
{
    let mut bytes = Vec::new(alloc);
    let mut chunk = [0u8; CHUNK];
    while bytes.len() <= SCRIPT_BYTES {
        let most = CHUNK.min(SCRIPT_BYTES + 1 - bytes.len());
        if read_behind(&mut bytes, &mut chunk[..most], source)? == 0 {
            break;
        }
    }
    Ok(bytes)
}

/// Why it broke off.
fn run_fault(fault: PlayFault) -> RunFault
    ensures { result ≡ broken_by fault }
{
    match fault {
        PlayFault::Write => RunFault::Write,
        PlayFault::OutOfMemory => RunFault::OutOfMemory,
    }
}

/// Reads a script and plays it, as [`script_run`] does, and gives the cluster behind it.
pub fn script_world_run<T: SubTable, R: Race, I: Source, O: Sink>(
    alloc: Global,
    source: &mut I,
    sink: &mut O,
) -> Result<World<T, R>, RunFault>
    ensures text { RunsScript result (I.remaining source.old) (I.remaining source.new)
        (O.written sink.old) (O.written sink.new) }
    ensures reads { CountsReads result (I.failures source.old) (I.failures source.new) }
    ensures writes { CountsFailedWrites result (O.failures sink.old) (O.failures sink.new) }
{
    let bytes = read_all(alloc, source)?;
    match Script::read(alloc, &bytes) {
        Ok(script) => match play::<T, R, O>(alloc, &script, sink) {
            Ok(world) => Ok(world),
            Err(fault) => Err(run_fault(fault)),
        },
        Err(Failure::Refused(error)) => {
            match write_refusal(alloc, b"script", error.fault.number(), sink) {
                Ok(()) => Err(RunFault::Refused(error)),
                Err(fault) => Err(run_fault(fault)),
            }
        }
        Err(Failure::OutOfMemory) => Err(RunFault::OutOfMemory),
    }
}

/// Reads a script to the end of its bytes, or up to [`SCRIPT_BYTES`] and one of them, and plays it; of what is no
/// script, writes `script refused` with the number of its refusal in one line. (Profile.)
pub fn script_run<T: SubTable, R: Race, I: Source, O: Sink>(
    alloc: Global,
    source: &mut I,
    sink: &mut O,
) -> Result<(), RunFault>
    ensures text { RunsScript result (I.remaining source.old) (I.remaining source.new)
        (O.written sink.old) (O.written sink.new) }
    ensures reads { CountsReads result (I.failures source.old) (I.failures source.new) }
    ensures writes { CountsFailedWrites result (O.failures sink.old) (O.failures sink.new) }
{
    match script_world_run::<T, R, I, O>(alloc, source, sink) {
        Ok(_world) => Ok(()),
        Err(fault) => Err(fault),
    }
}

/// Whether the pattern matches the subject. Required: both are such.
fn is_match(alloc: Global, pattern: &[u8], subject: &[u8]) -> Result<bool, AllocError>
    requires pattern { pattern_fault pattern.now ≡ None }
    requires subject { subject_fault subject.now ≡ None }
    ensures { IfOk result (λ matches. matches ≡ subject_matches pattern.now subject.now) }
{
    let pattern = match Pattern::read(alloc, pattern) {
        Ok(pattern) => pattern,
        // required: the bytes are a pattern
        Err(failure) => return Err(failure.want_of_memory()),
    };
    match Subject::read(alloc, subject) {
        Ok(subject) => Ok(pattern.matches(&subject.lent())),
        // required: the bytes are a subject
        Err(failure) => Err(failure.want_of_memory()),
    }
}

/// Writes one line: whether the pattern matches the subject, as `true` or `false`; or, where the pattern or else the
/// subject is none, which of them is refused, and by which number. (Profile.)
pub fn match_run<S: Sink>(
    alloc: Global,
    pattern: &[u8],
    subject: &[u8],
    sink: &mut S,
) -> Result<(), MatchFault>
    ensures text { Matches result pattern.now subject.now (S.written sink.old)
        (S.written sink.new) }
    ensures failures { CountsMatchWrites result (S.failures sink.old) (S.failures sink.new) }
{
    if let Some(fault) = Pattern::fault(pattern) {
        write_refusal(alloc, b"pattern", fault.number(), sink)?;
        return Err(MatchFault::BadPattern(fault));
    }
    if let Some(fault) = Subject::fault(subject) {
        write_refusal(alloc, b"subject", fault.number(), sink)?;
        return Err(MatchFault::BadSubject(fault));
    }
    if is_match(alloc, pattern, subject)? {
        write_line(alloc, b"true", sink)?;
    } else {
        write_line(alloc, b"false", sink)?;
    }
    Ok(())
}
