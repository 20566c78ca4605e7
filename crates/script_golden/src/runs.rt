//! What is run in a case, and how that ends: scripts are read and played, logs audited, patterns matched, and one client is served on a pipe. Before
//! these stands what is read and written: bytes that a case puts together, what was written last, looked at piece by piece, and readers and writers
//! that give little, take little or fail.

ghost use Rattle.std.specs.Prelude.{◌≤◌, ◌<◌, IfSome, length};

use claim_cells::CellsRace;
use claim_race::{PlainRace, Race};
use golden::{Answer, Words, bytes_of, number};
use itoa::Buffer;
use mesh_audit::{AuditFault, audit_run, script_audit_run};
use mesh_pipe::{PipeEnd, PipeFault, pipe_run};
use mesh_script::{MatchFault, RunFault, match_run, script_run};
use script_form::{Script, ScriptError};
use std::alloc::{AllocError, Global};
use std::io;
use std::io::{ErrorKind, Read};
use sub_table::ListTable;
use sub_trie::TrieTable;
use subj::Failure;
use wire_cut::{MemSink, MemSource, Raw, Source};

/// Puts the text, with these digits in place of each `#`.
fn push_filled(out: &mut Vec<u8>, text: &[u8], digits: &[u8]) -> Result<(), AllocError> {
    let mut between: &[u8] = b"";
    for part in text.split(|byte| *byte == b'#') {
        out.extend_from_slice(between)?;
        out.extend_from_slice(part)?;
        between = digits;
    }
    Ok(())
}

/// Puts the text, with this number in place of each `#`.
fn push_numbered(out: &mut Vec<u8>, text: &[u8], number: u64) -> Result<(), AllocError> {
    let mut digits = Buffer::new();
    push_filled(out, text, digits.format(number).as_bytes())
}

/// Puts the bytes that the words stand for, and this behind them.
fn put(input: &mut Vec<u8>, alloc: Global, words: &Words<'_>, end: &[u8]) -> Option<()> {
    let bytes = bytes_of(alloc, words.text).ok()?;
    input.extend_from_slice(&bytes).ok()?;
    input.extend_from_slice(end).ok()
}

/// Puts the third word for each number from the first to the second one.
fn put_each(input: &mut Vec<u8>, alloc: Global, words: &Words<'_>) -> Option<()> {
    let text = bytes_of(alloc, words.at(2)).ok()?;
    for number in words.number(0)..=words.number(1) {
        push_numbered(input, &text, number).ok()?;
    }
    Some(())
}

/// `put BYTES`, `line BYTES`, which LF ends, or `each FIRST|LAST|BYTES`.
fn input_call(
    answer: &mut Answer,
    input: &mut Vec<u8>,
    alloc: Global,
    call: &str,
    words: &Words<'_>,
) -> Option<()> {
    match call {
        "put" => put(input, alloc, words, b""),
        "line" => put(input, alloc, words, b"\n"),
        "each" => put_each(input, alloc, words),
        _ => answer.tell("no such call"),
    }
}

/// What was written last, and how many of its bytes were looked at.
#[derive(Drop)]
struct Output {
    bytes: Vec<u8>,
    seen: usize,
}

impl Output {
    /// Nothing was written.
    fn new(alloc: Global) -> Output {
        Output {
            bytes: Vec::new(alloc),
            seen: 0,
        }
    }

    /// Nothing was written.
    fn clear(&mut self) {
        self.bytes.clear();
        self.seen = 0;
    }

    /// Keeps what was written, in place of what was written before.
    fn keep(&mut self, written: &[u8]) -> Option<()> {
        self.clear();
        self.bytes.extend_from_slice(written).ok()
    }

    /// All that was written last.
    fn bytes(&self) -> &[u8] {
        self.bytes.as_slice()
    }

    /// What was not looked at yet.
    fn rest(&self) -> &[u8] {
        self.bytes.get(self.seen..).unwrap_or(&[])
    }

    /// Looks at these bytes. Tells whether they come next.
    fn meets(&mut self, bytes: &[u8]) -> bool {
        let is_met = self.rest().starts_with(bytes);
        self.seen = self.seen.saturating_add(bytes.len());
        is_met
    }
}

/// Tells the next line, without its LF.
fn line(answer: &mut Answer, output: &mut Output) -> Option<()> {
    let rest = output.rest();
    let Some(end) = rest.iter().position(|byte| *byte == b'\n') else {
        return answer.tell_bytes("no line: ", rest);
    };
    answer.tell_bytes("", rest.get(..end).unwrap_or(rest));
    output.seen = output.seen.saturating_add(end).saturating_add(1);
    Some(())
}

/// Tells all the rest.
fn rest(answer: &mut Answer, output: &mut Output) -> Option<()> {
    if output.rest().is_empty() {
        return answer.tell("nothing");
    }
    answer.tell_bytes("", output.rest());
    output.seen = usize::MAX;
    Some(())
}

/// Looks at the text with this number in place of each `#`. Gives whether that comes next.
fn meets_numbered(
    output: &mut Output,
    alloc: Global,
    text: &[u8],
    number: u64,
) -> Result<bool, AllocError> {
    let mut due = Vec::new(alloc);
    push_numbered(&mut due, text, number)?;
    Ok(output.meets(&due))
}

/// Tells the first number, from the first to the second word, for which the third one does not come next.
fn each(answer: &mut Answer, output: &mut Output, alloc: Global, words: &Words<'_>) -> Option<()> {
    let text = bytes_of(alloc, words.at(2)).ok()?;
    for number in words.number(0)..=words.number(1) {
        if !meets_numbered(output, alloc, &text, number).ok()? {
            return answer.tell_number("not at ", number);
        }
    }
    Some(())
}

/// `line`, `each FIRST|LAST|BYTES` or `rest`.
fn output_call(
    answer: &mut Answer,
    output: &mut Output,
    alloc: Global,
    call: &str,
    words: &Words<'_>,
) -> Option<()> {
    match call {
        "line" => line(answer, output),
        "each" => each(answer, output, alloc, words),
        "rest" => rest(answer, output),
        _ => answer.tell("no such call"),
    }
}

/// How many bytes a call gives or takes at most; 0 is no such limit.
fn most(count: usize) -> usize
    ensures { 0 < result }
{
    if count == 0 { usize::MAX } else { count }
}

/// A source of these bytes, which gives so many a read, and whose read of this number fails; 0 is no such limit.
fn source_of(alloc: Global, bytes: &[u8], gives: usize, failing: u64) -> Option<MemSource> {
    let bytes = Vec::from_slice(alloc, bytes).ok()?;
    Some(
        MemSource::new(bytes)
            .failing_at(failing)
            .at_most(most(gives)),
    )
}

/// A sink that takes so many bytes a write, and whose write of this number fails; 0 is no such limit.
fn sink_of(alloc: Global, takes: usize, failing: u64) -> MemSink {
    MemSink::new(alloc).failing_at(failing).at_most(most(takes))
}

/// How many bytes are left in a source.
fn left_in(source: &mut MemSource) -> u64 {
    let mut room = [0u8; 4_096];
    let mut left = 0u64;
    for _read in 0..u32::MAX {
        match source.read(&mut room) {
            Ok(count) if count > 0 => left = left.saturating_add(count as u64),
            _ => return left,
        }
    }
    left
}

/// Tells what was written, behind how that ended.
fn tell_written(answer: &mut Answer, written: &[u8]) -> Option<()> {
    if written.is_empty() {
        return Some(());
    }
    answer.tell_bytes(": ", written)
}

/// Tells whether what was written is a beginning of the whole, and how many bytes it is.
fn tell_beginning(answer: &mut Answer, whole: &[u8], written: &[u8]) -> Option<()> {
    let front = if whole.starts_with(written) {
        ", a beginning of "
    } else {
        ", no beginning of "
    };
    answer.tell_number(front, written.len() as u64)
}

/// A reader that gives pieces, one after the other.
#[derive(Drop)]
struct Pieces {
    /// What each read gives: these bytes, or as many of them as there is room for. None is a failure.
    pieces: Vec<Option<Vec<u8>>>,
    /// How many of them were given.
    place: usize,
    /// How many bytes of the next one were given.
    given: usize,
}

/// The bytes that a word gives; none where reading fails.
fn piece_of(alloc: Global, word: &str) -> Result<Option<Vec<u8>>, AllocError> {
    if word == "!read fails" {
        return Ok(None);
    }
    Ok(Some(bytes_of(alloc, word)?))
}

/// How many bytes are written until the writer fails, where a word says so.
fn room_of(word: &str) -> Option<u64> {
    let bytes = word.strip_prefix("!write fails behind ")?;
    Some(number(bytes))
}

/// A writer that fails once it has as many bytes as one of the words says, where one does.
fn sink_in(alloc: Global, words: &Words<'_>) -> MemSink {
    for word in words.text.split('|') {
        if let Some(room) = room_of(word) {
            return sink_of(alloc, 1, room.saturating_add(1));
        }
    }
    MemSink::new(alloc)
}

impl Pieces {
    /// Gives nothing.
    fn new(alloc: Global) -> Pieces {
        Pieces {
            pieces: Vec::new(alloc),
            place: 0,
            given: 0,
        }
    }

    /// Gives just these bytes.
    fn whole(alloc: Global, bytes: &[u8]) -> Result<Pieces, AllocError> {
        let mut whole = Pieces::new(alloc);
        whole.pieces.push(Some(Vec::from_slice(alloc, bytes)?))?;
        Ok(whole)
    }

    /// Gives this word too, behind all else. An empty word is none, and so is one that is about the writer.
    fn push(&mut self, alloc: Global, word: &str) -> Result<(), AllocError> {
        if word.is_empty() || room_of(word).is_some() {
            return Ok(());
        }
        self.pieces.push(piece_of(alloc, word)?)?;
        Ok(())
    }

    /// Gives each word in turn.
    fn of_words(alloc: Global, words: &Words<'_>) -> Result<Pieces, AllocError> {
        let mut each = Pieces::new(alloc);
        for word in words.text.split('|') {
            each.push(alloc, word)?;
        }
        Ok(each)
    }

    /// The next piece comes.
    fn pass(&mut self) {
        self.place = self.place.saturating_add(1);
        self.given = 0;
    }

    /// Gives bytes of the next piece. None where it is a failure, or no more comes.
    fn give(&mut self, buffer: &mut [u8]) -> Option<usize>
        ensures { IfSome result (λ count. count ≤ length buffer.new) }
    {
        let Some(Some(bytes)) = self.pieces.get(self.place) else {
            return None;
        };
        let rest = bytes.get(self.given..).unwrap_or(&[]);
        let count = rest.len().min(buffer.len());
        buffer[..count].copy_from_slice(&rest[..count]);
        self.given = self.given.saturating_add(count);
        if count == rest.len() {
            self.pass();
        }
        Some(count)
    }
}

impl Read for Pieces {
    fn read(&mut self, buffer: &mut [u8]) -> io::Result<usize> {
        if let Some(count) = self.give(buffer) {
            return Ok(count);
        }
        if self.place >= self.pieces.len() {
            return Ok(0);
        }
        self.pass();
        Err(ErrorKind::Interrupted.into())
    }
}

/// Why the bytes are no script; nothing where they are one.
fn error_of(alloc: Global, bytes: &[u8]) -> Option<Option<ScriptError>> {
    match Script::read(alloc, bytes) {
        Ok(script) => {
            drop(script);
            Some(None)
        }
        Err(Failure::Refused(error)) => Some(Some(error)),
        Err(Failure::OutOfMemory) => None,
    }
}

/// Puts a script of two servers with this as its one step.
fn push_script(script: &mut Vec<u8>, step: &[u8]) -> Option<()> {
    let before = b"{\"nodes\":[\"n1\",\"n2\"],\"shards\":1,\"steps\":[";
    script.extend_from_slice(before).ok()?;
    script.extend_from_slice(step).ok()?;
    script.extend_from_slice(b"]}").ok()
}

/// A script of two servers with this as its one step.
fn step_script(alloc: Global, step: &[u8]) -> Option<Vec<u8>> {
    let mut script = Vec::new(alloc);
    push_script(&mut script, step)?;
    Some(script)
}

/// The bytes that are read: those of the words, or a script of two servers with these as its one step.
fn script_of(alloc: Global, call: &str, words: &Words<'_>) -> Option<Vec<u8>> {
    let bytes = bytes_of(alloc, words.text).ok()?;
    match call {
        "step" => step_script(alloc, &bytes),
        _ => Some(bytes),
    }
}

/// Tells the number of the refusal, or, as a complaint, all that is told of it.
fn error_told(answer: &mut Answer, call: &str, error: Option<ScriptError>) -> Option<()> {
    match error {
        None if call == "complaint" => answer.tell("none"),
        None => answer.tell("ok"),
        Some(error) if call == "complaint" => answer.tell_value("", &error),
        Some(error) => answer.tell_refusal(error.fault.number()),
    }
}

/// `read BYTES`, `step BYTES` or `complaint BYTES`.
fn script_call(answer: &mut Answer, alloc: Global, call: &str, words: &Words<'_>) -> Option<()> {
    if !["read", "step", "complaint"].contains(&call) {
        return answer.tell("no such call");
    }
    let bytes = script_of(alloc, call, words)?;
    error_told(answer, call, error_of(alloc, &bytes)?)
}

/// How a run of a script ended.
type Ended = Result<(), RunFault>;

/// Puts the script, with these bytes behind its line of this number, from 1.
fn push_disturbed(
    whole: &mut Vec<u8>,
    script: &[u8],
    number: u64,
    behind: &[u8],
) -> Result<(), AllocError> {
    let mut ended = 0u64;
    for byte in script {
        whole.push(*byte)?;
        if *byte != b'\n' {
            continue;
        }
        ended = ended.saturating_add(1);
        if ended == number {
            whole.extend_from_slice(behind)?;
        }
    }
    Ok(())
}

/// The script with the bytes of the second word behind its line of the first one's number.
fn disturbed(alloc: Global, script: &[u8], words: &Words<'_>) -> Option<Vec<u8>> {
    let behind = bytes_of(alloc, words.at(1)).ok()?;
    let mut whole = Vec::new(alloc);
    push_disturbed(&mut whole, script, words.number(0), &behind).ok()?;
    Some(whole)
}

/// What is played: the script, from a source that gives so many bytes a read and whose read of this number fails, or with more steps.
fn script_source(alloc: Global, script: &[u8], call: &str, words: &Words<'_>) -> Option<MemSource> {
    match call {
        "disturbed" => Some(MemSource::new(disturbed(alloc, script, words)?)),
        "reading" => source_of(alloc, script, words.number(0) as usize, words.number(1)),
        _ => source_of(alloc, script, 0, 0),
    }
}

/// What is written to: a sink that takes so many bytes a write, and whose write of this number fails.
fn script_sink(alloc: Global, call: &str, words: &Words<'_>) -> MemSink {
    match call {
        "listed" | "writing" => sink_of(alloc, words.number(0) as usize, words.number(1)),
        _ => MemSink::new(alloc),
    }
}

/// Plays what the source gives: by the list and the plain race, or, as the router does, by the trie and the cells, with its lists or without.
fn played(alloc: Global, source: &mut MemSource, sink: &mut MemSink, call: &str) -> Ended {
    match call {
        "plainly" => script_run::<ListTable, PlainRace, _, _>(alloc, source, sink),
        "listed" | "disturbed" => {
            script_audit_run::<TrieTable, CellsRace, _, _>(alloc, source, sink)
        }
        _ => script_run::<TrieTable, CellsRace, _, _>(alloc, source, sink),
    }
}

/// Tells how a run ended, in a word or a number, or all that is told of why the script is none.
fn run_told(answer: &mut Answer, call: &str, ended: Ended) -> Option<()> {
    match ended {
        Ok(()) if call == "complaint" => answer.tell("none"),
        Err(fault) if call == "complaint" => answer.tell_value("", &fault),
        Ok(()) => answer.tell("ok"),
        Err(RunFault::Refused(error)) => answer.tell_refusal(error.fault.number()),
        Err(RunFault::Read) => answer.tell("reading failed"),
        Err(RunFault::Write) => answer.tell("writing failed"),
        Err(RunFault::OutOfMemory) => answer.tell("out of memory"),
    }
}

/// Tells how many bytes were written, and how many are left in the source.
fn rest_told(answer: &mut Answer, source: &mut MemSource, written: &[u8]) -> Option<()> {
    answer.tell_number(", ", written.len() as u64);
    answer.tell_number(" written, ", left_in(source));
    answer.tell(" left")
}

/// Tells whether the same was written as was kept, or a beginning of it.
fn compared(answer: &mut Answer, kept: &[u8], written: &[u8], call: &str) -> Option<()> {
    match call {
        "writing" => tell_beginning(answer, kept, written),
        _ if kept == written => answer.tell(", alike"),
        _ => answer.tell(", apart"),
    }
}

/// Plays what the source gives, and tells how that ended. What it wrote is kept, or compared with what was kept.
fn play(
    answer: &mut Answer,
    output: &mut Output,
    alloc: Global,
    source: &mut MemSource,
    sink: &mut MemSink,
    call: &str,
) -> Option<()> {
    let ended = played(alloc, source, sink, call);
    run_told(answer, call, ended)?;
    match call {
        "plainly" | "writing" => return compared(answer, output.bytes(), sink.bytes(), call),
        "reading" => rest_told(answer, source, sink.bytes())?,
        _ => (),
    }
    output.keep(sink.bytes())
}

/// The calls that play a script.
const PLAYS: [&str; 7] = [
    "whole",
    "plainly",
    "listed",
    "disturbed",
    "complaint",
    "reading",
    "writing",
];

/// `whole`, `plainly`, `listed TAKES|FAILING`, `disturbed LINE|STEPS`, `complaint`, `reading GIVES|FAILING` or `writing TAKES|FAILING`.
fn play_call(
    answer: &mut Answer,
    output: &mut Output,
    alloc: Global,
    script: &[u8],
    call: &str,
    words: &Words<'_>,
) -> Option<()> {
    if !PLAYS.contains(&call) {
        return answer.tell("no such call");
    }
    let mut source = script_source(alloc, script, call, words)?;
    let mut sink = script_sink(alloc, call, words);
    play(answer, output, alloc, &mut source, &mut sink, call)
}

/// Tells how an audit ended, in a word and a number.
fn audit_told(answer: &mut Answer, ended: Result<(), AuditFault>) -> Option<()> {
    match ended {
        Ok(()) => answer.tell("passed"),
        Err(AuditFault::Breach(number)) => answer.tell_number("breach ", number),
        Err(AuditFault::Refused(error)) => {
            answer.tell_refusal(error.fault.number());
            answer.tell_number(" at line ", error.line)
        }
        Err(AuditFault::Read) => answer.tell("reading failed"),
        Err(AuditFault::Write) => answer.tell("writing failed"),
        Err(AuditFault::OutOfMemory) => answer.tell("out of memory"),
    }
}

/// Audits the log, of which each read gives so many bytes and one fails, into a sink of which one write fails. Tells how that ended, and what
/// was written.
fn audit(answer: &mut Answer, alloc: Global, log: &[u8], words: &Words<'_>) -> Option<()> {
    let mut source = source_of(alloc, log, words.number(0) as usize, words.number(1))?;
    let mut sink = sink_of(alloc, words.number(2) as usize, words.number(3));
    audit_told(answer, audit_run(alloc, &mut source, &mut sink))?;
    tell_written(answer, sink.bytes())
}

/// `run` audits the input, and `written` what was written last. Behind these how many bytes a read gives, which read fails, how many bytes the
/// sink takes a write, and which of its writes fails.
fn audit_call(
    answer: &mut Answer,
    output: &Output,
    alloc: Global,
    input: &[u8],
    call: &str,
    words: &Words<'_>,
) -> Option<()> {
    match call {
        "run" => audit(answer, alloc, input, words),
        "written" => audit(answer, alloc, output.bytes(), words),
        _ => answer.tell("no such call"),
    }
}

/// Asks whether the first word matches the second one.
fn matched(alloc: Global, words: &Words<'_>, sink: &mut MemSink) -> Option<Result<(), MatchFault>> {
    let pattern = bytes_of(alloc, words.at(0)).ok()?;
    let subject = bytes_of(alloc, words.at(1)).ok()?;
    Some(match_run(alloc, &pattern, &subject, sink))
}

/// Tells how a match ended, in a word and a number.
fn match_told(answer: &mut Answer, ended: Result<(), MatchFault>) -> Option<()> {
    match ended {
        Ok(()) => answer.tell("ok"),
        Err(MatchFault::BadPattern(fault)) => {
            answer.tell_number("bad pattern ", u64::from(fault.number()))
        }
        Err(MatchFault::BadSubject(fault)) => {
            answer.tell_number("bad subject ", u64::from(fault.number()))
        }
        Err(MatchFault::Write) => answer.tell("writing failed"),
        Err(MatchFault::OutOfMemory) => answer.tell("out of memory"),
    }
}

/// `PATTERN|SUBJECT`: whether the one matches the other, and the line that is written of it. Behind these how many bytes the sink takes a
/// write, and which of its writes fails.
fn match_call(answer: &mut Answer, alloc: Global, words: &Words<'_>) -> Option<()> {
    let mut sink = sink_of(alloc, words.number(2) as usize, words.number(3));
    match_told(answer, matched(alloc, words, &mut sink)?)?;
    tell_written(answer, sink.bytes())
}

/// What a client on a pipe is told first.
const INFO: &[u8] =
    b"INFO {\"client_id\":1,\"headers\":true,\"host\":\"127.0.0.1\",\"max_payload\":1048576,\"port\":0,\"proto\":1,\"server_id\":\"n1-1\",\"server_name\":\"n1\",\"version\":\"1.0.0\"}\r\n";

/// How a pipe ended.
fn end_word(ended: Result<PipeEnd, PipeFault>) -> &'static str {
    match ended {
        Ok(PipeEnd::Ended) => "ended",
        Ok(PipeEnd::Closed) => "closed",
        Err(PipeFault::Read) => "reading failed",
        Err(PipeFault::Write) => "writing failed",
        Err(PipeFault::OutOfMemory) => "out of memory",
    }
}

/// Serves the client whose reads give these pieces by this race.
fn serve<R: Race>(alloc: Global, pieces: Pieces, sink: &mut MemSink) -> &'static str {
    let mut source = Raw::new(pieces);
    end_word(pipe_run::<R, _, _>(alloc, &mut source, sink))
}

/// Serves the client whose reads give the words by this race.
fn serve_words<R: Race>(
    alloc: Global,
    words: &Words<'_>,
    sink: &mut MemSink,
) -> Option<&'static str> {
    let pieces = Pieces::of_words(alloc, words).ok()?;
    Some(serve::<R>(alloc, pieces, sink))
}

/// Tells how it ended, and whether INFO was written first. Gives what was written behind it.
fn ended_told<'w>(answer: &mut Answer, ended: &str, written: &'w [u8]) -> Option<&'w [u8]> {
    answer.tell(ended);
    let behind = written.strip_prefix(INFO);
    if behind.is_none() {
        answer.tell(" without INFO");
    }
    Some(behind.unwrap_or(written))
}

/// Serves that client, and tells how it ended and what was written.
fn run<R: Race>(answer: &mut Answer, alloc: Global, words: &Words<'_>) -> Option<()> {
    let mut sink = sink_in(alloc, words);
    let ended = serve_words::<R>(alloc, words, &mut sink)?;
    let behind = ended_told(answer, ended, sink.bytes())?;
    tell_written(answer, behind)
}

/// Serves the client whose reads give the words by the plain race, as the router does, up to where a write fails. Tells how it ended, whether
/// what was written is a beginning of what is written where no write fails, and how many bytes that are.
fn beginning(answer: &mut Answer, alloc: Global, words: &Words<'_>) -> Option<()> {
    let mut whole = MemSink::new(alloc);
    let _ended = serve_words::<PlainRace>(alloc, words, &mut whole)?;
    let mut sink = sink_in(alloc, words);
    let ended = serve_words::<PlainRace>(alloc, words, &mut sink)?;
    answer.tell(ended);
    tell_beginning(answer, whole.bytes(), sink.bytes())
}

/// Serves the client who sends the input, and keeps what is written behind INFO.
fn serve_input(
    answer: &mut Answer,
    output: &mut Output,
    alloc: Global,
    input: &[u8],
) -> Option<()> {
    let mut sink = MemSink::new(alloc);
    let ended = serve::<PlainRace>(alloc, Pieces::whole(alloc, input).ok()?, &mut sink);
    let behind = ended_told(answer, ended, sink.bytes())?;
    output.keep(behind)
}

/// Tells all that a client is told who sends nothing.
fn first(answer: &mut Answer, alloc: Global) -> Option<()> {
    let mut sink = MemSink::new(alloc);
    let ended = serve::<PlainRace>(alloc, Pieces::whole(alloc, b"").ok()?, &mut sink);
    answer.tell(ended);
    tell_written(answer, sink.bytes())
}

/// `run PIECES`, of which each is what a read gives, `!read fails`, or `!write fails behind BYTES`; `on_cells PIECES`, the same by the race on
/// claim cells; `beginning PIECES`; `serve`; or `first`.
fn pipe_call(
    answer: &mut Answer,
    output: &mut Output,
    alloc: Global,
    input: &[u8],
    call: &str,
    words: &Words<'_>,
) -> Option<()> {
    match call {
        "run" => run::<PlainRace>(answer, alloc, words),
        "on_cells" => run::<CellsRace>(answer, alloc, words),
        "beginning" => beginning(answer, alloc, words),
        "serve" => serve_input(answer, output, alloc, input),
        "first" => first(answer, alloc),
        _ => answer.tell("no such call"),
    }
}

/// What a case puts together, and what was written last.
#[derive(Drop)]
pub struct Runs {
    input: Vec<u8>,
    output: Output,
}

impl Runs {
    /// Nothing was put, and nothing written.
    pub fn new(alloc: Global) -> Runs {
        Runs {
            input: Vec::new(alloc),
            output: Output::new(alloc),
        }
    }

    /// Nothing was put, and nothing written: the next case begins.
    pub fn clear(&mut self) {
        self.input.clear();
        self.output.clear();
    }

    /// Makes a call of what is put and written, or of what is run.
    pub fn call(
        &mut self,
        answer: &mut Answer,
        alloc: Global,
        of: &str,
        call: &str,
        words: &Words<'_>,
    ) -> Option<()> {
        match of {
            "input" => input_call(answer, &mut self.input, alloc, call, words),
            "output" => output_call(answer, &mut self.output, alloc, call, words),
            "script" => script_call(answer, alloc, call, words),
            "play" => play_call(answer, &mut self.output, alloc, &self.input, call, words),
            "audit" => audit_call(answer, &self.output, alloc, &self.input, call, words),
            "pipe" => pipe_call(answer, &mut self.output, alloc, &self.input, call, words),
            "match" => match_call(answer, alloc, words),
            _ => answer.tell("no such call"),
        }
    }
}
