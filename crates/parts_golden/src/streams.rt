//! Calls of streams: where bytes come from and go to, and what is cut from them. A line `pN` announces a payload of N bytes.

use golden::{Answer, Words, bytes_of, put};
use line_fields::read_digits;
use std::alloc::Global;
use std::io;
use std::io::{Read, Write};
use wire_cut::{
    CutFault, Cutter, FeedFault, FillFault, MemSink, MemSource, Piece, Raw, Sink, Source,
    WriteFailed,
};

/// The most bytes of a line.
const LINE_MAX: usize = 8;

/// The most bytes of a payload.
const PAYLOAD_MAX: u64 = 6;

/// The most digits of an announced size.
const SIZE_DIGITS: usize = 9;

/// A cutter to which nothing was fed.
fn new_cutter(alloc: Global) -> Cutter {
    Cutter::new(alloc, LINE_MAX, PAYLOAD_MAX)
}

/// A cutter, a source with the buffer that it is read into, and a sink.
#[derive(Drop)]
pub struct Streams {
    cutter: Cutter,
    source: MemSource,
    buffer: [u8; 5],
    sink: MemSink,
}

impl Streams {
    /// Nothing was fed, there is nothing to read, and nothing was written.
    pub fn new(alloc: Global) -> Streams {
        Streams {
            cutter: new_cutter(alloc),
            source: MemSource::new(Vec::new(alloc)),
            buffer: [0; 5],
            sink: MemSink::new(alloc),
        }
    }
}

/// The size that a line announces.
fn announced_size(line: &[u8]) -> Option<u64> {
    let (letter, digits) = line.split_first()?;
    if *letter != b'p' {
        return None;
    }
    read_digits(digits, SIZE_DIGITS)
}

/// Notes a piece. Gives the size that it announces.
fn note_piece(log: &mut Answer, piece: Piece<'_>) -> Option<u64> {
    match piece {
        Piece::Payload(payload) => {
            log.tell_bytes("[", payload);
            log.tell("]");
            None
        }
        Piece::Line(line) => {
            log.tell_bytes("<", line);
            log.tell(">");
            announced_size(line)
        }
    }
}

/// Takes a piece and notes it. Gives the size that it announces; none where there is no piece.
fn next_size(cutter: &mut Cutter, log: &mut Answer) -> Result<Option<Option<u64>>, CutFault> {
    match cutter.next()? {
        None => Ok(None),
        Some(piece) => Ok(Some(note_piece(log, piece))),
    }
}

/// Announces a size, where a line came last.
fn announce(cutter: &mut Cutter, size: u64) -> Result<(), CutFault> {
    if !cutter.after_line() {
        return Ok(());
    }
    cutter.expect(size)
}

/// Takes a piece, and announces what it announces. Gives whether there may be more.
fn take(cutter: &mut Cutter, log: &mut Answer) -> Result<bool, CutFault> {
    match next_size(cutter, log)? {
        None => return Ok(false),
        Some(None) => {}
        Some(Some(size)) => announce(cutter, size)?,
    }
    Ok(true)
}

/// Takes pieces until none comes, and notes them and a fault.
fn take_all(cutter: &mut Cutter, log: &mut Answer) -> Option<()> {
    for _piece in 0..u64::MAX {
        match take(cutter, log) {
            Ok(true) => {}
            Ok(false) => break,
            Err(fault) => return log.tell_number("!", u64::from(fault.number())),
        }
    }
    log.so_far()
}

/// Tells the next piece.
fn next(answer: &mut Answer, cutter: &mut Cutter) -> Option<()> {
    match next_size(cutter, answer) {
        Ok(None) => answer.tell("none"),
        Ok(Some(_)) => Some(()),
        Err(fault) => answer.tell_refusal(fault.number()),
    }
}

/// Announces a payload.
fn expect(answer: &mut Answer, cutter: &mut Cutter, size: u64) -> Option<()> {
    if !cutter.after_line() {
        return None;
    }
    match cutter.expect(size) {
        Ok(()) => answer.tell("ok"),
        Err(fault) => answer.tell_refusal(fault.number()),
    }
}

/// Feeds the cutter.
fn feed(answer: &mut Answer, cutter: &mut Cutter, bytes: &[u8]) -> Option<()> {
    match cutter.feed(bytes) {
        Ok(()) => answer.tell("ok"),
        Err(FeedFault::Cut(fault)) => answer.tell_refusal(fault.number()),
        Err(FeedFault::OutOfMemory) => None,
    }
}

/// Has the cutter read from a source.
fn fill<S: Source>(answer: &mut Answer, cutter: &mut Cutter, source: &mut S) -> Option<()> {
    match cutter.read_from(source, 64) {
        Ok(count) => answer.tell_number("", count as u64),
        Err(FillFault::Cut(fault)) => answer.tell_refusal(fault.number()),
        Err(FillFault::Read) => answer.tell("failed"),
        Err(FillFault::OutOfMemory) => None,
    }
}

/// A cutter to which nothing was fed takes the place of the one that stands.
fn renew(answer: &mut Answer, cutter: &mut Cutter, alloc: Global) -> Option<()> {
    put(cutter, new_cutter(alloc));
    answer.tell("ok")
}

/// Makes a call of the cutter.
pub fn cutter_call(
    answer: &mut Answer,
    streams: &mut Streams,
    alloc: Global,
    call: &str,
    words: &Words<'_>,
) -> Option<()> {
    let cutter = &mut streams.cutter;
    match call {
        "new" => renew(answer, cutter, alloc),
        "feed" => feed(answer, cutter, &bytes_of(alloc, words.text).ok()?),
        "fill" => fill(answer, cutter, &mut streams.source),
        "next" => next(answer, cutter),
        "take" => take_all(cutter, answer),
        "expect" => expect(answer, cutter, words.number(0)),
        "after_line" => answer.tell_whether(cutter.after_line()),
        "held" => answer.tell_number("", cutter.held() as u64),
        _ => None,
    }
}

/// Feeds the bytes, and takes what comes of them.
fn feed_and_take(cutter: &mut Cutter, log: &mut Answer, bytes: &[u8]) -> Option<()> {
    if cutter.feed(bytes).is_err() {
        log.tell("not fed");
    }
    take_all(cutter, log)
}

/// Tells what comes of a stream that is fed in these words.
fn feeds(answer: &mut Answer, alloc: Global, words: &str) -> Option<()> {
    let mut cutter = new_cutter(alloc);
    for word in words.split('|') {
        feed_and_take(&mut cutter, answer, &bytes_of(alloc, word).ok()?);
    }
    Some(())
}

/// Puts what comes of a stream that is fed in two parts, cut at this place.
fn put_halves(log: &mut Answer, alloc: Global, stream: &[u8], at: usize) -> Option<()> {
    let (first, rest) = stream.split_at(at.min(stream.len()));
    let mut cutter = new_cutter(alloc);
    feed_and_take(&mut cutter, log, first);
    feed_and_take(&mut cutter, log, rest)
}

/// Reads from a source until its end, and takes what comes.
fn take_read(
    cutter: &mut Cutter,
    log: &mut Answer,
    source: &mut MemSource,
    reads: usize,
) -> Option<()> {
    for _read in 0..reads {
        if cutter.read_from(source, 64) == Ok(0) {
            break;
        }
        take_all(cutter, log);
    }
    log.tell(if cutter.held() > 0 {
        ", and some is held"
    } else {
        ""
    })
}

/// Puts what comes of a stream of which at most so many bytes come a read, at least one.
fn put_reads(log: &mut Answer, alloc: Global, stream: &[u8], most: usize) -> Option<()> {
    let mut source = MemSource::new(stream.to_vec(alloc).ok()?).at_most(most.max(1));
    take_read(&mut new_cutter(alloc), log, &mut source, stream.len())
}

/// Puts what comes of a stream, in two parts that are cut at this place or in reads of at most so many bytes.
fn put_parts(log: &mut Answer, alloc: Global, call: &str, stream: &[u8], at: usize) -> Option<()> {
    match call {
        "halves" => put_halves(log, alloc, stream, at),
        _ => put_reads(log, alloc, stream, at),
    }
}

/// What comes of a stream in such parts.
fn parts(alloc: Global, call: &str, stream: &[u8], at: usize) -> Option<Answer> {
    let mut log = Answer::new(alloc);
    put_parts(&mut log, alloc, call, stream, at)?;
    Some(log)
}

/// Whether just this comes of a stream, in these parts.
fn is_so(alloc: Global, call: &str, stream: &[u8], at: usize, whole: &str) -> bool {
    match parts(alloc, call, stream, at) {
        Some(log) => log.as_str() == whole,
        None => false,
    }
}

/// Tells what comes of a stream, where it is this in any two parts or in reads of any size.
fn same_told(
    answer: &mut Answer,
    alloc: Global,
    call: &str,
    stream: &[u8],
    whole: &str,
) -> Option<()> {
    for at in 0..=stream.len() {
        if !is_so(alloc, call, stream, at, whole) {
            return answer.tell_number("otherwise at ", at as u64);
        }
    }
    answer.tell(whole)
}

/// Tells what comes of a stream, where it is the same in all parts.
fn alike(answer: &mut Answer, alloc: Global, call: &str, stream: &[u8]) -> Option<()> {
    let whole = parts(alloc, call, stream, stream.len())?;
    same_told(answer, alloc, call, stream, whole.as_str())
}

/// Makes a call of streams that are cut, each by a cutter of its own.
pub fn cut_call(answer: &mut Answer, alloc: Global, call: &str, words: &Words<'_>) -> Option<()> {
    match call {
        "feeds" => feeds(answer, alloc, words.text),
        "halves" | "reads" => alike(answer, alloc, call, &bytes_of(alloc, words.text).ok()?),
        _ => None,
    }
}

/// A source of these bytes, with a limit for each read, where it is not 0, and the number of the read that fails.
fn source_of(alloc: Global, words: &Words<'_>) -> Option<MemSource> {
    let source = MemSource::new(bytes_of(alloc, words.at(0)).ok()?).failing_at(words.number(2));
    match words.number(1) {
        0 => Some(source),
        most => Some(source.at_most(most as usize)),
    }
}

/// Reads once into the buffer. Tells how much was read, and what stands there.
fn read_once(answer: &mut Answer, streams: &mut Streams) -> Option<()> {
    match streams.source.read(&mut streams.buffer) {
        Ok(count) => {
            answer.tell_number("", count as u64);
            answer.tell_bytes(": ", &streams.buffer)
        }
        Err(_) => answer.tell("failed"),
    }
}

/// Reads all there is, by at most 3 bytes a read, through the bound. Gives whether no read failed.
fn read_all<S: Source>(bytes: &mut Vec<u8>, source: &mut S) -> Option<bool> {
    let mut buffer = [0u8; 3];
    for _read in 0..u64::MAX {
        match source.read(&mut buffer) {
            Ok(0) => break,
            Ok(count) => bytes.extend_from_slice(&buffer[..count]).ok()?,
            Err(_) => return Some(false),
        }
    }
    Some(true)
}

/// Tells all that a source gives.
fn all_told<S: Source>(answer: &mut Answer, alloc: Global, source: &mut S) -> Option<()> {
    let mut bytes = Vec::new(alloc);
    if read_all(&mut bytes, source)? {
        answer.tell_bytes("", &bytes)
    } else {
        answer.tell("failed")
    }
}

/// A source takes the place of the one that stands.
fn renew_source(
    answer: &mut Answer,
    source: &mut MemSource,
    alloc: Global,
    words: &Words<'_>,
) -> Option<()> {
    put(source, source_of(alloc, words)?);
    answer.tell("ok")
}

/// Makes a call of the source.
pub fn source_call(
    answer: &mut Answer,
    streams: &mut Streams,
    alloc: Global,
    call: &str,
    words: &Words<'_>,
) -> Option<()> {
    match call {
        "new" => renew_source(answer, &mut streams.source, alloc, words),
        "read" => read_once(answer, streams),
        "read_all" => all_told(answer, alloc, &mut streams.source),
        _ => None,
    }
}

/// A sink with a limit for each write, where it is not 0, and the number of the write that fails.
fn sink_of(alloc: Global, most: usize, failing: u64) -> MemSink {
    let sink = MemSink::new(alloc).failing_at(failing);
    if most == 0 {
        return sink;
    }
    sink.at_most(most)
}

/// A sink takes the place of the one that stands.
fn renew_sink(
    answer: &mut Answer,
    sink: &mut MemSink,
    alloc: Global,
    words: &Words<'_>,
) -> Option<()> {
    put(
        sink,
        sink_of(alloc, words.number(0) as usize, words.number(1)),
    );
    answer.tell("ok")
}

/// Writes once. Tells how much was taken.
fn write_once(answer: &mut Answer, sink: &mut MemSink, bytes: &[u8]) -> Option<()> {
    match sink.write(bytes) {
        Ok(count) => answer.tell_number("", count as u64),
        Err(WriteFailed) => answer.tell("failed"),
    }
}

/// Whether something was done.
fn whether_done(answer: &mut Answer, is_done: bool) -> Option<()> {
    answer.tell(if is_done { "ok" } else { "failed" })
}

/// Writes each of the words, through the bound, up to a write that fails.
fn write_words<W: Sink>(sink: &mut W, words: &str) -> Result<(), WriteFailed> {
    for word in words.split('|') {
        sink.write_all(word.as_bytes())?;
    }
    Ok(())
}

/// Tells all that the sink took, in brackets.
fn taken(answer: &mut Answer, sink: &MemSink) -> Option<()> {
    answer.tell_bytes("[", sink.bytes());
    answer.tell("]")
}

/// Makes a call of the sink.
pub fn sink_call(
    answer: &mut Answer,
    sink: &mut Streams,
    alloc: Global,
    call: &str,
    words: &Words<'_>,
) -> Option<()> {
    let sink = &mut sink.sink;
    match call {
        "new" => renew_sink(answer, sink, alloc, words),
        "write" => write_once(answer, sink, words.text.as_bytes()),
        "write_all" => whether_done(answer, write_words(sink, words.text).is_ok()),
        "bytes" => taken(answer, sink),
        _ => None,
    }
}

/// Tells what a reader over bytes gives, and whether it has some left.
fn raw_read(answer: &mut Answer, alloc: Global, bytes: &[u8]) -> Option<()> {
    let mut source = Raw::new(bytes);
    all_told(answer, alloc, &mut source)?;
    if source.into_inner().is_empty() {
        return Some(());
    }
    answer.tell(", and some is left")
}

/// Tells what a writer into a list has of the words.
fn raw_write(answer: &mut Answer, alloc: Global, words: &str) -> Option<()> {
    let mut sink = Raw::new(Vec::new(alloc));
    write_words(&mut sink, words).ok()?;
    answer.tell_bytes("", &sink.into_inner())
}

/// A reader and writer that fails at every call, or takes nothing.
#[derive(Drop)]
struct Broken {
    takes_none: bool,
}

impl Read for Broken {
    fn read(&mut self, _buffer: &mut [u8]) -> io::Result<usize> {
        Err(io::ErrorKind::Interrupted.into())
    }
}

impl Write for Broken {
    fn write(&mut self, _bytes: &[u8]) -> io::Result<usize> {
        if self.takes_none {
            return Ok(0);
        }
        Err(io::ErrorKind::Interrupted.into())
    }

    fn flush(&mut self) -> io::Result<()> {
        Ok(())
    }
}

/// Has a cutter read once from what is broken.
fn broken_cut(answer: &mut Answer, alloc: Global, broken: &mut Raw<Broken>) -> Option<()> {
    let mut cutter = new_cutter(alloc);
    fill(answer, &mut cutter, broken);
    answer.tell_number(", held ", cutter.held() as u64)
}

/// Makes a call of a reader and writer that is broken.
fn broken_call(answer: &mut Answer, alloc: Global, call: &str, takes_none: bool) -> Option<()> {
    let mut broken = Raw::new(Broken { takes_none });
    match call {
        "read_broken" => whether_done(answer, broken.read(&mut [0u8; 3]).is_ok()),
        "cut_broken" => broken_cut(answer, alloc, &mut broken),
        "write_broken" => whether_done(answer, broken.write(b"a").is_ok()),
        "write_all_broken" => whether_done(answer, broken.write_all(b"a").is_ok()),
        _ => None,
    }
}

/// Makes a call of a reader or a writer of std.
pub fn raw_call(answer: &mut Answer, alloc: Global, call: &str, words: &Words<'_>) -> Option<()> {
    match call {
        "read" => raw_read(answer, alloc, words.text.as_bytes()),
        "write" => raw_write(answer, alloc, words.text),
        _ => broken_call(answer, alloc, call, words.text == "takes none"),
    }
}
