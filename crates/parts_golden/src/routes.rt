//! Calls of frames of routes: they are read or built, told and written, alone and in streams; and when two values are the same.

use crate::client::reply_of;
use bytes::Bytes;
use golden::{
    Answer, Life, Words, bytes_of, headed_message_of, key_in, life_in, message_of, number, put,
    queues_of, sid_of,
};
use route_frames::{
    Body, Numbered, RouteConnect, RouteFault, RouteFrame, RouteInfo, RouteLine, SnapshotKeys,
    WeightedKey, decode, encode, payload_size,
};
use std::alloc::Global;
use std::mem;
use subj::{Failure, Key, MAX_SNAPSHOT, Message, Pub, QueueName, ROUTE_LINE};
use value_equality::{
    is_same_answer, is_same_connect, is_same_frame, is_same_info, is_same_key, is_same_message,
    is_same_pub, is_same_sid,
};
use wire_cut::{Cutter, Piece};

/// The frame and the keys that the calls of a case speak of.
#[derive(Drop)]
pub struct Routes {
    frame: Option<RouteFrame>,
    /// What was written of frames.
    written: Vec<u8>,
    /// Keys that are gathered for a snapshot.
    keys: Vec<WeightedKey>,
    snapshot: Option<SnapshotKeys>,
}

impl Routes {
    /// There is no frame, nothing is written, and there are no keys.
    pub fn new(alloc: Global) -> Routes {
        Routes {
            frame: None,
            written: Vec::new(alloc),
            keys: Vec::new(alloc),
            snapshot: None,
        }
    }
}

/// The key with the weight that stands behind it, where it may have that.
fn weighted_of(alloc: Global, word: &str) -> Option<Option<WeightedKey>> {
    let (key, weight) = word.rsplit_once(' ')?;
    let key = key_in(alloc, key)?;
    Some(WeightedKey::new(key, number(weight)))
}

/// Gathers the keys of a text, with `, ` between them.
fn gather(keys: &mut Vec<WeightedKey>, alloc: Global, text: &str) -> Option<()> {
    for word in text.split(", ") {
        gather_one(keys, alloc, word)?;
    }
    Some(())
}

/// Puts the key that a word is behind the others.
fn gather_one(keys: &mut Vec<WeightedKey>, alloc: Global, word: &str) -> Option<()> {
    keys.push(weighted_of(alloc, word)??).ok()
}

/// The snapshot of the keys of a text.
fn snapshot_of(alloc: Global, text: &str) -> Option<SnapshotKeys> {
    if text.is_empty() {
        return Some(SnapshotKeys::new(alloc));
    }
    let mut keys = Vec::new(alloc);
    gather(&mut keys, alloc, text)?;
    SnapshotKeys::from_keys(keys)
}

/// The message that a word is: its subject, the one that an answer is awaited on or nothing, and its payload, with commas between them.
fn message_in(alloc: Global, word: &str) -> Option<Message> {
    let (subject, rest) = word.split_once(',')?;
    let (reply, payload) = rest.split_once(',')?;
    message_of(alloc, subject, reply, payload)
}

/// The same with a header block in front of the payload.
fn headed_message_in(alloc: Global, word: &str) -> Option<Message> {
    let (subject, rest) = word.split_once(',')?;
    let (reply, rest) = rest.split_once(',')?;
    let (block, payload) = rest.split_once(',')?;
    headed_message_of(alloc, subject, reply, block, payload)?
}

/// The publication of a message for these queue names.
fn publication_of(alloc: Global, queues: &str, message: Message) -> Option<Body> {
    let queues = queues_of(alloc, queues)??;
    Some(Body::Msg { message, queues })
}

/// What a numbered frame of this kind is to say.
fn body_of(alloc: Global, kind: &str, words: &Words<'_>) -> Option<Body> {
    match kind {
        "plus" => Some(Body::Plus(weighted_of(alloc, words.at(3))??)),
        "minus" => Some(Body::Minus(key_in(alloc, words.at(3))?)),
        "snapshot" => Some(Body::Snapshot(snapshot_of(alloc, words.at(3))?)),
        "msg" => publication_of(alloc, words.at(3), message_in(alloc, words.at(4))?),
        "hmsg" => publication_of(alloc, words.at(3), headed_message_in(alloc, words.at(4))?),
        _ => None,
    }
}

/// Whose a frame is, whose it is to be, and its number or its serial.
#[derive(Clone, Copy)]
struct Ends {
    from: Life,
    to: Life,
    number: u64,
}

/// The ends that the first three words are.
fn ends_in(words: &Words<'_>) -> Option<Ends> {
    let (from, to) = (life_in(words.at(0))?, life_in(words.at(1))?);
    let number = words.number(2);
    Some(Ends { from, to, number })
}

/// The numbered frame that says this, where there may be such a one.
fn numbered_with(ends: &Ends, body: Body) -> Option<RouteFrame> {
    let (from, to) = (ends.from, ends.to);
    let numbered = Numbered::new(from.name, from.inc, to.name, to.inc, ends.number, body)?;
    Some(RouteFrame::Numbered(numbered))
}

/// The `CONNECT` of one server to another with a serial, where there may be such a one.
fn connect_with(ends: &Ends) -> Option<RouteFrame> {
    let (me, other) = (ends.from, ends.to);
    let connect = RouteConnect::new(me.name, me.inc, other.name, other.inc, ends.number)?;
    Some(RouteFrame::Connect(connect))
}

/// The built frame stands from now on, where there may be such a one.
fn build(
    answer: &mut Answer,
    place: &mut Option<RouteFrame>,
    frame: Option<RouteFrame>,
) -> Option<()> {
    let told = if frame.is_some() { "built" } else { "none" };
    put(place, frame);
    answer.tell(told)
}

/// Builds the frame of this kind.
fn build_kind(
    answer: &mut Answer,
    place: &mut Option<RouteFrame>,
    alloc: Global,
    kind: &str,
    words: &Words<'_>,
) -> Option<()> {
    match kind {
        "info" => {
            let life = life_in(words.at(0))?;
            let info = RouteInfo::new(life.name, life.inc);
            build(answer, place, Some(RouteFrame::Info(info)))
        }
        "connect" => build(answer, place, connect_with(&ends_in(words)?)),
        _ => {
            let ends = ends_in(words)?;
            build(
                answer,
                place,
                numbered_with(&ends, body_of(alloc, kind, words)?),
            )
        }
    }
}

/// The payload that a text spells.
fn payload_in(alloc: Global, text: &str) -> Result<Bytes, Failure<RouteFault>> {
    Ok(Bytes::from_vec(bytes_of(alloc, text)?)?)
}

/// The frame that a line and, behind its CR LF, its payload spell.
fn read_frame(alloc: Global, text: &str) -> Result<RouteFrame, Failure<RouteFault>> {
    let (line, payload) = text.split_once("\\r\\n").unwrap_or((text, ""));
    let line = bytes_of(alloc, line)?;
    decode(alloc, &line, payload_in(alloc, payload)?)
}

/// Tells the canonical spelling of a frame.
fn tell_encoding(answer: &mut Answer, alloc: Global, frame: &RouteFrame) -> Option<()> {
    let mut bytes = Vec::new(alloc);
    encode(frame, &mut bytes).ok()?;
    answer.tell_bytes("", &bytes)
}

/// The frame that is read stands from now on. Tells its canonical spelling, or the number by which it is refused.
fn read(
    answer: &mut Answer,
    place: &mut Option<RouteFrame>,
    alloc: Global,
    text: &str,
) -> Option<()> {
    match read_frame(alloc, text) {
        Ok(frame) => {
            let told = tell_encoding(answer, alloc, &frame);
            put(place, Some(frame));
            told
        }
        Err(Failure::Refused(fault)) => answer.tell_refusal(fault.number()),
        Err(Failure::OutOfMemory) => None,
    }
}

/// Tells how many bytes of payload a line announces.
fn size(answer: &mut Answer, alloc: Global, line: &str) -> Option<()> {
    let line = bytes_of(alloc, line).ok()?;
    match payload_size(alloc, &line) {
        Ok(None) => answer.tell("no payload"),
        Ok(Some(size)) => answer.tell_number("", size),
        Err(Failure::Refused(fault)) => answer.tell_refusal(fault.number()),
        Err(Failure::OutOfMemory) => None,
    }
}

/// Tells a key with its weight.
fn weighted_told(answer: &mut Answer, key: &Key, weight: u64) -> Option<()> {
    answer.tell_key("", key);
    answer.tell_number(" ", weight)
}

/// Tells how many keys there are.
fn keys_told(answer: &mut Answer, keys: &[WeightedKey]) -> Option<()> {
    answer.tell_number("", keys.len() as u64);
    answer.tell(" keys")
}

/// Tells how many queue names there are, and each in brackets.
fn names_told(answer: &mut Answer, names: &[QueueName]) -> Option<()> {
    answer.tell_number(", ", names.len() as u64);
    answer.tell(" names");
    for name in names {
        answer.tell_bytes(" [", name.bytes());
        answer.tell("]");
    }
    Some(())
}

/// Tells the subject of a message, that of the answer where one is awaited, the header block where there is one, and the payload.
fn message_told(answer: &mut Answer, message: &Message) -> Option<()> {
    answer.tell_bytes("on ", message.subject().bytes());
    if let Some(reply) = message.reply() {
        answer.tell_bytes(", answers to ", reply.bytes());
    }
    if let Some(block) = message.headers() {
        answer.tell_bytes(", headers ", block);
    }
    answer.tell_bytes(": ", message.payload().as_slice())
}

/// Tells what a numbered frame says.
fn body_told(answer: &mut Answer, body: &Body) -> Option<()> {
    match body {
        Body::Plus(weighted) => weighted_told(answer, weighted.key(), weighted.weight()),
        Body::Minus(key) => answer.tell_key("gone: ", key),
        Body::Snapshot(keys) => keys_told(answer, keys.as_slice()),
        Body::Msg { message, queues } => {
            message_told(answer, message);
            names_told(answer, queues.as_slice())
        }
    }
}

/// Tells whose a numbered frame is, and whose it is to be.
fn ends_told(answer: &mut Answer, frame: &Numbered) -> Option<()> {
    answer.tell_life("", frame.from(), frame.inc());
    answer.tell_life(" to ", frame.to(), frame.to_inc())
}

/// Tells who dialed whom, in which of their lives, and the serial.
fn connect_told(answer: &mut Answer, connect: &RouteConnect) -> Option<()> {
    answer.tell_life("", connect.server_name(), connect.inc());
    answer.tell_life(" to ", connect.to(), connect.to_inc());
    answer.tell_number(", serial ", connect.serial())
}

/// Tells a part of a frame.
fn part_told(answer: &mut Answer, name: &str, frame: &RouteFrame) -> Option<()> {
    match frame {
        RouteFrame::Info(info) => answer.tell_life("", info.server_name(), info.inc()),
        RouteFrame::Connect(connect) => connect_told(answer, connect),
        RouteFrame::Numbered(frame) if name == "ends" => ends_told(answer, frame),
        RouteFrame::Numbered(frame) if name == "number" => answer.tell_number("", frame.number()),
        RouteFrame::Numbered(frame) => body_told(answer, frame.body()),
    }
}

/// Tells what the frame says, which is taken, out of it.
fn into_body(answer: &mut Answer, place: &mut Option<RouteFrame>) -> Option<()> {
    match place.take()? {
        RouteFrame::Numbered(frame) => body_told(answer, &frame.into_body()),
        _ => None,
    }
}

/// Writes the frame behind what was written before, and tells all of it.
fn write(answer: &mut Answer, routes: &mut Routes) -> Option<()> {
    encode(routes.frame.as_ref()?, &mut routes.written).ok()?;
    answer.tell_bytes("", &routes.written)
}

/// A copy stands in place of the frame.
fn copy(answer: &mut Answer, place: &mut Option<RouteFrame>, alloc: Global) -> Option<()> {
    let copy = place.as_ref()?.try_clone(alloc).ok()?;
    put(place, Some(copy));
    answer.tell("copied")
}

/// Makes a call about a frame.
pub fn frame_call(
    answer: &mut Answer,
    routes: &mut Routes,
    alloc: Global,
    call: &str,
    words: &Words<'_>,
) -> Option<()> {
    match call {
        "size" => size(answer, alloc, words.text),
        "read" => read(answer, &mut routes.frame, alloc, words.text),
        "write" => write(answer, routes),
        "copy" => copy(answer, &mut routes.frame, alloc),
        "ends" | "number" | "body" | "greeting" => {
            part_told(answer, call, routes.frame.as_ref()?)
        }
        "into_body" => into_body(answer, &mut routes.frame),
        _ => build_kind(answer, &mut routes.frame, alloc, call, words),
    }
}

/// Tells a key with its weight, where it may have that; of a copy, in parts or whole, where that is asked for.
pub fn weighted_call(answer: &mut Answer, alloc: Global, call: &str, word: &str) -> Option<()> {
    let Some(weighted) = weighted_of(alloc, word)? else {
        return answer.tell("none");
    };
    match call {
        "new" => weighted_told(answer, weighted.key(), weighted.weight()),
        "copy" => weighted_copy(answer, alloc, &weighted),
        _ => weighted_parts(answer, weighted),
    }
}

/// Tells what a copy of a key with its weight is.
fn weighted_copy(answer: &mut Answer, alloc: Global, weighted: &WeightedKey) -> Option<()> {
    let copy = weighted.try_clone(alloc).ok()?;
    weighted_told(answer, copy.key(), copy.weight())
}

/// Tells the parts that a key with its weight is taken into.
fn weighted_parts(answer: &mut Answer, weighted: WeightedKey) -> Option<()> {
    let (key, weight) = weighted.into_parts();
    weighted_told(answer, &key, weight)
}

/// Gathers so many keys like this one, whose patterns begin with five digits each, from `00000`.
fn gather_numbered(
    keys: &mut Vec<WeightedKey>,
    alloc: Global,
    count: u64,
    word: &str,
) -> Option<()> {
    for number in 0..count {
        let word = format!(in alloc; "{number:05}{word}").ok()?;
        gather_one(keys, alloc, word.as_str())?;
    }
    Some(())
}

/// Adds the keys of a text to those that are gathered, and tells how many there are.
fn add(answer: &mut Answer, keys: &mut Vec<WeightedKey>, alloc: Global, text: &str) -> Option<()> {
    gather(keys, alloc, text)?;
    keys_told(answer, keys)
}

/// Adds so many keys to those that are gathered, and tells how many there are.
fn add_numbered(
    answer: &mut Answer,
    keys: &mut Vec<WeightedKey>,
    alloc: Global,
    words: &Words<'_>,
) -> Option<()> {
    gather_numbered(keys, alloc, words.number(0), words.at(1))?;
    keys_told(answer, keys)
}

/// A snapshot of the gathered keys stands from now on, where there may be such a one.
fn take(answer: &mut Answer, routes: &mut Routes, alloc: Global) -> Option<()> {
    let keys = mem::replace(&mut routes.keys, Vec::new(alloc));
    put(&mut routes.snapshot, SnapshotKeys::from_keys(keys));
    match &routes.snapshot {
        Some(snapshot) => keys_told(answer, snapshot.as_slice()),
        None => answer.tell("none"),
    }
}

/// Tells the text of a snapshot.
fn snapshot_text(answer: &mut Answer, alloc: Global, snapshot: &SnapshotKeys) -> Option<()> {
    let mut bytes = Vec::new(alloc);
    snapshot.append_text(&mut bytes).ok()?;
    answer.tell_bytes("", &bytes)
}

/// A copy stands in place of the snapshot.
fn snapshot_copy(
    answer: &mut Answer,
    place: &mut Option<SnapshotKeys>,
    alloc: Global,
) -> Option<()> {
    let copy = place.as_ref()?.try_clone(alloc).ok()?;
    keys_told(answer, copy.as_slice());
    put(place, Some(copy));
    Some(())
}

/// Tells keys, each in brackets.
fn each_told(answer: &mut Answer, keys: &[WeightedKey]) -> Option<()> {
    keys_told(answer, keys);
    for weighted in keys {
        answer.tell(" [");
        weighted_told(answer, weighted.key(), weighted.weight());
        answer.tell("]");
    }
    Some(())
}

/// Tells the keys, taken out of the snapshot, which is taken.
fn into_keys(answer: &mut Answer, place: &mut Option<SnapshotKeys>) -> Option<()> {
    let keys = place.take()?.into_keys();
    each_told(answer, &keys)
}

/// Builds the frame of the snapshot, which is taken.
fn build_snapshot(answer: &mut Answer, routes: &mut Routes, words: &Words<'_>) -> Option<()> {
    let ends = ends_in(words)?;
    let body = Body::Snapshot(routes.snapshot.take()?);
    build(answer, &mut routes.frame, numbered_with(&ends, body))
}

/// Makes a call about a snapshot.
pub fn snapshot_call(
    answer: &mut Answer,
    routes: &mut Routes,
    alloc: Global,
    call: &str,
    words: &Words<'_>,
) -> Option<()> {
    match call {
        "add" => add(answer, &mut routes.keys, alloc, words.text),
        "add_numbered" => add_numbered(answer, &mut routes.keys, alloc, words),
        "take" => take(answer, routes, alloc),
        "copy" => snapshot_copy(answer, &mut routes.snapshot, alloc),
        "text" => snapshot_text(answer, alloc, routes.snapshot.as_ref()?),
        "text_len" => answer.tell_number("", routes.snapshot.as_ref()?.text_len() as u64),
        "into_keys" => into_keys(answer, &mut routes.snapshot),
        "frame" => build_snapshot(answer, routes, words),
        _ => None,
    }
}

/// A stream that is read, and the encodings of the frames that came whole.
#[derive(Drop)]
struct Encoding {
    cutter: Cutter,
    /// A line whose payload is still to come.
    waiting: Option<RouteLine>,
    encoded: Vec<u8>,
}

/// The frame of a line and its payload.
fn joined(alloc: Global, line: RouteLine, payload: &[u8]) -> Option<RouteFrame> {
    let payload = Bytes::copy_from_slice(alloc, payload).ok()?;
    line.into_frame(alloc, payload).ok()
}

/// Announces a payload behind a line.
fn expect(cutter: &mut Cutter, size: u64) -> Option<()> {
    if !cutter.after_line() {
        return None;
    }
    cutter.expect(size).ok()
}

impl Encoding {
    /// Nothing was read.
    fn new(alloc: Global) -> Encoding {
        Encoding {
            cutter: Cutter::new(alloc, ROUTE_LINE, MAX_SNAPSHOT as u64),
            waiting: None,
            encoded: Vec::new(alloc),
        }
    }

    /// Joins a line with its payload, and encodes that frame.
    fn encode_frame(&mut self, alloc: Global, line: RouteLine, payload: &[u8]) -> Option<()> {
        let frame = joined(alloc, line, payload)?;
        encode(&frame, &mut self.encoded).ok()
    }

    /// The line waits for a payload of this size.
    fn wait(&mut self, line: RouteLine, size: u64) -> Option<()> {
        expect(&mut self.cutter, size)?;
        put(&mut self.waiting, Some(line));
        Some(())
    }

    /// Takes a line.
    fn take_line(&mut self, alloc: Global, bytes: &[u8]) -> Option<()> {
        let line = RouteLine::read(alloc, bytes).ok()?;
        match line.payload_size() {
            None => self.encode_frame(alloc, line, b""),
            Some(size) => self.wait(line, size),
        }
    }

    /// Takes a line, or the payload that one waits for.
    fn take_piece(&mut self, alloc: Global, bytes: &[u8]) -> Option<()> {
        match self.waiting.take() {
            None => self.take_line(alloc, bytes),
            Some(line) => self.encode_frame(alloc, line, bytes),
        }
    }

    /// The bytes of the next piece, where one is whole.
    fn next_piece(&mut self, alloc: Global) -> Option<Option<Vec<u8>>> {
        match self.cutter.next() {
            Ok(None) => Some(None),
            Ok(Some(Piece::Line(bytes) | Piece::Payload(bytes))) => {
                Some(Some(Vec::from_slice(alloc, bytes).ok()?))
            }
            Err(_) => None,
        }
    }

    /// Takes the next piece. Gives whether one was whole.
    fn take_next(&mut self, alloc: Global) -> Option<bool> {
        match self.next_piece(alloc)? {
            None => Some(false),
            Some(bytes) => {
                self.take_piece(alloc, &bytes)?;
                Some(true)
            }
        }
    }

    /// Takes the next part of the stream, and the pieces that are whole then.
    fn feed(&mut self, alloc: Global, bytes: &[u8]) -> Option<()> {
        self.cutter.feed(bytes).ok()?;
        for _piece in 0..u64::MAX {
            if !self.take_next(alloc)? {
                return Some(());
            }
        }
        None
    }

    /// The bytes of the frames of a stream that comes in parts of so many bytes, or in one for 0.
    fn encode_all(&mut self, alloc: Global, stream: &[u8], part: usize) -> Option<&[u8]> {
        let part = if part == 0 { stream.len() } else { part };
        for bytes in stream.chunks(part.max(1)) {
            self.feed(alloc, bytes)?;
        }
        Some(&self.encoded)
    }
}

/// Tells the encodings of the frames of a stream.
fn encodings_told(answer: &mut Answer, alloc: Global, stream: &[u8], part: usize) -> Option<()> {
    let mut encoding = Encoding::new(alloc);
    match encoding.encode_all(alloc, stream, part) {
        Some(encoded) => answer.tell_bytes("", encoded),
        None => None,
    }
}

/// Whether the stream is one, and no frame of it is whole.
fn has_no_frame(alloc: Global, stream: &[u8], part: usize) -> bool {
    let mut encoding = Encoding::new(alloc);
    match encoding.encode_all(alloc, stream, part) {
        Some(encoded) => encoded.is_empty(),
        None => false,
    }
}

/// Tells how many beginnings of a stream there are, if none has a whole frame; else the first that is otherwise.
fn beginnings(answer: &mut Answer, alloc: Global, stream: &[u8], part: usize) -> Option<()> {
    for len in 0..stream.len() {
        if !has_no_frame(alloc, &stream[..len], part) {
            answer.tell_number("otherwise behind ", len as u64);
            return answer.tell(" bytes");
        }
    }
    answer.tell_number("", stream.len() as u64);
    answer.tell(" beginnings, no frame")
}

/// Makes a call about a stream: the parts that it comes in stand before it.
pub fn stream_call(answer: &mut Answer, alloc: Global, call: &str, text: &str) -> Option<()> {
    let (part, stream) = text.split_once('|')?;
    let stream = bytes_of(alloc, stream).ok()?;
    match call {
        "spelt" => encodings_told(answer, alloc, &stream, number(part) as usize),
        "beginnings" => beginnings(answer, alloc, &stream, number(part) as usize),
        _ => None,
    }
}

/// Whether two frames of one kind are the same; nothing where they are of two kinds.
fn are_same(a: &RouteFrame, b: &RouteFrame) -> Option<bool> {
    match (a, b) {
        (RouteFrame::Info(a), RouteFrame::Info(b)) => Some(is_same_info(a, b)),
        (RouteFrame::Connect(a), RouteFrame::Connect(b)) => Some(is_same_connect(a, b)),
        (RouteFrame::Numbered(a), RouteFrame::Numbered(b)) => Some(is_same_frame(a, b)),
        _ => None,
    }
}

/// The publication of a message, which its client gets too where `echo` stands before it.
fn pub_of(alloc: Global, word: &str) -> Option<Pub> {
    let (echo, word) = match word.strip_prefix("echo ") {
        Some(word) => (true, word),
        None => (false, word),
    };
    let message = message_in(alloc, word)?;
    Some(Pub { message, echo })
}

fn same_messages(alloc: Global, a: &str, b: &str) -> Option<bool> {
    let (a, b) = (message_in(alloc, a)?, message_in(alloc, b)?);
    Some(is_same_message(&a, &b))
}

fn same_headed(alloc: Global, a: &str, b: &str) -> Option<bool> {
    let (a, b) = (headed_message_in(alloc, a)?, headed_message_in(alloc, b)?);
    Some(is_same_message(&a, &b))
}

fn same_pubs(alloc: Global, a: &str, b: &str) -> Option<bool> {
    let (a, b) = (pub_of(alloc, a)?, pub_of(alloc, b)?);
    Some(is_same_pub(&a, &b))
}

fn same_frames(alloc: Global, a: &str, b: &str) -> Option<bool> {
    let a = read_frame(alloc, a).ok()?;
    is_same_as(&a, alloc, b)
}

/// Whether a frame is the same as the one that a word is.
fn is_same_as(a: &RouteFrame, alloc: Global, b: &str) -> Option<bool> {
    let b = read_frame(alloc, b).ok()?;
    are_same(a, &b)
}

fn same_keys(alloc: Global, a: &str, b: &str) -> Option<bool> {
    let (a, b) = (key_in(alloc, a)?, key_in(alloc, b)?);
    Some(is_same_key(&a, &b))
}

fn same_sids(alloc: Global, a: &str, b: &str) -> Option<bool> {
    let (a, b) = (sid_of(alloc, a)?, sid_of(alloc, b)?);
    Some(is_same_sid(&a, &b))
}

fn same_answers(alloc: Global, a: &str, b: &str) -> Option<bool> {
    let (a, b) = (reply_of(alloc, a)?, reply_of(alloc, b)?);
    Some(is_same_answer(&a, &b))
}

fn sid_and_copy(alloc: Global, word: &str) -> Option<bool> {
    let sid = sid_of(alloc, word)?;
    Some(is_same_sid(&sid, &sid.try_clone(alloc).ok()?))
}

fn key_and_copy(alloc: Global, word: &str) -> Option<bool> {
    let key = key_in(alloc, word)?;
    Some(is_same_key(&key, &key.try_clone(alloc).ok()?))
}

fn frame_and_copy(alloc: Global, text: &str) -> Option<bool> {
    let frame = read_frame(alloc, text).ok()?;
    is_same_as_copy(&frame, alloc)
}

/// Whether a frame is the same as its copy.
fn is_same_as_copy(frame: &RouteFrame, alloc: Global) -> Option<bool> {
    let copy = frame.try_clone(alloc).ok()?;
    are_same(frame, &copy)
}

/// Whether two values of this kind are the same, or a value and its copy.
fn are_same_values(alloc: Global, kind: &str, text: &str) -> Option<bool> {
    let (a, b) = text.split_once('|').unwrap_or((text, ""));
    match kind {
        "sid" => same_sids(alloc, a, b),
        "key" => same_keys(alloc, a, b),
        "message" => same_messages(alloc, a, b),
        "headed" => same_headed(alloc, a, b),
        "pub" => same_pubs(alloc, a, b),
        "frame" => same_frames(alloc, a, b),
        "answer" => same_answers(alloc, a, b),
        "sid_copy" => sid_and_copy(alloc, text),
        "key_copy" => key_and_copy(alloc, text),
        "frame_copy" => frame_and_copy(alloc, text),
        _ => None,
    }
}

/// Tells whether two values of this kind are the same, or a value and its copy.
pub fn same_call(answer: &mut Answer, alloc: Global, kind: &str, text: &str) -> Option<()> {
    let same = are_same_values(alloc, kind, text)?;
    answer.tell(if same { "same" } else { "differ" })
}
