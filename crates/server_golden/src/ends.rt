//! The two servers of a case with their connections, whatever makes the calls of each: what is done with one of them and with the other ends of
//! its connections, what it is asked, and what is between both. What stands is borrowed here: a function that had made it would be proved to let
//! go of it at each of its ends. And the lines that the log writes, of events that no stream in memory brings about: they are the system's, or
//! those of a server's beginning and end.

use event_log::{EventText, Line};
use golden::{Answer, Call, Words, bytes_of, call_of, number};
use node_net::{MemStream, Server, Side};
use peer_proof::{Secret, WORD};
use server_calls::ServerCalls;
use server_events::{Caller, Event, RefusalCause, SystemCause};
use std::alloc::{AllocError, Global};
use std::io;
use std::net::{Ipv4Addr, SocketAddr};
use std::sync::Wait;
use subj::{HostText, NodeId, ServerIdentity as Life};

/// What is known of a connection: its key, and how much of what was written to it came to its other end.
#[derive(Clone, Copy)]
struct Known {
    key: usize,
    passed: usize,
}

/// What is answered here of the entries on a server's tapes: whoever has its locks knows them.
pub const ENTRIES: &str = "entries on its tapes";

/// A server over streams in memory, whatever makes its calls, and its connections, in the order in which they came.
#[derive(Drop)]
pub struct End<C: ServerCalls> {
    alloc: Global,
    server: Server<'static, MemStream, C>,
    known: Vec<Known>,
}

/// Who is at the other end: `client`, `accepted`, the address of a server that has dialed, or the place of one that is dialed.
fn side_of(word: &str) -> Side {
    match word {
        "client" => Side::Client,
        "accepted" => Side::Accepted(None),
        _ => match word.parse::<SocketAddr>() {
            Ok(from) => Side::Accepted(Some(from)),
            Err(_) => Side::Dialed(number(word) as usize),
        },
    }
}

/// A word of 32 bytes that count up from this one.
fn word_from(first: u64) -> [u8; WORD] {
    let mut word = [0; WORD];
    let mut next = (first & 0xff) as u8;
    for byte in word.iter_mut() {
        *byte = next;
        next = next.wrapping_add(1);
    }
    word
}

/// Sends these bytes so often.
fn feed(stream: &mut MemStream, times: u64, bytes: &[u8]) -> Option<()> {
    for _time in 0..times {
        stream.feed(bytes).ok()?;
    }
    Some(())
}

/// The stream gives and takes at most so many bytes a call, fails at a call, or takes only so many bytes.
fn limit(stream: &mut MemStream, alloc: Global, call: &str, number: u64) {
    let limited = std::mem::replace(stream, MemStream::new(alloc));
    let limited = match call {
        "at_most" => limited.at_most(number as usize),
        "failing_at" => limited.failing_at(number),
        _ => limited.with_room(number as usize),
    };
    golden::put(stream, limited);
}

/// What the other end of a stream does, and what is made of the stream. None where there is no such call.
fn on_stream(
    stream: &mut MemStream,
    alloc: Global,
    call: &str,
    number: u64,
    bytes: &[u8],
) -> Option<()> {
    match call {
        "feed" => feed(stream, 1, bytes)?,
        "feed_times" => feed(stream, number, bytes)?,
        "end" => stream.end(),
        "grant" => stream.grant(number as usize),
        "at_most" | "failing_at" | "with_room" => limit(stream, alloc, call, number),
        _ => return None,
    }
    Some(())
}

/// Tells a number behind a word, or another one where there is none.
fn number_told(
    answer: &mut Answer,
    word: &str,
    number: Option<u64>,
    otherwise: &str,
) -> Option<()> {
    match number {
        Some(number) => answer.tell_number(word, number),
        None => answer.tell(otherwise),
    }
}

/// Tells what was written to a connection, or how much, or how many calls of its stream have failed.
fn written_told(answer: &mut Answer, stream: Option<&MemStream>, call: &str) -> Option<()> {
    match stream {
        None => answer.tell("no connection"),
        Some(stream) if call == "length" => {
            answer.tell_number("", stream.written().len() as u64)
        }
        Some(stream) if call == "failed" => answer.tell_number("", stream.failed_calls()),
        Some(stream) => answer.tell_bytes("", stream.written()),
    }
}

/// The host that clients are told.
fn host() -> HostText {
    HostText::from("127.0.0.1").unwrap_or(HostText::new())
}

impl<C: ServerCalls> End<C> {
    /// This life of a server, without connections.
    pub fn new(
        alloc: Global,
        node: C,
        life: Option<Life>,
        port: u16,
    ) -> Result<End<C>, AllocError> {
        let Some(life) = life else {
            return Err(AllocError);
        };
        let server = Server::new(alloc, node, life, host(), port, 0)?;
        let known = Vec::new(alloc);
        Ok(End {
            alloc,
            server,
            known,
        })
    }

    /// The key of the connection of this number, from 1; the greatest number, which is no key, where there is none.
    fn key(&self, number: u64) -> usize {
        let place = (number as usize).wrapping_sub(1);
        match self.known.get(place) {
            Some(known) => known.key,
            None => usize::MAX,
        }
    }

    /// Takes the stream that was made ready; the next one gives nothing yet.
    fn add<R: Wait>(&mut self, rt: &R, ready: &mut MemStream, side: Side) -> Option<()> {
        let stream = std::mem::replace(ready, MemStream::new(self.alloc));
        let key = self.server.add(rt, stream, side).ok()?;
        self.known.push(Known { key, passed: 0 }).ok()
    }

    /// From now on it knows other servers by this secret.
    fn guard(&mut self, secret: &[u8]) -> Option<()> {
        self.server.set_secret(Secret::read(secret).ok()?);
        Some(())
    }

    /// Somebody dials, where the next word is that of the bytes from this one. Whether a connection was taken.
    fn admits<R: Wait>(&mut self, rt: &R, first: u64) -> bool {
        self.server.set_word(word_from(first));
        let mut ready = MemStream::new(self.alloc);
        let is_added = self.add(rt, &mut ready, Side::Accepted(None)).is_some();
        drop(ready);
        is_added
    }

    /// So many dial.
    fn add_strangers<R: Wait>(&mut self, rt: &R, count: u64) -> Option<()> {
        for stranger in 0..count {
            if !self.admits(rt, stranger) {
                return None;
            }
        }
        Some(())
    }

    /// A turn in which no connection is ready, where something is to be done.
    fn turn_on<R: Wait>(&mut self, rt: &R) {
        if self.server.goes_on() {
            self.server.turn(rt, &[]);
        }
    }

    /// The other end of a connection sends these bytes, and a turn is made, where the connection is there.
    fn send_some<R: Wait>(&mut self, rt: &R, key: usize, bytes: &[u8]) -> Option<()> {
        if let Some(stream) = self.server.stream_mut(key) {
            stream.feed(bytes).ok()?;
            self.server.turn(rt, &[key]);
        }
        Some(())
    }

    /// The same of so many of the bytes before each turn; of all at once for 0.
    fn send<R: Wait>(&mut self, rt: &R, key: usize, part: usize, bytes: &[u8]) -> Option<()> {
        let part = if part == 0 { usize::MAX } else { part };
        for some in bytes.chunks(part) {
            self.send_some(rt, key, some)?;
        }
        Some(())
    }

    /// Whether what was written to a connection ends with these bytes; else its stream takes one byte more, and a turn is made.
    fn grants<R: Wait>(&mut self, rt: &R, key: usize, bytes: &[u8]) -> Option<bool> {
        let stream = self.server.stream_mut(key)?;
        if stream.written().ends_with(bytes) {
            return Some(true);
        }
        stream.grant(1);
        self.server.turn(rt, &[key]);
        Some(false)
    }

    /// The same until it ends so; so often at most.
    fn grant_until<R: Wait>(&mut self, rt: &R, key: usize, most: u64, bytes: &[u8]) -> Option<()> {
        for _byte in 0..most {
            if self.grants(rt, key, bytes)? {
                break;
            }
        }
        Some(())
    }

    /// What was written to a connection and did not come to its other end: this part of it, as 2 is the half.
    fn unpassed(&self, number: u64, part: usize) -> Option<&[u8]> {
        let known = self.known.get((number as usize).checked_sub(1)?)?;
        let stream = self.server.stream(known.key)?;
        let bytes = stream.written().get(known.passed..)?;
        bytes.get(..bytes.len() / part.max(1))
    }

    /// So much more of it came there.
    fn note_passed(&mut self, number: u64, count: usize) -> Option<()> {
        let place = (number as usize).checked_sub(1)?;
        let known = self.known.get_mut(place)?;
        known.passed = known.passed.saturating_add(count);
        Some(())
    }

    /// The other end of a connection sends these bytes.
    fn feed(&mut self, number: u64, bytes: &[u8]) -> Option<()> {
        let key = self.key(number);
        self.server.stream_mut(key)?.feed(bytes).ok()
    }

    /// Sets what the server goes by: its time, its next word, what came of a connection, or that it drains. Whether there is such a call.
    fn set(&mut self, call: &str, number: u64) -> bool {
        let key = self.key(number);
        match call {
            "time" => self.server.set_time(number),
            "word" => self.server.set_word(word_from(number)),
            "await_stream" => self.server.await_stream(key),
            "connected" => self.server.connected(key),
            "drain" => self.server.drain(number),
            _ => return false,
        }
        true
    }

    /// A turn in which the connections of these numbers are ready.
    fn turn<R: Wait>(&mut self, rt: &R, words: &Words<'_>) {
        let (first, second) = (self.key(words.number(0)), self.key(words.number(1)));
        let third = self.key(words.number(2));
        self.server.turn(rt, &[first, second, third]);
    }

    /// A turn in which the connection of this number is ready.
    fn turn_alone<R: Wait>(&mut self, rt: &R, number: u64) {
        let key = self.key(number);
        self.server.turn(rt, &[key]);
    }

    /// The stream of the connection of this number.
    fn stream(&self, number: u64) -> Option<&MemStream> {
        self.server.stream(self.key(number))
    }

    /// A client comes who has sent these bytes.
    fn add_sending<R: Wait>(&mut self, rt: &R, ready: &mut MemStream, bytes: &[u8]) -> Option<()> {
        ready.feed(bytes).ok()?;
        self.add(rt, ready, Side::Client)
    }

    /// Makes a call on one of the connections, or one that sets something. None where it cannot be made.
    fn act_on<R: Wait>(&mut self, rt: &R, line: &Call<'_>, bytes: &[u8]) -> Option<()> {
        let (call, first, number) = (line.name, line.words.number(0), line.words.number(1));
        let key = self.key(first);
        match call {
            "send" => self.send(rt, key, number as usize, bytes),
            "grant_until" => self.grant_until(rt, key, number, bytes),
            _ if self.set(call, first) => Some(()),
            _ => on_stream(
                self.server.stream_mut(key)?,
                self.alloc,
                call,
                number,
                bytes,
            ),
        }
    }

    /// Makes a call that asks nothing. None where it cannot be made.
    fn act<R: Wait>(
        &mut self,
        rt: &R,
        ready: &mut MemStream,
        line: &Call<'_>,
        bytes: &[u8],
    ) -> Option<()> {
        match line.name {
            "add" => self.add(rt, ready, side_of(line.words.at(0))),
            "add_sending" => self.add_sending(rt, ready, bytes),
            "add_strangers" => self.add_strangers(rt, line.words.number(0)),
            "secret" => self.guard(bytes),
            "turn" => {
                self.turn(rt, &line.words);
                Some(())
            }
            "turn_on" => {
                self.turn_on(rt);
                Some(())
            }
            _ => self.act_on(rt, line, bytes),
        }
    }

    /// How much was written to a connection.
    fn length(&self, key: usize) -> usize {
        match self.server.stream(key) {
            Some(stream) => stream.written().len(),
            None => 0,
        }
    }

    /// How many messages of this size are written to a connection in a turn in which another one is told of twice: whether they are from
    /// `least` to `most`.
    fn gains<R: Wait>(&mut self, rt: &R, words: &Words<'_>) -> bool {
        let key = self.key(words.number(0));
        let before = self.length(key);
        let other = self.key(words.number(1));
        self.server.turn(rt, &[other, other]);
        let count = self.length(key).saturating_sub(before) as u64 / words.number(2).max(1);
        count >= words.number(3) && count <= words.number(4)
    }

    /// Takes a connection out: whether there was one.
    fn removes<R: Wait>(&mut self, rt: &R, key: usize) -> Option<bool> {
        let removed = self.server.remove(rt, key).ok()?;
        let is_there = removed.is_some();
        drop(removed);
        Some(is_there)
    }

    /// Takes out each `step`-th connection of these, the first one of them to begin with, and tells how many there were.
    fn remove<R: Wait>(
        &mut self,
        answer: &mut Answer,
        rt: &R,
        from: u64,
        to: u64,
        step: u64,
    ) -> Option<()> {
        let mut count = 0_u64;
        for number in from..to.saturating_add(1) {
            let key = self.key(number);
            let is_meant = number.saturating_sub(from) % step.max(1) == 0;
            if is_meant && self.removes(rt, key)? {
                count = count.saturating_add(1);
            }
        }
        answer.tell_number("removed ", count)
    }

    /// Tells to how many of these connections, of those that are there, what was written last is these bytes.
    fn ends(&self, answer: &mut Answer, from: u64, to: u64, bytes: &[u8]) -> Option<()> {
        let (mut so, mut all) = (0_u64, 0_u64);
        for number in from..to.saturating_add(1) {
            if let Some(stream) = self.server.stream(self.key(number)) {
                all = all.saturating_add(1);
                so = so.saturating_add(u64::from(stream.written().ends_with(bytes)));
            }
        }
        answer.tell_number("", so);
        answer.tell_number(" of ", all)
    }

    /// Tells what has happened at the server, of what the log tells at the level info.
    fn events(&self, answer: &mut Answer) -> Option<()> {
        let mut between = "";
        for event in self.server.events().noted() {
            answer.tell_value(between, &EventText(*event));
            between = "; ";
        }
        if answer.is_empty() {
            return answer.tell("nothing");
        }
        Some(())
    }

    /// Makes a call that asks for something of a connection.
    fn ask_of(&self, answer: &mut Answer, call: &str, key: usize) -> Option<()> {
        let stream = self.server.stream(key);
        match call {
            "is_there" => answer.tell_whether(stream.is_some()),
            "shard" => number_told(answer, "shard ", self.server.shard(key), "none"),
            _ => written_told(answer, stream, call),
        }
    }

    /// Makes a call that asks for something of the server as it is, or of some of its connections.
    fn ask_more(&self, answer: &mut Answer, line: &Call<'_>, bytes: &[u8]) -> Option<()> {
        let first = line.words.number(0);
        match line.name {
            "goes_on" => answer.tell_whether(self.server.goes_on()),
            "has_drained" => answer.tell_whether(self.server.has_drained()),
            "next_turn" => number_told(answer, "at ", self.server.next_turn(), "never"),
            "entries" => answer.tell(ENTRIES),
            "told" => self.events(answer),
            "ends" => self.ends(answer, first, first, bytes),
            "ends_each" => self.ends(answer, first, line.words.number(1), bytes),
            call => self.ask_of(answer, call, self.key(first)),
        }
    }

    /// Makes a call that asks something.
    fn ask<R: Wait>(
        &mut self,
        answer: &mut Answer,
        rt: &R,
        line: &Call<'_>,
        bytes: &[u8],
    ) -> Option<()> {
        let words = &line.words;
        let (first, second) = (words.number(0), words.number(1));
        match line.name {
            "admits" => answer.tell_whether(self.admits(rt, first)),
            "gains" => answer.tell_whether(self.gains(rt, words)),
            "remove" => self.remove(answer, rt, first, second.max(first), words.number(2)),
            _ => self.ask_more(answer, line, bytes),
        }
    }
}

/// How often bytes are carried until both servers have nothing to say any more.
const ROUNDS: usize = 12;

/// How many numbers are counted, from 0.
const NUMBERS: usize = 1_000;

/// What the one server has written to its connection, and did not come to the other one yet, comes to that one's connection: this part of it,
/// as 2 is the half.
fn pass<C: ServerCalls, D: ServerCalls>(
    from: &mut End<C>,
    number: u64,
    to: &mut End<D>,
    other: u64,
    part: usize,
) -> Option<()> {
    let bytes = from.unpassed(number, part)?;
    to.feed(other, bytes)?;
    let count = bytes.len();
    from.note_passed(number, count)
}

/// Counts the lines that are digits alone.
fn count_lines(written: &[u8], times: &mut [u64]) {
    let Ok(written) = str::from_utf8(written) else {
        return;
    };
    for line in written.lines() {
        if let Some(time) = times.get_mut(line.parse().unwrap_or(usize::MAX)) {
            *time = time.saturating_add(1);
        }
    }
}

/// Whether none of these numbers is asked for, some are, or all.
fn share_of(call: &str, times: &[u64]) -> &'static str {
    let mut count = 0_usize;
    for times in times {
        let is_meant = match call {
            "missing" => *times == 0,
            "once" => *times == 1,
            _ => *times > 1,
        };
        count = count.saturating_add(usize::from(is_meant));
    }
    match count {
        0 => "none",
        all if all == times.len() => "all",
        _ => "some",
    }
}

/// The calls that ask something.
const QUESTIONS: [&str; 15] = [
    "entries",
    "sent",
    "length",
    "failed",
    "ends",
    "ends_each",
    "gains",
    "is_there",
    "shard",
    "told",
    "admits",
    "goes_on",
    "has_drained",
    "next_turn",
    "remove",
];

/// Whether the call asks something, so that it is answered by what all calls before it have come to.
pub fn is_question(line: &Call<'_>) -> bool {
    line.of == "numbers" || QUESTIONS.contains(&line.name)
}

/// Both servers of a case, and the stream that is made ready for the next connection.
#[derive(Drop)]
pub struct Course<C: ServerCalls, D: ServerCalls> {
    first: End<C>,
    second: End<D>,
    ready: MemStream,
}

impl<C: ServerCalls, D: ServerCalls> Course<C, D> {
    /// Of these two.
    pub fn new(alloc: Global, first: End<C>, second: End<D>) -> Course<C, D> {
        Course {
            first,
            second,
            ready: MemStream::new(alloc),
        }
    }

    /// Each server makes turns, and what it has written to the route comes to the other one.
    fn carry<R: Wait>(&mut self, rt: &R, here: u64, there: u64) -> Option<()> {
        for _round in 0..ROUNDS {
            self.first.turn_alone(rt, here);
            self.second.turn_alone(rt, there);
            pass(&mut self.first, here, &mut self.second, there, 1)?;
            pass(&mut self.second, there, &mut self.first, here, 1)?;
        }
        Some(())
    }

    /// Makes a call on a route, of which the ends are a connection of the first server and one of the second.
    fn link<R: Wait>(&mut self, rt: &R, line: &Call<'_>) -> Option<()> {
        let (here, there) = (line.words.number(0), line.words.number(1));
        match line.name {
            "pass" => pass(&mut self.first, here, &mut self.second, there, 1),
            "pass_half" => pass(&mut self.first, here, &mut self.second, there, 2),
            "pass_back" => pass(&mut self.second, there, &mut self.first, here, 1),
            "carry" => self.carry(rt, here, there),
            _ => None,
        }
    }

    /// How often each number came to the connections that the words are, as `2:1` is the first one of the second server.
    fn count_all(&self, words: &str, times: &mut [u64]) -> Option<()> {
        for word in words.split(' ') {
            let stream = match word.split_once(':')? {
                ("1", place) => self.first.stream(number(place)),
                (_, place) => self.second.stream(number(place)),
            };
            count_lines(stream?.written(), times);
        }
        Some(())
    }

    /// Whether none, some or all of the numbers from the one to before the other are missing, came once, or more often, as payloads.
    fn numbers(&self, call: &str, words: &Words<'_>) -> Option<&'static str> {
        let mut times = [0; NUMBERS];
        self.count_all(words.at(2), &mut times)?;
        let times = times.get(words.number(0) as usize..words.number(1) as usize)?;
        Some(share_of(call, times))
    }

    /// Makes a call that asks something.
    fn ask<R: Wait>(
        &mut self,
        answer: &mut Answer,
        rt: &R,
        line: &Call<'_>,
        bytes: &[u8],
    ) -> Option<()> {
        match line.of {
            "n1" => self.first.ask(answer, rt, line, bytes),
            "n2" => self.second.ask(answer, rt, line, bytes),
            _ => {
                let share = self.numbers(line.name, &line.words);
                answer.tell(share.unwrap_or("no numbers"))
            }
        }
    }

    /// Makes a call that asks nothing. None where it cannot be made.
    fn act<R: Wait>(&mut self, rt: &R, line: &Call<'_>, bytes: &[u8]) -> Option<()> {
        let alloc = self.first.alloc;
        match line.of {
            "n1" => self.first.act(rt, &mut self.ready, line, bytes),
            "n2" => self.second.act(rt, &mut self.ready, line, bytes),
            "stream" => on_stream(
                &mut self.ready,
                alloc,
                line.name,
                line.words.number(0),
                bytes,
            ),
            "link" => self.link(rt, line),
            _ => None,
        }
    }

    /// Makes a call, of which the last word stands for bytes. Whether one that asks nothing was made.
    fn made<R: Wait>(&mut self, answer: &mut Answer, rt: &R, line: &Call<'_>) -> Option<bool> {
        let words = line.words.text;
        let (_, last) = words.rsplit_once('|').unwrap_or(("", words));
        let bytes = bytes_of(self.first.alloc, last).ok()?;
        if is_question(line) {
            self.ask(answer, rt, line, &bytes)?;
            return Some(true);
        }
        Some(self.act(rt, line, &bytes).is_some())
    }

    /// Makes these calls, up to the first one that asks nothing and is not done. Tells the last one's answer.
    pub fn play<R: Wait>(&mut self, answer: &mut Answer, rt: &R, calls: &str) -> Option<()> {
        for line in calls.lines() {
            answer.clear();
            if !self.made(answer, rt, &call_of(line))? {
                answer.tell(line);
                return answer.tell(": not done");
            }
        }
        Some(())
    }
}

/// The number, or the greatest one of two bytes where it is above that.
fn of_two_bytes(number: u64) -> u16 {
    number.min(u64::from(u16::MAX)) as u16
}

/// The address of this machine with this port.
fn local(port: u64) -> SocketAddr {
    SocketAddr::from((Ipv4Addr::LOCALHOST, of_two_bytes(port)))
}

/// What the system says of the error of this number; of 0 that it had no memory, for which it gives no number.
fn system_cause(code: u64) -> SystemCause {
    match code {
        0 => SystemCause {
            code: None,
            kind: io::ErrorKind::OutOfMemory,
        },
        code => SystemCause::of(&io::Error::from_raw_os_error(i32::from(of_two_bytes(code)))),
    }
}

/// Somebody is refused, for an error of the system.
fn refused(caller: Caller, cause: SystemCause) -> Event {
    let cause = RefusalCause::System(cause);
    Event::ConnectionRefused { caller, cause }
}

/// The other server of which something is told.
fn peer() -> Option<NodeId> {
    NodeId::read(b"n2").ok()
}

/// A server that has dialed from here is refused as a stranger.
fn stranger_refused(port: u64) -> Event {
    let from = Some(local(port));
    Event::ConnectionRefused {
        caller: Caller::Server { from },
        cause: RefusalCause::Stranger,
    }
}

/// Clients and other servers are awaited at these ports.
fn listening(clients: u64, routes: u64) -> Event {
    Event::Listening {
        clients: local(clients),
        routes: local(routes),
    }
}

/// The name of the other server is found again.
fn resolved(port: u64, failures: u64) -> Option<Event> {
    Some(Event::PeerResolved {
        peer: peer()?,
        address: local(port),
        failures,
    })
}

/// The event of this name of the beginning or the end of a server, of which a number says more. None where there is no such one.
fn end_of(call: &str, number: u64) -> Option<Event> {
    match call {
        "drain_asked" => Some(Event::DrainAsked { seconds: number }),
        "drained" => Some(Event::Drained),
        "drained_late" => Some(Event::DrainedLate { clients: number }),
        "stopped" => Some(Event::Stopped),
        "failed" => Some(Event::Failed {
            cause: system_cause(number),
        }),
        _ => None,
    }
}

/// The event of this name, of which two numbers say more. None where there is no such one.
fn event_of(call: &str, first: u64, second: u64) -> Option<Event> {
    match call {
        "listening" => Some(listening(first, second)),
        "client_refused" => Some(refused(Caller::Client, system_cause(first))),
        "server_refused" => Some(refused(Caller::Server { from: None }, system_cause(first))),
        "stranger_refused" => Some(stranger_refused(first)),
        "unresolved" => Some(Event::PeerUnresolved { peer: peer()? }),
        "resolved" => resolved(first, second),
        _ => end_of(call, first),
    }
}

/// The line of an event, by the time in milliseconds since 1970, the server's name, and what says more of it.
fn line_of(call: &str, words: &Words<'_>) -> Option<Line> {
    let server = NodeId::read(words.at(1).as_bytes()).ok()?;
    let event = event_of(call, words.number(2), words.number(3))?;
    let at = words.number(0);
    Some(Line { at, server, event })
}

/// Tells the line as it is written.
pub fn log_line(answer: &mut Answer, call: &str, words: &Words<'_>) -> Option<()> {
    match line_of(call, words) {
        Some(line) => answer.tell_value("", &line.form()),
        None => answer.tell("no such line"),
    }
}
