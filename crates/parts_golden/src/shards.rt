//! Calls of a trie of numbers, of the choice of a server, of the race for queue names, and of a shard.

ghost use Rattle.std.specs.Prelude.{◌≡◌, true};
ghost use Rattle.claim_race.specs.Race.{IsInTurn, shards_of};
ghost use Rattle.pick.specs.Pick.{total_weight};

use crate::entries::{entry_told, publication_of, taken};
use claim_race::{PlainRace, Race};
use client_frames::{ErrText, ReplyFrame};
use golden::{
    Answer, Words, key_of, message_with, number, pattern_of, put, queues_of, sid_of, subject_of,
};
use job_block::{JobBlock, JobSlice, Origin, PublicationParts};
use outbox::Entry;
use pattern_trie::PatternTrie;
use shard_core::{Candidate, DirtyConns, Shard, ShardFault, Subscribed, claims_are_whole};
use std::alloc::{AllocError, Global};
use sub_table::ListTable;
use subj::{
    Busy, ConnId, Failure, Job, MAX_COUNTER, MAX_QUEUE_NAMES, MAX_SHARDS, Message, NodeId,
    QueueNames, SubId, Turn,
};

/// Tells the values found for a subject behind a 0 that was there, in rising order.
fn find(answer: &mut Answer, trie: &PatternTrie<u64>, alloc: Global, word: &str) -> Option<()> {
    let subject = subject_of(alloc, word)?;
    let mut found = Vec::from_slice(alloc, &[0]).ok()?;
    trie.matching(&subject.lent(), &mut found).ok()?;
    found.sort_unstable();
    found_told(answer, &found)
}

/// Tells values in brackets.
fn found_told(answer: &mut Answer, found: &[u64]) -> Option<()> {
    let mut before = "[";
    for value in found {
        answer.tell_number(before, *value);
        before = ", ";
    }
    answer.tell("]")
}

/// Puts the value in that stands behind a pattern, or takes it out.
fn change(
    answer: &mut Answer,
    trie: &mut PatternTrie<u64>,
    alloc: Global,
    call: &str,
    words: &Words<'_>,
) -> Option<()> {
    let pattern = pattern_of(alloc, words.at(0))?;
    match call {
        "insert" => trie.insert(&pattern, words.number(1)).ok()?,
        _ => trie.remove(&pattern, words.number(1)),
    }
    answer.tell("ok")
}

/// Makes a call of the trie of numbers.
pub fn patterns_call(
    answer: &mut Answer,
    trie: &mut PatternTrie<u64>,
    alloc: Global,
    call: &str,
    words: &Words<'_>,
) -> Option<()> {
    match call {
        "insert" | "remove" => change(answer, trie, alloc, call, words),
        "find" => find(answer, trie, alloc, words.at(0)),
        "nodes" => answer.tell_number("", trie.nodes() as u64),
        _ => None,
    }
}

/// Servers with their weights, which come to a number of 64 bits.
#[derive(Drop)]
struct Weights {
    servers: Vec<(NodeId, u64)>,
    total: u64,
    ghost sum: { total ≡ total_weight servers.items },
}

impl Weights {
    /// None yet.
    fn new(alloc: Global) -> Weights {
        Weights {
            servers: Vec::new(alloc),
            total: 0,
        }
    }

    /// One more, where the weights may come to so much.
    fn push(&mut self, server: NodeId, weight: u64) -> Option<()> {
        let total = self.total.checked_add(weight)?;
        self.servers.push((server, weight)).ok()?;
        self.total = total;
        Some(())
    }

    /// The server that the word picks.
    fn chosen(&self, word: u64) -> Option<NodeId> {
        // what is read is of its type, and so below 2^64
        let _total = self.total;
        pick::choose(&self.servers, word)
    }
}

/// A server and its weight, as in `n1=2`.
fn weighted_server(word: &str) -> Option<(NodeId, u64)> {
    let (name, weight) = word.split_once('=')?;
    Some((NodeId::read(name.as_bytes()).ok()?, number(weight)))
}

/// Gathers the servers of a text, with blanks between them.
fn gather_weights(weights: &mut Weights, text: &str) -> Option<()> {
    for server in text.split_whitespace() {
        let (server, weight) = weighted_server(server)?;
        weights.push(server, weight)?;
    }
    Some(())
}

/// Tells the server that a word picks among those of a text, with blanks between them.
pub fn choose(answer: &mut Answer, alloc: Global, text: &str, word: u64) -> Option<()> {
    let mut weights = Weights::new(alloc);
    gather_weights(&mut weights, text)?;
    match weights.chosen(word) {
        None => answer.tell("none"),
        Some(server) => answer.tell(server.text()),
    }
}

/// A race with what its calls require: how many shards run it, the last turn that it issued, and by shard the least index that it may claim.
#[derive(Drop)]
pub struct Course {
    race: PlainRace,
    shards: u64,
    issued: u64,
    next: Vec<u64>,
    ghost all: { shards ≡ shards_of race },
    ghost last: { issued ≡ race.issued },
    ghost least: { next.items ≡ race.next },
}

impl Course {
    /// A race of so many shards, where there may be one.
    fn new(alloc: Global, shards: u64) -> Result<Option<Course>, AllocError> {
        if shards == 0 || shards > MAX_SHARDS {
            return Ok(None);
        }
        let next = vec![in alloc; 0; shards as usize]?;
        let race = PlainRace::new(alloc, shards)?;
        Ok(Some(Course {
            race,
            shards,
            issued: 0,
            next,
        }))
    }

    /// Issues the next turn, where there is one.
    fn issue(&mut self) -> Option<Result<Turn, Busy>> {
        if self.issued >= MAX_COUNTER {
            return None;
        }
        let issued = self.race.issue();
        if let Ok(turn) = &issued {
            self.issued = turn.get();
        }
        Some(issued)
    }

    /// The last turn that a shard finished, where there is such a shard.
    fn finished(&self, shard: u64) -> Option<Turn> {
        if shard == 0 || shard > self.shards {
            return None;
        }
        Some(self.race.finished(shard))
    }

    /// Whether the turn is the one that the shard is in.
    fn is_in_turn(&self, shard: u64, turn: Turn) -> bool
        ensures { result ≡ true → IsInTurn self.now.race shard turn }
    {
        if shard == 0 || shard > self.shards || turn.get() > self.issued {
            return false;
        }
        self.race.finished(shard).get() + 1 == turn.get()
    }

    /// Claims an index in a turn, where the shard may. Gives whether it won.
    fn claim(&mut self, shard: u64, turn: Turn, index: u64) -> Option<bool> {
        if !self.is_in_turn(shard, turn) || index >= MAX_QUEUE_NAMES {
            return None;
        }
        let place = (shard - 1) as usize;
        if *self.next.get(place)? > index {
            return None;
        }
        let won = self.race.claim(shard, turn, index);
        self.next[place] = index + 1;
        Some(won)
    }

    /// Ends a turn, where the shard is in it. Gives whether it was.
    fn finish(&mut self, shard: u64, turn: Turn) -> bool {
        if !self.is_in_turn(shard, turn) {
            return false;
        }
        let place = (shard - 1) as usize;
        if place >= self.next.len() {
            return false;
        }
        self.race.finish(shard, turn);
        self.next[place] = 0;
        true
    }
}

/// Tells the turn that was issued, or which shard is too far behind and the last turn that it finished.
fn issued_told(answer: &mut Answer, issued: Option<Result<Turn, Busy>>) -> Option<()> {
    match issued? {
        Ok(turn) => answer.tell_number("turn ", turn.get()),
        Err(busy) => {
            answer.tell_number("busy, shard ", busy.shard);
            answer.tell_number(" at ", busy.finished.get())
        }
    }
}

/// The shard claims an index in a turn.
fn claim(answer: &mut Answer, course: &mut Course, words: &Words<'_>) -> Option<()> {
    let turn = Turn::new(words.number(1))?;
    let told = match course.claim(words.number(0), turn, words.number(2)) {
        None => "may not claim",
        Some(true) => "won",
        Some(false) => "not won",
    };
    answer.tell(told)
}

/// The shard has done with a turn.
fn finish(answer: &mut Answer, course: &mut Course, words: &Words<'_>) -> Option<()> {
    let is_done = course.finish(words.number(0), Turn::new(words.number(1))?);
    answer.tell(if is_done { "ok" } else { "not in it" })
}

/// A new race stands from now on, where there may be such a one.
fn start_race(
    answer: &mut Answer,
    place: &mut Option<Course>,
    alloc: Global,
    shards: u64,
) -> Option<()> {
    let started = Course::new(alloc, shards).ok()?;
    let told = if started.is_some() { "ok" } else { "no race" };
    put(place, started);
    answer.tell(told)
}

/// Makes a call of the race.
pub fn race_call(
    answer: &mut Answer,
    place: &mut Option<Course>,
    alloc: Global,
    call: &str,
    words: &Words<'_>,
) -> Option<()> {
    if call == "new" {
        return start_race(answer, place, alloc, words.number(0));
    }
    let course = place.as_mut()?;
    match call {
        "issue" => issued_told(answer, course.issue()),
        "finished" => answer.tell_number("", course.finished(words.number(0))?.get()),
        "claim" => claim(answer, course, words),
        "finish" => finish(answer, course, words),
        _ => None,
    }
}

type ListShard = Shard<ListTable>;

/// A shard, the connections that it told last, and the turn that comes next.
#[derive(Drop)]
pub struct Stand {
    shard: ListShard,
    dirty_conns: DirtyConns,
    turn: u64,
}

/// This shard of so many, where there may be such a one.
fn shard_of(alloc: Global, shard: u64, shards: u64) -> Option<ListShard> {
    if shard == 0 || shard > shards || shards > MAX_SHARDS {
        return None;
    }
    Shard::new(alloc, shard, shards).ok()
}

/// A new shard stands from now on.
fn start_shard(
    answer: &mut Answer,
    place: &mut Option<Stand>,
    alloc: Global,
    words: &Words<'_>,
) -> Option<()> {
    let shard = shard_of(alloc, words.number(0), words.number(1))?;
    let stand = Stand {
        shard,
        dirty_conns: DirtyConns::new(alloc),
        turn: 1,
    };
    put(place, Some(stand));
    answer.tell("ok")
}

/// Tells a refusal.
fn refused(answer: &mut Answer, fault: Failure<ShardFault>) -> Option<()> {
    match fault {
        Failure::OutOfMemory => None,
        Failure::Refused(fault) => answer.tell_refusal(fault.number()),
    }
}

fn attach(answer: &mut Answer, shard: &mut ListShard) -> Option<()> {
    match shard.attach() {
        Ok(conn) => answer.tell_number("conn ", conn.get()),
        Err(fault) => refused(answer, fault),
    }
}

/// Opens a subscription of a connection: its pattern, queue name or none, and id.
fn subscribe(
    answer: &mut Answer,
    shard: &mut ListShard,
    alloc: Global,
    words: &Words<'_>,
) -> Option<()> {
    let key = key_of(alloc, words.at(1), words.at(2))?;
    let sid = sid_of(alloc, words.at(3))?;
    match shard.subscribe(ConnId::new(words.number(0)), key, sid) {
        Ok(Subscribed::New(_)) => answer.tell("new"),
        Ok(Subscribed::Same) => answer.tell("same"),
        Err(fault) => refused(answer, fault),
    }
}

/// Tells this text, and behind it a subscription.
fn sub_told(answer: &mut Answer, before: &str, sub: SubId) -> Option<()> {
    answer.tell_number(before, sub.shard);
    answer.tell_number(".", sub.serial)
}

/// Tells which subscription ended, where one did.
fn unsubscribe(
    answer: &mut Answer,
    shard: &mut ListShard,
    alloc: Global,
    words: &Words<'_>,
) -> Option<()> {
    let sid = sid_of(alloc, words.at(1))?;
    match shard.unsubscribe(ConnId::new(words.number(0)), &sid, words.at(2).parse().ok()) {
        Ok(None) => answer.tell("none ended"),
        Ok(Some(sub)) => sub_told(answer, "ended ", sub),
        Err(fault) => answer.tell_refusal(fault.number()),
    }
}

/// Tells that it was done, or why it was refused.
fn done_told(answer: &mut Answer, done: Result<(), ShardFault>) -> Option<()> {
    match done {
        Ok(()) => answer.tell("ok"),
        Err(fault) => answer.tell_refusal(fault.number()),
    }
}

/// The answer of this name: `pong`, or `ok`.
fn frame_of(word: &str) -> ReplyFrame {
    match word {
        "pong" => ReplyFrame::Pong,
        _ => ReplyFrame::Ok,
    }
}

/// Puts an answer.
fn reply(answer: &mut Answer, shard: &mut ListShard, words: &Words<'_>) -> Option<()> {
    match shard.reply(ConnId::new(words.number(0)), &frame_of(words.at(1))) {
        Ok(closed) => answer.tell(if closed.shut { "shut" } else { "put" }),
        Err(fault) => refused(answer, fault),
    }
}

/// Tells whether each connection has room for a message on foo with a header block or none, and with a payload.
fn has_room_for(
    answer: &mut Answer,
    shard: &ListShard,
    alloc: Global,
    words: &Words<'_>,
) -> Option<()> {
    let message = message_with(alloc, "foo", "", words.at(0), payload_in(words.at(1)))?;
    answer.tell_whether(shard.has_room_for(&message))
}

/// Tells how many subscriptions closed.
fn count_told(answer: &mut Answer, ended: Result<Vec<SubId>, Failure<ShardFault>>) -> Option<()> {
    match ended {
        Ok(ended) => {
            answer.tell_number("", ended.len() as u64);
            answer.tell(" ended")
        }
        Err(fault) => refused(answer, fault),
    }
}

/// Tells all entries that were taken, or the last one.
fn taken_told(
    answer: &mut Answer,
    alloc: Global,
    entries: Result<Vec<Entry>, Failure<ShardFault>>,
    is_last: bool,
) -> Option<()> {
    match entries {
        Ok(entries) => taken(answer, alloc, &entries, is_last),
        Err(fault) => refused(answer, fault),
    }
}

/// The turn of this number, or the next one where the word is empty.
fn turn_of(word: &str, next: u64) -> Option<Turn> {
    match word {
        "" => Turn::new(next),
        turn => Turn::new(number(turn)),
    }
}

/// The payload that a word is, or `hello` where it is empty.
fn payload_in(word: &str) -> &str {
    if word.is_empty() { "hello" } else { word }
}

/// A job on foo: of a publisher or none, for a queue name or none, in a turn or the next one, with a header block or none, and with a payload.
/// There is no echo where there is a publisher.
fn job_of(alloc: Global, words: &Words<'_>, next: u64) -> Option<Job> {
    let turn = turn_of(words.at(2), next)?;
    let id = publication_of(1, turn.get())?;
    let queues = queues_of(alloc, words.at(1))??;
    let message = message_with(alloc, "foo", "", words.at(3), payload_in(words.at(4)))?;
    let is_published = !words.at(0).is_empty();
    Some(Job {
        turn,
        id,
        message,
        publisher: is_published.then_some(ConnId::new(words.number(0))),
        echo: !is_published,
        queues,
    })
}

/// Begins a turn.
fn begin(answer: &mut Answer, stand: &mut Stand, alloc: Global, words: &Words<'_>) -> Option<()> {
    let job = job_of(alloc, words, stand.turn)?;
    match stand.shard.begin(job, true) {
        Ok(begun) => {
            answer.tell_number("given ", begun.given as u64);
            answer.tell_number(", ended ", begun.ended.len() as u64);
            answer.tell_number(", closed ", begun.closed.len() as u64)
        }
        Err(fault) => refused(answer, fault.cause),
    }
}

/// Ends the turn in hand.
fn end(answer: &mut Answer, stand: &mut Stand, told: &str) -> Option<()> {
    match stand.shard.end() {
        Ok(()) => {
            stand.turn = stand.turn.saturating_add(1);
            answer.tell(told)
        }
        Err(fault) => answer.tell_refusal(fault.number()),
    }
}

/// Begins and ends a turn.
fn work(answer: &mut Answer, stand: &mut Stand, alloc: Global, words: &Words<'_>) -> Option<()> {
    begin(answer, stand, alloc, words)?;
    end(answer, stand, "")
}

/// Puts the job of a message behind, of this publisher, for whom there is no echo, or of none. Every other job has its message apart.
fn push_job(block: &mut JobBlock, message: Message, publisher: &str) -> Option<()> {
    let turn = block.next_turn()?;
    let is_published = !publisher.is_empty();
    let origin = Origin {
        id: publication_of(1, turn.get())?,
        publisher: is_published.then_some(ConnId::new(number(publisher))),
        echo: !is_published,
    };
    if turn.get() % 2 == 0 {
        return block.push_message(message, origin, QueueNames::new()).ok();
    }
    let parts = PublicationParts::of(&message);
    block.push(&parts, origin, QueueNames::new(), true).ok()
}

/// Puts a job on foo behind, of no publisher, or of the one before a colon. The rest of the word is its payload.
fn put_job(alloc: Global, block: &mut JobBlock, word: &str) -> Option<()> {
    let (publisher, payload) = word.split_once(':').unwrap_or(("", word));
    push_job(
        block,
        message_with(alloc, "foo", "", "", payload)?,
        publisher,
    )
}

/// Puts a job of each word behind.
fn put_jobs(alloc: Global, block: &mut JobBlock, words: &Words<'_>) -> Option<()> {
    for word in words.text.split('|') {
        if !word.is_empty() {
            put_job(alloc, block, word)?;
        }
    }
    Some(())
}

/// A job of each word, in turns from this one on.
fn run_of(alloc: Global, words: &Words<'_>, next: u64) -> Option<JobBlock> {
    let mut block = JobBlock::empty(alloc, Turn::new(next)?);
    put_jobs(alloc, &mut block, words)?;
    Some(block)
}

/// Delivers as many of some jobs at once as it can. Tells how many.
fn deliver(answer: &mut Answer, stand: &mut Stand, alloc: Global, words: &Words<'_>) -> Option<()> {
    let block = run_of(alloc, words, stand.turn)?;
    let jobs = JobSlice::from(&block, 0);
    let count = stand.shard.deliver_run(&jobs).ok()? as u64;
    stand.turn = stand.turn.saturating_add(count);
    answer.tell_number("at once ", count)
}

/// Tells whether there is a candidate for the queue name at an index.
fn candidate(answer: &mut Answer, shard: &mut ListShard, index: u64) -> Option<()> {
    match shard.candidate(index, false) {
        Ok(candidate) => answer.tell_whether(candidate.is_some()),
        Err(fault) => refused(answer, fault),
    }
}

/// Tells which member was chosen, whether it ended, and its entry.
fn chosen_told(
    answer: &mut Answer,
    alloc: Global,
    candidate: &Candidate,
    has_ended: bool,
) -> Option<()> {
    sub_told(answer, "", candidate.sub);
    answer.tell(if has_ended { ", ended: " } else { ", open: " });
    match &candidate.placed {
        None => Some(()),
        Some(placed) => entry_told(answer, alloc, &placed.entry),
    }
}

/// Places the candidate for the first queue name.
fn place_first(answer: &mut Answer, shard: &mut ListShard, alloc: Global) -> Option<()> {
    claims_are_whole();
    match shard.candidate(0, true) {
        Ok(Some(candidate)) => {
            let has_ended = shard.place(0).is_some();
            chosen_told(answer, alloc, &candidate, has_ended)
        }
        Ok(None) => answer.tell("no candidate"),
        Err(fault) => refused(answer, fault),
    }
}

/// Tells the connections that something was put for.
fn dirty_conns(answer: &mut Answer, stand: &mut Stand) -> Option<()> {
    stand.shard.swap_dirty_conns(&mut stand.dirty_conns);
    if stand.dirty_conns.is_any() {
        return answer.tell("any");
    }
    answer.tell("conns");
    for conn in stand.dirty_conns.conns() {
        answer.tell_number(" ", conn.get());
    }
    Some(())
}

/// Tells the openings and closings that the hub is to hear of.
fn deltas(answer: &mut Answer, shard: &ListShard) -> Option<()> {
    answer.tell("deltas");
    for delta in shard.deltas() {
        answer.tell_key(if delta.up { " +" } else { " -" }, &delta.key);
    }
    Some(())
}

fn take_deltas(answer: &mut Answer, shard: &mut ListShard) -> Option<()> {
    shard.take_deltas();
    answer.tell("ok")
}

/// Makes a call of the shard alone.
fn lone_call(
    answer: &mut Answer,
    shard: &mut ListShard,
    alloc: Global,
    call: &str,
    words: &Words<'_>,
) -> Option<()> {
    let conn = ConnId::new(words.number(0));
    match call {
        "attach" => attach(answer, shard),
        "subscribe" => subscribe(answer, shard, alloc, words),
        "unsubscribe" => unsubscribe(answer, shard, alloc, words),
        "reply" => reply(answer, shard, words),
        "shut" => count_told(answer, shard.shut(conn, ErrText::ParserError)),
        "headers" => done_told(answer, shard.set_headers(conn, words.at(1) == "on")),
        "drain" => done_told(answer, shard.drain()),
        "detach" => count_told(answer, shard.detach(conn)),
        "has_nothing_for" => answer.tell_whether(shard.has_nothing_for(conn)),
        "is_urgent" => answer.tell_whether(shard.is_urgent()),
        "has_room_for" => has_room_for(answer, shard, alloc, words),
        "take" => taken_told(
            answer,
            alloc,
            shard.take(conn, words.number(1) as usize),
            false,
        ),
        "take_last" => taken_told(answer, alloc, shard.take(conn, usize::MAX), true),
        "candidate" => candidate(answer, shard, words.number(0)),
        "place_first" => place_first(answer, shard, alloc),
        "deltas" => deltas(answer, shard),
        "take_deltas" => take_deltas(answer, shard),
        _ => None,
    }
}

/// Makes a call of the shard.
pub fn shard_call(
    answer: &mut Answer,
    place: &mut Option<Stand>,
    alloc: Global,
    call: &str,
    words: &Words<'_>,
) -> Option<()> {
    if call == "new" {
        return start_shard(answer, place, alloc, words);
    }
    let stand = place.as_mut()?;
    match call {
        "begin" => begin(answer, stand, alloc, words),
        "end" => end(answer, stand, "ok"),
        "work" => work(answer, stand, alloc, words),
        "deliver" => deliver(answer, stand, alloc, words),
        "dirty_conns" => dirty_conns(answer, stand),
        _ => lone_call(answer, &mut stand.shard, alloc, call, words),
    }
}
