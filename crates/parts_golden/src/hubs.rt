//! Calls of a server's own interest, of what a peer has told of its interest, of a hub, and of the sessions of two servers; and of the numbers of
//! refusals and sessions.
//!
//! - `counts.new`; `counts.open PATTERN|QUEUE` and `counts.close PATTERN|QUEUE`: what the other servers are told; `counts.weight
//!   PATTERN|QUEUE`, `counts.keys`, `counts.key_count`, `counts.has_plain SUBJECT`
//! - `view.apply_up NUMBER|PATTERN|QUEUE|WEIGHT`, `view.apply_gone NUMBER|PATTERN|QUEUE`, `view.apply_clear NUMBER`: a change of this number;
//!   `view.apply_snapshot NUMBER|COUNT`: a snapshot of this number, with the plain keys of the first so many numbers of five digits;
//!   `view.has_plain SUBJECT`, `view.weight_in SUBJECT|QUEUE`, `view.names_twice SUBJECT`, `view.key_count`
//! - `hub.new NAMES|INC|SHARDS`: the hub of the first of these servers; `hub.open PATTERN|QUEUE`, `hub.close PATTERN|QUEUE`: how many changes are
//!   told; `hub.drain`: how many peers are cut; `hub.up PEER|INC`, `hub.cut PEER`, `hub.seen PEER`; `hub.take PEER`: how many frames wait for the
//!   peer, which are taken; `hub.finish SHARD|TURN`: the shard has finished the turn; `hub.be_prompt`: from now on the first shard finishes each
//!   turn at once
//! - `hub.publish CONN|SUBJECT|PAYLOAD`: the turn, the number, and how many queue names the job has; `hub.plan CONN|SUBJECT|PAYLOAD|WORD`: the
//!   queue names of the job, and those of the frame for each peer that is owed one
//! - `hub.message`, `hub.plus` and `hub.snapshot`, with `FROM|INC|TO_INC|NUMBER`, and behind it a subject, or a pattern and a queue name: a frame
//!   of a life of a peer for a life of n1, which has no queue name, a key with one member, or no key
//! - `sessions.new INC`: those of n1 and n2 with one another, in this incarnation; on those of one, as `n1.dial n2`: `dial PEER`, `accept`;
//!   `on_info SESSION|NAME|INC|LEAST`: what is kept, and the `CONNECT`, and `info_fault` with the same words;
//!   `on_connect SESSION|NAME|INC|TO|TO_INC|SERIAL|LEAST` and `connect_fault`; `kept PEER`, `cut SESSION`, `cut_fault SESSION`, `drop_kept PEER`,
//!   `dial_fault PEER`, `accept_fault`
//! - `refusal.of_hub CAUSE`, `refusal.of_session CAUSE`: the number that the router tells of the refusal; `id.number N`, `id.same N|M` and
//!   `id.differs N|M`: the number of a session, and whether two are one

use golden::{Answer, Words, key_of, life_of, message_of, put, queue_of, server_of, subject_of};
use hub_core::{Hub, HubFault, PublishPlan, Received};
use interest::{Change, FoundNames, InterestFault, Local, View};
use route_session::{Kept, SessionFault, SessionId, Sessions};
use route_values::{Body, Numbered, RouteConnect, RouteInfo, SnapshotKeys, WeightedKey};
use std::alloc::Global;
use subj::{
    Busy, ConnId, Delta, Failure, Finished, Incarnation, Job, Key, MAX_SHARDS, NodeId, Pub,
    QueueName, QueueNames, Turn,
};

/// The key of a pattern, and of a queue name behind it.
fn key_at(alloc: Global, words: &Words<'_>, place: usize) -> Option<Key> {
    key_of(alloc, words.at(place), words.at(place.saturating_add(1)))
}

/// Tells the number of a refusal by interest.
fn interest_refused(answer: &mut Answer, fault: Failure<InterestFault>) -> Option<()> {
    match fault {
        Failure::Refused(fault) => answer.tell_refusal(fault.number()),
        Failure::OutOfMemory => None,
    }
}

/// The opening or the closing of the key of the words.
fn delta_of(alloc: Global, words: &Words<'_>, up: bool) -> Option<Delta> {
    let key = key_at(alloc, words, 0)?;
    Some(Delta { key, up })
}

/// Tells what the other servers are told.
fn change_told(answer: &mut Answer, change: Option<&Change>) -> Option<()> {
    match change {
        None => answer.tell("nothing"),
        Some(Change::Up(weighted)) => answer.tell_number("weight ", weighted.weight()),
        Some(Change::Gone(_)) => answer.tell("gone"),
        Some(Change::Clear) => answer.tell("clear"),
    }
}

/// Counts an opening or a closing.
fn count(
    answer: &mut Answer,
    counts: &mut Local,
    alloc: Global,
    words: &Words<'_>,
    up: bool,
) -> Option<()> {
    let delta = delta_of(alloc, words, up)?;
    match counts.apply(&delta) {
        Ok(change) => change_told(answer, change.as_ref()),
        Err(fault) => interest_refused(answer, fault),
    }
}

/// Tells what a key weighs.
fn weight(answer: &mut Answer, counts: &Local, alloc: Global, words: &Words<'_>) -> Option<()> {
    let key = key_at(alloc, words, 0)?;
    answer.tell_number("weight ", counts.weight(&key))
}

/// Tells whether a subscription without a queue name is open that the subject matches.
fn is_counted(answer: &mut Answer, counts: &Local, alloc: Global, word: &str) -> Option<()> {
    let subject = subject_of(alloc, word)?;
    answer.tell_whether(counts.has_plain(&subject.lent()))
}

/// Tells the keys in their order, each with its weight.
fn keys(answer: &mut Answer, counts: &Local) -> Option<()> {
    let mut is_first = true;
    for (key, weight) in counts.keys() {
        answer.tell_key(if is_first { "" } else { ", " }, key);
        answer.tell_number("=", *weight);
        is_first = false;
    }
    Some(())
}

/// Counts of which nothing is open.
fn new_counts(answer: &mut Answer, place: &mut Option<Local>, alloc: Global) -> Option<()> {
    put(place, Some(Local::new(alloc).ok()?));
    answer.tell("ok")
}

/// Makes a call of a server's own interest.
pub fn counts_call(
    answer: &mut Answer,
    place: &mut Option<Local>,
    alloc: Global,
    call: &str,
    words: &Words<'_>,
) -> Option<()> {
    if call == "new" {
        return new_counts(answer, place, alloc);
    }
    let counts = place.as_mut()?;
    match call {
        "open" => count(answer, counts, alloc, words, true),
        "close" => count(answer, counts, alloc, words, false),
        "weight" => weight(answer, counts, alloc, words),
        "keys" => keys(answer, counts),
        "key_count" => answer.tell_number("keys ", counts.keys().count() as u64),
        "has_plain" => is_counted(answer, counts, alloc, words.at(0)),
        _ => None,
    }
}

/// Tells whether news are heard, and the mark then.
fn heard_told(
    answer: &mut Answer,
    heard: Result<(), Failure<InterestFault>>,
    mark: u64,
) -> Option<()> {
    match heard {
        Ok(()) => answer.tell("heard"),
        Err(fault) => interest_refused(answer, fault),
    }?;
    answer.tell_number(", mark ", mark)
}

/// The change of this call: the key of the words behind a number is there with its weight, or is gone, or no key is there.
fn change_of(alloc: Global, call: &str, words: &Words<'_>) -> Option<Change> {
    match call {
        "apply_up" => Some(Change::Up(weighted_of(alloc, words)?)),
        "apply_gone" => Some(Change::Gone(key_at(alloc, words, 1)?)),
        _ => Some(Change::Clear),
    }
}

/// Applies a change.
fn apply_update(
    answer: &mut Answer,
    view: &mut View,
    alloc: Global,
    call: &str,
    words: &Words<'_>,
) -> Option<()> {
    let change = change_of(alloc, call, words)?;
    let heard = view.apply_update(words.number(0), change);
    heard_told(answer, heard, view.mark())
}

/// The key of the words behind a number, and its weight behind it.
fn weighted_of(alloc: Global, words: &Words<'_>) -> Option<WeightedKey> {
    WeightedKey::new(key_at(alloc, words, 1)?, words.number(3))
}

/// The plain key of a number of five digits.
fn numbered_key(alloc: Global, number: u64) -> Option<WeightedKey> {
    let pattern = format!(in alloc; "{number:05}").ok()?;
    WeightedKey::new(key_of(alloc, pattern.as_str(), "")?, 1)
}

/// Gathers the plain keys of the first so many numbers, in their order.
fn gather_numbered(keys: &mut Vec<WeightedKey>, alloc: Global, count: u64) -> Option<()> {
    for number in 0..count {
        keys.push(numbered_key(alloc, number)?).ok()?;
    }
    Some(())
}

/// The plain keys of the first so many numbers, in their order.
fn numbered_keys(alloc: Global, count: u64) -> Option<SnapshotKeys> {
    let mut keys = Vec::new(alloc);
    gather_numbered(&mut keys, alloc, count)?;
    SnapshotKeys::from_keys(keys)
}

/// Applies a snapshot.
fn apply_snapshot(
    answer: &mut Answer,
    view: &mut View,
    alloc: Global,
    words: &Words<'_>,
) -> Option<()> {
    let keys = numbered_keys(alloc, words.number(1))?;
    match view.apply_snapshot(words.number(0), keys) {
        Ok(()) => heard_told(answer, Ok(()), view.mark()),
        Err(fault) => heard_told(answer, Err(Failure::Refused(fault)), view.mark()),
    }
}

/// Tells what a queue name weighs in a subject.
fn weight_in(answer: &mut Answer, view: &View, alloc: Global, words: &Words<'_>) -> Option<()> {
    let subject = subject_of(alloc, words.at(0))?;
    let name = queue_of(alloc, words.at(1))?;
    answer.tell_number("weight ", view.weight_in(&subject.lent(), &name))
}

/// Tells whether the peer has a subscription without a queue name that the subject matches.
fn is_heard(answer: &mut Answer, view: &View, alloc: Global, word: &str) -> Option<()> {
    let subject = subject_of(alloc, word)?;
    answer.tell_whether(view.has_plain(&subject.lent()))
}

/// Tells the names that were found.
fn found_told(answer: &mut Answer, names: &FoundNames<'_>) -> Option<()> {
    answer.tell("names");
    for place in 0..names.len() {
        answer.tell_bytes(" ", names.get(place)?.bytes());
    }
    Some(())
}

/// Tells the queue names that want the subject, asked for twice: each is there once.
fn names_twice(answer: &mut Answer, view: &View, alloc: Global, word: &str) -> Option<()> {
    let subject = subject_of(alloc, word)?;
    let mut names = FoundNames::new();
    view.names_in(&subject.lent(), &mut names).ok()?;
    view.names_in(&subject.lent(), &mut names).ok()?;
    found_told(answer, &names)
}

/// Makes a call of what a peer has told of its interest.
pub fn view_call(
    answer: &mut Answer,
    view: &mut View,
    alloc: Global,
    call: &str,
    words: &Words<'_>,
) -> Option<()> {
    match call {
        "apply_up" | "apply_gone" | "apply_clear" => {
            apply_update(answer, view, alloc, call, words)
        }
        "apply_snapshot" => apply_snapshot(answer, view, alloc, words),
        "has_plain" => is_heard(answer, view, alloc, words.at(0)),
        "weight_in" => weight_in(answer, view, alloc, words),
        "names_twice" => names_twice(answer, view, alloc, words.at(0)),
        "key_count" => answer.tell_number("keys ", view.keys().len() as u64),
        _ => None,
    }
}

/// A hub, and the last turn that each of its shards has finished.
#[derive(Drop)]
pub struct HubStand {
    hub: Hub,
    finished: Finished,
    /// Whether the first shard finishes each turn at once.
    is_prompt: bool,
}

/// A hub that has just started stands from now on.
fn new_hub(
    answer: &mut Answer,
    place: &mut Option<HubStand>,
    alloc: Global,
    words: &Words<'_>,
) -> Option<()> {
    let server = server_of(alloc, words.at(0), 0, words.number(1), words.number(2))?;
    let stand = HubStand {
        hub: Hub::new(alloc, server).ok()?,
        finished: Finished::new(),
        is_prompt: false,
    };
    put(place, Some(stand));
    answer.tell("ok")
}

/// Tells the number of a refusal by a hub.
fn hub_refused(answer: &mut Answer, fault: Failure<HubFault>) -> Option<()> {
    match fault {
        Failure::Refused(fault) => answer.tell_refusal(fault.number()),
        Failure::OutOfMemory => None,
    }
}

impl HubStand {
    /// A job of this turn is issued.
    fn note(&mut self, turn: Turn) {
        if self.is_prompt {
            self.finished.set(1, turn);
        }
    }
}

/// Takes a frame.
fn receive(answer: &mut Answer, stand: &mut HubStand, frame: &Numbered) -> Option<()> {
    match stand.hub.receive(frame, &stand.finished) {
        Ok(Received::Heard(mark)) => answer.tell_number("heard ", mark),
        Ok(Received::Routed(job)) => {
            stand.note(job.turn);
            answer.tell_number("turn ", job.turn.get())
        }
        Err(fault) => hub_refused(answer, fault),
    }
}

/// A message on the subject of the word, for no queue name.
fn message_body(alloc: Global, word: &str) -> Option<Body> {
    Some(Body::Msg {
        message: message_of(alloc, word, "", "")?,
        queues: QueueNames::new(),
    })
}

/// What a frame of this kind says.
fn body_of(alloc: Global, kind: &str, words: &Words<'_>) -> Option<Body> {
    match kind {
        "message" => message_body(alloc, words.at(4)),
        "plus" => Some(Body::Plus(WeightedKey::new(key_at(alloc, words, 4)?, 1)?)),
        "snapshot" => Some(Body::Snapshot(SnapshotKeys::new(alloc))),
        _ => None,
    }
}

/// Takes a frame of this kind.
fn receive_frame(
    answer: &mut Answer,
    stand: &mut HubStand,
    alloc: Global,
    kind: &str,
    words: &Words<'_>,
) -> Option<()> {
    let from = life_of(words.at(0), words.number(1))?;
    let to = life_of("n1", words.number(2))?;
    let body = body_of(alloc, kind, words)?;
    let frame = Numbered::new(from.name, from.inc, to.name, to.inc, words.number(3), body)?;
    receive(answer, stand, &frame)
}

/// The publication of the words: behind the connection a subject and a payload.
fn publication_of(alloc: Global, words: &Words<'_>) -> Option<Pub> {
    let message = message_of(alloc, words.at(1), "", words.at(2))?;
    Some(Pub {
        message,
        echo: true,
    })
}

/// Tells the job that was issued.
fn job_told(answer: &mut Answer, job: &Job) -> Option<()> {
    answer.tell_number("turn ", job.turn.get());
    answer.tell_number(", number ", job.id.number);
    answer.tell_number(", names ", job.queues.as_slice().len() as u64)
}

/// Publishes, with the word 0.
fn publish(
    answer: &mut Answer,
    stand: &mut HubStand,
    alloc: Global,
    words: &Words<'_>,
) -> Option<()> {
    let publication = publication_of(alloc, words)?;
    let conn = ConnId::new(words.number(0));
    match stand.hub.publish(conn, &publication, 0, &stand.finished) {
        Ok(job) => {
            stand.note(job.turn);
            job_told(answer, &job)
        }
        Err(fault) => hub_refused(answer, fault),
    }
}

/// Tells queue names, with blanks between them.
fn names_told(answer: &mut Answer, names: &[QueueName]) -> Option<()> {
    answer.tell(" [");
    let mut between = "";
    for name in names {
        answer.tell_bytes(between, name.bytes());
        between = " ";
    }
    answer.tell("]")
}

/// Tells the peer that a frame is for, and its queue names.
fn frame_told(answer: &mut Answer, frame: &Numbered) -> Option<()> {
    answer.tell(", ");
    answer.tell(frame.to().text());
    match frame.body() {
        Body::Msg { queues, .. } => names_told(answer, queues.as_slice()),
        _ => None,
    }
}

/// Tells what is owed.
fn plan_told(answer: &mut Answer, plan: &PublishPlan) -> Option<()> {
    answer.tell("here");
    names_told(answer, plan.job.queues.as_slice());
    for frame in &plan.frames {
        frame_told(answer, frame)?;
    }
    Some(())
}

/// Tells what a publication would owe, where no shard has finished a turn.
fn plan(answer: &mut Answer, hub: &Hub, alloc: Global, words: &Words<'_>) -> Option<()> {
    let publication = publication_of(alloc, words)?;
    let (conn, word) = (ConnId::new(words.number(0)), words.number(3));
    match hub.plan_publish(conn, &publication, word, &Finished::new()) {
        Ok(plan) => plan_told(answer, &plan),
        Err(fault) => hub_refused(answer, fault),
    }
}

/// Counts an opening or a closing, and tells how many changes are told.
fn collect(
    answer: &mut Answer,
    hub: &mut Hub,
    alloc: Global,
    words: &Words<'_>,
    up: bool,
) -> Option<()> {
    match hub.collect(&[delta_of(alloc, words, up)?]) {
        Ok(told) => answer.tell_number("told ", told.changes.len() as u64),
        Err(fault) => hub_refused(answer, fault),
    }
}

/// A peer comes up, where it may.
fn up(answer: &mut Answer, hub: &mut Hub, place: usize, inc: Incarnation) -> Option<()> {
    if !hub.server().is_peer(place) || hub.seen_of(place) > inc.get() {
        return None;
    }
    hub.peer_up(place, inc).ok()?;
    answer.tell("up")
}

/// The session with a peer ends.
fn cut(answer: &mut Answer, hub: &mut Hub, place: usize) -> Option<()> {
    if !hub.server().is_peer(place) {
        return None;
    }
    hub.peer_cut(place);
    answer.tell("cut")
}

/// Takes the frames that wait for a peer: at most so many, or all for 0.
fn take(answer: &mut Answer, hub: &mut Hub, place: usize, most: u64) -> Option<()> {
    let most = if most == 0 { usize::MAX } else { most as usize };
    match hub.take_route(place, most) {
        Ok(frames) => answer.tell_number("frames ", frames.len() as u64),
        Err(fault) => hub_refused(answer, fault),
    }
}

/// Drains: how many peers are cut.
fn drain(answer: &mut Answer, hub: &mut Hub) -> Option<()> {
    match hub.drain() {
        Ok(cut) => answer.tell_number("cut ", cut.len() as u64),
        Err(fault) => hub_refused(answer, fault),
    }
}

/// Makes a call of a hub about a peer.
fn peer_call(answer: &mut Answer, hub: &mut Hub, call: &str, words: &Words<'_>) -> Option<()> {
    let name = NodeId::read(words.at(0).as_bytes()).ok()?;
    let (place, number) = (hub.server().place(name)?, words.number(1));
    match call {
        "up" => up(answer, hub, place, Incarnation::new(number)?),
        "cut" => cut(answer, hub, place),
        "seen" => answer.tell_number("seen ", hub.seen_of(place)),
        "take" => take(answer, hub, place, number),
        _ => None,
    }
}

/// The shard has finished the turn.
fn finish(answer: &mut Answer, stand: &mut HubStand, words: &Words<'_>) -> Option<()> {
    let (shard, turn) = (words.number(0), Turn::new(words.number(1))?);
    if shard < 1 || MAX_SHARDS < shard {
        return None;
    }
    stand.finished.set(shard, turn);
    answer.tell("ok")
}

/// The first shard finishes each turn at once from now on.
fn be_prompt(answer: &mut Answer, stand: &mut HubStand) -> Option<()> {
    stand.is_prompt = true;
    answer.tell("ok")
}

/// Makes a call of the hub.
pub fn hub_call(
    answer: &mut Answer,
    place: &mut Option<HubStand>,
    alloc: Global,
    call: &str,
    words: &Words<'_>,
) -> Option<()> {
    if call == "new" {
        return new_hub(answer, place, alloc, words);
    }
    let stand = place.as_mut()?;
    match call {
        "publish" => publish(answer, stand, alloc, words),
        "message" | "plus" | "snapshot" => receive_frame(answer, stand, alloc, call, words),
        "finish" => finish(answer, stand, words),
        "be_prompt" => be_prompt(answer, stand),
        "open" => collect(answer, &mut stand.hub, alloc, words, true),
        "close" => collect(answer, &mut stand.hub, alloc, words, false),
        "drain" => drain(answer, &mut stand.hub),
        "plan" => plan(answer, &stand.hub, alloc, words),
        _ => peer_call(answer, &mut stand.hub, call, words),
    }
}

/// The sessions of n1 and of n2.
#[derive(Drop)]
pub struct Pair {
    n1: Sessions,
    n2: Sessions,
}

/// No sessions, of the server at this place of n1 and n2.
fn sessions_at(alloc: Global, place: usize, inc: u64) -> Option<Sessions> {
    Some(Sessions::new(alloc, server_of(alloc, "n1,n2", place, inc, 1)?))
}

/// New sessions of both stand from now on.
pub fn new_sessions(
    answer: &mut Answer,
    place: &mut Option<Pair>,
    alloc: Global,
    inc: u64,
) -> Option<()> {
    let n1 = sessions_at(alloc, 0, inc)?;
    let n2 = sessions_at(alloc, 1, inc)?;
    put(place, Some(Pair { n1, n2 }));
    answer.tell("ok")
}

/// Tells a refusal: where a session is kept that is as good, that one too.
fn session_refused(answer: &mut Answer, fault: SessionFault) -> Option<()> {
    answer.tell_refusal(fault.number());
    match &fault {
        SessionFault::Duplicate { kept } => {
            answer.tell_number(", ", kept.get());
            answer.tell(" is kept")
        }
        _ => Some(()),
    }
}

/// Tells why a call would be refused.
fn cause_told(answer: &mut Answer, fault: Option<SessionFault>) -> Option<()> {
    match fault {
        Some(fault) => session_refused(answer, fault),
        None => answer.tell("none"),
    }
}

/// Tells why a call failed.
fn failure_told(answer: &mut Answer, fault: Failure<SessionFault>) -> Option<()> {
    match fault {
        Failure::Refused(fault) => session_refused(answer, fault),
        Failure::OutOfMemory => None,
    }
}

/// Tells what a session that is kept took the place of.
fn kept_told(answer: &mut Answer, kept: Kept) -> Option<()> {
    match kept.instead_of {
        Some(session) => answer.tell_number("kept instead of ", session.get()),
        None => answer.tell("kept"),
    }
}

/// Tells the `CONNECT` to send.
fn connect_told(answer: &mut Answer, connect: &RouteConnect) -> Option<()> {
    answer.tell_life(", CONNECT of ", connect.server_name(), connect.inc());
    answer.tell_life(" to ", connect.to(), connect.to_inc());
    answer.tell_number(", serial ", connect.serial())
}

/// Dials the server at the place.
fn dial(answer: &mut Answer, sessions: &mut Sessions, place: usize) -> Option<()> {
    match sessions.dial(place) {
        Ok(session) => answer.tell_number("session ", session.get()),
        Err(fault) => failure_told(answer, fault),
    }
}

/// Accepts a session.
fn accept(answer: &mut Answer, sessions: &mut Sessions) -> Option<()> {
    match sessions.accept() {
        Ok((session, _info)) => answer.tell_number("session ", session.get()),
        Err(fault) => failure_told(answer, fault),
    }
}

/// The `INFO` of the words.
fn info_of(words: &Words<'_>) -> Option<RouteInfo> {
    let life = life_of(words.at(1), words.number(2))?;
    Some(RouteInfo::new(life.name, life.inc))
}

/// The `CONNECT` of the words.
fn connect_of(words: &Words<'_>) -> Option<RouteConnect> {
    let from = life_of(words.at(1), words.number(2))?;
    let to = life_of(words.at(3), words.number(4))?;
    RouteConnect::new(from.name, from.inc, to.name, to.inc, words.number(5))
}

/// An `INFO` comes.
fn on_info(answer: &mut Answer, sessions: &mut Sessions, words: &Words<'_>) -> Option<()> {
    let session = SessionId::new(words.number(0));
    match sessions.on_info(session, &info_of(words)?, words.number(3)) {
        Ok((kept, connect)) => {
            kept_told(answer, kept);
            connect_told(answer, &connect)
        }
        Err(fault) => session_refused(answer, fault),
    }
}

/// A `CONNECT` comes.
fn on_connect(answer: &mut Answer, sessions: &mut Sessions, words: &Words<'_>) -> Option<()> {
    let session = SessionId::new(words.number(0));
    match sessions.on_connect(session, &connect_of(words)?, words.number(6)) {
        Ok(kept) => kept_told(answer, kept),
        Err(fault) => session_refused(answer, fault),
    }
}

/// Ends a session. Tells which peer's kept one it was.
fn cut_session(answer: &mut Answer, sessions: &mut Sessions, session: SessionId) -> Option<()> {
    match sessions.cut(session) {
        Ok(Some(place)) => {
            let name = sessions.server().names().get(place)?;
            answer.tell("ended, was kept for ");
            answer.tell(name.text())
        }
        Ok(None) => answer.tell("ended"),
        Err(fault) => session_refused(answer, fault),
    }
}

/// Tells the session that is kept for the peer at the place.
fn kept(answer: &mut Answer, sessions: &Sessions, place: usize) -> Option<()> {
    match sessions.kept_session(place) {
        Some(session) => answer.tell_number("session ", session.get()),
        None => answer.tell("none"),
    }
}

/// Lets go of the session that is kept for the peer at the place.
fn drop_kept(answer: &mut Answer, sessions: &mut Sessions, place: usize) -> Option<()> {
    sessions.drop_kept(place);
    answer.tell("ok")
}

/// Makes a call of the sessions of one server about a peer.
fn peer_session_call(
    answer: &mut Answer,
    sessions: &mut Sessions,
    call: &str,
    name: &str,
) -> Option<()> {
    let name = NodeId::read(name.as_bytes()).ok()?;
    let place = sessions.server().place(name)?;
    match call {
        "dial" => dial(answer, sessions, place),
        "dial_fault" => cause_told(answer, sessions.dial_fault(place)),
        "kept" => kept(answer, sessions, place),
        _ => drop_kept(answer, sessions, place),
    }
}

/// Why a call of a session would be refused; nothing where there is no such call.
fn fault_of(
    sessions: &Sessions,
    session: SessionId,
    call: &str,
    words: &Words<'_>,
) -> Option<Option<SessionFault>> {
    match call {
        "info_fault" => Some(sessions.info_fault(session, &info_of(words)?, words.number(3))),
        "connect_fault" => {
            Some(sessions.connect_fault(session, &connect_of(words)?, words.number(6)))
        }
        "accept_fault" => Some(sessions.accept_fault()),
        "cut_fault" => Some(sessions.cut_fault(session)),
        _ => None,
    }
}

/// Makes a call of the sessions of one server.
fn session_call(
    answer: &mut Answer,
    sessions: &mut Sessions,
    call: &str,
    words: &Words<'_>,
) -> Option<()> {
    let session = SessionId::new(words.number(0));
    match call {
        "dial" | "dial_fault" | "kept" | "drop_kept" => {
            peer_session_call(answer, sessions, call, words.at(0))
        }
        "accept" => accept(answer, sessions),
        "on_info" => on_info(answer, sessions, words),
        "on_connect" => on_connect(answer, sessions, words),
        "cut" => cut_session(answer, sessions, session),
        _ => cause_told(answer, fault_of(sessions, session, call, words)?),
    }
}

/// Makes a call of the sessions of n1 or n2.
pub fn pair_call(
    answer: &mut Answer,
    pair: &mut Option<Pair>,
    name: &str,
    call: &str,
    words: &Words<'_>,
) -> Option<()> {
    match pair {
        Some(pair) if name == "n1" => session_call(answer, &mut pair.n1, call, words),
        Some(pair) => session_call(answer, &mut pair.n2, call, words),
        None => None,
    }
}

/// The hub's refusal of this name.
fn hub_fault(name: &str) -> Option<HubFault> {
    match name {
        "draining" => Some(HubFault::Draining),
        "busy" => Some(HubFault::Busy(Busy {
            shard: 2,
            finished: Turn::zero(),
        })),
        "too many queues" => Some(HubFault::TooManyQueues),
        "spent" => Some(HubFault::Spent),
        "not me" => Some(HubFault::NotMe),
        "other me" => Some(HubFault::OtherMe),
        "not in cluster" => Some(HubFault::NotInCluster),
        "stale origin" => Some(HubFault::StaleOrigin),
        "late" => Some(HubFault::Late),
        "gap" => Some(HubFault::Gap),
        "bad interest" => Some(HubFault::BadInterest),
        _ => None,
    }
}

/// The sessions' refusal of this name.
fn session_fault(name: &str) -> Option<SessionFault> {
    match name {
        "wrong name" => Some(SessionFault::WrongName),
        "old incarnation" => Some(SessionFault::OldIncarnation),
        "duplicate" => Some(SessionFault::Duplicate {
            kept: SessionId::new(1),
        }),
        "unknown session" => Some(SessionFault::UnknownSession),
        "too many sessions" => Some(SessionFault::TooManySessions),
        "spent" => Some(SessionFault::Spent),
        _ => None,
    }
}

/// Tells the number of a refusal of this name.
pub fn refusal_call(answer: &mut Answer, call: &str, name: &str) -> Option<()> {
    let number = match call {
        "of_hub" => hub_fault(name)?.number(),
        _ => session_fault(name)?.number(),
    };
    answer.tell_number("number ", u64::from(number))
}

/// Makes a call of the numbers of sessions.
pub fn id_call(answer: &mut Answer, call: &str, words: &Words<'_>) -> Option<()> {
    let one = SessionId::new(words.number(0));
    let other = SessionId::new(words.number(1));
    match call {
        "number" => answer.tell_number("number ", one.get()),
        "same" => answer.tell_whether(one == other),
        "differs" => answer.tell_whether(one != other),
        _ => None,
    }
}
