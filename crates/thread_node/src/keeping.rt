//! What is written down of the calls under a lock: what they were asked, and what they answered. A refusal is, with its cause; want of memory is not,
//! since nothing was done.

ghost use Rattle.std.specs.Prelude.{◌≡◌, List, length, Some, IfSome};
ghost use Rattle.subj.specs.declared.keys.Delta.{Delta};
ghost use Rattle.node_law.specs.declared.faults.NodeFault.TheVariants.{Hub, Session};
ghost use Rattle.node_threads.specs.Tapes.{told_of};
ghost use Rattle.node_threads.specs.declared.shard_entries.ShardEvent.{ShardEvent};
ghost use Rattle.node_threads.specs.declared.shard_entries.ShardEvent.TheVariants.{Reply, Subscribe, Unsubscribe};
ghost use Rattle.node_threads.specs.declared.shard_entries.ShardTold.TheVariants as shard_told;
ghost use Rattle.shard_core.specs.Answers.{answer_of};
ghost use Rattle.thread_node.specs.HubTapes.{of_received};
ghost use Rattle.thread_node.specs.Told.{GivenNotes, HubNotes, ShardNotes, of_decision, refused_in, told_of_hub, told_of_sessions, told_of_shard};
ghost use Rattle.thread_node.specs.declared.hub_entries.HubEvent.{HubEvent};
ghost use Rattle.thread_node.specs.declared.hub_entries.HubEvent.TheVariants.{Collect as HubCollect, Publish, Receive};
ghost use Rattle.thread_node.specs.declared.hub_entries.HubTold.TheVariants as hub_told;

use crate::hub_entries::{HubEntry, HubEvent, HubTold};
use client_frames::ReplyFrame;
use hub_core::{CollectResult, HubFault};
use node_law::NodeFault;
use node_parts::{Issued, Received};
use node_threads::{Deltas, ShardEntry, ShardEvent, ShardTold, Tape};
use outbox::Entry;
use route_session::{Kept, SessionFault, SessionId};
use route_values::{Numbered, RouteConnect, RouteInfo};
use shard_core::{Closed, ShardFault, Subscribed};
use std::alloc::Global;
use subj::{ConnId, Delta, Failure, Finished, Key, Pub, Sid, SubId, Turn};

/// Writes down a step of a shard, or a refusal. Where there is no copy of what it was asked, the tape is given up.
pub(crate) fn note_shard(
    tape: &mut Tape<ShardEntry>,
    event: Option<ShardEvent>,
    told: Option<ShardTold>,
)
    ensures { (e : ShardEvent) → IfSome event (λ x. x ≡ e) → ShardNotes e told tape.old tape.new }
{
    let Some(told) = told else { return };
    match event {
        None => tape.give_up(),
        Some(event) => tape.note(ShardEntry { event, told }),
    }
}

/// Writes down a step of a hub, or a refusal. Where there is no copy of what it was asked, the tape is given up.
pub(crate) fn note_hub(tape: &mut Tape<HubEntry>, event: Option<HubEvent>, told: Option<HubTold>)
    ensures { (e : HubEvent) → IfSome event (λ x. x ≡ e) → HubNotes e told tape.old tape.new }
{
    let Some(told) = told else { return };
    match event {
        None => tape.give_up(),
        Some(event) => tape.note(HubEntry { event, told }),
    }
}

/// A subscribe, where it is to be written down and there is memory for it.
pub(crate) fn subscribe_event(
    alloc: Global,
    tape: &Tape<ShardEntry>,
    conn: ConnId,
    key: &Key,
    sid: &Sid,
) -> Option<ShardEvent>
    ensures { IfSome result (λ event. event ≡ Subscribe conn key.now sid.now) }
{
    if !tape.is_kept() {
        return None;
    }
    let Ok(key) = key.try_clone(alloc) else {
        return None;
    };
    let Ok(sid) = sid.try_clone(alloc) else {
        return None;
    };
    Some(ShardEvent::Subscribe { conn, key, sid })
}

/// An unsubscribe, where it is to be written down and there is memory for it.
pub(crate) fn unsubscribe_event(
    alloc: Global,
    tape: &Tape<ShardEntry>,
    conn: ConnId,
    sid: &Sid,
    max: Option<u64>,
) -> Option<ShardEvent>
    ensures { IfSome result (λ event. event ≡ Unsubscribe conn sid.now max) }
{
    if !tape.is_kept() {
        return None;
    }
    let Ok(sid) = sid.try_clone(alloc) else {
        return None;
    };
    Some(ShardEvent::Unsubscribe { conn, sid, max })
}

/// An answer, where it is to be written down and there is memory for it.
pub(crate) fn reply_event(
    tape: &Tape<ShardEntry>,
    conn: ConnId,
    frame: &ReplyFrame,
) -> Option<ShardEvent>
    ensures { IfSome result (λ event. event ≡ Reply conn frame.now) }
{
    if !tape.is_kept() {
        return None;
    }
    let Ok(frame) = frame.try_clone() else {
        return None;
    };
    Some(ShardEvent::Reply { conn, frame })
}

/// A copy of what a client said, where there is memory for it.
pub fn copy_of_pub(publication: &Pub) -> Option<Pub>
    ensures { IfSome result (λ copy. copy ≡ publication.now) }
{
    let Ok(message) = publication.message.try_clone() else {
        return None;
    };
    Some(Pub {
        message,
        echo: publication.echo,
    })
}

/// A publication, where it is to be written down and there is memory for it.
pub(crate) fn publish_event(
    tape: &Tape<HubEntry>,
    conn: ConnId,
    publication: &Pub,
    word: u64,
    finished: Finished,
) -> Option<HubEvent>
    ensures { IfSome result (λ event. event ≡ Publish conn publication.now word finished) }
{
    if !tape.is_kept() {
        return None;
    }
    let publication = copy_of_pub(publication)?;
    Some(HubEvent::Publish {
        conn,
        publication,
        word,
        finished,
    })
}

/// A frame of a peer, where it is to be written down and there is memory for it.
pub(crate) fn receive_event(
    alloc: Global,
    tape: &Tape<HubEntry>,
    frame: &Numbered,
    finished: Finished,
) -> Option<HubEvent>
    ensures { IfSome result (λ event. event ≡ Receive frame.now finished) }
{
    if !tape.is_kept() {
        return None;
    }
    let Ok(frame) = frame.try_clone(alloc) else {
        return None;
    };
    Some(HubEvent::Receive { frame, finished })
}

/// Copies of a shard's deltas, where they are to be written down and there is memory for them.
pub(crate) fn copy_for<E: Drop>(tape: &Tape<E>, alloc: Global, deltas: &[Delta]) -> Option<Deltas>
    ensures { IfSome result (λ copy. copy ≡ deltas.now) }
{
    if !tape.is_kept() {
        return None;
    }
    Deltas::copy_of(alloc, deltas).ok()
}

/// Writes down that a shard handed these deltas to the hub, where that took them. Where there is no copy of them, the
/// tape is given up.
pub(crate) fn note_given(
    tape: &mut Tape<ShardEntry>,
    given: Option<Deltas>,
    done: &Result<CollectResult, Failure<HubFault>>,
)
    ensures { (deltas : List Delta)
        → IfSome given (λ x. x ≡ deltas)
        → GivenNotes done.now deltas tape.old tape.new }
{
    if done.is_err() {
        return;
    }
    match given {
        None => tape.give_up(),
        Some(deltas) => tape.note(ShardEntry {
            event: ShardEvent::Collect(deltas),
            told: ShardTold::Work,
        }),
    }
}

/// Writes down that the hub was handed these deltas, or refused them. Where there is no copy of them, the tape is
/// given up.
pub(crate) fn note_heard(
    tape: &mut Tape<HubEntry>,
    shard: u64,
    heard: Option<Deltas>,
    told: Option<HubTold>,
)
    ensures { (deltas : List Delta)
        → IfSome heard (λ x. x ≡ deltas)
        → HubNotes (HubCollect shard deltas) told tape.old tape.new }
{
    let event = match heard {
        None => None,
        Some(deltas) => Some(HubEvent::Collect { shard, deltas }),
    };
    note_hub(tape, event, told);
}

/// Why a shard did nothing.
fn refused_by_shard(failure: Failure<ShardFault>) -> Option<ShardTold>
    ensures { result ≡ refused_in (λ fault. shard_told.Refused fault) failure }
{
    match failure {
        Failure::Refused(fault) => Some(ShardTold::Refused(fault)),
        Failure::OutOfMemory => None,
    }
}

/// Why the hub did nothing.
fn refused_by_hub(failure: Failure<HubFault>) -> Option<HubTold>
    ensures { result ≡ refused_in (λ fault. hub_told.Refused (Hub fault)) failure }
{
    match failure {
        Failure::Refused(fault) => Some(HubTold::Refused(NodeFault::Hub(fault))),
        Failure::OutOfMemory => None,
    }
}

/// Why the sessions did nothing.
fn refused_by_sessions(failure: Failure<SessionFault>) -> Option<HubTold>
    ensures { result ≡ refused_in (λ fault. hub_told.Refused (Session fault)) failure }
{
    match failure {
        Failure::Refused(fault) => Some(HubTold::Refused(NodeFault::Session(fault))),
        Failure::OutOfMemory => None,
    }
}

/// Of a connection that is made.
pub fn told_attached(done: &Result<ConnId, Failure<ShardFault>>) -> Option<ShardTold>
    ensures { result ≡ told_of_shard (λ conn. shard_told.Attached conn) done.now }
{
    match done {
        Ok(conn) => Some(ShardTold::Attached(*conn)),
        Err(failure) => refused_by_shard(*failure),
    }
}

/// Of a subscribe.
pub fn told_subscribed(done: &Result<Subscribed, Failure<ShardFault>>) -> Option<ShardTold>
    ensures { result ≡ told_of_shard (λ done. told_of (answer_of done)) done.now }
{
    match done {
        Ok(Subscribed::New(sub)) => Some(ShardTold::Opened(*sub)),
        Ok(Subscribed::Same) => Some(ShardTold::AlreadyOpen),
        Err(failure) => refused_by_shard(*failure),
    }
}

/// Of an unsubscribe.
pub fn told_unsubscribed(done: &Result<Option<SubId>, ShardFault>) -> Option<ShardTold>
    ensures { result
        ≡ told_of_shard (λ ended. shard_told.Unsubscribed ended) (of_decision done.now) }
{
    match done {
        Ok(ended) => Some(ShardTold::Unsubscribed(*ended)),
        Err(fault) => Some(ShardTold::Refused(*fault)),
    }
}

/// Of an answer to a connection.
pub fn told_replied(done: &Result<Closed, Failure<ShardFault>>) -> Option<ShardTold>
    ensures { result
        ≡ told_of_shard (λ closed. shard_told.Replied closed.shut (length closed.ended.items))
        done.now }
{
    match done {
        Ok(closed) => Some(ShardTold::Replied {
            shut: closed.shut,
            ended: closed.ended.len(),
        }),
        Err(failure) => refused_by_shard(*failure),
    }
}

/// Of a choice of headers.
pub fn told_headers(done: &Result<(), ShardFault>) -> Option<ShardTold>
    ensures { result ≡ told_of_shard (λ _. shard_told.HeadersSet) (of_decision done.now) }
{
    match done {
        Ok(()) => Some(ShardTold::HeadersSet),
        Err(fault) => Some(ShardTold::Refused(*fault)),
    }
}

/// Of a connection that is shut.
pub fn told_shut(done: &Result<Vec<SubId>, Failure<ShardFault>>) -> Option<ShardTold>
    ensures { result ≡ told_of_shard (λ ended. shard_told.WasShut (length ended.items)) done.now }
{
    match done {
        Ok(ended) => Some(ShardTold::WasShut(ended.len())),
        Err(failure) => refused_by_shard(*failure),
    }
}

/// Of a connection that goes.
pub fn told_detached(done: &Result<Vec<SubId>, Failure<ShardFault>>) -> Option<ShardTold>
    ensures { result ≡ told_of_shard (λ ended. shard_told.Detached (length ended.items)) done.now }
{
    match done {
        Ok(ended) => Some(ShardTold::Detached(ended.len())),
        Err(failure) => refused_by_shard(*failure),
    }
}

/// Of entries that are taken.
pub fn told_taken(done: &Result<Vec<Entry>, Failure<ShardFault>>) -> Option<ShardTold>
    ensures { result ≡ told_of_shard (λ entries. shard_told.Taken (length entries.items)) done.now }
{
    match done {
        Ok(entries) => Some(ShardTold::Taken(entries.len())),
        Err(failure) => refused_by_shard(*failure),
    }
}

/// Of entries that are taken as bytes: so many.
pub fn told_bytes(done: &Result<usize, Failure<ShardFault>>) -> Option<ShardTold>
    ensures { result ≡ told_of_shard (λ taken. shard_told.Taken taken) done.now }
{
    match done {
        Ok(taken) => Some(ShardTold::Taken(*taken)),
        Err(failure) => refused_by_shard(*failure),
    }
}

/// Of a job that is dropped.
pub fn told_dropped(done: &Result<Turn, Failure<ShardFault>>) -> Option<ShardTold>
    ensures { result ≡ told_of_shard (λ turn. shard_told.Dropped (Some turn)) done.now }
{
    match done {
        Ok(turn) => Some(ShardTold::Dropped(Some(*turn))),
        Err(failure) => refused_by_shard(*failure),
    }
}

/// Of a shard that drains.
pub fn told_drained(done: &Result<(), ShardFault>) -> Option<ShardTold>
    ensures { result ≡ told_of_shard (λ _. shard_told.Drained) (of_decision done.now) }
{
    match done {
        Ok(()) => Some(ShardTold::Drained),
        Err(fault) => Some(ShardTold::Refused(*fault)),
    }
}

/// Of a publication.
pub fn told_issued(done: &Result<Issued, Failure<HubFault>>) -> Option<HubTold>
    ensures { result ≡ told_of_hub (λ issued. hub_told.Issued issued.turn issued.frames) done.now }
{
    match done {
        Ok(issued) => Some(HubTold::Issued {
            turn: issued.turn,
            frames: issued.frames,
        }),
        Err(failure) => refused_by_hub(*failure),
    }
}

/// Of a frame of a peer.
pub fn told_received(done: &Result<Received, Failure<HubFault>>) -> Option<HubTold>
    ensures { result ≡ told_of_hub (λ received. of_received received) done.now }
{
    match done {
        Ok(Received::Routed(turn)) => Some(HubTold::Routed(*turn)),
        Ok(Received::Heard(mark)) => Some(HubTold::Heard(*mark)),
        Err(failure) => refused_by_hub(*failure),
    }
}

/// Of deltas that are counted.
pub fn told_collected(done: &Result<CollectResult, Failure<HubFault>>) -> Option<HubTold>
    ensures { result
        ≡ told_of_hub
        (λ told. hub_told.Collected (length told.changes.items) (length told.cut.items)) done.now }
{
    match done {
        Ok(told) => Some(HubTold::Collected {
            changes: told.changes.len(),
            cut: told.cut.len(),
        }),
        Err(failure) => refused_by_hub(*failure),
    }
}

/// Of a hub that drains.
pub fn told_hub_drained(done: &Result<Vec<usize>, Failure<HubFault>>) -> Option<HubTold>
    ensures { result ≡ told_of_hub (λ cut. hub_told.Collected 1 (length cut.items)) done.now }
{
    match done {
        Ok(cut) => Some(HubTold::Collected {
            changes: 1,
            cut: cut.len(),
        }),
        Err(failure) => refused_by_hub(*failure),
    }
}

/// Of frames that are taken for a peer.
pub fn told_frames(done: &Result<Vec<Numbered>, Failure<HubFault>>) -> Option<HubTold>
    ensures { result ≡ told_of_hub (λ frames. hub_told.Taken (length frames.items)) done.now }
{
    match done {
        Ok(frames) => Some(HubTold::Taken(frames.len())),
        Err(failure) => refused_by_hub(*failure),
    }
}

/// Of a session that is dialed.
pub fn told_dialed(done: &Result<SessionId, Failure<SessionFault>>) -> Option<HubTold>
    ensures { result ≡ told_of_sessions (λ session. hub_told.Dialed session) done.now }
{
    match done {
        Ok(session) => Some(HubTold::Dialed(*session)),
        Err(failure) => refused_by_sessions(*failure),
    }
}

/// Of a session that is accepted.
pub fn told_accepted(
    done: &Result<(SessionId, RouteInfo), Failure<SessionFault>>,
) -> Option<HubTold>
    ensures { result ≡ told_of_sessions (λ given. hub_told.Accepted given.0 given.1) done.now }
{
    match done {
        Ok(given) => Some(HubTold::Accepted {
            session: given.0,
            info: given.1,
        }),
        Err(failure) => refused_by_sessions(*failure),
    }
}

/// Of an `INFO`.
pub fn told_info(done: &Result<(Kept, RouteConnect), Failure<SessionFault>>) -> Option<HubTold>
    ensures { result
        ≡ told_of_sessions (λ kept. hub_told.KeptAfterInfo kept.0.instead_of kept.1) done.now }
{
    match done {
        Ok(kept) => Some(HubTold::KeptAfterInfo {
            instead_of: kept.0.instead_of,
            connect: kept.1,
        }),
        Err(failure) => refused_by_sessions(*failure),
    }
}

/// Of a `CONNECT`.
pub fn told_connected(done: &Result<Kept, Failure<SessionFault>>) -> Option<HubTold>
    ensures { result ≡ told_of_sessions (λ kept. hub_told.Kept kept.instead_of) done.now }
{
    match done {
        Ok(kept) => Some(HubTold::Kept(kept.instead_of)),
        Err(failure) => refused_by_sessions(*failure),
    }
}

/// Of the end of a session.
pub fn told_cut(done: &Result<Option<usize>, SessionFault>) -> Option<HubTold>
    ensures { result ≡ told_of_sessions (λ peer. hub_told.WasCut peer) (of_decision done.now) }
{
    match done {
        Ok(peer) => Some(HubTold::WasCut(*peer)),
        Err(fault) => Some(HubTold::Refused(NodeFault::Session(*fault))),
    }
}
