//! A shard that does again what stands on a tape, so that its answers are known whole: the tape has their lists in
//! numbers.

ghost use Rattle.std.specs.Prelude.{◌≡◌, None, Some, IfOk};
ghost use Rattle.shard_core.specs.ShardEvents.{Attach, Begin, Claim, Collect, Detach, Drain, DropJob, End, Reply, SetHeaders, Shut, Subscribe, Take, Unsubscribe};
ghost use Rattle.thread_report.specs.ShardAnswers.{DoesAgain, asked, is_made as was_made, lists_at, state_behind};

use crate::faults::Unfinished;
use crate::shard_lists::ShardLists;
use client_frames::{ErrText, ReplyFrame};
use node_threads::{ShardEntry, ShardEvent, ShardTold};
use shard_core::{Closed, Shard, claims_are_whole};
use std::alloc::Global;
use sub_table::SubTable;
use subj::{ConnId, Job, Key, Sid};

/// A connection that is made.
fn attach<T: SubTable>(alloc: Global, shard: &mut Shard<T>) -> Result<ShardLists, Unfinished>
    ensures { IfOk result (λ lists. DoesAgain shard.old.state Attach lists shard.new.state) }
{
    let _conn = shard.attach()?;
    Ok(ShardLists::none(alloc))
}

/// A subscribe.
fn subscribe<T: SubTable>(
    alloc: Global,
    shard: &mut Shard<T>,
    conn: ConnId,
    key: &Key,
    sid: &Sid,
) -> Result<ShardLists, Unfinished>
    ensures { IfOk result (λ lists.
        DoesAgain shard.old.state (Subscribe conn key.now sid.now) lists shard.new.state) }
{
    let key = key.try_clone(alloc)?;
    let sid = sid.try_clone(alloc)?;
    let _done = shard.subscribe(conn, key, sid)?;
    Ok(ShardLists::none(alloc))
}

/// An unsubscribe.
fn unsubscribe<T: SubTable>(
    alloc: Global,
    shard: &mut Shard<T>,
    conn: ConnId,
    sid: &Sid,
    max: Option<u64>,
) -> Result<ShardLists, Unfinished>
    ensures { IfOk result (λ lists.
        DoesAgain shard.old.state (Unsubscribe conn sid.now max) lists shard.new.state) }
{
    let Ok(_ended) = shard.unsubscribe(conn, sid, max) else {
        return Err(Unfinished::Untold);
    };
    Ok(ShardLists::none(alloc))
}

/// An answer to a connection.
fn reply<T: SubTable>(
    alloc: Global,
    shard: &mut Shard<T>,
    conn: ConnId,
    frame: &ReplyFrame,
) -> Result<ShardLists, Unfinished>
    ensures { IfOk result (λ lists.
        DoesAgain shard.old.state (Reply conn frame.now) lists shard.new.state) }
{
    let Closed { ended, .. } = shard.reply(conn, frame)?;
    Ok(ShardLists::of_closed(alloc, ended))
}

/// A choice of headers.
fn set_headers<T: SubTable>(
    alloc: Global,
    shard: &mut Shard<T>,
    conn: ConnId,
    on: bool,
) -> Result<ShardLists, Unfinished>
    ensures { IfOk result (λ lists.
        DoesAgain shard.old.state (SetHeaders conn on) lists shard.new.state) }
{
    let Ok(()) = shard.set_headers(conn, on) else {
        return Err(Unfinished::Untold);
    };
    Ok(ShardLists::none(alloc))
}

/// A connection that is shut.
fn shut<T: SubTable>(
    alloc: Global,
    shard: &mut Shard<T>,
    conn: ConnId,
    text: ErrText,
) -> Result<ShardLists, Unfinished>
    ensures { IfOk result (λ lists.
        DoesAgain shard.old.state (Shut conn text) lists shard.new.state) }
{
    let ended = shard.shut(conn, text)?;
    Ok(ShardLists::of_closed(alloc, ended))
}

/// A connection that is gone.
fn detach<T: SubTable>(
    alloc: Global,
    shard: &mut Shard<T>,
    conn: ConnId,
) -> Result<ShardLists, Unfinished>
    ensures { IfOk result (λ lists. DoesAgain shard.old.state (Detach conn) lists shard.new.state) }
{
    let ended = shard.detach(conn)?;
    Ok(ShardLists::of_closed(alloc, ended))
}

/// Entries that are taken.
fn take<T: SubTable>(
    alloc: Global,
    shard: &mut Shard<T>,
    conn: ConnId,
    count: usize,
) -> Result<ShardLists, Unfinished>
    ensures { IfOk result (λ lists.
        DoesAgain shard.old.state (Take conn count) lists shard.new.state) }
{
    let entries = shard.take(conn, count)?;
    Ok(ShardLists::of_taken(alloc, entries))
}

/// A job that is begun.
fn begin<T: SubTable>(
    alloc: Global,
    shard: &mut Shard<T>,
    job: &Job,
) -> Result<ShardLists, Unfinished>
    ensures { IfOk result (λ lists.
        DoesAgain shard.old.state (Begin job.now) lists shard.new.state) }
{
    let job = job.try_clone()?;
    match shard.begin(job, false) {
        Ok(_begun) => Ok(ShardLists::none(alloc)),
        Err(fault) => Err(Unfinished::from(fault.cause)),
    }
}

/// A queue name that is tried, and is won or not.
fn claim<T: SubTable>(
    alloc: Global,
    shard: &mut Shard<T>,
    index: u64,
    won: bool,
) -> Result<ShardLists, Unfinished>
    ensures { IfOk result (λ lists.
        DoesAgain shard.old.state (Claim index won) lists shard.new.state) }
{
    claims_are_whole();
    match shard.candidate(index, false) {
        Err(failure) => Err(Unfinished::from(failure)),
        Ok(None) => {
            if won {
                return Err(Unfinished::Untold);
            }
            Ok(ShardLists::none(alloc))
        }
        Ok(Some(_candidate)) => {
            if !won {
                return Ok(ShardLists::none(alloc));
            }
            let _ended = shard.place(index);
            Ok(ShardLists::none(alloc))
        }
    }
}

/// The job in hand that is ended.
fn end<T: SubTable>(alloc: Global, shard: &mut Shard<T>) -> Result<ShardLists, Unfinished>
    ensures { IfOk result (λ lists. DoesAgain shard.old.state End lists shard.new.state) }
{
    let Ok(()) = shard.end() else {
        return Err(Unfinished::Untold);
    };
    Ok(ShardLists::none(alloc))
}

/// The job in hand that is dropped.
fn drop_hand<T: SubTable>(alloc: Global, shard: &mut Shard<T>) -> Result<ShardLists, Unfinished>
    ensures { IfOk result (λ lists.
        DoesAgain shard.old.state (DropJob None) lists shard.new.state) }
{
    if shard.hand().is_none() {
        return Err(Unfinished::Untold);
    }
    let _job = shard.drop_job(None);
    Ok(ShardLists::none(alloc))
}

/// A job that is dropped unbegun.
fn drop_waiting<T: SubTable>(
    alloc: Global,
    shard: &mut Shard<T>,
    job: &Job,
) -> Result<ShardLists, Unfinished>
    ensures { IfOk result (λ lists.
        DoesAgain shard.old.state (DropJob (Some job.now)) lists shard.new.state) }
{
    if shard.begin_fault(job).is_some() {
        return Err(Unfinished::Untold);
    }
    let job = job.try_clone()?;
    let _job = shard.drop_job(Some(job));
    Ok(ShardLists::none(alloc))
}

/// A job that is dropped.
fn drop_job<T: SubTable>(
    alloc: Global,
    shard: &mut Shard<T>,
    waiting: &Option<Job>,
) -> Result<ShardLists, Unfinished>
    ensures { IfOk result (λ lists.
        DoesAgain shard.old.state (DropJob waiting.now) lists shard.new.state) }
{
    match waiting {
        None => drop_hand(alloc, shard),
        Some(job) => drop_waiting(alloc, shard, job),
    }
}

/// A shard that drains.
fn drain<T: SubTable>(alloc: Global, shard: &mut Shard<T>) -> Result<ShardLists, Unfinished>
    ensures { IfOk result (λ lists. DoesAgain shard.old.state Drain lists shard.new.state) }
{
    let Ok(()) = shard.drain() else {
        return Err(Unfinished::Untold);
    };
    Ok(ShardLists::none(alloc))
}

/// Deltas that are handed to the hub.
fn collect<T: SubTable>(alloc: Global, shard: &mut Shard<T>) -> ShardLists
    ensures { DoesAgain shard.old.state Collect result shard.new.state }
{
    shard.take_deltas();
    ShardLists::none(alloc)
}

/// What the shard was asked for a connection, or to make one.
fn redo<T: SubTable>(
    alloc: Global,
    shard: &mut Shard<T>,
    event: &ShardEvent,
) -> Result<ShardLists, Unfinished>
    ensures { IfOk result (λ lists.
        DoesAgain shard.old.state (asked event.now) lists shard.new.state) }
{
    match event {
        ShardEvent::Attach => attach(alloc, shard),
        ShardEvent::Subscribe { conn, key, sid } => subscribe(alloc, shard, *conn, key, sid),
        ShardEvent::Unsubscribe { conn, sid, max } => unsubscribe(alloc, shard, *conn, sid, *max),
        ShardEvent::Reply { conn, frame } => reply(alloc, shard, *conn, frame),
        ShardEvent::SetHeaders { conn, on } => set_headers(alloc, shard, *conn, *on),
        ShardEvent::Shut { conn, text } => shut(alloc, shard, *conn, *text),
        ShardEvent::Detach { conn } => detach(alloc, shard, *conn),
        ShardEvent::Take { conn, count } => take(alloc, shard, *conn, *count),
        ShardEvent::Begin { job, .. } => begin(alloc, shard, job),
        ShardEvent::Claim { index, won, .. } => claim(alloc, shard, *index, *won),
        ShardEvent::End => end(alloc, shard),
        ShardEvent::DropJob(waiting) => drop_job(alloc, shard, waiting),
        ShardEvent::Drain => drain(alloc, shard),
        ShardEvent::Collect(_) => Ok(collect(alloc, shard)),
    }
}

/// Whether it tells of a step, and of no refusal.
fn is_made(told: ShardTold) -> bool
    ensures { result ≡ was_made told }
{
    match told {
        ShardTold::Refused(_) => false,
        _ => true,
    }
}

/// Does again what an entry tells, and gives the lists that are answered; what was refused is left. An `Err` is
/// [`Unfinished::OutOfMemory`], or [`Unfinished::Untold`] where the shard refuses it now.
pub(crate) fn again<T: SubTable>(
    alloc: Global,
    shard: &mut Shard<T>,
    entry: &ShardEntry,
) -> Result<ShardLists, Unfinished>
    ensures lists { IfOk result (λ lists. lists ≡ lists_at shard.old.state entry.now) }
    ensures state { IfOk result (λ _. shard.new.state ≡ state_behind shard.old.state entry.now) }
{
    if !is_made(entry.told) {
        return Ok(ShardLists::none(alloc));
    }
    redo(alloc, shard, &entry.event)
}
