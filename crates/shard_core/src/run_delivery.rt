//! A run of jobs of one subject, delivered at once to the receivers that are noted.

ghost use Rattle.std.specs.Prelude.{◌≡◌, ◌+◌, ◌<◌, ◌≤◌, ◌^◌, ◌++◌, ◌∷◌, [], true, false, Some, None, filter, map, length, slice_get, take, All, IfOk, OnOk, OnErr};
ghost use Rattle.list_laws.specs.Lists.{Each};
ghost use Rattle.sub_table.specs.Subscriptions.{gets};
ghost use Rattle.shard_core.specs.Boxes.{IsSettled};
ghost use Rattle.shard_core.specs.Dirty.{AreTold};
ghost use Rattle.shard_core.specs.Opened.{AreRising};
ghost use Rattle.shard_core.specs.Received.{receivers_of};
ghost use Rattle.shard_core.specs.ReceiverSteps.{is_due_to};
ghost use Rattle.shard_core.specs.RunNoted.{noted_receivers};
ghost use Rattle.shard_core.specs.RunSteps.{GoesWith, GoTogether, HasDelivered, StagesFirst, TakesRun, AreStaged, due_serials, run_for, tail_of};
ghost use Rattle.shard_core.specs.RunReceivers.{clients_with_entries};
ghost use Rattle.shard_core.specs.Shards.{State};

use crate::connections::Conns;
use crate::delivery_buffer::is_echoed_to;
use crate::dirty_conns::DirtyConns;
use crate::openings::Openings;
use crate::receiver::Receiver;
use client_frames::MessageTails;
use job_block::{JobSlice, LentJob};
use outbox::RunTails;
use std::alloc::{AllocError, Global};
use sub_table::SubTable;
use subj::{MAX_COUNTER, SubId, Turn};

/// Whether a run may begin with the job: it has no header block, and claims no queue name.
pub fn may_begin(job: &LentJob<'_>) -> bool
    ensures { result ≡ true → GoesWith job.now job.now }
{
    job.queues().as_slice().is_empty() && job.publication().headers.is_none()
}

/// Whether Begin places the job for the receiver.
fn is_due(job: &LentJob<'_>, receiver: &Receiver) -> bool
    ensures { result ≡ is_due_to job.now receiver.now }
{
    receiver.is_plain() && is_echoed_to(job.publisher(), job.echo(), receiver.conn())
}

/// The first of these for which Begin places the job.
fn first_due<'a>(job: &LentJob<'_>, receivers: &'a [Receiver]) -> Option<&'a Receiver>
    ensures { result ≡ None → filter (is_due_to job.now) receivers.now ≡ [] }
{
    for receiver in receivers {
        if is_due(job, receiver) {
            return Some(receiver);
        }
    }
    None
}

/// Jobs that go together: how many, and the turn of the last one.
#[derive(Clone, Copy)]
pub struct Together {
    /// How many: 0 where the first one has another turn.
    pub count: usize,
    /// The turn of the last one; where there is none, the last one finished.
    pub last: Turn,
}

/// How many of these jobs, from the first on, go with the first, in turns that follow the last one finished. Required: a run may begin
/// with the first.
pub fn jobs_together(finished: Turn, first: &LentJob<'_>, jobs: &JobSlice<'_>) -> Together
    requires first { slice_get jobs.now 0 ≡ Some first.now }
    requires begins { GoesWith first.now first.now }
    ensures few { result.count ≤ length jobs.now }
    ensures together { GoTogether first.now finished result.last (take result.count jobs.now) }
    ensures most { result.last ≤ MAX_COUNTER }
{
    if first.turn().get() != finished.get() + 1 {
        return Together {
            count: 0,
            last: finished,
        };
    }
    let count = jobs.run_len();
    Together {
        count,
        last: jobs.get(count - 1).turn(),
    }
}

/// The memory of a run, used again by the next.
pub struct RunBuffer {
    /// One message, while its bytes are spelt.
    message: MessageTails,
    /// What the messages of the run have behind the ids of subscriptions.
    tails: RunTails,
    /// The serials of those that get the run.
    given: Vec<u64>,
}

/// One call for whoever lets it go: `docs/PROVING.md`, "What a proof costs".
impl Drop for RunBuffer {
    fn drop(self) {
        let RunBuffer {
            message: _,
            tails: _,
            given: _,
        } = self;
    }
}

impl RunBuffer {
    /// Of no run yet.
    pub fn new(alloc: Global) -> RunBuffer {
        RunBuffer {
            message: MessageTails::new(alloc),
            tails: RunTails::new(alloc),
            given: Vec::new(alloc),
        }
    }
}

/// Spells what stands behind the ids of subscriptions in the message of this job, without a header block, behind what is there.
fn spell_one(
    message: &mut MessageTails,
    tails: &mut RunTails,
    job: &LentJob<'_>,
) -> Result<(), AllocError>
    ensures { OnOk result (tails.new ≡ tails.old ++ tail_of job.now ∷ []) }
{
    let publication = job.publication();
    message.write_parts(publication.reply, publication.payload)?;
    tails.push(job.id(), message.tail(false))
}

/// Spells what stands behind the ids of subscriptions in the messages of these jobs, without header blocks, in place of what was there.
/// They are kept as they are for this receiver, and for all who call their subscriptions the same.
fn spell(
    message: &mut MessageTails,
    tails: &mut RunTails,
    receiver: &Receiver,
    jobs: &JobSlice<'_>,
) -> Result<(), AllocError>
    ensures { OnOk result (tails.new ≡ map tail_of jobs.now) }
{
    tails.clear(message.head(receiver.head(), false))?;
    for place in 0..jobs.len() {
        spell_one(message, tails, &jobs.get(place))?;
    }
    Ok(())
}

/// Puts the run for the receiver, unseen, where its connection takes it. Tells whether it does.
fn stage_for(
    buffer: &RunBuffer,
    conns: &mut Conns,
    shard: u64,
    receiver: &Receiver,
) -> Result<bool, AllocError>
    ensures shown { conns.new.shown ≡ conns.old.shown }
    ensures takes { IfOk result (λ put.
        put ≡ true
        → TakesRun (run_for shard buffer.now.tails receiver.now) receiver.now.conn conns.old.shown
        conns.old.next) }
    ensures put { IfOk result (λ put.
        put ≡ true
        → conns.new.next
        ≡ clients_with_entries (run_for shard buffer.now.tails receiver.now) receiver.now.conn
        conns.old.next) }
{
    let head = buffer.message.head(receiver.head(), false);
    let serial = receiver.serial();
    conns.stage_run(
        receiver.conn(),
        SubId { shard, serial },
        head,
        &buffer.tails,
    )
}

/// Puts the run for the receiver, unseen, where it may get the first job. Tells whether that can be: not where it has a maximum, and
/// not where its connection does not take the run.
fn stage_if_due(
    buffer: &mut RunBuffer,
    conns: &mut Conns,
    shard: u64,
    first: &LentJob<'_>,
    receiver: &Receiver,
) -> Result<bool, AllocError>
    ensures shown { conns.new.shown ≡ conns.old.shown }
    ensures tails { buffer.new.tails ≡ buffer.old.tails }
    ensures put { IfOk result (λ put.
        put ≡ true
        → StagesFirst shard buffer.old.tails first.now receiver.now conns.old conns.new
        buffer.old.given.items buffer.new.given.items) }
{
    if !is_due(first, receiver) {
        return Ok(true);
    }
    if receiver.is_limited() {
        return Ok(false);
    }
    buffer.given.push(receiver.serial())?;
    stage_for(buffer, conns, shard, receiver)
}

/// Puts the run for each of these that may get the first job, unseen. Tells whether that can be.
fn stage_each(
    buffer: &mut RunBuffer,
    conns: &mut Conns,
    shard: u64,
    first: &LentJob<'_>,
    receivers: &[Receiver],
) -> Result<bool, AllocError>
    ensures shown { conns.new.shown ≡ conns.old.shown }
    ensures staged { IfOk result (λ put.
        put ≡ true
        → AreStaged shard buffer.old.tails conns.old.shown
        (filter (is_due_to first.now) receivers.now) conns.old.next conns.new.next) }
    ensures given { IfOk result (λ put.
        put ≡ true
        → buffer.new.given.items ≡ buffer.old.given.items ++ due_serials first.now receivers.now) }
{
    for receiver in receivers {
        if !stage_if_due(buffer, conns, shard, first, receiver)? {
            return Ok(false);
        }
    }
    Ok(true)
}

/// Puts a run of these jobs for each of these receivers that may get the first job, unseen, and notes their serials. Tells whether that
/// can be: where anyone gets it, not if the first has a long message, which is shared and not spelt. What stands behind the ids of
/// subscriptions is spelt once.
fn stage_run(
    buffer: &mut RunBuffer,
    conns: &mut Conns,
    shard: u64,
    first: &LentJob<'_>,
    jobs: &JobSlice<'_>,
    receivers: &[Receiver],
) -> Result<bool, AllocError>
    ensures shown { conns.new.shown ≡ conns.old.shown }
    ensures staged { IfOk result (λ put.
        put ≡ true
        → AreStaged shard (map tail_of jobs.now) conns.old.shown
        (filter (is_due_to first.now) receivers.now) conns.old.next conns.new.next) }
    ensures given { IfOk result (λ put.
        put ≡ true → buffer.new.given.items ≡ due_serials first.now receivers.now) }
{
    buffer.given.clear();
    let Some(due) = first_due(first, receivers) else {
        return Ok(true);
    };
    if !first.publication().is_short() {
        return Ok(false);
    }
    spell(&mut buffer.message, &mut buffer.tails, due, jobs)?;
    stage_each(buffer, conns, shard, first, receivers)
}

/// Puts a run of these jobs for all who receive the subject of the first, where they are noted, unseen. Tells whether that can be.
fn stage_noted<T: SubTable>(
    buffer: &mut RunBuffer,
    conns: &mut Conns,
    openings: &Openings<T>,
    shard: u64,
    first: &LentJob<'_>,
    jobs: &JobSlice<'_>,
) -> Result<bool, AllocError>
    ensures shown { conns.new.shown ≡ conns.old.shown }
    ensures rising { IfOk result (λ put. put ≡ true → AreRising openings.now.subs) }
    ensures staged { IfOk result (λ put.
        put ≡ true
        → AreStaged shard (map tail_of jobs.now) conns.old.shown
        (noted_receivers openings.now.subs first.now) conns.old.next conns.new.next) }
    ensures given { IfOk result (λ put.
        put ≡ true
        → buffer.new.given.items
        ≡ due_serials first.now
        (receivers_of first.now.message.subject
        (filter (gets first.now.message.subject) openings.now.subs))) }
{
    match openings.receivers(first.subject().bytes()) {
        None => Ok(false),
        Some(receivers) => stage_run(buffer, conns, shard, first, jobs, receivers),
    }
}

/// Delivers a run of jobs that go together to all who receive their subject, where these are few and can all take it: shows what it
/// puts, notes for whom it is, and counts. Tells whether it did; where not, and for want of memory, all is as it was.
#[tactic(auto, using(crate::proofs::Clients::Told::nothing_put))]
pub fn put_run<T: SubTable>(
    buffer: &mut RunBuffer,
    conns: &mut Conns,
    dirty_conns: &mut DirtyConns,
    openings: &mut Openings<T>,
    shard: u64,
    first: &LentJob<'_>,
    jobs: &JobSlice<'_>,
) -> Result<bool, AllocError>
    requires settled { IsSettled conns.old }
    requires some { 0 < length jobs.now }
    requires alike { Each (GoesWith first.now) jobs.now }
    requires counts { All (λ sub. sub.delivered + length jobs.now < 2 ^ 64) openings.old.subs }
    ensures put { IfOk result (λ put.
        put ≡ true
        → (s : State)
        → s.shard ≡ shard
        → s.subs ≡ openings.old.subs
        → s.clients ≡ conns.old.shown
        → HasDelivered s jobs.now openings.old conns.new openings.new) }
    ensures not_put { IfOk result (λ put.
        put ≡ false → (conns.new ≡ conns.old) × (openings.new ≡ openings.old)) }
    ensures err { OnErr result ((conns.new ≡ conns.old) × (openings.new ≡ openings.old)) }
    ensures told { AreTold conns.old.shown conns.new.shown dirty_conns.old dirty_conns.new }
{
    openings.note_for_run(&first.subject());
    let Ok(put) = stage_noted(buffer, conns, openings, shard, first, jobs) else {
        conns.rollback();
        return Err(AllocError);
    };
    if !put {
        conns.rollback();
        return Ok(false);
    }
    conns.numbers_are_apart();
    conns.commit(dirty_conns);
    openings.count_run(&buffer.given, jobs.len() as u64);
    Ok(true)
}
