//! Jobs on their way to the shards: each line gets one of what is published or received.

ghost use Rattle.std.specs.Prelude.{◌≡◌, ℕ, ◌≤◌, ◌<◌, ◌∷◌, ◌++◌, [], map, replicate, take, length, slice_get, Some, IfOk, OnOk};
ghost use Rattle.subj.specs.Answers.{IsAnswered};
ghost use Rattle.subj.specs.declared.jobs.Job.{Job as OneJob};
ghost use Rattle.subj.specs.declared.limits.TheConstants.{MAX_SHARDS, WINDOW};
ghost use Rattle.claim_race.specs.Race.{shards_of};
ghost use Rattle.hub_core.specs.Events.{Receive as ReceiveFrame};
ghost use Rattle.hub_core.specs.Receiving.{has_message};
ghost use Rattle.hub_core.specs.Steps.{hub_refusal};
ghost use Rattle.node_law.specs.State.{ShardWithJobs as OneLine};
ghost use Rattle.node_law.specs.Steps.{line_with_job};
ghost use Rattle.node_parts.specs.Jobs.{MayIssue, AreGiven, IsReceived, MayRoute, AreRouted};
ghost use Rattle.node_parts.specs.Sides.{ByHub, side_after};

use crate::lines::ShardWithJobs;
use crate::side::{HubWithSessions, is_message};
use crate::told::Received;
use claim_race::Race;
use hub_core::HubFault;
use route_values::Numbered;
use std::alloc::AllocError;
use sub_table::SubTable;
use subj::{Failure, Finished, Job, Turn};

/// The last turns that so many shards finished, as the race knows them.
pub fn finished_by<R: Race>(race: &R, shards: u64) -> Finished
    requires all { shards ≡ shards_of (R.contents race.now) }
    requires few { shards ≤ MAX_SHARDS }
    ensures { take shards result ≡ (R.contents race.now).finished }
{
    let mut finished = Finished::new();
    for place in 0..shards {
        finished.set(place + 1, race.finished(place + 1));
    }
    finished
}

/// Fills the list with copies of a job: with the job itself they are so many. Takes no memory where that is all.
#[inline(always)]
pub fn fill(copies: &mut Vec<Job>, job: &Job, count: usize) -> Result<(), AllocError>
    requires { 1 ≤ count }
    ensures { OnOk result (copies.new.items ++ job.now ∷ [] ≡ replicate count job.now) }
{
    if count == 1 && copies.is_empty() {
        return Ok(());
    }
    fill_anew(copies, job, count)
}

/// The same, whatever the list holds.
#[inline(never)]
fn fill_anew(copies: &mut Vec<Job>, job: &Job, count: usize) -> Result<(), AllocError>
    requires { 1 ≤ count }
    ensures { OnOk result (copies.new.items ++ job.now ∷ [] ≡ replicate count job.now) }
{
    copies.clear();
    for _made in 1..count {
        copies.push(job.try_clone()?)?;
    }
    Ok(())
}

/// Fills the list with a job and copies of it, which are so many together. Gives the turn of the job.
fn copy_all(copies: &mut Vec<Job>, job: Job, count: usize) -> Result<Turn, AllocError>
    requires { 1 ≤ count }
    ensures turn { IfOk result (λ turn. turn ≡ job.turn) }
    ensures copies { OnOk result (copies.new.items ≡ replicate count job) }
{
    fill(copies, &job, count)?;
    let turn = job.turn;
    copies.push(job)?;
    Ok(turn)
}

/// Each line gets one of the jobs. Takes no memory.
fn hand_out<T: SubTable>(lines: &mut [ShardWithJobs<T>], jobs: &mut Vec<Job>)
    requires enough { length jobs.old.items ≡ length lines.old }
    requires room { (place : ℕ) (line : OneLine)
        → slice_get lines.old place ≡ Some line
        → length line.waiting < WINDOW }
    ensures { (job : OneJob)
        → jobs.old.items ≡ replicate (length lines.old) job
        → lines.new ≡ map (line_with_job job) lines.old }
{
    for line in lines {
        let Some(job) = jobs.pop() else {
            // required: there is a job for each line
            unreachable!()
        };
        line.hand_over(job);
    }
}

/// The first line gets the job, and each other one a copy of it. Takes no memory.
fn give<T: SubTable>(lines: &mut [ShardWithJobs<T>], job: Job, copies: &mut Vec<Job>)
    requires enough { length (copies.old.items ++ job ∷ []) ≡ length lines.old }
    requires room { (place : ℕ) (line : OneLine)
        → slice_get lines.old place ≡ Some line
        → length line.waiting < WINDOW }
    ensures { (same : OneJob)
        → copies.old.items ++ job ∷ [] ≡ replicate (length lines.old) same
        → lines.new ≡ map (line_with_job same) lines.old }
{
    let Some((first, others)) = lines.split_first_mut() else {
        // required: there is a line for the job
        unreachable!()
    };
    first.hand_over(job);
    hand_out(others, copies);
}

/// The next turn is issued; the first line gets the job, and each other one a copy of it. Takes no memory.
pub fn issue<T: SubTable, R: Race>(
    race: &mut R,
    lines: &mut [ShardWithJobs<T>],
    job: Job,
    copies: &mut Vec<Job>,
)
    requires ready { MayIssue (R.contents race.old) lines.old }
    requires enough { length (copies.old.items ++ job ∷ []) ≡ length lines.old }
    ensures { AreGiven (R.contents race.old) lines.old (copies.old.items ++ job ∷ [])
        (R.contents race.new) lines.new }
{
    // required: the next turn may be issued
    let Ok(_) = race.issue() else { unreachable!() };
    give(lines, job, copies);
}

/// Takes a frame of a peer; of a message, so many copies of its job are made first.
pub fn take_in(
    side: &mut HubWithSessions,
    frame: &Numbered,
    finished: &Finished,
    copies: &mut Vec<Job>,
    count: usize,
) -> Result<Received, Failure<HubFault>>
    requires { 1 ≤ count }
    ensures { let e = ReceiveFrame frame.now finished.now in
        IsAnswered (hub_refusal side.old.server side.old.hub e)
        (λ received.
        (side.new ≡ side_after side.old (ByHub e))
        × IsReceived side.old.hub frame.now frame.now.body count received copies.new.items)
        (side.new ≡ side.old) result }
{
    if !is_message(frame) {
        side.apply_update(frame, finished)?;
        return Ok(Received::Heard(frame.number()));
    }
    let Some(job) = side.plan_receive(frame, finished)? else {
        // a frame that is a message has a job
        unreachable!()
    };
    let turn = copy_all(copies, job, count)?;
    side.take_message(frame);
    Ok(Received::Routed(turn))
}

/// Of a message each line gets its job; of news none does. Takes no memory.
pub fn route<T: SubTable, R: Race>(
    race: &mut R,
    lines: &mut [ShardWithJobs<T>],
    jobs: &mut Vec<Job>,
    frame: &Numbered,
)
    requires { MayRoute (has_message frame.now.body) (R.contents race.old) lines.old
        jobs.old.items }
    ensures { AreRouted (has_message frame.now.body) (R.contents race.old) lines.old jobs.old.items
        (R.contents race.new) lines.new }
{
    if !is_message(frame) {
        return;
    }
    // required: the next turn may be issued
    let Ok(_) = race.issue() else { unreachable!() };
    hand_out(lines, jobs);
}
