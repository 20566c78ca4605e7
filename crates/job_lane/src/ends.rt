//! The two ends of a lane.

ghost use Rattle.std.specs.Prelude.{◌≡◌, ◌+◌, ◌<◌, ◌≤◌, List, [], ◌++◌, length, slice_get, None, IfOk, IfSome, IfNone, OnOk, IfErr, MatchOption, vec_len, vec_capacity};
ghost use Rattle.std.specs.Arc.{arc_value};
ghost use Rattle.job_lane.specs.Ends.{ArePopped, HadRoom, IsPopped, LackedRoom, from_hand};
ghost use Rattle.job_lane.specs.Rule.{IsSpare};
ghost use Rattle.job_lane.specs.Runs.{jobs_of};
ghost use Rattle.job_lane.specs.Turns.{AreNumbered, AreNumberedBehind};

use crate::counts::Count;
use crate::rule::{RunPass, RunQueue};
use crate::runs::Run;
use crate::steps::{drain, joined, leave, new_queue, push_counted, put_behind_first, take_next};
use job_block::JobSlice;
use std::alloc::{AllocError, Global};
use std::marker::Model;
use std::sync::{Arc, Wait};
use subj::{Job, Turn, WINDOW};

/// How many jobs can wait in the lane of a shard: one for each turn that may be issued beyond the last
/// one that the shard finished. (Profile.)
pub const LANE_CAPACITY: usize = WINDOW as usize;

/// The end of a lane that runs of jobs are pushed at.
///
/// Seen as the lane it is of, the lane's capacity in jobs, and all jobs pushed so far, in order.
#[derive(Drop)]
pub struct LaneIn {
    queue: Arc<RunQueue, Global>,
    pass: RunPass,
    /// The runs that may wait still.
    count: Count,
    /// Empty, with room for all that can be left, so that [`meet`] takes no memory.
    spare: Vec<Run>,
}

impl Model for LaneIn {
    ghost use Rattle.std.specs.Prelude.{◌≡◌, vec_len, vec_capacity};
    ghost use Rattle.std.specs.Arc.{arc_value};
    ghost use Rattle.crossbeam_queue.specs.Passes.{IsPassOf, ruled_capacity};
    ghost use Rattle.job_lane.specs.Ends.{Writer};
    ghost use Rattle.job_lane.specs.Rule.{AreLastLengths, IsPushing, IsSpare, known_by};
    ghost use Rattle.job_lane.specs.Runs.{jobs_of};

    ghost Value = { Writer };

    ghost view = { λ end. record {
      lane = end.pass.table_id;
      capacity = ruled_capacity (arc_value end.queue);
      pushed = jobs_of (known_by end.pass).pushed;
    } };

    ghost invariant = { λ end.
        IsPassOf (arc_value end.queue) end.pass
        × IsPushing (known_by end.pass)
        × (end.count.most ≡ ruled_capacity (arc_value end.queue))
        × AreLastLengths (known_by end.pass).pushed end.count.lengths
        × IsSpare (ruled_capacity (arc_value end.queue)) end.spare.items (vec_len end.spare)
        (vec_capacity end.spare) };
}

/// The end of a lane that jobs are popped at.
///
/// Seen as the lane it is of, all jobs popped so far, in order, the one of them that is in hand, and the
/// jobs of its run behind it.
#[derive(Drop)]
pub struct LaneOut {
    queue: Arc<RunQueue, Global>,
    pass: RunPass,
    /// The job in hand, and behind it those of its run that were not popped yet.
    run: Option<Run>,
}

impl Model for LaneOut {
    ghost use Rattle.std.specs.Arc.{arc_value};
    ghost use Rattle.crossbeam_queue.specs.Passes.{IsPassOf};
    ghost use Rattle.job_lane.specs.Ends.{Reader};
    ghost use Rattle.job_lane.specs.Rule.{known_by, IsPopping};
    ghost use Rattle.job_lane.specs.Runs.{IsGiving, jobs_given, job_in_hand, jobs_of, not_given};

    ghost Value = { Reader };

    ghost view = { λ end. record {
      lane = end.pass.table_id;
      popped = jobs_given (jobs_of (known_by end.pass).popped) end.run;
      hand = job_in_hand end.run;
      behind = not_given end.run;
    } };

    ghost invariant = { λ end.
        IsPassOf (arc_value end.queue) end.pass
        × IsPopping (known_by end.pass)
        × IsGiving (jobs_of (known_by end.pass).popped) end.run };
}

/// Two owners of the queue.
fn shared(
    alloc: Global,
    queue: RunQueue,
) -> Result<(Arc<RunQueue, Global>, Arc<RunQueue, Global>), AllocError>
    ensures { IfOk result (λ both. (arc_value both.0 ≡ queue) × (arc_value both.1 ≡ queue)) }
{
    let queue = Arc::new(alloc, queue)?;
    let other = Arc::try_clone(&queue)?;
    Ok((queue, other))
}

/// What the end that pushes keeps of a lane in which up to `cap` jobs can wait: the count of no run, and an empty list with room for all
/// that can be left.
fn room_for(alloc: Global, cap: usize) -> Result<(Count, Vec<Run>), AllocError>
    ensures count { IfOk result (λ room. room.0 ≡ record { most = cap; lengths = [] }) }
    ensures spare { IfOk result (λ room.
        IsSpare cap room.1.items (vec_len room.1) (vec_capacity room.1)) }
{
    let count = Count::new(alloc, cap)?;
    let spare = Vec::with_capacity(alloc, cap.checked_add(1).ok_or(AllocError)?)?;
    Ok((count, spare))
}

/// The two ends of a new lane, in which up to `cap` jobs can wait. Required: `cap` is not 0.
///
/// All memory of the lane is taken here: no other call takes any.
pub fn lane(alloc: Global, cap: usize) -> Result<(LaneIn, LaneOut), AllocError>
    requires { 0 < cap }
    ensures of_one { IfOk result (λ ends. ends.0.lane ≡ ends.1.lane) }
    ensures capacity { IfOk result (λ ends. ends.0.capacity ≡ cap) }
    ensures new { IfOk result (λ ends.
        (ends.0.pushed ≡ [])
        × (ends.1.popped ≡ [])
        × (ends.1.hand ≡ None)
        × (ends.1.behind ≡ [])) }
{
    let (queue, pass, reader_pass) = new_queue(alloc, cap)?;
    let (queue, reader_queue) = shared(alloc, queue)?;
    let (count, spare) = room_for(alloc, cap)?;
    Ok((
        LaneIn {
            queue,
            pass,
            count,
            spare,
        },
        LaneOut {
            queue: reader_queue,
            pass: reader_pass,
            run: None,
        },
    ))
}

impl LaneIn {
    /// Puts the jobs of the run behind all others. Required: their turns go on from the number of jobs
    /// pushed so far. (Profile.)
    ///
    /// The run comes back, unchanged, only where at some moment of the call the lane had no room for all
    /// of its jobs; then nothing was pushed. The contract says of that moment that at least so many jobs
    /// had been pushed: how many had been popped, this end alone can't know. The call may wait for other
    /// threads.
    pub fn push<R: Wait>(&mut self, rt: &R, run: Run) -> Result<(), Run>
        requires { AreNumberedBehind (length self.old.pushed) run }
        ensures lane { (self.new.lane ≡ self.old.lane) × (self.new.capacity ≡ self.old.capacity) }
        ensures ok { OnOk result ((self.new.pushed ≡ self.old.pushed ++ run)
            × HadRoom self.old.capacity self.old.pushed (length run)) }
        ensures err { IfErr result (λ back.
            (back ≡ run)
            × (self.new.pushed ≡ self.old.pushed)
            × LackedRoom self.old.capacity self.old.pushed (length run)) }
    {
        push_counted(rt, &self.queue, &mut self.pass, &mut self.count, run)
    }
}

impl LaneOut {
    /// Takes the oldest job that waits into hand, in the place of the one there: its turn. The n-th job
    /// popped has turn n, and is the first of those behind the one in hand, where there are such. (Profile.)
    ///
    /// None comes only where the lane was empty at some moment of the call; nothing was popped, and
    /// no job is in hand. No contract says the first: how many jobs had been pushed, this end alone can't
    /// know. The call may wait for other threads.
    pub fn pop<R: Wait>(&mut self, rt: &R) -> Option<Turn>
        ensures lane { self.new.lane ≡ self.old.lane }
        ensures some { IfSome result (IsPopped self.old self.new) }
        ensures none { IfNone result ((self.new.popped ≡ self.old.popped) × (self.new.hand ≡ None)
            × (self.old.behind ≡ []) × (self.new.behind ≡ [])) }
    {
        take_next(rt, &self.queue, &mut self.pass, &mut self.run)
    }

    /// Pops so many jobs behind the one in hand at once: the last of them is in hand then, in its place.
    /// With 0 all stays as it is. Required: so many are there, so that one more is [`LaneOut::waiting`].
    pub fn pop_behind(&mut self, count: usize)
        requires { count ≤ length self.old.behind }
        ensures { ArePopped count self.old self.new }
    {
        leave(&mut self.run, count);
    }

    /// The job in hand, and the jobs of its run behind it, in order. None where no job is in hand. The job in hand is the one popped
    /// last, until a call of [`LaneOut::pop`] finds none.
    pub fn waiting(&self) -> Option<JobSlice<'_>>
        ensures jobs { MatchOption result (from_hand self.now ≡ []) (λ jobs.
            jobs ≡ from_hand self.now) }
        ensures some { IfSome result (λ jobs. 0 < length jobs) }
        ensures hand { IfSome result (λ jobs. slice_get jobs 0 ≡ self.now.hand) }
        ensures none { IfNone result (self.now.hand ≡ None) }
    {
        match &self.run {
            None => None,
            Some(run) => Some(run.jobs()),
        }
    }

    /// A copy of the job in hand, where one is.
    pub fn hand_copy(&self, alloc: Global) -> Result<Option<Job>, AllocError>
        ensures { IfOk result (λ job. job ≡ self.now.hand) }
    {
        match self.waiting() {
            None => Ok(None),
            Some(jobs) => {
                let job = jobs.get(0).to_job(alloc)?;
                Ok(Some(job))
            }
        }
    }
}

/// The runs with the jobs that were not popped, in order: first what is left of the run in hand. Required:
/// the two ends are of one lane. What was popped, and behind it these jobs, is what was pushed. (Profile.)
///
/// Takes no memory. The call may wait for other threads.
pub fn meet<R: Wait>(rt: &R, writer: LaneIn, reader: LaneOut) -> Vec<Run>
    requires { writer.lane ≡ reader.lane }
    ensures jobs { writer.pushed ≡ reader.popped ++ jobs_of result.items }
    ensures behind { (later : List Job) × (jobs_of result.items ≡ reader.behind ++ later) }
    ensures turns { AreNumbered writer.pushed }
{
    let LaneIn {
        queue,
        pass,
        mut spare,
        ..
    } = writer;
    let LaneOut {
        pass: reader_pass,
        run,
        ..
    } = reader;
    let pass = joined(&queue, pass, reader_pass);
    put_behind_first(&mut spare, run);
    drain(rt, &queue, pass, spare)
}
