//! A run of jobs, delivered at once.

ghost use Rattle.std.specs.Prelude.{◌≡◌, ◌<◌, ◌≤◌, true, length, slice_get, take, IfOk, IfSome, OnErr, None, Some};
ghost use Rattle.subj.specs.declared.jobs.Job.{Job};
ghost use Rattle.subj.specs.declared.limits.TheConstants.{MAX_COUNTER};
ghost use Rattle.shard_core.specs.Held.{IsLeft};
ghost use Rattle.shard_core.specs.Runs.{DeliversRun};
ghost use Rattle.shard_core.specs.RunSteps.{GoesWith, GoTogether};

use super::{Shard, drop_candidate};
use crate::run_delivery::{Together, jobs_together, may_begin, put_run};
use job_block::{JobSlice, LentJob};
use std::alloc::AllocError;
use sub_table::SubTable;

impl<T: SubTable> Shard<T> {
    /// Whether a run may begin with this job: no other is in hand, it has no header block and claims no queue name, and no run of it was
    /// tried in vain.
    fn may_begin_run(&self, first: &LentJob<'_>) -> bool
        ensures hand { result ≡ true → self.now.state.hand ≡ None }
        ensures begins { result ≡ true → GoesWith first.now first.now }
    {
        self.hand.is_none() && first.turn() > self.tried && may_begin(first)
    }

    /// The next run: how many of these jobs, from the first on, go together, and the turn of the last of them. None where no run may begin with the
    /// first.
    fn next_run(&self, jobs: &JobSlice<'_>) -> Option<Together>
        ensures hand { IfSome result (λ run. self.now.state.hand ≡ None) }
        ensures some { IfSome result (λ run. 0 < run.count) }
        ensures few { IfSome result (λ run. run.count ≤ length jobs.now) }
        ensures together { IfSome result (λ run.
            (first : Job)
            → slice_get jobs.now 0 ≡ Some first
            → GoTogether first self.now.state.finished run.last (take run.count jobs.now)) }
        ensures most { IfSome result (λ run. run.last ≤ MAX_COUNTER) }
    {
        if jobs.is_empty() {
            return None;
        }
        let first = jobs.get(0);
        if !self.may_begin_run(&first) {
            return None;
        }
        let run = jobs_together(self.finished, &first, jobs);
        (run.count > 0).then_some(run)
    }

    /// Delivers as many of these jobs at once as it can, from the first on, and finishes their turns: each receiver gets all its
    /// messages of the run together, which leaves what [`Shard::begin`] and [`Shard::end`] of one job after the other leave, with
    /// nothing closed. Gives how many jobs these were.
    ///
    /// None where the first one has to go that way: where a job is in hand, or the turn is not the one behind the last that was finished; where it
    /// claims a queue name, or has a header block, or a long payload that anyone receives. None either where many receive its subject, or one of the
    /// receivers has a maximum, or its connection is shut, has no room for the whole run, or has another receiver of it. Want of memory leaves the
    /// state as it was.
    pub fn deliver_run(&mut self, jobs: &JobSlice<'_>) -> Result<usize, AllocError>
        ensures ok { IfOk result (λ count. DeliversRun jobs.now count self.old self.new) }
        ensures err { OnErr result (IsLeft self.old self.new) }
    {
        drop_candidate(&mut self.conns, &mut self.chosen);
        let Some(run) = self.next_run(jobs) else {
            return Ok(0);
        };
        let first = jobs.get(0);
        let together = jobs.first(run.count);
        if !put_run(
            &mut self.run,
            &mut self.conns,
            &mut self.dirty_conns,
            &mut self.openings,
            self.shard,
            &first,
            &together,
        )? {
            self.tried = run.last;
            return Ok(0);
        }
        self.finished = run.last;
        self.next_index = 0;
        Ok(run.count)
    }
}
