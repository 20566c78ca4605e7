//! A run of jobs that claim one queue name, worked in one call.

ghost use Rattle.std.specs.Prelude.{◌≡◌, length};
ghost use Rattle.shard_core.specs.ClaimRuns.{MayClaimRun, WorksClaims};

use super::{Shard, drop_candidate};
use crate::claim_run::{ClaimJobs, Claims, work_claims};
use job_block::JobSlice;
use sub_table::SubTable;

impl<T: SubTable> Shard<T> {
    /// Works as many of these jobs as it can in one call, from the first on: each as by [`Shard::begin`], [`Shard::candidate`] and
    /// [`Shard::place`] for its queue name, and [`Shard::end`]. Gives how many jobs these were.
    ///
    /// None where the first one has to go that way: where a job is in hand, or the turn is not the one behind the last that was finished; where it
    /// claims no queue name or several, has a header block or a long payload; where many receive its subject, or one of these has no queue name, or
    /// is a member with a maximum, with a long id or with little room; and for want of memory. Required: the seat is of this race, its shard has
    /// finished what this one has, has claimed nothing since, and has seen that a turn is issued for each of these jobs.
    pub fn work_claims<S, C: Claims<S>>(
        &mut self,
        jobs: &JobSlice<'_>,
        race: &C,
        seat: &mut S,
    ) -> usize
        requires race { C.seats race.now (C.fixed seat.old) }
        requires first { MayClaimRun self.old.state.finished (length jobs.now) (C.part seat.old) }
        ensures fixed { C.fixed seat.new ≡ C.fixed seat.old }
        ensures worked { WorksClaims jobs.now result self.old self.new (C.part seat.old)
            (C.part seat.new) }
    {
        drop_candidate(&mut self.conns, &mut self.chosen);
        if self.hand.is_some() {
            return 0;
        }
        if jobs.is_empty() {
            return 0;
        }
        let Some(claims) = ClaimJobs::of(self.shard, self.finished, jobs) else {
            return 0;
        };
        let worked = work_claims(
            &mut self.claims,
            &mut self.conns,
            &mut self.dirty_conns,
            &mut self.openings,
            &claims,
            race,
            seat,
        );
        if worked == 0 {
            return 0;
        }
        self.finished = claims.turn(worked - 1);
        self.next_index = 0;
        worked
    }
}
