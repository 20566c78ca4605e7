//! The hub's end of a shard's lane.

ghost use Rattle.std.specs.Prelude.{◌≡◌, ◌-◌, ◌++◌, Some, [], false, slice_get};
ghost use Rattle.job_lane.specs.Turns.{AreNumbered};
ghost use Rattle.node_threads.specs.Outlets.{jobs_owed};

use crate::node_name::NodeName;
use job_lane::{LaneIn, Run};
use std::marker::{Model, PhantomData};
use std::sync::Wait;

/// The end of a shard's lane that runs are pushed at.
///
/// Seen as the shard, all jobs pushed, and whether the lane has the run that is handed out.
#[derive(Drop)]
pub struct LaneSender<N: NodeName> {
    shard: u64,
    lane: LaneIn,
    taken: bool,
    of: PhantomData<N>,
}

impl<N: NodeName> Model for LaneSender<N> {
    ghost use Rattle.std.specs.Prelude.{◌≡◌, ◌-◌, Some, slice_get};
    ghost use Rattle.node_threads.specs.Outlets.{LaneSender};

    ghost Value = { LaneSender };

    ghost view = { λ s. record { shard = s.shard; pushed = s.lane.pushed; taken = s.taken } };

    ghost invariant = { λ s. slice_get N.lanes (s.shard - 1) ≡ Some s.lane.lane };
}

impl<N: NodeName> LaneSender<N> {
    /// The end of the lane of this shard, counted from 1, to which nothing was pushed. Required: the server's
    /// name has it as that shard's lane.
    pub fn new(shard: u64, lane: LaneIn) -> LaneSender<N>
        requires lane { slice_get N.lanes (shard - 1) ≡ Some lane.lane }
        requires fresh { lane.pushed ≡ [] }
        ensures { result ≡ record { shard = shard; pushed = []; taken = false } }
    {
        LaneSender {
            shard,
            lane,
            taken: false,
            of: PhantomData,
        }
    }

    /// Of which shard it is, counted from 1.
    pub fn shard(&self) -> u64
        ensures { result ≡ self.now.shard }
    {
        self.shard
    }

    /// The end of the lane alone.
    pub fn into_lane(self) -> LaneIn
        ensures lane { slice_get N.lanes (self.shard - 1) ≡ Some result.lane }
        ensures pushed { result.pushed ≡ self.pushed }
    {
        let LaneSender { lane, .. } = self;
        lane
    }

    /// Whether the lane has the run that is handed out.
    pub(crate) fn has_taken(&self) -> bool
        ensures { result ≡ self.now.taken }
    {
        self.taken
    }

    /// Another run is handed out.
    pub(crate) fn begin(&mut self)
        ensures { self.new ≡ record self.old { taken = false } }
    {
        self.taken = false;
    }

    /// Pushes the run, unless the lane has it. A lane without room, and want of memory, leave it owed.
    #[tactic(auto, using(crate::proofs::Lanes::Outlets::owed_behind, crate::proofs::Lanes::Outlets::pushed_now))]
    pub(crate) fn offer<R: Wait>(&mut self, rt: &R, run: &Run)
        requires { AreNumbered (self.old.pushed ++ jobs_owed self.old.taken (Some run.now)) }
        ensures { (self.new.shard ≡ self.old.shard)
            × (self.new.pushed ++ jobs_owed self.new.taken (Some run.now)
            ≡ self.old.pushed ++ jobs_owed self.old.taken (Some run.now)) }
    {
        if self.taken {
            return;
        }
        let Ok(copy) = run.try_clone() else {
            return;
        };
        if self.lane.push(rt, copy).is_err() {
            return;
        }
        self.taken = true;
    }
}
