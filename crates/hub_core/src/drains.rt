//! A drain: the peers are told that the server has no interest any more, and of none from then on.

ghost use Rattle.std.specs.Prelude.{◌≡◌, None, ⊤};
ghost use Rattle.subj.specs.Answers.{IsAnswered};
ghost use Rattle.hub_core.specs.Calls.{IsDrainOf};
ghost use Rattle.hub_core.specs.Events.{Drain, Drained};
ghost use Rattle.hub_core.specs.Hubs.{refusal, DoesStep};
ghost use Rattle.hub_core.specs.Telling.{drain_refusal, drain_frames};

use crate::collects::{frames_of_changes, slow_peers, tell_peers};
use crate::faults::HubFault;
use crate::hub::Hub;
use interest::Change;
use route_values::Numbered;
use std::slice;
use subj::{Failure, MAX_COUNTER};

/// What a drain does, found before anything is changed.
#[derive(Drop)]
pub struct DrainPlan {
    /// The frames that tell the peers that there is no interest any more.
    pub frames: Vec<Numbered>,
    /// The peers that are cut since they have no room for theirs, by their places.
    pub cut: Vec<usize>,
}

impl Hub {
    /// Why [`Hub::drain`] refuses. Takes no memory.
    pub fn drain_fault(&self) -> Option<HubFault>
        ensures { result ≡ drain_refusal self.now.state }
    {
        if self.draining {
            return Some(HubFault::Draining);
        }
        (self.changed >= MAX_COUNTER).then_some(HubFault::Spent)
    }

    /// What a drain does. It changes nothing, and takes memory only for what is told.
    ///
    /// Refused with [`HubFault::Draining`] where the server drains already, and then with
    /// [`HubFault::Spent`] where the last number of a change was used.
    pub fn plan_drain(&self) -> Result<DrainPlan, Failure<HubFault>>
        ensures { IsAnswered (drain_refusal self.now.state)
            (λ plan. IsDrainOf self.now plan.frames.items plan.cut.items) ⊤ result }
    {
        if let Some(fault) = self.drain_fault() {
            return Err(Failure::Refused(fault));
        }
        let alloc = self.alloc;
        let frames = frames_of_changes(
            alloc,
            &self.server,
            &self.peers,
            self.changed,
            slice::from_ref(&Change::Clear),
        )?;
        let cut = slow_peers(alloc, &self.peers, 1)?;
        Ok(DrainPlan { frames, cut })
    }

    /// The frames that a drain puts. It changes nothing. Refused as [`Hub::drain`] is.
    pub fn frames_of_drain(&self) -> Result<Vec<Numbered>, Failure<HubFault>>
        ensures { IsAnswered (drain_refusal self.now.state)
            (λ frames. frames.items ≡ drain_frames self.now.server self.now.state) ⊤ result }
    {
        let plan = self.plan_drain()?;
        Ok(plan.frames)
    }

    /// Drains: the change that clears takes the next number, peers without room for it are cut, and its frames wait
    /// for the others. Gives the places of those cut. Required: the drain is not refused, and the plan is the one that
    /// [`Hub::plan_drain`] gives. Takes no memory.
    pub fn commit_drain(&mut self, plan: DrainPlan) -> Vec<usize>
        requires taken { drain_refusal self.old.state ≡ None }
        requires planned { IsDrainOf self.old plan.frames.items plan.cut.items }
        ensures { DoesStep self.old Drain
            (Drained (drain_frames self.old.server self.old.state) result.items) self.new }
    {
        let DrainPlan { frames, cut } = plan;
        self.memo = None;
        self.changed += 1;
        self.draining = true;
        tell_peers(&self.server, &mut self.peers, 1, frames);
        cut
    }

    /// Tells each peer that is up, by a snapshot without keys, that the server has no interest any more, and tells of
    /// none from then on; a peer that has no room for it is cut. Interest is counted on. It is [`Hub::plan_drain`] and
    /// [`Hub::commit_drain`] together. Any `Err` leaves all as it was. (Profile.)
    pub fn drain(&mut self) -> Result<Vec<usize>, Failure<HubFault>>
        ensures { IsAnswered (refusal self.old Drain)
            (λ cut.
            DoesStep self.old Drain
            (Drained (drain_frames self.old.server self.old.state) cut.items) self.new)
            (self.new ≡ self.old) result }
    {
        let plan = self.plan_drain()?;
        Ok(self.commit_drain(plan))
    }
}
