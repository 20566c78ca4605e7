//! Counting the deltas of a shard, and telling the peers of what they change.

ghost use Rattle.std.specs.Prelude.{◌≡◌, not, ◌&&◌, if◌then◌else◌, ⊤, Some, None, IfOk, ℕ, ◌+◌, [], nat_lt};
ghost use Rattle.subj.specs.Answers.{IsAnswered};
ghost use Rattle.subj.specs.declared.limits.TheConstants.{MAX_COUNTER};
ghost use Rattle.hub_core.specs.Events.{Collect, Collected};
ghost use Rattle.hub_core.specs.Hubs.{refusal, DoesStep};
ghost use Rattle.hub_core.specs.declared.faults.HubFault.TheVariants.{Spent};
ghost use Rattle.hub_core.specs.Calls.{IsTellingOf, AreCounted, after_changes};
ghost use Rattle.hub_core.specs.Telling.{collect_refusal, collect_frames};
ghost use Rattle.interest.specs.Told.{counts_told};
ghost use Rattle.interest.specs.Recounts.{IsPlanOf as IsPlanOfCounts, IsRecountOf};

use crate::answers::CollectResult;
use crate::collects::{CollectPlan, frames_of_changes, slow_peers, tell_peers};
use crate::faults::HubFault;
use crate::hub::Hub;
use interest::{Change, DeltaPlan, Recount};
use route_values::Numbered;
use std::alloc::AllocError;
use subj::{Delta, Failure, MAX_COUNTER};

impl Hub {
    /// Why deltas are refused that can be counted and make so many changes of the counts: their numbers would go
    /// beyond the last one. A server that drains tells of none.
    fn count_fault(&self, count: u64) -> Option<HubFault>
        ensures { result
            ≡ (if (not self.now.state.draining
            && nat_lt MAX_COUNTER (self.now.state.changed + count))
            then Some Spent
            else None) }
    {
        (!self.draining && count > MAX_COUNTER - self.changed).then_some(HubFault::Spent)
    }

    /// Of the changes of the counts those that are told: all, and none of a server that drains.
    fn told_of(&self, changes: Vec<Change>) -> Vec<Change>
        ensures { result.items ≡ (if self.now.state.draining then [] else changes.items) }
    {
        if self.draining {
            return Vec::new(self.alloc);
        }
        changes
    }

    /// Why deltas are refused. Keeps no memory. The time grows with the deltas; where there is no memory for a
    /// table of their keys, with their square.
    pub fn collect_fault(&self, deltas: &[Delta]) -> Option<HubFault>
        ensures { result ≡ collect_refusal self.now.state deltas.now }
    {
        match self.counts.counts().changes_of(deltas) {
            None => Some(HubFault::BadInterest),
            Some(count) => self.count_fault(count),
        }
    }

    /// What deltas do that are not refused, where this is what they make of the counts.
    fn telling_of(&self, deltas: &[Delta], plan: DeltaPlan) -> Result<CollectPlan, AllocError>
        requires taken { collect_refusal self.now.state deltas.now ≡ None }
        requires planned { IsPlanOfCounts self.now.state.counts deltas.now (Some plan) }
        ensures { IfOk result (λ plan.
            IsTellingOf self.now deltas.now plan.recount plan.changes.items plan.frames.items
            plan.cut.items) }
    {
        let alloc = self.alloc;
        let DeltaPlan { recount, changes } = plan;
        let changes = self.told_of(changes);
        let frames = frames_of_changes(alloc, &self.server, &self.peers, self.changed, &changes)?;
        let cut = slow_peers(alloc, &self.peers, changes.len())?;
        Ok(CollectPlan {
            recount,
            changes,
            frames,
            cut,
        })
    }

    /// What a collect of these deltas does. It changes nothing, and takes memory only for what changes and
    /// for what is told. The time grows with the deltas, and hardly with the keys that are counted.
    ///
    /// Refused, all of them together, with [`HubFault::BadInterest`] where one could not be counted in its
    /// turn, as [`Local::apply`](interest::Local::apply) tells, and then with [`HubFault::Spent`] where
    /// their changes would go beyond the last number.
    pub fn plan_collect(&self, deltas: &[Delta]) -> Result<CollectPlan, Failure<HubFault>>
        ensures { IsAnswered (collect_refusal self.now.state deltas.now)
            (λ plan.
            IsTellingOf self.now deltas.now plan.recount plan.changes.items plan.frames.items
            plan.cut.items)
            ⊤ result }
    {
        let plan = match self.counts.counts().plan(deltas) {
            Ok(Some(plan)) => plan,
            Ok(None) => return Err(Failure::Refused(HubFault::BadInterest)),
            Err(_) => match self.collect_fault(deltas) {
                Some(fault) => return Err(Failure::Refused(fault)),
                None => return Err(Failure::OutOfMemory),
            },
        };
        if let Some(fault) = self.count_fault(plan.changes.len() as u64) {
            return Err(Failure::Refused(fault));
        }
        Ok(self.telling_of(deltas, plan)?)
    }

    /// Counts deltas, of which this is the recount: so many changes take the next numbers, peers without
    /// room for all of them are cut, and the frames wait for the others.
    fn tell(&mut self, deltas: &[Delta], recount: Recount, count: usize, frames: Vec<Numbered>)
        requires recount { IsRecountOf self.old.state.counts deltas.now recount }
        requires counted { AreCounted self.old.server self.old.state deltas.now count frames.items }
        ensures { self.new ≡ record self.old {
          state =
              after_changes self.old.server self.old.state
              (counts_told self.old.state.counts deltas.now) count frames.items;
        } }
    {
        self.memo = None;
        self.counts.commit(deltas, recount);
        self.changed += count as u64;
        tell_peers(&self.server, &mut self.peers, count, frames);
    }

    /// Counts deltas, and tells of them: their changes take the next numbers, peers without room for all of
    /// them are cut, and the frames wait for the others. Required: the deltas are not refused, and the plan
    /// is the one that [`Hub::plan_collect`] gives for them. Takes no memory.
    pub fn commit_collect(&mut self, deltas: &[Delta], plan: CollectPlan) -> CollectResult
        requires taken { collect_refusal self.old.state deltas.now ≡ None }
        requires planned { IsTellingOf self.old deltas.now plan.recount plan.changes.items
            plan.frames.items plan.cut.items }
        ensures { (shard : ℕ)
            → DoesStep self.old (Collect shard deltas.now)
            (Collected result.changes.items
            (collect_frames self.old.server self.old.state deltas.now) result.cut.items)
            self.new }
    {
        let CollectPlan {
            recount,
            changes,
            frames,
            cut,
        } = plan;
        self.tell(deltas, recount, changes.len(), frames);
        CollectResult { changes, cut }
    }

    /// Counts the deltas of a shard, in their order, and tells each peer that is up of all that they
    /// change, unless the server drains; a peer that has no room for all of it is told nothing, and is cut. It is
    /// [`Hub::plan_collect`] and [`Hub::commit_collect`] together; no deltas change nothing, and cost hardly
    /// anything. Any `Err` leaves all as it was. (NATS documentation, "Cluster Protocol": `RS+` and `RS-`;
    /// numbers, order and cuts: profile.)
    ///
    /// Refused, all of them together, with [`HubFault::BadInterest`] where one could not be counted in its
    /// turn, as [`Local::apply`](interest::Local::apply) tells, and then with [`HubFault::Spent`] where
    /// their changes would go beyond the last number.
    pub fn collect(&mut self, deltas: &[Delta]) -> Result<CollectResult, Failure<HubFault>>
        ensures { (shard : ℕ)
            → IsAnswered (refusal self.old (Collect shard deltas.now))
            (λ told.
            DoesStep self.old (Collect shard deltas.now)
            (Collected told.changes.items (collect_frames self.old.server self.old.state deltas.now)
            told.cut.items)
            self.new)
            (self.new ≡ self.old) result }
    {
        if deltas.is_empty() {
            return Ok(CollectResult::nothing(self.alloc));
        }
        let plan = self.plan_collect(deltas)?;
        Ok(self.commit_collect(deltas, plan))
    }
}
