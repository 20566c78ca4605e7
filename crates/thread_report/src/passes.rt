//! What each caller asked, and what it was answered: what a pass keeps of each call. The calls themselves are
//! `hub_calls` and `shard_calls`, and `answers` parts an answer into what the pass keeps and what the caller is told.

ghost use Rattle.std.specs.Prelude.{◌≡◌, ◌<◌, ◌-◌, ℕ, List, [], true, Some, None, cond, length, slice_get, IfErr, IfOk, OnOk};
ghost use Rattle.std.specs.Option.{option_copied, option_map};
ghost use Rattle.node_law.specs.declared.events.NodeEvent.{NodeEvent};
ghost use Rattle.outbox.specs.Views.{Written};
ghost use Rattle.subj.specs.declared.identities.SubId.{SubId as ClosedSub};
ghost use Rattle.thread_report.specs.ShardAnswers.{closed_lists, taken_lists};
ghost use Rattle.thread_report.specs.declared.passes.CallAnswer.TheVariants.{Shard};
ghost use Rattle.node_threads.specs.declared.shard_entries.ShardTold.TheVariants as shard_told;
ghost use Rattle.thread_report.specs.Owed.{Gains, GainsList, IsInOrder, by_server, by_shard, failed_by, hub_lists_kept, lists_kept, plain, plain_of_hub};
ghost use Rattle.thread_report.specs.declared.passes.Call.{Call};
ghost use Rattle.thread_report.specs.declared.passes.CallAnswer.{CallAnswer};
ghost use Rattle.node_threads.specs.declared.shard_entries.ShardTold.{ShardTold};
ghost use Rattle.thread_node.specs.Told.{of_decision, told_of_shard};
ghost use Rattle.thread_node.specs.Refusing.{AnswersAt, has_conn, has_shard};

mod answers;
mod hub_calls;
mod shard_calls;

use self::answers::{of_hub, of_shard, part_list};
use crate::hub_lists::HubLists;
use crate::order::are_rising;
use crate::shard_lists::ShardLists;
use node_law::{NodeEvent, NodeFault};
use node_threads::{NodeName, ShardTold};
use outbox::Entry;
use shard_core::ShardFault;
use std::alloc::{AllocError, Global};
use std::marker::{Model, PhantomData};
use std::sync::Wait;
use sub_table::SubTable;
use subj::{ConnId, Failure, SubId};
use thread_node::{HubSection, HubTold, NO_SHARD, ShardSection, ThreadNode, answered_by_shard};

/// What a call answered, one of the hub's or one of a shard's, with its lists.
#[derive(Drop)]
pub enum CallAnswer {
    Hub { told: HubTold, lists: HubLists },
    Shard { told: ShardTold, lists: ShardLists },
}

/// A call: under which lock it was made, the hub's (0) or that of the shard of this number; its place among what is
/// written down there, from 0; what was asked; and what it answered, or why it was refused.
#[derive(Drop)]
pub struct Call {
    pub lock: u64,
    pub place: usize,
    pub event: NodeEvent,
    pub told: CallAnswer,
}

/// The calls that one caller made of the server that N names, in order. (Profile.)
///
/// Each call is that of [`ThreadNode`] of the same name. Where what is done is written down, the pass gains it, with
/// what was asked, and what was answered or why it was refused. Want of memory and [`NodeFault::NoShard`] leave it as
/// it was: nothing was done then, and no lock of a shard was taken. It grows before the call is made: so where there
/// is no memory for that, no call is made, whether it would have been refused or not.
///
/// The lists of an answer stay with the pass, which lends them: of a shard the closed subscriptions and the entries that
/// are taken ([`Pass::lists`]), of the hub the changes, the frames that are taken and the peers that are cut
/// ([`Pass::hub_lists`]). What a caller sees of them is what is compared at the end.
///
/// Seen as their list, and how many more it has room for.
pub struct Pass<N: NodeName> {
    calls: Vec<Call>,
    /// The last answer, where calls are not written down.
    unwritten: Option<CallAnswer>,
    of: PhantomData<N>,
    alloc: Global,
}

/// One call, also for crates above: `docs/PROVING.md`, "What a proof costs".
impl<N: NodeName> Drop for Pass<N> {
    fn drop(self) {
        let Pass {
            calls: _,
            unwritten: _,
            of: _,
            alloc: _,
        } = self;
    }
}

impl<N: NodeName> Model for Pass<N> {
    ghost use Rattle.std.specs.Prelude.{◌-◌, vec_len, vec_capacity};
    ghost use Rattle.thread_report.specs.Owed.{PassCalls};

    ghost Value = { PassCalls };

    ghost view = { λ s. record {
      calls = s.calls.items;
      room = vec_capacity s.calls - vec_len s.calls;
    } };
}

impl<N: NodeName> Pass<N> {
    /// Of a caller that has made no call.
    pub fn new(alloc: Global) -> Pass<N>
        ensures { result.calls ≡ [] }
    {
        Pass {
            calls: Vec::new(alloc),
            unwritten: None,
            of: PhantomData,
            alloc,
        }
    }

    /// What its copies and its lists are made by.
    fn alloc(&self) -> Global {
        self.alloc
    }

    /// Makes room for one more call, where calls are written down.
    fn grow(&mut self, keep: bool) -> Result<(), AllocError>
        ensures same { self.new.calls ≡ self.old.calls }
        ensures room { OnOk result (keep ≡ true → 0 < self.new.room) }
    {
        if !keep {
            return Ok(());
        }
        self.calls.reserve(1)
    }

    /// The last answer: of the last call, where calls are written down.
    fn last(&self) -> Option<&CallAnswer>
        ensures { (last : Call)
            → slice_get self.now.calls (length self.now.calls - 1) ≡ Some last
            → option_copied result ≡ Some last.told }
    {
        match self.calls.as_slice().last() {
            Some(call) => Some(&call.told),
            None => self.unwritten.as_ref(),
        }
    }

    /// The lists of the last answer, if a shard gave it: of the last call, where calls are written down.
    pub fn lists(&self) -> Option<&ShardLists>
        ensures { (last : Call)
            → slice_get self.now.calls (length self.now.calls - 1) ≡ Some last
            → option_copied result ≡ lists_kept last.told }
    {
        match self.last() {
            Some(CallAnswer::Shard { lists, .. }) => Some(lists),
            _ => None,
        }
    }

    /// The same if the hub or the sessions gave it.
    pub fn hub_lists(&self) -> Option<&HubLists>
        ensures { (last : Call)
            → slice_get self.now.calls (length self.now.calls - 1) ≡ Some last
            → option_copied result ≡ hub_lists_kept last.told }
    {
        match self.last() {
            Some(CallAnswer::Hub { lists, .. }) => Some(lists),
            _ => None,
        }
    }

    /// Adds a call behind the others, where calls are written down and there is something to tell. Takes no memory.
    fn tell(
        &mut self,
        keep: bool,
        lock: u64,
        place: usize,
        event: Option<NodeEvent>,
        told: Option<CallAnswer>,
    )
        requires room { keep ≡ true → 0 < self.old.room }
        ensures { (e : NodeEvent)
            → event ≡ cond keep (Some e) None
            → Gains keep lock e told self.old.calls self.new.calls }
    {
        let Some(told) = told else { return };
        if !keep {
            self.unwritten = Some(told);
            return;
        }
        let Some(event) = event else { return };
        self.calls.push_reserved(Call {
            lock,
            place,
            event,
            told,
        });
    }

    /// The same of a call under the hub's lock, whose answer has no lists.
    fn tell_hub(
        &mut self,
        keep: bool,
        place: usize,
        event: Option<NodeEvent>,
        told: Option<HubTold>,
    )
        requires room { keep ≡ true → 0 < self.old.room }
        ensures { (e : NodeEvent)
            → event ≡ cond keep (Some e) None
            → Gains keep 0 e (option_map (λ t. plain_of_hub t) told) self.old.calls
            self.new.calls }
    {
        let told = of_hub(told, HubLists::none(self.alloc()));
        self.tell(keep, 0, place, event, told);
    }

    /// The same of a call under the lock of the shard of this number, which came to this: as its server tells it.
    fn tell_shard<X>(
        &mut self,
        keep: bool,
        shard: u64,
        place: usize,
        event: Option<NodeEvent>,
        told: Option<ShardTold>,
        done: Result<X, Failure<ShardFault>>,
    ) -> Result<X, Failure<NodeFault>>
        requires room { keep ≡ true → 0 < self.old.room }
        ensures told { (e : NodeEvent) (answer : X → ShardTold)
            → event ≡ cond keep (Some e) None
            → told ≡ told_of_shard answer done
            → Gains keep shard e (by_server (λ x. plain (answer x)) result) self.old.calls
            self.new.calls }
        ensures answers { AnswersAt true result }
    {
        let told = of_shard(told, ShardLists::none(self.alloc()));
        self.tell(keep, shard, place, event, told);
        answered_by_shard(done)
    }

    /// The same of a call whose answer has lists, which the pass keeps.
    fn tell_lists<X>(
        &mut self,
        keep: bool,
        shard: u64,
        place: usize,
        event: Option<NodeEvent>,
        told: Option<CallAnswer>,
        done: Result<X, Failure<ShardFault>>,
    ) -> Result<X, Failure<NodeFault>>
        requires room { keep ≡ true → 0 < self.old.room }
        ensures told { (e : NodeEvent) (answer : X → CallAnswer)
            → event ≡ cond keep (Some e) None
            → told ≡ by_shard answer done
            → Gains keep shard e (by_server answer result) self.old.calls self.new.calls }
        ensures answers { AnswersAt true result }
    {
        self.tell(keep, shard, place, event, told);
        answered_by_shard(done)
    }

    /// The same of a call that closes subscriptions.
    fn tell_closed(
        &mut self,
        keep: bool,
        shard: u64,
        place: usize,
        event: Option<NodeEvent>,
        told: Option<ShardTold>,
        done: Result<Vec<SubId>, Failure<ShardFault>>,
    ) -> Result<(), Failure<NodeFault>>
        requires room { keep ≡ true → 0 < self.old.room }
        ensures told { (e : NodeEvent) (answer : ℕ → ShardTold)
            → event ≡ cond keep (Some e) None
            → told ≡ told_of_shard (λ ended. answer (length ended.items)) done
            → GainsList (List ClosedSub) keep shard e failed_by
            (λ _ ended. Shard (answer (length ended)) (closed_lists ended)) result self.old.calls
            self.new.calls }
        ensures answers { AnswersAt true result }
    {
        let (ended, done) = part_list(self.alloc, done);
        let lists = ShardLists::of_closed(self.alloc, ended);
        self.tell_lists(keep, shard, place, event, of_shard(told, lists), done)
    }

    /// The same of a call that takes entries.
    fn tell_taken(
        &mut self,
        keep: bool,
        shard: u64,
        place: usize,
        event: Option<NodeEvent>,
        told: Option<ShardTold>,
        done: Result<Vec<Entry>, Failure<ShardFault>>,
    ) -> Result<(), Failure<NodeFault>>
        requires room { keep ≡ true → 0 < self.old.room }
        ensures told { (e : NodeEvent)
            → event ≡ cond keep (Some e) None
            → told ≡ told_of_shard (λ entries. shard_told.Taken (length entries.items)) done
            → GainsList (List Written) keep shard e failed_by
            (λ _ entries. Shard (shard_told.Taken (length entries)) (taken_lists entries)) result
            self.old.calls self.new.calls }
        ensures answers { AnswersAt true result }
    {
        let (entries, done) = part_list(self.alloc, done);
        let lists = ShardLists::of_taken(self.alloc, entries);
        self.tell_lists(keep, shard, place, event, of_shard(told, lists), done)
    }

    /// The same of a call that takes no memory.
    fn tell_decided<X>(
        &mut self,
        keep: bool,
        shard: u64,
        place: usize,
        event: Option<NodeEvent>,
        told: Option<ShardTold>,
        done: Result<X, ShardFault>,
    ) -> Result<X, Failure<NodeFault>>
        requires room { keep ≡ true → 0 < self.old.room }
        ensures told { (e : NodeEvent) (answer : X → ShardTold)
            → event ≡ cond keep (Some e) None
            → told ≡ told_of_shard answer (of_decision done)
            → Gains keep shard e (by_server (λ x. plain (answer x)) result) self.old.calls
            self.new.calls }
        ensures answers { AnswersAt true result }
    {
        self.tell_shard(keep, shard, place, event, told, as_answer(done))
    }

    /// Makes room for one more call, where calls are written down, and takes the hub's lock: the place that the next
    /// entry has under it comes along. May wait.
    fn enter_hub<'n, T: SubTable, R: Wait>(
        &mut self,
        rt: &R,
        node: &'n ThreadNode<T, N>,
    ) -> Result<(HubSection<'n, N>, usize), AllocError>
        ensures same { self.new.calls ≡ self.old.calls }
        ensures room { IfOk result (λ _. N.keep ≡ true → 0 < self.new.room) }
    {
        self.grow(node.keeps_tapes())?;
        let hub = node.hub(rt);
        let place = hub.entries_kept();
        Ok((hub, place))
    }

    /// The same of the lock of the shard of this number. Refused with [`NodeFault::NoShard`] first. May wait.
    fn enter_shard<'n, T: SubTable, R: Wait>(
        &mut self,
        rt: &R,
        node: &'n ThreadNode<T, N>,
        shard: u64,
    ) -> Result<(ShardSection<'n, T, N>, usize), Failure<NodeFault>>
        ensures same { self.new.calls ≡ self.old.calls }
        ensures room { IfOk result (λ _. N.keep ≡ true → 0 < self.new.room) }
        ensures untold { IfErr result (λ failure.
            (lock : ℕ) (e : NodeEvent)
            → Gains N.keep lock e (failed_by failure) self.old.calls self.new.calls) }
        ensures answers { AnswersAt (has_shard N.race shard) result }
    {
        let Some(locked) = node.shard(rt, shard) else {
            return Err(NO_SHARD);
        };
        self.grow(node.keeps_tapes())?;
        let place = locked.entries_kept();
        Ok((locked, place))
    }

    /// The same for a call on a connection: refused too where the connection is of another shard. May wait.
    fn enter_conn<'n, T: SubTable, R: Wait>(
        &mut self,
        rt: &R,
        node: &'n ThreadNode<T, N>,
        shard: u64,
        conn: ConnId,
    ) -> Result<(ShardSection<'n, T, N>, usize), Failure<NodeFault>>
        ensures same { self.new.calls ≡ self.old.calls }
        ensures room { IfOk result (λ _. N.keep ≡ true → 0 < self.new.room) }
        ensures untold { IfErr result (λ failure.
            (lock : ℕ) (e : NodeEvent)
            → Gains N.keep lock e (failed_by failure) self.old.calls self.new.calls) }
        ensures answers { AnswersAt (has_conn N.race shard conn) result }
    {
        let Some(locked) = node.shard_of_conn(rt, shard, conn) else {
            return Err(NO_SHARD);
        };
        self.grow(node.keeps_tapes())?;
        let place = locked.entries_kept();
        Ok((locked, place))
    }

    /// Whether the calls under each lock stand in the order in which they were made.
    pub(crate) fn is_in_order(&self) -> bool
        ensures { result ≡ true → IsInOrder self.now.calls }
    {
        are_rising(self.calls.as_slice())
    }

    /// The calls.
    pub(crate) fn into_calls(self) -> Vec<Call>
        ensures { result.items ≡ self.calls }
    {
        let Pass {
            calls,
            unwritten: _,
            of: _,
            alloc: _,
        } = self;
        calls
    }
}

/// What a call that takes no memory came to, as that of one that may.
fn as_answer<X>(done: Result<X, ShardFault>) -> Result<X, Failure<ShardFault>>
    ensures { result ≡ of_decision done }
{
    match done {
        Ok(done) => Ok(done),
        Err(fault) => Err(Failure::Refused(fault)),
    }
}
