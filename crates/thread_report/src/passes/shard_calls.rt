//! What callers ask of a shard.

ghost use Rattle.std.specs.Prelude.{◌≡◌, IfOk, List, Some, None, cond, length};
ghost use Rattle.outbox.specs.Views.{Written};
ghost use Rattle.subj.specs.declared.identities.SubId.{SubId as ClosedSub};
ghost use Rattle.thread_report.specs.ShardAnswers.{closed_lists, taken_lists};
ghost use Rattle.thread_report.specs.Owed.{Gains, GainsList, by_server, failed_by, plain};
ghost use Rattle.thread_report.specs.declared.passes.CallAnswer.TheVariants.{Shard};
ghost use Rattle.shard_core.specs.Answers.{answer_of};
ghost use Rattle.node_law.specs.declared.events.ConnEvent.TheVariants as of_conn;
ghost use Rattle.node_law.specs.declared.events.NodeEvent.TheVariants.{Own};
ghost use Rattle.node_law.specs.declared.events.OwnEvent.TheVariants as own;
ghost use Rattle.node_law.specs.declared.events.ShardWork.TheVariants as work;
ghost use Rattle.node_threads.specs.Tapes.{told_of};
ghost use Rattle.node_threads.specs.declared.shard_entries.ShardTold.TheVariants as shard_told;
ghost use Rattle.thread_node.specs.Refusing.{AnswersAt, has_conn, has_shard};

use super::Pass;
use super::answers::{of_shard, part_reply};
use crate::asking::{conn_event_if, event_if, reply_event, subscribe_event, unsubscribe_event};
use crate::shard_lists::ShardLists;
use client_frames::{ErrText, ReplyFrame};
use node_law::{ConnEvent, NodeEvent, NodeFault, OwnEvent, ShardWork};
use node_threads::NodeName;
use shard_core::{ShardFault, Subscribed};
use std::alloc::{AllocError, Global};
use std::sync::Wait;
use sub_table::SubTable;
use subj::{ConnId, Failure, Key, Sid, SubId, Turn};
use thread_node::{
    LockedShard, ThreadNode, told_attached, told_detached, told_drained, told_dropped,
    told_headers, told_replied, told_shut, told_subscribed, told_taken, told_unsubscribed,
};

/// Subscribes under the lock of the shard; what was asked comes along, where calls are written down.
fn subscribed<T: SubTable, N: NodeName>(
    alloc: Global,
    keep: bool,
    locked: &mut LockedShard<T, N>,
    conn: ConnId,
    key: Key,
    sid: Sid,
) -> Result<(Option<NodeEvent>, Result<Subscribed, Failure<ShardFault>>), AllocError>
    ensures { IfOk result (λ made.
        made.0 ≡ cond keep (Some (Own (own.OfConn conn (of_conn.Subscribe key sid)))) None) }
{
    let event = subscribe_event(alloc, keep, conn, &key, &sid)?;
    let done = locked.subscribe(conn, key, sid);
    Ok((event, done))
}

impl<N: NodeName> Pass<N> {
    /// [`ThreadNode::drain_shard`]. May wait.
    pub fn drain_shard<T: SubTable, R: Wait>(
        &mut self,
        rt: &R,
        node: &ThreadNode<T, N>,
        shard: u64,
    ) -> Result<(), Failure<NodeFault>>
        ensures told { Gains N.keep shard (Own (own.AtShard shard work.DrainShard))
            (by_server (λ _. plain shard_told.Drained) result) self.old.calls self.new.calls }
        ensures answers { AnswersAt (has_shard N.race shard) result }
    {
        let keep = node.keeps_tapes();
        let (mut locked, place) = self.enter_shard(rt, node, shard)?;
        let done = locked.drain();
        drop(locked);
        let event = event_if(
            keep,
            NodeEvent::Own(OwnEvent::AtShard {
                shard,
                work: ShardWork::DrainShard,
            }),
        );
        self.tell_decided(keep, shard, place, event, told_drained(&done), done)
    }

    /// [`ThreadNode::attach`]. May wait.
    pub fn attach<T: SubTable, R: Wait>(
        &mut self,
        rt: &R,
        node: &ThreadNode<T, N>,
        shard: u64,
    ) -> Result<ConnId, Failure<NodeFault>>
        ensures told { Gains N.keep shard (Own (own.AtShard shard work.Attach))
            (by_server (λ conn. plain (shard_told.Attached conn)) result) self.old.calls
            self.new.calls }
        ensures answers { AnswersAt (has_shard N.race shard) result }
    {
        let keep = node.keeps_tapes();
        let (mut locked, place) = self.enter_shard(rt, node, shard)?;
        let done = locked.attach();
        drop(locked);
        let event = event_if(
            keep,
            NodeEvent::Own(OwnEvent::AtShard {
                shard,
                work: ShardWork::Attach,
            }),
        );
        self.tell_shard(keep, shard, place, event, told_attached(&done), done)
    }

    /// [`ThreadNode::subscribe`]. May wait.
    pub fn subscribe<T: SubTable, R: Wait>(
        &mut self,
        rt: &R,
        node: &ThreadNode<T, N>,
        shard: u64,
        conn: ConnId,
        key: Key,
        sid: Sid,
    ) -> Result<Subscribed, Failure<NodeFault>>
        ensures told { Gains N.keep shard (Own (own.OfConn conn (of_conn.Subscribe key sid)))
            (by_server (λ done. plain (told_of (answer_of done))) result) self.old.calls
            self.new.calls }
        ensures answers { AnswersAt (has_conn N.race shard conn) result }
    {
        let keep = node.keeps_tapes();
        let (mut locked, place) = self.enter_conn(rt, node, shard, conn)?;
        let (event, done) = subscribed(self.alloc, keep, &mut locked, conn, key, sid)?;
        drop(locked);
        self.tell_shard(keep, shard, place, event, told_subscribed(&done), done)
    }

    /// [`ThreadNode::unsubscribe`]. May wait.
    pub fn unsubscribe<T: SubTable, R: Wait>(
        &mut self,
        rt: &R,
        node: &ThreadNode<T, N>,
        shard: u64,
        conn: ConnId,
        sid: &Sid,
        max: Option<u64>,
    ) -> Result<Option<SubId>, Failure<NodeFault>>
        ensures told { Gains N.keep shard (Own (own.OfConn conn (of_conn.Unsubscribe sid.now max)))
            (by_server (λ ended. plain (shard_told.Unsubscribed ended)) result) self.old.calls
            self.new.calls }
        ensures answers { AnswersAt (has_conn N.race shard conn) result }
    {
        let keep = node.keeps_tapes();
        let (mut locked, place) = self.enter_conn(rt, node, shard, conn)?;
        let event = unsubscribe_event(self.alloc, keep, conn, sid, max)?;
        let done = locked.unsubscribe(conn, sid, max);
        drop(locked);
        self.tell_decided(keep, shard, place, event, told_unsubscribed(&done), done)
    }

    /// [`ThreadNode::reply`]: whether the connection was shut for want of room. [`Pass::lists`] has the subscriptions
    /// that closed with it. May wait.
    pub fn reply<T: SubTable, R: Wait>(
        &mut self,
        rt: &R,
        node: &ThreadNode<T, N>,
        shard: u64,
        conn: ConnId,
        frame: &ReplyFrame,
    ) -> Result<bool, Failure<NodeFault>>
        ensures told { GainsList (List ClosedSub) N.keep shard
            (Own (own.OfConn conn (of_conn.Reply frame.now))) failed_by
            (λ shut ended. Shard (shard_told.Replied shut (length ended)) (closed_lists ended))
            result self.old.calls self.new.calls }
        ensures answers { AnswersAt (has_conn N.race shard conn) result }
    {
        let keep = node.keeps_tapes();
        let (mut locked, place) = self.enter_conn(rt, node, shard, conn)?;
        let event = reply_event(keep, conn, frame)?;
        let done = locked.reply(conn, frame);
        drop(locked);
        let told = told_replied(&done);
        let (ended, done) = part_reply(self.alloc, done);
        let lists = ShardLists::of_closed(self.alloc, ended);
        self.tell_lists(keep, shard, place, event, of_shard(told, lists), done)
    }

    /// [`ThreadNode::set_headers`]. May wait.
    pub fn set_headers<T: SubTable, R: Wait>(
        &mut self,
        rt: &R,
        node: &ThreadNode<T, N>,
        shard: u64,
        conn: ConnId,
        on: bool,
    ) -> Result<(), Failure<NodeFault>>
        ensures told { Gains N.keep shard (Own (own.OfConn conn (of_conn.SetHeaders on)))
            (by_server (λ _. plain shard_told.HeadersSet) result) self.old.calls self.new.calls }
        ensures answers { AnswersAt (has_conn N.race shard conn) result }
    {
        let keep = node.keeps_tapes();
        let (mut locked, place) = self.enter_conn(rt, node, shard, conn)?;
        let done = locked.set_headers(conn, on);
        drop(locked);
        let event = conn_event_if(keep, conn, ConnEvent::SetHeaders { on });
        self.tell_decided(keep, shard, place, event, told_headers(&done), done)
    }

    /// [`ThreadNode::shut`]; [`Pass::lists`] has the subscriptions that closed. May wait.
    pub fn shut<T: SubTable, R: Wait>(
        &mut self,
        rt: &R,
        node: &ThreadNode<T, N>,
        shard: u64,
        conn: ConnId,
        text: ErrText,
    ) -> Result<(), Failure<NodeFault>>
        ensures told { GainsList (List ClosedSub) N.keep shard
            (Own (own.OfConn conn (of_conn.Shut text))) failed_by
            (λ _ ended. Shard (shard_told.WasShut (length ended)) (closed_lists ended)) result
            self.old.calls self.new.calls }
        ensures answers { AnswersAt (has_conn N.race shard conn) result }
    {
        let keep = node.keeps_tapes();
        let (mut locked, place) = self.enter_conn(rt, node, shard, conn)?;
        let done = locked.shut(conn, text);
        drop(locked);
        let event = conn_event_if(keep, conn, ConnEvent::Shut { text });
        self.tell_closed(keep, shard, place, event, told_shut(&done), done)
    }

    /// [`ThreadNode::detach`]; [`Pass::lists`] has the subscriptions that closed. May wait.
    pub fn detach<T: SubTable, R: Wait>(
        &mut self,
        rt: &R,
        node: &ThreadNode<T, N>,
        shard: u64,
        conn: ConnId,
    ) -> Result<(), Failure<NodeFault>>
        ensures told { GainsList (List ClosedSub) N.keep shard
            (Own (own.OfConn conn of_conn.Detach)) failed_by
            (λ _ ended. Shard (shard_told.Detached (length ended)) (closed_lists ended)) result
            self.old.calls self.new.calls }
        ensures answers { AnswersAt (has_conn N.race shard conn) result }
    {
        let keep = node.keeps_tapes();
        let (mut locked, place) = self.enter_conn(rt, node, shard, conn)?;
        let done = locked.detach(conn);
        drop(locked);
        let event = conn_event_if(keep, conn, ConnEvent::Detach);
        self.tell_closed(keep, shard, place, event, told_detached(&done), done)
    }

    /// [`ThreadNode::take`]; [`Pass::lists`] has the entries. May wait.
    pub fn take<T: SubTable, R: Wait>(
        &mut self,
        rt: &R,
        node: &ThreadNode<T, N>,
        shard: u64,
        conn: ConnId,
        count: usize,
    ) -> Result<(), Failure<NodeFault>>
        ensures told { GainsList (List Written) N.keep shard
            (Own (own.OfConn conn (of_conn.Take count))) failed_by
            (λ _ entries. Shard (shard_told.Taken (length entries)) (taken_lists entries)) result
            self.old.calls self.new.calls }
        ensures answers { AnswersAt (has_conn N.race shard conn) result }
    {
        let keep = node.keeps_tapes();
        let (mut locked, place) = self.enter_conn(rt, node, shard, conn)?;
        let done = locked.take(conn, count);
        drop(locked);
        let event = conn_event_if(keep, conn, ConnEvent::Take { count });
        self.tell_taken(keep, shard, place, event, told_taken(&done), done)
    }

    /// [`ThreadNode::drop_job`]. May wait.
    pub fn drop_job<T: SubTable, R: Wait>(
        &mut self,
        rt: &R,
        node: &ThreadNode<T, N>,
        shard: u64,
    ) -> Result<Turn, Failure<NodeFault>>
        ensures told { Gains N.keep shard (Own (own.AtShard shard work.DropJob))
            (by_server (λ turn. plain (shard_told.Dropped (Some turn))) result) self.old.calls
            self.new.calls }
        ensures answers { AnswersAt (has_shard N.race shard) result }
    {
        let keep = node.keeps_tapes();
        let (mut locked, place) = self.enter_shard(rt, node, shard)?;
        let done = locked.drop_job(rt);
        drop(locked);
        let event = event_if(
            keep,
            NodeEvent::Own(OwnEvent::AtShard {
                shard,
                work: ShardWork::DropJob,
            }),
        );
        self.tell_shard(keep, shard, place, event, told_dropped(&done), done)
    }
}
