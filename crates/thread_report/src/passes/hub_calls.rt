//! What callers ask of the hub and its sessions.

ghost use Rattle.std.specs.Prelude.{ℕ, List, length};
ghost use Rattle.interest.specs.declared.changes.Change.{Change as ToldChange};
ghost use Rattle.route_values.specs.Frames.{Frame};
ghost use Rattle.thread_report.specs.HubAnswers.{collected_lists, cut_lists, frame_lists};
ghost use Rattle.thread_report.specs.Owed.{Gains, GainsList, by_hub, by_sessions, failed_by, failed_by_hub};
ghost use Rattle.thread_report.specs.declared.passes.CallAnswer.TheVariants.{Hub};
ghost use Rattle.node_law.specs.declared.events.NodeEvent.TheVariants.{Own, Receive, OnInfo, OnConnect};
ghost use Rattle.node_law.specs.declared.events.OwnEvent.TheVariants as own;
ghost use Rattle.thread_node.specs.HubTapes.{of_received};
ghost use Rattle.thread_node.specs.Refusing.{AnswersAt, has_shard};
ghost use Rattle.thread_node.specs.declared.hub_entries.HubTold.TheVariants as hub_told;

use super::Pass;
use super::answers::{of_hub, part_collect, part_list};
use crate::asking::{event_if, publish_event, receive_event};
use crate::hub_lists::HubLists;
use hub_core::HubFault;
use node_law::{NodeEvent, NodeFault, OwnEvent};
use node_parts::{Issued, Received};
use node_threads::NodeName;
use route_session::{Kept, SessionFault, SessionId};
use route_values::{Numbered, RouteConnect, RouteInfo};
use std::sync::Wait;
use sub_table::SubTable;
use subj::{ConnId, Failure, Pub};
use thread_node::{
    ThreadNode, answered_by_hub, told_accepted, told_collected, told_connected, told_cut,
    told_dialed, told_frames, told_hub_drained, told_info, told_issued, told_received,
};

/// [`ThreadNode::publish`], with the place that it has under the hub's lock. May wait.
fn published<T: SubTable, N: NodeName, R: Wait>(
    rt: &R,
    node: &ThreadNode<T, N>,
    conn: ConnId,
    publication: &Pub,
    word: u64,
) -> (usize, Result<Issued, Failure<HubFault>>) {
    let mut hub = node.hub(rt);
    let place = hub.entries_kept();
    let done = hub.publish(conn, publication, word);
    hub.push_jobs(rt);
    drop(hub);
    node.unpark_workers();
    (place, done)
}

/// [`LockedHub::receive`], with the place that it has under the hub's lock. May wait.
fn received<T: SubTable, N: NodeName, R: Wait>(
    rt: &R,
    node: &ThreadNode<T, N>,
    frame: &Numbered,
) -> (usize, Result<Received, Failure<HubFault>>) {
    let mut hub = node.hub(rt);
    let place = hub.entries_kept();
    let done = hub.receive(frame);
    hub.push_jobs(rt);
    drop(hub);
    node.unpark_workers();
    (place, done)
}

impl<N: NodeName> Pass<N> {
    /// [`ThreadNode::publish`]. May wait.
    pub fn publish<T: SubTable, R: Wait>(
        &mut self,
        rt: &R,
        node: &ThreadNode<T, N>,
        conn: ConnId,
        publication: &Pub,
        word: u64,
    ) -> Result<Issued, Failure<HubFault>>
        ensures told { Gains N.keep 0 (Own (own.Publish conn publication.now word))
            (by_hub (λ issued. hub_told.Issued issued.turn issued.frames) result) self.old.calls
            self.new.calls }
    {
        let keep = node.keeps_tapes();
        self.grow(keep)?;
        let event = publish_event(keep, conn, publication, word)?;
        let (place, done) = published(rt, node, conn, publication, word);
        self.tell_hub(keep, place, event, told_issued(&done));
        done
    }

    /// [`LockedHub::receive`]. May wait.
    pub fn receive<T: SubTable, R: Wait>(
        &mut self,
        rt: &R,
        node: &ThreadNode<T, N>,
        frame: &Numbered,
    ) -> Result<Received, Failure<HubFault>>
        ensures told { Gains N.keep 0 (Receive frame.now)
            (by_hub (λ received. of_received received) result) self.old.calls self.new.calls }
    {
        let keep = node.keeps_tapes();
        self.grow(keep)?;
        let event = receive_event(self.alloc, keep, frame)?;
        let (place, done) = received(rt, node, frame);
        self.tell_hub(keep, place, event, told_received(&done));
        done
    }

    /// [`LockedHub::dial`]. May wait.
    pub fn dial<T: SubTable, R: Wait>(
        &mut self,
        rt: &R,
        node: &ThreadNode<T, N>,
        peer: usize,
    ) -> Result<SessionId, Failure<SessionFault>>
        ensures told { Gains N.keep 0 (Own (own.Dial peer))
            (by_sessions (λ session. hub_told.Dialed session) result) self.old.calls
            self.new.calls }
    {
        let keep = node.keeps_tapes();
        let (mut hub, place) = self.enter_hub(rt, node)?;
        let done = hub.dial(peer);
        drop(hub);
        let event = event_if(keep, NodeEvent::Own(OwnEvent::Dial { peer }));
        self.tell_hub(keep, place, event, told_dialed(&done));
        done
    }

    /// [`LockedHub::accept`]. May wait.
    pub fn accept<T: SubTable, R: Wait>(
        &mut self,
        rt: &R,
        node: &ThreadNode<T, N>,
    ) -> Result<(SessionId, RouteInfo), Failure<SessionFault>>
        ensures told { Gains N.keep 0 (Own own.Accept)
            (by_sessions (λ given. hub_told.Accepted given.0 given.1) result) self.old.calls
            self.new.calls }
    {
        let keep = node.keeps_tapes();
        let (mut hub, place) = self.enter_hub(rt, node)?;
        let done = hub.accept();
        drop(hub);
        let event = event_if(keep, NodeEvent::Own(OwnEvent::Accept));
        self.tell_hub(keep, place, event, told_accepted(&done));
        done
    }

    /// [`LockedHub::info`]. May wait.
    pub fn info<T: SubTable, R: Wait>(
        &mut self,
        rt: &R,
        node: &ThreadNode<T, N>,
        session: SessionId,
        info: &RouteInfo,
    ) -> Result<(Kept, RouteConnect), Failure<SessionFault>>
        ensures told { Gains N.keep 0 (OnInfo session info.now)
            (by_sessions (λ kept. hub_told.KeptAfterInfo kept.0.instead_of kept.1) result)
            self.old.calls self.new.calls }
    {
        let keep = node.keeps_tapes();
        let (mut hub, place) = self.enter_hub(rt, node)?;
        let done = hub.info(session, info);
        drop(hub);
        let event = event_if(
            keep,
            NodeEvent::OnInfo {
                session,
                info: *info,
            },
        );
        self.tell_hub(keep, place, event, told_info(&done));
        done
    }

    /// [`LockedHub::connect`]. May wait.
    pub fn connect<T: SubTable, R: Wait>(
        &mut self,
        rt: &R,
        node: &ThreadNode<T, N>,
        session: SessionId,
        connect: &RouteConnect,
    ) -> Result<Kept, Failure<SessionFault>>
        ensures told { Gains N.keep 0 (OnConnect session connect.now)
            (by_sessions (λ kept. hub_told.Kept kept.instead_of) result) self.old.calls
            self.new.calls }
    {
        let keep = node.keeps_tapes();
        let (mut hub, place) = self.enter_hub(rt, node)?;
        let done = hub.connect(session, connect);
        drop(hub);
        let event = event_if(
            keep,
            NodeEvent::OnConnect {
                session,
                connect: *connect,
            },
        );
        self.tell_hub(keep, place, event, told_connected(&done));
        done
    }

    /// [`LockedHub::cut`]. May wait.
    pub fn cut<T: SubTable, R: Wait>(
        &mut self,
        rt: &R,
        node: &ThreadNode<T, N>,
        session: SessionId,
    ) -> Result<Option<usize>, Failure<SessionFault>>
        ensures told { Gains N.keep 0 (Own (own.CutSession session))
            (by_sessions (λ peer. hub_told.WasCut peer) result) self.old.calls self.new.calls }
    {
        let keep = node.keeps_tapes();
        let (mut hub, place) = self.enter_hub(rt, node)?;
        let done = hub.cut(session);
        drop(hub);
        let event = event_if(keep, NodeEvent::Own(OwnEvent::CutSession { session }));
        self.tell_hub(keep, place, event, told_cut(&done));
        match done {
            Ok(peer) => Ok(peer),
            Err(fault) => Err(Failure::Refused(fault)),
        }
    }

    /// [`LockedHub::take_frames`]; [`Pass::hub_lists`] has the frames. May wait.
    pub fn take_frames<T: SubTable, R: Wait>(
        &mut self,
        rt: &R,
        node: &ThreadNode<T, N>,
        peer: usize,
        count: usize,
    ) -> Result<(), Failure<HubFault>>
        ensures told { GainsList (List Frame) N.keep 0 (Own (own.TakeFrames peer count))
            failed_by_hub
            (λ _ frames. Hub (hub_told.Taken (length frames)) (frame_lists frames)) result
            self.old.calls self.new.calls }
    {
        let keep = node.keeps_tapes();
        let (mut hub, place) = self.enter_hub(rt, node)?;
        let done = hub.take_frames(peer, count);
        drop(hub);
        let event = event_if(keep, NodeEvent::Own(OwnEvent::TakeFrames { peer, count }));
        let told = told_frames(&done);
        let (frames, done) = part_list(self.alloc, done);
        let lists = HubLists::of_frames(self.alloc, frames);
        self.tell(keep, 0, place, event, of_hub(told, lists));
        done
    }

    /// [`ThreadNode::collect`]; [`Pass::hub_lists`] has what the peers are told of it. May wait.
    pub fn collect<T: SubTable, R: Wait>(
        &mut self,
        rt: &R,
        node: &ThreadNode<T, N>,
        shard: u64,
    ) -> Result<(), Failure<NodeFault>>
        ensures told { GainsList (List ToldChange × List ℕ) N.keep 0 (Own (own.Collect shard))
            failed_by
            (λ _ told.
            Hub (hub_told.Collected (length told.0) (length told.1)) (collected_lists told))
            result self.old.calls self.new.calls }
        ensures answers { AnswersAt (has_shard N.race shard) result }
    {
        let keep = node.keeps_tapes();
        let mut hub = node.hub(rt);
        let place = hub.entries_kept();
        let (mut of_shard, _) = self.enter_shard(rt, node, shard)?;
        let done = hub.collect(&mut of_shard);
        drop(of_shard);
        drop(hub);
        let event = event_if(keep, NodeEvent::Own(OwnEvent::Collect { shard }));
        let told = told_collected(&done);
        let (collected, done) = part_collect(self.alloc, done);
        let lists = HubLists::of_collect(self.alloc, collected);
        self.tell(keep, 0, place, event, of_hub(told, lists));
        answered_by_hub(done)
    }

    /// [`ThreadNode::drain_hub`]; [`Pass::hub_lists`] has the peers that are cut. May wait.
    pub fn drain_hub<T: SubTable, R: Wait>(
        &mut self,
        rt: &R,
        node: &ThreadNode<T, N>,
    ) -> Result<(), Failure<HubFault>>
        ensures told { GainsList (List ℕ) N.keep 0 (Own own.Drain) failed_by_hub
            (λ _ cut. Hub (hub_told.Collected 1 (length cut)) (cut_lists cut)) result
            self.old.calls self.new.calls }
    {
        let keep = node.keeps_tapes();
        let (mut hub, place) = self.enter_hub(rt, node)?;
        let done = hub.drain();
        drop(hub);
        let event = event_if(keep, NodeEvent::Own(OwnEvent::Drain));
        let told = told_hub_drained(&done);
        let (cut, done) = part_list(self.alloc, done);
        let lists = HubLists::of_cut(self.alloc, cut);
        self.tell(keep, 0, place, event, of_hub(told, lists));
        done
    }
}
