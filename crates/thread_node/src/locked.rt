//! What stands under the locks of a server: `node_threads`' state of a shard or of the hub, with the race.

ghost use Rattle.std.specs.Prelude.{◌≡◌, [], option_to_list};
ghost use Rattle.std.specs.Arc.{arc_value};
ghost use Rattle.subj.specs.Answers.{IsAnswered, IsDecided};
ghost use Rattle.hub_core.specs.Chosen.{publication_by};
ghost use Rattle.hub_core.specs.Events.{Drain as HubDrain, Drained, TakeFrom, Taken as FramesTaken};
ghost use Rattle.hub_core.specs.Steps.{hub_refusal};
ghost use Rattle.hub_core.specs.Telling.{drain_frames};
ghost use Rattle.route_session.specs.Events.{Dial, Accept, OnInfo, OnConnect, Cut, Dialed, Accepted, KeptAfterInfo, Kept as WasKept, WasCut};
ghost use Rattle.route_session.specs.Steps.{session_refusal};
ghost use Rattle.node_parts.specs.Sides.{ByHub, BySessions, OfHub, OfSessions, new_side, seen_name};
ghost use Rattle.node_threads.specs.AtHub.{Collects, Does as HubDoes, Publishes, Receives};
ghost use Rattle.node_threads.specs.HubRuns.{IssuesRun};
ghost use Rattle.thread_node.specs.HubTapes.{IsHubTape};
ghost use Rattle.shard_core.specs.Answers.{answer_of};
ghost use Rattle.shard_core.specs.ShardEvents.{Attach, Subscribe, Unsubscribe, Reply, SetHeaders, Shut, Detach, Take, Drain, Drains, Attached, Unsubscribed, Replied, HeadersSet, WasShut, Detached, Taken};
ghost use Rattle.shard_core.specs.Shards.{is_open as opened};
ghost use Rattle.shard_core.specs.ShardSteps.{shard_refusal};
ghost use Rattle.node_threads.specs.AtWork.{Does, TakesBytes, at_start};
ghost use Rattle.node_threads.specs.Tapes.{IsTape};
ghost use Rattle.node_threads.specs.Turns.{Drops, Turns};

use crate::hub_entries::{HubEntry, HubEvent};
use crate::keeping::{
    copy_for, note_given, note_heard, note_hub, note_shard, publish_event, receive_event,
    reply_event, subscribe_event, told_accepted, told_attached, told_bytes, told_collected,
    told_connected, told_cut, told_detached, told_dialed, told_drained, told_frames, told_headers,
    told_hub_drained, told_info, told_issued, told_received, told_replied, told_shut,
    told_subscribed, told_taken, told_unsubscribed, unsubscribe_event,
};
use claim_cells::Cells;
use client_frames::{ErrText, ReplyFrame};
use hub_core::{CollectResult, HubFault};
use node_parts::{Issued, Received};
use node_threads::{Gate, HubState, NodeName, ShardEntry, ShardEvent, ShardState, Tape, Turned};
use outbox::Entry;
use publication_runs::LentRun;
use route_session::{Kept, SessionFault, SessionId};
use route_values::{Numbered, RouteConnect, RouteInfo};
use shard_core::{Closed, DirtyConns, ShardFault, Subscribed};
use std::alloc::Global;
use std::marker::Model;
use std::sync::{Arc, Wait};
use sub_table::SubTable;
use subj::{ConnId, Delta, Failure, Key, Pub, ServerIdentity, Sid, SubId, Turn};

/// What stands under the lock of a shard: its state, with the race, and its tape. (Profile.)
///
/// Seen as the state. Whoever holds the lock may make many calls, one after the other. Each step that they make and
/// each refusal stands on the tape, where one is kept: the tape is all that the shard ever did, and what it refused
/// between.
#[derive(Drop)]
pub struct LockedShard<T: SubTable, N: NodeName> {
    state: ShardState<T, N>,
    cells: Arc<Cells, Global>,
    tape: Tape<ShardEntry>,
    alloc: Global,
}

impl<T: SubTable, N: NodeName> Model for LockedShard<T, N> {
    ghost use Rattle.std.specs.Prelude.{◌≡◌};
    ghost use Rattle.std.specs.Arc.{arc_value};
    ghost use Rattle.node_threads.specs.AtWork.{AtWork};
    ghost use Rattle.node_threads.specs.Tapes.{IsTape};

    ghost Value = { AtWork };

    ghost view = { λ s. s.state };

    ghost invariant = { λ s. (arc_value s.cells ≡ N.race) × IsTape N.race.shards s.state s.tape };
}

impl<T: SubTable, N: NodeName> LockedShard<T, N> {
    /// The state of a shard that has done nothing, with its race; `keep` says whether its steps are written down.
    pub(crate) fn new(
        alloc: Global,
        state: ShardState<T, N>,
        cells: Arc<Cells, Global>,
        keep: bool,
    ) -> LockedShard<T, N>
        requires race { arc_value cells ≡ N.race }
        requires fresh { state ≡ at_start state.part.shard N.race.shards }
        ensures { result ≡ state }
    {
        LockedShard {
            state,
            cells,
            tape: Tape::new(alloc, keep),
            alloc,
        }
    }

    /// Which shard it is, counted from 1.
    pub fn shard(&self) -> u64
        ensures { result ≡ self.now.part.shard }
    {
        self.state.shard()
    }

    /// What its copies are made by.
    pub(crate) fn alloc(&self) -> Global {
        self.alloc
    }

    /// [`ShardState::attach`].
    pub fn attach(&mut self) -> Result<ConnId, Failure<ShardFault>>
        ensures { IsAnswered (shard_refusal self.old.state Attach)
            (λ conn. Does self.old Attach (Attached conn) self.new) (self.new ≡ self.old) result }
    {
        let done = self.state.attach();
        let told = told_attached(&done);
        note_shard(&mut self.tape, Some(ShardEvent::Attach), told);
        done
    }

    /// [`ShardState::subscribe`].
    pub fn subscribe(
        &mut self,
        conn: ConnId,
        key: Key,
        sid: Sid,
    ) -> Result<Subscribed, Failure<ShardFault>>
        ensures { IsAnswered (shard_refusal self.old.state (Subscribe conn key sid))
            (λ done. Does self.old (Subscribe conn key sid) (answer_of done) self.new)
            (self.new ≡ self.old) result }
    {
        let event = subscribe_event(self.alloc, &self.tape, conn, &key, &sid);
        let done = self.state.subscribe(conn, key, sid);
        let told = told_subscribed(&done);
        note_shard(&mut self.tape, event, told);
        done
    }

    /// [`ShardState::unsubscribe`].
    pub fn unsubscribe(
        &mut self,
        conn: ConnId,
        sid: &Sid,
        max: Option<u64>,
    ) -> Result<Option<SubId>, ShardFault>
        ensures { IsDecided (shard_refusal self.old.state (Unsubscribe conn sid.now max))
            (λ ended.
            Does self.old (Unsubscribe conn sid.now max) (Unsubscribed (option_to_list ended))
            self.new)
            (self.new ≡ self.old) result }
    {
        let done = self.state.unsubscribe(conn, sid, max);
        let event = unsubscribe_event(self.alloc, &self.tape, conn, sid, max);
        let told = told_unsubscribed(&done);
        note_shard(&mut self.tape, event, told);
        done
    }

    /// [`ShardState::reply`].
    pub fn reply(&mut self, conn: ConnId, frame: &ReplyFrame) -> Result<Closed, Failure<ShardFault>>
        ensures { IsAnswered (shard_refusal self.old.state (Reply conn frame.now))
            (λ closed.
            Does self.old (Reply conn frame.now) (Replied closed.shut closed.ended.items) self.new)
            (self.new ≡ self.old) result }
    {
        let done = self.state.reply(conn, frame);
        let event = reply_event(&self.tape, conn, frame);
        let told = told_replied(&done);
        note_shard(&mut self.tape, event, told);
        done
    }

    /// [`ShardState::set_headers`].
    pub fn set_headers(&mut self, conn: ConnId, on: bool) -> Result<(), ShardFault>
        ensures { IsDecided (shard_refusal self.old.state (SetHeaders conn on))
            (λ _. Does self.old (SetHeaders conn on) HeadersSet self.new) (self.new ≡ self.old)
            result }
    {
        let done = self.state.set_headers(conn, on);
        let event = ShardEvent::SetHeaders { conn, on };
        let told = told_headers(&done);
        note_shard(&mut self.tape, Some(event), told);
        done
    }

    /// [`ShardState::drain`].
    pub fn drain(&mut self) -> Result<(), ShardFault>
        ensures { IsDecided (shard_refusal self.old.state Drain)
            (λ _. Does self.old Drain Drains self.new) (self.new ≡ self.old) result }
    {
        let done = self.state.drain();
        let told = told_drained(&done);
        note_shard(&mut self.tape, Some(ShardEvent::Drain), told);
        done
    }

    /// [`ShardState::shut`].
    pub fn shut(&mut self, conn: ConnId, text: ErrText) -> Result<Vec<SubId>, Failure<ShardFault>>
        ensures { IsAnswered (shard_refusal self.old.state (Shut conn text))
            (λ ended. Does self.old (Shut conn text) (WasShut ended.items) self.new)
            (self.new ≡ self.old) result }
    {
        let done = self.state.shut(conn, text);
        let event = ShardEvent::Shut { conn, text };
        let told = told_shut(&done);
        note_shard(&mut self.tape, Some(event), told);
        done
    }

    /// [`ShardState::detach`].
    pub fn detach(&mut self, conn: ConnId) -> Result<Vec<SubId>, Failure<ShardFault>>
        ensures { IsAnswered (shard_refusal self.old.state (Detach conn))
            (λ ended. Does self.old (Detach conn) (Detached ended.items) self.new)
            (self.new ≡ self.old) result }
    {
        let done = self.state.detach(conn);
        let event = ShardEvent::Detach { conn };
        let told = told_detached(&done);
        note_shard(&mut self.tape, Some(event), told);
        done
    }

    /// [`ShardState::take`].
    pub fn take(&mut self, conn: ConnId, count: usize) -> Result<Vec<Entry>, Failure<ShardFault>>
        ensures { IsAnswered (shard_refusal self.old.state (Take conn count))
            (λ entries. Does self.old (Take conn count) (Taken entries.items) self.new)
            (self.new ≡ self.old) result }
    {
        let done = self.state.take(conn, count);
        let event = ShardEvent::Take { conn, count };
        let told = told_taken(&done);
        note_shard(&mut self.tape, Some(event), told);
        done
    }

    /// [`ShardState::take_bytes`].
    pub fn take_bytes(
        &mut self,
        conn: ConnId,
        count: usize,
        out: &mut Vec<u8>,
    ) -> Result<usize, Failure<ShardFault>>
        ensures { IsAnswered (shard_refusal self.old.state (Take conn count))
            (λ taken. TakesBytes self.old conn count taken out.old.items out.new.items self.new)
            ((self.new ≡ self.old) × (out.new.items ≡ out.old.items)) result }
    {
        let done = self.state.take_bytes(conn, count, out);
        let event = ShardEvent::Take { conn, count };
        let told = told_bytes(&done);
        note_shard(&mut self.tape, Some(event), told);
        done
    }

    /// [`ShardState::is_open`].
    pub fn is_open(&self, conn: ConnId) -> bool
        ensures { result ≡ opened conn self.now.state.clients }
    {
        self.state.is_open(conn)
    }

    /// [`ShardState::is_urgent`].
    pub fn is_urgent(&self) -> bool {
        self.state.is_urgent()
    }

    /// [`ShardState::swap_dirty_conns`].
    pub fn swap_dirty_conns(&mut self, dirty_conns: &mut DirtyConns)
        ensures { self.new ≡ self.old }
    {
        self.state.swap_dirty_conns(dirty_conns);
    }

    /// [`ShardState::deltas`].
    pub fn deltas(&self) -> &[Delta]
        ensures { result.now ≡ self.now.state.deltas }
    {
        self.state.deltas()
    }

    /// [`ShardState::turn`]. May wait.
    pub fn turn<G: Gate, R: Wait>(&mut self, rt: &R, gate: &G) -> Turned
        ensures { Turns self.old result self.new }
    {
        self.state.turn(rt, &self.cells, gate, &mut self.tape)
    }

    /// [`ShardState::drop_job`]. May wait.
    pub fn drop_job<R: Wait>(&mut self, rt: &R) -> Result<Turn, Failure<ShardFault>>
        ensures { Drops self.old result self.new }
    {
        self.state.drop_job(rt, &self.cells, &mut self.tape)
    }

    /// How many entries stand on its tape, where one is kept: the next one's place, from 0.
    pub fn entries_kept(&self) -> usize {
        self.tape.len()
    }

    /// What is left of it: the state, and its tape.
    pub fn into_parts(self) -> (ShardState<T, N>, Tape<ShardEntry>)
        ensures state { result.0 ≡ self }
        ensures tape { IsTape N.race.shards self result.1 }
    {
        let LockedShard { state, tape, .. } = self;
        (state, tape)
    }
}

/// What stands under the lock of the hub: its state, with the race, its tape, and which server it is of. (Profile.)
///
/// Seen as the state. Whoever holds the lock may make many calls, one after the other. Each step that they make and
/// each refusal stands on the tape, where one is kept: the tape is all that the hub and the sessions ever did, and
/// what they refused between.
#[derive(Drop)]
pub struct LockedHub<N: NodeName> {
    server: ServerIdentity,
    state: HubState<N>,
    cells: Arc<Cells, Global>,
    tape: Tape<HubEntry>,
    alloc: Global,
}

impl<N: NodeName> Model for LockedHub<N> {
    ghost use Rattle.std.specs.Prelude.{◌≡◌};
    ghost use Rattle.std.specs.Arc.{arc_value};
    ghost use Rattle.node_threads.specs.AtHub.{AtHub};
    ghost use Rattle.thread_node.specs.HubTapes.{IsHubTape};

    ghost Value = { AtHub };

    ghost view = { λ s. s.state };

    ghost invariant = { λ s. (arc_value s.cells ≡ N.race) × IsHubTape s.server s.state s.tape };
}

impl<N: NodeName> LockedHub<N> {
    /// The state of the hub of this server, which has done nothing, with its race; `keep` says whether its steps are
    /// written down.
    pub(crate) fn new(
        alloc: Global,
        server: ServerIdentity,
        state: HubState<N>,
        cells: Arc<Cells, Global>,
        keep: bool,
    ) -> LockedHub<N>
        requires race { arc_value cells ≡ N.race }
        requires fresh { (state.side ≡ new_side server) × (state.issued ≡ []) }
        ensures { result ≡ state }
    {
        LockedHub {
            server,
            state,
            cells,
            tape: Tape::new(alloc, keep),
            alloc,
        }
    }

    /// [`HubState::publish`]. [`LockedHub::push_jobs`] hands the job to the shards.
    pub fn publish(
        &mut self,
        conn: ConnId,
        publication: &Pub,
        word: u64,
    ) -> Result<Issued, Failure<HubFault>>
        ensures { Publishes N.race.shards self.old (publication_by conn publication.now word) result
            self.new }
    {
        let done = self.state.publish(&self.cells, conn, publication, word);
        let finished = self.state.finished();
        let event = publish_event(&self.tape, conn, publication, word, finished);
        let told = told_issued(&done);
        note_hub(&mut self.tape, event, told);
        done
    }

    /// [`HubState::publish_run`]. None is published where a tape is kept, as nothing is written down of a run.
    /// [`LockedHub::push_jobs`] hands the jobs to the shards.
    pub fn publish_run(&mut self, conn: ConnId, run: &mut LentRun<'_>) -> u64
        ensures { IssuesRun N.race.shards conn result run.old run.new self.old self.new }
    {
        if self.tape.is_kept() {
            return 0;
        }
        self.state.publish_run(&self.cells, conn, run)
    }

    /// [`HubState::receive`]. [`LockedHub::push_jobs`] hands the job of a message to the shards.
    pub fn receive(&mut self, frame: &Numbered) -> Result<Received, Failure<HubFault>>
        ensures { Receives N.race.shards self.old frame.now result self.new }
    {
        let done = self.state.receive(&self.cells, frame);
        let finished = self.state.finished();
        let event = receive_event(self.alloc, &self.tape, frame, finished);
        let told = told_received(&done);
        note_hub(&mut self.tape, event, told);
        done
    }

    /// [`HubState::push_jobs`]. May wait.
    pub fn push_jobs<R: Wait>(&mut self, rt: &R) -> bool
        ensures { self.new ≡ self.old }
    {
        self.state.push_jobs(rt)
    }

    /// [`HubState::dial`].
    pub fn dial(&mut self, peer: usize) -> Result<SessionId, Failure<SessionFault>>
        ensures { IsAnswered
            (session_refusal self.old.side.server self.old.side.sessions (Dial peer))
            (λ session.
            HubDoes self.old (BySessions (Dial peer)) (OfSessions (Dialed session)) self.new)
            (self.new ≡ self.old) result }
    {
        let done = self.state.dial(peer);
        let told = told_dialed(&done);
        note_hub(&mut self.tape, Some(HubEvent::Dial { peer }), told);
        done
    }

    /// [`HubState::accept`].
    pub fn accept(&mut self) -> Result<(SessionId, RouteInfo), Failure<SessionFault>>
        ensures { IsAnswered (session_refusal self.old.side.server self.old.side.sessions Accept)
            (λ given.
            HubDoes self.old (BySessions Accept) (OfSessions (Accepted given.0 given.1)) self.new)
            (self.new ≡ self.old) result }
    {
        let done = self.state.accept();
        let told = told_accepted(&done);
        note_hub(&mut self.tape, Some(HubEvent::Accept), told);
        done
    }

    /// [`HubState::cut`].
    pub fn cut(&mut self, session: SessionId) -> Result<Option<usize>, SessionFault>
        ensures { IsDecided
            (session_refusal self.old.side.server self.old.side.sessions (Cut session))
            (λ peer.
            HubDoes self.old (BySessions (Cut session)) (OfSessions (WasCut peer)) self.new)
            (self.new ≡ self.old) result }
    {
        let done = self.state.cut(session);
        let told = told_cut(&done);
        note_hub(&mut self.tape, Some(HubEvent::Cut { session }), told);
        done
    }

    /// [`HubState::info`].
    pub fn info(
        &mut self,
        session: SessionId,
        info: &RouteInfo,
    ) -> Result<(Kept, RouteConnect), Failure<SessionFault>>
        ensures { let e = OnInfo session info.now (seen_name self.old.side info.now.server_name) in
            IsAnswered (session_refusal self.old.side.server self.old.side.sessions e)
            (λ done.
            HubDoes self.old (BySessions e) (OfSessions (KeptAfterInfo done.0.instead_of done.1))
            self.new)
            (self.new ≡ self.old) result }
    {
        let done = self.state.info(session, info);
        let event = HubEvent::Info {
            session,
            info: *info,
        };
        let told = told_info(&done);
        note_hub(&mut self.tape, Some(event), told);
        done
    }

    /// [`HubState::connect`].
    pub fn connect(
        &mut self,
        session: SessionId,
        connect: &RouteConnect,
    ) -> Result<Kept, Failure<SessionFault>>
        ensures { let e =
            OnConnect session connect.now (seen_name self.old.side connect.now.server_name) in
            IsAnswered (session_refusal self.old.side.server self.old.side.sessions e)
            (λ kept.
            HubDoes self.old (BySessions e) (OfSessions (WasKept kept.instead_of)) self.new)
            (self.new ≡ self.old) result }
    {
        let done = self.state.connect(session, connect);
        let event = HubEvent::Connect {
            session,
            connect: *connect,
        };
        let told = told_connected(&done);
        note_hub(&mut self.tape, Some(event), told);
        done
    }

    /// [`HubState::collect`], of the shard whose lock is held too.
    pub fn collect<T: SubTable>(
        &mut self,
        shard: &mut LockedShard<T, N>,
    ) -> Result<CollectResult, Failure<HubFault>>
        ensures { Collects self.old shard.old result self.new shard.new }
    {
        let number = shard.shard();
        let heard = copy_for(&self.tape, self.alloc, shard.deltas());
        let given = copy_for(&shard.tape, self.alloc, shard.deltas());
        let done = self.state.collect(&mut shard.state);
        let told = told_collected(&done);
        note_heard(&mut self.tape, number, heard, told);
        note_given(&mut shard.tape, given, &done);
        done
    }

    /// [`HubState::drain`].
    pub fn drain(&mut self) -> Result<Vec<usize>, Failure<HubFault>>
        ensures { IsAnswered (hub_refusal self.old.side.server self.old.side.hub HubDrain)
            (λ cut.
            HubDoes self.old (ByHub HubDrain)
            (OfHub (Drained (drain_frames self.old.side.server self.old.side.hub) cut.items))
            self.new)
            (self.new ≡ self.old) result }
    {
        let done = self.state.drain();
        let told = told_hub_drained(&done);
        note_hub(&mut self.tape, Some(HubEvent::Drain), told);
        done
    }

    /// [`HubState::take_frames`].
    pub fn take_frames(
        &mut self,
        peer: usize,
        count: usize,
    ) -> Result<Vec<Numbered>, Failure<HubFault>>
        ensures { IsAnswered
            (hub_refusal self.old.side.server self.old.side.hub (TakeFrom peer count))
            (λ frames.
            HubDoes self.old (ByHub (TakeFrom peer count)) (OfHub (FramesTaken frames.items))
            self.new)
            (self.new ≡ self.old) result }
    {
        let done = self.state.take_frames(peer, count);
        let event = HubEvent::TakeFrames { peer, count };
        let told = told_frames(&done);
        note_hub(&mut self.tape, Some(event), told);
        done
    }

    /// How many entries stand on its tape, where one is kept: the next one's place, from 0.
    pub fn entries_kept(&self) -> usize {
        self.tape.len()
    }

    /// What is left of it: its server, the state, the race, and its tape.
    pub fn into_parts(
        self,
    ) -> (
        ServerIdentity,
        HubState<N>,
        Arc<Cells, Global>,
        Tape<HubEntry>,
    )
        ensures state { result.1 ≡ self }
        ensures race { arc_value result.2 ≡ N.race }
        ensures tape { IsHubTape result.0 self result.3 }
    {
        let LockedHub {
            server,
            state,
            cells,
            tape,
            ..
        } = self;
        (server, state, cells, tape)
    }
}
