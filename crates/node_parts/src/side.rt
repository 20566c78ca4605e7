//! The hub's part of a server: its hub and its sessions, and the peers at both.

ghost use Rattle.std.specs.Prelude.{◌≡◌, ◌&&◌, ⊤, [], true, false, option_map, slice_get, IfOk};
ghost use Rattle.subj.specs.Answers.{IsAnswered, IsDecided};
ghost use Rattle.hub_core.specs.Calls.{IsPlanned, IsTaken, job_of, after_frames};
ghost use Rattle.hub_core.specs.Chosen.{IsPlanOf, publication_by};
ghost use Rattle.hub_core.specs.Events.{Collect, Drain, Receive, TakeFrom, Collected, Drained, Heard, Taken};
ghost use Rattle.hub_core.specs.Publishing.{publish_refusal};
ghost use Rattle.hub_core.specs.Receiving.{has_message, receive_refusal};
ghost use Rattle.hub_core.specs.Hubs.{DoesStep};
ghost use Rattle.hub_core.specs.State.{peer_of, seen_of as seen_by_hub};
ghost use Rattle.hub_core.specs.Peers.{snapshot_to};
ghost use Rattle.hub_core.specs.Settled.{knows_at};
ghost use Rattle.hub_core.specs.Steps.{hub_refusal};
ghost use Rattle.hub_core.specs.Telling.{collect_frames, drain_frames};
ghost use Rattle.route_session.specs.Calls.{peer_of as peer_by_name};
ghost use Rattle.route_session.specs.Events.{Dial, Accept, OnInfo, OnConnect, Cut, Dialed, Accepted, KeptAfterInfo, Kept as WasKept, WasCut};
ghost use Rattle.route_session.specs.State.{has_session};
ghost use Rattle.route_session.specs.Steps.{session_refusal, without_peers};
ghost use Rattle.subj.specs.Servers.{IsListed, place as place_of, is_peer as peer};
ghost use Rattle.node_parts.specs.Sides.{ByHub, BySessions, OfHub, OfSessions, IsDone, new_side, seen_name, session_after_frame, side_after};

use hub_core::{CollectResult, Hub, HubFault, PublishPlan};
use route_session::{Kept, SessionFault, SessionId, Sessions};
use route_values::{Body, Numbered, RouteConnect, RouteInfo};
use std::alloc::{AllocError, Global};
use std::marker::Model;
use subj::{ConnId, Delta, Failure, Finished, Incarnation, Job, NodeId, Pub, ServerIdentity};

/// The place of the peer of this name.
#[tactic(auto, using(crate::proofs::Greeting::nobody, crate::proofs::Greeting::at_place))]
fn peer_named(server: &ServerIdentity, name: NodeId) -> Option<usize>
    ensures { result ≡ peer_by_name server.now name }
{
    let place = server.place(name)?;
    server.is_peer(place).then_some(place)
}

/// The greatest incarnation seen of the peer of this name; 0 before the first, and of anyone else.
fn seen_of(hub: &Hub, name: NodeId) -> u64
    ensures { result ≡ seen_by_hub (peer_of hub.now.server hub.now.state name) }
{
    match peer_named(hub.server(), name) {
        None => 0,
        Some(place) => hub.seen_of(place),
    }
}

/// Ends the sessions that are kept with the peers at these places. Takes no memory.
fn drop_sessions(sessions: &mut Sessions, peers: &[usize])
    ensures { sessions.new ≡ record {
      server = sessions.old.server;
      state = without_peers peers.now sessions.old.state;
    } }
{
    for peer in peers {
        sessions.drop_kept(*peer);
    }
}

/// Whether the frame is a message.
pub fn is_message(frame: &Numbered) -> bool
    ensures { result ≡ has_message frame.now.body }
{
    matches!(frame.body(), Body::Msg { .. })
}

/// Where the frame is of a later life of its peer than was seen, the session that was kept with the peer
/// ends. Takes no memory.
fn end_old_session(sessions: &mut Sessions, frame: &Numbered, seen: u64)
    requires { peer sessions.old.server (place_of sessions.old.server frame.now.from) ≡ true }
    ensures { sessions.new ≡ record {
      server = sessions.old.server;
      state =
          session_after_frame (place_of sessions.old.server frame.now.from) seen frame.now.inc
          sessions.old.state;
    } }
{
    if frame.inc().get() <= seen {
        return;
    }
    let Some(place) = peer_named(sessions.server(), frame.from()) else {
        // required: the frame is of a peer
        unreachable!()
    };
    sessions.drop_kept(place);
}

/// Counts the deltas of the shard, and tells of them: [`Hub::collect`].
fn tell(hub: &mut Hub, shard: u64, deltas: &[Delta]) -> Result<CollectResult, Failure<HubFault>>
    ensures { IsAnswered (hub_refusal hub.old.server hub.old.state (Collect shard deltas.now))
        (λ told.
        DoesStep hub.old (Collect shard deltas.now)
        (Collected told.changes.items (collect_frames hub.old.server hub.old.state deltas.now)
        told.cut.items)
        hub.new)
        (hub.new ≡ hub.old) result }
{
    let _shard = shard;
    hub.collect(deltas)
}

/// The hub and the sessions of a server, which are stepped together. (Profile.)
///
/// Seen as who the server is, and the states of both. Each call is a step of the one or of the other, with what the
/// other does at it; a refusal and want of memory leave both as they were.
pub struct HubWithSessions {
    hub: Hub,
    sessions: Sessions,
}

/// One call, also for crates above: `docs/PROVING.md`, "What a proof costs".
impl Drop for HubWithSessions {
    fn drop(self) {
        let HubWithSessions {
            hub: _,
            sessions: _,
        } = self;
    }
}

impl Model for HubWithSessions {
    ghost use Rattle.std.specs.Prelude.{◌≡◌};
    ghost use Rattle.node_parts.specs.Sides.{HubWithSessions};

    ghost Value = { HubWithSessions };

    ghost view = { λ s. record {
      server = s.hub.server;
      hub = s.hub.state;
      sessions = s.sessions.state;
    } };

    ghost invariant = { λ s. s.sessions.server ≡ s.hub.server };
}

impl HubWithSessions {
    /// Those of a server that has just started.
    pub fn new(alloc: Global, server: ServerIdentity) -> Result<HubWithSessions, AllocError>
        ensures { IfOk result (λ side. side ≡ new_side server) }
    {
        let sessions = Sessions::new(alloc, server.try_clone(alloc)?);
        let hub = Hub::new(alloc, server)?;
        Ok(HubWithSessions { hub, sessions })
    }

    /// The names tell the servers of the cluster apart, and this one is one of them.
    pub fn is_listed(&self)
        ensures { IsListed self.now.server }
    {
        let _me = self.hub.server().me();
    }

    /// The hub, for what is asked of it alone.
    pub fn hub(&self) -> &Hub
        ensures server { result.now.server ≡ self.now.server }
        ensures state { result.now.state ≡ self.now.hub }
    {
        &self.hub
    }

    /// The sessions, for what is asked of them alone.
    pub fn sessions(&self) -> &Sessions
        ensures server { result.now.server ≡ self.now.server }
        ensures state { result.now.state ≡ self.now.sessions }
    {
        &self.sessions
    }

    /// Whether the other server, at this place, is known as it runs: a session with its incarnation is kept, and
    /// [`Hub::knows`]. Takes no memory.
    pub fn knows(&self, place: usize, other: &HubWithSessions) -> bool
        ensures { result
            ≡ (has_session place other.now.server.inc self.now.sessions.standing
            && knows_at (slice_get self.now.hub.peers place) other.now.server.inc
            other.now.hub.counts) }
    {
        self.sessions.keeps(place, other.hub.server().inc()) && self.hub.knows(place, &other.hub)
    }

    /// [`Sessions::info_fault`], with the greatest incarnation that the hub has seen of the sender.
    pub fn info_fault(&self, session: SessionId, info: &RouteInfo) -> Option<SessionFault>
        ensures { result
            ≡ session_refusal self.now.server self.now.sessions
            (OnInfo session info.now (seen_name self.now info.now.server_name)) }
    {
        let least = seen_of(&self.hub, info.server_name());
        self.sessions.info_fault(session, info, least)
    }

    /// [`Sessions::connect_fault`], with the greatest incarnation that the hub has seen of the sender.
    pub fn connect_fault(&self, session: SessionId, connect: &RouteConnect) -> Option<SessionFault>
        ensures { result
            ≡ session_refusal self.now.server self.now.sessions
            (OnConnect session connect.now (seen_name self.now connect.now.server_name)) }
    {
        let least = seen_of(&self.hub, connect.server_name());
        self.sessions.connect_fault(session, connect, least)
    }

    /// The snapshot for an incarnation of the peer of this name: [`Hub::plan_up`]. It changes nothing.
    #[tactic(auto, using(crate::proofs::Greeting::peer_there))]
    pub fn snapshot_for(
        &self,
        name: NodeId,
        inc: Incarnation,
    ) -> Result<Option<Numbered>, AllocError>
        ensures { IfOk result (λ snapshot.
            snapshot
            ≡ option_map (λ q. snapshot_to self.now.server self.now.hub q inc)
            (peer_by_name self.now.server name)) }
    {
        match peer_named(self.hub.server(), name) {
            None => Ok(None),
            Some(place) => Ok(Some(self.hub.plan_up(place, inc)?)),
        }
    }

    /// [`Hub::plan_publish`].
    #[inline(always)]
    pub fn plan_publish(
        &self,
        conn: ConnId,
        publication: &Pub,
        word: u64,
        finished: &Finished,
    ) -> Result<PublishPlan, Failure<HubFault>>
        ensures { IsAnswered
            (publish_refusal self.now.server self.now.hub (publication_by conn publication.now word)
            finished.now)
            (λ plan.
            IsPlanOf self.now.server self.now.hub (publication_by conn publication.now word)
            plan.job plan.frames.items)
            ⊤ result }
    {
        self.hub.plan_publish(conn, publication, word, finished)
    }

    /// [`Hub::plan_receive`].
    pub fn plan_receive(
        &self,
        frame: &Numbered,
        finished: &Finished,
    ) -> Result<Option<Job>, Failure<HubFault>>
        ensures { IsAnswered (receive_refusal self.now.server self.now.hub finished.now frame.now)
            (λ job. job ≡ job_of self.now.hub frame.now frame.now.body) ⊤ result }
    {
        self.hub.plan_receive(frame, finished)
    }

    /// [`Sessions::dial`].
    pub fn dial(&mut self, peer: usize) -> Result<SessionId, Failure<SessionFault>>
        ensures { IsAnswered (session_refusal self.old.server self.old.sessions (Dial peer))
            (λ session.
            IsDone self.old (BySessions (Dial peer)) (OfSessions (Dialed session)) self.new)
            (self.new ≡ self.old) result }
    {
        self.sessions.dial(peer)
    }

    /// [`Sessions::accept`].
    pub fn accept(&mut self) -> Result<(SessionId, RouteInfo), Failure<SessionFault>>
        ensures { IsAnswered (session_refusal self.old.server self.old.sessions Accept)
            (λ given.
            IsDone self.old (BySessions Accept) (OfSessions (Accepted given.0 given.1)) self.new)
            (self.new ≡ self.old) result }
    {
        self.sessions.accept()
    }

    /// [`Sessions::cut`]; the peer of a kept session is not up any more.
    pub fn cut(&mut self, session: SessionId) -> Result<Option<usize>, SessionFault>
        ensures { IsDecided (session_refusal self.old.server self.old.sessions (Cut session))
            (λ peer. IsDone self.old (BySessions (Cut session)) (OfSessions (WasCut peer)) self.new)
            (self.new ≡ self.old) result }
    {
        match self.sessions.cut(session) {
            Err(fault) => Err(fault),
            Ok(None) => Ok(None),
            Ok(Some(peer)) => {
                self.hub.peer_cut(peer);
                Ok(Some(peer))
            }
        }
    }

    /// [`Sessions::on_info`]: the peer is up, and a snapshot of all interest is what waits for it.
    pub fn info(
        &mut self,
        session: SessionId,
        info: &RouteInfo,
    ) -> Result<(Kept, RouteConnect), Failure<SessionFault>>
        ensures { let e = OnInfo session info.now (seen_name self.old info.now.server_name) in
            IsAnswered (session_refusal self.old.server self.old.sessions e)
            (λ done.
            IsDone self.old (BySessions e) (OfSessions (KeptAfterInfo done.0.instead_of done.1))
            self.new)
            (self.new ≡ self.old) result }
    {
        let least = seen_of(&self.hub, info.server_name());
        if let Some(fault) = self.sessions.info_fault(session, info, least) {
            return Err(Failure::Refused(fault));
        }
        let Some(place) = peer_named(self.hub.server(), info.server_name()) else {
            // an `INFO` that is not refused names a peer of the list
            unreachable!()
        };
        let inc = info.inc();
        let _life = inc.get();
        let Ok(snapshot) = self.hub.plan_up(place, inc) else {
            return Err(Failure::OutOfMemory);
        };
        let Ok(done) = self.sessions.on_info(session, info, least) else {
            // the same was not refused above, and the sessions are as they were
            unreachable!()
        };
        self.hub.commit_up(place, inc, snapshot);
        Ok(done)
    }

    /// [`Sessions::on_connect`]: the peer is up, and a snapshot of all interest is what waits for it.
    pub fn connect(
        &mut self,
        session: SessionId,
        connect: &RouteConnect,
    ) -> Result<Kept, Failure<SessionFault>>
        ensures { let e =
            OnConnect session connect.now (seen_name self.old connect.now.server_name) in
            IsAnswered (session_refusal self.old.server self.old.sessions e)
            (λ kept. IsDone self.old (BySessions e) (OfSessions (WasKept kept.instead_of)) self.new)
            (self.new ≡ self.old) result }
    {
        let least = seen_of(&self.hub, connect.server_name());
        if let Some(fault) = self.sessions.connect_fault(session, connect, least) {
            return Err(Failure::Refused(fault));
        }
        let Some(place) = peer_named(self.hub.server(), connect.server_name()) else {
            // a `CONNECT` that is not refused names a peer of the list
            unreachable!()
        };
        let inc = connect.inc();
        let _life = inc.get();
        let Ok(greeting) = self.hub.plan_up(place, inc) else {
            return Err(Failure::OutOfMemory);
        };
        let Ok(kept) = self.sessions.on_connect(session, connect, least) else {
            // the same was not refused above, and the sessions are as they were
            unreachable!()
        };
        self.hub.commit_up(place, inc, greeting);
        Ok(kept)
    }

    /// [`Hub::collect`] of the deltas of the shard; the sessions that are kept with peers that are cut end.
    pub fn collect(
        &mut self,
        shard: u64,
        deltas: &[Delta],
    ) -> Result<CollectResult, Failure<HubFault>>
        ensures { IsAnswered (hub_refusal self.old.server self.old.hub (Collect shard deltas.now))
            (λ told.
            IsDone self.old (ByHub (Collect shard deltas.now))
            (OfHub (Collected told.changes.items
            (collect_frames self.old.server self.old.hub deltas.now) told.cut.items))
            self.new)
            (self.new ≡ self.old) result }
    {
        let told = match tell(&mut self.hub, shard, deltas) {
            Ok(told) => told,
            Err(fault) => return Err(fault),
        };
        drop_sessions(&mut self.sessions, &told.cut);
        Ok(told)
    }

    /// [`Hub::drain`]; the sessions that are kept with peers that are cut end. Gives the places of those.
    pub fn drain(&mut self) -> Result<Vec<usize>, Failure<HubFault>>
        ensures { IsAnswered (hub_refusal self.old.server self.old.hub Drain)
            (λ cut.
            IsDone self.old (ByHub Drain)
            (OfHub (Drained (drain_frames self.old.server self.old.hub) cut.items)) self.new)
            (self.new ≡ self.old) result }
    {
        let cut = match self.hub.drain() {
            Ok(cut) => cut,
            Err(fault) => return Err(fault),
        };
        drop_sessions(&mut self.sessions, &cut);
        Ok(cut)
    }

    /// [`Hub::receive`] of news. A frame of a later life of its peer ends the session that was kept with it.
    pub fn apply_update(
        &mut self,
        frame: &Numbered,
        finished: &Finished,
    ) -> Result<(), Failure<HubFault>>
        requires { has_message frame.now.body ≡ false }
        ensures { IsAnswered
            (hub_refusal self.old.server self.old.hub (Receive frame.now finished.now))
            (λ _.
            IsDone self.old (ByHub (Receive frame.now finished.now))
            (OfHub (Heard frame.now.number)) self.new)
            (self.new ≡ self.old) result }
    {
        let _me = self.hub.server().me();
        let seen = seen_of(&self.hub, frame.from());
        let _received = match self.hub.receive(frame, finished) {
            Ok(received) => received,
            Err(fault) => return Err(fault),
        };
        end_old_session(&mut self.sessions, frame, seen);
        Ok(())
    }

    /// [`Hub::commit_message`]. A frame of a later life of its peer ends the session that was kept with it.
    pub fn take_message(&mut self, frame: &Numbered)
        requires message { has_message frame.now.body ≡ true }
        requires taken { IsTaken self.old.server self.old.hub frame.now }
        ensures { self.new ≡ side_after self.old (ByHub (Receive frame.now [])) }
    {
        let _me = self.hub.server().me();
        let seen = seen_of(&self.hub, frame.from());
        self.hub.commit_message(frame);
        end_old_session(&mut self.sessions, frame, seen);
    }

    /// [`Hub::take_route`].
    pub fn take_frames(
        &mut self,
        peer: usize,
        count: usize,
    ) -> Result<Vec<Numbered>, Failure<HubFault>>
        ensures { IsAnswered (hub_refusal self.old.server self.old.hub (TakeFrom peer count))
            (λ frames.
            IsDone self.old (ByHub (TakeFrom peer count)) (OfHub (Taken frames.items)) self.new)
            (self.new ≡ self.old) result }
    {
        self.hub.take_route(peer, count)
    }

    /// [`Hub::commit_publish`].
    pub fn commit_publish(&mut self, frames: Vec<Numbered>)
        requires { IsPlanned self.old.server self.old.hub frames.items }
        ensures { self.new
            ≡ record self.old { hub = after_frames self.old.server self.old.hub frames.items } }
    {
        self.hub.commit_publish(frames);
    }

    /// [`Hub::commit_local`]: a publication that owes no frame.
    #[inline(always)]
    pub fn commit_local(&mut self)
        requires { IsPlanned self.old.server self.old.hub [] }
        ensures { self.new
            ≡ record self.old { hub = after_frames self.old.server self.old.hub [] } }
    {
        self.hub.commit_local();
    }
}
