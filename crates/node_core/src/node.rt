//! A server as one value.

ghost use Rattle.std.specs.Prelude.{◌≡◌, ◌≤◌, Some, false, option_to_list, IfOk, option_map, List, map, OnErr};
ghost use Rattle.subj.specs.Answers.{IsAnswered, IsDecided};
ghost use Rattle.subj.specs.declared.limits.TheConstants.{MAX_SHARDS};
ghost use Rattle.shard_core.specs.Answers.{answer_of};
ghost use Rattle.shard_core.specs.ShardEvents.{Attached, Unsubscribed, Replied, HeadersSet, WasShut, Detached, Taken, Finished, Drains};
ghost use Rattle.node_law.specs.Events.{Own, OfConn, AtShard, Dial, Accept, CutSession, TakeFrames, OnInfo, OnConnect, Publish, Collect, Drain, Receive};
ghost use Rattle.node_law.specs.declared.events.ConnEvent.TheVariants.{Subscribe, Unsubscribe, Reply, SetHeaders, Shut, Detach, Take};
ghost use Rattle.node_law.specs.declared.events.ShardWork.TheVariants.{Attach, Begin, Claim, End, DropJob, DrainShard};
ghost use Rattle.node_core.specs.Served.{new_server, of_session_answer, of_session_decision, of_hub_answer, refusal, ConnStep, WorkStep, BeginStep, DialStep, AcceptStep, CutStep, FramesStep, DropStep, ClaimStep, InfoStep, ConnectStep, PublishStep, ReceiveStep, CollectStep, DrainStep};
ghost use Rattle.node_law.specs.State.{lines_from};
ghost use Rattle.hub_core.specs.Chosen.{publication_by};
ghost use Rattle.node_law.specs.declared.faults.NodeFault.TheVariants.{Hub, Session};
ghost use Rattle.node_core.specs.InCode.{event_of, own_event_of};
ghost use Rattle.node_core.specs.OneRun.{GoesOn, IsRun, done_with, is_out_of_memory as lacks_memory, outcome_told};
ghost use Rattle.node_law.specs.Runs.{Done, Ran};
ghost use Rattle.node_core.specs.TakesBytes.{TakesBytes};

mod asked;
mod resting;
mod stepping;

use crate::did::Did;
use crate::event_ref::lend;
use crate::refused::Refused;
use claim_race::Race;
use client_frames::{ErrText, ReplyFrame};
use hub_core::{HubFault, PublishPlan};
use node_law::{ConnEvent, NodeEvent, NodeFault, OwnEvent, ShardWork, servers_keep_their_promises};
use node_parts::{
    Claimed, CollectResult, HubWithSessions, Issued, Received, ShardWithJobs, fill, finished_by,
    issue, place_of_conn, place_of_shard, route, take_in,
};
use outbox::Entry;
use route_session::{Kept, SessionFault, SessionId};
use route_values::{Numbered, RouteConnect, RouteInfo};
use shard_core::{Begun, Closed, ShardFault, Subscribed};
use std::alloc::{AllocError, Global};
use std::marker::Model;
use sub_table::SubTable;
use subj::{ConnId, Failure, Job, Key, Pub, ServerIdentity, Sid, SubId, Turn};

/// The lines of a server of so many shards.
#[tactic(auto, using(crate::proofs::Calls::Starts::lines_more))]
fn new_lines<T: SubTable>(alloc: Global, shards: u64) -> Result<Vec<ShardWithJobs<T>>, AllocError>
    requires first { 1 ≤ shards }
    requires few { shards ≤ MAX_SHARDS }
    ensures { IfOk result (λ lines. lines.items ≡ lines_from shards 1 shards) }
{
    let mut lines = Vec::new(alloc);
    for made in 0..shards {
        lines.push(ShardWithJobs::new(alloc, made + 1, shards)?)?;
    }
    Ok(lines)
}

/// What the sessions answer, as their server's answer.
fn of_sessions<X>(answer: Result<X, Failure<SessionFault>>) -> Result<X, Failure<NodeFault>>
    ensures { result ≡ of_session_answer answer }
{
    match answer {
        Ok(x) => Ok(x),
        Err(Failure::Refused(fault)) => Err(Failure::Refused(NodeFault::Session(fault))),
        Err(Failure::OutOfMemory) => Err(Failure::OutOfMemory),
    }
}

/// What the sessions decide, as their server's decision.
fn of_decision<X>(decision: Result<X, SessionFault>) -> Result<X, NodeFault>
    ensures { result ≡ of_session_decision decision }
{
    match decision {
        Ok(x) => Ok(x),
        Err(fault) => Err(NodeFault::Session(fault)),
    }
}

/// What the hub answers, as its server's answer.
fn of_hub<X>(answer: Result<X, Failure<HubFault>>) -> Result<X, Failure<NodeFault>>
    ensures { result ≡ of_hub_answer answer }
{
    match answer {
        Ok(x) => Ok(x),
        Err(Failure::Refused(fault)) => Err(Failure::Refused(NodeFault::Hub(fault))),
        Err(Failure::OutOfMemory) => Err(Failure::OutOfMemory),
    }
}

/// A server, over any table of subscriptions and any race. (Profile.)
///
/// Seen as who it is, and its hub, its sessions, the race and the lines of its shards. Each call is a
/// step of the server: it is refused by the first cause, or does what the step says; want of memory comes
/// only where there is no cause. Both leave all as it was. Numbers of connections, shards and sessions
/// may be any.
pub struct Node<T: SubTable, R: Race> {
    pub(crate) alloc: Global,
    pub(crate) side: HubWithSessions,
    pub(crate) race: R,
    pub(crate) lines: Vec<ShardWithJobs<T>>,
    /// Memory for the copies of a job, which the lines get.
    pub(crate) copies: Vec<Job>,
}

/// One call, also for crates above: `docs/PROVING.md`, "What a proof costs".
impl<T: SubTable, R: Race> Drop for Node<T, R> {
    fn drop(self) {
        let Node {
            alloc: _,
            side: _,
            race: _,
            lines: _,
            copies: _,
        } = self;
    }
}

impl<T: SubTable, R: Race> Model for Node<T, R> {
    ghost use Rattle.node_core.specs.Served.{Served};

    ghost Value = { Served };

    ghost use Rattle.node_core.specs.Served.{served_of_parts, IsKept};

    ghost view = { λ n. served_of_parts n.side (R.contents n.race) n.lines.items };

    ghost invariant = { λ n. IsKept (served_of_parts n.side (R.contents n.race) n.lines.items) };
}

impl<T: SubTable, R: Race> Node<T, R> {
    /// A server that has just started: nothing is counted, nobody is known, and no job waits.
    pub fn new(alloc: Global, server: ServerIdentity) -> Result<Node<T, R>, AllocError>
        ensures { IfOk result (λ node. node ≡ new_server server) }
    {
        let _me = server.me();
        let lines = new_lines(alloc, server.shards())?;
        let race = R::new(alloc, server.shards())?;
        let side = HubWithSessions::new(alloc, server)?;
        Ok(Node {
            alloc,
            side,
            race,
            lines,
            copies: Vec::new(alloc),
        })
    }

    /// Opens a subscription, unless the connection has one of this id open. Refused as
    /// [`ShardWithJobs::subscribe`] is, and with [`ShardFault::NoConn`] where no shard has the connection.
    pub fn subscribe(
        &mut self,
        conn: ConnId,
        key: Key,
        sid: Sid,
    ) -> Result<Subscribed, Failure<NodeFault>>
        ensures { IsAnswered (refusal self.old (Own (OfConn conn (Subscribe key sid))))
            (λ done. ConnStep self.old conn (Subscribe key sid) (answer_of done) self.new)
            (self.new ≡ self.old) result }
    {
        let Some(place) = place_of_conn(self.lines.len(), conn) else {
            return Err(Failure::Refused(NodeFault::Shard(ShardFault::NoConn)));
        };
        let line = &mut self.lines[place];
        line.subscribe(conn, key, sid)
    }

    /// Closes what the connection calls by this id: [`ShardWithJobs::unsubscribe`]. Takes no memory.
    pub fn unsubscribe(
        &mut self,
        conn: ConnId,
        sid: &Sid,
        max: Option<u64>,
    ) -> Result<Option<SubId>, NodeFault>
        ensures { IsDecided (refusal self.old (Own (OfConn conn (Unsubscribe sid.now max))))
            (λ ended.
            ConnStep self.old conn (Unsubscribe sid.now max) (Unsubscribed (option_to_list ended))
            self.new)
            (self.new ≡ self.old) result }
    {
        let Some(place) = place_of_conn(self.lines.len(), conn) else {
            return Err(NodeFault::Shard(ShardFault::NoConn));
        };
        let line = &mut self.lines[place];
        line.unsubscribe(conn, sid, max)
    }

    /// Puts an answer for a connection: [`ShardWithJobs::reply`].
    pub fn reply(&mut self, conn: ConnId, frame: &ReplyFrame) -> Result<Closed, Failure<NodeFault>>
        ensures { IsAnswered (refusal self.old (Own (OfConn conn (Reply frame.now))))
            (λ closed.
            ConnStep self.old conn (Reply frame.now) (Replied closed.shut closed.ended.items)
            self.new)
            (self.new ≡ self.old) result }
    {
        let Some(place) = place_of_conn(self.lines.len(), conn) else {
            return Err(Failure::Refused(NodeFault::Shard(ShardFault::NoConn)));
        };
        let line = &mut self.lines[place];
        line.reply(conn, frame)
    }

    /// Sets whether a connection takes headers from now on: [`ShardWithJobs::set_headers`]. Takes no memory.
    pub fn set_headers(&mut self, conn: ConnId, on: bool) -> Result<(), NodeFault>
        ensures { IsDecided (refusal self.old (Own (OfConn conn (SetHeaders on))))
            (λ _. ConnStep self.old conn (SetHeaders on) HeadersSet self.new) (self.new ≡ self.old)
            result }
    {
        let Some(place) = place_of_conn(self.lines.len(), conn) else {
            return Err(NodeFault::Shard(ShardFault::NoConn));
        };
        let line = &mut self.lines[place];
        line.set_headers(conn, on)
    }

    /// Shuts a connection with this text: [`ShardWithJobs::shut`].
    pub fn shut(&mut self, conn: ConnId, text: ErrText) -> Result<Vec<SubId>, Failure<NodeFault>>
        ensures { IsAnswered (refusal self.old (Own (OfConn conn (Shut text))))
            (λ ended. ConnStep self.old conn (Shut text) (WasShut ended.items) self.new)
            (self.new ≡ self.old) result }
    {
        let Some(place) = place_of_conn(self.lines.len(), conn) else {
            return Err(Failure::Refused(NodeFault::Shard(ShardFault::NoConn)));
        };
        let line = &mut self.lines[place];
        line.shut(conn, text)
    }

    /// The connection goes: [`ShardWithJobs::detach`].
    pub fn detach(&mut self, conn: ConnId) -> Result<Vec<SubId>, Failure<NodeFault>>
        ensures { IsAnswered (refusal self.old (Own (OfConn conn Detach)))
            (λ ended. ConnStep self.old conn Detach (Detached ended.items) self.new)
            (self.new ≡ self.old) result }
    {
        let Some(place) = place_of_conn(self.lines.len(), conn) else {
            return Err(Failure::Refused(NodeFault::Shard(ShardFault::NoConn)));
        };
        let line = &mut self.lines[place];
        line.detach(conn)
    }

    /// Gives and removes the first entries that wait for a connection: [`ShardWithJobs::take`].
    pub fn take(&mut self, conn: ConnId, count: usize) -> Result<Vec<Entry>, Failure<NodeFault>>
        ensures { IsAnswered (refusal self.old (Own (OfConn conn (Take count))))
            (λ entries. ConnStep self.old conn (Take count) (Taken entries.items) self.new)
            (self.new ≡ self.old) result }
    {
        let Some(place) = place_of_conn(self.lines.len(), conn) else {
            return Err(Failure::Refused(NodeFault::Shard(ShardFault::NoConn)));
        };
        let line = &mut self.lines[place];
        line.take(conn, count)
    }

    /// A new connection of the shard. Refused with [`NodeFault::NoShard`] where there is no such shard,
    /// and as [`ShardWithJobs::attach`] is.
    pub fn attach(&mut self, shard: u64) -> Result<ConnId, Failure<NodeFault>>
        ensures { IsAnswered (refusal self.old (Own (AtShard shard Attach)))
            (λ conn. WorkStep self.old shard Attach false (Attached conn) self.new)
            (self.new ≡ self.old) result }
    {
        let Some(place) = place_of_shard(self.lines.len(), shard) else {
            return Err(Failure::Refused(NodeFault::NoShard));
        };
        let line = &mut self.lines[place];
        line.attach()
    }

    /// The shard begins the first job that waits for it: [`ShardWithJobs::begin`]. Refused with
    /// [`NodeFault::NoShard`] first.
    pub fn begin(&mut self, shard: u64, copies: bool) -> Result<Begun, Failure<NodeFault>>
        ensures { IsAnswered (refusal self.old (Own (AtShard shard Begin)))
            (λ begun. BeginStep copies self.old shard begun self.new) (self.new ≡ self.old) result }
    {
        let Some(place) = place_of_shard(self.lines.len(), shard) else {
            return Err(Failure::Refused(NodeFault::NoShard));
        };
        let line = &mut self.lines[place];
        line.begin(copies)
    }

    /// The shard claims the queue name of this index of the job in hand, which is the next one:
    /// [`ShardWithJobs::claim`]. Refused with [`NodeFault::NoShard`] first.
    pub fn claim(
        &mut self,
        shard: u64,
        index: u64,
        copies: bool,
    ) -> Result<Claimed, Failure<NodeFault>>
        ensures { IsAnswered (refusal self.old (Own (AtShard shard (Claim index))))
            (λ claimed. ClaimStep copies self.old shard index claimed self.new)
            (self.new ≡ self.old) result }
    {
        let Some(place) = place_of_shard(self.lines.len(), shard) else {
            return Err(Failure::Refused(NodeFault::NoShard));
        };
        let line = &mut self.lines[place];
        line.claim(&mut self.race, shard, index, copies)
    }

    /// The shard finishes the turn in hand: [`ShardWithJobs::end`]. Refused with [`NodeFault::NoShard`] first.
    /// Takes no memory.
    pub fn end(&mut self, shard: u64) -> Result<(), NodeFault>
        ensures { IsDecided (refusal self.old (Own (AtShard shard End)))
            (λ _. WorkStep self.old shard End false Finished self.new) (self.new ≡ self.old)
            result }
    {
        let Some(place) = place_of_shard(self.lines.len(), shard) else {
            return Err(NodeFault::NoShard);
        };
        let line = &mut self.lines[place];
        match line.end() {
            Err(fault) => Err(fault),
            Ok(turn) => {
                self.race.finish(shard, turn);
                Ok(())
            }
        }
    }

    /// The shard drops the job in hand, or else the first that waits, and its turn is finished:
    /// [`ShardWithJobs::drop_job`]. Gives that turn. Refused with [`NodeFault::NoShard`] first. Takes no memory.
    pub fn drop_job(&mut self, shard: u64) -> Result<Turn, NodeFault>
        ensures { IsDecided (refusal self.old (Own (AtShard shard DropJob)))
            (λ turn. DropStep self.old shard turn self.new) (self.new ≡ self.old) result }
    {
        let Some(place) = place_of_shard(self.lines.len(), shard) else {
            return Err(NodeFault::NoShard);
        };
        let line = &mut self.lines[place];
        match line.drop_job() {
            Err(fault) => Err(fault),
            Ok(turn) => {
                self.race.finish(shard, turn);
                Ok(turn)
            }
        }
    }

    /// The shard takes no subscription any more: [`ShardWithJobs::drain`]. Refused with [`NodeFault::NoShard`] first.
    /// Takes no memory.
    pub fn drain_shard(&mut self, shard: u64) -> Result<(), NodeFault>
        ensures { IsDecided (refusal self.old (Own (AtShard shard DrainShard)))
            (λ _. WorkStep self.old shard DrainShard false Drains self.new) (self.new ≡ self.old)
            result }
    {
        let Some(place) = place_of_shard(self.lines.len(), shard) else {
            return Err(NodeFault::NoShard);
        };
        let line = &mut self.lines[place];
        line.drain()
    }

    /// Dials the server at this place: [`HubWithSessions::dial`]. Gives the number of the session.
    pub fn dial(&mut self, peer: usize) -> Result<SessionId, Failure<NodeFault>>
        ensures { IsAnswered (refusal self.old (Own (Dial peer)))
            (λ session. DialStep self.old peer session self.new) (self.new ≡ self.old) result }
    {
        of_sessions(self.side.dial(peer))
    }

    /// Accepts a session: [`HubWithSessions::accept`]. Gives its number, and the `INFO` to send.
    pub fn accept(&mut self) -> Result<(SessionId, RouteInfo), Failure<NodeFault>>
        ensures { IsAnswered (refusal self.old (Own Accept))
            (λ given. AcceptStep self.old given.0 given.1 self.new) (self.new ≡ self.old) result }
    {
        of_sessions(self.side.accept())
    }

    /// Ends a session; where it was kept, its peer is not up any more. Gives the place of that peer.
    /// Refused as [`HubWithSessions::cut`] is. Takes no memory.
    pub fn cut(&mut self, session: SessionId) -> Result<Option<usize>, NodeFault>
        ensures { IsDecided (refusal self.old (Own (CutSession session)))
            (λ peer. CutStep self.old session peer self.new) (self.new ≡ self.old) result }
    {
        of_decision(self.side.cut(session))
    }

    /// Completes a dialed session on the `INFO` of the server that was dialed: [`HubWithSessions::info`]. The
    /// peer is up, and a snapshot of all interest is what waits for it. Gives the session that this one
    /// took the place of, and the `CONNECT` to send.
    pub fn info(
        &mut self,
        session: SessionId,
        info: &RouteInfo,
    ) -> Result<(Kept, RouteConnect), Failure<NodeFault>>
        ensures { IsAnswered (refusal self.old (OnInfo session info.now))
            (λ done. InfoStep self.old session info.now done.0.instead_of done.1 self.new)
            (self.new ≡ self.old) result }
    {
        of_sessions(self.side.info(session, info))
    }

    /// Completes an accepted session on the `CONNECT` of the server that dialed:
    /// [`HubWithSessions::connect`]. The peer is up, and a snapshot of all interest is what waits for it.
    /// Gives the session that this one took the place of.
    pub fn connect(
        &mut self,
        session: SessionId,
        connect: &RouteConnect,
    ) -> Result<Kept, Failure<NodeFault>>
        ensures { IsAnswered (refusal self.old (OnConnect session connect.now))
            (λ kept. ConnectStep self.old session connect.now kept.instead_of self.new)
            (self.new ≡ self.old) result }
    {
        of_sessions(self.side.connect(session, connect))
    }

    /// Gives and removes the first frames that wait for the peer at the place: [`HubWithSessions::take_frames`].
    pub fn take_frames(
        &mut self,
        peer: usize,
        count: usize,
    ) -> Result<Vec<Numbered>, Failure<NodeFault>>
        ensures { IsAnswered (refusal self.old (Own (TakeFrames peer count)))
            (λ frames. FramesStep self.old peer count frames.items self.new) (self.new ≡ self.old)
            result }
    {
        of_hub(self.side.take_frames(peer, count))
    }
}

/// Why the hub refuses, as its server's fault.
fn of_hub_fault(fault: Option<HubFault>) -> Option<NodeFault>
    ensures { result ≡ option_map Hub fault }
{
    Some(NodeFault::Hub(fault?))
}

/// Why the sessions refuse, as their server's fault.
fn of_session_fault(fault: Option<SessionFault>) -> Option<NodeFault>
    ensures { result ≡ option_map Session fault }
{
    Some(NodeFault::Session(fault?))
}

impl<T: SubTable, R: Race> Node<T, R> {
    /// Why it refuses what is asked for a connection.
    fn conn_fault(&self, conn: ConnId, event: &ConnEvent) -> Option<NodeFault>
        ensures { result ≡ refusal self.now (Own (OfConn conn event.now)) }
    {
        let Some(place) = place_of_conn(self.lines.len(), conn) else {
            return Some(NodeFault::Shard(ShardFault::NoConn));
        };
        let line = &self.lines[place];
        line.conn_fault(conn, event)
    }

    /// Why it refuses what a shard is asked to do.
    fn work_fault(&self, shard: u64, work: ShardWork) -> Option<NodeFault>
        ensures { result ≡ refusal self.now (Own (AtShard shard work)) }
    {
        let Some(place) = place_of_shard(self.lines.len(), shard) else {
            return Some(NodeFault::NoShard);
        };
        let line = &self.lines[place];
        line.work_fault(work)
    }

    /// Why it refuses an `INFO`.
    fn info_fault(&self, session: SessionId, info: &RouteInfo) -> Option<NodeFault>
        ensures { result ≡ refusal self.now (OnInfo session info.now) }
    {
        of_session_fault(self.side.info_fault(session, info))
    }

    /// Why it refuses a `CONNECT`.
    fn connect_fault(&self, session: SessionId, connect: &RouteConnect) -> Option<NodeFault>
        ensures { result ≡ refusal self.now (OnConnect session connect.now) }
    {
        of_session_fault(self.side.connect_fault(session, connect))
    }

    /// Why it refuses a publish.
    fn publish_fault(&self, conn: ConnId, publication: &Pub, word: u64) -> Option<NodeFault>
        ensures { result
            ≡ refusal self.now (Own (Publish (publication_by conn publication.now word))) }
    {
        let count = self.lines.len();
        let finished = finished_by(&self.race, count as u64);
        of_hub_fault(self.side.hub().publish_fault(publication, &finished))
    }

    /// Why it refuses a frame of a peer.
    fn receive_fault(&self, frame: &Numbered) -> Option<NodeFault>
        ensures { result ≡ refusal self.now (Receive frame.now) }
    {
        let count = self.lines.len();
        let finished = finished_by(&self.race, count as u64);
        of_hub_fault(self.side.hub().receive_fault(frame, &finished))
    }

    /// Why it refuses a collect.
    fn collect_fault(&self, shard: u64) -> Option<NodeFault>
        ensures { result ≡ refusal self.now (Own (Collect shard)) }
    {
        let Some(place) = place_of_shard(self.lines.len(), shard) else {
            return Some(NodeFault::NoShard);
        };
        let line = &self.lines[place];
        of_hub_fault(self.side.hub().collect_fault(line.deltas()))
    }

    /// Why it refuses to take frames.
    fn take_frames_fault(&self, peer: usize, count: usize) -> Option<NodeFault>
        ensures { result ≡ refusal self.now (Own (TakeFrames peer count)) }
    {
        if self.side.hub().server().is_peer(peer) {
            return None;
        }
        Some(NodeFault::Hub(HubFault::NotInCluster))
    }

    /// Why it refuses an event of its own.
    fn own_fault(&self, event: &OwnEvent) -> Option<NodeFault>
        ensures { result ≡ refusal self.now (Own (own_event_of event.now)) }
    {
        match event {
            OwnEvent::OfConn { conn, event } => self.conn_fault(*conn, event),
            OwnEvent::AtShard { shard, work } => self.work_fault(*shard, *work),
            OwnEvent::Publish {
                conn,
                publication,
                word,
            } => self.publish_fault(*conn, publication, *word),
            OwnEvent::Collect { shard } => self.collect_fault(*shard),
            OwnEvent::Drain => of_hub_fault(self.side.hub().drain_fault()),
            OwnEvent::Dial { peer } => of_session_fault(self.side.sessions().dial_fault(*peer)),
            OwnEvent::Accept => of_session_fault(self.side.sessions().accept_fault()),
            OwnEvent::CutSession { session } => {
                of_session_fault(self.side.sessions().cut_fault(*session))
            }
            OwnEvent::TakeFrames { peer, count } => self.take_frames_fault(*peer, *count),
        }
    }

    /// Why it refuses the event: the first cause, and none where [`Node::step`] does it or wants memory.
    /// Wants no memory, and changes nothing: where the deltas of a collect are many, it uses what memory there is,
    /// and keeps none.
    pub fn fault(&self, event: &NodeEvent) -> Option<NodeFault>
        ensures { result ≡ refusal self.now (event_of event.now) }
    {
        self.fault_of(&lend(event))
    }
}

/// Whether memory was wanting.
fn is_out_of_memory(answer: &Result<Did, Refused>) -> bool
    ensures { result ≡ lacks_memory answer.now }
{
    matches!(answer, Err(Refused::OutOfMemory))
}

impl<T: SubTable, R: Race> Node<T, R> {
    /// Makes the steps of these events, one behind another, and gives the answer of each, in order: a refusal leaves all as it was,
    /// and the next event comes. The memory of the list is taken first; where there is none nothing is done.
    ///
    /// A step that meets want of memory is the last one made, and its answer the last: then fewer answers are given than there are
    /// events, and what stands is the run of as many of the first events.
    ///
    /// Whatever the server had done since its start, it keeps the promises of one server of all of it together: see
    /// [`servers_keep_their_promises`].
    pub fn run(&mut self, events: &[NodeEvent]) -> Result<Vec<Result<Did, Refused>>, AllocError>
        ensures run { IfOk result (λ answers.
            IsRun self.old (map event_of events.now) (map outcome_told answers.items) self.new) }
        ensures promises { IfOk result (λ answers.
            (h : List Done)
            → Ran self.old.server h self.old.node
            → GoesOn (done_with (map event_of events.now) (map outcome_told answers.items)) h
            self.new) }
        ensures short { OnErr result (self.new ≡ self.old) }
    {
        servers_keep_their_promises();
        let mut answers = Vec::with_capacity(self.alloc, events.len())?;
        for event in events {
            let answer = self.step(event);
            let is_last = is_out_of_memory(&answer);
            answers.push_reserved(answer);
            if is_last {
                return Ok(answers);
            }
        }
        Ok(answers)
    }
}

impl<T: SubTable, R: Race> Node<T, R> {
    /// Moves the bytes of the first entries that wait for a connection, or of all where there are fewer,
    /// behind those that are in `out`, in order, and removes these entries: [`Node::take`] without
    /// entries. Gives how many they were. A refusal or want of memory leaves `out` as it was.
    pub fn take_bytes(
        &mut self,
        conn: ConnId,
        count: usize,
        out: &mut Vec<u8>,
    ) -> Result<usize, Failure<NodeFault>>
        ensures { IsAnswered (refusal self.old (Own (OfConn conn (Take count))))
            (λ taken. TakesBytes self.old conn count taken out.old.items out.new.items self.new)
            ((self.new ≡ self.old) × (out.new.items ≡ out.old.items)) result }
    {
        let Some(place) = place_of_conn(self.lines.len(), conn) else {
            return Err(Failure::Refused(NodeFault::Shard(ShardFault::NoConn)));
        };
        let line = &mut self.lines[place];
        line.take_bytes(conn, count, out)
    }
}

impl<T: SubTable, R: Race> Node<T, R> {
    /// Publishes for a connection: the publication takes the next number and the next turn, each shard gets its job, and the
    /// frames that are owed wait for their peers. The word decides which server serves each queue name.
    ///
    /// Refused, in this order, with [`HubFault::Busy`] where a shard is a window behind, with
    /// [`HubFault::Spent`] where the last number or the last turn was used, and with
    /// [`HubFault::TooManyQueues`]: [`Hub::plan_publish`].
    pub fn publish(
        &mut self,
        conn: ConnId,
        publication: &Pub,
        word: u64,
    ) -> Result<Issued, Failure<NodeFault>>
        ensures { let p = publication_by conn publication.now word in
            IsAnswered (refusal self.old (Own (Publish p)))
            (λ done. PublishStep self.old p done.turn done.frames self.new) (self.new ≡ self.old)
            result }
    {
        let count = self.lines.len();
        let PublishPlan { job, frames } = self.plan_publish(conn, publication, word)?;
        let issued = Issued {
            turn: job.turn,
            frames: frames.len(),
        };
        let Ok(()) = fill(&mut self.copies, &job, count) else {
            return Err(Failure::OutOfMemory);
        };
        self.side.commit_publish(frames);
        let lines = self.lines.as_mut_slice();
        issue(&mut self.race, lines, job, &mut self.copies);
        Ok(issued)
    }

    /// Takes a frame of a peer: of a message each shard gets its job, and news are heard. A frame of a
    /// later life of the peer than was seen ends the session that was kept with it. Nothing is sent on
    /// (NATS documentation, "Cluster Protocol"). Refused as [`Hub::plan_receive`] is.
    pub fn receive(&mut self, frame: &Numbered) -> Result<Received, Failure<NodeFault>>
        ensures { IsAnswered (refusal self.old (Receive frame.now))
            (λ received. ReceiveStep self.old frame.now received self.new) (self.new ≡ self.old)
            result }
    {
        let count = self.lines.len();
        let finished = finished_by(&self.race, count as u64);
        let received = match take_in(&mut self.side, frame, &finished, &mut self.copies, count) {
            Ok(received) => received,
            Err(fault) => return of_hub(Err(fault)),
        };
        let lines = self.lines.as_mut_slice();
        route(&mut self.race, lines, &mut self.copies, frame);
        Ok(received)
    }
}

impl<T: SubTable, R: Race> Node<T, R> {
    /// Counts what the subscriptions of a shard have changed since its last collect, and tells each peer
    /// that is up: [`Hub::collect`](hub_core::Hub::collect). A peer without room for all of it is cut, and
    /// the session that was kept with it ends. Refused with [`NodeFault::NoShard`] where there is no such
    /// shard, and as the hub's call is.
    pub fn collect(&mut self, shard: u64) -> Result<CollectResult, Failure<NodeFault>>
        ensures { IsAnswered (refusal self.old (Own (Collect shard)))
            (λ told. CollectStep self.old shard told.changes told.frames told.cut.items self.new)
            (self.new ≡ self.old) result }
    {
        let Some(place) = place_of_shard(self.lines.len(), shard) else {
            return Err(Failure::Refused(NodeFault::NoShard));
        };
        let _me = self.side.hub().server().me();
        let line = &mut self.lines[place];
        let told = match self.side.collect(shard, line.deltas()) {
            Ok(told) => told,
            Err(fault) => return of_hub(Err(fault)),
        };
        line.take_deltas();
        let changes = told.changes.len();
        let frames = changes * self.side.hub().up_count();
        Ok(CollectResult {
            changes,
            frames,
            cut: told.cut,
        })
    }

    /// Tells each peer that is up that the server has no interest any more, and of none from then on:
    /// [`Hub::drain`](hub_core::Hub::drain). A peer without room for it is cut, and the session that was kept with it
    /// ends. Refused as the hub's call is.
    pub fn drain(&mut self) -> Result<CollectResult, Failure<NodeFault>>
        ensures { IsAnswered (refusal self.old (Own Drain))
            (λ told. DrainStep self.old told.changes told.frames told.cut.items self.new)
            (self.new ≡ self.old) result }
    {
        let cut = match self.side.drain() {
            Ok(cut) => cut,
            Err(fault) => return of_hub(Err(fault)),
        };
        let frames = self.side.hub().up_count();
        Ok(CollectResult {
            changes: 1,
            frames,
            cut,
        })
    }
}
