//! The hub, with all that it is called for.

ghost use Rattle.std.specs.Prelude.{◌≡◌, ◌<◌, nat_le, not, if◌then◌else◌, ⊤, Some, None, true, false, take, length, slice_get, IfOk, OnOk, OnErr, ℕ, ◌+◌, ◌≤◌, []};
ghost use Rattle.std.specs.Option.{option_or};
ghost use Rattle.subj.specs.Answers.{IsAnswered, IsDecided};
ghost use Rattle.subj.specs.declared.limits.TheConstants.{MAX_COUNTER, MAX_SHARDS};
ghost use Rattle.subj.specs.Servers.{is_peer};
ghost use Rattle.hub_core.specs.State.{seen_of as seen};
ghost use Rattle.hub_core.specs.Events.{Receive, Up, Cut, TakeFrom, IsUp, WasCut, Taken};
ghost use Rattle.hub_core.specs.Steps.{IsMeeting};
ghost use Rattle.hub_core.specs.Hubs.{hub_at_start, refusal, DoesStep};
ghost use Rattle.hub_core.specs.declared.faults.HubFault.TheVariants.{Spent, TooManyQueues};
ghost use Rattle.hub_core.specs.Local.{HasTurnsFor};
ghost use Rattle.hub_core.specs.Publishing.{busy_fault, next_id as id_of_next, publish_refusal};
ghost use Rattle.hub_core.specs.Receiving.{receive_refusal, origin_fault as refused_of_origin, after_receive, has_message};
ghost use Rattle.hub_core.specs.Calls.{job_of, IsTaken, answer_of, IsPlanned, after_frames};
ghost use Rattle.hub_core.specs.Peers.{snapshot_to, told_interest};
ghost use Rattle.std.specs.List.{count_by};
ghost use Rattle.hub_core.specs.Chosen.{publication_by, turn_refusal};
ghost use Rattle.hub_core.specs.Telling.{collect_refusal, collect_frames};
ghost use Rattle.claim_race.specs.Race.{busy_of, is_behind};

use crate::answers::Received;
use crate::audience::{Asked, AudienceMemo, kept_unless};
use crate::faults::HubFault;
use crate::own_interest::OwnInterest;
use crate::peers::{
    Peer, address_fault, frame_to, is_message, peer_place, put_all, snapshot_of, unknown_peers,
};
use route_values::{Body, Numbered, SnapshotKeys};
use std::alloc::{AllocError, Global};
use std::cell::Cell;
use std::marker::Model;
use subj::{
    Busy, Delta, Failure, Finished, Incarnation, Job, MAX_COUNTER, Pub, PubId, ServerIdentity,
    Turn, WINDOW,
};

/// The hub of a server. (Profile.)
///
/// Seen as its server, and as the last turn issued, the last numbers of a publication and of a change of
/// interest, whether it drains, the counts of the server's own interest as its shards have told it, and
/// what it knows of each server of the cluster, by place. Each call is the hub's part of a server's step: it is refused
/// by the first cause, or does what the step says; want of memory comes only where there is no cause,
/// and leaves all as it was.
pub struct Hub {
    pub(crate) alloc: Global,
    pub(crate) server: ServerIdentity,
    pub(crate) issued: Turn,
    pub(crate) published: u64,
    pub(crate) changed: u64,
    pub(crate) draining: bool,
    pub(crate) counts: OwnInterest,
    pub(crate) peers: Vec<Peer>,
    /// Who wants the last subject that was published on twice in a row. Whatever changes what a server wants forgets it.
    pub(crate) memo: Option<AudienceMemo>,
    /// The last subject that was published on and is not in mind. It is written where nothing else may change, and decides
    /// nothing but what [`Hub::learn`] keeps in mind.
    pub(crate) asked: Cell<Option<Asked>>,
}

/// One call, also for crates above: `docs/PROVING.md`, "What a proof costs".
impl Drop for Hub {
    fn drop(self) {
        let Hub {
            alloc: _,
            server: _,
            issued: _,
            published: _,
            changed: _,
            draining: _,
            counts: _,
            peers: _,
            memo: _,
            asked: _,
        } = self;
    }
}

impl Model for Hub {
    ghost use Rattle.hub_core.specs.Hubs.{Hub};

    ghost Value = { Hub };

    ghost use Rattle.hub_core.specs.Hubs.{hub_of_parts, IsKept};
    ghost use Rattle.hub_core.specs.Audiences.{IsInMind};

    ghost view = { λ hub.
        hub_of_parts hub.server hub.issued hub.published hub.changed hub.draining hub.counts
        hub.peers.items };

    ghost invariant = { λ hub.
        IsKept (hub_of_parts hub.server hub.issued hub.published hub.changed hub.draining hub.counts
        hub.peers.items)
        × IsInMind hub.server hub.counts hub.peers.items hub.memo };
}

impl Hub {
    /// The hub of a server that has just started: nothing is counted, and nothing is known of any peer.
    pub fn new(alloc: Global, server: ServerIdentity) -> Result<Hub, AllocError>
        ensures { IfOk result (λ hub. hub ≡ hub_at_start server) }
    {
        let _me = server.me();
        let peers = unknown_peers(alloc, server.names().len())?;
        let counts = OwnInterest::new(alloc)?;
        Ok(Hub {
            alloc,
            server,
            issued: Turn::zero(),
            published: 0,
            changed: 0,
            draining: false,
            counts,
            peers,
            memo: None,
            asked: Cell::new(None),
        })
    }

    /// The server that it is of.
    pub fn server(&self) -> &ServerIdentity
        ensures { result.now ≡ self.now.server }
    {
        &self.server
    }

    /// The greatest incarnation seen of the server at the place; 0 where none was, or where there is no
    /// such server.
    pub fn seen_of(&self, place: usize) -> u64
        ensures { result ≡ seen (slice_get self.now.state.peers place) }
    {
        match self.peers.get(place) {
            None => 0,
            Some(peer) => peer.seen,
        }
    }

    /// The keys that peers are told of: all that is counted, and none of a server that drains.
    fn keys_told(&self) -> Result<SnapshotKeys, AllocError>
        ensures { IfOk result (λ keys. keys ≡ told_interest self.now.state) }
    {
        if self.draining {
            return Ok(SnapshotKeys::new(self.alloc));
        }
        snapshot_of(self.alloc, self.counts.counts())
    }

    /// The snapshot for an incarnation of the peer at the place: all interest that is told, at the number
    /// of the last change. Required: the place is of a peer. It changes nothing.
    pub fn plan_up(&self, place: usize, inc: Incarnation) -> Result<Numbered, AllocError>
        requires { is_peer self.now.server place ≡ true }
        ensures { IfOk result (λ snapshot.
            snapshot ≡ snapshot_to self.now.server self.now.state place inc) }
    {
        let keys = self.keys_told()?;
        let body = Body::Snapshot(keys);
        Ok(frame_to(&self.server, place, inc, self.changed, body))
    }

    /// A session with an incarnation of the peer at the place is kept: what was known of an incarnation
    /// below it is forgotten, the peer is up, and the snapshot is all that waits for it. Required: the
    /// place is of a peer, the incarnation is not below the greatest seen, and the snapshot is the one
    /// that [`Hub::plan_up`] gives. Takes no memory.
    pub fn commit_up(&mut self, place: usize, inc: Incarnation, snapshot: Numbered)
        requires meeting { IsMeeting self.old.server self.old.state place inc }
        requires planned { snapshot ≡ snapshot_to self.old.server self.old.state place inc }
        ensures { DoesStep self.old (Up place inc) (IsUp snapshot) self.new }
    {
        let alloc = self.alloc;
        self.memo = None;
        let peer = &mut self.peers[place];
        peer.know(alloc, inc);
        peer.meet(snapshot);
    }

    /// [`Hub::plan_up`] and [`Hub::commit_up`] together. Want of memory leaves all as it was.
    pub fn peer_up(&mut self, place: usize, inc: Incarnation) -> Result<(), AllocError>
        requires { IsMeeting self.old.server self.old.state place inc }
        ensures ok { OnOk result (DoesStep self.old (Up place inc)
            (IsUp (snapshot_to self.old.server self.old.state place inc)) self.new) }
        ensures err { OnErr result (self.new ≡ self.old) }
    {
        let snapshot = self.plan_up(place, inc)?;
        self.commit_up(place, inc, snapshot);
        Ok(())
    }

    /// The kept session with the peer at the place has ended: the peer is not up, and what is known of
    /// it and what waits for it stays. Required: the place is of a peer. Takes no memory.
    #[tactic(auto, using(crate::proofs::Neighbours::Changed::changed_is))]
    pub fn peer_cut(&mut self, place: usize)
        requires { is_peer self.old.server place ≡ true }
        ensures { DoesStep self.old (Cut place) WasCut self.new }
    {
        self.memo = None;
        let peer = &mut self.peers[place];
        peer.cut();
    }

    /// Gives and removes the first frames that wait for the peer at the place, or all where there are
    /// fewer. Refused with [`HubFault::NotInCluster`] where the place is of no peer.
    #[tactic(auto, using(crate::proofs::Neighbours::Changed::changed_is))]
    pub fn take_route(
        &mut self,
        place: usize,
        count: usize,
    ) -> Result<Vec<Numbered>, Failure<HubFault>>
        ensures { IsAnswered (refusal self.old (TakeFrom place count))
            (λ frames. DoesStep self.old (TakeFrom place count) (Taken frames.items) self.new)
            (self.new ≡ self.old) result }
    {
        if !self.server.is_peer(place) {
            return Err(Failure::Refused(HubFault::NotInCluster));
        }
        let alloc = self.alloc;
        let peer = &mut self.peers[place];
        let frames = peer.take(alloc, count)?;
        Ok(frames)
    }

    /// Why no turn can be issued for a frame: a shard is a window behind, or the last turn was issued.
    fn turn_fault(&self, finished: &Finished) -> Option<HubFault>
        ensures { result
            ≡ option_or (busy_fault self.now.server self.now.state finished.now)
            (if nat_le MAX_COUNTER self.now.state.issued then Some Spent else None) }
    {
        if let Some(busy) = busy(self.issued, self.server.shards(), finished) {
            return Some(HubFault::Busy(busy));
        }
        (self.issued.get() >= MAX_COUNTER).then_some(HubFault::Spent)
    }

    /// Why a frame of the peer at the place is refused, apart from whom it is for.
    fn origin_fault(&self, place: usize, frame: &Numbered, finished: &Finished) -> Option<HubFault>
        requires { place < length self.now.state.peers }
        ensures { result
            ≡ refused_of_origin self.now.server self.now.state finished.now frame.now
            (slice_get self.now.state.peers place) }
    {
        let peer = &self.peers[place];
        let inc = frame.inc().get();
        if inc < peer.seen {
            return Some(HubFault::StaleOrigin);
        }
        if !is_message(frame) {
            return peer.interest_fault(self.alloc, frame);
        }
        if frame.number() <= peer.mark_in(inc) {
            return Some(HubFault::Late);
        }
        self.turn_fault(finished)
    }

    /// Why [`Hub::receive`] refuses a frame. Takes no memory.
    pub fn receive_fault(&self, frame: &Numbered, finished: &Finished) -> Option<HubFault>
        ensures { result ≡ receive_refusal self.now.server self.now.state finished.now frame.now }
    {
        if let Some(fault) = address_fault(&self.server, frame) {
            return Some(fault);
        }
        match peer_place(&self.server, frame.from()) {
            None => Some(HubFault::NotInCluster),
            Some(place) => self.origin_fault(place, frame, finished),
        }
    }

    /// The job of a message that is taken; None of news. It changes nothing.
    ///
    /// Refused, in this order, with [`HubFault::NotMe`] and [`HubFault::OtherMe`] where the frame is for
    /// another server or another life of this one, with [`HubFault::NotInCluster`] where it is of none
    /// of its peers, and with [`HubFault::StaleOrigin`] where it is of a life before the last seen; then
    /// a message with [`HubFault::Late`], [`HubFault::Busy`] and [`HubFault::Spent`], and news with
    /// [`HubFault::Late`], [`HubFault::Gap`] and [`HubFault::BadInterest`].
    pub fn plan_receive(
        &self,
        frame: &Numbered,
        finished: &Finished,
    ) -> Result<Option<Job>, Failure<HubFault>>
        ensures { IsAnswered (refusal self.now (Receive frame.now finished.now))
            (λ job. job ≡ job_of self.now.state frame.now frame.now.body) ⊤ result }
    {
        if let Some(fault) = self.receive_fault(frame, finished) {
            return Err(Failure::Refused(fault));
        }
        let Body::Msg { message, queues } = frame.body() else {
            return Ok(None);
        };
        let turn = self.issued.next().unwrap();
        let id = PubId {
            origin: frame.from(),
            inc: frame.inc(),
            number: frame.number(),
        };
        Ok(Some(Job {
            turn,
            id,
            message: message.try_clone()?,
            publisher: None,
            echo: true,
            queues: queues.try_clone()?,
        }))
    }

    /// Takes a message: its number is the mark of its origin, and its job has the next turn. Nothing is
    /// sent on (NATS documentation, "Cluster Protocol"). Required: the frame is a message that
    /// [`Hub::plan_receive`] does not refuse. Takes no memory.
    pub fn commit_message(&mut self, frame: &Numbered)
        requires message { has_message frame.now.body ≡ true }
        requires taken { IsTaken self.old.server self.old.state frame.now }
        ensures { self.new
            ≡ record self.old { state = after_receive self.old.server self.old.state frame.now } }
    {
        let place = peer_place(&self.server, frame.from()).unwrap();
        let alloc = self.alloc;
        self.issued = self.issued.next().unwrap();
        let is_new_life = self.peers[place].is_new_life(frame.inc());
        self.memo = kept_unless(is_new_life, self.memo.take());
        let peer = &mut self.peers[place];
        peer.take_message(alloc, frame);
    }

    /// Applies news that are not refused. Want of memory leaves all as it was.
    fn apply_update(&mut self, frame: &Numbered) -> Result<(), Failure<HubFault>>
        requires news { has_message frame.now.body ≡ false }
        requires taken { IsTaken self.old.server self.old.state frame.now }
        ensures { IsAnswered None
            (λ _.
            self.new
            ≡ record self.old { state = after_receive self.old.server self.old.state frame.now })
            (self.new ≡ self.old) result }
    {
        let place = peer_place(&self.server, frame.from()).unwrap();
        let alloc = self.alloc;
        self.memo = None;
        let peer = &mut self.peers[place];
        peer.apply_update(alloc, frame)
    }

    /// Takes a frame of a peer. A greater incarnation than was seen is a new life of the peer: marks and
    /// view are forgotten, and it is not up. A message moves the mark of publications, and its job is
    /// given; news are heard. Refused as [`Hub::plan_receive`] tells.
    pub fn receive(
        &mut self,
        frame: &Numbered,
        finished: &Finished,
    ) -> Result<Received, Failure<HubFault>>
        ensures { IsAnswered (refusal self.old (Receive frame.now finished.now))
            (λ received.
            DoesStep self.old (Receive frame.now finished.now) (answer_of received) self.new)
            (self.new ≡ self.old) result }
    {
        match self.plan_receive(frame, finished)? {
            Some(job) => {
                self.commit_message(frame);
                Ok(Received::Routed(job))
            }
            None => {
                self.apply_update(frame)?;
                Ok(Received::Heard(frame.number()))
            }
        }
    }

    /// Issues a publication: it takes the next number and the next turn, and the frames that are owed wait
    /// for their peers. Required: the frames are those of a publication that is not refused. Never wants for
    /// memory; where there is some, those who want a subject that is published on again are kept in mind.
    pub fn commit_publish(&mut self, frames: Vec<Numbered>)
        requires { IsPlanned self.old.server self.old.state frames.items }
        ensures { self.new
            ≡ record self.old { state = after_frames self.old.server self.old.state frames.items } }
    {
        self.learn();
        self.commit_frames(frames);
    }

    /// The same, where nothing is learnt of who wants it. Takes no memory.
    fn commit_frames(&mut self, frames: Vec<Numbered>)
        requires { IsPlanned self.old.server self.old.state frames.items }
        ensures { self.new
            ≡ record self.old { state = after_frames self.old.server self.old.state frames.items } }
    {
        self.issued = self.issued.next().unwrap();
        self.published += 1;
        put_all(&self.server, &mut self.peers, frames);
    }

    /// Keeps in mind who wants the last subject that was published on, where that was so twice in a row. Want of memory keeps
    /// nobody in mind.
    fn learn(&mut self)
        ensures { self.new ≡ self.old }
    {
        let Some(asked) = self.asked.replace(None) else {
            return;
        };
        if !asked.is_again {
            self.asked.set(Some(asked));
            return;
        }
        let (alloc, counts) = (self.alloc, self.counts.counts());
        self.memo = AudienceMemo::find(alloc, &self.server, counts, &self.peers, asked.subject);
    }

    /// The same of a local publication, which owes a job to the server's own shards and nothing else. Required: it is not refused. Nothing
    /// is learnt of who wants it, and no memory is taken.
    #[inline(always)]
    pub fn commit_local(&mut self)
        requires { IsPlanned self.old.server self.old.state [] }
        ensures { self.new
            ≡ record self.old { state = after_frames self.old.server self.old.state [] } }
    {
        self.issued = self.issued.next().unwrap();
        self.published += 1;
    }
}

/// How many of the peers are up.
fn count_up(peers: &[Peer]) -> usize
    ensures { result ≡ count_by (λ peer. peer.up) peers.now }
{
    let mut count = 0;
    for peer in peers {
        if peer.up {
            count += 1;
        }
    }
    count
}

impl Hub {
    /// How many peers are up. Takes no memory.
    pub fn up_count(&self) -> usize
        ensures { result ≡ count_by (λ peer. peer.up) self.now.state.peers }
    {
        count_up(&self.peers)
    }
}

impl Hub {
    /// What the next publication is called: that of its server and its life, with the next number.
    /// Takes no memory.
    pub fn next_id(&self) -> PubId
        ensures { result ≡ id_of_next self.now.server self.now.state }
    {
        PubId {
            origin: self.server.name(),
            inc: self.server.inc(),
            number: self.published + 1,
        }
    }
}

impl Hub {
    /// Why [`Hub::plan_publish`] refuses. Takes no memory.
    pub fn publish_fault(&self, publication: &Pub, finished: &Finished) -> Option<HubFault>
        ensures { (conn word : ℕ)
            → result
            ≡ publish_refusal self.now.server self.now.state
            (publication_by conn publication.now word) finished.now }
    {
        if let Err(fault) = self.next_turn(finished) {
            return Some(fault);
        }
        let are_few = self.has_few_names(&publication.message.subject().lent());
        (!are_few).then_some(HubFault::TooManyQueues)
    }

    /// The frames that a collect of these deltas puts. It changes nothing. Refused as [`Hub::collect`] is.
    pub fn frames_of_collect(&self, deltas: &[Delta]) -> Result<Vec<Numbered>, Failure<HubFault>>
        ensures { IsAnswered (collect_refusal self.now.state deltas.now)
            (λ frames. frames.items ≡ collect_frames self.now.server self.now.state deltas.now) ⊤
            result }
    {
        let plan = self.plan_collect(deltas)?;
        Ok(plan.frames)
    }
}

/// Whether the shard that has finished this turn is a window behind, where the other one was issued.
fn is_late(issued: Turn, finished: Turn) -> bool
    ensures { result ≡ is_behind issued finished }
{
    finished.get() + WINDOW < issued.get() + 1
}

/// The first shard that is a window behind, of those that these turns are of.
fn busy_among(issued: Turn, finished: &[Turn]) -> Option<Busy>
    ensures { result ≡ busy_of issued finished.now }
{
    for (place, last) in finished.iter().enumerate() {
        if is_late(issued, *last) {
            return Some(Busy {
                shard: place as u64 + 1,
                finished: *last,
            });
        }
    }
    None
}

/// The first of so many shards that is a window behind.
pub(crate) fn busy(issued: Turn, shards: u64, finished: &Finished) -> Option<Busy>
    requires { shards ≤ MAX_SHARDS }
    ensures { result ≡ busy_of issued (take shards finished.now) }
{
    busy_among(issued, &finished.as_slice()[..shards as usize])
}

/// How many turns can be issued behind this one before the shard that has finished the other one is a window behind.
fn turns_before_busy(issued: Turn, finished: Turn) -> u64
    ensures { (count : ℕ) → count < result → is_behind (issued + count) finished ≡ false }
{
    (finished.get() + WINDOW).saturating_sub(issued.get())
}

/// The same for all shards that these turns are of, and no more than `most`.
fn turns_among(issued: Turn, finished: &[Turn], most: u64) -> u64
    ensures most { result ≤ most }
    ensures free { (count : ℕ) → count < result → busy_of (issued + count) finished.now ≡ None }
{
    let mut free = most;
    for last in finished {
        free = free.min(turns_before_busy(issued, *last));
    }
    free
}

impl Hub {
    /// The turn of the next job. Refused: 60 where a shard is a window behind, 62 where the last number of
    /// a publication or the last turn was used. Takes no memory.
    pub(crate) fn next_turn(&self, finished: &Finished) -> Result<Turn, HubFault>
        ensures { IsDecided (turn_refusal self.now.server self.now.state finished.now)
            (λ turn. (turn ≡ self.now.state.issued + 1) × (self.now.state.published < MAX_COUNTER))
            ⊤ result }
    {
        if let Some(busy) = busy(self.issued, self.server.shards(), finished) {
            return Err(HubFault::Busy(busy));
        }
        if self.published >= MAX_COUNTER {
            return Err(HubFault::Spent);
        }
        match self.issued.next() {
            Some(turn) => Ok(turn),
            None => Err(HubFault::Spent),
        }
    }

    /// The last turn that was issued.
    pub fn issued(&self) -> Turn
        ensures { result ≡ self.now.state.issued }
    {
        self.issued
    }

    /// How many local publications can be issued one after the other, by these loads: no shard is a window behind then, and neither the
    /// numbers of publications nor the turns are used up.
    pub fn turns_free(&self, finished: &Finished) -> u64
        ensures { HasTurnsFor self.now.server self.now.state finished.now result }
    {
        let numbers = (MAX_COUNTER - self.published).min(MAX_COUNTER - self.issued.get());
        let shards = self.server.shards() as usize;
        turns_among(self.issued, &finished.as_slice()[..shards], numbers)
    }
}
