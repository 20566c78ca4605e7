//! What a hub knows of its peers, and the frames that wait for them.

ghost use Rattle.std.specs.Prelude.{◌≡◌, ◌≤◌, ◌<◌, ◌+◌, ◌++◌, ◌∷◌, [], Some, true, false, take, drop, length, replicate, vec_len, vec_capacity, IfOk, OnErr, slice_get, None, if◌then◌else◌};
ghost use Rattle.std.specs.VecDeque.{deque_capacity};
ghost use Rattle.std.specs.Option.{option_map};
ghost use Rattle.hub_core.specs.Settled.{knows_at};
ghost use Rattle.hub_core.specs.State.{is_new_life as is_later, peer_in_life, unknown_peer, Peer as KnownPeer, changed_at};
ghost use Rattle.subj.specs.declared.limits.TheConstants.{ROUTE_FRAMES, MAX_INCARNATION};
ghost use Rattle.subj.specs.Servers.{IsListed, place as place_of, own_name, name_of, is_peer};
ghost use Rattle.hub_core.specs.Publishing.{with_frames};
ghost use Rattle.hub_core.specs.Calls.{with_frame, HasRoomFor, address_fault as wrong_address, interest_fault as unheard, heard_by};
ghost use Rattle.route_values.specs.Frames.{is_number};
ghost use Rattle.interest.specs.Counts.{told_weight};
ghost use Rattle.interest.specs.Views.{told_view};
ghost use Rattle.route_values.specs.Snapshots.{weighted_key};
ghost use Rattle.subj.specs.Answers.{IsAnswered};
ghost use Rattle.interest.specs.Heard.{news_fault, heard_after, Changed};
ghost use Rattle.hub_core.specs.Faults.{fault_of_interest as as_hub_fault};
ghost use Rattle.hub_core.specs.Receiving.{told_by, has_message as says_message};

use crate::faults::HubFault;
use interest::{Change, InterestFault, Local, View, counts_can_be_told};
use route_values::{Body, Numbered, SnapshotKeys, WeightedKey};
use std::alloc::{AllocError, Global};
use std::collections::VecDeque;
use std::marker::Model;
use subj::{Failure, Incarnation, Key, MAX_INCARNATION, NodeId, ROUTE_FRAMES, ServerIdentity};

/// What a hub knows of a peer. (Profile.)
///
/// Seen as these. Its outbox has taken the memory for all frames that may wait, [`ROUTE_FRAMES`], when
/// it was made.
#[derive(Drop)]
pub(crate) struct Peer {
    /// The greatest incarnation seen, at most [`MAX_INCARNATION`]; 0 before the first.
    pub seen: u64,
    /// The number of the last publication of that incarnation that was taken; 0 before the first.
    pub mark: u64,
    /// What was heard of that incarnation's interest.
    pub heard: View,
    /// Whether a session with that incarnation is kept.
    pub up: bool,
    /// The frames that wait, the oldest first.
    pub outbox: VecDeque<Numbered>,
}

impl Model for Peer {
    ghost use Rattle.hub_core.specs.State.{Peer};
    ghost use Rattle.std.specs.Prelude.{◌≤◌};
    ghost use Rattle.std.specs.VecDeque.{deque_capacity};
    ghost use Rattle.subj.specs.declared.limits.TheConstants.{ROUTE_FRAMES, MAX_INCARNATION};

    ghost Value = { Peer };

    ghost view = { λ peer. record {
      seen = peer.seen;
      mark = peer.mark;
      heard = peer.heard;
      up = peer.up;
      outbox = peer.outbox.items;
    } };

    ghost invariant = { λ peer.
        (peer.seen ≤ MAX_INCARNATION) × (ROUTE_FRAMES ≤ deque_capacity peer.outbox) };
}

/// Moves the first frames of one list to the end of another, which has room for them.
fn move_front(from: &mut VecDeque<Numbered>, to: &mut Vec<Numbered>, count: usize)
    requires there { count ≤ length from.old.items }
    requires room { vec_len to.old + count ≤ vec_capacity to.old }
    ensures to { to.new.items ≡ to.old.items ++ take count from.old.items }
    ensures from { from.new.items ≡ drop count from.old.items }
    ensures capacity { deque_capacity from.new ≡ deque_capacity from.old }
{
    for moved in 0..count {
        if let Some(frame) = from.pop_front() {
            to.push_reserved(frame);
        }
    }
}

/// Puts a value in the place of another.
fn put_in<T: Drop>(place: &mut T, value: T)
    ensures { place.new ≡ value }
{
    *place = value;
}

impl Peer {
    /// A peer of which nothing is known, with memory for its outbox.
    pub fn new(alloc: Global) -> Result<Peer, AllocError>
        ensures { IfOk result (λ peer. peer ≡ unknown_peer) }
    {
        Ok(Peer {
            seen: 0,
            mark: 0,
            heard: View::new(alloc),
            up: false,
            outbox: VecDeque::with_capacity(alloc, ROUTE_FRAMES)?,
        })
    }

    /// Whether it is up at this incarnation, what was heard of its interest is just what these count, and a frame may wait
    /// for it. Takes no memory.
    pub fn is_known_as(&self, inc: Incarnation, counts: &Local) -> bool
        ensures { result ≡ knows_at (Some self.now) inc counts.now }
    {
        self.up
            && self.seen == inc.get()
            && self.heard.tells(counts)
            && self.outbox.len() < ROUTE_FRAMES
    }

    /// The greatest incarnation seen. Required: there is one.
    pub fn incarnation(&self) -> Incarnation
        requires { 1 ≤ self.now.seen }
        ensures { result ≡ self.now.seen }
    {
        let _up = self.up;
        Incarnation::new(self.seen).unwrap()
    }

    /// Whether this incarnation is greater than was seen.
    pub fn is_new_life(&self, inc: Incarnation) -> bool
        ensures { result ≡ is_later self.now inc }
    {
        self.seen < inc.get()
    }

    /// A frame of this incarnation is looked at, or a session has it: a greater one than was seen begins
    /// anew, and is not up.
    pub fn know(&mut self, alloc: Global, inc: Incarnation)
        ensures { self.new ≡ peer_in_life self.old inc }
    {
        if self.is_new_life(inc) {
            self.seen = inc.get();
            self.mark = 0;
            put_in(&mut self.heard, View::new(alloc));
            self.up = false;
        }
    }

    /// It is up, and this snapshot is all that waits.
    pub fn meet(&mut self, snapshot: Numbered)
        ensures { self.new ≡ record self.old { up = true; outbox = snapshot ∷ [] } }
    {
        self.up = true;
        self.outbox.clear();
        self.outbox.push_back_reserved(snapshot);
    }

    /// The kept session has ended: all but that stays.
    pub fn cut(&mut self)
        ensures { self.new ≡ record self.old { up = false } }
    {
        self.up = false;
    }

    /// Puts a frame behind those that wait, which are fewer than may.
    pub fn put(&mut self, frame: Numbered)
        requires { length self.old.outbox < ROUTE_FRAMES }
        ensures { self.new ≡ record self.old { outbox = self.old.outbox ++ frame ∷ [] } }
    {
        self.outbox.push_back_reserved(frame);
    }

    /// Gives and removes the first frames that wait, or all where there are fewer. Want of memory leaves
    /// all as it was.
    pub fn take(&mut self, alloc: Global, count: usize) -> Result<Vec<Numbered>, AllocError>
        ensures frames { IfOk result (λ frames. frames.items ≡ take count self.old.outbox) }
        ensures ok { IfOk result (λ _.
            self.new ≡ record self.old { outbox = drop count self.old.outbox }) }
        ensures err { OnErr result (self.new ≡ self.old) }
    {
        let count = count.min(self.outbox.len());
        let mut taken = Vec::with_capacity(alloc, count)?;
        move_front(&mut self.outbox, &mut taken, count);
        Ok(taken)
    }
}

/// As many peers of which nothing is known.
pub(crate) fn unknown_peers(alloc: Global, count: usize) -> Result<Vec<Peer>, AllocError>
    ensures { IfOk result (λ peers. peers.items ≡ replicate count unknown_peer) }
{
    let mut peers = Vec::with_capacity(alloc, count)?;
    for made in 0..count {
        let peer = Peer::new(alloc)?;
        peers.push_reserved(peer);
    }
    Ok(peers)
}

/// The place of the name, which is listed.
fn place_in(server: &ServerIdentity, name: NodeId) -> usize
    requires { place_of server.now name < length server.now.names }
    ensures { result ≡ place_of server.now name }
{
    server.place(name).unwrap()
}

/// Puts a frame behind those that wait for its peer.
fn put(server: &ServerIdentity, peers: &mut [Peer], frame: Numbered)
    requires listed { place_of server.now frame.to < length server.now.names }
    requires placed { length peers.old ≡ length server.now.names }
    requires room { (peer : KnownPeer)
        → slice_get peers.old (place_of server.now frame.to) ≡ Some peer
        → length peer.outbox < ROUTE_FRAMES }
    ensures { peers.new ≡ changed_at (with_frame frame) (place_of server.now frame.to) peers.old }
{
    let place = place_in(server, frame.to());
    let peer = &mut peers[place];
    peer.put(frame);
}

/// Puts frames behind those that wait for their peers, in order. Takes no memory.
pub(crate) fn put_all(server: &ServerIdentity, peers: &mut [Peer], frames: Vec<Numbered>)
    requires known { IsListed server.now }
    requires placed { length peers.old ≡ length server.now.names }
    requires room { HasRoomFor server.now frames.items peers.old }
    ensures { peers.new ≡ with_frames server.now frames.items 0 peers.old }
{
    if frames.is_empty() {
        return;
    }
    let mut frames = VecDeque::from_vec(frames);
    while let Some(frame) = frames.pop_front() {
        put(server, peers, frame);
    }
}

/// A counted key with what it weighs to a peer.
fn key_with_weight(alloc: Global, key: &Key, count: u64) -> Result<WeightedKey, AllocError>
    requires { weighted_key key.now (told_weight key.now count)
        ≡ Some (key.now, told_weight key.now count) }
    ensures { IfOk result (λ weighted. weighted ≡ (key.now, told_weight key.now count)) }
{
    let weight = if key.queue.is_none() { 1 } else { count };
    let key = key.try_clone(alloc)?;
    Ok(WeightedKey::new(key, weight).unwrap())
}

/// A frame of this server to an incarnation of the server at the place.
pub(crate) fn frame_to(
    server: &ServerIdentity,
    place: usize,
    inc: Incarnation,
    number: u64,
    body: Body,
) -> Numbered
    requires place { place < length server.now.names }
    requires number { is_number number body ≡ true }
    ensures { result ≡ record {
      from = own_name server.now;
      inc = server.now.inc;
      to = name_of server.now place;
      to_inc = inc;
      number = number;
      body = body;
    } }
{
    let to = server.names()[place];
    let frame = Numbered::new(server.name(), server.inc(), to, inc, number, body);
    frame.unwrap()
}

/// All that is counted, as peers are told it.
pub(crate) fn snapshot_of(alloc: Global, counts: &Local) -> Result<SnapshotKeys, AllocError>
    ensures { IfOk result (λ keys. keys ≡ told_view counts.now) }
{
    counts_can_be_told();
    let mut keys = Vec::new(alloc);
    let mut left = counts.keys();
    while let Some((key, count)) = left.next() {
        keys.push(key_with_weight(alloc, key, *count)?)?;
    }
    Ok(SnapshotKeys::from_keys(keys).unwrap())
}

/// What a refusal of interest is to a hub, where there is one.
fn fault_of_interest(fault: Option<InterestFault>) -> Option<HubFault>
    ensures { result ≡ option_map as_hub_fault fault }
{
    match fault {
        None => None,
        Some(InterestFault::Late) => Some(HubFault::Late),
        Some(InterestFault::Gap) => Some(HubFault::Gap),
        Some(InterestFault::UnknownKey | InterestFault::TooManyKeys) => Some(HubFault::BadInterest),
    }
}

/// Why the frame is for another server, or for another life of this one.
pub(crate) fn address_fault(server: &ServerIdentity, frame: &Numbered) -> Option<HubFault>
    ensures { result ≡ wrong_address server.now frame.now }
{
    if frame.to().bytes() != server.name().bytes() {
        return Some(HubFault::NotMe);
    }
    if frame.to_inc() != server.inc() {
        return Some(HubFault::OtherMe);
    }
    None
}

/// The place of the peer of this name.
pub(crate) fn peer_place(server: &ServerIdentity, name: NodeId) -> Option<usize>
    ensures { result
        ≡ (if is_peer server.now (place_of server.now name) then Some (place_of server.now name)
        else None) }
{
    let place = server.place(name)?;
    server.is_peer(place).then_some(place)
}

/// Why news of this number are not heard, or None where they are, or where it is no news.
fn interest_fault(heard: &View, number: u64, body: &Body) -> Option<HubFault>
    ensures { result ≡ unheard heard.now number body.now }
{
    match body {
        Body::Plus(weighted) => fault_of_interest(heard.up_fault(number, weighted)),
        Body::Minus(key) => fault_of_interest(heard.gone_fault(number, key)),
        Body::Snapshot(keys) => fault_of_interest(heard.snapshot_fault(number, keys)),
        Body::Msg { .. } => None,
    }
}

/// Applies a change that can be taken.
fn follow(heard: &mut View, number: u64, change: Change) -> Result<(), Failure<HubFault>>
    requires { news_fault heard.old (Changed number change) ≡ None }
    ensures { IsAnswered None (λ _. heard.new ≡ heard_after heard.old (Changed number change))
        (heard.new ≡ heard.old) result }
{
    match heard.apply_update(number, change) {
        Ok(()) => Ok(()),
        Err(_) => Err(Failure::OutOfMemory),
    }
}

/// Applies news of this number. Refused by the cause that `interest_fault` tells; any `Err` leaves all as
/// it was.
fn apply_update(
    alloc: Global,
    heard: &mut View,
    number: u64,
    body: &Body,
) -> Result<(), Failure<HubFault>>
    ensures { IsAnswered (unheard heard.old number body.now)
        (λ _. heard.new ≡ heard_by heard.old number body.now) (heard.new ≡ heard.old) result }
{
    if let Some(fault) = interest_fault(heard, number, body) {
        return Err(Failure::Refused(fault));
    }
    match body {
        Body::Plus(weighted) => follow(heard, number, Change::Up(weighted.try_clone(alloc)?)),
        Body::Minus(key) => follow(heard, number, Change::Gone(key.try_clone(alloc)?)),
        Body::Snapshot(keys) => {
            let keys = keys.try_clone(alloc)?;
            match heard.apply_snapshot(number, keys) {
                Ok(()) => Ok(()),
                Err(_) => Err(Failure::OutOfMemory),
            }
        }
        Body::Msg { .. } => Ok(()),
    }
}

/// Whether the frame is a message.
pub(crate) fn is_message(frame: &Numbered) -> bool
    ensures { result ≡ says_message frame.now.body }
{
    matches!(frame.body(), Body::Msg { .. })
}

impl Peer {
    /// The mark of a life of the peer, as far as it is known.
    pub fn mark_in(&self, inc: u64) -> u64
        ensures { result ≡ (peer_in_life self.now inc).mark }
    {
        if self.seen < inc { 0 } else { self.mark }
    }

    /// Why the news of a frame are not heard, or None where they are, or where it is a message.
    pub fn interest_fault(&self, alloc: Global, frame: &Numbered) -> Option<HubFault>
        ensures { result
            ≡ unheard (peer_in_life self.now frame.now.inc).heard frame.now.number frame.now.body }
    {
        if self.seen < frame.inc().get() {
            return interest_fault(&View::new(alloc), frame.number(), frame.body());
        }
        interest_fault(&self.heard, frame.number(), frame.body())
    }

    /// Applies the news of a frame. Refused by the cause that [`Peer::interest_fault`] tells; any `Err`
    /// leaves all as it was.
    pub fn apply_update(&mut self, alloc: Global, frame: &Numbered) -> Result<(), Failure<HubFault>>
        requires { says_message frame.now.body ≡ false }
        ensures { IsAnswered
            (unheard (peer_in_life self.old frame.now.inc).heard frame.now.number frame.now.body)
            (λ _.
            self.new
            ≡ told_by frame.now.body frame.now.number (peer_in_life self.old frame.now.inc))
            (self.new ≡ self.old) result }
    {
        if self.seen < frame.inc().get() {
            let mut heard = View::new(alloc);
            apply_update(alloc, &mut heard, frame.number(), frame.body())?;
            self.know(alloc, frame.inc());
            put_in(&mut self.heard, heard);
            return Ok(());
        }
        apply_update(alloc, &mut self.heard, frame.number(), frame.body())
    }

    /// Takes the message of a frame.
    pub fn take_message(&mut self, alloc: Global, frame: &Numbered)
        requires { says_message frame.now.body ≡ true }
        ensures { self.new
            ≡ told_by frame.now.body frame.now.number (peer_in_life self.old frame.now.inc) }
    {
        self.know(alloc, frame.inc());
        self.mark = frame.number();
    }
}
