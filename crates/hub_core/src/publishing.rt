//! What a publish owes: a job for the server's own shards, a frame for each peer that is owed one, and who serves each queue name.

ghost use Rattle.std.specs.Prelude.{◌≡◌, ℕ, ◌+◌, ◌<◌, ◌≤◌, ◌++◌, ◌∷◌, [], true, length, slice_get, Some, IfOk, OnOk, if◌then◌else◌, ◌*◌, ◌&&◌, ◌||◌, option_to_list, take};
ghost use Rattle.std.specs.Option.{option_copied};
ghost use Rattle.std.specs.List.{count_by};
ghost use Rattle.subj.specs.declared.limits.TheConstants.{MAX_QUEUE_NAMES};
ghost use Rattle.subj.specs.Servers.{name_of, own_name};
ghost use Rattle.route_values.specs.declared.bodies.Body.TheVariants.{Msg};
ghost use Rattle.hub_core.specs.State.{Peer as KnownPeer};
ghost use Rattle.hub_core.specs.Choice.{is_eligible as eligible, weight_at as weighs, names_from};
ghost use Rattle.hub_core.specs.Publishing.{is_owed as owed};
ghost use Rattle.hub_core.specs.Chosen.{IsSplit, chosen_for, frame_at, sent_from, AreFound, wants_name_from, KnowsPlain};
ghost use Rattle.hub_core.specs.Serving.{is_alone_from};
ghost use Rattle.subj.specs.QueueNames.{is_named, are_queue_names};
ghost use Rattle.interest.specs.Matches.{has_plain_match, has_queue_match, names_in, AreGathered};

use crate::own_interest::OwnInterest;
use crate::peers::{Peer, frame_to};
use interest::{FoundNames, Local, TooManyNames};
use route_values::{Body, Numbered};
use std::alloc::{AllocError, Global};
use subj::{
    ConnId, Incarnation, Job, LentSubject, MAX_COUNTER, MAX_KEYS, MAX_WEIGHT, Message, NodeId,
    PubId, QueueName, QueueNames, ROUTE_FRAMES, ServerIdentity, Turn,
};

/// What a publish owes, found before anything is changed.
#[derive(Drop)]
pub struct PublishPlan {
    /// The job of the server's own shards.
    pub job: Job,
    /// The frames for the peers that are owed one, in the order of the servers.
    pub frames: Vec<Numbered>,
}

/// A message of this server, with its number, its queue names and the servers that serve them.
#[derive(Clone, Copy)]
pub(crate) struct Outgoing<'a> {
    pub alloc: Global,
    pub server: &'a ServerIdentity,
    pub number: u64,
    pub message: &'a Message,
    pub names: &'a QueueNames,
    pub servers: &'a [Option<NodeId>],
    /// By place, whether the server is a peer with a plain key that matches, where that is known.
    pub plain: Option<&'a [bool]>,
}

/// Whether the peer at the place has a plain key that matches: as it is known, or by a look at its keys.
fn has_plain(out: &Outgoing<'_>, place: usize, peer: &Peer) -> bool
    requires { KnowsPlain (option_copied out.now.plain) out.now.message.now.subject place peer.now }
    ensures { result ≡ has_plain_match out.now.message.now.subject peer.now.heard.keys }
{
    match out.plain {
        Some(plain) => plain[place],
        None => peer.heard.has_plain(&out.message.subject().lent()),
    }
}

/// Whether the peer has a plain key that matches, or was chosen for one of the names.
fn is_owed(out: &Outgoing<'_>, place: usize, peer: &Peer, queues: &QueueNames) -> bool
    requires { KnowsPlain (option_copied out.now.plain) out.now.message.now.subject place peer.now }
    ensures { result ≡ owed out.now.message.now.subject queues.now peer.now }
{
    has_plain(out, place, peer) || !queues.as_slice().is_empty()
}

/// Puts the frame for an incarnation of the peer at the place, with these queue names, behind the others.
fn put_message(
    out: &Outgoing<'_>,
    place: usize,
    inc: Incarnation,
    queues: QueueNames,
    frames: &mut Vec<Numbered>,
) -> Result<(), AllocError>
    requires place { place < length out.now.server.now.names }
    requires first { 1 ≤ out.now.number }
    requires last { out.now.number ≤ MAX_COUNTER }
    ensures { OnOk result (frames.new.items
        ≡ frames.old.items
        ++ record {
          from = own_name out.now.server.now;
          inc = out.now.server.now.inc;
          to = name_of out.now.server.now place;
          to_inc = inc;
          number = out.now.number;
          body = Msg out.now.message.now queues;
        }
        ∷ []) }
{
    let message = out.message.try_clone()?;
    let body = Body::Msg { message, queues };
    frames.push(frame_to(out.server, place, inc, out.number, body))?;
    Ok(())
}

/// Puts the frame for an eligible peer behind the others, where it is owed one: where it has a plain key that matches,
/// or was chosen for a queue name. Takes memory only for names, and for the copy of the message. (NATS documentation,
/// "Cluster Protocol": `RMSG`.)
#[inline(never)]
fn put_frame(
    out: &Outgoing<'_>,
    place: usize,
    peer: &Peer,
    frames: &mut Vec<Numbered>,
) -> Result<(), AllocError>
    requires split { IsSplit out.now.names.now out.now.servers.now }
    requires place { place < length out.now.server.now.names }
    requires first { 1 ≤ out.now.number }
    requires last { out.now.number ≤ MAX_COUNTER }
    requires seen { 1 ≤ peer.now.seen }
    requires eligible { eligible out.now.server.now place peer.now ≡ true }
    requires plain { KnowsPlain (option_copied out.now.plain) out.now.message.now.subject place
        peer.now }
    ensures { OnOk result (frames.new.items
        ≡ frames.old.items
        ++ frame_at out.now.server.now out.now.number out.now.message.now
        (chosen_for (name_of out.now.server.now place) out.now.names.now
        out.now.servers.now)
        place peer.now) }
{
    let to = out.server.names()[place];
    let queues = names_for(out.alloc, out.names, out.servers, to)?;
    if !is_owed(out, place, peer, &queues) {
        return Ok(());
    }
    put_message(out, place, peer.incarnation(), queues, frames)
}

/// The same for any peer: one that is not eligible is owed none.
#[tactic(auto, using(crate::proofs::Neighbours::Sending::eligible_up))]
fn add_frame(
    out: &Outgoing<'_>,
    place: usize,
    peer: &Peer,
    frames: &mut Vec<Numbered>,
) -> Result<(), AllocError>
    requires split { IsSplit out.now.names.now out.now.servers.now }
    requires place { place < length out.now.server.now.names }
    requires first { 1 ≤ out.now.number }
    requires last { out.now.number ≤ MAX_COUNTER }
    requires seen { peer.now.up ≡ true → 1 ≤ peer.now.seen }
    requires plain { KnowsPlain (option_copied out.now.plain) out.now.message.now.subject place
        peer.now }
    ensures { OnOk result (frames.new.items
        ≡ frames.old.items
        ++ frame_at out.now.server.now out.now.number out.now.message.now
        (chosen_for (name_of out.now.server.now place) out.now.names.now
        out.now.servers.now)
        place peer.now) }
{
    if !is_eligible(out.server, place, peer) {
        return Ok(());
    }
    put_frame(out, place, peer, frames)
}

/// The frames for all peers that are owed one, in the order of the servers.
#[inline(always)]
pub(crate) fn frames_for(out: &Outgoing<'_>, peers: &[Peer]) -> Result<Vec<Numbered>, AllocError>
    requires split { IsSplit out.now.names.now out.now.servers.now }
    requires placed { length peers.now ≡ length out.now.server.now.names }
    requires first { 1 ≤ out.now.number }
    requires last { out.now.number ≤ MAX_COUNTER }
    requires seen { (q : ℕ) (peer : KnownPeer)
        → slice_get peers.now q ≡ Some peer
        → peer.up ≡ true
        → 1 ≤ peer.seen }
    requires plain { (q : ℕ) (peer : KnownPeer)
        → slice_get peers.now q ≡ Some peer
        → KnowsPlain (option_copied out.now.plain) out.now.message.now.subject q peer }
    ensures { IfOk result (λ frames.
        frames.items
        ≡ sent_from out.now.server.now out.now.number out.now.message.now
        (λ server_name.
        chosen_for server_name out.now.names.now out.now.servers.now)
        0 peers.now) }
{
    let mut frames = Vec::new(out.alloc);
    for (place, peer) in peers.iter().enumerate() {
        add_frame(out, place, peer, &mut frames)?;
    }
    Ok(frames)
}

/// The job of the server's own shards, for a message of this connection.
#[inline(always)]
pub(crate) fn own_job(
    out: &Outgoing<'_>,
    turn: Turn,
    conn: ConnId,
    echo: bool,
) -> Result<Job, AllocError>
    requires split { IsSplit out.now.names.now out.now.servers.now }
    ensures { IfOk result (λ job.
        job ≡ record {
          turn = turn;
          id = record {
            origin = own_name out.now.server.now;
            inc = out.now.server.now.inc;
            number = out.now.number;
          };
          message = out.now.message.now;
          publisher = Some conn;
          echo = echo;
          queues =
              chosen_for (own_name out.now.server.now) out.now.names.now
              out.now.servers.now;
        }) }
{
    let queues = names_for(out.alloc, out.names, out.servers, out.server.name())?;
    let message = out.message.try_clone()?;
    let id = PubId {
        origin: out.server.name(),
        inc: out.server.inc(),
        number: out.number,
    };
    Ok(Job {
        turn,
        id,
        message,
        publisher: Some(conn),
        echo,
        queues,
    })
}

/// Whether the peer at the place is up, with room for one frame more.
pub(crate) fn is_eligible(server: &ServerIdentity, place: usize, peer: &Peer) -> bool
    ensures { result ≡ eligible server.now place peer.now }
{
    place != server.me() && (peer.up && peer.outbox.len() < ROUTE_FRAMES)
}

/// Whether no peer is eligible.
pub(crate) fn is_alone(server: &ServerIdentity, peers: &[Peer]) -> bool
    ensures { result ≡ is_alone_from server.now 0 peers.now }
{
    for (place, peer) in peers.iter().enumerate() {
        if is_eligible(server, place, peer) {
            return false;
        }
    }
    true
}

/// Whether the peer is eligible, and has a key with a queue name that matches the subject.
fn wants_name(server: &ServerIdentity, place: usize, peer: &Peer, subject: &LentSubject<'_>) -> bool
    ensures { result
        ≡ (eligible server.now place peer.now && has_queue_match subject.now peer.now.heard.keys) }
{
    is_eligible(server, place, peer) && peer.heard.has_queue(subject)
}

/// Whether some queue name wants the subject: whether [`gather_names`] would find any. Takes no memory.
pub(crate) fn is_name_wanted(
    server: &ServerIdentity,
    counts: &OwnInterest,
    peers: &[Peer],
    subject: &LentSubject<'_>,
) -> bool
    ensures { result
        ≡ (has_queue_match subject.now counts.now
        || wants_name_from server.now subject.now 0 peers.now) }
{
    if counts.has_queue(subject) {
        return true;
    }
    for (place, peer) in peers.iter().enumerate() {
        if wants_name(server, place, peer, subject) {
            return true;
        }
    }
    false
}

/// Adds the queue names that the peer wants, where it is eligible.
fn add_names<'a>(
    server: &ServerIdentity,
    place: usize,
    peer: &'a Peer,
    subject: &LentSubject<'_>,
    names: &mut FoundNames<'a>,
) -> Result<(), TooManyNames>
    ensures { AreGathered
        (if eligible server.now place peer.now
        then names_in subject.now peer.now.heard.keys names.old
        else names.old)
        names.new result }
{
    if is_eligible(server, place, peer) {
        return peer.heard.names_in(subject, names);
    }
    Ok(())
}

/// The queue names that want the subject: those of the server's own counts and of eligible peers, in the
/// order of bytes, gathered in `names`, where there are none yet. Refused where they are more than a
/// publication may have. Takes no memory. (Profile.)
pub(crate) fn gather_names<'a>(
    server: &ServerIdentity,
    counts: &'a Local,
    peers: &'a [Peer],
    subject: &LentSubject<'_>,
    names: &mut FoundNames<'a>,
) -> Result<(), TooManyNames>
    requires { names.old ≡ [] }
    ensures { AreFound
        (names_from server.now subject.now 0 peers.now (names_in subject.now counts.now []))
        names.new result }
{
    counts.names_in(subject, names)?;
    for (place, peer) in peers.iter().enumerate() {
        add_names(server, place, peer, subject, names)?;
    }
    let _count = names.len();
    Ok(())
}

/// What the server at the place weighs for the queue name. (Profile.)
pub(crate) fn weight_at(
    server: &ServerIdentity,
    counts: &Local,
    subject: &LentSubject<'_>,
    name: &QueueName,
    place: usize,
    peer: &Peer,
) -> u64
    ensures same { result ≡ weighs server.now counts.now subject.now name.now place peer.now }
    ensures most { result ≤ MAX_KEYS * MAX_WEIGHT }
{
    if place == server.me() {
        return counts.weight_in(subject, name);
    }
    if is_eligible(server, place, peer) {
        return peer.heard.weight_in(subject, name);
    }
    0
}

/// Whether the server was chosen.
fn is_chosen(server: &Option<NodeId>, name: NodeId) -> bool
    ensures { result ≡ is_named name server.now }
{
    match server {
        Some(server) => server.bytes() == name.bytes(),
        None => false,
    }
}

/// Puts a copy of the name behind the others, where it is to be put.
pub(crate) fn push_copy(
    alloc: Global,
    copies: &mut Vec<QueueName>,
    name: Option<&QueueName>,
    is_put: bool,
) -> Result<(), AllocError>
    ensures { OnOk result (copies.new.items
        ≡ copies.old.items ++ (if is_put then option_to_list (option_copied name.entry) else [])) }
{
    match name {
        Some(name) if is_put => copies.push(name.try_clone(alloc)?)?,
        _ => {}
    }
    Ok(())
}

/// Copies of the names for which the server of this name was chosen.
fn names_of(
    alloc: Global,
    names: &[QueueName],
    servers: &[Option<NodeId>],
    server_name: NodeId,
) -> Result<Vec<QueueName>, AllocError>
    requires { length names.now ≤ length servers.now }
    ensures { IfOk result (λ chosen. chosen.items ≡ chosen_for server_name names.now servers.now) }
{
    let mut chosen = Vec::new(alloc);
    for place in 0..names.len() {
        let is_put = is_chosen(&servers[place], server_name);
        push_copy(alloc, &mut chosen, Some(&names[place]), is_put)?;
    }
    Ok(chosen)
}

/// The same as a list that is shared.
#[inline(never)]
fn names_among(
    alloc: Global,
    names: &QueueNames,
    servers: &[Option<NodeId>],
    server_name: NodeId,
) -> Result<QueueNames, AllocError>
    requires all { length names.now ≤ length servers.now }
    requires ordered { are_queue_names (chosen_for server_name names.now servers.now) ≡ true }
    ensures { IfOk result (λ queues. queues ≡ chosen_for server_name names.now servers.now) }
{
    let chosen = names_of(alloc, names.as_slice(), servers, server_name)?;
    let queues = QueueNames::from_names(alloc, chosen)?;
    Ok(queues.unwrap())
}

/// For how many of so many names the server of this name was chosen.
fn count_chosen(servers: &[Option<NodeId>], count: usize, server_name: NodeId) -> usize
    requires { count ≤ length servers.now }
    ensures { result ≡ count_by (is_named server_name) (take count servers.now) }
{
    let mut chosen = 0;
    for place in 0..count {
        if is_chosen(&servers[place], server_name) {
            chosen += 1;
        }
    }
    chosen
}

/// The queue names for which the server of this name was chosen. Takes memory only where these are some of the names, and not all.
#[inline(always)]
pub(crate) fn names_for(
    alloc: Global,
    names: &QueueNames,
    servers: &[Option<NodeId>],
    server_name: NodeId,
) -> Result<QueueNames, AllocError>
    requires all { length names.now ≤ length servers.now }
    requires ordered { are_queue_names (chosen_for server_name names.now servers.now) ≡ true }
    ensures { IfOk result (λ queues. queues ≡ chosen_for server_name names.now servers.now) }
{
    let all = names.as_slice().len();
    let chosen = count_chosen(servers, all, server_name);
    if chosen == 0 {
        return Ok(QueueNames::new());
    }
    if chosen == all {
        return names.try_clone();
    }
    names_among(alloc, names, servers, server_name)
}
