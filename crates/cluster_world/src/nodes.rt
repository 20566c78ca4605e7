//! The servers of a cluster, by place.

ghost use Rattle.std.specs.Prelude.{◌≡◌, ◌<◌, ◌&&◌, ◌∷◌, [], length, map, None, Some, IfOk, OnErr, replicate, slice_get, set, is_some};
ghost use Rattle.hub_core.specs.Chosen.{publication_by};
ghost use Rattle.hub_core.specs.Settled.{has_few_names};
ghost use Rattle.node_law.specs.Settled.{is_node_settled};
ghost use Rattle.settled_law.specs.Tests.{are_peers_settled, are_settled, are_roomy};
ghost use Rattle.world_law.specs.State.{Cluster, World};
ghost use Rattle.std.specs.Option.{option_map, option_copied};
ghost use Rattle.node_core.specs.Lent.{asked_of};
ghost use Rattle.world_law.specs.Refusals.{start_refusal, stop_refusal};
ghost use Rattle.cluster_world.specs.Value.{served_refusal, slot_refusal, IsMade, InPlace, inc_in, running_in, running_of, listed_of, server_in};
ghost use Rattle.std.specs.List.{flat_map};
ghost use Rattle.world_law.specs.Events.{frame_at as frame_of_number, numbered_event as numbered_frame, info_on as info_of_frame, connect_on as connect_of_frame, event_for};
ghost use Rattle.cluster_world.specs.InCode.{event_of, items_of};
ghost use Rattle.cluster_world.specs.Planned.{IsPlannedAt};

use crate::events::Event;
use crate::lists::{Lists, Noted, note};
use claim_race::Race;
use hub_core::PublishPlan;
use node_core::{Did, EventRef, Node, Refused};
use route_session::SessionId;
use route_values::RouteFrame;
use std::alloc::{AllocError, Global};
use std::marker::Model;
use sub_table::SubTable;
use subj::{ConnId, Failure, Incarnation, Message, Pub, ServerIdentity, Subject};
use world_law::WorldFault;

/// Puts a value in the place of another.
fn put_in<V: Drop>(place: &mut V, value: V)
    ensures { place.new ≡ value }
{
    *place = value;
}

/// What a server's step came to.
#[derive(Drop)]
pub(crate) struct Made {
    /// The server's incarnation.
    pub(crate) inc: Incarnation,
    pub(crate) noted: Noted,
    pub(crate) did: Did,
}

/// Whether each connection of the server has room for the messages that its open subscriptions are due of this one; so it is
/// where no server is up.
fn has_room_at<T: SubTable, R: Race>(slot: &Option<Node<T, R>>, message: &Message) -> bool
    ensures { result ≡ are_roomy message.now (running_in slot.now ∷ []) }
{
    match slot {
        None => true,
        Some(node) => node.has_room_for(message),
    }
}

/// What a publish at the server is planned as; nothing where it is refused.
fn plan_at<T: SubTable, R: Race>(
    node: &Node<T, R>,
    conn: ConnId,
    publication: &Pub,
    word: u64,
) -> Result<Option<PublishPlan>, AllocError>
    ensures { IfOk result (λ plan.
        IsPlannedAt (Some (Some node.now)) (publication_by conn publication.now word) plan) }
{
    match node.plan_publish(conn, publication, word) {
        Ok(plan) => Ok(Some(plan)),
        Err(Failure::Refused(_)) => Ok(None),
        Err(Failure::OutOfMemory) => Err(AllocError),
    }
}

/// What a publish at the place is planned as; nothing where there is no such place or no server is up there.
fn plan_in<T: SubTable, R: Race>(
    place: Option<&Option<Node<T, R>>>,
    conn: ConnId,
    publication: &Pub,
    word: u64,
) -> Result<Option<PublishPlan>, AllocError>
    ensures { IfOk result (λ plan.
        IsPlannedAt (option_copied place.entry) (publication_by conn publication.now word) plan) }
{
    match place {
        Some(Some(node)) => plan_at(node, conn, publication, word),
        _ => Ok(None),
    }
}

/// Why the server refuses the event; none of it where it hands over no frame.
fn served_fault<T: SubTable, R: Race>(
    node: &Node<T, R>,
    asked: &Option<EventRef<'_>>,
) -> Option<WorldFault>
    ensures { result ≡ served_refusal (option_map asked_of asked.now) node.now }
{
    match asked {
        None => Some(WorldFault::NoSuch),
        Some(asked) => Some(WorldFault::Node(node.fault_of(asked)?)),
    }
}

/// Why the event is refused at the place.
fn fault_in<T: SubTable, R: Race>(
    place: Option<&Option<Node<T, R>>>,
    asked: &Option<EventRef<'_>>,
) -> Option<WorldFault>
    ensures { result ≡ slot_refusal (option_map asked_of asked.now) (option_copied place.entry) }
{
    match place {
        None => Some(WorldFault::NoSuch),
        Some(None) => Some(WorldFault::NodeDown),
        Some(Some(node)) => served_fault(node, asked),
    }
}

/// Whether a server is up at the place; none where there is no such place.
fn is_up_in<T: SubTable, R: Race>(place: Option<&Option<Node<T, R>>>) -> Option<bool>
    ensures { result ≡ option_map is_some (option_copied place.entry) }
{
    Some(place?.is_some())
}

/// The incarnation of the server at the place; none where none is up there.
fn incarnation_in<T: SubTable, R: Race>(place: Option<&Option<Node<T, R>>>) -> Option<Incarnation>
    ensures { result ≡ inc_in (option_copied place.entry) }
{
    match place {
        Some(Some(node)) => Some(node.server().inc()),
        _ => None,
    }
}

/// The servers that are up, each at its place.
pub(crate) struct Nodes<T: SubTable, R: Race> {
    alloc: Global,
    slots: Vec<Option<Node<T, R>>>,
}

/// One call, also for crates above: `docs/PROVING.md`, "What a proof costs".
impl<T: SubTable, R: Race> Drop for Nodes<T, R> {
    fn drop(self) {
        let Nodes { alloc: _, slots: _ } = self;
    }
}

impl<T: SubTable, R: Race> Model for Nodes<T, R> {
    ghost use Rattle.std.specs.Prelude.{List, Option};
    ghost use Rattle.node_core.specs.Served.{Served};

    ghost Value = { List (Option Served) };

    ghost view = { λ nodes. nodes.slots.items };
}

impl<T: SubTable, R: Race> Nodes<T, R> {
    /// So many places, and no server is up.
    pub(crate) fn new(alloc: Global, count: usize) -> Result<Self, AllocError>
        ensures { IfOk result (λ nodes. nodes ≡ replicate count None) }
    {
        let mut slots = Vec::new(alloc);
        for _ in 0..count {
            slots.push(None)?;
        }
        Ok(Nodes { alloc, slots })
    }

    /// Whether the server at the place is up; none where there is no such place.
    pub(crate) fn is_up(&self, n: usize) -> Option<bool>
        ensures { result ≡ option_map is_some (slice_get self.now n) }
    {
        is_up_in(self.slots.get(n))
    }

    /// Whether the server at the place, this one, knows each other one as it runs; not where one is down. Takes no memory.
    fn is_met(&self, n: usize, node: &Node<T, R>) -> bool
        ensures { result ≡ are_peers_settled n (running_of node.now) 0 (map running_in self.now) }
    {
        for (place, slot) in self.slots.iter().enumerate() {
            let Some(other) = slot else {
                return false;
            };
            if place != n && !node.knows(place, other) {
                return false;
            }
        }
        true
    }

    /// Whether the server at the place is at rest, knows each other one, and has not too many queue names for the subject.
    fn is_settled_at(&self, n: usize, node: &Node<T, R>, subject: &Subject) -> bool
        ensures { result
            ≡ (is_node_settled node.now.node
            && (are_peers_settled n (running_of node.now) 0 (map running_in self.now)
            && has_few_names node.now.server node.now.node.hub subject.now)) }
    {
        node.is_settled() && self.is_met(n, node) && node.has_few_names(subject)
    }

    /// Whether every server is up, at rest, and known to the others, with not too many queue names for the subject. Takes no
    /// memory.
    pub(crate) fn are_settled(&self, subject: &Subject) -> bool
        ensures { (c : Cluster)
            → InPlace c self.now
            → result
            ≡ are_settled c subject.now (map running_in self.now) 0 (map running_in self.now) }
    {
        for (place, slot) in self.slots.iter().enumerate() {
            let Some(node) = slot else {
                return false;
            };
            if !self.is_settled_at(place, node, subject) {
                return false;
            }
        }
        true
    }

    /// Whether each connection of a server that is up has room for the messages that its open subscriptions are due of this
    /// one, all together. Takes no memory.
    pub(crate) fn have_room_for(&self, message: &Message) -> bool
        ensures { result ≡ are_roomy message.now (map running_in self.now) }
    {
        for slot in &self.slots {
            if !has_room_at(slot, message) {
                return false;
            }
        }
        true
    }

    /// Why the event is refused at the place; none of it where it hands over no frame. Takes no memory.
    pub(crate) fn fault(&self, n: usize, asked: &Option<EventRef<'_>>) -> Option<WorldFault>
        ensures { result ≡ slot_refusal (option_map asked_of asked.now) (slice_get self.now n) }
    {
        fault_in(self.slots.get(n), asked)
    }

    /// What a publish at the place is planned as; nothing where it is refused. It changes nothing.
    pub(crate) fn plan(
        &self,
        n: usize,
        conn: ConnId,
        publication: &Pub,
        word: u64,
    ) -> Result<Option<PublishPlan>, AllocError>
        ensures { IfOk result (λ plan.
            IsPlannedAt (slice_get self.now n) (publication_by conn publication.now word) plan) }
    {
        plan_in(self.slots.get(n), conn, publication, word)
    }

    /// Makes the step of the server at the place. Required: it is not refused. Want of memory leaves all as
    /// it was.
    pub(crate) fn step(
        &mut self,
        n: usize,
        asked: &Option<EventRef<'_>>,
        now: u64,
    ) -> Result<Made, AllocError>
        requires within { n < length self.old }
        requires cause { slot_refusal (option_map asked_of asked.now) (slice_get self.old n)
            ≡ None }
        ensures ok { IfOk result (λ made.
            IsMade n now (option_map asked_of asked.now) self.old made self.new) }
        ensures err { OnErr result (self.new ≡ self.old) }
    {
        let slot = &mut self.slots[n];
        // required: a server is up there
        let Some(node) = slot else { unreachable!() };
        // required: what is handed over is there
        let Some(asked) = asked else { unreachable!() };
        let inc = node.server().inc();
        let noted = match note(self.alloc, asked, node.next_id(), now) {
            Ok(noted) => noted,
            Err(error) => return Err(error),
        };
        match node.step_of(asked) {
            Ok(did) => Ok(Made { inc, noted, did }),
            Err(Refused::OutOfMemory) => Err(AllocError),
            // required: the server does not refuse it
            Err(Refused::Fault(_)) => unreachable!(),
        }
    }

    /// Puts a server at the place, or takes it away.
    pub(crate) fn put(&mut self, n: usize, node: Option<Node<T, R>>)
        requires { n < length self.old }
        ensures { self.new ≡ set self.old n node }
    {
        put_in(&mut self.slots[n], node);
    }

    /// The incarnation of the server at the place; none where none is up there.
    pub(crate) fn inc_at(&self, n: usize) -> Option<Incarnation>
        ensures { result ≡ inc_in (slice_get self.now n) }
    {
        incarnation_in(self.slots.get(n))
    }
}

/// The server of the cluster at the place, in this incarnation; none where there is no such place.
pub(crate) fn server_of(
    alloc: Global,
    server: &ServerIdentity,
    n: usize,
    inc: Incarnation,
) -> Result<Option<ServerIdentity>, AllocError>
    ensures { IfOk result (λ made. made ≡ server_in server.now n inc) }
{
    let names = Vec::from_slice(alloc, server.names())?;
    Ok(ServerIdentity::new(names, n, inc, server.shards()))
}

/// Why no server starts at the place with this incarnation. Takes no memory.
pub(crate) fn start_fault<T: SubTable, R: Race>(
    nodes: &Nodes<T, R>,
    lists: &Lists,
    n: usize,
    inc: Incarnation,
) -> Option<WorldFault>
    ensures { result
        ≡ start_refusal n inc (listed_of lists.now).started
        (option_map running_in (slice_get nodes.now n)) }
{
    match nodes.is_up(n) {
        None => Some(WorldFault::NoSuch),
        Some(true) => Some(WorldFault::NodeUp),
        Some(false) => lists
            .has_started(n, inc)
            .then_some(WorldFault::UsedIncarnation),
    }
}

/// Why no server stops at the place. Takes no memory.
pub(crate) fn stop_fault<T: SubTable, R: Race>(nodes: &Nodes<T, R>, n: usize) -> Option<WorldFault>
    ensures { result ≡ stop_refusal (option_map running_in (slice_get nodes.now n)) }
{
    match nodes.is_up(n) {
        None => Some(WorldFault::NoSuch),
        Some(true) => None,
        Some(false) => Some(WorldFault::NodeDown),
    }
}

/// The frame of this number among those sent, counted from 1.
pub(crate) fn frame_at(sent: &[Vec<RouteFrame>], number: usize) -> Option<&RouteFrame>
    ensures { option_copied result ≡ frame_of_number number (flat_map items_of sent.now) }
{
    if number == 0 {
        return None;
    }
    let mut left = number - 1;
    for frames in sent {
        if left < frames.len() {
            return Some(&frames[left]);
        }
        left -= frames.len();
    }
    None
}

/// The frame, where it is a numbered one, as what a server is asked.
fn numbered_ask(frame: Option<&RouteFrame>) -> Option<EventRef<'_>>
    ensures { option_map asked_of result ≡ numbered_frame (option_copied frame.entry) }
{
    match frame {
        Some(RouteFrame::Numbered(frame)) => Some(EventRef::Receive(frame)),
        _ => None,
    }
}

/// The frame, where it is an `INFO`, as what a server is asked on this session.
fn info_on(session: SessionId, frame: Option<&RouteFrame>) -> Option<EventRef<'_>>
    ensures { option_map asked_of result ≡ info_of_frame session (option_copied frame.entry) }
{
    match frame {
        Some(RouteFrame::Info(info)) => Some(EventRef::OnInfo(session, info)),
        _ => None,
    }
}

/// The frame, where it is a `CONNECT`, as what a server is asked on this session.
fn connect_on(session: SessionId, frame: Option<&RouteFrame>) -> Option<EventRef<'_>>
    ensures { option_map asked_of result ≡ connect_of_frame session (option_copied frame.entry) }
{
    match frame {
        Some(RouteFrame::Connect(connect)) => Some(EventRef::OnConnect(session, connect)),
        _ => None,
    }
}

/// What an event asks of the server that it is for; none where there is no frame of that kind with its
/// number.
pub(crate) fn asked_by<'a>(event: &'a Event, sent: &'a [Vec<RouteFrame>]) -> Option<EventRef<'a>>
    ensures { (w : World)
        → w.sent ≡ flat_map items_of sent.now
        → option_map asked_of result ≡ event_for w (event_of event.now) }
{
    match event {
        Event::Start { .. } | Event::Stop { .. } => None,
        Event::Receive { frame, .. } => numbered_ask(frame_at(sent, *frame)),
        Event::OnInfo { session, frame, .. } => info_on(*session, frame_at(sent, *frame)),
        Event::OnConnect { session, frame, .. } => connect_on(*session, frame_at(sent, *frame)),
        Event::At { event, .. } => Some(EventRef::Own(event)),
    }
}
