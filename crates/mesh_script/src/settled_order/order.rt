//! The order: event behind event.

ghost use Rattle.std.specs.Prelude.{◌≡◌, ◌<◌, ◌++◌, ◌∷◌, [], length, IfOk, OnOk};
ghost use Rattle.std.specs.Str.{bytes_eq};
ghost use Rattle.subj.specs.Servers.{name_at};
ghost use Rattle.node_law.specs.Events.{AtShard};
ghost use Rattle.world_law.specs.Events.{At, Receive};
ghost use Rattle.settled_law.specs.Orders.{names_in_body, work_events, works_from, frames_order};
ghost use Rattle.cluster_world.specs.InCode.{event_of};
ghost use Rattle.mesh_script.specs.Owed.{events_in, planned_node, planned_order, OrdersAll};

use cluster_world::Event;
use hub_core::PublishPlan;
use node_core::{OwnEvent, ShardWork};
use route_values::{Body, Numbered};
use settled_law::some_order_is_right;
use std::alloc::{AllocError, Global};
use subj::NodeId;

/// Where a publication is made.
#[derive(Clone, Copy)]
pub struct Origin<'a> {
    /// The names of the cluster's servers, each at its place.
    pub names: &'a [NodeId],
    /// How many shards each has.
    pub shards: u64,
    /// The place of the server that publishes.
    pub node: usize,
    /// The number of the first frame that the publish sends.
    pub first: usize,
}

/// Puts an event behind the others.
#[tactic(auto, using(crate::proofs::settled_order::Orders::events_more))]
fn put(events: &mut Vec<Event>, event: Event) -> Result<(), AllocError>
    ensures { OnOk result (events_in events.new ≡ events_in events.old ++ event_of event ∷ []) }
{
    events.push(event)?;
    Ok(())
}

/// Puts the work of a shard.
fn put_at(
    events: &mut Vec<Event>,
    node: usize,
    shard: u64,
    work: ShardWork,
) -> Result<(), AllocError>
    ensures { OnOk result
        (events_in events.new ≡ events_in events.old ++ At node (AtShard shard work) ∷ []) }
{
    let event = OwnEvent::AtShard { shard, work };
    put(events, Event::At { node, event })
}

/// Puts the work of a shard on a job of so many queue names: it begins the job, claims each name, and ends the job.
fn put_work(events: &mut Vec<Event>, node: usize, shard: u64, names: u64) -> Result<(), AllocError>
    ensures { OnOk result
        (events_in events.new ≡ events_in events.old ++ work_events node shard names) }
{
    put_at(events, node, shard, ShardWork::Begin)?;
    for index in 0..names {
        put_at(events, node, shard, ShardWork::Claim { index })?;
    }
    put_at(events, node, shard, ShardWork::End)
}

/// Puts the work of each shard of a server.
fn put_works(
    events: &mut Vec<Event>,
    node: usize,
    shards: u64,
    names: u64,
) -> Result<(), AllocError>
    ensures { OnOk result
        (events_in events.new ≡ events_in events.old ++ works_from node 0 shards names) }
{
    for place in 0..shards {
        put_work(events, node, place + 1, names)?;
    }
    Ok(())
}

/// How many queue names a message has; news have none.
fn names_of(body: &Body) -> u64
    ensures { result ≡ names_in_body body.now }
{
    match body {
        Body::Msg { queues, .. } => queues.as_slice().len() as u64,
        _ => 0,
    }
}

/// Puts that a frame comes to its server, and the work of each shard on its job.
fn put_frame(
    events: &mut Vec<Event>,
    node: usize,
    shards: u64,
    number: usize,
    frame: &Numbered,
) -> Result<(), AllocError>
    ensures { OnOk result (events_in events.new
        ≡ events_in events.old
        ++ (Receive node number ∷ works_from node 0 shards (names_in_body frame.now.body))) }
{
    put(
        events,
        Event::Receive {
            node,
            frame: number,
        },
    )?;
    put_works(events, node, shards, names_of(frame.body()))
}

/// Whether the frame is for the server at this place.
fn is_for(frame: &Numbered, names: &[NodeId], node: usize) -> bool
    requires { node < length names.now }
    ensures { result ≡ bytes_eq frame.now.to (name_at names.now node) }
{
    frame.to().bytes() == names[node].bytes()
}

/// Puts that the first of these frames that is for the server at this place comes to it, and the work of each shard on its job;
/// nothing where none is for it. Want of memory also stands for more frames than can be counted.
fn put_frames(
    events: &mut Vec<Event>,
    origin: &Origin<'_>,
    node: usize,
    frames: &[Numbered],
) -> Result<(), AllocError>
    requires { node < length origin.now.names.now }
    ensures { OnOk result (events_in events.new
        ≡ events_in events.old
        ++ frames_order origin.now.names.now node origin.now.shards origin.now.first frames.now) }
{
    let mut number = origin.first;
    for frame in frames {
        if is_for(frame, origin.names, node) {
            return put_frame(events, node, origin.shards, number, frame);
        }
        let Some(next) = number.checked_add(1) else {
            return Err(AllocError);
        };
        number = next;
    }
    Ok(())
}

/// Puts the work of the server at this place, where the publication's own server has so many queue names to serve.
fn put_node(
    events: &mut Vec<Event>,
    origin: &Origin<'_>,
    node: usize,
    plan: &PublishPlan,
) -> Result<(), AllocError>
    requires { node < length origin.now.names.now }
    ensures { OnOk result (events_in events.new
        ≡ events_in events.old
        ++ planned_node origin.now.names.now origin.now.shards origin.now.node
        (length plan.now.job.queues) origin.now.first plan.now.frames.items node) }
{
    if node == origin.node {
        let names = plan.job.queues.as_slice().len() as u64;
        return put_works(events, node, origin.shards, names);
    }
    put_frames(events, origin, node, &plan.frames)
}

/// The work of all servers, in order of their places.
fn planned(alloc: Global, origin: &Origin<'_>, plan: &PublishPlan) -> Result<Vec<Event>, AllocError>
    ensures { IfOk result (λ order.
        events_in order
        ≡ planned_order origin.now.names.now origin.now.shards origin.now.node
        (length plan.now.job.queues) origin.now.first plan.now.frames.items 0
        (length origin.now.names.now)) }
{
    let mut events = Vec::new(alloc);
    for node in 0..origin.names.len() {
        put_node(&mut events, origin, node, plan)?;
    }
    Ok(events)
}

/// The work that is owed of a publication, where this is what its hub planned of it: server by server in order of their
/// places, and shard by shard. At the server that publishes each shard begins its job, claims each of the job's queue names in
/// turn, and ends it; another server that is owed a frame is handed it first, and its shards then do the same. It is an order
/// as [`World::settled_publish`](cluster_world::World::settled_publish) asks for.
///
/// Want of memory also stands for more frames than can be counted.
pub fn order_of(
    alloc: Global,
    origin: &Origin<'_>,
    plan: &PublishPlan,
) -> Result<Vec<Event>, AllocError>
    ensures { IfOk result (λ order.
        OrdersAll origin.now.node origin.now.names.now origin.now.shards origin.now.first plan.now
        (events_in order)) }
{
    some_order_is_right();
    planned(alloc, origin, plan)
}
