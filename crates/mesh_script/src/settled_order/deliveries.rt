//! The work behind a publish that is delivered.

ghost use Rattle.std.specs.Prelude.{◌≡◌, IfOk};
ghost use Rattle.hub_core.specs.Chosen.{publication_by};
ghost use Rattle.mesh_script.specs.Owed.{events_in, work_owed, is_ready as ready, delivery as delivered, IsOwedOrder};

use crate::settled_order::order::{Origin, order_of};
use claim_race::Race;
use cluster_world::{Event, World};
use settled_law::some_order_is_right;
use std::alloc::{AllocError, Global};
use sub_table::SubTable;
use subj::{ConnId, Pub};

/// The work that a publish makes; none where it is refused.
fn work_of<T: SubTable, R: Race>(
    alloc: Global,
    world: &World<T, R>,
    node: usize,
    conn: ConnId,
    publication: &Pub,
    word: u64,
) -> Result<Vec<Event>, AllocError>
    ensures { IfOk result (λ order.
        events_in order
        ≡ work_owed world.now.cluster world.now.world node
        (publication_by conn publication.now word)) }
{
    let first = world.next_frame()?;
    let origin = Origin {
        names: world.names(),
        shards: world.shards(),
        node,
        first,
    };
    let planned = world.plan_publish(node, conn, publication, word)?;
    match planned {
        None => Ok(Vec::new(alloc)),
        Some(plan) => order_of(alloc, &origin, &plan),
    }
}

/// Whether the cluster is settled for the publication, and has room for it.
fn is_ready<T: SubTable, R: Race>(world: &World<T, R>, publication: &Pub) -> bool
    ensures { result ≡ ready world.now.cluster world.now.world publication.now.message }
{
    world.settled_for(publication.message.subject()) && world.room_for(publication)
}

/// The work that a publish makes; none where the cluster is not ready for it.
fn ready_work<T: SubTable, R: Race>(
    alloc: Global,
    world: &World<T, R>,
    node: usize,
    conn: ConnId,
    publication: &Pub,
    word: u64,
) -> Result<Vec<Event>, AllocError>
    ensures { IfOk result (λ order.
        events_in order
        ≡ delivered world.now.cluster world.now.world node
        (publication_by conn publication.now word)) }
{
    if !is_ready(world, publication) {
        return Ok(Vec::new(alloc));
    }
    work_of(alloc, world, node, conn, publication, word)
}

/// The work that a publish of the connection at the server of this place makes, in an order of its own, where the cluster is
/// settled for it ([`World::settled_for`]) and has room ([`World::room_for`]); else, and where the publish is refused, nothing. It
/// goes server by server and shard by shard, and is an order as [`World::settled_publish`] asks for.
///
/// Want of memory also stands for more frames than can be counted.
pub fn delivery<T: SubTable, R: Race>(
    alloc: Global,
    world: &World<T, R>,
    node: usize,
    conn: ConnId,
    publication: &Pub,
    word: u64,
) -> Result<Vec<Event>, AllocError>
    ensures same { IfOk result (λ order.
        events_in order
        ≡ delivered world.now.cluster world.now.world node
        (publication_by conn publication.now word)) }
    ensures right { IfOk result (λ order.
        IsOwedOrder world.now.cluster world.now.world node
        (publication_by conn publication.now word) (events_in order)) }
{
    some_order_is_right();
    world.takes_where_settled();
    let _shards = world.shards();
    ready_work(alloc, world, node, conn, publication, word)
}
