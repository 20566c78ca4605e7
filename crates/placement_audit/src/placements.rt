//! Placements, one by one.

ghost use Rattle.std.specs.Prelude.{◌≡◌, ◌++◌, map, IfOk, OnOk};
ghost use Rattle.std.specs.List.{flat_map};
ghost use Rattle.world_law.specs.Changes.{placement_of as of_entry};
ghost use Rattle.cluster_world.specs.InCode.{placements_in, placing_server};
ghost use Rattle.placement_audit.specs.InCode.{placement_of};

use cluster_world::{LifeId, Placements};
use outbox::{Mode, Tag};
use shard_core::Placed;
use std::alloc::{AllocError, Global};
use subj::{ConnId, PubId};

/// A message that was put into the outbox of a connection, for a subscription.
#[derive(Drop)]
pub struct Placement {
    /// The step that put it.
    pub step: u64,
    /// The subscription.
    pub life: LifeId,
    /// The connection, at the subscription's server.
    pub conn: ConnId,
    /// The publication.
    pub id: PubId,
    /// How it came to the subscription.
    pub mode: Mode,
    /// All bytes that were put.
    pub bytes: Vec<u8>,
    /// Whether the connection took headers at that step.
    pub headers: bool,
}

/// Puts what an entry places behind the others: a message, or nothing where it is an answer or a last line.
fn push_placed(
    alloc: Global,
    placements: &mut Vec<Placement>,
    put: &Placements,
    placed: &Placed,
) -> Result<(), AllocError>
    ensures { OnOk result (map placement_of placements.new.items
        ≡ map placement_of placements.old.items
        ++ of_entry (placing_server put.now.node put.now.inc) put.now.step placed.now.conn
        placed.now.headers placed.now.entry.bytes placed.now.entry.tag) }
{
    let Tag::Msg { id, sub, mode } = placed.entry.tag() else {
        return Ok(());
    };
    let life = LifeId {
        node: put.node,
        inc: put.inc,
        sub: *sub,
    };
    let mode = mode.try_clone(alloc)?;
    let bytes = placed.entry.bytes(alloc)?;
    placements.push(Placement {
        step: put.step,
        life,
        conn: placed.conn,
        id: *id,
        mode,
        bytes,
        headers: placed.headers,
    })?;
    Ok(())
}

/// Puts what one step placed behind the others.
fn push_step(
    alloc: Global,
    placements: &mut Vec<Placement>,
    put: &Placements,
) -> Result<(), AllocError>
    ensures { OnOk result (map placement_of placements.new.items
        ≡ map placement_of placements.old.items ++ placements_in put.now) }
{
    for placed in &put.entries {
        push_placed(alloc, placements, put, placed)?;
    }
    Ok(())
}

/// Each message among what steps put, in order: a copy of it.
pub fn each_placement(alloc: Global, steps: &[Placements]) -> Result<Vec<Placement>, AllocError>
    ensures { IfOk result (λ placements.
        map placement_of placements.items ≡ flat_map placements_in steps.now) }
{
    let mut placements = Vec::new(alloc);
    for put in steps {
        push_step(alloc, &mut placements, put)?;
    }
    Ok(placements)
}
