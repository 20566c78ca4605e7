//! The values behind the locks of a server on threads: the state of its hub and of each of its shards. The hub
//! hands jobs to the shards by lanes, and the shards race for claims. The locks themselves are those of
//! `thread_node`.
//!
//! ```text
//! let mut shard: ShardState<ListTable, N> = ShardState::new(alloc, seat, 1, far)?;
//! let conn = shard.attach()?;
//! hub.publish(&cells, conn, &publication, 0)?;
//! hub.push_jobs(rt);
//! let turned = shard.turn(rt, &cells, &Open, &mut Tape::new(alloc, false));
//! ```
//!
//! Read first: [`ShardState`], [`HubState`], [`Tape`]. The files in reading order: `node_name` ties the parts of
//! one server; `hub_state` and `shard_state` stand under the locks, the first with the hub's ends of the lanes
//! (`lane_sender`), the second with the turns of a shard, which a `Gate` may hold (`gates`), and which come to what
//! `turned` says. A `Tape` is what is kept in writing, of a shard in `shard_entries`. `laws` says that all this is
//! the server's own step.
#![tactic(auto)]

mod gates;
mod hub_state;
mod lane_sender;
mod laws;
mod node_name;
mod shard_entries;
mod shard_state;
mod turned;

pub use gates::{Gate, Open};
pub use hub_state::HubState;
pub use lane_sender::LaneSender;
pub use laws::sides_are_parts;
pub use node_name::NodeName;
pub use shard_entries::{Deltas, Placements, ShardEntry, ShardEvent, ShardTold, Tape};
pub use shard_state::ShardState;
pub use turned::Turned;
