//! One server on threads: the hub and each shard under a lock of its own. Any thread may make its calls.
//!
//! ```text
//! let node: ThreadNode<ListTable, N> = ThreadNode::start(alloc, parts)?;
//! let conn = node.attach(rt, 1)?;
//! node.publish(rt, conn, &publication, 0)?;
//! let turned = node.turn(rt, 1, &Open);
//! let (hub, shards) = node.into_locked();
//! ```
//!
//! Read first: [`ThreadNode`], [`LockedShard`], [`LockedHub`]. The files in reading order: `locked` is what stands
//! under the locks, `node` the server: what it is made of, its locks and its threads, and how all of it drains; and
//! `serving` are the calls that the connections of a server make while a lock is held. What is written down under a
//! lock is `keeping`, of the entries in `hub_entries` and in `node_threads`.
//!
//! No call here tells a caller's pass, and none ends a server with a report: `thread_report` does, above the same
//! locks. It takes what it needs from here: the place of an entry on its tape (`entries_kept`), what is told of an
//! answer, and at the end what stood under the locks (`into_locked`), of each its state and its tape, and of the
//! hub also which server it is of (`into_parts`).
#![tactic(auto)]

mod hub_entries;
mod keeping;
mod locked;
mod node;
mod serving;

pub use hub_entries::{HubEntry, HubEvent, HubTold};
pub use keeping::{
    copy_of_pub, told_accepted, told_attached, told_collected, told_connected, told_cut,
    told_detached, told_dialed, told_drained, told_dropped, told_frames, told_headers,
    told_hub_drained, told_info, told_issued, told_received, told_replied, told_shut,
    told_subscribed, told_taken, told_unsubscribed,
};
pub use locked::{LockedHub, LockedShard};
pub use node::{
    HubSection, NO_SHARD, Parts, ShardSection, ThreadNode, answered_by_hub, answered_by_shard,
    drain_shards,
};
pub use node_threads::{Deltas, Gate, NodeName, Open, ShardEntry, ShardEvent, ShardTold, Turned};
pub use serving::{HeldHub, HeldShard};
