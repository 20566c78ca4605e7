//! One server as one value: its hub with its sessions, its shards with the jobs that wait for them, and the race
//! that decides their claims.
//!
//! ```text
//! let mut node: Node<ListTable, PlainRace> = Node::new(alloc, server)?;
//! let conn = node.attach(1)?;
//! node.subscribe(conn, key, sid)?;
//! node.publish(conn, &publication, 0)?;
//! node.begin(1, false)?;
//! ```
//!
//! Each call of [`Node`] is a step of the server, by the definitions of `node_law`; a list of events is a run of
//! such steps, which keeps the promises of one server.
//!
//! Read first: [`Node`], [`EventRef`], [`Did`]. The files in reading order: `event_ref` and `did` are what a server
//! is asked and what it did, `node` is the server with a call for each event, why it refuses, and a list of events;
//! `node/stepping` is the step of any event, with all that it did; `node/asked` has it for events that are lent.
#![tactic(auto)]

mod answers;
mod did;
mod event_ref;
mod node;
mod refused;

pub use answers::Answer;
pub use did::Did;
pub use event_ref::EventRef;
pub use node::Node;
pub use node_law::{
    ConnEvent, NodeEvent, NodeFault, OwnEvent, ShardWork, claims_place, counts_are_open,
    ended_turns_have_each_claim_once, hubs_stay_sound, outboxes_are_known, peers_are_kept,
    queue_messages_are_placed_once, queue_messages_are_put_once, queue_names_have_one_winner,
    races_follow_the_law, runs_stay_sound, servers_follow_the_law, servers_keep_their_promises,
    servers_stay_sound, shards_stay_held, turns_are_fresh, turns_have_one_job,
};
pub use node_parts::{Claimed, CollectResult, Issued, Received, ShardWithJobs};
pub use refused::Refused;
