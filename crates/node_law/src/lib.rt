//! One server as definitions: its state, its events, its step, and what holds of every step and of every run.
//!
//! ```text
//! // A function that calls a law is proved with what the law says.
//! servers_keep_their_promises();
//! let attach = NodeEvent::at_shard(1, ShardWork::Attach);
//! let subscribe = NodeEvent::of_conn(conn, ConnEvent::Subscribe { key, sid });
//! ```
//!
//! A server is a hub, its sessions, its shards with the jobs that wait for them, and the race for claims, put
//! together. Each law is a function with an empty body. In code are only the events and the refusals.
//!
//! Read first: [`NodeEvent`], [`NodeFault`], [`servers_keep_their_promises`].
#![tactic(auto)]

mod events;
mod faults;
mod laws;

pub use events::{ConnEvent, NodeEvent, OwnEvent, ShardWork};
pub use faults::NodeFault;
pub use laws::{
    claims_place, counts_are_open, ended_turns_have_each_claim_once, hubs_stay_sound,
    outboxes_are_known, peers_are_kept, queue_messages_are_placed_once,
    queue_messages_are_put_once, queue_names_have_one_winner, races_follow_the_law,
    runs_stay_sound, servers_follow_the_law, servers_keep_their_promises, servers_stay_sound,
    shards_stay_held, turns_are_fresh, turns_have_one_job,
};
