//! Names, subjects and matching, and the values that the crates of the router share.
//!
//! ```text
//! let pattern = Pattern::read(alloc, b"orders.*")?;
//! let subject = Subject::read(alloc, b"orders.new")?;
//! assert!(rt; pattern.matches(&subject.lent()));
//! ```
//!
//! Read first: [`Subject`], [`Message`], [`Job`]. The files in reading order: `limits` has every limit by its name;
//! `names` and `scans` judge bytes, which `subjects`, `patterns`, `queue_names`, `sids` and `node_ids` keep;
//! `keys`, `bodies`, `messages`, `identities`, `turns` and `jobs` are what the crates hand to one another;
//! `servers` is who is in the cluster; `failures` is how a call fails, and `faults` why bytes are no name.
#![tactic(auto)]

mod bodies;
mod failures;
mod faults;
mod hosts;
mod identities;
mod jobs;
mod keys;
mod limits;
mod messages;
mod names;
mod node_ids;
mod patterns;
mod queue_names;
mod scans;
mod servers;
mod sids;
mod subjects;
mod turns;

pub use bodies::{HEADER_START, MessageBody, is_header_block};
pub use failures::Failure;
pub use faults::NameFault;
pub use hosts::{HostText, MAX_HOST};
pub use identities::{ConnId, Incarnation, PubId, SubId};
pub use jobs::{Job, QueueNames};
pub use keys::{Delta, Key};
pub use limits::{
    CLIENT_LINE, JOIN_EVENTS, LAST_LINE, MAX_COST, MAX_COUNTER, MAX_INCARNATION, MAX_KEYS,
    MAX_NODE_NAME, MAX_NODES, MAX_PAYLOAD, MAX_QUEUE_NAME, MAX_QUEUE_NAMES, MAX_SERIAL,
    MAX_SESSIONS, MAX_SHARDS, MAX_SID, MAX_SNAPSHOT, MAX_SUBJECT, MAX_WEIGHT, OUTBOX_BYTES,
    OUTBOX_ENTRIES, READ_BYTES, ROUTE_FRAMES, ROUTE_LINE, SCRIPT_BYTES, SCRIPT_EVENTS,
    SUBSCRIPTION_BYTES, SUBSCRIPTION_COST, SUBSCRIPTIONS, WINDOW,
};
pub use messages::{Message, MessageParts, Pub};
pub use names::split_token;
pub use node_ids::NodeId;
pub use patterns::Pattern;
pub use queue_names::QueueName;
pub use servers::ServerIdentity;
pub use sids::Sid;
pub use subjects::{LentSubject, Reply, Subject};
pub use turns::{Busy, Finished, Turn};
