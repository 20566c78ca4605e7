//! The limits of this edition, each by its name. All of them are this project's profile.

/// The most servers of a cluster.
pub const MAX_NODES: u64 = 16;
/// The most shards of a server.
pub const MAX_SHARDS: u64 = 16;
/// How many turns may be issued beyond the last one that every shard finished.
pub const WINDOW: u64 = 128;
/// The most queue names that one publication may reach.
pub const MAX_QUEUE_NAMES: u64 = 64;

/// The most bytes of a subject, a pattern or a reply.
pub const MAX_SUBJECT: usize = 1_024;
/// The most bytes of a subscription id.
pub const MAX_SID: usize = 64;
/// The most bytes of a queue name.
pub const MAX_QUEUE_NAME: usize = 64;
/// The most bytes of a server's name.
pub const MAX_NODE_NAME: usize = 32;
/// The most bytes of a payload.
pub const MAX_PAYLOAD: usize = 1_048_576;

/// The greatest incarnation of a server, 2^53 - 1.
pub const MAX_INCARNATION: u64 = 9_007_199_254_740_991;
/// The greatest number of a publication, a turn, a connection, an interest change or a dial.
pub const MAX_COUNTER: u64 = 999_999_999_999_999;
/// The greatest serial of a subscription.
pub const MAX_SERIAL: u64 = 499_999_999_999_999;

/// The most open subscriptions of a server. A shard has an equal share.
pub const SUBSCRIPTIONS: u64 = 65_536;
/// The most bytes that the open subscriptions of a server may count together. A shard has an
/// equal share.
pub const SUBSCRIPTION_BYTES: u64 = 4_194_304;
/// What a subscription, or a key of interest, counts beside the bytes of its pattern and its queue name.
pub const SUBSCRIPTION_COST: u64 = 24;
/// The most that one of them counts.
pub const MAX_COST: u64 = (MAX_SUBJECT + MAX_QUEUE_NAME) as u64 + SUBSCRIPTION_COST;

/// The most keys of a server's interest.
pub const MAX_KEYS: u64 = 65_536;
/// The greatest weight of a key.
pub const MAX_WEIGHT: u64 = 65_536;

/// The most entries of a client's outbox, its last line apart.
pub const OUTBOX_ENTRIES: usize = 1_024;
/// The most bytes of a client's outbox, its last line apart.
pub const OUTBOX_BYTES: usize = 8_388_608;
/// The most bytes of the last line of an outbox, its CR LF among them.
pub const LAST_LINE: usize = 64;
/// The most frames that wait for a peer.
pub const ROUTE_FRAMES: usize = 1_024;

/// The most bytes of a client's control line, without its CR LF.
pub const CLIENT_LINE: usize = 4_096;
/// The most bytes of a route's line, without its CR LF.
pub const ROUTE_LINE: usize = 8_192;
/// The most bytes of a snapshot of interest.
pub const MAX_SNAPSHOT: usize = 4_194_304;
/// The most bytes that are read at once.
pub const READ_BYTES: usize = 65_536;

/// The most sessions of a server.
pub const MAX_SESSIONS: u64 = 64;
/// The most bytes of a script.
pub const SCRIPT_BYTES: usize = 1_048_576;
/// The most events of a script.
pub const SCRIPT_EVENTS: u64 = 10_000;
/// What a `join` counts as among the events of a script.
pub const JOIN_EVENTS: u64 = 4;
