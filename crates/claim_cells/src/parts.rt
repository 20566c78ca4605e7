//! What the seats of a race know, as contracts see it. No value of these types is made.

use std::collections::LinkedList;

/// What the hub's seat knows.
pub struct HubPart {
    /// The last turn issued.
    pub issued: u64,
    /// Its loads, each a shard and the last finished turn that was found of it.
    pub loads: LinkedList<(u64, u64)>,
}

/// What a shard's seat knows.
pub struct ShardPart {
    /// The shard, counted from 1.
    pub shard: u64,
    /// Its loads of the last turn issued.
    pub loads: LinkedList<u64>,
    /// The last turn that it finished.
    pub finished: u64,
    /// The least index that it may claim next.
    pub next: u64,
    /// The pairs of a turn and an index that it won.
    pub won: LinkedList<(u64, u64)>,
    /// Those that it lost.
    pub lost: LinkedList<(u64, u64)>,
}

/// The parts that a seat has.
pub struct View {
    /// That of the hub.
    pub hub: Option<HubPart>,
    /// Those of shards.
    pub shards: LinkedList<ShardPart>,
    /// The place among them of the part that acts.
    pub at: u64,
    /// How many shards the race has.
    pub count: u64,
}
