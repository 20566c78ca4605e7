//! What the calls on a hub answer.

ghost use Rattle.std.specs.Prelude.{◌≡◌, []};

use interest::Change;
use std::alloc::Global;
use subj::Job;

/// What becomes of a frame that is taken.
#[derive(Drop)]
pub enum Received {
    /// The job of a message, with the queue names that its origin picked this server for.
    Routed(Job),
    /// News were heard: the number of the last change of interest that is known now.
    Heard(u64),
}

/// What was told of deltas that were counted.
#[derive(Drop)]
pub struct CollectResult {
    /// The changes that the peers are told, in their order.
    pub changes: Vec<Change>,
    /// The peers that were cut since they had no room for all of them, by their places.
    pub cut: Vec<usize>,
}

impl CollectResult {
    /// Nothing was told. Takes no memory.
    pub(crate) fn nothing(alloc: Global) -> CollectResult
        ensures changes { result.changes.items ≡ [] }
        ensures cut { result.cut.items ≡ [] }
    {
        CollectResult {
            changes: Vec::new(alloc),
            cut: Vec::new(alloc),
        }
    }
}
