//! What a turn comes to.

use subj::Turn;

/// What a turn of a shard comes to. (Profile.)
#[derive(Clone, Copy)]
pub enum Turned {
    /// No job can be begun: the lane was empty, or the job that was popped has a turn above the last one
    /// issued that the shard has seen. That job stays with the shard.
    Idle,
    /// The job of this turn was worked to its end.
    Worked(Turn),
    /// Jobs that waited, one or more, were worked to their ends in one call, as if one after the other.
    WorkedRun {
        /// How many, at least one.
        jobs: u64,
        /// The turn of the last of them.
        last: Turn,
    },
    /// There was no memory. The job stays with the shard, and the next turn goes on where this one stopped.
    Short,
}
