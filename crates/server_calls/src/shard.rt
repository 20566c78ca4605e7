//! The calls of a shard that is held.

ghost use Rattle.std.specs.Prelude.{◌≡◌, ℕ, List, ◌++◌};
ghost use Rattle.server_calls.specs.declared.shard.NextJob.{NextJob};

use client_calls::ClientCalls;
use shard_core::{DirtyConns, ShardFault};
use std::sync::Wait;
use subj::{ConnId, Failure};

/// What became of the next job of a shard.
#[derive(Clone, Copy, PartialEq, Eq)]
pub enum NextJob {
    /// It was worked to its end, and so were those behind it that could be worked with it: so many jobs
    /// together, at least one.
    Worked(u64),
    /// None can be begun.
    Nothing,
    /// There was no memory. It stays with the shard, and is gone on with where it stopped.
    Short,
}

/// A shard that is held until this is let go: no one else makes a call of it meanwhile.
///
/// It answers a publication with [`Outcome::Elsewhere`](client_calls::Outcome::Elsewhere).
pub trait ShardCalls: ClientCalls + Drop {
    // Which shard it is.
    ghost number: { Self → ℕ };

    /// Which shard it is, counted from 1.
    fn shard(&self) -> u64
        ensures { result ≡ number self.now };

    // From the first state its next job was worked, which came to this, and left the second.
    ghost worked: { Self → NextJob → Self → Type 0 };

    /// Works its next job, and with it those behind it that can be worked at once. May wait.
    fn work_next<R: Wait>(&mut self, rt: &R) -> NextJob
        ensures worked { worked self.old result self.new }
        ensures number { number self.new ≡ number self.old };

    /// Whether what was put for a client has come to so much that it is to be taken before more is worked.
    fn is_urgent(&self) -> bool;

    /// Whether the hub has not counted all that was opened and closed here.
    fn has_deltas(&self) -> bool;

    // From the first state these bytes were taken for this connection, of at most so many entries, and left the second.
    ghost takes: { Self → ℕ → ℕ → List ℕ → Self → Type 0 };

    /// Takes what waits for the client, at most so many entries, and encodes it behind what stands there.
    fn take_bytes(
        &mut self,
        conn: ConnId,
        count: usize,
        out: &mut Vec<u8>,
    ) -> Result<usize, Failure<ShardFault>>
        ensures taken { (bytes : List ℕ)
            × (out.new.items ≡ out.old.items ++ bytes)
            × takes self.old conn count bytes self.new }
        ensures number { number self.new ≡ number self.old };

    /// Whether the client's connection stands and is not shut.
    fn is_open(&self, conn: ConnId) -> bool;

    /// Hands out which clients something was put for since the last time, for those that were handed out then.
    fn swap_dirty_conns(&mut self, dirty_conns: &mut DirtyConns);
}
