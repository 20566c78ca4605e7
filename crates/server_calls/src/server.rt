//! A server of one hub and some shards.

ghost use Rattle.std.specs.Prelude.{◌≡◌, ℕ, Option, Result, IfSome, IfNone};
ghost use Rattle.std.specs.declared.alloc.AllocError.{AllocError};
ghost use Rattle.hub_core.specs.declared.answers.CollectResult.{CollectResult};

use crate::hub::HubCalls;
use crate::shard::ShardCalls;
use hub_core::CollectResult;
use std::alloc::AllocError;
use std::sync::Wait;

/// A server whose hub and shards are held one at a time.
///
/// Whoever makes its calls holds at most one of them; only [`ServerCalls::collect`] holds two, and lets both go. [`ServerCalls::drain`] holds one
/// after another.
pub trait ServerCalls: Copy {
    /// A shard, held.
    type Shard: ShardCalls;

    /// The hub, held.
    type Hub: HubCalls;

    // How many shards it has.
    ghost count: { Self → ℕ };

    /// How many shards it has.
    fn shards(&self) -> u64
        ensures { result ≡ count self.now };

    // It has no shard of this number.
    ghost lacks: { Self → ℕ → Type 0 };

    /// Holds the shard of this number, from 1. None where there is no such shard. May wait.
    fn shard<R: Wait>(&self, rt: &R, number: u64) -> Option<Self::Shard>
        ensures some { IfSome result (λ held. Self.Shard.number held ≡ number) }
        ensures none { IfNone result (lacks self.now number) };

    /// Holds the hub. May wait.
    fn hub<R: Wait>(&self, rt: &R) -> Self::Hub;

    // The hub was asked to count what the shard of this number has opened and closed, and that came to this.
    ghost collected: { Self → ℕ → Result (Option CollectResult) AllocError → Type 0 };

    /// Has the hub count what the shard has opened and closed: what it tells of it. None where there is nothing, and where
    /// the hub refuses it. May wait.
    fn collect<R: Wait>(&self, rt: &R, shard: u64) -> Result<Option<CollectResult>, AllocError>
        ensures { collected self.now shard result };

    /// Has the hub tell the other servers that this one has no interest any more, and then each shard take no subscription any more: the
    /// places of the servers that are cut, since they had no room for it. None where nothing is told: the server drains already, or
    /// the numbers of changes are used up. For want of memory nothing is changed. May wait.
    fn drain<R: Wait>(&self, rt: &R) -> Result<Option<Vec<usize>>, AllocError>;
}
