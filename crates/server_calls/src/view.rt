//! A server as one of its loops sees it: with the shards that belong to the loop, and no other.

ghost use Rattle.std.specs.Prelude.{◌≡◌, ◌⊎◌, ◌-◌, ◌%◌, ◌≤◌, ◌<◌, nat_eq, false, None, Ok};
ghost use Rattle.subj.specs.declared.limits.TheConstants.{MAX_SHARDS};
ghost use Rattle.server_calls.specs.Loops.{place_in, place_of as place_of_shard, owns as owns_shard, shard_of, OneOwns};

use crate::server::ServerCalls;
use hub_core::CollectResult;
use std::alloc::AllocError;
use std::marker::Model;
use std::sync::Wait;
use subj::MAX_SHARDS;

/// Which of a server's loops it is, and how many the server has. The shard of number s, counted from 1, belongs to the loop at the place
/// (s - 1) mod loops. (Profile.)
///
/// Seen as both numbers.
#[derive(Clone, Copy)]
pub struct LoopPlace {
    place: u64,
    loops: u64,
}

impl Model for LoopPlace {
    ghost use Rattle.std.specs.Prelude.{◌<◌, ◌≤◌};
    ghost use Rattle.subj.specs.declared.limits.TheConstants.{MAX_SHARDS};
    ghost use Rattle.server_calls.specs.Loops.{Place};

    ghost Value = { Place };

    ghost view = { λ s. record { place = s.place; loops = s.loops } };

    ghost invariant = { λ s. (s.place < s.loops) × (s.loops ≤ MAX_SHARDS) };

    ghost inverse = { λ p. record { place = p.place; loops = p.loops } };
}

/// The place of the loop that the shard of this number belongs to, counted from 1, where there are so many loops.
fn place_of(loops: u64, shard: u64) -> u64
    requires { 0 < loops }
    ensures { result ≡ place_of_shard loops shard }
{
    shard.saturating_sub(1) % loops
}

impl LoopPlace {
    /// The loop at this place, counted from 0, of so many; None just where there is no such one, or there are more than [`MAX_SHARDS`].
    pub fn new(place: u64, loops: u64) -> Option<LoopPlace>
        ensures { result ≡ place_in place loops }
    {
        if place < loops && loops <= MAX_SHARDS {
            Some(LoopPlace { place, loops })
        } else {
            None
        }
    }

    /// The only loop of a server.
    pub fn alone() -> LoopPlace
        ensures { result ≡ record { place = 0; loops = 1 } }
    {
        LoopPlace { place: 0, loops: 1 }
    }

    /// Whether it is the first one, which has whatever a server has once.
    pub fn is_first(self) -> bool
        ensures { result ≡ nat_eq self.place 0 }
    {
        self.place == 0
    }

    /// Which loop it is, counted from 0.
    pub fn place(self) -> u64
        ensures { result ≡ self.place }
    {
        self.place
    }

    /// How many loops the server has.
    pub fn loops(self) -> u64
        ensures same { result ≡ self.loops }
        ensures some { 0 < result }
    {
        self.loops
    }

    /// Whether the shard of this number, counted from 1, belongs to the loop.
    pub fn owns(self, shard: u64) -> bool
        ensures { result ≡ owns_shard self shard }
    {
        place_of(self.loops, shard) == self.place
    }

    /// The shard of a client of the loop, who is counted from 1 among those of the loop, at a server with so many shards: its clients go to its own
    /// shards in turn. None just where the loop has none. Required: no server has more shards than [`MAX_SHARDS`].
    pub fn shard_of_client(self, client: u64, shards: u64) -> Option<u64>
        requires { shards ≤ MAX_SHARDS }
        ensures { result ≡ shard_of self shards client }
    {
        if shards <= self.place {
            return None;
        }
        let own = (shards - self.place + (self.loops - 1)) / self.loops;
        Some(client.saturating_sub(1) % own * self.loops + self.place + 1)
    }
}

/// The place of the loop that gets the client of this number, counted from 1 among all that its server has accepted: the one that has the shard of this
/// number, were all of them taken. Required: there are shards and loops.
pub fn loop_of_client(client: u64, shards: u64, loops: u64) -> u64
    requires shards { 0 < shards }
    requires loops { 0 < loops }
    ensures { result ≡ (client - 1) % shards % loops }
{
    client.saturating_sub(1) % shards % loops
}

/// Each shard belongs to just one of a server's loops.
pub fn one_loop_owns_each_shard()
    ensures { OneOwns }
{}

/// A server as one of its loops sees it.
#[derive(Clone, Copy)]
pub struct LoopView<C> {
    server: C,
    place: LoopPlace,
}

impl<C: ServerCalls> LoopView<C> {
    /// The server, as the loop at this place sees it.
    pub fn new(server: C, place: LoopPlace) -> LoopView<C> {
        LoopView { server, place }
    }
}

impl<C: ServerCalls> ServerCalls for LoopView<C> {
    type Shard = C::Shard;

    type Hub = C::Hub;

    ghost count = { λ view. C.count view.server };

    ghost lacks = { λ view number.
        (owns_shard view.place number ≡ false) ⊎ C.lacks view.server number };

    ghost collected = { λ view number came.
        ((owns_shard view.place number ≡ false) × (came ≡ Ok None))
        ⊎ C.collected view.server number came };

    fn shards(&self) -> u64 {
        self.server.shards()
    }

    fn shard<R: Wait>(&self, rt: &R, number: u64) -> Option<C::Shard> {
        if !self.place.owns(number) {
            return None;
        }
        self.server.shard(rt, number)
    }

    fn hub<R: Wait>(&self, rt: &R) -> C::Hub {
        self.server.hub(rt)
    }

    fn collect<R: Wait>(&self, rt: &R, shard: u64) -> Result<Option<CollectResult>, AllocError> {
        if !self.place.owns(shard) {
            return Ok(None);
        }
        self.server.collect(rt, shard)
    }

    fn drain<R: Wait>(&self, rt: &R) -> Result<Option<Vec<usize>>, AllocError> {
        self.server.drain(rt)
    }
}
