//! The seats with which the hub and the shards step on the words of their race.

ghost use Rattle.std.specs.Prelude.{◌≡◌, ◌<◌, ◌≤◌, nat_lt};
ghost use Rattle.subj.specs.Numbers.{next_turn};
ghost use Rattle.claim_cells.specs.Rule.{newcomer};
ghost use Rattle.claim_cells.specs.Steps.{part_of};
ghost use Rattle.claim_cells.specs.Seats.{IsShard, last_load, turns_seen};

use crate::parts::View;
use atomic_table::Seat;
use std::marker::Model;
use subj::Turn;

/// A seat at the words.
pub(crate) type Place = Seat<(), View>;

/// The seat that issues turns.
///
/// Seen as its race and what it knows: the last turn issued, and its loads of the shards' finished turns.
#[derive(Drop)]
pub struct HubSeat {
    pub(crate) place: Place,
    pub(crate) issued: Turn,
}

impl Model for HubSeat {
    ghost use Rattle.claim_cells.specs.Steps.{hub_of};
    ghost use Rattle.claim_cells.specs.Seats.{HubShown, IsHubSeat};

    ghost Value = { HubShown };

    ghost view = { λ seat. record {
      race = record { table = seat.place.table_id; shards = seat.place.me.0.count };
      part = hub_of seat.place.me;
    } };

    ghost invariant = { λ seat. IsHubSeat seat.place.me seat.issued };
}

impl HubSeat {
    /// The last turn issued.
    pub fn issued(&self) -> Turn
        ensures { result ≡ self.now.part.issued }
    {
        self.issued
    }
}

/// The seat of one shard.
///
/// Seen as its race and what it knows: its loads of the last turn issued, the last turn that the shard
/// finished, the least index that it may claim next, and the pairs that it won and lost.
#[derive(Drop)]
pub struct ShardSeat {
    pub(crate) place: Place,
    pub(crate) shard: u64,
    pub(crate) finished: Turn,
    pub(crate) next: u64,
    pub(crate) seen: Turn,
}

impl Model for ShardSeat {
    ghost use Rattle.claim_cells.specs.Steps.{part_of};
    ghost use Rattle.claim_cells.specs.Seats.{IsShardSeat, ShardShown};

    ghost Value = { ShardShown };

    ghost view = { λ seat. record {
      race = record { table = seat.place.table_id; shards = seat.place.me.0.count };
      part = part_of seat.place.me;
    } };

    ghost invariant = { λ seat.
        IsShardSeat seat.place.me seat.shard seat.finished seat.next seat.seen };
}

impl ShardSeat {
    /// The seat of a shard at the start.
    pub(crate) fn fresh(place: Place, shard: u64) -> ShardSeat
        requires first { 1 ≤ shard }
        requires last { shard ≤ place.me.0.count }
        requires whole { IsShard place.me }
        requires part { part_of place.me ≡ newcomer shard }
        ensures race { result.race ≡ record { table = place.table_id; shards = place.me.0.count } }
        ensures part { result.part ≡ newcomer shard }
    {
        ShardSeat {
            place,
            shard,
            finished: Turn::zero(),
            next: 0,
            seen: Turn::zero(),
        }
    }

    /// The shard, counted from 1.
    pub fn shard(&self) -> u64
        ensures same { result ≡ self.now.part.shard }
        ensures range { (1 ≤ result) × (result ≤ self.now.race.shards) }
    {
        self.shard
    }

    /// The turn in which the shard may claim: the one behind the last that it finished. None just where it
    /// has finished the last turn that there can be, [`MAX_COUNTER`](subj::MAX_COUNTER).
    pub fn turn(&self) -> Option<Turn>
        ensures { result ≡ next_turn self.now.part.finished }
    {
        self.finished.next()
    }

    /// Whether the seat has seen that its turn is issued, as a claim and a finish require.
    pub fn has_turn(&self) -> bool
        ensures { result ≡ nat_lt self.now.part.finished (last_load self.now.part.loads) }
    {
        self.finished < self.seen
    }

    /// How many turns from the seat's turn on it has seen issued: 0 where [`ShardSeat::has_turn`] is false.
    pub fn turns_seen(&self) -> u64
        ensures { result ≡ turns_seen self.now.part }
    {
        self.seen.get().saturating_sub(self.finished.get())
    }

    /// The last turn that the shard finished; 0 where it finished none.
    pub fn finished(&self) -> Turn
        ensures { result ≡ self.now.part.finished }
    {
        self.finished
    }

    /// The least index that it may claim next.
    pub fn next_index(&self) -> u64
        ensures { result ≡ self.now.part.next }
    {
        self.next
    }
}
