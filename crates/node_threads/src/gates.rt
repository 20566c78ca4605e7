//! A gate may hold a shard in its turn: it is told of each candidate, before its claim.

ghost use Rattle.std.specs.Prelude.{◌≤◌};

use claim_cells::{Cells, ShardSeat};
use shard_core::Claims;
use subj::Turn;

/// Is told of each candidate, before its claim. With it a test holds shards in mid-turn. (Profile.)
pub trait Gate: Sync {
    /// A shard, counted from 1, has a candidate for the queue name of this index, in this turn. Only that
    /// shard's lock is held.
    fn hold(&self, shard: u64, turn: Turn, index: u64);
}

/// A gate that holds nothing.
#[derive(Clone, Copy)]
pub struct Open;

impl Gate for Open {
    fn hold(&self, _shard: u64, _turn: Turn, _index: u64) {}
}

/// Tells the gate of a candidate for the queue name of this index, in this turn of the seat's shard. Required: its claim is
/// still to come.
pub(crate) fn tell<G: Gate>(gate: &G, seat: &ShardSeat, turn: Turn, index: u64)
    requires { seat.now.part.next ≤ index }
{
    gate.hold(seat.shard(), turn, index);
}

/// The turn of the seat's shard. Required: the claim of this index is still to come in it.
fn turn_to_claim(seat: &ShardSeat, _index: u64) -> Option<Turn>
    requires { seat.now.part.next ≤ _index }
{
    seat.turn()
}

/// The race, with a gate that is told of each candidate before its claim.
#[derive(Drop)]
pub(crate) struct GatedCells<'a, G: Gate> {
    pub(crate) cells: &'a Cells,
    pub(crate) gate: &'a G,
}

impl<'a, G: Gate> Claims<ShardSeat> for GatedCells<'a, G> {
    ghost use Rattle.std.specs.Prelude.{◌≡◌};
    ghost use Rattle.node_threads.specs.Turns.{SeatKept, claim_part, seat_kept};

    ghost Fixed = { SeatKept };

    ghost fixed = { seat_kept };

    ghost seats = { λ claims seat. seat.race ≡ claims.cells.now };

    ghost part = { λ seat. claim_part seat.part };

    fn is_lost(&self, seat: &mut ShardSeat) -> bool {
        self.cells.is_lost(seat, 0)
    }

    fn claim(&self, seat: &mut ShardSeat) -> bool {
        if let Some(turn) = turn_to_claim(seat, 0) {
            self.gate.hold(seat.shard(), turn, 0);
        }
        self.cells.claim(seat, 0)
    }

    fn finish(&self, seat: &mut ShardSeat) {
        self.cells.finish(seat);
    }
}
