//! The race of one thread on the words of the lock-free one.

ghost use Rattle.claim_race.specs.Race.{RaceState};

use crate::cells::Cells;
use crate::seats::Place;
use claim_race::Race;
use std::alloc::{AllocError, Global};
use std::marker::Model;
use subj::{Busy, Finished, Turn};

/// A race on one seat that has all parts: that of the hub and those of the shards.
///
/// Seen as what a race shows. It forgets no claim that was won.
#[derive(Drop)]
pub struct CellsRace {
    cells: Cells,
    place: Place,
    issued: Turn,
    finished: Finished,
}

impl Model for CellsRace {
    ghost use Rattle.claim_race.specs.Race.{RaceState};
    ghost use Rattle.claim_cells.specs.OneSeat.{IsOneSeat, race_of_seat};

    ghost Value = { RaceState };

    ghost view = { λ race. race_of_seat race.place.me };

    ghost invariant = { λ race.
        IsOneSeat race.cells
        (record { table = race.place.table_id; shards = race.place.me.0.count }) race.place.me
        race.issued race.finished };
}

impl Race for CellsRace {
    ghost contents = { λ race. race };

    fn new(alloc: Global, shards: u64) -> Result<CellsRace, AllocError> {
        let (cells, place) = Cells::deal(alloc, shards)?;
        Ok(CellsRace {
            cells,
            place,
            issued: Turn::zero(),
            finished: Finished::new(),
        })
    }

    fn issue(&mut self) -> Result<Turn, Busy> {
        let cells = &self.cells;
        let turn = cells.issue_at(&mut self.place, self.issued)?;
        self.issued = turn;
        Ok(turn)
    }

    fn finished(&self, shard: u64) -> Turn {
        self.finished.of(shard)
    }

    fn claim(&mut self, shard: u64, turn: Turn, index: u64) -> bool {
        let cells = &self.cells;
        cells.load_finished(&mut self.place, shard);
        cells.load_issued(&mut self.place);
        cells.claim_at(&mut self.place, turn, index)
    }

    fn finish(&mut self, shard: u64, turn: Turn) {
        let cells = &self.cells;
        cells.load_finished(&mut self.place, shard);
        cells.load_issued(&mut self.place);
        cells.finish_at(&mut self.place, shard, turn);
        self.finished.set(shard, turn);
    }
}
