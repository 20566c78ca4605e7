//! The race of one thread: a table of the window's pairs.

ghost use Rattle.std.specs.Prelude.{◌≡◌, ◌+◌, ◌*◌, ◌<◌, position};
ghost use Rattle.subj.specs.declared.limits.TheConstants.{MAX_QUEUE_NAMES, WINDOW};
ghost use Rattle.claim_race.specs.Race.{busy_of, is_behind};
ghost use Rattle.claim_race.specs.PlainRace.{cell, finished_in, is_of_turn as holds_turn};

use crate::Race;
use std::alloc::{AllocError, Global};
use std::marker::Model;
use subj::{Busy, MAX_QUEUE_NAMES, Turn, WINDOW};

/// How many pairs of a turn and an index the window has.
const PLACES: usize = (WINDOW * MAX_QUEUE_NAMES) as usize;

/// How far a shard has come.
#[derive(Clone, Copy)]
struct Progress {
    /// The last turn that it finished.
    finished: Turn,
    /// The least index that it may claim next.
    next: u64,
}

/// The last claim that was won at a place of the table.
#[derive(Clone, Copy)]
struct Claimed {
    turn: Turn,
    index: u64,
    shard: u64,
}

/// A race that keeps who won in a table with a place for each pair of the window: turns that are a
/// window apart share their places.
#[derive(Drop)]
pub struct PlainRace {
    issued: Turn,
    progress: Vec<Progress>,
    table: Vec<Option<Claimed>>,
}

impl Model for PlainRace {
    ghost use Rattle.claim_race.specs.Race.{RaceState};

    ghost Value = { RaceState };

    ghost use Rattle.claim_race.specs.PlainRace.{race_of_table, finished_in, IsTable};

    ghost view = { λ race. race_of_table race.issued race.progress.items race.table.items };

    ghost invariant = { λ race.
        IsTable race.issued (finished_in race.progress.items) race.table.items };
}

/// The place of a pair in the table.
fn place_of(turn: Turn, index: u64) -> usize
    requires { index < MAX_QUEUE_NAMES }
    ensures place { result ≡ cell turn index }
    ensures within { result < WINDOW * MAX_QUEUE_NAMES }
{
    (turn.get() % WINDOW * MAX_QUEUE_NAMES + index) as usize
}

/// Whether the place holds a claim of the turn.
fn is_of_turn(held: Option<Claimed>, turn: Turn) -> bool
    ensures { result ≡ holds_turn turn held }
{
    match held {
        None => false,
        Some(claimed) => claimed.turn == turn,
    }
}

/// The place of the first shard that is too far behind for one more turn.
fn first_behind(issued: Turn, progress: &[Progress]) -> Option<usize>
    ensures { result ≡ position (λ shard. is_behind issued shard.finished) progress.now }
{
    let issued = issued.get();
    progress
        .iter()
        .position(|shard| shard.finished.get() + WINDOW < issued + 1)
}

/// Why no turn is issued, where some shard is too far behind.
#[tactic(auto, using(crate::proofs::Behind::no_busy, crate::proofs::Behind::some_busy))]
fn busy(issued: Turn, progress: &[Progress]) -> Option<Busy>
    ensures { result ≡ busy_of issued (finished_in progress.now) }
{
    match first_behind(issued, progress) {
        None => None,
        Some(place) => Some(Busy {
            shard: place as u64 + 1,
            finished: progress[place].finished,
        }),
    }
}

impl Race for PlainRace {
    ghost contents = { λ race. race };

    fn new(alloc: Global, shards: u64) -> Result<PlainRace, AllocError> {
        let start = Progress {
            finished: Turn::zero(),
            next: 0,
        };
        let progress = vec![in alloc; start; shards as usize]?;
        let table = vec![in alloc; None; PLACES]?;
        Ok(PlainRace {
            issued: Turn::zero(),
            progress,
            table,
        })
    }

    fn issue(&mut self) -> Result<Turn, Busy> {
        if let Some(busy) = busy(self.issued, &self.progress) {
            return Err(busy);
        }
        let turn = self.issued.next().unwrap();
        self.issued = turn;
        Ok(turn)
    }

    fn finished(&self, shard: u64) -> Turn {
        self.progress[(shard - 1) as usize].finished
    }

    fn claim(&mut self, shard: u64, turn: Turn, index: u64) -> bool {
        let place = place_of(turn, index);
        self.progress[(shard - 1) as usize].next = index + 1;
        if is_of_turn(self.table[place], turn) {
            return false;
        }
        self.table[place] = Some(Claimed { turn, index, shard });
        true
    }

    fn finish(&mut self, shard: u64, turn: Turn) {
        self.progress[(shard - 1) as usize] = Progress {
            finished: turn,
            next: 0,
        };
    }
}
