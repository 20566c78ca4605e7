//! The end of a race.

ghost use Rattle.std.specs.Prelude.{◌≡◌, ℕ, ◌+◌, ◌*◌, ◌<◌, ◌≤◌, List, IfOk, length, drop, slice_index};
ghost use Rattle.subj.specs.declared.limits.TheConstants.{MAX_QUEUE_NAMES, MAX_SHARDS, WINDOW};
ghost use Rattle.claim_cells.specs.Rule.{cell};
ghost use Rattle.claim_cells.specs.Calls.{AllOf, HasEach, IsClosed, IsGathered, finished_list};

use crate::cells::{CLAIM_WORDS, Cells};
use crate::plays::Both;
use crate::seats::{HubSeat, ShardSeat};
use std::alloc::{AllocError, Global};
use std::marker::Model;
use subj::{Finished, MAX_QUEUE_NAMES, Turn, WINDOW};

/// What a race that is over left.
#[derive(Drop)]
pub struct Closed {
    /// The last turn issued.
    pub issued: Turn,
    /// The last turn that each shard finished.
    pub finished: Finished,
    /// For each pair of a turn of the window and an index, the greatest turn in which the index was won;
    /// 0 where it was not. The place of a pair is (turn mod [`WINDOW`]) x [`MAX_QUEUE_NAMES`] + index.
    pub cells: Vec<Turn>,
    ghost width: { length cells.items ≡ WINDOW * MAX_QUEUE_NAMES },
}

impl Closed {
    /// The greatest turn in which the index was won, of the turns that share the pair's place. Required:
    /// the index is below [`MAX_QUEUE_NAMES`].
    pub fn cell(&self, turn: Turn, index: u64) -> Turn
        requires { index < MAX_QUEUE_NAMES }
        ensures { result
            ≡ slice_index self.now.cells.items (cell WINDOW MAX_QUEUE_NAMES turn index) }
    {
        self.cells[(turn.get() % WINDOW * MAX_QUEUE_NAMES + index) as usize]
    }
}

/// The table of a race that is over. Seen as its words.
struct FinalTable {
    table: atomic_table::Closed<(), Global>,
}

impl Model for FinalTable {
    ghost use Rattle.std.specs.Prelude.{ℕ, List};
    ghost use Rattle.std.specs.Mem.Slots.{slots_items, slots_len, IsFull};
    ghost use Rattle.subj.specs.declared.limits.TheConstants.{MAX_COUNTER};
    ghost use Rattle.claim_cells.specs.Calls.{IsLast};

    ghost Value = { List ℕ };

    ghost view = { λ words. slots_items words.table.words };

    ghost invariant = { λ words.
        IsLast MAX_COUNTER (IsFull words.table.words) (slots_items words.table.words)
        (slots_len words.table.words) (slots_len words.table.slots) };
}

impl FinalTable {
    /// The word at the place.
    fn turn(&self, place: usize) -> Turn
        requires { place < length self.now }
        ensures { result ≡ slice_index self.now place }
    {
        Turn::new(self.table.word(place)).unwrap()
    }

    /// The finished words.
    fn finished(&self, shards: u64) -> Finished
        requires most { shards ≤ MAX_SHARDS }
        requires there { shards < length self.now }
        ensures { (found : List ℕ)
            × (length found ≡ shards)
            × ((s : ℕ) → s < shards → slice_index found s ≡ slice_index self.now (s + 1))
            × (result ≡ finished_list found) }
    {
        let mut finished = Finished::new();
        for before in 0..shards {
            finished.set(before + 1, self.turn(before as usize + 1));
        }
        finished
    }

    /// Copies the claim words, which begin at the place.
    fn copy_claim_words(&self, first: usize, cells: &mut Vec<Turn>)
        requires place { first ≤ MAX_SHARDS + 1 }
        requires width { length self.now ≡ first + length cells.old.items }
        ensures width { length cells.new.items ≡ length cells.old.items }
        ensures words { (c : ℕ)
            → c < length cells.old.items
            → slice_index cells.new.items c ≡ slice_index self.now (first + c) }
    {
        for place in 0..cells.len() {
            cells[place] = self.turn(first + place);
        }
    }
}

impl Drop for FinalTable {
    fn drop(self) {
        let Self { table } = self;
        table.free();
    }
}

impl Cells {
    /// Joins the seats, and ends the race.
    fn gather(self, hub: HubSeat, mut seats: Vec<ShardSeat>) -> FinalTable
        requires hub { hub.race ≡ self }
        requires shards { AllOf self seats.items }
        requires each { HasEach self.shards seats.items }
        ensures { IsGathered self hub.part seats.items result }
    {
        let Cells {
            table,
            shards: _,
            alloc: _,
        } = self;
        let HubSeat {
            mut place,
            issued: _,
        } = hub;
        while let Some(other) = seats.pop() {
            let ShardSeat {
                place: part,
                shard: _,
                finished: _,
                next: _,
                seen: _,
            } = other;
            table.shared.join_seat::<Both>(&mut place, part);
        }
        drop(seats);
        FinalTable {
            table: table.close_with(place),
        }
    }

    /// Ends the race. The words are those of the seats, and the rule holds of the seats' lists: no pair
    /// stands in two won lists or twice in one, and each lost pair stands in the won list of another shard.
    ///
    /// Required: all seats of this race, those of the shards in any order. Want of memory comes before
    /// anything is joined; the race is given up then too.
    pub fn close(self, hub: HubSeat, seats: Vec<ShardSeat>) -> Result<Closed, AllocError>
        requires hub { hub.race ≡ self }
        requires shards { AllOf self seats.items }
        requires each { HasEach self.shards seats.items }
        ensures { IfOk result (λ closed.
            IsClosed self hub.part seats.items closed.issued closed.finished closed.cells.items) }
    {
        let mut cells = vec![in self.alloc; Turn::zero(); CLAIM_WORDS]?;
        let shards = self.shards;
        let words = self.gather(hub, seats);
        words.copy_claim_words(shards as usize + 1, &mut cells);
        Ok(Closed {
            issued: words.turn(0),
            finished: words.finished(shards),
            cells,
        })
    }
}
