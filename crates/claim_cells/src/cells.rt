//! The words of a race, and the calls on them.

ghost use Rattle.std.specs.Prelude.{◌≡◌, ℕ, ◌+◌, ◌<◌, ◌≤◌, [], true, false, IfOk, IsOk};
ghost use Rattle.subj.specs.declared.limits.TheConstants.{MAX_COUNTER, MAX_QUEUE_NAMES, MAX_SHARDS, WINDOW};
ghost use Rattle.claim_cells.specs.Rule.{Has, whole_view, fresh_hub};
ghost use Rattle.claim_cells.specs.Steps.{part_after_load, won_by, lost_by, finished_more, finished_one, issued_one};
ghost use Rattle.claim_cells.specs.Seats.{HasTurn, last_load, turns_seen};
ghost use Rattle.claim_cells.specs.Calls.{AllNew, AreLoads, IsIssuedOrBusy, IsLooked, ShowsRoom};

use crate::parts::View;
use crate::plays::{FirstPart, Ruled};
use crate::seats::{HubSeat, Place, ShardSeat};
use atomic_table::Table;
use std::alloc::{AllocError, Global};
use std::marker::Model;
use subj::{Busy, Finished, MAX_QUEUE_NAMES, Turn, WINDOW};

/// How many claim words a race has: one for each pair of a turn of the window and an index.
pub(crate) const CLAIM_WORDS: usize = (WINDOW * MAX_QUEUE_NAMES) as usize;

/// The race of a server's shards for the queue names of its publications, on threads and without a lock.
/// (NATS documentation, "Queue Groups"; turns, window, indices and cells: profile.)
///
/// The words are the last turn issued, the last turn that each shard finished, and a claim word for each
/// pair of a turn and an index of the window: turns that are a [`WINDOW`] apart share theirs. Each call
/// steps on the words with one seat, through a shared reference, so that the race may lie in an `Arc`; it
/// takes no memory and waits for nobody. Between any two steps the rule holds: each load is at most its
/// word; no shard is more than a window behind; a claim word has the greatest turn won there; no pair is
/// won twice, and each lost pair was won by another shard.
///
/// Seen as the race that it is, with its number of shards.
#[derive(Drop)]
pub struct Cells {
    pub(crate) table: Table<(), View, u64, Ruled, Global>,
    pub(crate) shards: u64,
    pub(crate) alloc: Global,
}

impl Model for Cells {
    ghost use Rattle.subj.specs.declared.limits.TheConstants.{MAX_QUEUE_NAMES, MAX_SHARDS, WINDOW};
    ghost use Rattle.claim_cells.specs.Seats.{IsCells, RaceId};

    ghost Value = { RaceId };

    ghost view = { λ cells. record { table = cells.table.shared.table_id; shards = cells.shards } };

    ghost invariant = { λ cells.
        IsCells WINDOW MAX_QUEUE_NAMES MAX_SHARDS cells.table.shared.table_id cells.table.shared.key
        cells.shards };
}

impl Cells {
    /// The words, and one seat that has all parts.
    pub(crate) fn deal(alloc: Global, shards: u64) -> Result<(Cells, Place), AllocError>
        requires first { 1 ≤ shards }
        requires last { shards ≤ MAX_SHARDS }
        ensures { IfOk result (λ t.
            (t.0.shards ≡ shards)
            × (t.1.table_id ≡ t.0.table)
            × (t.1.me ≡ (whole_view shards, []))) }
    {
        let words = vec![in alloc; 0; shards as usize + 1 + CLAIM_WORDS]?;
        let (table, place) = Table::of_words(alloc, words.as_slice(), &shards)?;
        Ok((
            Cells {
                table,
                shards,
                alloc,
            },
            place,
        ))
    }

    /// A race of so many shards in which no turn is issued yet; the hub's seat; and a seat for each shard,
    /// that of shard 1 first. Required: 1 to [`MAX_SHARDS`](subj::MAX_SHARDS) shards.
    pub fn new(alloc: Global, shards: u64) -> Result<(Cells, HubSeat, Vec<ShardSeat>), AllocError>
        requires first { 1 ≤ shards }
        requires last { shards ≤ MAX_SHARDS }
        ensures { IfOk result (λ t.
            (t.0.shards ≡ shards)
            × (t.1.race ≡ t.0)
            × (t.1.part ≡ fresh_hub)
            × AllNew t.0 shards t.2.items) }
    {
        let mut seats = Vec::with_capacity(alloc, shards as usize)?;
        let (cells, mut place) = Cells::deal(alloc, shards)?;
        for before in 0..shards {
            let part = cells.table.shared.split_seat::<FirstPart>(&mut place);
            seats.push(ShardSeat::fresh(part, before + 1))?;
        }
        Ok((
            cells,
            HubSeat {
                place,
                issued: Turn::zero(),
            },
            seats,
        ))
    }

    /// Loads the last turn that each shard finished, once and in the order of the shards.
    ///
    /// The seat keeps these loads; each is no lower than those of the shard before. Required: the seat is
    /// of this race.
    pub fn look(&self, seat: &mut HubSeat) -> Finished
        requires race { seat.old.race ≡ self.now }
        ensures race { seat.new.race ≡ seat.old.race }
        ensures told { IsLooked self.now.shards seat.old.part result seat.new.part }
        ensures loads { AreLoads self.now.shards seat.new.part result }
    {
        self.look_at_all(&mut seat.place)
    }

    /// Issues the next turn, by one load of each shard's last finished turn, made in this call.
    ///
    /// `Busy` just where by these the next turn is more than [`WINDOW`] turns beyond the last one that
    /// some shard finished; it names the first such shard and what was found of it. So it is never busy
    /// where the loads that the seat had before, as those of a [`Cells::look`], show room already. The seat
    /// keeps the loads. Required: the seat is of this race, and the last turn issued is below
    /// [`MAX_COUNTER`](subj::MAX_COUNTER).
    pub fn issue(&self, seat: &mut HubSeat) -> Result<Turn, Busy>
        requires race { seat.old.race ≡ self.now }
        requires limit { seat.old.part.issued < MAX_COUNTER }
        ensures race { seat.new.race ≡ seat.old.race }
        ensures told { IsIssuedOrBusy self.now.shards seat.old.part result seat.new.part }
        ensures sure { ShowsRoom self.now.shards seat.old.part → IsOk result }
    {
        let turn = self.issue_at(&mut seat.place, seat.issued)?;
        seat.issued = turn;
        Ok(turn)
    }

    /// Issues the next turn by the loads that the seat keeps, without another look at the shards. Required: the seat is of this race, its
    /// loads show room, and the last turn issued is below [`MAX_COUNTER`](subj::MAX_COUNTER).
    #[inline(always)]
    pub fn issue_shown(&self, seat: &mut HubSeat) -> Turn
        requires race { seat.old.race ≡ self.now }
        requires limit { seat.old.part.issued < MAX_COUNTER }
        requires room { ShowsRoom self.now.shards seat.old.part }
        ensures race { seat.new.race ≡ seat.old.race }
        ensures turn { result ≡ seat.old.part.issued + 1 }
        ensures part { seat.new.part ≡ issued_one seat.old.part }
    {
        let turn = seat.issued.next().unwrap();
        self.store_issued(&mut seat.place, turn);
        seat.issued = turn;
        turn
    }

    /// Loads the last turn issued.
    ///
    /// The seat keeps the load as its last one; it is no lower than those before. Required: the seat is of this race.
    pub fn see(&self, seat: &mut ShardSeat) -> Turn
        requires race { seat.old.race ≡ self.now }
        ensures race { seat.new.race ≡ seat.old.race }
        ensures part { seat.new.part ≡ part_after_load seat.old.part result }
        ensures last { last_load seat.new.part.loads ≡ result }
        ensures rises { (n : ℕ) → Has seat.old.part.loads n → n ≤ result }
    {
        seat.seen = self.load_issued(&mut seat.place);
        seat.seen
    }

    /// Claims the index in the seat's turn, the one behind the last that its shard finished, by one step
    /// on the claim word of the pair.
    ///
    /// True puts the pair into the seat's won list, false into its lost list. Required: the seat is of
    /// this race and has seen its turn ([`ShardSeat::has_turn`]); the index is at least
    /// [`ShardSeat::next_index`] and below [`MAX_QUEUE_NAMES`].
    pub fn claim(&self, seat: &mut ShardSeat, index: u64) -> bool
        requires race { seat.old.race ≡ self.now }
        requires turn { HasTurn seat.old.part }
        requires next { seat.old.part.next ≤ index }
        requires most { index < MAX_QUEUE_NAMES }
        ensures race { seat.new.race ≡ seat.old.race }
        ensures won { result ≡ true → seat.new.part ≡ won_by seat.old.part index }
        ensures lost { result ≡ false → seat.new.part ≡ lost_by seat.old.part index }
    {
        let turn = seat.finished.next().unwrap();
        let won = self.claim_at(&mut seat.place, turn, index);
        seat.next = index + 1;
        won
    }

    /// Whether another shard has won the index in the seat's turn, as one load of the claim word of the pair shows.
    ///
    /// True puts the pair into the seat's lost list, as a claim would; false leaves the seat as it was. Required: as for a claim.
    pub fn is_lost(&self, seat: &mut ShardSeat, index: u64) -> bool
        requires race { seat.old.race ≡ self.now }
        requires turn { HasTurn seat.old.part }
        requires next { seat.old.part.next ≤ index }
        requires most { index < MAX_QUEUE_NAMES }
        ensures race { seat.new.race ≡ seat.old.race }
        ensures lost { result ≡ true → seat.new.part ≡ lost_by seat.old.part index }
        ensures left { result ≡ false → seat.new.part ≡ seat.old.part }
    {
        let turn = seat.finished.next().unwrap();
        if !self.lose_at(&mut seat.place, turn, index) {
            return false;
        }
        seat.next = index + 1;
        true
    }

    /// The shard has done with the seat's turn. Required: as for a claim.
    pub fn finish(&self, seat: &mut ShardSeat)
        requires race { seat.old.race ≡ self.now }
        requires turn { HasTurn seat.old.part }
        ensures race { seat.new.race ≡ seat.old.race }
        ensures part { seat.new.part ≡ finished_one seat.old.part }
    {
        let turn = seat.finished.next().unwrap();
        self.finish_at(&mut seat.place, seat.shard, turn);
        seat.finished = turn;
        seat.next = 0;
    }

    /// The shard has done with so many turns from the seat's turn on: [`Cells::finish`] for each of them in
    /// order. Required: the seat is of this race and has seen that they are issued ([`ShardSeat::turns_seen`]).
    pub fn finish_many(&self, seat: &mut ShardSeat, turns: u64)
        requires race { seat.old.race ≡ self.now }
        requires seen { turns ≤ turns_seen seat.old.part }
        ensures race { seat.new.race ≡ seat.old.race }
        ensures part { seat.new.part ≡ finished_more turns seat.old.part }
    {
        for _turn in 0..turns {
            self.finish(seat);
        }
    }
}
