//! The steps on the words, with any seat that has the part that acts.

ghost use Rattle.std.specs.Prelude.{◌≡◌, ℕ, ◌+◌, ◌<◌, ◌≤◌, List, length, take};
ghost use Rattle.subj.specs.declared.limits.TheConstants.{MAX_COUNTER, MAX_QUEUE_NAMES, WINDOW};
ghost use Rattle.claim_race.specs.Race.{busy_of};
ghost use Rattle.claim_cells.specs.Rule.{Has};
ghost use Rattle.claim_cells.specs.Steps.{HasHub, HasPart, hub_of, part_of, IsLookedAt, IsIssuedAt, IsSeenAt, IsClaimedAt, IsSeenLostAt, IsFinishedAt};
ghost use Rattle.claim_cells.specs.Seats.{Sighted};
ghost use Rattle.claim_cells.specs.Calls.{IsIssueAt, IsRoundAt, finished_list};

use crate::cells::Cells;
use crate::plays::{Claim, Finish, Issue, Look, Lose, See};
use crate::seats::Place;
use subj::{Busy, Finished, MAX_QUEUE_NAMES, Turn, WINDOW};

/// The first shard that is too far behind for one more turn.
fn first_behind(issued: Turn, finished: &Finished, shards: u64) -> Option<Busy>
    requires { shards ≤ length finished.now }
    ensures { result ≡ busy_of issued (take shards finished.now) }
{
    for before in 0..shards {
        let turn = finished.of(before + 1);
        if turn.get() + WINDOW < issued.get() + 1 {
            return Some(Busy {
                shard: before + 1,
                finished: turn,
            });
        }
    }
    None
}

impl Cells {
    /// The hub loads the last turn that a shard finished. That shard's part acts from then on.
    pub(crate) fn load_finished(&self, place: &mut Place, shard: u64) -> Turn
        requires table { place.old.table_id ≡ self.now.table }
        requires hub { HasHub place.old.me }
        requires first { 1 ≤ shard }
        requires last { shard ≤ self.now.shards }
        ensures table { place.new.table_id ≡ place.old.table_id }
        ensures told { IsLookedAt MAX_COUNTER shard (hub_of place.old.me) place.old.me result
            place.new.me }
    {
        let found = self.table.shared.load::<Look>(place, shard as usize);
        Turn::new(found).unwrap()
    }

    /// The hub stores the next turn as issued.
    pub(crate) fn store_issued(&self, place: &mut Place, turn: Turn)
        requires table { place.old.table_id ≡ self.now.table }
        requires hub { HasHub place.old.me }
        requires next { turn ≡ (hub_of place.old.me).issued + 1 }
        requires near { (s : ℕ)
            → s < self.now.shards
            → (f : ℕ) × Has (hub_of place.old.me).loads (s + 1, f) × (turn ≤ f + WINDOW) }
        ensures table { place.new.table_id ≡ place.old.table_id }
        ensures told { IsIssuedAt (hub_of place.old.me) place.old.me place.new.me }
    {
        self.table.shared.store::<Issue>(place, 0, turn.get());
    }

    /// The shard that acts loads the last turn issued.
    pub(crate) fn load_issued(&self, place: &mut Place) -> Turn
        requires table { place.old.table_id ≡ self.now.table }
        requires part { HasPart place.old.me }
        ensures table { place.new.table_id ≡ place.old.table_id }
        ensures told { IsSeenAt MAX_COUNTER (part_of place.old.me) place.old.me result
            place.new.me }
    {
        let found = self.table.shared.load::<See>(place, 0);
        Turn::new(found).unwrap()
    }

    /// The shard that acts claims the index in its turn: it is won where the claim word was below the turn.
    pub(crate) fn claim_at(&self, place: &mut Place, turn: Turn, index: u64) -> bool
        requires table { place.old.table_id ≡ self.now.table }
        requires shards { place.old.me.0.count ≡ self.now.shards }
        requires part { HasPart place.old.me }
        requires turn { turn ≡ (part_of place.old.me).finished + 1 }
        requires seen { Sighted (part_of place.old.me) }
        requires next { (part_of place.old.me).next ≤ index }
        requires most { index < MAX_QUEUE_NAMES }
        ensures table { place.new.table_id ≡ place.old.table_id }
        ensures told { IsClaimedAt (part_of place.old.me) index place.old.me result place.new.me }
    {
        let turn = turn.get();
        let cell = turn % WINDOW * MAX_QUEUE_NAMES + index;
        let found = self
            .table
            .shared
            .fetch_max::<Claim>(place, (self.shards + 1 + cell) as usize, turn);
        found < turn
    }

    /// The shard that acts loads the claim word of the index in its turn: whether the pair is lost, since the word is at the turn.
    pub(crate) fn lose_at(&self, place: &mut Place, turn: Turn, index: u64) -> bool
        requires table { place.old.table_id ≡ self.now.table }
        requires shards { place.old.me.0.count ≡ self.now.shards }
        requires part { HasPart place.old.me }
        requires turn { turn ≡ (part_of place.old.me).finished + 1 }
        requires seen { Sighted (part_of place.old.me) }
        requires next { (part_of place.old.me).next ≤ index }
        requires most { index < MAX_QUEUE_NAMES }
        ensures table { place.new.table_id ≡ place.old.table_id }
        ensures told { IsSeenLostAt (part_of place.old.me) index place.old.me result place.new.me }
    {
        let turn = turn.get();
        let cell = turn % WINDOW * MAX_QUEUE_NAMES + index;
        let found = self
            .table
            .shared
            .load::<Lose>(place, (self.shards + 1 + cell) as usize);
        found >= turn
    }

    /// The shard that acts stores its turn as finished.
    pub(crate) fn finish_at(&self, place: &mut Place, shard: u64, turn: Turn)
        requires table { place.old.table_id ≡ self.now.table }
        requires part { HasPart place.old.me }
        requires shard { (part_of place.old.me).shard ≡ shard }
        requires first { 1 ≤ shard }
        requires last { shard ≤ self.now.shards }
        requires turn { turn ≡ (part_of place.old.me).finished + 1 }
        requires seen { Sighted (part_of place.old.me) }
        ensures table { place.new.table_id ≡ place.old.table_id }
        ensures told { IsFinishedAt (part_of place.old.me) place.old.me place.new.me }
    {
        self.table
            .shared
            .store::<Finish>(place, shard as usize, turn.get());
    }

    /// The hub loads the last turn that each shard finished, once and in the order of the shards.
    pub(crate) fn look_at_all(&self, place: &mut Place) -> Finished
        requires table { place.old.table_id ≡ self.now.table }
        requires hub { HasHub place.old.me }
        ensures table { place.new.table_id ≡ place.old.table_id }
        ensures told { (found : List ℕ)
            × IsRoundAt self.now.shards place.old.me found place.new.me
            × (result ≡ finished_list found) }
    {
        let mut finished = Finished::new();
        for before in 0..self.shards {
            finished.set(before + 1, self.load_finished(place, before + 1));
        }
        finished
    }

    /// The hub issues the next turn where by new loads no shard is too far behind.
    pub(crate) fn issue_at(&self, place: &mut Place, issued: Turn) -> Result<Turn, Busy>
        requires table { place.old.table_id ≡ self.now.table }
        requires hub { HasHub place.old.me }
        requires issued { (hub_of place.old.me).issued ≡ issued }
        requires limit { issued < MAX_COUNTER }
        ensures table { place.new.table_id ≡ place.old.table_id }
        ensures told { IsIssueAt self.now.shards place.old.me result place.new.me }
    {
        let finished = self.look_at_all(place);
        if let Some(busy) = first_behind(issued, &finished, self.shards) {
            return Err(busy);
        }
        let turn = issued.next().unwrap();
        self.store_issued(place, turn);
        Ok(turn)
    }
}
