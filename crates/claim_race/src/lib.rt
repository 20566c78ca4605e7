//! The race of a server's shards for the queue names of a publication: at most one shard wins each name.
//!
//! ```text
//! let mut race = PlainRace::new(alloc, 2)?;
//! let turn = race.issue()?;
//! assert!(rt; race.claim(1, turn, 0));
//! assert!(rt; !race.claim(2, turn, 0));
//! race.finish(1, turn);
//! ```
//!
//! Read first: [`Race`], [`PlainRace`].
#![tactic(auto)]

ghost use Rattle.std.specs.Prelude.{◌≡◌, ◌<◌, ◌≤◌, IfOk};
ghost use Rattle.subj.specs.Answers.{IsDecided};
ghost use Rattle.subj.specs.declared.limits.TheConstants.{MAX_COUNTER, MAX_SHARDS};
ghost use Rattle.claim_race.specs.Race.{RaceState, IsNew, IsInTurn, IsNextIndex, shards_of, finished_of, busy_of, IsIssued, IsClaimed, IsFinished};

mod plain_race;

pub use plain_race::PlainRace;
use std::alloc::{AllocError, Global};
pub use subj::Busy;
use subj::Turn;

/// The race that the shards of a server run for each queue name of a publication, so that one member of
/// each group gets it. (NATS documentation, "Queue Groups"; turns, window and indices: profile.)
///
/// A job has a turn; a shard that has a candidate for the job's queue name of some index claims the pair
/// (turn, index). At most one claim of a pair is won. A race knows who won over the window, the newest
/// [`WINDOW`](subj::WINDOW) turns issued; what was won in older turns it may forget. Shards are counted
/// from 1, indices from 0.
///
/// Only `new` takes memory.
pub trait Race: Sized + Drop {
    ghost use Rattle.claim_race.specs.Race.{RaceState};

    /// What the race shows: turns issued and finished, next indices, and the claims won.
    ghost contents: { Self → RaceState };

    /// A race of so many shards, with no turn issued. Required: 1 to [`MAX_SHARDS`](subj::MAX_SHARDS)
    /// shards.
    fn new(alloc: Global, shards: u64) -> Result<Self, AllocError>
        requires first { 1 ≤ shards }
        requires last { shards ≤ MAX_SHARDS }
        ensures { IfOk result (λ race. IsNew shards (contents race)) };

    /// Issues the next turn, in which nothing is won yet.
    ///
    /// `Busy` just where the next turn is more than [`WINDOW`](subj::WINDOW) turns beyond the last one
    /// that some shard finished; it names the first such shard and that turn, and nothing changes.
    /// Required: the last turn issued is below [`MAX_COUNTER`](subj::MAX_COUNTER).
    fn issue(&mut self) -> Result<Turn, Busy>
        requires { (contents self.old).issued < MAX_COUNTER }
        ensures { let old = contents self.old in
            IsDecided (busy_of old.issued old.finished)
            (λ turn. IsIssued old turn (contents self.new)) (contents self.new ≡ old) result };

    /// The last turn that the shard finished, 0 before the first.
    fn finished(&self, shard: u64) -> Turn
        requires first { 1 ≤ shard }
        requires last { shard ≤ shards_of (contents self.now) }
        ensures { result ≡ finished_of (contents self.now) shard };

    /// Claims the index for the shard in the turn: true just where no shard had won the pair, which this
    /// shard then has. Required: the turn stands behind the last one that the shard finished and is
    /// issued; the index is below [`MAX_QUEUE_NAMES`](subj::MAX_QUEUE_NAMES) and above each that the
    /// shard claimed in the turn.
    fn claim(&mut self, shard: u64, turn: Turn, index: u64) -> bool
        requires turn { IsInTurn (contents self.old) shard turn }
        requires index { IsNextIndex (contents self.old) shard index }
        ensures { IsClaimed (contents self.old) shard turn index result (contents self.new) };

    /// The shard has done with the turn. Required: as for a claim.
    fn finish(&mut self, shard: u64, turn: Turn)
        requires { IsInTurn (contents self.old) shard turn }
        ensures { IsFinished (contents self.old) shard turn (contents self.new) };
}
