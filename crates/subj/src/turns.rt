//! The turns in which a server works off its publications.

ghost use Rattle.std.specs.Prelude.{◌≡◌, ◌≤◌, slice_set, ◌-◌, length};
ghost use Rattle.subj.specs.Numbers.{turn_of, next_turn, finished_turn, no_turn_finished};

use crate::limits::{MAX_COUNTER, MAX_SHARDS};
use std::marker::Model;
use thiserror::Error;

/// The turn of a job: a server gives its jobs the turns 1, 2, .. in order, and each of its shards
/// works them off in that order. Turn 0 stands before the first. (Profile.)
///
/// Seen as its number, at most [`MAX_COUNTER`].
#[derive(Clone, Copy, Debug, PartialEq, Eq, PartialOrd, Ord)]
pub struct Turn {
    number: u64,
}

impl Model for Turn {
    ghost use Rattle.std.specs.Prelude.{ℕ, ◌≤◌};
    ghost use Rattle.subj.specs.declared.limits.TheConstants.{MAX_COUNTER};

    ghost Value = { ℕ };

    ghost view = { λ turn. turn.number };

    ghost invariant = { λ turn. turn.number ≤ MAX_COUNTER };

    ghost inverse = { λ number. record { number = number } };
}

impl Turn {
    /// The turn 0, before the first.
    pub fn zero() -> Turn
        ensures { result ≡ 0 }
    {
        Turn { number: 0 }
    }

    /// None just where the number is above [`MAX_COUNTER`].
    pub fn new(number: u64) -> Option<Turn>
        ensures { result ≡ turn_of number }
    {
        if number > MAX_COUNTER {
            return None;
        }
        Some(Turn { number })
    }

    /// Its number.
    pub fn get(self) -> u64
        ensures same { result ≡ self }
        ensures most { result ≤ MAX_COUNTER }
    {
        self.number
    }

    /// The turn behind it. None just where it is the last.
    pub fn next(self) -> Option<Turn>
        ensures { result ≡ next_turn self }
    {
        if self.number >= MAX_COUNTER {
            return None;
        }
        Some(Turn {
            number: self.number + 1,
        })
    }
}

/// The most shards, as the length of a list.
const SHARD_PLACES: usize = MAX_SHARDS as usize;

/// The last turn that each shard of a server finished; 0 for each shard that it does not have.
///
/// Seen as the list of those turns, [`MAX_SHARDS`] of them, that of shard 1 first. (Profile.)
#[derive(Clone, Copy, Debug, PartialEq, Eq)]
pub struct Finished {
    turns: [Turn; SHARD_PLACES],
}

impl Model for Finished {
    ghost use Rattle.std.specs.Prelude.{ℕ, List};

    ghost Value = { List ℕ };

    ghost view = { λ finished. finished.turns };

    ghost inverse = { λ turns. record { turns = turns } };
}

impl Finished {
    /// No shard has finished a turn.
    pub fn new() -> Finished
        ensures { result ≡ no_turn_finished }
    {
        Finished {
            turns: [Turn::zero(); SHARD_PLACES],
        }
    }

    /// The turn of a shard, counted from 1; 0 for one that can't be.
    pub fn of(&self, shard: u64) -> Turn
        ensures { result ≡ finished_turn self.now shard }
    {
        if shard == 0 {
            return Turn::zero();
        }
        match self.turns.get((shard - 1) as usize) {
            None => Turn::zero(),
            Some(turn) => *turn,
        }
    }

    /// The turns, that of shard 1 first.
    pub fn as_slice(&self) -> &[Turn]
        ensures same { result.now ≡ self.now }
        ensures len { length result.now ≡ MAX_SHARDS }
    {
        &self.turns
    }

    /// Notes the turn of a shard, counted from 1.
    pub fn set(&mut self, shard: u64, turn: Turn)
        requires first { 1 ≤ shard }
        requires last { shard ≤ MAX_SHARDS }
        ensures { self.new ≡ slice_set self.old (shard - 1) turn }
    {
        self.turns[(shard - 1) as usize] = turn;
    }
}

impl Default for Finished {
    ghost use Rattle.std.specs.Prelude.{◌≡◌};
    ghost use Rattle.subj.specs.Numbers.{no_turn_finished};

    ghost is_default = { λ finished. finished ≡ no_turn_finished };

    fn default() -> Finished {
        Finished::new()
    }
}

/// Why no turn is issued: this shard's last finished turn is too far behind. (Profile.)
#[derive(Clone, Copy, Debug, PartialEq, Eq, Error)]
#[error("shard {shard} is a whole window of turns behind")]
pub struct Busy {
    /// The first such shard, counted from 1.
    pub shard: u64,
    /// The last turn that it finished.
    pub finished: Turn,
}
