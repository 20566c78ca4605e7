//! What tells servers' lives, publications, connections and subscriptions apart.

ghost use Rattle.std.specs.Prelude.{◌≡◌, ◌≤◌};
ghost use Rattle.subj.specs.Numbers.{incarnation_of};

use crate::limits::MAX_INCARNATION;
use crate::node_ids::NodeId;
use std::marker::Model;

/// One life of a server: a restarted server has a greater one. (Profile.)
///
/// Seen as its number, 1 to [`MAX_INCARNATION`].
#[derive(Clone, Copy, Debug, PartialEq, Eq, PartialOrd, Ord)]
pub struct Incarnation {
    number: u64,
}

impl Model for Incarnation {
    ghost use Rattle.std.specs.Prelude.{ℕ, ◌≤◌};
    ghost use Rattle.subj.specs.declared.limits.TheConstants.{MAX_INCARNATION};

    ghost Value = { ℕ };

    ghost view = { λ inc. inc.number };

    ghost invariant = { λ inc. (1 ≤ inc.number) × (inc.number ≤ MAX_INCARNATION) };

    ghost inverse = { λ number. record { number = number } };
}

impl Incarnation {
    /// None just where the number is 0 or above [`MAX_INCARNATION`].
    pub fn new(number: u64) -> Option<Incarnation>
        ensures { result ≡ incarnation_of number }
    {
        if number == 0 || number > MAX_INCARNATION {
            return None;
        }
        Some(Incarnation { number })
    }

    pub fn get(self) -> u64
        ensures same { result ≡ self }
        ensures least { 1 ≤ result }
        ensures most { result ≤ MAX_INCARNATION }
    {
        self.number
    }
}

/// A connection of a client, by its number. A server counts them from 1. (Profile.)
///
/// Seen as its number.
#[derive(Clone, Copy, Debug, PartialEq, Eq, PartialOrd, Ord)]
pub struct ConnId {
    number: u64,
}

impl Model for ConnId {
    ghost use Rattle.std.specs.Prelude.{ℕ};

    ghost Value = { ℕ };

    ghost view = { λ conn. conn.number };

    ghost inverse = { λ number. record { number = number } };
}

impl ConnId {
    pub fn new(number: u64) -> ConnId
        ensures { result ≡ number }
    {
        ConnId { number }
    }

    pub fn get(self) -> u64
        ensures { result ≡ self }
    {
        self.number
    }
}

/// A subscription of a server: its shard, and its serial there, both from 1. (Profile.)
#[derive(Clone, Copy, Debug, PartialEq, Eq)]
pub struct SubId {
    pub shard: u64,
    pub serial: u64,
}

/// A publication: the server that took it, in which of its lives, and its number among the
/// publications taken in that life, from 1. (Profile.)
#[derive(Clone, Copy, Debug, PartialEq, Eq)]
pub struct PubId {
    pub origin: NodeId,
    pub inc: Incarnation,
    pub number: u64,
}
