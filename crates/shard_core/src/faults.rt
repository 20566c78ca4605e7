//! Why a shard refuses.

ghost use Rattle.std.specs.Prelude.{◌≡◌};
ghost use Rattle.shard_core.specs.Faults.{shard_fault_number};

use std::error::Error;
use std::fmt::{self, Display, Formatter, Write};

/// Why a shard refuses an event. (Profile.)
#[derive(Clone, Copy, Debug, PartialEq, Eq)]
pub enum ShardFault {
    /// The connection is not there, or it is shut.
    NoConn = 50,
    /// A job is in hand already.
    JobInHand = 51,
    /// No job is in hand.
    NoJob = 52,
    /// The job's turn is not the one behind the last that was finished.
    WrongTurn = 53,
    /// The open subscriptions have come to the shard's share of a limit.
    TooManySubs = 54,
    /// The queue name is not the next one of the job in hand.
    BadIndex = 55,
    /// Not every queue name of the job in hand was tried.
    NotAllTried = 56,
    /// A counter has come to its limit.
    Spent = 57,
    /// The shard drains: it takes no subscription any more.
    Draining = 59,
}

impl ShardFault {
    /// The number that the router tells of this refusal.
    pub fn number(self) -> u16
        ensures { result ≡ shard_fault_number self }
    {
        self as u16
    }
}

impl Display for ShardFault {
    fn fmt<W: Write>(&self, f: &mut Formatter<W>) -> fmt::Result {
        f.write_str(match self {
            ShardFault::NoConn => "the connection is not there, or it is shut",
            ShardFault::JobInHand => "a job is in hand already",
            ShardFault::NoJob => "no job is in hand",
            ShardFault::WrongTurn => "the job is not of the turn behind the last that was finished",
            ShardFault::TooManySubs => "there is no place for one more subscription",
            ShardFault::BadIndex => "the queue name is not the next one of the job in hand",
            ShardFault::NotAllTried => "not every queue name of the job in hand was tried",
            ShardFault::Spent => "a counter has come to its limit",
            ShardFault::Draining => "the shard drains",
        })
    }
}

impl Error for ShardFault {}
