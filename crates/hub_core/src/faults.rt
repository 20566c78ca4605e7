//! Why a hub refuses.

ghost use Rattle.std.specs.Prelude.{◌≡◌};
ghost use Rattle.hub_core.specs.Faults.{hub_fault_number};

use std::error::Error;
use std::fmt;
use std::fmt::{Display, Formatter, Write};
use subj::Busy;

/// Why a hub refuses an event. (Profile.)
#[derive(Clone, Copy, Debug, PartialEq, Eq)]
pub enum HubFault {
    /// The server drains already.
    Draining,
    /// A shard is a whole window behind: no turn can be issued.
    Busy(Busy),
    /// A publication would reach too many queue names.
    TooManyQueues,
    /// A counter has come to its limit.
    Spent,
    /// A frame is for another server.
    NotMe,
    /// A frame is for another incarnation of this server.
    OtherMe,
    /// A frame is of a server that is not listed, or of this one.
    NotInCluster,
    /// A frame is of an incarnation below the greatest seen of its server.
    StaleOrigin,
    /// A publication or a change of interest was taken already.
    Late,
    /// A change of interest is not the next one.
    Gap,
    /// A change of interest does not fit what it changes.
    BadInterest,
}

impl HubFault {
    /// The number that the router tells of this refusal.
    pub fn number(self) -> u16
        ensures { result ≡ hub_fault_number self }
    {
        match self {
            HubFault::Draining => 59,
            HubFault::Busy(_) => 60,
            HubFault::TooManyQueues => 61,
            HubFault::Spent => 62,
            HubFault::NotMe => 63,
            HubFault::OtherMe => 64,
            HubFault::NotInCluster => 65,
            HubFault::StaleOrigin => 66,
            HubFault::Late => 67,
            HubFault::Gap => 68,
            HubFault::BadInterest => 69,
        }
    }

    /// The refusal in words, without its values.
    fn words(self) -> &'static str {
        match self {
            HubFault::Busy(_) => "a shard is a whole window behind",
            HubFault::Draining => "the server drains already",
            HubFault::TooManyQueues => "the publication would reach too many queue names",
            HubFault::Spent => "a counter has come to its limit",
            HubFault::NotMe => "the frame is for another server",
            HubFault::OtherMe => "the frame is for another incarnation of this server",
            HubFault::NotInCluster => "the frame is of no other server of the cluster",
            HubFault::StaleOrigin =>
                "the frame is of an incarnation below the greatest seen of its server",
            HubFault::Late => "the publication or the change was taken already",
            HubFault::Gap => "the change is not the next one",
            HubFault::BadInterest => "the change does not fit what it changes",
        }
    }
}

impl Display for HubFault {
    fn fmt<W: Write>(&self, f: &mut Formatter<W>) -> fmt::Result {
        match self {
            HubFault::Busy(busy) => write!(f, "{busy}"),
            fault => f.write_str(fault.words()),
        }
    }
}

impl Error for HubFault {}
