//! Why a cluster refuses.

ghost use Rattle.std.specs.Prelude.{◌≡◌};
ghost use Rattle.world_law.specs.Faults.{world_fault_number};

use node_law::NodeFault;
use thiserror::Error;

/// Why a cluster refuses an event. (Profile.) A refused event is counted as a step, and changes nothing else.
#[derive(Clone, Copy, Debug, PartialEq, Eq, Error)]
pub enum WorldFault {
    /// The server is not up.
    #[error("the server is not up")]
    NodeDown,
    /// The server is up already.
    #[error("the server is up already")]
    NodeUp,
    /// The server has had this incarnation before.
    #[error("the server has had this incarnation before")]
    UsedIncarnation,
    /// There is no such server, or no frame of that kind with that number.
    #[error("there is no such server, or no frame of that kind with that number")]
    NoSuch,
    /// The server refuses it.
    #[error("{0}")]
    Node(NodeFault),
}

impl WorldFault {
    /// The number that the router tells of this refusal.
    pub fn number(self) -> u16
        ensures { result ≡ world_fault_number self }
    {
        match self {
            WorldFault::NodeDown => 80,
            WorldFault::NodeUp => 81,
            WorldFault::UsedIncarnation => 82,
            WorldFault::NoSuch => 83,
            WorldFault::Node(fault) => fault.number(),
        }
    }
}
