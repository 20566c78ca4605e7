//! Why a server refuses.

ghost use Rattle.std.specs.Prelude.{◌≡◌};
ghost use Rattle.node_law.specs.Faults.{node_fault_number};

use hub_core::HubFault;
use route_session::SessionFault;
use shard_core::ShardFault;
use thiserror::Error;

/// Why a server refuses an event. (Profile.)
#[derive(Clone, Copy, Debug, PartialEq, Eq, Error)]
pub enum NodeFault {
    /// The server has no such shard.
    #[error("the server has no such shard")]
    NoShard,
    /// The shard refuses it.
    #[error("{0}")]
    Shard(ShardFault),
    /// The hub refuses it.
    #[error("{0}")]
    Hub(HubFault),
    /// The sessions refuse it.
    #[error("{0}")]
    Session(SessionFault),
}

impl NodeFault {
    /// The number that the router tells of this refusal.
    pub fn number(self) -> u16
        ensures { result ≡ node_fault_number self }
    {
        match self {
            NodeFault::NoShard => 58,
            NodeFault::Shard(fault) => fault.number(),
            NodeFault::Hub(fault) => fault.number(),
            NodeFault::Session(fault) => fault.number(),
        }
    }
}
