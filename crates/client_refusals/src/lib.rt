//! What a client is told when its shard, or the hub of its server, refuses what it asked.
//!
//! ```text
//! match shard.subscribe(id, key, sid) {
//!     Ok(_) => conn.answer(Ok(())),
//!     Err(Failure::Refused(fault)) => conn.answer(Err(refusal_of_shard(fault))),
//!     Err(Failure::OutOfMemory) => return Err(AllocError),
//! }
//! ```
//!
//! Read first: [`refusal_of_shard`], [`refusal_of_hub`].
#![tactic(auto)]

ghost use Rattle.std.specs.Prelude.{◌≡◌};
ghost use Rattle.client_refusals.specs.Refusals.{refusal_of_shard as refused_by_shard, refusal_of_hub as refused_by_hub};

use client_conn::Refusal;
use hub_core::HubFault;
use shard_core::ShardFault;

/// What a client is told of a refusal of its shard: that it has too many subscriptions, that a counter is at its end, or that
/// it drains. The other refusals do not come to a client whose connection stands. (Profile.)
pub fn refusal_of_shard(fault: ShardFault) -> Refusal
    ensures { result ≡ refused_by_shard fault }
{
    match fault {
        ShardFault::TooManySubs => Refusal::TooManySubscriptions,
        ShardFault::Spent => Refusal::NumbersSpent,
        ShardFault::Draining => Refusal::Draining,
        _ => Refusal::Other,
    }
}

/// What a client is told of a refusal of the hub: that it is to try again, that too many queue groups want the message, or
/// that a counter is at its end. The other refusals do not come to a client. (Profile.)
pub fn refusal_of_hub(fault: HubFault) -> Refusal
    ensures { result ≡ refused_by_hub fault }
{
    match fault {
        HubFault::Busy(_) => Refusal::Busy,
        HubFault::TooManyQueues => Refusal::TooManyQueueGroups,
        HubFault::Spent => Refusal::NumbersSpent,
        _ => Refusal::Other,
    }
}
