//! Whether what a pass tells of an answer is what stands on a tape.

ghost use Rattle.std.specs.Prelude.{◌≡◌, true, IfOk};
ghost use Rattle.thread_report.specs.declared.passes.CallAnswer.TheVariants.{Hub, Shard};

use crate::hub_lists::HubLists;
use crate::passes::CallAnswer;
use crate::shard_lists::ShardLists;
use node_threads::ShardTold;
use std::alloc::{AllocError, Global};
use thread_node::HubTold;
use value_equality::{is_same_connect, is_same_info};

/// Whether it is what the hub or its sessions told, with these lists.
pub(crate) fn is_told_by_hub(told: &CallAnswer, written: &HubTold, lists: &HubLists) -> bool
    ensures { result ≡ true → told.now ≡ Hub written.now lists.now }
{
    match told {
        CallAnswer::Hub { told, lists: given } => {
            is_same_of_hub(told, written) && given.are_same(lists)
        }
        CallAnswer::Shard { .. } => false,
    }
}

/// Whether it is what a shard told, with these lists.
pub(crate) fn is_told_by_shard(
    alloc: Global,
    told: &CallAnswer,
    written: &ShardTold,
    lists: &ShardLists,
) -> Result<bool, AllocError>
    ensures { IfOk result (λ same. same ≡ true → told.now ≡ Shard written.now lists.now) }
{
    match told {
        CallAnswer::Hub { .. } => Ok(false),
        CallAnswer::Shard { told, lists: given } => {
            if told == written {
                given.are_same(alloc, lists)
            } else {
                Ok(false)
            }
        }
    }
}

/// Whether the hub or its sessions told the same.
fn is_same_of_hub(a: &HubTold, b: &HubTold) -> bool
    ensures { result ≡ true → a.now ≡ b.now }
{
    match (a, b) {
        (
            HubTold::Issued { turn, frames },
            HubTold::Issued {
                turn: of,
                frames: put,
            },
        ) => turn == of && frames == put,
        (HubTold::Routed(turn), HubTold::Routed(of)) => turn == of,
        (HubTold::Heard(mark), HubTold::Heard(of)) => mark == of,
        (
            HubTold::Collected { changes, cut },
            HubTold::Collected {
                changes: told,
                cut: gone,
            },
        ) => changes == told && cut == gone,
        (HubTold::Taken(frames), HubTold::Taken(of)) => frames == of,
        (HubTold::Refused(why), HubTold::Refused(cause)) => why == cause,
        _ => is_same_of_sessions(a, b),
    }
}

/// Whether the sessions told the same, and no refusal.
fn is_same_of_sessions(a: &HubTold, b: &HubTold) -> bool
    ensures { result ≡ true → a.now ≡ b.now }
{
    match (a, b) {
        (HubTold::Dialed(session), HubTold::Dialed(of)) => session == of,
        (
            HubTold::Accepted { session, info },
            HubTold::Accepted {
                session: of,
                info: told,
            },
        ) => session == of && is_same_info(info, told),
        (
            HubTold::KeptAfterInfo {
                instead_of,
                connect,
            },
            HubTold::KeptAfterInfo {
                instead_of: before,
                connect: told,
            },
        ) => instead_of == before && is_same_connect(connect, told),
        (HubTold::Kept(instead_of), HubTold::Kept(before)) => instead_of == before,
        (HubTold::WasCut(peer), HubTold::WasCut(of)) => peer == of,
        _ => false,
    }
}
