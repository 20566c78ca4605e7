//! What the hub and shards answered a call, as a pass keeps it: the lists are moved there, and the caller is told the rest.

ghost use Rattle.std.specs.Prelude.{◌≡◌, ℕ, List, []};
ghost use Rattle.std.specs.Option.{option_map};
ghost use Rattle.interest.specs.declared.changes.Change.{Change as ToldChange};
ghost use Rattle.thread_report.specs.Owed.{IsParted};
ghost use Rattle.thread_report.specs.declared.passes.CallAnswer.TheVariants.{Hub, Shard};

use super::CallAnswer;
use crate::hub_lists::HubLists;
use crate::shard_lists::ShardLists;
use hub_core::CollectResult;
use node_threads::ShardTold;
use shard_core::Closed;
use std::alloc::Global;
use subj::SubId;
use thread_node::HubTold;

/// What the hub or the sessions told, with these lists, as a call's answer.
pub(crate) fn of_hub(told: Option<HubTold>, lists: HubLists) -> Option<CallAnswer>
    ensures { result ≡ option_map (λ t. Hub t lists) told }
{
    match told {
        None => None,
        Some(told) => Some(CallAnswer::Hub { told, lists }),
    }
}

/// The same of a shard.
pub(crate) fn of_shard(told: Option<ShardTold>, lists: ShardLists) -> Option<CallAnswer>
    ensures { result ≡ option_map (λ t. Shard t lists) told }
{
    match told {
        None => None,
        Some(told) => Some(CallAnswer::Shard { told, lists }),
    }
}

/// A list that was answered, or an empty one where there was none; and whether there was.
pub(crate) fn part_list<A, F>(alloc: Global, done: Result<Vec<A>, F>) -> (Vec<A>, Result<(), F>)
    ensures { IsParted (λ list. list.items) (λ _. tt) [] done result.0.items result.1 }
{
    match done {
        Ok(list) => (list, Ok(())),
        Err(failure) => (Vec::new(alloc), Err(failure)),
    }
}

/// The same of an answer to a connection; whether the connection was shut is told.
pub(crate) fn part_reply<F>(alloc: Global, done: Result<Closed, F>) -> (Vec<SubId>, Result<bool, F>)
    ensures { IsParted (λ closed. closed.ended.items) (λ closed. closed.shut) [] done
        result.0.items result.1 }
{
    match done {
        Ok(closed) => {
            let Closed { shut, ended } = closed;
            (ended, Ok(shut))
        }
        Err(failure) => (Vec::new(alloc), Err(failure)),
    }
}

/// The same of a collect, of which the hub tells two lists.
pub(crate) fn part_collect<F>(
    alloc: Global,
    done: Result<CollectResult, F>,
) -> (CollectResult, Result<(), F>)
    ensures { IsParted {A = List ToldChange × List ℕ}
        (λ told. (told.changes.items, told.cut.items)) (λ _. tt) ([], []) done
        (result.0.changes.items, result.0.cut.items) result.1 }
{
    match done {
        Ok(told) => (told, Ok(())),
        Err(failure) => {
            let nothing = CollectResult {
                changes: Vec::new(alloc),
                cut: Vec::new(alloc),
            };
            (nothing, Err(failure))
        }
    }
}
