//! Whether the passes of all callers tell what was written down.

ghost use Rattle.std.specs.Prelude.{◌≡◌, ◌∷◌, ◌++◌, ◌≤◌, true, All, IfOk, flat_map, length, map};
ghost use Rattle.subj.specs.declared.limits.TheConstants.{MAX_SHARDS as most_shards};
ghost use Rattle.node_parts.specs.Sides.{HubWithSessions as Side, new_side};
ghost use Rattle.shard_core.specs.Shards.{State, new_shard};
ghost use Rattle.thread_report.specs.HubAnswers as of_hub;
ghost use Rattle.thread_report.specs.ShardAnswers.{lists_at, state_behind};
ghost use Rattle.thread_report.specs.Owed.{AreTold, IsInOrder, call_of_hub, call_of_shard, calls_owed, owed_by_hub, owed_by_shard, owed_by_shards, owed_one};

use crate::asked::{is_of_hub, is_of_shard};
use crate::faults::Unfinished;
use crate::hub_lists::HubLists;
use crate::passes::{Call, Pass};
use crate::same::{is_told_by_hub, is_told_by_shard};
use crate::shard_lists::ShardLists;
use crate::{hub_replay, shard_replay};
use node_parts::HubWithSessions;
use node_threads::{NodeName, ShardEntry, ShardTold};
use shard_core::Shard;
use std::alloc::{AllocError, Global};
use sub_table::SubTable;
use subj::{MAX_SHARDS, ServerIdentity};
use thread_node::HubEntry;

/// Whether the passes tell each step of this server that a caller made and each refusal, once, and nothing else, those
/// of one caller under one lock in order; or nothing was to be written down. The hub and each shard do again what stands
/// on their tapes: so the lists of their answers are compared whole. An `Err` is [`Unfinished::OutOfMemory`], or
/// [`Unfinished::Untold`] too.
pub(crate) fn are_told<T: SubTable, N: NodeName>(
    alloc: Global,
    keep: bool,
    passes: Vec<Pass<N>>,
    server: &ServerIdentity,
    hub: &[HubEntry],
    worked: &[Vec<ShardEntry>],
) -> Result<bool, Unfinished>
    ensures { IfOk result (λ told.
        told ≡ true
        → keep ≡ true
        → AreTold server.now passes.items hub.now
        (map (λ entries. entries.items) worked.now)) }
{
    if !keep {
        return Ok(true);
    }
    tell::<T, N>(alloc, passes, server, hub, worked)
}

/// The same where it was to be written down.
fn tell<T: SubTable, N: NodeName>(
    alloc: Global,
    passes: Vec<Pass<N>>,
    server: &ServerIdentity,
    hub: &[HubEntry],
    worked: &[Vec<ShardEntry>],
) -> Result<bool, Unfinished>
    ensures { IfOk result (λ told.
        told ≡ true
        → AreTold server.now passes.items hub.now
        (map (λ entries. entries.items) worked.now)) }
{
    if !all_in_order(passes.as_slice()) {
        return Ok(false);
    }
    let mut told = all_calls(alloc, passes)?;
    told.as_mut_slice()
        .sort_unstable_by_key(|call| (call.lock, call.place));
    are_owed::<T>(alloc, told.as_slice(), server, hub, worked)
}

/// Whether each pass has its calls under each lock in order.
fn all_in_order<N: NodeName>(passes: &[Pass<N>]) -> bool
    ensures { result ≡ true → All (λ pass. IsInOrder pass.calls) passes.now }
{
    passes.iter().all(|pass| pass.is_in_order())
}

/// The calls of all passes, one pass behind another.
fn all_calls<N: NodeName>(alloc: Global, passes: Vec<Pass<N>>) -> Result<Vec<Call>, Unfinished>
    ensures { IfOk result (λ calls. calls.items ≡ flat_map (λ pass. pass.calls) passes.items) }
{
    let mut all = Vec::new(alloc);
    for pass in passes {
        all.append(&mut pass.into_calls())?;
    }
    Ok(all)
}

/// Whether these calls are what callers have to tell of all that was written down of this server, in order: what was
/// asked, and what was answered or refused.
fn are_owed<T: SubTable>(
    alloc: Global,
    calls: &[Call],
    server: &ServerIdentity,
    hub: &[HubEntry],
    worked: &[Vec<ShardEntry>],
) -> Result<bool, Unfinished>
    ensures { IfOk result (λ owed.
        owed ≡ true
        → calls.now
        ≡ calls_owed server.now hub.now (map (λ entries. entries.items) worked.now)) }
{
    let rest = behind_hub(alloc, calls, server, hub)?;
    let rest = behind_shards::<T>(alloc, rest, worked)?;
    Ok(rest.is_empty())
}

/// The calls behind those that tell of what the hub of this server did and refused. [`Unfinished::Untold`] where others
/// stand there.
fn behind_hub<'a>(
    alloc: Global,
    calls: &'a [Call],
    server: &ServerIdentity,
    tape: &[HubEntry],
) -> Result<&'a [Call], Unfinished>
    ensures { IfOk result (λ rest.
        calls.now ≡ owed_by_hub 0 (new_side server.now) tape.now ++ rest.now) }
{
    let mut side = HubWithSessions::new(alloc, server.try_clone(alloc)?)?;
    let mut rest = calls;
    for place in 0..tape.len() {
        rest = behind_hub_entry(alloc, &mut side, rest, place, &tape[place])?;
    }
    Ok(rest)
}

/// The same of one entry of the hub, which does it again.
fn behind_hub_entry<'a>(
    alloc: Global,
    side: &mut HubWithSessions,
    calls: &'a [Call],
    place: usize,
    entry: &HubEntry,
) -> Result<&'a [Call], Unfinished>
    ensures told { IfOk result (λ rest.
        calls.now ≡ call_of_hub place side.old entry.now ∷ rest.now) }
    ensures state { IfOk result (λ _. side.new ≡ of_hub.state_behind side.old entry.now) }
{
    let lists = hub_replay::again(alloc, side, entry)?;
    let Some((call, rest)) = calls.split_first() else {
        return Err(Unfinished::Untold);
    };
    if is_by_hub(call, place, entry, &lists) {
        Ok(rest)
    } else {
        Err(Unfinished::Untold)
    }
}

/// The same of all shards. [`Unfinished::Untold`] where others stand there.
fn behind_shards<'a, T: SubTable>(
    alloc: Global,
    calls: &'a [Call],
    worked: &[Vec<ShardEntry>],
) -> Result<&'a [Call], Unfinished>
    ensures { IfOk result (λ rest.
        calls.now
        ≡ owed_by_shards (length worked.now) 1 (map (λ entries. entries.items) worked.now)
        ++ rest.now) }
{
    let shards = worked.len() as u64;
    if shards > MAX_SHARDS {
        return Err(Unfinished::Untold);
    }
    let mut rest = calls;
    for place in 0..worked.len() {
        let number = place as u64 + 1;
        rest = behind_shard::<T>(alloc, rest, number, shards, worked[place].as_slice())?;
    }
    Ok(rest)
}

/// The same of the shard of this number, of so many.
fn behind_shard<'a, T: SubTable>(
    alloc: Global,
    calls: &'a [Call],
    number: u64,
    shards: u64,
    tape: &[ShardEntry],
) -> Result<&'a [Call], Unfinished>
    requires first { 1 ≤ number }
    requires last { number ≤ shards }
    requires few { shards ≤ most_shards }
    ensures { IfOk result (λ rest.
        calls.now ≡ owed_by_shard number 0 (new_shard number shards) tape.now ++ rest.now) }
{
    let mut shard: Shard<T> = Shard::new(alloc, number, shards)?;
    let mut rest = calls;
    for place in 0..tape.len() {
        rest = behind_shard_entry(alloc, &mut shard, rest, number, place, &tape[place])?;
    }
    Ok(rest)
}

/// The same of one entry of the shard, which does it again.
fn behind_shard_entry<'a, T: SubTable>(
    alloc: Global,
    shard: &mut Shard<T>,
    calls: &'a [Call],
    number: u64,
    place: usize,
    entry: &ShardEntry,
) -> Result<&'a [Call], Unfinished>
    ensures told { IfOk result (λ rest.
        calls.now ≡ owed_one number place shard.old.state entry.now ++ rest.now) }
    ensures state { IfOk result (λ _. shard.new.state ≡ state_behind shard.old.state entry.now) }
{
    let lists = shard_replay::again(alloc, shard, entry)?;
    if matches!(entry.told, ShardTold::Work) {
        return Ok(calls);
    }
    let Some((call, rest)) = calls.split_first() else {
        return Err(Unfinished::Untold);
    };
    if is_by_shard(alloc, call, number, place, entry, &lists)? {
        Ok(rest)
    } else {
        Err(Unfinished::Untold)
    }
}

/// Whether the call tells of this entry of the hub, at its place, and of these lists.
fn is_by_hub(call: &Call, place: usize, entry: &HubEntry, lists: &HubLists) -> bool
    ensures { (s : Side)
        → result ≡ true
        → lists.now ≡ of_hub.lists_at s entry.now
        → call.now ≡ call_of_hub place s entry.now }
{
    call.lock == 0
        && call.place == place
        && is_told_by_hub(&call.told, &entry.told, lists)
        && is_of_hub(&call.event, &entry.event)
}

/// Whether the call tells of this entry of the shard of this number, at its place, and of these lists.
fn is_by_shard(
    alloc: Global,
    call: &Call,
    number: u64,
    place: usize,
    entry: &ShardEntry,
    lists: &ShardLists,
) -> Result<bool, AllocError>
    ensures { IfOk result (λ same.
        (s : State)
        → same ≡ true
        → lists.now ≡ lists_at s entry.now
        → call.now ≡ call_of_shard number place s entry.now) }
{
    let is_told = is_told_by_shard(alloc, &call.told, &entry.told, lists)?;
    Ok(
        is_told
            && call.lock == number
            && call.place == place
            && is_of_shard(&call.event, number, &entry.event),
    )
}
