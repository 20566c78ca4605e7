//! Whether the hub was handed the deltas that the shards gave.

ghost use Rattle.std.specs.Prelude.{◌≡◌, true, None, IfOk, map};
ghost use Rattle.thread_report.specs.Handing.{AreHanded, deltas_given, deltas_heard, is_collected as was_collected};

use node_threads::{Deltas, ShardEntry, ShardEvent};
use std::alloc::{AllocError, Global};
use subj::Delta;
use thread_node::{HubEntry, HubEvent, HubTold};
use value_equality::is_same_key;

/// Whether it is the same delta.
fn is_same(a: &Delta, b: &Delta) -> bool
    ensures { result ≡ true → a.now ≡ b.now }
{
    a.up == b.up && is_same_key(&a.key, &b.key)
}

/// Whether these are the same deltas.
fn are_same(a: &[Delta], b: &[Delta]) -> bool
    ensures { result ≡ true → a.now ≡ b.now }
{
    if a.len() != b.len() {
        return false;
    }
    for place in 0..a.len() {
        if !is_same(&a[place], &b[place]) {
            return false;
        }
    }
    true
}

/// Whether each of these is the same as the one of those at its place.
fn are_alike(a: &[&Deltas], b: &[&Deltas]) -> bool
    ensures { result ≡ true → map (λ deltas. deltas.now) a.now ≡ map (λ deltas. deltas.now) b.now }
{
    if a.len() != b.len() {
        return false;
    }
    for place in 0..a.len() {
        if !are_same(a[place].as_slice(), b[place].as_slice()) {
            return false;
        }
    }
    true
}

/// Whether a collect was not refused.
fn is_collected(told: HubTold) -> bool
    ensures { result ≡ was_collected told }
{
    matches!(told, HubTold::Collected { .. })
}

/// The deltas that the hub was handed by the shard of this number.
fn heard_of(alloc: Global, hub: &[HubEntry], number: u64) -> Result<Vec<&Deltas>, AllocError>
    ensures { IfOk result (λ all.
        map (λ deltas. deltas.now) all.items ≡ deltas_heard number hub.now) }
{
    let mut all = Vec::new(alloc);
    for entry in hub {
        if let HubEvent::Collect { shard, deltas } = &entry.event {
            if *shard == number && is_collected(entry.told) {
                all.push(deltas)?;
            }
        }
    }
    Ok(all)
}

/// The deltas that a shard handed over.
fn given_of(alloc: Global, tape: &[ShardEntry]) -> Result<Vec<&Deltas>, AllocError>
    ensures { IfOk result (λ all. map (λ deltas. deltas.now) all.items ≡ deltas_given tape.now) }
{
    let mut all = Vec::new(alloc);
    for entry in tape {
        if let ShardEvent::Collect(deltas) = &entry.event {
            all.push(deltas)?;
        }
    }
    Ok(all)
}

/// The first shard, from 1, whose deltas the hub was not handed as the shard gave them; None where there is none,
/// or nothing was to be written down.
pub(crate) fn torn_shard(
    alloc: Global,
    keep: bool,
    hub: &[HubEntry],
    worked: &[Vec<ShardEntry>],
) -> Result<Option<u64>, AllocError>
    ensures { IfOk result (λ torn.
        torn ≡ None → keep ≡ true → AreHanded hub.now (map (λ entries. entries.items) worked.now)) }
{
    if !keep {
        return Ok(None);
    }
    first_torn(alloc, hub, worked)
}

/// The same where it was to be written down.
fn first_torn(
    alloc: Global,
    hub: &[HubEntry],
    worked: &[Vec<ShardEntry>],
) -> Result<Option<u64>, AllocError>
    ensures { IfOk result (λ torn.
        torn ≡ None → AreHanded hub.now (map (λ entries. entries.items) worked.now)) }
{
    for place in 0..worked.len() {
        let number = place as u64 + 1;
        let heard = heard_of(alloc, hub, number)?;
        let given = given_of(alloc, worked[place].as_slice())?;
        if !are_alike(heard.as_slice(), given.as_slice()) {
            return Ok(Some(number));
        }
    }
    Ok(None)
}
