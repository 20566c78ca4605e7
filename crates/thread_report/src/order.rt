//! Whether the calls of a pass stand in order.

ghost use Rattle.std.specs.Prelude.{◌≡◌, ◌+◌, ◌<◌, ◌≤◌, true, length, slice_index_or, slice_set};
ghost use Rattle.thread_report.specs.Owed.{IsInOrder};

use crate::passes::Call;
use subj::MAX_SHARDS;

/// The hub's lock, and one for each shard that a server may have.
const LOCKS: usize = MAX_SHARDS as usize + 1;

/// Whether of any two calls under one lock the later one has the later place.
pub(crate) fn are_rising(calls: &[Call]) -> bool
    ensures { result ≡ true → IsInOrder calls.now }
{
    let mut least = [0; LOCKS];
    for call in calls {
        if !is_next(&mut least, call.lock, call.place) {
            return false;
        }
    }
    true
}

/// Whether the call under this lock has the least place that the next one there may have, or a later one; then the
/// least place for the one behind it is written down. No server has a lock beyond those, or so many steps that they
/// have no number.
fn is_next(least: &mut [usize; LOCKS], lock: u64, place: usize) -> bool
    ensures { result ≡ true
        → (lock < length least.old) × (slice_index_or least.old lock 0 ≤ place)
        × (least.new ≡ slice_set least.old lock (place + 1)) }
{
    if lock >= LOCKS as u64 {
        return false;
    }
    let lock = lock as usize;
    if place < least[lock] || place == usize::MAX {
        return false;
    }
    least[lock] = place + 1;
    true
}
