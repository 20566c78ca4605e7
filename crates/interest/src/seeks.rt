//! The keys that match a subject, found one after the other among keys that stand in order.

ghost use Rattle.std.specs.Prelude.{◌≡◌, ◌<◌, ◌≤◌, ◌+◌, ◌-◌, true, length, map, slice_index_or};
ghost use Rattle.std.specs.List.Sorted.{IsStrictlySortedBy};
ghost use Rattle.std.specs.Map.{keys_of};
ghost use Rattle.subj.specs.Keys.{key_cmp};
ghost use Rattle.subj.specs.QueueNames.{is_before};
ghost use Rattle.interest.specs.Sights.{text_of};
ghost use Rattle.interest.specs.Seeks.{IsNextMatch};

use crate::sights::{Beginning, Sight, look};
use route_values::WeightedKey;
use subj::{Key, LentSubject};

/// What stands under a key.
pub(crate) trait Keyed {
    ghost use Rattle.route_values.specs.Snapshots.{Weighted};

    /// With its weight.
    ghost entry: { Self → Weighted };

    /// The key.
    fn key_of(&self) -> &Key
        ensures { result.now ≡ (entry self.now).0 };
}

impl Keyed for WeightedKey {
    ghost entry = { λ weighted. weighted };

    fn key_of(&self) -> &Key {
        self.key()
    }
}

impl Keyed for (Key, u64) {
    ghost entry = { λ entry. entry };

    fn key_of(&self) -> &Key {
        &self.0
    }
}

/// The first place behind this one whose pattern is not before the beginning, found by halves.
fn place_at<T: Keyed>(entries: &[T], place: usize, beginning: &Beginning<'_>) -> usize
    requires { place < length entries.now }
    ensures behind { place < result }
    ensures within { result ≤ length entries.now }
    ensures passed { (d : T)
        → place + 1 < result
        → is_before (T.entry (slice_index_or entries.now (result - 1) d)).0.pattern
        (text_of beginning.now) ≡ true }
{
    let mut low = place;
    let mut high = entries.len();
    while high - low > 1 {
        let middle = low + (high - low) / 2;
        if beginning.is_behind(entries[middle].key_of().pattern.bytes()) {
            low = middle;
        } else {
            high = middle;
        }
    }
    low + 1
}

/// The first place from this one on whose pattern matches the subject; as many as there are where there is
/// none. It costs by the beginnings that the subject has among the patterns, and hardly by how many they are.
pub(crate) fn next_match<T: Keyed>(entries: &[T], from: usize, subject: &LentSubject<'_>) -> usize
    requires rising { IsStrictlySortedBy key_cmp (keys_of (map T.entry entries.now)) }
    requires within { from ≤ length entries.now }
    ensures { IsNextMatch T.entry entries.now subject.now from result }
{
    let mut place = from;
    while place < entries.len() {
        match look(entries[place].key_of().pattern.bytes(), subject.bytes()) {
            Sight::Match => return place,
            Sight::Before(beginning) => place = place_at(entries, place, &beginning),
            Sight::Nothing => return entries.len(),
        }
    }
    entries.len()
}
