//! Who wants a subject, among entries whose keys rise.

ghost use Rattle.std.specs.Prelude.{◌≡◌, ◌≤◌, ◌&&◌, map, if◌then◌else◌};
ghost use Rattle.std.specs.List.Sorted.{IsStrictlySortedBy};
ghost use Rattle.std.specs.Map.{keys_of};
ghost use Rattle.subj.specs.Keys.{key_cmp};
ghost use Rattle.subj.specs.QueueNames.{is_named};
ghost use Rattle.subj.specs.Matching.{subject_matches};
ghost use Rattle.interest.specs.Matches.{add_queue as with_queue, has_kind_match, is_of_kind as of_kind, names_in as names_of, AreGathered};

use crate::names::{FoundNames, TooManyNames};
use crate::seeks::{Keyed, next_match};
use subj::{Key, LentSubject, QueueName};

/// So many keys are looked at one by one sooner than those that match are found among them.
const FEW: usize = 16;

/// Whether the key is of this kind: plain, or with a queue name.
fn is_of_kind(key: &Key, plain: bool) -> bool
    ensures { result ≡ of_kind plain key.now }
{
    if plain {
        key.queue.is_none()
    } else {
        key.queue.is_some()
    }
}

/// Whether it is a key of this kind that matches the subject.
fn is_match(key: &Key, subject: &LentSubject<'_>, plain: bool) -> bool
    ensures { result ≡ (of_kind plain key.now && subject_matches key.now.pattern subject.now) }
{
    is_of_kind(key, plain) && key.pattern.matches(subject)
}

/// The same as [`has_match`], by a look at each key.
fn has_match_among<T: Keyed>(entries: &[T], subject: &LentSubject<'_>, plain: bool) -> bool
    ensures { result ≡ has_kind_match plain subject.now (map T.entry entries.now) }
{
    for place in 0..entries.len() {
        if is_match(entries[place].key_of(), subject, plain) {
            return true;
        }
    }
    false
}

/// Whether a key matches the subject that is plain, or that has a queue name, as it is asked.
pub(crate) fn has_match<T: Keyed>(entries: &[T], subject: &LentSubject<'_>, plain: bool) -> bool
    requires { IsStrictlySortedBy key_cmp (keys_of (map T.entry entries.now)) }
    ensures { result ≡ has_kind_match plain subject.now (map T.entry entries.now) }
{
    if entries.len() <= FEW {
        return has_match_among(entries, subject, plain);
    }
    let mut place = next_match(entries, 0, subject);
    while place < entries.len() {
        if is_of_kind(entries[place].key_of(), plain) {
            return true;
        }
        place = next_match(entries, place + 1, subject);
    }
    false
}

/// Adds the queue name of the key, where it has one and the subject matches its pattern. Refused where it would be
/// one too many.
fn add_wanted<'a>(
    key: &'a Key,
    subject: &LentSubject<'_>,
    names: &mut FoundNames<'a>,
) -> Result<(), TooManyNames>
    ensures { AreGathered
        (with_queue (subject_matches key.now.pattern subject.now) key.now.queue names.old) names.new
        result }
{
    if key.queue.is_none() || !key.pattern.matches(subject) {
        return Ok(());
    }
    names.add_queue(key)
}

/// The same as [`names_in`], by a look at each key.
fn names_among<'a, T: Keyed>(
    entries: &'a [T],
    subject: &LentSubject<'_>,
    names: &mut FoundNames<'a>,
) -> Result<(), TooManyNames>
    ensures { AreGathered (names_of subject.now (map T.entry entries.now) names.old) names.new
        result }
{
    for place in 0..entries.len() {
        add_wanted(entries[place].key_of(), subject, names)?;
    }
    Ok(())
}

/// Adds the queue names that the subject matches. Refused where there would be more names than have their
/// place; then some of them were added. Takes no memory.
pub(crate) fn names_in<'a, T: Keyed>(
    entries: &'a [T],
    subject: &LentSubject<'_>,
    names: &mut FoundNames<'a>,
) -> Result<(), TooManyNames>
    requires { IsStrictlySortedBy key_cmp (keys_of (map T.entry entries.now)) }
    ensures { AreGathered (names_of subject.now (map T.entry entries.now) names.old) names.new
        result }
{
    if entries.len() <= FEW {
        return names_among(entries, subject, names);
    }
    let mut place = next_match(entries, 0, subject);
    while place < entries.len() {
        names.add_queue(entries[place].key_of())?;
        place = next_match(entries, place + 1, subject);
    }
    Ok(())
}

/// Whether the key has this queue name.
fn is_of(name: &QueueName, key: &Key) -> bool
    ensures { result ≡ is_named name.now key.now.queue }
{
    match &key.queue {
        Some(queue) => queue.bytes() == name.bytes(),
        None => false,
    }
}

/// The weight of the key where it has this queue name, and else 0.
pub(crate) fn weight_of(name: &QueueName, key: &Key, weight: u64) -> u64
    ensures same { result ≡ (if is_named name.now key.now.queue then weight else 0) }
    ensures most { result ≤ weight }
{
    if is_of(name, key) { weight } else { 0 }
}
