//! Queue names that want a subject.

ghost use Rattle.std.specs.Prelude.{◌≡◌, ◌≤◌, [], true, length, map, slice_get, unwrap_or, OnErr};
ghost use Rattle.std.specs.Option.{option_copied};
ghost use Rattle.std.specs.List.{list_any, position};
ghost use Rattle.std.specs.Str.{bytes_eq};
ghost use Rattle.subj.specs.QueueNames.{is_before};
ghost use Rattle.interest.specs.Matches.{add_name, add_queue as with_queue, AreGathered};

use arrayvec::ArrayVec;
use std::marker::Model;
use subj::{Key, MAX_QUEUE_NAMES, QueueName};

/// The most names, as the length of a list.
const PLACES: usize = MAX_QUEUE_NAMES as usize;

/// One publication would have more than [`MAX_QUEUE_NAMES`] queue names. (Profile.)
#[derive(Clone, Copy)]
pub struct TooManyNames;

/// The bytes of the name; none where there is no name.
fn bytes_of<'a>(name: &Option<&'a QueueName>) -> &'a [u8]
    ensures { result.now ≡ unwrap_or (option_copied name.now) [] }
{
    match name {
        Some(name) => name.bytes(),
        None => &[],
    }
}

/// Whether the name is one of these.
fn has(names: &[Option<&QueueName>], name: &QueueName) -> bool
    ensures { result
        ≡ list_any (λ other. bytes_eq name.now (unwrap_or (option_copied other) [])) names.now }
{
    let bytes = name.bytes();
    names.iter().any(|other| bytes == bytes_of(other))
}

/// The place of the first of these that stands behind the name in the order of bytes.
fn place_behind(names: &[Option<&QueueName>], name: &QueueName) -> Option<usize>
    ensures { result
        ≡ position (λ other. is_before name.now (unwrap_or (option_copied other) [])) names.now }
{
    let bytes = name.bytes();
    names
        .iter()
        .position(|other| bytes.cmp(bytes_of(other)).is_lt())
}

/// Queue names that were found: each once, at most [`MAX_QUEUE_NAMES`], in the order of bytes where they
/// came in by [`FoundNames::add`]. They are lent by the keys that have them, and gathering them takes no
/// memory. (Profile.)
///
/// Seen as the list of the names.
#[derive(Drop)]
pub struct FoundNames<'a> {
    names: ArrayVec<Option<&'a QueueName>, PLACES>,
}

impl<'a> Model for FoundNames<'a> {
    ghost use Rattle.std.specs.Prelude.{◌≡◌, ℕ, ◌≤◌, true, List, [], length, map, unwrap_or, All, is_some};
    ghost use Rattle.std.specs.Option.{option_copied};
    ghost use Rattle.subj.specs.declared.limits.TheConstants.{MAX_QUEUE_NAMES};

    ghost Value = { List (List ℕ) };

    ghost view = { λ found. map (λ name. unwrap_or (option_copied name) []) found.names.items };

    ghost invariant = { λ found. All (λ name. is_some name ≡ true) found.names.items };
}

impl<'a> FoundNames<'a> {
    /// No names.
    pub fn new() -> FoundNames<'a>
        ensures { result ≡ [] }
    {
        FoundNames {
            names: ArrayVec::new(),
        }
    }

    /// Puts the name in its place in the order of bytes, where it is not there. Refused where it would be
    /// one too many, with all as it was.
    pub fn add(&mut self, name: &'a QueueName) -> Result<(), TooManyNames>
        ensures gathered { AreGathered (add_name name.now self.old) self.new result }
        ensures err { OnErr result (self.new ≡ self.old) }
    {
        if has(self.names.as_slice(), name) {
            return Ok(());
        }
        let place = place_behind(self.names.as_slice(), name).unwrap_or(self.names.len());
        if self.names.is_full() {
            return Err(TooManyNames);
        }
        self.names.insert(place, Some(name));
        Ok(())
    }

    /// Adds the queue name of the key, where it has one. Refused where it would be one too many, with all as
    /// it was.
    pub(crate) fn add_queue(&mut self, key: &'a Key) -> Result<(), TooManyNames>
        ensures gathered { AreGathered (with_queue true key.now.queue self.old) self.new result }
        ensures err { OnErr result (self.new ≡ self.old) }
    {
        match &key.queue {
            Some(name) => self.add(name),
            None => Ok(()),
        }
    }

    /// How many names there are.
    pub fn len(&self) -> usize
        ensures same { result ≡ length self.now }
        ensures most { result ≤ MAX_QUEUE_NAMES }
    {
        self.names.len()
    }

    /// The name at the place, counted from 0.
    pub fn get(&self, place: usize) -> Option<&'a QueueName>
        ensures { option_copied result ≡ slice_get self.now place }
    {
        match self.names.as_slice().get(place) {
            Some(name) => *name,
            None => None,
        }
    }
}
