//! The lists of an answer of the hub, which a pass keeps and lends.

ghost use Rattle.std.specs.Prelude.{◌≡◌, true};
ghost use Rattle.thread_report.specs.HubAnswers.{collected_lists, cut_lists, frame_lists, no_lists};

use hub_core::CollectResult;
use interest::Change;
use route_values::Numbered;
use std::alloc::Global;
use std::marker::Model;
use value_equality::{is_same_frame, is_same_key};

/// What takes memory of an answer of the hub: the changes of interest that the peers are told, the frames that were
/// taken for a peer, and the peers that were cut, by their places, each list in order. It is empty where the answer has
/// no such list. (Profile.)
///
/// Seen as these lists.
pub struct HubLists {
    changes: Vec<Change>,
    frames: Vec<Numbered>,
    cut: Vec<usize>,
}

/// One call, also for crates above: `docs/PROVING.md`, "What a proof costs".
impl Drop for HubLists {
    fn drop(self) {
        let HubLists {
            changes: _,
            frames: _,
            cut: _,
        } = self;
    }
}

impl Model for HubLists {
    ghost use Rattle.thread_report.specs.HubAnswers.{HubLists};

    ghost Value = { HubLists };

    ghost view = { λ s. record {
      changes = s.changes.items;
      frames = s.frames.items;
      cut = s.cut.items;
    } };
}

impl HubLists {
    /// Those of an answer without lists. Takes no memory.
    pub(crate) fn none(alloc: Global) -> HubLists
        ensures { result ≡ no_lists }
    {
        HubLists {
            changes: Vec::new(alloc),
            frames: Vec::new(alloc),
            cut: Vec::new(alloc),
        }
    }

    /// Those of an answer that gives frames. Takes no memory.
    pub(crate) fn of_frames(alloc: Global, frames: Vec<Numbered>) -> HubLists
        ensures { result ≡ frame_lists frames.items }
    {
        HubLists {
            changes: Vec::new(alloc),
            frames,
            cut: Vec::new(alloc),
        }
    }

    /// Those of a drain. Takes no memory.
    pub(crate) fn of_cut(alloc: Global, cut: Vec<usize>) -> HubLists
        ensures { result ≡ cut_lists cut.items }
    {
        HubLists {
            changes: Vec::new(alloc),
            frames: Vec::new(alloc),
            cut,
        }
    }

    /// Those of a collect. Takes no memory.
    pub(crate) fn of_collect(alloc: Global, told: CollectResult) -> HubLists
        ensures { result ≡ collected_lists (told.changes.items, told.cut.items) }
    {
        let CollectResult { changes, cut } = told;
        HubLists {
            changes,
            frames: Vec::new(alloc),
            cut,
        }
    }

    /// The changes of interest that the peers are told.
    pub fn changes(&self) -> &[Change]
        ensures { result.now ≡ self.now.changes }
    {
        self.changes.as_slice()
    }

    /// The frames that were taken for a peer.
    pub fn frames(&self) -> &[Numbered]
        ensures { result.now ≡ self.now.frames }
    {
        self.frames.as_slice()
    }

    /// The peers that were cut, by their places.
    pub fn cut(&self) -> &[usize]
        ensures { result.now ≡ self.now.cut }
    {
        self.cut.as_slice()
    }

    /// Whether the others are the same.
    pub(crate) fn are_same(&self, others: &HubLists) -> bool
        ensures { result ≡ true → self.now ≡ others.now }
    {
        are_same_changes(self.changes(), others.changes())
            && are_same_frames(self.frames(), others.frames())
            && self.cut() == others.cut()
    }
}

/// Whether it is the same change.
fn is_same_change(a: &Change, b: &Change) -> bool
    ensures { result ≡ true → a.now ≡ b.now }
{
    match (a, b) {
        (Change::Up(a), Change::Up(b)) => {
            a.weight() == b.weight() && is_same_key(a.key(), b.key())
        }
        (Change::Gone(a), Change::Gone(b)) => is_same_key(a, b),
        (Change::Clear, Change::Clear) => true,
        _ => false,
    }
}

/// Whether these are the same changes.
fn are_same_changes(a: &[Change], b: &[Change]) -> bool
    ensures { result ≡ true → a.now ≡ b.now }
{
    if a.len() != b.len() {
        return false;
    }
    for place in 0..a.len() {
        if !is_same_change(&a[place], &b[place]) {
            return false;
        }
    }
    true
}

/// Whether these are the same frames.
fn are_same_frames(a: &[Numbered], b: &[Numbered]) -> bool
    ensures { result ≡ true → a.now ≡ b.now }
{
    if a.len() != b.len() {
        return false;
    }
    for place in 0..a.len() {
        if !is_same_frame(&a[place], &b[place]) {
            return false;
        }
    }
    true
}
