//! The marks of the messages that were put in runs, in order.

ghost use Rattle.std.specs.Prelude.{◌≡◌, ◌-◌, ◌<◌, ◌++◌, [], drop, take, length, OnOk, OnErr};

use crate::run_tails::TailMark;
use std::alloc::{AllocError, Global};
use std::marker::Model;

/// How many places stay at most while there are no marks.
const KEPT_PLACES: usize = 8;

/// Marks in order, from which the first and the last can go. They own nothing, so that many are put at once, and dropped at once.
///
/// Seen as the list of the marks.
#[derive(Drop)]
pub(crate) struct TailMarks {
    marks: Vec<TailMark>,
    /// How many of the first ones are gone.
    gone: usize,
}

impl Model for TailMarks {
    ghost use Rattle.std.specs.Prelude.{◌≤◌, List, drop, vec_len};
    ghost use Rattle.outbox.specs.declared.run_tails.TailMark.{TailMark};

    ghost Value = { List TailMark };

    ghost view = { λ m. drop m.gone m.marks.items };

    ghost invariant = { λ m. m.gone ≤ vec_len m.marks };
}

impl TailMarks {
    /// No marks.
    pub(crate) fn new(alloc: Global) -> TailMarks
        ensures { result ≡ [] }
    {
        TailMarks {
            marks: Vec::new(alloc),
            gone: 0,
        }
    }

    /// All marks.
    pub(crate) fn as_slice(&self) -> &[TailMark]
        ensures { result.now ≡ self.now }
    {
        &self.marks[self.gone..]
    }

    /// Whether none of them is gone: else their memory grows with each that is put.
    pub(crate) fn are_all_there(&self) -> bool {
        self.gone == 0
    }

    /// Puts these marks behind. Want of memory leaves all as it was.
    pub(crate) fn extend(&mut self, more: &[TailMark]) -> Result<(), AllocError>
        ensures ok { OnOk result (self.new ≡ self.old ++ more.now) }
        ensures err { OnErr result (self.new ≡ self.old) }
    {
        self.marks.extend_from_slice(more)
    }

    /// Drops the first mark.
    pub(crate) fn drop_first(&mut self)
        requires { 0 < length self.old }
        ensures { self.new ≡ drop 1 self.old }
    {
        self.gone += 1;
    }

    /// Drops the last mark.
    pub(crate) fn drop_last(&mut self)
        requires { 0 < length self.old }
        ensures { self.new ≡ take (length self.old - 1) self.old }
    {
        self.marks.truncate(self.marks.len() - 1);
    }

    /// Drops all marks.
    pub(crate) fn clear(&mut self)
        ensures { self.new ≡ [] }
    {
        self.marks.clear();
        self.gone = 0;
    }

    /// Gives back the memory of many marks, where there are none.
    pub(crate) fn rest(&mut self)
        ensures { self.new ≡ self.old }
    {
        if self.gone == self.marks.len() {
            self.clear();
            self.marks.shrink_to(KEPT_PLACES);
        }
    }
}
