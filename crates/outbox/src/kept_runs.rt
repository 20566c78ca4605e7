//! The messages of runs to one subscription, in order.

ghost use Rattle.std.specs.Prelude.{◌≡◌, ◌+◌, ◌<◌, ◌^◌, ◌++◌, ◌∷◌, [], true, false, filter, length, IfOk, OnOk, OnErr};
ghost use Rattle.outbox.specs.declared.entries.Tag.{Tag as KeptTag};
ghost use Rattle.outbox.specs.declared.kept.Kept.TheVariants.{Copied};
ghost use Rattle.outbox.specs.Kept.{copied_len, copied_of, is_whole, kept_at, kept_run};

use crate::entries::{Mode, Tag};
use crate::run_tails::TailMark;
use crate::tail_marks::TailMarks;
use std::alloc::{AllocError, Global};
use std::marker::Model;
use subj::SubId;

/// How the messages of runs to one subscription are kept, whose heads have one length: by the marks that the runs came with.
///
/// Seen as the list of what is kept.
#[derive(Drop)]
pub(crate) struct KeptRuns {
    sub: SubId,
    /// How many bytes the head of each message has.
    head_len: usize,
    marks: TailMarks,
}

impl Model for KeptRuns {
    ghost use Rattle.std.specs.Prelude.{◌+◌, ◌<◌, ◌^◌, List, All};
    ghost use Rattle.outbox.specs.declared.kept.Kept.{Kept};
    ghost use Rattle.outbox.specs.Kept.{kept_run};

    ghost Value = { List Kept };

    ghost view = { λ r. kept_run r.sub r.head_len r.marks };

    ghost invariant = { λ r. All (λ mark. r.head_len + mark.len < 2 ^ 64) r.marks };
}

impl KeptRuns {
    /// No messages.
    pub(crate) fn new(alloc: Global) -> KeptRuns
        ensures { result ≡ [] }
    {
        KeptRuns {
            sub: SubId {
                shard: 0,
                serial: 0,
            },
            head_len: 0,
            marks: TailMarks::new(alloc),
        }
    }

    /// How many messages there are.
    pub(crate) fn len(&self) -> usize
        ensures len { result ≡ length self.now }
        ensures few { result < 2 ^ 62 }
    {
        self.marks.as_slice().len()
    }

    /// Puts the messages of a run, whose head has so many bytes, where there are none. For want of memory there are none.
    #[tactic(auto, using(crate::proofs::Fronts::runs_fit))]
    fn begin(&mut self, sub: SubId, head_len: usize, tails: &[TailMark]) -> Result<(), AllocError>
        requires none { self.old ≡ [] }
        requires fits { copied_of (kept_run sub head_len tails.now) < 2 ^ 64 }
        ensures ok { OnOk result (self.new ≡ kept_run sub head_len tails.now) }
        ensures err { OnErr result (self.new ≡ []) }
    {
        self.marks.clear();
        self.sub = sub;
        self.head_len = head_len;
        self.marks.extend(tails)
    }

    /// Puts the messages of a run behind, whose head has so many bytes, where they go with those that are there. Tells whether they do.
    /// Want of memory leaves all as it was.
    pub(crate) fn push(
        &mut self,
        sub: SubId,
        head_len: usize,
        tails: &[TailMark],
    ) -> Result<bool, AllocError>
        requires { copied_of (kept_run sub head_len tails.now) < 2 ^ 64 }
        ensures put { IfOk result (λ put.
            put ≡ true → self.new ≡ self.old ++ kept_run sub head_len tails.now) }
        ensures left { IfOk result (λ put. put ≡ false → self.new ≡ self.old) }
        ensures err { OnErr result (self.new ≡ self.old) }
    {
        if self.marks.as_slice().is_empty() {
            self.begin(sub, head_len, tails)?;
            return Ok(true);
        }
        if self.sub != sub || self.head_len != head_len || !self.marks.are_all_there() {
            return Ok(false);
        }
        self.marks.extend(tails)?;
        Ok(true)
    }

    /// None of them is kept as it came.
    #[tactic(auto, using(crate::proofs::Fronts::none_whole))]
    pub(crate) fn none_is_whole(&self)
        ensures { filter is_whole self.now ≡ [] }
    {
        let _ = &self.sub;
    }

    /// How many bytes the message at a place has.
    pub(crate) fn len_at(&self, place: usize) -> usize
        requires { place < length self.now }
        ensures { (tag : KeptTag) × (kept_at self.now place ≡ Copied tag result) }
    {
        self.head_len + self.marks.as_slice()[place].len
    }

    /// What the message at a place is.
    pub(crate) fn tag_at(&self, place: usize) -> Tag
        requires { place < length self.now }
        ensures { Copied result (copied_len (kept_at self.now place)) ≡ kept_at self.now place }
    {
        Tag::Msg {
            id: self.marks.as_slice()[place].id,
            sub: self.sub,
            mode: Mode::Plain,
        }
    }

    /// Drops the first message. Gives how many bytes it had.
    pub(crate) fn pop_first(&mut self) -> usize
        requires { 0 < length self.old }
        ensures { (tag : KeptTag) × (self.old ≡ Copied tag result ∷ self.new) }
    {
        let len = self.len_at(0);
        self.marks.drop_first();
        len
    }

    /// Drops the last message. Gives how many bytes it had.
    pub(crate) fn pop_last(&mut self) -> usize
        requires { 0 < length self.old }
        ensures { (tag : KeptTag) × (self.old ≡ self.new ++ Copied tag result ∷ []) }
    {
        let len = self.len_at(self.len() - 1);
        self.marks.drop_last();
        len
    }

    /// Drops all messages.
    pub(crate) fn clear(&mut self)
        ensures { self.new ≡ [] }
    {
        self.marks.clear();
    }

    /// Gives back the memory of many messages, where there are none.
    pub(crate) fn rest(&mut self)
        ensures { self.new ≡ self.old }
    {
        self.marks.rest();
    }
}
