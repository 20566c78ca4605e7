//! How entries are kept, in order: those of runs in front.

ghost use Rattle.std.specs.Prelude.{◌≡◌, ℕ, List, ◌+◌, ◌≤◌, ◌<◌, ◌^◌, ◌++◌, ◌∷◌, [], false, filter, length, take, drop, IfOk, OnOk, OnErr};
ghost use Rattle.outbox.specs.Views.{size_of};
ghost use Rattle.outbox.specs.declared.entries.Mode.TheVariants.{Queue};
ghost use Rattle.outbox.specs.declared.entries.Tag.TheVariants.{Msg};
ghost use Rattle.outbox.specs.declared.kept.Kept.{Kept as KeptEntry};
ghost use Rattle.outbox.specs.declared.kept.Kept.TheVariants.{Copied, Whole};
ghost use Rattle.outbox.specs.Kept.{copied_len, copied_of, kept_at, kept_run, is_whole as is_kept_whole, written_at, written_in};

use crate::entries::{Entry, Tag};
use crate::kept_queue::{KeptQueue, append_copied, copy_copied};
use crate::kept_runs::KeptRuns;
use crate::run_tails::TailMark;
use std::alloc::{AllocError, Global};
use std::marker::Model;
use subj::{PubId, QueueName, SubId};

/// How entries are kept, in order: in front the messages of runs to one subscription, and behind them all others.
///
/// Seen as [`KeptQueue`] is.
#[derive(Drop)]
pub(crate) struct KeptEntries {
    front: KeptRuns,
    behind: KeptQueue,
}

impl Model for KeptEntries {
    ghost use Rattle.std.specs.Prelude.{◌+◌, ◌++◌, length};
    ghost use Rattle.outbox.specs.Kept.{KeptItems};

    ghost Value = { KeptItems };

    ghost view = { λ q. record {
      items = q.front ++ q.behind.items;
      places = length q.front + q.behind.places;
      spare = q.behind.spare;
      behind = q.behind.behind;
    } };
}

impl KeptEntries {
    /// No entries, and a place for one.
    pub(crate) fn new(alloc: Global) -> Result<KeptEntries, AllocError>
        ensures { IfOk result (λ queue. (queue.items ≡ []) × (1 ≤ queue.places)) }
    {
        Ok(KeptEntries {
            front: KeptRuns::new(alloc),
            behind: KeptQueue::new(alloc)?,
        })
    }

    /// How many entries there are.
    pub(crate) fn len(&self) -> usize
        ensures { result ≡ length self.now.items }
    {
        self.behind.are_few();
        self.front.len() + self.behind.len()
    }

    /// Takes the memory for the places of two entries more.
    #[inline(always)]
    pub(crate) fn reserve_two(&mut self) -> Result<(), AllocError>
        ensures items { self.new.items ≡ self.old.items }
        ensures places { OnOk result (length self.new.items + 2 ≤ self.new.places) }
        ensures spare { OnOk result (1 ≤ self.new.spare) }
        ensures kept { self.old.places ≤ self.new.places }
    {
        self.behind.reserve_two()
    }

    /// Puts an entry behind that was copied and has so many bytes, for which there is a place. Takes no memory.
    #[inline(always)]
    pub(crate) fn push_copied(&mut self, tag: Tag, len: usize)
        requires place { length self.old.items + 1 ≤ self.old.places }
        requires spare { 1 ≤ self.old.spare }
        ensures items { self.new.items ≡ self.old.items ++ Copied tag len ∷ [] }
        ensures kept { self.old.places ≤ self.new.places }
        ensures place { length self.old.items + 2 ≤ self.old.places
            → length self.new.items + 1 ≤ self.new.places }
    {
        self.behind.push_copied(tag, len);
    }

    /// Puts a message to a member of this queue group behind that was copied and has so many bytes, and takes the memory for the
    /// place of one entry more. Want of memory leaves all as it was.
    #[inline(always)]
    pub(crate) fn push_queued(
        &mut self,
        alloc: Global,
        id: PubId,
        sub: SubId,
        name: &QueueName,
        len: usize,
    ) -> Result<(), AllocError>
        ensures ok { OnOk result
            (self.new.items ≡ self.old.items ++ Copied (Msg id sub (Queue name.now)) len ∷ []) }
        ensures place { OnOk result (length self.new.items + 1 ≤ self.new.places) }
        ensures err { OnErr result (self.new.items ≡ self.old.items) }
        ensures kept { self.old.places ≤ self.new.places }
    {
        self.behind.push_queued(alloc, id, sub, name, len)
    }

    /// Puts the entries of a run behind, whose head has so many bytes, and takes the memory for the place of one more. Want of memory
    /// leaves all as it was.
    pub(crate) fn push_run(
        &mut self,
        sub: SubId,
        head_len: usize,
        tails: &[TailMark],
    ) -> Result<(), AllocError>
        requires few { length self.old.items + length tails.now < 2 ^ 64 }
        requires fits { copied_of (kept_run sub head_len tails.now) < 2 ^ 64 }
        ensures ok { OnOk result
            (self.new.items ≡ self.old.items ++ kept_run sub head_len tails.now) }
        ensures place { OnOk result (length self.old.items + 1 ≤ self.old.places
            → length self.new.items + 1 ≤ self.new.places) }
        ensures err { OnErr result (self.new.items ≡ self.old.items) }
        ensures kept { self.old.places ≤ self.new.places }
    {
        if self.behind.len() == 0 {
            if self.front.push(sub, head_len, tails)? {
                return Ok(());
            }
        }
        self.behind.reserve_run(tails.len())?;
        self.behind.push_run(sub, head_len, tails);
        Ok(())
    }

    /// Puts an entry behind, whole, for which there is a place. Takes no memory.
    pub(crate) fn push_whole_reserved(&mut self, entry: Entry)
        requires { length self.old.items + 1 ≤ self.old.places }
        ensures items { self.new.items ≡ self.old.items ++ Whole entry ∷ [] }
        ensures places { self.new.places ≡ self.old.places }
    {
        self.behind.push_whole_reserved(entry);
    }

    /// Puts an entry behind, whole. Want of memory leaves all as it was.
    pub(crate) fn push_whole(&mut self, entry: Entry) -> Result<(), AllocError>
        ensures ok { OnOk result (self.new.items ≡ self.old.items ++ Whole entry ∷ []) }
        ensures err { OnErr result (self.new.items ≡ self.old.items) }
        ensures kept { self.old.places ≤ self.new.places }
    {
        self.behind.push_whole(entry)
    }

    /// Drops the first entry. Gives how many bytes it had, and how many of them were copied.
    pub(crate) fn pop_first(&mut self) -> (usize, usize)
        ensures rest { self.new.items ≡ drop 1 self.old.items }
        ensures place { length self.old.items + 1 ≤ self.old.places
            → length self.new.items + 1 ≤ self.new.places }
        ensures all { (text : List ℕ)
            → copied_of self.old.items ≤ length text
            → result.0 ≡ size_of (take 1 (written_in self.old.items text)) }
        ensures copied { result.1 ≡ copied_of (take 1 self.old.items) }
    {
        if self.front.len() == 0 {
            return self.behind.pop_first();
        }
        let len = self.front.pop_first();
        (len, len)
    }

    /// Drops the last entry. Gives how many of its bytes were copied.
    pub(crate) fn pop_last(&mut self) -> usize
        requires { 0 < length self.old.items }
        ensures rest { (last : KeptEntry)
            × (self.old.items ≡ self.new.items ++ last ∷ [])
            × (copied_len last ≡ result) }
        ensures places { (count : ℕ)
            → count ≤ length self.new.items
            → count + 1 ≤ self.old.places
            → count + 1 ≤ self.new.places }
    {
        if self.behind.len() > 0 {
            return self.behind.pop_last();
        }
        self.behind.has_place();
        self.front.pop_last()
    }

    /// How many bytes the entry at a place has, and how many of them were copied.
    pub(crate) fn sizes(&self, place: usize) -> (usize, usize)
        requires { place < length self.now.items }
        ensures all { (text : List ℕ)
            → copied_len (kept_at self.now.items place) ≤ length text
            → result.0 ≡ length (written_at (kept_at self.now.items place) text).bytes }
        ensures copied { result.1 ≡ copied_len (kept_at self.now.items place) }
    {
        let first = self.front.len();
        if place < first {
            let len = self.front.len_at(place);
            return (len, len);
        }
        self.behind.sizes(place - first)
    }

    /// Puts the bytes of the entry at a place behind those that are there, and tells how many of `text`, which begins with the
    /// entry's own, it has. Want of memory leaves all as it was.
    pub(crate) fn append_to(
        &self,
        place: usize,
        text: &[u8],
        out: &mut Vec<u8>,
    ) -> Result<usize, AllocError>
        requires place { place < length self.now.items }
        requires text { copied_len (kept_at self.now.items place) ≤ length text.now }
        ensures len { IfOk result (λ len. len ≡ copied_len (kept_at self.now.items place)) }
        ensures ok { OnOk result (out.new.items
            ≡ out.old.items ++ (written_at (kept_at self.now.items place) text.now).bytes) }
        ensures err { OnErr result (out.new.items ≡ out.old.items) }
    {
        let first = self.front.len();
        if place < first {
            return append_copied(self.front.len_at(place), text, out);
        }
        self.behind.append_to(place - first, text, out)
    }

    /// A copy of the entry at a place, and how many of `text`, which begins with the entry's own, it has.
    pub(crate) fn copy_of(
        &self,
        place: usize,
        alloc: Global,
        text: &[u8],
    ) -> Result<(Entry, usize), AllocError>
        requires place { place < length self.now.items }
        requires text { copied_len (kept_at self.now.items place) ≤ length text.now }
        ensures { IfOk result (λ copy.
            (copy.0 ≡ written_at (kept_at self.now.items place) text.now)
            × (copy.1 ≡ copied_len (kept_at self.now.items place))) }
    {
        let first = self.front.len();
        if place < first {
            return copy_copied(
                alloc,
                self.front.tag_at(place),
                self.front.len_at(place),
                text,
            );
        }
        self.behind.copy_of(place - first, alloc, text)
    }

    /// Whether any entry is kept as it came.
    pub(crate) fn any_whole(&self) -> bool
        ensures { result ≡ false → filter is_kept_whole self.now.items ≡ [] }
    {
        self.front.none_is_whole();
        self.behind.any_whole()
    }

    /// Drops all entries.
    pub(crate) fn clear(&mut self)
        ensures items { self.new.items ≡ [] }
        ensures places { 1 ≤ self.new.places }
    {
        self.front.clear();
        self.behind.clear();
    }

    /// Gives back the memory that many entries took and these do not need.
    pub(crate) fn rest(&mut self)
        ensures items { self.new.items ≡ self.old.items }
        ensures places { length self.old.items ≡ 0 → 1 ≤ self.new.places }
    {
        self.front.rest();
        self.behind.rest();
    }
}
