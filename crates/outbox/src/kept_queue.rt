//! How entries are kept, in order.

ghost use Rattle.std.specs.Prelude.{◌≡◌, ℕ, ◌+◌, ◌≤◌, ◌<◌, ◌^◌, List, ◌++◌, ◌∷◌, [], true, false, map, filter, length, take, drop, IfOk, OnOk, OnErr};
ghost use Rattle.std.specs.VecDeque.{deque_capacity};
ghost use Rattle.outbox.specs.Views.{size_of};
ghost use Rattle.outbox.specs.declared.entries.Mode.TheVariants.{Queue};
ghost use Rattle.outbox.specs.declared.entries.Tag.TheVariants.{Msg};
ghost use Rattle.outbox.specs.declared.kept.Kept.{Kept as KeptEntry};
ghost use Rattle.outbox.specs.declared.kept.Kept.TheVariants.{Copied, Whole};
ghost use Rattle.outbox.specs.Kept.{copied_len, copied_of, kept_at, kept_of, kept_run, mark_in_run, is_whole as is_kept_whole, written_at, written_in};

use crate::entries::{Entry, Mode, Tag};
use crate::kept::{Kept, Mark};
use crate::run_tails::TailMark;
use std::alloc::{AllocError, Global};
use std::collections::VecDeque;
use std::marker::Model;
use subj::{PubId, QueueName, SubId};

/// How many places stay at most while nothing waits.
const KEPT_PLACES: usize = 8;

/// How many bytes an entry has, and how many of them were copied.
fn sizes_of(kept: &Kept) -> (usize, usize)
    ensures all { (text : List ℕ)
        → copied_len kept.now ≤ length text
        → result.0 ≡ length (written_at kept.now text).bytes }
    ensures copied { result.1 ≡ copied_len kept.now }
{
    match kept {
        Kept::Copied { len, .. } => (*len, *len),
        Kept::Whole(entry) => (entry.len(), 0),
    }
}

/// Whether the entry is kept as it came.
fn is_whole(kept: &Kept) -> bool
    ensures { result ≡ is_kept_whole kept.now }
{
    matches!(kept, Kept::Whole(_))
}

/// Whether any entry is kept as it came.
fn any_whole(kept: &VecDeque<Kept>) -> bool
    ensures { result ≡ false → filter is_kept_whole kept.now.items ≡ [] }
{
    for place in 0..kept.len() {
        if is_whole(&kept[place]) {
            return true;
        }
    }
    false
}

/// Puts the bytes of an entry that was copied and has so many, with which `text` begins, behind those that are there, and tells
/// how many they are. Want of memory leaves all as it was.
pub(crate) fn append_copied(len: usize, text: &[u8], out: &mut Vec<u8>) -> Result<usize, AllocError>
    requires { len ≤ length text.now }
    ensures len { IfOk result (λ appended. appended ≡ len) }
    ensures ok { OnOk result (out.new.items ≡ out.old.items ++ take len text.now) }
    ensures err { OnErr result (out.new.items ≡ out.old.items) }
{
    out.extend_from_slice(&text[..len])?;
    Ok(len)
}

/// Puts the bytes of an entry behind those that are there, and tells how many of `text`, which begins
/// with the entry's own, it has. Want of memory leaves all as it was.
fn append_kept(kept: &Kept, text: &[u8], out: &mut Vec<u8>) -> Result<usize, AllocError>
    requires { copied_len kept.now ≤ length text.now }
    ensures len { IfOk result (λ len. len ≡ copied_len kept.now) }
    ensures ok { OnOk result
        (out.new.items ≡ out.old.items ++ (written_at kept.now text.now).bytes) }
    ensures err { OnErr result (out.new.items ≡ out.old.items) }
{
    match kept {
        Kept::Copied { len, .. } => append_copied(*len, text, out),
        Kept::Whole(entry) => {
            entry.append_to(out)?;
            Ok(0)
        }
    }
}

/// A copy of an entry that was copied and has so many bytes, with which `text` begins; and how many they are.
pub(crate) fn copy_copied(
    alloc: Global,
    tag: Tag,
    len: usize,
    text: &[u8],
) -> Result<(Entry, usize), AllocError>
    requires { len ≤ length text.now }
    ensures { IfOk result (λ copy.
        (copy.0 ≡ record { tag = tag; bytes = take len text.now }) × (copy.1 ≡ len)) }
{
    let bytes = Vec::from_slice(alloc, &text[..len])?;
    Ok((Entry::of_bytes(tag, bytes), len))
}

/// A copy of an entry, and how many of `text`, which begins with the entry's own, it has.
fn copy_of(alloc: Global, kept: &Kept, text: &[u8]) -> Result<(Entry, usize), AllocError>
    requires { copied_len kept.now ≤ length text.now }
    ensures { IfOk result (λ copy.
        (copy.0 ≡ written_at kept.now text.now) × (copy.1 ≡ copied_len kept.now)) }
{
    match kept {
        Kept::Copied { tag, len } => copy_copied(alloc, tag.try_clone(alloc)?, *len, text),
        Kept::Whole(entry) => Ok((entry.try_clone(alloc)?, 0)),
    }
}

/// Drops the first entry. Gives how many bytes it had, and how many of them were copied.
fn pop_first(kept: &mut VecDeque<Kept>) -> (usize, usize)
    ensures rest { kept.new.items ≡ drop 1 kept.old.items }
    ensures capacity { deque_capacity kept.new ≡ deque_capacity kept.old }
    ensures all { (text : List ℕ)
        → copied_of kept.old.items ≤ length text
        → result.0 ≡ size_of (take 1 (written_in kept.old.items text)) }
    ensures copied { result.1 ≡ copied_of (take 1 kept.old.items) }
{
    match kept.pop_front() {
        None => (0, 0),
        Some(first) => sizes_of(&first),
    }
}

/// Puts the marks of a run behind, whose head has so many bytes, where there is room for them. Takes no memory.
fn push_marks(marks: &mut VecDeque<Mark>, sub: SubId, head_len: usize, tails: &[TailMark])
    requires room { length marks.old.items + length tails.now ≤ deque_capacity marks.old }
    requires fits { copied_of (kept_run sub head_len tails.now) < 2 ^ 64 }
    ensures items { marks.new.items ≡ marks.old.items ++ map (mark_in_run sub head_len) tails.now }
    ensures capacity { deque_capacity marks.new ≡ deque_capacity marks.old }
{
    for tail in tails {
        marks.push_back_reserved(Mark::Message {
            id: tail.id,
            sub,
            len: head_len + tail.len,
        });
    }
}

/// Puts the entries of a run behind, whose head has so many bytes, where there is room for them. Takes no memory.
fn push_copies(kept: &mut VecDeque<Kept>, sub: SubId, head_len: usize, tails: &[TailMark])
    requires room { length kept.old.items + length tails.now ≤ deque_capacity kept.old }
    requires fits { copied_of (kept_run sub head_len tails.now) < 2 ^ 64 }
    ensures items { kept.new.items ≡ kept.old.items ++ kept_run sub head_len tails.now }
    ensures capacity { deque_capacity kept.new ≡ deque_capacity kept.old }
{
    for tail in tails {
        kept.push_back_reserved(Kept::Copied {
            tag: Tag::Msg {
                id: tail.id,
                sub,
                mode: Mode::Plain,
            },
            len: head_len + tail.len,
        });
    }
}

/// Whether the mode is that of a member of the queue group of this name.
#[inline(always)]
fn is_queued_by(mode: &Mode, name: &QueueName) -> bool
    ensures { result ≡ true → mode.now ≡ Queue name.now }
{
    match mode {
        Mode::Plain => false,
        Mode::Queue(queue) => queue.bytes() == name.bytes(),
    }
}

/// Makes the mode that of a member of the queue group of this name, where it is another and free. Tells whether it is that now. Want of
/// memory leaves it as it was.
#[inline(always)]
fn take_name(
    mode: &mut Mode,
    is_free: bool,
    alloc: Global,
    name: &QueueName,
) -> Result<bool, AllocError>
    ensures named { IfOk result (λ named. named ≡ true → mode.new ≡ Queue name.now) }
    ensures left { IfOk result (λ named. named ≡ false → mode.new ≡ mode.old) }
    ensures used { is_free ≡ false → mode.new ≡ mode.old }
    ensures err { OnErr result (mode.new ≡ mode.old) }
{
    if is_queued_by(mode, name) {
        return Ok(true);
    }
    if !is_free {
        return Ok(false);
    }
    *mode = Mode::Queue(name.try_clone(alloc)?);
    Ok(true)
}

/// How entries are kept, in order: the first ones by their marks, up to the first that owns anything. While all own nothing, all
/// are dropped at once. A message to a member of a queue group has a mark where its queue name stands beside the marks.
///
/// Seen as the list of what is kept, how many there can be without more memory where the last one owns anything, for how many
/// marks more there is room, and how many stand behind all that have marks.
#[derive(Drop)]
pub(crate) struct KeptQueue {
    marks: VecDeque<Mark>,
    /// How the messages to members of a queue group came that have marks: all of them by members of one group. It changes only while
    /// there are no marks.
    mode: Mode,
    /// Those behind.
    others: VecDeque<Kept>,
}

impl Model for KeptQueue {
    ghost use Rattle.outbox.specs.Kept.{KeptItems};

    ghost Value = { KeptItems };

    ghost use Rattle.std.specs.Prelude.{◌+◌, ◌-◌, ◌≤◌, ◌++◌, length, map};
    ghost use Rattle.std.specs.VecDeque.{deque_capacity};
    ghost use Rattle.outbox.specs.Kept.{kept_of};

    ghost view = { λ q. record {
      items = map (kept_of q.mode) q.marks.items ++ q.others.items;
      places = length q.marks.items + deque_capacity q.others;
      spare = deque_capacity q.marks - length q.marks.items;
      behind = length q.others.items;
    } };

    ghost invariant = { λ q. 1 ≤ deque_capacity q.others };
}

impl KeptQueue {
    /// No entries, and a place for one.
    pub(crate) fn new(alloc: Global) -> Result<KeptQueue, AllocError>
        ensures { IfOk result (λ queue. (queue.items ≡ []) × (1 ≤ queue.places)) }
    {
        Ok(KeptQueue {
            marks: VecDeque::new(alloc),
            mode: Mode::Plain,
            others: VecDeque::with_capacity(alloc, 1)?,
        })
    }

    /// There is a place for at least one entry.
    pub(crate) fn has_place(&self)
        ensures { 1 ≤ self.now.places }
    {
        let _ = &self.marks;
    }

    /// There are few enough entries to count them together with others, since each takes memory.
    #[inline(always)]
    pub(crate) fn are_few(&self)
        ensures { length self.now.items < 2 ^ 63 }
    {
        let (marks, more_marks) = self.marks.as_slices();
        let (others, more_others) = self.others.as_slices();
        let _ = (
            marks.len(),
            more_marks.len(),
            others.len(),
            more_others.len(),
        );
    }

    /// How many entries there are.
    pub(crate) fn len(&self) -> usize
        ensures { result ≡ length self.now.items }
    {
        self.marks.len() + self.others.len()
    }

    /// Takes the memory for the places of two entries more.
    #[inline(always)]
    pub(crate) fn reserve_two(&mut self) -> Result<(), AllocError>
        ensures items { self.new.items ≡ self.old.items }
        ensures places { OnOk result (length self.new.items + 2 ≤ self.new.places) }
        ensures spare { OnOk result (1 ≤ self.new.spare) }
        ensures kept { self.old.places ≤ self.new.places }
    {
        if self.marks.len() == self.marks.capacity() {
            self.marks.reserve(1)?;
        }
        self.others.reserve(2)?;
        Ok(())
    }

    /// Puts an entry behind that was copied and has so many bytes, for which there is a place. Takes no memory.
    #[inline(always)]
    pub(crate) fn push_copied(&mut self, tag: Tag, len: usize)
        requires place { length self.old.items + 1 ≤ self.old.places }
        requires spare { 1 ≤ self.old.spare }
        ensures items { self.new.items ≡ self.old.items ++ Copied tag len ∷ [] }
        ensures kept { self.old.places ≤ self.new.places }
        ensures place { length self.old.items + 2 ≤ self.old.places
            → length self.new.items + 1 ≤ self.new.places }
    {
        if self.others.is_empty() {
            if let Some(mark) = Mark::of(&tag, len) {
                self.marks.push_back_reserved(mark);
                return;
            }
        }
        self.others.push_back_reserved(Kept::Copied { tag, len });
    }

    /// Puts a message to a member of this queue group behind that was copied and has so many bytes, for which there is a place, where
    /// the name stands beside the marks, or can, as there are no marks. Tells whether it did. Want of memory leaves all as it was.
    #[inline(always)]
    fn push_mark(
        &mut self,
        alloc: Global,
        id: PubId,
        sub: SubId,
        name: &QueueName,
        len: usize,
    ) -> Result<bool, AllocError>
        requires place { length self.old.items + 2 ≤ self.old.places }
        requires spare { 1 ≤ self.old.spare }
        ensures put { IfOk result (λ put.
            put ≡ true
            → self.new.items
            ≡ self.old.items ++ Copied (Msg id sub (Queue name.now)) len ∷ []) }
        ensures left { IfOk result (λ put. put ≡ false → self.new.items ≡ self.old.items) }
        ensures err { OnErr result (self.new.items ≡ self.old.items) }
        ensures places { length self.new.items + 1 ≤ self.new.places }
        ensures spare { IfOk result (λ put. put ≡ false → self.new.spare ≡ self.old.spare) }
        ensures kept { self.old.places ≤ self.new.places }
    {
        if !self.others.is_empty() {
            return Ok(false);
        }
        if !take_name(&mut self.mode, self.marks.is_empty(), alloc, name)? {
            return Ok(false);
        }
        self.marks
            .push_back_reserved(Mark::Grouped { id, sub, len });
        Ok(true)
    }

    /// Puts a message to a member of this queue group behind that was copied and has so many bytes, and takes the memory for the
    /// place of one entry more. The name is copied where it does not stand beside the marks. Want of memory leaves all as it was.
    #[inline(always)]
    pub(crate) fn push_queued(
        &mut self,
        alloc: Global,
        id: PubId,
        sub: SubId,
        name: &QueueName,
        len: usize,
    ) -> Result<(), AllocError>
        ensures ok { OnOk result
            (self.new.items ≡ self.old.items ++ Copied (Msg id sub (Queue name.now)) len ∷ []) }
        ensures place { OnOk result (length self.new.items + 1 ≤ self.new.places) }
        ensures err { OnErr result (self.new.items ≡ self.old.items) }
        ensures kept { self.old.places ≤ self.new.places }
    {
        self.reserve_two()?;
        if self.push_mark(alloc, id, sub, name, len)? {
            return Ok(());
        }
        let mode = Mode::Queue(name.try_clone(alloc)?);
        self.push_copied(Tag::Msg { id, sub, mode }, len);
        Ok(())
    }

    /// Takes the memory for the places of a run of so many entries that own nothing, and of one entry behind them.
    pub(crate) fn reserve_run(&mut self, count: usize) -> Result<(), AllocError>
        requires { length self.old.items + count < 2 ^ 64 }
        ensures items { self.new.items ≡ self.old.items }
        ensures behind { self.new.behind ≡ self.old.behind }
        ensures marks { OnOk result (self.new.behind ≡ 0 → count ≤ self.new.spare) }
        ensures places { OnOk result
            (0 < self.new.behind → length self.new.items + count + 1 ≤ self.new.places) }
        ensures kept { self.old.places ≤ self.new.places }
    {
        if self.others.is_empty() {
            return self.marks.reserve(count);
        }
        self.others.reserve(count + 1)
    }

    /// Puts the entries of a run behind, whose head has so many bytes, where there is room for them. Takes no memory.
    pub(crate) fn push_run(&mut self, sub: SubId, head_len: usize, tails: &[TailMark])
        requires marks { self.old.behind ≡ 0 → length tails.now ≤ self.old.spare }
        requires places { 0 < self.old.behind
            → length self.old.items + length tails.now + 1 ≤ self.old.places }
        requires fits { copied_of (kept_run sub head_len tails.now) < 2 ^ 64 }
        ensures items { self.new.items ≡ self.old.items ++ kept_run sub head_len tails.now }
        ensures kept { self.old.places ≤ self.new.places }
        ensures place { length self.old.items + 1 ≤ self.old.places
            → length self.new.items + 1 ≤ self.new.places }
    {
        if self.others.is_empty() {
            push_marks(&mut self.marks, sub, head_len, tails);
        } else {
            push_copies(&mut self.others, sub, head_len, tails);
        }
    }

    /// Puts an entry behind, whole, for which there is a place. Takes no memory.
    pub(crate) fn push_whole_reserved(&mut self, entry: Entry)
        requires { length self.old.items + 1 ≤ self.old.places }
        ensures items { self.new.items ≡ self.old.items ++ Whole entry ∷ [] }
        ensures places { self.new.places ≡ self.old.places }
    {
        self.others.push_back_reserved(Kept::Whole(entry));
    }

    /// Puts an entry behind, whole. Want of memory leaves all as it was.
    pub(crate) fn push_whole(&mut self, entry: Entry) -> Result<(), AllocError>
        ensures ok { OnOk result (self.new.items ≡ self.old.items ++ Whole entry ∷ []) }
        ensures err { OnErr result (self.new.items ≡ self.old.items) }
        ensures kept { self.old.places ≤ self.new.places }
    {
        self.others.push_back(Kept::Whole(entry))?;
        Ok(())
    }

    /// Drops the first entry. Gives how many bytes it had, and how many of them were copied.
    pub(crate) fn pop_first(&mut self) -> (usize, usize)
        ensures rest { self.new.items ≡ drop 1 self.old.items }
        ensures place { length self.old.items + 1 ≤ self.old.places
            → length self.new.items + 1 ≤ self.new.places }
        ensures all { (text : List ℕ)
            → copied_of self.old.items ≤ length text
            → result.0 ≡ size_of (take 1 (written_in self.old.items text)) }
        ensures copied { result.1 ≡ copied_of (take 1 self.old.items) }
    {
        match self.marks.pop_front() {
            Some(mark) => (mark.len(), mark.len()),
            None => pop_first(&mut self.others),
        }
    }

    /// Drops the last entry. Gives how many of its bytes were copied.
    pub(crate) fn pop_last(&mut self) -> usize
        requires { 0 < length self.old.items }
        ensures rest { (last : KeptEntry)
            × (self.old.items ≡ self.new.items ++ last ∷ [])
            × (copied_len last ≡ result) }
        ensures places { (count : ℕ)
            → count ≤ length self.new.items
            → count + 1 ≤ self.old.places
            → count + 1 ≤ self.new.places }
    {
        if let Some(last) = self.others.pop_back() {
            return sizes_of(&last).1;
        }
        match self.marks.pop_back() {
            // required: there is an entry
            None => unreachable!(),
            Some(mark) => mark.len(),
        }
    }

    /// How many bytes the entry at a place has, and how many of them were copied.
    pub(crate) fn sizes(&self, place: usize) -> (usize, usize)
        requires { place < length self.now.items }
        ensures all { (text : List ℕ)
            → copied_len (kept_at self.now.items place) ≤ length text
            → result.0 ≡ length (written_at (kept_at self.now.items place) text).bytes }
        ensures copied { result.1 ≡ copied_len (kept_at self.now.items place) }
    {
        if place < self.marks.len() {
            let len = self.marks[place].len();
            return (len, len);
        }
        sizes_of(&self.others[place - self.marks.len()])
    }

    /// Puts the bytes of the entry at a place behind those that are there, and tells how many of `text`, which begins with the
    /// entry's own, it has. Want of memory leaves all as it was.
    pub(crate) fn append_to(
        &self,
        place: usize,
        text: &[u8],
        out: &mut Vec<u8>,
    ) -> Result<usize, AllocError>
        requires place { place < length self.now.items }
        requires text { copied_len (kept_at self.now.items place) ≤ length text.now }
        ensures len { IfOk result (λ len. len ≡ copied_len (kept_at self.now.items place)) }
        ensures ok { OnOk result (out.new.items
            ≡ out.old.items ++ (written_at (kept_at self.now.items place) text.now).bytes) }
        ensures err { OnErr result (out.new.items ≡ out.old.items) }
    {
        if place < self.marks.len() {
            return append_copied(self.marks[place].len(), text, out);
        }
        append_kept(&self.others[place - self.marks.len()], text, out)
    }

    /// A copy of the entry at a place, and how many of `text`, which begins with the entry's own, it has.
    pub(crate) fn copy_of(
        &self,
        place: usize,
        alloc: Global,
        text: &[u8],
    ) -> Result<(Entry, usize), AllocError>
        requires place { place < length self.now.items }
        requires text { copied_len (kept_at self.now.items place) ≤ length text.now }
        ensures { IfOk result (λ copy.
            (copy.0 ≡ written_at (kept_at self.now.items place) text.now)
            × (copy.1 ≡ copied_len (kept_at self.now.items place))) }
    {
        if place < self.marks.len() {
            let mark = self.marks[place];
            let tag = mark.tag(&self.mode, alloc)?;
            return copy_copied(alloc, tag, mark.len(), text);
        }
        copy_of(alloc, &self.others[place - self.marks.len()], text)
    }

    /// Whether any entry is kept as it came.
    pub(crate) fn any_whole(&self) -> bool
        ensures { result ≡ false → filter is_kept_whole self.now.items ≡ [] }
    {
        any_whole(&self.others)
    }

    /// Drops all entries.
    pub(crate) fn clear(&mut self)
        ensures items { self.new.items ≡ [] }
        ensures places { 1 ≤ self.new.places }
    {
        self.marks.clear();
        if !self.others.is_empty() {
            self.others.clear();
        }
    }

    /// Gives back the memory that many entries took and these do not need.
    pub(crate) fn rest(&mut self)
        ensures items { self.new.items ≡ self.old.items }
        ensures places { length self.old.items ≡ 0 → 1 ≤ self.new.places }
    {
        self.marks.shrink_to(KEPT_PLACES);
        self.others.shrink_to(KEPT_PLACES);
    }
}
