//! Entries in order, with the bytes of small ones in one buffer.

ghost use Rattle.std.specs.Prelude.{◌≡◌, ℕ, ◌+◌, ◌-◌, ◌≤◌, ◌<◌, ◌^◌, Some, ◌++◌, ◌∷◌, [], length, take, drop, IfOk, OnOk, OnErr};
ghost use Rattle.outbox.specs.Bytes.{bytes_of};
ghost use Rattle.outbox.specs.Views.{size_of, bytes_of_all, reply_entry, message_run, spelt_entry};
ghost use Rattle.outbox.specs.declared.entries.Mode.TheVariants.{Queue};
ghost use Rattle.outbox.specs.Kept.{copied_of, written_in};

use crate::byte_queue::ByteQueue;
use crate::entries::{Entry, Tag};
use crate::kept_entries::KeptEntries;
use crate::run_tails::RunTails;
use bytes::Bytes;
use line_fields::CR_LF;
use std::alloc::{AllocError, Global};
use std::marker::Model;
use subj::{PubId, QueueName, SubId};

/// The most bytes of an entry that is copied where it is put, each CR LF among them. Larger ones stay as they came, and share
/// their payload.
pub const COPIED_BYTES: usize = 4_096;

/// Puts the bytes of the first entries behind those that are there. For want of memory some of them may
/// stand there.
fn append_first(
    kept: &KeptEntries,
    text: &[u8],
    count: usize,
    out: &mut Vec<u8>,
) -> Result<(), AllocError>
    requires there { count ≤ length kept.now.items }
    requires text { copied_of kept.now.items ≤ length text.now }
    ensures ok { OnOk result (out.new.items
        ≡ out.old.items ++ bytes_of_all (take count (written_in kept.now.items text.now))) }
    ensures err { take (length out.old.items) out.new.items ≡ out.old.items }
{
    let mut at = 0;
    for place in 0..count {
        at += kept.append_to(place, &text[at..], out)?;
    }
    Ok(())
}

/// Copies of the first entries.
fn copy_first(
    alloc: Global,
    kept: &KeptEntries,
    text: &[u8],
    count: usize,
) -> Result<Vec<Entry>, AllocError>
    requires there { count ≤ length kept.now.items }
    requires text { copied_of kept.now.items ≤ length text.now }
    ensures { IfOk result (λ copies.
        copies.items ≡ take count (written_in kept.now.items text.now)) }
{
    let mut copies = Vec::with_capacity(alloc, count)?;
    let mut at = 0;
    for place in 0..count {
        let (copy, copied) = kept.copy_of(place, alloc, &text[at..])?;
        copies.push(copy)?;
        at += copied;
    }
    Ok(copies)
}

/// Entries in order. The bytes of those that have few are copied, one behind another.
///
/// Seen as the list of the entries, and how many there can be without more memory for their places.
#[derive(Drop)]
pub(crate) struct EntryQueue {
    text: ByteQueue,
    kept: KeptEntries,
}

impl Model for EntryQueue {
    ghost use Rattle.outbox.specs.Kept.{Queued};

    ghost Value = { Queued };

    ghost use Rattle.std.specs.Prelude.{◌≡◌, length};
    ghost use Rattle.outbox.specs.Kept.{written_in, copied_of};

    ghost view = { λ q. record {
      entries = written_in q.kept.items q.text;
      places = q.kept.places;
    } };

    ghost invariant = { λ q. copied_of q.kept.items ≡ length q.text };
}

impl EntryQueue {
    /// No entries, and a place for one.
    pub(crate) fn new(alloc: Global) -> Result<EntryQueue, AllocError>
        ensures { IfOk result (λ queue. (queue.entries ≡ []) × (1 ≤ queue.places)) }
    {
        Ok(EntryQueue {
            text: ByteQueue::new(alloc),
            kept: KeptEntries::new(alloc)?,
        })
    }

    /// How many entries there are.
    #[tactic(auto, using(crate::proofs::Seen::length_seen))]
    pub(crate) fn len(&self) -> usize
        ensures { result ≡ length self.now.entries }
    {
        self.kept.len()
    }

    /// Takes the memory for the places of two entries more.
    #[tactic(auto, using(crate::proofs::Seen::length_seen))]
    fn reserve_two(&mut self) -> Result<(), AllocError>
        ensures entries { self.new.entries ≡ self.old.entries }
        ensures places { OnOk result (length self.new.entries + 2 ≤ self.new.places) }
        ensures kept { self.old.places ≤ self.new.places }
    {
        self.kept.reserve_two()
    }

    /// Puts an entry behind, and takes the memory for the place of one more. Want of memory leaves all as it
    /// was.
    pub(crate) fn push(&mut self, entry: Entry) -> Result<(), AllocError>
        ensures ok { OnOk result (self.new.entries ≡ self.old.entries ++ entry ∷ []) }
        ensures place { OnOk result (length self.new.entries + 1 ≤ self.new.places) }
        ensures err { OnErr result (self.new.entries ≡ self.old.entries) }
        ensures kept { self.old.places ≤ self.new.places }
    {
        let len = entry.len();
        if len > COPIED_BYTES {
            self.reserve_two()?;
            self.push_whole_reserved(entry);
            return Ok(());
        }
        self.push_copied(entry, len)
    }

    /// Puts a copy of an entry of so many bytes behind, and takes the memory for the place of one more. Want of memory leaves all
    /// as it was.
    #[tactic(auto, using(crate::proofs::Seen::length_seen))]
    fn push_copied(&mut self, entry: Entry, len: usize) -> Result<(), AllocError>
        requires { len ≡ length entry.bytes }
        ensures ok { OnOk result (self.new.entries ≡ self.old.entries ++ entry ∷ []) }
        ensures place { OnOk result (length self.new.entries + 1 ≤ self.new.places) }
        ensures err { OnErr result (self.new.entries ≡ self.old.entries) }
        ensures kept { self.old.places ≤ self.new.places }
    {
        self.kept.reserve_two()?;
        self.text.push_entry(&entry)?;
        self.kept.push_copied(entry.into_tag(), len);
        Ok(())
    }

    /// Puts an answer behind, and takes the memory for the place of one more. Its line comes without its CR LF, and
    /// is copied, however long it is. Want of memory leaves all as it was.
    #[tactic(auto, using(crate::proofs::Seen::length_seen))]
    pub(crate) fn push_reply(&mut self, line: &[u8]) -> Result<(), AllocError>
        requires { length line.now + 2 < 2 ^ 64 }
        ensures ok { OnOk result
            (self.new.entries ≡ self.old.entries ++ reply_entry line.now ∷ []) }
        ensures place { OnOk result (length self.new.entries + 1 ≤ self.new.places) }
        ensures err { OnErr result (self.new.entries ≡ self.old.entries) }
        ensures kept { self.old.places ≤ self.new.places }
    {
        self.kept.reserve_two()?;
        let len = self.text.push_line(line)?;
        self.kept.push_copied(Tag::Reply, len);
        Ok(())
    }

    /// Puts a message behind, and takes the memory for the place of one more. Its line and payload come without
    /// their CR LF. Want of memory leaves all as it was.
    pub(crate) fn push_message(
        &mut self,
        alloc: Global,
        tag: Tag,
        line: &[u8],
        payload: &Bytes,
    ) -> Result<(), AllocError>
        requires { length line.now + length payload.now + 4 < 2 ^ 64 }
        ensures ok { OnOk result (self.new.entries
            ≡ self.old.entries
            ++ record { tag = tag; bytes = bytes_of line.now (Some payload.now) } ∷ []) }
        ensures place { OnOk result (length self.new.entries + 1 ≤ self.new.places) }
        ensures err { OnErr result (self.new.entries ≡ self.old.entries) }
        ensures kept { self.old.places ≤ self.new.places }
    {
        if line.len() + payload.len() + 2 * CR_LF.len() > COPIED_BYTES {
            return self.push_shared(alloc, tag, line, payload);
        }
        self.push_text(tag, line, payload)
    }

    /// Puts a message behind that shares its payload, and takes the memory for the place of one more. Want of memory leaves all as
    /// it was.
    fn push_shared(
        &mut self,
        alloc: Global,
        tag: Tag,
        line: &[u8],
        payload: &Bytes,
    ) -> Result<(), AllocError>
        requires { length line.now + length payload.now + 4 < 2 ^ 64 }
        ensures ok { OnOk result (self.new.entries
            ≡ self.old.entries
            ++ record { tag = tag; bytes = bytes_of line.now (Some payload.now) } ∷ []) }
        ensures place { OnOk result (length self.new.entries + 1 ≤ self.new.places) }
        ensures err { OnErr result (self.new.entries ≡ self.old.entries) }
        ensures kept { self.old.places ≤ self.new.places }
    {
        self.reserve_two()?;
        let entry = Entry::shared(alloc, tag, line, payload)?;
        self.push_whole_reserved(entry);
        Ok(())
    }

    /// Puts a message behind whose bytes are copied, and takes the memory for the place of one more. Want of memory leaves all as
    /// it was.
    #[tactic(auto, using(crate::proofs::Seen::length_seen))]
    fn push_text(&mut self, tag: Tag, line: &[u8], payload: &[u8]) -> Result<(), AllocError>
        requires { length line.now + length payload.now + 4 < 2 ^ 64 }
        ensures ok { OnOk result (self.new.entries
            ≡ self.old.entries
            ++ record { tag = tag; bytes = bytes_of line.now (Some payload.now) } ∷ []) }
        ensures place { OnOk result (length self.new.entries + 1 ≤ self.new.places) }
        ensures err { OnErr result (self.new.entries ≡ self.old.entries) }
        ensures kept { self.old.places ≤ self.new.places }
    {
        self.kept.reserve_two()?;
        let len = self.text.push_message(line, payload)?;
        self.kept.push_copied(tag, len);
        Ok(())
    }

    /// Puts a message behind, and takes the memory for the place of one more. All its bytes come in two parts, and are
    /// copied, however many they are. Want of memory leaves all as it was.
    #[tactic(auto, using(crate::proofs::Seen::length_seen))]
    pub(crate) fn push_parts(
        &mut self,
        tag: Tag,
        head: &[u8],
        tail: &[u8],
    ) -> Result<(), AllocError>
        requires { length head.now + length tail.now < 2 ^ 64 }
        ensures ok { OnOk result (self.new.entries
            ≡ self.old.entries ++ record { tag = tag; bytes = head.now ++ tail.now } ∷ []) }
        ensures place { OnOk result (length self.new.entries + 1 ≤ self.new.places) }
        ensures err { OnErr result (self.new.entries ≡ self.old.entries) }
        ensures kept { self.old.places ≤ self.new.places }
    {
        self.kept.reserve_two()?;
        let len = self.text.push_parts(head, tail)?;
        self.kept.push_copied(tag, len);
        Ok(())
    }

    /// Puts a message to a member of the queue group of this name behind: what [`EntryQueue::push_parts`] does. The name is copied
    /// only where it is another than that of the messages before it.
    #[tactic(auto, using(crate::proofs::Seen::length_seen))]
    pub(crate) fn push_queued(
        &mut self,
        alloc: Global,
        id: PubId,
        sub: SubId,
        name: &QueueName,
        head: &[u8],
        tail: &[u8],
    ) -> Result<(), AllocError>
        requires { length head.now + length tail.now < 2 ^ 64 }
        ensures ok { OnOk result (self.new.entries
            ≡ self.old.entries
            ++ spelt_entry id sub (Queue name.now) (head.now ++ tail.now) ∷ []) }
        ensures place { OnOk result (length self.new.entries + 1 ≤ self.new.places) }
        ensures err { OnErr result (self.new.entries ≡ self.old.entries) }
        ensures kept { self.old.places ≤ self.new.places }
    {
        let before = self.text.as_slice().len();
        let len = self.text.push_parts(head, tail)?;
        if self.kept.push_queued(alloc, id, sub, name, len).is_err() {
            self.text.truncate(before);
            return Err(AllocError);
        }
        Ok(())
    }

    /// Puts the messages of a run to a plain subscription behind, each with this head, and takes the memory for the place of one
    /// more. All bytes are copied, however many they are. Gives how many they are. Want of memory leaves all as it was.
    #[tactic(auto, using(crate::proofs::Seen::length_seen))]
    pub(crate) fn push_run(
        &mut self,
        sub: SubId,
        head: &[u8],
        tails: &RunTails,
    ) -> Result<usize, AllocError>
        requires few { length self.old.entries + length tails.now < 2 ^ 64 }
        requires small { size_of (message_run sub head.now tails.now) < 2 ^ 64 }
        ensures len { IfOk result (λ len. len ≡ size_of (message_run sub head.now tails.now)) }
        ensures ok { OnOk result
            (self.new.entries ≡ self.old.entries ++ message_run sub head.now tails.now) }
        ensures place { OnOk result (length self.old.entries + 1 ≤ self.old.places
            → length self.new.entries + 1 ≤ self.new.places) }
        ensures err { OnErr result (self.new.entries ≡ self.old.entries) }
        ensures kept { self.old.places ≤ self.new.places }
    {
        let before = self.text.as_slice().len();
        let len = self.text.push_run(head, tails)?;
        if self.kept.push_run(sub, head.len(), tails.marks()).is_err() {
            self.text.truncate(before);
            return Err(AllocError);
        }
        Ok(len)
    }

    /// Puts an entry behind, whole. Want of memory leaves all as it was.
    #[tactic(auto, using(crate::proofs::Seen::seen_whole, crate::proofs::Seen::copied_whole, crate::proofs::Seen::length_seen))]
    pub(crate) fn push_whole(&mut self, entry: Entry) -> Result<(), AllocError>
        ensures ok { OnOk result (self.new.entries ≡ self.old.entries ++ entry ∷ []) }
        ensures err { OnErr result (self.new.entries ≡ self.old.entries) }
        ensures kept { self.old.places ≤ self.new.places }
    {
        self.kept.push_whole(entry)
    }

    /// Puts an entry behind, whole, for which there is a place. Takes no memory.
    #[tactic(auto, using(crate::proofs::Seen::seen_whole, crate::proofs::Seen::copied_whole, crate::proofs::Seen::length_seen))]
    pub(crate) fn push_whole_reserved(&mut self, entry: Entry)
        requires { length self.old.entries + 1 ≤ self.old.places }
        ensures { self.new
            ≡ record { entries = self.old.entries ++ entry ∷ []; places = self.old.places } }
    {
        self.kept.push_whole_reserved(entry);
    }

    /// Drops the last entry.
    fn drop_last(&mut self)
        requires { 0 < length self.old.entries }
        ensures entries { self.new.entries ≡ take (length self.old.entries - 1) self.old.entries }
        ensures places { (count : ℕ)
            → count ≤ length self.new.entries
            → count + 1 ≤ self.old.places
            → count + 1 ≤ self.new.places }
    {
        let copied = self.kept.pop_last();
        let left = self.text.as_slice().len() - copied;
        self.text.truncate(left);
    }

    /// Keeps the first entries.
    pub(crate) fn truncate(&mut self, count: usize)
        requires { count ≤ length self.old.entries }
        ensures entries { self.new.entries ≡ take count self.old.entries }
        ensures places { count + 1 ≤ self.old.places → count + 1 ≤ self.new.places }
    {
        for _dropped in count..self.len() {
            self.drop_last();
        }
    }

    /// Drops the first entry, and takes its bytes off the count.
    fn drop_first(&mut self, bytes: &mut usize)
        ensures rest { self.new.entries ≡ drop 1 self.old.entries }
        ensures place { length self.old.entries + 1 ≤ self.old.places
            → length self.new.entries + 1 ≤ self.new.places }
        ensures bytes { bytes.new ≡ bytes.old - size_of (take 1 self.old.entries) }
    {
        let (all, copied) = self.kept.pop_first();
        self.text.drop_front(copied);
        *bytes = bytes.saturating_sub(all);
    }

    /// Drops the first entries, and takes their bytes off the count.
    pub(crate) fn drop_front(&mut self, count: usize, bytes: &mut usize)
        ensures rest { self.new.entries ≡ drop count self.old.entries }
        ensures place { length self.old.entries + 1 ≤ self.old.places
            → length self.new.entries + 1 ≤ self.new.places }
        ensures bytes { bytes.new ≡ bytes.old - size_of (take count self.old.entries) }
    {
        for dropped in 0..count {
            self.drop_first(bytes);
        }
    }

    /// Puts the bytes of the first entries behind those that are there. Want of memory leaves those as they
    /// were.
    #[tactic(auto, using(crate::proofs::Seen::length_seen))]
    pub(crate) fn append_front(&self, count: usize, out: &mut Vec<u8>) -> Result<(), AllocError>
        requires { count ≤ length self.now.entries }
        ensures ok { OnOk result
            (out.new.items ≡ out.old.items ++ bytes_of_all (take count self.now.entries)) }
        ensures err { OnErr result (out.new.items ≡ out.old.items) }
    {
        let before = out.len();
        let appended = append_first(&self.kept, self.text.as_slice(), count, out);
        if appended.is_err() {
            out.truncate(before);
        }
        appended
    }

    /// Moves the bytes of all entries behind those that are there, and drops the entries. Want of memory leaves
    /// all as it was.
    #[tactic(auto, using(crate::proofs::Seen::copied_alone))]
    pub(crate) fn move_all(&mut self, out: &mut Vec<u8>) -> Result<(), AllocError>
        ensures moved { OnOk result
            (out.new.items ≡ out.old.items ++ bytes_of_all self.old.entries) }
        ensures left { OnOk result (self.new.entries ≡ []) }
        ensures place { OnOk result (1 ≤ self.new.places) }
        ensures same { OnErr result (self.new ≡ self.old) }
        ensures out { OnErr result (out.new.items ≡ out.old.items) }
    {
        if self.kept.any_whole() {
            self.append_front(self.len(), out)?;
            self.text.clear();
            self.kept.clear();
            return Ok(());
        }
        self.text.move_all(out)?;
        self.kept.clear();
        Ok(())
    }

    /// Gives back the memory that many entries took and these do not need. A place stays where there are no entries.
    #[tactic(auto, using(crate::proofs::Seen::length_seen))]
    pub(crate) fn rest(&mut self)
        ensures entries { self.new.entries ≡ self.old.entries }
        ensures places { length self.old.entries ≡ 0 → 1 ≤ self.new.places }
    {
        self.text.rest();
        self.kept.rest();
    }

    /// What is left of so many bytes behind those of the first entries; 0 where these have as many or more.
    #[tactic(auto, using(crate::proofs::Seen::length_seen))]
    pub(crate) fn bytes_left(&self, count: usize, bytes: usize) -> usize
        requires { count ≤ length self.now.entries }
        ensures { result ≡ bytes - size_of (take count self.now.entries) }
    {
        let mut left = bytes;
        for place in 0..count {
            let (all, _) = self.kept.sizes(place);
            left = left.saturating_sub(all);
        }
        left
    }

    /// Copies of the first entries.
    #[tactic(auto, using(crate::proofs::Seen::length_seen))]
    pub(crate) fn copies(&self, alloc: Global, count: usize) -> Result<Vec<Entry>, AllocError>
        requires { count ≤ length self.now.entries }
        ensures { IfOk result (λ copies. copies.items ≡ take count self.now.entries) }
    {
        copy_first(alloc, &self.kept, self.text.as_slice(), count)
    }
}
