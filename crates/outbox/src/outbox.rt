//! The outbox of a client.

ghost use Rattle.std.specs.Prelude.{◌≡◌, ◌+◌, ◌-◌, ◌≤◌, ◌<◌, ◌++◌, ◌==◌, vec_capacity, length, take, [], true, false, IfOk, OnOk, OnErr, IsTrue, Some, None, ◌^◌};
ghost use Rattle.outbox.specs.Bytes.{bytes_of};
ghost use Rattle.outbox.specs.Views.{Waiting, empty_outbox, bytes_of_all, size_of, has_room, is_half_full, reply_entry, message_entry, message_run, spelt_entry, has_room_for_all, HasRoomForEach, with_entry, with_entries, with_last, without_first, on_both, on_shown, takes_last};
ghost use Rattle.outbox.specs.declared.entries.Mode.TheVariants.{Queue};

use crate::entries::{Entry, Mode, Tag};
use crate::entry_queue::EntryQueue;
use crate::run_tails::{RunTails, is_within};
use bytes::Bytes;
use line_fields::CR_LF;
use std::alloc::{AllocError, Global};
use std::marker::Model;
use std::mem;
use subj::{LAST_LINE, PubId, QueueName, SubId};

/// The most bytes of a last line, without its CR LF.
pub const LAST_LINE_TEXT: usize = LAST_LINE - CR_LF.len();

/// What waits to be written to a client: a list of entries within a limit of entries and one of bytes.
/// A last line may be put beyond both; behind it nothing is put any more. (Profile.)
///
/// Entries may also be staged: put behind what waits, unseen, until [`Outbox::commit`] shows all of
/// them or [`Outbox::rollback`] drops them. An entry that is staged has its place and its room: to show
/// it takes no memory, and to drop it gives both back.
///
/// Seen as what waits, what will wait once all that was staged is shown, and the two limits.
pub struct Outbox {
    alloc: Global,
    /// What waits, and behind it what was staged.
    entries: EntryQueue,
    /// How many of the entries wait.
    shown: usize,
    /// The bytes of the entries that wait, and of all entries, while there is no last line.
    shown_bytes: usize,
    bytes: usize,
    /// Whether a last line waits, and whether one waits or was staged.
    shut: bool,
    closing: bool,
    /// The memory of the last line.
    last_line: Vec<u8>,
    max_entries: usize,
    max_bytes: usize,
}

/// One call, also for crates above: `docs/PROVING.md`, "What a proof costs".
impl Drop for Outbox {
    fn drop(self) {
        let Outbox {
            alloc: _,
            entries: _,
            shown: _,
            shown_bytes: _,
            bytes: _,
            shut: _,
            closing: _,
            last_line: _,
            max_entries: _,
            max_bytes: _,
        } = self;
    }
}

impl Model for Outbox {
    ghost use Rattle.outbox.specs.Views.{Waiting};

    ghost Value = { Waiting };

    ghost use Rattle.std.specs.Prelude.{take, vec_capacity};
    ghost use Rattle.outbox.specs.Sound.{IsSound, HasLastLine};

    ghost view = { λ b. record {
      shown = record { entries = take b.shown b.entries.entries; shut = b.shut };
      next = record { entries = b.entries.entries; shut = b.closing };
      max_entries = b.max_entries;
      max_bytes = b.max_bytes;
    } };

    ghost invariant = { λ b.
        IsSound b.entries.entries b.entries.places b.shown b.shown_bytes b.bytes b.shut b.closing
        b.max_bytes
        × HasLastLine b.shut b.last_line.items (vec_capacity b.last_line) };
}

/// Takes the memory that is kept for a last line, and writes this one there.
fn last_text(kept: &mut Vec<u8>, alloc: Global, line: &[u8]) -> Vec<u8>
    requires empty { kept.old.items ≡ [] }
    requires room { length line.now ≤ vec_capacity kept.old }
    ensures { result.items ≡ line.now }
{
    let mut text = mem::replace(kept, Vec::new(alloc));
    let _ = text.extend_from_slice(line);
    text
}

impl Outbox {
    /// An empty outbox with these limits. The room of its last line is taken here.
    pub fn new(alloc: Global, max_entries: usize, max_bytes: usize) -> Result<Outbox, AllocError>
        ensures { IfOk result (λ outbox. outbox ≡ empty_outbox max_entries max_bytes) }
    {
        let entries = EntryQueue::new(alloc)?;
        let last_line = Vec::with_capacity(alloc, LAST_LINE_TEXT)?;
        Ok(Outbox {
            alloc,
            entries,
            shown: 0,
            shown_bytes: 0,
            bytes: 0,
            shut: false,
            closing: false,
            last_line,
            max_entries,
            max_bytes,
        })
    }

    /// How many entries wait.
    pub fn len(&self) -> usize
        ensures { result ≡ length self.now.shown.entries }
    {
        self.shown
    }

    /// Whether nothing waits.
    pub fn is_empty(&self) -> bool
        ensures { result ≡ (length self.now.shown.entries == 0) }
    {
        self.shown == 0
    }

    /// Whether the last line was put.
    pub fn is_shut(&self) -> bool
        ensures { result ≡ self.now.shown.shut }
    {
        self.shut
    }

    /// Whether the last line was put or staged.
    pub fn is_closing(&self) -> bool
        ensures { result ≡ self.now.next.shut }
    {
        self.closing
    }

    /// Whether an entry of this many bytes may be put behind all that was put or staged: none where
    /// there is a last line, and none beyond a limit.
    pub fn room(&self, len: usize) -> bool
        ensures { result ≡ has_room self.now.max_entries self.now.max_bytes len self.now.next }
    {
        !self.closing
            && self.entries.len() < self.max_entries
            && len <= self.max_bytes
            && self.bytes <= self.max_bytes - len
    }

    /// How many of so many entries, each of at most so many bytes, may be put behind all that was put or staged.
    pub fn room_for_most(&self, len: usize, most: usize) -> usize
        requires { 0 < len }
        ensures most { result ≤ most }
        ensures room { 0 < result
            → HasRoomForEach result len self.now.max_entries self.now.max_bytes self.now.next }
    {
        if self.closing {
            return 0;
        }
        let few = most.min(self.max_entries.saturating_sub(self.entries.len()));
        let small = (self.max_bytes - self.bytes) / len;
        few.min(small)
    }

    /// Whether half of the room is used by all that was put or staged, for entries or for bytes, or a last line is among it.
    pub fn is_half_full(&self) -> bool
        ensures { result ≡ is_half_full self.now.max_entries self.now.max_bytes self.now.next }
    {
        self.entries.len() >= self.max_entries / 2 || !self.room(self.max_bytes / 2)
    }

    /// How many entries more may wait: none where as many as the limit wait, or more. Takes no memory.
    pub fn entries_left(&self) -> usize
        ensures { result ≡ self.now.max_entries - length self.now.shown.entries }
    {
        self.max_entries.saturating_sub(self.shown)
    }

    /// How many bytes more may wait: none where as many as the limit wait, or more. Takes no memory; where the last line was
    /// put it goes over all entries.
    pub fn bytes_left(&self) -> usize
        ensures { result ≡ self.now.max_bytes - size_of self.now.shown.entries }
    {
        if self.shut {
            self.entries.bytes_left(self.shown, self.max_bytes)
        } else {
            self.max_bytes - self.shown_bytes
        }
    }

    /// Whether an answer of this line, given without its CR LF, may be put behind all that was put or
    /// staged.
    pub fn room_for(&self, line: &[u8]) -> bool
        ensures room { result
            ≡ has_room self.now.max_entries self.now.max_bytes (length (bytes_of line.now None))
            self.now.next }
        ensures fits { IsTrue result → length line.now + 2 < 2 ^ 64 }
    {
        match line.len().checked_add(CR_LF.len()) {
            None => false,
            Some(len) => self.room(len),
        }
    }

    /// Whether the messages of a run to a plain subscription may all be put behind all that was put or staged, each with this head:
    /// none where there is a last line, and none beyond a limit. Takes no memory.
    #[tactic(auto, using(crate::proofs::Runs::run_length, crate::proofs::Runs::run_size))]
    pub fn room_for_run(&self, sub: SubId, head: &[u8], tails: &RunTails) -> bool
        ensures { result
            ≡ has_room_for_all self.now.max_entries self.now.max_bytes
            (message_run sub head.now tails.now) self.now.next }
    {
        !self.closing
            && is_within(self.entries.len(), tails.len(), self.max_entries)
            && tails.fit(head.len(), self.bytes, self.max_bytes)
    }

    /// Drops what was staged, and puts the last line, given without its CR LF, beyond both limits. Whether it was put: not
    /// behind another last line, and not where it is longer than [`LAST_LINE_TEXT`]. Takes no memory.
    pub fn shut(&mut self, line: &[u8]) -> bool
        ensures can { result ≡ takes_last line.now self.old.shown }
        ensures put { result ≡ true → self.new ≡ on_shown (with_last line.now) self.old }
        ensures left { result ≡ false → self.new ≡ on_shown (λ backlog. backlog) self.old }
    {
        self.rollback();
        if self.shut || line.len() > LAST_LINE_TEXT {
            return false;
        }
        self.put_last(line);
        true
    }

    /// Puts the last line behind all that waits.
    fn put_last(&mut self, line: &[u8])
        requires settled { self.old.next ≡ self.old.shown }
        requires once { self.old.shown.shut ≡ false }
        requires small { length line.now ≤ LAST_LINE_TEXT }
        ensures { self.new ≡ on_both (with_last line.now) self.old }
    {
        let text = last_text(&mut self.last_line, self.alloc, line);
        self.entries.push_whole_reserved(Entry::reply(text));
        self.shown = self.entries.len();
        self.shut = true;
        self.closing = true;
    }

    /// Puts an entry behind all that was put or staged, unseen. Want of memory leaves all as it was.
    pub fn stage(&mut self, entry: Entry) -> Result<(), AllocError>
        requires { IsTrue
            (has_room self.old.max_entries self.old.max_bytes (length entry.bytes) self.old.next) }
        ensures ok { OnOk result
            (self.new ≡ record self.old { next = with_entry entry self.old.next }) }
        ensures err { OnErr result (self.new ≡ self.old) }
    {
        let size = entry.len();
        self.entries.push(entry)?;
        self.bytes += size;
        Ok(())
    }

    /// Puts an answer behind all that was put or staged, unseen: what [`Outbox::stage`] does with
    /// [`Entry::reply`]. The line, given without its CR LF, is copied. Want of memory leaves all as it was.
    pub fn stage_reply(&mut self, line: &[u8]) -> Result<(), AllocError>
        requires fits { length line.now + 2 < 2 ^ 64 }
        requires room { IsTrue (has_room self.old.max_entries self.old.max_bytes
            (length (bytes_of line.now None)) self.old.next) }
        ensures ok { OnOk result (self.new
            ≡ record self.old { next = with_entry (reply_entry line.now) self.old.next }) }
        ensures err { OnErr result (self.new ≡ self.old) }
    {
        let len = line.len() + CR_LF.len();
        self.entries.push_reply(line)?;
        self.bytes += len;
        Ok(())
    }

    /// Puts a message behind all that was put or staged, unseen: what [`Outbox::stage`] does with
    /// [`Entry::message`]. The line is copied, and of small messages the payload; a larger payload is shared.
    /// Both come without their CR LF. Want of memory leaves all as it was.
    pub fn stage_message(
        &mut self,
        id: PubId,
        sub: SubId,
        mode: Mode,
        line: &[u8],
        payload: &Bytes,
    ) -> Result<(), AllocError>
        requires fits { length line.now + length payload.now + 4 < 2 ^ 64 }
        requires room { IsTrue (has_room self.old.max_entries self.old.max_bytes
            (length (bytes_of line.now (Some payload.now))) self.old.next) }
        ensures ok { OnOk result (self.new ≡ record self.old {
          next = with_entry (message_entry id sub mode line.now payload.now) self.old.next;
        }) }
        ensures err { OnErr result (self.new ≡ self.old) }
    {
        let len = line.len() + payload.len() + 2 * CR_LF.len();
        let tag = Tag::Msg { id, sub, mode };
        self.entries.push_message(self.alloc, tag, line, payload)?;
        self.bytes += len;
        Ok(())
    }

    /// Puts a message behind all that was put or staged, unseen: what [`Outbox::stage_message`] does, for a caller that has
    /// all bytes of the message in two parts. The head is its line up to the id of the subscription and with it; the tail is the rest of
    /// the line with its CR LF, and the payload with its own. Both parts are copied, however long they are: a message of more than
    /// [`COPIED_BYTES`] bytes belongs to [`Outbox::stage_message`], which shares its payload. Want of memory leaves all as it was.
    pub fn stage_parts(
        &mut self,
        id: PubId,
        sub: SubId,
        mode: Mode,
        head: &[u8],
        tail: &[u8],
    ) -> Result<(), AllocError>
        requires fits { length head.now + length tail.now < 2 ^ 64 }
        requires room { IsTrue (has_room self.old.max_entries self.old.max_bytes
            (length (head.now ++ tail.now)) self.old.next) }
        ensures ok { OnOk result (self.new ≡ record self.old {
          next = with_entry (spelt_entry id sub mode (head.now ++ tail.now)) self.old.next;
        }) }
        ensures err { OnErr result (self.new ≡ self.old) }
    {
        let len = head.len() + tail.len();
        let tag = Tag::Msg { id, sub, mode };
        self.entries.push_parts(tag, head, tail)?;
        self.bytes += len;
        Ok(())
    }

    /// Puts a message to a member of the queue group of this name behind all that was put or staged, unseen: what
    /// [`Outbox::stage_parts`] does. The name is copied only where it is another than that of the messages before it. Want of memory
    /// leaves all as it was.
    pub fn stage_queued(
        &mut self,
        id: PubId,
        sub: SubId,
        name: &QueueName,
        head: &[u8],
        tail: &[u8],
    ) -> Result<(), AllocError>
        requires fits { length head.now + length tail.now < 2 ^ 64 }
        requires room { IsTrue (has_room self.old.max_entries self.old.max_bytes
            (length (head.now ++ tail.now)) self.old.next) }
        ensures ok { OnOk result (self.new ≡ record self.old {
          next = with_entry (spelt_entry id sub (Queue name.now) (head.now ++ tail.now))
              self.old.next;
        }) }
        ensures err { OnErr result (self.new ≡ self.old) }
    {
        let len = head.len() + tail.len();
        self.entries
            .push_queued(self.alloc, id, sub, name, head, tail)?;
        self.bytes += len;
        Ok(())
    }

    /// Puts the messages of a run to a plain subscription behind all that was put or staged, unseen: what [`Outbox::stage_parts`]
    /// does for one after the other, each with this head and its own tail. Memory is taken once, for all of them. All bytes are
    /// copied, however many they are. Want of memory leaves all as it was.
    pub fn stage_run(&mut self, sub: SubId, head: &[u8], tails: &RunTails) -> Result<(), AllocError>
        requires { IsTrue (has_room_for_all self.old.max_entries self.old.max_bytes
            (message_run sub head.now tails.now) self.old.next) }
        ensures ok { OnOk result (self.new ≡ record self.old {
          next = with_entries (message_run sub head.now tails.now) self.old.next;
        }) }
        ensures err { OnErr result (self.new ≡ self.old) }
    {
        let len = self.entries.push_run(sub, head, tails)?;
        self.bytes += len;
        Ok(())
    }

    /// Puts the last line, given without its CR LF, beyond both limits, unseen. Want of memory leaves
    /// all as it was.
    pub fn stage_last(&mut self, line: &[u8]) -> Result<(), AllocError>
        requires once { self.old.next.shut ≡ false }
        requires small { length line.now ≤ LAST_LINE_TEXT }
        ensures ok { OnOk result
            (self.new ≡ record self.old { next = with_last line.now self.old.next }) }
        ensures err { OnErr result (self.new ≡ self.old) }
    {
        let text = Vec::from_slice(self.alloc, line)?;
        self.entries.push_whole(Entry::reply(text))?;
        self.closing = true;
        Ok(())
    }

    /// Shows what was staged. Takes no memory.
    pub fn commit(&mut self)
        ensures { self.new ≡ record self.old { shown = self.old.next } }
    {
        self.shown = self.entries.len();
        self.shown_bytes = self.bytes;
        self.shut = self.closing;
    }

    /// Drops what was staged. Takes no memory.
    pub fn rollback(&mut self)
        ensures { self.new ≡ record self.old { next = self.old.shown } }
    {
        self.entries.truncate(self.shown);
        self.bytes = self.shown_bytes;
        self.closing = self.shut;
    }

    /// Removes the first entries that wait. Takes no memory.
    fn remove_first(&mut self, count: usize)
        requires { self.old.next ≡ self.old.shown }
        ensures { self.new ≡ on_both (without_first count) self.old }
    {
        self.entries.drop_front(count, &mut self.bytes);
        self.shown = self.entries.len();
        self.shown_bytes = self.bytes;
    }

    /// Whether anything is staged: where not, what waits is all there is.
    pub fn has_staged(&self) -> bool
        ensures { result ≡ false → self.now.next ≡ self.now.shown }
    {
        self.shown != self.entries.len() || self.shut != self.closing
    }

    /// Gives and removes the first entries that wait, or all where there are fewer, and drops what was staged. Want of memory
    /// leaves all as it was.
    pub fn take(&mut self, count: usize) -> Result<Vec<Entry>, AllocError>
        ensures entries { IfOk result (λ entries.
            entries.items ≡ take count self.old.shown.entries) }
        ensures ok { OnOk result (self.new ≡ on_shown (without_first count) self.old) }
        ensures err { OnErr result (self.new ≡ self.old) }
    {
        let count = count.min(self.shown);
        let taken = self.entries.copies(self.alloc, count)?;
        self.rollback();
        self.remove_first(count);
        Ok(taken)
    }

    /// Moves the bytes of all entries that wait behind those that are in `out`, in order, and removes the
    /// entries. Want of memory leaves all as it was.
    fn take_all_bytes(&mut self, out: &mut Vec<u8>) -> Result<(), AllocError>
        requires { self.old.next ≡ self.old.shown }
        ensures bytes { OnOk result
            (out.new.items ≡ out.old.items ++ bytes_of_all self.old.shown.entries) }
        ensures ok { OnOk result (self.new
            ≡ on_both (λ backlog. record { entries = []; shut = backlog.shut }) self.old) }
        ensures err { OnErr result (self.new ≡ self.old) }
        ensures out { OnErr result (out.new.items ≡ out.old.items) }
    {
        self.entries.move_all(out)?;
        self.shown = 0;
        self.shown_bytes = 0;
        self.bytes = 0;
        Ok(())
    }

    /// Gives back the memory that many entries took, where nothing waits.
    fn rest(&mut self)
        requires settled { self.old.next ≡ self.old.shown }
        requires none { length self.old.shown.entries ≡ 0 }
        ensures { self.new ≡ self.old }
    {
        self.entries.rest();
    }

    /// Moves the bytes of the first entries, so many, behind those that are in `out`, in order, and removes these entries, where
    /// nothing is staged. Want of memory leaves all as it was.
    fn take_first(&mut self, count: usize, out: &mut Vec<u8>) -> Result<usize, AllocError>
        requires settled { self.old.next ≡ self.old.shown }
        requires there { count ≤ length self.old.shown.entries }
        ensures taken { IfOk result (λ taken. taken ≡ length (take count self.old.shown.entries)) }
        ensures bytes { OnOk result
            (out.new.items ≡ out.old.items ++ bytes_of_all (take count self.old.shown.entries)) }
        ensures ok { OnOk result (self.new ≡ on_both (without_first count) self.old) }
        ensures err { OnErr result (self.new ≡ self.old) }
        ensures out { OnErr result (out.new.items ≡ out.old.items) }
    {
        self.entries.append_front(count, out)?;
        self.remove_first(count);
        Ok(count)
    }

    /// Moves the bytes of the first entries that wait, or of all where there are fewer, behind those that
    /// are in `out`, in order, and removes these entries, where nothing is staged. Gives how many they were. Want of memory
    /// leaves all as it was.
    fn take_waiting(&mut self, count: usize, out: &mut Vec<u8>) -> Result<usize, AllocError>
        requires { self.old.next ≡ self.old.shown }
        ensures taken { IfOk result (λ taken. taken ≡ length (take count self.old.shown.entries)) }
        ensures bytes { OnOk result
            (out.new.items ≡ out.old.items ++ bytes_of_all (take count self.old.shown.entries)) }
        ensures ok { OnOk result (self.new ≡ on_both (without_first count) self.old) }
        ensures err { OnErr result (self.new ≡ self.old) }
        ensures out { OnErr result (out.new.items ≡ out.old.items) }
    {
        let waiting = self.len();
        if waiting == 0 {
            self.rest();
            return Ok(0);
        }
        if count >= waiting {
            self.take_all_bytes(out)?;
            return Ok(waiting);
        }
        self.take_first(count, out)
    }

    /// Moves the bytes of the first entries that wait, or of all where there are fewer, behind those that
    /// are in `out`, in order, removes these entries, and drops what was staged. Gives how many they were. Want of memory
    /// leaves all as it was.
    ///
    /// Where all are taken, have many bytes together and no shared payload, and nothing is in `out`, the two
    /// buffers are swapped: no byte is copied, and no memory is taken. Where nothing waits, the memory that many
    /// entries took is given back.
    pub fn take_bytes(&mut self, count: usize, out: &mut Vec<u8>) -> Result<usize, AllocError>
        ensures taken { IfOk result (λ taken. taken ≡ length (take count self.old.shown.entries)) }
        ensures bytes { OnOk result
            (out.new.items ≡ out.old.items ++ bytes_of_all (take count self.old.shown.entries)) }
        ensures ok { OnOk result (self.new ≡ on_shown (without_first count) self.old) }
        ensures err { OnErr result (self.new ≡ self.old) }
        ensures out { OnErr result (out.new.items ≡ out.old.items) }
    {
        if !self.has_staged() {
            return self.take_waiting(count, out);
        }
        let first = count.min(self.shown);
        self.entries.append_front(first, out)?;
        self.rollback();
        self.remove_first(first);
        Ok(first)
    }
}
