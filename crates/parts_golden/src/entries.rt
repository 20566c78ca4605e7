//! Calls of entries and outboxes.

use bytes::Bytes;
use golden::{Answer, Words, bytes_of, life_of, payload_of, put, queue_of};
use outbox::{Entry, LAST_LINE_TEXT, Mode, Outbox, RunTails, Tag};
use std::alloc::Global;
use subj::{MAX_PAYLOAD, OUTBOX_BYTES, PubId, SubId};

/// The subscription that messages go to.
const SUB: SubId = SubId {
    shard: 1,
    serial: 2,
};

/// The publication of this number that n1 made in this incarnation.
pub fn publication_of(inc: u64, number: u64) -> Option<PubId> {
    let life = life_of("n1", inc)?;
    Some(PubId {
        origin: life.name,
        inc: life.inc,
        number,
    })
}

/// The answer of this line.
fn reply_of(alloc: Global, word: &str) -> Option<Entry> {
    let line = bytes_of(alloc, word).ok()?;
    if line.len() > OUTBOX_BYTES {
        return None;
    }
    Some(Entry::reply(line))
}

/// The mode of what is for a member of the queue group of this name, or of none.
fn mode_of(alloc: Global, name: &str) -> Option<Mode> {
    match name {
        "" => Some(Mode::Plain),
        name => Some(Mode::Queue(queue_of(alloc, name)?)),
    }
}

/// The ninth publication of n1 in its fourth incarnation, for a member of the queue group of this name, or of none.
fn message_in(alloc: Global, words: &Words<'_>) -> Option<Entry> {
    let id = publication_of(4, 9)?;
    let mode = mode_of(alloc, words.at(2))?;
    let line = bytes_of(alloc, words.at(0)).ok()?;
    let payload = payload_of(alloc, words.at(1))?;
    if line.len() > OUTBOX_BYTES || payload.len() > MAX_PAYLOAD {
        return None;
    }
    Some(Entry::message(id, SUB, mode, line, payload))
}

/// Tells the queue name of a message, or that there is none.
fn mode_told(answer: &mut Answer, mode: &Mode) -> Option<()> {
    match mode {
        Mode::Plain => answer.tell(", plain"),
        Mode::Queue(name) => answer.tell_bytes(", queue ", name.bytes()),
    }
}

/// Tells which publication goes to which subscription.
fn route_told(answer: &mut Answer, id: &PubId, sub: &SubId) -> Option<()> {
    answer.tell_number("message ", id.number);
    answer.tell_life(" of ", id.origin, id.inc);
    answer.tell_number(" to ", sub.shard);
    answer.tell_number(".", sub.serial)
}

/// Tells what an entry is.
fn tag_told(answer: &mut Answer, tag: &Tag) -> Option<()> {
    match tag {
        Tag::Reply => answer.tell("reply"),
        Tag::Msg { id, sub, mode } => {
            route_told(answer, id, sub);
            mode_told(answer, mode)
        }
    }
}

/// Tells the bytes of an entry.
pub fn entry_told(answer: &mut Answer, alloc: Global, entry: &Entry) -> Option<()> {
    let bytes = entry.bytes(alloc).ok()?;
    answer.tell_bytes("", &bytes)
}

/// Tells how long an entry is, and its bytes.
fn written(answer: &mut Answer, alloc: Global, entry: &Entry) -> Option<()> {
    answer.tell_number("", entry.len() as u64);
    answer.tell(": ");
    entry_told(answer, alloc, entry)
}

/// Tells what stands there once the entry was put behind these bytes.
fn behind(answer: &mut Answer, alloc: Global, entry: &Entry, word: &str) -> Option<()> {
    let mut bytes = bytes_of(alloc, word).ok()?;
    entry.append_to(&mut bytes).ok()?;
    answer.tell_bytes("", &bytes)
}

/// Tells what a copy of the tag is.
fn tag_copy(answer: &mut Answer, alloc: Global, entry: &Entry) -> Option<()> {
    let copy = entry.tag().try_clone(alloc).ok()?;
    tag_told(answer, &copy)
}

/// This entry stands from now on.
fn made(answer: &mut Answer, place: &mut Option<Entry>, entry: Option<Entry>) -> Option<()> {
    let told = if entry.is_some() { "ok" } else { "no entry" };
    put(place, entry);
    answer.tell(told)
}

/// A copy stands in place of the entry.
fn copied(answer: &mut Answer, place: &mut Option<Entry>, alloc: Global) -> Option<()> {
    let copy = place.as_ref()?.try_clone(alloc).ok()?;
    made(answer, place, Some(copy))
}

/// Makes a call of the entry.
pub fn entry_call(
    answer: &mut Answer,
    place: &mut Option<Entry>,
    alloc: Global,
    call: &str,
    words: &Words<'_>,
) -> Option<()> {
    match call {
        "reply" => made(answer, place, reply_of(alloc, words.at(0))),
        "message" => made(answer, place, message_in(alloc, words)),
        "copied" => copied(answer, place, alloc),
        "tag" => tag_told(answer, place.as_ref()?.tag()),
        "tag_copy" => tag_copy(answer, alloc, place.as_ref()?),
        "written" => written(answer, alloc, place.as_ref()?),
        "behind" => behind(answer, alloc, place.as_ref()?, words.at(0)),
        _ => None,
    }
}

/// Tells how many entries there are, and the bytes of these of them.
fn entries_told(answer: &mut Answer, alloc: Global, count: usize, entries: &[Entry]) -> Option<()> {
    if count == 0 {
        return answer.tell("none");
    }
    answer.tell_number("", count as u64);
    answer.tell(": ");
    for entry in entries {
        entry_told(answer, alloc, entry)?;
    }
    Some(())
}

/// Tells how many entries there are, and the bytes of all, or of the last one.
pub fn taken(answer: &mut Answer, alloc: Global, entries: &[Entry], is_last: bool) -> Option<()> {
    let from = if is_last {
        entries.len().saturating_sub(1)
    } else {
        0
    };
    entries_told(answer, alloc, entries.len(), entries.get(from..)?)
}

/// An outbox. What is put is shown at once, or is staged until all of that is shown or taken back.
#[derive(Drop)]
pub struct Mailbox {
    outbox: Outbox,
    is_staging: bool,
}

/// Whether there was room.
fn room_told(answer: &mut Answer, has_room: bool) -> Option<()> {
    answer.tell(if has_room { "ok" } else { "no room" })
}

impl Mailbox {
    /// Shows what was put, unless it is staged.
    fn show(&mut self) {
        if !self.is_staging {
            self.outbox.commit();
        }
    }

    /// Puts an entry.
    fn put(&mut self, answer: &mut Answer, entry: Entry) -> Option<()> {
        if !self.outbox.room(entry.len()) {
            return room_told(answer, false);
        }
        self.outbox.stage(entry).ok()?;
        self.show();
        room_told(answer, true)
    }

    /// Puts a message by its parts: a line of 12 bytes, and this payload.
    fn put_parts(&mut self, answer: &mut Answer, payload: &Bytes) -> Option<()> {
        if payload.len() > MAX_PAYLOAD || !self.outbox.room(12 + payload.len() + 4) {
            return room_told(answer, false);
        }
        let id = publication_of(4, 9)?;
        self.outbox
            .stage_message(id, SUB, Mode::Plain, b"MSG foo 1 ??", payload)
            .ok()?;
        self.show();
        room_told(answer, true)
    }

    /// Puts a run by its head and its tails.
    fn put_run(&mut self, answer: &mut Answer, head: &[u8], tails: &RunTails) -> Option<()> {
        if !self.outbox.room_for_run(SUB, head, tails) {
            return room_told(answer, false);
        }
        self.outbox.stage_run(SUB, head, tails).ok()?;
        self.show();
        room_told(answer, true)
    }

    /// Puts the last line as other entries are put, where it is short enough, and the first one.
    fn put_last(&mut self, answer: &mut Answer, line: &[u8]) -> Option<()> {
        if line.len() > LAST_LINE_TEXT || self.outbox.is_closing() {
            return answer.tell_whether(false);
        }
        self.outbox.stage_last(line).ok()?;
        self.show();
        answer.tell_whether(true)
    }

    /// From now on what is put is staged; or what is staged is shown, or taken back.
    fn turn(&mut self, answer: &mut Answer, call: &str) -> Option<()> {
        match call {
            "commit" => self.outbox.commit(),
            "rollback" => self.outbox.rollback(),
            _ => {}
        }
        self.is_staging = call == "stage";
        answer.tell("ok")
    }
}

/// Puts the tail of the next publication that n1 made in its fourth incarnation.
fn push_tail(tails: &mut RunTails, alloc: Global, word: &str) -> Option<()> {
    let number = (tails.len() as u64).saturating_add(1);
    let tail = bytes_of(alloc, word).ok()?;
    tails.push(publication_of(4, number)?, &tail).ok()
}

/// Puts these tails, in the memory of one that is dropped.
fn push_tails(tails: &mut RunTails, alloc: Global, words: &str) -> Option<()> {
    push_tail(tails, alloc, "dropped")?;
    tails.clear(b"MSG foo 1").ok()?;
    for word in words.split('|') {
        push_tail(tails, alloc, word)?;
    }
    Some(())
}

/// The tails of a run: all arguments behind its head.
fn tails_of(alloc: Global, words: &Words<'_>) -> Option<RunTails> {
    let mut tails = RunTails::new(alloc);
    if let Some((_, words)) = words.text.split_once('|') {
        push_tails(&mut tails, alloc, words)?;
    }
    Some(tails)
}

/// Tells whether there is room for a run, and whether it has messages.
fn run_told(answer: &mut Answer, outbox: &Outbox, head: &[u8], tails: &RunTails) -> Option<()> {
    answer.tell_whether(outbox.room_for_run(SUB, head, tails));
    answer.tell_if(tails.is_empty(), ", empty")
}

/// Makes a call of a run: puts it, or tells whether there is room.
fn run_call(
    answer: &mut Answer,
    mailbox: &mut Mailbox,
    alloc: Global,
    call: &str,
    words: &Words<'_>,
) -> Option<()> {
    let tails = tails_of(alloc, words)?;
    let head = bytes_of(alloc, words.at(0)).ok()?;
    match call {
        "put_run" => mailbox.put_run(answer, &head, &tails),
        _ => run_told(answer, &mailbox.outbox, &head, &tails),
    }
}

/// Takes the bytes of so many entries behind those that stand there.
fn take_bytes(
    answer: &mut Answer,
    outbox: &mut Outbox,
    alloc: Global,
    words: &Words<'_>,
) -> Option<()> {
    let mut out = bytes_of(alloc, words.at(1)).ok()?;
    let taken = outbox.take_bytes(words.number(0) as usize, &mut out).ok()?;
    answer.tell_number("", taken as u64);
    answer.tell_bytes(": ", &out)
}

/// Takes so many entries. Tells all, or the last one.
fn take_entries(
    answer: &mut Answer,
    outbox: &mut Outbox,
    alloc: Global,
    count: usize,
    is_last: bool,
) -> Option<()> {
    let entries = outbox.take(count).ok()?;
    taken(answer, alloc, &entries, is_last)
}

/// Takes so many entries. Tells what each is.
fn take_tags(answer: &mut Answer, outbox: &mut Outbox, count: usize) -> Option<()> {
    for entry in &outbox.take(count).ok()? {
        tag_told(answer, entry.tag());
        answer.tell(";");
    }
    Some(())
}

/// Tells how many entries wait, and what else is seen of an outbox.
fn seen(answer: &mut Answer, outbox: &Outbox) -> Option<()> {
    answer.tell_number("", outbox.len() as u64);
    answer.tell_if(outbox.is_empty(), ", empty");
    answer.tell_if(outbox.is_shut(), ", shut");
    answer.tell_if(outbox.is_closing(), ", closing")
}

/// A new outbox stands from now on.
fn new_outbox(
    answer: &mut Answer,
    place: &mut Option<Mailbox>,
    alloc: Global,
    words: &Words<'_>,
) -> Option<()> {
    let (entries, bytes) = (words.number(0) as usize, words.number(1) as usize);
    let mailbox = Mailbox {
        outbox: Outbox::new(alloc, entries, bytes).ok()?,
        is_staging: false,
    };
    put(place, Some(mailbox));
    answer.tell("ok")
}

/// Makes a call that is about what waits in an outbox.
fn waiting_call(
    answer: &mut Answer,
    outbox: &mut Outbox,
    alloc: Global,
    call: &str,
    words: &Words<'_>,
) -> Option<()> {
    match call {
        "room" => answer.tell_whether(outbox.room(words.number(0) as usize)),
        "room_for" => answer.tell_whether(outbox.room_for(words.at(0).as_bytes())),
        "seen" => seen(answer, outbox),
        "shut" => answer.tell_whether(outbox.shut(&bytes_of(alloc, words.at(0)).ok()?)),
        "take" => take_entries(answer, outbox, alloc, words.number(0) as usize, false),
        "take_last" => take_entries(answer, outbox, alloc, usize::MAX, true),
        "take_tags" => take_tags(answer, outbox, words.number(0) as usize),
        "take_bytes" => take_bytes(answer, outbox, alloc, words),
        _ => None,
    }
}

/// Makes a call of the outbox.
pub fn outbox_call(
    answer: &mut Answer,
    place: &mut Option<Mailbox>,
    alloc: Global,
    call: &str,
    words: &Words<'_>,
) -> Option<()> {
    if call == "new" {
        return new_outbox(answer, place, alloc, words);
    }
    let mailbox = place.as_mut()?;
    match call {
        "put" => mailbox.put(answer, reply_of(alloc, words.at(0))?),
        "put_message" => mailbox.put(answer, message_in(alloc, words)?),
        "put_parts" => mailbox.put_parts(answer, &payload_of(alloc, words.at(0))?),
        "put_run" | "room_for_run" => run_call(answer, mailbox, alloc, call, words),
        "stage_last" => mailbox.put_last(answer, words.at(0).as_bytes()),
        "stage" | "commit" | "rollback" => mailbox.turn(answer, call),
        _ => waiting_call(answer, &mut mailbox.outbox, alloc, call, words),
    }
}
