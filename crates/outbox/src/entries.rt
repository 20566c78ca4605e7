//! Entries: what is written to a client as a whole or not at all.

ghost use Rattle.std.specs.Prelude.{◌≡◌, ◌<◌, ◌^◌, ◌+◌, ◌++◌, length, Some, IfOk, OnOk, OnErr};
ghost use Rattle.outbox.specs.Bytes.{bytes_of};
ghost use Rattle.outbox.specs.Views.{reply_entry, message_entry};

use bytes::Bytes;
use line_fields::CR_LF;
use std::alloc::{AllocError, Global};
use std::marker::Model;
use subj::{PubId, QueueName, SubId};

/// How a message came to its subscription.
#[derive(Drop)]
pub enum Mode {
    /// By a subscription without a queue name.
    Plain,
    /// By a member of the queue group of this name.
    Queue(QueueName),
}

impl Mode {
    /// A copy of the mode.
    pub fn try_clone(&self, alloc: Global) -> Result<Mode, AllocError>
        ensures { IfOk result (λ mode. mode ≡ self.now) }
    {
        match self {
            Mode::Plain => Ok(Mode::Plain),
            Mode::Queue(name) => Ok(Mode::Queue(name.try_clone(alloc)?)),
        }
    }
}

/// What an entry is.
#[derive(Drop)]
pub enum Tag {
    /// An answer to the client, or the line that it is shut with.
    Reply,
    /// A message.
    Msg {
        /// The publication.
        id: PubId,
        /// The subscription that it is placed for.
        sub: SubId,
        mode: Mode,
    },
}

impl Tag {
    /// A copy of the tag.
    pub fn try_clone(&self, alloc: Global) -> Result<Tag, AllocError>
        ensures { IfOk result (λ tag. tag ≡ self.now) }
    {
        match self {
            Tag::Reply => Ok(Tag::Reply),
            Tag::Msg { id, sub, mode } => {
                let mode = mode.try_clone(alloc)?;
                Ok(Tag::Msg {
                    id: *id,
                    sub: *sub,
                    mode,
                })
            }
        }
    }
}

/// What stands behind the line of an entry.
#[derive(Drop)]
enum Behind {
    /// Nothing: the line holds all bytes of the entry.
    Nothing,
    /// The CR LF of the line.
    LineEnd,
    /// The CR LF of the line, and the payload with its own.
    Payload(Bytes),
}

/// Something to be written to a client: a line, and behind a message's line its payload, each with its
/// CR LF. The payload is shared and not copied. (NATS documentation, "Client Protocol".)
///
/// Seen as its tag and its bytes.
pub struct Entry {
    tag: Tag,
    line: Vec<u8>,
    behind: Behind,
}

/// One call, also for crates above: `docs/PROVING.md`, "What a proof costs".
impl Drop for Entry {
    fn drop(self) {
        let Entry {
            tag: _,
            line: _,
            behind: _,
        } = self;
    }
}

impl Model for Entry {
    ghost use Rattle.outbox.specs.Views.{Written};

    ghost Value = { Written };

    ghost use Rattle.std.specs.Prelude.{◌<◌, ◌^◌, length};
    ghost use Rattle.outbox.specs.Behind.{line_with_behind};

    ghost view = { λ entry. record {
      tag = entry.tag;
      bytes = line_with_behind entry.line.items entry.behind;
    } };

    ghost invariant = { λ entry. length (line_with_behind entry.line.items entry.behind) < 2 ^ 64 };
}

impl Entry {
    /// An answer to the client, or the line that it is shut with, without its CR LF.
    pub fn reply(line: Vec<u8>) -> Entry
        requires { length line.items + 2 < 2 ^ 64 }
        ensures { result ≡ reply_entry line.items }
    {
        Entry {
            tag: Tag::Reply,
            line,
            behind: Behind::LineEnd,
        }
    }

    /// A message: its line without its CR LF, and its payload.
    pub fn message(id: PubId, sub: SubId, mode: Mode, line: Vec<u8>, payload: Bytes) -> Entry
        requires { length line.items + length payload + 4 < 2 ^ 64 }
        ensures { result ≡ message_entry id sub mode line.items payload }
    {
        Entry::of_parts(Tag::Msg { id, sub, mode }, line, payload)
    }

    /// An entry of this line and payload, without their CR LF.
    pub(crate) fn of_parts(tag: Tag, line: Vec<u8>, payload: Bytes) -> Entry
        requires { length line.items + length payload + 4 < 2 ^ 64 }
        ensures { result ≡ record { tag = tag; bytes = bytes_of line.items (Some payload) } }
    {
        Entry {
            tag,
            line,
            behind: Behind::Payload(payload),
        }
    }

    /// An entry of a copy of this line and of this payload, which is shared, without their CR LF.
    pub(crate) fn shared(
        alloc: Global,
        tag: Tag,
        line: &[u8],
        payload: &Bytes,
    ) -> Result<Entry, AllocError>
        requires { length line.now + length payload.now + 4 < 2 ^ 64 }
        ensures { IfOk result (λ entry.
            entry ≡ record { tag = tag; bytes = bytes_of line.now (Some payload.now) }) }
    {
        let line = Vec::from_slice(alloc, line)?;
        Ok(Entry::of_parts(tag, line, payload.clone()?))
    }

    /// An entry of these bytes.
    pub(crate) fn of_bytes(tag: Tag, bytes: Vec<u8>) -> Entry
        ensures { result ≡ record { tag = tag; bytes = bytes.items } }
    {
        Entry {
            tag,
            line: bytes,
            behind: Behind::Nothing,
        }
    }

    /// What it is, without its bytes.
    pub(crate) fn into_tag(self) -> Tag
        ensures { result ≡ self.tag }
    {
        let Entry {
            tag,
            line: _,
            behind: _,
        } = self;
        tag
    }

    /// What it is.
    pub fn tag(&self) -> &Tag
        ensures { result.now ≡ self.now.tag }
    {
        &self.tag
    }

    /// How many bytes it is written as.
    pub fn len(&self) -> usize
        ensures { result ≡ length self.now.bytes }
    {
        let behind = match &self.behind {
            Behind::Nothing => 0,
            Behind::LineEnd => CR_LF.len(),
            Behind::Payload(payload) => CR_LF.len() + payload.len() + CR_LF.len(),
        };
        self.line.len() + behind
    }

    /// Puts all its bytes behind those that are there. Want of memory leaves those as they were.
    pub fn append_to(&self, out: &mut Vec<u8>) -> Result<(), AllocError>
        ensures ok { OnOk result (out.new.items ≡ out.old.items ++ self.now.bytes) }
        ensures err { OnErr result (out.new.items ≡ out.old.items) }
    {
        out.reserve(self.len())?;
        out.extend_from_slice(&self.line)?;
        match &self.behind {
            Behind::Nothing => {}
            Behind::LineEnd => out.extend_from_slice(CR_LF)?,
            Behind::Payload(payload) => {
                out.extend_from_slice(CR_LF)?;
                out.extend_from_slice(payload)?;
                out.extend_from_slice(CR_LF)?;
            }
        }
        Ok(())
    }

    /// All its bytes.
    pub fn bytes(&self, alloc: Global) -> Result<Vec<u8>, AllocError>
        ensures { IfOk result (λ bytes. bytes.items ≡ self.now.bytes) }
    {
        let mut bytes = Vec::new(alloc);
        self.append_to(&mut bytes)?;
        Ok(bytes)
    }

    /// A copy that shares the payload.
    pub fn try_clone(&self, alloc: Global) -> Result<Entry, AllocError>
        ensures { IfOk result (λ entry. entry ≡ self.now) }
    {
        let tag = self.tag.try_clone(alloc)?;
        let line = Vec::from_slice(alloc, &self.line)?;
        let behind = match &self.behind {
            Behind::Nothing => Behind::Nothing,
            Behind::LineEnd => Behind::LineEnd,
            Behind::Payload(payload) => Behind::Payload(payload.clone()?),
        };
        Ok(Entry { tag, line, behind })
    }
}
