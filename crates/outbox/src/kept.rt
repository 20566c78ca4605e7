//! How an entry is kept.

ghost use Rattle.std.specs.Prelude.{◌≡◌, IfOk, IfSome};
ghost use Rattle.outbox.specs.declared.entries.Mode.{Mode as MarkedMode};
ghost use Rattle.outbox.specs.declared.kept.Kept.TheVariants.{Copied};
ghost use Rattle.outbox.specs.Kept.{copied_len, kept_of};

use crate::entries::{Entry, Mode, Tag};
use std::alloc::{AllocError, Global};
use subj::{PubId, SubId};

/// An entry that is kept.
#[derive(Drop)]
pub(crate) enum Kept {
    /// Its bytes were copied behind those of the others.
    Copied {
        tag: Tag,
        /// How many bytes it has.
        len: usize,
    },
    /// As it came: it is large, or the last line.
    Whole(Entry),
}

/// What is kept of an entry that was copied: it owns nothing, so that many are dropped at once. A queue name stands beside the marks,
/// once for all of them.
#[derive(Clone, Copy)]
pub(crate) enum Mark {
    /// An answer of so many bytes.
    Answer { len: usize },
    /// A message of so many bytes, by a subscription without a queue name.
    Message { id: PubId, sub: SubId, len: usize },
    /// A message of so many bytes, by a member of the queue group whose name stands beside the marks.
    Grouped { id: PubId, sub: SubId, len: usize },
}

impl Mark {
    /// The mark of an entry that was copied and has so many bytes; none where it has a queue name.
    #[inline(always)]
    pub(crate) fn of(tag: &Tag, len: usize) -> Option<Mark>
        ensures { IfSome result (λ mark.
            (mode : MarkedMode) → kept_of mode mark ≡ Copied tag.now len) }
    {
        match tag {
            Tag::Reply => Some(Mark::Answer { len }),
            Tag::Msg { id, sub, mode } => match mode {
                Mode::Plain => Some(Mark::Message {
                    id: *id,
                    sub: *sub,
                    len,
                }),
                Mode::Queue(_) => None,
            },
        }
    }

    /// How many bytes the entry has.
    pub(crate) fn len(&self) -> usize
        ensures { (mode : MarkedMode) → result ≡ copied_len (kept_of mode self.now) }
    {
        match self {
            Mark::Answer { len } => *len,
            Mark::Message { len, .. } => *len,
            Mark::Grouped { len, .. } => *len,
        }
    }

    /// What the entry is, where the messages to members of a queue group came in this mode.
    pub(crate) fn tag(&self, mode: &Mode, alloc: Global) -> Result<Tag, AllocError>
        ensures { IfOk result (λ tag.
            Copied tag (copied_len (kept_of mode.now self.now)) ≡ kept_of mode.now self.now) }
    {
        match self {
            Mark::Answer { .. } => Ok(Tag::Reply),
            Mark::Message { id, sub, .. } => Ok(Tag::Msg {
                id: *id,
                sub: *sub,
                mode: Mode::Plain,
            }),
            Mark::Grouped { id, sub, .. } => Ok(Tag::Msg {
                id: *id,
                sub: *sub,
                mode: mode.try_clone(alloc)?,
            }),
        }
    }
}
