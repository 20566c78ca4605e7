//! What is kept in writing of what is done under a lock: its tape, and what stands on that of a shard.

ghost use Rattle.std.specs.Prelude.{◌≡◌, ◌∷◌, ◌++◌, List, [], cond, length, take, true, false, Some, None, IfOk, IfSome, is_some};

use client_frames::{ErrText, ReplyFrame};
use shard_core::{Begun, Placed, ShardFault};
use std::alloc::{AllocError, Global};
use std::marker::Model;
use subj::{ConnId, Delta, Job, Key, Sid, SubId, Turn};

/// The entries of what was done under a lock, in order; or nothing, where nothing is kept. (Profile.)
///
/// Seen as their list, or as None. Where there is no memory for an entry, all of them are given up.
#[derive(Drop)]
pub struct Tape<E> {
    entries: Vec<E>,
    kept: bool,
}

impl<E> Model for Tape<E> {
    ghost use Rattle.std.specs.Prelude.{List, Option, Some, None, cond};

    ghost Value = { Option (List E) };

    ghost view = { λ s. cond s.kept (Some s.entries.items) None };
}

/// Adds the entry to those that are kept.
fn add<E: Drop>(entries: &mut Vec<E>, kept: &mut bool, entry: E)
    ensures { kept.new ≡ true
        → (kept.old ≡ true) × (entries.new.items ≡ entries.old.items ++ entry ∷ []) }
{
    if *kept {
        *kept = entries.push(entry).is_ok();
    }
}

impl<E: Drop> Tape<E> {
    ghost use Rattle.node_threads.specs.Tapes.{Grows};

    /// One on which nothing is written yet, or where `keep` is false one on which nothing will be.
    pub fn new(alloc: Global, keep: bool) -> Tape<E>
        ensures { result ≡ cond keep (Some []) None }
    {
        Tape {
            entries: Vec::new(alloc),
            kept: keep,
        }
    }

    /// Whether entries are kept.
    pub fn is_kept(&self) -> bool
        ensures kept { result ≡ is_some self.now }
        ensures none { result ≡ false → (more : List E) → Grows self.now more self.now }
    {
        self.kept
    }

    /// How many entries stand on it, where they are kept.
    pub fn len(&self) -> usize
        ensures { IfSome self.now (λ entries. result ≡ length entries) }
    {
        self.entries.len()
    }

    /// Adds an entry. Where there is no memory for it, all are given up.
    pub fn note(&mut self, entry: E)
        ensures { Grows self.old (entry ∷ []) self.new }
    {
        add(&mut self.entries, &mut self.kept, entry);
    }

    /// Gives all entries up.
    pub fn give_up(&mut self)
        ensures { self.new ≡ None }
    {
        self.kept = false;
    }

    /// The entries, if they were kept.
    pub fn into_entries(self) -> Option<Vec<E>>
        ensures some { IfSome result (λ entries. self ≡ Some entries.items) }
        ensures none { is_some result ≡ is_some self }
    {
        if !self.kept {
            return None;
        }
        Some(self.entries)
    }
}

/// Deltas, in order.
///
/// Seen as their list.
pub struct Deltas {
    items: Vec<Delta>,
}

/// One call, also for crates above: `docs/PROVING.md`, "What a proof costs".
impl Drop for Deltas {
    fn drop(self) {
        let Deltas { items: _ } = self;
    }
}

impl Model for Deltas {
    ghost use Rattle.std.specs.Prelude.{List};
    ghost use Rattle.subj.specs.declared.keys.Delta.{Delta};

    ghost Value = { List Delta };

    ghost view = { λ s. s.items.items };
}

impl Deltas {
    /// Copies of these.
    pub fn copy_of(alloc: Global, deltas: &[Delta]) -> Result<Deltas, AllocError>
        ensures { IfOk result (λ copy. copy ≡ deltas.now) }
    {
        let mut items = Vec::with_capacity(alloc, deltas.len())?;
        for delta in deltas {
            items.push(Delta {
                key: delta.key.try_clone(alloc)?,
                up: delta.up,
            })?;
        }
        Ok(Deltas { items })
    }

    /// All of them.
    pub fn as_slice(&self) -> &[Delta]
        ensures { result.now ≡ self.now }
    {
        self.items.as_slice()
    }
}

/// Messages that were placed, in order: each with its connection, its bytes, and whether the connection took headers.
///
/// Seen as their list.
pub struct Placements {
    items: Vec<Placed>,
}

/// One call, also for crates above: `docs/PROVING.md`, "What a proof costs".
impl Drop for Placements {
    fn drop(self) {
        let Placements { items: _ } = self;
    }
}

impl Model for Placements {
    ghost use Rattle.std.specs.Prelude.{List};
    ghost use Rattle.shard_core.specs.declared.calls.Placed.{Placed};

    ghost Value = { List Placed };

    ghost view = { λ s. s.items.items };
}

impl Placements {
    /// The messages of what a begin put: they stand in front of the last lines of the connections that it shut.
    pub(crate) fn of(begun: Begun) -> Placements
        ensures { result ≡ take begun.given begun.put.items }
    {
        let Begun { given, put, .. } = begun;
        let mut items = put;
        items.truncate(given);
        Placements { items }
    }

    /// All of them.
    pub fn as_slice(&self) -> &[Placed]
        ensures { result.now ≡ self.now }
    {
        self.items.as_slice()
    }
}

/// What a shard was asked; and of a part of a turn and a collect what came of it. (Profile.)
pub enum ShardEvent {
    /// Makes a connection.
    Attach,
    /// Opens a subscription of the connection.
    Subscribe {
        conn: ConnId,
        key: Key,
        sid: Sid,
    },
    /// Closes what the connection calls so, at once or once so many messages were delivered.
    Unsubscribe {
        conn: ConnId,
        sid: Sid,
        max: Option<u64>,
    },
    /// Puts an answer to the connection.
    Reply {
        conn: ConnId,
        frame: ReplyFrame,
    },
    /// Whether the connection takes headers from now on.
    SetHeaders {
        conn: ConnId,
        on: bool,
    },
    /// Shuts the connection with this last line.
    Shut {
        conn: ConnId,
        text: ErrText,
    },
    /// The connection is gone.
    Detach {
        conn: ConnId,
    },
    /// Takes the first entries that wait for the connection, at most so many.
    Take {
        conn: ConnId,
        count: usize,
    },
    /// Begins the job; and the messages that were placed for subscriptions without a queue name.
    Begin {
        job: Job,
        placed: Placements,
    },
    /// Claims the queue name of this index of the job in hand, from 0; whether the claim was made and won, and the
    /// message that was placed then.
    Claim {
        index: u64,
        won: bool,
        placed: Option<Placed>,
    },
    /// Ends the job in hand.
    End,
    /// Drops the job in hand, or else this one.
    DropJob(Option<Job>),
    /// Takes no subscription any more.
    Drain,
    /// Handed these deltas to the hub.
    Collect(Deltas),
}

/// One call, also for crates above: `docs/PROVING.md`, "What a proof costs".
impl Drop for ShardEvent {
    #[inline(always)]
    fn drop(self) {
        match self {
            ShardEvent::Attach | ShardEvent::End | ShardEvent::Drain => {}
            ShardEvent::Subscribe {
                conn: _,
                key: _,
                sid: _,
            } => {}
            ShardEvent::Unsubscribe {
                conn: _,
                sid: _,
                max: _,
            } => {}
            ShardEvent::Reply { conn: _, frame: _ } => {}
            ShardEvent::SetHeaders { conn: _, on: _ } => {}
            ShardEvent::Shut { conn: _, text: _ } => {}
            ShardEvent::Detach { conn: _ } => {}
            ShardEvent::Take { conn: _, count: _ } => {}
            ShardEvent::Begin { job: _, placed: _ } => {}
            ShardEvent::Claim {
                index: _,
                won: _,
                placed: _,
            } => {}
            ShardEvent::DropJob(_) => {}
            ShardEvent::Collect(_) => {}
        }
    }
}

/// What a shard answered: values, and of lists how long they are. (Profile.)
///
/// The rest of an answer is not kept: it follows from the events.
#[derive(Clone, Copy, PartialEq, Eq)]
pub enum ShardTold {
    /// The connection that was made.
    Attached(ConnId),
    /// The subscription that was opened.
    Opened(SubId),
    /// The connection has a subscription of this id open.
    AlreadyOpen,
    /// The subscription that an `UNSUB` closed.
    Unsubscribed(Option<SubId>),
    /// A reply: whether the connection was shut for want of room, and how many subscriptions closed.
    Replied { shut: bool, ended: usize },
    /// Whether a connection takes headers was set.
    HeadersSet,
    /// How many subscriptions closed with a connection that was shut.
    WasShut(usize),
    /// How many subscriptions closed with a connection that is gone.
    Detached(usize),
    /// How many entries were taken.
    Taken(usize),
    /// A part of a turn, or a collect: its caller is not told.
    Work,
    /// The turn of the job that was dropped.
    Dropped(Option<Turn>),
    /// No subscription is taken any more.
    Drained,
    /// Nothing was done, for this cause.
    Refused(ShardFault),
}

/// A step of a shard, or a refusal: what it was asked, and what it answered. (Profile.)
#[derive(Drop)]
pub struct ShardEntry {
    pub event: ShardEvent,
    pub told: ShardTold,
}
