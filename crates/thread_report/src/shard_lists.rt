//! The lists of a shard's answer, which a pass keeps and lends.

ghost use Rattle.std.specs.Prelude.{◌≡◌, true, IfOk};
ghost use Rattle.thread_report.specs.ShardAnswers.{closed_lists, no_lists, taken_lists};

use outbox::{Entry, Mode, Tag};
use std::alloc::{AllocError, Global};
use std::marker::Model;
use subj::{NodeId, PubId, SubId};

/// What takes memory of a shard's answer: the subscriptions that closed with their connection, and the entries that
/// were taken, each list in order. It is empty where the answer has no such list. (Profile.)
///
/// Seen as both lists.
pub struct ShardLists {
    closed: Vec<SubId>,
    taken: Vec<Entry>,
}

/// One call, also for crates above: `docs/PROVING.md`, "What a proof costs".
impl Drop for ShardLists {
    fn drop(self) {
        let ShardLists {
            closed: _,
            taken: _,
        } = self;
    }
}

impl Model for ShardLists {
    ghost use Rattle.thread_report.specs.ShardAnswers.{ShardLists};

    ghost Value = { ShardLists };

    ghost view = { λ s. record {
      closed = s.closed.items;
      taken = s.taken.items;
    } };
}

impl ShardLists {
    /// Those of an answer without lists. Takes no memory.
    pub(crate) fn none(alloc: Global) -> ShardLists
        ensures { result ≡ no_lists }
    {
        ShardLists {
            closed: Vec::new(alloc),
            taken: Vec::new(alloc),
        }
    }

    /// Those of an answer that tells which subscriptions closed. Takes no memory.
    pub(crate) fn of_closed(alloc: Global, closed: Vec<SubId>) -> ShardLists
        ensures { result ≡ closed_lists closed.items }
    {
        ShardLists {
            closed,
            taken: Vec::new(alloc),
        }
    }

    /// Those of an answer that gives entries. Takes no memory.
    pub(crate) fn of_taken(alloc: Global, taken: Vec<Entry>) -> ShardLists
        ensures { result ≡ taken_lists taken.items }
    {
        ShardLists {
            closed: Vec::new(alloc),
            taken,
        }
    }

    /// The subscriptions that closed with their connection.
    pub fn closed(&self) -> &[SubId]
        ensures { result.now ≡ self.now.closed }
    {
        self.closed.as_slice()
    }

    /// The entries that were taken.
    pub fn taken(&self) -> &[Entry]
        ensures { result.now ≡ self.now.taken }
    {
        self.taken.as_slice()
    }

    /// Whether the others are the same.
    pub(crate) fn are_same(&self, alloc: Global, others: &ShardLists) -> Result<bool, AllocError>
        ensures { IfOk result (λ same. same ≡ true → self.now ≡ others.now) }
    {
        if !are_same_subs(self.closed(), others.closed()) {
            return Ok(false);
        }
        are_same_entries(alloc, self.taken(), others.taken())
    }
}

/// Whether it is the same subscription.
fn is_same_sub(a: &SubId, b: &SubId) -> bool
    ensures { result ≡ true → a.now ≡ b.now }
{
    a == b
}

/// Whether these are the same subscriptions.
fn are_same_subs(a: &[SubId], b: &[SubId]) -> bool
    ensures { result ≡ true → a.now ≡ b.now }
{
    if a.len() != b.len() {
        return false;
    }
    for place in 0..a.len() {
        if !is_same_sub(&a[place], &b[place]) {
            return false;
        }
    }
    true
}

/// Whether a message came to its subscription in the same way.
fn is_same_mode(a: &Mode, b: &Mode) -> bool
    ensures { result ≡ true → a.now ≡ b.now }
{
    match (a, b) {
        (Mode::Plain, Mode::Plain) => true,
        (Mode::Queue(name), Mode::Queue(of)) => name.bytes() == of.bytes(),
        _ => false,
    }
}

/// Whether it is the same server.
fn is_same_server(a: NodeId, b: NodeId) -> bool
    ensures { result ≡ true → a ≡ b }
{
    a == b
}

/// Whether it is the same publication.
fn is_same_id(a: &PubId, b: &PubId) -> bool
    ensures { result ≡ true → a.now ≡ b.now }
{
    a.number == b.number && a.inc == b.inc && is_same_server(a.origin, b.origin)
}

/// Whether an entry is the same, but for its bytes.
fn is_same_tag(a: &Tag, b: &Tag) -> bool
    ensures { result ≡ true → a.now ≡ b.now }
{
    match (a, b) {
        (Tag::Reply, Tag::Reply) => true,
        (
            Tag::Msg { id, sub, mode },
            Tag::Msg {
                id: of,
                sub: to,
                mode: by,
            },
        ) => is_same_id(id, of) && is_same_sub(sub, to) && is_same_mode(mode, by),
        _ => false,
    }
}

/// Whether it is the same entry, with the same bytes.
fn is_same_entry(alloc: Global, a: &Entry, b: &Entry) -> Result<bool, AllocError>
    ensures { IfOk result (λ same. same ≡ true → a.now ≡ b.now) }
{
    if !is_same_tag(a.tag(), b.tag()) {
        return Ok(false);
    }
    let bytes = a.bytes(alloc)?;
    let others = b.bytes(alloc)?;
    Ok(bytes.as_slice() == others.as_slice())
}

/// Whether these are the same entries.
fn are_same_entries(alloc: Global, a: &[Entry], b: &[Entry]) -> Result<bool, AllocError>
    ensures { IfOk result (λ same. same ≡ true → a.now ≡ b.now) }
{
    if a.len() != b.len() {
        return Ok(false);
    }
    for place in 0..a.len() {
        if !is_same_entry(alloc, &a[place], &b[place])? {
            return Ok(false);
        }
    }
    Ok(true)
}
