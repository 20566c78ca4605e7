//! What the messages of a run have of their own.

ghost use Rattle.std.specs.Prelude.{◌≡◌, ◌+◌, ◌*◌, ◌<◌, ◌≤◌, ◌^◌, ◌++◌, ◌∷◌, ◌==◌, nat_le, [], length, map, vec_len, vec_capacity, OnOk, OnErr, SomeIff};
ghost use Rattle.outbox.specs.Tails.{mark_of, marked, tails_in};
ghost use Rattle.outbox.specs.Views.{tail_bytes, run_text};

use line_fields::append_reserved;
use std::alloc::{AllocError, Global};
use std::marker::Model;
use subj::PubId;

/// Whether so much that is there and so much more come to at most so much.
pub(crate) fn is_within(there: usize, more: usize, most: usize) -> bool
    ensures { result ≡ nat_le (there + more) most }
{
    more <= most && there <= most - more
}

/// How many bytes a buffer that is kept for the next run has room for at most. A run of 128 messages of 1,024 bytes needs about half of it.
const KEPT_BYTES: usize = 262_144;

/// Empties a buffer, and gives its memory back where it has much.
fn let_go(bytes: &mut Vec<u8>)
    ensures items { bytes.new.items ≡ [] }
    ensures few { vec_capacity bytes.new ≤ KEPT_BYTES }
{
    if bytes.capacity() > KEPT_BYTES {
        *bytes = Vec::new(*bytes.allocator());
    } else {
        bytes.clear();
    }
}

/// Which publication a tail belongs to, and how many bytes it has.
#[derive(Clone, Copy)]
pub(crate) struct TailMark {
    pub(crate) id: PubId,
    pub(crate) len: usize,
}

/// What the messages of a run have of their own, when the run is put for one subscription after the other: of each message its
/// publication and its tail, the bytes behind the id of the subscription. Before a tail stands the head, which differs from
/// subscription to subscription: [`crate::Outbox::stage_run`] puts the two together. The messages are kept as they are with one
/// head, so that they are put in one piece for all subscriptions with that head.
///
/// The memory is used again for the next run, unless it is much.
///
/// Seen as the list of the tails.
pub struct RunTails {
    marks: Vec<TailMark>,
    /// The head that each message has in the text.
    head: Vec<u8>,
    /// The messages, one behind another.
    text: Vec<u8>,
}

/// One call, also for crates above: `docs/PROVING.md`, "What a proof costs".
impl Drop for RunTails {
    fn drop(self) {
        let RunTails {
            marks: _,
            head: _,
            text: _,
        } = self;
    }
}

impl Model for RunTails {
    ghost use Rattle.std.specs.Prelude.{◌≡◌, List, length};
    ghost use Rattle.outbox.specs.Views.{Tail, run_text};
    ghost use Rattle.outbox.specs.Tails.{tails_in, marked};

    ghost Value = { List Tail };

    ghost view = { λ tails. tails_in (length tails.head.items) tails.marks.items tails.text.items };

    ghost invariant = { λ tails.
        (marked (length tails.head.items) tails.marks.items ≡ length tails.text.items)
        × (tails.text.items
        ≡ run_text tails.head.items
        (tails_in (length tails.head.items) tails.marks.items tails.text.items)) };
}

/// Puts the messages of a run behind the bytes that are there, each with this head in place of the one of so many bytes that it has
/// in the text, where there is room for all of them.
fn append_each(marks: &[TailMark], replaced: usize, text: &[u8], head: &[u8], out: &mut Vec<u8>)
    requires whole { marked replaced marks.now ≡ length text.now }
    requires room { vec_len out.old + marked (length head.now) marks.now ≤ vec_capacity out.old }
    ensures { out.new.items
        ≡ out.old.items ++ run_text head.now (tails_in replaced marks.now text.now) }
{
    let mut end = 0;
    for mark in marks {
        let start = end + replaced;
        end = start + mark.len;
        append_reserved(out, head);
        append_reserved(out, &text[start..end]);
    }
}

impl RunTails {
    /// No tails, and no head.
    pub fn new(alloc: Global) -> RunTails
        ensures { result ≡ [] }
    {
        RunTails {
            marks: Vec::new(alloc),
            head: Vec::new(alloc),
            text: Vec::new(alloc),
        }
    }

    /// Drops all tails: those of the next run are kept with this head. The memory of many bytes is given back. For want of memory they
    /// are kept with none.
    pub fn clear(&mut self, head: &[u8]) -> Result<(), AllocError>
        ensures { self.new ≡ [] }
    {
        self.marks.clear();
        let_go(&mut self.text);
        self.head.clear();
        self.head.extend_from_slice(head)
    }

    /// Puts the tail of a message of this publication behind. Want of memory leaves all as it was.
    pub fn push(&mut self, id: PubId, tail: &[u8]) -> Result<(), AllocError>
        ensures ok { OnOk result
            (self.new ≡ self.old ++ record { id = id; bytes = tail.now } ∷ []) }
        ensures err { OnErr result (self.new ≡ self.old) }
    {
        self.marks.reserve(1)?;
        self.text.reserve(self.head.len() + tail.len())?;
        append_reserved(&mut self.text, &self.head);
        append_reserved(&mut self.text, tail);
        self.marks.push_reserved(TailMark {
            id,
            len: tail.len(),
        });
        Ok(())
    }

    /// How many tails there are.
    #[tactic(auto, using(crate::proofs::Runs::tails_length))]
    pub fn len(&self) -> usize
        ensures { result ≡ length self.now }
    {
        self.marks.len()
    }

    /// Whether there are no tails.
    #[tactic(auto, using(crate::proofs::Runs::tails_length))]
    pub fn is_empty(&self) -> bool
        ensures { result ≡ (length self.now == 0) }
    {
        self.marks.is_empty()
    }

    /// The publications of the tails, and how many bytes each tail has.
    #[tactic(auto, using(crate::proofs::Runs::tails_marks))]
    pub(crate) fn marks(&self) -> &[TailMark]
        ensures { result.now ≡ map mark_of self.now }
    {
        &self.marks
    }

    /// How many bytes the tails have together.
    fn tail_bytes(&self) -> usize
        ensures { result ≡ tail_bytes self.now }
    {
        self.text.len() - self.head.len() * self.marks.len()
    }

    /// How many bytes the messages of the run have where their head has so many; none where the number does not fit.
    pub(crate) fn run_len(&self, head_len: usize) -> Option<usize>
        ensures { SomeIff result (head_len * length self.now + tail_bytes self.now < 2 ^ 64)
            (head_len * length self.now + tail_bytes self.now) }
    {
        head_len
            .checked_mul(self.len())?
            .checked_add(self.tail_bytes())
    }

    /// Whether so many bytes that are there and those of the messages of the run, whose head has so many, come to at most so many.
    pub(crate) fn fit(&self, head_len: usize, there: usize, most: usize) -> bool
        ensures { result
            ≡ nat_le (there + (head_len * length self.now + tail_bytes self.now)) most }
    {
        match self.run_len(head_len) {
            None => false,
            Some(len) => is_within(there, len, most),
        }
    }

    /// Puts the messages of the run behind the bytes that are there, each with this head, where there is room for all of them.
    pub(crate) fn append_run(&self, head: &[u8], out: &mut Vec<u8>)
        requires { vec_len out.old + (length head.now * length self.now + tail_bytes self.now)
            ≤ vec_capacity out.old }
        ensures { out.new.items ≡ out.old.items ++ run_text head.now self.now }
    {
        if self.head.as_slice() == head {
            append_reserved(out, &self.text);
            return;
        }
        append_each(&self.marks, self.head.len(), &self.text, head, out);
    }
}
