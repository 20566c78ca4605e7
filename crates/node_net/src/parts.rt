//! Bytes that were taken for clients, one part behind the other.

ghost use Rattle.std.specs.Prelude.{◌≡◌, ◌≤◌, ◌++◌, ◌∷◌, [], length, slice_get, Some, IfSome, IfNone};
ghost use Rattle.std.specs.Bool.{OnTrue, OnFalse};

use crate::placing::put;
use std::alloc::Global;
use std::marker::Model;

/// What was taken for one connection: these of all bytes that were taken.
#[derive(Clone, Copy)]
struct Part {
    key: usize,
    start: usize,
    end: usize,
}

/// Lets a buffer with more than so many bytes of room go, with what is in it.
pub(crate) fn let_go_beyond(alloc: Global, buffer: &mut Vec<u8>, room: usize) {
    if buffer.capacity() > room {
        put(buffer, Vec::new(alloc));
    }
}

/// What was taken for clients, one behind the other.
#[derive(Drop)]
pub(crate) struct Parts {
    alloc: Global,
    bytes: Vec<u8>,
    parts: Vec<Part>,
}

impl Model for Parts {
    ghost use Rattle.std.specs.Prelude.{ℕ, List, map};
    ghost use Rattle.std.specs.List.{All};
    ghost use Rattle.node_net.specs.Parts.{part_of, IsWithin};

    ghost Value = { List (ℕ × List ℕ) };

    ghost view = { λ p. map (part_of p.bytes.items) p.parts.items };

    ghost invariant = { λ p. All (IsWithin p.bytes.items) p.parts.items };
}

impl Parts {
    /// There are none.
    pub fn new(alloc: Global) -> Parts
        ensures { result ≡ [] }
    {
        Parts {
            alloc,
            bytes: Vec::new(alloc),
            parts: Vec::new(alloc),
        }
    }

    /// There are none any more.
    pub fn clear(&mut self)
        ensures { self.new ≡ [] }
    {
        self.parts.clear();
        self.bytes.clear();
    }

    /// How many bytes they have.
    pub fn len(&self) -> usize {
        self.bytes.len()
    }

    /// How many there are.
    pub fn count(&self) -> usize
        ensures { result ≡ length self.now }
    {
        self.parts.len()
    }

    /// Puts what is lent behind the others, as the part of this connection. Whether there was memory for that.
    pub fn put(&mut self, key: usize, lent: &mut Vec<u8>) -> bool
        ensures put { OnTrue result (self.new ≡ self.old ++ (key, lent.old.items) ∷ []) }
        ensures kept { OnFalse result ((self.new ≡ self.old) × (lent.new.items ≡ lent.old.items)) }
    {
        if self.parts.reserve(1).is_err() {
            return false;
        }
        let start = self.bytes.len();
        if !join(&mut self.bytes, lent) {
            return false;
        }
        let end = self.bytes.len();
        self.parts.push_reserved(Part { key, start, end });
        true
    }

    /// The part at this place: the connection that it is for, and its bytes.
    pub fn get(&self, place: usize) -> Option<(usize, &[u8])>
        ensures part { IfSome result (λ part.
            slice_get self.now place ≡ Some (part.0, part.1.now)) }
        ensures none { IfNone result (length self.now ≤ place) }
    {
        let part = self.parts.get(place)?;
        Some((part.key, &self.bytes[part.start..part.end]))
    }

    /// There are none any more: a buffer with more than so many bytes of room does not stay.
    pub fn let_go_beyond(&mut self, room: usize)
        ensures { self.new ≡ [] }
    {
        self.clear();
        let_go_beyond(self.alloc, &mut self.bytes, room);
    }
}

/// Puts what is lent behind these bytes. Whether there was memory for that.
fn join(bytes: &mut Vec<u8>, lent: &mut Vec<u8>) -> bool
    ensures put { OnTrue result (bytes.new.items ≡ bytes.old.items ++ lent.old.items) }
    ensures kept { OnFalse result
        ((bytes.new.items ≡ bytes.old.items) × (lent.new.items ≡ lent.old.items)) }
{
    if bytes.is_empty() {
        std::mem::swap(bytes, lent);
        return true;
    }
    bytes.extend_from_slice(lent).is_ok()
}
