//! What was taken for clients and is about to be written.

ghost use Rattle.std.specs.Prelude.{◌≡◌, ◌++◌, ◌∷◌, [], None, IsSome};
ghost use Rattle.std.specs.Bool.{OnTrue, OnFalse};
ghost use Rattle.node_net.specs.Taking.{all_parts};

use crate::limits::{BUSY_BYTES, TAKEN_AT_ONCE};
use crate::parts::{Parts, let_go_beyond};
use std::alloc::Global;

/// What was taken for clients, and for whom.
#[derive(Drop)]
pub(crate) struct Taken {
    alloc: Global,
    pub parts: Parts,
    /// What was taken for one client, before it stands among what was taken for all.
    pub lent: Vec<u8>,
    /// The connection that this is for, where there was no memory to put it there: it stands behind the others then.
    pub last: Option<usize>,
}

impl Taken {
    /// Nothing.
    pub fn new(alloc: Global) -> Taken {
        Taken {
            alloc,
            parts: Parts::new(alloc),
            lent: Vec::new(alloc),
            last: None,
        }
    }

    /// Nothing is taken any more.
    pub fn clear(&mut self)
        ensures { all_parts self.new ≡ [] }
    {
        self.parts.clear();
        self.lent.clear();
        self.last = None;
    }

    /// Whether no more is to be taken before this is written.
    pub fn is_enough(&self) -> bool
        ensures { OnFalse result (self.now.last ≡ None) }
    {
        self.last.is_some() || self.parts.len() >= TAKEN_AT_ONCE
    }

    /// Begins one part more, of which nothing is lent yet. False where none can stand behind the last one.
    pub fn begin_part(&mut self) -> bool
        ensures begun { OnTrue result ((self.new.parts ≡ all_parts self.old)
            × (self.new.lent.items ≡ []) × (self.new.last ≡ None)) }
        ensures full { OnFalse result (IsSome self.old.last × (self.new ≡ self.old)) }
    {
        if self.last.is_some() {
            return false;
        }
        self.lent.clear();
        true
    }

    /// Puts what is lent behind what was taken for others, as the part of this connection.
    pub fn put_part(&mut self, key: usize)
        ensures { all_parts self.new ≡ self.old.parts ++ (key, self.old.lent.items) ∷ [] }
    {
        if self.parts.put(key, &mut self.lent) {
            self.last = None;
            self.let_go_of_lent();
        } else {
            self.last = Some(key);
        }
    }

    /// Nothing is lent any more: a buffer for more than large messages does not stay.
    pub fn let_go_of_lent(&mut self)
        ensures { self.new ≡ record self.old { lent = self.new.lent } }
    {
        let_go_beyond(self.alloc, &mut self.lent, BUSY_BYTES);
    }

    /// Nothing is taken any more: a buffer with more than so many bytes of room does not stay.
    pub fn let_go_beyond(&mut self, room: usize) {
        self.clear();
        self.parts.let_go_beyond(room);
        let_go_beyond(self.alloc, &mut self.lent, room);
    }
}
