//! One subject that is kept in mind.

ghost use Rattle.std.specs.Prelude.{◌≡◌, ◌<◌, ◌≤◌, true, OnOk};

use std::alloc::{AllocError, Global};

/// A subject, and the serials of what it matched in some generation.
#[derive(Drop)]
pub(crate) struct Slot {
    /// 0 where no subject is kept.
    generation: u64,
    subject: Vec<u8>,
    /// In order of opening.
    serials: Vec<u64>,
}

impl Slot {
    /// No subject.
    pub(crate) fn new(alloc: Global) -> Slot
        ensures { result.generation ≡ 0 }
    {
        Slot {
            generation: 0,
            subject: Vec::new(alloc),
            serials: Vec::new(alloc),
        }
    }

    /// Whether it has this subject, written in this generation.
    pub(crate) fn is_of(&self, generation: u64, subject: &[u8]) -> bool
        ensures generation { result ≡ true → self.now.generation ≡ generation }
        ensures subject { result ≡ true → self.now.subject.items ≡ subject.now }
    {
        self.generation == generation && self.subject.as_slice() == subject
    }

    pub(crate) fn serials(&self) -> &[u64]
        ensures { result.now ≡ self.now.serials.items }
    {
        self.serials.as_slice()
    }

    /// Writes the subject and the serials, which are not right where memory is wanting.
    fn write(&mut self, subject: &[u8], serials: &[u64]) -> Result<(), AllocError>
        ensures generation { self.new.generation ≡ self.old.generation }
        ensures subject { OnOk result (self.new.subject.items ≡ subject.now) }
        ensures serials { OnOk result (self.new.serials.items ≡ serials.now) }
    {
        self.subject.clear();
        self.subject.extend_from_slice(subject)?;
        self.serials.clear();
        self.serials.extend_from_slice(serials)
    }

    /// Keeps this subject in place of the one that was there; no subject where memory is wanting.
    pub(crate) fn fill(&mut self, generation: u64, subject: &[u8], serials: &[u64])
        requires { 0 < generation }
        ensures older { self.new.generation ≤ generation }
        ensures subject { self.new.generation ≡ generation → self.new.subject.items ≡ subject.now }
        ensures serials { self.new.generation ≡ generation → self.new.serials.items ≡ serials.now }
    {
        self.generation = 0;
        if self.write(subject, serials).is_ok() {
            self.generation = generation;
        }
    }
}
