//! A number that only contracts read.
ghost use Rattle.std.specs.Prelude.{◌≡◌, ℕ, ◌+◌};
ghost use Rattle.std.specs.Borrow.{ftrue};

use std::marker::{Model, PhantomData};

/// Counts the reads or the failures of a source or a sink, for contracts that are generic over it.
/// It has no limit and no bytes, and its calls do nothing when they run.
#[derive(Drop)]
pub struct Count {
    marker: PhantomData<u8>,
    pub ghost value: { ℕ },
}

impl Model for Count {
    ghost also_owns = { λ _. ftrue };
}

impl Count {
    /// Nothing was counted yet.
    pub fn new() -> Count
        ensures { result.value ≡ 0 }
    {
        Count {
            marker: PhantomData,
        }
    }

    /// Counts one more.
    pub fn rise(&mut self)
        ensures { self.new.value ≡ self.old.value + 1 }
    {}
}
