//! The keys of interest, one after the other.

use subj::Key;

/// Keys with the number of their open subscriptions, in the order of [`Key::order`](subj::Key::order).
#[derive(Drop)]
pub struct Keys<'a> {
    pub(crate) left: &'a [(Key, u64)],
}

impl<'a> Iterator for Keys<'a> {
    ghost use Rattle.std.specs.Iterator.{YieldsFirstRef, item_count};
    ghost use Rattle.interest.specs.KeysLeft.{keys_left};

    type Item = &'a (Key, u64);

    ghost next_gives = { YieldsFirstRef keys_left };

    ghost remaining = { item_count keys_left };

    fn next(&mut self) -> Option<&'a (Key, u64)> {
        let (first, others) = self.left.split_first()?;
        self.left = others;
        Some(first)
    }
}
