//! Keys as a map keeps them in order.

ghost use Rattle.std.specs.Prelude.{◌≡◌, refl, IfOk};
ghost use Rattle.std.specs.Cmp.{partial_equiv_from_equiv, partial_order_from_agreeing_total, eq_by_cmp_equiv};
ghost use Rattle.std.specs.Ordering.{eq_by_cmp, as_partial_cmp};
ghost use Rattle.subj.specs.Keys.{key_cmp};
ghost use Rattle.interest.specs.KeyOrder.{key_order_total};

use std::alloc::{AllocError, Global};
use std::cmp::Ordering;
use std::marker::Model;
use subj::Key;

/// A key, compared by [`Key::order`].
#[derive(Drop)]
pub(crate) struct OrderedKey {
    key: Key,
}

impl Model for OrderedKey {
    ghost use Rattle.subj.specs.declared.keys.Key.{Key};

    ghost Value = { Key };

    ghost view = { λ ordered. ordered.key };
}

impl OrderedKey {
    /// A copy of the key.
    pub(crate) fn copy_of(alloc: Global, key: &Key) -> Result<OrderedKey, AllocError>
        ensures { IfOk result (λ ordered. ordered ≡ key.now) }
    {
        let key = key.try_clone(alloc)?;
        Ok(OrderedKey { key })
    }

    /// The key.
    pub(crate) fn key(&self) -> &Key
        ensures { result.now ≡ self.now }
    {
        &self.key
    }

    /// The key itself.
    pub(crate) fn into_key(self) -> Key
        ensures { result ≡ self }
    {
        let OrderedKey { key } = self;
        key
    }
}

impl PartialEq for OrderedKey {
    ghost eq = { eq_by_cmp key_cmp };

    ghost laws = { partial_equiv_from_equiv (eq_by_cmp_equiv key_order_total) };

    fn eq(&self, other: &OrderedKey) -> bool {
        self.key.order(&other.key) == Ordering::Equal
    }
}

impl Eq for OrderedKey {
    ghost laws = { eq_by_cmp_equiv key_order_total };
}

impl PartialOrd for OrderedKey {
    ghost partial_cmp = { as_partial_cmp key_cmp };

    ghost laws = { partial_order_from_agreeing_total key_cmp key_order_total (λ x y. refl)
        (λ x y. refl) };

    fn partial_cmp(&self, other: &OrderedKey) -> Option<Ordering> {
        Some(self.cmp(other))
    }
}

impl Ord for OrderedKey {
    ghost cmp = { key_cmp };

    ghost total = { key_order_total };

    ghost matches_partial_cmp = { λ x y. refl };

    ghost matches_eq = { λ x y. refl };

    fn cmp(&self, other: &OrderedKey) -> Ordering {
        self.key.order(&other.key)
    }
}
