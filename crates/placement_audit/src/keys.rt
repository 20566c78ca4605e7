//! Names as keys in order.

ghost use Rattle.std.specs.Prelude.{◌≡◌, refl, Some, None, IfOk};
ghost use Rattle.std.specs.Cmp.{partial_equiv_from_equiv, partial_order_from_agreeing_total, eq_by_cmp_equiv};
ghost use Rattle.std.specs.Cmp.Lexicographic.{slice_cmp};
ghost use Rattle.std.specs.Option.{option_cmp};
ghost use Rattle.std.specs.Ordering.{eq_by_cmp, as_partial_cmp, nat_cmp};
ghost use Rattle.cluster_world.specs.InCode.{life_id_of};
ghost use Rattle.placement_audit.specs.InCode.{placement_of};
ghost use Rattle.placement_audit.specs.Keys.{code_life_cmp, key_of, life_cmp, life_key_cmp, life_key_total, named_once, plain_key, publication_cmp, publication_key_cmp, publication_key_total, served_cmp, served_total};

use crate::placements::Placement;
use cluster_world::LifeId;
use outbox::Mode;
use std::alloc::{AllocError, Global};
use std::cmp::Ordering;
use subj::{PubId, QueueName};

/// How the publication stands to another: by the name of its server, that server's incarnation, and its number there.
fn publication_order(a: &PubId, b: &PubId) -> Ordering
    ensures { result ≡ publication_cmp a.now b.now }
{
    a.origin
        .bytes()
        .cmp(b.origin.bytes())
        .then(a.inc.get().cmp(&b.inc.get()))
        .then(a.number.cmp(&b.number))
}

/// How the subscription stands to another: by the place of its server, that server's incarnation, its shard, and its serial there.
fn life_order(a: &LifeId, b: &LifeId) -> Ordering
    ensures { result ≡ life_cmp (life_id_of a.now) (life_id_of b.now) }
{
    a.node
        .cmp(&b.node)
        .then(a.inc.get().cmp(&b.inc.get()))
        .then(a.sub.shard.cmp(&b.sub.shard))
        .then(a.sub.serial.cmp(&b.sub.serial))
}

/// No subscription first.
fn plain_order(a: &Option<LifeId>, b: &Option<LifeId>) -> Ordering
    ensures { result ≡ option_cmp code_life_cmp a.now b.now }
{
    match (a, b) {
        (None, None) => Ordering::Equal,
        (None, Some(_)) => Ordering::Less,
        (Some(_), None) => Ordering::Greater,
        (Some(a), Some(b)) => life_order(a, b),
    }
}

/// No queue name first, then by bytes.
fn queue_order(a: &Option<QueueName>, b: &Option<QueueName>) -> Ordering
    ensures { result ≡ option_cmp (slice_cmp nat_cmp) a.now b.now }
{
    match (a, b) {
        (None, None) => Ordering::Equal,
        (None, Some(_)) => Ordering::Less,
        (Some(_), None) => Ordering::Greater,
        (Some(a), Some(b)) => a.bytes().cmp(b.bytes()),
    }
}

/// A publication.
#[derive(Drop)]
pub(crate) struct PublicationKey {
    pub(crate) id: PubId,
}

/// A subscription.
#[derive(Drop)]
pub(crate) struct LifeKey {
    pub(crate) id: LifeId,
}

/// For what a publication is placed once: a plain subscription, or a queue name.
#[derive(Drop)]
pub(crate) struct Served {
    id: PubId,
    life: Option<LifeId>,
    queue: Option<QueueName>,
}

impl Served {
    /// The publication of the placement, for its subscription as a plain one.
    pub(crate) fn plainly(placement: &Placement) -> Served
        ensures { named_once result ≡ plain_key placement.now.id (life_id_of placement.now.life) }
    {
        Served {
            id: placement.id,
            life: Some(placement.life),
            queue: None,
        }
    }

    /// What the placement is for.
    pub(crate) fn of(alloc: Global, placement: &Placement) -> Result<Served, AllocError>
        ensures { IfOk result (λ served. named_once served ≡ key_of (placement_of placement.now)) }
    {
        match &placement.mode {
            Mode::Plain => Ok(Served::plainly(placement)),
            Mode::Queue(name) => {
                let queue = name.try_clone(alloc)?;
                Ok(Served {
                    id: placement.id,
                    life: None,
                    queue: Some(queue),
                })
            }
        }
    }

    fn order(&self, other: &Served) -> Ordering
        ensures { result ≡ served_cmp self.now other.now }
    {
        publication_order(&self.id, &other.id)
            .then(plain_order(&self.life, &other.life))
            .then(queue_order(&self.queue, &other.queue))
    }
}

impl PartialEq for PublicationKey {
    ghost eq = { eq_by_cmp publication_key_cmp };

    ghost laws = { partial_equiv_from_equiv (eq_by_cmp_equiv publication_key_total) };

    fn eq(&self, other: &PublicationKey) -> bool {
        publication_order(&self.id, &other.id) == Ordering::Equal
    }
}

impl Eq for PublicationKey {
    ghost laws = { eq_by_cmp_equiv publication_key_total };
}

impl PartialOrd for PublicationKey {
    ghost partial_cmp = { as_partial_cmp publication_key_cmp };

    ghost laws = { partial_order_from_agreeing_total publication_key_cmp publication_key_total
        (λ x y. refl) (λ x y. refl) };

    fn partial_cmp(&self, other: &PublicationKey) -> Option<Ordering> {
        Some(self.cmp(other))
    }
}

impl Ord for PublicationKey {
    ghost cmp = { publication_key_cmp };

    ghost total = { publication_key_total };

    ghost matches_partial_cmp = { λ x y. refl };

    ghost matches_eq = { λ x y. refl };

    fn cmp(&self, other: &PublicationKey) -> Ordering {
        publication_order(&self.id, &other.id)
    }
}

impl PartialEq for LifeKey {
    ghost eq = { eq_by_cmp life_key_cmp };

    ghost laws = { partial_equiv_from_equiv (eq_by_cmp_equiv life_key_total) };

    fn eq(&self, other: &LifeKey) -> bool {
        life_order(&self.id, &other.id) == Ordering::Equal
    }
}

impl Eq for LifeKey {
    ghost laws = { eq_by_cmp_equiv life_key_total };
}

impl PartialOrd for LifeKey {
    ghost partial_cmp = { as_partial_cmp life_key_cmp };

    ghost laws = { partial_order_from_agreeing_total life_key_cmp life_key_total (λ x y. refl)
        (λ x y. refl) };

    fn partial_cmp(&self, other: &LifeKey) -> Option<Ordering> {
        Some(self.cmp(other))
    }
}

impl Ord for LifeKey {
    ghost cmp = { life_key_cmp };

    ghost total = { life_key_total };

    ghost matches_partial_cmp = { λ x y. refl };

    ghost matches_eq = { λ x y. refl };

    fn cmp(&self, other: &LifeKey) -> Ordering {
        life_order(&self.id, &other.id)
    }
}

impl PartialEq for Served {
    ghost eq = { eq_by_cmp served_cmp };

    ghost laws = { partial_equiv_from_equiv (eq_by_cmp_equiv served_total) };

    fn eq(&self, other: &Served) -> bool {
        self.order(other) == Ordering::Equal
    }
}

impl Eq for Served {
    ghost laws = { eq_by_cmp_equiv served_total };
}

impl PartialOrd for Served {
    ghost partial_cmp = { as_partial_cmp served_cmp };

    ghost laws = { partial_order_from_agreeing_total served_cmp served_total (λ x y. refl)
        (λ x y. refl) };

    fn partial_cmp(&self, other: &Served) -> Option<Ordering> {
        Some(self.cmp(other))
    }
}

impl Ord for Served {
    ghost cmp = { served_cmp };

    ghost total = { served_total };

    ghost matches_partial_cmp = { λ x y. refl };

    ghost matches_eq = { λ x y. refl };

    fn cmp(&self, other: &Served) -> Ordering {
        self.order(other)
    }
}
