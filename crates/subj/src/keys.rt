//! What a server's clients are interested in, and how that changes.

ghost use Rattle.std.specs.Prelude.{◌≡◌, ◌≤◌, IfOk};
ghost use Rattle.std.specs.Cmp.Lexicographic.{slice_cmp};
ghost use Rattle.std.specs.Option.{option_cmp};
ghost use Rattle.std.specs.Ordering.{nat_cmp};
ghost use Rattle.subj.specs.Keys.{key_cmp, cost_of};

use crate::limits::{MAX_COST, SUBSCRIPTION_COST};
use crate::patterns::Pattern;
use crate::queue_names::QueueName;
use std::alloc::{AllocError, Global};
use std::cmp::Ordering;

/// A pattern, with the name of a queue group or without: what subscriptions of one kind share.
/// (NATS documentation, "Cluster Protocol": `RS+`.)
#[derive(Drop)]
pub struct Key {
    pub pattern: Pattern,
    pub queue: Option<QueueName>,
}

impl Key {
    /// A copy of the key.
    pub fn try_clone(&self, alloc: Global) -> Result<Key, AllocError>
        ensures { IfOk result (λ key. key ≡ self.now) }
    {
        let pattern = self.pattern.try_clone(alloc)?;
        let queue = match &self.queue {
            None => None,
            Some(name) => Some(name.try_clone(alloc)?),
        };
        Ok(Key { pattern, queue })
    }

    /// How the key stands to another: by the bytes of the pattern, then no queue name first, then by
    /// the bytes of the queue name. (Profile.)
    pub fn order(&self, other: &Key) -> Ordering
        ensures { result ≡ key_cmp self.now other.now }
    {
        self.pattern
            .bytes()
            .cmp(other.pattern.bytes())
            .then(queue_order(&self.queue, &other.queue))
    }

    /// What the key counts against a limit of bytes: the bytes of its pattern and of its queue name,
    /// and [`SUBSCRIPTION_COST`](crate::SUBSCRIPTION_COST). (Profile.)
    pub fn cost(&self) -> u64
        ensures same { result ≡ cost_of self.now }
        ensures most { result ≤ MAX_COST }
    {
        let queue = self.queue.as_ref().map_or(0, |name| name.bytes().len());
        (self.pattern.bytes().len() + queue) as u64 + SUBSCRIPTION_COST
    }
}

/// One subscription of the key opened or closed. (Profile.)
#[derive(Drop)]
pub struct Delta {
    pub key: Key,
    /// Whether it opened.
    pub up: bool,
}

/// No queue name first, then by bytes.
fn queue_order(a: &Option<QueueName>, b: &Option<QueueName>) -> Ordering
    ensures { result ≡ option_cmp (slice_cmp nat_cmp) a.now b.now }
{
    match (a, b) {
        (None, None) => Ordering::Equal,
        (None, Some(_)) => Ordering::Less,
        (Some(_), None) => Ordering::Greater,
        (Some(a), Some(b)) => a.bytes().cmp(b.bytes()),
    }
}
