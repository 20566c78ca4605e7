//! Numbered frames.

ghost use Rattle.std.specs.Prelude.{◌≡◌, ◌↔◌, IsTrue};

use crate::keys::{is_same_key, is_same_name};
use crate::messages::is_same_message;
use route_values::{Body, Numbered, WeightedKey};
use subj::QueueName;

/// Whether it is the same key with the same weight.
fn is_same_weighted(a: &WeightedKey, b: &WeightedKey) -> bool
    ensures { IsTrue result ↔ (a.now ≡ b.now) }
{
    a.weight() == b.weight() && is_same_key(a.key(), b.key())
}

/// Whether these are the same keys with the same weights, in the same order.
fn are_same_weighted(a: &[WeightedKey], b: &[WeightedKey]) -> bool
    ensures { IsTrue result ↔ (a.now ≡ b.now) }
{
    if a.len() != b.len() {
        return false;
    }
    for place in 0..a.len() {
        if !is_same_weighted(&a[place], &b[place]) {
            return false;
        }
    }
    true
}

/// Whether these are the same queue names, in the same order.
fn are_same_names(a: &[QueueName], b: &[QueueName]) -> bool
    ensures { IsTrue result ↔ (a.now ≡ b.now) }
{
    if a.len() != b.len() {
        return false;
    }
    for place in 0..a.len() {
        if !is_same_name(&a[place], &b[place]) {
            return false;
        }
    }
    true
}

/// Whether two frames say the same.
fn is_same_body(a: &Body, b: &Body) -> bool
    ensures { IsTrue result ↔ (a.now ≡ b.now) }
{
    match (a, b) {
        (Body::Plus(a), Body::Plus(b)) => is_same_weighted(a, b),
        (Body::Minus(a), Body::Minus(b)) => is_same_key(a, b),
        (Body::Snapshot(a), Body::Snapshot(b)) => are_same_weighted(a.as_slice(), b.as_slice()),
        (
            Body::Msg {
                message: a,
                queues: of_a,
            },
            Body::Msg {
                message: b,
                queues: of_b,
            },
        ) => is_same_message(a, b) && are_same_names(of_a.as_slice(), of_b.as_slice()),
        _ => false,
    }
}

/// Whether it is the same frame: of the same life of a server to the same life of another, with the same number, and saying the
/// same.
pub fn is_same_frame(a: &Numbered, b: &Numbered) -> bool
    ensures { IsTrue result ↔ (a.now ≡ b.now) }
{
    a.from() == b.from()
        && a.inc() == b.inc()
        && a.to() == b.to()
        && a.to_inc() == b.to_inc()
        && a.number() == b.number()
        && is_same_body(a.body(), b.body())
}
