//! Keys and names of subscriptions.

ghost use Rattle.std.specs.Prelude.{◌≡◌, ◌↔◌, IsTrue};

use subj::{Key, QueueName, Sid};

/// Whether a subscription is called the same.
pub fn is_same_sid(a: &Sid, b: &Sid) -> bool
    ensures { IsTrue result ↔ (a.now ≡ b.now) }
{
    a.bytes() == b.bytes()
}

/// Whether it is the same queue name.
pub(crate) fn is_same_name(name: &QueueName, other: &QueueName) -> bool
    ensures { IsTrue result ↔ (name.now ≡ other.now) }
{
    name.bytes() == other.bytes()
}

/// Whether it is the same queue name, or none twice.
fn is_same_queue(a: &Option<QueueName>, b: &Option<QueueName>) -> bool
    ensures { IsTrue result ↔ (a.now ≡ b.now) }
{
    match (a, b) {
        (None, None) => true,
        (Some(a), Some(b)) => is_same_name(a, b),
        (None, Some(_)) | (Some(_), None) => false,
    }
}

/// Whether it is the same key.
pub fn is_same_key(a: &Key, b: &Key) -> bool
    ensures { IsTrue result ↔ (a.now ≡ b.now) }
{
    a.pattern.bytes() == b.pattern.bytes() && is_same_queue(&a.queue, &b.queue)
}
