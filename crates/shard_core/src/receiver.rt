//! An open subscription that receives a subject.

ghost use Rattle.std.specs.Prelude.{◌≡◌, ◌≤◌, length, IfOk};
ghost use Rattle.client_frames.specs.declared.message_parts.TheConstants.{MAX_HEAD};
ghost use Rattle.subj.specs.QueueNames.{is_named as named};
ghost use Rattle.shard_core.specs.Received.{receiver_of};

use client_frames::message_head;
use std::alloc::{AllocError, Global};
use std::marker::Model;
use sub_table::Subscription;
use subj::{ConnId, LentSubject, QueueName};

/// An open subscription that receives a subject, with what a delivery needs of it.
///
/// Seen as its serial, its connection, whether it has no queue name, its queue name where it has one, whether it has a maximum, and the
/// head of its messages ([`message_head`]).
#[derive(Drop)]
pub struct Receiver {
    serial: u64,
    conn: ConnId,
    queue: Option<QueueName>,
    is_limited: bool,
    head: Vec<u8>,
}

impl Model for Receiver {
    ghost use Rattle.std.specs.Prelude.{◌≤◌, is_none, length};
    ghost use Rattle.client_frames.specs.declared.message_parts.TheConstants.{MAX_HEAD};
    ghost use Rattle.shard_core.specs.Received.{Received};

    ghost Value = { Received };

    ghost view = { λ r. record {
      serial = r.serial;
      conn = r.conn;
      is_plain = is_none r.queue;
      queue = r.queue;
      is_limited = r.is_limited;
      head = r.head.items;
    } };

    ghost invariant = { λ r. (1 ≤ length r.head.items) × (length r.head.items ≤ MAX_HEAD) };
}

/// A copy of a queue name, where there is one.
fn copy_of(alloc: Global, queue: &Option<QueueName>) -> Result<Option<QueueName>, AllocError>
    ensures { IfOk result (λ copy. copy ≡ queue.now) }
{
    match queue {
        None => Ok(None),
        Some(name) => Ok(Some(name.try_clone(alloc)?)),
    }
}

impl Receiver {
    /// The receiver of the subject that this open subscription is.
    pub(crate) fn new(
        alloc: Global,
        subject: &LentSubject<'_>,
        sub: &Subscription,
    ) -> Result<Receiver, AllocError>
        ensures { IfOk result (λ receiver. receiver ≡ receiver_of subject.now sub.now) }
    {
        let head = message_head(alloc, subject, &sub.sid)?;
        Ok(Receiver {
            serial: sub.serial,
            conn: sub.conn,
            queue: copy_of(alloc, &sub.key.queue)?,
            is_limited: sub.max.is_some(),
            head,
        })
    }

    /// The serial of the subscription.
    pub fn serial(&self) -> u64
        ensures { result ≡ self.now.serial }
    {
        self.serial
    }

    /// The connection that it belongs to.
    pub fn conn(&self) -> ConnId
        ensures { result ≡ self.now.conn }
    {
        self.conn
    }

    /// Whether it has no queue name.
    pub fn is_plain(&self) -> bool
        ensures { result ≡ self.now.is_plain }
    {
        self.queue.is_none()
    }

    /// Whether it is a member of the queue group of this name.
    #[inline(always)]
    pub fn is_named(&self, name: &QueueName) -> bool
        ensures { result ≡ named name.now self.now.queue }
    {
        match &self.queue {
            None => false,
            Some(queue) => queue.bytes() == name.bytes(),
        }
    }

    /// Whether it closes with the message that reaches a maximum.
    pub fn is_limited(&self) -> bool
        ensures { result ≡ self.now.is_limited }
    {
        self.is_limited
    }

    /// The head of its messages.
    pub fn head(&self) -> &[u8]
        ensures same { result.now ≡ self.now.head }
        ensures some { 1 ≤ length result.now }
        ensures fits { length result.now ≤ MAX_HEAD }
    {
        &self.head
    }
}
