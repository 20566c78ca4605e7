//! A publication on its way through a server.

ghost use Rattle.std.specs.Prelude.{◌≡◌, [], true, All, IfOk, OnErr};
ghost use Rattle.subj.specs.QueueNames.{IsQueueName, are_rising as rising, is_before_first as before_first, are_queue_names, queue_names_of};

use crate::identities::{ConnId, PubId};
use crate::limits::MAX_QUEUE_NAMES;
use crate::messages::Message;
use crate::queue_names::QueueName;
use crate::turns::Turn;
use std::alloc::{AllocError, Global};
use std::marker::Model;
use std::sync::Arc;

/// Whether the name stands before the first of the others, in the order of bytes.
fn is_before_first(name: &QueueName, others: &[QueueName]) -> bool
    ensures same { result ≡ before_first name.now others.now }
    ensures valid { IsQueueName name.now }
{
    let bytes = name.bytes();
    match others.first() {
        None => true,
        Some(other) => bytes.cmp(other.bytes()).is_lt(),
    }
}

/// Whether the names stand in strictly rising order of bytes.
fn are_rising(names: &[QueueName]) -> bool
    ensures same { result ≡ rising names.now }
    ensures valid { result ≡ true → All IsQueueName names.now }
{
    let mut names = names;
    while let Some((name, others)) = names.split_first() {
        if !is_before_first(name, others) {
            return false;
        }
        names = others;
    }
    true
}

/// Names that are shared.
///
/// Seen as their list.
#[derive(Drop)]
struct NameList {
    names: Vec<QueueName>,
}

impl Model for NameList {
    ghost use Rattle.std.specs.Prelude.{ℕ, List};

    ghost Value = { List (List ℕ) };

    ghost view = { λ list. list.names.items };
}

/// Queue names that a server must serve for one publication, in strictly rising order of bytes, at
/// most [`MAX_QUEUE_NAMES`]; they are counted from 0. (Profile.)
///
/// Seen as the list of the names. A copy shares them, and takes no memory.
pub struct QueueNames {
    /// None where there are no names.
    names: Option<Arc<NameList, Global>>,
}

/// One call, also for crates above: `docs/PROVING.md`, "What a proof costs".
impl Drop for QueueNames {
    fn drop(self) {
        let QueueNames { names: _ } = self;
    }
}

impl Model for QueueNames {
    ghost use Rattle.std.specs.Prelude.{ℕ, List};
    ghost use Rattle.subj.specs.QueueNames.{AreQueueNames};
    ghost use Rattle.std.specs.Prelude.{unwrap_or, []};
    ghost use Rattle.std.specs.Option.{option_map};
    ghost use Rattle.std.specs.Arc.{arc_value};

    ghost Value = { List (List ℕ) };

    ghost view = { λ names. unwrap_or (option_map arc_value names.names) [] };

    ghost invariant = { λ names. AreQueueNames (unwrap_or (option_map arc_value names.names) []) };
}

impl QueueNames {
    /// No names. Takes no memory.
    pub fn new() -> QueueNames
        ensures { result ≡ [] }
    {
        QueueNames { names: None }
    }

    /// None just where the names are not in strictly rising order, or are more than
    /// [`MAX_QUEUE_NAMES`]. Want of memory comes only where they are neither.
    pub fn from_names(
        alloc: Global,
        names: Vec<QueueName>,
    ) -> Result<Option<QueueNames>, AllocError>
        ensures names { IfOk result (λ made. made ≡ queue_names_of names.items) }
        ensures err { OnErr result (are_queue_names names.items ≡ true) }
    {
        if names.len() as u64 > MAX_QUEUE_NAMES || !are_rising(&names) {
            return Ok(None);
        }
        if names.is_empty() {
            return Ok(Some(QueueNames::new()));
        }
        let names = Arc::new(alloc, NameList { names })?;
        Ok(Some(QueueNames { names: Some(names) }))
    }

    /// The names, in order.
    pub fn as_slice(&self) -> &[QueueName]
        ensures same { result.now ≡ self.now }
        ensures valid { are_queue_names self.now ≡ true }
        ensures names { All IsQueueName self.now }
    {
        match &self.names {
            None => &[],
            Some(list) => list.names.as_slice(),
        }
    }

    /// A copy that shares the names.
    pub fn try_clone(&self) -> Result<QueueNames, AllocError>
        ensures { IfOk result (λ names. names ≡ self.now) }
    {
        let names = match &self.names {
            None => None,
            Some(names) => Some(Arc::try_clone(names)?),
        };
        Ok(QueueNames { names })
    }
}

/// A publication that a server works off: each of its shards places it for its own subscriptions, and
/// each queue name is served by one shard. (Profile.)
#[derive(Drop)]
pub struct Job {
    /// The place of the job in the order of the server's jobs.
    pub turn: Turn,
    /// Which publication it is.
    pub id: PubId,
    /// What was published.
    pub message: Message,
    /// The connection that published it, where that is one of this server.
    pub publisher: Option<ConnId>,
    /// Whether the publisher's own subscriptions may get it.
    pub echo: bool,
    /// The queue names that this server must serve.
    pub queues: QueueNames,
}

impl Job {
    /// A copy that shares the message and the queue names.
    pub fn try_clone(&self) -> Result<Job, AllocError>
        ensures { IfOk result (λ job. job ≡ self.now) }
    {
        let message = self.message.try_clone()?;
        let queues = self.queues.try_clone()?;
        Ok(Job {
            turn: self.turn,
            id: self.id,
            message,
            publisher: self.publisher,
            echo: self.echo,
            queues,
        })
    }
}
