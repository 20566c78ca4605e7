//! Names of queue groups.

ghost use Rattle.std.specs.Prelude.{◌≡◌, ◌≤◌, length, None, IfOk, ⊤};
ghost use Rattle.subj.specs.Answers.{IsAnswered};
ghost use Rattle.subj.specs.Names.{queue_name_fault};

use crate::failures::Failure;
use crate::faults::NameFault;
use crate::limits::MAX_QUEUE_NAME;
use crate::names::text_fault;
use std::alloc::{AllocError, Global};
use std::marker::Model;

/// The name of a queue group: of its members one gets each message. (NATS documentation, "Queue
/// Groups".)
///
/// Seen as its bytes, 1 to [`MAX_QUEUE_NAME`] of any but NUL, space, tab, CR and LF. (Profile.)
pub struct QueueName {
    text: Vec<u8>,
}

/// One call, also for crates above: `docs/PROVING.md`, "What a proof costs".
impl Drop for QueueName {
    fn drop(self) {
        let QueueName { text: _ } = self;
    }
}

impl Model for QueueName {
    ghost use Rattle.std.specs.Prelude.{◌≡◌, ℕ, List, None};
    ghost use Rattle.subj.specs.Names.{queue_name_fault};

    ghost Value = { List ℕ };

    ghost view = { λ name. name.text.items };

    ghost invariant = { λ name. queue_name_fault name.text.items ≡ None };
}

impl QueueName {
    /// Why the bytes are no queue name, or None where they are one. Takes no memory.
    pub fn fault(text: &[u8]) -> Option<NameFault>
        ensures { result ≡ queue_name_fault text.now }
    {
        text_fault(text, MAX_QUEUE_NAME)
    }

    /// The queue name of these bytes. Refused just where [`QueueName::fault`] tells a cause, and by
    /// that.
    pub fn read(alloc: Global, text: &[u8]) -> Result<QueueName, Failure<NameFault>>
        ensures { IsAnswered (queue_name_fault text.now) (λ name. name ≡ text.now) ⊤ result }
    {
        if let Some(fault) = QueueName::fault(text) {
            return Err(Failure::Refused(fault));
        }
        let text = Vec::from_slice(alloc, text)?;
        Ok(QueueName { text })
    }

    /// The bytes of the name.
    #[tactic(auto, using(crate::proofs::Fits::queue_name_fits))]
    pub fn bytes(&self) -> &[u8]
        ensures same { result.now ≡ self.now }
        ensures valid { queue_name_fault self.now ≡ None }
        ensures fits { length result.now ≤ MAX_QUEUE_NAME }
    {
        self.text.as_slice()
    }

    /// A copy of the name.
    pub fn try_clone(&self, alloc: Global) -> Result<QueueName, AllocError>
        ensures { IfOk result (λ name. name ≡ self.now) }
    {
        let text = Vec::from_slice(alloc, &self.text)?;
        Ok(QueueName { text })
    }
}
