//! What a numbered frame says.

ghost use Rattle.std.specs.Prelude.{◌≡◌, IfOk};

use crate::snapshots::{SnapshotKeys, WeightedKey};
use std::alloc::{AllocError, Global};
use subj::{Key, Message, QueueNames};

/// What a numbered frame says. (NATS documentation, "Cluster Protocol": `RS+`, `RS-`, `RMSG`;
/// snapshots, and `RHMSG` for a publication with headers: profile.)
#[derive(Drop)]
pub enum Body {
    /// A key is there, or has another weight now.
    Plus(WeightedKey),
    /// A key is gone.
    Minus(Key),
    /// All keys that are there.
    Snapshot(SnapshotKeys),
    /// A publication, and the queue names that the server that gets it must serve.
    Msg {
        message: Message,
        queues: QueueNames,
    },
}

impl Body {
    /// A copy that shares the payload.
    pub fn try_clone(&self, alloc: Global) -> Result<Body, AllocError>
        ensures { IfOk result (λ copy. copy ≡ self.now) }
    {
        match self {
            Body::Plus(key) => Ok(Body::Plus(key.try_clone(alloc)?)),
            Body::Minus(key) => Ok(Body::Minus(key.try_clone(alloc)?)),
            Body::Snapshot(keys) => Ok(Body::Snapshot(keys.try_clone(alloc)?)),
            Body::Msg { message, queues } => {
                let message = message.try_clone()?;
                let queues = queues.try_clone()?;
                Ok(Body::Msg { message, queues })
            }
        }
    }
}
