//! What is noted of subjects: the receivers of some, for the jobs that come again, and the members of queue groups among those of one, for the claims
//! of one job.

ghost use Rattle.std.specs.Prelude.{List};
ghost use Rattle.sub_table.specs.declared.Subscription.{Subscription as Opened};
ghost use Rattle.shard_core.specs.Notes.{HoldNotes};

use crate::members::Members;
use crate::receivers::ManyReceivers;
use std::alloc::Global;

/// All that is noted of open subscriptions by a subject. It holds until one is opened or closed, or has another maximum.
pub struct Notes {
    pub members: Members,
    pub receivers: ManyReceivers,
}

/// One call for whoever lets it go: `docs/PROVING.md`, "What a proof costs".
impl Drop for Notes {
    fn drop(self) {
        let Notes {
            members: _,
            receivers: _,
        } = self;
    }
}

impl Notes {
    /// Nothing is noted.
    pub fn new(alloc: Global) -> Notes
        ensures { (subs : List Opened) → HoldNotes subs result }
    {
        Notes {
            members: Members::new(alloc),
            receivers: ManyReceivers::new(alloc),
        }
    }

    /// What is noted holds no longer. Takes no memory.
    pub fn forget(&mut self)
        ensures { (subs : List Opened) → HoldNotes subs self.new }
    {
        self.members.forget();
        self.receivers.forget();
    }
}
