//! What the clients of the hub's own server are interested in.

ghost use Rattle.std.specs.Prelude.{◌≡◌, ◌||◌, [], false, IfOk};
ghost use Rattle.std.specs.List.{list_any};
ghost use Rattle.interest.specs.Matches.{has_queue_match};
ghost use Rattle.interest.specs.Recounts.{IsRecountOf};
ghost use Rattle.interest.specs.Told.{are_refused, counts_told};
ghost use Rattle.hub_core.specs.InMind.{is_of_queue as of_queue};

use interest::{Local, Recount};
use std::alloc::{AllocError, Global};
use std::marker::Model;
use subj::{Delta, LentSubject};

/// Whether the delta is of a key with a queue name.
fn is_of_queue(delta: &Delta) -> bool
    ensures { result ≡ of_queue delta.now }
{
    delta.key.queue.is_some()
}

/// Whether a key with a queue name was counted, before these deltas or by them.
fn is_queued_by(is_queued: bool, deltas: &[Delta]) -> bool
    ensures { result ≡ (is_queued || list_any of_queue deltas.now) }
{
    if is_queued {
        return true;
    }
    for delta in deltas {
        if is_of_queue(delta) {
            return true;
        }
    }
    false
}

/// How many subscriptions of each key are open at the server.
///
/// Seen as the counts.
#[derive(Drop)]
pub(crate) struct OwnInterest {
    counts: Local,
    /// Whether a key with a queue name was ever counted.
    is_queued: bool,
}

impl Model for OwnInterest {
    ghost use Rattle.interest.specs.Counts.{Counts};
    ghost use Rattle.hub_core.specs.InMind.{IsQueuedRightly};

    ghost Value = { Counts };

    ghost view = { λ own. own.counts };

    ghost invariant = { λ own. IsQueuedRightly own.counts own.is_queued };
}

impl OwnInterest {
    /// No subscription is open.
    pub fn new(alloc: Global) -> Result<OwnInterest, AllocError>
        ensures { IfOk result (λ own. own ≡ []) }
    {
        let counts = Local::new(alloc)?;
        Ok(OwnInterest {
            counts,
            is_queued: false,
        })
    }

    /// The counts alone.
    pub fn counts(&self) -> &Local
        ensures { result.now ≡ self.now }
    {
        &self.counts
    }

    /// Whether a key with a queue name matches the subject.
    pub fn has_queue(&self, subject: &LentSubject<'_>) -> bool
        ensures { result ≡ has_queue_match subject.now self.now }
    {
        if !self.is_queued {
            return false;
        }
        self.counts.has_queue(subject)
    }

    /// Whether a key with a queue name was ever counted, so that one may want a subject.
    pub fn is_queued(&self) -> bool {
        self.is_queued
    }

    /// Counts deltas: [`Local::commit`].
    pub fn commit(&mut self, deltas: &[Delta], recount: Recount)
        requires taken { are_refused self.old deltas.now ≡ false }
        requires planned { IsRecountOf self.old deltas.now recount }
        ensures { self.new ≡ counts_told self.old deltas.now }
    {
        self.is_queued = is_queued_by(self.is_queued, deltas);
        self.counts.commit(deltas, recount);
    }
}
