//! A local publication: it owes the server's own shards a job, and nothing else.

ghost use Rattle.std.specs.Prelude.{◌≡◌, ◌&&◌, ◌||◌, true, nat_lt, [], length, IfSome};
ghost use Rattle.interest.specs.Matches.{has_plain_match};
ghost use Rattle.hub_core.specs.Choice.{is_eligible as eligible};
ghost use Rattle.hub_core.specs.Local.{OwesLocalJob, wants_plain_from};

use crate::hub::Hub;
use crate::peers::Peer;
use crate::publishing::is_eligible;
use subj::{LentSubject, QueueNames, ServerIdentity};

/// Among how many keys a subject is looked for at little cost. (Profile.)
const FEW_KEYS: usize = 64;

/// Whether the peer is eligible, and has a plain key that matches the subject.
fn wants_plain(
    server: &ServerIdentity,
    place: usize,
    peer: &Peer,
    subject: &LentSubject<'_>,
) -> bool
    ensures { result
        ≡ (eligible server.now place peer.now
        && has_plain_match subject.now peer.now.heard.keys) }
{
    is_eligible(server, place, peer) && peer.heard.has_plain(subject)
}

/// Whether some eligible peer has a plain key that matches the subject. Takes no memory.
fn is_wanted_elsewhere(server: &ServerIdentity, peers: &[Peer], subject: &LentSubject<'_>) -> bool
    ensures { result ≡ wants_plain_from server.now subject.now 0 peers.now }
{
    for (place, peer) in peers.iter().enumerate() {
        if wants_plain(server, place, peer, subject) {
            return true;
        }
    }
    false
}

impl Hub {
    /// Whether no queue name wants the subject, and no peer is owed a frame of a publication on it.
    fn is_unwanted(&self, subject: &LentSubject<'_>) -> bool
        ensures { result ≡ true → OwesLocalJob self.now.server self.now.state subject.now [] }
    {
        !self.is_named(subject) && !is_wanted_elsewhere(&self.server, &self.peers, subject)
    }

    /// Whether some subscription of the server's own clients, one without a queue name, may want the subject: it does, or there are more than
    /// [`FEW_KEYS`] keys, which are not searched for it.
    pub fn may_be_wanted_here(&self, subject: &LentSubject<'_>) -> bool
        ensures { result
            ≡ (nat_lt 64 (length self.now.state.counts)
            || has_plain_match subject.now self.now.state.counts) }
    {
        let counts = self.counts.counts();
        counts.len() > FEW_KEYS || counts.has_plain(subject)
    }

    /// The queue names of a publication on this subject, where it owes the server's own shards a job with just these, and nothing else:
    /// just they want it, the server serves each of them itself, and no peer is owed a frame. None where it may owe more, for want of
    /// memory, and where names want it that are not in mind.
    pub fn local_names(&self, subject: &LentSubject<'_>) -> Option<QueueNames>
        ensures { IfSome result (λ queues.
            OwesLocalJob self.now.server self.now.state subject.now queues) }
    {
        if let Some(audience) = self.audience_of(subject) {
            if let Some(names) = self.names_alone(subject, audience) {
                return names.try_clone().ok();
            }
            if !audience.names.as_slice().is_empty() {
                return None;
            }
        }
        if self.is_unwanted(subject) {
            return Some(QueueNames::new());
        }
        None
    }
}
