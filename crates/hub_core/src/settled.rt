//! Whether a hub has nothing left to hear, and can go on.

ghost use Rattle.std.specs.Prelude.{◌≡◌, slice_get};
ghost use Rattle.hub_core.specs.Settled.{knows_at, can_number as has_numbers, goes_on as can_go_on, has_few_names as are_few};

use crate::hub::Hub;
use crate::publishing::gather_names;
use interest::FoundNames;
use subj::{LentSubject, MAX_COUNTER};

impl Hub {
    /// Whether the other hub's server, at this place, is known as it runs: it is up in its incarnation, what was heard of its
    /// interest is just what the other hub counts, and there is room for a frame to it. Takes no memory.
    pub fn knows(&self, place: usize, other: &Hub) -> bool
        ensures { result
            ≡ knows_at (slice_get self.now.state.peers place) other.now.server.inc
            other.now.state.counts }
    {
        match self.peers.get(place) {
            None => false,
            Some(peer) => peer.is_known_as(other.server.inc(), other.counts.counts()),
        }
    }

    /// Whether one more turn and one more publication have a number.
    pub fn can_number(&self) -> bool
        ensures { result ≡ has_numbers self.now.state }
    {
        self.issued.get() < MAX_COUNTER && self.published < MAX_COUNTER
    }

    /// Whether it does not drain, and one more turn and one more publication have a number.
    pub fn goes_on(&self) -> bool
        ensures { result ≡ can_go_on self.now.state }
    {
        !self.draining && self.can_number()
    }

    /// Whether no more queue names want the subject than a publication may have. Takes no memory.
    pub fn has_few_names(&self, subject: &LentSubject<'_>) -> bool
        ensures { result ≡ are_few self.now.server self.now.state subject.now }
    {
        let mut names = FoundNames::new();
        match gather_names(
            &self.server,
            self.counts.counts(),
            &self.peers,
            subject,
            &mut names,
        ) {
            Ok(()) => true,
            Err(_) => false,
        }
    }
}
