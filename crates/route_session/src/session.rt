//! The sessions that stand, as a list.

ghost use Rattle.std.specs.Prelude.{◌≡◌, map, filter};
ghost use Rattle.std.specs.Option.{option_map};
ghost use Rattle.route_session.specs.State.{session_at as at, kept_for as for_peer, is_of_peer as of_peer, is_kept_at, has_session, number_kept};
ghost use Rattle.route_session.specs.Steps.{duplicate_fault, kept_at, is_not_of_peer, is_another};

use crate::faults::SessionFault;
use crate::offers::Offer;
use crate::session_ids::SessionId;
use std::marker::Model;
use subj::Incarnation;

/// A session that stands.
///
/// Seen as its fields.
#[derive(Clone, Copy)]
pub struct Session {
    /// Its number.
    pub number: u64,
    /// Of a dialed one, the place of the server that was dialed.
    pub dialed: Option<usize>,
    /// Of a dialed one, the serial of the dial; else 0.
    pub serial: u64,
    /// What was offered, once it is completed: it is then the kept one of its peer.
    pub kept: Option<Offer>,
}

impl Model for Session {
    ghost use Rattle.route_session.specs.State.{Session};

    ghost Value = { Session };

    ghost view = { λ session. record {
      number = session.number;
      dialed = session.dialed;
      serial = session.serial;
      kept = session.kept;
    } };

    ghost inverse = { λ value. record {
      number = value.number;
      dialed = value.dialed;
      serial = value.serial;
      kept = value.kept;
    } };
}

impl Session {
    /// The place of the peer whose kept session this is.
    pub fn peer(self) -> Option<usize>
        ensures { result ≡ option_map (λ offer. offer.peer) self.kept }
    {
        match self.kept {
            None => None,
            Some(offer) => Some(offer.peer),
        }
    }

    /// Whether this is the kept session of the peer at this place.
    fn is_of_peer(self, peer: usize) -> bool
        ensures { result ≡ of_peer peer self.kept }
    {
        self.peer() == Some(peer)
    }

    /// Whether this is a kept session with this incarnation of the peer at this place.
    fn is_kept_with(self, peer: usize, inc: Incarnation) -> bool
        ensures { result ≡ is_kept_at peer inc self.kept }
    {
        match self.kept {
            None => false,
            Some(offer) => offer.peer == peer && offer.inc == inc,
        }
    }

    /// The session, which keeps what is offered if it is the one of this number.
    fn kept_at(self, number: u64, offer: Offer) -> Session
        ensures { result ≡ kept_at number offer self }
    {
        if self.number != number {
            return self;
        }
        Session {
            kept: Some(offer),
            ..self
        }
    }
}

/// The session of this number.
pub fn session_at(standing: &[Session], number: u64) -> Option<Session>
    ensures { result ≡ at number standing.now }
{
    standing
        .iter()
        .find(|session| session.number == number)
        .copied()
}

/// The kept session of the peer at this place.
pub fn kept_for(standing: &[Session], peer: usize) -> Option<Session>
    ensures { result ≡ for_peer peer standing.now }
{
    standing
        .iter()
        .find(|session| session.is_of_peer(peer))
        .copied()
}

/// Whether a session with this incarnation of the peer at this place is kept.
pub fn is_kept(standing: &[Session], peer: usize, inc: Incarnation) -> bool
    ensures { result ≡ has_session peer inc standing.now }
{
    for session in standing {
        if session.is_kept_with(peer, inc) {
            return true;
        }
    }
    false
}

/// The number of the kept session of the peer at this place.
pub fn kept_id(standing: &[Session], peer: usize) -> Option<SessionId>
    ensures { result ≡ number_kept peer standing.now }
{
    match kept_for(standing, peer) {
        None => None,
        Some(session) => Some(SessionId::new(session.number)),
    }
}

/// Why what is offered is not kept: the session that is kept for its peer is as good or better.
pub fn duplicate(standing: &[Session], offer: Offer) -> Option<SessionFault>
    ensures { result ≡ duplicate_fault offer (for_peer offer.peer standing.now) }
{
    let session = kept_for(standing, offer.peer)?;
    let kept = session.kept?;
    if offer.is_better(kept) {
        return None;
    }
    Some(SessionFault::Duplicate {
        kept: SessionId::new(session.number),
    })
}

/// The kept session of the peer at this place ends.
pub fn drop_kept(standing: &mut Vec<Session>, peer: usize)
    ensures { standing.new.items ≡ filter (is_not_of_peer peer) standing.old.items }
{
    standing.retain(|session| !session.is_of_peer(peer));
}

/// The session of this number ends.
pub fn end(standing: &mut Vec<Session>, number: u64)
    ensures { standing.new.items ≡ filter (is_another number) standing.old.items }
{
    standing.retain(|session| session.number != number);
}

/// What is offered is kept by the session of this number.
fn keep(standing: &mut [Session], number: u64, offer: Offer)
    ensures { standing.new ≡ map (kept_at number offer) standing.old }
{
    for session in standing {
        *session = session.kept_at(number, offer);
    }
}

/// What is offered is kept by the session of this number, and the kept session of its peer ends.
pub fn complete(standing: &mut Vec<Session>, number: u64, offer: Offer)
    ensures { standing.new.items
        ≡ map (kept_at number offer) (filter (is_not_of_peer offer.peer) standing.old.items) }
{
    drop_kept(standing, offer.peer);
    keep(standing, number, offer);
}
