//! Completed sessions, and which of two is the better one.

ghost use Rattle.std.specs.Prelude.{◌≡◌};
ghost use Rattle.route_session.specs.Best.{is_better as better};

use std::marker::Model;
use subj::Incarnation;

/// What a completed session is, to tell which of two with one peer is the better one. (Profile.)
///
/// Seen as its fields.
#[derive(Clone, Copy)]
pub struct Offer {
    /// The place of the peer.
    pub peer: usize,
    /// The peer's incarnation.
    pub inc: Incarnation,
    /// The place of the server that dialed.
    pub dialer: usize,
    /// The serial of the dial there.
    pub serial: u64,
}

impl Model for Offer {
    ghost use Rattle.route_session.specs.Best.{Offer};

    ghost Value = { Offer };

    ghost view = { λ offer. record {
      peer = offer.peer;
      inc = offer.inc;
      dialer = offer.dialer;
      serial = offer.serial;
    } };

    ghost inverse = { λ value. record {
      peer = value.peer;
      inc = value.inc;
      dialer = value.dialer;
      serial = value.serial;
    } };
}

impl Offer {
    /// Whether this one is better: of the greater incarnation of the peer, then of the dialer with the
    /// smaller place, then of the greater serial. Of equal ones none is.
    pub fn is_better(self, old: Offer) -> bool
        ensures { result ≡ better self old }
    {
        let (new_inc, old_inc) = (self.inc.get(), old.inc.get());
        old_inc < new_inc
            || (new_inc == old_inc
                && (self.dialer < old.dialer
                    || (self.dialer == old.dialer && old.serial < self.serial)))
    }
}
