//! What tells sessions apart.

ghost use Rattle.std.specs.Prelude.{◌≡◌};

use std::marker::Model;

/// A session with a peer, by its number. A server counts those that it dials and those that it accepts
/// together, from 1. (Profile.)
///
/// Seen as its number.
#[derive(Clone, Copy, Debug, PartialEq, Eq)]
pub struct SessionId {
    number: u64,
}

impl Model for SessionId {
    ghost use Rattle.std.specs.Prelude.{ℕ};

    ghost Value = { ℕ };

    ghost view = { λ session. session.number };

    ghost inverse = { λ number. record { number = number } };
}

impl SessionId {
    pub fn new(number: u64) -> SessionId
        ensures { result ≡ number }
    {
        SessionId { number }
    }

    pub fn get(self) -> u64
        ensures { result ≡ self }
    {
        self.number
    }
}
