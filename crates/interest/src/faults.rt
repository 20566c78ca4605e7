//! Why interest is refused.

ghost use Rattle.std.specs.Prelude.{◌≡◌};
ghost use Rattle.interest.specs.Faults.{interest_fault_number};

/// Why a delta or a peer's change is refused. (Profile.)
#[derive(Clone, Copy)]
pub enum InterestFault {
    /// A change or a snapshot is not newer than what is known of the peer.
    Late = 40,
    /// A change is not the next one.
    Gap = 41,
    /// What is withdrawn is not there.
    UnknownKey = 42,
    /// There would be too many keys, too many subscriptions of one key, or keys of too many bytes.
    TooManyKeys = 43,
}

impl InterestFault {
    /// The number that the router tells of this refusal.
    pub fn number(self) -> u16
        ensures { result ≡ interest_fault_number self }
    {
        self as u16
    }
}
