//! Why a frame of a route is refused.

ghost use Rattle.std.specs.Prelude.{◌≡◌};
ghost use Rattle.route_frames.specs.Faults.{route_fault_number};

use subj::Failure;

/// Why a frame of a route is refused. Causes are looked for in this order: the operation, the number of
/// fields, too many queue names, numbers that are no digits, numbers out of their ranges, all else.
/// (Profile.)
#[derive(Clone, Copy)]
pub enum RouteFault {
    /// The line is empty or begins with a blank, or its first field is no operation.
    UnknownOp = 30,
    /// Too few or too many fields, a field that is not what its place asks for, a text that is not the
    /// JSON that it has to be, a snapshot or a header block that is none, or a payload of another length
    /// than announced.
    BadArgs = 31,
    /// A number is out of its range.
    BadNumber = 32,
    /// More queue names than one publication may reach.
    TooManyQueues = 33,
}

impl RouteFault {
    /// The number that the router tells of this refusal, 30 to 33.
    pub fn number(self) -> u16
        ensures { result ≡ route_fault_number self }
    {
        self as u16
    }
}

impl From<RouteFault> for Failure<RouteFault> {
    ghost use Rattle.std.specs.Prelude.{◌≡◌};
    ghost use Rattle.subj.specs.declared.failures.Failure.TheVariants.{Refused};

    ghost from_gives = { λ fault failure. failure ≡ Refused fault };

    fn from(fault: RouteFault) -> Failure<RouteFault> {
        Failure::Refused(fault)
    }
}
