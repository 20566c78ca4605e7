//! Laws of jobs that claim one queue name.

ghost use Rattle.shard_core.specs.ClaimRuns.{ClaimsAreSteps, RoomsGoOn};

/// A job that goes to nobody at Begin and claims one queue name, in the turn behind the last that was finished, is begun, tried and
/// ended, whether its claim is won or not.
pub fn claims_are_steps()
    ensures { ClaimsAreSteps }
{}

/// Where a connection has room for some entries, one of them fits, and wherever it is put there is room for the others.
pub fn rooms_go_on()
    ensures { RoomsGoOn }
{}
