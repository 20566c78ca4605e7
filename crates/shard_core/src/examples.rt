//! What a shard does in closed examples. The calls do nothing: their contracts are the examples.

ghost use Rattle.shard_core.specs.Examples.{ClosesTheSlow, FillsTheRoom, TellsOnce, ChoosesByTurn, ClaimsOnce, KeepsTheMaximum, SendsHeaders, FillsAnOutbox};

/// A connection without room for its message is shut with one last line, and all its subscriptions close.
pub fn the_slow_are_closed()
    ensures { ClosesTheSlow }
{}

/// A message that is placed takes room from the next one of the same job.
pub fn room_is_filled()
    ensures { FillsTheRoom }
{}

/// Each opening and each closing is told to the hub once.
pub fn openings_are_told()
    ensures { TellsOnce }
{}

/// Of the members that match, are permitted and have room the one at the place of the turn is chosen.
pub fn members_take_turns()
    ensures { ChoosesByTurn }
{}

/// A claim that is won places one message, and one that is lost none.
pub fn claims_place_once()
    ensures { ClaimsOnce }
{}

/// A subscription closes with the message that reaches its maximum, and a later maximum replaces an earlier one.
pub fn maxima_are_kept()
    ensures { KeepsTheMaximum }
{}

/// A message goes with its header block to a connection that takes headers, and to no other; its room is reckoned with it.
pub fn headers_are_sent()
    ensures { SendsHeaders }
{}

/// A connection has room for 1,024 messages; at the next one it is shut, and its client takes these and the last line.
pub fn an_outbox_is_filled()
    ensures { FillsAnOutbox }
{}
