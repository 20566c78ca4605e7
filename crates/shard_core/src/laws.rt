//! What holds of every shard, whatever its table is: laws over the definitions, each the contract of a function that does
//! nothing.

ghost use Rattle.std.specs.Prelude.{ℕ};
ghost use Rattle.shard_core.specs.AsLaw.{ShardFollows};
ghost use Rattle.shard_core.specs.Causes.{SubsStayHeld, SubsGoOn, ClosingsAreTold, ClosesByCause, RoomDecides, NumbersTellShards};
ghost use Rattle.shard_core.specs.EntryBytes.{EntriesAreMessages};
ghost use Rattle.shard_core.specs.Limits.{LimitsStay};
ghost use Rattle.shard_core.specs.Options.{OptionsAreChosen};
ghost use Rattle.shard_core.specs.Puts.{ArePut};
ghost use Rattle.shard_core.specs.ShardEvents.{Event};
ghost use Rattle.shard_core.specs.Shards.{State};

/// Each event of a shard that is not refused is a step of the cluster law's shard: what it opens, what it closes, and which
/// messages it places for which subscriptions. Jobs are begun in order of turns, and open serials stay apart.
pub fn shards_follow_the_law()
    ensures { ShardFollows }
{}

/// After each event that is not refused, what waits for a connection is what waited, without what its client took or all of it
/// if it went, and behind that just the entries that the event put there, in order.
pub fn entries_are_put()
    ensures { (s : State) (e : Event) (conn : ℕ) → ArePut s e conn }
{}

/// The bytes of a message's entry are those of the server's frame of that message, by the option of the connection.
pub fn entries_are_messages()
    ensures { EntriesAreMessages }
{}

/// Each connection has the limits `OUTBOX_ENTRIES` and `OUTBOX_BYTES`, whatever the shard was asked since it started.
pub fn limits_stay()
    ensures { LimitsStay }
{}

/// A connection takes headers just where it chose so last: no new one does, no connection changes it for another, and none is left
/// of one that goes.
pub fn options_are_chosen()
    ensures { OptionsAreChosen }
{}

/// Of every shard, whatever it was asked since it started: the serials of open subscriptions rise; each is of a connection that
/// takes events, under an id of its own; and each got fewer messages than its maximum, where it has one.
pub fn subs_stay_held()
    ensures { SubsStayHeld }
{}

/// What is open after an event was open before, with the messages that the event gave it counted and a maximum that it asks for
/// noted, or it is what the event opens.
pub fn subs_go_on()
    ensures { SubsGoOn }
{}

/// The answer to an event tells just those subscriptions closed that were open before it and are not after, each once.
pub fn closings_are_told()
    ensures { ClosingsAreTold }
{}

/// An open subscription closes at an event just where its connection goes or is shut, where a message of the event reaches its
/// maximum, or where it is unsubscribed from, at once or with as many messages delivered.
pub fn subs_close_by_cause()
    ensures { ClosesByCause }
{}

/// A connection takes no more events just where it is detached or shut: by a Shut, or for want of room. Each message that is owed
/// to a connection is given, unless that is shut.
pub fn room_decides()
    ensures { RoomDecides }
{}

/// The connections of shard s of K have the numbers s, s + K, s + 2K, .. alone, so that a number tells its shard. They rise in
/// order of attaching, each below the number of the next connection.
pub fn numbers_tell_shards()
    ensures { NumbersTellShards }
{}
