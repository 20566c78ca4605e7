//! What a hub answers in closed examples. The calls do nothing: their contracts are the examples.

ghost use Rattle.hub_core.specs.Examples.{Weighs, Splits, NeedsRoom, KeepsTheWindow, CountsQueueNames, TakesFrames, HearsInOrder, ComesUp};

/// The word picks one of as many units as the weights make together.
pub fn weights_are_units()
    ensures { Weighs }
{}

/// A queue name goes to one server, and each peer that is owed a message gets one frame.
pub fn a_publication_is_split()
    ensures { Splits }
{}

/// A peer without room gets nothing, and is cut where changes can't be told.
pub fn frames_need_room()
    ensures { NeedsRoom }
{}

/// No turn is issued while a shard of the server is a window behind.
pub fn the_window_is_kept()
    ensures { KeepsTheWindow }
{}

/// A publication reaches 64 queue names, and not 65.
pub fn queue_names_are_counted()
    ensures { CountsQueueNames }
{}

/// Repeated frames, frames for another life and frames of an earlier life are refused.
pub fn frames_are_taken_once()
    ensures { TakesFrames }
{}

/// A change is heard where it is the next one; a snapshot stands for all before it.
pub fn changes_are_heard_in_order()
    ensures { HearsInOrder }
{}

/// What waited for a peer is gone when it comes up.
pub fn a_peer_comes_up()
    ensures { ComesUp }
{}
