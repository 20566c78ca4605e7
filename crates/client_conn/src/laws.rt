//! Laws of the asks, as the contract of a function that does nothing.

ghost use Rattle.client_conn.specs.Laws.{FollowsBytesAndAnswers, AsksForStreamCommands};

/// What stands to be asked is a function of the bytes and of the answers: it does not matter in what parts the bytes came, and
/// when among them the answers. Of bytes alone, `INFO` is asked for and then what their stream commands ask for, in order.
pub fn asks_follow_bytes_and_answers()
    ensures follows { FollowsBytesAndAnswers }
    ensures commands { AsksForStreamCommands }
{}
