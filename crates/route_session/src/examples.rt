//! What sessions answer in closed examples. The calls do nothing: their contracts are the examples.

ghost use Rattle.route_session.specs.Examples.{DialsCross, KeepsTheBetter, RefusesInOrder};

/// Two servers that dial each other at the same time keep the session of the one with the smaller place.
pub fn crossed_dials_keep_one_session()
    ensures { DialsCross }
{}

/// A session is refused where the kept one is as good or better.
pub fn the_worse_session_is_refused()
    ensures { KeepsTheBetter }
{}

/// Of several causes the first is told.
pub fn refusals_come_in_order()
    ensures { RefusesInOrder }
{}
