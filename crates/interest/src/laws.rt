//! What follows from the definitions, for the crates above.

ghost use Rattle.interest.specs.Laws.{StaysWithin, StepsAgree, RunsAgree, IsCounting, CanBeTold, ViewsAreOfOrigin};
ghost use Rattle.interest.specs.Told.{CountsOpen};

/// The counts are those of the open: after deltas that were all taken, the number of a key is that of
/// its openings less that of its closings.
pub fn counts_are_of_the_open()
    ensures { CountsOpen }
{}

/// Counts and the changes told of them agree. Counts that take a delta stay within their limits, and what
/// peers are told of it makes of the view that they were told the view that the counts are told as then.
/// So what peers know after all deltas from the start is what the counts are told as.
pub fn counts_and_changes_agree()
    ensures stays { StaysWithin }
    ensures step { StepsAgree }
    ensures run { RunsAgree }
{}

/// Counts are the numbers of open subscriptions: an opening adds one to its key and a closing takes one.
/// Where the open subscriptions are within the limits of a server, no opening is refused, and no closing of
/// one that is open.
pub fn openings_are_counted()
    ensures { IsCounting }
{}

/// Counts within their limits can always be told to a peer: all of them as a snapshot, and each key alone.
pub fn counts_can_be_told()
    ensures { CanBeTold }
{}

/// A view that was told what one incarnation made is what that incarnation has told by its first changes, as
/// many as the mark says; whatever was late, lost, repeated or out of order.
pub fn views_are_of_their_origin()
    ensures { ViewsAreOfOrigin }
{}
