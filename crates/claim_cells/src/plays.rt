//! The rule of the words, and what each kind of step on them tells.

ghost use Rattle.claim_cells.specs.Rule.{Kept, whole_view, rest_of, first_of_view, joined_view, spent_view};
ghost use Rattle.claim_cells.specs.Steps.{Looks, Issues, Sees, Claims, Loses, Finishes};
ghost use Rattle.subj.specs.declared.limits.TheConstants.{MAX_COUNTER, MAX_QUEUE_NAMES, WINDOW};

use crate::parts::View;
use atomic_table::{Join, Play, Split, TableRule};

/// The rule between any two steps. It is told the number of shards.
pub struct Ruled;

impl TableRule<(), View, u64> for Ruled {
    ghost holds = { Kept MAX_COUNTER WINDOW MAX_QUEUE_NAMES };

    ghost first = { whole_view };
}

/// The hub loads the last turn that a shard finished.
pub(crate) struct Look;

impl Play<(), View> for Look {
    ghost then = { Looks MAX_COUNTER };
}

/// The hub stores the next turn as issued.
pub(crate) struct Issue;

impl Play<(), View> for Issue {
    ghost then = { Issues };
}

/// A shard loads the last turn issued.
pub(crate) struct See;

impl Play<(), View> for See {
    ghost then = { Sees MAX_COUNTER };
}

/// A shard raises a claim word to its turn.
pub(crate) struct Claim;

impl Play<(), View> for Claim {
    ghost then = { Claims WINDOW MAX_QUEUE_NAMES };
}

/// A shard loads a claim word, to see whether it is lost.
pub(crate) struct Lose;

impl Play<(), View> for Lose {
    ghost then = { Loses WINDOW MAX_QUEUE_NAMES };
}

/// A shard stores its turn as finished.
pub(crate) struct Finish;

impl Play<(), View> for Finish {
    ghost then = { Finishes };
}

/// The first shard's part goes to a seat of its own.
pub(crate) struct FirstPart;

impl Split<View> for FirstPart {
    ghost left = { rest_of };

    ghost right = { first_of_view };
}

/// The shards' parts of a second seat go to the first.
pub(crate) struct Both;

impl Join<View> for Both {
    ghost both = { joined_view };

    ghost spent = { spent_view };
}
