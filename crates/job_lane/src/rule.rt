//! The rule that the queue of a lane keeps: what was pushed is what was popped, and behind it what
//! waits.

use crate::runs::Run;
use crossbeam_queue::protocol::{Join, Lesson, Outcome, Protocol, Split};
use crossbeam_queue::{Pass, RuledArrayQueue};
use std::collections::LinkedList;

/// What a pass may do, and the runs that were pushed and popped by it. It stands in proofs alone, and
/// no value of it is made.
pub struct Log {
    pub may_push: bool,
    pub may_pop: bool,
    pub pushed: LinkedList<Run>,
    pub popped: LinkedList<Run>,
}

/// The rule.
pub struct InOrder;

impl Protocol<Run, Log> for InOrder {
    ghost use Rattle.std.specs.Prelude.{true, []};
    ghost use Rattle.job_lane.specs.Rule.{log, HoldsInOrder};

    ghost holds = { HoldsInOrder };

    ghost first = { log true true [] [] };
}

/// The first pass is split: one part may push and the other may pop. In the end they are joined.
pub struct Ends;

impl Split<Log> for Ends {
    ghost use Rattle.std.specs.Prelude.{true, false, []};
    ghost use Rattle.job_lane.specs.Rule.{log};

    ghost left = { λ whole. log true false whole.pushed [] };

    ghost right = { λ whole. log false true [] whole.popped };
}

impl Join<Log> for Ends {
    ghost use Rattle.std.specs.Prelude.{true, false, []};
    ghost use Rattle.job_lane.specs.Rule.{log};

    ghost both = { λ writer reader. log true true writer.pushed reader.popped };

    ghost spent = { log false false [] [] };
}

/// A push, and what a pass that may push learns: what waits is the end of what was pushed.
pub struct Pushing;

impl Outcome<Run, Log> for Pushing {
    ghost use Rattle.job_lane.specs.Rule.{Adds};

    ghost then = { Adds };
}

impl Lesson<Run, Log> for Pushing {
    ghost use Rattle.job_lane.specs.Rule.{WaitsAtEnd};

    ghost fact = { λ known waiting. WaitsAtEnd known.pushed waiting };
}

/// A pop by a pass that may pop alone. It learns nothing of what waits.
pub struct Popping;

impl Outcome<Run, Log> for Popping {
    ghost use Rattle.job_lane.specs.Rule.{Takes};

    ghost then = { Takes };
}

impl Lesson<Run, Log> for Popping {
    ghost use Rattle.std.specs.Prelude.{⊤};

    ghost fact = { λ known waiting. ⊤ };
}

/// A pop by a pass that may also push, and so learns what waits.
pub struct Draining;

impl Outcome<Run, Log> for Draining {
    ghost use Rattle.job_lane.specs.Rule.{Takes};

    ghost then = { Takes };
}

impl Lesson<Run, Log> for Draining {
    ghost use Rattle.std.specs.Prelude.{◌≡◌, ◌++◌};

    ghost fact = { λ known waiting. known.pushed ≡ known.popped ++ waiting };
}

/// The queue of a lane.
pub type RunQueue = RuledArrayQueue<Run, Log, InOrder>;

/// The right to push to the queue, to pop from it, or both. It has no bytes.
pub type RunPass = Pass<Run, Log>;
