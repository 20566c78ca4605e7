//! What holds of every run: laws over the definitions, each the contract of a function that does nothing.

ghost use Rattle.thread_report.specs.HubAnswers as by_hub;
ghost use Rattle.thread_report.specs.ShardAnswers.{AreAnswered};

/// What stands on the tape of a run of a shard leads to the run's own states, and the lists at each step are those of
/// the step's answer: so a shard that does it again answers what the run answered.
pub fn tapes_are_answered()
    ensures { AreAnswered }
{}

/// The same of the hub and the sessions.
pub fn hub_tapes_are_answered()
    ensures { by_hub.AreAnswered }
{}
