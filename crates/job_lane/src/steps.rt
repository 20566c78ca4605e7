//! The steps that the ends of a lane make at its queue, each by a pass that may.

ghost use Rattle.std.specs.Prelude.{◌≡◌, ◌+◌, ◌<◌, ◌≤◌, true, false, List, MatchOption, vec_len, vec_capacity, [], ◌∷◌, ◌++◌, length, IfOk, IfSome, IfNone, OnOk, IfErr};
ghost use Rattle.crossbeam_queue.specs.Passes.{view, IsPassOf, IsSamePass, ruled_capacity};
ghost use Rattle.subj.specs.declared.jobs.Job.{Job};
ghost use Rattle.job_lane.specs.Ends.{HadRoom, LackedRoom};
ghost use Rattle.job_lane.specs.Rule.{AreLastLengths, IsPushing, IsPopping, log, total_of};
ghost use Rattle.job_lane.specs.Runs.{GoesOnIn, IsFirstTurn, IsGiving, IsTaken, jobs_given, jobs_of, left_of, not_given};
ghost use Rattle.job_lane.specs.Turns.{AreNumberedBehind};

use crate::counts::Count;
use crate::rule::{Draining, Ends, Popping, Pushing, RunPass, RunQueue};
use crate::runs::Run;
use std::alloc::{AllocError, Global};
use std::sync::Wait;
use subj::Turn;

/// A new queue that holds up to `cap` runs, the pass that may push to it, and the one that may pop from it. Required: `cap` is not 0.
#[tactic(auto, using(crate::proofs::Moves::forks, crate::proofs::Moves::begins))]
pub fn new_queue(alloc: Global, cap: usize) -> Result<(RunQueue, RunPass, RunPass), AllocError>
    requires { 0 < cap }
    ensures capacity { IfOk result (λ new. ruled_capacity new.0 ≡ cap) }
    ensures of_one { IfOk result (λ new. new.1.table_id ≡ new.2.table_id) }
    ensures pushing { IfOk result (λ new.
        IsPassOf new.0 new.1 × IsPushing (view new.1) × ((view new.1).pushed ≡ [])) }
    ensures popping { IfOk result (λ new.
        IsPassOf new.0 new.2 × IsPopping (view new.2) × ((view new.2).popped ≡ [])) }
{
    let (queue, mut pass) = RunQueue::ruled(alloc, cap)?;
    let reader_pass = queue.another::<Ends>(&mut pass);
    Ok((queue, pass, reader_pass))
}

/// The two passes of the queue as one, which may push and pop.
#[tactic(auto, using(crate::proofs::Moves::merges))]
pub fn joined(queue: &RunQueue, mut pass: RunPass, reader_pass: RunPass) -> RunPass
    requires passes { IsPassOf queue.now pass × IsPassOf queue.now reader_pass }
    requires pushing { IsPushing (view pass) }
    requires popping { IsPopping (view reader_pass) }
    ensures pass { IsPassOf queue.now result }
    ensures both { view result ≡ log true true (view pass).pushed (view reader_pass).popped }
{
    queue.absorb::<Ends>(&mut pass, reader_pass);
    pass
}

/// Whether so many jobs more can wait beside those of the last runs pushed. The runs that were taken
/// meanwhile are counted no longer.
pub fn has_room<R: Wait>(
    rt: &R,
    queue: &RunQueue,
    pass: &mut RunPass,
    count: &mut Count,
    jobs: usize,
) -> bool
    requires pass { IsPassOf queue.now pass.old }
    requires pushing { IsPushing (view pass.old) }
    requires counted { AreLastLengths (view pass.old).pushed count.old.lengths }
    ensures pass { IsSamePass pass.old pass.new × (view pass.new ≡ view pass.old) }
    ensures counted { AreLastLengths (view pass.old).pushed count.new.lengths }
    ensures most { count.new.most ≡ count.old.most }
    ensures room { result ≡ true
        → (total_of count.new.lengths + jobs ≤ count.old.most)
        × HadRoom count.old.most (jobs_of (view pass.old).pushed) jobs }
    ensures none { result ≡ false
        → LackedRoom count.old.most (jobs_of (view pass.old).pushed) jobs }
{
    if count.has_room(jobs) {
        return true;
    }
    let waiting = queue.len_as::<Pushing, R>(rt, pass);
    count.keep_last(waiting);
    count.has_room(jobs)
}

/// Puts the run behind all others. It comes back only where as many runs waited as the queue holds.
pub fn push_by<R: Wait>(rt: &R, queue: &RunQueue, pass: &mut RunPass, run: Run) -> Result<(), Run>
    requires pass { IsPassOf queue.now pass.old }
    requires pushing { IsPushing (view pass.old) }
    requires some { 0 < length run }
    requires turns { AreNumberedBehind (length (jobs_of (view pass.old).pushed)) run }
    ensures pass { IsPassOf queue.now pass.new }
    ensures pushing { IsPushing (view pass.new) }
    ensures ok { OnOk result ((view pass.new).pushed ≡ (view pass.old).pushed ++ run ∷ []) }
    ensures err { IfErr result (λ back.
        (back ≡ run)
        × ((view pass.new).pushed ≡ (view pass.old).pushed)
        × LackedRoom (ruled_capacity queue.now) (jobs_of (view pass.old).pushed) (length run)) }
{
    queue.push_as::<Pushing, R>(rt, pass, run)
}

/// Puts the run behind all others and counts it, where there is room for its jobs. It comes back only where there was none.
#[tactic(auto, using(crate::proofs::Lists::last_snoc, crate::proofs::Lists::jobs_snoc))]
pub fn push_counted<R: Wait>(
    rt: &R,
    queue: &RunQueue,
    pass: &mut RunPass,
    count: &mut Count,
    run: Run,
) -> Result<(), Run>
    requires pass { IsPassOf queue.now pass.old }
    requires pushing { IsPushing (view pass.old) }
    requires most { count.old.most ≡ ruled_capacity queue.now }
    requires counted { AreLastLengths (view pass.old).pushed count.old.lengths }
    requires turns { AreNumberedBehind (length (jobs_of (view pass.old).pushed)) run }
    ensures pass { IsPassOf queue.now pass.new }
    ensures pushing { IsPushing (view pass.new) }
    ensures most { count.new.most ≡ count.old.most }
    ensures counted { AreLastLengths (view pass.new).pushed count.new.lengths }
    ensures ok { OnOk result
        ((jobs_of (view pass.new).pushed ≡ jobs_of (view pass.old).pushed ++ run)
        × HadRoom count.old.most (jobs_of (view pass.old).pushed) (length run)) }
    ensures err { IfErr result (λ back.
        (back ≡ run)
        × ((view pass.new).pushed ≡ (view pass.old).pushed)
        × LackedRoom count.old.most (jobs_of (view pass.old).pushed) (length run)) }
{
    let jobs = run.len();
    if !has_room(rt, queue, pass, count, jobs) {
        return Err(run);
    }
    push_by(rt, queue, pass, run)?;
    count.add(jobs);
    Ok(())
}

/// Takes the first run.
pub fn pop_by<R: Wait>(rt: &R, queue: &RunQueue, pass: &mut RunPass) -> Option<Run>
    requires pass { IsPassOf queue.now pass.old }
    requires popping { IsPopping (view pass.old) }
    ensures pass { IsPassOf queue.now pass.new }
    ensures popping { IsPopping (view pass.new) }
    ensures came { MatchOption result ((view pass.new).popped ≡ (view pass.old).popped)
        (λ run. (view pass.new).popped ≡ (view pass.old).popped ++ run ∷ []) }
{
    queue.pop_as::<Popping, R>(rt, pass)
}

/// Goes on to the next job of the run, where it has one.
fn go_on(run: &mut Option<Run>) -> bool
    ensures more { result ≡ true → GoesOnIn run.old run.new }
    ensures last { result ≡ false → (run.new ≡ run.old) × (not_given run.old ≡ []) }
{
    match run {
        Some(run) => run.go_on(),
        None => false,
    }
}

/// Leaves so many of the run's first jobs behind. Required: it has more, or there is no run and they are none.
pub fn leave(run: &mut Option<Run>, count: usize)
    requires { count ≤ length (not_given run.old) }
    ensures { run.new ≡ left_of count run.old }
{
    if let Some(run) = run {
        run.leave(count);
    }
}

/// The turn of the run's first job.
fn first_turn(run: &Option<Run>) -> Option<Turn>
    ensures { IsFirstTurn run.now result }
{
    let jobs = run.as_ref()?.jobs();
    Some(jobs.get(0).turn())
}

/// Takes the next job of the run into hand, or the first one of the run that waits behind it: its turn.
pub fn take_next<R: Wait>(
    rt: &R,
    queue: &RunQueue,
    pass: &mut RunPass,
    run: &mut Option<Run>,
) -> Option<Turn>
    requires pass { IsPassOf queue.now pass.old }
    requires popping { IsPopping (view pass.old) }
    requires giving { IsGiving (jobs_of (view pass.old).popped) run.old }
    ensures pass { IsPassOf queue.now pass.new }
    ensures table { pass.new.table_id ≡ pass.old.table_id }
    ensures popping { IsPopping (view pass.new) }
    ensures giving { IsGiving (jobs_of (view pass.new).popped) run.new }
    ensures taken { IsTaken (jobs_given (jobs_of (view pass.old).popped) run.old)
        (jobs_given (jobs_of (view pass.new).popped) run.new) (not_given run.old) run.new result }
{
    if go_on(run) {
        return first_turn(run);
    }
    *run = pop_by(rt, queue, pass);
    first_turn(run)
}

/// What is left of the run behind its first job.
fn behind_first(run: Option<Run>) -> Option<Run>
    ensures some { IfSome result (λ left. left ≡ not_given run) }
    ensures none { IfNone result (not_given run ≡ []) }
{
    let mut run = run;
    if go_on(&mut run) { run } else { None }
}

/// Puts what is left of the run behind its first job at the end of the list. Takes no memory. Required: the list has room for it.
#[tactic(auto, using(crate::proofs::Lists::jobs_snoc))]
pub fn put_behind_first(runs: &mut Vec<Run>, run: Option<Run>)
    requires { vec_len runs.old < vec_capacity runs.old }
    ensures jobs { jobs_of runs.new.items ≡ jobs_of runs.old.items ++ not_given run }
    ensures room { (vec_capacity runs.new ≡ vec_capacity runs.old)
        × (vec_len runs.new ≤ vec_len runs.old + 1) }
{
    if let Some(left) = behind_first(run) {
        runs.push_reserved(left);
    }
}

/// Moves the first run that waits to the end of the list, by a pass that may push and pop. Takes no memory. Required: one waits, and the list has
/// room for it.
fn move_first<R: Wait>(rt: &R, queue: &RunQueue, pass: &mut RunPass, runs: &mut Vec<Run>)
    requires pass { IsPassOf queue.now pass.old }
    requires both { ((view pass.old).may_push ≡ true) × ((view pass.old).may_pop ≡ true) }
    requires waits { length (view pass.old).popped < length (view pass.old).pushed }
    requires room { vec_len runs.old < vec_capacity runs.old }
    ensures pass { IsPassOf queue.now pass.new }
    ensures room { (vec_capacity runs.new ≡ vec_capacity runs.old)
        × (vec_len runs.new ≡ vec_len runs.old + 1) }
    ensures moved { (run : List Job)
        × (runs.new.items ≡ runs.old.items ++ run ∷ [])
        × (view pass.new
        ≡ log true true (view pass.old).pushed ((view pass.old).popped ++ run ∷ [])) }
{
    match queue.pop_as::<Draining, R>(rt, pass) {
        Some(run) => runs.push_reserved(run),
        // required: one waits, and nobody else pops
        None => unreachable!(),
    }
}

/// Moves all runs that wait behind those of the list, by a pass that may push and pop.
pub fn drain<R: Wait>(rt: &R, queue: &RunQueue, mut pass: RunPass, mut runs: Vec<Run>) -> Vec<Run>
    requires pass { IsPassOf queue.now pass }
    requires both { ((view pass).may_push ≡ true) × ((view pass).may_pop ≡ true) }
    requires room { vec_len runs + ruled_capacity queue.now ≤ vec_capacity runs }
    ensures { (waiting : List (List Job))
        × (result.items ≡ runs.items ++ waiting)
        × ((view pass).pushed ≡ (view pass).popped ++ waiting) }
{
    let waiting = queue.len_as::<Draining, R>(rt, &mut pass);
    for _taken in 0..waiting {
        move_first(rt, queue, &mut pass, &mut runs);
    }
    queue.learn_as::<Draining>(&mut pass);
    runs
}
