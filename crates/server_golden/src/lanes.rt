//! Lanes, with both ends, and the jobs that pass them: each tells its turn in all that can differ, and is known again by it.

ghost use Rattle.std.specs.Prelude.{◌≡◌, length, IfSome, IsSome};
ghost use Rattle.job_block.specs.Blocks.{turn_behind};
ghost use Rattle.job_lane.specs.Ends.{from_hand};
ghost use Rattle.job_lane.specs.Turns.{AreNumberedBehind};

use bytes::Bytes;
use golden::{Answer, Call, message_of, put, queues_of};
use job_block::{JobBlock, JobSlice, LentJob, Origin, PublicationParts};
use job_lane::{LaneIn, LaneOut, Run, lane, meet};
use node_threads::Turned;
use std::alloc::{AllocError, Global};
use std::sync::Wait;
use subj::{Busy, ConnId, Incarnation, Message, NodeId, PubId, QueueName, Turn};

/// What is told of a call for which there was no memory.
pub const NO_MEMORY: &str = "no memory";

/// Tells what a turn has come to.
pub fn turned_told(answer: &mut Answer, turned: Turned) -> Option<()> {
    match turned {
        Turned::Idle => answer.tell("idle"),
        Turned::Worked(turn) => answer.tell_number("worked ", turn.get()),
        Turned::WorkedRun { jobs, last } => run_told(answer, jobs, last),
        Turned::Short => answer.tell(NO_MEMORY),
    }
}

/// Tells that a run of jobs was worked.
fn run_told(answer: &mut Answer, jobs: u64, last: Turn) -> Option<()> {
    answer.tell_number("worked ", jobs);
    answer.tell_number(" up to ", last.get())
}

/// Tells which shard a server is busy with, and the last turn that it finished.
pub fn busy_told(answer: &mut Answer, busy: Busy) -> Option<()> {
    answer.tell_number("busy: shard ", busy.shard);
    answer.tell_number(" finished ", busy.finished.get())
}

/// A message whose payload is the number.
pub fn message(alloc: Global, number: u64) -> Option<Message> {
    let digits = number.to_string(alloc).ok()?;
    message_of(alloc, "orders.new", "answers.1", digits.as_str())
}

/// The id of the job of this number.
fn id(number: u64) -> Option<PubId> {
    Some(PubId {
        origin: NodeId::read(b"n1").ok()?,
        inc: Incarnation::new(4)?,
        number,
    })
}

/// Puts a job behind that tells its turn in all that can differ. The messages of odd turns are shared, and the others are copied into
/// the block.
fn put_job(alloc: Global, block: &mut JobBlock, turn: Turn) -> Option<()>
    requires { turn_behind block.old ≡ turn }
    ensures { IsSome result → block.new.first_turn ≡ block.old.first_turn }
{
    let number = turn.get();
    let id = id(number)?;
    let queues = queues_of(alloc, "audit tasks")??;
    let message = message(alloc, number)?;
    let echo = number % 2 == 1;
    let origin = Origin {
        id,
        publisher: Some(ConnId::new(number)),
        echo,
    };
    let put = if echo {
        block.push_message(message, origin, queues)
    } else {
        block.push(&PublicationParts::of(&message), origin, queues, true)
    };
    put.ok()
}

/// Whether the publication is as it was made for this number.
fn is_publication(publication: &PublicationParts<'_>, number: u64) -> bool {
    let payload = str::from_utf8(publication.payload).unwrap_or("");
    publication.subject == b"orders.new".as_slice()
        && publication.reply.is_some()
        && golden::number(payload) == number
}

/// Whether these are the queue names of each job.
fn are_names(names: &[QueueName]) -> bool {
    match names {
        [first, second] => first.bytes() == b"audit".as_slice()
            && second.bytes() == b"tasks".as_slice(),
        _ => false,
    }
}

/// Whether each part of the job is as it was made for this turn.
fn is_job(job: &LentJob<'_>, number: u64) -> bool {
    job.turn().get() == number
        && Some(job.id()) == id(number)
        && job.publisher() == Some(ConnId::new(number))
        && job.echo() == (number % 2 == 1)
        && is_publication(&job.publication(), number)
        && are_names(job.queues().as_slice())
}

/// A run of so many jobs behind this turn.
pub fn run_behind(alloc: Global, last: Turn, count: u64) -> Option<Run>
    ensures turns { IfSome result (AreNumberedBehind last) }
{
    let mut block = JobBlock::empty(alloc, last.next()?);
    for _made in 0..count {
        let turn = block.next_turn()?;
        put_job(alloc, &mut block, turn)?;
    }
    if block.is_empty() {
        return None;
    }
    let _numbered = block.first_turn();
    Run::new(alloc, block).ok()
}

/// The number of the last of these jobs, where they are those behind the first `before`.
fn last_of(jobs: &JobSlice<'_>, before: u64) -> Option<u64> {
    let mut number = before;
    for place in 0..jobs.len() {
        number = number.saturating_add(1);
        if !is_job(&jobs.get(place), number) {
            return None;
        }
    }
    Some(number)
}

/// The same of the jobs of these runs.
fn last_of_runs(runs: &[Run], before: u64) -> Option<u64> {
    let mut number = before;
    for run in runs {
        number = last_of(&run.jobs(), number)?;
    }
    Some(number)
}

/// Both ends of one lane, the turn of the last job pushed, and that of the last one popped.
#[derive(Drop)]
pub struct Both {
    writer: LaneIn,
    reader: LaneOut,
    last: Turn,
    popped: u64,
    ghost counted: { last ≡ length writer.pushed },
    ghost of_one: { writer.lane ≡ reader.lane },
}

/// The lanes of a case, and the payload of a job that both of them were handed.
#[derive(Drop)]
pub struct Lanes {
    first: Option<Both>,
    second: Option<Both>,
    payload: Option<Bytes>,
}

impl Lanes {
    /// None is made yet.
    pub fn new() -> Lanes {
        Lanes {
            first: None,
            second: None,
            payload: None,
        }
    }
}

/// How many jobs wait from the one in hand on.
fn waiting_len(reader: &LaneOut) -> usize
    ensures { result ≡ length (from_hand reader.now) }
{
    match reader.waiting() {
        None => 0,
        Some(jobs) => jobs.len(),
    }
}

impl Both {
    /// A lane in which so many jobs can wait.
    fn new(alloc: Global, capacity: usize) -> Result<Both, AllocError> {
        let (writer, reader) = lane(alloc, capacity.max(1))?;
        Ok(Both {
            writer,
            reader,
            last: Turn::zero(),
            popped: 0,
        })
    }

    /// Pushes the run, which stands behind the last job pushed; it comes back where there is no room.
    fn push<R: Wait>(&mut self, rt: &R, run: Run) -> Option<Run>
        requires { AreNumberedBehind self.old.last run }
    {
        let count = run.jobs().len() as u64;
        let Some(last) = Turn::new(self.last.get().saturating_add(count)) else {
            return Some(run);
        };
        match self.writer.push(rt, run) {
            Ok(()) => {
                self.last = last;
                None
            }
            Err(back) => Some(back),
        }
    }

    /// Takes into hand what waits longest: whether there was something. Something else than the job behind the last one popped is counted as
    /// many.
    fn pops<R: Wait>(&mut self, rt: &R) -> bool {
        let next = self.popped.saturating_add(1);
        let turn = self.reader.pop(rt).map(Turn::get);
        match (turn, self.reader.waiting()) {
            (None, None) => return false,
            (Some(turn), Some(jobs)) if turn == next && is_job(&jobs.get(0), turn) => {
                self.popped = next
            }
            _ => self.popped = u64::MAX,
        }
        true
    }

    /// Pops so many jobs behind the one in hand: whether there are so many. Where the last of them is another job than it is to be, it is
    /// counted as many.
    fn pops_behind(&mut self, count: usize) -> bool {
        if count >= waiting_len(&self.reader) {
            return false;
        }
        self.reader.pop_behind(count);
        let last = self.popped.saturating_add(count as u64);
        match self.reader.waiting() {
            Some(jobs) if is_job(&jobs.get(0), last) => self.popped = last,
            _ => self.popped = u64::MAX,
        }
        true
    }
}

/// Tells which jobs these are, from the one number to the other.
fn jobs_told(answer: &mut Answer, first: u64, last: u64) -> Option<()> {
    answer.tell_number("jobs ", first);
    answer.tell_number(" to ", last)
}

/// Tells which jobs wait from the one in hand on.
fn waiting_told(answer: &mut Answer, both: &Both) -> Option<()> {
    let Some(jobs) = both.reader.waiting() else {
        return answer.tell("none");
    };
    match last_of(&jobs, both.popped.saturating_sub(1)) {
        None => answer.tell("other jobs"),
        Some(last) => jobs_told(answer, both.popped, last),
    }
}

/// Tells which jobs were popped behind this number of them.
fn popped_told(answer: &mut Answer, before: u64, popped: u64) -> Option<()> {
    if popped <= before {
        return answer.tell("none");
    }
    jobs_told(answer, before.saturating_add(1), popped)
}

/// Pops so many jobs behind the one in hand at once, and tells which they are.
fn pop_behind(answer: &mut Answer, both: &mut Both, count: u64) -> Option<()> {
    let before = both.popped;
    if !both.pops_behind(count as usize) {
        return answer.tell("not so many");
    }
    popped_told(answer, before, both.popped)
}

/// What is told of a run that came back; it stood behind this turn.
fn back_word(last: Turn, back: &Run) -> &'static str {
    let wanted = last.get().saturating_add(back.jobs().len() as u64);
    if last_of(&back.jobs(), last.get()) == Some(wanted) {
        "comes back whole"
    } else {
        "comes back changed"
    }
}

/// Pushes a run of so many new jobs.
fn push<R: Wait>(rt: &R, both: &mut Both, alloc: Global, count: u64) -> &'static str {
    let last = both.last;
    let Some(run) = run_behind(alloc, last, count) else {
        return "no run";
    };
    match both.push(rt, run) {
        None => "pushed",
        Some(back) => back_word(last, &back),
    }
}

/// Pops so many jobs, or those that wait, and tells which they are.
fn pop<R: Wait>(answer: &mut Answer, rt: &R, both: &mut Both, count: u64) -> Option<()> {
    let before = both.popped;
    for _pop in 0..count {
        if !both.pops(rt) {
            break;
        }
    }
    popped_told(answer, before, both.popped)
}

/// Puts the ends together, and tells which jobs are left, where those are the ones behind the last one popped.
fn meet_told<R: Wait>(answer: &mut Answer, rt: &R, both: Both) -> Option<()> {
    let Both {
        writer,
        reader,
        popped,
        last: _,
    } = both;
    let left = meet(rt, writer, reader);
    match last_of_runs(&left, popped) {
        None => answer.tell("other jobs are left"),
        Some(last) if last == popped => answer.tell("none is left"),
        Some(last) => left_told(answer, popped, last),
    }
}

/// Tells which jobs are left behind those popped.
fn left_told(answer: &mut Answer, popped: u64, last: u64) -> Option<()> {
    jobs_told(answer, popped.saturating_add(1), last)?;
    answer.tell(" are left")
}

/// A new lane in place of what stood.
fn renew(lane: &mut Option<Both>, alloc: Global, capacity: usize) -> Option<()> {
    put(lane, Some(Both::new(alloc, capacity).ok()?));
    Some(())
}

/// Closes the lane, and tells what is left.
fn close<R: Wait>(answer: &mut Answer, rt: &R, lane: &mut Option<Both>) -> Option<()> {
    match lane.take() {
        Some(both) => meet_told(answer, rt, both),
        None => answer.tell("no lane"),
    }
}

/// Makes a call on a lane that stands.
fn on_lane<R: Wait>(
    answer: &mut Answer,
    rt: &R,
    both: &mut Both,
    alloc: Global,
    call: &str,
    number: u64,
) -> Option<()> {
    match call {
        "push" => answer.tell(push(rt, both, alloc, number)),
        "pop" => pop(answer, rt, both, number),
        "pop_behind" => pop_behind(answer, both, number),
        "waiting" => waiting_told(answer, both),
        _ => answer.tell("no such call"),
    }
}

/// Makes a call on one lane.
fn lane_call<R: Wait>(
    answer: &mut Answer,
    rt: &R,
    lane: &mut Option<Both>,
    alloc: Global,
    call: &str,
    number: u64,
) -> Option<()> {
    match call {
        "new" => renew(lane, alloc, number as usize),
        "meet" => close(answer, rt, lane),
        _ => match lane {
            Some(both) => on_lane(answer, rt, both, alloc, call, number),
            None => answer.tell("no lane"),
        },
    }
}

/// The payload of the first job of a run.
fn payload_of(run: &Run) -> Option<Bytes> {
    run.jobs().get(0).shared()?.payload().clone().ok()
}

/// Pushes one run to both lanes, where as much was pushed to the one as to the other: whether both took it.
fn push_both<R: Wait>(rt: &R, first: &mut Both, second: &mut Both, run: Run) -> bool
    requires { AreNumberedBehind first.old.last run }
{
    if first.last != second.last {
        return false;
    }
    let Ok(other) = run.try_clone() else {
        return false;
    };
    first.push(rt, run).is_none() && second.push(rt, other).is_none()
}

/// Hands one new run of so many jobs to both lanes, and keeps the payload of its first job.
fn share<R: Wait>(rt: &R, lanes: &mut Lanes, alloc: Global, count: u64) -> &'static str {
    let (Some(first), Some(second)) = (&mut lanes.first, &mut lanes.second) else {
        return "no lanes";
    };
    let Some(run) = run_behind(alloc, first.last, count) else {
        return "no run";
    };
    put(&mut lanes.payload, payload_of(&run));
    if push_both(rt, first, second, run) {
        "pushed"
    } else {
        "comes back"
    }
}

/// Whether something but the case has the payload still.
fn payload_word(payload: &Option<Bytes>) -> &'static str {
    match payload {
        None => "no payload",
        Some(payload) if payload.is_unique() => "freed",
        Some(_) => "kept",
    }
}

/// Makes a call on the first lane, on both, or on the other one.
pub fn lanes_call<R: Wait>(
    answer: &mut Answer,
    rt: &R,
    lanes: &mut Lanes,
    alloc: Global,
    line: &Call<'_>,
    number: u64,
) -> Option<()> {
    match (line.name, line.of) {
        ("share", _) => answer.tell(share(rt, lanes, alloc, number)),
        ("payload", _) => answer.tell(payload_word(&lanes.payload)),
        (call, "lane") => lane_call(answer, rt, &mut lanes.first, alloc, call, number),
        (call, _) => lane_call(answer, rt, &mut lanes.second, alloc, call, number),
    }
}
