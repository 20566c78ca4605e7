//! Ten thousand jobs between two threads.

ghost use Rattle.std.specs.Prelude.{◌≡◌, ◌+◌, ◌<◌, ◌++◌, [], length};
ghost use Rattle.job_block.specs.Blocks.{turn_behind};
ghost use Rattle.job_lane.specs.Turns.{AreNumberedBehind};

use bytes::Bytes;
use job_block::{JobBlock, LentJob, Origin};
use job_lane::{LANE_CAPACITY, LaneIn, LaneOut, Run, lane, meet};
use std::alloc::Global;
use std::process::Abort;
use std::sync::Wait;
use std::test::Fail;
use std::thread;
use std::thread::Threads;
use subj::{ConnId, Incarnation, Message, NodeId, PubId, QueueNames, Subject, Turn};

/// A message whose payload is the number.
fn message(rt: &impl Abort, alloc: Global, number: u64) -> Message {
    let subject = Subject::read(alloc, b"orders.new").ok();
    let payload = Bytes::copy_from_slice(alloc, &number.to_be_bytes()).ok();
    let message = Message::new(
        alloc,
        subject.expect(rt, "a subject"),
        None,
        None,
        payload.expect(rt, "memory"),
    );
    message.ok().expect(rt, "memory").expect(rt, "a message")
}

fn id(rt: &impl Abort, number: u64) -> PubId {
    PubId {
        origin: NodeId::read(b"n1").ok().expect(rt, "a node name"),
        inc: Incarnation::new(4).expect(rt, "an incarnation"),
        number,
    }
}

/// Puts a job behind that tells its turn.
fn put_job(rt: &impl Abort, alloc: Global, block: &mut JobBlock, turn: Turn)
    requires { turn_behind block.old ≡ turn }
    ensures first { block.new.first_turn ≡ block.old.first_turn }
    ensures count { length block.new.jobs ≡ length block.old.jobs + 1 }
{
    let number = turn.get();
    let message = message(rt, alloc, number);
    let origin = Origin {
        id: id(rt, number),
        publisher: Some(ConnId::new(number)),
        echo: number % 2 == 0,
    };
    let put = block.push_message(message, origin, QueueNames::new());
    put.ok().expect(rt, "memory");
}

/// Whether the job is as it was made for this turn.
fn is_job(rt: &impl Abort, job: &LentJob<'_>, number: u64) -> bool {
    job.turn().get() == number
        && job.id() == id(rt, number)
        && job.publisher() == Some(ConnId::new(number))
        && job.echo() == (number % 2 == 0)
        && job.publication().payload == number.to_be_bytes().as_slice()
}

/// A run of so many jobs behind this turn.
fn run_behind(rt: &impl Abort, alloc: Global, last: Turn, count: u64) -> Run
    requires { 0 < count }
    ensures turns { AreNumberedBehind last result }
    ensures count { length result ≡ count }
{
    let mut block = JobBlock::empty(alloc, last.next().expect(rt, "a turn"));
    for _made in 0..count {
        let turn = block.next_turn().expect(rt, "a turn");
        put_job(rt, alloc, &mut block, turn);
    }
    let _numbered = block.first_turn();
    Run::new(alloc, block).ok().expect(rt, "memory")
}

/// How many jobs go from one thread to another, by runs of so many, and how many the second thread pops.
const JOBS: u64 = 10_000;

const LENGTHS: [u64; 4] = [1, 5, 2, LANE_CAPACITY as u64];

const POPPED: u64 = JOBS - 7;

/// Pushes the run as soon as there is room.
fn push_in_time<R: Wait>(rt: &R, writer: &mut LaneIn, run: Run)
    requires { AreNumberedBehind (length writer.old.pushed) run }
    ensures lane { writer.new.lane ≡ writer.old.lane }
    ensures pushed { writer.new.pushed ≡ writer.old.pushed ++ run }
{
    let mut run = run;
    for _ in rt.forever() {
        match writer.push(rt, run) {
            Ok(()) => return,
            Err(back) => run = back,
        }
        thread::yield_now();
    }
    // `forever` ends by a return alone
    unreachable!()
}

/// Pushes all jobs.
fn push_all<R: Abort + Wait>(rt: &R, alloc: Global, writer: LaneIn) -> LaneIn
    requires { writer.pushed ≡ [] }
    ensures { result.lane ≡ writer.lane }
{
    let mut writer = writer;
    let mut last = Turn::zero();
    for round in 0..JOBS {
        let left = JOBS.saturating_sub(last.get());
        let count = u64::min(LENGTHS[(round % 4) as usize], left);
        if count == 0 {
            break;
        }
        let run = run_behind(rt, alloc, last, count);
        last = Turn::new(last.get().saturating_add(count)).expect(rt, "a turn");
        push_in_time(rt, &mut writer, run);
    }
    writer
}

/// Pops the next job as soon as there is one.
fn pop_in_time<R: Wait>(rt: &R, reader: &mut LaneOut) -> Turn
    ensures { reader.new.lane ≡ reader.old.lane }
{
    for _ in rt.forever() {
        if let Some(turn) = reader.pop(rt) {
            return turn;
        }
        thread::yield_now();
    }
    // `forever` ends by a return alone
    unreachable!()
}

/// Pops most of the jobs.
fn pop_most<R: Abort + Wait>(rt: &R, reader: LaneOut) -> LaneOut
    ensures { result.lane ≡ reader.lane }
{
    let mut reader = reader;
    for popped in 0..POPPED {
        let turn = pop_in_time(rt, &mut reader);
        assert_eq!(rt; turn.get(), popped + 1);
        let jobs = reader.waiting().expect(rt, "a job");
        assert!(rt; is_job(rt, &jobs.get(0), popped + 1));
    }
    reader
}

/// Passes the jobs through a lane, and gives the runs with those that were not popped.
fn pass_through<R: Abort + Threads + Wait + Sync>(
    rt: &R,
    alloc: Global,
    writer: LaneIn,
    reader: LaneOut,
) -> Vec<Run>
    requires lane { writer.lane ≡ reader.lane }
    requires new { writer.pushed ≡ [] }
{
    let (writer, reader) = thread::join(
        rt,
        move || -> LaneIn
            requires { writer.pushed ≡ [] }
            ensures { result.lane ≡ writer.lane }
        { push_all(rt, alloc, writer) },
        move || -> LaneOut
            ensures { result.lane ≡ reader.lane }
        { pop_most(rt, reader) },
    );
    meet(rt, writer, reader)
}

/// This run has the jobs behind this number: that of its last one.
fn last_job_of(rt: &impl Abort, run: &Run, before: u64) -> u64 {
    let mut number = before;
    let jobs = run.jobs();
    for place in 0..jobs.len() {
        number = number.checked_add(1).expect(rt, "a number");
        assert!(rt; is_job(rt, &jobs.get(place), number));
    }
    number
}

/// These runs have the jobs behind the first `before`, up to the one numbered `last`.
fn assert_are_jobs(rt: &impl Abort, runs: &[Run], before: u64, last: u64) {
    let mut number = before;
    for run in runs {
        number = last_job_of(rt, run, number);
    }
    assert_eq!(rt; number, last);
}

#[test]
fn ten_thousand_jobs_between_two_threads(rt: HostRuntime) -> Result<(), Fail> {
    let (writer, reader) = lane(rt.alloc(), LANE_CAPACITY)?;
    let left = pass_through(&rt, rt.alloc(), writer, reader);
    assert_are_jobs(&rt, &left, POPPED, JOBS);
    Ok(())
}
