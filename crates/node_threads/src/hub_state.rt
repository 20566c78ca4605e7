//! What stands under the lock of the hub: the jobs on their way to the lanes, and its state. It issues publications that are lent in one call.

ghost use Rattle.std.specs.Prelude.{◌≡◌, ◌++◌, true, false, Some, [], ◌+◌, ◌<◌, ◌≤◌, ◌∷◌, All, length, map, OnOk, OnErr, None, ⊤, IfOk, IfSome, if◌then◌else◌};
ghost use Rattle.job_block.specs.Blocks.{IsLast, IsLeft, IsPushed, job_of as job_by, turn_behind};
ghost use Rattle.job_lane.specs.Turns.{AreNumbered};
ghost use Rattle.node_threads.specs.Outlets.{jobs_owed, AreFirst};
ghost use Rattle.subj.specs.Answers.{IsAnswered, IsDecided};
ghost use Rattle.claim_cells.specs.Calls.{IsLooked};
ghost use Rattle.claim_cells.specs.Rule.{fresh_hub};
ghost use Rattle.hub_core.specs.Chosen.{IsPlanOf, publication_by, turn_refusal};
ghost use Rattle.hub_core.specs.Local.{HasTurnsFor, OwesLocalJob, behind_local};
ghost use Rattle.hub_core.specs.Calls.{job_of};
ghost use Rattle.hub_core.specs.Events.{Receive, Drain, Drained, TakeFrom, Heard as WasHeard, Taken};
ghost use Rattle.hub_core.specs.Publishing.{publish_refusal};
ghost use Rattle.hub_core.specs.Receiving.{has_message, receive_refusal};
ghost use Rattle.hub_core.specs.Steps.{hub_refusal};
ghost use Rattle.hub_core.specs.Telling.{drain_frames};
ghost use Rattle.route_session.specs.Events.{Dial, Accept, OnInfo, OnConnect, Cut, Dialed, Accepted, KeptAfterInfo, Kept as WasKept, WasCut};
ghost use Rattle.route_session.specs.Steps.{session_refusal};
ghost use Rattle.node_threads.specs.AtHub.{Collects, Does, Looks, Publishes, Receives, Routes, refuses_busy, IsAtHub};
ghost use Rattle.node_threads.specs.HubRuns.{IssuesRun};
ghost use Rattle.node_parts.specs.Sides.{ByHub, BySessions, OfHub, OfSessions, new_side, seen_name};

use crate::lane_sender::LaneSender;
use crate::node_name::NodeName;
use crate::shard_state::ShardState;
use claim_cells::{Cells, HubSeat};
use hub_core::{CollectResult, HubFault, PublishPlan};
use job_block::{JobBlock, LentPub, Origin, SHARED_BYTES};
use job_lane::Run;
use node_parts::{HubWithSessions, Issued, Received, is_message};
use publication_runs::LentRun;
use route_session::{Kept, SessionFault, SessionId};
use route_values::{Numbered, RouteConnect, RouteInfo};
use std::alloc::{AllocError, Global};
use std::marker::{Model, PhantomData};
use std::sync::Wait;
use sub_table::SubTable;
use subj::{
    ConnId, Failure, Finished, Job, LentSubject, MAX_COUNTER, Pub, QueueNames, ServerIdentity, Turn,
};

/// The hub's ends of all lanes, and the jobs that not all of them have yet, in order: a run that is handed
/// out, and behind it those that are not made into a run yet.
///
/// Seen as all jobs that the shards are handed. What each lane was pushed is a beginning of them, and their
/// turns are 1, 2, .. in order.
#[derive(Drop)]
struct Outlet<N: NodeName> {
    alloc: Global,
    lines: Vec<LaneSender<N>>,
    run: Option<Run>,
    unsent: JobBlock,
}

impl<N: NodeName> Model for Outlet<N> {
    ghost use Rattle.std.specs.Prelude.{List};
    ghost use Rattle.subj.specs.declared.jobs.Job.{Job};
    ghost use Rattle.node_threads.specs.Outlets.{IsOutlet, jobs_handed};

    ghost Value = { List Job };

    ghost view = { λ s. jobs_handed s.run s.unsent.jobs s.lines.items };

    ghost invariant = { λ s. IsOutlet s.run s.unsent.jobs s.lines.items };
}

/// Whether each lane has the run that is handed out.
fn all_have<N: NodeName>(lines: &[LaneSender<N>]) -> bool
    ensures { result ≡ true → All (λ line. line.taken ≡ true) lines.now }
{
    lines.iter().all(|line| line.has_taken())
}

/// Pushes the run to each lane that does not have it.
fn offer_to_each<N: NodeName, R: Wait>(rt: &R, lines: &mut [LaneSender<N>], run: &Run)
    requires { All (λ line. AreNumbered (line.pushed ++ jobs_owed line.taken (Some run.now)))
        lines.old }
    ensures { map (λ line. line.pushed ++ jobs_owed line.taken (Some run.now)) lines.new
        ≡ map (λ line. line.pushed ++ jobs_owed line.taken (Some run.now)) lines.old }
{
    for line in lines.iter_mut() {
        line.offer(rt, run);
    }
}

/// Another run is handed out, that no lane has.
fn begin_each<N: NodeName>(lines: &mut [LaneSender<N>])
    ensures { (map (λ line. line.pushed) lines.new ≡ map (λ line. line.pushed) lines.old)
        × All (λ line. line.taken ≡ false) lines.new }
{
    for line in lines.iter_mut() {
        line.begin();
    }
}

/// Pushes the run to each lane that does not have it.
fn offer_all<N: NodeName, R: Wait>(rt: &R, lines: &mut Vec<LaneSender<N>>, run: &Run)
    requires { All (λ line. AreNumbered (line.pushed ++ jobs_owed line.taken (Some run.now)))
        lines.old.items }
    ensures { map (λ line. line.pushed ++ jobs_owed line.taken (Some run.now)) lines.new.items
        ≡ map (λ line. line.pushed ++ jobs_owed line.taken (Some run.now)) lines.old.items }
{
    offer_to_each(rt, lines.as_mut_slice(), run);
}

/// Another run is handed out, that no lane has.
fn begin_all<N: NodeName>(lines: &mut Vec<LaneSender<N>>)
    ensures { (map (λ line. line.pushed) lines.new.items
        ≡ map (λ line. line.pushed) lines.old.items)
        × All (λ line. line.taken ≡ false) lines.new.items }
{
    begin_each(lines.as_mut_slice());
}

/// The next job of the block has this turn. Required: it has, where there is one already.
#[inline(always)]
fn begin_at(block: &mut JobBlock, turn: Turn)
    requires { 0 < length block.old.jobs → turn_behind block.old ≡ turn }
    ensures { (block.new.jobs ≡ block.old.jobs) × (turn_behind block.new ≡ turn) }
{
    if block.is_empty() {
        block.clear(turn);
    }
}

/// Puts the job of a publication that is lent behind the block's, which somebody wants, as far as is known, or nobody. Want of memory leaves all as
/// it was. Required: there is a turn, and, where it is told that a run goes on, the last job is like it.
#[inline(always)]
fn put_lent(
    block: &mut JobBlock,
    origin: Origin,
    publication: &LentPub<'_>,
    queues: QueueNames,
    is_wanted: bool,
    goes_on: bool,
) -> Result<(), AllocError>
    requires last { goes_on ≡ true → 0 < length block.old.jobs
        → IsLast origin.publisher publication.now.message.subject origin.echo queues
        block.old.jobs }
    requires turn { turn_behind block.old ≤ MAX_COUNTER }
    ensures ok { OnOk result
        (IsPushed (job_by origin (turn_behind block.old) publication.now.message queues) block.old
        block.new) }
    ensures err { OnErr result (IsLeft block.old block.new) }
{
    let parts = publication.parts();
    if goes_on && parts.is_short() {
        block.push_next(&parts, origin, queues)
    } else {
        block.push(&parts, origin, queues, is_wanted)
    }
}

impl<N: NodeName> Outlet<N> {
    /// The lanes, one a shard, to which nothing was pushed.
    fn new(alloc: Global, lines: Vec<LaneSender<N>>) -> Outlet<N>
        requires some { 0 < length lines.items }
        requires fresh { All (λ line. line.pushed ≡ []) lines.items }
        ensures { result ≡ [] }
    {
        Outlet {
            alloc,
            lines,
            run: None,
            unsent: JobBlock::empty(alloc, Turn::zero()),
        }
    }

    /// Hands the next job to the shards, which share its message. Want of memory leaves all as it was.
    fn add(&mut self, job: Job) -> Result<(), AllocError>
        requires turn { job.turn ≡ length self.old + 1 }
        ensures ok { OnOk result (self.new ≡ self.old ++ job ∷ []) }
        ensures err { OnErr result (self.new ≡ self.old) }
    {
        let _numbered = self.unsent.first_turn();
        begin_at(&mut self.unsent, job.turn);
        let Job {
            id,
            message,
            publisher,
            echo,
            queues,
            ..
        } = job;
        let origin = Origin {
            id,
            publisher,
            echo,
        };
        self.unsent.push_message(message, origin, queues)
    }

    /// Hands the next job to the shards: that of a publication that is lent, with these queue names, which are shared. A message is made of a
    /// large one that is wanted. Want of memory leaves all as it was. Required: where it is told that a run goes on, the last job is like it.
    #[inline(always)]
    fn add_lent(
        &mut self,
        turn: Turn,
        origin: Origin,
        publication: &LentPub<'_>,
        queues: QueueNames,
        is_wanted: bool,
        goes_on: bool,
    ) -> Result<(), AllocError>
        requires turn { turn ≡ length self.old + 1 }
        requires last { goes_on ≡ true
            → IsLast origin.publisher publication.now.message.subject origin.echo queues self.old }
        ensures ok { OnOk result
            (self.new ≡ self.old ++ job_by origin turn publication.now.message queues ∷ []) }
        ensures err { OnErr result (self.new ≡ self.old) }
    {
        let _numbered = self.unsent.first_turn();
        begin_at(&mut self.unsent, turn);
        put_lent(
            &mut self.unsent,
            origin,
            publication,
            queues,
            is_wanted,
            goes_on,
        )
    }

    /// Pushes what is not pushed yet, oldest first, as far as lanes have room and there is memory. Whether some is left.
    fn push_all<R: Wait>(&mut self, rt: &R) -> bool
        ensures { self.new ≡ self.old }
    {
        self.offer(rt);
        self.begin_run();
        self.offer(rt);
        self.run.is_some() || !self.unsent.is_empty()
    }

    /// Pushes the run that is handed out to the lanes that do not have it.
    fn offer<R: Wait>(&mut self, rt: &R)
        ensures { self.new ≡ self.old }
    {
        let Some(run) = &self.run else {
            return;
        };
        offer_all(rt, &mut self.lines, run);
        if !all_have(self.lines.as_slice()) {
            return;
        }
        self.run = None;
    }

    /// Makes a run of the jobs that are not in one, where all lanes have the last one.
    fn begin_run(&mut self)
        ensures { self.new ≡ self.old }
    {
        if self.run.is_some() || self.unsent.is_empty() {
            return;
        }
        let next = self.unsent.empty_like();
        let block = std::mem::replace(&mut self.unsent, next);
        let run = match Run::new(self.alloc, block) {
            Ok(run) => run,
            Err(block) => {
                self.unsent = block;
                return;
            }
        };
        begin_all(&mut self.lines);
        self.run = Some(run);
    }

    /// The ends of the lanes.
    fn into_lines(self) -> Vec<LaneSender<N>>
        ensures { All (λ line. AreFirst line.pushed self) result.items }
    {
        let Outlet { lines, .. } = self;
        lines
    }
}

/// The hub of a server on threads: the hub and its sessions, its seat at the race, and its ends of the
/// lanes. (Profile.)
///
/// Seen as the hub's and the sessions' states, what its seat knows, the last turns that the shards finished,
/// as it has loaded them last, and all jobs that it gave to the shards. All that it ever did is a list of
/// the hub's and the sessions' own steps, and the jobs are those of their answers; what was pushed to each
/// lane is a beginning of these.
pub struct HubState<N: NodeName> {
    side: HubWithSessions,
    seat: HubSeat,
    finished: Finished,
    outlet: Outlet<N>,
    of: PhantomData<N>,
}

/// One call, also for crates above: `docs/PROVING.md`, "What a proof costs".
impl<N: NodeName> Drop for HubState<N> {
    fn drop(self) {
        let HubState {
            side: _,
            seat: _,
            finished: _,
            outlet: _,
            of: _,
        } = self;
    }
}

impl<N: NodeName> Model for HubState<N> {
    ghost use Rattle.std.specs.Prelude.{◌≡◌};
    ghost use Rattle.node_threads.specs.AtHub.{AtHub, IsAtHub, hub_at};

    ghost Value = { AtHub };

    ghost view = { λ s. hub_at s.side s.seat.part s.finished s.outlet };

    ghost invariant = { λ s.
        IsAtHub N.race.shards (hub_at s.side s.seat.part s.finished s.outlet)
        × (s.seat.race ≡ N.race) };
}

/// Whether it was refused since a shard is a window behind.
fn is_busy<X>(planned: &Result<X, Failure<HubFault>>) -> bool
    ensures { result ≡ refuses_busy planned.now }
{
    matches!(planned, Err(Failure::Refused(HubFault::Busy(_))))
}

impl<N: NodeName> HubState<N> {
    /// The hub of a server that has just started, with these lanes, one a shard: nothing is issued.
    pub fn new(
        alloc: Global,
        server: ServerIdentity,
        cells: &Cells,
        seat: HubSeat,
        lines: Vec<LaneSender<N>>,
    ) -> Result<HubState<N>, AllocError>
        requires race { (cells.now ≡ N.race) × (seat.race ≡ N.race) }
        requires shards { server.shards ≡ N.race.shards }
        requires fresh { seat.part ≡ fresh_hub }
        requires some { 0 < length lines.items }
        requires lines { All (λ line. line.pushed ≡ []) lines.items }
        ensures { IfOk result (λ made. (made.side ≡ new_side server) × (made.issued ≡ [])) }
    {
        let side = HubWithSessions::new(alloc, server)?;
        side.is_listed();
        let mut seat = seat;
        let finished = cells.look(&mut seat);
        Ok(HubState {
            side,
            seat,
            finished,
            outlet: Outlet::new(alloc, lines),
            of: PhantomData,
        })
    }

    /// Pushes the jobs that were given to the shards and are not pushed yet, oldest first: those of all
    /// publications since the last call as one run. What a lane has no room for, or for which there is no
    /// memory, is pushed by a later call. Whether there is such a one. May wait.
    pub fn push_jobs<R: Wait>(&mut self, rt: &R) -> bool
        ensures { self.new ≡ self.old }
    {
        self.outlet.push_all(rt)
    }

    /// The last turn that each shard finished, as it has loaded them last.
    pub fn finished(&self) -> Finished
        ensures { result ≡ self.now.finished }
    {
        self.finished
    }

    /// Loads the last turn that each shard finished.
    fn look(&mut self, cells: &Cells)
        requires race { cells.now ≡ N.race }
        ensures loads { IsLooked N.race.shards self.old.part self.new.finished self.new.part }
        ensures rest { self.new
            ≡ record self.old { part = self.new.part; finished = self.new.finished } }
    {
        self.finished = cells.look(&mut self.seat);
    }

    /// What a publication owes; the hub looks at the shards where it must.
    fn plan_publish(
        &mut self,
        cells: &Cells,
        conn: ConnId,
        publication: &Pub,
        word: u64,
    ) -> Result<PublishPlan, Failure<HubFault>>
        requires race { cells.now ≡ N.race }
        ensures looks { Looks N.race.shards self.old self.new }
        ensures planned { IsAnswered
            (publish_refusal self.new.side.server self.new.side.hub
            (publication_by conn publication.now word) self.new.finished)
            (λ plan.
            IsPlanOf self.new.side.server self.new.side.hub
            (publication_by conn publication.now word) plan.job plan.frames.items)
            ⊤ result }
        ensures fresh { refuses_busy result ≡ true
            → IsLooked N.race.shards self.old.part self.new.finished self.new.part }
    {
        let planned = self
            .side
            .plan_publish(conn, publication, word, &self.finished);
        if !is_busy(&planned) {
            return planned;
        }
        self.look(cells);
        self.side
            .plan_publish(conn, publication, word, &self.finished)
    }

    /// Issues a publication of the connection: it takes the next number and the next turn, its frames wait
    /// for their peers, and its job is given to each shard. [`HubState::push_jobs`] pushes it. The word
    /// decides who serves each queue name.
    ///
    /// Refused as [`Hub::plan_publish`](hub_core::Hub::plan_publish) is; [`HubFault::Busy`] is told by one
    /// load of each shard that was made in this call. Any `Err` leaves all as it was. Required: the race of
    /// this server.
    pub fn publish(
        &mut self,
        cells: &Cells,
        conn: ConnId,
        publication: &Pub,
        word: u64,
    ) -> Result<Issued, Failure<HubFault>>
        requires { cells.now ≡ N.race }
        ensures { Publishes N.race.shards self.old (publication_by conn publication.now word) result
            self.new }
    {
        let PublishPlan { job, frames } = self.plan_publish(cells, conn, publication, word)?;
        let told = Issued {
            turn: job.turn,
            frames: frames.len(),
        };
        let _in_order = job.queues.as_slice();
        let Ok(()) = self.outlet.add(job) else {
            return Err(Failure::OutOfMemory);
        };
        self.side.commit_publish(frames);
        let Ok(_) = cells.issue(&mut self.seat) else {
            // the plan was not refused as busy, by the loads that the seat keeps
            unreachable!()
        };
        Ok(told)
    }

    /// Issues publications of the connection that are lent, one after the other, as [`HubState::publish`] does, as far as each owes a job to
    /// the server's own shards and nothing else, whatever its word. No message is made of those that are small. Gives how many; nothing was
    /// done of the next: where a shard is a window behind, where the numbers are spent, and for want of memory. 0 where they may owe more.
    /// Required: the race of this server.
    pub fn publish_run(&mut self, cells: &Cells, conn: ConnId, run: &mut LentRun<'_>) -> u64
        requires { cells.now ≡ N.race }
        ensures { IssuesRun N.race.shards conn result run.old run.new self.old self.new }
    {
        let Some(first) = run.peek() else {
            return 0;
        };
        let is_large = first.publication.payload().len() >= SHARED_BYTES;
        match self.side.hub().local_names(&run.subject()) {
            None => 0,
            Some(queues) => {
                let is_wanted = self.is_wanted(&run.subject(), &queues, is_large);
                self.issue_each(cells, conn, run, &queues, is_wanted)
            }
        }
    }

    /// Whether somebody may want publications on this subject that have these queue names, as far as the hub knows. It is looked up where the
    /// first is large: no message is made of a small one.
    fn is_wanted(&self, subject: &LentSubject<'_>, queues: &QueueNames, is_large: bool) -> bool {
        !is_large || !queues.as_slice().is_empty() || self.side.hub().may_be_wanted_here(subject)
    }

    /// Issues publications that are lent, which somebody wants, as far as is known, or nobody, as far as they are given and there are turns and
    /// memory. Their jobs have these queue names. Gives how many. Required: each owes such a job.
    #[inline(always)]
    fn issue_each(
        &mut self,
        cells: &Cells,
        conn: ConnId,
        run: &mut LentRun<'_>,
        queues: &QueueNames,
        is_wanted: bool,
    ) -> u64
        requires race { cells.now ≡ N.race }
        requires local { OwesLocalJob self.old.side.server self.old.side.hub run.old.subject
            queues.now }
        ensures { IssuesRun N.race.shards conn result run.old run.new self.old self.new }
    {
        let free = self.side.hub().turns_free(&self.finished);
        if free == 0 || !self.issue_next(cells, conn, run, queues, is_wanted, false) {
            return 0;
        }
        for count in 1..free {
            if !self.issue_next(cells, conn, run, queues, is_wanted, true) {
                return count;
            }
        }
        free
    }

    /// Issues the next publication that is lent, which somebody wants, as far as is known, or nobody, and whose job has these queue names. Whether
    /// it did; where not, all is as it was. Required: a turn is free, and, where it is told that a run goes on, the last job is like its own.
    #[inline(always)]
    fn issue_next(
        &mut self,
        cells: &Cells,
        conn: ConnId,
        run: &mut LentRun<'_>,
        queues: &QueueNames,
        is_wanted: bool,
        goes_on: bool,
    ) -> bool
        requires race { cells.now ≡ N.race }
        requires local { OwesLocalJob self.old.side.server self.old.side.hub run.old.subject
            queues.now }
        requires free { turn_refusal self.old.side.server self.old.side.hub self.old.finished
            ≡ None }
        requires last { goes_on ≡ true
            → IsLast (Some conn) run.old.subject run.old.echo queues.now self.old.issued }
        ensures issues { IssuesRun N.race.shards conn (if result then 1 else 0) run.old run.new
            self.old self.new }
        ensures last { result ≡ true
            → IsLast (Some conn) run.new.subject run.new.echo queues.now self.new.issued }
        ensures same { (self.new.finished ≡ self.old.finished)
            × (self.new.side.server ≡ self.old.side.server)
            × (self.new.side.hub
            ≡ (if result then behind_local 1 self.old.side.hub else self.old.side.hub)) }
    {
        let Some(ahead) = run.peek() else {
            return false;
        };
        let Some(turn) = self.side.hub().issued().next() else {
            // required: a turn is free
            unreachable!()
        };
        let origin = Origin {
            id: self.side.hub().next_id(),
            publisher: Some(conn),
            echo: run.echo(),
        };
        let Ok(names) = queues.try_clone() else {
            return false;
        };
        let Ok(()) = self.outlet.add_lent(
            turn,
            origin,
            &ahead.publication,
            names,
            is_wanted,
            goes_on,
        )
        else {
            return false;
        };
        run.pass(&ahead);
        self.side.commit_local();
        cells.issue_shown(&mut self.seat);
        true
    }

    /// The job of a message; the hub looks at the shards where it must.
    fn plan_message(
        &mut self,
        cells: &Cells,
        frame: &Numbered,
    ) -> Result<Option<Job>, Failure<HubFault>>
        requires race { cells.now ≡ N.race }
        ensures looks { Looks N.race.shards self.old self.new }
        ensures planned { IsAnswered
            (receive_refusal self.new.side.server self.new.side.hub self.new.finished frame.now)
            (λ job. job ≡ job_of self.new.side.hub frame.now frame.now.body) ⊤ result }
        ensures fresh { refuses_busy result ≡ true
            → IsLooked N.race.shards self.old.part self.new.finished self.new.part }
    {
        let planned = self.side.plan_receive(frame, &self.finished);
        if !is_busy(&planned) {
            return planned;
        }
        self.look(cells);
        self.side.plan_receive(frame, &self.finished)
    }

    /// Takes a message: the turn of its job, which is given to each shard.
    fn route(&mut self, cells: &Cells, frame: &Numbered) -> Result<Turn, Failure<HubFault>>
        requires race { cells.now ≡ N.race }
        requires message { has_message frame.now.body ≡ true }
        ensures { Routes N.race.shards self.old frame.now result self.new }
    {
        let planned = self.plan_message(cells, frame)?;
        // a frame that is a message has a job
        let Some(job) = planned else { unreachable!() };
        self.side.is_listed();
        let _in_order = job.queues.as_slice();
        let turn = job.turn;
        let Ok(()) = self.outlet.add(job) else {
            return Err(Failure::OutOfMemory);
        };
        self.side.take_message(frame);
        let Ok(_) = cells.issue(&mut self.seat) else {
            // the plan was not refused as busy, by the loads that the seat keeps
            unreachable!()
        };
        Ok(turn)
    }

    /// Applies news of a peer.
    fn apply_update(&mut self, frame: &Numbered) -> Result<(), Failure<HubFault>>
        requires { has_message frame.now.body ≡ false }
        ensures { IsAnswered
            (receive_refusal self.old.side.server self.old.side.hub self.old.finished frame.now)
            (λ _.
            Does self.old (ByHub (Receive frame.now self.old.finished))
            (OfHub (WasHeard frame.now.number)) self.new)
            (self.new ≡ self.old) result }
    {
        self.side.apply_update(frame, &self.finished)
    }

    /// Takes a frame of a peer. A message is issued: its job has the next turn and is given to each shard,
    /// and [`HubState::push_jobs`] pushes it; news are heard. A frame of a later life of the peer than was
    /// seen ends the session that was kept with it. Nothing is sent on (NATS documentation, "Cluster
    /// Protocol").
    ///
    /// Refused as [`Hub::plan_receive`](hub_core::Hub::plan_receive) is; [`HubFault::Busy`] is told by one
    /// load of each shard that was made in this call. Any `Err` leaves all as it was. Required: the race of
    /// this server.
    pub fn receive(
        &mut self,
        cells: &Cells,
        frame: &Numbered,
    ) -> Result<Received, Failure<HubFault>>
        requires { cells.now ≡ N.race }
        ensures { Receives N.race.shards self.old frame.now result self.new }
    {
        if is_message(frame) {
            return match self.route(cells, frame) {
                Ok(turn) => Ok(Received::Routed(turn)),
                Err(fault) => Err(fault),
            };
        }
        match self.apply_update(frame) {
            Ok(()) => Ok(Received::Heard(frame.number())),
            Err(fault) => Err(fault),
        }
    }

    /// [`Sessions::dial`](route_session::Sessions::dial).
    pub fn dial(&mut self, peer: usize) -> Result<SessionId, Failure<SessionFault>>
        ensures { IsAnswered
            (session_refusal self.old.side.server self.old.side.sessions (Dial peer))
            (λ session.
            Does self.old (BySessions (Dial peer)) (OfSessions (Dialed session)) self.new)
            (self.new ≡ self.old) result }
    {
        self.side.dial(peer)
    }

    /// [`Sessions::accept`](route_session::Sessions::accept).
    pub fn accept(&mut self) -> Result<(SessionId, RouteInfo), Failure<SessionFault>>
        ensures { IsAnswered (session_refusal self.old.side.server self.old.side.sessions Accept)
            (λ given.
            Does self.old (BySessions Accept) (OfSessions (Accepted given.0 given.1)) self.new)
            (self.new ≡ self.old) result }
    {
        self.side.accept()
    }

    /// [`Sessions::cut`](route_session::Sessions::cut); where the session was kept, its peer is not up any
    /// more. Takes no memory.
    pub fn cut(&mut self, session: SessionId) -> Result<Option<usize>, SessionFault>
        ensures { IsDecided
            (session_refusal self.old.side.server self.old.side.sessions (Cut session))
            (λ peer. Does self.old (BySessions (Cut session)) (OfSessions (WasCut peer)) self.new)
            (self.new ≡ self.old) result }
    {
        self.side.cut(session)
    }

    /// [`Sessions::on_info`](route_session::Sessions::on_info), with the greatest incarnation that the hub
    /// has seen of the sender. The peer is up then, and a snapshot of all interest is what waits for it.
    pub fn info(
        &mut self,
        session: SessionId,
        info: &RouteInfo,
    ) -> Result<(Kept, RouteConnect), Failure<SessionFault>>
        ensures { let e = OnInfo session info.now (seen_name self.old.side info.now.server_name) in
            IsAnswered (session_refusal self.old.side.server self.old.side.sessions e)
            (λ done.
            Does self.old (BySessions e) (OfSessions (KeptAfterInfo done.0.instead_of done.1))
            self.new)
            (self.new ≡ self.old) result }
    {
        self.side.info(session, info)
    }

    /// [`Sessions::on_connect`](route_session::Sessions::on_connect), with the greatest incarnation that
    /// the hub has seen of the sender. The peer is up then, and a snapshot of all interest is what waits
    /// for it.
    pub fn connect(
        &mut self,
        session: SessionId,
        connect: &RouteConnect,
    ) -> Result<Kept, Failure<SessionFault>>
        ensures { let e =
            OnConnect session connect.now (seen_name self.old.side connect.now.server_name) in
            IsAnswered (session_refusal self.old.side.server self.old.side.sessions e)
            (λ kept. Does self.old (BySessions e) (OfSessions (WasKept kept.instead_of)) self.new)
            (self.new ≡ self.old) result }
    {
        self.side.connect(session, connect)
    }

    /// Counts the deltas of a shard, and tells the peers of them: [`Hub::collect`](hub_core::Hub::collect).
    /// The shard's deltas are taken then; a peer that is cut loses the session that was kept with it. Any
    /// `Err` leaves both as they were.
    pub fn collect<T: SubTable>(
        &mut self,
        shard: &mut ShardState<T, N>,
    ) -> Result<CollectResult, Failure<HubFault>>
        ensures { Collects self.old shard.old result self.new shard.new }
    {
        let number = shard.shard();
        let told = match self.side.collect(number, shard.deltas()) {
            Ok(told) => told,
            Err(fault) => return Err(fault),
        };
        shard.take_deltas();
        Ok(told)
    }

    /// [`Hub::drain`](hub_core::Hub::drain); a peer that is cut loses the session that was kept with it.
    pub fn drain(&mut self) -> Result<Vec<usize>, Failure<HubFault>>
        ensures { IsAnswered (hub_refusal self.old.side.server self.old.side.hub Drain)
            (λ cut.
            Does self.old (ByHub Drain)
            (OfHub (Drained (drain_frames self.old.side.server self.old.side.hub) cut.items))
            self.new)
            (self.new ≡ self.old) result }
    {
        self.side.drain()
    }

    /// [`Hub::take_route`](hub_core::Hub::take_route).
    pub fn take_frames(
        &mut self,
        peer: usize,
        count: usize,
    ) -> Result<Vec<Numbered>, Failure<HubFault>>
        ensures { IsAnswered
            (hub_refusal self.old.side.server self.old.side.hub (TakeFrom peer count))
            (λ frames.
            Does self.old (ByHub (TakeFrom peer count)) (OfHub (Taken frames.items)) self.new)
            (self.new ≡ self.old) result }
    {
        self.side.take_frames(peer, count)
    }

    /// Its seat, and its ends of the lanes: what was pushed to each is a beginning of the jobs that it gave
    /// to the shards. All that it ever did is a list of the hub's and the sessions' own steps.
    pub fn into_parts(self) -> (HubSeat, Vec<LaneSender<N>>)
        ensures seat { (result.0.race ≡ N.race) × (result.0.part ≡ self.part) }
        ensures lines { All (λ line. AreFirst line.pushed self.issued) result.1.items }
        ensures done { IsAtHub N.race.shards self }
    {
        let HubState {
            side: _,
            seat,
            finished: _,
            outlet,
            of: _,
        } = self;
        (seat, outlet.into_lines())
    }
}
