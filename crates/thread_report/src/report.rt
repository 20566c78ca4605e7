//! The end of a server on threads.

ghost use Rattle.std.specs.Prelude.{◌≡◌, ◌++◌, ◌∷◌, [], true, List, Option, All, length, map, vec_len, IfOk, OnOk};
ghost use Rattle.std.specs.Arc.{arc_value};
ghost use Rattle.subj.specs.declared.jobs.Job.{Job};
ghost use Rattle.claim_cells.specs.Calls.{AllOf, HasEach, IsClosed};
ghost use Rattle.node_threads.specs.AtHub.{IsAtHub};
ghost use Rattle.node_threads.specs.Outlets.{AreFirst};
ghost use Rattle.node_threads.specs.Tapes.{IsTape};
ghost use Rattle.node_threads.specs.declared.shard_entries.ShardEntry.{ShardEntry};
ghost use Rattle.thread_report.specs.Handing.{AreHanded};
ghost use Rattle.thread_report.specs.Issued.{AreIssued, issued_on as jobs_on};
ghost use Rattle.thread_report.specs.Owed.{AreTold};
ghost use Rattle.thread_report.specs.Placements.{ArePlaced, all_placements};
ghost use Rattle.thread_law.specs.Once.{AreOnce, ArePutOnce};
ghost use Rattle.thread_law.specs.Runs.{HubRun, IsLegal, ShardRun};
ghost use Rattle.thread_report.specs.Reports.{AreClosed, IsKept, IsOver, IsWritten, Tells};

use crate::faults::Unfinished;
use crate::handing::torn_shard;
use crate::issued::{IssuedJob, issued_on};
use crate::passes::Pass;
use crate::passes_told::are_told;
use claim_cells::{Cells, Closed, HubSeat, ShardSeat};
use job_lane::meet;
use node_threads::{HubState, LaneSender, NodeName, ShardEntry, Tape};
use std::alloc::{AllocError, Global};
use std::sync::{Arc, Mutex, Wait};
use sub_table::SubTable;
use subj::{Finished, ServerIdentity, Turn};
use thread_law::legal_runs_are_once;
use thread_node::{HubEntry, LockedShard, ThreadNode};

/// What a server has done.
#[derive(Drop)]
pub struct Report {
    /// Which server it was.
    pub server: ServerIdentity,
    /// The last turn issued; it is told where nothing was written down, too.
    pub issued: Turn,
    /// The publications that were issued, in order of turns: one a turn; nothing where nothing was written down.
    pub jobs: Vec<IssuedJob>,
    /// The last turn that each shard finished.
    pub finished: Finished,
    /// Whether what was done was written down.
    pub kept: bool,
    /// All that the hub and the sessions did and refused, in order; nothing where nothing was written down.
    pub hub: Vec<HubEntry>,
    /// All that each shard did and refused, in order, that of shard 1 first; nothing of each where nothing was
    /// written down. A begin and a claim have the messages that they placed.
    pub worked: Vec<Vec<ShardEntry>>,
}

/// What a tape says, or nothing where nothing was to be written down.
fn entries_on<E: Drop>(alloc: Global, keep: bool, tape: Tape<E>) -> Result<Vec<E>, Unfinished>
    ensures { IfOk result (λ entries. IsKept keep tape entries.items) }
{
    if !keep {
        return Ok(Vec::new(alloc));
    }
    tape.into_entries().ok_or(Unfinished::OutOfMemory)
}

/// Puts the two ends of a shard's lane together, and gives its seat, and what stands on its tape.
/// [`Unfinished::Torn`] where one of the ends is not of the shard of this number.
fn close_shard<T: SubTable, N: NodeName, R: Wait>(
    rt: &R,
    alloc: Global,
    keep: bool,
    number: u64,
    line: LaneSender<N>,
    shard: LockedShard<T, N>,
) -> Result<(ShardSeat, Vec<ShardEntry>), Unfinished>
    ensures seat { IfOk result (λ made. (made.0.race ≡ N.race) × (made.0.part ≡ shard.part)) }
    ensures shard { IfOk result (λ _. shard.part.shard ≡ number) }
    ensures tape { IfOk result (λ made.
        (tape : Option (List ShardEntry))
        × IsTape N.race.shards shard tape
        × IsKept keep tape made.1.items) }
    ensures popped { IfOk result (λ _. AreFirst shard.popped line.pushed) }
{
    if line.shard() != number || shard.shard() != number {
        return Err(Unfinished::Torn(number));
    }
    let (state, tape) = shard.into_parts();
    let (seat, far) = state.into_parts();
    meet(rt, line.into_lane(), far);
    let entries = entries_on(alloc, keep, tape)?;
    Ok((seat, entries))
}

/// The seats of the shards that are closed, and what stands on their tapes, in their order.
#[derive(Drop)]
struct ClosedShards {
    seats: Vec<ShardSeat>,
    tapes: Vec<Vec<ShardEntry>>,
}

impl ClosedShards {
    /// Of no shard.
    fn new(alloc: Global) -> ClosedShards
        ensures seats { result.seats.items ≡ [] }
        ensures tapes { result.tapes.items ≡ [] }
    {
        ClosedShards {
            seats: Vec::new(alloc),
            tapes: Vec::new(alloc),
        }
    }

    /// Adds a shard behind the others.
    fn add(&mut self, seat: ShardSeat, entries: Vec<ShardEntry>) -> Result<(), AllocError>
        ensures seats { OnOk result (self.new.seats.items ≡ self.old.seats.items ++ seat ∷ []) }
        ensures tapes { OnOk result (self.new.tapes.items ≡ self.old.tapes.items ++ entries ∷ []) }
    {
        self.seats.push(seat)?;
        self.tapes.push(entries)?;
        Ok(())
    }
}

/// Closes all shards.
fn close_shards<T: SubTable, N: NodeName, R: Wait>(
    rt: &R,
    alloc: Global,
    keep: bool,
    lines: Vec<LaneSender<N>>,
    shards: Vec<Mutex<LockedShard<T, N>>>,
) -> Result<ClosedShards, Unfinished>
    ensures { IfOk result (λ made.
        (length made.seats.items ≡ vec_len shards)
        × ((issued : List Job) → All (λ line. AreFirst line.pushed issued) lines.items
        → AreClosed N.race issued keep made.seats.items
        (map (λ entries. entries.items) made.tapes.items))) }
{
    let count = shards.len();
    let mut closed = ClosedShards::new(alloc);
    for (line, shard) in lines.into_iter().zip(shards) {
        let number = closed.seats.len() as u64 + 1;
        let (seat, entries) = close_shard(rt, alloc, keep, number, line, shard.into_inner())?;
        closed.add(seat, entries)?;
    }
    if closed.seats.len() != count {
        return Err(Unfinished::Torn(closed.seats.len() as u64 + 1));
    }
    Ok(closed)
}

/// Ends the race, whose seats are all here.
fn close_race(
    cells: Arc<Cells, Global>,
    seat: HubSeat,
    seats: Vec<ShardSeat>,
) -> Result<Closed, Unfinished>
    requires hub { seat.race ≡ arc_value cells }
    requires shards { AllOf (arc_value cells) seats.items }
    requires each { HasEach (arc_value cells).shards seats.items }
    ensures { IfOk result (λ closed.
        IsClosed (arc_value cells) seat.part seats.items closed.issued closed.finished
        closed.cells.items) }
{
    let Some(cells) = Arc::into_inner(cells) else {
        return Err(Unfinished::Torn(0));
    };
    Ok(cells.close(seat, seats)?)
}

/// What the hub's tape says, and the publications that it names; nothing of both where nothing was to be written down.
fn written_by_hub(
    alloc: Global,
    keep: bool,
    tape: Tape<HubEntry>,
) -> Result<(Vec<HubEntry>, Vec<IssuedJob>), Unfinished>
    ensures kept { IfOk result (λ made. IsKept keep tape made.0.items) }
    ensures jobs { IfOk result (λ made. made.1.items ≡ jobs_on 1 made.0.items) }
{
    let entries = entries_on(alloc, keep, tape)?;
    let jobs = issued_on(alloc, entries.as_slice())?;
    Ok((entries, jobs))
}

/// Ends the race of these shards, whose seats come together with the hub's, and gives what stands on the shards' tapes.
fn close_all<T: SubTable, N: NodeName, R: Wait>(
    rt: &R,
    alloc: Global,
    keep: bool,
    state: HubState<N>,
    cells: Arc<Cells, Global>,
    shards: Vec<Mutex<LockedShard<T, N>>>,
) -> Result<(Closed, Vec<Vec<ShardEntry>>), Unfinished>
    requires race { arc_value cells ≡ N.race }
    requires all { vec_len shards ≡ N.race.shards }
    ensures hub { IfOk result (λ _. IsAtHub N.race.shards state) }
    ensures over { IfOk result (λ made.
        IsOver N.race state keep (map (λ entries. entries.items) made.1.items) made.0.issued
        made.0.finished made.0.cells.items) }
{
    let (seat, lines) = state.into_parts();
    let ClosedShards { seats, tapes } = close_shards(rt, alloc, keep, lines, shards)?;
    let closed = close_race(cells, seat, seats)?;
    Ok((closed, tapes))
}

/// The report of a server, with which no pass was compared yet.
fn reported<T: SubTable, N: NodeName, R: Wait>(
    rt: &R,
    alloc: Global,
    node: ThreadNode<T, N>,
) -> Result<Report, Unfinished>
    ensures kept { IfOk result (λ report. report.kept ≡ N.keep) }
    ensures legal { IfOk result (λ report.
        (hub : HubRun)
        × (runs : List ShardRun)
        × (hub.end.side.server ≡ report.server)
        × IsLegal N.race.shards hub runs
        × AreOnce hub runs
        × Tells hub runs report.issued report.finished
        × IsWritten report.kept N.race.shards hub runs report.hub.items
        (map (λ entries. entries.items) report.worked.items)
        × AreIssued report.kept hub report.jobs.items
        × ArePlaced report.kept runs (map (λ entries. entries.items) report.worked.items)) }
{
    let keep = node.keeps_tapes();
    let (hub, shards) = node.into_locked();
    let (server, state, cells, tape) = hub.into_parts();
    let (hub, jobs) = written_by_hub(alloc, keep, tape)?;
    let (closed, worked) = close_all(rt, alloc, keep, state, cells, shards)?;
    legal_runs_are_once();
    Ok(Report {
        server,
        issued: closed.issued,
        jobs,
        finished: closed.finished,
        kept: keep,
        hub,
        worked,
    })
}

/// Compares what was written down of the hub of this server with what was of the shards, and then with the passes.
fn compare<T: SubTable, N: NodeName>(
    alloc: Global,
    keep: bool,
    passes: Vec<Pass<N>>,
    server: &ServerIdentity,
    hub: &[HubEntry],
    worked: &[Vec<ShardEntry>],
) -> Result<(), Unfinished>
    ensures handed { OnOk result
        (keep ≡ true → AreHanded hub.now (map (λ entries. entries.items) worked.now)) }
    ensures told { OnOk result
        (keep ≡ true
        → AreTold server.now passes.items hub.now
        (map (λ entries. entries.items) worked.now)) }
{
    if let Some(number) = torn_shard(alloc, keep, hub, worked)? {
        return Err(Unfinished::Torn(number));
    }
    if !are_told::<T, N>(alloc, keep, passes, server, hub, worked)? {
        return Err(Unfinished::Untold);
    }
    Ok(())
}

/// Ends the server, and tells which turns it issued and finished, and, where it was to be written down, all that it
/// did and refused, and which publication each turn issued has. There is a legal run with these numbers and just
/// these steps: a list of the hub's and the sessions' steps and one of each shard's steps, where each shard worked a
/// beginning of the jobs that the hub gave, in order, no queue name of a turn was won twice, and each that was lost
/// was won by another shard. Each publication stands in one job, which one publish or one frame of a peer gave; over
/// all shards it was put once at most for a queue name and once for a subscription, and each subscription got those
/// of one incarnation in rising number. Where it was written down, the hub was handed just the deltas that each shard
/// gave, collect for collect ([`Unfinished::Torn`] else, which no server comes to); and then the passes tell each
/// step of the hub's and each one of a shard's but for collects and the parts of turns, once, with what was asked and
/// answered, each refusal too, and nothing else; and those of one caller under one lock stand in order. Each refusal
/// has the cause that the hub or the shard had in the state in which it refused.
///
/// The lists of answers are told whole. The tapes have them in numbers: so a new hub and new shards do again what stands
/// there, which takes about the time of the steps, and as much memory as the hub, and then as one shard after the other.
/// The server is given up for want of memory too. May wait.
pub fn finish<T: SubTable, N: NodeName, R: Wait>(
    rt: &R,
    alloc: Global,
    node: ThreadNode<T, N>,
    passes: Vec<Pass<N>>,
) -> Result<Report, Unfinished>
    ensures kept { IfOk result (λ report. report.kept ≡ N.keep) }
    ensures handed { IfOk result (λ report.
        report.kept ≡ true
        → AreHanded report.hub.items (map (λ entries. entries.items) report.worked.items)) }
    ensures told { IfOk result (λ report.
        report.kept ≡ true
        → AreTold report.server passes.items report.hub.items
        (map (λ entries. entries.items) report.worked.items)) }
    ensures once { IfOk result (λ report.
        ArePutOnce (all_placements (map (λ entries. entries.items) report.worked.items))) }
    ensures legal { IfOk result (λ report.
        (hub : HubRun)
        × (runs : List ShardRun)
        × (hub.end.side.server ≡ report.server)
        × IsLegal N.race.shards hub runs
        × AreOnce hub runs
        × Tells hub runs report.issued report.finished
        × IsWritten report.kept N.race.shards hub runs report.hub.items
        (map (λ entries. entries.items) report.worked.items)
        × AreIssued report.kept hub report.jobs.items
        × ArePlaced report.kept runs (map (λ entries. entries.items) report.worked.items)) }
{
    let report = reported(rt, alloc, node)?;
    compare::<T, N>(
        alloc,
        report.kept,
        passes,
        &report.server,
        report.hub.as_slice(),
        report.worked.as_slice(),
    )?;
    Ok(report)
}
