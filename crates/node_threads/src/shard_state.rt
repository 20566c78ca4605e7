//! What stands under the lock of a shard: its state, the calls that its connections make, its turns, the jobs that it drops, and its end. A turn
//! works one job, or several that wait in one call, each to its end, and may be held by a gate; its steps are written down.

ghost use Rattle.std.specs.Prelude.{◌≡◌, ◌-◌, ◌<◌, ◌≤◌, [], ◌∷◌, None, Some, IfOk, IfSome, IfNone, slice_get, option_to_list, true, false, cond, is_some, length, nat_lt, OnOk, OnErr};
ghost use Rattle.subj.specs.Answers.{IsAnswered, IsDecided};
ghost use Rattle.subj.specs.declared.limits.TheConstants.{MAX_SHARDS};
ghost use Rattle.claim_cells.specs.Rule.{newcomer};
ghost use Rattle.shard_core.specs.Answers.{answer_of};
ghost use Rattle.shard_core.specs.ShardEvents.{Attach, Subscribe, Unsubscribe, Reply, SetHeaders, Shut, Detach, Take, Drain, Drains, Collect, DropJob, Attached, Unsubscribed, Replied, HeadersSet, WasShut, Detached, Taken, Collected};
ghost use Rattle.shard_core.specs.Shards.{is_open as opened};
ghost use Rattle.shard_core.specs.ShardSteps.{shard_refusal};
ghost use Rattle.node_threads.specs.AtWork.{Does, TakesBytes, at_start, Makes, HasDone};
ghost use Rattle.claim_cells.specs.Seats.{HasTurn, last_load};
ghost use Rattle.shard_core.specs.declared.faults.ShardFault.TheVariants.{NoJob};
ghost use Rattle.node_threads.specs.Tapes.{Grows, Tells, begin_entry, claim_entry, drop_entry, end_entry, refused_entry};
ghost use Rattle.node_threads.specs.Turns.{ClaimsOne, DeliversFirst, HasEnded, HasNone, HasTried, HasWorked, MayBegin, MayClaim, Turns, Drops, HasDropped, WorksFirst};

use crate::gates::{Gate, GatedCells, tell};
use crate::node_name::NodeName;
use crate::shard_entries::{Placements, ShardEntry, ShardEvent, ShardTold, Tape};
use crate::turned::Turned;
use claim_cells::{Cells, ShardSeat};
use client_frames::{ErrText, ReplyFrame};
use job_block::JobSlice;
use job_lane::LaneOut;
use outbox::Entry;
use shard_core::{
    Candidate, Closed, DirtyConns, Placed, Shard, ShardFault, Subscribed, claims_are_whole,
    runs_are_worked,
};
use std::alloc::{AllocError, Global};
use std::marker::{Model, PhantomData};
use std::sync::Wait;
use sub_table::SubTable;
use subj::{ConnId, Delta, Failure, Job, Key, Sid, SubId, Turn};

/// A shard of a server on threads: the shard, its seat at the race, and its end of its lane. (Profile.)
///
/// Seen as the shard's state, what its seat knows, the jobs popped from the lane, and the one of them that
/// is not begun yet. All that it ever did is a list of the shard's own steps; it worked just the jobs that
/// it popped, in order, and its seat won and lost just what these steps say.
pub struct ShardState<T: SubTable, N: NodeName> {
    alloc: Global,
    shard: Shard<T>,
    seat: ShardSeat,
    lane: LaneOut,
    /// Whether the job in hand of the lane is not begun yet.
    waits: bool,
    /// The index of the queue name of the shard's job in hand that is to be claimed next.
    next_index: u64,
    of: PhantomData<N>,
}

/// One call, also for crates above: `docs/PROVING.md`, "What a proof costs".
impl<T: SubTable, N: NodeName> Drop for ShardState<T, N> {
    fn drop(self) {
        let ShardState {
            alloc: _,
            shard: _,
            seat: _,
            lane: _,
            waits: _,
            next_index: _,
            of: _,
        } = self;
    }
}

impl<T: SubTable, N: NodeName> Model for ShardState<T, N> {
    ghost use Rattle.std.specs.Prelude.{◌≡◌, ◌-◌, true, Some, is_some, slice_get};
    ghost use Rattle.node_threads.specs.AtWork.{AtWork, IsAtWork, seen_as};

    ghost Value = { AtWork };

    ghost view = { λ s. seen_as s.shard.state s.seat.part s.lane.popped s.lane.hand s.waits };

    ghost invariant = { λ s.
        IsAtWork N.race.shards s.next_index
        (seen_as s.shard.state s.seat.part s.lane.popped s.lane.hand s.waits)
        × (s.waits ≡ true → is_some s.lane.hand ≡ true)
        × (s.seat.race ≡ N.race)
        × (slice_get N.lanes (s.seat.part.shard - 1) ≡ Some s.lane.lane) };
}

/// Delivers as many of these jobs at once as it can, from the first on and at most so many. Gives how
/// many; 0 also for want of memory.
fn deliver_first<T: SubTable>(shard: &mut Shard<T>, jobs: &JobSlice<'_>, most: u64) -> usize
    ensures most { result ≤ most }
    ensures delivers { DeliversFirst jobs.now result shard.old.state shard.new.state }
{
    let most = jobs.len().min(most as usize);
    shard.deliver_run(&jobs.first(most)).unwrap_or(0)
}

/// Delivers as many of these jobs at once as it can, from the first on, and finishes their turns. Gives how many; 0 where the first one has
/// to be worked alone.
fn work_plain<T: SubTable>(
    shard: &mut Shard<T>,
    seat: &mut ShardSeat,
    cells: &Cells,
    jobs: &JobSlice<'_>,
) -> usize
    requires { seat.old.race ≡ cells.now }
    ensures race { seat.new.race ≡ seat.old.race }
    ensures works { WorksFirst jobs.now result shard.old.state seat.old.part shard.new.state
        seat.new.part }
{
    let count = deliver_first(shard, jobs, seat.turns_seen());
    if count == 0 {
        return 0;
    }
    runs_are_worked();
    cells.finish_many(seat, count as u64);
    count
}

/// Works as many of these jobs in one call as it can, from the first on, where each claims one queue name. Gives how many; 0 where the first
/// one has to be worked alone.
fn work_claimed<T: SubTable, G: Gate>(
    shard: &mut Shard<T>,
    seat: &mut ShardSeat,
    race: &GatedCells<'_, G>,
    jobs: &JobSlice<'_>,
) -> usize
    requires race { seat.old.race ≡ race.now.cells.now }
    requires seen { HasTurn seat.old.part }
    requires finished { seat.old.part.finished ≡ shard.old.state.finished }
    requires next { seat.old.part.next ≡ 0 }
    ensures race { seat.new.race ≡ seat.old.race }
    ensures works { WorksFirst jobs.now result shard.old.state seat.old.part shard.new.state
        seat.new.part }
{
    let most = jobs.len().min(seat.turns_seen() as usize);
    shard.work_claims(&jobs.first(most), race, seat)
}

/// Works as many of these jobs to their ends in one call as it can, of those that are like the first. Gives how many; 0 where the first one has to
/// be worked alone. Required: there is a job.
fn work_alike<T: SubTable, G: Gate>(
    shard: &mut Shard<T>,
    seat: &mut ShardSeat,
    cells: &Cells,
    gate: &G,
    jobs: &JobSlice<'_>,
) -> usize
    requires race { seat.old.race ≡ cells.now }
    requires some { 0 < length jobs.now }
    requires seen { HasTurn seat.old.part }
    requires finished { seat.old.part.finished ≡ shard.old.state.finished }
    requires next { seat.old.part.next ≡ 0 }
    ensures race { seat.new.race ≡ seat.old.race }
    ensures works { WorksFirst jobs.now result shard.old.state seat.old.part shard.new.state
        seat.new.part }
{
    if jobs.get(0).queues().as_slice().is_empty() {
        return work_plain(shard, seat, cells, jobs);
    }
    work_claimed(shard, seat, &GatedCells { cells, gate }, jobs)
}

/// Works as many of these jobs to their ends in one call as it can, from the first on, run by run. Gives how many; 0 where the first one has to be
/// worked alone.
fn work_first<T: SubTable, G: Gate>(
    shard: &mut Shard<T>,
    seat: &mut ShardSeat,
    cells: &Cells,
    gate: &G,
    jobs: &JobSlice<'_>,
) -> usize
    requires race { seat.old.race ≡ cells.now }
    requires finished { seat.old.part.finished ≡ shard.old.state.finished }
    requires next { seat.old.part.next ≡ 0 }
    ensures race { seat.new.race ≡ seat.old.race }
    ensures works { WorksFirst jobs.now result shard.old.state seat.old.part shard.new.state
        seat.new.part }
{
    let mut done = 0;
    while done < jobs.len() && seat.has_turn() {
        let count = work_alike(shard, seat, cells, gate, &jobs.behind(done));
        if count == 0 {
            return done;
        }
        done += count;
    }
    done
}

/// That the queue name of this index was tried, whether it was won, and which message was placed then.
fn note_claim(tape: &mut Tape<ShardEntry>, index: u64, won: bool, placed: Option<Placed>)
    ensures { Grows tape.old (claim_entry index won placed ∷ []) tape.new }
{
    if !tape.is_kept() {
        return;
    }
    tape.note(ShardEntry {
        event: ShardEvent::Claim { index, won, placed },
        told: ShardTold::Work,
    });
}

/// That the job in hand was ended.
fn note_end(tape: &mut Tape<ShardEntry>)
    ensures { Grows tape.old (end_entry ∷ []) tape.new }
{
    if !tape.is_kept() {
        return;
    }
    tape.note(ShardEntry {
        event: ShardEvent::End,
        told: ShardTold::Work,
    });
}

/// That this job was dropped, which had been begun, or waited.
fn note_drop(tape: &mut Tape<ShardEntry>, job: Job, waited: bool)
    ensures { Grows tape.old (drop_entry (cond waited (Some job) None) (Some job) ∷ []) tape.new }
{
    if !tape.is_kept() {
        return;
    }
    let turn = job.turn;
    tape.note(ShardEntry {
        event: ShardEvent::DropJob(waited.then_some(job)),
        told: ShardTold::Dropped(Some(turn)),
    });
}

/// That there was no job to drop.
fn note_no_job(tape: &mut Tape<ShardEntry>)
    ensures { Grows tape.old (refused_entry (DropJob None) NoJob ∷ []) tape.new }
{
    if !tape.is_kept() {
        return;
    }
    tape.note(ShardEntry {
        event: ShardEvent::DropJob(None),
        told: ShardTold::Refused(ShardFault::NoJob),
    });
}

/// Writes down that the job in hand was begun, and which messages were placed then. Nothing where none is in hand.
fn note_begun<T: SubTable>(tape: &mut Tape<ShardEntry>, shard: &Shard<T>, placed: Placements)
    ensures { (job : _)
        → shard.now.state.hand ≡ Some job
        → Grows tape.old (begin_entry job placed ∷ []) tape.new }
{
    if !tape.is_kept() {
        return;
    }
    let Some(job) = shard.hand() else { return };
    let Ok(job) = job.try_clone() else {
        tape.give_up();
        return;
    };
    tape.note(ShardEntry {
        event: ShardEvent::Begin { job, placed },
        told: ShardTold::Work,
    });
}

impl<T: SubTable, N: NodeName> ShardState<T, N> {
    /// The shard that has this seat, with the end of its lane: it has no connection, and no job was popped.
    pub fn new(
        alloc: Global,
        seat: ShardSeat,
        shards: u64,
        lane: LaneOut,
    ) -> Result<ShardState<T, N>, AllocError>
        requires race { seat.race ≡ N.race }
        requires shards { shards ≡ N.race.shards }
        requires few { shards ≤ MAX_SHARDS }
        requires part { seat.part ≡ newcomer seat.part.shard }
        requires lane { slice_get N.lanes (seat.part.shard - 1) ≡ Some lane.lane }
        requires fresh { (lane.popped ≡ []) × (lane.hand ≡ None) }
        ensures { IfOk result (λ made. made ≡ at_start seat.part.shard shards) }
    {
        let shard = Shard::new(alloc, seat.shard(), shards)?;
        Ok(ShardState {
            alloc,
            shard,
            seat,
            lane,
            waits: false,
            next_index: 0,
            of: PhantomData,
        })
    }

    /// Which shard it is, counted from 1.
    pub fn shard(&self) -> u64
        ensures { result ≡ self.now.part.shard }
    {
        self.seat.shard()
    }

    /// [`Shard::attach`].
    pub fn attach(&mut self) -> Result<ConnId, Failure<ShardFault>>
        ensures { IsAnswered (shard_refusal self.old.state Attach)
            (λ conn. Does self.old Attach (Attached conn) self.new) (self.new ≡ self.old) result }
    {
        self.shard.attach()
    }

    /// [`Shard::subscribe`].
    pub fn subscribe(
        &mut self,
        conn: ConnId,
        key: Key,
        sid: Sid,
    ) -> Result<Subscribed, Failure<ShardFault>>
        ensures { IsAnswered (shard_refusal self.old.state (Subscribe conn key sid))
            (λ done. Does self.old (Subscribe conn key sid) (answer_of done) self.new)
            (self.new ≡ self.old) result }
    {
        self.shard.subscribe(conn, key, sid)
    }

    /// [`Shard::unsubscribe`].
    pub fn unsubscribe(
        &mut self,
        conn: ConnId,
        sid: &Sid,
        max: Option<u64>,
    ) -> Result<Option<SubId>, ShardFault>
        ensures { IsDecided (shard_refusal self.old.state (Unsubscribe conn sid.now max))
            (λ ended.
            Does self.old (Unsubscribe conn sid.now max) (Unsubscribed (option_to_list ended))
            self.new)
            (self.new ≡ self.old) result }
    {
        self.shard.unsubscribe(conn, sid, max)
    }

    /// [`Shard::reply`].
    pub fn reply(&mut self, conn: ConnId, frame: &ReplyFrame) -> Result<Closed, Failure<ShardFault>>
        ensures { IsAnswered (shard_refusal self.old.state (Reply conn frame.now))
            (λ closed.
            Does self.old (Reply conn frame.now) (Replied closed.shut closed.ended.items) self.new)
            (self.new ≡ self.old) result }
    {
        self.shard.reply(conn, frame)
    }

    /// [`Shard::set_headers`].
    pub fn set_headers(&mut self, conn: ConnId, on: bool) -> Result<(), ShardFault>
        ensures { IsDecided (shard_refusal self.old.state (SetHeaders conn on))
            (λ _. Does self.old (SetHeaders conn on) HeadersSet self.new) (self.new ≡ self.old)
            result }
    {
        self.shard.set_headers(conn, on)
    }

    /// [`Shard::drain`].
    pub fn drain(&mut self) -> Result<(), ShardFault>
        ensures { IsDecided (shard_refusal self.old.state Drain)
            (λ _. Does self.old Drain Drains self.new) (self.new ≡ self.old) result }
    {
        self.shard.drain()
    }

    /// [`Shard::shut`].
    pub fn shut(&mut self, conn: ConnId, text: ErrText) -> Result<Vec<SubId>, Failure<ShardFault>>
        ensures { IsAnswered (shard_refusal self.old.state (Shut conn text))
            (λ ended. Does self.old (Shut conn text) (WasShut ended.items) self.new)
            (self.new ≡ self.old) result }
    {
        self.shard.shut(conn, text)
    }

    /// [`Shard::detach`].
    pub fn detach(&mut self, conn: ConnId) -> Result<Vec<SubId>, Failure<ShardFault>>
        ensures { IsAnswered (shard_refusal self.old.state (Detach conn))
            (λ ended. Does self.old (Detach conn) (Detached ended.items) self.new)
            (self.new ≡ self.old) result }
    {
        self.shard.detach(conn)
    }

    /// [`Shard::take`].
    pub fn take(&mut self, conn: ConnId, count: usize) -> Result<Vec<Entry>, Failure<ShardFault>>
        ensures { IsAnswered (shard_refusal self.old.state (Take conn count))
            (λ entries. Does self.old (Take conn count) (Taken entries.items) self.new)
            (self.new ≡ self.old) result }
    {
        self.shard.take(conn, count)
    }

    /// [`Shard::take_bytes`].
    pub fn take_bytes(
        &mut self,
        conn: ConnId,
        count: usize,
        out: &mut Vec<u8>,
    ) -> Result<usize, Failure<ShardFault>>
        ensures { IsAnswered (shard_refusal self.old.state (Take conn count))
            (λ taken. TakesBytes self.old conn count taken out.old.items out.new.items self.new)
            ((self.new ≡ self.old) × (out.new.items ≡ out.old.items)) result }
    {
        self.shard.take_bytes(conn, count, out)
    }

    /// [`Shard::is_open`].
    pub fn is_open(&self, conn: ConnId) -> bool
        ensures { result ≡ opened conn self.now.state.clients }
    {
        self.shard.is_open(conn)
    }

    /// [`Shard::is_urgent`].
    pub fn is_urgent(&self) -> bool {
        self.shard.is_urgent()
    }

    /// [`Shard::swap_dirty_conns`].
    pub fn swap_dirty_conns(&mut self, dirty_conns: &mut DirtyConns)
        ensures { self.new ≡ self.old }
    {
        self.shard.swap_dirty_conns(dirty_conns);
    }

    /// [`Shard::deltas`].
    pub fn deltas(&self) -> &[Delta]
        ensures { result.now ≡ self.now.state.deltas }
    {
        self.shard.deltas()
    }

    /// [`Shard::take_deltas`].
    pub fn take_deltas(&mut self)
        ensures { Does self.old Collect (Collected self.old.state.deltas) self.new }
    {
        self.shard.take_deltas();
    }

    /// Makes a whole turn: begins the next job, unless one is in hand still; tries each of its queue names
    /// that was not tried, where the candidate gets its entry if the claim is won; and ends the job. Where
    /// no job is in hand and no tape is kept, several jobs that wait may be worked at once instead, which
    /// leaves what working one after the other leaves.
    ///
    /// The gate is told of each candidate, before its claim. All steps that were made stand on the tape, where that
    /// is kept. Required: the race of this server. May wait.
    pub fn turn<G: Gate, R: Wait>(
        &mut self,
        rt: &R,
        cells: &Cells,
        gate: &G,
        tape: &mut Tape<ShardEntry>,
    ) -> Turned
        requires { cells.now ≡ N.race }
        ensures turns { Turns self.old result self.new }
        ensures tells { Tells self.old tape.old self.new tape.new }
    {
        if !self.has_job(rt, cells) {
            return Turned::Idle;
        }
        if let Some(turned) = self.work_run(cells, gate, tape) {
            return turned;
        }
        self.work_one(cells, gate, tape)
    }

    /// Works the jobs that wait to their ends at once, as many as that can be done of, where no tape is
    /// kept. None where it can be done of none.
    fn work_run<G: Gate>(
        &mut self,
        cells: &Cells,
        gate: &G,
        tape: &Tape<ShardEntry>,
    ) -> Option<Turned>
        requires race { cells.now ≡ N.race }
        requires may { MayBegin self.old }
        ensures some { IfSome result (λ turned. Turns self.old turned self.new) }
        ensures none { IfNone result (self.new ≡ self.old) }
        ensures tells { Tells self.old tape.now self.new tape.now }
    {
        if !self.waits || tape.is_kept() {
            return None;
        }
        let Some(jobs) = self.lane.waiting() else {
            // the job in hand of the lane waits
            unreachable!()
        };
        let count = work_first(&mut self.shard, &mut self.seat, cells, gate, &jobs);
        if count == 0 {
            return None;
        }
        let jobs = count as u64;
        self.lane.pop_behind(count - 1);
        self.waits = false;
        self.next_index = 0;
        Some(Turned::WorkedRun {
            jobs,
            last: self.seat.finished(),
        })
    }

    /// Works one job, from where it stands to its end.
    fn work_one<G: Gate>(&mut self, cells: &Cells, gate: &G, tape: &mut Tape<ShardEntry>) -> Turned
        requires race { cells.now ≡ N.race }
        requires may { MayBegin self.old }
        ensures turns { Turns self.old result self.new }
        ensures tells { Tells self.old tape.old self.new tape.new }
    {
        if self.begin_next(tape).is_err() {
            return Turned::Short;
        }
        if self.claim_rest(cells, gate, tape).is_err() {
            return Turned::Short;
        }
        Turned::Worked(self.end(cells, tape))
    }

    /// Whether a job is in hand, or one that was popped may be begun. Pops one where none was.
    fn has_job<R: Wait>(&mut self, rt: &R, cells: &Cells) -> bool
        requires { cells.now ≡ N.race }
        ensures works { HasWorked self.old self.new }
        ensures makes { Makes self.old [] self.new }
        ensures has { result ≡ true → MayBegin self.new }
        ensures none { result ≡ false → HasNone self.new }
    {
        if self.shard.hand().is_some() {
            return true;
        }
        self.has_next(rt) && self.sees_next(cells)
    }

    /// Whether a job waits that was popped. Pops one where none was.
    fn has_next<R: Wait>(&mut self, rt: &R) -> bool
        requires { self.old.state.hand ≡ None }
        ensures makes { Makes self.old [] self.new }
        ensures hand { self.new.state.hand ≡ None }
        ensures waits { result ≡ is_some self.new.waiting }
    {
        if self.waits {
            return true;
        }
        let Some(_turn) = self.lane.pop(rt) else {
            return false;
        };
        self.waits = true;
        true
    }

    /// Whether the shard has seen that its next turn is issued. It looks where it had not.
    fn sees_next(&mut self, cells: &Cells) -> bool
        requires race { cells.now ≡ N.race }
        requires hand { self.old.state.hand ≡ None }
        ensures makes { Makes self.old [] self.new }
        ensures hand { self.new.state.hand ≡ None }
        ensures waits { self.new.waiting ≡ self.old.waiting }
        ensures sees { result ≡ nat_lt self.new.part.finished (last_load self.new.part.loads) }
    {
        if self.seat.has_turn() {
            return true;
        }
        cells.see(&mut self.seat);
        self.seat.has_turn()
    }

    /// Begins the job that was popped, unless one is in hand.
    fn begin_next(&mut self, tape: &mut Tape<ShardEntry>) -> Result<(), AllocError>
        requires { MayBegin self.old }
        ensures works { HasWorked self.old self.new }
        ensures tells { Tells self.old tape.old self.new tape.new }
        ensures hand { OnOk result (is_some self.new.state.hand ≡ true) }
    {
        if self.shard.hand().is_some() {
            return Ok(());
        }
        let copy = self.lane.hand_copy(self.alloc)?;
        let Some(job) = copy else {
            // required: where no job is in hand, one was popped and waits
            unreachable!()
        };
        match self.shard.begin(job, tape.is_kept()) {
            Err(_) => Err(AllocError),
            Ok(begun) => {
                note_begun(tape, &self.shard, Placements::of(begun));
                self.waits = false;
                self.next_index = 0;
                Ok(())
            }
        }
    }

    /// Tries the queue names of the job in hand that were not tried.
    fn claim_rest<G: Gate>(
        &mut self,
        cells: &Cells,
        gate: &G,
        tape: &mut Tape<ShardEntry>,
    ) -> Result<(), AllocError>
        requires race { cells.now ≡ N.race }
        requires hand { is_some self.old.state.hand ≡ true }
        ensures works { HasWorked self.old self.new }
        ensures tells { Tells self.old tape.old self.new tape.new }
        ensures all { OnOk result (HasTried self.new.state) }
    {
        let Some(job) = self.shard.hand() else {
            // required: a job is in hand
            unreachable!()
        };
        let count = job.queues.as_slice().len() as u64;
        for index in self.next_index..count {
            self.claim(cells, gate, index, tape)?;
        }
        Ok(())
    }

    /// Tries the queue name of this index of the job in hand, which is the next one.
    fn claim<G: Gate>(
        &mut self,
        cells: &Cells,
        gate: &G,
        index: u64,
        tape: &mut Tape<ShardEntry>,
    ) -> Result<(), AllocError>
        requires race { cells.now ≡ N.race }
        requires next { MayClaim index self.old.state }
        ensures ok { OnOk result (ClaimsOne index self.old self.new) }
        ensures tells { Tells self.old tape.old self.new tape.new }
        ensures err { OnErr result (self.new ≡ self.old) }
    {
        claims_are_whole();
        let Some(job) = self.shard.hand() else {
            // required: the index is of a job in hand
            unreachable!()
        };
        let turn = job.turn;
        let _names = job.queues.as_slice();
        match self.shard.candidate(index, tape.is_kept()) {
            Err(_) => Err(AllocError),
            Ok(None) => {
                self.next_index = index + 1;
                note_claim(tape, index, false, None);
                Ok(())
            }
            Ok(Some(candidate)) => {
                tell(gate, &self.seat, turn, index);
                self.next_index = index + 1;
                if !cells.claim(&mut self.seat, index) {
                    note_claim(tape, index, false, None);
                    return Ok(());
                }
                let _ended = self.shard.place(index);
                let Candidate { placed, .. } = candidate;
                note_claim(tape, index, true, placed);
                Ok(())
            }
        }
    }

    /// Ends the job in hand, whose queue names were all tried: its turn.
    fn end(&mut self, cells: &Cells, tape: &mut Tape<ShardEntry>) -> Turn
        requires race { cells.now ≡ N.race }
        requires tried { HasTried self.old.state }
        ensures ends { HasEnded self.old result self.new }
        ensures tells { Tells self.old tape.old self.new tape.new }
    {
        let Some(job) = self.shard.hand() else {
            // required: a job is in hand
            unreachable!()
        };
        let turn = job.turn;
        let Ok(()) = self.shard.end() else {
            // required: all its queue names were tried
            unreachable!()
        };
        cells.finish(&mut self.seat);
        self.next_index = 0;
        note_end(tape);
        turn
    }

    /// Drops the job in hand, or else the next one, and its turn is finished: [`Shard::drop_job`]. Gives
    /// that turn. Refused with [`ShardFault::NoJob`] where a turn would be [`Turned::Idle`]; a job that was
    /// popped stays with the shard, also for want of memory. A drop and a refusal stand on the tape, where that
    /// is kept. Required: the race of this server. May wait.
    ///
    /// [`Shard::drop_job`]: shard_core::Shard::drop_job
    /// [`Turned::Idle`]: crate::Turned::Idle
    pub fn drop_job<R: Wait>(
        &mut self,
        rt: &R,
        cells: &Cells,
        tape: &mut Tape<ShardEntry>,
    ) -> Result<Turn, Failure<ShardFault>>
        requires { cells.now ≡ N.race }
        ensures drops { Drops self.old result self.new }
        ensures tells { Tells self.old tape.old self.new tape.new }
    {
        if !self.has_job(rt, cells) {
            note_no_job(tape);
            return Err(Failure::Refused(ShardFault::NoJob));
        }
        let Ok(waiting) = self.waiting_copy() else {
            return Err(Failure::OutOfMemory);
        };
        Ok(self.drop_now(cells, waiting, tape))
    }

    /// A copy of the job that waits.
    fn waiting_copy(&self) -> Result<Option<Job>, AllocError>
        ensures { IfOk result (λ waiting. waiting ≡ self.now.waiting) }
    {
        if !self.waits {
            return Ok(None);
        }
        self.lane.hand_copy(self.alloc)
    }

    /// Drops the job in hand, or else the one that waits.
    fn drop_now(&mut self, cells: &Cells, waiting: Option<Job>, tape: &mut Tape<ShardEntry>) -> Turn
        requires race { cells.now ≡ N.race }
        requires may { MayBegin self.old }
        requires waits { waiting ≡ self.old.waiting }
        ensures dropped { HasDropped self.old result self.new }
        ensures tells { Tells self.old tape.old self.new tape.new }
    {
        let waited = self.waits;
        let Some(job) = self.shard.drop_job(waiting) else {
            // required: where no job is in hand, one waits
            unreachable!()
        };
        cells.finish(&mut self.seat);
        self.waits = false;
        self.next_index = 0;
        let turn = job.turn;
        note_drop(tape, job, waited);
        turn
    }

    /// Its seat, and its end of its lane. All that it ever did is a list of the shard's own steps, over just
    /// the jobs that it popped, in order; and its seat won and lost just what these steps say.
    pub fn into_parts(self) -> (ShardSeat, LaneOut)
        ensures seat { (result.0.race ≡ N.race) × (result.0.part ≡ self.part) }
        ensures lane { slice_get N.lanes (self.part.shard - 1) ≡ Some result.1.lane }
        ensures popped { result.1.popped ≡ self.popped }
        ensures done { HasDone N.race.shards self }
    {
        let ShardState {
            alloc: _,
            shard: _,
            seat,
            lane,
            waits: _,
            next_index: _,
            of: _,
        } = self;
        (seat, lane)
    }
}
