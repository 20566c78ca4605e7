//! A shard, and the jobs that wait for it; which of several a number is for; and why it refuses: the first cause, told without a step.

ghost use Rattle.std.specs.Prelude.{◌≡◌, ◌==◌, ◌≤◌, ◌<◌, false, length, Some, None, option_to_list, IfOk, IfSome};
ghost use Rattle.std.specs.Option.{option_map};
ghost use Rattle.subj.specs.Answers.{IsAnswered, IsDecided};
ghost use Rattle.subj.specs.declared.jobs.Job.{Job};
ghost use Rattle.subj.specs.declared.limits.TheConstants.{MAX_SHARDS, WINDOW};
ghost use Rattle.shard_core.specs.Answers.{answer_of};
ghost use Rattle.shard_core.specs.Lines.{first_of};
ghost use Rattle.shard_core.specs.Shards.{waits_for};
ghost use Rattle.shard_core.specs.ShardEvents.{Attach, Subscribe, Unsubscribe, Reply, SetHeaders, Shut, Detach, Take, Claim, End, Drain, Collect, Attached, Unsubscribed, Replied, HeadersSet, WasShut, Detached, Taken, Drains, Collected};
ghost use Rattle.node_parts.specs.Lines.{LineStep, LineBegins, LineEnds, LineDrops, LineClaims, LineTakesBytes, MayClaim, WaitsNext, of_answer, of_decision};
ghost use Rattle.node_parts.specs.Places.{place_of_conn as place_given, place_of_shard as place_counted};
ghost use Rattle.node_law.specs.declared.faults.NodeFault.TheVariants.{Shard as by_shard};
ghost use Rattle.node_law.specs.Settled.{is_line_settled, has_room_in};
ghost use Rattle.node_law.specs.State.{new_line};
ghost use Rattle.node_law.specs.Steps.{begin_of, conn_event, drop_of, event_refusal, no_job as no_job_of, line_with_job, work_event};

use claim_race::Race;
use client_frames::{ErrText, ReplyFrame};
use node_law::{ConnEvent, NodeFault, ShardWork};
use outbox::Entry;
use shard_core::{
    Begun, Candidate, Closed, Placed, Shard, ShardFault, Subscribed, claims_are_whole,
};
use std::alloc::{AllocError, Global};
use std::collections::VecDeque;
use std::marker::Model;
use sub_table::SubTable;
use subj::{ConnId, Delta, Failure, Job, Key, Message, Sid, SubId, Turn, WINDOW};

/// The place of the line that has the connection of this number, of so many lines.
pub fn place_of_conn(count: usize, conn: ConnId) -> Option<usize>
    requires { 1 ≤ count }
    ensures place { result ≡ place_given count conn }
    ensures within { IfSome result (λ place. place < count) }
{
    let number = conn.get();
    if number == 0 {
        return None;
    }
    Some(((number - 1) % count as u64) as usize)
}

/// The place of the line of the shard of this number, of so many lines.
pub fn place_of_shard(count: usize, shard: u64) -> Option<usize>
    ensures place { result ≡ place_counted count shard }
    ensures within { IfSome result (λ place. place < count) }
{
    if shard == 0 || shard > count as u64 {
        return None;
    }
    Some((shard - 1) as usize)
}

/// What a shard answers, as its server's answer.
fn shard_answer<X>(answer: Result<X, Failure<ShardFault>>) -> Result<X, Failure<NodeFault>>
    ensures { result ≡ of_answer answer }
{
    match answer {
        Ok(x) => Ok(x),
        Err(Failure::Refused(fault)) => Err(Failure::Refused(NodeFault::Shard(fault))),
        Err(Failure::OutOfMemory) => Err(Failure::OutOfMemory),
    }
}

/// The same of a call that takes no memory.
fn shard_decision<X>(answer: Result<X, ShardFault>) -> Result<X, NodeFault>
    ensures { result ≡ of_decision answer }
{
    match answer {
        Ok(x) => Ok(x),
        Err(fault) => Err(NodeFault::Shard(fault)),
    }
}

/// Why a shard refuses, as its server's cause.
fn shard_cause(fault: Option<ShardFault>) -> Option<NodeFault>
    ensures { result ≡ option_map by_shard fault }
{
    match fault {
        None => None,
        Some(fault) => Some(NodeFault::Shard(fault)),
    }
}

/// The turn of the job in hand.
fn turn_in_hand<T: SubTable>(shard: &Shard<T>) -> Option<Turn>
    ensures { result ≡ option_map (λ (job : Job). job.turn) shard.now.state.hand }
{
    match shard.hand() {
        None => None,
        Some(job) => Some(job.turn),
    }
}

/// Why no job is begun, where none waits.
fn no_job<T: SubTable>(shard: &Shard<T>) -> NodeFault
    ensures { result ≡ no_job_of shard.now.state.hand }
{
    match shard.hand() {
        None => NodeFault::Shard(ShardFault::NoJob),
        Some(_) => NodeFault::Shard(ShardFault::JobInHand),
    }
}

/// What a claim of a queue name comes to.
#[derive(Drop)]
pub enum Claimed {
    /// The shard has no candidate.
    Nobody,
    /// Another shard has won the name.
    Lost,
    /// The candidate got the message.
    Won {
        sub: SubId,
        /// A copy of its entry, where it was asked for; else none.
        placed: Option<Placed>,
        /// What closed with it.
        ended: Option<SubId>,
    },
}

/// A shard, and the jobs that wait for it, in order of their turns. (Profile.)
///
/// Seen as the shard's state and the list of the jobs. It has a place for each job of a window.
pub struct ShardWithJobs<T: SubTable> {
    shard: Shard<T>,
    waiting: VecDeque<Job>,
}

/// One call, also for crates above: `docs/PROVING.md`, "What a proof costs".
impl<T: SubTable> Drop for ShardWithJobs<T> {
    fn drop(self) {
        let ShardWithJobs {
            shard: _,
            waiting: _,
        } = self;
    }
}

impl<T: SubTable> Model for ShardWithJobs<T> {
    ghost use Rattle.node_law.specs.State.{ShardWithJobs};

    ghost Value = { ShardWithJobs };

    ghost use Rattle.std.specs.Prelude.{◌≤◌};
    ghost use Rattle.std.specs.VecDeque.{deque_capacity};
    ghost use Rattle.subj.specs.declared.limits.TheConstants.{WINDOW};

    ghost view = { λ line. record { shard = line.shard.state; waiting = line.waiting.items } };

    ghost invariant = { λ line. WINDOW ≤ deque_capacity line.waiting };
}

impl<T: SubTable> ShardWithJobs<T> {
    /// The line of the shard of this number, of so many: no job waits.
    pub fn new(alloc: Global, shard: u64, shards: u64) -> Result<ShardWithJobs<T>, AllocError>
        requires first { 1 ≤ shard }
        requires last { shard ≤ shards }
        requires few { shards ≤ MAX_SHARDS }
        ensures { IfOk result (λ line. line ≡ new_line shards shard) }
    {
        let waiting = VecDeque::with_capacity(alloc, WINDOW as usize)?;
        let shard = Shard::new(alloc, shard, shards)?;
        Ok(ShardWithJobs { shard, waiting })
    }

    /// [`Shard::attach`].
    pub fn attach(&mut self) -> Result<ConnId, Failure<NodeFault>>
        ensures { IsAnswered (event_refusal self.old (Some Attach))
            (λ conn. LineStep self.old Attach (Attached conn) self.new) (self.new ≡ self.old)
            result }
    {
        shard_answer(self.shard.attach())
    }

    /// [`Shard::subscribe`].
    pub fn subscribe(
        &mut self,
        conn: ConnId,
        key: Key,
        sid: Sid,
    ) -> Result<Subscribed, Failure<NodeFault>>
        ensures { IsAnswered (event_refusal self.old (Some (Subscribe conn key sid)))
            (λ done. LineStep self.old (Subscribe conn key sid) (answer_of done) self.new)
            (self.new ≡ self.old) result }
    {
        shard_answer(self.shard.subscribe(conn, key, sid))
    }

    /// [`Shard::unsubscribe`].
    pub fn unsubscribe(
        &mut self,
        conn: ConnId,
        sid: &Sid,
        max: Option<u64>,
    ) -> Result<Option<SubId>, NodeFault>
        ensures { IsDecided (event_refusal self.old (Some (Unsubscribe conn sid.now max)))
            (λ ended.
            LineStep self.old (Unsubscribe conn sid.now max) (Unsubscribed (option_to_list ended))
            self.new)
            (self.new ≡ self.old) result }
    {
        shard_decision(self.shard.unsubscribe(conn, sid, max))
    }

    /// [`Shard::reply`].
    pub fn reply(&mut self, conn: ConnId, frame: &ReplyFrame) -> Result<Closed, Failure<NodeFault>>
        ensures { IsAnswered (event_refusal self.old (Some (Reply conn frame.now)))
            (λ closed.
            LineStep self.old (Reply conn frame.now) (Replied closed.shut closed.ended.items)
            self.new)
            (self.new ≡ self.old) result }
    {
        shard_answer(self.shard.reply(conn, frame))
    }

    /// [`Shard::set_headers`].
    pub fn set_headers(&mut self, conn: ConnId, on: bool) -> Result<(), NodeFault>
        ensures { IsDecided (event_refusal self.old (Some (SetHeaders conn on)))
            (λ _. LineStep self.old (SetHeaders conn on) HeadersSet self.new) (self.new ≡ self.old)
            result }
    {
        shard_decision(self.shard.set_headers(conn, on))
    }

    /// [`Shard::shut`].
    pub fn shut(&mut self, conn: ConnId, text: ErrText) -> Result<Vec<SubId>, Failure<NodeFault>>
        ensures { IsAnswered (event_refusal self.old (Some (Shut conn text)))
            (λ ended. LineStep self.old (Shut conn text) (WasShut ended.items) self.new)
            (self.new ≡ self.old) result }
    {
        shard_answer(self.shard.shut(conn, text))
    }

    /// [`Shard::detach`].
    pub fn detach(&mut self, conn: ConnId) -> Result<Vec<SubId>, Failure<NodeFault>>
        ensures { IsAnswered (event_refusal self.old (Some (Detach conn)))
            (λ ended. LineStep self.old (Detach conn) (Detached ended.items) self.new)
            (self.new ≡ self.old) result }
    {
        shard_answer(self.shard.detach(conn))
    }

    /// [`Shard::take`].
    pub fn take(&mut self, conn: ConnId, count: usize) -> Result<Vec<Entry>, Failure<NodeFault>>
        ensures { IsAnswered (event_refusal self.old (Some (Take conn count)))
            (λ entries. LineStep self.old (Take conn count) (Taken entries.items) self.new)
            (self.new ≡ self.old) result }
    {
        shard_answer(self.shard.take(conn, count))
    }

    /// [`Shard::take_bytes`].
    pub fn take_bytes(
        &mut self,
        conn: ConnId,
        count: usize,
        out: &mut Vec<u8>,
    ) -> Result<usize, Failure<NodeFault>>
        ensures { IsAnswered (event_refusal self.old (Some (Take conn count)))
            (λ taken. LineTakesBytes self.old conn count taken out.old.items out.new.items self.new)
            ((self.new ≡ self.old) × (out.new.items ≡ out.old.items)) result }
    {
        shard_answer(self.shard.take_bytes(conn, count, out))
    }

    /// [`Shard::end`]. Gives the turn that is finished.
    pub fn end(&mut self) -> Result<Turn, NodeFault>
        ensures { IsDecided (event_refusal self.old (Some End))
            (λ turn. LineEnds self.old turn self.new) (self.new ≡ self.old) result }
    {
        let Some(turn) = turn_in_hand(&self.shard) else {
            return Err(NodeFault::Shard(ShardFault::NoJob));
        };
        match self.shard.end() {
            Ok(()) => Ok(turn),
            Err(fault) => Err(NodeFault::Shard(fault)),
        }
    }

    /// Begins the first job that waits: [`Shard::begin`]. A fault leaves it in front. Refused with
    /// [`ShardFault::JobInHand`], and then with [`ShardFault::NoJob`] where no job waits.
    pub fn begin(&mut self, copies: bool) -> Result<Begun, Failure<NodeFault>>
        ensures { IsAnswered (event_refusal self.old (begin_of (first_of self.old.waiting)))
            (λ begun. LineBegins copies self.old begun self.new) (self.new ≡ self.old) result }
    {
        match self.waiting.pop_front() {
            None => Err(Failure::Refused(no_job(&self.shard))),
            Some(job) => match self.shard.begin(job, copies) {
                Ok(begun) => Ok(begun),
                Err(fault) => {
                    self.waiting.push_front_reserved(fault.job);
                    shard_answer(Err(fault.cause))
                }
            },
        }
    }

    /// Drops the job in hand, or else the first that waits: [`Shard::drop_job`]. Gives the turn that is
    /// finished. Refused with [`ShardFault::NoJob`] where there is neither. Takes no memory.
    pub fn drop_job(&mut self) -> Result<Turn, NodeFault>
        requires { WaitsNext self.old }
        ensures { IsDecided
            (event_refusal self.old (drop_of self.old.shard.hand (first_of self.old.waiting)))
            (λ turn. LineDrops self.old turn self.new) (self.new ≡ self.old) result }
    {
        if let Some(job) = self.shard.hand() {
            let turn = job.turn;
            let _dropped = self.shard.drop_job(None);
            return Ok(turn);
        }
        match self.waiting.pop_front() {
            None => Err(NodeFault::Shard(ShardFault::NoJob)),
            Some(job) => {
                let turn = job.turn;
                let _dropped = self.shard.drop_job(Some(job));
                Ok(turn)
            }
        }
    }

    /// [`Shard::drain`].
    pub fn drain(&mut self) -> Result<(), NodeFault>
        ensures { IsDecided (event_refusal self.old (Some Drain))
            (λ _. LineStep self.old Drain Drains self.new) (self.new ≡ self.old) result }
    {
        shard_decision(self.shard.drain())
    }

    /// [`Shard::deltas`].
    pub fn deltas(&self) -> &[Delta]
        ensures { result.now ≡ self.now.shard.deltas }
    {
        self.shard.deltas()
    }

    /// [`Shard::take_deltas`].
    pub fn take_deltas(&mut self)
        ensures { LineStep self.old Collect (Collected self.old.shard.deltas) self.new }
    {
        self.shard.take_deltas();
    }

    /// Whether no job waits or is in hand, and the hub was told of all openings and closings. Takes no memory.
    #[tactic(auto, using(crate::proofs::Resting::empty_by_length))]
    pub fn is_settled(&self) -> bool
        ensures { result ≡ is_line_settled self.now }
    {
        self.waiting.is_empty() && self.shard.hand().is_none() && self.shard.deltas().is_empty()
    }

    /// [`Shard::has_room_for`].
    pub fn has_room_for(&self, message: &Message) -> bool
        ensures { result ≡ has_room_in message.now self.now }
    {
        self.shard.has_room_for(message)
    }

    /// The job stands behind those that wait. Required: less than a window of jobs wait. Takes no
    /// memory.
    pub fn hand_over(&mut self, job: Job)
        requires { length self.old.waiting < WINDOW }
        ensures { self.new ≡ line_with_job job self.old }
    {
        self.waiting.push_back_reserved(job);
    }

    /// [`Shard::has_nothing_for`].
    pub fn has_nothing_for(&self, conn: ConnId) -> bool
        ensures { result ≡ (length (waits_for conn self.now.shard.clients) == 0) }
    {
        self.shard.has_nothing_for(conn)
    }

    /// Claims the queue name of this index of the job in hand, which is the next one: the candidate of the
    /// shard is chosen ([`Shard::candidate`]); where there is one the race decides, and one that wins gets
    /// its entry ([`Shard::place`]), of which the answer has a copy with `copies`. Refused as
    /// [`Shard::candidate`] is. Required: the turn in hand is issued and the next one of the shard in the
    /// race, where no later index was claimed.
    pub fn claim<R: Race>(
        &mut self,
        race: &mut R,
        shard: u64,
        index: u64,
        copies: bool,
    ) -> Result<Claimed, Failure<NodeFault>>
        requires { MayClaim self.old (R.contents race.old) shard }
        ensures { IsAnswered (event_refusal self.old (Some (Claim index false)))
            (λ claimed.
            LineClaims copies self.old (R.contents race.old) shard index claimed self.new
            (R.contents race.new))
            ((self.new ≡ self.old) × (R.contents race.new ≡ R.contents race.old)) result }
    {
        claims_are_whole();
        let Some(job) = self.shard.hand() else {
            return Err(Failure::Refused(NodeFault::Shard(ShardFault::NoJob)));
        };
        let turn = job.turn;
        let _names = job.queues.as_slice();
        match self.shard.candidate(index, copies) {
            Err(fault) => shard_answer(Err(fault)),
            Ok(None) => Ok(Claimed::Nobody),
            Ok(Some(candidate)) => {
                if !race.claim(shard, turn, index) {
                    return Ok(Claimed::Lost);
                }
                let ended = self.shard.place(index);
                let Candidate { sub, placed } = candidate;
                Ok(Claimed::Won { sub, placed, ended })
            }
        }
    }

    /// Why it refuses a subscribe.
    pub fn subscribe_fault(&self, conn: ConnId, key: &Key, sid: &Sid) -> Option<NodeFault>
        ensures { result ≡ event_refusal self.now (Some (Subscribe conn key.now sid.now)) }
    {
        shard_cause(self.shard.subscribe_fault(conn, key, sid))
    }

    /// Why it refuses what is asked for a connection.
    pub fn conn_fault(&self, conn: ConnId, event: &ConnEvent) -> Option<NodeFault>
        ensures { result ≡ event_refusal self.now (Some (conn_event conn event.now)) }
    {
        let fault = match event {
            ConnEvent::Subscribe { key, sid } => self.shard.subscribe_fault(conn, key, sid),
            ConnEvent::Unsubscribe { .. }
            | ConnEvent::Reply { .. }
            | ConnEvent::SetHeaders { .. }
            | ConnEvent::Shut { .. } => self.shard.open_fault(conn),
            ConnEvent::Detach | ConnEvent::Take { .. } => self.shard.known_fault(conn),
        };
        shard_cause(fault)
    }

    /// Why a begin is refused.
    fn begin_fault(&self) -> Option<NodeFault>
        ensures { result ≡ event_refusal self.now (begin_of (first_of self.now.waiting)) }
    {
        match self.waiting.front() {
            None => Some(no_job(&self.shard)),
            Some(job) => shard_cause(self.shard.begin_fault(job)),
        }
    }

    /// Why a drop is refused.
    fn drop_fault(&self) -> Option<NodeFault>
        ensures { result
            ≡ event_refusal self.now (drop_of self.now.shard.hand (first_of self.now.waiting)) }
    {
        if self.shard.hand().is_some() || !self.waiting.is_empty() {
            return None;
        }
        Some(NodeFault::Shard(ShardFault::NoJob))
    }

    /// Why it refuses what its shard is asked to do.
    pub fn work_fault(&self, work: ShardWork) -> Option<NodeFault>
        ensures { result ≡ event_refusal self.now (work_event work false self.now) }
    {
        match work {
            ShardWork::Attach => shard_cause(self.shard.attach_fault()),
            ShardWork::Begin => self.begin_fault(),
            ShardWork::Claim { index } => shard_cause(self.shard.claim_fault(index)),
            ShardWork::End => shard_cause(self.shard.end_fault()),
            ShardWork::DropJob => self.drop_fault(),
            ShardWork::DrainShard => shard_cause(self.shard.drain_fault()),
        }
    }
}
