//! A run of jobs of one subject that claim one queue name, worked one after the other among the receivers that are noted.

ghost use Rattle.std.specs.Prelude.{◌≡◌, ◌+◌, ◌-◌, ◌<◌, ◌≤◌, ◌^◌, ◌∷◌, [], true, false, Some, None, All, IfOk, IfSome, OnOk, OnErr, filter, length, option_map, slice_get};
ghost use Rattle.job_block.specs.Publications.{IsPublishable};
ghost use Rattle.sub_table.specs.Subscriptions.{gets};
ghost use Rattle.shard_core.specs.Boxes.{IsSettled};
ghost use Rattle.shard_core.specs.ClaimMembers.{ClaimsNext, ClaimsWith, HasTurned, HasWorked, IsClaimRun, IsInTurn, IsOpenFor, IsOpenRun, IsRunOf, IsShardAt, KeepsOrder, NotesMember, StagesAt, StaysOpen, is_asked};
ghost use Rattle.shard_core.specs.ClaimRuns.{ClaimPart, MayClaimFirst, MayClaimRun, with_first, with_turn};
ghost use Rattle.shard_core.specs.Dirty.{AreTold};
ghost use Rattle.shard_core.specs.Lines.{Turns};
ghost use Rattle.shard_core.specs.Opened.{with_counts};
ghost use Rattle.shard_core.specs.Owed.{may_get_at};
ghost use Rattle.shard_core.specs.Received.{receivers_of};
ghost use Rattle.shard_core.specs.Shards.{State};

use crate::connections::Conns;
use crate::delivery_buffer::is_echoed_to;
use crate::dirty_conns::DirtyConns;
use crate::openings::Openings;
use crate::receiver::Receiver;
use crate::standings::Seat;
use client_frames::MessageTails;
use job_block::{JobSlice, LentJob};
use std::alloc::{AllocError, Global};
use sub_table::SubTable;
use subj::{LentSubject, MAX_COUNTER, QueueName, SubId, Turn};

/// Who decides the claims of a shard, with its seat: of the queue name of index 0, in the turn behind the last that it finished.
pub trait Claims<S> {
    ghost use Rattle.shard_core.specs.ClaimRuns.{ClaimPart};

    /// What no call changes of a seat, as of which race and shard it is.
    ghost Fixed: { Type 0 };

    ghost fixed: { S → Fixed };

    /// Whether a seat is one of this race.
    ghost seats: { Self → Fixed → Type 0 };

    /// What the seat knows.
    ghost part: { S → ClaimPart };

    /// Whether another shard is known to have won the name: then it is lost.
    fn is_lost(&self, seat: &mut S) -> bool
        requires race { seats self.now (fixed seat.old) }
        requires first { MayClaimFirst (part seat.old) }
        ensures fixed { fixed seat.new ≡ fixed seat.old }
        ensures lost { result ≡ true → part seat.new ≡ with_first false (part seat.old) }
        ensures left { result ≡ false → part seat.new ≡ part seat.old };

    /// Claims the name for a candidate: whether it is won.
    fn claim(&self, seat: &mut S) -> bool
        requires race { seats self.now (fixed seat.old) }
        requires first { MayClaimFirst (part seat.old) }
        ensures fixed { fixed seat.new ≡ fixed seat.old }
        ensures part { part seat.new ≡ with_first result (part seat.old) };

    /// The shard has done with the turn.
    fn finish(&self, seat: &mut S)
        requires race { seats self.now (fixed seat.old) }
        requires issued { (part seat.old).finished < (part seat.old).seen }
        ensures fixed { fixed seat.new ≡ fixed seat.old }
        ensures part { part seat.new ≡ with_turn (part seat.old) };
}

/// The most bytes of a message of a run.
const MOST_BYTES: usize = 8_192;

/// The most of these that stand behind its head.
const MOST_TAIL: usize = 4_096;

/// A member of the queue group that may get messages of the run.
#[derive(Clone, Copy)]
struct Member {
    serial: u64,
    /// Where it stands among the receivers.
    place: usize,
    /// Where its connection stands.
    seat: Seat,
}

/// The memory of a run of claims, used again by the next.
pub struct ClaimBuffer {
    message: MessageTails,
    members: Vec<Member>,
    /// At which place the next job stands.
    next: usize,
}

/// One call for whoever lets it go: `docs/PROVING.md`, "What a proof costs".
impl Drop for ClaimBuffer {
    fn drop(self) {
        let ClaimBuffer {
            message: _,
            members: _,
            next: _,
        } = self;
    }
}

impl ClaimBuffer {
    /// Of no run yet.
    pub fn new(alloc: Global) -> ClaimBuffer {
        ClaimBuffer {
            message: MessageTails::new(alloc),
            members: Vec::new(alloc),
            next: 0,
        }
    }
}

/// The queue name that the job claims, where it claims one alone.
fn only_name<'a>(job: &LentJob<'a>) -> Option<&'a QueueName>
    ensures { IfSome result (λ name. job.now.queues ≡ name.now ∷ []) }
{
    match job.queues().as_slice() {
        [name] => Some(name),
        _ => None,
    }
}

/// Jobs that claim one queue name, one after the other.
#[derive(Drop)]
pub struct ClaimJobs<'a> {
    shard: u64,
    first: LentJob<'a>,
    jobs: JobSlice<'a>,
    name: &'a QueueName,
}

/// The turn of the last of these jobs. Required: there is one.
fn last_turn(jobs: &JobSlice<'_>) -> Turn
    requires { 0 < length jobs.now }
    ensures turn { option_map (λ job. job.turn) (slice_get jobs.now (length jobs.now - 1))
        ≡ Some result }
    ensures most { result ≤ MAX_COUNTER }
{
    jobs.get(jobs.len() - 1).turn()
}

impl<'a> ClaimJobs<'a> {
    /// The first of these jobs with those that are like it, in turns that follow the last one finished; none where it has a longer
    /// message, or claims no queue name or several. Required: there is a job.
    pub fn of(shard: u64, finished: Turn, jobs: &JobSlice<'a>) -> Option<ClaimJobs<'a>>
        requires { 0 < length jobs.now }
        ensures shard { IfSome result (λ claims. claims.shard ≡ shard) }
        ensures run { IfSome result (λ claims.
            IsRunOf finished jobs.now claims.first claims.name.now claims.jobs) }
        ensures last { IfSome result (λ claims. finished + length claims.jobs ≤ MAX_COUNTER) }
    {
        let first = jobs.get(0);
        let name = only_name(&first)?;
        if !first.publication().is_short() || first.turn().get() != finished.get() + 1 {
            return None;
        }
        let jobs = jobs.first(jobs.run_len());
        let _last = last_turn(&jobs);
        Some(ClaimJobs {
            shard,
            first,
            jobs,
            name,
        })
    }

    /// What they are published on.
    pub fn subject(&self) -> LentSubject<'a>
        ensures { result ≡ self.now.first.message.subject }
    {
        self.first.subject()
    }

    /// The turn of the job at this place, counted from 0.
    pub fn turn(&self, place: usize) -> Turn
        requires { place < length self.now.jobs }
        ensures { option_map (λ job. job.turn) (slice_get self.now.jobs place) ≡ Some result }
    {
        self.jobs.get(place).turn()
    }

    /// How many jobs there are.
    pub fn len(&self) -> usize
        ensures { result ≡ length self.now.jobs }
    {
        self.jobs.len()
    }

    /// The job at this place, counted from 0.
    fn job(&self, place: usize) -> LentJob<'a>
        requires { place < length self.now.jobs }
        ensures same { slice_get self.now.jobs place ≡ Some result }
        ensures valid { IsPublishable result.message }
    {
        let job = self.jobs.get(place);
        let _valid = job.publication();
        job
    }
}

/// Whether the receiver may get the jobs.
fn may_get(claims: &ClaimJobs<'_>, receiver: &Receiver) -> bool
    ensures { result ≡ may_get_at claims.now.first receiver.now.conn }
{
    let first = &claims.first;
    is_echoed_to(first.publisher(), first.echo(), receiver.conn())
}

/// Notes the receiver among the members, where it is one and may get the messages. Gives for how many of so many jobs it has room; none
/// where the run cannot be worked at once: where the receiver gets the messages at Begin, has a maximum or a long id, or has no room.
fn note_member(
    members: &mut Vec<Member>,
    conns: &Conns,
    claims: &ClaimJobs<'_>,
    place: usize,
    receiver: &Receiver,
    most: usize,
) -> Result<usize, AllocError>
    ensures few { IfOk result (λ count. count ≤ most) }
    ensures noted { IfOk result (λ count.
        0 < count
        → NotesMember count place claims.now.first claims.now.name.now receiver.now conns.now.next
        members.old.items members.new.items) }
{
    if !may_get(claims, receiver) {
        return Ok(most);
    }
    if receiver.is_plain() {
        return Ok(0);
    }
    if !receiver.is_named(claims.name) {
        return Ok(most);
    }
    if receiver.is_limited() || receiver.head().len() + MOST_TAIL > MOST_BYTES {
        return Ok(0);
    }
    let Some(seat) = conns.seat(receiver.conn()) else {
        return Ok(0);
    };
    let member = Member {
        serial: receiver.serial(),
        place,
        seat,
    };
    let count = conns.room_for_most(member.seat, MOST_BYTES, most);
    members.push(member)?;
    Ok(count)
}

/// Notes the members of the queue group that may get the messages. Gives for how many of the jobs each of them has room.
fn note_members(
    members: &mut Vec<Member>,
    conns: &Conns,
    claims: &ClaimJobs<'_>,
    receivers: &[Receiver],
) -> Result<usize, AllocError>
    ensures few { IfOk result (λ count. count ≤ length claims.now.jobs) }
    ensures opened { IfOk result (λ count.
        0 < count
        → IsOpenRun count claims.now.first claims.now.name.now receivers.now conns.now.next
        members.new.items) }
{
    members.clear();
    let mut most = claims.len();
    for place in 0..receivers.len() {
        most = note_member(members, conns, claims, place, &receivers[place], most)?;
        if most == 0 {
            return Ok(0);
        }
    }
    Ok(most)
}

/// Notes the members among all who receive the subject, where these are noted. Gives for how many of the jobs each has room.
fn open<T: SubTable>(
    members: &mut Vec<Member>,
    conns: &Conns,
    openings: &Openings<T>,
    claims: &ClaimJobs<'_>,
) -> usize
    ensures few { result ≤ length claims.now.jobs }
    ensures opened { 0 < result
        → IsOpenFor result claims.now.first claims.now.name.now openings.now.subs conns.now.next
        members.new.items }
{
    match openings.receivers(claims.subject().bytes()) {
        None => 0,
        Some(receivers) => note_members(members, conns, claims, receivers).unwrap_or(0),
    }
}

/// Stages the message of the job for the member at the place.
fn stage<T: SubTable>(
    buffer: &mut ClaimBuffer,
    conns: &mut Conns,
    openings: &Openings<T>,
    claims: &ClaimJobs<'_>,
    job: &LentJob<'_>,
    at: usize,
) -> Result<(), AllocError>
    requires valid { IsPublishable job.now.message }
    requires within { at < length buffer.old.members.items }
    requires like { ClaimsWith claims.now.first claims.now.name.now job.now }
    requires opened { IsOpenFor 1 claims.now.first claims.now.name.now openings.now.subs
        conns.old.next buffer.old.members.items }
    ensures members { buffer.new.members.items ≡ buffer.old.members.items }
    ensures next { buffer.new.next ≡ buffer.old.next }
    ensures shown { conns.new.shown ≡ conns.old.shown }
    ensures ok { OnOk result (StagesAt claims.now.shard job.now claims.now.name.now
        (filter (is_asked claims.now.first claims.now.name.now)
        (receivers_of claims.now.first.message.subject
        (filter (gets claims.now.first.message.subject) openings.now.subs)))
        at conns.old.next conns.new.next) }
    ensures err { OnErr result (conns.new.next ≡ conns.old.next) }
{
    let Some(receivers) = openings.receivers(claims.subject().bytes()) else {
        return Err(AllocError);
    };
    let member = buffer.members[at];
    let Some(receiver) = receivers.get(member.place) else {
        // required: the members are among the receivers
        unreachable!()
    };
    let publication = job.publication();
    buffer
        .message
        .write_parts(publication.reply, publication.payload)?;
    let head = buffer.message.head(receiver.head(), false);
    let sub = SubId {
        shard: claims.shard,
        serial: member.serial,
    };
    conns.stage_queued(
        member.seat,
        job.id(),
        sub,
        claims.name,
        head,
        buffer.message.tail(false),
    )?;
    Ok(())
}

/// Shows what is staged, notes for whom it is, and counts it for the one of this serial, where the claim is won; drops it where not.
#[tactic(auto, using(crate::proofs::Clients::Told::nothing_put))]
fn show_or_drop<T: SubTable>(
    conns: &mut Conns,
    dirty_conns: &mut DirtyConns,
    openings: &mut Openings<T>,
    serial: u64,
    won: bool,
)
    requires { All (λ sub. sub.delivered + 1 < 2 ^ 64) openings.old.subs }
    ensures shown { won ≡ true
        → conns.new ≡ record { shown = conns.old.next; next = conns.old.next } }
    ensures counted { won ≡ true → openings.new ≡ with_counts (serial ∷ []) openings.old }
    ensures dropped { won ≡ false
        → conns.new ≡ record { shown = conns.old.shown; next = conns.old.shown } }
    ensures left { won ≡ false → openings.new ≡ openings.old }
    ensures told { AreTold conns.old.shown conns.new.shown dirty_conns.old dirty_conns.new }
{
    if won {
        conns.commit(dirty_conns);
        openings.count(serial);
    } else {
        conns.rollback();
    }
}

/// Begins the next job, which puts nothing, and claims its name where there is a member: whether it is won. For want of memory nothing is
/// done.
fn claim_next<T: SubTable, S, C: Claims<S>>(
    buffer: &mut ClaimBuffer,
    conns: &mut Conns,
    dirty_conns: &mut DirtyConns,
    openings: &mut Openings<T>,
    claims: &ClaimJobs<'_>,
    race: &C,
    seat: &mut S,
) -> Result<bool, AllocError>
    requires race { C.seats race.now (C.fixed seat.old) }
    requires first { MayClaimFirst (C.part seat.old) }
    requires settled { IsSettled conns.old }
    requires run { IsClaimRun claims.now.first claims.now.name.now claims.now.jobs }
    requires within { buffer.old.next < length claims.now.jobs }
    requires opened { IsOpenFor 1 claims.now.first claims.now.name.now openings.old.subs
        conns.old.next buffer.old.members.items }
    requires counts { All (λ sub. sub.delivered + 1 < 2 ^ 64) openings.old.subs }
    ensures fixed { C.fixed seat.new ≡ C.fixed seat.old }
    ensures members { buffer.new.members.items ≡ buffer.old.members.items }
    ensures next { buffer.new.next ≡ buffer.old.next }
    ensures ok { IfOk result (λ won.
        (job : _)
        → slice_get claims.now.jobs buffer.old.next ≡ Some job
        → ClaimsNext claims.now.shard job won conns.old conns.new openings.old openings.new
        (C.part seat.old) (with_turn (C.part seat.new))) }
    ensures turn { OnOk result (IsInTurn (C.part seat.old) (C.part seat.new)) }
    ensures settled { OnOk result (IsSettled conns.new) }
    ensures stays { OnOk result (StaysOpen claims.now.first claims.now.name.now
        buffer.old.members.items conns.old.next conns.new.next openings.old.subs
        openings.new.subs) }
    ensures keeps { OnOk result (KeepsOrder 1 conns.old.shown conns.new.shown openings.old.subs
        openings.new.subs) }
    ensures err { OnErr result ((conns.new ≡ conns.old) × (openings.new ≡ openings.old)
        × (C.part seat.new ≡ C.part seat.old)) }
    ensures told { AreTold conns.old.shown conns.new.shown dirty_conns.old dirty_conns.new }
{
    let job = claims.job(buffer.next);
    let count = buffer.members.len() as u64;
    if count == 0 {
        return Ok(false);
    }
    if race.is_lost(seat) {
        return Ok(false);
    }
    let at = (job.turn().get() % count) as usize;
    stage(buffer, conns, openings, claims, &job, at)?;
    let won = race.claim(seat);
    let serial = buffer.members[at].serial;
    show_or_drop(conns, dirty_conns, openings, serial, won);
    Ok(won)
}

/// Works the next job: its Begin, which puts nothing, its claim, and its end. For want of memory nothing is done.
fn work_next<T: SubTable, S, C: Claims<S>>(
    buffer: &mut ClaimBuffer,
    conns: &mut Conns,
    dirty_conns: &mut DirtyConns,
    openings: &mut Openings<T>,
    claims: &ClaimJobs<'_>,
    race: &C,
    seat: &mut S,
) -> Result<bool, AllocError>
    requires race { C.seats race.now (C.fixed seat.old) }
    requires first { MayClaimFirst (C.part seat.old) }
    requires settled { IsSettled conns.old }
    requires run { IsClaimRun claims.now.first claims.now.name.now claims.now.jobs }
    requires within { buffer.old.next < length claims.now.jobs }
    requires opened { IsOpenFor 1 claims.now.first claims.now.name.now openings.old.subs
        conns.old.next buffer.old.members.items }
    requires counts { All (λ sub. sub.delivered + 1 < 2 ^ 64) openings.old.subs }
    ensures fixed { C.fixed seat.new ≡ C.fixed seat.old }
    ensures members { buffer.new.members.items ≡ buffer.old.members.items }
    ensures ok { IfOk result (λ won.
        (job : _)
        → slice_get claims.now.jobs buffer.old.next ≡ Some job
        → ClaimsNext claims.now.shard job won conns.old conns.new openings.old openings.new
        (C.part seat.old) (C.part seat.new)) }
    ensures stays { OnOk result (StaysOpen claims.now.first claims.now.name.now
        buffer.old.members.items conns.old.next conns.new.next openings.old.subs
        openings.new.subs) }
    ensures keeps { OnOk result (KeepsOrder 1 conns.old.shown conns.new.shown openings.old.subs
        openings.new.subs) }
    ensures turned { OnOk result (HasTurned (C.part seat.old) (C.part seat.new)) }
    ensures settled { OnOk result (IsSettled conns.new) }
    ensures err { OnErr result ((conns.new ≡ conns.old) × (openings.new ≡ openings.old)
        × (C.part seat.new ≡ C.part seat.old)) }
    ensures told { AreTold conns.old.shown conns.new.shown dirty_conns.old dirty_conns.new }
{
    let won = claim_next(buffer, conns, dirty_conns, openings, claims, race, seat)?;
    race.finish(seat);
    Ok(won)
}

/// Works these jobs one after the other, as many as it can, where few receive their subject. Gives how many.
pub fn work_claims<T: SubTable, S, C: Claims<S>>(
    buffer: &mut ClaimBuffer,
    conns: &mut Conns,
    dirty_conns: &mut DirtyConns,
    openings: &mut Openings<T>,
    claims: &ClaimJobs<'_>,
    race: &C,
    seat: &mut S,
) -> usize
    requires race { C.seats race.now (C.fixed seat.old) }
    requires first { MayClaimRun (C.part seat.old).finished (length claims.now.jobs)
        (C.part seat.old) }
    requires settled { IsSettled conns.old }
    requires run { IsClaimRun claims.now.first claims.now.name.now claims.now.jobs }
    requires turns { Turns (C.part seat.old).finished claims.now.jobs
        ((C.part seat.old).finished + length claims.now.jobs) }
    requires counts { All (λ sub. sub.delivered + length claims.now.jobs < 2 ^ 64)
        openings.old.subs }
    ensures fixed { C.fixed seat.new ≡ C.fixed seat.old }
    ensures worked { (s : State)
        → IsShardAt s claims.now.shard conns.old openings.old
        → (C.part seat.old).finished ≡ s.finished
        → HasWorked s claims.now.jobs result conns.new openings.new (C.part seat.old)
        (C.part seat.new) }
    ensures keeps { KeepsOrder result conns.old.shown conns.new.shown openings.old.subs
        openings.new.subs }
    ensures told { AreTold conns.old.shown conns.new.shown dirty_conns.old dirty_conns.new }
{
    openings.note_for_run(&claims.subject());
    let most = open(&mut buffer.members, conns, openings, claims);
    for place in 0..most {
        buffer.next = place;
        let Ok(_won) = work_next(buffer, conns, dirty_conns, openings, claims, race, seat) else {
            return place;
        };
    }
    most
}
