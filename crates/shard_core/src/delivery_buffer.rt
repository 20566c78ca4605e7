//! The walk over the subscriptions that a job is due to.

ghost use Rattle.std.specs.Prelude.{◌≡◌, ℕ, ◌+◌, ◌<◌, ◌^◌, ◌++◌, ◌≤◌, ◌||◌, not, Bool, List, [], Option, None, true, false, filter, length, map, All, IfOk, IsTrue, OnOk, OnErr};
ghost use Rattle.client_frames.specs.Messages.{line_forms, due_bytes};
ghost use Rattle.outbox.specs.Views.{with_entry, with_last};
ghost use Rattle.shard_core.specs.Boxes.{IsSeatOf, IsSettled, form_length};
ghost use Rattle.shard_core.specs.Closings.{ended_ids};
ghost use Rattle.shard_core.specs.Dirty.{AreTold};
ghost use Rattle.shard_core.specs.Opened.{AreRising, AreApart};
ghost use Rattle.shard_core.specs.Owed.{is_due, is_permitted, is_publisher, may_get_at as is_permitted_at, due_entry as entry_due, placed_for, mode_of, walk_after_put, walk, reaches, slow_consumer};
ghost use Rattle.shard_core.specs.Shards.{State, is_open as opened, clients_with_change, client_at, fits};
ghost use Rattle.shard_core.specs.Puts.{put_line};
ghost use Rattle.shard_core.specs.ReceiverSteps.{with_noted};
ghost use Rattle.shard_core.specs.Tallies.{lent_subs, is_placed, Follows, HasPlaced, IsStaged, none_tallied, with_given, with_shut, with_lines, put_if_due as put_matching, walk_matching};

use crate::calls::{Begun, Placed};
use crate::connections::Conns;
use crate::dirty_conns::DirtyConns;
use crate::openings::Openings;
use crate::receiver_walk::walk_receivers;
use crate::standings::{FormLengths, Seat, Standing};
use client_frames::{ErrText, MessageLines, MessageTails, message_body, message_len};
use job_block::SHORT_BYTES;
use outbox::{Entry, Mode};
use std::alloc::{AllocError, Global};
use std::marker::Model;
use std::mem;
use sub_table::{SubTable, Subscription};
use subj::{ConnId, Job, Message, SubId};

/// Whether the subscriptions of the connection may get a job of this publisher: not where they are the publisher's own, without echo.
pub fn is_echoed_to(publisher: Option<ConnId>, echo: bool, conn: ConnId) -> bool
    ensures { result ≡ (echo || not (is_publisher publisher conn)) }
{
    echo || publisher != Some(conn)
}

/// Whether the subscriptions of the connection may get the job.
pub fn may_get_at(job: &Job, conn: ConnId) -> bool
    ensures { result ≡ is_permitted_at job.now conn }
{
    is_echoed_to(job.publisher, job.echo, conn)
}

/// Whether the subscription may get the job.
pub fn may_get(job: &Job, sub: &Subscription) -> bool
    ensures { result ≡ is_permitted job.now sub.now }
{
    may_get_at(job, sub.conn)
}

/// Whether Begin places the job for the subscription, of those that match.
fn is_due(job: &Job, sub: &Subscription) -> bool
    ensures { result ≡ is_placed job.now sub.now }
{
    sub.key.queue.is_none() && may_get(job, sub)
}

/// Whether Begin places the job for any of those that match.
fn any_due(job: &Job, matching: &[&Subscription]) -> bool
    ensures { result ≡ false → filter (is_placed job.now) (lent_subs matching.now) ≡ [] }
{
    for sub in matching {
        if is_due(job, sub) {
            return true;
        }
    }
    false
}

/// How a message comes to the subscription.
pub fn due_mode(alloc: Global, sub: &Subscription) -> Result<Mode, AllocError>
    ensures { IfOk result (λ mode. mode ≡ mode_of sub.now.key.queue) }
{
    match &sub.key.queue {
        None => Ok(Mode::Plain),
        Some(name) => Ok(Mode::Queue(name.try_clone(alloc)?)),
    }
}

/// A copy of the entry that the subscription is owed, in its mode, at a connection that takes headers or does not.
pub fn due_placed(
    alloc: Global,
    shard: u64,
    job: &Job,
    lines: &MessageLines,
    sub: &Subscription,
    headers: bool,
) -> Result<Placed, AllocError>
    requires { lines.now ≡ line_forms job.now.message }
    ensures { IfOk result (λ placed.
        placed ≡ placed_for shard headers job.now sub.now.key.queue sub.now) }
{
    let line = lines.line(&sub.sid, headers)?;
    let body = message_body(&job.message, headers).clone()?;
    let mode = due_mode(alloc, sub)?;
    let id = SubId {
        shard,
        serial: sub.serial,
    };
    let conn = sub.conn;
    let entry = Entry::message(job.id, id, mode, line, body);
    Ok(Placed {
        conn,
        entry,
        headers,
    })
}

/// The CR LF of a message's line, and that of what stands behind it.
const ENDS: usize = 4;

/// How many bytes the entry has that the subscription is owed at a connection that takes headers or does not.
fn due_len(job: &Job, lines: &MessageLines, sub: &Subscription, takes_headers: bool) -> usize
    requires { lines.now ≡ line_forms job.now.message }
    ensures { (shard : ℕ) (queue : Option (List ℕ))
        → result ≡ length (entry_due shard takes_headers job.now queue sub.now).bytes }
{
    let body = message_body(&job.message, takes_headers);
    lines.line_len(&sub.sid, takes_headers) + body.len() + ENDS
}

/// How many bytes the entry has that the subscription is owed at a connection that takes headers. At one that takes none it has
/// `plain`, and so it has here where the message has no header block.
fn headed_len(job: &Job, lines: &MessageLines, sub: &Subscription, plain: usize) -> usize
    requires lines { lines.now ≡ line_forms job.now.message }
    requires plain { (shard : ℕ) (queue : Option (List ℕ))
        → plain ≡ length (entry_due shard false job.now queue sub.now).bytes }
    ensures { (shard : ℕ) (queue : Option (List ℕ))
        → result ≡ length (entry_due shard true job.now queue sub.now).bytes }
{
    match job.message.headers() {
        None => plain,
        Some(_) => due_len(job, lines, sub, true),
    }
}

/// How many bytes the entry has that the subscription is owed, in each form.
pub fn due_lengths(job: &Job, lines: &MessageLines, sub: &Subscription) -> FormLengths
    requires { lines.now ≡ line_forms job.now.message }
    ensures { (shard : ℕ) (queue : Option (List ℕ)) (option : Bool)
        → form_length result option ≡ length (entry_due shard option job.now queue sub.now).bytes }
{
    let plain = due_len(job, lines, sub, false);
    let headed = headed_len(job, lines, sub, plain);
    FormLengths { plain, headed }
}

/// How many bytes the message has in each form, beside the id of a subscription. Takes no memory.
pub fn message_lengths(message: &Message) -> FormLengths
    ensures len { (sid : List ℕ) (option : Bool)
        → length (due_bytes message.now sid option) ≡ form_length result option + length sid }
    ensures some { (option : Bool) → 1 ≤ form_length result option }
{
    let plain = message_len(message, false);
    let headed = message_len(message, true);
    FormLengths { plain, headed }
}

/// The names of the subscriptions of these serials.
pub fn sub_ids(alloc: Global, shard: u64, serials: &[u64]) -> Result<Vec<SubId>, AllocError>
    ensures { IfOk result (λ names. names.items ≡ ended_ids shard serials.now) }
{
    let mut names = Vec::new(alloc);
    for serial in serials {
        names.push(SubId {
            shard,
            serial: *serial,
        })?;
    }
    Ok(names)
}

/// The last line of a connection without room.
fn last_line(alloc: Global, conn: ConnId) -> Result<Placed, AllocError>
    ensures { IfOk result (λ placed. placed ≡ put_line slow_consumer conn) }
{
    let line = Vec::from_slice(alloc, ErrText::SlowConsumer.line())?;
    Ok(Placed {
        conn,
        entry: Entry::reply(line),
        headers: false,
    })
}

/// Puts the last lines of connections without room behind what is there.
fn add_lines(alloc: Global, shut: &[ConnId], put: &mut Vec<Placed>) -> Result<(), AllocError>
    ensures { OnOk result (put.new.items ≡ put.old.items ++ map (put_line slow_consumer) shut.now) }
{
    for conn in shut {
        put.push(last_line(alloc, *conn)?)?;
    }
    Ok(())
}

/// Whether the message that comes next is the last one of the subscription.
pub fn is_last(sub: &Subscription) -> bool
    requires { sub.now.delivered + 1 < 2 ^ 64 }
    ensures { result ≡ reaches sub.now.max (sub.now.delivered + 1) }
{
    match sub.max {
        None => false,
        Some(max) => max <= sub.delivered + 1,
    }
}

/// What a walk did so far.
pub struct DeliveryBuffer {
    alloc: Global,
    shard: u64,
    /// Whether copies of the entries are asked for.
    copies: bool,
    put: Vec<Placed>,
    /// The subscriptions that got an entry, by their serials.
    given: Vec<u64>,
    /// The connections that were shut.
    shut: Vec<ConnId>,
    /// The subscriptions that close, by their serials.
    ended: Vec<u64>,
    /// The memory of the line that is put.
    line: Vec<u8>,
}

/// One call for whoever lets it go: `docs/PROVING.md`, "What a proof costs".
impl Drop for DeliveryBuffer {
    fn drop(self) {
        let DeliveryBuffer {
            alloc: _,
            shard: _,
            copies: _,
            put: _,
            given: _,
            shut: _,
            ended: _,
            line: _,
        } = self;
    }
}

impl Model for DeliveryBuffer {
    ghost use Rattle.shard_core.specs.Tallies.{Tallied};

    ghost Value = { Tallied };

    ghost view = { λ t. record {
      shard = t.shard;
      copies = t.copies;
      put = t.put.items;
      given = t.given.items;
      shut = t.shut.items;
      ended = t.ended.items;
    } };
}

impl DeliveryBuffer {
    /// Nothing so far.
    pub fn new(alloc: Global, shard: u64) -> DeliveryBuffer
        ensures { result ≡ none_tallied shard false }
    {
        DeliveryBuffer {
            alloc,
            shard,
            copies: false,
            put: Vec::new(alloc),
            given: Vec::new(alloc),
            shut: Vec::new(alloc),
            ended: Vec::new(alloc),
            line: Vec::new(alloc),
        }
    }

    /// Another walk starts, in the same memory.
    pub fn start(&mut self, shard: u64, copies: bool)
        ensures { self.new ≡ none_tallied shard copies }
    {
        self.shard = shard;
        self.copies = copies;
        self.put.clear();
        self.given.clear();
        self.shut.clear();
        self.ended.clear();
    }

    /// The shard that walks.
    pub(crate) fn shard(&self) -> u64
        ensures { result ≡ self.now.shard }
    {
        self.shard
    }

    /// Notes that the subscription of this serial is given an entry, of which no copy is asked for, and whether it closes with it.
    #[inline(always)]
    pub(crate) fn note_given(&mut self, serial: u64, ends: bool) -> Result<(), AllocError>
        ensures { OnOk result (self.new ≡ with_noted serial ends self.old) }
    {
        self.given.push(serial)?;
        if ends {
            self.ended.push(serial)?;
        }
        Ok(())
    }

    /// Notes who is given an entry.
    fn note(
        &mut self,
        job: &Job,
        lines: &MessageLines,
        sub: &Subscription,
        headers: bool,
    ) -> Result<(), AllocError>
        requires lines { lines.now ≡ line_forms job.now.message }
        requires counts { sub.now.delivered + 1 < 2 ^ 64 }
        ensures { OnOk result (self.new
            ≡ with_given (placed_for self.old.shard headers job.now sub.now.key.queue sub.now)
            sub.now self.old) }
    {
        if self.copies {
            let placed = due_placed(self.alloc, self.shard, job, lines, sub, headers)?;
            self.put.push(placed)?;
        }
        self.note_given(sub.serial, is_last(sub))
    }

    /// Whether no connection was shut, and no subscription is to close.
    fn closes_nothing(&self) -> bool
        ensures shut { result ≡ true → self.now.shut ≡ [] }
        ensures ended { result ≡ true → self.now.ended ≡ [] }
    {
        self.shut.is_empty() && self.ended.is_empty()
    }

    /// Notes the last lines of the connections that were shut.
    fn add_last_lines(&mut self) -> Result<(), AllocError>
        ensures { OnOk result (self.new ≡ with_lines self.old) }
    {
        if self.copies {
            add_lines(self.alloc, &self.shut, &mut self.put)?;
        }
        Ok(())
    }

    /// Shuts a connection that has no room, unseen; all its subscriptions are to close.
    pub(crate) fn shut<T: SubTable>(
        &mut self,
        conns: &mut Conns,
        openings: &Openings<T>,
        conn: ConnId,
        seat: Seat,
    ) -> Result<(), AllocError>
        requires seat { IsSeatOf conn seat conns.old.next }
        requires once { opened conn conns.old.next ≡ true }
        ensures shown { conns.new.shown ≡ conns.old.shown }
        ensures conns { OnOk result
            (conns.new.next ≡ clients_with_change (with_last slow_consumer) conn conns.old.next) }
        ensures buffer { OnOk result (self.new ≡ with_shut openings.now.subs conn self.old) }
    {
        self.shut.push(conn)?;
        let left = openings.left_of(conn, &self.ended)?;
        self.ended.extend_from_slice(&left)?;
        conns.stage_last(seat, ErrText::SlowConsumer.line())
    }

    /// Gives a subscription without a queue name its entry, for which there is room, unseen.
    fn give(
        &mut self,
        conns: &mut Conns,
        job: &Job,
        lines: &MessageLines,
        sub: &Subscription,
        seat: Seat,
    ) -> Result<(), AllocError>
        requires lines { lines.now ≡ line_forms job.now.message }
        requires plain { sub.now.key.queue ≡ None }
        requires counts { sub.now.delivered + 1 < 2 ^ 64 }
        requires seat { IsSeatOf sub.now.conn seat conns.old.next }
        requires room { IsTrue (fits (client_at sub.now.conn conns.old.next)
            (entry_due self.old.shard seat.takes_headers job.now None sub.now)) }
        ensures shown { conns.new.shown ≡ conns.old.shown }
        ensures conns { OnOk result (conns.new.next
            ≡ clients_with_change
            (with_entry (entry_due self.old.shard seat.takes_headers job.now None sub.now))
            sub.now.conn conns.old.next) }
        ensures buffer { OnOk result (self.new
            ≡ with_given (placed_for self.old.shard seat.takes_headers job.now None sub.now) sub.now
            self.old) }
    {
        self.note(job, lines, sub, seat.takes_headers)?;
        lines.write_line(&sub.sid, seat.takes_headers, &mut self.line)?;
        let id = SubId {
            shard: self.shard,
            serial: sub.serial,
        };
        let body = message_body(&job.message, seat.takes_headers);
        conns.stage_message(seat, job.id, id, Mode::Plain, &self.line, body)
    }

    /// One step of the walk, unseen.
    fn put<T: SubTable>(
        &mut self,
        conns: &mut Conns,
        openings: &Openings<T>,
        job: &Job,
        lines: &MessageLines,
        sub: &Subscription,
    ) -> Result<(), AllocError>
        requires lines { lines.now ≡ line_forms job.now.message }
        requires plain { sub.now.key.queue ≡ None }
        requires counts { sub.now.delivered + 1 < 2 ^ 64 }
        ensures shown { conns.new.shown ≡ conns.old.shown }
        ensures ok { OnOk result (Follows openings.now.subs job.now
            (λ s w. walk_after_put s job.now w sub.now) conns.old.next self.old conns.new.next
            self.new) }
    {
        match conns.standing(sub.conn, due_lengths(job, lines, sub)) {
            Standing::Shut => Ok(()),
            Standing::Full(seat) => self.shut(conns, openings, sub.conn, seat),
            Standing::Ready(seat) => self.give(conns, job, lines, sub, seat),
        }
    }

    /// One subscription that matches, unseen.
    fn put_if_due<T: SubTable>(
        &mut self,
        conns: &mut Conns,
        openings: &Openings<T>,
        job: &Job,
        lines: &MessageLines,
        sub: &Subscription,
    ) -> Result<(), AllocError>
        requires lines { lines.now ≡ line_forms job.now.message }
        requires counts { sub.now.delivered + 1 < 2 ^ 64 }
        ensures shown { conns.new.shown ≡ conns.old.shown }
        ensures ok { OnOk result (Follows openings.now.subs job.now
            (λ s w. put_matching s job.now w sub.now) conns.old.next self.old conns.new.next
            self.new) }
    {
        if !is_due(job, sub) {
            return Ok(());
        }
        self.put(conns, openings, job, lines, sub)
    }

    /// The walk over those that match, unseen.
    fn put_each<T: SubTable>(
        &mut self,
        conns: &mut Conns,
        openings: &Openings<T>,
        job: &Job,
        lines: &MessageLines,
        matching: &[&Subscription],
    ) -> Result<(), AllocError>
        requires lines { lines.now ≡ line_forms job.now.message }
        requires counts { All (λ sub. sub.delivered + 1 < 2 ^ 64) (lent_subs matching.now) }
        ensures shown { conns.new.shown ≡ conns.old.shown }
        ensures ok { OnOk result (Follows openings.now.subs job.now
            (λ s w. walk_matching s job.now (lent_subs matching.now) w) conns.old.next self.old
            conns.new.next self.new) }
    {
        for sub in matching {
            self.put_if_due(conns, openings, job, lines, sub)?;
        }
        Ok(())
    }

    /// The walk over those that match, unseen; without the lines of the message where it is due to none.
    fn put_due<T: SubTable>(
        &mut self,
        conns: &mut Conns,
        openings: &Openings<T>,
        job: &Job,
        matching: &[&Subscription],
    ) -> Result<(), AllocError>
        requires counts { All (λ sub. sub.delivered + 1 < 2 ^ 64) (lent_subs matching.now) }
        ensures shown { conns.new.shown ≡ conns.old.shown }
        ensures ok { OnOk result (Follows openings.now.subs job.now
            (λ s w. walk_matching s job.now (lent_subs matching.now) w) conns.old.next self.old
            conns.new.next self.new) }
    {
        if !any_due(job, matching) {
            return Ok(());
        }
        let lines = MessageLines::new(self.alloc, &job.message)?;
        self.put_each(conns, openings, job, &lines, matching)
    }

    /// The whole walk, unseen.
    fn walk<T: SubTable>(
        &mut self,
        conns: &mut Conns,
        openings: &Openings<T>,
        job: &Job,
    ) -> Result<(), AllocError>
        requires { All (λ sub. sub.delivered + 1 < 2 ^ 64) openings.now.subs }
        ensures shown { conns.new.shown ≡ conns.old.shown }
        ensures rising { OnOk result (AreRising openings.now.subs) }
        ensures ok { OnOk result (Follows openings.now.subs job.now
            (λ s w. walk s job.now (filter (is_due job.now) s.subs) w) conns.old.next self.old
            conns.new.next self.new) }
    {
        let matching = openings.table().matching(&job.message.subject().lent())?;
        self.put_due(conns, openings, job, &matching)
    }
}

/// The whole walk of a job, unseen: over the receivers of its subject where they are noted, its messages are short, and no copies are
/// asked for. Longer ones are not spelt by parts: their payloads are shared, or their bytes are the cost.
fn walk_any<T: SubTable>(
    buffer: &mut DeliveryBuffer,
    tails: &mut MessageTails,
    conns: &mut Conns,
    openings: &Openings<T>,
    job: &Job,
) -> Result<(), AllocError>
    requires { All (λ sub. sub.delivered + 1 < 2 ^ 64) openings.now.subs }
    ensures shown { conns.new.shown ≡ conns.old.shown }
    ensures rising { OnOk result (AreRising openings.now.subs) }
    ensures ok { OnOk result (Follows openings.now.subs job.now
        (λ s w. walk s job.now (filter (is_due job.now) s.subs) w) conns.old.next buffer.old
        conns.new.next buffer.new) }
{
    if buffer.copies || job.message.whole().len() > SHORT_BYTES {
        return buffer.walk(conns, openings, job);
    }
    match openings.receivers(job.message.subject().bytes()) {
        None => buffer.walk(conns, openings, job),
        Some(receivers) => walk_receivers(buffer, conns, openings, job, tails, receivers),
    }
}

/// Places a job for the subscriptions that it is due to, shows what was placed, and notes for whom it is; counts, and closes those
/// that have come to their maximum and those of the connections that were shut. Want of memory leaves all
/// as it was.
#[tactic(auto, using(crate::proofs::Clients::Told::nothing_put))]
pub fn place_all<T: SubTable>(
    buffer: &mut DeliveryBuffer,
    tails: &mut MessageTails,
    conns: &mut Conns,
    dirty_conns: &mut DirtyConns,
    openings: &mut Openings<T>,
    job: &Job,
) -> Result<Begun, AllocError>
    requires fresh { buffer.old ≡ none_tallied buffer.old.shard buffer.old.copies }
    requires settled { IsSettled conns.old }
    requires counts { All (λ sub. sub.delivered + 1 < 2 ^ 64) openings.old.subs }
    ensures ok { IfOk result (λ begun.
        (s : State)
        → s.shard ≡ buffer.old.shard
        → s.subs ≡ openings.old.subs
        → s.clients ≡ conns.old.shown
        → HasPlaced buffer.old.copies s job.now openings.old begun conns.new openings.new) }
    ensures err { OnErr result ((conns.new ≡ conns.old) × (openings.new ≡ openings.old)) }
    ensures told { AreTold conns.old.shown conns.new.shown dirty_conns.old dirty_conns.new }
{
    openings.remember(&job.message.subject().lent());
    let Ok(ended) = stage(buffer, tails, conns, openings, job) else {
        conns.rollback();
        return Err(AllocError);
    };
    conns.commit(dirty_conns);
    openings.count_all(&buffer.given);
    openings.close_all(&buffer.ended);
    let put = mem::replace(&mut buffer.put, Vec::new(buffer.alloc));
    let closed = mem::replace(&mut buffer.shut, Vec::new(buffer.alloc));
    Ok(Begun {
        given: buffer.given.len(),
        put,
        closed,
        ended,
    })
}

/// The whole walk of a job, unseen, and the names of those that close.
fn stage<T: SubTable>(
    buffer: &mut DeliveryBuffer,
    tails: &mut MessageTails,
    conns: &mut Conns,
    openings: &Openings<T>,
    job: &Job,
) -> Result<Vec<SubId>, AllocError>
    requires fresh { buffer.old ≡ none_tallied buffer.old.shard buffer.old.copies }
    requires settled { IsSettled conns.old }
    requires counts { All (λ sub. sub.delivered + 1 < 2 ^ 64) openings.now.subs }
    ensures shown { conns.new.shown ≡ conns.old.shown }
    ensures ok { IfOk result (λ ended.
        (s : State)
        → s.shard ≡ buffer.old.shard
        → s.subs ≡ openings.now.subs
        → s.clients ≡ conns.old.shown
        → IsStaged buffer.old.copies s job.now conns.new.next buffer.new) }
    ensures ended { IfOk result (λ ended.
        ended.items ≡ ended_ids buffer.old.shard buffer.new.ended) }
    ensures given_apart { IfOk result (λ ended. AreApart buffer.new.given) }
    ensures ended_apart { IfOk result (λ ended. AreApart buffer.new.ended) }
{
    walk_any(buffer, tails, conns, openings, job)?;
    if buffer.closes_nothing() {
        return Ok(Vec::new(buffer.alloc));
    }
    buffer.add_last_lines()?;
    let ended = sub_ids(buffer.alloc, buffer.shard, &buffer.ended)?;
    Ok(ended)
}
