//! The shard.

ghost use Rattle.std.specs.Prelude.{◌≡◌, ◌==◌, ◌≤◌, [], false, ◌||◌, ◌/◌, ◌+◌, length, nat_le, true, None, option_map, option_to_list, not, IfOk, OnOk, OnErr};
ghost use Rattle.std.specs.Option.{option_copied};
ghost use Rattle.subj.specs.Answers.{IsAnswered, IsDecided};
ghost use Rattle.subj.specs.Keys.{cost_of};
ghost use Rattle.sub_table.specs.Subscriptions.{total_cost};
ghost use Rattle.shard_core.specs.Answers.{answer_of, call_of, HasBegun, IsAnsweredOrBack, TakesBytes};
ghost use Rattle.client_frames.specs.Frames.{reply_line as line_of_reply};
ghost use Rattle.outbox.specs.Views.{reply_entry, with_entry, with_last};
ghost use Rattle.shard_core.specs.Boxes.{IsSettled, on_both};
ghost use Rattle.shard_core.specs.Closings.{left_of, ended_ids};
ghost use Rattle.shard_core.specs.Dirty.{AreTold};
ghost use Rattle.shard_core.specs.Held.{DoesStep, IsLeft, Chooses, Stands, held_at_rest, serial_told, after_put_chosen, ended_by_chosen};
ghost use Rattle.shard_core.specs.Opened.{AreApart, AreRising, with_closings};
ghost use Rattle.shard_core.specs.Room.{has_room_for as room_for_all};
ghost use Rattle.shard_core.specs.Shards.{new_shard, clients_with_change, client_at, fits, is_open as opened, waits_for};
ghost use Rattle.shard_core.specs.ShardEvents.{Attach, Subscribe, Unsubscribe, Reply, SetHeaders, HeadersSet, Shut, Detach, Take, Begin, Claim, End, DropJob, Drain, Drains, Collect, Attached, Unsubscribed, Replied, WasShut, Detached, Taken, Finished, Dropped, Collected};
ghost use Rattle.shard_core.specs.ShardSteps.{shard_refusal, sub_called as call, ended_now, IsHanded};

mod claims;
mod refusals;
mod runs;

use crate::calls::{BeginFault, Begun, Candidate, Closed, Subscribed};
use crate::claim_run::ClaimBuffer;
use crate::connections::Conns;
use crate::delivery_buffer::{DeliveryBuffer, is_last, message_lengths, place_all, sub_ids};
use crate::dirty_conns::DirtyConns;
use crate::faults::ShardFault;
use crate::openings::Openings;
use crate::queue_claim::{QueueClaim, choose};
use crate::run_delivery::RunBuffer;
use client_frames::{ErrText, MessageTails, ReplyFrame, reply_line};
use outbox::{Entry, LAST_LINE_TEXT};
use std::alloc::{AllocError, Global};
use std::marker::Model;
use sub_table::{SubTable, Subscription};
use subj::{
    ConnId, Delta, Failure, Job, Key, MAX_COUNTER, MAX_SERIAL, MAX_SHARDS, Message,
    SUBSCRIPTION_BYTES, SUBSCRIPTIONS, Sid, SubId, Turn,
};

/// Drops a candidate that stands, with its entry.
fn drop_candidate(conns: &mut Conns, chosen: &mut Option<u64>)
    ensures conns { conns.new ≡ record { shown = conns.old.shown; next = conns.old.shown } }
    ensures chosen { chosen.new ≡ None }
{
    *chosen = None;
    if conns.has_staged() {
        conns.rollback();
    }
}

/// The serials of a connection's subscriptions, in order.
fn serials_of<T: SubTable>(
    alloc: Global,
    openings: &Openings<T>,
    conn: ConnId,
) -> Result<Vec<u64>, AllocError>
    ensures left { IfOk result (λ serials. serials.items ≡ left_of conn [] openings.now.subs) }
    ensures apart { IfOk result (λ serials. AreApart serials.items) }
{
    let mut serials = Vec::new(alloc);
    openings.table().serials_of(conn, &mut serials)?;
    Ok(serials)
}

/// The subscriptions of a connection, in order: their serials, and their names.
fn subs_of<T: SubTable>(
    alloc: Global,
    shard: u64,
    openings: &Openings<T>,
    conn: ConnId,
) -> Result<(Vec<u64>, Vec<SubId>), AllocError>
    ensures serials { IfOk result (λ subs. subs.0.items ≡ left_of conn [] openings.now.subs) }
    ensures apart { IfOk result (λ subs. AreApart subs.0.items) }
    ensures names { IfOk result (λ subs.
        subs.1.items ≡ ended_ids shard (left_of conn [] openings.now.subs)) }
{
    let serials = serials_of(alloc, openings, conn)?;
    let names = sub_ids(alloc, shard, &serials)?;
    Ok((serials, names))
}

/// Puts an answer where the connection has room for it, and notes for whom it is. Tells whether it has. Want of memory leaves
/// all as it was.
fn put_answer(
    alloc: Global,
    conns: &mut Conns,
    dirty_conns: &mut DirtyConns,
    conn: ConnId,
    frame: &ReplyFrame,
) -> Result<bool, AllocError>
    requires { IsSettled conns.old }
    ensures room { IfOk result (λ put.
        put ≡ fits (client_at conn conns.old.shown) (reply_entry (line_of_reply frame.now))) }
    ensures put { IfOk result (λ put.
        put ≡ true
        → conns.new
        ≡ on_both (clients_with_change (with_entry (reply_entry (line_of_reply frame.now))) conn)
        conns.old) }
    ensures full { IfOk result (λ put. put ≡ false → conns.new ≡ conns.old) }
    ensures err { OnErr result (conns.new ≡ conns.old) }
    ensures told { AreTold conns.old.shown conns.new.shown dirty_conns.old dirty_conns.new }
{
    let text = reply_line(alloc, frame)?;
    conns.put_reply(dirty_conns, conn, &text)
}

/// Puts the last line of a connection that is open, notes for whom it is, and closes all its subscriptions. Gives those. Want of
/// memory leaves all as it was.
fn shut_with<T: SubTable>(
    alloc: Global,
    shard: u64,
    conns: &mut Conns,
    dirty_conns: &mut DirtyConns,
    openings: &mut Openings<T>,
    conn: ConnId,
    line: &[u8],
) -> Result<Vec<SubId>, AllocError>
    requires held_at_rest { IsSettled conns.old }
    requires once { opened conn conns.old.shown ≡ true }
    requires small { length line.now ≤ LAST_LINE_TEXT }
    ensures ended { IfOk result (λ ended.
        ended.items ≡ ended_ids shard (left_of conn [] openings.old.subs)) }
    ensures conns { OnOk result
        (conns.new ≡ on_both (clients_with_change (with_last line.now) conn) conns.old) }
    ensures openings { OnOk result
        (openings.new ≡ with_closings (left_of conn [] openings.old.subs) openings.old) }
    ensures err { OnErr result ((conns.new ≡ conns.old) × (openings.new ≡ openings.old)) }
    ensures told { AreTold conns.old.shown conns.new.shown dirty_conns.old dirty_conns.new }
{
    let (serials, ended) = subs_of(alloc, shard, openings, conn)?;
    let _put = conns.shut(dirty_conns, conn, line);
    openings.close_all(&serials);
    Ok(ended)
}

/// Whether one more subscription to the key is beyond the shard's share of the limits.
fn is_full<T: SubTable>(table: &T, shards: u64, key: &Key) -> bool
    requires { 1 ≤ shards }
    ensures { result
        ≡ (nat_le (SUBSCRIPTIONS / shards) (length (T.contents table.now))
        || not (nat_le (total_cost (T.contents table.now) + cost_of key.now)
        (SUBSCRIPTION_BYTES / shards))) }
{
    table.len() as u64 >= SUBSCRIPTIONS / shards
        || !table.fits(key.cost(), SUBSCRIPTION_BYTES / shards)
}

/// What a connection calls by an id, and whether a maximum closes it at once.
#[derive(Clone, Copy)]
struct CalledSub {
    serial: u64,
    ends: bool,
}

/// Whether the maximum closes the subscription at once.
fn ends_now(max: Option<u64>, sub: &Subscription) -> bool
    ensures { result ≡ ended_now max sub.now }
{
    match max {
        None => true,
        Some(max) => sub.delivered >= max,
    }
}

/// What the connection calls by this id.
fn called_sub<T: SubTable>(
    table: &T,
    conn: ConnId,
    sid: &Sid,
    max: Option<u64>,
) -> Option<CalledSub>
    requires { AreRising (T.contents table.now) }
    ensures { result ≡ option_map (call_of max) (call conn sid.now (T.contents table.now)) }
{
    let serial = table.find(conn, sid)?;
    let sub = table.get(serial)?;
    Some(CalledSub {
        serial: sub.serial,
        ends: ends_now(max, sub),
    })
}

/// The serial of a candidate.
fn serial_of(candidate: &Option<Candidate>) -> Option<u64>
    ensures { result ≡ serial_told candidate.now }
{
    match candidate {
        None => None,
        Some(candidate) => Some(candidate.sub.serial),
    }
}

/// Notes the members for the claims of the job, where there are several.
fn note_members_for<T: SubTable>(job: &Job, openings: &mut Openings<T>)
    ensures { openings.new ≡ openings.old }
{
    if job.queues.as_slice().len() > 1 {
        openings.note_members(&job.message.subject().lent());
    }
}

/// One shard of a server, over any table of subscriptions. (Profile.)
///
/// Seen as the shard's state, and the member of a queue group that stands as the candidate of the last
/// call. Each call is the shard's step: it is refused by the first cause, or does what the step says; want
/// of memory comes only where there is no cause. Both leave the state as it was. Every call but
/// [`Shard::place`] drops a candidate that stands.
pub struct Shard<T: SubTable> {
    alloc: Global,
    shard: u64,
    shards: u64,
    /// The number of the next connection.
    next_conn: u64,
    /// How many subscriptions were opened.
    opened: u64,
    finished: Turn,
    hand: Option<Job>,
    /// The index of the queue name of the job in hand that is to be claimed next.
    next_index: u64,
    conns: Conns,
    openings: Openings<T>,
    /// Whether no subscription is taken any more.
    draining: bool,
    /// The serial of the candidate that stands, whose entry is staged.
    chosen: Option<u64>,
    /// The memory of a walk, used again by the next.
    buffer: DeliveryBuffer,
    /// The memory of what a walk's messages have in common.
    tails: MessageTails,
    /// The memory of a run.
    run: RunBuffer,
    /// The memory of a run of claims.
    claims: ClaimBuffer,
    /// Up to this turn no run is tried: the last one could not be delivered at once.
    tried: Turn,
    /// For which connections something was put.
    dirty_conns: DirtyConns,
}

/// One call, also for crates above: `docs/PROVING.md`, "What a proof costs".
impl<T: SubTable> Drop for Shard<T> {
    fn drop(self) {
        let Shard {
            alloc: _,
            shard: _,
            shards: _,
            next_conn: _,
            opened: _,
            finished: _,
            hand: _,
            next_index: _,
            conns: _,
            openings: _,
            draining: _,
            chosen: _,
            buffer: _,
            tails: _,
            run: _,
            claims: _,
            tried: _,
            dirty_conns: _,
        } = self;
    }
}

impl<T: SubTable> Model for Shard<T> {
    ghost use Rattle.shard_core.specs.Held.{Held, IsSound, with_serial};

    ghost Value = { Held };

    ghost view = { λ s. record {
      state = record {
        shard = s.shard;
        shards = s.shards;
        next_conn = s.next_conn;
        opened = s.opened;
        finished = s.finished;
        hand = s.hand;
        next_index = s.next_index;
        clients = s.conns.shown;
        subs = s.openings.subs;
        draining = s.draining;
        deltas = s.openings.deltas;
      };
      chosen = with_serial s.chosen s.openings.subs;
    } };

    ghost invariant = { λ s. IsSound (record {
      shard = s.shard;
      shards = s.shards;
      next_conn = s.next_conn;
      opened = s.opened;
      finished = s.finished;
      hand = s.hand;
      next_index = s.next_index;
      clients = s.conns.shown;
      subs = s.openings.subs;
      draining = s.draining;
      deltas = s.openings.deltas;
    }) (with_serial s.chosen s.openings.subs) s.conns.next };
}

impl<T: SubTable> Shard<T> {
    /// The shard of this number, of so many, without connections.
    pub fn new(alloc: Global, shard: u64, shards: u64) -> Result<Self, AllocError>
        requires first { 1 ≤ shard }
        requires last { shard ≤ shards }
        requires few { shards ≤ MAX_SHARDS }
        ensures { IfOk result (λ s. s ≡ held_at_rest (new_shard shard shards)) }
    {
        let openings = Openings::new(alloc)?;
        Ok(Shard {
            alloc,
            shard,
            shards,
            next_conn: shard,
            opened: 0,
            finished: Turn::zero(),
            hand: None,
            next_index: 0,
            conns: Conns::new(alloc),
            openings,
            draining: false,
            chosen: None,
            buffer: DeliveryBuffer::new(alloc, shard),
            tails: MessageTails::new(alloc),
            run: RunBuffer::new(alloc),
            claims: ClaimBuffer::new(alloc),
            tried: Turn::zero(),
            dirty_conns: DirtyConns::new(alloc),
        })
    }

    /// A new connection. Shard s of K numbers its connections s, s + K, s + 2K, ..; refused with
    /// [`ShardFault::Spent`] where the number would be above [`MAX_COUNTER`].
    pub fn attach(&mut self) -> Result<ConnId, Failure<ShardFault>>
        ensures { IsAnswered (shard_refusal self.old.state Attach)
            (λ conn. DoesStep self.old Attach (Attached conn) self.new) (IsLeft self.old self.new)
            result }
    {
        drop_candidate(&mut self.conns, &mut self.chosen);
        if self.next_conn > MAX_COUNTER {
            return Err(Failure::Refused(ShardFault::Spent));
        }
        let conn = ConnId::new(self.next_conn);
        self.conns.attach(conn)?;
        self.next_conn += self.shards;
        Ok(conn)
    }

    /// Opens a subscription, and notes it for the hub, unless the connection has one of this id open.
    /// Refused with [`ShardFault::NoConn`] where the connection is not there or shut, and with
    /// [`ShardFault::Draining`] where the shard drains; then, where the id is not open, with
    /// [`ShardFault::TooManySubs`] at the shard's share of [`SUBSCRIPTIONS`] or of
    /// [`SUBSCRIPTION_BYTES`], and with [`ShardFault::Spent`] past [`MAX_SERIAL`] openings.
    pub fn subscribe(
        &mut self,
        conn: ConnId,
        key: Key,
        sid: Sid,
    ) -> Result<Subscribed, Failure<ShardFault>>
        ensures { IsAnswered (shard_refusal self.old.state (Subscribe conn key sid))
            (λ done. DoesStep self.old (Subscribe conn key sid) (answer_of done) self.new)
            (IsLeft self.old self.new) result }
    {
        drop_candidate(&mut self.conns, &mut self.chosen);
        let serial = match self.serial_for(conn, &key, &sid) {
            Ok(Some(serial)) => serial,
            Ok(None) => return Ok(Subscribed::Same),
            Err(fault) => return Err(Failure::Refused(fault)),
        };
        self.openings.open(Subscription {
            serial,
            conn,
            key,
            sid,
            delivered: 0,
            max: None,
        })?;
        self.opened = serial;
        Ok(Subscribed::New(SubId {
            shard: self.shard,
            serial,
        }))
    }

    /// Takes no subscription any more; what is open stays. Refused with [`ShardFault::Draining`] where the shard
    /// drains already. Takes no memory. (Profile.)
    pub fn drain(&mut self) -> Result<(), ShardFault>
        ensures { IsDecided (shard_refusal self.old.state Drain)
            (λ _. DoesStep self.old Drain Drains self.new) (IsLeft self.old self.new) result }
    {
        drop_candidate(&mut self.conns, &mut self.chosen);
        if self.draining {
            return Err(ShardFault::Draining);
        }
        self.draining = true;
        Ok(())
    }

    /// Closes what the connection calls by this id: at once, or, with a maximum, once so many messages
    /// were delivered since it opened. A later maximum takes the place of an earlier one; an id that is
    /// not open changes nothing. Gives the subscription that closed. Refused with
    /// [`ShardFault::NoConn`] where the connection is not there or shut. Takes no memory. (NATS
    /// documentation, "Client Protocol": `UNSUB`.)
    pub fn unsubscribe(
        &mut self,
        conn: ConnId,
        sid: &Sid,
        max: Option<u64>,
    ) -> Result<Option<SubId>, ShardFault>
        ensures { IsDecided (shard_refusal self.old.state (Unsubscribe conn sid.now max))
            (λ ended.
            DoesStep self.old (Unsubscribe conn sid.now max) (Unsubscribed (option_to_list ended))
            self.new)
            (IsLeft self.old self.new) result }
    {
        drop_candidate(&mut self.conns, &mut self.chosen);
        if !self.conns.is_open(conn) {
            return Err(ShardFault::NoConn);
        }
        let Some(called) = called_sub(self.openings.table(), conn, sid, max) else {
            return Ok(None);
        };
        if !called.ends {
            self.openings.set_max(called.serial, max);
            return Ok(None);
        }
        self.openings.close(called.serial);
        Ok(Some(SubId {
            shard: self.shard,
            serial: called.serial,
        }))
    }

    /// Puts an answer for a connection; where there is no room for it the connection is shut with
    /// 'Slow Consumer' in its place. Gives whether it was, and the subscriptions that closed with it.
    /// Refused with [`ShardFault::NoConn`] where the connection is not there or shut.
    pub fn reply(&mut self, conn: ConnId, frame: &ReplyFrame) -> Result<Closed, Failure<ShardFault>>
        ensures { IsAnswered (shard_refusal self.old.state (Reply conn frame.now))
            (λ closed.
            DoesStep self.old (Reply conn frame.now) (Replied closed.shut closed.ended.items)
            self.new)
            (IsLeft self.old self.new) result }
    {
        drop_candidate(&mut self.conns, &mut self.chosen);
        if !self.conns.is_open(conn) {
            return Err(Failure::Refused(ShardFault::NoConn));
        }
        if put_answer(
            self.alloc,
            &mut self.conns,
            &mut self.dirty_conns,
            conn,
            frame,
        )? {
            return Ok(Closed {
                shut: false,
                ended: Vec::new(self.alloc),
            });
        }
        let line = ErrText::SlowConsumer.line();
        let (conns, openings) = (&mut self.conns, &mut self.openings);
        let ended = shut_with(
            self.alloc,
            self.shard,
            conns,
            &mut self.dirty_conns,
            openings,
            conn,
            line,
        )?;
        Ok(Closed { shut: true, ended })
    }

    /// Notes whether a connection takes headers: from here on a message is delivered to it with its header block, by `HMSG`, or
    /// without. Refused with [`ShardFault::NoConn`] where the connection is not there or shut. Takes no memory. (NATS documentation,
    /// "Client Protocol", "CONNECT": `headers`.)
    pub fn set_headers(&mut self, conn: ConnId, on: bool) -> Result<(), ShardFault>
        ensures { IsDecided (shard_refusal self.old.state (SetHeaders conn on))
            (λ _. DoesStep self.old (SetHeaders conn on) HeadersSet self.new)
            (IsLeft self.old self.new) result }
    {
        drop_candidate(&mut self.conns, &mut self.chosen);
        if !self.conns.is_open(conn) {
            return Err(ShardFault::NoConn);
        }
        self.conns.set_headers(conn, on);
        Ok(())
    }

    /// Shuts a connection with this text: its last line is put, and all its subscriptions close. Gives
    /// those. Refused with [`ShardFault::NoConn`] where the connection is not there or shut already.
    pub fn shut(&mut self, conn: ConnId, text: ErrText) -> Result<Vec<SubId>, Failure<ShardFault>>
        ensures { IsAnswered (shard_refusal self.old.state (Shut conn text))
            (λ ended. DoesStep self.old (Shut conn text) (WasShut ended.items) self.new)
            (IsLeft self.old self.new) result }
    {
        drop_candidate(&mut self.conns, &mut self.chosen);
        if !self.conns.is_open(conn) {
            return Err(Failure::Refused(ShardFault::NoConn));
        }
        let (conns, openings) = (&mut self.conns, &mut self.openings);
        let ended = shut_with(
            self.alloc,
            self.shard,
            conns,
            &mut self.dirty_conns,
            openings,
            conn,
            text.line(),
        )?;
        Ok(ended)
    }

    /// The connection goes with all that waits for it, and all its subscriptions close. Gives those.
    /// Refused with [`ShardFault::NoConn`] where it is not there.
    pub fn detach(&mut self, conn: ConnId) -> Result<Vec<SubId>, Failure<ShardFault>>
        ensures { IsAnswered (shard_refusal self.old.state (Detach conn))
            (λ ended. DoesStep self.old (Detach conn) (Detached ended.items) self.new)
            (IsLeft self.old self.new) result }
    {
        drop_candidate(&mut self.conns, &mut self.chosen);
        if !self.conns.is_known(conn) {
            return Err(Failure::Refused(ShardFault::NoConn));
        }
        let (serials, ended) = subs_of(self.alloc, self.shard, &self.openings, conn)?;
        self.conns.detach(conn);
        self.openings.close_all(&serials);
        Ok(ended)
    }

    /// Gives and removes the first entries that wait for a connection, or all where there are fewer,
    /// also for one that is shut. Refused with [`ShardFault::NoConn`] where it is not there.
    pub fn take(&mut self, conn: ConnId, count: usize) -> Result<Vec<Entry>, Failure<ShardFault>>
        ensures { IsAnswered (shard_refusal self.old.state (Take conn count))
            (λ entries. DoesStep self.old (Take conn count) (Taken entries.items) self.new)
            (IsLeft self.old self.new) result }
    {
        drop_candidate(&mut self.conns, &mut self.chosen);
        if !self.conns.is_known(conn) {
            return Err(Failure::Refused(ShardFault::NoConn));
        }
        let entries = self.conns.take(conn, count)?;
        Ok(entries)
    }

    /// Moves the bytes of the first entries that wait for a connection, or of all where there are fewer,
    /// behind those that are in `out`, in order, and removes these entries: [`Shard::take`] without
    /// entries. Gives how many they were. A refusal or want of memory leaves `out` as it was.
    pub fn take_bytes(
        &mut self,
        conn: ConnId,
        count: usize,
        out: &mut Vec<u8>,
    ) -> Result<usize, Failure<ShardFault>>
        ensures { IsAnswered (shard_refusal self.old.state (Take conn count))
            (λ taken. TakesBytes self.old conn count taken out.old.items out.new.items self.new)
            (IsLeft self.old self.new × (out.new.items ≡ out.old.items)) result }
    {
        drop_candidate(&mut self.conns, &mut self.chosen);
        if !self.conns.is_known(conn) {
            return Err(Failure::Refused(ShardFault::NoConn));
        }
        let taken = self.conns.take_bytes(conn, count, out)?;
        Ok(taken)
    }

    /// Whether the connection is there and not shut.
    pub fn is_open(&self, conn: ConnId) -> bool
        ensures { result ≡ opened conn self.now.state.clients }
    {
        self.conns.is_open(conn)
    }

    /// Whether nothing waits for the connection, as for one that is not there.
    pub fn has_nothing_for(&self, conn: ConnId) -> bool
        ensures { result ≡ (length (waits_for conn self.now.state.clients) == 0) }
    {
        self.conns.has_nothing_for(conn)
    }

    /// Whether each connection has room for the messages that its open subscriptions are due of this one, all together: one for
    /// each that gets its subject. Takes no memory.
    pub fn has_room_for(&self, message: &Message) -> bool
        ensures { result ≡ room_for_all message.now self.now.state }
    {
        let table = self.openings.table();
        self.conns
            .have_room(table, &message.subject().lent(), message_lengths(message))
    }

    /// Whether the connections that are told next are to be asked for soon ([`DirtyConns::is_urgent`]).
    pub fn is_urgent(&self) -> bool {
        self.dirty_conns.is_urgent()
    }

    /// Gives for which connections something was put since the last time, in place of what `dirty_conns`
    /// tells, which is forgotten. Takes no memory.
    pub fn swap_dirty_conns(&mut self, dirty_conns: &mut DirtyConns)
        ensures { self.new ≡ self.old }
    {
        self.dirty_conns.hand_over(dirty_conns);
    }

    /// The job in hand.
    pub fn hand(&self) -> Option<&Job>
        ensures { option_copied result ≡ self.now.state.hand }
    {
        self.hand.as_ref()
    }

    /// Takes a job in hand, and places it for each open plain subscription that matches and is
    /// permitted, in order of serial. A subscription closes with the message that reaches its maximum.
    /// Where an outbox has no room its connection is shut with 'Slow Consumer' and all its subscriptions
    /// close; what was placed before stands. With `copies` the answer has copies of what was put. Refused,
    /// with the job handed back, with [`ShardFault::JobInHand`], and then with [`ShardFault::WrongTurn`]
    /// where the turn is not the one behind the last that was finished.
    pub fn begin(&mut self, job: Job, copies: bool) -> Result<Begun, BeginFault>
        ensures { IsAnsweredOrBack (shard_refusal self.old.state (Begin job)) job
            (λ begun. HasBegun copies self.old job begun self.new) (IsLeft self.old self.new)
            result }
    {
        drop_candidate(&mut self.conns, &mut self.chosen);
        if self.hand.is_some() {
            return Err(BeginFault {
                job,
                cause: Failure::Refused(ShardFault::JobInHand),
            });
        }
        if job.turn.get() != self.finished.get() + 1 {
            return Err(BeginFault {
                job,
                cause: Failure::Refused(ShardFault::WrongTurn),
            });
        }
        self.buffer.start(self.shard, copies);
        let Ok(begun) = place_all(
            &mut self.buffer,
            &mut self.tails,
            &mut self.conns,
            &mut self.dirty_conns,
            &mut self.openings,
            &job,
        ) else {
            return Err(BeginFault {
                job,
                cause: Failure::OutOfMemory,
            });
        };
        self.hand = Some(job);
        self.next_index = 0;
        Ok(begun)
    }

    /// Tries the queue name of this index of the job in hand, which is the next one. Chooses a member of
    /// the queue group: of those that are open, match, are permitted and have room, in order of serial,
    /// the one at the place of the turn modulo their number. It stands as the candidate of the index,
    /// with its entry, until the next call. None where there is no such member. With `copies` the answer
    /// has a copy of that entry. Refused with [`ShardFault::NoJob`], and with [`ShardFault::BadIndex`]
    /// where the index is not the next one. (NATS documentation, "Queue Groups".)
    pub fn candidate(
        &mut self,
        index: u64,
        copies: bool,
    ) -> Result<Option<Candidate>, Failure<ShardFault>>
        ensures { IsAnswered (shard_refusal self.old.state (Claim index false))
            (λ candidate. Chooses copies self.old index candidate self.new)
            (IsLeft self.old self.new) result }
    {
        drop_candidate(&mut self.conns, &mut self.chosen);
        let Some(job) = &self.hand else {
            return Err(Failure::Refused(ShardFault::NoJob));
        };
        let names = job.queues.as_slice();
        if index != self.next_index || index >= names.len() as u64 {
            return Err(Failure::Refused(ShardFault::BadIndex));
        }
        note_members_for(job, &mut self.openings);
        let claim = QueueClaim {
            alloc: self.alloc,
            shard: self.shard,
            job,
            name: &names[index as usize],
            copies,
        };
        let candidate = choose(&claim, &mut self.conns, &self.openings)?;
        self.chosen = serial_of(&candidate);
        self.next_index += 1;
        Ok(candidate)
    }

    /// The candidate of this index, which the last call gave, gets its entry; it closes if that is the last
    /// message of its maximum, and is given then. Takes no memory.
    pub fn place(&mut self, index: u64) -> Option<SubId>
        requires { Stands index self.old }
        ensures placed { self.new
            ≡ held_at_rest (after_put_chosen self.old.state self.old.state.hand self.old.chosen) }
        ensures ended { option_to_list result
            ≡ ended_ids self.old.state.shard (ended_by_chosen self.old.chosen) }
    {
        prove!(index < self.next_index);
        let Some(serial) = self.chosen.take() else {
            // required: the last call gave a candidate
            unreachable!()
        };
        let Some(sub) = self.openings.table().get(serial) else {
            // a candidate stays open until the next call
            unreachable!()
        };
        let ends = is_last(sub);
        self.conns.commit(&mut self.dirty_conns);
        self.openings.count(serial);
        if !ends {
            return None;
        }
        self.openings.close(serial);
        Some(SubId {
            shard: self.shard,
            serial,
        })
    }

    /// Finishes the turn in hand. Refused with [`ShardFault::NoJob`], and with
    /// [`ShardFault::NotAllTried`] where a queue name of the job was not tried. Takes no memory.
    pub fn end(&mut self) -> Result<(), ShardFault>
        ensures { IsDecided (shard_refusal self.old.state End)
            (λ _. DoesStep self.old End Finished self.new) (IsLeft self.old self.new) result }
    {
        drop_candidate(&mut self.conns, &mut self.chosen);
        let Some(job) = &self.hand else {
            return Err(ShardFault::NoJob);
        };
        if self.next_index != job.queues.as_slice().len() as u64 {
            return Err(ShardFault::NotAllTried);
        }
        self.finished = job.turn;
        self.hand = None;
        self.next_index = 0;
        Ok(())
    }

    /// Finishes the job in hand without the rest of it, or, where none is in hand, the job that waits,
    /// unbegun: it is handed over then, and is that of the next turn. Gives the job that is done. Takes
    /// no memory.
    pub fn drop_job(&mut self, waiting: Option<Job>) -> Option<Job>
        requires { IsHanded self.old.state.finished self.old.state.hand waiting }
        ensures { DoesStep self.old (DropJob waiting) (Dropped result) self.new }
    {
        drop_candidate(&mut self.conns, &mut self.chosen);
        let done = match self.hand.take() {
            None => waiting,
            Some(job) => Some(job),
        };
        if let Some(job) = &done {
            self.finished = job.turn;
            self.next_index = 0;
        }
        done
    }

    /// The openings and closings that the hub was not told of yet, in order. (Profile.)
    pub fn deltas(&self) -> &[Delta]
        ensures { result.now ≡ self.now.state.deltas }
    {
        self.openings.deltas()
    }

    /// The hub was told of all openings and closings. Takes no memory.
    pub fn take_deltas(&mut self)
        ensures { DoesStep self.old Collect (Collected self.old.state.deltas) self.new }
    {
        drop_candidate(&mut self.conns, &mut self.chosen);
        self.openings.take_deltas();
    }
}
