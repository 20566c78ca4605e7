//! Connections, and what waits for them.

ghost use Rattle.std.specs.List.{list_all, list_any};
ghost use Rattle.sub_table.specs.Subscriptions.{is_room, matching_of};
ghost use Rattle.shard_core.specs.Boxes.{room_left, AreRising, AreConns, IsSettled, IsSettledAt, on_both, on_shown, client_in_view, shown_backlog, next_backlog, number_of, HasRoomAt, IsBoxStaged, IsOpenAt, IsSeated, IsSeatOf, IsStanding, AreAlike, form_length};
ghost use Rattle.std.specs.Prelude.{map, filter, not, nat_eq, nat_le, ◌&&◌, ◌≡◌, ◌==◌, ◌≤◌, ◌+◌, ◌-◌, ◌<◌, ◌^◌, ◌++◌, ◌∷◌, [], true, false, position, take, length, All, IsTrue, IfOk, IfSome, OnOk, OnErr, None, Some};
ghost use Rattle.std.specs.Option.{option_map, option_copied};
ghost use Rattle.outbox.specs.Views.{has_room, with_entry, with_last, without_first, size_of, reply_entry, message_entry, message_run, spelt_entry, with_entries, bytes_of_all};
ghost use Rattle.shard_core.specs.Shards.{is_open as opened, is_known as known, client_at, clients_with_change, clients_with_headers, takes_headers as headers_taken, without_client, fits, fits_len, waits_for};
ghost use Rattle.shard_core.specs.Dirty.{AreKept, AreTold, AreToldBut, IsToldAt};
ghost use Rattle.shard_core.specs.Opened.{AreApart};
ghost use Rattle.shard_core.specs.RunReceivers.{clients_with_entries};
ghost use Rattle.shard_core.specs.Runs.{numbers_of};
ghost use Rattle.shard_core.specs.RunSteps.{TakesRun, TakesRunAt};
ghost use Rattle.shard_core.specs.ShardSteps.{new_client};

mod queued;

use crate::dirty_conns::DirtyConns;
use crate::standings::{FormLengths, Seat, Standing, len_of, room_of, standing_at};
use bytes::Bytes;
use outbox::{Entry, LAST_LINE_TEXT, Mode, Outbox, RunTails};
use std::alloc::{AllocError, Global};
use std::marker::Model;
use sub_table::SubTable;
use subj::{ConnId, LentSubject, OUTBOX_BYTES, OUTBOX_ENTRIES, PubId, SubId};

/// A connection.
#[derive(Drop)]
struct Conn {
    number: u64,
    outbox: Outbox,
    /// Whether header blocks are delivered to it.
    headers: bool,
}

/// Where the connection of this number stands.
fn place_of(conns: &[Conn], number: u64) -> Option<usize>
    requires { AreRising conns.now }
    ensures { result ≡ position (λ conn. conn.number == number) conns.now }
{
    conns.binary_search_by_key(&number, |conn| conn.number).ok()
}

/// Shows what was staged at one place.
#[tactic(auto, using(crate::proofs::Clients::Lookups::numbers_stay))]
fn commit_at(conns: &mut [Conn], place: usize)
    ensures numbers { map number_of conns.new ≡ map number_of conns.old }
    ensures next { map (client_in_view next_backlog) conns.new
        ≡ map (client_in_view next_backlog) conns.old }
    ensures settled { IsSettledAt place conns.old conns.new }
{
    if place < conns.len() {
        let conn = &mut conns[place];
        conn.outbox.commit();
    }
}

/// Shows what was staged, which stands at these places and nowhere else.
fn commit_all(conns: &mut [Conn], places: &[usize])
    requires { AreConns places.now conns.old }
    ensures shown { map (client_in_view shown_backlog) conns.new
        ≡ map (client_in_view next_backlog) conns.old }
    ensures next { map (client_in_view next_backlog) conns.new
        ≡ map (client_in_view next_backlog) conns.old }
    ensures settled { AreConns [] conns.new }
{
    for place in places {
        commit_at(conns, *place);
    }
}

/// Drops what was staged at one place.
#[tactic(auto, using(crate::proofs::Clients::Lookups::numbers_stay))]
fn rollback_at(conns: &mut [Conn], place: usize)
    ensures numbers { map number_of conns.new ≡ map number_of conns.old }
    ensures shown { map (client_in_view shown_backlog) conns.new
        ≡ map (client_in_view shown_backlog) conns.old }
    ensures settled { IsSettledAt place conns.old conns.new }
{
    if place < conns.len() {
        let conn = &mut conns[place];
        conn.outbox.rollback();
    }
}

/// Drops what was staged, which stands at these places and nowhere else.
fn rollback_all(conns: &mut [Conn], places: &[usize])
    requires { AreConns places.now conns.old }
    ensures shown { map (client_in_view shown_backlog) conns.new
        ≡ map (client_in_view shown_backlog) conns.old }
    ensures next { map (client_in_view next_backlog) conns.new
        ≡ map (client_in_view shown_backlog) conns.old }
    ensures settled { AreConns [] conns.new }
{
    for place in places {
        rollback_at(conns, *place);
    }
}

/// Where the connection stands.
fn place_in(conns: &Vec<Conn>, conn: ConnId) -> Option<usize>
    requires { AreRising conns.now.items }
    ensures { result ≡ position (λ other. other.number == conn) conns.now.items }
{
    place_of(conns, conn.get())
}

/// Whether the connection of this number stands at the place.
fn is_at(conns: &Vec<Conn>, place: usize, number: u64) -> bool
    requires { AreRising conns.now.items }
    ensures { result ≡ true
        → position (λ conn. conn.number == number) conns.now.items ≡ Some place }
{
    if place >= conns.len() {
        return false;
    }
    conns[place].number == number
}

/// Where the connection stands, which is looked for at this place first.
fn place_near(conns: &Vec<Conn>, near: usize, conn: ConnId) -> Option<usize>
    requires { AreRising conns.now.items }
    ensures { result ≡ position (λ other. other.number == conn) conns.now.items }
{
    if is_at(conns, near, conn.get()) {
        return Some(near);
    }
    place_in(conns, conn)
}

/// The connection, where it is there.
fn conn_of(conns: &Vec<Conn>, conn: ConnId) -> Option<&Conn>
    requires { AreRising conns.now.items }
    ensures shown { option_map (client_in_view shown_backlog) (option_copied result)
        ≡ client_at conn (map (client_in_view shown_backlog) conns.now.items) }
    ensures next { option_map (client_in_view next_backlog) (option_copied result)
        ≡ client_at conn (map (client_in_view next_backlog) conns.now.items) }
{
    match place_in(conns, conn) {
        None => None,
        Some(place) => Some(&conns[place]),
    }
}

/// The seat of the connection, which stands at the place.
fn seat_at(there: &Conn, conn: ConnId, place: usize) -> Seat
    ensures { result ≡ record { conn = conn; place = place; takes_headers = there.now.headers } }
{
    Seat {
        conn,
        place,
        takes_headers: there.headers,
    }
}

/// Where the connection stands, which is looked for at this place first.
fn seat_in(conns: &Vec<Conn>, near: usize, conn: ConnId) -> Option<Seat>
    requires { AreRising conns.now.items }
    ensures none { result ≡ None
        → client_at conn (map (client_in_view next_backlog) conns.now.items) ≡ None }
    ensures some { IfSome result (λ seat.
        IsSeatOf conn seat (map (client_in_view next_backlog) conns.now.items)) }
{
    match place_near(conns, near, conn) {
        None => None,
        Some(place) => Some(seat_at(&conns[place], conn, place)),
    }
}

/// How the connection, which is looked for at this place first, stands to an entry of so many bytes in the form that it is due.
#[inline(always)]
fn standing_in(conns: &Vec<Conn>, near: usize, conn: ConnId, lengths: FormLengths) -> Standing
    requires { AreRising conns.now.items }
    ensures { IsStanding result conn lengths (map (client_in_view next_backlog) conns.now.items) }
{
    match place_near(conns, near, conn) {
        None => Standing::Shut,
        Some(place) => {
            let there = &conns[place];
            standing_at(&there.outbox, seat_at(there, conn, place), lengths)
        }
    }
}

/// Notes that something was put or staged for the connection at the place.
fn note_at(dirty_conns: &mut DirtyConns, conns: &Vec<Conn>, place: usize)
    ensures told { IsToldAt place conns.now.items dirty_conns.new }
    ensures kept { AreKept dirty_conns.old dirty_conns.new }
{
    if place >= conns.len() {
        return;
    }
    let conn = &conns[place];
    dirty_conns.note(
        ConnId::new(conn.number),
        conns.len(),
        conn.outbox.is_half_full(),
    );
}

/// Notes that something was put or staged for the connections at these places.
fn note_all(dirty_conns: &mut DirtyConns, conns: &Vec<Conn>, places: &[usize])
    ensures told { AreToldBut [] places.now conns.now.items dirty_conns.new }
    ensures kept { AreKept dirty_conns.old dirty_conns.new }
{
    for place in places {
        note_at(dirty_conns, conns, *place);
    }
}

/// Whether the place is the last one of these.
fn is_last(places: &Vec<usize>, place: usize) -> bool
    ensures { result ≡ true → list_any (nat_eq place) places.now.items ≡ true }
{
    if places.is_empty() {
        return false;
    }
    places[places.len() - 1] == place
}

/// Notes that something is staged for the connection that stands there: once, where as much goes there in a row.
fn note_staged(places: &mut Vec<usize>, seat: Seat) -> Result<(), AllocError>
    ensures ok { OnOk result (AreAlike places.new.items (places.old.items ++ seat.place ∷ [])) }
    ensures err { OnErr result (places.new.items ≡ places.old.items) }
{
    if is_last(places, seat.place) {
        return Ok(());
    }
    places.push(seat.place)?;
    Ok(())
}

/// Stages a message of two parts for the connection at the place, which has room for it.
fn stage_parts_at(
    conns: &mut Vec<Conn>,
    place: usize,
    id: PubId,
    sub: SubId,
    mode: Mode,
    head: &[u8],
    tail: &[u8],
) -> Result<(), AllocError>
    requires within { place < length conns.old.items }
    requires fits { length head.now + length tail.now < 2 ^ 64 }
    requires room { HasRoomAt place (length (spelt_entry id sub mode (head.now ++ tail.now)).bytes)
        conns.old.items }
    ensures ok { OnOk result (IsBoxStaged place
        (with_entry (spelt_entry id sub mode (head.now ++ tail.now))) conns.old.items
        conns.new.items) }
    ensures err { OnErr result
        (IsBoxStaged place (λ backlog. backlog) conns.old.items conns.new.items) }
{
    let conn = &mut conns[place];
    conn.outbox.stage_parts(id, sub, mode, head, tail)?;
    Ok(())
}

/// Stages a message for the connection at the place, which has room for it.
fn stage_message_at(
    conns: &mut Vec<Conn>,
    place: usize,
    id: PubId,
    sub: SubId,
    mode: Mode,
    line: &[u8],
    body: &Bytes,
) -> Result<(), AllocError>
    requires within { place < length conns.old.items }
    requires fits { length line.now + length body.now + 4 < 2 ^ 64 }
    requires room { HasRoomAt place (length (message_entry id sub mode line.now body.now).bytes)
        conns.old.items }
    ensures ok { OnOk result (IsBoxStaged place
        (with_entry (message_entry id sub mode line.now body.now)) conns.old.items
        conns.new.items) }
    ensures err { OnErr result
        (IsBoxStaged place (λ backlog. backlog) conns.old.items conns.new.items) }
{
    let conn = &mut conns[place];
    conn.outbox.stage_message(id, sub, mode, line, body)?;
    Ok(())
}

/// Whether the connection at the place takes the messages of a run: it has room for all of them, and nothing is staged for it.
fn takes_run_at(conns: &Vec<Conn>, place: usize, sub: SubId, head: &[u8], tails: &RunTails) -> bool
    requires within { place < length conns.now.items }
    ensures { result ≡ true
        → TakesRunAt place (message_run sub head.now tails.now) conns.now.items }
{
    let outbox = &conns[place].outbox;
    !outbox.has_staged() && outbox.room_for_run(sub, head, tails)
}

/// Stages the messages of a run for the connection at the place, which takes them.
fn stage_run_at(
    conns: &mut Vec<Conn>,
    place: usize,
    sub: SubId,
    head: &[u8],
    tails: &RunTails,
) -> Result<(), AllocError>
    requires within { place < length conns.old.items }
    requires takes { TakesRunAt place (message_run sub head.now tails.now) conns.old.items }
    ensures ok { OnOk result (IsBoxStaged place (with_entries (message_run sub head.now tails.now))
        conns.old.items conns.new.items) }
    ensures err { OnErr result
        (IsBoxStaged place (λ backlog. backlog) conns.old.items conns.new.items) }
{
    let conn = &mut conns[place];
    conn.outbox.stage_run(sub, head, tails)?;
    Ok(())
}

/// Stages the last line of the connection at the place, which is open.
fn stage_last_at(conns: &mut Vec<Conn>, place: usize, line: &[u8]) -> Result<(), AllocError>
    requires within { place < length conns.old.items }
    requires once { IsOpenAt place conns.old.items }
    requires small { length line.now ≤ LAST_LINE_TEXT }
    ensures ok { OnOk result
        (IsBoxStaged place (with_last line.now) conns.old.items conns.new.items) }
    ensures err { OnErr result
        (IsBoxStaged place (λ backlog. backlog) conns.old.items conns.new.items) }
{
    let conn = &mut conns[place];
    conn.outbox.stage_last(line)?;
    Ok(())
}

/// Removes the connection of this number.
fn remove(conns: &mut Vec<Conn>, number: u64)
    ensures { conns.new.items ≡ filter (λ conn. not (conn.number == number)) conns.old.items }
{
    conns.retain(|conn| conn.number != number);
}

/// The connections of a shard, each with its outbox, in order of their numbers.
///
/// Entries and last lines may be staged: put unseen, until [`Conns::commit`] shows all of them or
/// [`Conns::rollback`] drops them.
///
/// Seen as the clients with what waits for each, and as they will be once all that was staged is shown.
pub struct Conns {
    alloc: Global,
    conns: Vec<Conn>,
    /// Where something is staged.
    places: Vec<usize>,
    /// Where something was staged before the last commit, in order: the next entries often go the same way.
    last_places: Vec<usize>,
}

/// One call for whoever lets it go: `docs/PROVING.md`, "What a proof costs".
impl Drop for Conns {
    fn drop(self) {
        let Conns {
            alloc: _,
            conns: _,
            places: _,
            last_places: _,
        } = self;
    }
}

impl Model for Conns {
    ghost use Rattle.shard_core.specs.Boxes.{Clients};

    ghost Value = { Clients };

    ghost use Rattle.std.specs.Prelude.{map};
    ghost use Rattle.shard_core.specs.Boxes.{AreConns, client_in_view, shown_backlog, next_backlog};

    ghost view = { λ c. record {
      shown = map (client_in_view shown_backlog) c.conns.items;
      next = map (client_in_view next_backlog) c.conns.items;
    } };

    ghost invariant = { λ c. AreConns c.places.items c.conns.items };
}

impl Conns {
    /// No connections.
    pub fn new(alloc: Global) -> Conns
        ensures { result ≡ record { shown = []; next = [] } }
    {
        Conns {
            alloc,
            conns: Vec::new(alloc),
            places: Vec::new(alloc),
            last_places: Vec::new(alloc),
        }
    }

    /// A new connection, whose number is above all others. Want of memory leaves all as it was.
    pub fn attach(&mut self, conn: ConnId) -> Result<(), AllocError>
        requires settled { IsSettled self.old }
        requires above { All (λ client. client.number < conn) self.old.shown }
        ensures ok { OnOk result
            (self.new ≡ on_both (λ clients. clients ++ new_client conn ∷ []) self.old) }
        ensures err { OnErr result (self.new ≡ self.old) }
    {
        let outbox = Outbox::new(self.alloc, OUTBOX_ENTRIES, OUTBOX_BYTES)?;
        self.conns.push(Conn {
            number: conn.get(),
            outbox,
            headers: false,
        })?;
        Ok(())
    }

    /// Whether the connection is there.
    pub fn is_known(&self, conn: ConnId) -> bool
        ensures { result ≡ known conn self.now.shown }
    {
        conn_of(&self.conns, conn).is_some()
    }

    /// Whether the connection is there and not shut.
    pub fn is_open(&self, conn: ConnId) -> bool
        ensures { result ≡ opened conn self.now.shown }
    {
        match conn_of(&self.conns, conn) {
            None => false,
            Some(conn) => !conn.outbox.is_shut(),
        }
    }

    /// Whether nothing waits for the connection, as for one that is not there.
    pub fn has_nothing_for(&self, conn: ConnId) -> bool
        ensures { result ≡ (length (waits_for conn self.now.shown) == 0) }
    {
        match conn_of(&self.conns, conn) {
            None => true,
            Some(conn) => conn.outbox.is_empty(),
        }
    }

    /// Where the connection may stand: where the last entry was staged, or else where the next one is, if it goes the way of those
    /// before the last commit.
    #[inline(always)]
    fn near(&self, conn: ConnId) -> usize {
        if let Some(place) = self.places.last() {
            if is_at(&self.conns, *place, conn.get()) {
                return *place;
            }
        }
        self.last_places
            .get(self.places.len())
            .copied()
            .unwrap_or(0)
    }

    /// Where the connection stands, if it is there.
    pub fn seat(&self, conn: ConnId) -> Option<Seat>
        ensures none { result ≡ None → client_at conn self.now.next ≡ None }
        ensures some { IfSome result (λ seat. IsSeatOf conn seat self.now.next) }
    {
        seat_in(&self.conns, self.near(conn), conn)
    }

    /// How the connection stands to an entry of so many bytes in the form that it is due, behind all that was put or staged.
    #[inline(always)]
    pub fn standing(&self, conn: ConnId, lengths: FormLengths) -> Standing
        ensures { IsStanding result conn lengths self.now.next }
    {
        standing_in(&self.conns, self.near(conn), conn, lengths)
    }

    /// Whether each connection has room for the messages to all its open subscriptions that get the subject. In the form that the
    /// connection is due a message has so many bytes beside the id of a subscription. Takes no memory.
    pub fn have_room<T: SubTable>(
        &self,
        table: &T,
        subject: &LentSubject<'_>,
        lengths: FormLengths,
    ) -> bool
        ensures { result
            ≡ list_all (λ client.
            is_room (form_length lengths client.headers) (room_left client)
            (matching_of client.number subject.now (T.contents table.now)))
            self.now.shown }
    {
        for conn in &self.conns {
            let number = ConnId::new(conn.number);
            let len = len_of(lengths, conn.headers);
            if !table.has_room(number, subject, len, room_of(&conn.outbox)) {
                return false;
            }
        }
        true
    }

    /// Whether the connection is there and has room for an entry of so many bytes in the form that it is due, behind all that was
    /// put or staged.
    pub fn has_room(&self, conn: ConnId, lengths: FormLengths) -> bool
        ensures { result
            ≡ fits_len (client_at conn self.now.next)
            (form_length lengths (headers_taken conn self.now.next)) }
    {
        match conn_of(&self.conns, conn) {
            None => false,
            Some(conn) => conn.outbox.room(len_of(lengths, conn.headers)),
        }
    }

    /// Puts a message, for which there is room, unseen: its line and what stands behind that, given without their
    /// CR LF. Want of memory leaves all as it was.
    pub fn stage_message(
        &mut self,
        seat: Seat,
        id: PubId,
        sub: SubId,
        mode: Mode,
        line: &[u8],
        body: &Bytes,
    ) -> Result<(), AllocError>
        requires seat { IsSeated seat self.old.next }
        requires fits { length line.now + length body.now + 4 < 2 ^ 64 }
        requires room { IsTrue (fits (client_at seat.conn self.old.next)
            (message_entry id sub mode line.now body.now)) }
        ensures shown { self.new.shown ≡ self.old.shown }
        ensures ok { OnOk result (self.new.next
            ≡ clients_with_change (with_entry (message_entry id sub mode line.now body.now))
            seat.conn self.old.next) }
        ensures err { OnErr result (self.new.next ≡ self.old.next) }
    {
        let place = seat.place;
        note_staged(&mut self.places, seat)?;
        stage_message_at(&mut self.conns, place, id, sub, mode, line, body)?;
        Ok(())
    }

    /// Puts a message, for which there is room, unseen: its bytes in two parts, up to the id of the subscription and with it, and
    /// behind that. Want of memory leaves all as it was.
    pub fn stage_parts(
        &mut self,
        seat: Seat,
        id: PubId,
        sub: SubId,
        mode: Mode,
        head: &[u8],
        tail: &[u8],
    ) -> Result<(), AllocError>
        requires seat { IsSeated seat self.old.next }
        requires fits { length head.now + length tail.now < 2 ^ 64 }
        requires room { IsTrue (fits (client_at seat.conn self.old.next)
            (spelt_entry id sub mode (head.now ++ tail.now))) }
        ensures shown { self.new.shown ≡ self.old.shown }
        ensures ok { OnOk result (self.new.next
            ≡ clients_with_change (with_entry (spelt_entry id sub mode (head.now ++ tail.now)))
            seat.conn self.old.next) }
        ensures err { OnErr result (self.new.next ≡ self.old.next) }
    {
        let place = seat.place;
        note_staged(&mut self.places, seat)?;
        stage_parts_at(&mut self.conns, place, id, sub, mode, head, tail)?;
        Ok(())
    }

    /// Puts the messages of a run for one subscription, each with this head, unseen, where the connection takes them: it is there and
    /// not shut, has room for all of them, and nothing is staged for it. Tells whether it does.
    pub fn stage_run(
        &mut self,
        conn: ConnId,
        sub: SubId,
        head: &[u8],
        tails: &RunTails,
    ) -> Result<bool, AllocError>
        ensures shown { self.new.shown ≡ self.old.shown }
        ensures takes { IfOk result (λ put.
            put ≡ true
            → TakesRun (message_run sub head.now tails.now) conn self.old.shown self.old.next) }
        ensures put { IfOk result (λ put.
            put ≡ true
            → self.new.next
            ≡ clients_with_entries (message_run sub head.now tails.now) conn self.old.next) }
    {
        let Some(seat) = self.seat(conn) else {
            return Ok(false);
        };
        let place = seat.place;
        if !takes_run_at(&self.conns, place, sub, head, tails) {
            return Ok(false);
        }
        note_staged(&mut self.places, seat)?;
        stage_run_at(&mut self.conns, place, sub, head, tails)?;
        Ok(true)
    }

    /// Puts the last line of a connection that is open, given without its CR LF, unseen. Want of memory
    /// leaves all as it was.
    pub fn stage_last(&mut self, seat: Seat, line: &[u8]) -> Result<(), AllocError>
        requires seat { IsSeated seat self.old.next }
        requires once { opened seat.conn self.old.next ≡ true }
        requires small { length line.now ≤ LAST_LINE_TEXT }
        ensures shown { self.new.shown ≡ self.old.shown }
        ensures ok { OnOk result
            (self.new.next ≡ clients_with_change (with_last line.now) seat.conn self.old.next) }
        ensures err { OnErr result (self.new.next ≡ self.old.next) }
    {
        let place = seat.place;
        note_staged(&mut self.places, seat)?;
        stage_last_at(&mut self.conns, place, line)?;
        Ok(())
    }

    /// No two connections have one number. Does nothing: it is a law of what is there.
    pub fn numbers_are_apart(&self)
        ensures { AreApart (numbers_of self.now.shown) }
    {
        let _ = &self.conns;
    }

    /// Whether anything may be staged: where not, nothing is.
    pub fn has_staged(&self) -> bool
        ensures { result ≡ false → IsSettled self.now }
    {
        !self.places.is_empty()
    }

    /// Shows all that was staged, and notes for whom it is. Takes no memory but for the notes.
    pub fn commit(&mut self, dirty_conns: &mut DirtyConns)
        ensures shown { self.new ≡ record { shown = self.old.next; next = self.old.next } }
        ensures told { AreTold self.old.shown self.old.next dirty_conns.old dirty_conns.new }
    {
        note_all(dirty_conns, &self.conns, &self.places);
        commit_all(&mut self.conns, &self.places);
        std::mem::swap(&mut self.places, &mut self.last_places);
        self.places.clear();
    }

    /// Drops all that was staged. Takes no memory.
    pub fn rollback(&mut self)
        ensures { self.new ≡ record { shown = self.old.shown; next = self.old.shown } }
    {
        rollback_all(&mut self.conns, &self.places);
        self.places.clear();
    }

    /// Puts an answer where the connection is there and has room for it: its line, given without its CR LF. Notes
    /// for whom it is. Tells whether it was put. Want of memory leaves all as it was.
    pub fn put_reply(
        &mut self,
        dirty_conns: &mut DirtyConns,
        conn: ConnId,
        line: &[u8],
    ) -> Result<bool, AllocError>
        requires { IsSettled self.old }
        ensures room { IfOk result (λ put.
            put ≡ fits (client_at conn self.old.shown) (reply_entry line.now)) }
        ensures put { IfOk result (λ put.
            put ≡ true
            → self.new
            ≡ on_both (clients_with_change (with_entry (reply_entry line.now)) conn) self.old) }
        ensures full { IfOk result (λ put. put ≡ false → self.new ≡ self.old) }
        ensures err { OnErr result (self.new ≡ self.old) }
        ensures told { AreTold self.old.shown self.new.shown dirty_conns.old dirty_conns.new }
    {
        let Some(place) = place_in(&self.conns, conn) else {
            return Ok(false);
        };
        if !self.conns[place].outbox.room_for(line) {
            return Ok(false);
        }
        let conn = &mut self.conns[place];
        conn.outbox.stage_reply(line)?;
        conn.outbox.commit();
        note_at(dirty_conns, &self.conns, place);
        Ok(true)
    }

    /// Puts the last line of a connection that is there and not shut, given without its CR LF, shows it, and notes for whom
    /// it is. Whether it was put: not where it is longer than [`LAST_LINE_TEXT`]. Takes no memory but for the note.
    fn shut_shown(&mut self, dirty_conns: &mut DirtyConns, conn: ConnId, line: &[u8]) -> bool
        ensures can { result
            ≡ (opened conn self.old.shown && nat_le (length line.now) LAST_LINE_TEXT) }
        ensures put { result ≡ true
            → self.new.shown ≡ clients_with_change (with_last line.now) conn self.old.shown }
        ensures left { result ≡ false → self.new.shown ≡ self.old.shown }
        ensures told { AreTold self.old.shown self.new.shown dirty_conns.old dirty_conns.new }
    {
        let Some(place) = place_in(&self.conns, conn) else {
            return false;
        };
        let conn = &mut self.conns[place];
        let put = conn.outbox.shut(line);
        note_at(dirty_conns, &self.conns, place);
        put
    }

    /// Drops all that was staged, and puts the last line of a connection that is there and not shut, given without its CR LF.
    /// Notes for whom it is. Whether it was put: not where it is longer than [`LAST_LINE_TEXT`]. Takes no memory but for the
    /// note.
    pub fn shut(&mut self, dirty_conns: &mut DirtyConns, conn: ConnId, line: &[u8]) -> bool
        ensures can { result
            ≡ (opened conn self.old.shown && nat_le (length line.now) LAST_LINE_TEXT) }
        ensures put { result ≡ true
            → self.new ≡ on_shown (clients_with_change (with_last line.now) conn) self.old }
        ensures left { result ≡ false → self.new ≡ on_shown (λ clients. clients) self.old }
        ensures told { AreTold self.old.shown self.new.shown dirty_conns.old dirty_conns.new }
    {
        let put = self.shut_shown(dirty_conns, conn, line);
        self.rollback();
        put
    }

    /// Gives and removes the first entries that wait, or all where there are fewer. Want of memory
    /// leaves all as it was.
    fn take_shown(&mut self, conn: ConnId, count: usize) -> Result<Vec<Entry>, AllocError>
        ensures given { IfOk result (λ entries.
            entries.items ≡ take count (waits_for conn self.old.shown)) }
        ensures ok { OnOk result
            (self.new.shown ≡ clients_with_change (without_first count) conn self.old.shown) }
        ensures err { OnErr result (self.new ≡ self.old) }
    {
        match place_in(&self.conns, conn) {
            None => Ok(Vec::new(self.alloc)),
            Some(place) => {
                let conn = &mut self.conns[place];
                let entries = conn.outbox.take(count)?;
                Ok(entries)
            }
        }
    }

    /// Gives and removes the first entries that wait, or all where there are fewer, none for a connection that is not there;
    /// and drops all that was staged. Want of memory leaves all as it was.
    pub fn take(&mut self, conn: ConnId, count: usize) -> Result<Vec<Entry>, AllocError>
        ensures given { IfOk result (λ entries.
            entries.items ≡ take count (waits_for conn self.old.shown)) }
        ensures ok { OnOk result
            (self.new ≡ on_shown (clients_with_change (without_first count) conn) self.old) }
        ensures err { OnErr result (self.new ≡ self.old) }
    {
        let entries = self.take_shown(conn, count)?;
        self.rollback();
        Ok(entries)
    }

    /// Moves the bytes of the first entries that wait, or of all where there are fewer, behind those that
    /// are in `out`, and removes these entries. Gives how many they were. Want of memory leaves all as it
    /// was.
    fn take_bytes_shown(
        &mut self,
        conn: ConnId,
        count: usize,
        out: &mut Vec<u8>,
    ) -> Result<usize, AllocError>
        ensures taken { IfOk result (λ taken.
            taken ≡ length (take count (waits_for conn self.old.shown))) }
        ensures bytes { OnOk result (out.new.items
            ≡ out.old.items ++ bytes_of_all (take count (waits_for conn self.old.shown))) }
        ensures ok { OnOk result
            (self.new.shown ≡ clients_with_change (without_first count) conn self.old.shown) }
        ensures err { OnErr result (self.new ≡ self.old) }
        ensures out { OnErr result (out.new.items ≡ out.old.items) }
    {
        match place_in(&self.conns, conn) {
            None => Ok(0),
            Some(place) => {
                let conn = &mut self.conns[place];
                let taken = conn.outbox.take_bytes(count, out)?;
                Ok(taken)
            }
        }
    }

    /// Moves the bytes of the first entries that wait, or of all where there are fewer, none for a connection that is not
    /// there, behind those that are in `out`, removes these entries, and drops all that was staged. Gives how many they were.
    /// Want of memory leaves all as it was.
    pub fn take_bytes(
        &mut self,
        conn: ConnId,
        count: usize,
        out: &mut Vec<u8>,
    ) -> Result<usize, AllocError>
        ensures taken { IfOk result (λ taken.
            taken ≡ length (take count (waits_for conn self.old.shown))) }
        ensures bytes { OnOk result (out.new.items
            ≡ out.old.items ++ bytes_of_all (take count (waits_for conn self.old.shown))) }
        ensures ok { OnOk result
            (self.new ≡ on_shown (clients_with_change (without_first count) conn) self.old) }
        ensures err { OnErr result (self.new ≡ self.old) }
        ensures out { OnErr result (out.new.items ≡ out.old.items) }
    {
        let taken = self.take_bytes_shown(conn, count, out)?;
        self.rollback();
        Ok(taken)
    }

    /// Notes whether the connection, where it is there, takes headers. Takes no memory.
    pub fn set_headers(&mut self, conn: ConnId, on: bool)
        ensures { self.new ≡ on_both (clients_with_headers on conn) self.old }
    {
        let Some(place) = place_in(&self.conns, conn) else {
            return;
        };
        let conn = &mut self.conns[place];
        conn.headers = on;
    }

    /// The connection goes, with all that waits for it. Takes no memory.
    pub fn detach(&mut self, conn: ConnId)
        requires { IsSettled self.old }
        ensures { self.new ≡ on_both (without_client conn) self.old }
    {
        self.places.clear();
        remove(&mut self.conns, conn.get());
    }
}
