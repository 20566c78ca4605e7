//! What shards do with turns: a race of two shards, with all seats; and a shard with its lane and its seat, by itself or with its hub beside it.

ghost use Rattle.std.specs.Prelude.{◌≡◌, ◌∷◌, [], IfSome};
ghost use Rattle.claim_cells.specs.Rule.{fresh_hub};
ghost use Rattle.server_golden.specs.Races.{AreTwo};
ghost use Rattle.server_golden.specs.Turns.{IsAlone};

use crate::lanes::{busy_told, message, run_behind, turned_told};
use claim_cells::{Cells, Closed, HubSeat, ShardSeat};
use golden::{Answer, Call, Words, call_of, key_of, put, server_of, sid_of};
use hub_core::{CollectResult, HubFault};
use job_lane::{LANE_CAPACITY, LaneIn, LaneOut, lane};
use node_threads::{HubState, LaneSender, NodeName, Open, ShardState, Tape, Turned};
use std::alloc::{AllocError, Global};
use std::marker::Brand;
use std::sync::Wait;
use sub_trie::TrieTable;
use subj::{Busy, ConnId, Failure, MAX_COUNTER, MAX_QUEUE_NAMES, Pub, ServerIdentity, Turn};

/// The race, with the seats of its hub and of both shards.
#[derive(Drop)]
pub struct Two {
    cells: Cells,
    hub: HubSeat,
    first: ShardSeat,
    second: ShardSeat,
    ghost of: { AreTwo cells hub first second },
}

/// The next turn, unless the race is busy; shard 0 is told where there is no next turn.
fn issue(cells: &Cells, hub: &mut HubSeat) -> Result<Turn, Busy>
    requires { hub.old.race ≡ cells.now }
    ensures { hub.new.race ≡ hub.old.race }
{
    let last = hub.issued();
    if last.get() >= MAX_COUNTER {
        return Err(Busy {
            shard: 0,
            finished: last,
        });
    }
    cells.issue(hub)
}

/// Claims the index where the shard may.
fn claim(cells: &Cells, seat: &mut ShardSeat, index: u64) -> &'static str
    requires { seat.old.race ≡ cells.now }
    ensures race { seat.new.race ≡ seat.old.race }
    ensures shard { seat.new.part.shard ≡ seat.old.part.shard }
{
    if !seat.has_turn() || index < seat.next_index() || index >= MAX_QUEUE_NAMES {
        return "may not claim";
    }
    if cells.claim(seat, index) {
        "won"
    } else {
        "lost"
    }
}

/// Ends the turn where the shard may.
fn finish(cells: &Cells, seat: &mut ShardSeat) -> &'static str
    requires { seat.old.race ≡ cells.now }
    ensures race { seat.new.race ≡ seat.old.race }
    ensures shard { seat.new.part.shard ≡ seat.old.part.shard }
{
    if !seat.has_turn() {
        return "may not finish";
    }
    cells.finish(seat);
    "finished"
}

/// Sees the last turn issued, claims an index or ends the turn, where the shard may: what came of it.
fn act(cells: &Cells, seat: &mut ShardSeat, call: &str, index: u64) -> &'static str
    requires { seat.old.race ≡ cells.now }
    ensures race { seat.new.race ≡ seat.old.race }
    ensures shard { seat.new.part.shard ≡ seat.old.part.shard }
{
    match call {
        "claim" => claim(cells, seat, index),
        "finish" => finish(cells, seat),
        _ => {
            cells.see(seat);
            "saw"
        }
    }
}

/// Tells how a seat stands; turn 0 is behind the last turn that there can be.
fn seat_told(answer: &mut Answer, seat: &ShardSeat) -> Option<()> {
    let turn = seat.turn().map_or(0, Turn::get);
    answer.tell_number("turn ", turn);
    answer.tell(if seat.has_turn() { " is" } else { " is not" });
    answer.tell_number(" issued, index ", seat.next_index());
    answer.tell(" is next")
}

/// Tells a turn that was issued or not.
fn issue_told(answer: &mut Answer, issued: Result<Turn, Busy>) -> Option<()> {
    match issued {
        Ok(turn) => answer.tell_number("turn ", turn.get()),
        Err(busy) => busy_told(answer, busy),
    }
}

/// Tells two numbers, each behind its word.
fn tell_two(answer: &mut Answer, first: &str, number: u64, second: &str, other: u64) -> Option<()> {
    answer.tell_number(first, number);
    answer.tell_number(second, other)
}

/// Tells which turn won the first index, and which the second, of those that share their places with turn 1.
fn closed_told(answer: &mut Answer, closed: &Closed) -> Option<()> {
    let turn = Turn::new(1).unwrap_or(Turn::zero());
    let (first, second) = (closed.finished.of(1).get(), closed.finished.of(2).get());
    answer.tell_number("issued ", closed.issued.get());
    tell_two(answer, ", finished ", first, " ", second)?;
    let (first, second) = (closed.cell(turn, 0).get(), closed.cell(turn, 1).get());
    tell_two(answer, ", won last in ", first, " ", second)
}

impl Two {
    /// A race that has just begun.
    pub fn new(alloc: Global) -> Result<Two, AllocError> {
        let (cells, hub, mut seats) = Cells::new(alloc, 2)?;
        let second = seats.pop().unwrap();
        let first = seats.pop().unwrap();
        Ok(Two {
            cells,
            hub,
            first,
            second,
        })
    }

    /// The next turn, unless the race is busy.
    fn issue(&mut self) -> Result<Turn, Busy> {
        issue(&self.cells, &mut self.hub)
    }

    /// Tells the last turns that the shards finished.
    fn look(&mut self, answer: &mut Answer) -> Option<()> {
        let finished = self.cells.look(&mut self.hub);
        tell_two(
            answer,
            "finished ",
            finished.of(1).get(),
            " ",
            finished.of(2).get(),
        )
    }

    /// What the first shard does, or the second one.
    fn acted(&mut self, shard: u64, call: &str, index: u64) -> &'static str {
        if shard == 2 {
            act(&self.cells, &mut self.second, call, index)
        } else {
            act(&self.cells, &mut self.first, call, index)
        }
    }

    /// The seat of the first shard, or of the second one.
    fn seat(&self, shard: u64) -> &ShardSeat {
        if shard == 2 {
            &self.second
        } else {
            &self.first
        }
    }

    /// Ends the race.
    fn close(self, alloc: Global) -> Result<Closed, AllocError> {
        let Two {
            cells,
            hub,
            first,
            second,
        } = self;
        let Ok(seats) = Vec::from_array(alloc, [first, second]) else {
            drop(cells);
            drop(hub);
            return Err(AllocError);
        };
        cells.close(hub, seats)
    }

    /// Makes a call.
    fn call(&mut self, answer: &mut Answer, call: &str, words: &Words<'_>) -> Option<()> {
        let (shard, index) = (words.number(0), words.number(1));
        match call {
            "issue" => issue_told(answer, self.issue()),
            "look" => self.look(answer),
            "shards" => {
                tell_two(
                    answer,
                    "shards ",
                    self.first.shard(),
                    " ",
                    self.second.shard(),
                )
            }
            "seat" => seat_told(answer, self.seat(shard)),
            "see" | "claim" | "finish" => answer.tell(self.acted(shard, call, index)),
            _ => answer.tell("no such call"),
        }
    }
}

/// A new race.
fn renew(race: &mut Option<Two>, alloc: Global) -> Option<()> {
    put(race, Some(Two::new(alloc).ok()?));
    Some(())
}

/// Ends the race, and tells how it stood.
fn close(answer: &mut Answer, race: &mut Option<Two>, alloc: Global) -> Option<()> {
    match race.take() {
        Some(two) => closed_told(answer, &two.close(alloc).ok()?),
        None => answer.tell("no race"),
    }
}

/// Makes a call on the race.
pub fn race_call(
    answer: &mut Answer,
    race: &mut Option<Two>,
    alloc: Global,
    call: &str,
    words: &Words<'_>,
) -> Option<()> {
    match call {
        "new" => renew(race, alloc),
        "close" => close(answer, race, alloc),
        _ => match race {
            Some(two) => two.call(answer, call, words),
            None => answer.tell("no race"),
        },
    }
}

/// The parts of a server of one shard.
#[derive(Drop)]
struct Made {
    cells: Cells,
    hub: HubSeat,
    seat: ShardSeat,
    near: LaneIn,
    far: LaneOut,
    ghost parts: { IsAlone cells hub seat near far },
}

impl Made {
    /// The parts of a server that has just started.
    fn new(alloc: Global) -> Result<Made, AllocError> {
        let (cells, hub, mut seats) = Cells::new(alloc, 1)?;
        let seat = seats.pop().unwrap();
        let (near, far) = lane(alloc, LANE_CAPACITY)?;
        Ok(Made {
            cells,
            hub,
            seat,
            near,
            far,
        })
    }
}

/// Opens a subscription of a new connection to the jobs' subject, in the second of their queue groups.
fn member<N: NodeName>(alloc: Global, shard: &mut ShardState<TrieTable, N>) -> Option<ConnId> {
    let conn = shard.attach().ok()?;
    let key = key_of(alloc, "orders.new", "tasks")?;
    let sid = sid_of(alloc, "1")?;
    shard.subscribe(conn, key, sid).ok()?;
    Some(conn)
}

/// Tells the new connection.
fn member_told<N: NodeName>(
    answer: &mut Answer,
    alloc: Global,
    shard: &mut ShardState<TrieTable, N>,
) -> Option<()> {
    match member(alloc, shard) {
        Some(conn) => answer.tell_number("connection ", conn.get()),
        None => answer.tell("refused"),
    }
}

/// Tells how many entries wait for the connection; up to 9 are taken.
fn take_told<N: NodeName>(
    answer: &mut Answer,
    shard: &mut ShardState<TrieTable, N>,
    conn: u64,
) -> Option<()> {
    match shard.take(ConnId::new(conn), 9) {
        Ok(entries) => answer.tell_number("entries ", entries.len() as u64),
        Err(_) => answer.tell("refused"),
    }
}

/// What a turn comes to.
fn turned<N: NodeName, R: Wait>(
    rt: &R,
    alloc: Global,
    shard: &mut ShardState<TrieTable, N>,
    cells: &Cells,
) -> Turned
    requires { cells.now ≡ N.race }
{
    shard.turn(rt, cells, &Open, &mut Tape::new(alloc, false))
}

/// The number of the refusal of a drop; 0 where a job was dropped.
fn drop_fault<N: NodeName, R: Wait>(
    rt: &R,
    alloc: Global,
    shard: &mut ShardState<TrieTable, N>,
    cells: &Cells,
) -> u16
    requires { cells.now ≡ N.race }
{
    match shard.drop_job(rt, cells, &mut Tape::new(alloc, false)) {
        Err(Failure::Refused(fault)) => fault.number(),
        Ok(_) | Err(Failure::OutOfMemory) => 0,
    }
}

/// Tells whether a job is dropped, or why none is.
fn drop_told(answer: &mut Answer, fault: u16) -> Option<()> {
    match fault {
        0 => answer.tell("dropped"),
        fault => answer.tell_refusal(fault),
    }
}

/// Makes a call on a shard.
fn shard_call<N: NodeName, R: Wait>(
    answer: &mut Answer,
    rt: &R,
    alloc: Global,
    shard: &mut ShardState<TrieTable, N>,
    cells: &Cells,
    line: &Call<'_>,
) -> Option<()>
    requires { cells.now ≡ N.race }
{
    match line.name {
        "member" => member_told(answer, alloc, shard),
        "take" => take_told(answer, shard, line.words.number(0)),
        "turn" => turned_told(answer, turned(rt, alloc, shard, cells)),
        "drop" => drop_told(answer, drop_fault(rt, alloc, shard, cells)),
        _ => answer.tell("no such call"),
    }
}

/// The end of a lane to which nothing was pushed.
#[derive(Drop)]
struct Fresh {
    near: LaneIn,
    ghost new: { near.pushed ≡ [] },
}

impl Fresh {
    /// Hands the first job over.
    fn hand_over<R: Wait>(self, rt: &R, alloc: Global) -> &'static str {
        let Fresh { mut near } = self;
        let Some(run) = run_behind(alloc, Turn::zero(), 1) else {
            return "not pushed";
        };
        match near.push(rt, run) {
            Ok(()) => "pushed",
            Err(_) => "not pushed",
        }
    }
}

/// The shard, with the seat of its hub and the hub's end of its lane.
#[derive(Drop)]
struct Alone<N: NodeName> {
    alloc: Global,
    cells: Cells,
    hub: HubSeat,
    shard: ShardState<TrieTable, N>,
    near: Option<Fresh>,
    ghost race: { cells ≡ N.race },
    ghost of_hub: { hub.race ≡ cells },
}

impl<N: NodeName> Alone<N> {
    /// A shard of these parts that has done nothing.
    fn new(alloc: Global, made: Made) -> Result<Alone<N>, AllocError>
        requires race { made.cells ≡ N.race }
        requires lanes { made.far.lane ∷ [] ≡ N.lanes }
    {
        let Made {
            cells,
            hub,
            seat,
            near,
            far,
        } = made;
        let Ok(shard) = ShardState::new(alloc, seat, 1, far) else {
            drop(cells);
            drop(hub);
            drop(near);
            return Err(AllocError);
        };
        Ok(Alone {
            alloc,
            cells,
            hub,
            shard,
            near: Some(Fresh { near }),
        })
    }

    /// Issues the next turn, where there is one.
    fn issue(&mut self) -> &'static str {
        if self.hub.issued().get() < MAX_COUNTER && self.cells.issue(&mut self.hub).is_ok() {
            "issued"
        } else {
            "not issued"
        }
    }

    /// Hands the first job over, once.
    fn hand_over<R: Wait>(&mut self, rt: &R) -> &'static str {
        match self.near.take() {
            Some(fresh) => fresh.hand_over(rt, self.alloc),
            None => "not pushed",
        }
    }

    /// Makes a call.
    fn call<R: Wait>(&mut self, answer: &mut Answer, rt: &R, line: &Call<'_>) -> Option<()> {
        match line.name {
            "issue" => answer.tell(self.issue()),
            "hand_over" => answer.tell(self.hand_over(rt)),
            _ => shard_call(answer, rt, self.alloc, &mut self.shard, &self.cells, line),
        }
    }

    /// Makes these calls, one a line. Tells the last one's answer.
    fn play<R: Wait>(&mut self, answer: &mut Answer, rt: &R, calls: &str) -> Option<()> {
        for line in calls.lines() {
            answer.clear();
            self.call(answer, rt, &call_of(line))?;
        }
        Some(())
    }
}

/// The shard, and its hub.
#[derive(Drop)]
struct Beside<N: NodeName> {
    alloc: Global,
    cells: Cells,
    hub: HubState<N>,
    shard: ShardState<TrieTable, N>,
    ghost race: { cells ≡ N.race },
}

/// The server n1, alone, of one shard.
fn server(alloc: Global) -> Option<ServerIdentity>
    ensures { IfSome result (λ server. server.shards ≡ 1) }
{
    of_one_shard(server_of(alloc, "n1", 0, 1, 1)?)
}

/// The server, where it is of one shard.
fn of_one_shard(server: ServerIdentity) -> Option<ServerIdentity>
    ensures { IfSome result (λ server. server.shards ≡ 1) }
{
    if server.shards() == 1 {
        Some(server)
    } else {
        None
    }
}

/// The hub of the server, with its lane.
fn hub_of<N: NodeName>(
    alloc: Global,
    cells: &Cells,
    seat: HubSeat,
    near: LaneIn,
) -> Result<HubState<N>, AllocError>
    requires race { (cells.now ≡ N.race) × (seat.race ≡ N.race) }
    requires shards { N.race.shards ≡ 1 }
    requires fresh { (seat.part ≡ fresh_hub) × (near.pushed ≡ []) }
    requires lanes { near.lane ∷ [] ≡ N.lanes }
{
    let Some(server) = server(alloc) else {
        return Err(AllocError);
    };
    let mut lines = Vec::new(alloc);
    lines.push(LaneSender::new(1, near))?;
    HubState::new(alloc, server, cells, seat, lines)
}

/// What is published: the first job's message.
fn publication(alloc: Global) -> Option<Pub> {
    Some(Pub {
        message: message(alloc, 1)?,
        echo: true,
    })
}

/// Publishes it once: the turn of its job, or None where a shard is a window behind; 0 is any other refusal.
fn publish<N: NodeName>(
    hub: &mut HubState<N>,
    cells: &Cells,
    publication: &Pub,
    conn: u64,
) -> Option<u64>
    requires { cells.now ≡ N.race }
{
    match hub.publish(cells, ConnId::new(conn), publication, 0) {
        Ok(issued) => Some(issued.turn.get()),
        Err(Failure::Refused(HubFault::Busy(_))) => None,
        Err(_) => Some(0),
    }
}

/// Tells what a publication comes to.
fn publish_told(answer: &mut Answer, turn: Option<u64>) -> Option<()> {
    match turn {
        None => answer.tell("busy"),
        Some(0) => answer.tell("refused"),
        Some(turn) => answer.tell_number("turn ", turn),
    }
}

/// Tells how many changes a hub hears of from a shard.
fn changes_told(answer: &mut Answer, told: Result<CollectResult, Failure<HubFault>>) -> Option<()> {
    match told {
        Ok(told) => {
            let changes = told.changes.len() as u64;
            drop(told);
            answer.tell_number("changes ", changes)
        }
        Err(_) => answer.tell("refused"),
    }
}

impl<N: NodeName> Beside<N> {
    /// A shard and its hub of these parts that have done nothing.
    fn new(alloc: Global, made: Made) -> Result<Beside<N>, AllocError>
        requires race { made.cells ≡ N.race }
        requires lanes { made.far.lane ∷ [] ≡ N.lanes }
    {
        let Made {
            cells,
            hub,
            seat,
            near,
            far,
        } = made;
        let Ok(hub) = hub_of(alloc, &cells, hub, near) else {
            drop(cells);
            drop(seat);
            drop(far);
            return Err(AllocError);
        };
        let Ok(shard) = ShardState::new(alloc, seat, 1, far) else {
            drop(cells);
            drop(hub);
            return Err(AllocError);
        };
        Ok(Beside {
            alloc,
            cells,
            hub,
            shard,
        })
    }

    /// Publishes for this connection.
    fn publish(&mut self, answer: &mut Answer, conn: u64) -> Option<()> {
        let publication = publication(self.alloc)?;
        let turn = publish(&mut self.hub, &self.cells, &publication, conn);
        drop(publication);
        publish_told(answer, turn)
    }

    /// Pushes the jobs that were given to the shard and are not pushed yet.
    fn push<R: Wait>(&mut self, answer: &mut Answer, rt: &R) -> Option<()> {
        self.hub.push_jobs(rt);
        answer.tell("ok")
    }

    /// Makes a call.
    fn call<R: Wait>(&mut self, answer: &mut Answer, rt: &R, line: &Call<'_>) -> Option<()> {
        match line.name {
            "collect" => changes_told(answer, self.hub.collect(&mut self.shard)),
            "publish" => self.publish(answer, line.words.number(0)),
            "push_jobs" => self.push(answer, rt),
            _ => shard_call(answer, rt, self.alloc, &mut self.shard, &self.cells, line),
        }
    }

    /// Makes these calls, one a line. Tells the last one's answer.
    fn play<R: Wait>(&mut self, answer: &mut Answer, rt: &R, calls: &str) -> Option<()> {
        for line in calls.lines() {
            answer.clear();
            self.call(answer, rt, &call_of(line))?;
        }
        Some(())
    }
}

/// Makes these calls on a shard by itself that has done nothing. Tells the last one's answer.
fn play_alone<N: NodeName, R: Wait>(
    answer: &mut Answer,
    rt: &R,
    alloc: Global,
    made: Made,
    calls: &String,
) -> Option<()>
    requires race { made.cells ≡ N.race }
    requires lanes { made.far.lane ∷ [] ≡ N.lanes }
{
    let mut alone: Alone<N> = Alone::new(alloc, made).ok()?;
    let is_told = alone.play(answer, rt, calls.as_str());
    drop(alone);
    is_told
}

/// The same with its hub.
fn play_beside<N: NodeName, R: Wait>(
    answer: &mut Answer,
    rt: &R,
    alloc: Global,
    made: Made,
    calls: &String,
) -> Option<()>
    requires race { made.cells ≡ N.race }
    requires lanes { made.far.lane ∷ [] ≡ N.lanes }
{
    let mut beside: Beside<N> = Beside::new(alloc, made).ok()?;
    let is_told = beside.play(answer, rt, calls.as_str());
    drop(beside);
    is_told
}

/// Plays the calls on a shard by itself. Tells the last one's answer.
pub fn alone_answer<R: Wait>(
    answer: &mut Answer,
    rt: &R,
    alloc: Global,
    calls: &String,
) -> Option<()> {
    let made = Made::new(alloc).ok()?;
    play_alone::<Brand, _>(answer, rt, alloc, made, calls)
}

/// The same with its hub.
pub fn beside_answer<R: Wait>(
    answer: &mut Answer,
    rt: &R,
    alloc: Global,
    calls: &String,
) -> Option<()> {
    let made = Made::new(alloc).ok()?;
    play_beside::<Brand, _>(answer, rt, alloc, made, calls)
}
