//! A turn of the loop: what ready connections ask is done, what was put is written, and connections are closed that go.

ghost use Rattle.std.specs.Prelude.{◌≡◌, true, Option, Result};
ghost use Rattle.std.specs.declared.alloc.AllocError.{AllocError};
ghost use Rattle.hub_core.specs.declared.answers.CollectResult.{CollectResult};
ghost use Rattle.node_net.specs.Turning.{Works, WorksShard, WorksBetween, WorksEach, CollectsEach};

use crate::connection::Cause;
use crate::connections::{last_bytes, swapped};
use crate::handshake::Said;
use crate::holds::{has_deltas, push_jobs, work_shard};
use crate::limits::{KEPT_BYTES, TAKEN_EARLY, TRIES};
use crate::loops::{Loops, note_cut, reset_mail};
use crate::peers::name_at;
use crate::route_link::{Greeted, Stepped};
use crate::runs::{Ran, RunOutcome};
use crate::server::Server;
use hub_core::CollectResult;
use net_streams::Stream;
use server_calls::{NextJob, ServerCalls, ShardCalls};
use server_events::{Event, RefusalCause};
use std::alloc::AllocError;
use std::sync::Wait;
use subj::WINDOW;

/// How a shard was worked.
#[derive(Clone, Copy)]
pub(crate) struct Worked {
    /// How many jobs were worked to their ends.
    jobs: u64,
    has_deltas: bool,
    is_short: bool,
    /// Whether as many jobs were worked as can wait at one time, so that other loops may have handed over more meanwhile.
    is_left: bool,
    /// Whether jobs may wait there still: they are left, or what was put for a client is to be taken first.
    is_unfinished: bool,
}

/// Works a shard until no job waits for it, or what waits for a client has come to half of its room, or as many jobs were worked as can wait at one
/// time.
#[tactic(auto, using(crate::proofs::WorkLemmas::works_none, crate::proofs::WorkLemmas::works_one, crate::proofs::WorkLemmas::works_last))]
fn work_jobs<H: ShardCalls, R: Wait>(rt: &R, shard: &mut H, worked: &mut Worked)
    ensures { Works H.worked worked.new.is_unfinished shard.old shard.new }
{
    for _turn in 0..u64::MAX {
        match shard.work_next(rt) {
            NextJob::Worked(jobs) => {
                worked.jobs = worked.jobs.saturating_add(jobs);
                worked.is_left = worked.jobs > WINDOW;
                worked.is_unfinished = worked.is_left || shard.is_urgent();
                if worked.is_unfinished {
                    return;
                }
            }
            NextJob::Nothing => return,
            NextJob::Short => {
                worked.is_short = true;
                return;
            }
        }
    }
}

/// Works a shard that is held.
pub(crate) fn work_held<H: ShardCalls, R: Wait>(rt: &R, shard: &mut H) -> Worked
    ensures { Works H.worked result.is_unfinished shard.old shard.new }
{
    let mut worked = Worked {
        jobs: 0,
        has_deltas: false,
        is_short: false,
        is_left: false,
        is_unfinished: false,
    };
    work_jobs(rt, shard, &mut worked);
    worked.has_deltas = shard.has_deltas();
    worked
}

/// The place of the shard that is worked first, of so many, behind a round that began with this one: another one each time.
fn next_first(first: u64, count: u64) -> u64 {
    let next = first.saturating_add(1);
    if next < count { next } else { 0 }
}

/// The place of the server whose session is kept since a step, where the step has come to that.
fn greeted_peer(stepped: &Option<Stepped>) -> Option<usize> {
    match stepped {
        Some(Stepped::Greeted(greeted)) => Some(greeted.peer),
        _ => None,
    }
}

/// The places of the servers whose sessions a collect has cut.
fn cut_by(came: &Result<Option<CollectResult>, AllocError>) -> &[usize] {
    match came {
        Ok(Some(told)) => &told.cut,
        _ => &[],
    }
}

/// Why a client was shut in a run: for what it asked, where it was told so, and else since it does not read.
fn shut_cause(run: RunOutcome) -> Cause {
    if run.is_refused {
        Cause::Refused
    } else {
        Cause::Slow
    }
}

impl<'l, S: Stream, C: ServerCalls> Server<'l, S, C> {
    /// One turn of the loop, for connections that are ready to be read or written: reads once of each, does
    /// what it asks, works the shards, and writes what they have put. May wait for a lock.
    ///
    /// A stream that failed, or has come to its end, closes its connection, and no other.
    pub fn turn<R: Wait>(&mut self, rt: &R, keys: &[usize])
        ensures worked { WorksEach C.Shard.worked C.Shard.number (C.lacks self.old.node) true
            (C.count self.old.node) }
        ensures collected { CollectsEach (C.collected self.old.node) (C.count self.old.node) }
    {
        let node = self.node;
        let was_short = std::mem::replace(&mut self.connections.is_short, false);
        self.is_left = false;
        self.release_held(rt);
        self.serve_all(rt, keys);
        if self.connections.end_overdue() {
            self.taken.let_go_beyond(KEPT_BYTES);
        }
        self.work(rt, node);
        self.flush(rt);
        self.drain_on(rt);
        self.close_leaving(rt);
        self.collect_all(rt, node);
        self.write_frames(rt);
        self.end_drain();
        if self.connections.is_short && !was_short {
            self.connections.events.note(Event::OutOfMemory);
        }
    }

    /// Whether something is to be done although no stream is ready.
    pub fn goes_on(&self) -> bool {
        self.connections.goes_on()
    }

    /// It is so many milliseconds since the loop began, and no fewer than were told before.
    pub fn set_time(&mut self, now: u64) {
        self.connections.now = now;
    }

    /// When another turn is to be made although no stream is ready, in milliseconds since the loop began: at once where something
    /// is to be done, soon where there was no memory for something, and else at the next deadline. None where there is no need.
    pub fn next_turn(&self) -> Option<u64> {
        let next = self.drain.next();
        match self.connections.next_turn() {
            Some(turn) => Some(turn.min(next)),
            None => (next < u64::MAX).then_some(next),
        }
    }

    /// Serves the connections that are to be served again, and these.
    fn serve_all<R: Wait>(&mut self, rt: &R, keys: &[usize]) {
        let connections = &mut self.connections;
        connections.turns = connections.turns.wrapping_add(1);
        connections.came = 0;
        for place in 0..swapped(&mut connections.again, &mut connections.serving) {
            if let Some(key) = self.connections.serving.get(place).copied() {
                self.serve(rt, key);
            }
        }
        self.connections.serving.clear();
        for key in keys {
            self.serve(rt, *key);
        }
    }

    /// Reads once, and does what is asked; once a turn.
    fn serve<R: Wait>(&mut self, rt: &R, key: usize) {
        if !self.connections.read(key) {
            return;
        }
        self.prove(rt, key);
        self.tries = 0;
        self.apply(rt, key);
        self.end(rt, key);
        self.connections.settle(key);
    }

    /// Does what a connection asks.
    fn apply<R: Wait>(&mut self, rt: &R, key: usize) {
        for _run in 0..u64::MAX {
            let goes_on = match self.step(rt, key) {
                None => false,
                Some(Stepped::Greeted(greeted)) => self.greet(key, greeted),
                Some(Stepped::Ran(run)) => self.after_run(rt, key, run),
            };
            if !goes_on {
                return;
            }
        }
    }

    /// Does what a connection asks next. Where the server has other loops, the mail is held as long as a session may begin: so no frame of the
    /// session is put there before its mail is there.
    fn step<R: Wait>(&mut self, rt: &R, key: usize) -> Option<Stepped> {
        match self.loops {
            Some(loops) if self.connections.is_unknown(key) => self.step_held(rt, loops, key),
            _ => self.step_alone(rt, key),
        }
    }

    /// The same while the mail is held.
    fn step_held<R: Wait>(&mut self, rt: &R, loops: &Loops<'_>, key: usize) -> Option<Stepped> {
        let mut mails = loops.mails(rt);
        let stepped = self.step_alone(rt, key);
        if let Some(peer) = greeted_peer(&stepped) {
            reset_mail(&mut mails, peer, true);
        }
        stepped
    }

    /// The same while nothing else is held.
    fn step_alone<R: Wait>(&mut self, rt: &R, key: usize) -> Option<Stepped> {
        let connection = self.connections.table.get_mut(key)?;
        connection.step(rt, self.node, &self.life, &mut self.words)
    }

    /// What follows a run: it is noted what the run has told and has handed to the shards, and what was put is taken and written where it has come
    /// to enough. Whether the connection goes on.
    fn after_run<R: Wait>(&mut self, rt: &R, key: usize, run: RunOutcome) -> bool {
        if run.end == Ran::Shut {
            self.connections.blame(key, shut_cause(run), 0);
            self.connections.shut(key);
        }
        if run.has_deltas {
            let shard = self.shard(key);
            let _done = self.tell_of(rt, shard);
        }
        self.is_unpushed |= run.is_unpushed;
        if run.issued > 0 || run.end == Ran::Busy {
            self.connections.has_told = true;
            self.tell_loops(rt, run);
            let node = self.node;
            self.work(rt, node);
        }
        self.put = self.put.saturating_add(run.issued);
        self.put = self.put.saturating_add(run.replied);
        if self.put >= TAKEN_EARLY {
            self.flush(rt);
            self.write_frames(rt);
        }
        if run.issued > 0 {
            self.tries = 0;
        }
        self.goes_on_after(key, run.end)
    }

    /// Where the server has other loops, they are told of a run that has handed jobs to their shards, and then its frames are taken.
    fn tell_loops<R: Wait>(&mut self, rt: &R, run: RunOutcome) {
        let Some(loops) = self.loops else {
            return;
        };
        if run.issued > 0 {
            loops.tell_others(self.place);
            self.write_frames(rt);
        }
    }

    /// Whether a connection goes on behind a run that ended so.
    fn goes_on_after(&mut self, key: usize, end: Ran) -> bool {
        let tries = std::mem::replace(&mut self.tries, 0);
        match end {
            Ran::Busy if self.loops.is_some() => return self.tries_again(key, tries),
            Ran::Goes | Ran::Busy if !self.connections.is_short => return true,
            Ran::Goes | Ran::Busy | Ran::Short => self.connections.postpone(key),
            Ran::Waits | Ran::Shut => {}
            Ran::Refused => self.connections.give_up_for(key, Cause::Refused),
            Ran::Posed => self.refuse(key, RefusalCause::OtherName),
        }
        false
    }

    /// Whether a connection whose publication, or whose frame, found no room is tried again at once, behind so many tries. Before the last try the
    /// loop asks to be told when a shard has finished a turn, and behind it the connection is held until then.
    fn tries_again(&mut self, key: usize, tries: u32) -> bool {
        if self.connections.is_short {
            self.connections.postpone(key);
            return false;
        }
        if tries > TRIES {
            self.connections.hold(key);
            return false;
        }
        if tries == TRIES {
            if let Some(loops) = self.loops {
                loops.wait_for_turn(self.place);
            }
        }
        self.tries = tries.saturating_add(1);
        true
    }

    /// Where a shard has finished a turn since, the connections that are held are tried, the one first that was held first, until one finds no room.
    fn release_held<R: Wait>(&mut self, rt: &R) {
        let Some(loops) = self.loops else {
            return;
        };
        if self.connections.held.is_empty() || loops.waits_for_turn(self.place) {
            return;
        }
        loops.wait_for_turn(self.place);
        for _held in 0..self.connections.held.len() {
            let Some(key) = self.connections.release_first() else {
                return;
            };
            self.tries = TRIES.saturating_add(1);
            self.apply(rt, key);
            self.tries = 0;
            if !self.connections.is_released(key) {
                return;
            }
            self.end(rt, key);
            self.connections.settle(key);
        }
    }

    /// The session of a route is kept. The connection goes on.
    fn greet(&mut self, key: usize, greeted: Greeted) -> bool {
        self.connections.has_told = true;
        if let Some(old) = self.peers.keep(greeted.peer, key) {
            self.connections.give_up(old);
        } else if let Some(peer) = name_at(&self.life, greeted.peer) {
            self.connections.events.note(Event::PeerUp { peer });
        }
        if let Some(connection) = self.connections.table.get_mut(key) {
            connection.lift_limit();
        }
        if let Some(answer) = greeted.answer {
            self.say(key, Said::Connect(answer));
        }
        true
    }

    /// Works all shards until no job waits. Jobs that a lane had no memory for are handed over again, and where there is none still in
    /// the next turn.
    pub(crate) fn work<R: Wait>(&mut self, rt: &R, node: C)
        ensures { WorksEach C.Shard.worked C.Shard.number (C.lacks node) true (C.count node) }
    {
        self.work_all(rt, node);
        if self.is_unpushed {
            self.is_unpushed = push_jobs(rt, node);
            if let Some(loops) = self.loops {
                loops.tell_others(self.place);
            }
            self.work_all(rt, node);
            self.connections.is_short |= self.is_unpushed;
        }
    }

    /// Works all shards until no job waits. What is put is taken and written in between where a client's room
    /// comes to its half.
    #[tactic(auto, using(crate::proofs::WorkLemmas::between_any))]
    fn work_all<R: Wait>(&mut self, rt: &R, node: C)
        ensures { WorksEach C.Shard.worked C.Shard.number (C.lacks node) true (C.count node) }
    {
        self.is_urgent = false;
        self.has_jobs_left = false;
        if self.work_each(rt, node) {
            self.work_on(rt, node);
        }
    }

    /// Works all shards again, as long as what one has put is to be taken first. Each round works a job of such a shard, so all that waited at first is
    /// worked by the last one.
    fn work_on<R: Wait>(&mut self, rt: &R, node: C) {
        for _round in 0..WINDOW {
            self.flush(rt);
            if !std::mem::replace(&mut self.is_urgent, false) {
                return;
            }
            let _is_unfinished = self.work_each(rt, node);
        }
        self.is_left |= self.is_urgent;
        self.has_jobs_left |= self.is_urgent;
    }

    /// Works each shard, another one first each time. Whether some are to be worked on once what was put is
    /// taken.
    #[tactic(auto, using(crate::proofs::WorkLemmas::between_both))]
    fn work_each<R: Wait>(&mut self, rt: &R, node: C) -> bool
        ensures { WorksEach C.Shard.worked C.Shard.number (C.lacks node) result (C.count node) }
    {
        let count = node.shards();
        let first = next_first(self.first, count);
        self.first = first;
        let is_unfinished = self.work_between(rt, node, first, count);
        is_unfinished | self.work_between(rt, node, 0, first)
    }

    /// Works the shards behind this place, up to that one. Whether some are to be worked on once what was put is taken.
    #[tactic(auto, using(crate::proofs::WorkLemmas::between_none, crate::proofs::WorkLemmas::between_more, crate::proofs::WorkLemmas::between_less))]
    fn work_between<R: Wait>(&mut self, rt: &R, node: C, from: u64, until: u64) -> bool
        ensures { WorksBetween C.Shard.worked C.Shard.number (C.lacks node) result from until }
    {
        let mut is_unfinished = false;
        for place in from..until {
            is_unfinished |= self.work_one(rt, node, place + 1);
        }
        is_unfinished
    }

    /// Works the shard of this number. Whether it is to be worked on once what was put is taken.
    fn work_one<R: Wait>(&mut self, rt: &R, node: C, number: u64) -> bool
        ensures { WorksShard C.Shard.worked C.Shard.number (C.lacks node) result number }
    {
        let Some(worked) = work_shard(rt, node, number) else {
            return false;
        };
        if worked.jobs > 0 {
            if let Some(loops) = self.loops {
                loops.finish_turn();
            }
        }
        self.is_left |= worked.is_left;
        self.has_jobs_left |= worked.is_left || worked.is_short;
        self.is_urgent |= worked.is_unfinished && !worked.is_left;
        self.connections.is_short |= worked.is_short;
        if worked.has_deltas {
            let _done = self.collect(rt, node, number);
        }
        worked.is_unfinished
    }

    /// Has the hub count what a shard has opened and closed. The routes of peers that are cut by it are
    /// closed. Whether there was memory for it.
    fn collect<R: Wait>(&mut self, rt: &R, node: C, shard: u64) -> bool
        ensures { (came : Result (Option CollectResult) AllocError) × C.collected node shard came }
    {
        match self.loops {
            Some(loops) if has_deltas(rt, node, shard) => {
                self.collect_beside(rt, node, loops, shard)
            }
            _ => self.collect_alone(rt, node, shard),
        }
    }

    /// The same where the server has other loops, and there is something to count: no other loop collects meanwhile, and the frames that wait are
    /// taken before, and those that come of it behind.
    fn collect_beside<R: Wait>(&mut self, rt: &R, node: C, loops: &Loops<'_>, shard: u64) -> bool
        ensures { (came : Result (Option CollectResult) AllocError) × C.collected node shard came }
    {
        let one = loops.collects(rt);
        self.write_frames(rt);
        let done = if self.is_first() {
            self.collect_alone(rt, node, shard)
        } else {
            self.collect_mailed(rt, node, loops, shard)
        };
        self.write_frames(rt);
        drop(one);
        done
    }

    /// The same where another loop has the routes: whom the hub cuts stands in the mail.
    fn collect_mailed<R: Wait>(&mut self, rt: &R, node: C, loops: &Loops<'_>, shard: u64) -> bool
        ensures { (came : Result (Option CollectResult) AllocError) × C.collected node shard came }
    {
        let mut mails = loops.mails(rt);
        let came = node.collect(rt, shard);
        note_cut(&mut mails, cut_by(&came));
        drop(mails);
        if !cut_by(&came).is_empty() {
            loops.tell_first();
        }
        self.note_collect(&came)
    }

    /// Notes what a collect came to. Whether there was memory for it.
    fn note_collect(&mut self, came: &Result<Option<CollectResult>, AllocError>) -> bool {
        match came {
            Ok(Some(_)) => {
                self.connections.has_told = true;
                true
            }
            Ok(None) => true,
            Err(_) => {
                self.connections.is_short = true;
                false
            }
        }
    }

    /// The same where it has the routes, or there is nothing to count.
    fn collect_alone<R: Wait>(&mut self, rt: &R, node: C, shard: u64) -> bool
        ensures { (came : Result (Option CollectResult) AllocError) × C.collected node shard came }
    {
        let came = node.collect(rt, shard);
        self.cut_routes(cut_by(&came));
        self.note_collect(&came)
    }

    /// Closes the routes to the servers at these places, since a change of interest had no room.
    pub(crate) fn cut_routes(&mut self, places: &[usize]) {
        for place in places {
            if let Some(key) = self.peers.kept_connection(*place) {
                self.connections.give_up_for(key, Cause::Full);
            }
        }
    }

    /// Has the hub count what all shards have opened and closed.
    #[tactic(auto, using(crate::proofs::WorkLemmas::collects_none, crate::proofs::WorkLemmas::collects_less))]
    fn collect_all<R: Wait>(&mut self, rt: &R, node: C)
        ensures { CollectsEach (C.collected node) (C.count node) }
    {
        for place in 0..node.shards() {
            let _done = self.collect(rt, node, place + 1);
        }
    }

    /// Where the other end of a connection sends nothing any more, a route is closed. A client is a member of nothing any more, once all is
    /// done that it asked for; what waits for it is written, and then it is closed, and at most [`LAST_BYTES`] from now.
    fn end<R: Wait>(&mut self, rt: &R, key: usize) {
        let deadline = last_bytes(self.connections.now);
        let Some(connection) = self.connections.table.get_mut(key) else {
            return;
        };
        if !connection.end(deadline) {
            return;
        }
        let is_short = connection.is_short;
        self.connections.await_deadline(key);
        if is_short || self.is_behind() || self.leave(rt, key).is_err() {
            self.connections.postpone(key);
        } else {
            self.connections.shut(key);
        }
    }

    /// Whether jobs may wait at the loop's shards, or are still to be handed to them, since these were worked last.
    pub(crate) fn is_behind(&self) -> bool {
        self.is_unpushed || self.has_jobs_left
    }

    /// A client leaves its shard, and has what waits for it sent to it.
    pub(crate) fn leave<R: Wait>(&mut self, rt: &R, key: usize) -> Result<(), AllocError> {
        if !self.close_subscriptions(rt, key) {
            return Err(AllocError);
        }
        self.taken.clear();
        let left = match self.connections.table.get_mut(key) {
            None => Ok(()),
            Some(connection) => connection.leave(rt, self.node, &mut self.taken.lent),
        };
        self.taken.let_go_of_lent();
        let shard = self.shard(key);
        let _done = self.tell_of(rt, shard);
        left
    }

    /// Closes the subscriptions of a client that has many, some at a time: each time the other servers are told of them before more are
    /// closed, since few changes have room at once. Whether there was memory for that.
    fn close_subscriptions<R: Wait>(&mut self, rt: &R, key: usize) -> bool {
        for _some in 0..u64::MAX {
            let Some(connection) = self.connections.table.get_mut(key) else {
                return true;
            };
            if !connection.close_some(rt, self.node) {
                return true;
            }
            let shard = self.shard(key);
            if !self.tell_of(rt, shard) {
                return false;
            }
        }
        false
    }

    /// Has the hub count what the shard of a client has opened and closed, and tells the other servers, of what waited for them first.
    /// Whether there was memory for that.
    fn tell_of<R: Wait>(&mut self, rt: &R, shard: Option<u64>) -> bool {
        let Some(shard) = shard else {
            return true;
        };
        self.write_frames(rt);
        let node = self.node;
        let done = self.collect(rt, node, shard);
        self.write_frames(rt);
        done
    }

    /// Closes the connections that go. One for which there is no memory goes later.
    fn close_leaving<R: Wait>(&mut self, rt: &R) {
        let connections = &mut self.connections;
        for place in 0..swapped(&mut connections.leaving, &mut connections.going) {
            if let Some(key) = self.connections.going(place) {
                if self.close(rt, key).is_err() {
                    self.connections.is_short = true;
                    self.connections.leave_if_gone(key);
                }
            }
        }
        self.connections.going.clear();
    }

    /// Closes a connection. Want of memory leaves it there.
    fn close<R: Wait>(&mut self, rt: &R, key: usize) -> Result<(), AllocError> {
        let shard = self.shard(key);
        if !self.close_subscriptions(rt, key) {
            return Err(AllocError);
        }
        drop(self.remove(rt, key)?);
        let _done = self.tell_of(rt, shard);
        Ok(())
    }
}
