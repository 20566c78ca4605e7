//! A server that drains: it tells the other servers that it has no interest any more, gives them a while to hear it, and closes each client once
//! nothing waits for it.

ghost use Rattle.std.specs.Prelude.{◌≡◌};

use crate::connection::Cause;
use crate::connections::Connections;
use crate::limits::DRAIN_PAUSE;
use crate::server::Server;
use net_streams::Stream;
use server_calls::ServerCalls;
use server_events::Event;
use std::sync::Wait;

/// How far a server has come with its drain.
#[derive(Clone, Copy, PartialEq, Eq)]
enum Stage {
    /// It was not asked to drain.
    Serves,
    /// It is to tell the other servers, for which there was no memory yet.
    Tells,
    /// It has told them, and goes on for a while: what they sent before they heard it is on its way.
    Pauses,
    /// Its clients are closed, each once nothing waits for it.
    Closes,
    /// All its clients are gone.
    Done,
}

/// The drain of a server. Times are in milliseconds since the loop began.
#[derive(Clone, Copy)]
pub(crate) struct Drain {
    stage: Stage,
    /// When clients are closed first; never for the greatest number.
    closes_at: u64,
    /// When it is ended, whatever waits; never for the greatest number.
    deadline: u64,
    /// Whether its deadline has come, or it was asked to end.
    is_late: bool,
    /// How many clients were closed before nothing waited for them.
    cut_off: u64,
}

impl Drain {
    /// The server was not asked to drain.
    pub fn new() -> Drain {
        Drain {
            stage: Stage::Serves,
            closes_at: u64::MAX,
            deadline: u64::MAX,
            is_late: false,
            cut_off: 0,
        }
    }

    /// Whether its deadline has come, or it was asked to end.
    pub fn is_late(&self) -> bool {
        self.is_late
    }

    /// When it goes on although no stream is ready; never for the greatest number.
    pub fn next(&self) -> u64 {
        match self.stage {
            Stage::Serves | Stage::Done => u64::MAX,
            Stage::Pauses => self.closes_at.min(self.deadline),
            Stage::Tells | Stage::Closes => self.deadline,
        }
    }
}

impl<S: Stream> Connections<S> {
    /// A client that was served or written to may have nothing more that waits for it.
    pub fn note_quiet(&mut self, key: usize)
        ensures { self.new.table ≡ self.old.table }
    {
        if self.drains && self.quiet.push(key).is_err() {
            self.looks_at_all = true;
        }
    }
}

impl<'l, S: Stream, C: ServerCalls> Server<'l, S, C> {
    /// Asks the server to drain within so many seconds, or ends the drain that goes on: then all its clients are closed in the next turn.
    /// One that has drained stays as it is. The caller takes no more clients.
    pub fn drain(&mut self, seconds: u64) {
        match self.drain.stage {
            Stage::Serves => {
                let now = self.connections.now;
                self.drain.stage = Stage::Tells;
                self.drain.deadline = now.saturating_add(seconds.saturating_mul(1_000));
                if self.is_first() {
                    self.connections.events.note(Event::DrainAsked { seconds });
                }
            }
            Stage::Tells | Stage::Pauses | Stage::Closes => self.drain.deadline = 0,
            Stage::Done => {}
        }
    }

    /// Whether the server was asked to drain.
    pub fn drains(&self) -> bool {
        self.drain.stage != Stage::Serves
    }

    /// Whether the server has drained.
    pub fn has_drained(&self) -> bool {
        self.drain.stage == Stage::Done
    }

    /// Goes on with a drain, once all that came in this turn was worked and written.
    pub(crate) fn drain_on<R: Wait>(&mut self, rt: &R) {
        match self.drain.stage {
            Stage::Serves | Stage::Done => return,
            Stage::Tells => self.begin_pause(rt),
            Stage::Pauses if self.connections.now >= self.drain.closes_at => {
                // from now on, clients are closed once nothing waits for them: each is looked at, and later each that was served or written to
                self.drain.stage = Stage::Closes;
                self.connections.drains = true;
                self.connections.looks_at_all = true;
            }
            Stage::Pauses | Stage::Closes => {}
        }
        if self.drain.stage == Stage::Closes {
            self.close_quiet(rt);
        }
        if self.connections.now >= self.drain.deadline {
            self.cut_off();
        }
    }

    /// Begins the pause once the other servers are told, which the first loop does.
    fn begin_pause<R: Wait>(&mut self, rt: &R) {
        match self.loops {
            Some(loops) if !self.place.is_first() => {
                if loops.has_told() {
                    self.pause();
                }
            }
            _ => self.tell_drain(rt),
        }
    }

    /// The pause begins now.
    fn pause(&mut self) {
        self.drain.stage = Stage::Pauses;
        self.drain.closes_at = self.connections.now.saturating_add(DRAIN_PAUSE);
    }

    /// Has the hub and the shards drain, and begins the pause. Where the server has other loops, none of them collects meanwhile, and the frames that
    /// wait are taken before. For want of memory it is tried again.
    fn tell_drain<R: Wait>(&mut self, rt: &R) {
        let Some(loops) = self.loops else {
            return self.drain_held(rt);
        };
        let one = loops.collects(rt);
        self.write_frames(rt);
        self.drain_held(rt);
        drop(one);
        if self.drain.stage == Stage::Pauses {
            loops.note_told(self.place);
        }
    }

    /// The same while no other loop collects.
    fn drain_held<R: Wait>(&mut self, rt: &R) {
        match self.node.drain(rt) {
            Err(_) => self.connections.is_short = true,
            Ok(cut) => {
                self.connections.has_told = true;
                if let Some(cut) = cut {
                    self.cut_routes(&cut);
                }
                self.pause();
            }
        }
    }

    /// Closes the clients for which nothing waits, among those that were served or written to since this was done last. Where shards have
    /// work left, it is done later.
    fn close_quiet<R: Wait>(&mut self, rt: &R) {
        if self.is_behind() {
            return;
        }
        let looks_at_all = std::mem::replace(&mut self.connections.looks_at_all, false);
        let quiet = std::mem::replace(&mut self.connections.quiet, Vec::new(self.alloc));
        if looks_at_all {
            for key in 0..self.connections.table.capacity() {
                self.close_if_quiet(rt, key);
            }
        } else {
            for key in quiet {
                self.close_if_quiet(rt, key);
            }
        }
    }

    /// A client for which nothing waits leaves its shard, and is closed once its last bytes are written. Where there is no memory for that, it is
    /// tried again.
    fn close_if_quiet<R: Wait>(&mut self, rt: &R, key: usize) {
        let is_quiet = match self.connections.table.get(key) {
            None => false,
            Some(connection) => connection.is_quiet(),
        };
        if !is_quiet {
            return;
        }
        self.work_for_others(rt);
        if self.leave(rt, key).is_ok() {
            self.connections.shut(key);
            self.connections.close_if_written(key);
        } else {
            self.connections.is_short = true;
            self.connections.note_quiet(key);
        }
    }

    /// Where another loop has put something for this one since it began to look, its shards are worked once more, and what they have put is written.
    fn work_for_others<R: Wait>(&mut self, rt: &R) {
        if let Some(loops) = self.loops {
            if loops.is_told(self.place) {
                let node = self.node;
                self.work(rt, node);
                self.flush(rt);
            }
        }
    }

    /// The drain ends now: all clients that are there still are closed at the end of this turn, whatever waits for them.
    fn cut_off(&mut self) {
        self.drain.deadline = u64::MAX;
        self.drain.is_late = true;
        self.drain.cut_off = 0;
        self.drain.stage = Stage::Closes;
        for key in 0..self.connections.table.capacity() {
            let is_client = match self.connections.table.get(key) {
                None => false,
                Some(connection) => connection.is_client(),
            };
            if is_client {
                self.connections.give_up_for(key, Cause::CutOff);
                self.drain.cut_off = self.drain.cut_off.saturating_add(1);
            }
        }
    }

    /// Notes that the server has drained, where all its clients are gone, and what they published is written to the other servers; a drain that
    /// is late does not wait for these.
    pub(crate) fn end_drain(&mut self) {
        let is_closing = self.drain.stage == Stage::Pauses || self.drain.stage == Stage::Closes;
        if !is_closing || !self.clients.is_empty() {
            return;
        }
        match self.loops {
            Some(loops) if !self.place.is_first() => {
                if self.may_come || (!self.drain.is_late && self.connections.has_told) {
                    return;
                }
                self.finish_drain();
                loops.finish_drain(self.drain.cut_off);
            }
            Some(loops) => {
                let Some(others) = loops.others_done() else {
                    return;
                };
                // whoever is done has told of its frames before: they stand in the mail until the next turn
                if !self.drain.is_late && loops.is_told(self.place) {
                    return;
                }
                self.end_drain_of_all(others);
            }
            None => self.end_drain_of_all(0),
        }
    }

    /// The same where all other loops are done, which have closed so many clients before nothing waited for them.
    fn end_drain_of_all(&mut self, others: u64) {
        if !self.drain.is_late && !self.are_routes_written() {
            return;
        }
        self.finish_drain();
        let clients = self.drain.cut_off.saturating_add(others);
        self.connections.events.note(if self.drain.is_late || clients > 0 {
            Event::DrainedLate { clients }
        } else {
            Event::Drained
        });
    }

    /// The loop is done with the drain.
    fn finish_drain(&mut self) {
        self.drain.stage = Stage::Done;
        self.connections.drains = false;
        self.connections.quiet.clear();
    }

    /// Whether all that waited for other servers is written, as far as they are reached.
    fn are_routes_written(&self) -> bool {
        if self.connections.has_told {
            return false;
        }
        for place in 0..self.peers.count() {
            if let Some(key) = self.peers.kept_connection(place) {
                if self.connections.backlog(place, key).unwrap_or(0) > 0 {
                    return false;
                }
            }
        }
        true
    }
}
