//! When the servers of a process stop, and which of them drain.

use crate::limits::DRAIN_SECONDS;
use crate::loops::LoopWord;
use std::sync::atomic::{AtomicBool, AtomicU64, Ordering};

/// What one server of a process is told from outside its thread: it is woken, and asked to drain.
pub struct ServerControl {
    /// What wakes each of its loops.
    words: Vec<LoopWord>,
    /// How often it was asked to drain.
    asks: AtomicU64,
}

/// One call, also for crates above: `docs/PROVING.md`, "What a proof costs".
impl Drop for ServerControl {
    fn drop(self) {
        let ServerControl { words: _, asks: _ } = self;
    }
}

impl ServerControl {
    /// A server whose loops these wake, and that was not asked to drain.
    pub fn new(words: Vec<LoopWord>) -> ServerControl {
        ServerControl {
            words,
            asks: AtomicU64::new(0),
        }
    }

    /// Asks it to drain, and wakes it.
    fn ask(&self) {
        self.asks.fetch_add(1, Ordering::SeqCst);
        self.wake();
    }

    fn wake(&self) {
        for word in &self.words {
            word.ring();
        }
    }
}

/// What the servers of a process share: how many clients they have taken, how many of these are gone, after
/// how many all of them stop, how many servers have drained, and what each is told from outside.
pub struct Shutdown {
    stops_after: Option<u64>,
    /// How long a drain may take, in seconds.
    drain_seconds: u64,
    taken: AtomicU64,
    gone: AtomicU64,
    drained: AtomicU64,
    has_failed: AtomicBool,
    servers: Vec<ServerControl>,
    /// The place in the cluster of the first of them; the others follow it.
    first_place: usize,
}

/// One call, also for crates above: `docs/PROVING.md`, "What a proof costs".
impl Drop for Shutdown {
    fn drop(self) {
        let Shutdown {
            stops_after: _,
            drain_seconds: _,
            taken: _,
            gone: _,
            drained: _,
            has_failed: _,
            servers: _,
            first_place: _,
        } = self;
    }
}

impl Shutdown {
    /// Servers that have taken nobody, in their order, from the first place of the cluster on. They stop once they have taken so many clients,
    /// and all that they took are gone; for None they go on, until all have drained. A drain may take half a minute.
    pub fn new(stops_after: Option<u64>, servers: Vec<ServerControl>) -> Shutdown {
        Shutdown {
            stops_after,
            drain_seconds: DRAIN_SECONDS,
            taken: AtomicU64::new(0),
            gone: AtomicU64::new(0),
            drained: AtomicU64::new(0),
            has_failed: AtomicBool::new(false),
            servers,
            first_place: 0,
        }
    }

    /// The first of the servers stands at this place of the cluster, counted from 0: servers before it are of other processes.
    pub fn set_first_place(&mut self, place: usize) {
        self.first_place = place;
    }

    /// What the server at this place of the cluster is told, where it is one of these.
    fn server_at(&self, place: usize) -> Option<&ServerControl> {
        self.servers.get(place.checked_sub(self.first_place)?)
    }

    /// The words of the loops of the server at this place, where it is one of these.
    pub fn words(&self, place: usize) -> &[LoopWord] {
        match self.server_at(place) {
            None => &[],
            Some(server) => &server.words,
        }
    }

    /// A drain may take so many seconds from now on.
    pub fn set_drain_seconds(&mut self, seconds: u64) {
        self.drain_seconds = seconds;
    }

    /// How long a drain may take, in seconds.
    pub fn drain_seconds(&self) -> u64 {
        self.drain_seconds
    }

    /// A client was taken.
    pub fn take(&self) {
        self.taken.fetch_add(1, Ordering::SeqCst);
    }

    /// So many clients are gone. Where it was the last one, all servers are woken.
    pub fn lose(&self, count: u64) {
        if count == 0 {
            return;
        }
        self.gone.fetch_add(count, Ordering::SeqCst);
        if self.is_over() {
            self.wake_all();
        }
    }

    /// One of the servers cannot go on: all of them stop.
    pub fn fail(&self) {
        self.has_failed.store(true, Ordering::SeqCst);
        self.wake_all();
    }

    /// Asks the server at this place of the cluster, counted from 0, to drain, and wakes it. One that drains already ends its drain at once. Whether
    /// there is such a server.
    pub fn ask_drain(&self, place: usize) -> bool {
        match self.server_at(place) {
            None => false,
            Some(server) => {
                server.ask();
                true
            }
        }
    }

    /// Asks each server to drain.
    pub fn ask_all(&self) {
        for server in &self.servers {
            server.ask();
        }
    }

    /// How often the server at this place was asked to drain; never where there is no such one.
    pub fn asks(&self, place: usize) -> u64 {
        match self.server_at(place) {
            None => 0,
            Some(server) => server.asks.load(Ordering::SeqCst),
        }
    }

    /// A server has drained, which each tells once. Where it was the last one, all servers are woken.
    pub fn finish_drain(&self) {
        self.drained.fetch_add(1, Ordering::SeqCst);
        if self.is_over() {
            self.wake_all();
        }
    }

    /// Whether all servers have drained; not where there is none.
    fn have_drained(&self) -> bool {
        let count = self.servers.len() as u64;
        count > 0 && self.drained.load(Ordering::SeqCst) >= count
    }

    /// Whether the servers stop.
    pub fn is_over(&self) -> bool {
        if self.has_failed.load(Ordering::SeqCst) || self.have_drained() {
            return true;
        }
        let Some(least) = self.stops_after else {
            return false;
        };
        let gone = self.gone.load(Ordering::SeqCst);
        let taken = self.taken.load(Ordering::SeqCst);
        taken >= least && gone >= taken
    }

    /// Wakes all servers: each goes round its loop once more.
    pub fn wake_all(&self) {
        for server in &self.servers {
            server.wake();
        }
    }
}
