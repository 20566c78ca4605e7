//! The queue under its lock, and the thread that writes what waits in it.

use crate::backlog::{Backlog, Counts, LINES, Line};
use crate::lines::{count_form, lost_form};
use server_events::{Event, EventKind, EventSink, Events, LevelFilter};
use std::alloc::{AllocError, Global};
use std::rt::Clock;
use std::sync::{Arc, Condvar, Mutex, Wait};
use std::thread::{self, Threads};
use std::time::{Duration, Instant, SystemTime};
use subj::NodeId;

/// How often counts of what was not told are told, at most, in milliseconds.
const COUNTS_EACH: u64 = 1_000;

/// How long the thread that writes sleeps where nothing waits and nothing is counted, in milliseconds.
const IDLE: u64 = 3_600_000;

/// How long the end waits until all lines are written, in milliseconds: standard error may take none.
const LAST_LINES: u64 = 1_000;

/// Why no log was started.
#[derive(Clone, Copy)]
pub enum StartFault {
    /// No thread was to be had for what writes it.
    NoThread,
    /// There was no memory.
    OutOfMemory,
}

impl From<AllocError> for StartFault {
    fn from(_: AllocError) -> StartFault {
        StartFault::OutOfMemory
    }
}

/// What stands under the lock.
#[derive(Drop)]
struct State {
    backlog: Backlog,
    /// When counts were taken last, in milliseconds since the log began.
    counted: u64,
    /// Whether no more is told.
    is_over: bool,
    /// Whether all that was told is written.
    is_written: bool,
}

impl State {
    /// Whether there is nothing to be written now, and still something or nothing that is counted.
    fn is_idle(&self, has_counts: bool) -> bool {
        self.backlog.is_empty() && !self.is_over && self.backlog.has_counts() == has_counts
    }

    /// Takes the counts that are to be told now.
    fn take_counts(&mut self, now: u64) -> Option<Counts> {
        let is_due = self.is_over || now.saturating_sub(self.counted) >= COUNTS_EACH;
        if !is_due || !self.backlog.has_counts() {
            return None;
        }
        self.counted = now;
        Some(self.backlog.take_counts())
    }
}

/// How long to sleep where nothing is to be written now.
fn patience(has_counts: bool) -> Duration {
    Duration::from_millis(if has_counts { COUNTS_EACH } else { IDLE })
}

/// What is written at once, beside the lines.
#[derive(Clone, Copy)]
struct Rest {
    counts: Option<Counts>,
    is_over: bool,
}

/// What the servers of a process tell of: those events that its filter lets through, each a line on standard error. Any thread may tell,
/// and waits for nothing but a lock; what standard error does not take in time is lost, and counted.
pub struct EventLog {
    filter: LevelFilter,
    start: Option<Instant>,
    state: Mutex<State>,
    /// Tells the thread that writes that there is something.
    has_more: Condvar,
    /// Tells the end that all is written.
    has_ended: Condvar,
}

/// One call, also for crates above: `docs/PROVING.md`, "What a proof costs".
impl Drop for EventLog {
    fn drop(self) {
        let EventLog {
            filter: _,
            start: _,
            state: _,
            has_more: _,
            has_ended: _,
        } = self;
    }
}

/// Milliseconds since 1970, 0 where the clock cannot be read.
fn milliseconds_since_1970<R: Clock>(rt: &R) -> u64 {
    let Ok(time) = SystemTime::now(rt) else {
        return 0;
    };
    match time.duration_since(SystemTime::UNIX_EPOCH) {
        Ok(passed) => passed.as_millis().min(u64::MAX as u128) as u64,
        Err(_) => 0,
    }
}

/// Writes lines. What standard error refuses is lost.
fn write_lines<R: Eprint>(rt: &R, lines: &[Line]) {
    for line in lines {
        let _ = rt.eprintln(line.form());
    }
}

/// Writes the counts of what was not told.
fn write_counts<R: Eprint>(rt: &R, at: u64, counts: &Counts) {
    for kind in EventKind::ALL {
        let count = counts.held[kind.place()];
        if count > 0 {
            let _ = rt.eprintln(count_form(at, kind, count));
        }
    }
    if counts.lost > 0 {
        let _ = rt.eprintln(lost_form(at, counts.lost));
    }
}

/// The log for two threads.
fn shared(alloc: Global, log: EventLog) -> Result<(Arc<EventLog>, Arc<EventLog>), AllocError> {
    let log = Arc::new(alloc, log)?;
    let theirs = Arc::try_clone(&log)?;
    Ok((log, theirs))
}

/// Room for the lines that are written at once, where there is memory for all of them.
fn room(alloc: Global) -> Vec<Line> {
    match Vec::with_capacity(alloc, LINES) {
        Ok(lines) => lines,
        Err(_) => Vec::new(alloc),
    }
}

/// Writes what is told, until no more is and all is written.
fn write_all<R: Wait + Clock + Eprint>(rt: &R, alloc: Global, log: &EventLog) {
    let mut lines = room(alloc);
    for _round in rt.forever() {
        let rest = log.await_lines(rt, &mut lines);
        write_lines(rt, &lines);
        if let Some(counts) = &rest.counts {
            write_counts(rt, milliseconds_since_1970(rt), counts);
        }
        if rest.is_over {
            log.finish(rt);
            return;
        }
    }
}

impl EventLog {
    fn new<R: Clock>(rt: &R, alloc: Global, filter: LevelFilter) -> Result<EventLog, AllocError> {
        Ok(EventLog {
            filter,
            start: Instant::now(rt).ok(),
            state: Mutex::new(State {
                backlog: Backlog::new(alloc)?,
                counted: 0,
                is_over: false,
                is_written: false,
            }),
            has_more: Condvar::new(),
            has_ended: Condvar::new(),
        })
    }

    /// A log of what this filter lets through, with a thread that writes it. The thread ends at [`EventLog::end`], or with the process.
    pub fn start<R>(rt: &R, alloc: Global, filter: LevelFilter) -> Result<Arc<EventLog>, StartFault>
    where
        R: Threads + Wait + Clock + Eprint + Copy + Send + 'static,
    {
        let (log, theirs) = shared(alloc, EventLog::new(rt, alloc, filter)?)?;
        let own = *rt;
        match thread::spawn(rt, move || write_all(&own, alloc, &theirs)) {
            Ok(_) => Ok(log),
            Err(_) => Err(StartFault::NoThread),
        }
    }

    /// Milliseconds since the log began, 0 where the clock cannot be read.
    fn now<R: Clock>(&self, rt: &R) -> u64 {
        let Some(start) = self.start else {
            return 0;
        };
        match start.elapsed(rt) {
            Ok(passed) => passed.as_millis().min(u64::MAX as u128) as u64,
            Err(_) => 0,
        }
    }

    /// Tells of an event at this server that happens now, where the filter lets it through. May wait for a lock.
    pub fn tell<R: Wait + Clock>(&self, rt: &R, server: NodeId, event: Event) {
        if !self.filter.allows(event.kind().level()) {
            return;
        }
        let (at, now) = (milliseconds_since_1970(rt), self.now(rt));
        let mut state = self.state.lock(rt);
        let _ = state.backlog.push(now, Line { at, server, event });
        drop(state);
        self.has_more.notify_one();
    }

    /// Waits until there is something to be written, and takes it: the lines into the list, in place of those there.
    fn await_lines<R: Wait + Clock>(&self, rt: &R, lines: &mut Vec<Line>) -> Rest {
        let guard = self.state.lock(rt);
        let has_counts = guard.backlog.has_counts();
        let (mut guard, _) = self
            .has_more
            .wait_timeout_while(rt, guard, patience(has_counts), |state| {
                state.is_idle(has_counts)
            });
        let now = self.now(rt);
        let state = &mut *guard;
        state.backlog.take_lines(lines);
        Rest {
            counts: state.take_counts(now),
            is_over: state.is_over,
        }
    }

    /// All that was told is written.
    fn finish<R: Wait>(&self, rt: &R) {
        let mut state = self.state.lock(rt);
        state.is_written = true;
        drop(state);
        self.has_ended.notify_all();
    }

    /// No more is told. Waits until all is written, for at most a second.
    pub fn end<R: Wait + Clock>(&self, rt: &R) {
        let mut state = self.state.lock(rt);
        state.is_over = true;
        drop(state);
        self.has_more.notify_one();
        let last = Duration::from_millis(LAST_LINES);
        let state = self.state.lock(rt);
        let _ = self
            .has_ended
            .wait_timeout_while(rt, state, last, |state| !state.is_written);
    }
}

impl EventSink for EventLog {
    fn filter(&self) -> LevelFilter {
        self.filter
    }

    fn take<R: Wait + Clock>(&self, rt: &R, server: NodeId, events: &mut Events) {
        if events.is_empty() {
            return;
        }
        let (at, now) = (milliseconds_since_1970(rt), self.now(rt));
        let mut guard = self.state.lock(rt);
        let state = &mut *guard;
        for event in events.noted() {
            let event = *event;
            let _ = state.backlog.push(now, Line { at, server, event });
        }
        state.backlog.lose(events.missed());
        drop(guard);
        events.clear();
        self.has_more.notify_one();
    }
}
