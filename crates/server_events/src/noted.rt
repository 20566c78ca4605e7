//! The events of a turn of a server's loop, until they are told.

ghost use Rattle.std.specs.Prelude.{◌≡◌, ◌⊎◌, ◌∷◌, ◌++◌, [], true, false, if◌then◌else◌};
ghost use Rattle.log.specs.Level.{allows};
ghost use Rattle.server_events.specs.Kinds.{kind_of, level_of};
ghost use Rattle.server_events.specs.Noted.{IsNoted, counted};

use crate::event::Event;
use log::LevelFilter;
use std::alloc::Global;

/// The most events that are kept until they are told; those beyond are counted.
pub const NOTED_EVENTS: usize = 1_024;

/// Events in the order in which they came, and how many more there were for which there was no place or no memory.
/// Only those that its filter lets through are noted.
pub struct Events {
    filter: LevelFilter,
    noted: Vec<Event>,
    missed: u64,
}

/// One call, also for crates above: `docs/PROVING.md`, "What a proof costs".
impl Drop for Events {
    fn drop(self) {
        let Events {
            filter: _,
            noted: _,
            missed: _,
        } = self;
    }
}

impl Events {
    /// None, of which those up to `Level::Info` are noted.
    pub fn new(alloc: Global) -> Events
        ensures events { result.noted.items ≡ [] }
        ensures missed { result.missed ≡ 0 }
    {
        Events {
            filter: LevelFilter::Info,
            noted: Vec::new(alloc),
            missed: 0,
        }
    }

    /// From now on, those that this filter lets through are noted.
    pub fn set_filter(&mut self, filter: LevelFilter)
        ensures { self.new ≡ record self.old { filter = filter } }
    {
        self.filter = filter;
    }

    /// Keeps an event, where there is a place and memory for it.
    fn keep(&mut self, event: Event) -> bool
        ensures events { self.new.noted.items
            ≡ (if result then self.old.noted.items ++ event ∷ [] else self.old.noted.items) }
        ensures missed { self.new.missed ≡ self.old.missed }
        ensures filter { self.new.filter ≡ self.old.filter }
    {
        self.noted.len() < NOTED_EVENTS && self.noted.push(event).is_ok()
    }

    /// Notes an event that has happened, where the filter lets its level through; else nothing changes.
    pub fn note(&mut self, event: Event)
        ensures noted { allows self.old.filter (level_of (kind_of event)) ≡ true
            → IsNoted self.old event self.new }
        ensures quiet { allows self.old.filter (level_of (kind_of event)) ≡ false
            → self.new ≡ self.old }
    {
        if !self.filter.allows(event.kind().level()) {
            return;
        }
        if !self.keep(event) {
            self.missed = self.missed.saturating_add(1);
        }
    }

    /// What was noted, in order.
    pub fn noted(&self) -> &[Event]
        ensures { result.now ≡ self.now.noted.items }
    {
        self.noted.as_slice()
    }

    /// How many more there were.
    pub fn missed(&self) -> u64
        ensures { result ≡ self.now.missed }
    {
        self.missed
    }

    /// Whether there was none.
    pub fn is_empty(&self) -> bool {
        self.noted.is_empty() && self.missed == 0
    }

    /// They have been told: there is none.
    pub fn clear(&mut self)
        ensures events { self.new.noted.items ≡ [] }
        ensures missed { self.new.missed ≡ 0 }
        ensures filter { self.new.filter ≡ self.old.filter }
    {
        self.noted.clear();
        self.missed = 0;
    }
}
