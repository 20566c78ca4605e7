//! How many lines of a kind are told in a second; and the queue of lines that wait to be written, with the counts of those that are not.

ghost use Rattle.std.specs.Prelude.{◌≡◌, ◌∷◌, [], take, nat_lt, ◌==◌, ◌||◌, ◌≤◌, ◌++◌, false, if◌then◌else◌, length, IfOk};
ghost use Rattle.std.specs.List.{list_any};
ghost use Rattle.event_log.specs.Rates.{Admits, has_room, held_after, kept_after, AtMostTenInASecond};
ghost use Rattle.server_events.specs.Kinds.{place_of};
ghost use Rattle.std.specs.Vec.{vec_capacity, vec_len};
ghost use Rattle.event_log.specs.Backlog.{IsFateOf, counted};

use arrayvec::ArrayVec;
use server_events::{Event, EventKind, KINDS};
use std::alloc::{AllocError, Global};
use std::array;
use subj::NodeId;

/// The most lines of a kind that are told in a second.
pub const LINES_A_SECOND: usize = 10;

/// A second, in milliseconds.
const SECOND: u64 = 1_000;

/// The lines of a kind: when the last ten of them were told, the newest first, and how many were held back since their count was told. Times
/// are milliseconds of a clock that does not go back.
#[derive(Drop)]
pub struct Rate {
    told: ArrayVec<u64, LINES_A_SECOND>,
    held: u64,
}

impl Rate {
    /// None was told.
    pub fn new() -> Rate
        ensures told { result.told.items ≡ [] }
        ensures held { result.held ≡ 0 }
    {
        Rate {
            told: ArrayVec::new(),
            held: 0,
        }
    }

    /// Whether a line is told that comes now.
    fn has_room(&self, now: u64) -> bool
        ensures { result ≡ has_room self.now.told.items now }
    {
        match self.told.as_slice().get(LINES_A_SECOND - 1) {
            None => true,
            Some(tenth) => now.saturating_sub(*tenth) >= SECOND,
        }
    }

    /// A line is told now.
    fn tell(&mut self, now: u64)
        ensures told { self.new.told.items ≡ now ∷ take 9 self.old.told.items }
        ensures held { self.new.held ≡ self.old.held }
    {
        self.told.truncate(LINES_A_SECOND - 1);
        self.told.insert(0, now);
    }

    /// A line comes now: whether it is told. It is just where the tenth line before it was told a second ago, or there is none. Else it is counted.
    pub fn admit(&mut self, now: u64) -> bool
        ensures room { result ≡ has_room self.old.told.items now }
        ensures told { self.new.told.items ≡ kept_after self.old.told.items now }
        ensures held { self.new.held ≡ held_after self.old.told.items now self.old.held }
    {
        if self.has_room(now) {
            self.tell(now);
            return true;
        }
        self.held = self.held.saturating_add(1);
        false
    }

    /// How many lines were held back. Their count is told now: it begins anew.
    pub fn take_held(&mut self) -> u64
        ensures held { result ≡ self.old.held }
        ensures none { self.new.held ≡ 0 }
        ensures told { self.new.told.items ≡ self.old.told.items }
    {
        let held = self.held;
        self.held = 0;
        held
    }
}

/// The lines of each kind.
#[derive(Drop)]
pub struct Rates {
    all: [Rate; KINDS],
}

impl Rates {
    /// None was told.
    pub fn new() -> Rates {
        Rates {
            all: array::from_fn(|_| Rate::new()),
        }
    }

    /// A line of this kind comes now: whether it is told, as [`Rate::admit`] says.
    pub fn admit(&mut self, kind: EventKind, now: u64) -> bool
        ensures { Admits self.old.all (place_of kind) now result self.new.all }
    {
        self.all[kind.place()].admit(now)
    }

    /// How many lines of each kind were held back, by the place of the kind. The counts begin anew.
    pub fn take_held(&mut self) -> [u64; KINDS] {
        let mut held = [0; KINDS];
        for place in 0..KINDS {
            held[place] = self.all[place].take_held();
        }
        held
    }

    /// Whether some were held back.
    pub fn has_held(&self) -> bool
        ensures { result ≡ list_any (λ rate. nat_lt 0 rate.held) self.now.all }
    {
        self.all.iter().any(|rate| rate.held > 0)
    }
}

/// The most lines that wait to be written.
pub const LINES: usize = 1_024;

/// A line that is to be told.
#[derive(Clone, Copy)]
pub struct Line {
    /// When it happened, in milliseconds since 1970 in UTC.
    pub at: u64,
    /// The server at which it happened.
    pub server: NodeId,
    /// What happened.
    pub event: Event,
}

/// What has become of a line.
#[derive(Clone, Copy)]
pub enum Fate {
    /// It waits to be written.
    Told,
    /// So many of its kind were told in the last second that this one is only counted.
    HeldBack,
    /// The queue had no room for it: it is only counted.
    Lost,
}

/// How many lines were not told since these counts were taken last.
#[derive(Clone, Copy)]
pub struct Counts {
    /// Those that were held back, by the place of their kind.
    pub held: [u64; KINDS],
    /// Those that were lost.
    pub lost: u64,
}

/// Lines that wait to be written, the oldest first, at most [`LINES`], and the counts of those that are not told.
#[derive(Drop)]
pub struct Backlog {
    rates: Rates,
    lines: Vec<Line>,
    lost: u64,
}

/// Puts an item behind the others, where there is memory for it. Whether there was.
fn put<T: Drop>(items: &mut Vec<T>, item: T) -> bool
    ensures items { items.new.items
        ≡ (if result then items.old.items ++ item ∷ [] else items.old.items) }
    ensures full { result ≡ false → vec_capacity items.old ≤ vec_len items.old }
{
    items.push(item).is_ok()
}

impl Backlog {
    /// No line waits, and there is memory for all that may.
    pub fn new(alloc: Global) -> Result<Backlog, AllocError>
        ensures { IfOk result (λ made. (made.lines.items ≡ []) × (made.lost ≡ 0)) }
    {
        let lines = Vec::with_capacity(alloc, LINES)?;
        Ok(Backlog {
            rates: Rates::new(),
            lines,
            lost: 0,
        })
    }

    /// So many lines are lost.
    pub fn lose(&mut self, count: u64)
        ensures { self.new ≡ record self.old { lost = counted self.old.lost count } }
    {
        self.lost = self.lost.saturating_add(count);
    }

    /// A line is to be told now, in milliseconds of a clock that does not go back.
    pub fn push(&mut self, now: u64, line: Line) -> Fate
        ensures { IsFateOf self.old line now result self.new }
    {
        if self.lines.len() >= LINES {
            self.lose(1);
            return Fate::Lost;
        }
        if !self.rates.admit(line.event.kind(), now) {
            return Fate::HeldBack;
        }
        if put(&mut self.lines, line) {
            return Fate::Told;
        }
        self.lose(1);
        Fate::Lost
    }

    /// Whether no line waits.
    pub fn is_empty(&self) -> bool
        ensures { result ≡ (length self.now.lines.items == 0) }
    {
        self.lines.is_empty()
    }

    /// Whether some lines were not told, and their counts neither.
    pub fn has_counts(&self) -> bool
        ensures { result
            ≡ (nat_lt 0 self.now.lost || list_any (λ rate. nat_lt 0 rate.held) self.now.rates.all) }
    {
        self.lost > 0 || self.rates.has_held()
    }

    /// Takes all lines that wait, in place of those in the list, which go.
    pub fn take_lines(&mut self, lines: &mut Vec<Line>)
        ensures taken { lines.new.items ≡ self.old.lines.items }
        ensures none { self.new.lines.items ≡ [] }
        ensures rates { self.new.rates ≡ self.old.rates }
        ensures lost { self.new.lost ≡ self.old.lost }
    {
        lines.clear();
        std::mem::swap(&mut self.lines, lines);
    }

    /// Takes the counts of what was not told. They begin anew.
    pub fn take_counts(&mut self) -> Counts
        ensures lost { result.lost ≡ self.old.lost }
        ensures none { self.new.lost ≡ 0 }
        ensures lines { self.new.lines.items ≡ self.old.lines.items }
    {
        let held = self.rates.take_held();
        let lost = self.lost;
        self.lost = 0;
        Counts { held, lost }
    }
}

/// Whenever lines of a kind come: each that is told comes a second after the tenth before it that was told, so that no second has more than ten.
/// And for that the last ten times are enough.
pub fn at_most_ten_in_a_second()
    ensures { AtMostTenInASecond }
{}
