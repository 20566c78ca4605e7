//! Of which kind an event is, and how grave.

ghost use Rattle.std.specs.Prelude.{◌≡◌, ◌<◌};
ghost use Rattle.server_events.specs.Kinds.{kind_of, level_of, place_of};

use crate::event::Event;
use log::Level;

/// How many kinds of events there are.
pub const KINDS: usize = 15;

/// A kind of events: those of one are as grave as each other, and counted together.
#[derive(Clone, Copy)]
pub enum EventKind {
    Listening,
    PeerUp,
    PeerDown,
    ClientCame,
    ClientGone,
    ClientClosed,
    ConnectionRefused,
    OutOfMemory,
    DrainAsked,
    Drained,
    DrainedLate,
    Stopped,
    Failed,
    PeerUnresolved,
    PeerResolved,
}

impl EventKind {
    /// All of them, each at its [place](EventKind::place).
    pub const ALL: [EventKind; KINDS] = [
        EventKind::Listening,
        EventKind::PeerUp,
        EventKind::PeerDown,
        EventKind::ClientCame,
        EventKind::ClientGone,
        EventKind::ClientClosed,
        EventKind::ConnectionRefused,
        EventKind::OutOfMemory,
        EventKind::DrainAsked,
        EventKind::Drained,
        EventKind::DrainedLate,
        EventKind::Stopped,
        EventKind::Failed,
        EventKind::PeerUnresolved,
        EventKind::PeerResolved,
    ];

    /// How grave it is. (Profile.)
    pub fn level(self) -> Level
        ensures { result ≡ level_of self }
    {
        match self {
            EventKind::Failed => Level::Error,
            EventKind::PeerDown
            | EventKind::PeerUnresolved
            | EventKind::ClientClosed
            | EventKind::ConnectionRefused
            | EventKind::OutOfMemory
            | EventKind::DrainedLate => Level::Warn,
            EventKind::Listening
            | EventKind::PeerUp
            | EventKind::PeerResolved
            | EventKind::DrainAsked
            | EventKind::Drained
            | EventKind::Stopped => Level::Info,
            EventKind::ClientCame | EventKind::ClientGone => Level::Debug,
        }
    }

    /// Where it stands among all kinds, from 0.
    pub fn place(self) -> usize
        ensures same { result ≡ place_of self }
        ensures within { result < KINDS }
    {
        match self {
            EventKind::Listening => 0,
            EventKind::PeerUp => 1,
            EventKind::PeerDown => 2,
            EventKind::ClientCame => 3,
            EventKind::ClientGone => 4,
            EventKind::ClientClosed => 5,
            EventKind::ConnectionRefused => 6,
            EventKind::OutOfMemory => 7,
            EventKind::DrainAsked => 8,
            EventKind::Drained => 9,
            EventKind::DrainedLate => 10,
            EventKind::Stopped => 11,
            EventKind::Failed => 12,
            EventKind::PeerUnresolved => 13,
            EventKind::PeerResolved => 14,
        }
    }
}

impl Event {
    /// Its kind.
    pub fn kind(&self) -> EventKind
        ensures { result ≡ kind_of self.now }
    {
        match self {
            Event::Listening { .. } => EventKind::Listening,
            Event::PeerUp { .. } => EventKind::PeerUp,
            Event::PeerDown { .. } => EventKind::PeerDown,
            Event::ClientCame { .. } => EventKind::ClientCame,
            Event::ClientGone { .. } => EventKind::ClientGone,
            Event::ClientClosed { .. } => EventKind::ClientClosed,
            Event::ConnectionRefused { .. } | Event::PeerRefused { .. } => {
                EventKind::ConnectionRefused
            }
            Event::OutOfMemory => EventKind::OutOfMemory,
            Event::DrainAsked { .. } => EventKind::DrainAsked,
            Event::Drained => EventKind::Drained,
            Event::DrainedLate { .. } => EventKind::DrainedLate,
            Event::Stopped => EventKind::Stopped,
            Event::Failed { .. } => EventKind::Failed,
            Event::PeerUnresolved { .. } => EventKind::PeerUnresolved,
            Event::PeerResolved { .. } => EventKind::PeerResolved,
        }
    }
}
