//! The events of a server that its operator wants to know, as values, and a list that keeps the events of one turn
//! of the server's loop until the log takes them.
//!
//! ```text
//! let mut events = Events::new(alloc);
//! events.set_filter(sink.filter());
//! events.note(Event::PeerUp { peer });
//! sink.take(rt, server, &mut events);
//! ```
//!
//! Read first: [`Event`], [`Events`], [`EventSink`]. The files in reading order: `event` has the events and their
//! causes, `kinds` says of which kind each is and how grave, `noted` keeps those of a turn, and `sink` is whoever
//! takes them.
#![tactic(auto)]

mod event;
mod kinds;
mod noted;
mod sink;

pub use event::{Caller, ClientCause, Event, PeerCause, RefusalCause, SystemCause};
pub use kinds::{EventKind, KINDS};
pub use log::{Level, LevelFilter};
pub use noted::{Events, NOTED_EVENTS};
pub use sink::EventSink;
