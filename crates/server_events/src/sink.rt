//! Whoever takes the events of servers.

use crate::noted::Events;
use log::LevelFilter;
use std::rt::Clock;
use std::sync::Wait;
use subj::NodeId;

/// What takes the events of servers, of each from the thread that runs it.
pub trait EventSink {
    /// Which events are told.
    fn filter(&self) -> LevelFilter;

    /// Takes the events of the server of this name, in their order: there is none afterwards. It may wait for a lock, and for nothing else.
    fn take<R: Wait + Clock>(&self, rt: &R, server: NodeId, events: &mut Events);
}
