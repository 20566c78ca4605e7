//! What a server is asked, lent.

ghost use Rattle.std.specs.Prelude.{◌≡◌};
ghost use Rattle.node_core.specs.InCode.{event_of};
ghost use Rattle.node_core.specs.Lent.{asked_of};

use node_law::{NodeEvent, OwnEvent};
use route_session::SessionId;
use route_values::{Numbered, RouteConnect, RouteInfo};

/// What a server is asked: as [`NodeEvent`](crate::NodeEvent), but its parts stay with their owner.
#[derive(Clone, Copy)]
pub enum EventRef<'a> {
    /// By its own side.
    Own(&'a OwnEvent),
    /// A numbered frame of another server.
    Receive(&'a Numbered),
    /// The `INFO` of the server that was dialed, on this session.
    OnInfo(SessionId, &'a RouteInfo),
    /// The `CONNECT` of the server that dialed, on this session.
    OnConnect(SessionId, &'a RouteConnect),
}

/// The event, with its parts lent.
pub(crate) fn lend(event: &NodeEvent) -> EventRef<'_>
    ensures { asked_of result ≡ event_of event.now }
{
    match event {
        NodeEvent::Own(event) => EventRef::Own(event),
        NodeEvent::Receive(frame) => EventRef::Receive(frame),
        NodeEvent::OnInfo { session, info } => EventRef::OnInfo(*session, info),
        NodeEvent::OnConnect { session, connect } => EventRef::OnConnect(*session, connect),
    }
}
