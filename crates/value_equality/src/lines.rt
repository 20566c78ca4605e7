//! Answers to clients, and what two servers tell one another first. They have `==` of their own; here it is told part by part, so
//! that each contract knows what it compares.

ghost use Rattle.std.specs.Prelude.{◌≡◌, ◌↔◌, IsTrue};

use client_frames::{InfoData, ReplyFrame, ServerInfo};
use route_values::{RouteConnect, RouteInfo};

/// Whether it is the same life of a server.
fn is_same_life(a: &ServerInfo, b: &ServerInfo) -> bool
    ensures { IsTrue result ↔ ((a.now.name ≡ b.now.name) × (a.now.inc ≡ b.now.inc)) }
{
    a.inc().get() == b.inc().get() && a.name().bytes() == b.name().bytes()
}

/// Whether a server tells all its clients the same of itself.
fn is_same_server(a: &ServerInfo, b: &ServerInfo) -> bool
    ensures { IsTrue result ↔ (a.now ≡ b.now) }
{
    a.port() == b.port() && a.host().as_bytes() == b.host().as_bytes() && is_same_life(a, b)
}

/// Whether a server tells a client the same of itself.
fn is_same_data(a: &InfoData, b: &InfoData) -> bool
    ensures { IsTrue result ↔ (a.now ≡ b.now) }
{
    a.client_id.get() == b.client_id.get() && is_same_server(&a.server, &b.server)
}

/// Whether it is the same answer to a client.
pub fn is_same_answer(a: &ReplyFrame, b: &ReplyFrame) -> bool
    ensures { IsTrue result ↔ (a.now ≡ b.now) }
{
    match (a, b) {
        (ReplyFrame::Info(a), ReplyFrame::Info(b)) => is_same_data(a, b),
        (ReplyFrame::Pong, ReplyFrame::Pong) | (ReplyFrame::Ok, ReplyFrame::Ok) => true,
        (ReplyFrame::Err(a), ReplyFrame::Err(b)) => *a == *b,
        _ => false,
    }
}

/// Whether it is the same `INFO` of a server.
pub fn is_same_info(a: &RouteInfo, b: &RouteInfo) -> bool
    ensures { IsTrue result ↔ (a.now ≡ b.now) }
{
    a.server_name() == b.server_name() && a.inc() == b.inc()
}

/// Whether it is the same `CONNECT` of a server.
pub fn is_same_connect(a: &RouteConnect, b: &RouteConnect) -> bool
    ensures { IsTrue result ↔ (a.now ≡ b.now) }
{
    a.server_name() == b.server_name()
        && a.inc() == b.inc()
        && a.to() == b.to()
        && a.to_inc() == b.to_inc()
        && a.serial() == b.serial()
}
