//! What the accepting side of a route tells first.

ghost use Rattle.std.specs.Prelude.{◌≡◌};

use std::marker::Model;
use subj::{Incarnation, NodeId};

/// What the accepting side of a route tells first: its name and its incarnation. (Profile; the
/// operation is that of the NATS documentation, "Cluster Protocol": `INFO`.)
#[derive(Clone, Copy, PartialEq, Eq)]
pub struct RouteInfo {
    server_name: NodeId,
    inc: Incarnation,
}

impl Model for RouteInfo {
    ghost use Rattle.route_values.specs.Records.{Info};

    ghost Value = { Info };

    ghost view = { λ info. record { server_name = info.server_name; inc = info.inc } };

    ghost inverse = { λ value. record { server_name = value.server_name; inc = value.inc } };
}

impl RouteInfo {
    pub fn new(server_name: NodeId, inc: Incarnation) -> RouteInfo
        ensures { result ≡ record { server_name = server_name; inc = inc } }
    {
        RouteInfo { server_name, inc }
    }

    /// The server that accepted.
    pub fn server_name(&self) -> NodeId
        ensures { result ≡ self.now.server_name }
    {
        self.server_name
    }

    /// Its incarnation.
    pub fn inc(&self) -> Incarnation
        ensures { result ≡ self.now.inc }
    {
        self.inc
    }
}
