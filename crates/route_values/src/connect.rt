//! What the dialing side of a route answers.

ghost use Rattle.std.specs.Prelude.{◌≡◌, true};
ghost use Rattle.route_values.specs.Records.{connect_of, is_serial};

use std::marker::Model;
use subj::{Incarnation, MAX_COUNTER, NodeId};

/// What the dialing side of a route answers: who it is, whom it dialed and in which incarnation it
/// takes it to be, and the serial of the dial, 1 to [`MAX_COUNTER`]. (Profile; the operation is that of
/// the NATS documentation, "Cluster Protocol": `CONNECT`.)
#[derive(Clone, Copy, PartialEq, Eq)]
pub struct RouteConnect {
    server_name: NodeId,
    inc: Incarnation,
    to: NodeId,
    to_inc: Incarnation,
    serial: u64,
}

impl Model for RouteConnect {
    ghost use Rattle.std.specs.Prelude.{◌≡◌, true};
    ghost use Rattle.route_values.specs.Records.{Connect, is_serial};

    ghost Value = { Connect };

    ghost view = { λ connect. record {
      server_name = connect.server_name;
      inc = connect.inc;
      to = connect.to;
      to_inc = connect.to_inc;
      serial = connect.serial;
    } };

    ghost invariant = { λ connect. is_serial connect.serial ≡ true };

    ghost inverse = { λ value. record {
      server_name = value.server_name;
      inc = value.inc;
      to = value.to;
      to_inc = value.to_inc;
      serial = value.serial;
    } };
}

impl RouteConnect {
    /// None just where the serial is 0 or above [`MAX_COUNTER`].
    pub fn new(
        server_name: NodeId,
        inc: Incarnation,
        to: NodeId,
        to_inc: Incarnation,
        serial: u64,
    ) -> Option<RouteConnect>
        ensures { result ≡ connect_of server_name inc to to_inc serial }
    {
        if serial < 1 || MAX_COUNTER < serial {
            return None;
        }
        Some(RouteConnect {
            server_name,
            inc,
            to,
            to_inc,
            serial,
        })
    }

    /// The server that dialed.
    pub fn server_name(&self) -> NodeId
        ensures { result ≡ self.now.server_name }
    {
        self.server_name
    }

    /// Its incarnation.
    pub fn inc(&self) -> Incarnation
        ensures { result ≡ self.now.inc }
    {
        self.inc
    }

    /// The server that it dialed.
    pub fn to(&self) -> NodeId
        ensures { result ≡ self.now.to }
    {
        self.to
    }

    /// The incarnation of the dialed server, as the dialing one knows it.
    pub fn to_inc(&self) -> Incarnation
        ensures { result ≡ self.now.to_inc }
    {
        self.to_inc
    }

    /// The serial of the dial.
    pub fn serial(&self) -> u64
        ensures same { result ≡ self.now.serial }
        ensures valid { is_serial self.now.serial ≡ true }
    {
        self.serial
    }
}
