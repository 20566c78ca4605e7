//! Numbered frames, and all frames of a route.

ghost use Rattle.std.specs.Prelude.{◌≡◌, true, IfOk};
ghost use Rattle.route_values.specs.Frames.{frame_of, is_number as numbers};

use crate::bodies::Body;
use crate::connect::RouteConnect;
use crate::info::RouteInfo;
use std::alloc::{AllocError, Global};
use std::marker::Model;
use subj::{Incarnation, MAX_COUNTER, NodeId};

/// Whether a frame that says this may have the number.
fn is_number(number: u64, body: &Body) -> bool
    ensures { result ≡ numbers number body.now }
{
    number <= MAX_COUNTER && (1 <= number || matches!(body, Body::Snapshot(_)))
}

/// A frame of one server's life to one life of another, with a number: that of the publication, or of
/// the interest change. (Profile.)
///
/// The number is 1 to [`MAX_COUNTER`]; that of a snapshot may be 0.
pub struct Numbered {
    from: NodeId,
    inc: Incarnation,
    to: NodeId,
    to_inc: Incarnation,
    number: u64,
    body: Body,
}

/// One call, also for crates above: `docs/PROVING.md`, "What a proof costs".
impl Drop for Numbered {
    fn drop(self) {
        let Numbered {
            from: _,
            inc: _,
            to: _,
            to_inc: _,
            number: _,
            body: _,
        } = self;
    }
}

impl Model for Numbered {
    ghost use Rattle.std.specs.Prelude.{◌≡◌, true};
    ghost use Rattle.route_values.specs.Frames.{Frame, is_number};

    ghost Value = { Frame };

    ghost view = { λ frame. record {
      from = frame.from;
      inc = frame.inc;
      to = frame.to;
      to_inc = frame.to_inc;
      number = frame.number;
      body = frame.body;
    } };

    ghost invariant = { λ frame. is_number frame.number frame.body ≡ true };
}

impl Numbered {
    /// None just where the number is above [`MAX_COUNTER`], or is 0 and the body is no snapshot.
    pub fn new(
        from: NodeId,
        inc: Incarnation,
        to: NodeId,
        to_inc: Incarnation,
        number: u64,
        body: Body,
    ) -> Option<Numbered>
        ensures { result ≡ frame_of from inc to to_inc number body }
    {
        if !is_number(number, &body) {
            return None;
        }
        Some(Numbered {
            from,
            inc,
            to,
            to_inc,
            number,
            body,
        })
    }

    /// The server that sends it.
    pub fn from(&self) -> NodeId
        ensures { result ≡ self.now.from }
    {
        self.from
    }

    /// The incarnation of the server that sends it.
    pub fn inc(&self) -> Incarnation
        ensures { result ≡ self.now.inc }
    {
        self.inc
    }

    /// The server that it is for.
    pub fn to(&self) -> NodeId
        ensures { result ≡ self.now.to }
    {
        self.to
    }

    /// The incarnation of that server that it is for.
    pub fn to_inc(&self) -> Incarnation
        ensures { result ≡ self.now.to_inc }
    {
        self.to_inc
    }

    /// The number of the publication, or of the interest change.
    pub fn number(&self) -> u64
        ensures same { result ≡ self.now.number }
        ensures valid { numbers self.now.number self.now.body ≡ true }
    {
        self.number
    }

    /// What it says.
    pub fn body(&self) -> &Body
        ensures { result.now ≡ self.now.body }
    {
        &self.body
    }

    /// What it says, without a copy.
    pub fn into_body(self) -> Body
        ensures { result ≡ self.body }
    {
        let Numbered {
            from: _,
            inc: _,
            to: _,
            to_inc: _,
            number: _,
            body,
        } = self;
        body
    }

    /// A copy that shares the payload.
    pub fn try_clone(&self, alloc: Global) -> Result<Numbered, AllocError>
        ensures { IfOk result (λ copy. copy ≡ self.now) }
    {
        let body = self.body.try_clone(alloc)?;
        Ok(Numbered {
            from: self.from,
            inc: self.inc,
            to: self.to,
            to_inc: self.to_inc,
            number: self.number,
            body,
        })
    }
}

/// A frame of a route: it can hold nothing that can't be spelt. (Profile.)
#[derive(Drop)]
pub enum RouteFrame {
    /// The first frame of the accepting side.
    Info(RouteInfo),
    /// The answer of the dialing side.
    Connect(RouteConnect),
    /// Any frame behind these.
    Numbered(Numbered),
}

impl RouteFrame {
    /// A copy that shares the payload.
    pub fn try_clone(&self, alloc: Global) -> Result<RouteFrame, AllocError>
        ensures { IfOk result (λ copy. copy ≡ self.now) }
    {
        match self {
            RouteFrame::Info(info) => Ok(RouteFrame::Info(*info)),
            RouteFrame::Connect(connect) => Ok(RouteFrame::Connect(*connect)),
            RouteFrame::Numbered(frame) => Ok(RouteFrame::Numbered(frame.try_clone(alloc)?)),
        }
    }
}
