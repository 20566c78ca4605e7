//! What a server did.

ghost use Rattle.std.specs.Prelude.{◌≡◌, []};
ghost use Rattle.node_core.specs.InCode.{answer_of};
ghost use Rattle.node_core.specs.Outcome.{did_of};

use crate::answers::Answer;
use route_values::RouteFrame;
use shard_core::Placed;
use std::alloc::Global;
use subj::{ConnId, SubId};

/// What a server did: its answer, with copies of what it put, and what closed. (Profile.)
#[derive(Drop)]
pub struct Did {
    /// What it answers.
    pub answer: Answer,
    /// The entries put into outboxes of connections, messages and lines, last lines too, in order, each
    /// with its connection.
    pub entries: Vec<Placed>,
    /// The frames put for peers, or to be sent on a session, in order.
    pub frames: Vec<RouteFrame>,
    /// The connections shut, in order; one that is gone is not shut.
    pub shut: Vec<ConnId>,
    /// The subscriptions closed, in order.
    pub ended: Vec<SubId>,
}

impl Did {
    /// Of an event for which a shard puts these entries, shuts these connections, and closes these
    /// subscriptions. Takes no memory.
    pub(crate) fn of_shard(
        alloc: Global,
        answer: Answer,
        entries: Vec<Placed>,
        shut: Vec<ConnId>,
        ended: Vec<SubId>,
    ) -> Did
        ensures { did_of result ≡ record {
          answer = answer_of answer;
          entries = entries.items;
          frames = [];
          shut = shut.items;
          ended = ended.items;
        } }
    {
        Did {
            answer,
            entries,
            frames: Vec::new(alloc),
            shut,
            ended,
        }
    }

    /// Of an event for which nothing is put and nothing closes. Takes no memory.
    pub(crate) fn answer_alone(alloc: Global, answer: Answer) -> Did
        ensures { did_of result ≡ record {
          answer = answer_of answer;
          entries = [];
          frames = [];
          shut = [];
          ended = [];
        } }
    {
        Did::of_frames(alloc, answer, Vec::new(alloc))
    }

    /// Of an event for which these frames are put or sent, and nothing closes. Takes no memory.
    pub(crate) fn of_frames(alloc: Global, answer: Answer, frames: Vec<RouteFrame>) -> Did
        ensures { did_of result ≡ record {
          answer = answer_of answer;
          entries = [];
          frames = frames.items;
          shut = [];
          ended = [];
        } }
    {
        Did {
            answer,
            entries: Vec::new(alloc),
            frames,
            shut: Vec::new(alloc),
            ended: Vec::new(alloc),
        }
    }
}
