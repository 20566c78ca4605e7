//! Values hold only what can be spelt. The calls do nothing: their contracts say this of any value.

ghost use Rattle.std.specs.Prelude.{◌≡◌, None};
ghost use Rattle.std.specs.Option.{option_copied};
ghost use Rattle.subj.specs.Names.{node_name_fault};
ghost use Rattle.route_values.specs.Valid.{IsReply, IsMessage, IsBody, IsIncarnation, IsFrame, IsInfo, IsConnect, IsRouteFrame, AreRouteFrames};

use crate::bodies::Body;
use crate::connect::RouteConnect;
use crate::frames::{Numbered, RouteFrame};
use crate::info::RouteInfo;
use crate::snapshots::key_holds_names;
use subj::{Incarnation, Message, NodeId, QueueNames, Reply};

fn is_node_name(name: NodeId)
    ensures { node_name_fault name ≡ None }
{
    let _bytes = name.bytes();
}

fn is_incarnation(inc: Incarnation)
    ensures { IsIncarnation inc }
{
    let _number = inc.get();
}

fn is_reply(reply: Option<&Reply>)
    ensures { IsReply (option_copied reply.entry) }
{
    if let Some(reply) = reply {
        let _bytes = reply.bytes();
    }
}

#[tactic(auto, using(crate::proofs::Values::names_from_all))]
fn is_message(message: &Message, queues: &QueueNames)
    ensures { IsMessage message.now queues.now }
{
    let _subject = message.subject().bytes();
    is_reply(message.reply());
    let _headers = message.headers();
    let _whole = message.whole();
    let _names = queues.as_slice();
}

fn is_body(body: &Body)
    ensures { IsBody body.now }
{
    match body {
        Body::Plus(weighted) => {
            let _key = weighted.key();
            let _weight = weighted.weight();
        }
        Body::Minus(key) => key_holds_names(key),
        Body::Snapshot(keys) => {
            let _keys = keys.as_slice();
        }
        Body::Msg { message, queues } => is_message(message, queues),
    }
}

fn is_frame(frame: &Numbered)
    ensures { IsFrame frame.now }
{
    is_node_name(frame.from());
    is_incarnation(frame.inc());
    is_node_name(frame.to());
    is_incarnation(frame.to_inc());
    let _number = frame.number();
    is_body(frame.body());
}

fn is_info(info: &RouteInfo)
    ensures { IsInfo info.now }
{
    is_node_name(info.server_name());
    is_incarnation(info.inc());
}

fn is_connect(connect: &RouteConnect)
    ensures { IsConnect connect.now }
{
    is_node_name(connect.server_name());
    is_incarnation(connect.inc());
    is_node_name(connect.to());
    is_incarnation(connect.to_inc());
    let _serial = connect.serial();
}

impl RouteFrame {
    /// Any frame holds only what can be spelt: each name is one, each number is in its range, and each
    /// list is in order and within its limit. The call does nothing.
    pub fn can_be_spelt(&self)
        ensures { IsRouteFrame self.now }
    {
        match self {
            RouteFrame::Info(info) => is_info(info),
            RouteFrame::Connect(connect) => is_connect(connect),
            RouteFrame::Numbered(frame) => is_frame(frame),
        }
    }

    /// Any frames hold only what can be spelt. The call walks over them, and changes nothing.
    pub fn all_can_be_spelt(frames: &[RouteFrame])
        ensures { AreRouteFrames frames.now }
    {
        let mut frames = frames;
        while let Some((frame, others)) = frames.split_first() {
            frame.can_be_spelt();
            frames = others;
        }
    }
}
