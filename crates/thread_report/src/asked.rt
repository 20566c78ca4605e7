//! Whether an event is what a step that was written down was asked.

ghost use Rattle.std.specs.Prelude.{◌≡◌, ◌↔◌, IsTrue};
ghost use Rattle.node_law.specs.declared.events.ConnEvent.TheVariants.{Subscribe};
ghost use Rattle.node_law.specs.declared.events.NodeEvent.TheVariants.{Own};
ghost use Rattle.node_law.specs.declared.events.OwnEvent.TheVariants.{AtShard, OfConn};
ghost use Rattle.thread_report.specs.Events.{event_of_hub, event_of_shard};

use node_law::{ConnEvent, NodeEvent, OwnEvent, ShardWork};
use node_threads::ShardEvent;
use subj::{ConnId, Key, Sid};
use thread_node::HubEvent;
use value_equality::{
    is_same_answer, is_same_connect, is_same_frame, is_same_info, is_same_key, is_same_pub,
    is_same_sid,
};

/// Whether it is what the hub or its sessions were asked.
pub(crate) fn is_of_hub(event: &NodeEvent, asked: &HubEvent) -> bool
    ensures { IsTrue result ↔ (event.now ≡ event_of_hub asked.now) }
{
    match event {
        NodeEvent::Own(event) => is_own_of_hub(event, asked),
        NodeEvent::Receive(frame) => match asked {
            HubEvent::Receive { frame: of, .. } => is_same_frame(frame, of),
            _ => false,
        },
        NodeEvent::OnInfo { session, info } => match asked {
            HubEvent::Info {
                session: on,
                info: of,
            } => session == on && is_same_info(info, of),
            _ => false,
        },
        NodeEvent::OnConnect { session, connect } => match asked {
            HubEvent::Connect {
                session: on,
                connect: of,
            } => session == on && is_same_connect(connect, of),
            _ => false,
        },
    }
}

/// The same of what comes from no other server.
fn is_own_of_hub(event: &OwnEvent, asked: &HubEvent) -> bool
    ensures { IsTrue result ↔ (Own event.now ≡ event_of_hub asked.now) }
{
    match (event, asked) {
        (
            OwnEvent::Publish {
                conn,
                publication,
                word,
            },
            HubEvent::Publish {
                conn: by,
                publication: of,
                word: drawn,
                ..
            },
        ) => conn == by && word == drawn && is_same_pub(publication, of),
        (OwnEvent::Collect { shard }, HubEvent::Collect { shard: of, .. }) => shard == of,
        (OwnEvent::Drain, HubEvent::Drain) => true,
        (OwnEvent::Dial { peer }, HubEvent::Dial { peer: of }) => peer == of,
        (OwnEvent::Accept, HubEvent::Accept) => true,
        (OwnEvent::CutSession { session }, HubEvent::Cut { session: of }) => session == of,
        (
            OwnEvent::TakeFrames { peer, count },
            HubEvent::TakeFrames {
                peer: of,
                count: most,
            },
        ) => peer == of && count == most,
        _ => false,
    }
}

/// Whether it is what the shard of this number was asked.
pub(crate) fn is_of_shard(event: &NodeEvent, shard: u64, asked: &ShardEvent) -> bool
    ensures { IsTrue result ↔ (event.now ≡ event_of_shard shard asked.now) }
{
    match event {
        NodeEvent::Own(OwnEvent::OfConn { conn, event }) => is_of_conn(*conn, event, shard, asked),
        NodeEvent::Own(OwnEvent::AtShard { shard: at, work }) => {
            *at == shard && is_work(shard, *work, asked)
        }
        NodeEvent::Own(OwnEvent::Collect { shard: of }) => {
            *of == shard && matches!(asked, ShardEvent::Collect(_))
        }
        _ => false,
    }
}

/// Whether a shard was asked for this subscription of this connection.
fn is_subscribe(conn: ConnId, key: &Key, sid: &Sid, shard: u64, asked: &ShardEvent) -> bool
    ensures { IsTrue result
        ↔ (Own (OfConn conn (Subscribe key.now sid.now)) ≡ event_of_shard shard asked.now) }
{
    match asked {
        ShardEvent::Subscribe {
            conn: by,
            key: to,
            sid: named,
        } => conn == *by && is_same_key(key, to) && is_same_sid(sid, named),
        _ => false,
    }
}

/// Whether it is what a shard was asked for this connection.
fn is_of_conn(conn: ConnId, event: &ConnEvent, shard: u64, asked: &ShardEvent) -> bool
    ensures { IsTrue result ↔ (Own (OfConn conn event.now) ≡ event_of_shard shard asked.now) }
{
    match (event, asked) {
        (ConnEvent::Subscribe { key, sid }, _) => is_subscribe(conn, key, sid, shard, asked),
        (
            ConnEvent::Unsubscribe { sid, max },
            ShardEvent::Unsubscribe {
                conn: by,
                sid: named,
                max: most,
            },
        ) => conn == *by && max == most && is_same_sid(sid, named),
        (
            ConnEvent::Reply { frame },
            ShardEvent::Reply {
                conn: to,
                frame: of,
            },
        ) => { conn == *to && is_same_answer(frame, of) }
        (ConnEvent::SetHeaders { on }, ShardEvent::SetHeaders { conn: of, on: set }) => {
            conn == *of && on == set
        }
        (
            ConnEvent::Shut { text },
            ShardEvent::Shut {
                conn: of,
                text: last,
            },
        ) => { conn == *of && text == last }
        (ConnEvent::Detach, ShardEvent::Detach { conn: of }) => conn == *of,
        (
            ConnEvent::Take { count },
            ShardEvent::Take {
                conn: of,
                count: most,
            },
        ) => { conn == *of && count == most }
        _ => false,
    }
}

/// Whether a shard was asked for this work.
fn is_work(shard: u64, work: ShardWork, asked: &ShardEvent) -> bool
    ensures { IsTrue result ↔ (Own (AtShard shard work) ≡ event_of_shard shard asked.now) }
{
    match (work, asked) {
        (ShardWork::Attach, ShardEvent::Attach)
        | (ShardWork::Begin, ShardEvent::Begin { .. })
        | (ShardWork::End, ShardEvent::End)
        | (ShardWork::DropJob, ShardEvent::DropJob(_))
        | (ShardWork::DrainShard, ShardEvent::Drain) => true,
        (ShardWork::Claim { index }, ShardEvent::Claim { index: of, .. }) => index == *of,
        _ => false,
    }
}
