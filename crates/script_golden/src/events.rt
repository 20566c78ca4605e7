//! Events of a server. Connections, shards, sessions and indices are named by their numbers, and peers by their places. A server in one of
//! its incarnations is written `n2/7`.
//!
//! ```text
//! attach SHARD   begin SHARD   claim SHARD|INDEX   end SHARD   drop_job SHARD   collect SHARD
//! subscribe CONN|PATTERN|QUEUE|SID   unsubscribe CONN|SID|MAX   reply CONN   headers CONN|ON   shut CONN   detach CONN   take CONN|COUNT
//! publish CONN|SUBJECT|PAYLOAD|WORD|BLOCK   publish_no_echo CONN|SUBJECT|PAYLOAD|WORD|BLOCK
//! dial PEER   accept   cut SESSION   take_frames PEER|COUNT
//! info SESSION|FROM   connect SESSION|FROM|TO|SERIAL
//! message FROM|TO|NUMBER|SUBJECT|PAYLOAD|QUEUES|BLOCK   plus FROM|TO|NUMBER|PATTERN|QUEUE|WEIGHT
//! minus FROM|TO|NUMBER|PATTERN|QUEUE   no_interest FROM|TO|NUMBER
//! ```
//!
//! A queue name, a maximum or a header block that is empty is none. A connection takes headers where `on` stands, and none with `off`. The word
//! decides which server serves a queue name. The last two lines are frames of another server.

use client_frames::{ErrText, ReplyFrame};
use golden::{Life, Words, key_of, message_with, number, queues_of, sid_of};
use node_law::{ConnEvent, NodeEvent, OwnEvent, ShardWork};
use route_session::SessionId;
use route_values::{Body, Numbered, RouteConnect, RouteInfo, SnapshotKeys, WeightedKey};
use std::alloc::Global;
use subj::{ConnId, Pub};

/// The number that a word is.
pub fn count(word: &str) -> u64 {
    if word == "last" {
        u64::MAX
    } else {
        number(word)
    }
}

/// The place of the server of this name.
pub fn place_of(name: &str) -> Option<usize> {
    match name {
        "n1" => Some(0),
        "n2" => Some(1),
        "n3" => Some(2),
        _ => None,
    }
}

/// The server and its incarnation, with `/` between them.
fn life_of(word: &str) -> Option<Life> {
    let (name, inc) = word.split_once('/')?;
    golden::life_of(name, count(inc))
}

/// A message for these queue names, with blanks between them.
fn message(alloc: Global, words: &Words<'_>) -> Option<Body> {
    let message = message_with(alloc, words.at(3), "", words.at(6), words.at(4))?;
    let queues = queues_of(alloc, words.at(5))??;
    Some(Body::Msg { message, queues })
}

/// A key is counted with this weight from now on.
fn plus(alloc: Global, words: &Words<'_>) -> Option<Body> {
    let key = key_of(alloc, words.at(3), words.at(4))?;
    let key = WeightedKey::new(key, count(words.at(5)))?;
    Some(Body::Plus(key))
}

/// A key is gone.
fn minus(alloc: Global, words: &Words<'_>) -> Option<Body> {
    let key = key_of(alloc, words.at(3), words.at(4))?;
    Some(Body::Minus(key))
}

/// What a frame of this name carries.
fn body_of(alloc: Global, name: &str, words: &Words<'_>) -> Option<Body> {
    match name {
        "message" => message(alloc, words),
        "plus" => plus(alloc, words),
        "minus" => minus(alloc, words),
        "no_interest" => Some(Body::Snapshot(SnapshotKeys::new(alloc))),
        _ => None,
    }
}

/// A numbered frame of one server to another.
fn frame_event(alloc: Global, name: &str, words: &Words<'_>) -> Option<NodeEvent> {
    let from = life_of(words.at(0))?;
    let to = life_of(words.at(1))?;
    let number = count(words.at(2));
    let body = body_of(alloc, name, words)?;
    let frame = Numbered::new(from.name, from.inc, to.name, to.inc, number, body)?;
    Some(NodeEvent::Receive(frame))
}

/// The session of the first word.
fn session_of(words: &Words<'_>) -> SessionId {
    SessionId::new(count(words.at(0)))
}

/// The `INFO` of a server on a session.
fn info(words: &Words<'_>) -> Option<NodeEvent> {
    let from = life_of(words.at(1))?;
    Some(NodeEvent::OnInfo {
        session: session_of(words),
        info: RouteInfo::new(from.name, from.inc),
    })
}

/// The `CONNECT` of a server to another one on a session.
fn connect(words: &Words<'_>) -> Option<NodeEvent> {
    let from = life_of(words.at(1))?;
    let to = life_of(words.at(2))?;
    let serial = count(words.at(3));
    let connect = RouteConnect::new(from.name, from.inc, to.name, to.inc, serial)?;
    let session = session_of(words);
    Some(NodeEvent::OnConnect { session, connect })
}

/// What a shard is asked to do, where it is.
fn work_of(name: &str, index: u64) -> Option<ShardWork> {
    match name {
        "attach" => Some(ShardWork::Attach),
        "begin" => Some(ShardWork::Begin),
        "claim" => Some(ShardWork::Claim { index }),
        "end" => Some(ShardWork::End),
        "drop_job" => Some(ShardWork::DropJob),
        "drain_shard" => Some(ShardWork::DrainShard),
        _ => None,
    }
}

/// A subscription is opened.
fn subscribe(alloc: Global, words: &Words<'_>) -> Option<ConnEvent> {
    let sid = sid_of(alloc, words.at(3))?;
    match key_of(alloc, words.at(1), words.at(2)) {
        Some(key) => Some(ConnEvent::Subscribe { key, sid }),
        None => None,
    }
}

/// A subscription ends, at once or after so many messages.
fn unsubscribe(alloc: Global, words: &Words<'_>) -> Option<ConnEvent> {
    let max = words.at(2);
    let max = if max.is_empty() {
        None
    } else {
        Some(count(max))
    };
    let sid = sid_of(alloc, words.at(1))?;
    Some(ConnEvent::Unsubscribe { sid, max })
}

/// What is asked for a connection.
fn asked(alloc: Global, name: &str, words: &Words<'_>) -> Option<ConnEvent> {
    match name {
        "subscribe" => subscribe(alloc, words),
        "unsubscribe" => unsubscribe(alloc, words),
        "reply" => Some(ConnEvent::Reply {
            frame: ReplyFrame::Pong,
        }),
        "headers" => Some(ConnEvent::SetHeaders {
            on: words.at(1) == "on",
        }),
        "shut" => Some(ConnEvent::Shut {
            text: ErrText::ParserError,
        }),
        "detach" => Some(ConnEvent::Detach),
        "take" => Some(ConnEvent::Take {
            count: count(words.at(1)) as usize,
        }),
        _ => None,
    }
}

/// What is asked for the connection of the first word.
fn conn_event(alloc: Global, name: &str, words: &Words<'_>) -> Option<NodeEvent> {
    let event = asked(alloc, name, words)?;
    Some(NodeEvent::of_conn(ConnId::new(count(words.at(0))), event))
}

/// A publication, and whether its client is to get it too.
fn publication(alloc: Global, words: &Words<'_>, echo: bool) -> Option<NodeEvent> {
    let message = message_with(alloc, words.at(1), "", words.at(4), words.at(2))?;
    Some(NodeEvent::Own(OwnEvent::Publish {
        conn: ConnId::new(count(words.at(0))),
        publication: Pub { message, echo },
        word: count(words.at(3)),
    }))
}

/// What is asked of the hub or the sessions, where it is of them.
fn route_event(name: &str, number: u64, count: u64) -> Option<OwnEvent> {
    match name {
        "collect" => Some(OwnEvent::Collect { shard: number }),
        "drain" => Some(OwnEvent::Drain),
        "dial" => Some(OwnEvent::Dial {
            peer: number as usize,
        }),
        "accept" => Some(OwnEvent::Accept),
        "cut" => Some(OwnEvent::CutSession {
            session: SessionId::new(number),
        }),
        "take_frames" => Some(OwnEvent::TakeFrames {
            peer: number as usize,
            count: count as usize,
        }),
        _ => None,
    }
}

/// The event of this name, where only numbers say more of it.
fn event_by_numbers(name: &str, first: u64, second: u64) -> Option<NodeEvent> {
    match work_of(name, second) {
        Some(work) => Some(NodeEvent::at_shard(first, work)),
        None => Some(NodeEvent::Own(route_event(name, first, second)?)),
    }
}

/// The event of this name, where more than numbers say more of it.
fn event_by_words(alloc: Global, name: &str, words: &Words<'_>) -> Option<NodeEvent> {
    match name {
        "publish" => publication(alloc, words, true),
        "publish_no_echo" => publication(alloc, words, false),
        "info" => info(words),
        "connect" => connect(words),
        "message" | "plus" | "minus" | "no_interest" => frame_event(alloc, name, words),
        _ => conn_event(alloc, name, words),
    }
}

/// The event of this name; none where a word names nothing.
pub fn event_of(alloc: Global, name: &str, words: &Words<'_>) -> Option<NodeEvent> {
    match event_by_numbers(name, count(words.at(0)), count(words.at(1))) {
        Some(event) => Some(event),
        None => event_by_words(alloc, name, words),
    }
}
