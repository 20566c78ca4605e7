//! What a server is asked.

use client_frames::{ErrText, ReplyFrame};
use route_session::SessionId;
use route_values::{Numbered, RouteConnect, RouteInfo};
use subj::{ConnId, Key, Pub, Sid};

/// What is asked for a connection.
#[derive(Drop)]
pub enum ConnEvent {
    /// Opens a subscription to the key, by which id the client calls it. (NATS documentation, "Client
    /// Protocol": `SUB`.)
    Subscribe { key: Key, sid: Sid },
    /// Closes what the client calls so: at once, or once so many messages were delivered since it was
    /// opened. (NATS documentation, "Client Protocol": `UNSUB`.)
    Unsubscribe { sid: Sid, max: Option<u64> },
    /// Puts an answer to the client.
    Reply { frame: ReplyFrame },
    /// Sets whether the connection takes headers from now on. (NATS documentation, "Client Protocol": `CONNECT`,
    /// `headers`.)
    SetHeaders { on: bool },
    /// Shuts the connection: this text is its last line. (Profile.)
    Shut { text: ErrText },
    /// The connection is gone.
    Detach,
    /// Takes the first entries that wait for the client, at most so many.
    Take { count: usize },
}

/// What a shard is asked to do.
#[derive(Clone, Copy, PartialEq, Eq)]
pub enum ShardWork {
    /// Makes a connection.
    Attach,
    /// Begins the first job that waits.
    Begin,
    /// Claims the queue name of this index of the job in hand, from 0.
    Claim { index: u64 },
    /// Ends the job in hand.
    End,
    /// Drops the job in hand, or else the first that waits.
    DropJob,
    /// Takes no subscription any more.
    DrainShard,
}

/// What a server is asked that comes from no other server. (Profile.)
///
/// Numbers of connections and shards are from 1, and peers are named by their places in the cluster, from
/// 0; each may be any number, and one that the server does not have is refused.
#[derive(Drop)]
pub enum OwnEvent {
    /// Of the connection of this number.
    OfConn {
        conn: ConnId,
        event: ConnEvent,
    },
    /// Of the shard of this number.
    AtShard {
        shard: u64,
        work: ShardWork,
    },
    /// A client publishes. Its connection may be gone since. The word decides which server serves each
    /// queue name.
    Publish {
        conn: ConnId,
        publication: Pub,
        word: u64,
    },
    /// The hub takes the deltas of the shard of this number, and tells its peers of them.
    Collect {
        shard: u64,
    },
    /// The hub tells its peers that the server has no interest any more.
    Drain,
    /// Dials the server at this place.
    Dial {
        peer: usize,
    },
    /// Accepts a session that another server dialed.
    Accept,
    /// Ends the session.
    CutSession {
        session: SessionId,
    },
    /// Takes the first frames that wait for the peer at this place, at most so many.
    TakeFrames {
        peer: usize,
        count: usize,
    },
}

/// What a server is asked: by its clients and its own parts, or by a frame of another server. (Profile.)
#[derive(Drop)]
pub enum NodeEvent {
    /// By its own side.
    Own(OwnEvent),
    /// A numbered frame of another server.
    Receive(Numbered),
    /// The `INFO` of the server that was dialed, on this session.
    OnInfo {
        session: SessionId,
        info: RouteInfo,
    },
    /// The `CONNECT` of the server that dialed, on this session.
    OnConnect {
        session: SessionId,
        connect: RouteConnect,
    },
}

impl NodeEvent {
    /// What is asked for a connection.
    pub fn of_conn(conn: ConnId, event: ConnEvent) -> NodeEvent {
        NodeEvent::Own(OwnEvent::OfConn { conn, event })
    }

    /// What a shard is asked to do.
    pub fn at_shard(shard: u64, work: ShardWork) -> NodeEvent {
        NodeEvent::Own(OwnEvent::AtShard { shard, work })
    }
}
