//! What is done in a cluster, as scripts say it, and the words that it is said with.

ghost use Rattle.std.specs.Prelude.{◌≡◌, ◌≤◌};
ghost use Rattle.script_form.specs.Acts.{events_of};
ghost use Rattle.script_form.specs.Members.{name_of};
ghost use Rattle.script_form.specs.Words.{verb_of, word_of};

use subj::{ConnId, Incarnation, JOIN_EVENTS, Key, NodeId, Pub, Sid, Subject};

/// What a server does, or is asked to do. (Profile.)
///
/// Connections, shards, sessions and frames are counted from 1, frames in the whole cluster; each number may be
/// any, and a peer's name may be that of no server: what is not there is refused when the script is played.
#[derive(Drop)]
pub enum Act {
    /// The server starts, in an incarnation that it never had.
    Start {
        inc: Incarnation,
    },
    /// The server stops, and forgets all.
    Stop,
    /// A client connects, at the shard.
    Attach {
        shard: u64,
    },
    /// The connection subscribes.
    Sub {
        conn: ConnId,
        key: Key,
        sid: Sid,
    },
    /// The connection ends its subscription of this id, at once or once so many messages were delivered.
    Unsub {
        conn: ConnId,
        sid: Sid,
        max: Option<u64>,
    },
    /// The connection takes headers from now on, or takes none. (NATS documentation, "Client Protocol": `CONNECT`,
    /// `headers`.)
    SetHeaders {
        conn: ConnId,
        on: bool,
    },
    /// The connection goes.
    Detach {
        conn: ConnId,
    },
    /// The connection publishes; the word decides which server serves each queue name.
    Publish {
        conn: ConnId,
        publication: Pub,
        word: u64,
    },
    /// It is told whether the cluster is settled for a publication on the subject. No event: of the server only the name is read.
    Settled {
        subject: Subject,
    },
    /// The connection publishes. Where the cluster was settled for that and had room, the work that is owed of the publication is done, at
    /// every server; the number of events that this takes is known only then, and it counts as one.
    Deliver {
        conn: ConnId,
        publication: Pub,
        word: u64,
    },
    /// The numbered frame of this number is handed to the server.
    Receive {
        frame: u64,
    },
    /// The server counts what was opened and closed at the shard, and tells its peers.
    Collect {
        shard: u64,
    },
    /// The server tells its peers that it has no interest any more.
    Drain,
    /// The shard takes no subscription any more.
    DrainShard {
        shard: u64,
    },
    /// The shard begins the first job that waits.
    Begin {
        shard: u64,
    },
    /// The shard ends the job in hand.
    End {
        shard: u64,
    },
    /// The shard drops the job in hand, or else the first that waits.
    DropJob {
        shard: u64,
    },
    /// The shard claims the queue name of this index of the job in hand, from 0.
    Claim {
        shard: u64,
        index: u64,
    },
    /// The server dials a peer.
    Dial {
        peer: NodeId,
    },
    /// The server accepts a session.
    Accept,
    /// The `INFO` of this number is handed to the server, on the session.
    Info {
        session: u64,
        frame: u64,
    },
    /// The `CONNECT` of this number is handed to the server, on the session.
    Connect {
        session: u64,
        frame: u64,
    },
    /// The server ends the session.
    Cut {
        session: u64,
    },
    /// The first entries that wait for the connection are taken, at most so many.
    TakeEntries {
        conn: ConnId,
        count: u64,
    },
    /// The first frames that wait for the peer are taken, at most so many.
    TakeFrames {
        peer: NodeId,
        count: u64,
    },
    /// The server dials a peer, the peer accepts, and each is handed what the other sends for it: four events,
    /// up to the first that is refused.
    Join {
        peer: NodeId,
    },
}

/// One step of a script: a server, and what it does.
#[derive(Drop)]
pub struct Step {
    /// The name of the server; it may be that of none.
    pub node: NodeId,
    pub act: Act,
}

impl Act {
    /// As how many events it counts against the limit.
    pub(crate) fn events(&self) -> u64
        ensures same { result ≡ events_of self.now }
        ensures few { result ≤ JOIN_EVENTS }
    {
        match self {
            Act::Join { .. } => JOIN_EVENTS,
            _ => 1,
        }
    }
}

/// A member of a script or of a step. (Profile.)
#[derive(Clone, Copy)]
pub enum Member {
    Do,
    Node,
    Inc,
    Conn,
    Shard,
    Pattern,
    Queue,
    Sid,
    Max,
    Subject,
    Reply,
    Headers,
    Payload,
    Echo,
    Word,
    On,
    Frame,
    Session,
    Peer,
    Index,
    Count,
    Nodes,
    Shards,
    Steps,
}

impl Member {
    /// What it is called.
    pub fn name(self) -> &'static str
        ensures { result.now ≡ name_of self }
    {
        match self {
            Member::Do => "do",
            Member::Node => "node",
            Member::Inc => "inc",
            Member::Conn => "conn",
            Member::Shard => "shard",
            Member::Pattern => "pattern",
            Member::Queue => "queue",
            Member::Sid => "sid",
            Member::Max => "max",
            Member::Subject => "subject",
            Member::Reply => "reply",
            Member::Headers => "headers",
            Member::Payload => "payload",
            Member::Echo => "echo",
            Member::Word => "word",
            Member::On => "on",
            Member::Frame => "frame",
            Member::Session => "session",
            Member::Peer => "peer",
            Member::Index => "index",
            Member::Count => "n",
            Member::Nodes => "nodes",
            Member::Shards => "shards",
            Member::Steps => "steps",
        }
    }
}

/// What a step does: its member `do`. (Profile.)
#[derive(Clone, Copy)]
pub(crate) enum Verb {
    Start,
    Stop,
    Attach,
    Sub,
    Unsub,
    Headers,
    Detach,
    Publish,
    Settled,
    Deliver,
    Receive,
    Collect,
    Drain,
    DrainShard,
    Begin,
    End,
    Drop,
    Claim,
    Dial,
    Accept,
    Info,
    Connect,
    Cut,
    Take,
    Join,
}

impl Verb {
    /// All of them.
    const ALL: [Verb; 25] = [
        Verb::Start,
        Verb::Stop,
        Verb::Attach,
        Verb::Sub,
        Verb::Unsub,
        Verb::Headers,
        Verb::Detach,
        Verb::Publish,
        Verb::Settled,
        Verb::Deliver,
        Verb::Receive,
        Verb::Collect,
        Verb::Drain,
        Verb::DrainShard,
        Verb::Begin,
        Verb::End,
        Verb::Drop,
        Verb::Claim,
        Verb::Dial,
        Verb::Accept,
        Verb::Info,
        Verb::Connect,
        Verb::Cut,
        Verb::Take,
        Verb::Join,
    ];

    /// Its word.
    fn word(self) -> &'static str
        ensures { result.now ≡ word_of self }
    {
        match self {
            Verb::Start => "start",
            Verb::Stop => "stop",
            Verb::Attach => "attach",
            Verb::Sub => "sub",
            Verb::Unsub => "unsub",
            Verb::Headers => "headers",
            Verb::Detach => "detach",
            Verb::Publish => "publish",
            Verb::Settled => "settled",
            Verb::Deliver => "deliver",
            Verb::Receive => "receive",
            Verb::Collect => "collect",
            Verb::Drain => "drain",
            Verb::DrainShard => "drainshard",
            Verb::Begin => "begin",
            Verb::End => "end",
            Verb::Drop => "drop",
            Verb::Claim => "claim",
            Verb::Dial => "dial",
            Verb::Accept => "accept",
            Verb::Info => "info",
            Verb::Connect => "connect",
            Verb::Cut => "cut",
            Verb::Take => "take",
            Verb::Join => "join",
        }
    }

    /// The one of this word.
    pub(crate) fn read(word: &str) -> Option<Verb>
        ensures { result ≡ verb_of word.now }
    {
        for verb in &Verb::ALL {
            if word == verb.word() {
                return Some(*verb);
            }
        }
        None
    }
}
