//! What a control line of a client asks for, and what has to come next in its stream.

ghost use Rattle.std.specs.Prelude.{◌≡◌};
ghost use Rattle.client_frames.specs.Streams.{size_awaited, headers_awaited};

use subj::{Pattern, QueueName, Reply, Sid, Subject};

/// What a client has chosen for its connection. (NATS documentation, "Client Protocol": `CONNECT`.)
#[derive(Clone, Copy)]
pub struct Options {
    /// Whether each well-formed command is answered by `+OK`: yes where nothing is said of it.
    pub verbose: bool,
    /// Whether the client's own publications are delivered to its own subscriptions: yes where nothing is said of it.
    pub echo: bool,
    /// Whether header blocks are delivered to the client: no where nothing is said of it.
    pub headers: bool,
}

/// The line of a publication, whose header block and payload follow.
#[derive(Drop)]
pub struct PubHead {
    pub subject: Subject,
    pub reply: Option<Reply>,
    /// The bytes of the header block, where there is one: at most `size`.
    pub headers: Option<u64>,
    /// The bytes of all that follows, up to ten digits; it may be above the limit of a payload.
    pub size: u64,
}

/// What a control line asks for. (NATS documentation, "Client Protocol".)
#[derive(Drop)]
pub enum ClientLine {
    /// `CONNECT`: all options of the connection, of which those before count no more.
    Connect(Options),
    /// `PUB` or `HPUB`, whose payload follows, behind its header block where there is one.
    Pub(PubHead),
    /// `PUB` or `HPUB` with a bad subject or reply: so many bytes follow too and are dropped, and then
    /// `BadSubject` is answered. (Profile.)
    PubBad {
        size: u64,
    },
    /// `SUB`, alone or as a member of a queue group.
    Sub {
        pattern: Pattern,
        queue: Option<QueueName>,
        sid: Sid,
    },
    /// `UNSUB`: at once, or behind the message that makes so many since the subscription was opened.
    Unsub {
        sid: Sid,
        max: Option<u64>,
    },
    /// `PING`, which `PONG` answers.
    Ping,
    /// `PONG`, which nothing answers.
    Pong,
}

/// What has to come next in a client's stream. (NATS documentation, "Client Protocol".)
#[derive(Drop)]
pub enum Awaited {
    /// A control line.
    Line,
    /// The header block and the payload of a publication.
    Payload(PubHead),
    /// The same of a publication with a bad subject or reply, which is dropped.
    LostPayload { size: u64 },
}

impl Awaited {
    /// How many bytes have to come that are no line. None where a line has to.
    pub fn size(&self) -> Option<u64>
        ensures { result ≡ size_awaited self.now }
    {
        match self {
            Awaited::Line => None,
            Awaited::Payload(head) => Some(head.size),
            Awaited::LostPayload { size } => Some(*size),
        }
    }

    /// How many of these bytes are the header block of a publication. None where it has none.
    pub fn headers(&self) -> Option<u64>
        ensures { result ≡ headers_awaited self.now }
    {
        match self {
            Awaited::Payload(head) => head.headers,
            Awaited::Line | Awaited::LostPayload { .. } => None,
        }
    }
}
