//! The limits of a server's connections and of its loop, each with its unit. All of them are this project's profile;
//! `docs/OPERATING.md` says what comes of them.

use subj::{OUTBOX_BYTES, OUTBOX_ENTRIES, READ_BYTES};

/// How long a client has for its last bytes once it was shut, or sends nothing any more, in milliseconds: as long as
/// nats-server waits for a write.
pub(crate) const LAST_BYTES: u64 = 10_000;

/// How long a route may take no byte while something waits for it, in milliseconds. It is cut then.
pub(crate) const ROUTE_STALL: u64 = 10_000;

/// How long a drain may take where nothing else is said, in seconds.
pub(crate) const DRAIN_SECONDS: u64 = 30;

/// How long a server that drains goes on as before once it has told the other servers, in milliseconds: what they sent before they heard it
/// comes meanwhile.
pub(crate) const DRAIN_PAUSE: u64 = 500;

/// The most bytes of an operator's line, with its end.
pub(crate) const CONTROL_LINE: usize = 64;

/// The most connections of operators that are kept while their lines are not whole.
pub(crate) const CONTROL_LINKS: usize = 8;

/// Behind how many seconds in which nothing came on a route the system asks its other end whether it is there still, and how many pass between
/// two such asks.
pub(crate) const ASKED_EVERY: u32 = 1;

/// How long the other end of a route may leave unanswered what was sent to it, or take no byte of it, in milliseconds, counted from when TCP has
/// sent it again: the system ends the route then. So a route that was cut off is dialed anew, and does not wait for TCP, whose pauses before it
/// sends again double each time. Of two asks one may be lost: it is more than twice [`ASKED_EVERY`].
pub(crate) const UNANSWERED: u32 = 2_200;

/// How long it may take until the connection to a server that is dialed stands, in milliseconds: longer than the way to it and back takes by a
/// satellite. It is dialed anew then: TCP would try again after one second, three and seven.
pub(crate) const DIAL: u64 = 700;

/// How long the session of a route may take to be complete, in milliseconds, once its connection stands.
pub(crate) const GREETING: u64 = 5_000;

/// The most connections that others have dialed and whose other ends are to prove still which servers they are, where the mesh has a secret.
pub(crate) const STRANGERS: usize = 16;

/// How long each of these keeps its place, in milliseconds, where all places are taken and one more dials: a server that is far away needs one
/// round trip to prove itself. Whoever floods the port can take as many places in that time as there are, and no more.
pub(crate) const STRANGER_STAY: u64 = 100;

/// The first pause between two dials of one server, in milliseconds.
pub(crate) const FIRST_PAUSE: u64 = 25;

/// The longest pause between two dials of one server, in milliseconds: no longer than one that nobody answers takes ([`DIAL`]). A machine whose link
/// is joined may look for its neighbours' addresses for a second more, and then answers none of what came meanwhile.
pub(crate) const LAST_PAUSE: u64 = 700;

/// For how long a server was reached that is dialed at once where it is lost, in milliseconds.
pub(crate) const STOOD: u64 = 1_000;

/// How long to wait, in milliseconds, before something is tried again for which there was no memory, or no
/// descriptor.
pub(crate) const RETRY: u64 = 10;

/// How long nothing was read of a connection, and nothing written to it, before its buffers are given back, in milliseconds.
pub(crate) const IDLE: u64 = 1_000;

/// To what multiple of milliseconds that time is rounded up.
pub(crate) const IDLE_STEP: u64 = IDLE / 4;

/// Behind how many bytes that went either way the buffers of a connection are large.
pub(crate) const IDLE_BYTES: usize = 1_024;

/// How many bytes are read at once of a connection that has just come. A connection that sends more is read
/// in greater parts, so that one that sends little has a small buffer.
pub(crate) const FIRST_READ: usize = 512;

/// How many times as many bytes are read at once behind a read that gave as many as it may.
pub(crate) const READ_GROWTH: usize = 8;

/// The most bytes of a buffer for what was taken for clients that stays while connections rest. A client's outbox may get the buffer
/// in exchange for its own, and lets a large one go.
pub(crate) const KEPT_BYTES: usize = 16_384;

/// The same while connections are busy: there is room for two of the largest messages. Each server has two such buffers.
pub(crate) const BUSY_BYTES: usize = 2 * 1_048_576 + 16_384;

/// How many bytes are taken under one hold of a shard's lock, at least, before they are written.
pub(crate) const TAKEN_AT_ONCE: usize = 1_048_576;

/// The most bytes that are kept for another server whose stream does not take them: a route for which as many wait is cut. They
/// are twice as many as nats-server keeps for a route.
pub(crate) const PEER_BACKLOG: usize = 134_217_728;

/// How many frames are taken for another server at once.
pub(crate) const FRAMES: usize = 64;

/// The most asks that are answered under one hold of a shard's lock: a quarter of what an outbox has room for, and of
/// what may wait for another server.
pub(crate) const SHARD_RUN: u64 = 256;

/// How often in a row frames are taken for another server and put into its mail: for as many as have room.
pub(crate) const POSTS: usize = 16;

/// How often a publication that finds no room is tried, while the loop works its own shards, before its connection is held until a shard has finished a
/// turn: where a server has several loops.
pub(crate) const TRIES: u32 = 300;

/// The most connections that are accepted in a turn.
pub(crate) const ACCEPTS: usize = 256;

/// The most events that are told of in a turn.
pub(crate) const EVENTS: usize = 1_024;

/// How often the loop looks whether a socket is ready before it waits, where something came in its last turn: for some 20 to 40 microseconds. A
/// client that asks again as soon as it was answered is heard sooner then than the system would wake the loop. An idle server never looks.
pub(crate) const LOOKS: u32 = 64;

/// After a turn in which more bytes came than this the loop waits without a look. Whoever sends so much does not wait for an answer, and sends on
/// while the loop sleeps; looks would only take time from the system, which has to take in what is sent.
pub(crate) const LOOK_BYTES: usize = READ_BYTES / 4;

/// After how many bytes of header blocks and payloads what waits for clients is taken before more is read: a client with few
/// subscriptions has room for several times as much.
pub(crate) const TAKEN_EARLY: usize = OUTBOX_BYTES / 8;

/// As how many bytes a message counts beside its header block and payload: so a quarter of the messages that an outbox has
/// room for come to [`TAKEN_EARLY`].
pub(crate) const MESSAGE_COST: usize = TAKEN_EARLY / (OUTBOX_ENTRIES / 4);
