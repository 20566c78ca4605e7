//! How a line is written.

ghost use Rattle.std.specs.Prelude.{◌≡◌};
ghost use Rattle.event_log.specs.Lines.{form_text};
ghost use Rattle.server_events.specs.Kinds.{kind_of, level_of};

use crate::backlog::Line;
use jiff::Timestamp;
use server_events::{
    Caller, ClientCause, Event, EventKind, Level, PeerCause, RefusalCause, SystemCause,
};
use std::fmt::{Display, Formatter, Write};
use std::net::SocketAddr;
use std::{fmt, io};
use subj::{ConnId, NodeId};

/// What stands in place of a server's name where a line is about all servers of the process.
pub const PROCESS: &str = "mesh";

/// A line as it is written: when, how grave, at which server and what, with a blank between each two.
#[derive(Drop)]
pub struct Form<'a, T, W> {
    pub stamp: T,
    pub level: Level,
    pub server: &'a str,
    pub words: W,
}

impl<T: Display, W: Display> Display for Form<'_, T, W> {
    ghost output = { λ form. form_text T.output W.output form };

    fn fmt<O: Write>(&self, f: &mut Formatter<O>) -> fmt::Result {
        write!(
            f,
            "{} {} {} {}",
            self.stamp, self.level, self.server, self.words
        )
    }
}

/// A time, in milliseconds since 1970, written in UTC as RFC 3339 has it: `2026-11-26T21:50:09.123Z`. One beyond the year 9999 is
/// written as its number.
#[derive(Clone, Copy, Drop)]
pub struct Stamp(pub u64);

impl Display for Stamp {
    fn fmt<W: Write>(&self, f: &mut Formatter<W>) -> fmt::Result {
        let Stamp(at) = *self;
        match Timestamp::from_millisecond(at.min(i64::MAX as u64) as i64) {
            Ok(time) => write!(f, "{time:.3}"),
            Err(_) => write!(f, "{at}"),
        }
    }
}

/// What the system said, in its own words where it gave a number.
#[derive(Clone, Copy)]
struct SystemText(SystemCause);

impl Display for SystemText {
    fn fmt<W: Write>(&self, f: &mut Formatter<W>) -> fmt::Result {
        match self.0.code {
            Some(code) => write!(f, "{}", io::Error::from_raw_os_error(code)),
            None => write!(f, "{}", self.0.kind),
        }
    }
}

fn client_cause(cause: ClientCause) -> &'static str {
    match cause {
        ClientCause::Slow => "slow consumer",
        ClientCause::Refused => "what it sent is refused",
        ClientCause::Unread => "it did not take its last bytes in time",
        ClientCause::OutOfMemory => "out of memory",
        ClientCause::Unwatched => "its socket cannot be watched",
        ClientCause::CutOff => "its server drains and waits no longer",
    }
}

fn peer_cause(cause: PeerCause) -> &'static str {
    match cause {
        PeerCause::Broken => "the connection broke",
        PeerCause::Refused => "what it sent is refused",
        PeerCause::Stalled => "it took nothing while something waited for it",
        PeerCause::Full => "more waited for it than is kept",
        PeerCause::OutOfMemory => "out of memory",
        PeerCause::Unwatched => "its socket cannot be watched",
    }
}

/// Who connected, in words.
#[derive(Clone, Copy, Drop)]
struct CallerText(Caller);

impl Display for CallerText {
    fn fmt<W: Write>(&self, f: &mut Formatter<W>) -> fmt::Result {
        match self.0 {
            Caller::Client => f.write_str("a client"),
            Caller::Server { from: None } => f.write_str("a server"),
            Caller::Server {
                from: Some(address),
            } => write!(f, "a server from {address}"),
        }
    }
}

fn refusal_cause(cause: RefusalCause) -> &'static str {
    match cause {
        RefusalCause::System(_) => "the system",
        RefusalCause::NumbersSpent => "the numbers of clients are used up",
        RefusalCause::TooManyRoutes => "too many connections of servers",
        RefusalCause::Stranger => "it came from an address of no server",
        RefusalCause::Silent => "it did not tell in time who it is",
        RefusalCause::TooManyStrangers => "too many others are to prove still who they are",
        RefusalCause::Left => "it went before it had proved who it is",
        RefusalCause::BadGreeting => "it did not greet as a server with a secret does",
        RefusalCause::OtherServer => "it asked for another server",
        RefusalCause::UnknownServer => "it named itself as none of the other servers",
        RefusalCause::WrongProof => "it did not prove that it has the secret",
        RefusalCause::OtherName => "it told another name than it had proved",
        RefusalCause::NoWord => "no random word was to be had",
        RefusalCause::OutOfMemory => "out of memory",
    }
}

fn write_refusal<W: Write, D: Display + Drop>(
    f: &mut Formatter<W>,
    who: D,
    cause: RefusalCause,
) -> fmt::Result {
    match cause {
        RefusalCause::System(cause) => write!(f, "{who} is refused: {}", SystemText(cause)),
        _ => write!(f, "{who} is refused: {}", refusal_cause(cause)),
    }
}

fn write_closed<W: Write>(
    f: &mut Formatter<W>,
    client: ConnId,
    cause: ClientCause,
    waiting: u64,
) -> fmt::Result {
    let (client, cause) = (client.get(), client_cause(cause));
    write!(
        f,
        "client {client} is closed: {cause}, {waiting} bytes wait for it"
    )
}

fn write_down<W: Write>(f: &mut Formatter<W>, peer: NodeId, cause: PeerCause) -> fmt::Result {
    let cause = peer_cause(cause);
    write!(f, "{} is not reached any more: {cause}", peer.text())
}

fn write_unresolved<W: Write>(f: &mut Formatter<W>, peer: NodeId) -> fmt::Result {
    write!(
        f,
        "the name of {}'s host has no address: it is looked up again",
        peer.text()
    )
}

fn write_resolved<W: Write>(
    f: &mut Formatter<W>,
    peer: NodeId,
    address: SocketAddr,
    failures: u64,
) -> fmt::Result {
    write!(f, "{} is at {address}", peer.text())?;
    if failures > 0 {
        write!(f, ", after {failures} look-ups without an address")?;
    }
    Ok(())
}

/// What happened, in words.
#[derive(Clone, Copy, Drop)]
pub struct EventText(pub Event);

impl Display for EventText {
    fn fmt<W: Write>(&self, f: &mut Formatter<W>) -> fmt::Result {
        match self.0 {
            Event::Listening { clients, routes } => write!(
                f,
                "listens at {clients} for clients and at {routes} for servers"
            ),
            Event::PeerUp { peer } => write!(f, "{} is reached", peer.text()),
            Event::PeerDown { peer, cause } => write_down(f, peer, cause),
            Event::ClientCame { client } => write!(f, "client {} came", client.get()),
            Event::ClientGone { client } => write!(f, "client {} went", client.get()),
            Event::ClientClosed {
                client,
                cause,
                waiting,
            } => write_closed(f, client, cause, waiting),
            Event::ConnectionRefused { caller, cause } => {
                write_refusal(f, CallerText(caller), cause)
            }
            Event::PeerRefused { peer, cause } => write_refusal(f, peer.text(), cause),
            Event::OutOfMemory => f.write_str(
                "out of memory: what could not be done is tried again",
            ),
            Event::DrainAsked { seconds } => write!(f, "drains, for at most {seconds} seconds"),
            Event::Drained => f.write_str("has drained"),
            Event::DrainedLate { clients } => write!(
                f,
                "has drained too late: {clients} clients were cut off"
            ),
            Event::Stopped => f.write_str("stops"),
            Event::Failed { cause } => write!(f, "cannot go on: {}", SystemText(cause)),
            Event::PeerUnresolved { peer } => write_unresolved(f, peer),
            Event::PeerResolved {
                peer,
                address,
                failures,
            } => write_resolved(f, peer, address, failures),
        }
    }
}

/// Of which events it is said how many lines were held back.
fn kind_text(kind: EventKind) -> &'static str {
    match kind {
        EventKind::Listening => "servers that listen",
        EventKind::PeerUp => "servers that are reached",
        EventKind::PeerDown => "servers that are not reached any more",
        EventKind::ClientCame => "clients that came",
        EventKind::ClientGone => "clients that went",
        EventKind::ClientClosed => "clients that are closed",
        EventKind::ConnectionRefused => "connections that are refused",
        EventKind::OutOfMemory => "want of memory",
        EventKind::DrainAsked => "servers that drain",
        EventKind::Drained => "servers that have drained",
        EventKind::DrainedLate => "servers that have drained too late",
        EventKind::Stopped => "servers that stop",
        EventKind::Failed => "servers that cannot go on",
        EventKind::PeerUnresolved => "names without an address",
        EventKind::PeerResolved => "names that have an address",
    }
}

/// How many lines of a kind were held back, in words.
#[derive(Clone, Copy, Drop)]
pub struct CountText {
    pub kind: EventKind,
    pub count: u64,
}

impl Display for CountText {
    fn fmt<W: Write>(&self, f: &mut Formatter<W>) -> fmt::Result {
        write!(
            f,
            "{}: {} lines held back",
            kind_text(self.kind),
            self.count
        )
    }
}

/// How many lines were lost, in words.
#[derive(Clone, Copy, Drop)]
pub struct LostText {
    pub count: u64,
}

impl Display for LostText {
    fn fmt<W: Write>(&self, f: &mut Formatter<W>) -> fmt::Result {
        write!(f, "{} lines lost", self.count)
    }
}

impl Line {
    /// As it is written.
    pub fn form(&self) -> Form<'_, Stamp, EventText>
        ensures stamp { result.stamp.0 ≡ self.now.at }
        ensures level { result.level ≡ level_of (kind_of self.now.event) }
        ensures server { result.server.now ≡ self.now.server }
        ensures words { result.words.0 ≡ self.now.event }
    {
        Form {
            stamp: Stamp(self.at),
            level: self.event.kind().level(),
            server: self.server.text(),
            words: EventText(self.event),
        }
    }
}

/// The line that tells how many of a kind were held back, at this time in milliseconds since 1970.
pub fn count_form(at: u64, kind: EventKind, count: u64) -> Form<'static, Stamp, CountText>
    ensures stamp { result.stamp.0 ≡ at }
    ensures level { result.level ≡ level_of kind }
{
    Form {
        stamp: Stamp(at),
        level: kind.level(),
        server: PROCESS,
        words: CountText { kind, count },
    }
}

/// The line that tells how many lines were lost, at this time in milliseconds since 1970.
pub fn lost_form(at: u64, count: u64) -> Form<'static, Stamp, LostText> {
    Form {
        stamp: Stamp(at),
        level: Level::Warn,
        server: PROCESS,
        words: LostText { count },
    }
}
