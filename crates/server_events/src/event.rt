//! What happens at a server, and why.

use std::io;
use std::net::SocketAddr;
use subj::{ConnId, NodeId};

/// What the system said of a call that failed.
#[derive(Clone, Copy)]
pub struct SystemCause {
    /// The number of its error, where it gave one.
    pub code: Option<i32>,
    /// The kind of its error.
    pub kind: io::ErrorKind,
}

impl SystemCause {
    /// What this error says.
    pub fn of(error: &io::Error) -> SystemCause {
        SystemCause {
            code: error.raw_os_error(),
            kind: error.kind(),
        }
    }
}

/// Who connected to a server.
#[derive(Clone, Copy)]
pub enum Caller {
    /// A client.
    Client,
    /// Another server of the cluster, or who would be one, which came from this address where it is known.
    Server { from: Option<SocketAddr> },
}

/// Why a server closed the connection of a client.
#[derive(Clone, Copy)]
pub enum ClientCause {
    /// More waited for it than a server keeps: it was told 'Slow Consumer'.
    Slow,
    /// It sent what closes a connection: it was told why.
    Refused,
    /// It was to be closed, and did not take its last bytes in time.
    Unread,
    /// There was no memory for what it was owed.
    OutOfMemory,
    /// The system does not tell when its socket is ready.
    Unwatched,
    /// Its server drains, and waits no longer.
    CutOff,
}

/// Why the connection to another server ended.
#[derive(Clone, Copy)]
pub enum PeerCause {
    /// The other end closed it, or it broke.
    Broken,
    /// What came on it is refused.
    Refused,
    /// It took no byte for too long while something waited for it.
    Stalled,
    /// More waited for it than a server keeps, or a change of interest had no room there.
    Full,
    /// There was no memory for what it was owed.
    OutOfMemory,
    /// The system does not tell when its socket is ready.
    Unwatched,
}

/// Why a connection was not taken.
#[derive(Clone, Copy)]
pub enum RefusalCause {
    /// The system did not give it, as where no descriptor is left.
    System(SystemCause),
    /// The numbers of clients' connections are used up.
    NumbersSpent,
    /// So many connections of servers stand that no more is kept.
    TooManyRoutes,
    /// It came from an address that none of the mesh's servers has.
    Stranger,
    /// It did not tell in time which server it is.
    Silent,
    /// As many as there are places for are to prove still which servers they are.
    TooManyStrangers,
    /// It went before it had proved which server it is.
    Left,
    /// It sent something else than the line by which a server begins, or proves which one it is.
    BadGreeting,
    /// It asked for another server.
    OtherServer,
    /// It named itself as none of the other servers.
    UnknownServer,
    /// It did not prove that it has the mesh's secret.
    WrongProof,
    /// It told another name than it had proved.
    OtherName,
    /// No random word was to be had for it.
    NoWord,
    /// There was no memory for it.
    OutOfMemory,
}

/// What happens at a server. Other servers are told by their names, and clients by the numbers that their server told them.
#[derive(Clone, Copy)]
pub enum Event {
    /// Clients and other servers can connect, at these addresses.
    Listening {
        clients: SocketAddr,
        routes: SocketAddr,
    },
    /// Another server is reached.
    PeerUp {
        peer: NodeId,
    },
    /// Another server that was reached is so no more.
    PeerDown {
        peer: NodeId,
        cause: PeerCause,
    },
    /// The name of another server's host has no address: it is looked up again. Told once, until it has one.
    PeerUnresolved {
        peer: NodeId,
    },
    /// The name of another server's host has this address, beside others maybe, for the first time or again or in place of what it had,
    /// after so many look-ups without one.
    PeerResolved {
        peer: NodeId,
        address: SocketAddr,
        failures: u64,
    },
    /// A client was taken.
    ClientCame {
        client: ConnId,
    },
    /// A client went of its own accord, or since its server drains and nothing waited for it.
    ClientGone {
        client: ConnId,
    },
    /// The server closed the connection of a client, for whom so many bytes waited.
    ClientClosed {
        client: ConnId,
        cause: ClientCause,
        waiting: u64,
    },
    /// A connection was not taken.
    ConnectionRefused {
        caller: Caller,
        cause: RefusalCause,
    },
    /// The connection to another server, which was dialed, was not taken.
    PeerRefused {
        peer: NodeId,
        cause: RefusalCause,
    },
    /// There was no memory for something, which is tried again.
    OutOfMemory,
    /// The server was asked to drain. It takes no new clients, has no interest for other servers any more, and closes its clients once
    /// nothing waits for them, at the latest after so many seconds.
    DrainAsked {
        seconds: u64,
    },
    /// The server has drained: all its clients have got what waited for them, and are gone.
    Drained,
    /// The server has drained, and so many of its clients were closed before nothing waited for them.
    DrainedLate {
        clients: u64,
    },
    /// The server ends, since its mesh does.
    Stopped,
    /// The server cannot go on.
    Failed {
        cause: SystemCause,
    },
}
