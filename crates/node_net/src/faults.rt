//! Why a server takes no stream.

use client_conn::Refusal;
use route_session::SessionFault;
use std::alloc::AllocError;
use subj::Failure;

/// Why a stream is not taken. It is closed.
#[derive(Clone, Copy)]
pub enum AddFault {
    /// No client is taken any more: the numbers of connections have come to their limit.
    Client(Refusal),
    /// The route is refused.
    Route(SessionFault),
    /// As many as there are places for have dialed, and are to prove still which servers they are.
    TooManyStrangers,
    /// The route begins with a proof, and no random word was drawn for it.
    NoWord,
    /// There was no memory.
    OutOfMemory,
}

impl From<AllocError> for AddFault {
    fn from(_: AllocError) -> AddFault {
        AddFault::OutOfMemory
    }
}

impl From<Failure<Refusal>> for AddFault {
    fn from(failure: Failure<Refusal>) -> AddFault {
        match failure {
            Failure::Refused(refusal) => AddFault::Client(refusal),
            Failure::OutOfMemory => AddFault::OutOfMemory,
        }
    }
}

impl From<Failure<SessionFault>> for AddFault {
    fn from(failure: Failure<SessionFault>) -> AddFault {
        match failure {
            Failure::Refused(fault) => AddFault::Route(fault),
            Failure::OutOfMemory => AddFault::OutOfMemory,
        }
    }
}
