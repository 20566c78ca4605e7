//! Why the sessions refuse.

ghost use Rattle.std.specs.Prelude.{◌≡◌};
ghost use Rattle.route_session.specs.Faults.{session_fault_number};

use crate::session_ids::SessionId;
use thiserror::Error;

/// Why an event of a session is refused. (Profile.)
#[derive(Clone, Copy, Debug, PartialEq, Eq, Error)]
pub enum SessionFault {
    /// A server that is dialed or named is not the one that the session is with, or not another server
    /// of the cluster; or a frame is for another server.
    #[error("the server that is dialed or named is not the one that the session is with")]
    WrongName,
    /// An incarnation is below the greatest seen of its server; or a frame is for another incarnation of
    /// this one.
    #[error("the incarnation is not the one that is awaited, or below the greatest seen")]
    OldIncarnation,
    /// A session with the peer is kept that is as good or better.
    #[error("a session with the peer is kept that is as good or better")]
    Duplicate {
        /// That session.
        kept: SessionId,
    },
    /// The session does not stand, is of the other side, or was completed already.
    #[error("the session does not stand, is of the other side, or was completed already")]
    UnknownSession,
    /// As many sessions stand as may.
    #[error("as many sessions stand as may")]
    TooManySessions,
    /// The numbers of sessions have come to their limit.
    #[error("the numbers of sessions have come to their limit")]
    Spent,
}

impl SessionFault {
    /// The number that the router tells of this refusal.
    pub fn number(self) -> u16
        ensures { result ≡ session_fault_number self }
    {
        match self {
            SessionFault::WrongName => 70,
            SessionFault::OldIncarnation => 71,
            SessionFault::Duplicate { .. } => 72,
            SessionFault::UnknownSession => 73,
            SessionFault::TooManySessions => 74,
            SessionFault::Spent => 75,
        }
    }
}
