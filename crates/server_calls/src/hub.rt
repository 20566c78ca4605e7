//! The calls of a hub that is held.

ghost use Rattle.std.specs.Prelude.{ℕ};
ghost use Rattle.subj.specs.declared.messages.Pub.{Pub};
ghost use Rattle.client_calls.specs.declared.outcome.Outcome.{Outcome};
ghost use Rattle.server_calls.specs.Runs.{HasPublishedRun};
ghost use Rattle.server_calls.specs.Routed.{Routed, informed, connected, received, was_cut, took, taken_of};

use client_calls::Outcome;
use hub_core::HubFault;
use publication_runs::LentRun;
use route_session::{SessionFault, SessionId};
use route_values::{Numbered, RouteConnect, RouteInfo};
use std::sync::Wait;
use subj::{ConnId, Failure, Pub};

/// A hub that is held until this is let go: no one else makes a call of it meanwhile.
pub trait HubCalls: Drop {
    // From the first state this connection's publication was made, by this word; it came to this, and left the second.
    ghost published: { Self → ℕ → Pub → ℕ → Outcome → Self → Type 0 };

    // From the first state the jobs were handed to the shards, and left the second.
    ghost pushed: { Self → Self → Type 0 };

    // From the first state a route made this call, which came to what it says, and left the second.
    ghost routed: { Self → Routed → Self → Type 0 };

    /// Publishes for a client; the word decides who serves each queue group. Too many publications under way are
    /// [`Refusal::Busy`](client_conn::Refusal::Busy). [`HubCalls::push_jobs`] hands the job to the shards.
    fn publish(&mut self, conn: ConnId, publication: &Pub, word: u64) -> Outcome
        ensures { published self.old conn publication.now word result self.new };

    /// The same of publications that are lent, one after the other, as far as each owes a job to the server's own shards and nothing
    /// else, whatever its word. No message is made of any. Gives how many were done; nothing was done of the next.
    fn publish_run(&mut self, conn: ConnId, run: &mut LentRun<'_>) -> u64
        ensures { HasPublishedRun published conn result run.old run.new self.old self.new };

    /// Takes a frame of another server. [`HubCalls::push_jobs`] hands the job of a message to the shards.
    fn receive(&mut self, frame: &Numbered) -> Result<(), Failure<HubFault>>
        ensures { routed self.old (received frame.now result) self.new };

    /// Hands the jobs to the shards. Whether some are left to hand over, for want of memory. May wait.
    fn push_jobs<R: Wait>(&mut self, rt: &R) -> bool
        ensures { pushed self.old self.new };

    /// A session with a server that has dialed, and what that is told first.
    fn accept(&mut self) -> Result<(SessionId, RouteInfo), Failure<SessionFault>>;

    /// A session with the server at this place, which was dialed.
    fn dial(&mut self, peer: usize) -> Result<SessionId, Failure<SessionFault>>;

    /// The server that was dialed has told who it is: what it is told back.
    fn info(
        &mut self,
        session: SessionId,
        info: &RouteInfo,
    ) -> Result<RouteConnect, Failure<SessionFault>>
        ensures { routed self.old (informed session info.now result) self.new };

    /// The server that has dialed has told who it is.
    fn connect(
        &mut self,
        session: SessionId,
        connect: &RouteConnect,
    ) -> Result<(), Failure<SessionFault>>
        ensures { routed self.old (connected session connect.now result) self.new };

    /// The session ends, where it stands.
    fn cut(&mut self, session: SessionId)
        ensures { routed self.old (was_cut session) self.new };

    /// Takes the first frames that wait for the server at this place, at most so many.
    fn take_frames(&mut self, peer: usize, count: usize) -> Result<Vec<Numbered>, Failure<HubFault>>
        ensures { routed self.old (took peer count (taken_of (λ frames. frames.items) result))
            self.new };
}
