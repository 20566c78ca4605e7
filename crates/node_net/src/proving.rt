//! How a server comes to know which server is at the other end of a route, where the mesh has a secret: by that alone.

ghost use Rattle.std.specs.Prelude.{◌≡◌, ◌∷◌, ◌++◌, [], IfNone, IfSome};

use crate::connection::{Cause, Link};
use crate::faults::AddFault;
use crate::handshake::{Handshake, Proving, Said};
use crate::holds::accept;
use crate::limits::{GREETING, STRANGER_STAY, STRANGERS};
use crate::peers::name_at;
use crate::route_link::{RouteLink, Stage};
use crate::server::Server;
use arrayvec::ArrayVec;
use net_streams::Stream;
use peer_proof::{Acceptor, Dialer, FreshWord, Secret, WORD};
use route_session::SessionFault;
use server_calls::ServerCalls;
use server_events::{Event, RefusalCause};
use std::alloc::Global;
use std::net::SocketAddr;
use std::random::RandomSource;
use std::sync::Wait;
use subj::{Failure, ServerIdentity as Life};

/// What a server knows its peers by, where the mesh has a secret.
#[derive(Drop)]
pub(crate) struct Guard {
    secret: Option<Secret>,
    /// The word for the next connection, which nobody was told.
    word: Option<FreshWord>,
    /// The connections that others have dialed and whose other ends are to prove still which servers they are, in the order of their coming. One that
    /// is turned out, and is to be closed, is none of them.
    strangers: ArrayVec<usize, STRANGERS>,
}

impl Guard {
    /// The mesh has no secret.
    pub fn new() -> Guard {
        Guard {
            secret: None,
            word: None,
            strangers: ArrayVec::new(),
        }
    }

    /// The stranger that came first, where all places are taken.
    fn first_of_all(&self) -> Option<usize> {
        if self.strangers.is_full() {
            self.strangers.as_slice().first().copied()
        } else {
            None
        }
    }

    /// The other end of a connection is a stranger, which came last. Where all places were taken, the first one loses its own: gives its connection.
    fn take_stranger(&mut self, key: usize) -> Option<usize>
        ensures room { IfNone result
            (self.new.strangers.items ≡ self.old.strangers.items ++ key ∷ []) }
        ensures full { IfSome result (λ first.
            first ∷ self.new.strangers.items ≡ self.old.strangers.items ++ key ∷ []) }
    {
        let first = if self.strangers.is_full() {
            Some(self.strangers.remove(0))
        } else {
            None
        };
        self.strangers.push(key);
        first
    }

    /// The other end of a connection is no stranger any more, where it was one.
    pub fn lose_stranger(&mut self, key: usize) {
        self.strangers.retain(|stranger| *stranger != key);
    }

    /// Draws the word for the next connection at random. There is none where the system gives none.
    pub fn draw_word<R: RandomSource>(&mut self, rt: &R) {
        let mut word = [0; WORD];
        if rt.fill_bytes(&mut word).is_ok() {
            self.word = Some(FreshWord(word));
        }
    }

    /// The word for a connection. No other one gets it.
    fn take_word(&mut self) -> Result<FreshWord, AddFault> {
        match self.word.take() {
            Some(word) => Ok(word),
            None => Err(AddFault::NoWord),
        }
    }

    /// A route of which nothing was read, to somebody who has dialed and is to prove which server it is.
    pub fn stranger(&mut self, alloc: Global, from: Option<SocketAddr>) -> Result<Link, AddFault> {
        let handshake = Handshake::Acceptor(Acceptor::AwaitsHello(self.take_word()?));
        let proof = boxed(alloc, handshake)?;
        let stage = Stage::Accepted { from, proved: None };
        Ok(Link::Route(RouteLink::new(alloc, None, stage, Some(proof))))
    }

    /// This end of the handshake with the server at this place, which is dialed and is told what is encoded; none where the mesh has no secret.
    pub fn greeting(
        &mut self,
        alloc: Global,
        life: &Life,
        peer: usize,
        encoded: &mut Vec<u8>,
    ) -> Result<Option<Box<Handshake>>, AddFault> {
        if self.secret.is_none() {
            return Ok(None);
        }
        let Some(peer) = name_at(life, peer) else {
            return Err(AddFault::NoWord);
        };
        let word = self.take_word()?;
        let me = life.name();
        let dialer = Dialer { me, peer, word };
        Said::Hello(dialer.hello()).encode(encoded)?;
        Ok(Some(boxed(alloc, Handshake::Dialer(dialer))?))
    }
}

/// A handshake in memory of its own, so that no connection without one takes room for it.
fn boxed(alloc: Global, handshake: Handshake) -> Result<Box<Handshake>, AddFault> {
    match Box::new(alloc, handshake) {
        Ok(handshake) => Ok(handshake),
        Err(_) => Err(AddFault::OutOfMemory),
    }
}

/// Why somebody is not taken who has proved which server it is.
fn refusal_of(fault: Failure<SessionFault>) -> RefusalCause {
    match fault {
        Failure::Refused(_) => RefusalCause::TooManyRoutes,
        Failure::OutOfMemory => RefusalCause::OutOfMemory,
    }
}

impl<'l, S: Stream, C: ServerCalls> Server<'l, S, C> {
    /// From now on, whoever proves to have this secret is a server of the mesh, and nobody else is. Each route needs a word that was drawn at random
    /// ([`Server::set_word`]).
    pub fn set_secret(&mut self, secret: Secret) {
        self.guard.secret = Some(secret);
    }

    /// A word for the next route, drawn at random.
    pub fn set_word(&mut self, word: [u8; WORD]) {
        self.guard.word = Some(FreshWord(word));
    }

    /// Whether the mesh has a secret.
    pub fn has_secret(&self) -> bool {
        self.guard.secret.is_some()
    }

    /// Whether a word is to be drawn before the next route.
    pub fn wants_word(&self) -> bool {
        self.has_secret() && self.guard.word.is_none()
    }

    /// Whether there is a place for one stranger more: a free one, or that of the one that came first, where it came [`STRANGER_STAY`] ago or
    /// earlier.
    pub(crate) fn has_place(&self) -> bool {
        let Some(first) = self.guard.first_of_all() else {
            return true;
        };
        let latest = self
            .connections
            .now
            .saturating_add(GREETING - STRANGER_STAY);
        match self.connections.table.get(first) {
            None => false,
            Some(connection) => connection.deadline() <= latest,
        }
    }

    /// Somebody who has dialed was taken: where the mesh has a secret it is a stranger, who gets a place. Whoever had that place is refused.
    pub(crate) fn note_stranger(&mut self, key: usize) {
        if !self.has_secret() {
            return;
        }
        if let Some(first) = self.guard.take_stranger(key) {
            self.refuse(first, RefusalCause::TooManyStrangers);
        }
    }

    /// Goes on with the handshake of a connection, where it is a route in one.
    pub(crate) fn prove<R: Wait>(&mut self, rt: &R, key: usize) {
        let Some(secret) = &self.guard.secret else {
            return;
        };
        let Some(connection) = self.connections.table.get_mut(key) else {
            return;
        };
        match connection.hear(secret, &self.life) {
            Proving::Waits => {}
            Proving::Answers { answer, .. } => self.say(key, Said::Answer(answer)),
            Proving::Reached(mac) => self.say(key, Said::Proof(mac)),
            Proving::Admits(place) => self.admit(rt, key, place),
            Proving::Refuses(cause) => self.refuse(key, cause),
        }
    }

    /// Tells the other end of a route what its session begins with.
    pub(crate) fn say(&mut self, key: usize, said: Said) {
        self.encoded.clear();
        let is_whole = said.encode(&mut self.encoded).is_ok();
        self.connections.send_encoded(key, &self.encoded, is_whole);
    }

    /// The server at this place has dialed and has proved itself: a session with it stands from now on, and it is told who this server is.
    fn admit<R: Wait>(&mut self, rt: &R, key: usize, place: usize) {
        self.guard.lose_stranger(key);
        match accept(rt, self.node) {
            Ok((session, info)) => {
                if let Some(connection) = self.connections.table.get_mut(key) {
                    connection.admit(place, session);
                }
                self.say(key, Said::Info(info));
            }
            Err(fault) => self.refuse(key, refusal_of(fault)),
        }
    }

    /// The route of a connection is refused for this cause, which is told.
    pub(crate) fn refuse(&mut self, key: usize, cause: RefusalCause) {
        if let Some(peer) = self.peers.dialed_name(key, &self.life) {
            self.connections
                .events
                .note(Event::PeerRefused { peer, cause });
        } else if let Some(connection) = self.connections.table.get(key) {
            self.connections.events.note(connection.refused(cause));
        }
        self.connections.give_up_for(key, Cause::Refused);
    }
}
