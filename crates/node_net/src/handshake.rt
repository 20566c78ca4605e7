//! What a route begins with: who is at its ends. Where the mesh has a secret, both prove first that they have it.

use peer_proof::{Acceptor, Answer, Dialer, Heard, Hello, Mac, ProofFault, Secret};
use route_frames::{RouteConnect, RouteFrame, RouteInfo, encode};
use server_events::RefusalCause;
use std::alloc::AllocError;
use subj::{NodeId, ServerIdentity as Life};

/// This end of a handshake, which waits for the other's next line.
#[derive(Clone, Copy)]
pub(crate) enum Handshake {
    /// This server has dialed.
    Dialer(Dialer),
    /// Somebody else has.
    Acceptor(Acceptor),
}

/// What the other end's line comes to.
#[derive(Clone, Copy)]
pub(crate) enum Proving {
    /// It is not whole yet.
    Waits,
    /// The dialer is told this, and is to prove itself still.
    Answers { next: Acceptor, answer: Answer },
    /// The server that was dialed has proved itself, and is told this.
    Reached(Mac),
    /// The dialer has proved that it is the server at this place.
    Admits(usize),
    /// It is refused for this cause.
    Refuses(RefusalCause),
}

/// What this end of a route says before its session is kept.
#[derive(Clone, Copy)]
pub(crate) enum Said {
    Hello(Hello),
    Answer(Answer),
    Proof(Mac),
    Info(RouteInfo),
    Connect(RouteConnect),
}

/// Encodes what a server that has dialed is told first.
fn encode_info(info: RouteInfo, encoded: &mut Vec<u8>) -> Result<(), AllocError> {
    encode(&RouteFrame::Info(info), encoded)
}

/// Encodes what a server that was dialed is told back.
fn encode_connect(connect: RouteConnect, encoded: &mut Vec<u8>) -> Result<(), AllocError> {
    encode(&RouteFrame::Connect(connect), encoded)
}

impl Said {
    /// Puts its line behind what stands there.
    pub fn encode(&self, encoded: &mut Vec<u8>) -> Result<(), AllocError> {
        match self {
            Said::Hello(hello) => hello.write(encoded),
            Said::Answer(answer) => answer.write(encoded),
            Said::Proof(mac) => mac.write(encoded),
            Said::Info(info) => encode_info(*info, encoded),
            Said::Connect(connect) => encode_connect(*connect, encoded),
        }
    }
}

/// What is told of a line that is refused for this.
fn cause_of(fault: ProofFault) -> RefusalCause {
    match fault {
        ProofFault::NoHello | ProofFault::NoProof => RefusalCause::BadGreeting,
        ProofFault::NotForMe => RefusalCause::OtherServer,
        ProofFault::NotInMesh => RefusalCause::UnknownServer,
        ProofFault::WrongProof => RefusalCause::WrongProof,
    }
}

/// The dialer has proved that it is the server of this name.
fn proved(life: &Life, name: NodeId) -> Proving {
    match life.place(name) {
        Some(place) => Proving::Admits(place),
        None => Proving::Refuses(RefusalCause::UnknownServer),
    }
}

/// What a line comes to that is not refused.
fn taken(life: &Life, heard: &Heard) -> Proving {
    match heard {
        Heard::Hello { next, answer } => Proving::Answers {
            next: *next,
            answer: *answer,
        },
        Heard::Proved(name) => proved(life, *name),
    }
}

/// What the acceptor makes of the dialer's next line.
fn heard_by(acceptor: &Acceptor, secret: &Secret, life: &Life, line: &[u8]) -> Proving {
    match acceptor.hear(secret, life, line) {
        Ok(heard) => taken(life, &heard),
        Err(fault) => Proving::Refuses(cause_of(fault)),
    }
}

impl Handshake {
    /// What this server makes of the other end's next line.
    pub fn hear(&self, secret: &Secret, life: &Life, line: &[u8]) -> Proving {
        match self {
            Handshake::Acceptor(acceptor) => heard_by(acceptor, secret, life, line),
            Handshake::Dialer(dialer) => match dialer.hear(secret, line) {
                Ok(mac) => Proving::Reached(mac),
                Err(fault) => Proving::Refuses(cause_of(fault)),
            },
        }
    }
}
