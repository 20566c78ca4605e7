//! A handshake: the names and words of it, what is authenticated of them, and its two ends, each as a value that says what it answers to a line. Laws
//! of the definitions are contracts of calls that do nothing.

ghost use Rattle.std.specs.Prelude.{◌≡◌, ◌≤◌, ◌++◌, ℕ, List, length};
ghost use Rattle.sha2.specs.Hashers.{Holds256};
ghost use Rattle.peer_proof.specs.Handshakes.{hello_from, dialer_hears, hello_fault, is_other_server, acceptor_hears, hears_hello, hears_proof, parties_of};
ghost use Rattle.peer_proof.specs.Laws.{HasOneMeaning, AreApart};
ghost use Rattle.peer_proof.specs.Messages.{part, role_word, mac_of};

use crate::lines::{Answer, FreshWord, Hello, Mac};
use crate::secret::{Secret, begin, finish};
use sha2::{Digest, Sha256};
use subj::{NodeId, ServerIdentity};

/// Why an end of a handshake goes on no further. Its connection is closed, and nothing is told to the other end.
#[derive(Clone, Copy)]
pub enum ProofFault {
    /// A `HELLO` was due, and the line is none.
    NoHello,
    /// The `HELLO` is for another server.
    NotForMe,
    /// The `HELLO` is of no other server of the mesh.
    NotInMesh,
    /// A `PROOF` was due, and the line is none.
    NoProof,
    /// The `PROOF` is not one of this handshake under the mesh's secret.
    WrongProof,
}

/// Which end of a connection makes a proof.
#[derive(Clone, Copy)]
pub enum Role {
    /// The server that dialed.
    Dialer,
    /// The server that accepted.
    Acceptor,
}

impl Role {
    /// The word that stands for it in what is authenticated.
    fn word(self) -> &'static [u8]
        ensures same { result.now ≡ role_word self }
        ensures short { length result.now ≤ 255 }
    {
        match self {
            Role::Dialer => b"dialer",
            Role::Acceptor => b"acceptor",
        }
    }
}

/// The names of both ends of a handshake, and the words that they have drawn for it.
#[derive(Clone, Copy)]
pub struct Parties {
    pub dialer: NodeId,
    pub acceptor: NodeId,
    pub dialer_word: FreshWord,
    pub acceptor_word: FreshWord,
}

/// Puts a part behind what is authenticated: how many bytes it has, as one byte, and its bytes.
fn put_part(hasher: &mut Sha256, bytes: &[u8])
    requires { length bytes.now ≤ 255 }
    ensures { (whole : List ℕ)
        → Holds256 hasher.old whole
        → Holds256 hasher.new (whole ++ part bytes.now) }
{
    let size = [bytes.len() as u8];
    hasher.update(&size);
    hasher.update(bytes);
}

impl Parties {
    /// What the end in this role proves that it has the secret by: HMAC-SHA256 of the role, both names and both words.
    pub fn mac(&self, secret: &Secret, role: Role) -> Mac
        ensures { result.0 ≡ mac_of secret.now role self.now }
    {
        let mut hasher = begin(secret.block());
        put_part(&mut hasher, role.word());
        put_part(&mut hasher, self.dialer.bytes());
        put_part(&mut hasher, self.acceptor.bytes());
        put_part(&mut hasher, &self.dialer_word.0);
        put_part(&mut hasher, &self.acceptor_word.0);
        Mac(finish(secret.block(), hasher))
    }
}

/// A server that has dialed another one, says `HELLO`, and waits for its `PROOF`.
#[derive(Clone, Copy)]
pub struct Dialer {
    pub me: NodeId,
    pub peer: NodeId,
    /// The word that it has drawn for this connection.
    pub word: FreshWord,
}

impl Dialer {
    /// What it says first.
    pub fn hello(&self) -> Hello
        ensures { result ≡ hello_from self.now }
    {
        Hello {
            me: self.me,
            you: self.peer,
            word: self.word,
        }
    }

    /// Hears the acceptor's line: the proof that it sends back, where the acceptor has proved that it is the peer and has the secret, and else why it
    /// goes on no further. It is [`ProofFault::NoProof`] or [`ProofFault::WrongProof`].
    pub fn hear(&self, secret: &Secret, line: &[u8]) -> Result<Mac, ProofFault>
        ensures { result ≡ dialer_hears secret.now self.now line.now }
    {
        let Some(answer) = Answer::read(line) else {
            return Err(ProofFault::NoProof);
        };
        let parties = Parties {
            dialer: self.me,
            acceptor: self.peer,
            dialer_word: self.word,
            acceptor_word: answer.word,
        };
        if !answer.mac.is(&parties.mac(secret, Role::Acceptor)) {
            return Err(ProofFault::WrongProof);
        }
        Ok(parties.mac(secret, Role::Dialer))
    }
}

/// A server that another one has dialed, or who would be one.
#[derive(Clone, Copy)]
pub enum Acceptor {
    /// It has said nothing, and waits for a `HELLO`. It has drawn this word for this connection.
    AwaitsHello(FreshWord),
    /// It has heard a `HELLO` and answered its own `PROOF`, and waits for the dialer's.
    AwaitsProof(Parties),
}

/// What a line comes to that is not refused.
#[derive(Clone, Copy)]
pub enum Heard {
    /// The dialer is told this, and is to prove itself still.
    Hello { next: Acceptor, answer: Answer },
    /// The server of this name has proved that it is it, and has the secret.
    Proved(NodeId),
}

/// Whether this is the name of another server of the mesh.
fn is_other(life: &ServerIdentity, name: NodeId) -> bool
    ensures { result ≡ is_other_server life.now name }
{
    match life.place(name) {
        None => false,
        Some(place) => life.is_peer(place),
    }
}

/// Why a `HELLO` is refused by this server, or None where it is not.
fn fault_of(life: &ServerIdentity, hello: &Hello) -> Option<ProofFault>
    ensures { result ≡ hello_fault life.now hello.now }
{
    if hello.you.bytes() != life.name().bytes() {
        return Some(ProofFault::NotForMe);
    }
    if !is_other(life, hello.me) {
        return Some(ProofFault::NotInMesh);
    }
    None
}

/// Hears the dialer's first line, with this word drawn for the connection.
fn hear_hello(
    secret: &Secret,
    life: &ServerIdentity,
    word: FreshWord,
    line: &[u8],
) -> Result<Heard, ProofFault>
    ensures { result ≡ hears_hello secret.now life.now word line.now }
{
    let Some(hello) = Hello::read(line) else {
        return Err(ProofFault::NoHello);
    };
    if let Some(fault) = fault_of(life, &hello) {
        return Err(fault);
    }
    let parties = Parties {
        dialer: hello.me,
        acceptor: hello.you,
        dialer_word: hello.word,
        acceptor_word: word,
    };
    Ok(Heard::Hello {
        next: Acceptor::AwaitsProof(parties),
        answer: Answer {
            word,
            mac: parties.mac(secret, Role::Acceptor),
        },
    })
}

/// Hears the dialer's second line.
fn hear_proof(secret: &Secret, parties: &Parties, line: &[u8]) -> Result<Heard, ProofFault>
    ensures { result ≡ hears_proof secret.now parties.now line.now }
{
    let Some(mac) = Mac::read(line) else {
        return Err(ProofFault::NoProof);
    };
    if !mac.is(&parties.mac(secret, Role::Dialer)) {
        return Err(ProofFault::WrongProof);
    }
    Ok(Heard::Proved(parties.dialer))
}

impl Acceptor {
    /// Hears the dialer's next line, as this life of a server: what it comes to, or why the dialer is refused. A `HELLO` has to be for this server
    /// and of another one of the mesh; a `PROOF` has to be that of the dialer over both names and both words. A proof of the acceptor's own role is
    /// none of the dialer's.
    pub fn hear(
        &self,
        secret: &Secret,
        life: &ServerIdentity,
        line: &[u8],
    ) -> Result<Heard, ProofFault>
        ensures { result ≡ acceptor_hears secret.now life.now self.now line.now }
    {
        match self {
            Acceptor::AwaitsHello(word) => hear_hello(secret, life, *word, line),
            Acceptor::AwaitsProof(parties) => hear_proof(secret, parties, line),
        }
    }
}

/// What is authenticated has one meaning: two messages are the same only where role, names and words are.
pub fn a_message_has_one_meaning()
    ensures { HasOneMeaning }
{}

/// What one end's proof is made of is never what the other end's is made of, whatever the names and words: a proof that is sent back to its maker
/// is one of its own role, and would have to be a collision of the hash.
pub fn no_message_is_of_both_roles()
    ensures { AreApart }
{}
