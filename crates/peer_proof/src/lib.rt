//! How two servers of a mesh prove to each other that they have its secret, before either says anything else.
//!
//! ```text
//! let dialer = Dialer { me, peer, word };
//! send(dialer.hello());
//! let mac = dialer.hear(&secret, line)?;
//! send(mac);
//! ```
//!
//! Read first: [`Secret`], [`Dialer`], [`Acceptor`]. The files in reading order: `secret` is what both servers
//! have, and HMAC-SHA256 under it; `lines` writes and reads the words that go over the wire and the three lines;
//! `handshake` has the names and words of one handshake, what is authenticated of them, its two ends, each as a
//! value that says what it answers to a line, and laws that say what the definitions come to.
#![tactic(auto)]

mod handshake;
mod lines;
mod secret;

pub use handshake::{
    Acceptor, Dialer, Heard, Parties, ProofFault, Role, a_message_has_one_meaning,
    no_message_is_of_both_roles,
};
pub use lines::{Answer, FreshWord, HANDSHAKE_LINE, Hello, Mac, WORD};
pub use secret::{BLOCK, LEAST_SECRET, MOST_SECRET, Secret, SecretFault, hmac_sha256};
