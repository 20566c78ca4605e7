//! The secret of a mesh, and HMAC-SHA256 under it, as RFC 2104 defines it over the hash of FIPS 180-4.

ghost use Rattle.std.specs.Prelude.{◌≡◌, ◌≤◌, ◌++◌, ℕ, List, length, None, Some, MatchResult};
ghost use Rattle.sha2.specs.Hashers.{Holds256};
ghost use Rattle.sha2.specs.Sha256.{sha256};
ghost use Rattle.peer_proof.specs.Hmac.{zeros_behind, key_block as block_of, masked as masked_by, hmac, outer_digest};
ghost use Rattle.peer_proof.specs.Secrets.{without_newline as key_in, secret_fault};

use crate::lines::WORD;
use sha2::{Digest, Sha256};
use std::fmt;
use std::fmt::{Display, Formatter, Write};
use std::marker::Model;

/// Why bytes are no secret.
#[derive(Clone, Copy, PartialEq, Eq)]
pub enum SecretFault {
    /// They are fewer than 16.
    TooShort,
    /// They are more than 4,096.
    TooLong,
}

impl Display for SecretFault {
    fn fmt<W: Write>(&self, f: &mut Formatter<W>) -> fmt::Result {
        f.write_str(match self {
            SecretFault::TooShort => "a secret has at least 16 bytes",
            SecretFault::TooLong => "a secret has at most 4096 bytes",
        })
    }
}

/// How many bytes a block of the hash has: B of the RFC.
pub const BLOCK: usize = 64;

/// What each byte of the key's block is masked with before the message: ipad of the RFC.
const INNER_PAD: u8 = 0x36;

/// What each byte of the key's block is masked with before the inner digest: opad of the RFC.
const OUTER_PAD: u8 = 0x5c;

/// The key, with zeros behind it up to a block.
fn over_zeros(key: &[u8]) -> [u8; BLOCK]
    requires { length key.now ≤ BLOCK }
    ensures { result ≡ zeros_behind key.now }
{
    let mut block = [0; BLOCK];
    block[..key.len()].copy_from_slice(key);
    block
}

/// The block of a key. A key that is longer than a block is hashed first.
fn key_block(key: &[u8]) -> [u8; BLOCK]
    ensures { result ≡ block_of key.now }
{
    if key.len() > BLOCK {
        let digest = Sha256::digest(key);
        over_zeros(&digest)
    } else {
        over_zeros(key)
    }
}

/// A block with each of its bytes masked.
fn masked(block: &[u8; BLOCK], mask: u8) -> [u8; BLOCK]
    ensures { result ≡ masked_by mask block.now }
{
    let mut bytes = [0; BLOCK];
    for place in 0..BLOCK {
        bytes[place] = block[place] ^ mask;
    }
    bytes
}

/// A hasher that has taken in what stands before a message, of a key with this block.
pub(crate) fn begin(block: &[u8; BLOCK]) -> Sha256
    ensures { Holds256 result (masked_by INNER_PAD block.now) }
{
    let inner = masked(block, INNER_PAD);
    let mut hasher = Sha256::new();
    hasher.update(&inner);
    hasher
}

/// The mac, of a key with this block, of what the hasher has taken in since it was begun.
pub(crate) fn finish(block: &[u8; BLOCK], inner: Sha256) -> [u8; WORD]
    ensures { (whole : List ℕ) → Holds256 inner whole → result ≡ outer_digest block.now whole }
{
    let digest = inner.finalize();
    let outer = masked(block, OUTER_PAD);
    let mut hasher = Sha256::new();
    hasher.update(&outer);
    hasher.update(&digest);
    hasher.finalize()
}

/// HMAC-SHA256 of a message under a key of any length. (RFC 2104.)
pub fn hmac_sha256(key: &[u8], message: &[u8]) -> [u8; WORD]
    ensures { result ≡ hmac key.now message.now }
{
    let block = key_block(key);
    let mut hasher = begin(&block);
    hasher.update(message);
    finish(&block, hasher)
}

/// The fewest bytes that a secret has.
pub const LEAST_SECRET: usize = 16;

/// The most bytes that a secret has.
pub const MOST_SECRET: usize = 4_096;

/// The secret that all servers of a mesh have, and nobody else. It is kept as the block that HMAC makes of it, and nothing prints it.
///
/// Seen as that block.
pub struct Secret {
    block: [u8; BLOCK],
}

/// One call, also for crates above: `docs/PROVING.md`, "What a proof costs".
impl Drop for Secret {
    fn drop(self) {
        let Secret { block: _ } = self;
    }
}

impl Model for Secret {
    ghost use Rattle.std.specs.Prelude.{ℕ, List};

    ghost Value = { List ℕ };

    ghost view = { λ secret. secret.block };
}

/// The bytes without the line feed at their end, where there is one.
fn without_newline(bytes: &[u8]) -> &[u8]
    ensures { result.now ≡ key_in bytes.now }
{
    match bytes.split_last() {
        Some((last, rest)) if *last == b'\n' => rest,
        _ => bytes,
    }
}

/// Why the bytes are no secret.
fn fault_of(key: &[u8]) -> Option<SecretFault>
    ensures { result ≡ secret_fault key.now }
{
    if key.len() < LEAST_SECRET {
        return Some(SecretFault::TooShort);
    }
    if key.len() > MOST_SECRET {
        return Some(SecretFault::TooLong);
    }
    None
}

impl Secret {
    /// The secret that a file of these bytes has. They may be any; a single line feed at their end, as an editor puts it there, is not part of it,
    /// and all others are. Refused where it has fewer than [`LEAST_SECRET`] bytes, or more than [`MOST_SECRET`]. Takes no memory.
    pub fn read(bytes: &[u8]) -> Result<Secret, SecretFault>
        ensures { let key = key_in bytes.now in
            MatchResult result (λ secret. (secret_fault key ≡ None) × (secret ≡ block_of key))
            (λ fault. secret_fault key ≡ Some fault) }
    {
        let key = without_newline(bytes);
        if let Some(fault) = fault_of(key) {
            return Err(fault);
        }
        Ok(Secret {
            block: key_block(key),
        })
    }

    /// The block that HMAC makes of it.
    pub(crate) fn block(&self) -> &[u8; BLOCK]
        ensures { result.now ≡ self.now }
    {
        &self.block
    }
}
