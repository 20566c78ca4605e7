//! What stands behind the line of a publication.

ghost use Rattle.std.specs.Prelude.{◌≡◌, ◌≤◌, ◌+◌, ◌++◌, length, is_some, true, Some, None, IfOk, OnErr};
ghost use Rattle.std.specs.Option.{option_copied};
ghost use Rattle.subj.specs.Messages.{is_block as starts_as_block, are_headers, is_body, body_bytes, new_body, split_body};

use crate::limits::MAX_PAYLOAD;
use bytes::Bytes;
use std::alloc::{AllocError, Global};
use std::marker::Model;

/// What a header block begins with. (NATS documentation, "Client Protocol": `HPUB`.)
pub const HEADER_START: &[u8] = b"NATS/1.0";

/// Whether the bytes are a header block. No more is looked at than how they begin. (Profile.)
pub fn is_header_block(bytes: &[u8]) -> bool
    ensures { result ≡ starts_as_block bytes.now }
{
    bytes.starts_with(HEADER_START)
}

/// Whether the bytes are a header block, and within the limit with the payload behind it.
fn is_joint(block: &[u8], payload: &[u8]) -> bool
    ensures { result ≡ is_body (Some block.now) payload.now }
{
    is_header_block(block)
        && block.len() <= MAX_PAYLOAD
        && payload.len() <= MAX_PAYLOAD - block.len()
}

/// A copy of both, one behind the other.
fn join(alloc: Global, block: &[u8], payload: &[u8]) -> Result<Bytes, AllocError>
    requires { length block.now + length payload.now ≤ MAX_PAYLOAD }
    ensures { IfOk result (λ whole. whole ≡ block.now ++ payload.now) }
{
    let mut whole = Vec::with_capacity(alloc, block.len() + payload.len())?;
    whole.extend_from_slice(block)?;
    whole.extend_from_slice(payload)?;
    Ok(Bytes::from_vec(whole)?)
}

/// A header block and the payload behind it, in one piece of memory.
#[derive(Drop)]
pub(crate) struct Headed {
    pub(crate) whole: Bytes,
    /// How many bytes the block has.
    pub(crate) size: usize,
}

/// What stands behind the line of a publication: its payload, behind its header block where it has one. (NATS documentation,
/// "Client Protocol": `PUB`, `HPUB`.)
///
/// Both together have at most [`MAX_PAYLOAD`] bytes. They are shared with the bytes that they were made of, and are never copied.
#[derive(Drop)]
pub struct MessageBody {
    headed: Option<Headed>,
    payload: Bytes,
}

impl Model for MessageBody {
    ghost use Rattle.std.specs.Option.{option_map};
    ghost use Rattle.subj.specs.Bodies.{block_in, IsWithin};
    ghost use Rattle.subj.specs.Messages.{Body};

    ghost Value = { Body };

    ghost view = { λ body. record {
      headers = option_map block_in body.headed;
      payload = body.payload;
    } };

    ghost invariant = { λ body. IsWithin body.headed body.payload };
}

impl MessageBody {
    /// A payload without headers. Required: it has at most [`MAX_PAYLOAD`] bytes.
    pub fn plain(payload: Bytes) -> MessageBody
        requires { length payload ≤ MAX_PAYLOAD }
        ensures { result ≡ record { headers = None; payload = payload } }
    {
        MessageBody {
            headed: None,
            payload,
        }
    }

    /// A header block of so many bytes and the payload behind it, which these bytes are together. None just where the block does not
    /// begin with [`HEADER_START`]; want of memory comes only where it does. Required: there are as many bytes, and at most
    /// [`MAX_PAYLOAD`].
    pub fn split(whole: Bytes, size: usize) -> Result<Option<MessageBody>, AllocError>
        requires within { size ≤ length whole }
        requires fits { length whole ≤ MAX_PAYLOAD }
        ensures body { IfOk result (λ body. body ≡ split_body whole size) }
        ensures err { OnErr result (is_some (split_body whole size) ≡ true) }
    {
        if !is_header_block(&whole[..size]) {
            return Ok(None);
        }
        let payload = whole.slice(size..)?;
        let headed = Headed { whole, size };
        Ok(Some(MessageBody {
            headed: Some(headed),
            payload,
        }))
    }

    /// A payload behind a header block; both are copied together.
    #[tactic(auto, using(crate::proofs::JoinedBodies::joined_splits))]
    fn joined(
        alloc: Global,
        block: &[u8],
        payload: &[u8],
    ) -> Result<Option<MessageBody>, AllocError>
        requires { is_body (Some block.now) payload.now ≡ true }
        ensures { IfOk result (λ body.
            body ≡ Some (record { headers = Some block.now; payload = payload.now })) }
    {
        let whole = join(alloc, block, payload)?;
        MessageBody::split(whole, block.len())
    }

    /// A payload, behind a header block where there is one. A block and its payload are copied together. None just where the block does
    /// not begin with [`HEADER_START`], or both have more than [`MAX_PAYLOAD`] bytes; want of memory comes only where there is a body.
    pub fn new(
        alloc: Global,
        headers: Option<Bytes>,
        payload: Bytes,
    ) -> Result<Option<MessageBody>, AllocError>
        ensures body { IfOk result (λ body. body ≡ new_body headers payload) }
        ensures err { OnErr result (is_body headers payload ≡ true) }
    {
        match headers {
            Some(block) if is_joint(&block, &payload) => MessageBody::joined(
                alloc, &block, &payload,
            ),
            None if payload.len() <= MAX_PAYLOAD => Ok(Some(MessageBody::plain(payload))),
            _ => Ok(None),
        }
    }

    /// The header block, where there is one.
    pub fn headers(&self) -> Option<&[u8]>
        ensures same { option_copied result ≡ self.now.headers }
        ensures begun { are_headers self.now.headers ≡ true }
    {
        match &self.headed {
            None => None,
            Some(headed) => Some(&headed.whole[..headed.size]),
        }
    }

    /// The payload.
    pub fn payload(&self) -> &Bytes
        ensures same { result.now ≡ self.now.payload }
        ensures fits { length result.now ≤ MAX_PAYLOAD }
    {
        &self.payload
    }

    /// The payload, with the header block before it where there is one.
    pub fn whole(&self) -> &Bytes
        ensures same { result.now ≡ body_bytes self.now.headers self.now.payload }
        ensures fits { length result.now ≤ MAX_PAYLOAD }
    {
        match &self.headed {
            None => &self.payload,
            Some(headed) => &headed.whole,
        }
    }
}
