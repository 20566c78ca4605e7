//! Publications by their parts.

ghost use Rattle.std.specs.Prelude.{◌≡◌, ◌+◌, ◌≤◌, ◌++◌, true, length, nat_le, None, Some, IfOk, IfSome};
ghost use Rattle.std.specs.Option.{option_copied};
ghost use Rattle.subj.specs.Messages.{are_headers, block_bytes, body_bytes, body_of};
ghost use Rattle.subj.specs.Names.{subject_fault};
ghost use Rattle.job_block.specs.Publications.{IsPublishable, IsShort, content_by, lent_pub};

use crate::kept::{SHARED_BYTES, SHORT_BYTES};
use bytes::Bytes;
use std::alloc::{AllocError, Global};
use std::marker::Model;
use subj::{LentSubject, MAX_PAYLOAD, Message, MessageBody, MessageParts, Reply, Subject};

/// The bytes of a reply, where there is one.
fn reply_bytes(reply: Option<&Reply>) -> Option<&[u8]>
    ensures same { option_copied result ≡ option_copied reply.entry }
    ensures valid { IfSome (option_copied reply.entry) (λ reply. subject_fault reply ≡ None) }
{
    match reply {
        None => None,
        Some(reply) => Some(reply.bytes()),
    }
}

/// How many bytes a header block has; 0 where there is none.
fn headers_len(headers: Option<&[u8]>) -> usize
    ensures { result ≡ length (block_bytes (option_copied headers.entry)) }
{
    match headers {
        None => 0,
        Some(block) => block.len(),
    }
}

/// The subject that these bytes are.
fn valid_subject(alloc: Global, text: &[u8]) -> Result<Subject, AllocError>
    requires { subject_fault text.now ≡ None }
    ensures { IfOk result (λ subject. subject ≡ text.now) }
{
    LentSubject::of(text).to_subject(alloc)
}

/// The reply that these bytes are, where there is one.
fn valid_reply(alloc: Global, reply: Option<&[u8]>) -> Result<Option<Reply>, AllocError>
    requires { IfSome (option_copied reply) (λ text. subject_fault text ≡ None) }
    ensures { IfOk result (λ made. made ≡ option_copied reply.entry) }
{
    match reply {
        None => Ok(None),
        Some(text) => Ok(Some(valid_subject(alloc, text)?)),
    }
}

/// A copy of both, one behind the other.
fn joined(alloc: Global, block: &[u8], payload: &[u8]) -> Result<Bytes, AllocError>
    requires { length block.now + length payload.now ≤ MAX_PAYLOAD }
    ensures { IfOk result (λ whole. whole ≡ block.now ++ payload.now) }
{
    let mut whole = Vec::with_capacity(alloc, block.len() + payload.len())?;
    whole.extend_from_slice(block)?;
    whole.extend_from_slice(payload)?;
    Ok(Bytes::from_vec(whole)?)
}

/// A header block and the payload behind it; both are copied together.
#[tactic(auto, using(crate::proofs::Bodies::joined_splits))]
fn headed_body(alloc: Global, block: &[u8], payload: &[u8]) -> Result<MessageBody, AllocError>
    requires begun { are_headers (Some block.now) ≡ true }
    requires within { length block.now + length payload.now ≤ MAX_PAYLOAD }
    ensures { IfOk result (λ body.
        body ≡ record { headers = Some block.now; payload = payload.now }) }
{
    let whole = joined(alloc, block, payload)?;
    match MessageBody::split(whole, block.len())? {
        Some(body) => Ok(body),
        // required: the block begins as one
        None => unreachable!(),
    }
}

/// A payload, behind a header block where there is one.
fn valid_body(
    alloc: Global,
    headers: Option<&[u8]>,
    payload: &[u8],
) -> Result<MessageBody, AllocError>
    requires begun { are_headers (option_copied headers) ≡ true }
    requires within { length (body_bytes (option_copied headers) payload.now) ≤ MAX_PAYLOAD }
    ensures { IfOk result (λ body.
        body ≡ record { headers = option_copied headers.entry; payload = payload.now }) }
{
    match headers {
        None => Ok(MessageBody::plain(Bytes::copy_from_slice(alloc, payload)?)),
        Some(block) => headed_body(alloc, block, payload),
    }
}

/// The content of a publication by its parts, which stand where they were read. (NATS documentation, "Client Protocol": `PUB`,
/// `HPUB`.)
#[derive(Clone, Copy)]
pub struct PublicationParts<'a> {
    pub subject: &'a [u8],
    /// Where an answer is awaited.
    pub reply: Option<&'a [u8]>,
    /// The header block, where it has one.
    pub headers: Option<&'a [u8]>,
    /// The bytes that were published, without the header block.
    pub payload: &'a [u8],
}

impl<'a> PublicationParts<'a> {
    /// The parts of a message.
    pub fn of(message: &'a Message) -> PublicationParts<'a>
        ensures same { content_by result ≡ message.now }
        ensures valid { IsPublishable message.now }
    {
        let subject = message.subject().bytes();
        let reply = reply_bytes(message.reply());
        let headers = message.headers();
        let _ = message.whole();
        PublicationParts {
            subject,
            reply,
            headers,
            payload: message.payload().as_slice(),
        }
    }

    /// Whether header block and payload have so many bytes together that all who keep them share them. Required: it can be
    /// published.
    pub(crate) fn is_large(&self) -> bool
        requires { IsPublishable (content_by self.now) }
        ensures { result ≡ nat_le SHARED_BYTES (length (body_of (content_by self.now))) }
    {
        headers_len(self.headers) + self.payload.len() >= SHARED_BYTES
    }

    /// Whether a run may go on with it: it has no header block, and a payload of at most [`SHORT_BYTES`].
    pub fn is_short(&self) -> bool
        ensures { result ≡ true → IsShort (content_by self.now) }
    {
        self.headers.is_none() && self.payload.len() <= SHORT_BYTES
    }

    /// What the message is made of that has these parts. Required: it can be published.
    fn to_parts(&self, alloc: Global) -> Result<MessageParts, AllocError>
        requires { IsPublishable (content_by self.now) }
        ensures { IfOk result (λ parts. parts ≡ content_by self.now) }
    {
        let subject = valid_subject(alloc, self.subject)?;
        let reply = valid_reply(alloc, self.reply)?;
        let body = valid_body(alloc, self.headers, self.payload)?;
        Ok(MessageParts {
            subject,
            reply,
            body,
        })
    }

    /// The message that has these parts, each copied once. Required: it can be published.
    pub(crate) fn to_message(&self, alloc: Global) -> Result<Message, AllocError>
        requires { IsPublishable (content_by self.now) }
        ensures { IfOk result (λ message. message ≡ content_by self.now) }
    {
        let parts = self.to_parts(alloc)?;
        Ok(Message::from_parts(alloc, parts)?)
    }
}

/// A publication as a client hands it in, without a header block, whose payload stands where it was read: no message is made of it.
/// (NATS documentation, "Client Protocol": `PUB`, and `echo` of `CONNECT`.)
///
/// Seen as the publication.
#[derive(Drop)]
pub struct LentPub<'a> {
    subject: &'a [u8],
    reply: Option<&'a [u8]>,
    payload: &'a [u8],
    echo: bool,
}

impl<'a> Model for LentPub<'a> {
    ghost use Rattle.std.specs.Prelude.{◌≡◌, ◌≤◌, length, None, IfSome};
    ghost use Rattle.std.specs.Option.{option_copied};
    ghost use Rattle.subj.specs.Names.{subject_fault};
    ghost use Rattle.subj.specs.declared.limits.TheConstants.{MAX_PAYLOAD};
    ghost use Rattle.subj.specs.declared.messages.Pub.{Pub};
    ghost use Rattle.job_block.specs.Publications.{lent_pub};

    ghost Value = { Pub };

    ghost view = { λ lent.
        lent_pub lent.subject.now (option_copied lent.reply) lent.payload.now lent.echo };

    ghost invariant = { λ lent.
        (subject_fault lent.subject.now ≡ None)
        × (length lent.payload.now ≤ MAX_PAYLOAD)
        × IfSome (option_copied lent.reply) (λ reply. subject_fault reply ≡ None) };
}

impl<'a> LentPub<'a> {
    /// The publication of these. Required: the payload is within the limit, and the reply is a subject.
    pub fn new(
        subject: LentSubject<'a>,
        reply: Option<&'a [u8]>,
        payload: &'a [u8],
        echo: bool,
    ) -> LentPub<'a>
        requires payload { length payload.now ≤ MAX_PAYLOAD }
        requires reply { IfSome (option_copied reply) (λ reply. subject_fault reply ≡ None) }
        ensures { result ≡ lent_pub subject.entry (option_copied reply.entry) payload.now echo }
    {
        LentPub {
            subject: subject.bytes(),
            reply,
            payload,
            echo,
        }
    }

    /// What it is published on.
    pub fn subject(&self) -> LentSubject<'a>
        ensures { result ≡ self.now.message.subject }
    {
        LentSubject::of(self.subject)
    }

    /// The bytes that are published.
    pub fn payload(&self) -> &'a [u8]
        ensures { result.now ≡ self.now.message.payload }
    {
        self.payload
    }

    /// Whether the client's own subscriptions may get it.
    pub fn echo(&self) -> bool
        ensures { result ≡ self.now.echo }
    {
        self.echo
    }

    /// Its parts, each where it was read.
    pub fn parts(&self) -> PublicationParts<'a>
        ensures same { content_by result ≡ self.now.message }
        ensures valid { IsPublishable self.now.message }
    {
        PublicationParts {
            subject: self.subject,
            reply: self.reply,
            headers: None,
            payload: self.payload,
        }
    }
}
