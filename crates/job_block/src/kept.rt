//! How the jobs of a block are kept.

ghost use Rattle.std.specs.Prelude.{◌≡◌, ◌&&◌, ◌+◌, ℕ, List, true, is_some, length, nat_le, IfOk, IfSome, OnErr};
ghost use Rattle.std.specs.Option.{option_copied};
ghost use Rattle.subj.specs.Messages.{body_of};
ghost use Rattle.job_block.specs.Publications.{IsPublishable, content_by};
ghost use Rattle.job_block.specs.Spans.{AreSpans, Extends, IsPart};
ghost use Rattle.job_block.specs.Kept.{AreKept, IsKeptAs, IsKeptMessage, IsOfLast, job_in, message_in, shared_in};
ghost use Rattle.job_block.specs.Blocks.{FollowsAlike, job_of};

use crate::publications::PublicationParts;
use crate::spans::{Span, Spans, put};
use std::alloc::{AllocError, Global};
use subj::{ConnId, LentSubject, Message, PubId, QueueName, QueueNames};

/// From how many bytes on header block and payload of a publication that is wanted are not copied into the text of a block: they stand
/// apart, and all who keep the message share them. (Profile.)
pub const SHARED_BYTES: usize = 4_096;

/// What a job publishes.
#[derive(Drop)]
pub(crate) enum KeptMessage {
    /// Its parts stand in the text of the block: it is small, or nobody is known to want it.
    InText(Spans),
    /// It stands apart.
    Shared(Message),
}

impl KeptMessage {
    /// Its subject.
    pub(crate) fn subject<'a>(&'a self, text: &'a [u8]) -> LentSubject<'a>
        requires { IsKeptMessage text.now self.now }
        ensures { result ≡ (message_in text.now self.now).subject }
    {
        match self {
            KeptMessage::InText(spans) => LentSubject::of(spans.subject.of(text)),
            KeptMessage::Shared(message) => message.subject().lent(),
        }
    }

    /// Its parts.
    pub(crate) fn parts<'a>(&'a self, text: &'a [u8]) -> PublicationParts<'a>
        requires { IsKeptMessage text.now self.now }
        ensures same { content_by result ≡ message_in text.now self.now }
        ensures valid { IsPublishable (message_in text.now self.now) }
    {
        match self {
            KeptMessage::InText(spans) => spans.parts(text),
            KeptMessage::Shared(message) => PublicationParts::of(message),
        }
    }

    /// The message, where it stands apart.
    pub(crate) fn shared(&self) -> Option<&Message>
        ensures { option_copied result ≡ shared_in self.now }
    {
        match self {
            KeptMessage::InText(_) => None,
            KeptMessage::Shared(message) => Some(message),
        }
    }

    /// The message: a copy of what stands in the text, or one that shares all.
    pub(crate) fn message(&self, alloc: Global, text: &[u8]) -> Result<Message, AllocError>
        requires { IsKeptMessage text.now self.now }
        ensures { IfOk result (λ message. message ≡ message_in text.now self.now) }
    {
        match self {
            KeptMessage::InText(spans) => spans.parts(text).to_message(alloc),
            KeptMessage::Shared(message) => message.try_clone(),
        }
    }
}

/// The most bytes of a payload with which a run goes on. (Profile.)
pub const SHORT_BYTES: usize = 2_048;

/// A job, whose turn follows from its place.
#[derive(Drop)]
pub(crate) struct KeptJob {
    pub(crate) id: PubId,
    pub(crate) publisher: Option<ConnId>,
    pub(crate) echo: bool,
    /// Whether a run goes on with it: then it is like the one before it.
    pub(crate) goes_on: bool,
    pub(crate) queues: QueueNames,
    pub(crate) message: KeptMessage,
}

/// Whether they are the same names, in the same order.
fn are_same(names: &[QueueName], others: &[QueueName]) -> bool
    ensures { result ≡ true → names.now ≡ others.now }
{
    if names.len() != others.len() {
        return false;
    }
    for place in 0..names.len() {
        if names[place].bytes() != others[place].bytes() {
            return false;
        }
    }
    true
}

impl KeptJob {
    /// Whether one that comes from there is of the same publisher, with the same echo.
    fn is_from(&self, origin: &Origin) -> bool
        ensures { result ≡ true
            → (self.now.publisher ≡ origin.now.publisher) × (self.now.echo ≡ origin.now.echo) }
    {
        self.publisher == origin.publisher && self.echo == origin.echo
    }

    /// Whether a run goes on with a job that claims these queue names and publishes these parts, behind this one.
    pub(crate) fn goes_on_with(
        &self,
        text: &[u8],
        origin: &Origin,
        publication: &PublicationParts<'_>,
        queues: &QueueNames,
    ) -> bool
        requires { IsKeptMessage text.now self.now.message }
        ensures { result ≡ true
            → (turn : ℕ)
            → FollowsAlike (job_in text.now turn self.now)
            (job_of origin.now (turn + 1) (content_by publication.now) queues.now) }
    {
        if !publication.is_short() {
            return false;
        }
        if !self.is_from(origin) {
            return false;
        }
        if !are_same(self.queues.as_slice(), queues.as_slice()) {
            return false;
        }
        self.message.subject(text).bytes() == publication.subject
    }
}

/// Where a job comes from.
#[derive(Clone, Copy)]
pub struct Origin {
    /// Which publication it is.
    pub id: PubId,
    /// The connection that published it, where that is one of this server.
    pub publisher: Option<ConnId>,
    /// Whether the publisher's own subscriptions may get it.
    pub echo: bool,
}

/// Where the subject stands in the text, if it is the one of these parts.
fn subject_in(text: &[u8], spans: &Spans, subject: &[u8]) -> Option<Span>
    requires { AreSpans text.now spans.now }
    ensures { IfSome result (λ span. IsPart text.now span subject.now) }
{
    if spans.subject.of(text) == subject {
        Some(spans.subject)
    } else {
        None
    }
}

/// Where the last message's subject stands in the text, where that stands there.
pub(crate) fn last_span(kept: &[KeptJob]) -> Option<Span>
    ensures { IfSome result (λ span.
        (text : List ℕ) → AreKept text kept.now → IsOfLast text kept.now span) }
{
    match &kept.last()?.message {
        KeptMessage::InText(spans) => Some(spans.subject),
        KeptMessage::Shared(_) => None,
    }
}

/// Where the subject stands in the text, if it is the last message's, and that one stands there.
pub(crate) fn last_subject(text: &[u8], kept: &[KeptJob], subject: &[u8]) -> Option<Span>
    requires { AreKept text.now kept.now }
    ensures { IfSome result (λ span. IsPart text.now span subject.now) }
{
    match &kept.last()?.message {
        KeptMessage::InText(spans) => subject_in(text, spans, subject),
        KeptMessage::Shared(_) => None,
    }
}

/// Keeps the message that has these parts: puts them behind the text, where its subject may stand already, or makes a message that
/// stands apart, where it is large and wanted. Want of memory leaves the text as it was. Required: it can be published.
#[inline(always)]
pub(crate) fn keep(
    text: &mut Vec<u8>,
    subject: Option<Span>,
    publication: &PublicationParts<'_>,
    is_wanted: bool,
) -> Result<KeptMessage, AllocError>
    requires subject { IfSome subject (λ span.
        IsPart text.old.items span publication.now.subject.now) }
    requires valid { IsPublishable (content_by publication.now) }
    ensures message { IfOk result (λ message.
        IsKeptAs text.new.items message (content_by publication.now)) }
    ensures apart { IfOk result (λ message.
        is_some (shared_in message)
        ≡ (is_wanted && nat_le SHARED_BYTES (length (body_of (content_by publication.now))))) }
    ensures text { Extends text.old.items text.new.items }
    ensures err { OnErr result (text.new.items ≡ text.old.items) }
{
    if is_wanted && publication.is_large() {
        let message = publication.to_message(*text.allocator())?;
        return Ok(KeptMessage::Shared(message));
    }
    let spans = put(text, subject, publication)?;
    Ok(KeptMessage::InText(spans))
}
