//! Publications as clients hand them in.

ghost use Rattle.std.specs.Prelude.{◌≡◌, ◌≤◌, true, length, IfErr, IfOk, OnErr};
ghost use Rattle.std.specs.Option.{option_copied};
ghost use Rattle.subj.specs.Messages.{are_headers, body_bytes, content_of, is_body};
ghost use Rattle.subj.specs.Publications.{new_publication};

use crate::bodies::MessageBody;
use crate::limits::MAX_PAYLOAD;
use crate::subjects::{Reply, Subject};
use bytes::Bytes;
use std::alloc::{AllocError, AllocFailed, Global};
use std::marker::Model;
use std::sync::Arc;

/// What a message is made of, which its copies share.
#[derive(Drop)]
pub struct MessageParts {
    pub subject: Subject,
    pub reply: Option<Reply>,
    pub body: MessageBody,
}

impl Model for MessageParts {
    ghost use Rattle.subj.specs.Messages.{Content};

    ghost Value = { Content };

    ghost view = { λ parts. record {
      subject = parts.subject;
      reply = parts.reply;
      headers = parts.body.headers;
      payload = parts.body.payload;
    } };
}

/// The content of a publication: its subject, the subject that an answer is awaited on, its header block where it has one, and its
/// payload. (NATS documentation, "Client Protocol": `PUB`, `HPUB`.) A copy shares all of it, behind one count, and takes no memory.
///
/// Header block and payload together have at most [`MAX_PAYLOAD`] bytes. (Profile.)
pub struct Message {
    shared: Arc<MessageParts, Global>,
}

/// One call, also for crates above: `docs/PROVING.md`, "What a proof costs".
impl Drop for Message {
    fn drop(self) {
        let Message { shared: _ } = self;
    }
}

impl Model for Message {
    ghost use Rattle.subj.specs.Messages.{Content};
    ghost use Rattle.std.specs.Arc.{arc_value};

    ghost Value = { Content };

    ghost view = { λ message. arc_value message.shared };
}

impl Message {
    /// None just where the header block does not begin with [`HEADER_START`](crate::HEADER_START), or it and the payload have more than
    /// [`MAX_PAYLOAD`] bytes together. Want of memory comes only where there is a message. A header block is copied, together with the
    /// payload.
    pub fn new(
        alloc: Global,
        subject: Subject,
        reply: Option<Reply>,
        headers: Option<Bytes>,
        payload: Bytes,
    ) -> Result<Option<Message>, AllocError>
        ensures message { IfOk result (λ message.
            message ≡ content_of subject reply headers payload) }
        ensures err { OnErr result (is_body headers payload ≡ true) }
    {
        let Some(body) = MessageBody::new(alloc, headers, payload)? else {
            return Ok(None);
        };
        let parts = MessageParts {
            subject,
            reply,
            body,
        };
        Ok(Some(Message::from_parts(alloc, parts)?))
    }

    /// The message that is made of these. They come back where there is no memory for it.
    pub fn from_parts(
        alloc: Global,
        parts: MessageParts,
    ) -> Result<Message, AllocFailed<MessageParts>>
        ensures ok { IfOk result (λ message. message ≡ parts) }
        ensures err { IfErr result (λ failed. failed.value ≡ parts) }
    {
        let shared = Arc::new(alloc, parts)?;
        Ok(Message { shared })
    }

    /// What it was published on.
    pub fn subject(&self) -> &Subject
        ensures { result.now ≡ self.now.subject }
    {
        &self.shared.subject
    }

    /// Where an answer is awaited.
    pub fn reply(&self) -> Option<&Reply>
        ensures { option_copied result ≡ self.now.reply }
    {
        self.shared.reply.as_ref()
    }

    /// The header block, where it has one.
    pub fn headers(&self) -> Option<&[u8]>
        ensures same { option_copied result ≡ self.now.headers }
        ensures begun { are_headers self.now.headers ≡ true }
    {
        self.shared.body.headers()
    }

    /// The bytes that were published, without the header block.
    pub fn payload(&self) -> &Bytes
        ensures same { result.now ≡ self.now.payload }
        ensures fits { length result.now ≤ MAX_PAYLOAD }
    {
        self.shared.body.payload()
    }

    /// The payload, with the header block before it where it has one.
    pub fn whole(&self) -> &Bytes
        ensures same { result.now ≡ body_bytes self.now.headers self.now.payload }
        ensures fits { length result.now ≤ MAX_PAYLOAD }
    {
        self.shared.body.whole()
    }

    /// What it is made of, where no copy of it is left; else it comes back. Takes no memory.
    pub fn into_parts(self) -> Result<MessageParts, Message>
        ensures ok { IfOk result (λ parts. parts ≡ self) }
        ensures err { IfErr result (λ message. message ≡ self) }
    {
        let Message { shared } = self;
        match Arc::try_unwrap(shared) {
            Ok(parts) => Ok(parts),
            Err(shared) => Err(Message { shared }),
        }
    }

    /// A copy that shares all bytes.
    pub fn try_clone(&self) -> Result<Message, AllocError>
        ensures { IfOk result (λ message. message ≡ self.now) }
    {
        let shared = Arc::try_clone(&self.shared)?;
        Ok(Message { shared })
    }
}

/// A publication as a client hands it in: the message, and whether the client's own subscriptions may
/// get it. (NATS documentation, "Client Protocol": `PUB`, and `echo` of `CONNECT`.)
#[derive(Drop)]
pub struct Pub {
    pub message: Message,
    pub echo: bool,
}

impl Pub {
    /// None just where the header block does not begin with [`HEADER_START`](crate::HEADER_START), or it and the payload have more than
    /// [`MAX_PAYLOAD`] bytes together. Want of memory comes only where there is a publication.
    pub fn new(
        alloc: Global,
        subject: Subject,
        reply: Option<Reply>,
        headers: Option<Bytes>,
        payload: Bytes,
        echo: bool,
    ) -> Result<Option<Pub>, AllocError>
        ensures publication { IfOk result (λ publication.
            publication ≡ new_publication subject reply headers payload echo) }
        ensures err { OnErr result (is_body headers payload ≡ true) }
    {
        let message = Message::new(alloc, subject, reply, headers, payload)?;
        Ok(message.map(|message| Pub { message, echo }))
    }
}
