//! The bytes of a message in two parts: the first is the same for all messages of a subject to one subscription, and the second
//! for all subscriptions to one message.

ghost use Rattle.std.specs.Prelude.{◌≡◌, ◌≤◌, ◌+◌, ◌++◌, true, false, is_some, length, Some, IfOk, IfSome, OnOk};
ghost use Rattle.std.specs.Option.{option_copied};
ghost use Rattle.client_frames.specs.Messages.{head_bytes, head_for, plain_tail, plain_tails, tail_bytes, tail_for, tails_of};
ghost use Rattle.line_fields.specs.LineEnd.{line_end};

use crate::encoding::{
    BLANK, HMSG, MAX_BEHIND, append_number, append_reply, append_reply_bytes, message_body,
};
use line_fields::{CR_LF, append_reserved};
use std::alloc::{AllocError, Global};
use std::marker::Model;
use subj::{LentSubject, MAX_PAYLOAD, MAX_SID, MAX_SUBJECT, Message, Sid};

/// The most bytes of the first part.
pub const MAX_HEAD: usize = HMSG.len() + MAX_SUBJECT + BLANK.len() + MAX_SID;

/// The most bytes of the second part.
pub const MAX_TAIL: usize = MAX_BEHIND + CR_LF.len() + MAX_PAYLOAD + CR_LF.len();

/// The line of a message of this subject up to the id of a subscription and with it, as it is in front of a header block. Without its
/// first byte it is the line in front of none. (NATS documentation, "Client Protocol": `HMSG` and `MSG`.)
pub fn message_head(
    alloc: Global,
    subject: &LentSubject<'_>,
    sid: &Sid,
) -> Result<Vec<u8>, AllocError>
    ensures same { IfOk result (λ head. head.items ≡ head_bytes subject.now sid.now) }
    ensures some { IfOk result (λ head. 1 ≤ length head.items) }
    ensures fits { IfOk result (λ head. length head.items ≤ MAX_HEAD) }
{
    let (subject, sid) = (subject.bytes(), sid.bytes());
    let len = HMSG.len() + subject.len() + BLANK.len() + sid.len();
    let mut head = Vec::with_capacity(alloc, len)?;
    append_reserved(&mut head, HMSG);
    append_reserved(&mut head, subject);
    append_reserved(&mut head, BLANK);
    append_reserved(&mut head, sid);
    Ok(head)
}

/// Appends what stands behind the line of a message, which is at most a payload long, with the CR LF of the line and its own.
fn append_body(body: &[u8], out: &mut Vec<u8>) -> Result<(), AllocError>
    ensures { OnOk result (out.new.items ≡ out.old.items ++ (line_end ++ (body.now ++ line_end))) }
{
    out.extend_from_slice(CR_LF)?;
    out.extend_from_slice(body)?;
    out.extend_from_slice(CR_LF)?;
    Ok(())
}

/// Appends the second part of a message that goes without headers.
fn append_plain(message: &Message, out: &mut Vec<u8>) -> Result<(), AllocError>
    ensures same { OnOk result (out.new.items ≡ out.old.items ++ tail_bytes message.now false) }
    ensures fits { OnOk result (length out.new.items ≤ length out.old.items + MAX_TAIL) }
{
    append_reply(message, out)?;
    append_number(message.payload().len(), out)?;
    append_body(message_body(message, false), out)
}

/// Appends the second part of a message without a header block that has this reply and this payload.
#[inline(always)]
fn append_parts(reply: Option<&[u8]>, payload: &[u8], out: &mut Vec<u8>) -> Result<(), AllocError>
    requires reply { IfSome (option_copied reply) (λ reply. length reply ≤ MAX_SUBJECT) }
    requires payload { length payload.now ≤ MAX_PAYLOAD }
    ensures same { OnOk result
        (out.new.items
        ≡ out.old.items ++ plain_tail (option_copied reply.entry) payload.now) }
    ensures fits { OnOk result (length out.new.items ≤ length out.old.items + MAX_TAIL) }
{
    append_reply_bytes(reply, out)?;
    append_number(payload.len(), out)?;
    append_body(payload, out)
}

/// Appends the second part of a message that goes with this header block, which is its own.
fn append_headed(message: &Message, block: &[u8], out: &mut Vec<u8>) -> Result<(), AllocError>
    requires { message.now.headers ≡ Some block.now }
    ensures same { OnOk result (out.new.items ≡ out.old.items ++ tail_bytes message.now true) }
    ensures fits { OnOk result (length out.new.items ≤ length out.old.items + MAX_TAIL) }
{
    append_reply(message, out)?;
    append_number(block.len(), out)?;
    out.extend_from_slice(BLANK)?;
    append_number(message.whole().len(), out)?;
    append_body(message_body(message, true), out)
}

/// Writes the second part of a message that goes without headers in place of what is there. Nothing is there for want of memory.
fn write_plain(message: &Message, out: &mut Vec<u8>) -> Result<(), AllocError>
    ensures same { OnOk result (out.new.items ≡ tail_bytes message.now false) }
    ensures fits { length out.new.items ≤ MAX_TAIL }
{
    out.clear();
    let written = append_plain(message, out);
    if written.is_err() {
        out.clear();
    }
    written
}

/// Writes the second part of a message without a header block, that has this reply and this payload, in place of what is there.
/// Nothing is there for want of memory.
fn write_parts(reply: Option<&[u8]>, payload: &[u8], out: &mut Vec<u8>) -> Result<(), AllocError>
    requires reply { IfSome (option_copied reply) (λ reply. length reply ≤ MAX_SUBJECT) }
    requires payload { length payload.now ≤ MAX_PAYLOAD }
    ensures same { OnOk result
        (out.new.items ≡ plain_tail (option_copied reply.entry) payload.now) }
    ensures fits { length out.new.items ≤ MAX_TAIL }
{
    out.clear();
    let written = append_parts(reply, payload, out);
    if written.is_err() {
        out.clear();
    }
    written
}

/// Writes the second part of a message that goes with its header block in place of what is there. Nothing is there where it has no
/// block, and for want of memory. Whether it has one.
fn write_headed(message: &Message, out: &mut Vec<u8>) -> Result<bool, AllocError>
    ensures same { IfOk result (λ has_block. has_block ≡ is_some message.now.headers) }
    ensures text { IfOk result (λ has_block.
        has_block ≡ true → out.new.items ≡ tail_bytes message.now true) }
    ensures fits { length out.new.items ≤ MAX_TAIL }
{
    out.clear();
    let Some(block) = message.headers() else {
        return Ok(false);
    };
    if append_headed(message, block, out).is_err() {
        out.clear();
        return Err(AllocError);
    }
    Ok(true)
}

/// What stands behind the id of a subscription in the messages of one publication, to their ends, in memory that is used again for the
/// next. (NATS documentation, "Client Protocol": `MSG`, and `HMSG` where the publication has a header block.)
///
/// Seen as that in both forms, and whether there is a header block.
#[derive(Drop)]
pub struct MessageTails {
    plain: Vec<u8>,
    headed: Vec<u8>,
    /// Whether there is a header block: else both forms are the plain one.
    has_block: bool,
}

impl Model for MessageTails {
    ghost use Rattle.std.specs.Prelude.{◌≤◌, length, if◌then◌else◌};
    ghost use Rattle.client_frames.specs.declared.message_parts.TheConstants.{MAX_TAIL};
    ghost use Rattle.client_frames.specs.Messages.{Tails};

    ghost Value = { Tails };

    ghost view = { λ tails. record {
      plain = tails.plain.items;
      headed = if tails.has_block then tails.headed.items else tails.plain.items;
      has_block = tails.has_block;
    } };

    ghost invariant = { λ tails.
        (length tails.plain.items ≤ MAX_TAIL) × (length tails.headed.items ≤ MAX_TAIL) };
}

impl MessageTails {
    /// Of no publication yet.
    pub fn new(alloc: Global) -> MessageTails {
        MessageTails {
            plain: Vec::new(alloc),
            headed: Vec::new(alloc),
            has_block: false,
        }
    }

    /// Those of this message, in place of what was there.
    pub fn write(&mut self, message: &Message) -> Result<(), AllocError>
        ensures { OnOk result (self.new ≡ tails_of message.now) }
    {
        write_plain(message, &mut self.plain)?;
        self.has_block = write_headed(message, &mut self.headed)?;
        Ok(())
    }

    /// Those of a message without a header block that has this reply and this payload, in place of what was there. Required: the
    /// reply is as long as a subject may be, and the payload is within its limit.
    #[inline(always)]
    pub fn write_parts(&mut self, reply: Option<&[u8]>, payload: &[u8]) -> Result<(), AllocError>
        requires reply { IfSome (option_copied reply) (λ reply. length reply ≤ MAX_SUBJECT) }
        requires payload { length payload.now ≤ MAX_PAYLOAD }
        ensures { OnOk result
            (self.new ≡ plain_tails (option_copied reply.entry) payload.now) }
    {
        write_parts(reply, payload, &mut self.plain)?;
        self.has_block = false;
        Ok(())
    }

    /// What stands behind the id of a subscription, to the end of the message, at a connection that takes headers or does not.
    pub fn tail(&self, takes_headers: bool) -> &[u8]
        ensures same { result.now ≡ tail_for self.now takes_headers }
        ensures fits { length result.now ≤ MAX_TAIL }
    {
        if takes_headers && self.has_block {
            &self.headed
        } else {
            &self.plain
        }
    }

    /// The part of a head ([`message_head`]) that a message of this publication begins with at a connection that takes headers or
    /// does not.
    pub fn head<'a>(&self, head: &'a [u8], takes_headers: bool) -> &'a [u8]
        requires { 1 ≤ length head.now }
        ensures same { result.now ≡ head_for self.now head.now takes_headers }
        ensures fits { length result.now ≤ length head.now }
    {
        if takes_headers && self.has_block {
            head
        } else {
            &head[1..]
        }
    }
}
