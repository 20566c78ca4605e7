//! Writing what a server sends, and the lines that messages are delivered with.

ghost use Rattle.std.specs.Prelude.{◌≡◌, ℕ, ◌+◌, ◌≤◌, List, codes, decimal, length, None, Some, option_map, IfOk, IfSome, OnOk, ◌++◌, is_ok, if◌then◌else◌};
ghost use Rattle.std.specs.Option.{option_copied};
ghost use Rattle.client_frames.specs.Messages.{parts_with, headers_due, operation, block_field, reply_field, line_forms, form_for, line_around, due_line, due_body, due_bytes};
ghost use Rattle.std.specs.Cow.{cow_slice_items};
ghost use Rattle.client_frames.specs.Frames.{frame_bytes, reply_line as line_of_reply};
ghost use Rattle.client_frames.specs.declared.server_frames.ServerFrame.TheVariants.{Reply, Msg};
ghost use Rattle.client_frames.specs.declared.server_frames.ReplyFrame.TheVariants.{Info};

use crate::info::{InfoData, info_text};
use crate::server_frames::{Delivery, ReplyFrame, ServerFrame};
use bytes::Bytes;
use itoa::Buffer;
use line_fields::{CR_LF, append_reserved};
use std::alloc::{AllocError, Global};
use std::borrow::CowSlice;
use std::marker::Model;
use subj::{MAX_PAYLOAD, MAX_SID, MAX_SUBJECT, Message, Sid};

const MSG: &[u8] = b"MSG ";

pub(crate) const HMSG: &[u8] = b"HMSG ";

pub(crate) const BLANK: &[u8] = b" ";

/// The most digits of a number of 64 bits.
const MAX_DIGITS: usize = 20;

/// The most bytes before the subscription id in the line of a message, with the blank between.
const MAX_BEFORE: usize = 5 + MAX_SUBJECT + 1;

/// The most bytes behind the subscription id in the line of a message, with the blank between.
pub(crate) const MAX_BEHIND: usize = 1 + MAX_SUBJECT + 1 + MAX_DIGITS + 1 + MAX_DIGITS;

/// The most bytes of the line of a message, without its CR LF.
pub const MAX_MESSAGE_LINE: usize = MAX_BEFORE + MAX_SID + MAX_BEHIND;

/// A line up to the subscription id, with the blank between: the operation and the subject. It has room for what stands behind the id.
#[inline(always)]
fn before_sid(alloc: Global, operation: &[u8], message: &Message) -> Result<Vec<u8>, AllocError>
    requires { length operation.now ≤ 5 }
    ensures same { IfOk result (λ text.
        text.items ≡ operation.now ++ (message.now.subject ++ codes " ")) }
    ensures fits { IfOk result (λ text. length text.items ≤ MAX_BEFORE) }
{
    let subject = message.subject().bytes();
    let behind = BLANK.len() + reply_len(message) + MAX_DIGITS + BLANK.len() + MAX_DIGITS;
    let len = operation.len() + subject.len() + BLANK.len() + behind;
    let mut text = Vec::with_capacity(alloc, len)?;
    append_reserved(&mut text, operation);
    append_reserved(&mut text, subject);
    append_reserved(&mut text, BLANK);
    Ok(text)
}

/// Appends a number in digits.
#[inline(always)]
pub(crate) fn append_number(number: usize, text: &mut Vec<u8>) -> Result<(), AllocError>
    ensures same { OnOk result (text.new.items ≡ text.old.items ++ decimal number) }
    ensures fits { OnOk result (length text.new.items ≤ length text.old.items + MAX_DIGITS) }
{
    let mut buffer = Buffer::new();
    text.extend_from_slice(buffer.format(number).as_bytes())?;
    Ok(())
}

/// Appends the blank behind the subscription id, and a reply with the blank behind it, where there is one.
#[inline(always)]
pub(crate) fn append_reply_bytes(reply: Option<&[u8]>, text: &mut Vec<u8>) -> Result<(), AllocError>
    requires { IfSome (option_copied reply) (λ reply. length reply ≤ MAX_SUBJECT) }
    ensures same { OnOk result
        (text.new.items
        ≡ text.old.items ++ (codes " " ++ reply_field (option_copied reply.entry))) }
    ensures fits { OnOk result
        (length text.new.items ≤ length text.old.items + 1 + MAX_SUBJECT + 1) }
{
    text.extend_from_slice(BLANK)?;
    let Some(reply) = reply else {
        return Ok(());
    };
    text.extend_from_slice(reply)?;
    text.extend_from_slice(BLANK)?;
    Ok(())
}

/// Appends the blank behind the subscription id, and the reply of a message with the blank behind it.
#[inline(always)]
pub(crate) fn append_reply(message: &Message, text: &mut Vec<u8>) -> Result<(), AllocError>
    ensures same { OnOk result
        (text.new.items ≡ text.old.items ++ (codes " " ++ reply_field message.now.reply)) }
    ensures fits { OnOk result
        (length text.new.items ≤ length text.old.items + 1 + MAX_SUBJECT + 1) }
{
    match message.reply() {
        None => append_reply_bytes(None, text),
        Some(reply) => append_reply_bytes(Some(reply.bytes()), text),
    }
}

/// The line of a message in one form, without the subscription id.
///
/// Seen as what stands before the id, and what behind it.
#[derive(Drop)]
struct LineText {
    text: Vec<u8>,
    /// Where the subscription id goes.
    sid_at: usize,
}

impl Model for LineText {
    ghost use Rattle.std.specs.Prelude.{◌+◌, ◌≤◌, length, take, drop};
    ghost use Rattle.subj.specs.declared.limits.TheConstants.{MAX_SID};
    ghost use Rattle.client_frames.specs.declared.encoding.TheConstants.{MAX_MESSAGE_LINE};
    ghost use Rattle.client_frames.specs.Messages.{LineParts};

    ghost Value = { LineParts };

    ghost view = { λ line. record {
      before = take line.sid_at line.text.items;
      behind = drop line.sid_at line.text.items;
    } };

    ghost invariant = { λ line.
        (line.sid_at ≤ length line.text.items)
        × (length line.text.items + MAX_SID ≤ MAX_MESSAGE_LINE) };
}

impl LineText {
    /// Of a message that goes without headers.
    fn plain(alloc: Global, message: &Message) -> Result<LineText, AllocError>
        ensures { IfOk result (λ text. text ≡ parts_with message.now None) }
    {
        let mut text = before_sid(alloc, MSG, message)?;
        let sid_at = text.len();
        append_reply(message, &mut text)?;
        append_number(message.payload().len(), &mut text)?;
        Ok(LineText { text, sid_at })
    }

    /// Of a message that goes with its header block; none where it has no block.
    fn headed(alloc: Global, message: &Message) -> Result<Option<LineText>, AllocError>
        ensures { IfOk result (λ text.
            text ≡ option_map (λ block. parts_with message.now (Some block)) message.now.headers) }
    {
        let Some(block) = message.headers() else {
            return Ok(None);
        };
        let mut text = before_sid(alloc, HMSG, message)?;
        let sid_at = text.len();
        append_reply(message, &mut text)?;
        append_number(block.len(), &mut text)?;
        text.extend_from_slice(BLANK)?;
        append_number(message.whole().len(), &mut text)?;
        Ok(Some(LineText { text, sid_at }))
    }

    /// What stands before the subscription id.
    #[inline(always)]
    fn before(&self) -> &[u8]
        ensures { result.now ≡ self.now.before }
    {
        &self.text[..self.sid_at]
    }

    /// What stands behind the subscription id.
    #[inline(always)]
    fn behind(&self) -> &[u8]
        ensures { result.now ≡ self.now.behind }
    {
        &self.text[self.sid_at..]
    }
}

/// The lines that one message is delivered with. Those of one form differ in the subscription id alone: what stands before it and
/// behind it is made once. (NATS documentation, "Client Protocol": `MSG`, and `HMSG` where the message has a header block.)
///
/// Seen as these pieces of both forms.
#[derive(Drop)]
pub struct MessageLines {
    alloc: Global,
    plain: LineText,
    headed: Option<LineText>,
}

impl Model for MessageLines {
    ghost use Rattle.client_frames.specs.Messages.{LineForms, headed_or};

    ghost Value = { LineForms };

    ghost view = { λ lines. record {
      plain = lines.plain;
      headed = headed_or lines.plain lines.headed;
    } };
}

impl MessageLines {
    /// The lines of this message.
    pub fn new(alloc: Global, message: &Message) -> Result<MessageLines, AllocError>
        ensures { IfOk result (λ lines. lines ≡ line_forms message.now) }
    {
        let plain = LineText::plain(alloc, message)?;
        let headed = LineText::headed(alloc, message)?;
        Ok(MessageLines {
            alloc,
            plain,
            headed,
        })
    }

    /// The form of the lines to a connection that takes headers, or does not.
    #[inline(always)]
    fn form(&self, takes_headers: bool) -> &LineText
        ensures { result.now ≡ form_for self.now takes_headers }
    {
        match &self.headed {
            Some(headed) if takes_headers => headed,
            _ => &self.plain,
        }
    }

    /// How many bytes the line for one subscription has, without its CR LF, at a connection that takes headers or does not.
    pub fn line_len(&self, sid: &Sid, takes_headers: bool) -> usize
        ensures same { result ≡ length (line_around (form_for self.now takes_headers) sid.now) }
        ensures fits { result ≤ MAX_MESSAGE_LINE }
    {
        self.form(takes_headers).text.len() + sid.bytes().len()
    }

    /// Writes the line for one subscription, without its CR LF, in place of what is in `out`, for a connection that takes headers or
    /// does not.
    pub fn write_line(
        &self,
        sid: &Sid,
        takes_headers: bool,
        out: &mut Vec<u8>,
    ) -> Result<(), AllocError>
        ensures same { OnOk result
            (out.new.items ≡ line_around (form_for self.now takes_headers) sid.now) }
        ensures fits { OnOk result (length out.new.items ≤ MAX_MESSAGE_LINE) }
    {
        let form = self.form(takes_headers);
        let sid = sid.bytes();
        out.clear();
        out.reserve(form.text.len() + sid.len())?;
        append_reserved(out, form.before());
        append_reserved(out, sid);
        append_reserved(out, form.behind());
        Ok(())
    }

    /// The line for one subscription, without its CR LF, at a connection that takes headers or does not.
    pub fn line(&self, sid: &Sid, takes_headers: bool) -> Result<Vec<u8>, AllocError>
        ensures same { IfOk result (λ line.
            line.items ≡ line_around (form_for self.now takes_headers) sid.now) }
        ensures fits { IfOk result (λ line. length line.items ≤ MAX_MESSAGE_LINE) }
    {
        let form = self.form(takes_headers);
        let sid = sid.bytes();
        let mut line = Vec::with_capacity(self.alloc, form.text.len() + sid.len())?;
        append_reserved(&mut line, form.before());
        append_reserved(&mut line, sid);
        append_reserved(&mut line, form.behind());
        Ok(line)
    }
}

/// The line of a message for one subscription, without its CR LF, at a connection that takes headers or does not. For several
/// subscriptions of one message [`MessageLines`] makes less work.
pub fn message_line(
    alloc: Global,
    message: &Message,
    sid: &Sid,
    takes_headers: bool,
) -> Result<Vec<u8>, AllocError>
    ensures same { IfOk result (λ line. line.items ≡ due_line message.now sid.now takes_headers) }
    ensures fits { IfOk result (λ line. length line.items ≤ MAX_MESSAGE_LINE) }
{
    let lines = MessageLines::new(alloc, message)?;
    lines.line(sid, takes_headers)
}

/// What stands behind the line of a message: its payload, and before it its header block where it has one and the connection takes
/// headers. It shares the message's memory.
pub fn message_body(message: &Message, takes_headers: bool) -> &Bytes
    ensures same { result.now ≡ due_body message.now takes_headers }
    ensures fits { length result.now ≤ MAX_PAYLOAD }
{
    if takes_headers {
        message.whole()
    } else {
        message.payload()
    }
}

/// How many digits the number has.
fn digits_of(number: usize) -> usize
    ensures same { result ≡ length (decimal number) }
    ensures most { result ≤ MAX_DIGITS }
{
    Buffer::new().format(number).len()
}

/// How many bytes the reply of a message takes up in its line, with the blank behind it.
fn reply_len(message: &Message) -> usize
    ensures same { result ≡ length (reply_field message.now.reply) }
    ensures most { result ≤ MAX_SUBJECT + 1 }
{
    match message.reply() {
        None => 0,
        Some(reply) => reply.bytes().len() + BLANK.len(),
    }
}

/// How many bytes more the line has of a message that goes with its header block: of the operation, and of the size of the block with
/// the blank behind it. 0 where it goes without one.
fn block_len(message: &Message, takes_headers: bool) -> usize
    ensures same { 4 + result
        ≡ length (operation (headers_due message.now takes_headers))
        + length (block_field (headers_due message.now takes_headers)) }
    ensures most { result ≤ 1 + MAX_DIGITS + 1 }
{
    match message.headers() {
        Some(block) if takes_headers => 1 + digits_of(block.len()) + BLANK.len(),
        _ => 0,
    }
}

/// How many bytes a message has for a subscription of a connection that takes headers or does not, its line and what stands behind it
/// with their CR LF, beside those of the id of the subscription. Takes no memory.
pub fn message_len(message: &Message, takes_headers: bool) -> usize
    ensures len { (sid : List ℕ)
        → length (due_bytes message.now sid takes_headers) ≡ result + length sid }
    ensures some { 1 ≤ result }
{
    let body = message_body(message, takes_headers).len();
    let subject = message.subject().bytes().len();
    let line = MSG.len() + subject + BLANK.len() + BLANK.len() + reply_len(message);
    let line = line + block_len(message, takes_headers);
    line + digits_of(body) + CR_LF.len() + body + CR_LF.len()
}

/// The line of `INFO`, without its CR LF.
fn info_line(alloc: Global, info: &InfoData) -> Result<Vec<u8>, AllocError>
    ensures { IfOk result (λ line. line.items ≡ line_of_reply (Info info.now)) }
{
    let text = info_text(alloc, info)?;
    let mut line = Vec::from_slice(alloc, b"INFO ")?;
    line.extend_from_slice(text.as_bytes())?;
    Ok(line)
}

/// The line of an answer, without its CR LF. Only that of `INFO` takes memory.
pub fn reply_line(alloc: Global, reply: &ReplyFrame) -> Result<CowSlice<'static, u8>, AllocError>
    ensures { IfOk result (λ line. cow_slice_items line ≡ line_of_reply reply.now) }
{
    match reply {
        ReplyFrame::Info(info) => Ok(CowSlice::Owned(info_line(alloc, info)?)),
        ReplyFrame::Pong => Ok(CowSlice::Borrowed(b"PONG")),
        ReplyFrame::Ok => Ok(CowSlice::Borrowed(b"+OK")),
        ReplyFrame::Err(text) => Ok(CowSlice::Borrowed(text.line())),
    }
}

fn encode_reply(reply: &ReplyFrame, out: &mut Vec<u8>) -> Result<(), AllocError>
    ensures { out.new.items
        ≡ (if is_ok result then out.old.items ++ frame_bytes (Reply reply.now) else out.old.items) }
{
    let line = reply_line(*out.allocator(), reply)?;
    out.reserve(line.len() + CR_LF.len())?;
    append_reserved(out, &line);
    append_reserved(out, CR_LF);
    Ok(())
}

fn encode_delivery(delivery: &Delivery, out: &mut Vec<u8>) -> Result<(), AllocError>
    ensures { out.new.items
        ≡ (if is_ok result then out.old.items ++ frame_bytes (Msg delivery.now)
        else out.old.items) }
{
    let (message, takes_headers) = (&delivery.message, delivery.takes_headers);
    let line = message_line(*out.allocator(), message, &delivery.sid, takes_headers)?;
    let body = message_body(message, takes_headers).as_slice();
    out.reserve(line.len() + CR_LF.len() + body.len() + CR_LF.len())?;
    append_reserved(out, &line);
    append_reserved(out, CR_LF);
    append_reserved(out, body);
    append_reserved(out, CR_LF);
    Ok(())
}

/// Appends what a server sends, in the form of the client protocol. After want of memory the bytes
/// are as they were.
pub fn encode(frame: &ServerFrame, out: &mut Vec<u8>) -> Result<(), AllocError>
    ensures { out.new.items
        ≡ (if is_ok result then out.old.items ++ frame_bytes frame.now else out.old.items) }
{
    match frame {
        ServerFrame::Reply(reply) => encode_reply(reply, out),
        ServerFrame::Msg(delivery) => encode_delivery(delivery, out),
    }
}
