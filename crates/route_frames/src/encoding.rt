//! Writing the frames of a route.

ghost use Rattle.std.specs.Prelude.{◌≡◌, ◌+◌, ◌≤◌, ◌∷◌, ◌++◌, length, decimal, is_ok, if◌then◌else◌, IfOk, OnOk};
ghost use Rattle.serde_json.specs.View.{view};
ghost use Rattle.route_values.specs.declared.frames.RouteFrame.TheVariants.{Info, Connect};
ghost use Rattle.route_values.specs.declared.frames.RouteFrame.TheVariants as route;
ghost use Rattle.route_values.specs.declared.bodies.Body.TheVariants.{Plus, Minus, Snapshot, Msg};
ghost use Rattle.route_values.specs.Snapshots.{snapshot_text, line_end};
ghost use Rattle.route_frames.specs.Canonical.{info_json, connect_json, fields_with_spaces, message_operation as operation_of_headers, operation_word, common_of, form_fields, size_fields, body_fields, numbered_line, canonical_line, frame_bytes};
ghost use Rattle.std.specs.Option.{option_copied};
ghost use Rattle.route_frames.specs.Operations.{word_of};
ghost use Rattle.subj.specs.Messages.{body_of};

use crate::line_reading::{ACCOUNT, NAMES_MARK, REPLY_MARK};
use itoa::Buffer;
use line_fields::{CR_LF, append_reserved};
use route_values::{
    Body, Numbered, RouteConnect, RouteFrame, RouteInfo, SnapshotKeys, WeightedKey,
};
use serde_json::{Value, json};
use std::alloc::{AllocError, Global};
use subj::{Key, MAX_SNAPSHOT, Message, QueueName, QueueNames, Subject};

const BLANK: &[u8] = b" ";

/// How many bytes a line has room for at first; most lines are shorter.
const LINE_ROOM: usize = 256;

fn info_value(alloc: Global, info: &RouteInfo) -> Result<Value, AllocError>
    ensures { IfOk result (λ value. view value ≡ info_json info.now) }
{
    let server_name = info.server_name();
    json!(in alloc; {
        "inc": info.inc().get(),
        "server_name": server_name.text(),
    })
}

fn connect_value(alloc: Global, connect: &RouteConnect) -> Result<Value, AllocError>
    ensures { IfOk result (λ value. view value ≡ connect_json connect.now) }
{
    let server_name = connect.server_name();
    let to = connect.to();
    json!(in alloc; {
        "inc": connect.inc().get(),
        "serial": connect.serial(),
        "server_name": server_name.text(),
        "to": to.text(),
        "to_inc": connect.to_inc().get(),
    })
}

fn info_line(alloc: Global, info: &RouteInfo) -> Result<Vec<u8>, AllocError>
    ensures { IfOk result (λ line. line.items ≡ canonical_line (Info info.now)) }
{
    let value = info_value(alloc, info)?;
    let text = value.to_string(alloc)?;
    let mut line = Vec::from_slice(alloc, b"INFO ")?;
    line.extend_from_slice(text.as_bytes())?;
    Ok(line)
}

fn connect_line(alloc: Global, connect: &RouteConnect) -> Result<Vec<u8>, AllocError>
    ensures { IfOk result (λ line. line.items ≡ canonical_line (Connect connect.now)) }
{
    let value = connect_value(alloc, connect)?;
    let text = value.to_string(alloc)?;
    let mut line = Vec::from_slice(alloc, b"CONNECT ")?;
    line.extend_from_slice(text.as_bytes())?;
    Ok(line)
}

/// Appends a blank and a field.
fn put_field(line: &mut Vec<u8>, field: &[u8]) -> Result<(), AllocError>
    ensures { OnOk result (line.new.items ≡ line.old.items ++ (32 ∷ field.now)) }
{
    line.extend_from_slice(BLANK)?;
    line.extend_from_slice(field)?;
    Ok(())
}

/// Appends a blank and a number.
fn put_number(line: &mut Vec<u8>, number: u64) -> Result<(), AllocError>
    ensures { OnOk result (line.new.items ≡ line.old.items ++ (32 ∷ decimal number)) }
{
    let mut buffer = Buffer::new();
    put_field(line, buffer.format(number).as_bytes())
}

/// Appends the queue names, each with a blank in front.
fn put_names(line: &mut Vec<u8>, names: &[QueueName]) -> Result<(), AllocError>
    ensures { OnOk result (line.new.items ≡ line.old.items ++ fields_with_spaces names.now) }
{
    for name in names {
        put_field(line, name.bytes())?;
    }
    Ok(())
}

/// Appends the fields that all numbered frames have.
fn put_common(line: &mut Vec<u8>, frame: &Numbered) -> Result<(), AllocError>
    ensures { OnOk result
        (line.new.items ≡ line.old.items ++ fields_with_spaces (common_of frame.now)) }
{
    put_field(line, frame.from().bytes())?;
    put_number(line, frame.inc().get())?;
    put_field(line, frame.to().bytes())?;
    put_number(line, frame.to_inc().get())?;
    put_number(line, frame.number())?;
    Ok(())
}

fn put_plus(line: &mut Vec<u8>, weighted: &WeightedKey) -> Result<(), AllocError>
    ensures { OnOk result
        (line.new.items ≡ line.old.items ++ fields_with_spaces (body_fields (Plus weighted.now))) }
{
    put_field(line, ACCOUNT)?;
    put_field(line, weighted.key().pattern.bytes())?;
    if let Some(queue) = &weighted.key().queue {
        put_field(line, queue.bytes())?;
        put_number(line, weighted.weight())?;
    }
    Ok(())
}

fn put_minus(line: &mut Vec<u8>, key: &Key) -> Result<(), AllocError>
    ensures { OnOk result
        (line.new.items ≡ line.old.items ++ fields_with_spaces (body_fields (Minus key.now))) }
{
    put_field(line, ACCOUNT)?;
    put_field(line, key.pattern.bytes())?;
    if let Some(queue) = &key.queue {
        put_field(line, queue.bytes())?;
    }
    Ok(())
}

/// Appends the reply and the queue names in the form that has them.
fn put_form(
    line: &mut Vec<u8>,
    reply: Option<&Subject>,
    names: &[QueueName],
) -> Result<(), AllocError>
    ensures { OnOk result (line.new.items
        ≡ line.old.items
        ++ fields_with_spaces (form_fields (option_copied reply.entry) names.now)) }
{
    if names.is_empty() {
        if let Some(reply) = reply {
            put_field(line, reply.bytes())?;
        }
        return Ok(());
    }
    match reply {
        None => put_field(line, NAMES_MARK)?,
        Some(reply) => {
            put_field(line, REPLY_MARK)?;
            put_field(line, reply.bytes())?;
        }
    }
    put_names(line, names)
}

/// Appends the size of the header block, where there is one, and that of all that follows the line.
fn put_sizes(line: &mut Vec<u8>, message: &Message) -> Result<(), AllocError>
    ensures { OnOk result (line.new.items
        ≡ line.old.items
        ++ fields_with_spaces (size_fields message.now.headers (length (body_of message.now)))) }
{
    if let Some(block) = message.headers() {
        put_number(line, block.len() as u64)?;
    }
    put_number(line, message.whole().len() as u64)
}

fn put_message(line: &mut Vec<u8>, message: &Message, queues: &QueueNames) -> Result<(), AllocError>
    ensures { OnOk result (line.new.items
        ≡ line.old.items ++ fields_with_spaces (body_fields (Msg message.now queues.now))) }
{
    put_field(line, ACCOUNT)?;
    put_field(line, message.subject().bytes())?;
    put_form(line, message.reply(), queues.as_slice())?;
    put_sizes(line, message)
}

/// Appends a line and its CR LF.
fn append_line(line: &[u8], out: &mut Vec<u8>) -> Result<(), AllocError>
    ensures { out.new.items
        ≡ (if is_ok result then out.old.items ++ (line.now ++ line_end) else out.old.items) }
{
    out.reserve(line.len() + CR_LF.len())?;
    append_reserved(out, line);
    append_reserved(out, CR_LF);
    Ok(())
}

/// Appends a line and a payload, each with its CR LF.
fn append_frame(line: &[u8], payload: &[u8], out: &mut Vec<u8>) -> Result<(), AllocError>
    requires { length payload.now ≤ MAX_SNAPSHOT }
    ensures { out.new.items
        ≡ (if is_ok result
        then out.old.items ++ (line.now ++ (line_end ++ (payload.now ++ line_end)))
        else out.old.items) }
{
    out.reserve(line.len() + CR_LF.len() + payload.len() + CR_LF.len())?;
    append_reserved(out, line);
    append_reserved(out, CR_LF);
    append_reserved(out, payload);
    append_reserved(out, CR_LF);
    Ok(())
}

/// Appends a line and the text of a snapshot, each with its CR LF.
fn append_snapshot(line: &[u8], keys: &SnapshotKeys, out: &mut Vec<u8>) -> Result<(), AllocError>
    ensures { out.new.items
        ≡ (if is_ok result
        then out.old.items ++ (line.now ++ (line_end ++ (snapshot_text keys.now ++ line_end)))
        else out.old.items) }
{
    out.reserve(line.len() + CR_LF.len() + keys.text_len() + CR_LF.len())?;
    append_reserved(out, line);
    append_reserved(out, CR_LF);
    let appended = keys.append_text(out);
    prove!(appended.is_ok());
    append_reserved(out, CR_LF);
    Ok(())
}

/// The operation of a publication, with headers or without.
fn message_operation(message: &Message) -> &'static [u8]
    ensures { result.now ≡ word_of (operation_of_headers message.now.headers) }
{
    if message.headers().is_some() {
        b"RHMSG"
    } else {
        b"RMSG"
    }
}

fn operation(body: &Body) -> &'static [u8]
    ensures { result.now ≡ operation_word body.now }
{
    match body {
        Body::Plus(_) => b"RS+",
        Body::Minus(_) => b"RS-",
        Body::Snapshot(_) => b"RSS",
        Body::Msg { message, .. } => message_operation(message),
    }
}

/// The line of a numbered frame as far as all of them are alike.
fn begun_line(alloc: Global, frame: &Numbered) -> Result<Vec<u8>, AllocError>
    ensures { IfOk result (λ line.
        line.items ≡ operation_word frame.now.body ++ fields_with_spaces (common_of frame.now)) }
{
    let mut line = Vec::with_capacity(alloc, LINE_ROOM)?;
    line.extend_from_slice(operation(frame.body()))?;
    put_common(&mut line, frame)?;
    Ok(line)
}

#[tactic(auto, unfolding(crate::specs::Canonical::numbered_line))]
fn encode_numbered(frame: &Numbered, out: &mut Vec<u8>) -> Result<(), AllocError>
    ensures { out.new.items
        ≡ (if is_ok result then out.old.items ++ frame_bytes (route.Numbered frame.now)
        else out.old.items) }
{
    let alloc = *out.allocator();
    let mut line = begun_line(alloc, frame)?;
    match frame.body() {
        Body::Plus(weighted) => {
            put_plus(&mut line, weighted)?;
            append_line(&line, out)
        }
        Body::Minus(key) => {
            put_minus(&mut line, key)?;
            append_line(&line, out)
        }
        Body::Snapshot(keys) => {
            put_number(&mut line, keys.text_len() as u64)?;
            append_snapshot(&line, keys, out)
        }
        Body::Msg { message, queues } => {
            put_message(&mut line, message, queues)?;
            append_frame(&line, message.whole().as_slice(), out)
        }
    }
}

/// Appends the canonical spelling of a frame: upper case, one space between fields, no leading zeros,
/// compact JSON with its keys in the order of their bytes, `RHMSG` just for a publication with headers;
/// the line and, where there is one, the payload are each ended by CR LF. After want of memory the bytes
/// are as they were. (NATS
/// documentation, "Cluster Protocol"; profile.)
pub fn encode(frame: &RouteFrame, out: &mut Vec<u8>) -> Result<(), AllocError>
    ensures { out.new.items
        ≡ (if is_ok result then out.old.items ++ frame_bytes frame.now else out.old.items) }
{
    match frame {
        RouteFrame::Info(info) => {
            let line = info_line(*out.allocator(), info)?;
            append_line(&line, out)
        }
        RouteFrame::Connect(connect) => {
            let line = connect_line(*out.allocator(), connect)?;
            append_line(&line, out)
        }
        RouteFrame::Numbered(frame) => encode_numbered(frame, out),
    }
}
