//! Reading the frames of a route: what a line says alone, a line as it stands there, and whole frames. A line is judged without
//! memory, and then its parts are copied.

ghost use Rattle.route_frames.specs.declared.line_reading.Operation.TheVariants as operation;
ghost use Rattle.route_frames.specs.declared.reading.RouteLine.TheVariants as route_line;
ghost use Rattle.route_frames.specs.declared.reading.LineBody.TheVariants as line_body;
ghost use Rattle.route_frames.specs.declared.reading.BodyText.TheVariants as body_text;
ghost use Rattle.std.specs.Prelude.{◌≡◌, Ok, Err, IfOk, true, ℕ, false, List, is_ok, is_some, if◌then◌else◌};
ghost use Rattle.route_frames.specs.Lines.{announced_size, announced_headers, body_size, body_headers, line_of_fields, line_by, line_meaning};
ghost use Rattle.std.specs.Option.{option_copied, ok_or};
ghost use Rattle.route_frames.specs.TextViews.{names_view, common_view, key_view, weighted_view, body_view, numbered_view, is_json, text_meaning, size_in, joined_text, Judges};
ghost use Rattle.route_frames.specs.Meaning.{RouteMeans, MeansBy, Says};
ghost use Rattle.route_frames.specs.declared.faults.RouteFault.TheVariants.{BadArgs};
ghost use Rattle.line_fields.specs.Fields.{fields};
ghost use Rattle.route_frames.specs.Operations.{is_json_line};
ghost use Rattle.route_frames.specs.Decoding.{size_meaning, payload_meaning, block_meaning, fits_meaning, body_fits, body_in, content_in, message_meaning, frame_of_body as framed_by, frame_behind, frame_of_line, body_has_payload, line_has_payload, frame_meaning, takes_memory, ReadsBy, JoinsBy, Joins, failure_of};
ghost use Rattle.route_frames.specs.Refusals.{IsSizeOf, IsReadOf, IsFrameOf};

use crate::faults::RouteFault;
use crate::greetings::{read_connect, read_info};
use crate::line_reading::{
    Common, Digits, MessageFields, Names, NumberedOperation, Numbers, Operation, read_message,
    read_minus, read_plus, read_snapshot,
};
use crate::snapshot_reading::read_snapshot_keys;
use bytes::Bytes;
use line_fields::split_line;
use route_values::{Body, Numbered, RouteConnect, RouteFrame, RouteInfo, WeightedKey};
use std::alloc::{AllocError, Global};
use subj::{
    Failure, HEADER_START, Incarnation, Key, MAX_PAYLOAD, Message, MessageBody, MessageParts,
    NameFault, NodeId, Pattern, QueueName, QueueNames, Reply, Subject,
};

/// What the line of a numbered frame says behind the common fields.
pub(crate) enum LineBody {
    Plus(WeightedKey),
    Minus(Key),
    /// A snapshot of so many bytes follows.
    Snapshot(u64),
    /// A payload of so many bytes follows, of which the first are the header block, where there is one.
    Msg {
        subject: Subject,
        reply: Option<Reply>,
        queues: QueueNames,
        headers: Option<u64>,
        size: u64,
    },
}

/// One call, also for crates above: `docs/PROVING.md`, "What a proof costs".
impl Drop for LineBody {
    fn drop(self) {
        match self {
            LineBody::Plus(_) | LineBody::Minus(_) | LineBody::Snapshot(_) => {}
            LineBody::Msg {
                subject: _,
                reply: _,
                queues: _,
                headers: _,
                size: _,
            } => {}
        }
    }
}

/// The line of a numbered frame, as it was read.
#[derive(Drop)]
pub struct NumberedLine {
    pub(crate) from: NodeId,
    pub(crate) to: NodeId,
    pub(crate) numbers: Numbers,
    pub(crate) body: LineBody,
}

/// The line of a frame, as it was read, while its payload is still to come: whoever takes frames from a
/// stream reads each line once, waits for as many bytes as it announces, and joins the two.
#[derive(Drop)]
pub enum RouteLine {
    /// The whole of an `INFO`.
    Info(RouteInfo),
    /// The whole of a `CONNECT`.
    Connect(RouteConnect),
    /// The line of any other frame.
    Numbered(NumberedLine),
}

/// Why a line and its payload were joined to no frame.
#[derive(Drop)]
pub enum Unjoined {
    /// The payload is not what the line announces.
    Refused(RouteFault),
    /// The allocator gave no memory for the keys of a snapshot, or for a message, which shares the
    /// payload. Nothing is lost: both are here as they were, so that they can be joined later.
    OutOfMemory { line: RouteLine, payload: Bytes },
}

impl From<RouteFault> for Unjoined {
    ghost use Rattle.std.specs.Prelude.{◌≡◌};
    ghost use Rattle.route_frames.specs.declared.reading.Unjoined.TheVariants.{Refused};

    ghost from_gives = { λ fault unjoined. unjoined ≡ Refused fault };

    fn from(fault: RouteFault) -> Unjoined {
        Unjoined::Refused(fault)
    }
}

impl Unjoined {
    /// The same, without what is given back.
    fn failure(self) -> Failure<RouteFault>
        ensures { failure_of (Err self) ≡ Err result }
    {
        match &self {
            Unjoined::Refused(fault) => Failure::Refused(*fault),
            Unjoined::OutOfMemory { .. } => Failure::OutOfMemory,
        }
    }
}

impl RouteLine {
    /// How many bytes of payload follow the line, where any do.
    pub fn payload_size(&self) -> Option<u64>
        ensures { result ≡ announced_size self.now }
    {
        match self {
            RouteLine::Info(_) | RouteLine::Connect(_) => None,
            RouteLine::Numbered(line) => match &line.body {
                LineBody::Plus(_) | LineBody::Minus(_) => None,
                LineBody::Snapshot(size) => Some(*size),
                LineBody::Msg { size, .. } => Some(*size),
            },
        }
    }

    /// How many of these bytes are a header block, where there is one.
    fn header_size(&self) -> Option<u64>
        ensures { result ≡ announced_headers self.now }
    {
        match self {
            RouteLine::Info(_) | RouteLine::Connect(_) => None,
            RouteLine::Numbered(line) => match &line.body {
                LineBody::Plus(_) | LineBody::Minus(_) | LineBody::Snapshot(_) => None,
                LineBody::Msg { headers, .. } => *headers,
            },
        }
    }
}

/// A key.
#[derive(Clone, Copy)]
pub(crate) struct KeyText<'a> {
    pub(crate) pattern: &'a [u8],
    pub(crate) queue: Option<&'a [u8]>,
}

/// A key with its weight.
#[derive(Clone, Copy)]
pub(crate) struct WeightedText<'a> {
    pub(crate) key: KeyText<'a>,
    pub(crate) weight: u64,
}

/// What the line of a numbered frame says behind the common fields.
#[derive(Clone, Copy)]
pub(crate) enum BodyText<'a> {
    Plus(WeightedText<'a>),
    Minus(KeyText<'a>),
    /// A snapshot of so many bytes follows.
    Snapshot(u64),
    /// A payload of so many bytes follows, of which the first are the header block, where there is one.
    Msg {
        subject: &'a [u8],
        reply: Option<&'a [u8]>,
        names: Names<'a>,
        headers: Option<u64>,
        size: u64,
    },
}

/// The line of a numbered frame.
#[derive(Clone, Copy)]
pub(crate) struct NumberedText<'a> {
    pub(crate) from: &'a [u8],
    pub(crate) to: &'a [u8],
    pub(crate) numbers: Digits,
    pub(crate) body: BodyText<'a>,
}

/// The line of any frame. The JSON behind `INFO` and `CONNECT` can't be judged without memory.
#[derive(Clone, Copy)]
pub(crate) enum LineText<'a> {
    Info(&'a [u8]),
    Connect(&'a [u8]),
    Numbered(NumberedText<'a>),
}

/// A name that was judged before: it lacks memory alone.
fn name_copy<T>(read: Result<T, Failure<NameFault>>) -> Result<T, AllocError>
    ensures { IfOk result (λ name. read ≡ Ok name) }
{
    match read {
        Ok(name) => Ok(name),
        Err(_) => Err(AllocError),
    }
}

fn copy_reply(alloc: Global, reply: Option<&[u8]>) -> Result<Option<Reply>, AllocError>
    ensures { IfOk result (λ copy. copy ≡ option_copied reply.entry) }
{
    match reply {
        None => Ok(None),
        Some(reply) => Ok(Some(name_copy(Subject::read(alloc, reply))?)),
    }
}

fn copy_queues(alloc: Global, names: Names<'_>) -> Result<QueueNames, AllocError>
    ensures { IfOk result (λ copy. copy ≡ names_view names.entry) }
{
    let mut copies = Vec::with_capacity(alloc, names.len())?;
    let mut rest = names;
    while let Some((name, others)) = rest.split_first() {
        copies.push(name_copy(QueueName::read(alloc, name))?)?;
        rest = others;
    }
    QueueNames::from_names(alloc, copies)?.ok_or(AllocError)
}

impl KeyText<'_> {
    pub(crate) fn copy(self, alloc: Global) -> Result<Key, AllocError>
        ensures { IfOk result (λ key. key ≡ key_view self.entry) }
    {
        let pattern = name_copy(Pattern::read(alloc, self.pattern))?;
        let queue = match self.queue {
            None => None,
            Some(queue) => Some(name_copy(QueueName::read(alloc, queue))?),
        };
        Ok(Key { pattern, queue })
    }
}

impl WeightedText<'_> {
    pub(crate) fn copy(self, alloc: Global) -> Result<WeightedKey, AllocError>
        ensures { IfOk result (λ weighted. weighted ≡ weighted_view self.entry) }
    {
        let key = self.key.copy(alloc)?;
        WeightedKey::new(key, self.weight).ok_or(AllocError)
    }
}

/// The subject and the reply of a publication, with parts of their own.
#[inline(always)]
fn copy_address(
    alloc: Global,
    subject: &[u8],
    reply: Option<&[u8]>,
) -> Result<(Subject, Option<Reply>), AllocError>
    ensures { IfOk result (λ copies.
        (copies.0 ≡ subject.now) × (copies.1 ≡ option_copied reply.entry)) }
{
    let subject = name_copy(Subject::read(alloc, subject))?;
    let reply = copy_reply(alloc, reply)?;
    Ok((subject, reply))
}

/// What the line of a publication says, with parts of its own.
#[inline(always)]
fn copy_message(
    alloc: Global,
    subject: &[u8],
    reply: Option<&[u8]>,
    names: Names<'_>,
    headers: Option<u64>,
    size: u64,
) -> Result<LineBody, AllocError>
    ensures { IfOk result (λ body.
        body ≡ body_view (body_text.Msg subject.entry reply.entry names.entry headers size)) }
{
    let queues = copy_queues(alloc, names)?;
    let (subject, reply) = copy_address(alloc, subject, reply)?;
    Ok(LineBody::Msg {
        subject,
        reply,
        queues,
        headers,
        size,
    })
}

impl BodyText<'_> {
    fn copy(self, alloc: Global) -> Result<LineBody, AllocError>
        ensures { IfOk result (λ body. body ≡ body_view self.entry) }
    {
        match self {
            BodyText::Plus(weighted) => weighted.copy(alloc).map(LineBody::Plus),
            BodyText::Minus(key) => key.copy(alloc).map(LineBody::Minus),
            BodyText::Snapshot(size) => Ok(LineBody::Snapshot(size)),
            BodyText::Msg {
                subject,
                reply,
                names,
                headers,
                size,
            } => copy_message(alloc, subject, reply, names, headers, size),
        }
    }
}

impl NumberedText<'_> {
    /// How many bytes of payload follow the line, where any do.
    pub(crate) fn payload_size(self) -> Option<u64>
        ensures { result ≡ body_size (body_view self.entry.body) }
    {
        match self.body {
            BodyText::Plus(_) | BodyText::Minus(_) => None,
            BodyText::Snapshot(size) => Some(size),
            BodyText::Msg { size, .. } => Some(size),
        }
    }

    /// How many of these bytes are a header block, where there is one.
    fn header_size(self) -> Option<u64>
        ensures { result ≡ body_headers (body_view self.entry.body) }
    {
        match self.body {
            BodyText::Plus(_) | BodyText::Minus(_) | BodyText::Snapshot(_) => None,
            BodyText::Msg { headers, .. } => headers,
        }
    }

    pub(crate) fn copy(self, alloc: Global) -> Result<NumberedLine, AllocError>
        ensures { IfOk result (λ line. line ≡ numbered_view self.entry) }
    {
        let numbers = Numbers {
            inc: Incarnation::new(self.numbers.inc).ok_or(AllocError)?,
            to_inc: Incarnation::new(self.numbers.to_inc).ok_or(AllocError)?,
            number: self.numbers.number,
        };
        let from = NodeId::read(self.from).ok().ok_or(AllocError)?;
        let to = NodeId::read(self.to).ok().ok_or(AllocError)?;
        let body = self.body.copy(alloc)?;
        Ok(NumberedLine {
            from,
            to,
            numbers,
            body,
        })
    }
}

impl LineText<'_> {
    /// The line with parts of its own.
    pub(crate) fn copy(self, alloc: Global) -> Result<RouteLine, Failure<RouteFault>>
        ensures { RouteMeans (is_json self.entry) (text_meaning self.entry) result }
    {
        match self {
            LineText::Info(text) => Ok(RouteLine::Info(read_info(alloc, text)?)),
            LineText::Connect(text) => Ok(RouteLine::Connect(read_connect(alloc, text)?)),
            LineText::Numbered(line) => Ok(RouteLine::Numbered(line.copy(alloc)?)),
        }
    }

    /// How many bytes of payload follow the line, where any do.
    pub(crate) fn payload_size(self, alloc: Global) -> Result<Option<u64>, Failure<RouteFault>>
        ensures { RouteMeans (is_json self.entry) (size_in self.entry) result }
    {
        match self {
            LineText::Info(text) => {
                let _info = read_info(alloc, text)?;
                Ok(None)
            }
            LineText::Connect(text) => {
                let _connect = read_connect(alloc, text)?;
                Ok(None)
            }
            LineText::Numbered(line) => Ok(line.payload_size()),
        }
    }
}

/// What a numbered line says behind its common fields.
fn read_behind<'a>(
    operation: NumberedOperation,
    common: Common<'a>,
    text: &'a [u8],
) -> Result<NumberedText<'a>, RouteFault>
    ensures { Says numbered_view (line_by operation (common_view common.entry) (fields text.now))
        result }
{
    match operation {
        NumberedOperation::Plus => read_plus(common, text),
        NumberedOperation::Minus => read_minus(common, text),
        NumberedOperation::Snapshot => read_snapshot(common, text),
        NumberedOperation::Msg => read_message(common, MessageFields::read(Names::all(text))),
        NumberedOperation::HeaderMsg => {
            read_message(common, MessageFields::read_with_headers(Names::all(text)))
        }
    }
}

/// What a numbered line says behind its operation.
fn read_numbered(operation: NumberedOperation, text: &[u8]) -> Result<NumberedText<'_>, RouteFault>
    ensures { Says (λ line. route_line.Numbered (numbered_view line))
        (line_of_fields (line_by operation) (fields text.now)) result }
{
    let (common, behind) = Common::read(text).ok_or(RouteFault::BadArgs)?;
    read_behind(operation, common, behind)
}

/// What a line says, as it stands there.
#[tactic(auto, using(crate::proofs::Cuts::Behind::behind_first))]
fn read_text(line: &[u8]) -> Result<LineText<'_>, RouteFault>
    ensures { Judges line.now result }
{
    let Some((field, text)) = split_line(line) else {
        return Err(RouteFault::UnknownOp);
    };
    match Operation::read(field) {
        None => Err(RouteFault::UnknownOp),
        Some(Operation::Info) => Ok(LineText::Info(text)),
        Some(Operation::Connect) => Ok(LineText::Connect(text)),
        Some(Operation::Numbered(operation)) => {
            Ok(LineText::Numbered(read_numbered(operation, text)?))
        }
    }
}

/// Whether a payload has the announced size.
fn check_size(size: Option<u64>, payload: &[u8]) -> Result<(), RouteFault>
    ensures { result ≡ payload_meaning size payload.now }
{
    let fits = match size {
        None => payload.is_empty(),
        Some(size) => payload.len() as u64 == size,
    };
    if fits {
        Ok(())
    } else {
        Err(RouteFault::BadArgs)
    }
}

/// Whether a payload begins with a header block of this size, where there is to be one.
fn check_block(headers: Option<u64>, payload: &[u8]) -> Result<(), RouteFault>
    ensures { result ≡ block_meaning headers payload.now }
{
    let begins = match headers {
        None => true,
        Some(headers) => {
            headers <= payload.len() as u64 && payload[..headers as usize].starts_with(HEADER_START)
        }
    };
    if begins {
        Ok(())
    } else {
        Err(RouteFault::BadArgs)
    }
}

/// Whether a payload has the announced size, and begins as it has to.
fn check_payload(size: Option<u64>, headers: Option<u64>, payload: &[u8]) -> Result<(), RouteFault>
    ensures { result ≡ fits_meaning size headers payload.now }
{
    check_size(size, payload)?;
    check_block(headers, payload)
}

fn reply_copy(reply: &Option<Reply>) -> Result<Option<Reply>, AllocError>
    ensures { IfOk result (λ copy. copy ≡ reply.now) }
{
    match reply {
        None => Ok(None),
        Some(reply) => Ok(Some(reply.try_clone()?)),
    }
}

/// Whether bytes are not too many, and begin with a header block of this size, where there is to be one.
fn check_body(headers: Option<u64>, bytes: &[u8]) -> Result<(), RouteFault>
    ensures { result ≡ (if is_some (body_in headers bytes.now) then Ok tt else Err BadArgs) }
{
    if bytes.len() > MAX_PAYLOAD {
        return Err(RouteFault::BadArgs);
    }
    check_block(headers, bytes)
}

/// A header block of this size, where there is one, and the payload behind it; they share the bytes.
fn body_of(headers: Option<u64>, bytes: &Bytes) -> Result<MessageBody, Failure<RouteFault>>
    ensures { RouteMeans false (ok_or (body_in headers bytes.now) BadArgs) result }
{
    check_body(headers, bytes)?;
    let bytes = bytes.clone()?;
    let Some(headers) = headers else {
        return Ok(MessageBody::plain(bytes));
    };
    let body = MessageBody::split(bytes, headers as usize)?;
    Ok(body.ok_or(RouteFault::BadArgs)?)
}

/// The message of a line and what stands behind it; copies share their bytes.
fn message_with(
    alloc: Global,
    subject: &Subject,
    reply: &Option<Reply>,
    body: MessageBody,
) -> Result<Message, AllocError>
    ensures { IfOk result (λ message. message ≡ content_in subject.now reply.now body) }
{
    let subject = subject.try_clone()?;
    let reply = reply_copy(reply)?;
    let parts = MessageParts {
        subject,
        reply,
        body,
    };
    Ok(Message::from_parts(alloc, parts)?)
}

/// The same, of the bytes of what stands behind it.
fn message_of(
    alloc: Global,
    subject: &Subject,
    reply: &Option<Reply>,
    headers: Option<u64>,
    bytes: &Bytes,
) -> Result<Message, Failure<RouteFault>>
    ensures { RouteMeans false (message_meaning subject.now reply.now headers bytes.now) result }
{
    let body = body_of(headers, bytes)?;
    Ok(message_with(alloc, subject, reply, body)?)
}

/// The frame of a line and what it says, with what the payload says.
fn numbered_frame(
    from: NodeId,
    to: NodeId,
    numbers: Numbers,
    body: Body,
) -> Result<RouteFrame, RouteFault>
    ensures { result ≡ framed_by from to numbers body }
{
    let frame = Numbered::new(from, numbers.inc, to, numbers.to_inc, numbers.number, body);
    Ok(RouteFrame::Numbered(frame.ok_or(RouteFault::BadArgs)?))
}

/// Why the payload behind a line was not read.
enum Unread {
    /// It is not what the line announces.
    Refused(RouteFault),
    /// The allocator gave no memory. What the line says is here as it was.
    OutOfMemory(LineBody),
}

/// A snapshot of so many bytes.
fn snapshot_body(alloc: Global, size: u64, payload: &[u8]) -> Result<Body, Unread>
    ensures { ReadsBy (line_body.Snapshot size) payload.now result }
{
    match read_snapshot_keys(alloc, payload) {
        Ok(keys) => Ok(Body::Snapshot(keys)),
        Err(Failure::Refused(fault)) => Err(Unread::Refused(fault)),
        Err(Failure::OutOfMemory) => Err(Unread::OutOfMemory(LineBody::Snapshot(size))),
    }
}

/// A publication, by what its line says and the payload.
#[inline(always)]
fn message_body(
    alloc: Global,
    subject: Subject,
    reply: Option<Reply>,
    queues: QueueNames,
    headers: Option<u64>,
    size: u64,
    payload: &Bytes,
) -> Result<Body, Unread>
    ensures { ReadsBy (line_body.Msg subject reply queues headers size) payload.now result }
{
    match message_of(alloc, &subject, &reply, headers, payload) {
        Ok(message) => Ok(Body::Msg { message, queues }),
        Err(Failure::Refused(fault)) => Err(Unread::Refused(fault)),
        Err(Failure::OutOfMemory) => Err(Unread::OutOfMemory(LineBody::Msg {
            subject,
            reply,
            queues,
            headers,
            size,
        })),
    }
}

impl LineBody {
    /// What a frame says, by what its line says and the payload behind it.
    #[inline(always)]
    fn read(self, alloc: Global, payload: &Bytes) -> Result<Body, Unread>
        ensures { ReadsBy self payload.now result }
    {
        match self {
            LineBody::Plus(key) => Ok(Body::Plus(key)),
            LineBody::Minus(key) => Ok(Body::Minus(key)),
            LineBody::Snapshot(size) => snapshot_body(alloc, size, payload.as_slice()),
            LineBody::Msg {
                subject,
                reply,
                queues,
                headers,
                size,
            } => message_body(alloc, subject, reply, queues, headers, size, payload),
        }
    }
}

#[tactic(auto, unfolding(crate::specs::Decoding::numbered_meaning))]
fn join_numbered(alloc: Global, line: NumberedLine, payload: Bytes) -> Result<RouteFrame, Unjoined>
    ensures { JoinsBy (body_has_payload line.body) (frame_behind (route_line.Numbered line) payload)
        (route_line.Numbered line) payload result }
{
    let NumberedLine {
        from,
        to,
        numbers,
        body,
    } = line;
    match body.read(alloc, &payload) {
        Ok(body) => numbered_frame(from, to, numbers, body).map_err(Unjoined::Refused),
        Err(Unread::Refused(fault)) => Err(Unjoined::Refused(fault)),
        Err(Unread::OutOfMemory(body)) => {
            let line = RouteLine::Numbered(NumberedLine {
                from,
                to,
                numbers,
                body,
            });
            Err(Unjoined::OutOfMemory { line, payload })
        }
    }
}

/// The frame of a line and a payload of the size that it announces.
fn join(alloc: Global, line: RouteLine, payload: Bytes) -> Result<RouteFrame, Unjoined>
    ensures { JoinsBy (line_has_payload line) (frame_behind line payload) line payload result }
{
    match line {
        RouteLine::Info(info) => Ok(RouteFrame::Info(info)),
        RouteLine::Connect(connect) => Ok(RouteFrame::Connect(connect)),
        RouteLine::Numbered(line) => join_numbered(alloc, line, payload),
    }
}

/// A frame, or why there is none, without what was given back.
fn joined_frame(joined: Result<RouteFrame, Unjoined>) -> Result<RouteFrame, Failure<RouteFault>>
    ensures { result ≡ failure_of joined }
{
    joined.map_err(Unjoined::failure)
}

/// The frame of a numbered line. The size of the payload and how it begins are judged before the parts are copied.
fn decode_numbered(
    alloc: Global,
    line: NumberedText<'_>,
    payload: Bytes,
) -> Result<RouteFrame, Failure<RouteFault>>
    ensures { MeansBy (λ frame. frame) (is_ok (body_fits (body_view line.entry.body) payload))
        (frame_of_line (route_line.Numbered (numbered_view line.entry)) payload) result }
{
    check_payload(line.payload_size(), line.header_size(), payload.as_slice())?;
    let line = RouteLine::Numbered(line.copy(alloc)?);
    joined_frame(line.into_frame(alloc, payload))
}

fn decode_greeting(
    alloc: Global,
    text: LineText<'_>,
    payload: Bytes,
) -> Result<RouteFrame, Failure<RouteFault>>
    ensures { MeansBy (λ frame. frame) true (joined_text text.entry payload) result }
{
    let line = text.copy(alloc)?;
    joined_frame(line.into_frame(alloc, payload))
}

impl RouteLine {
    /// What a line says, which has no CR LF. Every test is made that the line alone allows.
    ///
    /// Refused by what the line means: `UnknownOp` where it is empty, begins with a blank or names no
    /// operation of a route; `BadArgs` for a number of fields, or marks among them, that no form of the
    /// operation has; then `TooManyQueues` for more than [`MAX_QUEUE_NAMES`](subj::MAX_QUEUE_NAMES) queue names; then
    /// `BadArgs` for a number that is no digits or has too many; then `BadNumber` for one out of its
    /// range; then `BadArgs` for all else: an account other than `$G`, a name, a pattern, a subject or a
    /// reply that is none, queue names that do not stand in strictly rising order. For `INFO` and
    /// `CONNECT`: `BadArgs` for a text that is no JSON object; then `BadNumber` for a number that is
    /// whole and out of its range; then `BadArgs` for a member that is missing or is of another kind, or
    /// a name that is none.
    ///
    /// The line is judged first, and then its parts are copied: want of memory stands in place of a
    /// refusal only behind `INFO` and `CONNECT`, whose texts can't be judged without memory. (NATS
    /// documentation, "Cluster Protocol"; profile.)
    pub fn read(alloc: Global, line: &[u8]) -> Result<RouteLine, Failure<RouteFault>>
        ensures spelt { IsReadOf line.now result }
        ensures means { RouteMeans (is_json_line line.now) (line_meaning line.now) result }
    {
        let text = read_text(line)?;
        text.copy(alloc)
    }

    /// The frame of the line and the payload behind it, which has no CR LF and is shared, not copied.
    /// Where the line announces none, the payload has to be empty.
    ///
    /// Refused by `BadArgs`: for a payload of another size than announced, for one that is not the text of
    /// a snapshot behind `RSS`, and for a header block that is none behind `RHMSG`. Want of memory comes
    /// only where a payload of the announced size is read as a snapshot or shared as a message, and gives
    /// the line and the payload back. (Profile.)
    pub fn into_frame(self, alloc: Global, payload: Bytes) -> Result<RouteFrame, Unjoined>
        ensures spelt { (line : List ℕ)
            → line_meaning line ≡ Ok self
            → IsFrameOf line payload (failure_of result) }
        ensures means { Joins self payload result }
    {
        let size = self.payload_size();
        let headers = self.header_size();
        check_payload(size, headers, payload.as_slice())?;
        join(alloc, self, payload)
    }
}

/// How many bytes of payload follow a line, where any do. Refused by what [`RouteLine::read`] tells of
/// it; want of memory comes only behind `INFO` and `CONNECT`. (Profile.)
pub fn payload_size(alloc: Global, line: &[u8]) -> Result<Option<u64>, Failure<RouteFault>>
    ensures spelt { IsSizeOf line.now result }
    ensures means { RouteMeans (is_json_line line.now) (size_meaning line.now) result }
{
    let text = read_text(line)?;
    text.payload_size(alloc)
}

/// The frame that a line and the payload behind it spell; neither has its CR LF. Refused by what
/// [`RouteLine::read`] tells of the line, and then by what [`RouteLine::into_frame`] tells of the
/// payload. Want of memory stands in place of a refusal only behind `INFO` and `CONNECT`, and where a
/// payload of the announced size is read as a snapshot. (NATS documentation, "Cluster Protocol";
/// profile.)
pub fn decode(alloc: Global, line: &[u8], payload: Bytes) -> Result<RouteFrame, Failure<RouteFault>>
    ensures spelt { IsFrameOf line.now payload result }
    ensures means { RouteMeans (takes_memory line.now payload) (frame_meaning line.now payload)
        result }
{
    let text = read_text(line)?;
    match text {
        LineText::Numbered(line) => decode_numbered(alloc, line, payload),
        LineText::Info(_) | LineText::Connect(_) => decode_greeting(alloc, text, payload),
    }
}
