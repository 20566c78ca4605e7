//! Reading control lines: operations, the fields behind them, and what the text of a `CONNECT` chooses.

ghost use Rattle.std.specs.Prelude.{◌≡◌, None, Some, MatchOption, IfOk, IfSome, Ok, option_map, ⊤, is_some, if◌then◌else◌, OnErr};
ghost use Rattle.client_frames.specs.declared.client_line.ClientLine.TheVariants.{Pub};
ghost use Rattle.client_frames.specs.Operations.{operation_of};
ghost use Rattle.std.specs.Option.{option_copied};
ghost use Rattle.line_fields.specs.Fields.{fields};
ghost use Rattle.client_frames.specs.Arguments.{two_or_three, three_or_four, count_of};
ghost use Rattle.serde_json.specs.Find.{get};
ghost use Rattle.serde_json.specs.View.{view};
ghost use Rattle.client_frames.specs.Choices.{json_of, options_in, options_of, truth_or};
ghost use Rattle.subj.specs.Names.{subject_fault, sid_fault};
ghost use Rattle.client_frames.specs.Lines.{ClientLineMeans, line_meaning, operation_meaning, connection_of, publication, publication_of, sizes_of, headed_publication_of, subscription_of, unsubscription_of, maximum_of, reply_fault, queue_fault};

use crate::client_line::{ClientLine, Options, PubHead};
use crate::faults::LineFault;
use crate::last_line::LastLine;
use bytes::{Bytes, BytesMut};
use line_fields::{is_word, read_digits, split_field, split_line};
use serde_json::Value;
use std::alloc::{AllocError, Global};
use std::marker::Model;
use subj::{Failure, NameFault, Pattern, QueueName, Reply, Sid, Subject};

/// The first field of a control line. (NATS documentation, "Client Protocol".)
#[derive(Clone, Copy)]
pub(crate) enum Operation {
    Connect,
    Pub,
    Hpub,
    Sub,
    Unsub,
    Ping,
    Pong,
}

impl Operation {
    /// The operation that a field names. The most frequent ones are tried first.
    pub(crate) fn read(field: &[u8]) -> Option<Operation>
        ensures { result ≡ operation_of field.now }
    {
        if is_word(b"PUB", field) {
            return Some(Operation::Pub);
        }
        if is_word(b"HPUB", field) {
            return Some(Operation::Hpub);
        }
        if is_word(b"SUB", field) {
            return Some(Operation::Sub);
        }
        if is_word(b"PING", field) {
            return Some(Operation::Ping);
        }
        if is_word(b"PONG", field) {
            return Some(Operation::Pong);
        }
        if is_word(b"UNSUB", field) {
            return Some(Operation::Unsub);
        }
        if is_word(b"CONNECT", field) {
            return Some(Operation::Connect);
        }
        None
    }
}

/// Two fields, and perhaps one between them.
#[derive(Clone, Copy)]
pub(crate) struct Arguments<'a> {
    pub(crate) first: &'a [u8],
    pub(crate) between: Option<&'a [u8]>,
    pub(crate) last: &'a [u8],
}

impl<'a> Arguments<'a> {
    /// The fields of a text, where these are two or three.
    #[inline(always)]
    pub(crate) fn read(text: &'a [u8]) -> Option<Arguments<'a>>
        ensures { MatchOption result (two_or_three (fields text.now) ≡ None) (λ a.
            two_or_three (fields text.now)
            ≡ Some (record {
              first = a.first.now;
              between = option_copied a.between;
              last = a.last.now;
            })) }
    {
        let (first, behind) = split_field(text)?;
        let (second, behind) = split_field(behind)?;
        let Some((third, behind)) = split_field(behind) else {
            return Some(Arguments {
                first,
                between: None,
                last: second,
            });
        };
        match split_field(behind) {
            None => Some(Arguments {
                first,
                between: Some(second),
                last: third,
            }),
            Some(_) => None,
        }
    }
}

/// Three fields, and perhaps one behind the first.
#[derive(Clone, Copy)]
pub(crate) struct HeadedArguments<'a> {
    pub(crate) first: &'a [u8],
    pub(crate) between: Option<&'a [u8]>,
    pub(crate) block: &'a [u8],
    pub(crate) whole: &'a [u8],
}

impl<'a> HeadedArguments<'a> {
    /// The fields of a text, where these are three or four.
    pub(crate) fn read(text: &'a [u8]) -> Option<HeadedArguments<'a>>
        ensures { MatchOption result (three_or_four (fields text.now) ≡ None) (λ a.
            three_or_four (fields text.now)
            ≡ Some (record {
              first = a.first.now;
              between = option_copied a.between;
              block = a.block.now;
              whole = a.whole.now;
            })) }
    {
        let (first, behind) = split_field(text)?;
        let (second, behind) = split_field(behind)?;
        let (third, behind) = split_field(behind)?;
        let Some((fourth, behind)) = split_field(behind) else {
            return Some(HeadedArguments {
                first,
                between: None,
                block: second,
                whole: third,
            });
        };
        match split_field(behind) {
            None => Some(HeadedArguments {
                first,
                between: Some(second),
                block: third,
                whole: fourth,
            }),
            Some(_) => None,
        }
    }
}

/// The JSON that a text is, where it is any.
fn read_json(alloc: Global, text: &[u8]) -> Result<Option<Value>, AllocError>
    ensures { IfOk result (λ json. option_map view json ≡ json_of text.now) }
{
    match Value::from_slice(alloc, text) {
        Ok(json) => Ok(Some(json)),
        Err(error) => {
            if error.is_memory() {
                return Err(AllocError);
            }
            Ok(None)
        }
    }
}

/// Whether an option is on; one that is absent is as `absent` says. None where it is no truth value.
fn is_on(json: &Value, name: &str, absent: bool) -> Option<bool>
    ensures { result ≡ truth_or absent (get name.now (view json.now)) }
{
    match json.get(name) {
        None => Some(absent),
        Some(value) => value.as_bool(),
    }
}

/// The options in an object.
fn options_within(json: &Value) -> Option<Options>
    ensures { result ≡ options_in (view json.now) }
{
    if !json.is_object() {
        return None;
    }
    let verbose = is_on(json, "verbose", true)?;
    let echo = is_on(json, "echo", true)?;
    let headers = is_on(json, "headers", false)?;
    Some(Options {
        verbose,
        echo,
        headers,
    })
}

/// The options that the text of a `CONNECT` chooses. None where it is no JSON object, or where one of
/// them is no truth value.
pub(crate) fn read_options(alloc: Global, text: &[u8]) -> Result<Option<Options>, AllocError>
    ensures { IfOk result (λ options. options ≡ options_of text.now) }
{
    let Some(json) = read_json(alloc, text)? else {
        return Ok(None);
    };
    Ok(options_within(&json))
}

/// The most bytes of a text that shares its memory with others.
const SMALL: usize = 256;

/// For how many bytes of small texts memory is taken at once.
const BLOCK: usize = 2_048;

/// Copies texts, such as the subjects and the payloads of publications. Small ones share blocks of memory, each of
/// which is given back with the last text in it, so that most of them take none of their own.
///
/// A client mostly publishes on the subject that it has just published on: one that is handed back with [`SharedTexts::keep`] is
/// neither judged nor copied again.
///
/// Nothing is seen of it but what it copies.
pub struct SharedTexts {
    pub(crate) alloc: Global,
    block: BytesMut,
    last_subject: Option<Subject>,
    /// Whether the subject that was read last was the one that is kept.
    is_again: bool,
    last_line: LastLine,
}

/// One call, also for crates above: `docs/PROVING.md`, "What a proof costs".
impl Drop for SharedTexts {
    fn drop(self) {
        let SharedTexts {
            alloc: _,
            block: _,
            last_subject: _,
            is_again: _,
            last_line: _,
        } = self;
    }
}

impl Model for SharedTexts {
    ghost Value = { ⊤ };

    ghost view = { λ _. tt };
}

impl SharedTexts {
    /// It takes no memory before there is something to copy.
    pub fn new(alloc: Global) -> SharedTexts {
        SharedTexts {
            alloc,
            block: BytesMut::new(alloc),
            last_subject: None,
            is_again: false,
            last_line: LastLine::new(alloc),
        }
    }

    /// What the line announces, where it is the line that was read last, and its subject is kept: neither is read again.
    #[inline(always)]
    fn head_again(&mut self, line: &[u8]) -> Option<PubHead>
        ensures { IfSome result (λ head. line_meaning line.now ≡ Ok (Pub head)) }
    {
        let size = match &self.last_subject {
            None => None,
            Some(subject) => self.last_line.size_of(line, subject.bytes()),
        };
        let size = size?;
        let subject = self.last_subject.take()?;
        self.is_again = true;
        Some(PubHead {
            subject,
            reply: None,
            headers: None,
            size,
        })
    }

    /// Notes what a line means, where it announces a publication without a reply and without a header block, on the subject of the one
    /// before it.
    fn note_line(&mut self, line: &[u8], meaning: &Result<ClientLine, Failure<LineFault>>)
        requires { ClientLineMeans (line_meaning line.now) meaning.now }
    {
        if !self.is_again {
            return;
        }
        if let Ok(ClientLine::Pub(head)) = meaning {
            if head.reply.is_none() && head.headers.is_none() {
                self.last_line.note(line, head.subject.bytes(), head.size);
            }
        }
    }

    /// A copy of the text.
    pub fn copy(&mut self, text: &[u8]) -> Result<Bytes, AllocError>
        ensures { IfOk result (λ copy. copy ≡ text.now) }
    {
        if text.len() > SMALL {
            return Bytes::copy_from_slice(self.alloc, text);
        }
        if !self.block.is_empty() || self.block.capacity() < text.len() {
            self.block = BytesMut::with_capacity(self.alloc, BLOCK)?;
        }
        self.block.extend_reserved(text);
        self.block.freeze_to(text.len())
    }

    /// A copy of bytes, where they are a subject. Want of memory comes only where they are one.
    #[inline(never)]
    pub(crate) fn new_subject(&mut self, text: &[u8]) -> Result<Option<Subject>, AllocError>
        ensures ok { IfOk result (λ subject.
            subject ≡ (if is_some (subject_fault text.now) then None else Some text.now)) }
        ensures err { OnErr result (subject_fault text.now ≡ None) }
    {
        // copied first: most are subjects, and the copy is judged once
        match self.copy(text) {
            Ok(copy) => Ok(Subject::from_shared(copy).ok()),
            Err(_) if Subject::fault(text).is_some() => Ok(None),
            Err(lack) => Err(lack),
        }
    }

    /// Whether the subject that was read last was the one that was kept.
    pub fn is_again(&self) -> bool {
        self.is_again
    }

    /// Keeps a subject that is not used any more: where the next line names the same one, its text is not copied again.
    pub fn keep(&mut self, subject: Subject) {
        self.last_subject = Some(subject);
    }

    /// A copy of bytes, where they are a subject; the one that is kept, where they are its own. Want of memory comes only
    /// where they are one.
    #[inline(always)]
    pub(crate) fn subject(&mut self, text: &[u8]) -> Result<Option<Subject>, AllocError>
        ensures ok { IfOk result (λ subject.
            subject ≡ (if is_some (subject_fault text.now) then None else Some text.now)) }
        ensures err { OnErr result (subject_fault text.now ≡ None) }
    {
        self.is_again = false;
        if let Some(last) = self.last_subject.take() {
            if last.bytes() == text {
                self.is_again = true;
                return Ok(Some(last));
            }
        }
        self.new_subject(text)
    }
}

/// The most digits of a size or of a maximum. (Profile.)
const COUNT_DIGITS: usize = 10;

/// What a control line asks for; the line has no CR LF.
///
/// Refused just where the line means no command, and by what it means. `UnknownOp`: it is empty, begins
/// with a blank or names no operation. `BadArgs`: too few or too many fields, a size or a maximum that
/// is not one to ten digits, a header block larger than all that follows, a bad subscription id or the
/// bad name of a queue group, and a `CONNECT` without text. `BadJson`: the text of a `CONNECT` is no JSON
/// object, or its `verbose`, `echo` or `headers` is no truth value. `BadSubject`: nothing but the pattern of
/// a `SUB` is bad. (Profile.)
///
/// Want of memory comes only for a command that keeps names, and for the JSON of a `CONNECT`, good or
/// bad. All other tests come before the first allocation, but a publication's subject is copied before it is judged. The subjects of
/// publications share the memory of the texts.
pub fn decode_line(texts: &mut SharedTexts, line: &[u8]) -> Result<ClientLine, Failure<LineFault>>
    ensures { ClientLineMeans (line_meaning line.now) result }
{
    if let Some(head) = texts.head_again(line) {
        return Ok(ClientLine::Pub(head));
    }
    let meaning = decode_new(texts, line);
    texts.note_line(line, &meaning);
    meaning
}

/// The same of a line that is read for the first time.
#[inline(always)]
fn decode_new(texts: &mut SharedTexts, line: &[u8]) -> Result<ClientLine, Failure<LineFault>>
    ensures { ClientLineMeans (line_meaning line.now) result }
{
    let Some((field, text)) = split_line(line) else {
        return Err(Failure::Refused(LineFault::UnknownOp));
    };
    decode_behind(texts, Operation::read(field), text)
}

/// What an operation asks for, with the text behind it. Publications, of which there are most, are read in place.
#[inline(always)]
fn decode_behind(
    texts: &mut SharedTexts,
    operation: Option<Operation>,
    text: &[u8],
) -> Result<ClientLine, Failure<LineFault>>
    ensures { ClientLineMeans (operation_meaning operation text.now (fields text.now)) result }
{
    match operation {
        Some(Operation::Pub) => decode_pub(texts, text),
        operation => {
            // bound first: what is read in place is then built where it goes, and not moved there
            let other = decode_other(texts, operation, text);
            other
        }
    }
}

/// The same of any operation.
#[inline(never)]
fn decode_other(
    texts: &mut SharedTexts,
    operation: Option<Operation>,
    text: &[u8],
) -> Result<ClientLine, Failure<LineFault>>
    ensures { ClientLineMeans (operation_meaning operation text.now (fields text.now)) result }
{
    match operation {
        None => Err(Failure::Refused(LineFault::UnknownOp)),
        Some(Operation::Pub) => decode_pub(texts, text),
        Some(Operation::Hpub) => decode_hpub(texts, text),
        Some(Operation::Sub) => decode_sub(texts.alloc, text),
        Some(Operation::Ping) => Ok(ClientLine::Ping),
        Some(Operation::Pong) => Ok(ClientLine::Pong),
        Some(Operation::Unsub) => decode_unsub(texts.alloc, text),
        Some(Operation::Connect) => decode_connect(texts.alloc, text),
    }
}

fn decode_connect(alloc: Global, text: &[u8]) -> Result<ClientLine, Failure<LineFault>>
    ensures { ClientLineMeans (connection_of text.now (fields text.now)) result }
{
    if split_field(text).is_none() {
        return Err(Failure::Refused(LineFault::BadArgs));
    }
    match read_options(alloc, text)? {
        Some(options) => Ok(ClientLine::Connect(options)),
        None => Err(Failure::Refused(LineFault::BadJson)),
    }
}

/// Why the reply of a publication is none.
fn fault_of_reply(reply: Option<&[u8]>) -> Option<NameFault>
    ensures { result ≡ reply_fault (option_copied reply.entry) }
{
    Subject::fault(reply?)
}

/// The subject of an answer, where one is awaited.
#[inline(always)]
fn read_reply(texts: &mut SharedTexts, reply: Option<&[u8]>) -> Result<Option<Reply>, AllocError>
    requires { reply_fault (option_copied reply) ≡ None }
    ensures { IfOk result (λ read. read ≡ option_copied reply.entry) }
{
    match reply {
        None => Ok(None),
        Some(reply) => texts.new_subject(reply),
    }
}

/// What a line asks for that publishes on this subject: so many bytes follow it, of which so many are its header block.
#[inline(always)]
fn decode_publication(
    texts: &mut SharedTexts,
    subject: &[u8],
    reply: Option<&[u8]>,
    headers: Option<u64>,
    size: u64,
) -> Result<ClientLine, Failure<LineFault>>
    ensures { ClientLineMeans
        (Ok (publication subject.now (option_copied reply.entry) headers size)) result }
{
    if fault_of_reply(reply).is_some() {
        return Ok(ClientLine::PubBad { size });
    }
    let Some(subject) = texts.subject(subject)? else {
        return Ok(ClientLine::PubBad { size });
    };
    let reply = read_reply(texts, reply)?;
    Ok(ClientLine::Pub(PubHead {
        subject,
        reply,
        headers,
        size,
    }))
}

#[inline(always)]
fn decode_pub(texts: &mut SharedTexts, text: &[u8]) -> Result<ClientLine, Failure<LineFault>>
    ensures { ClientLineMeans (publication_of (two_or_three (fields text.now))) result }
{
    let Some(arguments) = Arguments::read(text) else {
        return Err(Failure::Refused(LineFault::BadArgs));
    };
    let Some(size) = read_digits(arguments.last, COUNT_DIGITS) else {
        return Err(Failure::Refused(LineFault::BadArgs));
    };
    decode_publication(texts, arguments.first, arguments.between, None, size)
}

/// How many bytes a header block has, and how many it and the payload have together.
#[derive(Clone, Copy)]
pub(crate) struct Sizes {
    pub(crate) block: u64,
    pub(crate) whole: u64,
}

/// The sizes that two fields tell. None where one is no number, or where the block is larger than the whole.
fn read_sizes(block: &[u8], whole: &[u8]) -> Option<Sizes>
    ensures { result ≡ sizes_of (count_of block.now) (count_of whole.now) }
{
    let block = read_digits(block, COUNT_DIGITS)?;
    let whole = read_digits(whole, COUNT_DIGITS)?;
    if block > whole {
        return None;
    }
    Some(Sizes { block, whole })
}

fn decode_hpub(texts: &mut SharedTexts, text: &[u8]) -> Result<ClientLine, Failure<LineFault>>
    ensures { ClientLineMeans (headed_publication_of (three_or_four (fields text.now))) result }
{
    let Some(arguments) = HeadedArguments::read(text) else {
        return Err(Failure::Refused(LineFault::BadArgs));
    };
    let Some(sizes) = read_sizes(arguments.block, arguments.whole) else {
        return Err(Failure::Refused(LineFault::BadArgs));
    };
    let Sizes { block, whole } = sizes;
    decode_publication(
        texts,
        arguments.first,
        arguments.between,
        Some(block),
        whole,
    )
}

/// Why the name of a queue group is none.
fn fault_of_queue(queue: Option<&[u8]>) -> Option<NameFault>
    ensures { result ≡ queue_fault (option_copied queue.entry) }
{
    QueueName::fault(queue?)
}

/// The name of a queue group, where one is joined.
fn read_queue(alloc: Global, queue: Option<&[u8]>) -> Result<Option<QueueName>, AllocError>
    requires { queue_fault (option_copied queue) ≡ None }
    ensures { IfOk result (λ read. read ≡ option_copied queue.entry) }
{
    let Some(queue) = queue else {
        return Ok(None);
    };
    match QueueName::read(alloc, queue) {
        Ok(queue) => Ok(Some(queue)),
        // required: the bytes are a queue name
        Err(failure) => Err(failure.want_of_memory()),
    }
}

/// The subscription id of bytes that are one.
fn read_sid(alloc: Global, text: &[u8]) -> Result<Sid, AllocError>
    requires { sid_fault text.now ≡ None }
    ensures { IfOk result (λ sid. sid ≡ text.now) }
{
    match Sid::read(alloc, text) {
        Ok(sid) => Ok(sid),
        // required: the bytes are a subscription id
        Err(failure) => Err(failure.want_of_memory()),
    }
}

/// The name of the queue group of a subscription, where it joins one, and its id.
fn read_membership(
    alloc: Global,
    queue: Option<&[u8]>,
    sid: &[u8],
) -> Result<(Option<QueueName>, Sid), AllocError>
    requires queue { queue_fault (option_copied queue) ≡ None }
    requires sid { sid_fault sid.now ≡ None }
    ensures { IfOk result (λ read. (read.0 ≡ option_copied queue.entry) × (read.1 ≡ sid.now)) }
{
    let queue = read_queue(alloc, queue)?;
    let sid = read_sid(alloc, sid)?;
    Ok((queue, sid))
}

fn decode_sub(alloc: Global, text: &[u8]) -> Result<ClientLine, Failure<LineFault>>
    ensures { ClientLineMeans (subscription_of (two_or_three (fields text.now))) result }
{
    let Some(arguments) = Arguments::read(text) else {
        return Err(Failure::Refused(LineFault::BadArgs));
    };
    if Sid::fault(arguments.last).is_some() || fault_of_queue(arguments.between).is_some() {
        return Err(Failure::Refused(LineFault::BadArgs));
    }
    let pattern = match Pattern::read(alloc, arguments.first) {
        Ok(pattern) => pattern,
        Err(Failure::Refused(_)) => return Err(Failure::Refused(LineFault::BadSubject)),
        Err(Failure::OutOfMemory) => return Err(Failure::OutOfMemory),
    };
    let (queue, sid) = read_membership(alloc, arguments.between, arguments.last)?;
    Ok(ClientLine::Sub {
        pattern,
        queue,
        sid,
    })
}

fn decode_unsub(alloc: Global, text: &[u8]) -> Result<ClientLine, Failure<LineFault>>
    ensures { ClientLineMeans (unsubscription_of (fields text.now)) result }
{
    let Some((sid, behind)) = split_field(text) else {
        return Err(Failure::Refused(LineFault::BadArgs));
    };
    let max = read_maximum(behind)?;
    if Sid::fault(sid).is_some() {
        return Err(Failure::Refused(LineFault::BadArgs));
    }
    let sid = read_sid(alloc, sid)?;
    Ok(ClientLine::Unsub { sid, max })
}

/// The maximum behind a subscription id, where there is one.
fn read_maximum(text: &[u8]) -> Result<Option<u64>, LineFault>
    ensures { result ≡ maximum_of (fields text.now) }
{
    let Some((digits, behind)) = split_field(text) else {
        return Ok(None);
    };
    if split_field(behind).is_some() {
        return Err(LineFault::BadArgs);
    }
    match read_digits(digits, COUNT_DIGITS) {
        Some(max) => Ok(Some(max)),
        None => Err(LineFault::BadArgs),
    }
}
