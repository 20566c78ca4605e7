//! Calls of names and of the values that hold them: limits and numbers, keys, servers, messages and jobs; and of the fields of lines.

use bytes::Bytes;
use golden::{
    Answer, Words, bytes_of, headed_message_of, key_in, life_of, message_of, named, pattern_of,
    payload_of, queues_of, server_of, subject_of,
};
use line_fields::{MAX_DIGITS, fields, is_word, read_digits, split_line};
use std::alloc::Global;
use std::cmp::Ordering;
use subj::{
    Busy, CLIENT_LINE, ConnId, Failure, Finished, Incarnation, JOIN_EVENTS, Job, LAST_LINE,
    MAX_COST, MAX_COUNTER, MAX_INCARNATION, MAX_KEYS, MAX_NODE_NAME, MAX_NODES, MAX_PAYLOAD,
    MAX_QUEUE_NAME, MAX_QUEUE_NAMES, MAX_SERIAL, MAX_SESSIONS, MAX_SHARDS, MAX_SID, MAX_SNAPSHOT,
    MAX_SUBJECT, MAX_WEIGHT, Message, NameFault, NodeId, OUTBOX_BYTES, OUTBOX_ENTRIES, Pattern,
    Pub, PubId, QueueName, QueueNames, READ_BYTES, ROUTE_FRAMES, ROUTE_LINE, SCRIPT_BYTES,
    SCRIPT_EVENTS, SUBSCRIPTION_BYTES, SUBSCRIPTION_COST, SUBSCRIPTIONS, ServerIdentity, Sid,
    SubId, Subject, Turn, WINDOW,
};

/// Tells the number of the cause for which the bytes are no name of this kind.
fn fault(answer: &mut Answer, kind: &str, bytes: &[u8]) -> Option<()> {
    let fault = match kind {
        "pattern" => Pattern::fault(bytes),
        "subject" => Subject::fault(bytes),
        "queue" => QueueName::fault(bytes),
        "sid" => Sid::fault(bytes),
        _ => NodeId::fault(bytes),
    };
    match fault {
        None => answer.tell("none"),
        Some(fault) => answer.tell_number("", u64::from(fault.number())),
    }
}

/// Puts a copy of a pattern that is read.
fn put_pattern(answer: &mut Answer, alloc: Global, bytes: &[u8]) -> Result<(), Failure<NameFault>> {
    let copy = Pattern::read(alloc, bytes)?.try_clone(alloc)?;
    answer.tell_bytes("", copy.bytes());
    Ok(())
}

/// Puts a copy of a subject that is read.
fn put_subject(answer: &mut Answer, alloc: Global, bytes: &[u8]) -> Result<(), Failure<NameFault>> {
    let copy = Subject::read(alloc, bytes)?.try_clone()?;
    answer.tell_bytes("", copy.bytes());
    Ok(())
}

/// Puts a copy of the name of a queue group that is read.
fn put_queue(answer: &mut Answer, alloc: Global, bytes: &[u8]) -> Result<(), Failure<NameFault>> {
    let copy = QueueName::read(alloc, bytes)?.try_clone(alloc)?;
    answer.tell_bytes("", copy.bytes());
    Ok(())
}

/// Puts a copy of the id of a subscription that is read.
fn put_sid(answer: &mut Answer, alloc: Global, bytes: &[u8]) -> Result<(), Failure<NameFault>> {
    let copy = Sid::read(alloc, bytes)?.try_clone(alloc)?;
    answer.tell_bytes("", copy.bytes());
    Ok(())
}

/// Puts the name of a server that is read, which is copied without a call.
fn put_node(answer: &mut Answer, bytes: &[u8]) -> Result<(), Failure<NameFault>> {
    match NodeId::read(bytes) {
        Ok(name) => {
            answer.tell(name.text());
            Ok(())
        }
        Err(fault) => Err(Failure::Refused(fault)),
    }
}

/// Tells a copy of a name that is read, or the cause for which it is none.
fn copy(answer: &mut Answer, alloc: Global, kind: &str, bytes: &[u8]) -> Option<()> {
    let copied = match kind {
        "pattern" => put_pattern(answer, alloc, bytes),
        "subject" => put_subject(answer, alloc, bytes),
        "queue" => put_queue(answer, alloc, bytes),
        "sid" => put_sid(answer, alloc, bytes),
        _ => put_node(answer, bytes),
    };
    match copied {
        Ok(()) => Some(()),
        Err(Failure::Refused(fault)) => answer.tell_refusal(fault.number()),
        Err(Failure::OutOfMemory) => None,
    }
}

/// Tells the subject that a part of some shared bytes is.
fn part(answer: &mut Answer, alloc: Global, words: &Words<'_>) -> Option<()> {
    let bytes = payload_of(alloc, words.at(0))?;
    let (start, end) = (words.number(1) as usize, words.number(2) as usize);
    if start > end || end > bytes.len() {
        return None;
    }
    match Subject::from_shared(bytes.slice(start..end).ok()?) {
        Ok(subject) => answer.tell_bytes("", subject.bytes()),
        Err(fault) => answer.tell_refusal(fault.number()),
    }
}

/// Tells whether a pattern matches a subject.
fn matches(answer: &mut Answer, alloc: Global, words: &Words<'_>) -> Option<()> {
    let pattern = pattern_of(alloc, words.at(0))?;
    let subject = subject_of(alloc, words.at(1))?;
    answer.tell_whether(pattern.matches(&subject.lent()))
}

/// Makes a call of a name of this kind.
pub fn name_call(
    answer: &mut Answer,
    alloc: Global,
    kind: &str,
    call: &str,
    words: &Words<'_>,
) -> Option<()> {
    match call {
        "fault" => fault(answer, kind, &bytes_of(alloc, words.text).ok()?),
        "copy" => copy(answer, alloc, kind, &bytes_of(alloc, words.text).ok()?),
        "part" => part(answer, alloc, words),
        "match" => matches(answer, alloc, words),
        _ => None,
    }
}

/// Tells a copy of a key.
fn key_copy(answer: &mut Answer, alloc: Global, word: &str) -> Option<()> {
    let copy = key_in(alloc, word)?.try_clone(alloc).ok()?;
    answer.tell_key("", &copy)
}

/// Tells how a key stands to another.
fn order(answer: &mut Answer, alloc: Global, words: &Words<'_>) -> Option<()> {
    let left = key_in(alloc, words.at(0))?;
    let right = key_in(alloc, words.at(1))?;
    let told = match left.order(&right) {
        Ordering::Less => "less",
        Ordering::Equal => "equal",
        Ordering::Greater => "greater",
    };
    answer.tell(told)
}

/// Tells how many names of queue groups these are, where they rise and are not too many.
fn queue_names(answer: &mut Answer, alloc: Global, text: &str) -> Option<()> {
    match queues_of(alloc, text)? {
        None => answer.tell("none"),
        Some(names) => answer.tell_number("", names.as_slice().len() as u64),
    }
}

/// Makes a call of keys.
pub fn key_call(answer: &mut Answer, alloc: Global, call: &str, words: &Words<'_>) -> Option<()> {
    match call {
        "copy" => key_copy(answer, alloc, words.text),
        "cost" => answer.tell_number("", key_in(alloc, words.text)?.cost()),
        "order" => order(answer, alloc, words),
        "queue_names" => queue_names(answer, alloc, words.text),
        _ => None,
    }
}

/// The limits by their names.
static LIMITS: [(&str, u64); 30] = [
    ("MAX_NODES", MAX_NODES),
    ("MAX_SHARDS", MAX_SHARDS),
    ("WINDOW", WINDOW),
    ("MAX_QUEUE_NAMES", MAX_QUEUE_NAMES),
    ("MAX_SUBJECT", MAX_SUBJECT as u64),
    ("MAX_SID", MAX_SID as u64),
    ("MAX_QUEUE_NAME", MAX_QUEUE_NAME as u64),
    ("MAX_NODE_NAME", MAX_NODE_NAME as u64),
    ("MAX_PAYLOAD", MAX_PAYLOAD as u64),
    ("MAX_INCARNATION", MAX_INCARNATION),
    ("MAX_COUNTER", MAX_COUNTER),
    ("MAX_SERIAL", MAX_SERIAL),
    ("SUBSCRIPTIONS", SUBSCRIPTIONS),
    ("SUBSCRIPTION_BYTES", SUBSCRIPTION_BYTES),
    ("SUBSCRIPTION_COST", SUBSCRIPTION_COST),
    ("MAX_COST", MAX_COST),
    ("MAX_KEYS", MAX_KEYS),
    ("MAX_WEIGHT", MAX_WEIGHT),
    ("OUTBOX_ENTRIES", OUTBOX_ENTRIES as u64),
    ("OUTBOX_BYTES", OUTBOX_BYTES as u64),
    ("LAST_LINE", LAST_LINE as u64),
    ("ROUTE_FRAMES", ROUTE_FRAMES as u64),
    ("CLIENT_LINE", CLIENT_LINE as u64),
    ("ROUTE_LINE", ROUTE_LINE as u64),
    ("MAX_SNAPSHOT", MAX_SNAPSHOT as u64),
    ("READ_BYTES", READ_BYTES as u64),
    ("MAX_SESSIONS", MAX_SESSIONS),
    ("SCRIPT_BYTES", SCRIPT_BYTES as u64),
    ("SCRIPT_EVENTS", SCRIPT_EVENTS),
    ("JOIN_EVENTS", JOIN_EVENTS),
];

/// The limit of this name, 0 where none has it.
fn limit(name: &str) -> u64 {
    named(&LIMITS, name).unwrap_or(0)
}

/// Tells the turn of this number, and the one behind it.
fn turn(answer: &mut Answer, turn: Option<Turn>) -> Option<()> {
    let Some(turn) = turn else {
        return answer.tell("none");
    };
    answer.tell_number("", turn.get());
    match turn.next() {
        None => answer.tell(", the last"),
        Some(next) => answer.tell_number(", then ", next.get()),
    }
}

/// The turns that shards finished: just this one did, and none where there is no such shard or turn.
fn finished_of(shard: u64, number: u64) -> Finished {
    let mut finished = Finished::new();
    if let Some(turn) = Turn::new(number) {
        if shard >= 1 && shard <= MAX_SHARDS {
            finished.set(shard, turn);
        }
    }
    finished
}

/// Tells which shard is behind, with the turn that it finished.
fn busy(answer: &mut Answer, shard: u64, number: u64) -> Option<()> {
    let busy = Busy {
        shard,
        finished: finished_of(shard, number).of(shard),
    };
    answer.tell_number("shard ", busy.shard);
    answer.tell_number(", turn ", busy.finished.get())
}

/// The subscription of a shard and a serial.
fn sub_of(shard: u64, serial: u64) -> SubId {
    SubId { shard, serial }
}

/// Makes a call of values that are numbers.
pub fn number_call(answer: &mut Answer, call: &str, words: &Words<'_>) -> Option<()> {
    let (first, second, third) = (words.number(0), words.number(1), words.number(2));
    match call {
        "limit" => answer.tell_number("", limit(words.at(0)) / limit(words.at(1)).max(1)),
        "incarnation" => match Incarnation::new(first) {
            None => answer.tell("none"),
            Some(inc) => answer.tell_number("", inc.get()),
        },
        "turn" => turn(answer, Turn::new(first)),
        "first_turn" => turn(answer, Some(Turn::zero())),
        "finished" => answer.tell_number("", finished_of(first, second).of(third).get()),
        "busy" => busy(answer, first, second),
        "conn" => answer.tell_number("", ConnId::new(first).get()),
        "same_conn" => answer.tell_whether(ConnId::new(first) == ConnId::new(second)),
        "same_sub" => answer.tell_whether(sub_of(first, second) == sub_of(third, words.number(3))),
        _ => None,
    }
}

/// Tells what is in a server.
fn server_told(answer: &mut Answer, server: &ServerIdentity) -> Option<()> {
    answer.tell(server.name().text());
    answer.tell_number(" at ", server.me() as u64);
    answer.tell_number(", incarnation ", server.inc().get());
    answer.tell_number(", ", server.shards());
    answer.tell_number(" shards, ", server.names().len() as u64);
    answer.tell(" servers")
}

/// Tells a copy of a server.
fn server_copy(answer: &mut Answer, alloc: Global, server: &ServerIdentity) -> Option<()> {
    let copy = server.try_clone(alloc).ok()?;
    server_told(answer, &copy)
}

/// Tells the place of the server of this name.
fn place(answer: &mut Answer, server: &ServerIdentity, name: &str) -> Option<()> {
    let name = NodeId::read(name.as_bytes()).ok()?;
    match server.place(name) {
        None => answer.tell("none"),
        Some(place) => answer.tell_number("", place as u64),
    }
}

/// Makes a call of the server that the first words are.
pub fn server_call(
    answer: &mut Answer,
    alloc: Global,
    call: &str,
    words: &Words<'_>,
) -> Option<()> {
    let place_there = words.number(1) as usize;
    let Some(server) = server_of(
        alloc,
        words.at(0),
        place_there,
        words.number(2),
        words.number(3),
    ) else {
        return answer.tell("none");
    };
    match call {
        "new" => answer.tell("ok"),
        "copy" => server_copy(answer, alloc, &server),
        "place" => place(answer, &server, words.at(4)),
        "peer" => answer.tell_whether(server.is_peer(words.number(4) as usize)),
        _ => None,
    }
}

/// The message of a subject, a reply and a payload, which the first three words are.
fn message_in(alloc: Global, words: &Words<'_>) -> Option<Message> {
    message_of(alloc, words.at(0), words.at(1), words.at(2))
}

/// Tells the subject, the reply and the payload of a message.
fn message_told(answer: &mut Answer, message: &Message) -> Option<()> {
    answer.tell_bytes("", message.subject().bytes());
    if let Some(reply) = message.reply() {
        answer.tell_bytes(" ", reply.bytes());
    }
    answer.tell_bytes(" ", message.payload().as_slice())
}

/// Tells a copy of a message.
fn message_copy(answer: &mut Answer, alloc: Global, words: &Words<'_>) -> Option<()> {
    let copy = message_in(alloc, words)?.try_clone().ok()?;
    message_told(answer, &copy)
}

/// Tells the header block, the payload and both together of a message.
fn headed_told(answer: &mut Answer, message: &Message) -> Option<()> {
    answer.tell_bytes("[", message.headers()?);
    answer.tell_bytes("] [", message.payload());
    answer.tell_bytes("] [", message.whole());
    answer.tell("]")
}

/// Tells a copy of a message whose header block is the third word.
fn headed_copy(answer: &mut Answer, alloc: Global, words: &Words<'_>) -> Option<()> {
    let (subject, reply) = (words.at(0), words.at(1));
    let Some(message) = headed_message_of(alloc, subject, reply, words.at(2), words.at(3))? else {
        return answer.tell("none");
    };
    headed_told(answer, &message.try_clone().ok()?)
}

/// A publication on `foo` with a payload of so many bytes, of which there are at most two more than the limit.
fn sized_of(alloc: Global, size: u64) -> Option<Option<Pub>> {
    let size = (size as usize).min(MAX_PAYLOAD + 2);
    let payload = Bytes::from_vec(vec![in alloc; b'x'; size].ok()?).ok()?;
    let subject = subject_of(alloc, "foo")?;
    Pub::new(alloc, subject, None, None, payload, true).ok()
}

/// Tells whether a payload of so many bytes can be published.
fn sized(answer: &mut Answer, alloc: Global, size: u64) -> Option<()> {
    match sized_of(alloc, size)? {
        None => answer.tell("none"),
        Some(sized) => {
            answer.tell_number("", sized.message.payload().len() as u64);
            answer.tell(" bytes")
        }
    }
}

/// The job of a turn for a message that a connection published, without its own subscriptions and without queue names.
fn job_of(alloc: Global, words: &Words<'_>) -> Option<Job> {
    let turn = Turn::new(words.number(3))?;
    let origin = life_of(words.at(4), words.number(5))?;
    let message = message_in(alloc, words)?;
    Some(Job {
        turn,
        id: PubId {
            origin: origin.name,
            inc: origin.inc,
            number: words.number(6),
        },
        message,
        publisher: Some(ConnId::new(words.number(7))),
        echo: false,
        queues: QueueNames::new(),
    })
}

/// Whether a publisher's own subscriptions may get its message.
fn echo_told(echo: bool) -> &'static str {
    if echo { ", echo true" } else { ", echo false" }
}

/// Tells what is in a job beside its message.
fn job_told(answer: &mut Answer, job: &Job) -> Option<()> {
    let publisher = job.publisher?.get();
    answer.tell_number("turn ", job.turn.get());
    answer.tell_number(", number ", job.id.number);
    answer.tell(" of ");
    answer.tell(job.id.origin.text());
    answer.tell_number(" in ", job.id.inc.get());
    answer.tell_number(", publisher ", publisher);
    answer.tell(echo_told(job.echo));
    answer.tell_number(", ", job.queues.as_slice().len() as u64);
    answer.tell(" names")
}

/// Tells a copy of the job that the words are.
fn job_copy(answer: &mut Answer, alloc: Global, words: &Words<'_>) -> Option<()> {
    let copy = job_of(alloc, words)?.try_clone().ok()?;
    job_told(answer, &copy)
}

/// Makes a call of messages.
pub fn message_call(
    answer: &mut Answer,
    alloc: Global,
    call: &str,
    words: &Words<'_>,
) -> Option<()> {
    match call {
        "copy" => message_copy(answer, alloc, words),
        "headed" => headed_copy(answer, alloc, words),
        "sized" => sized(answer, alloc, words.number(0)),
        "job" => job_copy(answer, alloc, words),
        _ => None,
    }
}

/// Tells the fields of a text, each with a bar behind it.
fn fields_told(answer: &mut Answer, alloc: Global, word: &str) -> Option<()> {
    let bytes = bytes_of(alloc, word).ok()?;
    for field in &fields(alloc, &bytes).ok()? {
        answer.tell_bytes("", field);
        answer.tell("|");
    }
    Some(())
}

/// Tells the operation of a line, and what stands behind it.
fn operation(answer: &mut Answer, alloc: Global, word: &str) -> Option<()> {
    let bytes = bytes_of(alloc, word).ok()?;
    let Some((operation, behind)) = split_line(&bytes) else {
        return answer.tell("none");
    };
    answer.tell_bytes("", operation);
    answer.tell_bytes("|", behind)
}

/// Tells the number that a field of at most so many digits spells.
fn digits(answer: &mut Answer, field: &str, most: u64) -> Option<()> {
    if most > MAX_DIGITS as u64 {
        return None;
    }
    answer.tell_choice("", read_digits(field.as_bytes(), most as usize))
}

/// Makes a call of parts of lines.
pub fn part_call(answer: &mut Answer, alloc: Global, call: &str, words: &Words<'_>) -> Option<()> {
    match call {
        "fields" => fields_told(answer, alloc, words.text),
        "operation" => operation(answer, alloc, words.text),
        "word" => answer.tell_whether(is_word(words.at(0).as_bytes(), words.at(1).as_bytes())),
        "digits" => digits(answer, words.at(0), words.number(1)),
        _ => None,
    }
}
