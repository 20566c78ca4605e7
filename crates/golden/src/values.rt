//! Values that words stand for, and how they are told. There is none where a word stands for none, and where memory is short.

use crate::texts::{Answer, bytes_of};
use crate::words::number;
use bytes::Bytes;
use std::alloc::Global;
use subj::{
    Incarnation, Key, Message, NodeId, Pattern, QueueName, QueueNames, Reply, ServerIdentity, Sid,
    Subject,
};

/// The pattern that a word is.
pub fn pattern_of(alloc: Global, word: &str) -> Option<Pattern> {
    let bytes = bytes_of(alloc, word).ok()?;
    Pattern::read(alloc, &bytes).ok()
}

/// The subject that a word is.
pub fn subject_of(alloc: Global, word: &str) -> Option<Subject> {
    let bytes = bytes_of(alloc, word).ok()?;
    Subject::read(alloc, &bytes).ok()
}

/// The name of a queue group that a word is.
pub fn queue_of(alloc: Global, word: &str) -> Option<QueueName> {
    let bytes = bytes_of(alloc, word).ok()?;
    QueueName::read(alloc, &bytes).ok()
}

/// The id of a subscription that a word is.
pub fn sid_of(alloc: Global, word: &str) -> Option<Sid> {
    let bytes = bytes_of(alloc, word).ok()?;
    Sid::read(alloc, &bytes).ok()
}

/// The bytes that a word stands for, to be shared.
pub fn payload_of(alloc: Global, word: &str) -> Option<Bytes> {
    let bytes = bytes_of(alloc, word).ok()?;
    Bytes::copy_from_slice(alloc, &bytes).ok()
}

/// The key of a pattern in a queue group, or in none where that word is empty.
pub fn key_of(alloc: Global, pattern: &str, queue: &str) -> Option<Key> {
    let pattern = pattern_of(alloc, pattern)?;
    let queue = match queue {
        "" => None,
        name => Some(queue_of(alloc, name)?),
    };
    Some(Key { pattern, queue })
}

/// The key that a word is: its pattern and, behind a blank, its queue group.
pub fn key_in(alloc: Global, word: &str) -> Option<Key> {
    let (pattern, queue) = word.split_once(' ').unwrap_or((word, ""));
    key_of(alloc, pattern, queue)
}

/// The names of queue groups that a text is, with blanks between them; none of them where they do not rise or are too many.
pub fn queues_of(alloc: Global, text: &str) -> Option<Option<QueueNames>> {
    let mut names = Vec::new(alloc);
    for word in text.split_whitespace() {
        names.push(queue_of(alloc, word)?).ok()?;
    }
    QueueNames::from_names(alloc, names).ok()
}

/// The subject that an answer is awaited on, or none where the word is empty.
fn reply_of(alloc: Global, word: &str) -> Option<Option<Reply>> {
    match word {
        "" => Some(None),
        name => Some(Some(subject_of(alloc, name)?)),
    }
}

/// A subject, and the one that an answer is awaited on, or none where that word is empty.
fn address_of(alloc: Global, subject: &str, reply: &str) -> Option<(Subject, Option<Reply>)> {
    let subject = subject_of(alloc, subject)?;
    let reply = reply_of(alloc, reply)?;
    Some((subject, reply))
}

/// The message of an address, a header block or none, and the payload that a word is.
fn message_at(
    alloc: Global,
    address: (Subject, Option<Reply>),
    block: Option<Bytes>,
    payload: &str,
) -> Option<Option<Message>> {
    let payload = payload_of(alloc, payload)?;
    let (subject, reply) = address;
    Message::new(alloc, subject, reply, block, payload).ok()
}

/// The message on a subject, with one that an answer is awaited on, or none where that word is empty.
pub fn message_of(alloc: Global, subject: &str, reply: &str, payload: &str) -> Option<Message> {
    let address = address_of(alloc, subject, reply)?;
    message_at(alloc, address, None, payload)?
}

/// The same with a header block before its payload; none of them where the block is none, or both are too long.
pub fn headed_message_of(
    alloc: Global,
    subject: &str,
    reply: &str,
    block: &str,
    payload: &str,
) -> Option<Option<Message>> {
    let address = address_of(alloc, subject, reply)?;
    let block = payload_of(alloc, block)?;
    message_at(alloc, address, Some(block), payload)
}

/// The message with a header block, or with none where that word is empty.
pub fn message_with(
    alloc: Global,
    subject: &str,
    reply: &str,
    block: &str,
    payload: &str,
) -> Option<Message> {
    match block {
        "" => message_of(alloc, subject, reply, payload),
        block => headed_message_of(alloc, subject, reply, block, payload)?,
    }
}

/// A server in one of its lives.
#[derive(Clone, Copy)]
pub struct Life {
    pub name: NodeId,
    pub inc: Incarnation,
}

/// The server of this name in its life of this number.
pub fn life_of(name: &str, inc: u64) -> Option<Life> {
    let name = NodeId::read(name.as_bytes()).ok()?;
    let inc = Incarnation::new(inc)?;
    Some(Life { name, inc })
}

/// The server in one of its lives that a word is: its name and, behind a blank, the number of that.
pub fn life_in(word: &str) -> Option<Life> {
    let (name, inc) = word.split_once(' ')?;
    life_of(name, number(inc))
}

/// The names of servers that a word is, with commas between them.
fn nodes_of(alloc: Global, word: &str) -> Option<Vec<NodeId>> {
    let mut names = Vec::new(alloc);
    if word.is_empty() {
        return Some(names);
    }
    for name in word.split(',') {
        names.push(NodeId::read(name.as_bytes()).ok()?).ok()?;
    }
    Some(names)
}

/// The server at this place among these names, in its life of this number, with so many shards.
pub fn server_of(
    alloc: Global,
    names: &str,
    place: usize,
    inc: u64,
    shards: u64,
) -> Option<ServerIdentity> {
    let inc = Incarnation::new(inc)?;
    ServerIdentity::new(nodes_of(alloc, names)?, place, inc, shards)
}

impl Answer {
    /// Tells this text, and behind it a key as a word that it is read from.
    pub fn tell_key(&mut self, before: &str, key: &Key) -> Option<()> {
        self.tell_bytes(before, key.pattern.bytes());
        match &key.queue {
            None => self.so_far(),
            Some(queue) => self.tell_bytes(" ", queue.bytes()),
        }
    }

    /// Tells this text, and behind it the name of a server and the number of its life.
    pub fn tell_life(&mut self, before: &str, name: NodeId, inc: Incarnation) -> Option<()> {
        self.tell(before);
        self.tell(name.text());
        self.tell_number(" ", inc.get())
    }
}
