//! What the objects of a log tell, member by member.

ghost use Rattle.std.specs.Prelude.{◌≡◌, Option, Some, None, is_some, option_map, ⊤, if◌then◌else◌};
ghost use Rattle.audit_log.specs.Texts.{name_of, hex_name_of};
ghost use Rattle.serde_json.specs.Find.{get};
ghost use Rattle.serde_json.specs.View.{view};
ghost use Rattle.subj.specs.Answers.{IsAnswered};
ghost use Rattle.subj.specs.Names.{pattern_fault, queue_name_fault, sid_fault, subject_fault};
ghost use Rattle.subj.specs.declared.faults.NameFault.{NameFault as Cause};
ghost use Rattle.script_form.specs.Members.{whole, text as text_in, truth as is_truth, MeansBy, MemberMeans, Says, SaysBy};
ghost use Rattle.audit_log.specs.Members.{bytes_in, hex_in, incarnation_in, member, named_in, optional, optional_bytes_in, optional_named_in, server_in};
ghost use Rattle.audit_log.specs.declared.entries.Text.TheVariants as key;
ghost use Rattle.cluster_world.specs.InCode.{life_id_of, life_of, publication_of};
ghost use Rattle.placement_audit.specs.InCode.{placement_of};
ghost use Rattle.audit_log.specs.Entries.{key_in, life_id_in, life_in, message_in, mode_of as is_mode_of, placement_in, publication_id_in, publication_in};

use bytes::Bytes;
use cluster_world::{Life, LifeId, Publication};
use hex::FromHexError;
use outbox::Mode;
use placement_audit::Placement;
use serde_json::Value;
use std::alloc::Global;
use subj::{
    ConnId, Failure, Incarnation, Key, Message, NameFault, NodeId, Pattern, PubId, QueueName,
    Reply, Sid, SubId, Subject,
};

/// A member whose value is bytes: a text where they are UTF-8, and else hex digits under another name. (Profile.)
#[derive(Clone, Copy)]
pub enum Text {
    Subject,
    Reply,
    Headers,
    Payload,
    Pattern,
    Queue,
    Sid,
    Bytes,
}

impl Text {
    /// Its name where it is a text.
    pub fn name(self) -> &'static str
        ensures { result.now ≡ name_of self }
    {
        match self {
            Text::Subject => "subject",
            Text::Reply => "reply",
            Text::Headers => "headers",
            Text::Payload => "payload",
            Text::Pattern => "pattern",
            Text::Queue => "queue",
            Text::Sid => "sid",
            Text::Bytes => "bytes",
        }
    }

    /// Its name where it is hex digits.
    pub fn hex_name(self) -> &'static str
        ensures { result.now ≡ hex_name_of self }
    {
        match self {
            Text::Subject => "subject_hex",
            Text::Reply => "reply_hex",
            Text::Headers => "headers_hex",
            Text::Payload => "payload_hex",
            Text::Pattern => "pattern_hex",
            Text::Queue => "queue_hex",
            Text::Sid => "sid_hex",
            Text::Bytes => "bytes_hex",
        }
    }
}

/// A member of an object is missing, or is not what it has to be.
#[derive(Clone, Copy)]
pub(crate) struct Misfit;

impl From<Misfit> for Failure<Misfit> {
    ghost use Rattle.std.specs.Prelude.{◌≡◌};
    ghost use Rattle.subj.specs.declared.failures.Failure.TheVariants.{Refused};

    ghost from_gives = { λ misfit failure. failure ≡ Refused misfit };

    fn from(misfit: Misfit) -> Failure<Misfit> {
        Failure::Refused(misfit)
    }
}

/// A member, whatever it is.
pub(crate) fn part<'a>(object: &'a Value, name: &str) -> Result<&'a Value, Misfit>
    ensures { SaysBy (λ value. view value.now) (get name.now (view object.now)) result }
{
    object.get(name).ok_or(Misfit)
}

/// A whole number of at least 0.
pub(crate) fn number(object: &Value, name: &str) -> Result<u64, Misfit>
    ensures { Says (member whole name.now (view object.now)) result }
{
    match object.get(name) {
        Some(value) => value.as_u64().ok_or(Misfit),
        None => Err(Misfit),
    }
}

/// A whole number of at least 0, where the member is there.
pub(crate) fn optional_number(object: &Value, name: &str) -> Result<Option<u64>, Misfit>
    ensures { Says (optional whole name.now (view object.now)) result }
{
    match object.get(name) {
        None => Ok(None),
        Some(value) => match value.as_u64() {
            Some(number) => Ok(Some(number)),
            None => Err(Misfit),
        },
    }
}

/// A truth value, where the member is there.
pub(crate) fn optional_truth(object: &Value, name: &str) -> Result<Option<bool>, Misfit>
    ensures { Says (optional is_truth name.now (view object.now)) result }
{
    match object.get(name) {
        None => Ok(None),
        Some(value) => match value.as_bool() {
            Some(truth) => Ok(Some(truth)),
            None => Err(Misfit),
        },
    }
}

/// The incarnation of a server.
#[tactic(auto, unfolding(crate::specs::Members::incarnation_in))]
pub(crate) fn incarnation(object: &Value) -> Result<Incarnation, Misfit>
    ensures { Says (incarnation_in (view object.now)) result }
{
    let number = number(object, "inc")?;
    Incarnation::new(number).ok_or(Misfit)
}

/// A text.
fn text_at<'a>(object: &'a Value, name: &str) -> Result<&'a str, Misfit>
    ensures { SaysBy (λ s. s.now) (member text_in name.now (view object.now)) result }
{
    match object.get(name) {
        Some(value) => value.as_str().ok_or(Misfit),
        None => Err(Misfit),
    }
}

/// The name of a server.
#[tactic(auto, unfolding(crate::specs::Members::server_in))]
pub(crate) fn server(object: &Value, name: &str) -> Result<NodeId, Misfit>
    ensures { Says (server_in name.now (view object.now)) result }
{
    let text = text_at(object, name)?;
    match NodeId::read(text.as_bytes()) {
        Ok(server) => Ok(server),
        Err(_) => Err(Misfit),
    }
}

/// The bytes of a text.
fn text_bytes(alloc: Global, value: &Value) -> Result<Vec<u8>, Failure<Misfit>>
    ensures { MeansBy (λ bytes. bytes.items) (text_in (view value.now)) result }
{
    let text = value.as_str().ok_or(Misfit)?;
    let bytes = Vec::from_slice(alloc, text.as_bytes())?;
    Ok(bytes)
}

/// The bytes that hex digits write.
fn hex_bytes(alloc: Global, value: &Value) -> Result<Vec<u8>, Failure<Misfit>>
    ensures { MeansBy (λ bytes. bytes.items) (hex_in (view value.now)) result }
{
    let digits = value.as_str().ok_or(Misfit)?;
    match hex::decode(alloc, digits) {
        Ok(bytes) => Ok(bytes),
        Err(FromHexError::OutOfMemory) => Err(Failure::OutOfMemory),
        Err(_) => Err(Failure::Refused(Misfit)),
    }
}

/// The bytes that hex digits write, where the member is there.
fn optional_hex(
    alloc: Global,
    object: &Value,
    text: Text,
) -> Result<Option<Vec<u8>>, Failure<Misfit>>
    ensures { MeansBy (λ found. option_map (λ bytes. bytes.items) found)
        (optional hex_in (hex_name_of text) (view object.now)) result }
{
    match object.get(text.hex_name()) {
        None => Ok(None),
        Some(value) => Ok(Some(hex_bytes(alloc, value)?)),
    }
}

/// Bytes, where the member is there. The hex digits are looked at only where there is no text.
pub(crate) fn optional_bytes(
    alloc: Global,
    object: &Value,
    text: Text,
) -> Result<Option<Vec<u8>>, Failure<Misfit>>
    ensures { MeansBy (λ found. option_map (λ bytes. bytes.items) found)
        (optional_bytes_in text (view object.now)) result }
{
    match object.get(text.name()) {
        None => optional_hex(alloc, object, text),
        Some(value) => Ok(Some(text_bytes(alloc, value)?)),
    }
}

/// Bytes.
#[tactic(auto, unfolding(crate::specs::Members::bytes_in))]
pub(crate) fn read_bytes(
    alloc: Global,
    object: &Value,
    text: Text,
) -> Result<Vec<u8>, Failure<Misfit>>
    ensures { MeansBy (λ bytes. bytes.items) (bytes_in text (view object.now)) result }
{
    match optional_bytes(alloc, object, text)? {
        Some(bytes) => Ok(bytes),
        None => Err(Failure::Refused(Misfit)),
    }
}

/// What was read as a name, or that the member is none.
fn valid<T>(read: Result<T, Failure<NameFault>>) -> Result<T, Failure<Misfit>>
    ensures { (cause : Option Cause) (value : T) → IsAnswered cause (λ x. x ≡ value) ⊤ read
        → MemberMeans (if is_some cause then None else Some value) result }
{
    match read {
        Ok(name) => Ok(name),
        Err(Failure::Refused(_)) => Err(Failure::Refused(Misfit)),
        Err(Failure::OutOfMemory) => Err(Failure::OutOfMemory),
    }
}

/// The same of a member that may be absent, and is there.
fn some_valid<T>(read: Result<T, Failure<NameFault>>) -> Result<Option<T>, Failure<Misfit>>
    ensures { (cause : Option Cause) (value : T) → IsAnswered cause (λ x. x ≡ value) ⊤ read
        → MemberMeans (option_map Some (if is_some cause then None else Some value)) result }
{
    match read {
        Ok(name) => Ok(Some(name)),
        Err(Failure::Refused(_)) => Err(Failure::Refused(Misfit)),
        Err(Failure::OutOfMemory) => Err(Failure::OutOfMemory),
    }
}

/// What is published on.
#[tactic(auto, unfolding(crate::specs::Members::named_in))]
pub(crate) fn subject(alloc: Global, object: &Value) -> Result<Subject, Failure<Misfit>>
    ensures { MemberMeans (named_in subject_fault key.Subject (view object.now)) result }
{
    let text = read_bytes(alloc, object, Text::Subject)?;
    valid(Subject::read(alloc, &text))
}

/// Where an answer is awaited, where the member is there.
#[tactic(auto, unfolding(crate::specs::Members::optional_named_in))]
pub(crate) fn reply(alloc: Global, object: &Value) -> Result<Option<Reply>, Failure<Misfit>>
    ensures { MemberMeans (optional_named_in subject_fault key.Reply (view object.now)) result }
{
    match optional_bytes(alloc, object, Text::Reply)? {
        None => Ok(None),
        Some(text) => some_valid(Subject::read(alloc, &text)),
    }
}

/// What a subscription asks for.
#[tactic(auto, unfolding(crate::specs::Members::named_in))]
pub(crate) fn pattern(alloc: Global, object: &Value) -> Result<Pattern, Failure<Misfit>>
    ensures { MemberMeans (named_in pattern_fault key.Pattern (view object.now)) result }
{
    let text = read_bytes(alloc, object, Text::Pattern)?;
    valid(Pattern::read(alloc, &text))
}

/// The name of a queue group, where the member is there.
#[tactic(auto, unfolding(crate::specs::Members::optional_named_in))]
pub(crate) fn queue(alloc: Global, object: &Value) -> Result<Option<QueueName>, Failure<Misfit>>
    ensures { MemberMeans (optional_named_in queue_name_fault key.Queue (view object.now)) result }
{
    match optional_bytes(alloc, object, Text::Queue)? {
        None => Ok(None),
        Some(text) => some_valid(QueueName::read(alloc, &text)),
    }
}

/// What a client calls a subscription.
#[tactic(auto, unfolding(crate::specs::Members::named_in))]
pub(crate) fn sid(alloc: Global, object: &Value) -> Result<Sid, Failure<Misfit>>
    ensures { MemberMeans (named_in sid_fault key.Sid (view object.now)) result }
{
    let text = read_bytes(alloc, object, Text::Sid)?;
    valid(Sid::read(alloc, &text))
}

/// The name of a publication.
#[tactic(auto, unfolding(crate::specs::Entries::publication_id_in))]
fn publication_id(object: &Value) -> Result<PubId, Misfit>
    ensures { Says (publication_id_in (view object.now)) result }
{
    let origin = server(object, "origin")?;
    let inc = incarnation(object)?;
    let number = number(object, "number")?;
    Ok(PubId {
        origin,
        inc,
        number,
    })
}

/// The name of a subscription, whose server is at this place.
#[tactic(auto, unfolding(crate::specs::Entries::life_id_in))]
fn life_id(object: &Value, node: usize) -> Result<LifeId, Misfit>
    ensures { SaysBy life_id_of (life_id_in node (view object.now)) result }
{
    let inc = incarnation(object)?;
    let shard = number(object, "shard")?;
    let serial = number(object, "serial")?;
    let sub = SubId { shard, serial };
    Ok(LifeId { node, inc, sub })
}

/// A header block, where the member is there, to be shared.
fn headers(alloc: Global, object: &Value) -> Result<Option<Bytes>, Failure<Misfit>>
    ensures { MemberMeans (optional_bytes_in key.Headers (view object.now)) result }
{
    match optional_bytes(alloc, object, Text::Headers)? {
        None => Ok(None),
        Some(bytes) => Ok(Some(Bytes::from_vec(bytes)?)),
    }
}

/// A payload, to be shared.
fn payload(alloc: Global, object: &Value) -> Result<Bytes, Failure<Misfit>>
    ensures { MemberMeans (bytes_in key.Payload (view object.now)) result }
{
    let bytes = read_bytes(alloc, object, Text::Payload)?;
    Ok(Bytes::from_vec(bytes)?)
}

/// What was published.
#[tactic(auto, unfolding(crate::specs::Entries::message_in))]
fn message(alloc: Global, object: &Value) -> Result<Message, Failure<Misfit>>
    ensures { MemberMeans (message_in (view object.now)) result }
{
    let subject = subject(alloc, object)?;
    let reply = reply(alloc, object)?;
    let headers = headers(alloc, object)?;
    let payload = payload(alloc, object)?;
    match Message::new(alloc, subject, reply, headers, payload)? {
        Some(message) => Ok(message),
        None => Err(Failure::Refused(Misfit)),
    }
}

/// A publication. Who made it, and whether they may get it back, is not told: an audit does not ask.
#[tactic(auto, unfolding(crate::specs::Entries::publication_in))]
pub(crate) fn publication(alloc: Global, object: &Value) -> Result<Publication, Failure<Misfit>>
    ensures { MeansBy publication_of (publication_in (view object.now)) result }
{
    let step = number(object, "step")?;
    let id = publication_id(part(object, "id")?)?;
    let message = message(alloc, object)?;
    Ok(Publication {
        step,
        id,
        message,
        publisher: ConnId::new(0),
        echo: true,
    })
}

/// What a subscription asks for, and in which queue group.
#[tactic(auto, unfolding(crate::specs::Entries::key_in))]
fn key(alloc: Global, object: &Value) -> Result<Key, Failure<Misfit>>
    ensures { MemberMeans (key_in (view object.now)) result }
{
    let pattern = pattern(alloc, object)?;
    let queue = queue(alloc, object)?;
    Ok(Key { pattern, queue })
}

/// A subscription of a server at this place.
#[tactic(auto, unfolding(crate::specs::Entries::life_in))]
pub(crate) fn life(alloc: Global, object: &Value, node: usize) -> Result<Life, Failure<Misfit>>
    ensures { MeansBy life_of (life_in node (view object.now)) result }
{
    let id = life_id(part(object, "id")?, node)?;
    let number_of_conn = number(object, "conn")?;
    let opened = number(object, "opened")?;
    let closed = optional_number(object, "closed")?;
    let key = key(alloc, object)?;
    let sid = sid(alloc, object)?;
    Ok(Life {
        id,
        conn: ConnId::new(number_of_conn),
        key,
        sid,
        opened,
        closed,
    })
}

/// How a message came to what has this queue name, or none.
fn mode_of(queue: Option<QueueName>) -> Mode
    ensures { result ≡ is_mode_of queue }
{
    match queue {
        None => Mode::Plain,
        Some(name) => Mode::Queue(name),
    }
}

/// A placement at a server at this place, for a connection that takes no headers where that is not said.
#[tactic(auto, unfolding(crate::specs::Entries::placement_in))]
pub(crate) fn placement(
    alloc: Global,
    object: &Value,
    node: usize,
) -> Result<Placement, Failure<Misfit>>
    ensures { MeansBy placement_of (placement_in node (view object.now)) result }
{
    let step = number(object, "step")?;
    let id = publication_id(part(object, "publication")?)?;
    let life = life_id(part(object, "life")?, node)?;
    let number_of_conn = number(object, "conn")?;
    let headers = optional_truth(object, "headers")?.unwrap_or(false);
    let queue = queue(alloc, object)?;
    let bytes = read_bytes(alloc, object, Text::Bytes)?;
    Ok(Placement {
        step,
        life,
        conn: ConnId::new(number_of_conn),
        id,
        mode: mode_of(queue),
        bytes,
        headers,
    })
}
