//! Reading scripts: the members of JSON objects, the steps, and the whole.

ghost use Rattle.std.specs.Prelude.{◌≡◌, Option, Some, None, is_some, option_map, ⊤, if◌then◌else◌, nat_lt, IfOk};
ghost use Rattle.std.specs.Option.{option_copied};
ghost use Rattle.serde_json.specs.View.{view, items_view};
ghost use Rattle.subj.specs.declared.faults.NameFault.{NameFault as Cause};
ghost use Rattle.subj.specs.Answers.{IsAnswered};
ghost use Rattle.subj.specs.Names.{node_name_fault, pattern_fault, subject_fault, queue_name_fault, sid_fault};
ghost use Rattle.subj.specs.Publications.{new_publication};
ghost use Rattle.script_form.specs.Members.{MemberMeans, Says, SaysBy, member as there, optional, whole, text as is_text, truth as is_truth, node as is_node, name_at, optional_name_at, MeansBy};
ghost use Rattle.script_form.specs.Acts.{start_in, attach_in, key_in, sub_in, unsub_in, headers_in, content_in, publication_of, publication_in, publish_in, settled_in, claim_in, take_in, act_in, content_of, verb_in, step_in, of_shard, at_shard, of_session, on_session, published_by, conn};
ghost use Rattle.serde_json.specs.Find.{as_array};
ghost use Rattle.script_form.specs.declared.faults.ScriptFault.TheVariants.{TooLong};
ghost use Rattle.script_form.specs.Form.{each, count_of, script_in, Reads, ReadsJson};

use crate::faults::{Place, ScriptError, ScriptFault};
use crate::steps::{Act, Member, Step, Verb};
use bytes::Bytes;
use serde_json::Value;
use std::alloc::{AllocError, Global};
use std::marker::Model;
use subj::{
    ConnId, Failure, Incarnation, Key, NameFault, NodeId, Pattern, Pub, QueueName, SCRIPT_BYTES,
    SCRIPT_EVENTS, ServerIdentity, Sid, Subject,
};

/// A member of an object is missing, or is not what it has to be.
#[derive(Clone, Copy)]
struct Misfit {
    member: Member,
}

impl From<Misfit> for Failure<Misfit> {
    ghost use Rattle.std.specs.Prelude.{◌≡◌};
    ghost use Rattle.subj.specs.declared.failures.Failure.TheVariants.{Refused};

    ghost from_gives = { λ misfit failure. failure ≡ Refused misfit };

    fn from(misfit: Misfit) -> Failure<Misfit> {
        Failure::Refused(misfit)
    }
}

impl From<Misfit> for Failure<Place> {
    ghost use Rattle.std.specs.Prelude.{◌≡◌};
    ghost use Rattle.subj.specs.declared.failures.Failure.TheVariants.{Refused};
    ghost use Rattle.script_form.specs.declared.faults.Place.TheVariants.{Member};

    ghost from_gives = { λ misfit failure. failure ≡ Refused (Member misfit.member) };

    fn from(misfit: Misfit) -> Failure<Place> {
        Failure::Refused(Place::Member {
            member: misfit.member,
        })
    }
}

/// A whole number of at least 0.
fn number(object: &Value, member: Member) -> Result<u64, Misfit>
    ensures { Says (there whole member (view object.now)) result }
{
    object
        .get(member.name())
        .and_then(Value::as_u64)
        .ok_or(Misfit { member })
}

/// A whole number of at least 0, where the member is there.
fn optional_number(object: &Value, member: Member) -> Result<Option<u64>, Misfit>
    ensures { Says (optional whole member (view object.now)) result }
{
    match object.get(member.name()) {
        None => Ok(None),
        Some(value) => match value.as_u64() {
            Some(number) => Ok(Some(number)),
            None => Err(Misfit { member }),
        },
    }
}

/// A truth value.
fn truth(object: &Value, member: Member) -> Result<bool, Misfit>
    ensures { Says (there is_truth member (view object.now)) result }
{
    object
        .get(member.name())
        .and_then(Value::as_bool)
        .ok_or(Misfit { member })
}

/// A truth value, where the member is there.
fn optional_truth(object: &Value, member: Member) -> Result<Option<bool>, Misfit>
    ensures { Says (optional is_truth member (view object.now)) result }
{
    match object.get(member.name()) {
        None => Ok(None),
        Some(value) => match value.as_bool() {
            Some(truth) => Ok(Some(truth)),
            None => Err(Misfit { member }),
        },
    }
}

/// A text.
fn text<'a>(object: &'a Value, member: Member) -> Result<&'a str, Misfit>
    ensures { SaysBy (λ s. s.now) (there is_text member (view object.now)) result }
{
    object
        .get(member.name())
        .and_then(Value::as_str)
        .ok_or(Misfit { member })
}

/// A text, where the member is there.
fn optional_text<'a>(object: &'a Value, member: Member) -> Result<Option<&'a str>, Misfit>
    ensures { SaysBy (λ s. option_copied s) (optional is_text member (view object.now)) result }
{
    match object.get(member.name()) {
        None => Ok(None),
        Some(value) => match value.as_str() {
            Some(text) => Ok(Some(text)),
            None => Err(Misfit { member }),
        },
    }
}

/// What was read as a name, or that the member is none.
fn member_name<T>(read: Result<T, Failure<NameFault>>, member: Member) -> Result<T, Failure<Misfit>>
    ensures { (cause : Option Cause) (value : T)
        → IsAnswered cause (λ x. x ≡ value) ⊤ read
        → MemberMeans (if is_some cause then None else Some value) result }
{
    match read {
        Ok(value) => Ok(value),
        Err(Failure::Refused(_)) => Err(Failure::Refused(Misfit { member })),
        Err(Failure::OutOfMemory) => Err(Failure::OutOfMemory),
    }
}

/// The same of a member that may be absent, and is there.
fn some_member_name<T>(
    read: Result<T, Failure<NameFault>>,
    member: Member,
) -> Result<Option<T>, Failure<Misfit>>
    ensures { (cause : Option Cause) (value : T)
        → IsAnswered cause (λ x. x ≡ value) ⊤ read
        → MemberMeans (option_map Some (if is_some cause then None else Some value)) result }
{
    match read {
        Ok(value) => Ok(Some(value)),
        Err(Failure::Refused(_)) => Err(Failure::Refused(Misfit { member })),
        Err(Failure::OutOfMemory) => Err(Failure::OutOfMemory),
    }
}

/// A server's name, as an item of a list.
#[tactic(auto, unfolding(crate::specs::Members::node))]
fn node_of(value: &Value) -> Option<NodeId>
    ensures { result ≡ is_node (view value.now) }
{
    let text = value.as_str()?;
    match NodeId::read(text.as_bytes()) {
        Ok(node) => Some(node),
        Err(_) => None,
    }
}

/// A server's name.
#[tactic(auto, unfolding(crate::specs::Members::name_at))]
fn node(object: &Value, member: Member) -> Result<NodeId, Misfit>
    ensures { Says (name_at node_name_fault member (view object.now)) result }
{
    let text = text(object, member)?;
    match NodeId::read(text.as_bytes()) {
        Ok(node) => Ok(node),
        Err(_) => Err(Misfit { member }),
    }
}

/// What a client calls a subscription.
#[tactic(auto, unfolding(crate::specs::Members::name_at))]
fn sid(alloc: Global, object: &Value, member: Member) -> Result<Sid, Failure<Misfit>>
    ensures { MemberMeans (name_at sid_fault member (view object.now)) result }
{
    let text = text(object, member)?;
    member_name(Sid::read(alloc, text.as_bytes()), member)
}

/// What a subscription asks for.
#[tactic(auto, unfolding(crate::specs::Members::name_at))]
fn pattern(alloc: Global, object: &Value, member: Member) -> Result<Pattern, Failure<Misfit>>
    ensures { MemberMeans (name_at pattern_fault member (view object.now)) result }
{
    let text = text(object, member)?;
    member_name(Pattern::read(alloc, text.as_bytes()), member)
}

/// What is published on.
#[tactic(auto, unfolding(crate::specs::Members::name_at))]
fn subject(alloc: Global, object: &Value, member: Member) -> Result<Subject, Failure<Misfit>>
    ensures { MemberMeans (name_at subject_fault member (view object.now)) result }
{
    let text = text(object, member)?;
    member_name(Subject::read(alloc, text.as_bytes()), member)
}

/// Where an answer is awaited, where the member is there.
#[tactic(auto, unfolding(crate::specs::Members::optional_name_at))]
fn optional_subject(
    alloc: Global,
    object: &Value,
    member: Member,
) -> Result<Option<Subject>, Failure<Misfit>>
    ensures { MemberMeans (optional_name_at subject_fault member (view object.now)) result }
{
    match optional_text(object, member)? {
        None => Ok(None),
        Some(text) => some_member_name(Subject::read(alloc, text.as_bytes()), member),
    }
}

/// The name of a queue group, where the member is there.
#[tactic(auto, unfolding(crate::specs::Members::optional_name_at))]
fn optional_queue(
    alloc: Global,
    object: &Value,
    member: Member,
) -> Result<Option<QueueName>, Failure<Misfit>>
    ensures { MemberMeans (optional_name_at queue_name_fault member (view object.now)) result }
{
    match optional_text(object, member)? {
        None => Ok(None),
        Some(text) => some_member_name(QueueName::read(alloc, text.as_bytes()), member),
    }
}

fn read_conn(object: &Value) -> Result<ConnId, Misfit>
    ensures { Says (conn (view object.now)) result }
{
    let number = number(object, Member::Conn)?;
    Ok(ConnId::new(number))
}

#[tactic(auto, unfolding(crate::specs::Acts::start_in))]
fn read_start(object: &Value) -> Result<Act, Failure<Misfit>>
    ensures { MemberMeans (start_in (view object.now)) result }
{
    let number = number(object, Member::Inc)?;
    let inc = Incarnation::new(number).ok_or(Misfit {
        member: Member::Inc,
    })?;
    Ok(Act::Start { inc })
}

#[tactic(auto, unfolding(crate::specs::Acts::attach_in))]
fn read_attach(object: &Value) -> Result<Act, Failure<Misfit>>
    ensures { MemberMeans (attach_in (view object.now)) result }
{
    let shard = optional_number(object, Member::Shard)?;
    Ok(Act::Attach {
        shard: shard.unwrap_or(1),
    })
}

#[tactic(auto, unfolding(crate::specs::Acts::key_in))]
fn read_key(alloc: Global, object: &Value) -> Result<Key, Failure<Misfit>>
    ensures { MemberMeans (key_in (view object.now)) result }
{
    let pattern = pattern(alloc, object, Member::Pattern)?;
    let queue = optional_queue(alloc, object, Member::Queue)?;
    Ok(Key { pattern, queue })
}

#[tactic(auto, unfolding(crate::specs::Acts::sub_in))]
fn read_sub(alloc: Global, object: &Value) -> Result<Act, Failure<Misfit>>
    ensures { MemberMeans (sub_in (view object.now)) result }
{
    let conn = read_conn(object)?;
    let key = read_key(alloc, object)?;
    let sid = sid(alloc, object, Member::Sid)?;
    Ok(Act::Sub { conn, key, sid })
}

#[tactic(auto, unfolding(crate::specs::Acts::unsub_in))]
fn read_unsub(alloc: Global, object: &Value) -> Result<Act, Failure<Misfit>>
    ensures { MemberMeans (unsub_in (view object.now)) result }
{
    let conn = read_conn(object)?;
    let sid = sid(alloc, object, Member::Sid)?;
    let max = optional_number(object, Member::Max)?;
    Ok(Act::Unsub { conn, sid, max })
}

#[tactic(auto, unfolding(crate::specs::Acts::headers_in))]
fn read_headers(object: &Value) -> Result<Act, Failure<Misfit>>
    ensures { MemberMeans (headers_in (view object.now)) result }
{
    let conn = read_conn(object)?;
    let on = truth(object, Member::On)?;
    Ok(Act::SetHeaders { conn, on })
}

/// The bytes of a text, where there is one.
fn bytes_where_there(alloc: Global, text: Option<&str>) -> Result<Option<Bytes>, AllocError>
    ensures { IfOk result (λ bytes. bytes ≡ option_copied text.entry) }
{
    match text {
        None => Ok(None),
        Some(text) => Ok(Some(Bytes::copy_from_slice(alloc, text.as_bytes())?)),
    }
}

/// What a publication has besides its subjects.
#[derive(Clone, Copy)]
struct Content<'a> {
    headers: Option<&'a str>,
    payload: &'a str,
    echo: bool,
}

#[tactic(auto, unfolding(crate::specs::Acts::content_in))]
fn read_content(object: &Value) -> Result<Content<'_>, Misfit>
    ensures { SaysBy content_of (content_in (view object.now)) result }
{
    Ok(Content {
        headers: optional_text(object, Member::Headers)?,
        payload: text(object, Member::Payload)?,
        echo: optional_truth(object, Member::Echo)?.unwrap_or(true),
    })
}

/// The header block, where there is one, and the payload.
fn blocks_of(alloc: Global, content: Content<'_>) -> Result<(Option<Bytes>, Bytes), AllocError>
    ensures { IfOk result (λ blocks. (blocks.0 ≡ option_copied content.entry.headers)
        × (blocks.1 ≡ content.entry.payload.now)) }
{
    let headers = bytes_where_there(alloc, content.headers)?;
    let payload = Bytes::copy_from_slice(alloc, content.payload.as_bytes())?;
    Ok((headers, payload))
}

/// The publication of this content. Where it is none, its headers are wrong, or else its payload.
fn publication_of(
    alloc: Global,
    subject: Subject,
    reply: Option<Subject>,
    content: Content<'_>,
) -> Result<Pub, Failure<Misfit>>
    ensures { MemberMeans (publication_of subject reply (content_of content.entry)) result }
{
    let (headers, payload) = blocks_of(alloc, content)?;
    match Pub::new(alloc, subject, reply, headers, payload, content.echo)? {
        Some(publication) => Ok(publication),
        None if content.headers.is_some() => Err(Failure::Refused(Misfit {
            member: Member::Headers,
        })),
        None => Err(Failure::Refused(Misfit {
            member: Member::Payload,
        })),
    }
}

/// What is published.
#[tactic(auto, unfolding(crate::specs::Acts::publication_in))]
fn read_publication(alloc: Global, object: &Value) -> Result<Pub, Failure<Misfit>>
    ensures { MemberMeans (publication_in (view object.now)) result }
{
    let subject = subject(alloc, object, Member::Subject)?;
    let reply = optional_subject(alloc, object, Member::Reply)?;
    let content = read_content(object)?;
    publication_of(alloc, subject, reply, content)
}

/// What is published, and whether it is delivered too, as the verb says.
#[tactic(auto, unfolding(crate::specs::Acts::publish_in))]
fn read_publish(alloc: Global, verb: Verb, object: &Value) -> Result<Act, Failure<Misfit>>
    ensures { MemberMeans (publish_in (published_by verb) (view object.now)) result }
{
    let conn = read_conn(object)?;
    let publication = read_publication(alloc, object)?;
    let word = number(object, Member::Word)?;
    match verb {
        Verb::Deliver => Ok(Act::Deliver {
            conn,
            publication,
            word,
        }),
        _ => Ok(Act::Publish {
            conn,
            publication,
            word,
        }),
    }
}

#[tactic(auto, unfolding(crate::specs::Acts::settled_in))]
fn read_settled(alloc: Global, object: &Value) -> Result<Act, Failure<Misfit>>
    ensures { MemberMeans (settled_in (view object.now)) result }
{
    let subject = subject(alloc, object, Member::Subject)?;
    Ok(Act::Settled { subject })
}

#[tactic(auto, unfolding(crate::specs::Acts::claim_in))]
fn read_claim(object: &Value) -> Result<Act, Failure<Misfit>>
    ensures { MemberMeans (claim_in (view object.now)) result }
{
    let shard = number(object, Member::Shard)?;
    let index = number(object, Member::Index)?;
    Ok(Act::Claim { shard, index })
}

/// From the connection; where none is named, from the peer.
#[tactic(auto, unfolding(crate::specs::Acts::take_entries_in, crate::specs::Acts::take_frames_in))]
fn read_take(object: &Value) -> Result<Act, Failure<Misfit>>
    ensures { MemberMeans (take_in (view object.now)) result }
{
    if object.get(Member::Conn.name()).is_some() {
        let conn = read_conn(object)?;
        let count = number(object, Member::Count)?;
        return Ok(Act::TakeEntries { conn, count });
    }
    let peer = node(object, Member::Peer)?;
    let count = number(object, Member::Count)?;
    Ok(Act::TakeFrames { peer, count })
}

/// What is done at a shard, as the verb says.
#[tactic(auto, unfolding(crate::specs::Acts::of_shard))]
fn read_at_shard(verb: Verb, object: &Value) -> Result<Act, Failure<Misfit>>
    ensures { MemberMeans (of_shard (at_shard verb) (view object.now)) result }
{
    let shard = number(object, Member::Shard)?;
    match verb {
        Verb::Collect => Ok(Act::Collect { shard }),
        Verb::DrainShard => Ok(Act::DrainShard { shard }),
        Verb::Begin => Ok(Act::Begin { shard }),
        Verb::End => Ok(Act::End { shard }),
        _ => Ok(Act::DropJob { shard }),
    }
}

/// What is handed to a server on a session: a `CONNECT` where the verb says so, and else an `INFO`.
#[tactic(auto, unfolding(crate::specs::Acts::of_session))]
fn read_on_session(verb: Verb, object: &Value) -> Result<Act, Failure<Misfit>>
    ensures { MemberMeans (of_session (on_session verb) (view object.now)) result }
{
    let session = number(object, Member::Session)?;
    let frame = number(object, Member::Frame)?;
    match verb {
        Verb::Connect => Ok(Act::Connect { session, frame }),
        _ => Ok(Act::Info { session, frame }),
    }
}

/// What is done, of what the verb says.
#[tactic(auto, unfolding(crate::specs::Acts::of_peer, crate::specs::Acts::detach_in, crate::specs::Acts::receive_in, crate::specs::Acts::cut_in))]
fn read_act(alloc: Global, verb: Verb, object: &Value) -> Result<Act, Failure<Misfit>>
    ensures { MemberMeans (act_in verb (view object.now)) result }
{
    match verb {
        Verb::Start => read_start(object),
        Verb::Stop => Ok(Act::Stop),
        Verb::Attach => read_attach(object),
        Verb::Sub => read_sub(alloc, object),
        Verb::Unsub => read_unsub(alloc, object),
        Verb::Headers => read_headers(object),
        Verb::Detach => Ok(Act::Detach {
            conn: read_conn(object)?,
        }),
        Verb::Publish | Verb::Deliver => read_publish(alloc, verb, object),
        Verb::Settled => read_settled(alloc, object),
        Verb::Receive => Ok(Act::Receive {
            frame: number(object, Member::Frame)?,
        }),
        Verb::Collect | Verb::DrainShard | Verb::Begin | Verb::End | Verb::Drop => {
            read_at_shard(verb, object)
        }
        Verb::Drain => Ok(Act::Drain),
        Verb::Claim => read_claim(object),
        Verb::Dial => Ok(Act::Dial {
            peer: node(object, Member::Peer)?,
        }),
        Verb::Accept => Ok(Act::Accept),
        Verb::Info | Verb::Connect => read_on_session(verb, object),
        Verb::Cut => Ok(Act::Cut {
            session: number(object, Member::Session)?,
        }),
        Verb::Take => read_take(object),
        Verb::Join => Ok(Act::Join {
            peer: node(object, Member::Peer)?,
        }),
    }
}

/// What a step does, by name.
#[tactic(auto, unfolding(crate::specs::Acts::verb_in))]
fn read_verb(object: &Value) -> Result<Verb, Misfit>
    ensures { Says (verb_in (view object.now)) result }
{
    let word = text(object, Member::Do)?;
    Verb::read(word).ok_or(Misfit { member: Member::Do })
}

/// One step.
#[tactic(auto, unfolding(crate::specs::Acts::step_in))]
fn read_step(alloc: Global, object: &Value) -> Result<Step, Failure<Misfit>>
    ensures { MemberMeans (step_in (view object.now)) result }
{
    let verb = read_verb(object)?;
    let node = node(object, Member::Node)?;
    let act = read_act(alloc, verb, object)?;
    Ok(Step { node, act })
}

/// A script: the servers of a cluster, and what is done in it, step by step. (Profile.)
///
/// Seen as the names of the servers, 1 to [`subj::MAX_NODES`] and all apart, the number of shards of each, 1 to
/// [`subj::MAX_SHARDS`], and the steps.
pub struct Script {
    /// The names of the servers and the number of shards, as a server's at the first place.
    server: ServerIdentity,
    steps: Vec<Step>,
}

/// One call, also for crates above: `docs/PROVING.md`, "What a proof costs".
impl Drop for Script {
    fn drop(self) {
        let Script {
            server: _,
            steps: _,
        } = self;
    }
}

impl Model for Script {
    ghost use Rattle.std.specs.Prelude.{◌≡◌, true};
    ghost use Rattle.script_form.specs.Form.{Script, is_cluster};

    ghost Value = { Script };

    ghost view = { λ s. record {
      names = s.server.names;
      shards = s.server.shards;
      steps = s.steps.items;
    } };

    ghost invariant = { λ s. is_cluster s.server.names s.server.shards ≡ true };
}

/// The JSON that bytes are.
fn read_json(alloc: Global, bytes: &[u8]) -> Result<Value, Failure<ScriptError>>
    ensures { ReadsJson bytes.now result }
{
    match Value::from_slice(alloc, bytes) {
        Ok(json) => Ok(json),
        Err(error) => {
            if error.is_memory() {
                return Err(Failure::OutOfMemory);
            }
            Err(Failure::Refused(ScriptError {
                fault: ScriptFault::NotJson,
                place: Place::Text {
                    line: error.line(),
                    column: error.column(),
                },
            }))
        }
    }
}

/// The items of a list.
fn list<'a>(object: &'a Value, member: Member) -> Result<&'a [Value], Misfit>
    ensures { SaysBy (λ items. items_view items.now) (there as_array member (view object.now))
        result }
{
    match object.get(member.name()).and_then(Value::as_array) {
        Some(items) => Ok(items),
        None => Err(Misfit { member }),
    }
}

/// The names in a list.
fn read_names(alloc: Global, items: &[Value]) -> Result<Vec<NodeId>, Failure<Place>>
    ensures { MeansBy (λ names. names.items) (each is_node (items_view items.now)) result }
{
    let mut names = Vec::new(alloc);
    for item in items {
        let Some(name) = node_of(item) else {
            return Err(Failure::Refused(Place::Member {
                member: Member::Nodes,
            }));
        };
        names.push(name)?;
    }
    Ok(names)
}

/// The step of this number.
fn read_numbered(alloc: Global, item: &Value, number: usize) -> Result<Step, Failure<Place>>
    ensures { MemberMeans (step_in (view item.now)) result }
{
    match read_step(alloc, item) {
        Ok(step) => Ok(step),
        Err(Failure::Refused(misfit)) => Err(Failure::Refused(Place::Step {
            number,
            member: misfit.member,
        })),
        Err(Failure::OutOfMemory) => Err(Failure::OutOfMemory),
    }
}

/// The steps in a list.
fn read_steps(alloc: Global, items: &[Value]) -> Result<Vec<Step>, Failure<Place>>
    ensures { MeansBy (λ steps. steps.items) (each step_in (items_view items.now)) result }
{
    let mut steps = Vec::new(alloc);
    for item in items {
        let step = read_numbered(alloc, item, steps.len().saturating_add(1))?;
        steps.push(step)?;
    }
    Ok(steps)
}

fn too_long() -> ScriptError
    ensures { result.fault ≡ TooLong }
{
    ScriptError {
        fault: ScriptFault::TooLong,
        place: Place::Whole,
    }
}

/// Whether there are too many events.
fn are_too_many(steps: &[Step]) -> bool
    ensures { result ≡ nat_lt SCRIPT_EVENTS (count_of steps.now) }
{
    let mut count = 0;
    for step in steps {
        count += step.act.events();
        if count > SCRIPT_EVENTS {
            return true;
        }
    }
    false
}

impl Script {
    ghost use Rattle.script_form.specs.Form.{cluster_script, is_cluster};
    ghost use Rattle.std.specs.Prelude.{◌≡◌, true};

    /// The script of these servers and these steps, where that is a cluster.
    fn of_cluster(names: Vec<NodeId>, shards: u64, steps: Vec<Step>) -> Option<Script>
        ensures { result ≡ cluster_script names.items shards steps.items }
    {
        let Some(inc) = Incarnation::new(1) else {
            // 1 is an incarnation
            unreachable!()
        };
        let server = ServerIdentity::new(names, 0, inc, shards)?;
        Some(Script { server, steps })
    }

    /// The script that JSON is.
    #[tactic(auto, unfolding(crate::specs::Form::script_in))]
    fn from_json(alloc: Global, json: &Value) -> Result<Script, Failure<Place>>
        ensures { MemberMeans (script_in (view json.now)) result }
    {
        let names = list(json, Member::Nodes)?;
        let names = read_names(alloc, names)?;
        let shards = number(json, Member::Shards)?;
        let steps = list(json, Member::Steps)?;
        let steps = read_steps(alloc, steps)?;
        Script::of_cluster(names, shards, steps).ok_or(Failure::Refused(Place::Whole))
    }

    /// The script that bytes are.
    ///
    /// Refused with [`ScriptFault::TooLong`] where there are more than [`subj::SCRIPT_BYTES`] bytes; then with
    /// [`ScriptFault::NotJson`] where they are no JSON or not UTF-8; then with [`ScriptFault::BadShape`] where the
    /// JSON has not the form of a script, anywhere; and then with [`ScriptFault::TooLong`] where there are more than
    /// [`subj::SCRIPT_EVENTS`] events, of which a join counts as [`subj::JOIN_EVENTS`]. Want of memory may stand
    /// in place of all but the first.
    pub fn read(alloc: Global, bytes: &[u8]) -> Result<Script, Failure<ScriptError>>
        ensures { Reads bytes.now result }
    {
        if bytes.len() > SCRIPT_BYTES {
            return Err(Failure::Refused(too_long()));
        }
        let json = read_json(alloc, bytes)?;
        let script = match Script::from_json(alloc, &json) {
            Ok(script) => script,
            Err(Failure::Refused(place)) => return Err(Failure::Refused(ScriptError {
                fault: ScriptFault::BadShape,
                place,
            })),
            Err(Failure::OutOfMemory) => return Err(Failure::OutOfMemory),
        };
        if are_too_many(&script.steps) {
            return Err(Failure::Refused(too_long()));
        }
        Ok(script)
    }

    /// The names of the servers.
    pub fn names(&self) -> &[NodeId]
        ensures { result.now ≡ self.now.names }
    {
        self.server.names()
    }

    /// How many shards each server has.
    pub fn shards(&self) -> u64
        ensures same { result ≡ self.now.shards }
        ensures cluster { is_cluster self.now.names self.now.shards ≡ true }
    {
        self.server.shards()
    }

    /// What is done, in order.
    pub fn steps(&self) -> &[Step]
        ensures { result.now ≡ self.now.steps }
    {
        &self.steps
    }
}
