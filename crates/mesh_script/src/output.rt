//! What is to be written, gathered: the outcomes of events, placements and the last line.

ghost use Rattle.std.specs.Prelude.{◌≡◌, ◌++◌, [], codes, decimal, OnOk, ◌+◌, ◌∷◌, map, length, IfOk};
ghost use Rattle.mesh_script.specs.Asks.{settled_line, delivered_line};
ghost use Rattle.mesh_script.specs.Lines.{refused_text, end_line};
ghost use Rattle.mesh_script.specs.Putting.{PutsOrStarts};
ghost use Rattle.mesh_script.specs.Played.{Writes, CountsWrites};
ghost use Rattle.cluster_world.specs.InCode.{outcome_of, life_of, life_id_of, placements_in, placing_server};
ghost use Rattle.world_law.specs.Written.{outcome_text, answer_text, sub_text, kept_text, is_life as is_of_life, sid_of as sid_for, mode_text, name_at as name_for, fields, placement_line};
ghost use Rattle.node_core.specs.InCode.{answer_of};
ghost use Rattle.std.specs.List.{flat_map};
ghost use Rattle.world_law.specs.Changes.{placement_of};
ghost use Rattle.mesh_script.specs.Placing.{cluster_named, placement_in, HasPut, placements_text};

use cluster_world::{Life, LifeId, Outcome, Placements};
use itoa::Buffer;
use node_core::Answer;
use outbox::{Mode, Tag};
use route_session::SessionId;
use shard_core::Placed;
use std::alloc::{AllocError, Global};
use std::marker::Model;
use subj::{ConnId, NodeId, PubId, READ_BYTES, SubId};
use thiserror::Error;
use wire_cut::{Sink, WriteFailed};

/// Why playing a script broke off. What was written by then is a beginning of its text.
#[derive(Clone, Copy, Debug, Error)]
pub enum PlayFault {
    /// The writer failed.
    #[error("writing failed")]
    Write,
    /// The allocator gave no memory.
    #[error("out of memory")]
    OutOfMemory,
}

impl From<AllocError> for PlayFault {
    ghost use Rattle.std.specs.Prelude.{◌≡◌};
    ghost use Rattle.mesh_script.specs.declared.output.PlayFault.TheVariants.{OutOfMemory};

    ghost from_gives = { λ _ fault. fault ≡ OutOfMemory };

    fn from(_: AllocError) -> PlayFault {
        PlayFault::OutOfMemory
    }
}

impl From<WriteFailed> for PlayFault {
    ghost use Rattle.std.specs.Prelude.{◌≡◌};
    ghost use Rattle.mesh_script.specs.declared.output.PlayFault.TheVariants.{Write};

    ghost from_gives = { λ _ fault. fault ≡ Write };

    fn from(_: WriteFailed) -> PlayFault {
        PlayFault::Write
    }
}

/// Bytes that stand to be written. They are written once there are [`READ_BYTES`] of them, and at the end.
///
/// Seen as these bytes.
#[derive(Drop)]
pub(crate) struct Output {
    bytes: Vec<u8>,
}

impl Model for Output {
    ghost use Rattle.std.specs.Prelude.{ℕ, List};

    ghost Value = { List ℕ };

    ghost view = { λ output. output.bytes.items };
}

impl Output {
    /// Nothing.
    pub(crate) fn new(alloc: Global) -> Output
        ensures { result ≡ [] }
    {
        Output {
            bytes: Vec::new(alloc),
        }
    }

    /// Puts these bytes behind the others.
    pub(crate) fn put(&mut self, bytes: &[u8]) -> Result<(), AllocError>
        ensures { OnOk result (self.new ≡ self.old ++ bytes.now) }
    {
        self.bytes.extend_from_slice(bytes)
    }

    /// Puts a number behind the others, in decimal digits.
    pub(crate) fn put_number(&mut self, number: u64) -> Result<(), AllocError>
        ensures { OnOk result (self.new ≡ self.old ++ decimal number) }
    {
        let mut digits = Buffer::new();
        self.put(digits.format(number).as_bytes())
    }

    /// Puts these bytes, and behind them a number.
    pub(crate) fn put_with(&mut self, bytes: &[u8], number: u64) -> Result<(), AllocError>
        ensures { OnOk result (self.new ≡ self.old ++ (bytes.now ++ decimal number)) }
    {
        self.put(bytes)?;
        self.put_number(number)
    }

    /// Writes all that stands to be written.
    pub(crate) fn flush<S: Sink>(&mut self, sink: &mut S) -> Result<(), PlayFault>
        ensures text { PutsOrStarts result self.old (S.written sink.old) [] self.new
            (S.written sink.new) }
        ensures empty { OnOk result (self.new ≡ []) }
        ensures failures { CountsWrites result (S.failures sink.old) (S.failures sink.new) }
    {
        sink.write_all(&self.bytes)?;
        self.bytes.clear();
        Ok(())
    }

    /// Writes all that stands to be written, if that is much.
    pub(crate) fn flush_much<S: Sink>(&mut self, sink: &mut S) -> Result<(), PlayFault>
        ensures text { PutsOrStarts result self.old (S.written sink.old) [] self.new
            (S.written sink.new) }
        ensures failures { CountsWrites result (S.failures sink.old) (S.failures sink.new) }
    {
        if self.bytes.len() >= READ_BYTES {
            self.flush(sink)?;
        }
        Ok(())
    }
}

/// Writes these bytes as one line.
pub(crate) fn write_line<S: Sink>(alloc: Global, line: &[u8], sink: &mut S) -> Result<(), PlayFault>
    ensures text { Writes result (S.written sink.old) (S.written sink.new)
        (line.now ++ codes "\n") }
    ensures failures { CountsWrites result (S.failures sink.old) (S.failures sink.new) }
{
    let mut output = Output::new(alloc);
    output.put(line)?;
    output.put(b"\n")?;
    output.flush(sink)
}

/// Writes in one line what was refused, and by which number.
pub(crate) fn write_refusal<S: Sink>(
    alloc: Global,
    what: &[u8],
    number: u16,
    sink: &mut S,
) -> Result<(), PlayFault>
    ensures text { Writes result (S.written sink.old) (S.written sink.new)
        (refused_text what.now number) }
    ensures failures { CountsWrites result (S.failures sink.old) (S.failures sink.new) }
{
    let mut output = Output::new(alloc);
    output.put(what)?;
    output.put_with(b" refused ", number as u64)?;
    output.put(b"\n")?;
    output.flush(sink)
}

/// A word, and a subscription by its shard and its serial.
fn put_sub(output: &mut Output, word: &[u8], sub: SubId) -> Result<(), AllocError>
    ensures { OnOk result (output.new ≡ output.old ++ (word.now ++ sub_text sub)) }
{
    output.put_with(word, sub.shard)?;
    output.put_with(b".", sub.serial)
}

/// That a session is kept, and in place of which other one.
fn put_kept(output: &mut Output, instead_of: Option<SessionId>) -> Result<(), AllocError>
    ensures { OnOk result (output.new ≡ output.old ++ kept_text instead_of) }
{
    match instead_of {
        None => output.put(b"kept"),
        Some(session) => output.put_with(b"kept instead of ", session.get()),
    }
}

/// Two words, each with its number.
fn put_two(
    output: &mut Output,
    first: &[u8],
    one: u64,
    second: &[u8],
    other: u64,
) -> Result<(), AllocError>
    ensures { OnOk result
        (output.new ≡ output.old ++ (first.now ++ (decimal one ++ (second.now ++ decimal other)))) }
{
    output.put_with(first, one)?;
    output.put_with(second, other)
}

/// What a server answers.
fn put_answer(output: &mut Output, answer: &Answer) -> Result<(), AllocError>
    ensures { OnOk result (output.new ≡ output.old ++ answer_text (answer_of answer.now)) }
{
    match answer {
        Answer::Attached(conn) => output.put_with(b"conn ", conn.get()),
        Answer::Opened(sub) => put_sub(output, b"sub ", *sub),
        Answer::AlreadyOpen => output.put(b"same"),
        Answer::Issued { turn, frames } => {
            put_two(output, b"turn ", turn.get(), b" frames ", *frames as u64)
        }
        Answer::Routed(turn) => output.put_with(b"turn ", turn.get()),
        Answer::Heard(mark) => output.put_with(b"view ", *mark),
        Answer::Collected {
            changes,
            frames,
            ..
        } => put_two(
            output,
            b"changes ",
            *changes as u64,
            b" frames ",
            *frames as u64,
        ),
        Answer::Began { placed, shut } => {
            put_two(
                output,
                b"placed ",
                *placed as u64,
                b" closed ",
                *shut as u64,
            )
        }
        Answer::Won(sub) => put_sub(output, b"won ", *sub),
        Answer::Lost => output.put(b"lost"),
        Answer::Nobody => output.put(b"nobody"),
        Answer::OnSession(session) => output.put_with(b"session ", session.get()),
        Answer::Kept { instead_of } => put_kept(output, *instead_of),
        Answer::TakenEntries(entries) => output.put_with(b"took ", entries.len() as u64),
        Answer::TakenFrames(frames) => output.put_with(b"took ", frames.len() as u64),
        Answer::Nothing => output.put(b"ok"),
    }
}

/// Why an event was refused, by its number, or what a server answers.
fn put_outcome(output: &mut Output, outcome: &Outcome) -> Result<(), AllocError>
    ensures { OnOk result (output.new ≡ output.old ++ outcome_text (outcome_of outcome.now)) }
{
    match outcome {
        Outcome::Refused(fault) => output.put_with(b"refused ", fault.number() as u64),
        Outcome::Done(answer) => put_answer(output, answer),
    }
}

/// The line of the event of this number, from 1.
pub(crate) fn put_line(
    output: &mut Output,
    number: u64,
    outcome: &Outcome,
) -> Result<(), AllocError>
    ensures { OnOk result (output.new
        ≡ output.old
        ++ ((decimal number ++ (codes " " ++ outcome_text (outcome_of outcome.now)))
        ++ codes "\n")) }
{
    output.put_number(number)?;
    output.put(b" ")?;
    put_outcome(output, outcome)?;
    output.put(b"\n")
}

/// What is told of a cluster that is settled, or is not.
fn settled_words(settled: bool) -> &'static [u8]
    ensures { result.now ≡ settled_line settled }
{
    if settled {
        b"settled yes"
    } else {
        b"settled no"
    }
}

/// The line that tells whether the cluster is settled.
pub(crate) fn put_settled(output: &mut Output, settled: bool) -> Result<(), AllocError>
    ensures { OnOk result (output.new ≡ output.old ++ (settled_line settled ++ codes "\n")) }
{
    output.put(settled_words(settled))?;
    output.put(b"\n")
}

/// The line that tells how many messages a delivery placed.
pub(crate) fn put_delivered(output: &mut Output, placed: u64) -> Result<(), AllocError>
    ensures { OnOk result (output.new ≡ output.old ++ (delivered_line placed ++ codes "\n")) }
{
    output.put_with(b"delivered ", placed)?;
    output.put(b"\n")
}

/// What the lines of placements are about: the names of the servers, and all subscriptions.
#[derive(Clone, Copy)]
pub(crate) struct Known<'a> {
    pub(crate) names: &'a [NodeId],
    pub(crate) lives: &'a [Life],
}

/// A message, and for which subscription it was placed.
#[derive(Clone, Copy)]
struct Message<'a> {
    step: u64,
    life: LifeId,
    conn: ConnId,
    id: PubId,
    mode: &'a Mode,
}

/// Whether it is the subscription of this name.
fn is_life(life: &Life, id: &LifeId) -> bool
    ensures { result ≡ is_of_life (life_id_of id.now) (life_of life.now) }
{
    life.id.node == id.node
        && life.id.inc == id.inc
        && life.id.sub.shard == id.sub.shard
        && life.id.sub.serial == id.sub.serial
}

/// What the client calls the subscription; nothing where there is no such one.
fn sid_of<'a>(lives: &'a [Life], id: &LifeId) -> &'a [u8]
    ensures { result.now ≡ sid_for (map life_of lives.now) (life_id_of id.now) }
{
    for life in lives {
        if is_life(life, id) {
            return life.sid.bytes();
        }
    }
    b""
}

/// The name of the server at the place; nothing where there is none.
fn name_at(names: &[NodeId], place: usize) -> &[u8]
    ensures { result.now ≡ name_for (cluster_named names.now) place }
{
    match names.get(place) {
        None => b"",
        Some(name) => name.bytes(),
    }
}

/// A blank, and a field.
fn put_field(output: &mut Output, field: &[u8]) -> Result<(), AllocError>
    ensures { OnOk result (output.new ≡ output.old ++ (codes " " ++ field.now)) }
{
    output.put(b" ")?;
    output.put(field)
}

/// How a message came to its subscription.
fn put_mode(output: &mut Output, mode: &Mode) -> Result<(), AllocError>
    ensures { OnOk result (output.new ≡ output.old ++ mode_text mode.now) }
{
    match mode {
        Mode::Plain => output.put(b"-"),
        Mode::Queue(name) => {
            output.put(b"=")?;
            output.put(name.bytes())
        }
    }
}

/// What a publication is called.
fn put_publication(output: &mut Output, id: PubId) -> Result<(), AllocError>
    ensures { OnOk result
        (output.new ≡ output.old ++ fields (id.origin ∷ decimal id.inc ∷ decimal id.number ∷ [])) }
{
    put_field(output, id.origin.bytes())?;
    output.put_with(b" ", id.inc.get())?;
    output.put_with(b" ", id.number)
}

/// Whom a message was placed for.
fn put_subscriber(
    output: &mut Output,
    known: Known<'_>,
    message: &Message<'_>,
) -> Result<(), AllocError>
    ensures { OnOk result (output.new
        ≡ output.old
        ++ fields (name_for (cluster_named known.entry.names.now) message.now.life.node
        ∷ decimal message.now.conn
        ∷ sid_for (map life_of known.entry.lives.now) (life_id_of message.now.life)
        ∷ mode_text message.now.mode.now ∷ [])) }
{
    put_field(output, name_at(known.names, message.life.node))?;
    output.put_with(b" ", message.conn.get())?;
    put_field(output, sid_of(known.lives, &message.life))?;
    output.put(b" ")?;
    put_mode(output, message.mode)
}

/// The line of a message.
fn put_message(
    output: &mut Output,
    known: Known<'_>,
    message: &Message<'_>,
) -> Result<(), AllocError>
    ensures { OnOk result (output.new
        ≡ output.old
        ++ (placement_line (cluster_named known.entry.names.now) (map life_of known.entry.lives.now)
        (placement_in message.now) ++ codes "\n")) }
{
    output.put_with(b"placed ", message.step)?;
    put_publication(output, message.id)?;
    put_subscriber(output, known, message)?;
    output.put(b"\n")
}

/// The line of an entry, if it is a message. Gives how many messages it is.
fn put_entry(
    output: &mut Output,
    known: Known<'_>,
    placements: &Placements,
    placed: &Placed,
) -> Result<u64, AllocError>
    ensures { IfOk result (λ count.
        HasPut count output.old
        (placements_text (cluster_named known.entry.names.now) (map life_of known.entry.lives.now))
        (placement_of (placing_server placements.now.node placements.now.inc) placements.now.step
        placed.now.conn placed.now.headers placed.now.entry.bytes placed.now.entry.tag)
        output.new) }
{
    match placed.entry.tag() {
        Tag::Reply => Ok(0),
        Tag::Msg { id, sub, mode } => {
            let life = LifeId {
                node: placements.node,
                inc: placements.inc,
                sub: *sub,
            };
            let message = Message {
                step: placements.step,
                life,
                conn: placed.conn,
                id: *id,
                mode,
            };
            put_message(output, known, &message)?;
            Ok(1)
        }
    }
}

/// The lines of the messages that one step placed, behind so many others. Gives how many there are then; want of memory
/// also stands for more than can be counted.
fn put_step<S: Sink>(
    output: &mut Output,
    known: Known<'_>,
    placements: &Placements,
    before: u64,
    sink: &mut S,
) -> Result<u64, PlayFault>
    ensures text { PutsOrStarts result output.old (S.written sink.old)
        (placements_text (cluster_named known.entry.names.now) (map life_of known.entry.lives.now)
        (placements_in placements.now))
        output.new (S.written sink.new) }
    ensures count { IfOk result (λ count. count ≡ before + length (placements_in placements.now)) }
    ensures failures { CountsWrites result (S.failures sink.old) (S.failures sink.new) }
{
    let mut count = before;
    for placed in &placements.entries {
        output.flush_much(sink)?;
        let more = put_entry(output, known, placements, placed)?;
        let Some(sum) = count.checked_add(more) else {
            return Err(PlayFault::OutOfMemory);
        };
        count = sum;
    }
    Ok(count)
}

/// A line for each message that was placed. Gives how many there are.
pub(crate) fn put_placements<S: Sink>(
    output: &mut Output,
    known: Known<'_>,
    all: &[Placements],
    sink: &mut S,
) -> Result<u64, PlayFault>
    ensures text { PutsOrStarts result output.old (S.written sink.old)
        (placements_text (cluster_named known.entry.names.now) (map life_of known.entry.lives.now)
        (flat_map placements_in all.now))
        output.new (S.written sink.new) }
    ensures count { IfOk result (λ count. count ≡ length (flat_map placements_in all.now)) }
    ensures failures { CountsWrites result (S.failures sink.old) (S.failures sink.new) }
{
    let mut count = 0;
    for placements in all {
        count = put_step(output, known, placements, count, sink)?;
    }
    Ok(count)
}

/// The last line: how many events there were, and how many placements.
pub(crate) fn put_end(output: &mut Output, events: u64, placements: u64) -> Result<(), AllocError>
    ensures { OnOk result (output.new ≡ output.old ++ (end_line events placements ++ codes "\n")) }
{
    output.put_with(b"end ", events)?;
    output.put_with(b" ", placements)?;
    output.put(b"\n")
}
