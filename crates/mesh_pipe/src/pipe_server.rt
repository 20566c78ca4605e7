//! The server of a pipe, event by event: alone in its cluster, with one shard that has one connection; and what it makes of what
//! its client's connection asks.

ghost use Rattle.client_frames.specs.declared.server_frames.ReplyFrame.TheVariants as reply_frame;
ghost use Rattle.client_frames.specs.declared.server_frames.ServerFrame.TheVariants as server_frame;
ghost use Rattle.std.specs.Prelude.{◌≡◌, ◌≤◌, ◌++◌, [], true, not, length, codes, None, IfOk, OnOk, is_some};
ghost use Rattle.client_frames.specs.Frames.{frame_bytes, reply_line};
ghost use Rattle.subj.specs.declared.limits.TheConstants.{MAX_QUEUE_NAMES};
ghost use Rattle.shard_core.specs.ShardEvents.{Subscribe, Unsubscribe, Reply, SetHeaders, Shut, Take, Claim, End, Collect};
ghost use Rattle.shard_core.specs.ShardSteps.{answer_fits, shard_refusal};
ghost use Rattle.shard_core.specs.Shards.{is_known, is_open};
ghost use Rattle.mesh_pipe.specs.PipeText.{pipe_info, at_first, at_rest, after_event, output_of_subscribe, output_of_publish, ask_said};
ghost use Rattle.mesh_pipe.specs.PipeServing.{refusal_of as refused, line_in, shard_in, waiting_in, all_entries, waiting_bytes, placing_refused, pipe_server, IsServing, Steps, IsPublished, IsOpened, AreFree, HasBegun, HasClaimed, HasEnded, HasClaimedAll, HasWorkedOff, queues_in, first_queues};
ghost use Rattle.mesh_pipe.specs.PipeStates.{outcome_by, served_state, IsNew, IsReady, HasServed, MayBeTold};

use claim_race::Race;
use client_conn::{ClientAction, Refusal};
use client_frames::{ErrText, InfoData, ReplyFrame, ServerFrame, ServerInfo, encode, reply_line};
use client_refusals::{refusal_of_hub, refusal_of_shard};
use hub_core::queue_names_are_wanted;
use line_fields::{CR_LF, append_reserved};
use node_core::{Node, NodeFault, ShardWithJobs, counts_are_open};
use std::alloc::{AllocError, Global};
use std::marker::Model;
use sub_trie::TrieTable;
use subj::{
    ConnId, Failure, HostText, Incarnation, Key, NodeId, OUTBOX_BYTES, Pub, ServerIdentity, Sid,
};

/// `+OK` with its line end, put together once, since in verbose mode each command is answered by it.
#[derive(Drop)]
struct Confirmation {
    text: Vec<u8>,
}

impl Model for Confirmation {
    ghost use Rattle.std.specs.Prelude.{◌≡◌, ⊤};
    ghost use Rattle.client_frames.specs.Frames.{frame_bytes};
    ghost use Rattle.client_frames.specs.declared.server_frames.ReplyFrame.TheVariants as reply;
    ghost use Rattle.client_frames.specs.declared.server_frames.ServerFrame.TheVariants as frame;

    ghost Value = { ⊤ };

    ghost view = { λ _. tt };

    ghost invariant = { λ c. c.text.items ≡ frame_bytes (frame.Reply reply.Ok) };
}

impl Confirmation {
    /// The one text of all of them.
    fn new(alloc: Global) -> Result<Confirmation, AllocError> {
        let mut text = Vec::new(alloc);
        encode(&ServerFrame::Reply(ReplyFrame::Ok), &mut text)?;
        Ok(Confirmation { text })
    }

    /// Its bytes.
    fn text(&self) -> &[u8]
        ensures { result.now ≡ frame_bytes (server_frame.Reply reply_frame.Ok) }
    {
        self.text.as_slice()
    }
}

/// A server over the trie, with any race.
type PipeNode<R> = Node<TrieTable, R>;

/// The number of its shard.
const SHARD: u64 = 1;

/// The name of the server.
fn name() -> NodeId
    ensures { result ≡ codes "n1" }
{
    match NodeId::read(b"n1") {
        Ok(name) => name,
        // `n1` is a name
        Err(_) => unreachable!(),
    }
}

/// Its first life.
fn first_life() -> Incarnation
    ensures { result ≡ 1 }
{
    match Incarnation::new(1) {
        Some(inc) => inc,
        // 1 is an incarnation
        None => unreachable!(),
    }
}

/// The host that it tells.
fn host() -> HostText
    ensures { result.bytes ≡ codes "127.0.0.1" }
{
    match HostText::from("127.0.0.1") {
        Ok(host) => host,
        // a host's text may be as long
        Err(_) => unreachable!(),
    }
}

/// What the client is told first.
pub fn info(alloc: Global) -> Result<InfoData, AllocError>
    ensures { IfOk result (λ info. info ≡ pipe_info) }
{
    Ok(InfoData {
        server: ServerInfo::new(alloc, name(), first_life(), host(), 0)?,
        client_id: ConnId::new(1),
    })
}

/// Node `n1`, alone in its cluster, in its first life, with one shard.
fn only_server(alloc: Global) -> Result<ServerIdentity, AllocError>
    ensures { IfOk result (λ server. server ≡ pipe_server) }
{
    let mut names = Vec::new(alloc);
    names.push(name())?;
    match ServerIdentity::new(names, 0, first_life(), SHARD) {
        Some(server) => Ok(server),
        // one name, the first place and one shard are a server
        None => unreachable!(),
    }
}

/// A server that has just taken its one connection.
fn new_node<R: Race>(alloc: Global) -> Result<PipeNode<R>, AllocError>
    ensures { IfOk result (λ node.
        IsServing node × (shard_in node ≡ at_rest at_first) × (waiting_in node ≡ [])) }
{
    let mut node = Node::new(alloc, only_server(alloc)?)?;
    match node.attach(SHARD) {
        Ok(_) => Ok(node),
        // the shard is there, and no number is spent yet
        Err(Failure::Refused(_)) => unreachable!(),
        Err(Failure::OutOfMemory) => Err(AllocError),
    }
}

/// What the client is told of a refusal.
fn refusal_of(fault: NodeFault) -> Refusal
    ensures { result ≡ refused fault }
{
    match fault {
        NodeFault::Shard(fault) => refusal_of_shard(fault),
        NodeFault::Hub(fault) => refusal_of_hub(fault),
        NodeFault::NoShard | NodeFault::Session(_) => Refusal::Other,
    }
}

/// Puts a line for the client. Tells whether it was shut instead, for want of room.
fn reply<R: Race>(
    node: &mut PipeNode<R>,
    conn: ConnId,
    frame: &ReplyFrame,
) -> Result<bool, AllocError>
    requires serving { IsServing node.old }
    requires conn { conn ≡ 1 }
    requires open { is_open 1 (shard_in node.old).clients ≡ true }
    ensures steps { OnOk result (Steps node.old (Reply 1 frame.now) node.new) }
    ensures shut { IfOk result (λ shut.
        shut ≡ not (answer_fits (shard_in node.old) 1 (reply_line frame.now))) }
{
    match node.reply(conn, frame) {
        Ok(closed) => Ok(closed.shut),
        // required: the connection is open
        Err(Failure::Refused(_)) => unreachable!(),
        Err(Failure::OutOfMemory) => Err(AllocError),
    }
}

/// Notes whether the client takes headers.
fn set_headers<R: Race>(node: &mut PipeNode<R>, conn: ConnId, on: bool)
    requires serving { IsServing node.old }
    requires conn { conn ≡ 1 }
    requires open { is_open 1 (shard_in node.old).clients ≡ true }
    ensures { Steps node.old (SetHeaders 1 on) node.new }
{
    match node.set_headers(conn, on) {
        Ok(()) => {}
        // required: the connection is open
        Err(_) => unreachable!(),
    }
}

/// Shuts the client with this text.
fn shut<R: Race>(node: &mut PipeNode<R>, conn: ConnId, text: ErrText) -> Result<(), AllocError>
    requires serving { IsServing node.old }
    requires conn { conn ≡ 1 }
    requires open { is_open 1 (shard_in node.old).clients ≡ true }
    ensures { OnOk result (Steps node.old (Shut 1 text) node.new) }
{
    match node.shut(conn, text) {
        Ok(_ended) => Ok(()),
        // required: the connection is open
        Err(Failure::Refused(_)) => unreachable!(),
        Err(Failure::OutOfMemory) => Err(AllocError),
    }
}

/// Opens a subscription for the client, or tells why not.
fn subscribe<R: Race>(
    node: &mut PipeNode<R>,
    conn: ConnId,
    key: Key,
    sid: Sid,
) -> Result<Result<(), Refusal>, AllocError>
    requires serving { IsServing node.old }
    requires conn { conn ≡ 1 }
    ensures { IfOk result (λ opened.
        IsOpened (shard_refusal (shard_in node.old) (Subscribe 1 key sid)) (Subscribe 1 key sid)
        node.old opened node.new) }
{
    match node.subscribe(conn, key, sid) {
        Ok(_) => Ok(Ok(())),
        Err(Failure::Refused(fault)) => Ok(Err(refusal_of(fault))),
        Err(Failure::OutOfMemory) => Err(AllocError),
    }
}

/// Closes what the client calls so.
fn unsubscribe<R: Race>(node: &mut PipeNode<R>, conn: ConnId, sid: &Sid, max: Option<u64>)
    requires serving { IsServing node.old }
    requires conn { conn ≡ 1 }
    requires open { is_open 1 (shard_in node.old).clients ≡ true }
    ensures { Steps node.old (Unsubscribe 1 sid.now max) node.new }
{
    match node.unsubscribe(conn, sid, max) {
        Ok(_) => {}
        // required: the connection is open
        Err(_) => unreachable!(),
    }
}

/// Publishes for the client, or tells why not: a job of the next turn waits.
fn publish<R: Race>(
    node: &mut PipeNode<R>,
    conn: ConnId,
    publication: &Pub,
) -> Result<Result<(), Refusal>, AllocError>
    requires serving { IsServing node.old }
    requires conn { conn ≡ 1 }
    requires idle { waiting_in node.old ≡ [] }
    requires none { (shard_in node.old).hand ≡ None }
    requires told { (shard_in node.old).deltas ≡ [] }
    ensures { IfOk result (λ published.
        IsPublished (placing_refused publication.now (shard_in node.old)) publication.now node.old
        published node.new) }
{
    queue_names_are_wanted();
    counts_are_open();
    match node.publish(conn, publication, 0) {
        Ok(_) => Ok(Ok(())),
        Err(Failure::Refused(fault)) => Ok(Err(refusal_of(fault))),
        Err(Failure::OutOfMemory) => Err(AllocError),
    }
}

/// Begins the job that waits. Tells whether the client was shut for want of room.
fn begin<R: Race>(node: &mut PipeNode<R>) -> Result<bool, AllocError>
    requires serving { IsServing node.old }
    requires none { (shard_in node.old).hand ≡ None }
    requires one { length (waiting_in node.old) ≡ 1 }
    ensures { IfOk result (λ shut. HasBegun node.old shut node.new) }
{
    match node.begin(SHARD, false) {
        Ok(begun) => Ok(!begun.closed.is_empty()),
        // required: no job is in hand, and one waits
        Err(Failure::Refused(_)) => unreachable!(),
        Err(Failure::OutOfMemory) => Err(AllocError),
    }
}

/// Claims the queue name of this index of the job in hand, which is the next one.
fn claim<R: Race>(node: &mut PipeNode<R>, index: u64) -> Result<(), AllocError>
    requires serving { IsServing node.old }
    requires due { shard_refusal (shard_in node.old) (Claim index true) ≡ None }
    requires last { waiting_in node.old ≡ [] }
    requires free { AreFree index node.old.node.race }
    ensures { OnOk result (HasClaimed index node.old node.new) }
{
    match node.claim(SHARD, index, false) {
        Ok(_claimed) => Ok(()),
        // required: the claim is not refused
        Err(Failure::Refused(_)) => unreachable!(),
        Err(Failure::OutOfMemory) => Err(AllocError),
    }
}

/// Ends the job in hand, where all its queue names were claimed. Tells whether they were.
fn end<R: Race>(node: &mut PipeNode<R>) -> bool
    requires serving { IsServing node.old }
    requires hand { is_some (shard_in node.old).hand ≡ true }
    ensures { HasEnded (shard_refusal (shard_in node.old) End) node.old result node.new }
{
    match node.end(SHARD) {
        Ok(()) => true,
        Err(_) => false,
    }
}

/// Claims the queue names of the job in hand, one after the other, and ends it.
fn claim_and_end<R: Race>(node: &mut PipeNode<R>) -> Result<(), AllocError>
    requires serving { IsServing node.old }
    requires hand { is_some (shard_in node.old).hand ≡ true }
    requires fresh { (shard_in node.old).next_index ≡ 0 }
    requires last { waiting_in node.old ≡ [] }
    requires free { AreFree 0 node.old.node.race }
    requires few { queues_in node.old ≤ MAX_QUEUE_NAMES }
    ensures { OnOk result (HasClaimedAll node.old node.new) }
{
    let mut index = 0;
    while !end(node) {
        claim(node, index)?;
        index += 1;
    }
    Ok(())
}

/// Works off the job that waits: it is begun, its queue names are claimed, and it is ended. Tells whether
/// the client was shut.
fn work_off<R: Race>(node: &mut PipeNode<R>) -> Result<bool, AllocError>
    requires serving { IsServing node.old }
    requires none { (shard_in node.old).hand ≡ None }
    requires one { length (waiting_in node.old) ≡ 1 }
    requires free { AreFree 0 node.old.node.race }
    requires few { first_queues (waiting_in node.old) ≤ MAX_QUEUE_NAMES }
    ensures { IfOk result (λ shut. HasWorkedOff node.old shut node.new) }
{
    let shut = begin(node)?;
    claim_and_end(node)?;
    Ok(shut)
}

/// Its one shard, and the jobs that wait for it.
fn only_line<R: Race>(node: &PipeNode<R>) -> &ShardWithJobs<TrieTable>
    requires { IsServing node.now }
    ensures { result.now ≡ line_in node.now }
{
    match node.line(SHARD) {
        Some(line) => line,
        // required: the server has one shard
        None => unreachable!(),
    }
}

/// Has the hub count what was opened and closed, where anything was.
fn collect<R: Race>(node: &mut PipeNode<R>) -> Result<(), AllocError>
    requires { IsServing node.old }
    ensures { OnOk result (Steps node.old Collect node.new) }
{
    if only_line(node).deltas().is_empty() {
        return Ok(());
    }
    counts_are_open();
    match node.collect(SHARD) {
        Ok(_told) => Ok(()),
        // a shard closes only what it opened, and opens no more than can be counted
        Err(Failure::Refused(_)) => unreachable!(),
        Err(Failure::OutOfMemory) => Err(AllocError),
    }
}

/// Moves the bytes of all that waits for the client behind those that are to be written.
fn take<R: Race>(node: &mut PipeNode<R>, conn: ConnId, out: &mut Vec<u8>) -> Result<(), AllocError>
    requires serving { IsServing node.old }
    requires conn { conn ≡ 1 }
    requires known { is_known 1 (shard_in node.old).clients ≡ true }
    ensures steps { OnOk result (Steps node.old (Take 1 all_entries) node.new) }
    ensures text { OnOk result
        (out.new.items ≡ out.old.items ++ waiting_bytes (shard_in node.old)) }
{
    match node.take_bytes(conn, usize::MAX, out) {
        Ok(_) => Ok(()),
        // required: the connection is known
        Err(Failure::Refused(_)) => unreachable!(),
        Err(Failure::OutOfMemory) => Err(AllocError),
    }
}

/// [`take`], where often nothing waits: that is seen at once.
fn take_any<R: Race>(
    node: &mut PipeNode<R>,
    conn: ConnId,
    out: &mut Vec<u8>,
) -> Result<(), AllocError>
    requires serving { IsServing node.old }
    requires conn { conn ≡ 1 }
    requires known { is_known 1 (shard_in node.old).clients ≡ true }
    ensures steps { OnOk result (Steps node.old (Take 1 all_entries) node.new) }
    ensures text { OnOk result
        (out.new.items ≡ out.old.items ++ waiting_bytes (shard_in node.old)) }
{
    if only_line(node).has_nothing_for(conn) {
        return Ok(());
    }
    take(node, conn, out)
}

/// What an ask came to.
#[derive(Clone, Copy)]
pub enum Outcome {
    /// It is answered, and the connection goes on.
    Answered(Result<(), Refusal>),
    /// The connection was shut.
    Closed,
}

/// The server of a pipe with its one connection, over any race, and what is to be written to the client.
pub struct PipeServer<R: Race> {
    alloc: Global,
    node: PipeNode<R>,
    conn: ConnId,
    confirmation: Confirmation,
    output: Vec<u8>,
}

/// One call, also for crates above: `docs/PROVING.md`, "What a proof costs".
impl<R: Race> Drop for PipeServer<R> {
    fn drop(self) {
        let PipeServer {
            alloc: _,
            node: _,
            conn: _,
            confirmation: _,
            output: _,
        } = self;
    }
}

impl<R: Race> PipeServer<R> {
    /// Node `n1` in its first life, with the connection of its client.
    pub fn new(alloc: Global) -> Result<PipeServer<R>, AllocError>
        ensures { IfOk result IsNew }
    {
        Ok(PipeServer {
            alloc,
            node: new_node(alloc)?,
            conn: ConnId::new(1),
            confirmation: Confirmation::new(alloc)?,
            output: Vec::new(alloc),
        })
    }

    /// What is to be written.
    pub fn output(&self) -> &[u8]
        ensures { result.now ≡ self.now.output.items }
    {
        self.output.as_slice()
    }

    /// What was to be written was written.
    pub fn clear_output(&mut self)
        ensures text { self.new.output.items ≡ [] }
        ensures same { self.new ≡ record self.old { output = self.new.output } }
    {
        self.output.clear();
    }

    /// Does what the connection asks, and takes all that was put for it.
    pub fn serve(&mut self, ask: &ClientAction) -> Result<Outcome, AllocError>
        requires { IsReady self.old }
        ensures served { IfOk result (λ outcome.
            HasServed outcome (ask_said ask.now (served_state self.old)) self.old self.new) }
        ensures told { IfOk result (λ outcome. MayBeTold outcome ask.now) }
    {
        match ask {
            ClientAction::Reply(frame) => Ok(outcome_of(self.reply(frame)?)),
            ClientAction::SetHeaders(on) => {
                self.set_headers(*on);
                Ok(Outcome::Answered(Ok(())))
            }
            ClientAction::Shut(text) => {
                self.shut(*text)?;
                Ok(Outcome::Closed)
            }
            ClientAction::Subscribe { key, sid } => self.subscribe(key, sid),
            ClientAction::Unsubscribe { sid, max } => {
                self.unsubscribe(sid, *max)?;
                Ok(Outcome::Answered(Ok(())))
            }
            ClientAction::Publish(publication) => self.publish(publication),
        }
    }

    /// Says a line. One that an empty outbox has room for is said at once: nothing waits that it would stand behind. Tells
    /// whether the client was shut instead.
    fn reply(&mut self, frame: &ReplyFrame) -> Result<bool, AllocError>
        requires { IsReady self.old }
        ensures { IfOk result (λ shut.
            HasServed (outcome_by shut) (after_event (Reply 1 frame.now) (served_state self.old))
            self.old self.new) }
    {
        if let ReplyFrame::Ok = frame {
            self.output.extend_from_slice(self.confirmation.text())?;
            return Ok(false);
        }
        let line = reply_line(self.alloc, frame)?;
        let len = line.len() + CR_LF.len();
        if len > OUTBOX_BYTES {
            return self.put_reply(frame);
        }
        self.output.reserve(len)?;
        append_reserved(&mut self.output, &line);
        append_reserved(&mut self.output, CR_LF);
        Ok(false)
    }

    /// Puts a line, and takes it. Tells whether the client was shut instead.
    fn put_reply(&mut self, frame: &ReplyFrame) -> Result<bool, AllocError>
        requires { IsReady self.old }
        ensures { IfOk result (λ shut.
            HasServed (outcome_by shut) (after_event (Reply 1 frame.now) (served_state self.old))
            self.old self.new) }
    {
        let shut = reply(&mut self.node, self.conn, frame)?;
        take(&mut self.node, self.conn, &mut self.output)?;
        Ok(shut)
    }

    fn set_headers(&mut self, on: bool)
        requires { IsReady self.old }
        ensures { HasServed (Outcome.Answered (Ok tt))
            (after_event (SetHeaders 1 on) (served_state self.old)) self.old self.new }
    {
        set_headers(&mut self.node, self.conn, on);
    }

    fn shut(&mut self, text: ErrText) -> Result<(), AllocError>
        requires { IsReady self.old }
        ensures { OnOk result (HasServed Outcome.Closed
            (after_event (Shut 1 text) (served_state self.old)) self.old self.new) }
    {
        shut(&mut self.node, self.conn, text)?;
        take(&mut self.node, self.conn, &mut self.output)?;
        Ok(())
    }

    fn subscribe(&mut self, key: &Key, sid: &Sid) -> Result<Outcome, AllocError>
        requires { IsReady self.old }
        ensures { IfOk result (λ outcome.
            HasServed outcome (output_of_subscribe key.now sid.now (served_state self.old)) self.old
            self.new) }
    {
        let key = key.try_clone(self.alloc)?;
        let sid = sid.try_clone(self.alloc)?;
        match subscribe(&mut self.node, self.conn, key, sid)? {
            Ok(()) => {
                collect(&mut self.node)?;
                Ok(Outcome::Answered(Ok(())))
            }
            Err(refusal) => Ok(Outcome::Answered(Err(refusal))),
        }
    }

    fn unsubscribe(&mut self, sid: &Sid, max: Option<u64>) -> Result<(), AllocError>
        requires { IsReady self.old }
        ensures { OnOk result (HasServed (Outcome.Answered (Ok tt))
            (after_event (Unsubscribe 1 sid.now max) (served_state self.old)) self.old self.new) }
    {
        unsubscribe(&mut self.node, self.conn, sid, max);
        collect(&mut self.node)?;
        Ok(())
    }

    fn publish(&mut self, publication: &Pub) -> Result<Outcome, AllocError>
        requires { IsReady self.old }
        ensures { IfOk result (λ outcome.
            HasServed outcome (output_of_publish publication.now (served_state self.old)) self.old
            self.new) }
    {
        match publish(&mut self.node, self.conn, publication)? {
            Ok(()) => {
                let shut = work_off(&mut self.node)?;
                collect(&mut self.node)?;
                take_any(&mut self.node, self.conn, &mut self.output)?;
                Ok(outcome_of(shut))
            }
            Err(refusal) => Ok(Outcome::Answered(Err(refusal))),
        }
    }
}

/// What an event came to that was done.
fn outcome_of(shut: bool) -> Outcome
    ensures { result ≡ outcome_by shut }
{
    if shut {
        Outcome::Closed
    } else {
        Outcome::Answered(Ok(()))
    }
}
