//! A server's step, with copies of what it puts, and what closes.

ghost use Rattle.std.specs.Prelude.{◌≡◌, ◌≤◌, ◌+◌, ◌∷◌, [], map, None, IfOk, option_to_list, vec_len, vec_capacity, ⊤};
ghost use Rattle.client_frames.specs.ErrTexts.{err_line};
ghost use Rattle.client_frames.specs.Frames.{reply_line as line_of_reply};
ghost use Rattle.route_values.specs.declared.frames.RouteFrame.TheVariants.{Numbered as NumberedFrame, Connect as ConnectFrame};
ghost use Rattle.shard_core.specs.Answers.{answer_of as answer_of_subscribe};
ghost use Rattle.shard_core.specs.Owed.{slow_consumer};
ghost use Rattle.shard_core.specs.Puts.{put_line};
ghost use Rattle.subj.specs.Answers.{IsAnswered};
ghost use Rattle.node_law.specs.Answers.{Collected, told_of_shard};
ghost use Rattle.node_law.specs.Events.{Own, OfConn, AtShard, OnInfo, OnConnect, Publish, Collect, Drain, Dial, Accept, CutSession, TakeFrames};
ghost use Rattle.node_law.specs.declared.events.ConnEvent.TheVariants.{Subscribe, Unsubscribe, Reply, SetHeaders, Shut, Detach, Take};
ghost use Rattle.node_law.specs.declared.events.ShardWork.TheVariants.{Attach, Begin, Claim, End, DropJob, DrainShard};
ghost use Rattle.node_core.specs.Outcome.{Does, did_of, with_frames, begin_outcome, claim_outcome, reply_outcome};
ghost use Rattle.node_core.specs.Served.{refusal};
ghost use Rattle.node_core.specs.InCode.{result_in_code, event_of, own_event_of};
ghost use Rattle.hub_core.specs.Chosen.{publication_by};
ghost use Rattle.node_law.specs.Steps.{node_frames};

use super::{Node, of_hub};
use crate::answers::Answer;
use crate::did::Did;
use crate::event_ref::lend;
use crate::refused::Refused;
use claim_race::Race;
use client_frames::{ErrText, ReplyFrame, reply_line};
use node_law::{ConnEvent, NodeEvent, NodeFault, OwnEvent, ShardWork};
use node_parts::{Claimed, CollectResult, place_of_shard};
use outbox::Entry;
use route_session::SessionId;
use route_values::{Numbered, RouteConnect, RouteFrame, RouteInfo};
use shard_core::{Begun, Closed, Placed, Subscribed};
use std::alloc::{AllocError, Global};
use std::collections::VecDeque;
use sub_table::SubTable;
use subj::{ConnId, Failure, Key, Pub, Sid, SubId};

/// A line for a connection, as the list of what is put.
fn line_for(alloc: Global, conn: ConnId, line: &[u8]) -> Result<Vec<Placed>, AllocError>
    ensures { IfOk result (λ put. put.items ≡ put_line line.now conn ∷ []) }
{
    let mut put = Vec::with_capacity(alloc, 1)?;
    let entry = Entry::reply(Vec::from_slice(alloc, line)?);
    put.push_reserved(Placed {
        conn,
        entry,
        headers: false,
    });
    Ok(put)
}

/// The last line of a connection with this text, as the list of what is put.
fn last_line(alloc: Global, conn: ConnId, text: ErrText) -> Result<Vec<Placed>, AllocError>
    ensures { IfOk result (λ put. put.items ≡ put_line (err_line text) conn ∷ []) }
{
    line_for(alloc, conn, text.line())
}

/// What a reply may put: the answer, or, where it has no room, the last line of the connection that is shut.
#[derive(Drop)]
struct ReplyPuts {
    answer: Vec<Placed>,
    last: Vec<Placed>,
    shut: Vec<ConnId>,
}

/// The answer for a connection, as the list of what is put.
fn answer_for(alloc: Global, conn: ConnId, frame: &ReplyFrame) -> Result<Vec<Placed>, AllocError>
    ensures { IfOk result (λ put. put.items ≡ put_line (line_of_reply frame.now) conn ∷ []) }
{
    let line = reply_line(alloc, frame)?;
    line_for(alloc, conn, &line)
}

/// What a reply may put, of both.
fn reply_puts(alloc: Global, conn: ConnId, frame: &ReplyFrame) -> Result<ReplyPuts, AllocError>
    ensures answer { IfOk result (λ puts.
        puts.answer.items ≡ put_line (line_of_reply frame.now) conn ∷ []) }
    ensures last { IfOk result (λ puts. puts.last.items ≡ put_line slow_consumer conn ∷ []) }
    ensures shut { IfOk result (λ puts. puts.shut.items ≡ conn ∷ []) }
{
    let answer = answer_for(alloc, conn, frame)?;
    let last = last_line(alloc, conn, ErrText::SlowConsumer)?;
    let shut = list_of_one(alloc, conn)?;
    Ok(ReplyPuts { answer, last, shut })
}

/// What a server did that answered so. Takes no memory.
fn did_of_reply(alloc: Global, puts: ReplyPuts, closed: Closed) -> Did
    ensures { did_of result ≡ reply_outcome puts closed.shut closed.ended.items }
{
    let ReplyPuts { answer, last, shut } = puts;
    if closed.shut {
        return Did::of_shard(alloc, Answer::Nothing, last, shut, closed.ended);
    }
    let none = Vec::new(alloc);
    Did::of_shard(alloc, Answer::Nothing, answer, none, closed.ended)
}

/// What a server did that answered a subscribe so. Takes no memory.
fn did_of_subscribe(alloc: Global, done: Subscribed) -> Did
    ensures { did_of result ≡ with_frames (told_of_shard (answer_of_subscribe done)) [] }
{
    match done {
        Subscribed::New(sub) => Did::answer_alone(alloc, Answer::Opened(sub)),
        Subscribed::Same => Did::answer_alone(alloc, Answer::AlreadyOpen),
    }
}

/// What a server did that began a job so. Takes no memory.
fn did_of_begin(alloc: Global, begun: Begun) -> Did
    ensures { did_of result ≡ begin_outcome begun }
{
    let answer = Answer::Began {
        placed: begun.given,
        shut: begun.closed.len(),
    };
    Did::of_shard(alloc, answer, begun.put, begun.closed, begun.ended)
}

/// A list of one.
fn list_of_one<X: Drop>(alloc: Global, x: X) -> Result<Vec<X>, AllocError>
    ensures { IfOk result (λ list. list.items ≡ x ∷ []) }
{
    let mut list = Vec::with_capacity(alloc, 1)?;
    list.push_reserved(x);
    Ok(list)
}

/// The list with the item, if there is one. Required: it has no items, and a place. Takes no memory.
fn list_with<X: Drop>(list: Vec<X>, item: Option<X>) -> Vec<X>
    requires empty { list.items ≡ [] }
    requires room { vec_len list + 1 ≤ vec_capacity list }
    ensures { result.items ≡ option_to_list item }
{
    let mut list = list;
    if let Some(item) = item {
        list.push_reserved(item);
    }
    list
}

/// Room for what a claim may put, and for what may close with it.
#[derive(Drop)]
struct ClaimPuts {
    entries: Vec<Placed>,
    ended: Vec<SubId>,
}

/// Room for one entry, and for one subscription that closes.
fn claim_puts(alloc: Global) -> Result<ClaimPuts, AllocError>
    ensures no_entries { IfOk result (λ puts. puts.entries.items ≡ []) }
    ensures entries { IfOk result (λ puts. vec_len puts.entries + 1 ≤ vec_capacity puts.entries) }
    ensures none_ended { IfOk result (λ puts. puts.ended.items ≡ []) }
    ensures ended { IfOk result (λ puts. vec_len puts.ended + 1 ≤ vec_capacity puts.ended) }
{
    let entries = Vec::with_capacity(alloc, 1)?;
    let ended = Vec::with_capacity(alloc, 1)?;
    Ok(ClaimPuts { entries, ended })
}

/// What a server did that claimed so. Takes no memory.
fn did_of_claim(alloc: Global, puts: ClaimPuts, claimed: Claimed) -> Did
    requires no_entries { puts.entries.items ≡ [] }
    requires entries { vec_len puts.entries + 1 ≤ vec_capacity puts.entries }
    requires none_ended { puts.ended.items ≡ [] }
    requires ended { vec_len puts.ended + 1 ≤ vec_capacity puts.ended }
    ensures { did_of result ≡ claim_outcome claimed }
{
    match claimed {
        Claimed::Nobody => Did::answer_alone(alloc, Answer::Nobody),
        Claimed::Lost => Did::answer_alone(alloc, Answer::Lost),
        Claimed::Won { sub, placed, ended } => {
            let entries = list_with(puts.entries, placed);
            let over = list_with(puts.ended, ended);
            let shut = Vec::new(alloc);
            Did::of_shard(alloc, Answer::Won(sub), entries, shut, over)
        }
    }
}

/// Numbered frames, as frames of a route.
fn route_frames(alloc: Global, numbered: Vec<Numbered>) -> Result<Vec<RouteFrame>, AllocError>
    ensures { IfOk result (λ frames. frames.items ≡ map NumberedFrame numbered.items) }
{
    let mut frames = Vec::with_capacity(alloc, numbered.len())?;
    let mut waiting = VecDeque::from_vec(numbered);
    while let Some(frame) = waiting.pop_front() {
        frames.push(RouteFrame::Numbered(frame))?;
    }
    Ok(frames)
}

// ---- connections

impl<T: SubTable, R: Race> Node<T, R> {
    /// Closes a subscription, or sets its maximum.
    #[tactic(auto, using(crate::proofs::Outcomes::Told::unsubscribe_does))]
    fn did_unsubscribe(
        &mut self,
        conn: ConnId,
        sid: &Sid,
        max: Option<u64>,
    ) -> Result<Did, Failure<NodeFault>>
        requires { refusal self.old (Own (OfConn conn (Unsubscribe sid.now max))) ≡ None }
        ensures { IsAnswered (refusal self.old (Own (OfConn conn (Unsubscribe sid.now max))))
            (λ did.
            Does self.old (Own (OfConn conn (Unsubscribe sid.now max))) (did_of did) self.new)
            (self.new ≡ self.old) result }
    {
        let alloc = self.alloc;
        let mut ended = Vec::with_capacity(alloc, 1)?;
        match self.unsubscribe(conn, sid, max) {
            Err(fault) => return Err(Failure::Refused(fault)),
            Ok(None) => {}
            Ok(Some(sub)) => ended.push_reserved(sub),
        }
        let (entries, shut) = (Vec::new(alloc), Vec::new(alloc));
        Ok(Did::of_shard(alloc, Answer::Nothing, entries, shut, ended))
    }

    /// Puts an answer, or shuts the connection for want of room.
    fn did_reply(&mut self, conn: ConnId, frame: &ReplyFrame) -> Result<Did, Failure<NodeFault>>
        requires { refusal self.old (Own (OfConn conn (Reply frame.now))) ≡ None }
        ensures { IsAnswered (refusal self.old (Own (OfConn conn (Reply frame.now))))
            (λ did. Does self.old (Own (OfConn conn (Reply frame.now))) (did_of did) self.new)
            (self.new ≡ self.old) result }
    {
        let alloc = self.alloc;
        let puts = reply_puts(alloc, conn, frame)?;
        let closed = self.reply(conn, frame)?;
        Ok(did_of_reply(alloc, puts, closed))
    }

    /// Sets whether a connection takes headers.
    #[tactic(auto, using(crate::proofs::Outcomes::Told::set_headers_does))]
    fn did_set_headers(&mut self, conn: ConnId, on: bool) -> Result<Did, Failure<NodeFault>>
        ensures { IsAnswered (refusal self.old (Own (OfConn conn (SetHeaders on))))
            (λ did. Does self.old (Own (OfConn conn (SetHeaders on))) (did_of did) self.new)
            (self.new ≡ self.old) result }
    {
        if let Err(fault) = self.set_headers(conn, on) {
            return Err(Failure::Refused(fault));
        }
        Ok(Did::answer_alone(self.alloc, Answer::Nothing))
    }

    /// Shuts a connection.
    #[tactic(auto, using(crate::proofs::Outcomes::Told::shut_does))]
    fn did_shut(&mut self, conn: ConnId, text: ErrText) -> Result<Did, Failure<NodeFault>>
        requires { refusal self.old (Own (OfConn conn (Shut text))) ≡ None }
        ensures { IsAnswered (refusal self.old (Own (OfConn conn (Shut text))))
            (λ did. Does self.old (Own (OfConn conn (Shut text))) (did_of did) self.new)
            (self.new ≡ self.old) result }
    {
        let alloc = self.alloc;
        let last = last_line(alloc, conn, text)?;
        let shut = list_of_one(alloc, conn)?;
        let ended = self.shut(conn, text)?;
        Ok(Did::of_shard(alloc, Answer::Nothing, last, shut, ended))
    }

    /// A connection goes.
    #[tactic(auto, using(crate::proofs::Outcomes::Told::detach_does))]
    fn did_detach(&mut self, conn: ConnId) -> Result<Did, Failure<NodeFault>>
        ensures { IsAnswered (refusal self.old (Own (OfConn conn Detach)))
            (λ did. Does self.old (Own (OfConn conn Detach)) (did_of did) self.new)
            (self.new ≡ self.old) result }
    {
        let alloc = self.alloc;
        let ended = self.detach(conn)?;
        let (entries, shut) = (Vec::new(alloc), Vec::new(alloc));
        Ok(Did::of_shard(alloc, Answer::Nothing, entries, shut, ended))
    }

    /// Opens a subscription, with copies of the key and of the id.
    #[tactic(auto, using(crate::proofs::Outcomes::Told::subscribe_does))]
    fn did_subscribe(
        &mut self,
        conn: ConnId,
        key: &Key,
        sid: &Sid,
    ) -> Result<Did, Failure<NodeFault>>
        requires { refusal self.old (Own (OfConn conn (Subscribe key.now sid.now))) ≡ None }
        ensures { IsAnswered (refusal self.old (Own (OfConn conn (Subscribe key.now sid.now))))
            (λ did.
            Does self.old (Own (OfConn conn (Subscribe key.now sid.now))) (did_of did) self.new)
            (self.new ≡ self.old) result }
    {
        let key = key.try_clone(self.alloc)?;
        let sid = sid.try_clone(self.alloc)?;
        let done = self.subscribe(conn, key, sid)?;
        Ok(did_of_subscribe(self.alloc, done))
    }

    /// Takes the first entries that wait for a connection.
    #[tactic(auto, using(crate::proofs::Outcomes::Told::take_does))]
    fn did_take(&mut self, conn: ConnId, count: usize) -> Result<Did, Failure<NodeFault>>
        ensures { IsAnswered (refusal self.old (Own (OfConn conn (Take count))))
            (λ did. Does self.old (Own (OfConn conn (Take count))) (did_of did) self.new)
            (self.new ≡ self.old) result }
    {
        let entries = self.take(conn, count)?;
        Ok(Did::answer_alone(self.alloc, Answer::TakenEntries(entries)))
    }

    /// The step of an event of a connection.
    fn did_of_conn(&mut self, conn: ConnId, event: &ConnEvent) -> Result<Did, Failure<NodeFault>>
        ensures { IsAnswered (refusal self.old (Own (OfConn conn event.now)))
            (λ did. Does self.old (Own (OfConn conn event.now)) (did_of did) self.new)
            (self.new ≡ self.old) result }
    {
        if let Some(fault) = self.conn_fault(conn, event) {
            return Err(Failure::Refused(fault));
        }
        match event {
            ConnEvent::Subscribe { key, sid } => self.did_subscribe(conn, key, sid),
            ConnEvent::Unsubscribe { sid, max } => self.did_unsubscribe(conn, sid, *max),
            ConnEvent::Reply { frame } => self.did_reply(conn, frame),
            ConnEvent::SetHeaders { on } => self.did_set_headers(conn, *on),
            ConnEvent::Shut { text } => self.did_shut(conn, *text),
            ConnEvent::Detach => self.did_detach(conn),
            ConnEvent::Take { count } => self.did_take(conn, *count),
        }
    }
}

// ---- shards

impl<T: SubTable, R: Race> Node<T, R> {
    /// Begins the first job that waits.
    #[tactic(auto, using(crate::proofs::Outcomes::Told::begin_does))]
    fn did_begin(&mut self, shard: u64) -> Result<Did, Failure<NodeFault>>
        ensures { IsAnswered (refusal self.old (Own (AtShard shard Begin)))
            (λ did. Does self.old (Own (AtShard shard Begin)) (did_of did) self.new)
            (self.new ≡ self.old) result }
    {
        let begun = self.begin(shard, true)?;
        Ok(did_of_begin(self.alloc, begun))
    }

    /// Claims a queue name of the job in hand.
    fn did_claim(&mut self, shard: u64, index: u64) -> Result<Did, Failure<NodeFault>>
        requires { refusal self.old (Own (AtShard shard (Claim index))) ≡ None }
        ensures { IsAnswered (refusal self.old (Own (AtShard shard (Claim index))))
            (λ did. Does self.old (Own (AtShard shard (Claim index))) (did_of did) self.new)
            (self.new ≡ self.old) result }
    {
        let alloc = self.alloc;
        let puts = claim_puts(alloc)?;
        let claimed = self.claim(shard, index, true)?;
        Ok(did_of_claim(alloc, puts, claimed))
    }

    /// A new connection of the shard.
    #[tactic(auto, using(crate::proofs::Outcomes::Told::attach_does))]
    fn did_attach(&mut self, shard: u64) -> Result<Did, Failure<NodeFault>>
        ensures { IsAnswered (refusal self.old (Own (AtShard shard Attach)))
            (λ did. Does self.old (Own (AtShard shard Attach)) (did_of did) self.new)
            (self.new ≡ self.old) result }
    {
        let conn = self.attach(shard)?;
        Ok(Did::answer_alone(self.alloc, Answer::Attached(conn)))
    }

    /// The shard finishes the turn in hand.
    #[tactic(auto, using(crate::proofs::Outcomes::Told::end_does))]
    fn did_end(&mut self, shard: u64) -> Result<Did, Failure<NodeFault>>
        ensures { IsAnswered (refusal self.old (Own (AtShard shard End)))
            (λ did. Does self.old (Own (AtShard shard End)) (did_of did) self.new)
            (self.new ≡ self.old) result }
    {
        if let Err(fault) = self.end(shard) {
            return Err(Failure::Refused(fault));
        }
        Ok(Did::answer_alone(self.alloc, Answer::Nothing))
    }

    /// The shard drops a job.
    fn did_drop_job(&mut self, shard: u64) -> Result<Did, Failure<NodeFault>>
        ensures { IsAnswered (refusal self.old (Own (AtShard shard DropJob)))
            (λ did. Does self.old (Own (AtShard shard DropJob)) (did_of did) self.new)
            (self.new ≡ self.old) result }
    {
        if let Err(fault) = self.drop_job(shard) {
            return Err(Failure::Refused(fault));
        }
        Ok(Did::answer_alone(self.alloc, Answer::Nothing))
    }

    /// The shard takes no subscription any more.
    #[tactic(auto, using(crate::proofs::Outcomes::Told::drain_shard_does))]
    fn did_drain_shard(&mut self, shard: u64) -> Result<Did, Failure<NodeFault>>
        ensures { IsAnswered (refusal self.old (Own (AtShard shard DrainShard)))
            (λ did. Does self.old (Own (AtShard shard DrainShard)) (did_of did) self.new)
            (self.new ≡ self.old) result }
    {
        if let Err(fault) = self.drain_shard(shard) {
            return Err(Failure::Refused(fault));
        }
        Ok(Did::answer_alone(self.alloc, Answer::Nothing))
    }

    /// The step of what a shard is asked to do.
    fn did_of_shard(&mut self, shard: u64, work: ShardWork) -> Result<Did, Failure<NodeFault>>
        ensures { IsAnswered (refusal self.old (Own (AtShard shard work)))
            (λ did. Does self.old (Own (AtShard shard work)) (did_of did) self.new)
            (self.new ≡ self.old) result }
    {
        if let Some(fault) = self.work_fault(shard, work) {
            return Err(Failure::Refused(fault));
        }
        match work {
            ShardWork::Attach => self.did_attach(shard),
            ShardWork::Begin => self.did_begin(shard),
            ShardWork::Claim { index } => self.did_claim(shard, index),
            ShardWork::End => self.did_end(shard),
            ShardWork::DropJob => self.did_drop_job(shard),
            ShardWork::DrainShard => self.did_drain_shard(shard),
        }
    }
}

// ---- peers and sessions

/// What a server did that told its peers so, by these frames. Takes no memory.
fn did_of_told(alloc: Global, told: CollectResult, frames: Vec<RouteFrame>) -> Did
    ensures { did_of result
        ≡ with_frames (Collected told.changes told.frames told.cut.items) frames.items }
{
    let CollectResult {
        changes,
        frames: count,
        cut,
    } = told;
    let answer = Answer::Collected {
        changes,
        frames: count,
        cut,
    };
    Did::of_frames(alloc, answer, frames)
}

/// A `CONNECT` to send and the snapshot that waits behind it, in a list that has no items and two places.
/// Takes no memory.
fn sent_on_info(
    list: Vec<RouteFrame>,
    connect: RouteConnect,
    snapshot: Option<Numbered>,
) -> Vec<RouteFrame>
    requires empty { list.items ≡ [] }
    requires room { vec_len list + 2 ≤ vec_capacity list }
    ensures { result.items ≡ ConnectFrame connect ∷ map NumberedFrame (option_to_list snapshot) }
{
    let mut list = list;
    list.push_reserved(RouteFrame::Connect(connect));
    if let Some(snapshot) = snapshot {
        list.push_reserved(RouteFrame::Numbered(snapshot));
    }
    list
}

/// The snapshot that waits, in a list that has no items and a place. Takes no memory.
fn sent_on_connect(list: Vec<RouteFrame>, snapshot: Option<Numbered>) -> Vec<RouteFrame>
    requires empty { list.items ≡ [] }
    requires room { vec_len list + 1 ≤ vec_capacity list }
    ensures { result.items ≡ map NumberedFrame (option_to_list snapshot) }
{
    let mut list = list;
    if let Some(snapshot) = snapshot {
        list.push_reserved(RouteFrame::Numbered(snapshot));
    }
    list
}

impl<T: SubTable, R: Race> Node<T, R> {
    /// The frames that a publish puts. It changes nothing.
    fn publish_frames(
        &self,
        conn: ConnId,
        publication: &Pub,
        word: u64,
    ) -> Result<Vec<RouteFrame>, Failure<NodeFault>>
        ensures { let e = Own (Publish (publication_by conn publication.now word)) in
            IsAnswered (refusal self.now e)
            (λ frames. frames.items ≡ node_frames self.now.server self.now.node e) ⊤ result }
    {
        let plan = self.plan_publish(conn, publication, word)?;
        let Ok(frames) = route_frames(self.alloc, plan.frames) else {
            return Err(Failure::OutOfMemory);
        };
        Ok(frames)
    }

    /// The frames that a collect puts. It changes nothing.
    fn collect_frames(&self, shard: u64) -> Result<Vec<RouteFrame>, Failure<NodeFault>>
        ensures { let e = Own (Collect shard) in
            IsAnswered (refusal self.now e)
            (λ frames. frames.items ≡ node_frames self.now.server self.now.node e) ⊤ result }
    {
        let Some(place) = place_of_shard(self.lines.len(), shard) else {
            return Err(Failure::Refused(NodeFault::NoShard));
        };
        let line = &self.lines[place];
        let frames = match self.side.hub().frames_of_collect(line.deltas()) {
            Ok(frames) => frames,
            Err(fault) => return of_hub(Err(fault)),
        };
        let Ok(frames) = route_frames(self.alloc, frames) else {
            return Err(Failure::OutOfMemory);
        };
        Ok(frames)
    }

    /// The frames that a drain puts. It changes nothing.
    fn drain_frames(&self) -> Result<Vec<RouteFrame>, Failure<NodeFault>>
        ensures { let e = Own Drain in
            IsAnswered (refusal self.now e)
            (λ frames. frames.items ≡ node_frames self.now.server self.now.node e) ⊤ result }
    {
        let frames = match self.side.hub().frames_of_drain() {
            Ok(frames) => frames,
            Err(fault) => return of_hub(Err(fault)),
        };
        let Ok(frames) = route_frames(self.alloc, frames) else {
            return Err(Failure::OutOfMemory);
        };
        Ok(frames)
    }

    /// Accepts a session, with the `INFO` to send.
    #[tactic(auto, using(crate::proofs::Outcomes::Sending::accept_does))]
    fn did_accept(&mut self) -> Result<Did, Failure<NodeFault>>
        ensures { IsAnswered (refusal self.old (Own Accept))
            (λ did. Does self.old (Own Accept) (did_of did) self.new) (self.new ≡ self.old) result }
    {
        if let Some(fault) = self.side.sessions().accept_fault() {
            return Err(Failure::Refused(NodeFault::Session(fault)));
        }
        let mut frames = Vec::with_capacity(self.alloc, 1)?;
        let (session, info) = self.accept()?;
        frames.push_reserved(RouteFrame::Info(info));
        Ok(Did::of_frames(self.alloc, Answer::OnSession(session), frames))
    }

    /// Publishes for a connection, with copies of the frames that are put for peers.
    #[tactic(auto, using(crate::proofs::Outcomes::Sending::publish_does))]
    fn did_publish(
        &mut self,
        conn: ConnId,
        publication: &Pub,
        word: u64,
    ) -> Result<Did, Failure<NodeFault>>
        ensures { let e = Own (Publish (publication_by conn publication.now word)) in
            IsAnswered (refusal self.old e) (λ did. Does self.old e (did_of did) self.new)
            (self.new ≡ self.old) result }
    {
        let frames = self.publish_frames(conn, publication, word)?;
        let issued = self.publish(conn, publication, word)?;
        let answer = Answer::Issued {
            turn: issued.turn,
            frames: issued.frames,
        };
        Ok(Did::of_frames(self.alloc, answer, frames))
    }

    /// Counts what the subscriptions of a shard have changed, with copies of the frames that tell the peers.
    #[tactic(auto, using(crate::proofs::Outcomes::Sending::collect_does))]
    fn did_collect(&mut self, shard: u64) -> Result<Did, Failure<NodeFault>>
        ensures { IsAnswered (refusal self.old (Own (Collect shard)))
            (λ did. Does self.old (Own (Collect shard)) (did_of did) self.new)
            (self.new ≡ self.old) result }
    {
        let frames = self.collect_frames(shard)?;
        let told = self.collect(shard)?;
        Ok(did_of_told(self.alloc, told, frames))
    }

    /// Drains, with copies of the frames that tell the peers.
    #[tactic(auto, using(crate::proofs::Outcomes::Sending::drain_does))]
    fn did_drain(&mut self) -> Result<Did, Failure<NodeFault>>
        ensures { IsAnswered (refusal self.old (Own Drain))
            (λ did. Does self.old (Own Drain) (did_of did) self.new) (self.new ≡ self.old) result }
    {
        let frames = self.drain_frames()?;
        let told = self.drain()?;
        Ok(did_of_told(self.alloc, told, frames))
    }

    /// Dials a server.
    #[tactic(auto, using(crate::proofs::Outcomes::Sending::dial_does))]
    fn did_dial(&mut self, peer: usize) -> Result<Did, Failure<NodeFault>>
        ensures { IsAnswered (refusal self.old (Own (Dial peer)))
            (λ did. Does self.old (Own (Dial peer)) (did_of did) self.new)
            (self.new ≡ self.old) result }
    {
        let session = self.dial(peer)?;
        Ok(Did::answer_alone(self.alloc, Answer::OnSession(session)))
    }

    /// Ends a session.
    #[tactic(auto, using(crate::proofs::Outcomes::Sending::cut_does))]
    fn did_cut(&mut self, session: SessionId) -> Result<Did, Failure<NodeFault>>
        ensures { IsAnswered (refusal self.old (Own (CutSession session)))
            (λ did. Does self.old (Own (CutSession session)) (did_of did) self.new)
            (self.new ≡ self.old) result }
    {
        if let Err(fault) = self.cut(session) {
            return Err(Failure::Refused(fault));
        }
        Ok(Did::answer_alone(self.alloc, Answer::Nothing))
    }

    /// Takes the first frames that wait for a peer.
    #[tactic(auto, using(crate::proofs::Outcomes::Sending::frames_does))]
    fn did_take_frames(&mut self, peer: usize, count: usize) -> Result<Did, Failure<NodeFault>>
        ensures { IsAnswered (refusal self.old (Own (TakeFrames peer count)))
            (λ did. Does self.old (Own (TakeFrames peer count)) (did_of did) self.new)
            (self.new ≡ self.old) result }
    {
        let frames = self.take_frames(peer, count)?;
        Ok(Did::answer_alone(self.alloc, Answer::TakenFrames(frames)))
    }

    /// The step of an event of its own.
    pub(super) fn own_did(&mut self, event: &OwnEvent) -> Result<Did, Failure<NodeFault>>
        ensures { IsAnswered (refusal self.old (Own (own_event_of event.now)))
            (λ did. Does self.old (Own (own_event_of event.now)) (did_of did) self.new)
            (self.new ≡ self.old) result }
    {
        match event {
            OwnEvent::OfConn { conn, event } => self.did_of_conn(*conn, event),
            OwnEvent::AtShard { shard, work } => self.did_of_shard(*shard, *work),
            OwnEvent::Publish {
                conn,
                publication,
                word,
            } => self.did_publish(*conn, publication, *word),
            OwnEvent::Collect { shard } => self.did_collect(*shard),
            OwnEvent::Drain => self.did_drain(),
            OwnEvent::Dial { peer } => self.did_dial(*peer),
            OwnEvent::Accept => self.did_accept(),
            OwnEvent::CutSession { session } => self.did_cut(*session),
            OwnEvent::TakeFrames { peer, count } => self.did_take_frames(*peer, *count),
        }
    }

    /// Completes a dialed session, with the `CONNECT` to send and the snapshot that waits.
    #[tactic(auto, using(crate::proofs::Outcomes::Sending::info_does))]
    pub(super) fn did_info(
        &mut self,
        session: SessionId,
        info: &RouteInfo,
    ) -> Result<Did, Failure<NodeFault>>
        ensures { IsAnswered (refusal self.old (OnInfo session info.now))
            (λ did. Does self.old (OnInfo session info.now) (did_of did) self.new)
            (self.new ≡ self.old) result }
    {
        if let Some(fault) = self.info_fault(session, info) {
            return Err(Failure::Refused(fault));
        }
        let snapshot = self.side.snapshot_for(info.server_name(), info.inc())?;
        let frames = Vec::with_capacity(self.alloc, 2)?;
        let (kept, connect) = self.info(session, info)?;
        let frames = sent_on_info(frames, connect, snapshot);
        let answer = Answer::Kept {
            instead_of: kept.instead_of,
        };
        Ok(Did::of_frames(self.alloc, answer, frames))
    }

    /// Completes an accepted session, with the snapshot that waits.
    #[tactic(auto, using(crate::proofs::Outcomes::Sending::connect_does))]
    pub(super) fn did_connect(
        &mut self,
        session: SessionId,
        connect: &RouteConnect,
    ) -> Result<Did, Failure<NodeFault>>
        ensures { IsAnswered (refusal self.old (OnConnect session connect.now))
            (λ did. Does self.old (OnConnect session connect.now) (did_of did) self.new)
            (self.new ≡ self.old) result }
    {
        if let Some(fault) = self.connect_fault(session, connect) {
            return Err(Failure::Refused(fault));
        }
        let snapshot = self
            .side
            .snapshot_for(connect.server_name(), connect.inc())?;
        let frames = Vec::with_capacity(self.alloc, 1)?;
        let kept = self.connect(session, connect)?;
        let frames = sent_on_connect(frames, snapshot);
        let answer = Answer::Kept {
            instead_of: kept.instead_of,
        };
        Ok(Did::of_frames(self.alloc, answer, frames))
    }

    /// Makes the step of an event. Gives its answer, with copies of the entries and frames that it puts, and
    /// what closes; all copies are made before anything changes. It is refused as the call for the event is,
    /// and by the first cause; want of memory comes only where there is no cause. Both leave all as it was.
    pub fn step(&mut self, event: &NodeEvent) -> Result<Did, Refused>
        ensures { IsAnswered (refusal self.old (event_of event.now))
            (λ did. Does self.old (event_of event.now) (did_of did) self.new) (self.new ≡ self.old)
            (result_in_code result) }
    {
        self.step_of(&lend(event))
    }
}
