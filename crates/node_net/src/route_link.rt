//! A route: a connection to another server, cut into frames.

ghost use Rattle.std.specs.Prelude.{◌≡◌, ℕ, List, [], true, false, if◌then◌else◌, length, None, Some, Err, is_some, IfSome, IfNone, IfOk, IfErr, OnOk, OnErr, IsSome};
ghost use Rattle.subj.specs.declared.failures.Failure.TheVariants as failure;
ghost use Rattle.std.specs.Bool.{OnTrue, OnFalse};
ghost use Rattle.subj.specs.declared.limits.TheConstants.{WINDOW};
ghost use Rattle.std.specs.Option.{option_zip};
ghost use Rattle.node_net.specs.Routes.{place_of, dialed_place, kept_place as place_kept, has_proved_other as proved_other, is_of_life as of_life, IsOfPeer};
ghost use Rattle.node_net.specs.Routes.{is_done, end_of_refusal, end_behind, end_of as ran_behind, EndsReading, IsKept, told_by, Looks, ReadsOn, ReadsBehind};
ghost use Rattle.node_net.specs.Routes.{Applies, AppliesAhead, HandsNext, HasReceived, TakesInfo, TakesConnect, TakesConnectOf, Takes, Advances, CutsSession};
ghost use Rattle.subj.specs.declared.limits.TheConstants.{ROUTE_LINE, MAX_SNAPSHOT};
ghost use Rattle.wire_cut.specs.Cut.{new_cutter};
ghost use Rattle.wire_cut.specs.Reading.{StandsAt};
ghost use Rattle.route_frames.specs.InStream.{a_line, payload_of, route_grammar};
ghost use Rattle.node_net.specs.Reading.{reading_from, HasToRead, HasStillToRead, HasMore, ReadsFrames, Cuts, IsBehindLine, ReadsLine, ReadsPayload, Announces, end_of as end_of_reading, IsBegun, JoinsFrame, ReadsAhead};
ghost use Rattle.node_net.specs.declared.route_link.Stepped.TheVariants as step;
ghost use Rattle.node_net.specs.declared.runs.RunOutcome.{RunOutcome};

use crate::handshake::{Handshake, Proving};
use crate::holds::{answer_to, connect, cut};
use crate::placing::put;
use crate::runs::{Ran, RunOutcome, cost_of};
use bytes::Bytes;
use hub_core::HubFault;
use peer_proof::{Acceptor, HANDSHAKE_LINE, Secret};
use route_frames::{Body, Numbered, RouteConnect, RouteFrame, RouteInfo, RouteLine, Unjoined};
use route_session::SessionId;
use server_calls::{HubCalls, ServerCalls};
use server_events::RefusalCause;
use std::alloc::Global;
use std::net::SocketAddr;
use std::sync::Wait;
use subj::{Failure, Incarnation, MAX_SNAPSHOT, ROUTE_LINE, ServerIdentity as Life, WINDOW};
use wire_cut::{Cutter, FillFault, Piece, Source};

/// How far the session of a route is.
#[derive(Clone, Copy)]
pub(crate) enum Stage {
    /// This server dialed the one at this place, and waits for its `INFO`.
    Dialed(usize),
    /// Another server dialed, from this address where that is known, and is to send its `CONNECT`: the one at this place, where it has proved
    /// that.
    Accepted {
        from: Option<SocketAddr>,
        proved: Option<usize>,
    },
    /// The session is kept with the server at this place, in that life.
    Kept {
        peer: usize,
        inc: Incarnation,
    },
}

/// What a route was told to send, and with whom its session is kept now.
#[derive(Clone, Copy)]
pub(crate) struct Greeted {
    pub peer: usize,
    pub answer: Option<RouteConnect>,
}

/// What one step of a route came to.
#[derive(Clone, Copy)]
pub(crate) enum Stepped {
    Ran(RunOutcome),
    Greeted(Greeted),
}

impl Stepped {
    /// A run that has done nothing, and came to this.
    fn ended(end: Ran) -> Stepped
        ensures { (run : RunOutcome) × (result ≡ step.Ran run) × (run.end ≡ end) }
    {
        Stepped::Ran(RunOutcome::of(end))
    }
}

/// What a frame tells of the other end.
#[derive(Clone, Copy)]
enum Told {
    Info(RouteInfo),
    Connect(RouteConnect),
    Nothing,
}

/// What has become of a frame that was to be received.
#[derive(Clone, Copy)]
struct Heard {
    /// Whether it is done with: it was taken, or had come before.
    is_done: bool,
    /// As how many bytes it counts.
    bytes: usize,
    /// How the run ends behind it; None: it goes on.
    end: Option<Ran>,
}

/// A route and its session.
#[derive(Drop)]
pub(crate) struct RouteLink {
    alloc: Global,
    cutter: Cutter,
    /// A line whose payload is to come.
    line: Option<RouteLine>,
    /// A line and its payload that were not joined for want of memory.
    unjoined: Option<(RouteLine, Bytes)>,
    /// A frame that is to be taken next.
    ahead: Option<RouteFrame>,
    /// The handshake that is not over, where the route began with one.
    proof: Option<Box<Handshake>>,
    /// None while another server is to prove itself that has dialed.
    pub session: Option<SessionId>,
    pub stage: Stage,
}

/// How many bytes stand behind a line: CR LF.
const LINE_END: usize = 2;

/// The most bytes that are read of a handshake's line, with its end.
const HANDSHAKE_BYTES: usize = HANDSHAKE_LINE + LINE_END;

/// Cuts what a route sends, from the beginning of its handshake or behind it.
fn cutter_of(alloc: Global, is_proving: bool) -> Cutter
    ensures { OnFalse is_proving (result ≡ new_cutter ROUTE_LINE MAX_SNAPSHOT) }
{
    if is_proving {
        Cutter::new(alloc, HANDSHAKE_LINE, 0)
    } else {
        Cutter::new(alloc, ROUTE_LINE, MAX_SNAPSHOT as u64)
    }
}

/// What a refusal of a route's frame means, of its hub or its sessions, or want of memory.
fn end_of<F: Drop>(fault: Failure<F>) -> Ran
    ensures { result ≡ ran_behind fault }
{
    match fault {
        Failure::OutOfMemory => Ran::Short,
        Failure::Refused(_) => Ran::Refused,
    }
}

/// As how many bytes a message counts; anything else counts as none.
fn weight_of(frame: &Numbered) -> usize {
    match frame.body() {
        Body::Msg { message, .. } => cost_of(message.whole().len()),
        _ => 0,
    }
}

impl Heard {
    /// It was taken, and counts as so many bytes. One that is of another life of the server than the session is the last.
    fn taken(bytes: usize, is_of_life: bool) -> Heard
        ensures done { result.is_done ≡ true }
        ensures end { result.end ≡ (if is_of_life then None else Some Ran.Refused) }
    {
        Heard {
            is_done: true,
            bytes,
            end: if is_of_life { None } else { Some(Ran::Refused) },
        }
    }

    /// Nothing was received, for this.
    fn nothing(end: Ran) -> Heard
        ensures done { result.is_done ≡ false }
        ensures end { result.end ≡ Some end }
    {
        Heard {
            is_done: false,
            bytes: 0,
            end: Some(end),
        }
    }
}

/// What has become of a frame that the hub refuses: one that had come before is done with.
fn heard_of_refusal(fault: HubFault) -> Heard
    ensures done { result.is_done ≡ is_done (Err (failure.Refused fault)) }
    ensures end { result.end ≡ end_of_refusal fault }
{
    match fault {
        HubFault::Late => Heard::taken(0, true),
        HubFault::Busy(_) => Heard::nothing(Ran::Busy),
        HubFault::Draining
        | HubFault::TooManyQueues
        | HubFault::Spent
        | HubFault::NotMe
        | HubFault::OtherMe
        | HubFault::NotInCluster
        | HubFault::StaleOrigin
        | HubFault::Gap
        | HubFault::BadInterest => Heard::nothing(Ran::Refused),
    }
}

/// What has become of a frame that counts as so many bytes, and may be of the life of the server that the session is kept with, by what the
/// hub made of it.
fn heard_of(done: Result<(), Failure<HubFault>>, bytes: usize, is_of_life: bool) -> Heard
    ensures done { result.is_done ≡ is_done done }
    ensures end { result.end ≡ end_behind is_of_life done }
{
    match done {
        Ok(()) => Heard::taken(bytes, is_of_life),
        Err(Failure::Refused(fault)) => heard_of_refusal(fault),
        Err(Failure::OutOfMemory) => Heard::nothing(Ran::Short),
    }
}

impl RouteLink {
    /// A route of which nothing was read, which begins with this handshake where there is one.
    pub fn new(
        alloc: Global,
        session: Option<SessionId>,
        stage: Stage,
        proof: Option<Box<Handshake>>,
    ) -> RouteLink
        ensures { IfNone proof (HasToRead result (reading_from a_line [])) }
    {
        RouteLink {
            alloc,
            cutter: cutter_of(alloc, proof.is_some()),
            line: None,
            unjoined: None,
            ahead: None,
            proof,
            session,
            stage,
        }
    }

    /// Whether its handshake is not over.
    pub fn is_proving(&self) -> bool
        ensures { result ≡ is_some self.now.proof }
    {
        self.proof.is_some()
    }

    /// Whether another server has dialed, or who would be one, and is to prove still which one it is.
    pub fn is_of_stranger(&self) -> bool {
        match &self.proof {
            None => false,
            Some(handshake) => matches!(**handshake, Handshake::Acceptor(_)),
        }
    }

    /// The most bytes that are read at once where so many might be: of a handshake no more than its line can have.
    fn most_of(&self, most: usize) -> usize {
        if self.is_proving() {
            most.min(HANDSHAKE_BYTES.saturating_sub(self.cutter.held()))
        } else {
            most
        }
    }

    /// What the handshake's next line comes to. Nothing may stand behind it, since the other end has to hear the answer first.
    fn heard(&self, secret: &Secret, life: &Life) -> Proving {
        let Some(handshake) = &self.proof else {
            return Proving::Waits;
        };
        match self.cutter.peek() {
            Ok(None) => Proving::Waits,
            Ok(Some(Piece::Line(line)))
                if self.cutter.held() == line.len().saturating_add(LINE_END) => {
                handshake.hear(secret, life, line)
            }
            _ => Proving::Refuses(RefusalCause::BadGreeting),
        }
    }

    /// Goes on with its handshake by the next line, where it is whole: what that comes to.
    pub fn hear(&mut self, secret: &Secret, life: &Life) -> Proving {
        let proving = self.heard(secret, life);
        match &proving {
            Proving::Answers { next, .. } => self.await_proof(*next),
            Proving::Reached(_) | Proving::Admits(_) => self.end_proof(),
            Proving::Waits | Proving::Refuses(_) => {}
        }
        proving
    }

    /// The dialer is to prove itself next.
    fn await_proof(&mut self, next: Acceptor) {
        if let Some(handshake) = &mut self.proof {
            **handshake = Handshake::Acceptor(next);
        }
        put(&mut self.cutter, cutter_of(self.alloc, true));
    }

    /// The handshake is over.
    fn end_proof(&mut self)
        ensures { (self.old.line ≡ None)
            → (self.old.unjoined ≡ None)
            → HasToRead self.new (reading_from a_line []) }
    {
        put(&mut self.proof, None);
        put(&mut self.cutter, cutter_of(self.alloc, false));
    }

    /// The server at this place, which dialed, has proved itself: this is its session.
    pub fn admit(&mut self, place: usize, session: SessionId)
        ensures { HasStillToRead self.old self.new }
    {
        self.session = Some(session);
        self.stage = Stage::Accepted {
            from: self.came_from(),
            proved: Some(place),
        };
    }

    /// Whence the server came that has dialed, and whose session is not kept, where that is known.
    pub fn came_from(&self) -> Option<SocketAddr> {
        match self.stage {
            Stage::Accepted { from, .. } => from,
            Stage::Dialed(_) | Stage::Kept { .. } => None,
        }
    }

    /// Its session ends, where it has one.
    pub fn end<C: ServerCalls, R: Wait>(&self, rt: &R, node: C)
        ensures { CutsSession C.Hub.routed self.now.session }
    {
        match self.session {
            None => {}
            Some(session) => cut(rt, node, session),
        }
    }

    /// The place of the server that its session is kept with.
    pub fn kept_with(&self) -> Option<usize>
        ensures { result ≡ place_kept self.now.stage }
    {
        match self.stage {
            Stage::Kept { peer, .. } => Some(peer),
            Stage::Dialed(_) => None,
            Stage::Accepted { .. } => None,
        }
    }

    /// Reads once, at most so many bytes.
    pub fn read_from<S: Source>(&mut self, source: &mut S, most: usize) -> Result<usize, FillFault>
        ensures more { IfOk result (λ count.
            HasMore self.old self.new (S.remaining source.old) (S.remaining source.new) count) }
        ensures err { OnErr result (self.new ≡ self.old) }
    {
        let most = self.most_of(most);
        self.cutter.read_from(source, most)
    }

    /// The memory of what was read is given back, where all of it is used up.
    pub fn rest(&mut self)
        ensures { (self.old.proof ≡ None) → HasStillToRead self.old self.new }
    {
        if !self.is_used_up() {
            return;
        }
        let cutter = cutter_of(self.alloc, self.is_proving());
        put(&mut self.cutter, cutter);
    }

    /// Whether nothing of what was read waits.
    fn is_used_up(&self) -> bool
        ensures { OnTrue result ((self.now.line ≡ None) × (self.now.unjoined ≡ None)
            × (length self.now.cutter.unread ≡ 0)) }
    {
        if self.line.is_some() {
            return false;
        }
        if self.unjoined.is_some() {
            return false;
        }
        if self.ahead.is_some() {
            return false;
        }
        self.cutter.held() == 0
    }

    /// The next line, which is used up once it was read; where there is none, what a run comes to for that.
    fn next_line(&mut self) -> Result<RouteLine, Ran>
        ensures same { Cuts self.old self.new }
        ensures err { IfErr result EndsReading }
        ensures line { StandsAt route_grammar a_line self.old.cutter
            → ReadsLine self.old.cutter result self.new.cutter }
    {
        let (size, line) = match self.cutter.peek() {
            Ok(None) => return Err(Ran::Waits),
            Ok(Some(Piece::Line(line))) => match RouteLine::read(self.alloc, line) {
                Ok(read) => (line.len(), read),
                Err(Failure::OutOfMemory) => return Err(Ran::Short),
                Err(Failure::Refused(_)) => return Err(Ran::Refused),
            },
            Ok(Some(Piece::Payload(_))) => return Err(Ran::Refused),
            Err(_) => return Err(Ran::Refused),
        };
        self.cutter.consume(size);
        Ok(line)
    }

    /// The payload of the line that was read.
    fn next_payload(&mut self) -> Result<Bytes, Ran>
        ensures same { Cuts self.old self.new }
        ensures err { IfErr result EndsReading }
        ensures payload { (text : List ℕ)
            (size : ℕ)
            → StandsAt route_grammar (payload_of text size) self.old.cutter
            → ReadsPayload text size self.old.cutter result self.new.cutter }
    {
        let (count, payload) = match self.cutter.peek() {
            Ok(None) => return Err(Ran::Waits),
            Ok(Some(Piece::Payload(payload))) => {
                match Bytes::copy_from_slice(self.alloc, payload) {
                    Ok(copy) => (payload.len(), copy),
                    Err(_) => return Err(Ran::Short),
                }
            }
            Ok(Some(Piece::Line(_))) => return Err(Ran::Refused),
            Err(_) => return Err(Ran::Refused),
        };
        self.cutter.consume(count);
        Ok(payload)
    }

    /// A payload of so many bytes has to come.
    fn expect(&mut self, size: u64) -> Result<(), Ran>
        ensures same { Cuts self.old self.new }
        ensures err { IfErr result EndsReading }
        ensures size { IsBehindLine self.old.cutter
            → Announces size self.old.cutter result self.new.cutter }
    {
        if !self.cutter.after_line() {
            return Err(Ran::Refused);
        }
        match self.cutter.expect(size) {
            Ok(()) => Ok(()),
            Err(_) => Err(Ran::Refused),
        }
    }

    /// Reads the next line, and announces its payload, unless a frame is begun.
    fn begin_frame(&mut self) -> Result<(), Ran>
        ensures same { ReadsBehind self.old self.new }
        ensures err { IfErr result EndsReading }
        ensures begun { OnOk result (IsBegun self.new) }
        ensures reads { ReadsFrames (end_of_reading result) [] self.old self.new }
    {
        if self.line.is_some() {
            return Ok(());
        }
        if self.unjoined.is_some() {
            return Ok(());
        }
        let line = self.next_line()?;
        match line.payload_size() {
            None => {
                put(&mut self.unjoined, Some((line, Bytes::new())));
                Ok(())
            }
            Some(size) => {
                put(&mut self.line, Some(line));
                self.expect(size)
            }
        }
    }

    /// Joins a line and its payload.
    fn join(&mut self, line: RouteLine, payload: Bytes) -> Result<(), Ran>
        ensures same { ReadsOn self.old self.new }
        ensures err { IfErr result EndsReading }
        ensures there { OnOk result (IsSome self.new.ahead) }
        ensures ahead { OnErr result (self.new.ahead ≡ self.old.ahead) }
        ensures reads { JoinsFrame line payload self.old result self.new }
    {
        match line.into_frame(self.alloc, payload) {
            Ok(frame) => {
                put(&mut self.ahead, Some(frame));
                Ok(())
            }
            Err(Unjoined::Refused(_)) => Err(Ran::Refused),
            Err(Unjoined::OutOfMemory { line, payload }) => {
                put(&mut self.unjoined, Some((line, payload)));
                Err(Ran::Short)
            }
        }
    }

    /// Joins the line that was read and the payload that has come for it.
    fn join_payload(&mut self, payload: Bytes) -> Result<(), Ran>
        ensures same { ReadsOn self.old self.new }
        ensures err { IfErr result EndsReading }
        ensures there { OnOk result (IsSome self.new.ahead) }
        ensures ahead { OnErr result (self.new.ahead ≡ self.old.ahead) }
        ensures reads { IfSome self.old.line (λ line.
            JoinsFrame line payload (record self.old { line = None }) result self.new) }
    {
        match self.line.take() {
            Some(line) => self.join(line, payload),
            None => Err(Ran::Refused),
        }
    }

    /// Reads the payload of the frame that is begun, where one is to come, and joins it to its line.
    fn end_frame(&mut self) -> Result<(), Ran>
        ensures same { ReadsOn self.old self.new }
        ensures err { IfErr result EndsReading }
        ensures there { OnOk result (IsSome self.new.ahead) }
        ensures ahead { OnErr result (self.new.ahead ≡ self.old.ahead) }
        ensures reads { IsBegun self.old → ReadsAhead self.old result self.new }
    {
        match self.unjoined.take() {
            Some((line, payload)) => self.join(line, payload),
            None => match self.next_payload() {
                Ok(payload) => self.join_payload(payload),
                Err(end) => Err(end),
            },
        }
    }

    /// Reads the next frame, which then stands to be taken.
    fn read_frame(&mut self) -> Result<(), Ran>
        ensures same { ReadsOn self.old self.new }
        ensures err { IfErr result EndsReading }
        ensures there { OnOk result (IsSome self.new.ahead) }
        ensures ahead { OnErr result (self.new.ahead ≡ self.old.ahead) }
        ensures reads { ReadsAhead self.old result self.new }
    {
        self.begin_frame()?;
        self.end_frame()
    }

    /// Reads the frame that is to be taken next, unless it was read. Tells why it is not there.
    fn look_ahead(&mut self) -> Option<Ran>
        ensures { Looks self.old result self.new }
    {
        if self.ahead.is_some() {
            return None;
        }
        match self.read_frame() {
            Ok(()) => None,
            Err(end) => Some(end),
        }
    }

    /// Takes the next frame, or the numbered frames up to another one under one hold of the hub's lock.
    /// Frames before the session is kept, and those of another server than it is kept with, are refused.
    #[tactic(auto, using(crate::proofs::RouteLemmas::advances_on, crate::proofs::RouteLemmas::advances_not))]
    pub fn advance<C: ServerCalls, R: Wait>(&mut self, rt: &R, node: C, life: &Life) -> Stepped
        ensures { Advances C.Hub.routed C.Hub.pushed life.now self.old result self.new }
    {
        match self.look_ahead() {
            Some(end) => Stepped::ended(end),
            None => self.take_ahead(rt, node, life),
        }
    }

    /// Takes the frame that is to be taken next.
    #[tactic(auto, using(crate::proofs::RouteLemmas::takes_info, crate::proofs::RouteLemmas::takes_connect, crate::proofs::RouteLemmas::takes_numbered))]
    fn take_ahead<C: ServerCalls, R: Wait>(&mut self, rt: &R, node: C, life: &Life) -> Stepped
        ensures { IfSome self.old.ahead
            (λ frame. Takes C.Hub.routed C.Hub.pushed life.now frame self.old result self.new) }
    {
        match self.told_ahead() {
            Told::Info(info) => self.greet_back(rt, node, info),
            Told::Connect(connect) => self.complete(rt, node, life, connect),
            Told::Nothing => Stepped::Ran(self.receive(rt, node, life)),
        }
    }

    /// What the frame that is to be taken next tells of the other end.
    fn told_ahead(&self) -> Told
        ensures { result ≡ told_by self.now.ahead }
    {
        match &self.ahead {
            Some(RouteFrame::Info(info)) => Told::Info(*info),
            Some(RouteFrame::Connect(connect)) => Told::Connect(*connect),
            Some(RouteFrame::Numbered(_)) => Told::Nothing,
            None => Told::Nothing,
        }
    }

    /// The server that was dialed, and its session.
    fn dialed(&self) -> Option<(usize, SessionId)>
        ensures { result ≡ option_zip (dialed_place self.now.stage) self.now.session }
    {
        match self.stage {
            Stage::Dialed(peer) => Some(peer).zip(self.session),
            Stage::Accepted { .. } => None,
            Stage::Kept { .. } => None,
        }
    }

    /// The server that was dialed has told who it is.
    fn greet_back<C: ServerCalls, R: Wait>(&mut self, rt: &R, node: C, info: RouteInfo) -> Stepped
        ensures { TakesInfo C.Hub.routed (option_zip (dialed_place self.old.stage) self.old.session)
            info self.old result self.new }
    {
        match self.dialed() {
            None => Stepped::ended(Ran::Refused),
            Some((peer, session)) => match answer_to(rt, node, session, &info) {
                Ok(answer) => self.keep(peer, info.inc(), Some(answer)),
                Err(fault) => Stepped::ended(end_of(fault)),
            },
        }
    }

    /// The session is kept with the server at this place, in that life.
    fn keep(&mut self, peer: usize, inc: Incarnation, answer: Option<RouteConnect>) -> Stepped
        ensures { IsKept peer inc answer self.old result self.new }
    {
        put(&mut self.ahead, None);
        self.stage = Stage::Kept { peer, inc };
        Stepped::Greeted(Greeted { peer, answer })
    }

    /// The server that tells this, where it is listed, and its session.
    fn listed(&self, life: &Life, told: &RouteConnect) -> Option<(usize, SessionId)>
        ensures { result ≡ option_zip (place_of life.now told.now.server_name) self.now.session }
    {
        life.place(told.server_name()).zip(self.session)
    }

    /// The server that dialed has told who it is.
    fn complete<C: ServerCalls, R: Wait>(
        &mut self,
        rt: &R,
        node: C,
        life: &Life,
        told: RouteConnect,
    ) -> Stepped
        ensures { TakesConnect C.Hub.routed
            (option_zip (place_of life.now told.server_name) self.old.session) told self.old result
            self.new }
    {
        match self.listed(life, &told) {
            None => Stepped::ended(Ran::Refused),
            Some((peer, session)) => self.complete_with(rt, node, peer, session, told),
        }
    }

    /// The server at this place, which dialed, has told who it is.
    fn complete_with<C: ServerCalls, R: Wait>(
        &mut self,
        rt: &R,
        node: C,
        peer: usize,
        session: SessionId,
        told: RouteConnect,
    ) -> Stepped
        ensures { TakesConnectOf C.Hub.routed (proved_other self.old.stage peer) peer session told
            self.old result self.new }
    {
        if self.has_proved_other(peer) {
            return Stepped::ended(Ran::Posed);
        }
        match connect(rt, node, session, &told) {
            Ok(()) => self.keep(peer, told.inc(), None),
            Err(fault) => Stepped::ended(end_of(fault)),
        }
    }

    /// Whether the other end has proved that it is another server than the one at this place.
    fn has_proved_other(&self, peer: usize) -> bool
        ensures { result ≡ proved_other self.now.stage peer }
    {
        match self.stage {
            Stage::Accepted {
                proved: Some(place),
                ..
            } => place != peer,
            _ => false,
        }
    }

    /// The same of a hub that is held, which hands no jobs to the shards yet.
    #[tactic(auto, using(crate::proofs::RouteLemmas::none_so_far, crate::proofs::RouteLemmas::one_more, crate::proofs::RouteLemmas::ends_at, crate::proofs::RouteLemmas::ends_full))]
    pub fn receive_all<H: HubCalls>(&mut self, hub: &mut H, life: &Life) -> RunOutcome
        ensures { HasReceived H.routed life.now WINDOW result.end self.old self.new hub.old
            hub.new }
    {
        let mut run = RunOutcome::of(Ran::Goes);
        for _frame in 0..WINDOW {
            let heard = self.receive_next(hub, life);
            run.count(heard.bytes);
            match heard.end {
                None => {}
                Some(end) => {
                    run.end = end;
                    return run;
                }
            }
        }
        run
    }

    /// Whether the frame is of the server that the session is kept with.
    fn is_of_peer(&self, frame: &Numbered, life: &Life) -> bool
        ensures peer { OnTrue result (IsOfPeer life.now self.now.stage frame.now) }
        ensures other { OnFalse result (¬ IsOfPeer life.now self.now.stage frame.now) }
    {
        match self.stage {
            Stage::Kept { peer, .. } => match life.place(frame.from()) {
                Some(place) => place == peer,
                None => false,
            },
            _ => false,
        }
    }

    /// Whether the frame is of the life of the server that the session is kept with.
    fn is_of_life(&self, frame: &Numbered) -> bool
        ensures { result ≡ of_life self.now.stage frame.now }
    {
        match self.stage {
            Stage::Kept { inc, .. } => frame.inc() == inc,
            _ => false,
        }
    }

    /// Takes the next frame, where it is a numbered one. It is kept while it cannot be taken.
    #[tactic(auto, using(crate::proofs::RouteLemmas::hands_next, crate::proofs::RouteLemmas::hands_no_next))]
    fn receive_next<H: HubCalls>(&mut self, hub: &mut H, life: &Life) -> Heard
        ensures { HandsNext H.routed life.now result.end self.old self.new hub.old hub.new }
    {
        match self.look_ahead() {
            Some(end) => Heard::nothing(end),
            None => {
                let heard = self.apply_ahead(hub, life);
                if heard.is_done {
                    put(&mut self.ahead, None);
                }
                heard
            }
        }
    }

    /// Has the hub take the frame that is to be taken next, where it is a numbered one.
    fn apply_ahead<H: HubCalls>(&self, hub: &mut H, life: &Life) -> Heard
        ensures { AppliesAhead H.routed life.now self.now.stage self.now.ahead result.is_done
            result.end hub.old hub.new }
    {
        match &self.ahead {
            Some(RouteFrame::Numbered(frame)) => self.apply_update(hub, life, frame),
            Some(RouteFrame::Info(_)) => Heard::nothing(Ran::Goes),
            Some(RouteFrame::Connect(_)) => Heard::nothing(Ran::Goes),
            None => Heard::nothing(Ran::Goes),
        }
    }

    /// Has the hub take a frame, where it is of the server that the session is kept with.
    fn apply_update<H: HubCalls>(&self, hub: &mut H, life: &Life, frame: &Numbered) -> Heard
        ensures { Applies H.routed life.now self.now.stage frame.now result.is_done result.end
            hub.old hub.new }
    {
        if !self.is_of_peer(frame, life) {
            return Heard::nothing(Ran::Refused);
        }
        heard_of(hub.receive(frame), weight_of(frame), self.is_of_life(frame))
    }
}
