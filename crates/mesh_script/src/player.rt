//! The events of a script are asked for and made in the cluster, and a line is put for each.

ghost use Rattle.world_law.specs.Events as of_world;
ghost use Rattle.node_law.specs.Events as of_node;
ghost use Rattle.node_law.specs.declared.events.ConnEvent.TheVariants as for_conn;
ghost use Rattle.std.specs.Prelude.{◌≡◌, IfOk, Some, [], map};
ghost use Rattle.std.specs.List.{position};
ghost use Rattle.std.specs.Str.{bytes_eq};
ghost use Rattle.node_core.specs.InCode.{own_event_of};
ghost use Rattle.subj.specs.Servers.{place_in};
ghost use Rattle.mesh_script.specs.Asks.{once as asked_once, Once, Tells, Delivers, act_wants, asks_for, session_in as session_told, step_wants, dial_asks, accept_asks, info_asks, next_frame as frame_after, settled_asks, deliver_asks, work_asks, steps_ask};
ghost use Rattle.mesh_script.specs.Playing.{wants_of, Makes, MakesBehind, AsksOne, Finishes, first_standing, GoesOn, ArePlayedSafely};
ghost use Rattle.cluster_world.specs.InCode.{event_of, outcome_of};
ghost use Rattle.mesh_script.specs.Counted.{placed_by as placed_of};
ghost use Rattle.mesh_script.specs.Owed.{delivery as work_behind};
ghost use Rattle.mesh_script.specs.Played.{CountsWrites, Plays, cluster_of};

use crate::output::{
    Known, Output, PlayFault, put_delivered, put_end, put_line, put_placements, put_settled,
};
use crate::settled_order::delivery;
use claim_race::Race;
use cluster_world::{Event, Outcome, World};
use node_core::{Answer, ConnEvent, OwnEvent, ShardWork};
use route_session::SessionId;
use script_form::{Act, Script, Step};
use std::alloc::{AllocError, Global};
use std::marker::Model;
use sub_table::SubTable;
use subj::{ConnId, Key, NodeId, Pub, Sid, Subject};
use wire_cut::Sink;

/// What a step asks of the cluster.
#[derive(Drop)]
enum ScriptEvents {
    Event(Event),
    /// The servers at these places: the one that dials, and the one that is dialed.
    Join(usize, usize),
    /// Whether it is settled for the subject.
    Settled(Subject),
    /// A publish at the server of this place, and the work that is owed of it.
    Deliver {
        node: usize,
        conn: ConnId,
        publication: Pub,
        word: u64,
    },
}

/// The place of the server of this name, or None where none has it.
fn listed_place(names: &[NodeId], name: NodeId) -> Option<usize>
    ensures { result ≡ position (λ other. bytes_eq other name) names.now }
{
    names.iter().position(|other| other.bytes() == name.bytes())
}

/// The place of the server of this name; of a name that is not listed, the number of names.
fn place_of(names: &[NodeId], name: NodeId) -> usize
    ensures { result ≡ place_in name names.now }
{
    match listed_place(names, name) {
        Some(place) => place,
        None => names.len(),
    }
}

fn own(node: usize, event: OwnEvent) -> ScriptEvents
    ensures { wants_of result ≡ Once (of_world.At node (own_event_of event)) }
{
    ScriptEvents::Event(Event::At { node, event })
}

fn of_conn(node: usize, conn: ConnId, event: ConnEvent) -> ScriptEvents
    ensures { wants_of result ≡ Once (of_world.At node (of_node.OfConn conn event)) }
{
    own(node, OwnEvent::OfConn { conn, event })
}

fn at_shard(node: usize, shard: u64, work: ShardWork) -> ScriptEvents
    ensures { wants_of result ≡ Once (of_world.At node (of_node.AtShard shard work)) }
{
    own(node, OwnEvent::AtShard { shard, work })
}

fn subscribe(
    alloc: Global,
    node: usize,
    conn: ConnId,
    key: &Key,
    sid: &Sid,
) -> Result<ScriptEvents, AllocError>
    ensures { IfOk result (λ asked.
        wants_of asked
        ≡ Once (of_world.At node (of_node.OfConn conn (for_conn.Subscribe key.now sid.now)))) }
{
    let key = key.try_clone(alloc)?;
    let sid = sid.try_clone(alloc)?;
    Ok(of_conn(node, conn, ConnEvent::Subscribe { key, sid }))
}

fn unsubscribe(
    alloc: Global,
    node: usize,
    conn: ConnId,
    sid: &Sid,
    max: Option<u64>,
) -> Result<ScriptEvents, AllocError>
    ensures { IfOk result (λ asked.
        wants_of asked
        ≡ Once (of_world.At node (of_node.OfConn conn (for_conn.Unsubscribe sid.now max)))) }
{
    let sid = sid.try_clone(alloc)?;
    Ok(of_conn(node, conn, ConnEvent::Unsubscribe { sid, max }))
}

/// A copy that shares the message.
fn copy_of(publication: &Pub) -> Result<Pub, AllocError>
    ensures { IfOk result (λ copy. copy ≡ publication.now) }
{
    let message = publication.message.try_clone()?;
    let echo = publication.echo;
    Ok(Pub { message, echo })
}

fn publish(
    node: usize,
    conn: ConnId,
    publication: &Pub,
    word: u64,
) -> Result<ScriptEvents, AllocError>
    ensures { IfOk result (λ asked.
        wants_of asked
        ≡ Once (of_world.At node
        (of_node.Publish (record { conn = conn; publication = publication.now; word = word })))) }
{
    let publication = copy_of(publication)?;
    Ok(own(
        node,
        OwnEvent::Publish {
            conn,
            publication,
            word,
        },
    ))
}

fn deliver(
    node: usize,
    conn: ConnId,
    publication: &Pub,
    word: u64,
) -> Result<ScriptEvents, AllocError>
    ensures { IfOk result (λ asked.
        wants_of asked
        ≡ Delivers node (record { conn = conn; publication = publication.now; word = word })) }
{
    let publication = copy_of(publication)?;
    Ok(ScriptEvents::Deliver {
        node,
        conn,
        publication,
        word,
    })
}

fn settled(subject: &Subject) -> Result<ScriptEvents, AllocError>
    ensures { IfOk result (λ asked. wants_of asked ≡ Tells subject.now) }
{
    let subject = subject.try_clone()?;
    Ok(ScriptEvents::Settled(subject))
}

fn take_entries(node: usize, conn: ConnId, count: u64) -> ScriptEvents
    ensures { wants_of result
        ≡ Once (of_world.At node (of_node.OfConn conn (for_conn.Take count))) }
{
    let count = count as usize;
    of_conn(node, conn, ConnEvent::Take { count })
}

fn receive(node: usize, frame: u64) -> ScriptEvents
    ensures { wants_of result ≡ Once (of_world.Receive node frame) }
{
    let frame = frame as usize;
    ScriptEvents::Event(Event::Receive { node, frame })
}

fn on_info(node: usize, session: u64, frame: u64) -> ScriptEvents
    ensures { wants_of result ≡ Once (of_world.OnInfo node session frame) }
{
    ScriptEvents::Event(Event::OnInfo {
        node,
        session: SessionId::new(session),
        frame: frame as usize,
    })
}

fn on_connect(node: usize, session: u64, frame: u64) -> ScriptEvents
    ensures { wants_of result ≡ Once (of_world.OnConnect node session frame) }
{
    ScriptEvents::Event(Event::OnConnect {
        node,
        session: SessionId::new(session),
        frame: frame as usize,
    })
}

fn cut(node: usize, session: u64) -> ScriptEvents
    ensures { wants_of result ≡ Once (of_world.At node (of_node.CutSession session)) }
{
    let session = SessionId::new(session);
    own(node, OwnEvent::CutSession { session })
}

fn dial(node: usize, peer: usize) -> ScriptEvents
    ensures { wants_of result ≡ Once (of_world.At node (of_node.Dial peer)) }
{
    own(node, OwnEvent::Dial { peer })
}

fn take_frames(node: usize, peer: usize, count: u64) -> ScriptEvents
    ensures { wants_of result ≡ Once (of_world.At node (of_node.TakeFrames peer count)) }
{
    let count = count as usize;
    own(node, OwnEvent::TakeFrames { peer, count })
}

/// What is asked for this act of the server at the place.
fn asked_by(
    alloc: Global,
    names: &[NodeId],
    node: usize,
    act: &Act,
) -> Result<ScriptEvents, AllocError>
    ensures { IfOk result (λ asked. wants_of asked ≡ act_wants names.now node act.now) }
{
    match act {
        Act::Start { inc } => Ok(ScriptEvents::Event(Event::Start { node, inc: *inc })),
        Act::Stop => Ok(ScriptEvents::Event(Event::Stop { node })),
        Act::Attach { shard } => Ok(at_shard(node, *shard, ShardWork::Attach)),
        Act::Sub { conn, key, sid } => subscribe(alloc, node, *conn, key, sid),
        Act::Unsub { conn, sid, max } => unsubscribe(alloc, node, *conn, sid, *max),
        Act::SetHeaders { conn, on } => Ok(of_conn(node, *conn, ConnEvent::SetHeaders { on: *on })),
        Act::Detach { conn } => Ok(of_conn(node, *conn, ConnEvent::Detach)),
        Act::Publish {
            conn,
            publication,
            word,
        } => publish(node, *conn, publication, *word),
        Act::Settled { subject } => settled(subject),
        Act::Deliver {
            conn,
            publication,
            word,
        } => deliver(node, *conn, publication, *word),
        Act::Receive { frame } => Ok(receive(node, *frame)),
        Act::Collect { shard } => Ok(own(node, OwnEvent::Collect { shard: *shard })),
        Act::Begin { shard } => Ok(at_shard(node, *shard, ShardWork::Begin)),
        Act::Drain => Ok(own(node, OwnEvent::Drain)),
        Act::DrainShard { shard } => Ok(at_shard(node, *shard, ShardWork::DrainShard)),
        Act::End { shard } => Ok(at_shard(node, *shard, ShardWork::End)),
        Act::DropJob { shard } => Ok(at_shard(node, *shard, ShardWork::DropJob)),
        Act::Claim { shard, index } => {
            Ok(at_shard(node, *shard, ShardWork::Claim { index: *index }))
        }
        Act::Dial { peer } => Ok(dial(node, place_of(names, *peer))),
        Act::Accept => Ok(own(node, OwnEvent::Accept)),
        Act::Info { session, frame } => Ok(on_info(node, *session, *frame)),
        Act::Connect { session, frame } => Ok(on_connect(node, *session, *frame)),
        Act::Cut { session } => Ok(cut(node, *session)),
        Act::TakeEntries { conn, count } => Ok(take_entries(node, *conn, *count)),
        Act::TakeFrames { peer, count } => { Ok(take_frames(node, place_of(names, *peer), *count)) }
        Act::Join { peer } => Ok(ScriptEvents::Join(node, place_of(names, *peer))),
    }
}

/// A cluster, how many events were made in it, and what stands to be written of them.
///
/// Seen as these.
#[derive(Drop)]
struct Player<T: SubTable, R: Race> {
    alloc: Global,
    world: World<T, R>,
    number: u64,
    output: Output,
}

impl<T: SubTable, R: Race> Model for Player<T, R> {
    ghost use Rattle.mesh_script.specs.Playing.{PlayState};

    ghost Value = { PlayState };

    ghost view = { λ p. record {
      cluster = p.world.cluster;
      world = p.world.world;
      number = p.number;
      text = p.output;
    } };
}

/// A server, and its end of a session.
#[derive(Clone, Copy)]
struct SessionEnd {
    node: usize,
    session: SessionId,
}

/// The session that an event made.
fn session_in(outcome: &Outcome) -> Option<SessionId>
    ensures { result ≡ session_told (outcome_of outcome.now) }
{
    match outcome {
        Outcome::Done(Answer::OnSession(session)) => Some(*session),
        _ => None,
    }
}

/// How many messages an event placed, by its outcome.
fn placed_by(outcome: &Outcome) -> u64
    ensures { result ≡ placed_of (outcome_of outcome.now) }
{
    match outcome {
        Outcome::Done(Answer::Began { placed, .. }) => *placed as u64,
        Outcome::Done(Answer::Won(_)) => 1,
        _ => 0,
    }
}

impl<T: SubTable, R: Race> Player<T, R> {
    /// Makes an event, and puts its line.
    fn ask<S: Sink>(&mut self, event: &Event, sink: &mut S) -> Result<Outcome, PlayFault>
        ensures asks { AsksOne result (event_of event.now) self.old (S.written sink.old) self.new
            (S.written sink.new) }
        ensures failures { CountsWrites result (S.failures sink.old) (S.failures sink.new) }
    {
        self.output.flush_much(sink)?;
        let Some(number) = self.number.checked_add(1) else {
            return Err(PlayFault::OutOfMemory);
        };
        let outcome = self.world.step(event)?;
        self.number = number;
        put_line(&mut self.output, number, &outcome)?;
        Ok(outcome)
    }

    /// The same of an event that is of no further use.
    fn ask_for<S: Sink>(&mut self, event: Event, sink: &mut S) -> Result<Outcome, PlayFault>
        ensures asks { AsksOne result (event_of event) self.old (S.written sink.old) self.new
            (S.written sink.new) }
        ensures failures { CountsWrites result (S.failures sink.old) (S.failures sink.new) }
    {
        self.ask(&event, sink)
    }

    /// Makes one event, whatever comes of it.
    fn once<S: Sink>(&mut self, event: Event, sink: &mut S) -> Result<(), PlayFault>
        ensures makes { Makes result self.old (S.written sink.old) (asked_once (event_of event))
            self.new (S.written sink.new) }
        ensures failures { CountsWrites result (S.failures sink.old) (S.failures sink.new) }
    {
        self.ask_for(event, sink)?;
        Ok(())
    }

    /// The number of the first frame that the next event sends.
    fn next_frame(&self) -> Result<usize, AllocError>
        ensures { IfOk result (λ frame. frame ≡ frame_after self.now.world) }
    {
        self.world.next_frame()
    }

    /// The side that dialed is handed the `INFO`; where that is done, the other one is handed the `CONNECT` that it
    /// sends.
    fn inform<S: Sink>(
        &mut self,
        a: SessionEnd,
        b: SessionEnd,
        frame: usize,
        sink: &mut S,
    ) -> Result<(), PlayFault>
        ensures makes { Makes result self.old (S.written sink.old)
            (info_asks a.node b.node a.session b.session frame) self.new (S.written sink.new) }
        ensures failures { CountsWrites result (S.failures sink.old) (S.failures sink.new) }
    {
        let next = self.next_frame()?;
        let event = Event::OnInfo {
            node: a.node,
            session: a.session,
            frame,
        };
        let outcome = self.ask_for(event, sink)?;
        if outcome.fault().is_some() {
            return Ok(());
        }
        let connect = Event::OnConnect {
            node: b.node,
            session: b.session,
            frame: next,
        };
        self.once(connect, sink)
    }

    /// The server at place `b` accepts; where that is done, the side that dialed is handed the `INFO` that it sends.
    fn accept<S: Sink>(&mut self, a: SessionEnd, b: usize, sink: &mut S) -> Result<(), PlayFault>
        ensures makes { Makes result self.old (S.written sink.old) (accept_asks a.node b a.session)
            self.new (S.written sink.new) }
        ensures failures { CountsWrites result (S.failures sink.old) (S.failures sink.new) }
    {
        let info = self.next_frame()?;
        let event = Event::At {
            node: b,
            event: OwnEvent::Accept,
        };
        let outcome = self.ask_for(event, sink)?;
        match session_in(&outcome) {
            None => Ok(()),
            Some(session) => self.inform(a, SessionEnd { node: b, session }, info, sink),
        }
    }

    /// The server at place `a` dials the one at place `b`, and what follows.
    fn join<S: Sink>(&mut self, a: usize, b: usize, sink: &mut S) -> Result<(), PlayFault>
        ensures makes { Makes result self.old (S.written sink.old) (dial_asks a b) self.new
            (S.written sink.new) }
        ensures failures { CountsWrites result (S.failures sink.old) (S.failures sink.new) }
    {
        let event = Event::At {
            node: a,
            event: OwnEvent::Dial { peer: b },
        };
        let outcome = self.ask_for(event, sink)?;
        match session_in(&outcome) {
            None => Ok(()),
            Some(session) => self.accept(SessionEnd { node: a, session }, b, sink),
        }
    }

    /// Tells whether the cluster is settled for a publication on the subject.
    fn tell_settled<S: Sink>(&mut self, subject: &Subject, sink: &mut S) -> Result<(), PlayFault>
        ensures makes { Makes result self.old (S.written sink.old)
            (settled_asks self.old.cluster subject.now) self.new (S.written sink.new) }
        ensures failures { CountsWrites result (S.failures sink.old) (S.failures sink.new) }
    {
        self.output.flush_much(sink)?;
        let settled = self.world.settled_for(subject);
        put_settled(&mut self.output, settled)?;
        Ok(())
    }

    /// Tells how many messages were placed.
    fn tell_placed<S: Sink>(&mut self, placed: u64, sink: &mut S) -> Result<(), PlayFault>
        ensures makes { Makes result self.old (S.written sink.old) (work_asks [] placed) self.new
            (S.written sink.new) }
        ensures failures { CountsWrites result (S.failures sink.old) (S.failures sink.new) }
    {
        self.output.flush_much(sink)?;
        put_delivered(&mut self.output, placed)?;
        Ok(())
    }

    /// Makes events in turn, and tells how many messages they placed. Want of memory also stands for more than can be counted.
    fn work<S: Sink>(&mut self, events: &[Event], sink: &mut S) -> Result<(), PlayFault>
        ensures makes { Makes result self.old (S.written sink.old)
            (work_asks (map event_of events.now) 0) self.new (S.written sink.new) }
        ensures failures { CountsWrites result (S.failures sink.old) (S.failures sink.new) }
    {
        let mut placed = 0u64;
        for event in events {
            let outcome = self.ask(event, sink)?;
            let Some(sum) = placed.checked_add(placed_by(&outcome)) else {
                return Err(PlayFault::OutOfMemory);
            };
            placed = sum;
        }
        self.tell_placed(placed, sink)
    }

    /// Makes an event, and then the work behind it.
    fn ask_and_work<S: Sink>(
        &mut self,
        event: &Event,
        events: &[Event],
        sink: &mut S,
    ) -> Result<(), PlayFault>
        ensures makes { MakesBehind result self.old (S.written sink.old) (event_of event.now)
            (map event_of events.now) self.new (S.written sink.new) }
        ensures failures { CountsWrites result (S.failures sink.old) (S.failures sink.new) }
    {
        self.ask(event, sink)?;
        self.work(events, sink)
    }

    /// The work behind a publish that is delivered.
    fn delivery_of(
        &self,
        node: usize,
        conn: ConnId,
        publication: &Pub,
        word: u64,
    ) -> Result<Vec<Event>, AllocError>
        ensures { IfOk result (λ events.
            map event_of events.items
            ≡ work_behind self.now.cluster self.now.world node
            (record { conn = conn; publication = publication.now; word = word })) }
    {
        delivery(self.alloc, &self.world, node, conn, publication, word)
    }

    /// Publishes for the connection at the server of this place, and makes the work that is owed of it.
    fn deliver<S: Sink>(
        &mut self,
        node: usize,
        conn: ConnId,
        publication: Pub,
        word: u64,
        sink: &mut S,
    ) -> Result<(), PlayFault>
        ensures makes { Makes result self.old (S.written sink.old)
            (deliver_asks self.old.cluster node
            (record { conn = conn; publication = publication; word = word }))
            self.new (S.written sink.new) }
        ensures failures { CountsWrites result (S.failures sink.old) (S.failures sink.new) }
    {
        let events = self.delivery_of(node, conn, &publication, word)?;
        let event = OwnEvent::Publish {
            conn,
            publication,
            word,
        };
        self.ask_and_work(&Event::At { node, event }, &events, sink)
    }

    /// Makes what is asked for.
    fn make_asked<S: Sink>(&mut self, asked: ScriptEvents, sink: &mut S) -> Result<(), PlayFault>
        ensures makes { Makes result self.old (S.written sink.old)
            (asks_for self.old.cluster (wants_of asked)) self.new (S.written sink.new) }
        ensures failures { CountsWrites result (S.failures sink.old) (S.failures sink.new) }
    {
        match asked {
            ScriptEvents::Join(a, b) => self.join(a, b, sink),
            ScriptEvents::Event(event) => self.once(event, sink),
            ScriptEvents::Settled(subject) => self.tell_settled(&subject, sink),
            ScriptEvents::Deliver {
                node,
                conn,
                publication,
                word,
            } => self.deliver(node, conn, publication, word, sink),
        }
    }

    /// Makes the events of a step, of a server of these names.
    fn make<S: Sink>(
        &mut self,
        names: &[NodeId],
        step: &Step,
        sink: &mut S,
    ) -> Result<(), PlayFault>
        ensures makes { Makes result self.old (S.written sink.old)
            (asks_for self.old.cluster (step_wants names.now step.now)) self.new
            (S.written sink.new) }
        ensures failures { CountsWrites result (S.failures sink.old) (S.failures sink.new) }
    {
        let node = place_of(names, step.node);
        let asked = asked_by(self.alloc, names, node, &step.act)?;
        self.make_asked(asked, sink)
    }

    /// Puts what was placed, and the last line, and writes all that stands to be written.
    fn finish<S: Sink>(&mut self, names: &[NodeId], sink: &mut S) -> Result<(), PlayFault>
        ensures text { Finishes result names.now self.old (S.written sink.old)
            (S.written sink.new) }
        ensures failures { CountsWrites result (S.failures sink.old) (S.failures sink.new) }
    {
        let lives = self.world.lives();
        let placements = self.world.placements();
        let known = Known { names, lives };
        let count = put_placements(&mut self.output, known, placements, sink)?;
        put_end(&mut self.output, self.number, count)?;
        self.output.flush(sink)
    }
}

/// Whatever was told of what a script asks, the rest can be told too: each event has a step in each world that a run
/// reaches.
fn plays_go_on()
    ensures { GoesOn }
{
    world_law::each_event_goes_on()
}

/// Of each run of a script's events: the headline holds of the lists that its text is written of.
fn plays_are_safe()
    ensures { ArePlayedSafely }
{
    world_law::publications_are_placed_once();
    world_law::names_are_unique();
    world_law::echo_is_kept()
}

/// The cluster of a script, in which all servers are down.
fn new_player<T: SubTable, R: Race>(
    alloc: Global,
    script: &Script,
) -> Result<Player<T, R>, AllocError>
    ensures { IfOk result (λ player. player ≡ first_standing (cluster_of script.now)) }
{
    let shards = script.shards();
    let names = Vec::from_slice(alloc, script.names())?;
    let Some(world) = World::new(alloc, names, shards)? else {
        // the servers of a script are a cluster
        unreachable!()
    };
    Ok(Player {
        alloc,
        world,
        number: 0,
        output: Output::new(alloc),
    })
}

/// Makes the events of all steps.
fn make_all<T: SubTable, R: Race, S: Sink>(
    player: &mut Player<T, R>,
    script: &Script,
    sink: &mut S,
) -> Result<(), PlayFault>
    ensures makes { Makes result player.old (S.written sink.old)
        (steps_ask player.old.cluster script.now.names script.now.steps) player.new
        (S.written sink.new) }
    ensures failures { CountsWrites result (S.failures sink.old) (S.failures sink.new) }
{
    for step in script.steps() {
        player.make(script.names(), step, sink)?;
    }
    Ok(())
}

/// Plays a script: makes its events in turn in a cluster in which all servers are down, over any table of
/// subscriptions and any race, and writes a line for each; where it asks whether the cluster is settled, and behind each delivery, a line that
/// is no event's; then one for each message that was placed, and a last line. (Profile.)
///
/// What is written is the text of a run of these events in the exact cluster; after a failed write, and where memory is
/// wanting, a beginning of such a text. The headline holds of the lists that it is written of, as
/// [`World::keeps_headline`] says. Gives the cluster behind the events.
pub fn play<T: SubTable, R: Race, S: Sink>(
    alloc: Global,
    script: &Script,
    sink: &mut S,
) -> Result<World<T, R>, PlayFault>
    ensures text { Plays script.now result (S.written sink.old) (S.written sink.new) }
    ensures failures { CountsWrites result (S.failures sink.old) (S.failures sink.new) }
{
    plays_go_on();
    plays_are_safe();
    let _many = script.shards();
    let mut player = new_player::<T, R>(alloc, script)?;
    make_all(&mut player, script, sink)?;
    player.finish(script.names(), sink)?;
    Ok(player.world)
}
