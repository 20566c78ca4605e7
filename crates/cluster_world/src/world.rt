//! A cluster as one value.

ghost use Rattle.settled_law.specs.Settled.{IsSettled, IsRoomy};
ghost use Rattle.settled_law.specs.Tests.{settled_for, room_for};
ghost use Rattle.std.specs.Prelude.{◌≡◌, ◌↔◌, ◌+◌, ◌≤◌, ◌∷◌, true, None, Some, IfOk, OnErr, map, suc, length};
ghost use Rattle.std.specs.List.{flat_map};
ghost use Rattle.world_law.specs.Events.{Event as Asked, Start, Stop, At};
ghost use Rattle.node_law.specs.Events.{Publish};
ghost use Rattle.world_law.specs.Outcomes.{Refused};
ghost use Rattle.world_law.specs.Echo.{EchoIsKept};
ghost use Rattle.world_law.specs.Headline.{Headline, Names, AreSent};
ghost use Rattle.cluster_world.specs.InCode.{event_of, outcome_of, outcomes_in, publication_of, life_of, placements_in, entered_in, items_of};
ghost use Rattle.world_law.specs.Refusals.{world_refusal};
ghost use Rattle.world_law.specs.RestsOn.{CameSo};
ghost use Rattle.cluster_world.specs.Planned.{IsPlannedBy, TakesWhereSettled};
ghost use Rattle.hub_core.specs.Chosen.{publication_by};
ghost use Rattle.cluster_world.specs.Value.{IsFor, IsStepped, Ran, IsPart, CameBySteps, GivesOnce, new_cluster};

use crate::events::Event;
use crate::lists::{Acted, Lists};
use crate::nodes::{Made, Nodes, asked_by, server_of, start_fault, stop_fault};
use crate::outcomes::{Delivery, Outcome};
use crate::records::{Life, Placements, Publication};
use claim_race::Race;
use hub_core::PublishPlan;
use node_core::{Answer, Node, OwnEvent};
use route_values::RouteFrame;
use settled_law::{
    carried_tests_are_exact, carried_worlds_deliver, settled_worlds_deliver, some_order_is_right,
    tests_are_exact,
};
use std::alloc::{AllocError, Global};
use std::marker::Model;
use sub_table::SubTable;
use subj::{ConnId, Incarnation, NodeId, Pub, ServerIdentity, Subject};
use world_law::{
    WorldFault, carried_echo_is_kept, carried_frames_were_sent, carried_lives_are_open,
    carried_names_are_unique, carried_worlds_keep_the_headline, carried_worlds_rest_on_this,
    each_event_goes_on, new_entries_were_put, new_worlds_are_carried, puts_are_placed,
    steps_keep_worlds_carried,
};

/// A cluster of servers, over any table of subscriptions and any race. (Profile.)
///
/// Seen as the cluster and its world: the servers that are up, and the lists of what was published,
/// subscribed, placed and sent. Some run of the exact cluster ends in it; so the headline holds of its lists,
/// whoever made the value and whatever was done with it.
pub struct World<T: SubTable, R: Race> {
    alloc: Global,
    /// The names of the servers and the number of shards, as a server's at the first place.
    server: ServerIdentity,
    step: u64,
    nodes: Nodes<T, R>,
    lists: Lists,
}

/// One call, also for crates above: `docs/PROVING.md`, "What a proof costs".
impl<T: SubTable, R: Race> Drop for World<T, R> {
    fn drop(self) {
        let World {
            alloc: _,
            server: _,
            step: _,
            nodes: _,
            lists: _,
        } = self;
    }
}

impl<T: SubTable, R: Race> Model for World<T, R> {
    ghost use Rattle.cluster_world.specs.Value.{Shown};

    ghost Value = { Shown };

    ghost use Rattle.cluster_world.specs.Value.{listed_of, value_of_parts, IsKept};

    ghost view = { λ w. value_of_parts w.server w.step w.nodes (listed_of w.lists) };

    ghost invariant = { λ w.
        IsKept w.server w.nodes (value_of_parts w.server w.step w.nodes (listed_of w.lists)) };
}

impl<T: SubTable, R: Race> World<T, R> {
    /// The cluster of the servers of these names, each with so many shards; all are down. None where that
    /// is no cluster: there is no name, there are more than [`subj::MAX_NODES`], two are one, or the
    /// number of shards is not 1 to [`subj::MAX_SHARDS`].
    pub fn new(
        alloc: Global,
        names: Vec<NodeId>,
        shards: u64,
    ) -> Result<Option<World<T, R>>, AllocError>
        ensures { IfOk result (λ made.
            made ≡ new_cluster (record { names = names.items; shards = shards })) }
    {
        new_worlds_are_carried();
        let Some(inc) = Incarnation::new(1) else {
            // 1 is an incarnation
            unreachable!()
        };
        let Some(server) = ServerIdentity::new(names, 0, inc, shards) else {
            return Ok(None);
        };
        let _me = server.me();
        let nodes = Nodes::new(alloc, server.names().len())?;
        Ok(Some(World {
            alloc,
            server,
            step: 0,
            nodes,
            lists: Lists::new(alloc),
        }))
    }

    /// The names of the servers, each at its place.
    pub fn names(&self) -> &[NodeId]
        ensures { result.now ≡ self.now.cluster.names }
    {
        self.server.names()
    }

    /// How many shards each server has.
    pub fn shards(&self) -> u64
        ensures same { result ≡ self.now.cluster.shards }
        ensures some { 1 ≤ result }
    {
        self.server.shards()
    }

    /// What was published so far, in order.
    pub fn publications(&self) -> &[Publication]
        ensures { map publication_of result.now ≡ self.now.world.publications }
    {
        &self.lists.publications
    }

    /// What was subscribed so far, in order of opening.
    pub fn lives(&self) -> &[Life]
        ensures { map life_of result.now ≡ self.now.world.lives }
    {
        &self.lists.lives
    }

    /// What was put into outboxes so far, step by step: the messages, which are the placements, and beside them the answers and the
    /// last lines, each where it was put.
    pub fn placements(&self) -> &[Placements]
        ensures messages { flat_map placements_in result.now ≡ self.now.world.placements }
        ensures entries { flat_map entered_in result.now ≡ self.now.entered }
    {
        &self.lists.placements
    }

    /// What was sent so far, step by step. Frames are counted from 1, over all steps.
    pub fn sent_frames(&self) -> &[Vec<RouteFrame>]
        ensures { flat_map items_of result.now ≡ self.now.world.sent }
    {
        &self.lists.sent
    }

    /// What holds of every value, whoever made it and whatever was done with it, for every table and every
    /// race. It does nothing.
    ///
    /// - Each publication is placed at most once for a plain subscription, and for a queue name for at most one
    ///   member in the whole cluster: over all servers, incarnations, connections and steps. What is placed is
    ///   the exact `MSG` or `HMSG` of a publication of an earlier step (`HMSG` just where that has headers and the
    ///   connection took them at that step), for a subscription of that connection, id and queue name that
    ///   matches and was open at that step; and of one subscription the publications of one incarnation come in
    ///   rising number.
    /// - No two publications have one name, nor two subscriptions.
    /// - What that rests on holds of the run that ends here.
    /// - Each frame that a take from a peer gives was sent.
    /// - What was published without echo was placed for no subscription of the connection that published it.
    /// - All that was put into outboxes is what the steps of a run put that ends here: the answers that were due and the last lines, each
    ///   where it was due, as well as the messages.
    pub fn keeps_headline(&self)
        ensures headline { ∥ Headline self.now.world ∥₁ }
        ensures names { ∥ Names self.now.world ∥₁ }
        ensures echo { ∥ EchoIsKept self.now.cluster self.now.world ∥₁ }
        ensures rests { ∥ CameSo self.now.cluster self.now.world ∥₁ }
        ensures sent { ∥ AreSent self.now.world ∥₁ }
        ensures entered { CameBySteps self.now }
    {
        let _step = self.step;
        carried_worlds_keep_the_headline();
        carried_names_are_unique();
        carried_echo_is_kept();
        carried_worlds_rest_on_this();
        carried_frames_were_sent()
    }

    /// Whether the cluster is settled for a publication on this subject: every server is up; none has a job that waits or is in
    /// hand, or an opening or a closing that its hub was not told of; each can number one more turn and one more publication;
    /// each has each other one up in its incarnation, keeps a session with it, knows just its open subscriptions, and has room
    /// for a frame to it; and no more than [`subj::MAX_QUEUE_NAMES`] queue names with an open member match. Takes no memory.
    pub fn settled_for(&self, subject: &Subject) -> bool
        ensures same { result ≡ settled_for self.now.cluster self.now.world subject.now }
        ensures exact { ∥ (result ≡ true)
            ↔ IsSettled self.now.cluster self.now.world subject.now ∥₁ }
    {
        let _step = self.step;
        carried_tests_are_exact();
        self.nodes.are_settled(subject)
    }

    /// Whether each connection with open subscriptions that get the publication's subject has room for the messages of all of
    /// them together. Takes no memory.
    pub fn room_for(&self, publication: &Pub) -> bool
        ensures same { result ≡ room_for self.now.world publication.now.message }
        ensures exact { (result ≡ true) ↔ IsRoomy self.now.world publication.now.message }
    {
        let _step = self.step;
        tests_are_exact();
        self.nodes.have_room_for(&publication.message)
    }

    /// The number of the first frame that the next event sends. Want of memory also stands for more frames than can
    /// be counted.
    pub fn next_frame(&self) -> Result<usize, AllocError>
        ensures { IfOk result (λ frame. frame ≡ suc (length self.now.world.sent)) }
    {
        let mut number = 1usize;
        for frames in self.sent_frames() {
            let Some(next) = number.checked_add(frames.len()) else {
                return Err(AllocError);
            };
            number = next;
        }
        Ok(number)
    }

    /// What the hub of the server at this place plans of a publish of the connection, where the word decides which server
    /// serves each queue name; nothing where the publish is refused. It changes nothing.
    pub fn plan_publish(
        &self,
        node: usize,
        conn: ConnId,
        publication: &Pub,
        word: u64,
    ) -> Result<Option<PublishPlan>, AllocError>
        ensures { IfOk result (λ plan.
            IsPlannedBy self.now node (publication_by conn publication.now word) plan) }
    {
        let _step = self.step;
        self.nodes.plan(node, conn, publication, word)
    }

    /// No publish at a server that is up is refused where the cluster is settled for it ([`World::settled_for`]) and has room
    /// ([`World::room_for`]). It does nothing.
    pub fn takes_where_settled(&self)
        ensures { TakesWhereSettled self.now.cluster self.now.world }
    {
        let _step = self.step;
        let _shards = self.server.shards();
        some_order_is_right();
        settled_worlds_deliver();
        each_event_goes_on();
        tests_are_exact()
    }

    /// A refusal: only the step is counted. Required: some event is refused so.
    fn refuse(&mut self, fault: WorldFault, now: u64) -> Outcome
        requires now { now ≡ self.old.world.step + 1 }
        requires cause { (e : Asked)
            × (world_refusal self.old.cluster self.old.world e ≡ Some fault) }
        ensures told { outcome_of result ≡ Refused fault }
        ensures stepped { (e : Asked)
            → world_refusal self.old.cluster self.old.world e ≡ Some fault
            → IsStepped self.old e (Refused fault) self.new }
    {
        steps_keep_worlds_carried();
        self.step = now;
        Outcome::Refused(fault)
    }

    /// The step of a server that is up and does not refuse it.
    fn act(&mut self, n: usize, event: &Event, now: u64) -> Result<Outcome, AllocError>
        requires now { now ≡ self.old.world.step + 1 }
        requires at { IsFor n (event_of event.now) }
        requires cause { world_refusal self.old.cluster self.old.world (event_of event.now) ≡ None }
        ensures ok { IfOk result (λ outcome.
            IsStepped self.old (event_of event.now) (outcome_of outcome) self.new) }
        ensures err { OnErr result (self.new ≡ self.old) }
    {
        steps_keep_worlds_carried();
        carried_lives_are_open();
        puts_are_placed();
        new_entries_were_put();
        self.lists.make_room()?;
        let asked = asked_by(event, &self.lists.sent);
        let Made { inc, noted, did } = match self.nodes.step(n, &asked, now) {
            Ok(made) => made,
            Err(error) => return Err(error),
        };
        let acted = Acted {
            step: now,
            node: n,
            inc,
        };
        let answer = self.lists.keep(acted, noted, did);
        self.step = now;
        Ok(Outcome::Done(answer))
    }

    /// An event for a server that has to be up.
    fn ask(&mut self, n: usize, event: &Event, now: u64) -> Result<Outcome, AllocError>
        requires now { now ≡ self.old.world.step + 1 }
        requires at { IsFor n (event_of event.now) }
        ensures ok { IfOk result (λ outcome.
            IsStepped self.old (event_of event.now) (outcome_of outcome) self.new) }
        ensures err { OnErr result (self.new ≡ self.old) }
    {
        let asked = asked_by(event, &self.lists.sent);
        match self.nodes.fault(n, &asked) {
            Some(fault) => Ok(self.refuse(fault, now)),
            None => self.act(n, event, now),
        }
    }

    /// The server at the place starts. Required: that is not refused.
    fn bring_up(&mut self, n: usize, inc: Incarnation, now: u64) -> Result<Outcome, AllocError>
        requires now { now ≡ self.old.world.step + 1 }
        requires cause { world_refusal self.old.cluster self.old.world (Start n inc) ≡ None }
        ensures ok { IfOk result (λ outcome.
            IsStepped self.old (Start n inc) (outcome_of outcome) self.new) }
        ensures err { OnErr result (self.new ≡ self.old) }
    {
        steps_keep_worlds_carried();
        let _first = inc.get();
        self.lists.make_start_room()?;
        let Some(server) = server_of(self.alloc, &self.server, n, inc)? else {
            // required: there is such a place
            unreachable!()
        };
        let node = match Node::new(self.alloc, server) {
            Ok(node) => node,
            Err(error) => return Err(error),
        };
        self.lists.add_start(n, inc);
        self.nodes.put(n, Some(node));
        self.step = now;
        Ok(Outcome::Done(Answer::Nothing))
    }

    /// The server at the place starts, unless that is refused.
    fn start(&mut self, n: usize, inc: Incarnation, now: u64) -> Result<Outcome, AllocError>
        requires now { now ≡ self.old.world.step + 1 }
        ensures ok { IfOk result (λ outcome.
            IsStepped self.old (Start n inc) (outcome_of outcome) self.new) }
        ensures err { OnErr result (self.new ≡ self.old) }
    {
        match start_fault(&self.nodes, &self.lists, n, inc) {
            Some(fault) => Ok(self.refuse(fault, now)),
            None => self.bring_up(n, inc, now),
        }
    }

    /// The server at the place stops, and its subscriptions close. Required: that is not refused. Takes no
    /// memory.
    fn take_down(&mut self, n: usize, now: u64) -> Outcome
        requires now { now ≡ self.old.world.step + 1 }
        requires cause { world_refusal self.old.cluster self.old.world (Stop n) ≡ None }
        ensures { IsStepped self.old (Stop n) (outcome_of result) self.new }
    {
        steps_keep_worlds_carried();
        carried_lives_are_open();
        let Some(inc) = self.nodes.inc_at(n) else {
            // required: a server is up there
            unreachable!()
        };
        let acted = Acted {
            step: now,
            node: n,
            inc,
        };
        self.lists.close_all(acted);
        self.nodes.put(n, None);
        self.step = now;
        Outcome::Done(Answer::Nothing)
    }

    /// The server at the place stops, unless that is refused. Takes no memory.
    fn stop(&mut self, n: usize, now: u64) -> Outcome
        requires now { now ≡ self.old.world.step + 1 }
        ensures { IsStepped self.old (Stop n) (outcome_of result) self.new }
    {
        match stop_fault(&self.nodes, n) {
            Some(fault) => self.refuse(fault, now),
            None => self.take_down(n, now),
        }
    }

    /// One event: a step of the exact cluster, with its outcome.
    ///
    /// Refused with [`WorldFault::NoSuch`] where there is no such server; a start then with
    /// [`WorldFault::NodeUp`] and [`WorldFault::UsedIncarnation`], and what is for a server that has to be up
    /// with [`WorldFault::NodeDown`], then with [`WorldFault::NoSuch`] where there is no frame of that kind with
    /// its number, and then as the server refuses it ([`Node::step`]). A refusal is counted as a step, and
    /// changes nothing else. Want of memory is no step, and leaves all as it was; it is also told once `u64::MAX`
    /// steps were made.
    pub fn step(&mut self, event: &Event) -> Result<Outcome, AllocError>
        ensures ok { IfOk result (λ outcome.
            IsStepped self.old (event_of event.now) (outcome_of outcome) self.new) }
        ensures err { OnErr result (self.new ≡ self.old) }
    {
        if self.step == u64::MAX {
            return Err(AllocError);
        }
        let now = self.step + 1;
        match event {
            Event::Start { node, inc } => self.start(*node, *inc, now),
            Event::Stop { node } => Ok(self.stop(*node, now)),
            Event::Receive { node, .. } => self.ask(*node, event, now),
            Event::OnInfo { node, .. } => self.ask(*node, event, now),
            Event::OnConnect { node, .. } => self.ask(*node, event, now),
            Event::At { node, .. } => self.ask(*node, event, now),
        }
    }

    /// The steps of events in turn, up to the first for which memory is wanting.
    fn make(&mut self, events: &[Event]) -> Result<Vec<Outcome>, AllocError>
        ensures ok { IfOk result (λ outcomes.
            Ran self.old (map event_of events.now) (map outcome_of outcomes.items) self.new) }
        ensures err { OnErr result (IsPart self.old (map event_of events.now) self.new) }
    {
        let mut outcomes = Vec::new(self.alloc);
        for event in events {
            if let Err(error) = outcomes.reserve(1) {
                return Err(error);
            }
            let outcome = match self.step(event) {
                Ok(outcome) => outcome,
                Err(error) => return Err(error),
            };
            outcomes.push_reserved(outcome);
        }
        Ok(outcomes)
    }

    /// The steps of an event and of those behind it in turn, up to the first for which memory is wanting.
    fn make_behind(&mut self, first: &Event, rest: &[Event]) -> Result<Delivery, AllocError>
        ensures ok { IfOk result (λ made.
            Ran self.old (event_of first.now ∷ map event_of rest.now) (outcomes_in made) self.new) }
        ensures err { OnErr result
            (IsPart self.old (event_of first.now ∷ map event_of rest.now) self.new) }
    {
        let published = match self.step(first) {
            Ok(outcome) => outcome,
            Err(error) => return Err(error),
        };
        let worked = match self.make(rest) {
            Ok(outcomes) => outcomes,
            Err(error) => return Err(error),
        };
        Ok(Delivery { published, worked })
    }

    /// A publish of a connection at the server of this place, and then the events of `order` in turn: a run of the exact cluster.
    /// The word decides which server serves each queue name. (NATS documentation, "Queue Groups".)
    ///
    /// Where the cluster was settled for the subject ([`World::settled_for`]) and had room ([`World::room_for`]), where the publication may
    /// come back to its own connection, and where `order` is the work that it makes (at its own server each shard begins its job,
    /// claims each of its queue names and ends it; at each server that a frame is owed the same behind the frame), each plain
    /// subscription that was open and matches has the message once, wherever it is, and so has each queue name with an open
    /// member that matches; and nothing is refused. The work of a shard stands in its order, and else any order is right.
    ///
    /// Where memory is wanting, the events before it are made, as [`World::run`] says.
    pub fn settled_publish(
        &mut self,
        node: usize,
        conn: ConnId,
        publication: &Pub,
        word: u64,
        order: &[Event],
    ) -> Result<Delivery, AllocError>
        ensures ok { IfOk result (λ made.
            Ran self.old
            (At node (Publish (record { conn = conn; publication = publication.now; word = word }))
            ∷ map event_of order.now)
            (outcomes_in made) self.new) }
        ensures delivers { IfOk result (λ made.
            GivesOnce self.old node
            (record { conn = conn; publication = publication.now; word = word })
            (map event_of order.now) (outcomes_in made) self.new) }
        ensures err { OnErr result (IsPart self.old
            (At node (Publish (record { conn = conn; publication = publication.now; word = word }))
            ∷ map event_of order.now)
            self.new) }
    {
        let _step = self.step;
        carried_worlds_deliver();
        let message = match publication.message.try_clone() {
            Ok(message) => message,
            Err(error) => return Err(error),
        };
        let echo = publication.echo;
        let publication = Pub { message, echo };
        let event = OwnEvent::Publish {
            conn,
            publication,
            word,
        };
        self.make_behind(&Event::At { node, event }, order)
    }

    /// Events in turn: a run of the exact cluster, with an outcome for each. Where memory is wanting, the events
    /// before it are made, and the lists are those of these. Either way the headline holds of the lists, and
    /// what it rests on, as [`World::keeps_headline`] says.
    pub fn run(&mut self, events: &[Event]) -> Result<Vec<Outcome>, AllocError>
        ensures ok { IfOk result (λ outcomes.
            Ran self.old (map event_of events.now) (map outcome_of outcomes.items) self.new) }
        ensures err { OnErr result (IsPart self.old (map event_of events.now) self.new) }
        ensures headline { ∥ Headline self.new.world ∥₁ }
        ensures names { ∥ Names self.new.world ∥₁ }
        ensures echo { ∥ EchoIsKept self.new.cluster self.new.world ∥₁ }
        ensures rests { ∥ CameSo self.new.cluster self.new.world ∥₁ }
        ensures sent { ∥ AreSent self.new.world ∥₁ }
        ensures entered { CameBySteps self.new }
    {
        let outcomes = self.make(events);
        self.keeps_headline();
        outcomes
    }
}
