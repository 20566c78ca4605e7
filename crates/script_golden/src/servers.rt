//! The servers of a case: each over both races; and clusters, in which lists of events are made in one call. What comes of a step is told and let go
//! at once, and no call here has a contract: what a step does is proved where the step is made, and whoever were told it once more would be proved
//! with all of it in hand.

use crate::events::{count, event_of, place_of};
use claim_cells::CellsRace;
use claim_race::{PlainRace, Race};
use cluster_world::{Delivery, Event, Outcome, World, WorldFault};
use golden::{Answer, Words, message_of, server_of};
use node_core::{Answer as Came, Did, Node, Refused};
use node_law::{NodeEvent, NodeFault};
use outbox::Entry;
use route_session::SessionId;
use route_values::{Body, RouteFrame};
use std::alloc::{AllocError, Global};
use sub_trie::TrieTable;
use subj::{ConnId, Failure, Pub};

/// What is seen of a step that was done.
#[derive(Clone, Copy)]
struct Seen {
    /// How many entries it put.
    entries: usize,
    /// How many frames it put or sent.
    frames: usize,
    /// How many connections it shut.
    shut: usize,
    /// How many subscriptions it closed.
    ended: usize,
    /// For how many queue names its first frame is, where that has a message.
    first: Option<usize>,
    /// The same of its second frame.
    second: Option<usize>,
}

/// For how many queue names the frame is, where it has a message.
fn names_in(frame: Option<&RouteFrame>) -> Option<usize> {
    let Some(RouteFrame::Numbered(frame)) = frame else {
        return None;
    };
    match frame.body() {
        Body::Msg { queues, .. } => Some(queues.as_slice().len()),
        _ => None,
    }
}

/// What is seen of the step; none where it was refused.
fn seen_in(did: &Result<Did, Refused>) -> Option<Seen> {
    match did {
        Ok(did) => Some(Seen {
            entries: did.entries.len(),
            frames: did.frames.len(),
            shut: did.shut.len(),
            ended: did.ended.len(),
            first: names_in(did.frames.get(0)),
            second: names_in(did.frames.get(1)),
        }),
        Err(_) => None,
    }
}

/// Tells two numbers, each behind its word.
fn tell_two(answer: &mut Answer, first: &str, number: u64, second: &str, other: u64) -> Option<()> {
    answer.tell_number(first, number);
    answer.tell_number(second, other)
}

/// Tells what a step put and closed.
fn put_told(answer: &mut Answer, seen: Option<Seen>) -> Option<()> {
    let Some(seen) = seen else {
        return answer.tell("no step");
    };
    tell_two(
        answer,
        "entries ",
        seen.entries as u64,
        ", frames ",
        seen.frames as u64,
    );
    tell_two(
        answer,
        ", shut ",
        seen.shut as u64,
        ", ended ",
        seen.ended as u64,
    )
}

/// Tells for how many queue names the first two frames of a step are.
fn names_told(answer: &mut Answer, seen: Option<Seen>) -> Option<()> {
    let Some(seen) = seen else {
        return answer.tell("no step");
    };
    match (seen.first, seen.second) {
        (Some(first), Some(second)) => tell_two(answer, "", first as u64, " and ", second as u64),
        _ => answer.tell("fewer than two messages"),
    }
}

/// Tells what a collect or a drain comes to.
fn collected_told(answer: &mut Answer, changes: usize, frames: usize, cut: usize) -> Option<()> {
    tell_two(
        answer,
        "changes ",
        changes as u64,
        ", frames ",
        frames as u64,
    );
    answer.tell_number(", cut ", cut as u64)
}

/// Tells that a session is kept.
fn kept_told(answer: &mut Answer, instead_of: Option<SessionId>) -> Option<()> {
    match instead_of {
        None => answer.tell("kept"),
        Some(session) => answer.tell_number("kept instead of ", session.get()),
    }
}

/// Tells an answer of the hub or the sessions, or none.
fn hub_told(answer: &mut Answer, came: &Came) -> Option<()> {
    match came {
        Came::Issued { turn, frames } => {
            tell_two(answer, "turn ", turn.get(), ", frames ", *frames as u64)
        }
        Came::Routed(turn) => answer.tell_number("routed ", turn.get()),
        Came::Heard(mark) => answer.tell_number("heard ", *mark),
        Came::Collected {
            changes,
            frames,
            cut,
        } => collected_told(answer, *changes, *frames, cut.len()),
        Came::OnSession(session) => answer.tell_number("session ", session.get()),
        Came::Kept { instead_of } => kept_told(answer, *instead_of),
        Came::TakenFrames(frames) => answer.tell_number("frames ", frames.len() as u64),
        _ => answer.tell("ok"),
    }
}

/// Tells an answer.
fn answer_told(answer: &mut Answer, came: &Came) -> Option<()> {
    match came {
        Came::Attached(conn) => answer.tell_number("conn ", conn.get()),
        Came::Opened(sub) => tell_two(answer, "opened ", sub.shard, ".", sub.serial),
        Came::AlreadyOpen => answer.tell("already open"),
        Came::Began { placed, shut } => {
            tell_two(answer, "placed ", *placed as u64, ", shut ", *shut as u64)
        }
        Came::Won(sub) => tell_two(answer, "won ", sub.shard, ".", sub.serial),
        Came::Lost => answer.tell("lost"),
        Came::Nobody => answer.tell("nobody"),
        Came::TakenEntries(entries) => answer.tell_number("entries ", entries.len() as u64),
        came => hub_told(answer, came),
    }
}

/// What is told of a call for which there was no memory.
const NO_MEMORY: &str = "no memory";

/// Tells a refusal.
fn refusal_told(answer: &mut Answer, why: Refused) -> Option<()> {
    match why.number() {
        Some(number) => answer.tell_refusal(number),
        None => answer.tell(NO_MEMORY),
    }
}

/// Tells what came of a step.
fn outcome_told(answer: &mut Answer, did: &Result<Did, Refused>) -> Option<()> {
    match did {
        Ok(did) => answer_told(answer, &did.answer),
        Err(why) => refusal_told(answer, *why),
    }
}

/// Tells what came of the steps of a list.
fn outcomes_told(answer: &mut Answer, outcomes: &[Result<Did, Refused>]) -> Option<()> {
    let mut between = "";
    for outcome in outcomes {
        answer.tell(between);
        outcome_told(answer, outcome)?;
        between = "; ";
    }
    Some(())
}

/// The number of the refusal; none where the step was done.
fn number_in(did: &Result<Did, Refused>) -> Option<u16> {
    match did {
        Ok(_) => None,
        Err(why) => why.number(),
    }
}

/// Tells what came of a step whose refusal was foretold so.
fn step_told(answer: &mut Answer, did: &Result<Did, Refused>, foretold: Option<u16>) -> Option<()> {
    outcome_told(answer, did)?;
    if number_in(did) == foretold {
        return Some(());
    }
    answer.tell(", and not as foretold")
}

/// Tells the bytes of the entries.
fn entries_told(answer: &mut Answer, alloc: Global, entries: &[Entry]) -> Option<()> {
    let mut bytes = Vec::new(alloc);
    for entry in entries {
        entry.append_to(&mut bytes).ok()?;
    }
    answer.tell_bytes("", &bytes)
}

/// What a server is asked.
#[derive(Clone, Copy)]
enum Ask<'a> {
    /// To make the step of an event.
    Step(&'a NodeEvent),
    /// To make the steps of a list.
    Run(&'a [NodeEvent]),
    /// What the last step put and closed.
    Put,
    /// For how many queue names the first two frames of the last step are.
    Names,
    /// For the bytes of the first entries that wait for a connection.
    Text { conn: u64, entries: usize },
}

/// A server over the trie of subscriptions.
#[derive(Drop)]
struct Machine<R: Race> {
    alloc: Global,
    node: Node<TrieTable, R>,
    /// What is seen of the last step; none where it was refused.
    seen: Option<Seen>,
}

impl<R: Race> Machine<R> {
    /// The server at this place, just started in its incarnation 5, with so many shards.
    fn start(alloc: Global, place: usize, shards: u64) -> Option<Machine<R>> {
        let server = server_of(alloc, "n1,n2,n3", place, 5, shards)?;
        let node = Node::new(alloc, server).ok()?;
        Some(Machine {
            alloc,
            node,
            seen: None,
        })
    }

    /// The number of the refusal that the event will have.
    fn foretold(&self, event: &NodeEvent) -> Option<u16> {
        match self.node.fault(event) {
            Some(fault) => Some(fault.number()),
            None => None,
        }
    }

    /// What comes of the step of the event.
    fn did(&mut self, event: &NodeEvent) -> Result<Did, Refused> {
        self.node.step(event)
    }

    /// Makes the step of the event.
    fn step(&mut self, answer: &mut Answer, event: &NodeEvent) -> Option<()> {
        let foretold = self.foretold(event);
        let did = self.did(event);
        self.seen = seen_in(&did);
        let is_told = step_told(answer, &did, foretold);
        drop(did);
        is_told
    }

    /// What comes of the steps of a list.
    fn outcomes(&mut self, events: &[NodeEvent]) -> Result<Vec<Result<Did, Refused>>, AllocError> {
        self.node.run(events)
    }

    /// Makes the steps of a list of events. A refusal among them ends nothing.
    fn run(&mut self, answer: &mut Answer, events: &[NodeEvent]) -> Option<()> {
        self.seen = None;
        let outcomes = self.outcomes(events).ok()?;
        outcomes_told(answer, &outcomes)
    }

    /// The first entries that wait for a connection.
    fn taken(&mut self, conn: u64, entries: usize) -> Result<Vec<Entry>, Failure<NodeFault>> {
        self.node.take(ConnId::new(conn), entries)
    }

    /// Takes the bytes of the first entries that wait for a connection.
    fn text(&mut self, answer: &mut Answer, conn: u64, entries: usize) -> Option<()> {
        match self.taken(conn, entries) {
            Ok(entries) => entries_told(answer, self.alloc, &entries),
            Err(Failure::Refused(_)) => answer.tell("no entries"),
            Err(Failure::OutOfMemory) => answer.tell(NO_MEMORY),
        }
    }

    /// Answers what it is asked.
    fn told(&mut self, answer: &mut Answer, ask: Ask<'_>) -> Option<()> {
        match ask {
            Ask::Step(event) => self.step(answer, event),
            Ask::Run(events) => self.run(answer, events),
            Ask::Put => put_told(answer, self.seen),
            Ask::Names => names_told(answer, self.seen),
            Ask::Text { conn, entries } => self.text(answer, conn, entries),
        }
    }

    /// The same; once more where there was no memory for it, which has changed nothing.
    fn surely_told(&mut self, answer: &mut Answer, ask: Ask<'_>) -> Option<()> {
        self.told(answer, ask)?;
        if answer.as_str() != NO_MEMORY {
            return Some(());
        }
        answer.clear();
        self.told(answer, ask)
    }
}

/// How events are made.
#[derive(Clone, Copy)]
enum Manner {
    /// One by one. It is asked as well whether they are refused.
    Step,
    /// All at once, when the list is run.
    List,
}

/// A server, once with each race.
#[derive(Drop)]
struct Stand {
    alloc: Global,
    place: usize,
    plain: Machine<PlainRace>,
    cells: Machine<CellsRace>,
    manner: Manner,
    /// The events that wait for the run of the list.
    list: Vec<NodeEvent>,
}

/// Asks both, and tells the answer of both, or both answers where they are not the same.
fn both_told(
    answer: &mut Answer,
    alloc: Global,
    plain: &mut Machine<PlainRace>,
    cells: &mut Machine<CellsRace>,
    ask: Ask<'_>,
) -> Option<()> {
    let mut other = Answer::new(alloc);
    plain.surely_told(answer, ask)?;
    cells.surely_told(&mut other, ask)?;
    if answer.as_str() == other.as_str() {
        return Some(());
    }
    answer.tell(", and on threads ");
    answer.tell(other.as_str())
}

impl Stand {
    /// The server at this place, just started, with so many shards; none where there cannot be so many.
    fn start(alloc: Global, place: usize, shards: u64) -> Option<Stand> {
        let plain = Machine::start(alloc, place, shards)?;
        let Some(cells) = Machine::start(alloc, place, shards) else {
            drop(plain);
            return None;
        };
        Some(Stand {
            alloc,
            place,
            plain,
            cells,
            manner: Manner::Step,
            list: Vec::new(alloc),
        })
    }

    /// Asks both.
    fn ask(&mut self, answer: &mut Answer, ask: Ask<'_>) -> Option<()> {
        both_told(answer, self.alloc, &mut self.plain, &mut self.cells, ask)
    }

    /// The event waits for the run of the list.
    fn keep(&mut self, answer: &mut Answer, event: NodeEvent) -> Option<()> {
        self.list.push(event).ok()?;
        answer.tell("kept for the run")
    }

    /// Makes the event, as events are made now.
    fn make(&mut self, answer: &mut Answer, event: NodeEvent) -> Option<()> {
        let ask = match self.manner {
            Manner::Step => Ask::Step(&event),
            Manner::List => return self.keep(answer, event),
        };
        let is_told = self.ask(answer, ask);
        drop(event);
        is_told
    }

    /// Makes the event of this name.
    fn event(&mut self, answer: &mut Answer, name: &str, words: &Words<'_>) -> Option<()> {
        match event_of(self.alloc, name, words) {
            Some(event) => self.make(answer, event),
            None => answer.tell("no such event"),
        }
    }

    /// From now on events are made so.
    fn turn_to(&mut self, answer: &mut Answer, manner: &str) -> Option<()> {
        self.manner = match manner {
            "step" => Manner::Step,
            "list" => Manner::List,
            _ => return answer.tell("no such manner"),
        };
        Some(())
    }

    /// Makes the events of the list.
    fn run(&mut self, answer: &mut Answer) -> Option<()> {
        let list = Ask::Run(&self.list);
        both_told(answer, self.alloc, &mut self.plain, &mut self.cells, list)?;
        self.list.clear();
        Some(())
    }

    /// Makes the call of this name.
    fn call(&mut self, answer: &mut Answer, name: &str, words: &Words<'_>) -> Option<()> {
        match name {
            "by" => self.turn_to(answer, words.at(0)),
            "run" => self.run(answer),
            "put" => self.ask(answer, Ask::Put),
            "names" => self.ask(answer, Ask::Names),
            "text" => {
                let (conn, entries) = (count(words.at(0)), count(words.at(1)) as usize);
                self.ask(answer, Ask::Text { conn, entries })
            }
            _ => self.event(answer, name, words),
        }
    }
}

/// The servers that have started.
#[derive(Drop)]
pub struct Servers {
    alloc: Global,
    started: Vec<Stand>,
}

impl Servers {
    /// None has started.
    pub fn new(alloc: Global) -> Servers {
        Servers {
            alloc,
            started: Vec::new(alloc),
        }
    }

    /// None has started: the next case begins.
    pub fn renew(&mut self) {
        self.started.clear();
    }

    /// Where the server at this place stands, if it has started.
    fn index_of(&self, place: usize) -> Option<usize> {
        for (index, stand) in self.started.iter().enumerate() {
            if stand.place == place {
                return Some(index);
            }
        }
        None
    }

    /// Starts the server at this place, once in a case.
    fn start(&mut self, answer: &mut Answer, place: usize, shards: u64) -> Option<()> {
        if self.index_of(place).is_some() {
            return answer.tell("it has started");
        }
        match Stand::start(self.alloc, place, shards) {
            Some(stand) => self.started.push(stand).ok(),
            None => answer.tell("no server"),
        }
    }

    /// Makes a call of the server at this place.
    fn ask(
        &mut self,
        answer: &mut Answer,
        place: usize,
        call: &str,
        words: &Words<'_>,
    ) -> Option<()> {
        let index = self.index_of(place).unwrap_or(usize::MAX);
        match self.started.get_mut(index) {
            Some(stand) => stand.call(answer, call, words),
            None => answer.tell("no server"),
        }
    }

    /// Makes a call of the server of this name.
    fn made(
        &mut self,
        answer: &mut Answer,
        name: &str,
        call: &str,
        words: &Words<'_>,
    ) -> Option<()> {
        let place = place_of(name)?;
        match call {
            "start" => self.start(answer, place, count(words.at(0))),
            _ => self.ask(answer, place, call, words),
        }
    }

    /// Makes a call of the server of this name; once more where it was not made, for want of memory or since a word of it names nothing.
    pub fn call(
        &mut self,
        answer: &mut Answer,
        name: &str,
        call: &str,
        words: &Words<'_>,
    ) -> Option<()> {
        self.made(answer, name, call, words)?;
        if !matches!(answer.as_str(), "no server" | "no such event") {
            return Some(());
        }
        answer.clear();
        self.made(answer, name, call, words)
    }
}

/// A cluster, as the router has it.
type Cluster = World<TrieTable, CellsRace>;

/// The cluster of these servers with so many shards each: all are down.
fn cluster(alloc: Global, words: &Words<'_>) -> Option<Cluster> {
    let shards = words.number(1);
    let server = server_of(alloc, words.at(0), 0, 1, shards)?;
    let names = Vec::from_slice(alloc, server.names()).ok()?;
    World::new(alloc, names, shards).ok()?
}

/// So many stops of the server at this place.
fn stops(alloc: Global, node: usize, count: u64) -> Result<Vec<Event>, AllocError> {
    let mut events = Vec::new(alloc);
    for _stop in 0..count {
        events.push(Event::Stop { node })?;
    }
    Ok(events)
}

/// Whether an outcome is the refusal of what is for a server that is down.
fn is_down(outcome: &Outcome) -> bool {
    matches!(outcome, Outcome::Refused(WorldFault::NodeDown))
}

/// Tells how many of these outcomes are that.
fn down_told(answer: &mut Answer, outcomes: &[Outcome]) -> Option<()> {
    let mut count = 0u64;
    for outcome in outcomes {
        count = count.saturating_add(u64::from(is_down(outcome)));
    }
    tell_two(answer, "", count, " of ", outcomes.len() as u64);
    answer.tell(" refused 80")
}

/// Makes the events in one list.
fn run(answer: &mut Answer, cluster: &mut Cluster, events: &[Event]) -> Option<()> {
    let outcomes = cluster.run(events).ok()?;
    down_told(answer, &outcomes)
}

/// Tells what came of a publish and of the events behind it.
fn delivery_told(answer: &mut Answer, delivery: &Delivery) -> Option<()> {
    answer.tell_number("", u64::from(is_down(&delivery.published)));
    answer.tell(" of 1 and ");
    down_told(answer, &delivery.worked)
}

/// What comes of a publish of this payload, and of the events behind it.
fn delivered(
    cluster: &mut Cluster,
    alloc: Global,
    node: usize,
    events: &[Event],
    payload: &str,
) -> Option<Delivery> {
    let publication = Pub {
        message: message_of(alloc, "foo", "", payload)?,
        echo: true,
    };
    let conn = ConnId::new(u64::MAX);
    let delivery = cluster.settled_publish(node, conn, &publication, u64::MAX, events);
    drop(publication);
    delivery.ok()
}

/// Publishes this payload, with the events behind it.
fn publish(
    answer: &mut Answer,
    cluster: &mut Cluster,
    alloc: Global,
    node: usize,
    events: &[Event],
    payload: &str,
) -> Option<()> {
    let delivery = delivered(cluster, alloc, node, events, payload)?;
    let is_told = delivery_told(answer, &delivery);
    drop(delivery);
    is_told
}

/// Makes the events in one list, or behind a publish of this payload at the last server.
fn act_in(
    answer: &mut Answer,
    cluster: &mut Cluster,
    alloc: Global,
    call: &str,
    last: usize,
    events: &[Event],
    payload: &str,
) -> Option<()> {
    match call {
        "run" => run(answer, cluster, events),
        "settled_publish" => publish(answer, cluster, alloc, last, events, payload),
        _ => answer.tell("no such call"),
    }
}

/// Makes a call on a cluster.
fn made_in(
    answer: &mut Answer,
    cluster: &mut Cluster,
    alloc: Global,
    call: &str,
    words: &Words<'_>,
) -> Option<()> {
    let last = cluster.names().len().saturating_sub(1);
    let events = stops(alloc, last, words.number(2)).ok()?;
    act_in(answer, cluster, alloc, call, last, &events, words.at(3))
}

/// `run NAMES|SHARDS|COUNT` makes so many stops of the last of these servers in one list: the servers are down. `settled_publish
/// NAMES|SHARDS|COUNT|PAYLOAD` has a publish at that server before them.
pub fn world_call(answer: &mut Answer, alloc: Global, call: &str, words: &Words<'_>) -> Option<()> {
    let Some(mut cluster) = cluster(alloc, words) else {
        return answer.tell("no cluster");
    };
    let is_told = made_in(answer, &mut cluster, alloc, call, words);
    drop(cluster);
    is_told
}
