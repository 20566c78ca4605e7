//! A client's connection: what its bytes ask for, asked of its shard and of the hub, which are held with a count of what is asked in a run.

ghost use Rattle.std.specs.Prelude.{◌≡◌, ◌||◌, true, false, length, Ok, IfOk, OnErr, IfErr};
ghost use Rattle.std.specs.Io.KnownBytes.{Keeps};
ghost use Rattle.client_conn.specs.Asks.{first_asking};
ghost use Rattle.client_conn.specs.Feeding.{HasRead};
ghost use Rattle.client_calls.specs.Calls.{attached, detached, IsNotAttached};
ghost use Rattle.node_net.specs.Holds.{served_or_short, next_place, ran_of as ran_behind, RunsTo, RunsAt, Advances, AskedOfHub, OnlyIfPublished};
ghost use Rattle.node_net.specs.Holds.{names_of, Pops, Closes, KeepsPlace};
ghost use Rattle.std.specs.Result.{is_ok};
ghost use Rattle.node_net.specs.declared.client_link.Place.TheVariants.{Shard, Hub};
ghost use Rattle.node_net.specs.declared.limits.TheConstants.{SHARD_RUN};

use crate::limits::SHARD_RUN;
use crate::runs::{Ran, RunOutcome, cost_of};
use client_calls::{ClientCalls, ClientLink as Calls, Outcome, Served};
use client_conn::{ReadFault, Refusal};
use client_frames::{ErrText, ReplyFrame, ServerInfo};
use publication_runs::LentRun;
use rand_core::utils::NextWord;
use rand_pcg::Pcg64;
use server_calls::{HubCalls, ServerCalls, ShardCalls};
use std::alloc::{AllocError, Global};
use std::collections::BTreeSet;
use std::sync::Wait;
use subj::{ConnId, Failure, Key, Pub, SUBSCRIPTIONS, Sid, WINDOW};
use wire_cut::Source;

/// What a client calls its open subscriptions, but for those that end by themselves (`UNSUB` with a maximum), and those for which there was
/// no memory here. A hint by which many are closed some at a time.
#[derive(Drop)]
pub(crate) struct Sids {
    alloc: Global,
    texts: BTreeSet<Vec<u8>>,
}

impl Sids {
    /// There are none.
    pub fn new(alloc: Global) -> Sids {
        Sids {
            alloc,
            texts: BTreeSet::new(alloc),
        }
    }

    /// How many there are.
    pub fn len(&self) -> usize
        ensures { result ≡ length (names_of self.now) }
    {
        self.texts.len()
    }

    /// One more is open. Of no more than a server has in all is it kept what they are called.
    fn add(&mut self, sid: &Sid) {
        if self.texts.len() as u64 >= SUBSCRIPTIONS {
            return;
        }
        if let Ok(text) = Vec::from_slice(self.alloc, sid.bytes()) {
            let _ = self.texts.insert(text);
        }
    }

    /// One is closed, or ends by itself.
    fn lose(&mut self, sid: &Sid) {
        self.texts.remove(sid.bytes());
    }

    /// Takes the last of them out. None where there is none, and for want of memory.
    fn pop(&mut self) -> Option<Sid>
        ensures { Pops (names_of self.old) result (names_of self.new) }
    {
        let text = self.texts.pop_last()?;
        Sid::read(self.alloc, &text).ok()
    }
}

/// How much was put for the client itself, with an answer to what came to this; none where it is not answered.
fn replied_after(replied: usize, outcome: Outcome) -> usize {
    match outcome {
        Outcome::Done | Outcome::Refused(_) => replied.saturating_add(cost_of(0)),
        Outcome::Shut | Outcome::Short | Outcome::Elsewhere => replied,
    }
}

/// As how many bytes a publication counts that came to this; one that was not handed on counts as none.
fn issued_by(publication: &Pub, outcome: Outcome) -> usize {
    match outcome {
        Outcome::Done => cost_of(publication.message.whole().len()),
        _ => 0,
    }
}

/// Notes what a client calls a subscription, where it was opened.
fn note_opened(sids: &mut Sids, sid: &Sid, outcome: Outcome) {
    if outcome == Outcome::Done {
        sids.add(sid);
    }
}

/// A shard that is held, what a client calls its subscriptions, and how much was put for the client itself.
#[derive(Drop)]
pub(crate) struct ShardTally<S: ShardCalls> {
    shard: S,
    sids: Sids,
    so_far: RunOutcome,
}

impl<S: ShardCalls> ShardTally<S> {
    /// Nothing was asked.
    pub fn new(shard: S, sids: Sids) -> ShardTally<S>
        ensures { result.shard ≡ shard }
    {
        ShardTally {
            shard,
            sids,
            so_far: RunOutcome::of(Ran::Goes),
        }
    }

    /// What was asked, in a run that came to this.
    fn run(&self, end: Ran) -> RunOutcome
        ensures { result.end ≡ end }
    {
        let mut run = self.so_far;
        run.end = end;
        run.has_deltas = !run.is_empty && self.shard.has_deltas();
        run
    }
}

impl<S: ShardCalls> ClientCalls for ShardTally<S> {
    ghost made = { λ before called after. S.made before.shard called after.shard };

    fn attach(&mut self) -> Result<ConnId, Failure<Refusal>> {
        self.shard.attach()
    }

    fn reply(&mut self, conn: ConnId, frame: &ReplyFrame) -> Outcome {
        let outcome = self.shard.reply(conn, frame);
        self.so_far.is_empty = false;
        self.so_far.replied = replied_after(self.so_far.replied, outcome);
        outcome
    }

    fn set_headers(&mut self, conn: ConnId, on: bool) -> Outcome {
        let outcome = self.shard.set_headers(conn, on);
        self.so_far.is_empty = false;
        self.so_far.replied = replied_after(self.so_far.replied, outcome);
        outcome
    }

    fn shut(&mut self, conn: ConnId, text: ErrText) -> Outcome {
        let outcome = self.shard.shut(conn, text);
        self.so_far.is_empty = false;
        self.so_far.is_refused = outcome == Outcome::Shut;
        self.so_far.replied = replied_after(self.so_far.replied, outcome);
        outcome
    }

    fn subscribe(&mut self, conn: ConnId, key: &Key, sid: &Sid) -> Outcome {
        let outcome = self.shard.subscribe(conn, key, sid);
        self.so_far.is_empty = false;
        note_opened(&mut self.sids, sid, outcome);
        self.so_far.replied = replied_after(self.so_far.replied, outcome);
        outcome
    }

    fn unsubscribe(&mut self, conn: ConnId, sid: &Sid, max: Option<u64>) -> Outcome {
        let outcome = self.shard.unsubscribe(conn, sid, max);
        self.so_far.is_empty = false;
        self.sids.lose(sid);
        self.so_far.replied = replied_after(self.so_far.replied, outcome);
        outcome
    }

    fn publish(&mut self, conn: ConnId, publication: &Pub) -> Outcome {
        self.shard.publish(conn, publication)
    }

    fn publish_run(&mut self, _conn: ConnId, _run: &mut LentRun<'_>) -> u64 {
        0
    }

    fn detach(&mut self, conn: ConnId) -> Result<(), AllocError> {
        self.shard.detach(conn)
    }
}

/// Draws so many words that are not used: each publication takes one, so that the words of the others do not depend on what is lent.
fn skip_words(words: &mut Pcg64, count: u64) {
    for _word in 0..count {
        let _unused = words.next_word();
    }
}

/// A hub that is held, the words that it is given, and what was published.
#[derive(Drop)]
pub(crate) struct HubTally<H: HubCalls> {
    pub hub: H,
    pub words: Pcg64,
    so_far: RunOutcome,
}

impl<H: HubCalls> HubTally<H> {
    /// Nothing was published.
    pub fn new(hub: H, words: Pcg64) -> HubTally<H>
        ensures { result.hub ≡ hub }
    {
        HubTally {
            hub,
            words,
            so_far: RunOutcome::of(Ran::Goes),
        }
    }

    /// What was published, in a run that came to this.
    fn run(&self, end: Ran) -> RunOutcome
        ensures end { result.end ≡ end }
        ensures empty { result.is_empty ≡ self.now.so_far.is_empty }
    {
        let mut run = self.so_far;
        run.end = end;
        run
    }
}

// A hub has no connections of its own. Where nothing is counted, nothing was published.
impl<H: HubCalls> ClientCalls for HubTally<H> {
    ghost made = { λ before called after.
        AskedOfHub H.published before.hub called after.hub
        × OnlyIfPublished before.hub before.so_far.is_empty after.hub after.so_far.is_empty };

    fn attach(&mut self) -> Result<ConnId, Failure<Refusal>> {
        Err(Failure::Refused(Refusal::Other))
    }

    fn reply(&mut self, _conn: ConnId, _frame: &ReplyFrame) -> Outcome {
        Outcome::Elsewhere
    }

    fn set_headers(&mut self, _conn: ConnId, _on: bool) -> Outcome {
        Outcome::Elsewhere
    }

    fn shut(&mut self, _conn: ConnId, _text: ErrText) -> Outcome {
        Outcome::Elsewhere
    }

    fn subscribe(&mut self, _conn: ConnId, _key: &Key, _sid: &Sid) -> Outcome {
        Outcome::Elsewhere
    }

    fn unsubscribe(&mut self, _conn: ConnId, _sid: &Sid, _max: Option<u64>) -> Outcome {
        Outcome::Elsewhere
    }

    fn publish(&mut self, conn: ConnId, publication: &Pub) -> Outcome {
        let word = self.words.next_word();
        let outcome = self.hub.publish(conn, publication, word);
        self.so_far.count(issued_by(publication, outcome));
        self.so_far.is_empty = false;
        outcome
    }

    fn publish_run(&mut self, conn: ConnId, run: &mut LentRun<'_>) -> u64 {
        let unread = run.left();
        let count = self.hub.publish_run(conn, run);
        if count == 0 {
            return 0;
        }
        skip_words(&mut self.words, count);
        self.so_far
            .count_run(count, unread.saturating_sub(run.left()));
        self.so_far.is_empty = false;
        count
    }

    fn detach(&mut self, _conn: ConnId) -> Result<(), AllocError> {
        Ok(())
    }
}

/// Of whom the next ask is asked first.
#[derive(Clone, Copy, PartialEq, Eq)]
enum Place {
    Shard,
    Hub,
}

/// A client's connection and its place in the server.
#[derive(Drop)]
pub(crate) struct ClientLink {
    pub alloc: Global,
    pub calls: Calls,
    place: Place,
    pub shard: u64,
    pub sids: Sids,
    /// Whether its shard has forgotten it, so that it is a member of nothing.
    pub has_left: bool,
}

/// What a run of calls has come to. A run that ends at what is for another place goes on there.
fn ran_of(served: Served) -> Ran
    ensures { result ≡ ran_behind served }
{
    match served {
        Served::Waits => Ran::Waits,
        Served::Goes | Served::Elsewhere => Ran::Goes,
        Served::Busy => Ran::Busy,
        Served::Short => Ran::Short,
        Served::Over => Ran::Shut,
    }
}

/// Takes all that waits for a client behind what stands there.
fn take_all<S: ShardCalls>(
    shard: &mut S,
    id: ConnId,
    waiting: &mut Vec<u8>,
) -> Result<(), AllocError>
    ensures { S.number shard.new ≡ S.number shard.old }
{
    match shard.take_bytes(id, usize::MAX, waiting) {
        Err(Failure::OutOfMemory) => Err(AllocError),
        _ => Ok(()),
    }
}

/// Closes so many of a client's subscriptions, where it calls so many by a name that is known.
#[tactic(auto, using(crate::proofs::HoldLemmas::no_more, crate::proofs::HoldLemmas::all_closed))]
pub(crate) fn close_some<S: ShardCalls>(shard: &mut S, id: ConnId, sids: &mut Sids, count: u64)
    ensures { Closes S.made id count (names_of sids.old) shard.old (names_of sids.new) shard.new }
{
    for _ in 0..count {
        let Some(sid) = sids.pop() else {
            return;
        };
        let _closed = shard.unsubscribe(id, &sid, None);
    }
}

/// How a run of calls ended: also where there was no memory to read what is asked next.
fn served_of(served: Result<Served, AllocError>) -> Served
    ensures { result ≡ served_or_short served }
{
    match served {
        Ok(served) => served,
        Err(_) => Served::Short,
    }
}

impl ClientLink {
    /// A new client of this shard, which is held: one of whom nothing was read, and who is told first of this server.
    pub fn attach<S: ShardCalls>(
        alloc: Global,
        shard: &mut S,
        server: &ServerInfo,
    ) -> Result<ClientLink, Failure<Refusal>>
        ensures ok { IfOk result (λ link.
            (S.made shard.old (attached (Ok link.calls.id)) shard.new)
            × (link.calls.conn.asking
            ≡ first_asking (record { server = server.now; client_id = link.calls.id }))) }
        ensures shard { IfOk result (λ link.
            (link.shard ≡ S.number shard.old) × (link.has_left ≡ false)) }
        ensures err { IfErr result (λ failure. IsNotAttached S.made shard.old failure shard.new) }
    {
        let number = shard.shard();
        match Calls::attach(alloc, shard, server) {
            Ok(calls) => Ok(ClientLink {
                alloc,
                calls,
                place: Place::Shard,
                shard: number,
                sids: Sids::new(alloc),
                has_left: false,
            }),
            Err(failure) => Err(failure),
        }
    }

    /// Takes all that waits for the client behind what stands there, and has its shard, which is held, forget it.
    pub fn leave_shard<S: ShardCalls>(
        &mut self,
        shard: &mut S,
        waiting: &mut Vec<u8>,
    ) -> Result<(), AllocError>
        ensures ok { IfOk result (λ done.
            (there : _)
            × (S.number there ≡ S.number shard.old)
            × S.made there (detached self.old.calls.id (Ok done)) shard.new) }
        ensures left { self.new ≡ record self.old { has_left = is_ok result || self.old.has_left } }
    {
        take_all(shard, self.calls.id(), waiting)?;
        self.calls.detach(shard)?;
        self.has_left = true;
        Ok(())
    }

    /// Reads once, at most so many bytes.
    pub fn read_from<S: Source>(&mut self, source: &mut S, most: usize) -> Result<usize, ReadFault>
        ensures ok { IfOk result (λ n.
            HasRead self.old.calls.conn.asking self.new.calls.conn.asking (S.remaining source.old)
            (S.remaining source.new) most n) }
        ensures err { OnErr result ((self.new.calls.conn.asking ≡ self.old.calls.conn.asking)
            × Keeps (S.remaining source.old) (S.remaining source.new)) }
        ensures same { (self.new ≡ record self.old { calls = self.new.calls })
            × (self.new.calls.id ≡ self.old.calls.id) }
    {
        self.calls.read_from(source, most)
    }

    /// Does what is asked next: the publications up to another ask under one hold of the hub's lock, or
    /// other asks up to a publication under one hold of the shard's lock.
    pub fn advance<C: ServerCalls, R: Wait>(
        &mut self,
        rt: &R,
        node: C,
        words: &mut Pcg64,
    ) -> RunOutcome
        ensures calls { Advances C.Shard.made C.Shard.number (C.lacks node) C.Hub.published
            C.Hub.pushed self.old.place self.new.place self.old.shard self.old.calls.id result.end
            self.old.calls.conn.asking self.new.calls.conn.asking }
        ensures same { KeepsPlace self.old self.new }
    {
        let before = self.place;
        let run = self.run(rt, node, words);
        if run.is_empty && self.place != before {
            self.run(rt, node, words)
        } else {
            run
        }
    }

    /// A run at the place where the next ask is asked first.
    fn run<C: ServerCalls, R: Wait>(&mut self, rt: &R, node: C, words: &mut Pcg64) -> RunOutcome
        ensures calls { RunsAt C.Shard.made C.Shard.number (C.lacks node) C.Hub.published
            C.Hub.pushed self.old.place self.new.place self.old.shard self.old.calls.id result.end
            self.old.calls.conn.asking self.new.calls.conn.asking }
        ensures same { KeepsPlace self.old self.new }
    {
        match self.place {
            Place::Shard => self.ask(rt, node),
            Place::Hub => self.publish(rt, node, words),
        }
    }

    /// Publishes to the hub, which is held, what is asked up to another ask.
    pub fn publish_held<H: HubCalls>(&mut self, tally: &mut HubTally<H>) -> RunOutcome
        ensures calls { RunsTo (AskedOfHub H.published) self.old.calls.id WINDOW self.old.place
            Shard self.new.place result.end self.old.calls.conn.asking tally.old.hub
            self.new.calls.conn.asking tally.new.hub }
        ensures empty { result.is_empty ≡ true → tally.new.hub ≡ tally.old.hub }
        ensures same { KeepsPlace self.old self.new }
    {
        let served = served_of(self.calls.serve(tally, WINDOW));
        self.turn_to(Place::Shard, served);
        tally.run(ran_of(served))
    }

    /// Asks its shard, which is held, up to a publication.
    pub fn ask_held<S: ShardCalls>(&mut self, tally: &mut ShardTally<S>) -> RunOutcome
        ensures calls { RunsTo S.made self.old.calls.id SHARD_RUN self.old.place Hub self.new.place
            result.end self.old.calls.conn.asking tally.old.shard self.new.calls.conn.asking
            tally.new.shard }
        ensures same { KeepsPlace self.old self.new }
    {
        let served = served_of(self.calls.serve(tally, SHARD_RUN));
        self.turn_to(Place::Hub, served);
        std::mem::swap(&mut self.sids, &mut tally.sids);
        tally.run(ran_of(served))
    }

    /// The next ask is asked first at this place, where a run has ended at one that is for elsewhere.
    fn turn_to(&mut self, place: Place, served: Served)
        ensures { self.new ≡ record self.old { place = next_place self.old.place place served } }
    {
        if served == Served::Elsewhere {
            self.place = place;
        }
    }
}
