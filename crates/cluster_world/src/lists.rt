//! The lists of a cluster, and how a step adds to them.

ghost use Rattle.std.specs.Prelude.{◌≡◌, ◌<◌, ◌++◌, map, OnOk, OnErr, Some, None, true, IfOk};
ghost use Rattle.std.specs.List.{list_any, flat_map};
ghost use Rattle.std.specs.Option.{option_map, option_copied, option_to_list};
ghost use Rattle.std.specs.Vec.{vec_len, vec_capacity};
ghost use Rattle.node_core.specs.InCode.{answer_of};
ghost use Rattle.world_law.specs.Refusals.{is_used};
ghost use Rattle.cluster_world.specs.InCode.{started_of, publication_of, life_of, placements_in, entered_in, items_of, placing_server};
ghost use Rattle.world_law.specs.Play.{placements_put};
ghost use Rattle.cluster_world.specs.Entered.{entered_by};
ghost use Rattle.cluster_world.specs.Adding.{closes, closed_if, opened_lives, published_by, opening_by, AreNoted};
ghost use Rattle.world_law.specs.State.{is_sub};
ghost use Rattle.cluster_world.specs.Value.{listed_of, no_lists, with_start, with_closed, HasRoom, IsAdded};
ghost use Rattle.node_core.specs.Lent.{asked_of};

use crate::records::{Life, LifeId, Placements, Publication, Started};
use node_core::{Answer, ConnEvent, Did, EventRef, OwnEvent};
use route_values::RouteFrame;
use shard_core::Placed;
use std::alloc::{AllocError, Global};
use subj::{ConnId, Incarnation, Key, PubId, Sid, SubId};

/// A step, and the server that makes it.
#[derive(Clone, Copy)]
pub(crate) struct Acted {
    pub(crate) step: u64,
    pub(crate) node: usize,
    pub(crate) inc: Incarnation,
}

/// The lists of what was done, each entry with its step; of entries put and frames sent, a list for each step that put or
/// sent any.
#[derive(Drop)]
pub(crate) struct Lists {
    pub(crate) started: Vec<Started>,
    pub(crate) publications: Vec<Publication>,
    pub(crate) lives: Vec<Life>,
    pub(crate) placements: Vec<Placements>,
    pub(crate) sent: Vec<Vec<RouteFrame>>,
}

/// Whether it is one of these.
fn is_ended(ended: &[SubId], sub: SubId) -> bool
    ensures { result ≡ list_any (is_sub sub) ended.now }
{
    for other in ended {
        if sub.shard == other.shard && sub.serial == other.serial {
            return true;
        }
    }
    false
}

/// The life closes, if it is an open one of the server and one of these, or of all.
fn close_if(life: &mut Life, acted: &Acted, ended: Option<&[SubId]>)
    ensures { life_of life.new
        ≡ closed_if acted.now.step acted.now.node acted.now.inc (option_copied ended.entry)
        (life_of life.old) }
{
    if life.closed.is_none() && life.id.node == acted.node && life.id.inc == acted.inc {
        let closes = match ended {
            None => true,
            Some(ended) => is_ended(ended, life.id.sub),
        };
        if closes {
            life.closed = Some(acted.step);
        }
    }
}

/// Each of the lives of the server closes that is one of these, or of all.
pub(crate) fn close_lives(lives: &mut [Life], acted: &Acted, ended: Option<&[SubId]>)
    ensures { map life_of lives.new
        ≡ map (closed_if acted.now.step acted.now.node acted.now.inc (option_copied ended.entry))
        (map life_of lives.old) }
{
    for i in 0..lives.len() {
        close_if(&mut lives[i], acted, ended);
    }
}

/// The publication is listed. Takes no memory.
fn keep_publication(publications: &mut Vec<Publication>, publication: Option<Publication>)
    requires { vec_len publications.old < vec_capacity publications.old }
    ensures { map publication_of publications.new.items
        ≡ map publication_of publications.old.items
        ++ option_to_list (option_map publication_of publication) }
{
    if let Some(publication) = publication {
        publications.push_reserved(publication);
    }
}

/// The subscription is listed, if the answer tells that it was opened. Takes no memory.
fn keep_life(lives: &mut Vec<Life>, acted: &Acted, opening: Option<Opening>, answer: &Answer)
    requires { vec_len lives.old < vec_capacity lives.old }
    ensures { map life_of lives.new.items
        ≡ map life_of lives.old.items
        ++ opened_lives acted.now.node acted.now.inc acted.now.step opening (answer_of answer.now) }
{
    let Some(Opening { conn, key, sid }) = opening else {
        return;
    };
    let Answer::Opened(sub) = answer else {
        return;
    };
    lives.push_reserved(Life {
        id: LifeId {
            node: acted.node,
            inc: acted.inc,
            sub: *sub,
        },
        conn,
        key,
        sid,
        opened: acted.step,
        closed: None,
    });
}

/// All lives of the server close. Takes no memory.
fn close_all_lives(lives: &mut Vec<Life>, acted: &Acted)
    ensures { map life_of lives.new.items
        ≡ map (closed_if acted.now.step acted.now.node acted.now.inc None)
        (map life_of lives.old.items) }
{
    close_lives(lives, acted, None);
}

/// What a step put is listed, if it put anything. Takes no memory.
#[tactic(auto, using(crate::proofs::Clusters::Finds::flat_more, crate::proofs::Clusters::Finds::no_more))]
fn keep_entries(placements: &mut Vec<Placements>, acted: &Acted, entries: Vec<Placed>)
    requires { vec_len placements.old < vec_capacity placements.old }
    ensures messages { flat_map placements_in placements.new.items
        ≡ flat_map placements_in placements.old.items
        ++ placements_put (placing_server acted.now.node acted.now.inc) acted.now.step
        entries.items }
    ensures entries { flat_map entered_in placements.new.items
        ≡ flat_map entered_in placements.old.items
        ++ map (entered_by acted.now.step acted.now.node acted.now.inc) entries.items }
{
    if entries.is_empty() {
        return;
    }
    placements.push_reserved(Placements {
        step: acted.step,
        node: acted.node,
        inc: acted.inc,
        entries,
    });
}

/// What a step sent is listed, if it sent anything. Takes no memory.
#[tactic(auto, using(crate::proofs::Clusters::Finds::flat_more, crate::proofs::Clusters::Finds::no_more))]
fn keep_frames(sent: &mut Vec<Vec<RouteFrame>>, frames: Vec<RouteFrame>)
    requires { vec_len sent.old < vec_capacity sent.old }
    ensures { flat_map items_of sent.new.items ≡ flat_map items_of sent.old.items ++ frames.items }
{
    if frames.is_empty() {
        return;
    }
    sent.push_reserved(frames);
}

/// What a server's step adds is listed. Gives what the server answers. Takes no memory.
fn keep_all(
    acted: Acted,
    noted: Noted,
    did: Did,
    publications: &mut Vec<Publication>,
    lives: &mut Vec<Life>,
    placements: &mut Vec<Placements>,
    sent: &mut Vec<Vec<RouteFrame>>,
) -> Answer
    requires publications { vec_len publications.old < vec_capacity publications.old }
    requires lives { vec_len lives.old < vec_capacity lives.old }
    requires placements { vec_len placements.old < vec_capacity placements.old }
    requires sent { vec_len sent.old < vec_capacity sent.old }
    ensures answer { result ≡ did.answer }
    ensures publications { map publication_of publications.new.items
        ≡ map publication_of publications.old.items
        ++ option_to_list (option_map publication_of noted.publication) }
    ensures lives { map life_of lives.new.items
        ≡ map (closed_if acted.step acted.node acted.inc (Some did.ended.items))
        (map life_of lives.old.items)
        ++ opened_lives acted.node acted.inc acted.step noted.opening (answer_of did.answer) }
    ensures placements { flat_map placements_in placements.new.items
        ≡ flat_map placements_in placements.old.items
        ++ placements_put (placing_server acted.node acted.inc) acted.step did.entries.items }
    ensures entered { flat_map entered_in placements.new.items
        ≡ flat_map entered_in placements.old.items
        ++ map (entered_by acted.step acted.node acted.inc) did.entries.items }
    ensures sent { flat_map items_of sent.new.items
        ≡ flat_map items_of sent.old.items ++ did.frames.items }
{
    let Noted {
        publication,
        opening,
    } = noted;
    close_lives(lives, &acted, Some(&did.ended));
    keep_life(lives, &acted, opening, &did.answer);
    keep_publication(publications, publication);
    keep_entries(placements, &acted, did.entries);
    keep_frames(sent, did.frames);
    did.answer
}

impl Lists {
    /// Nothing was done.
    pub(crate) fn new(alloc: Global) -> Lists
        ensures { listed_of result ≡ no_lists }
    {
        Lists {
            started: Vec::new(alloc),
            publications: Vec::new(alloc),
            lives: Vec::new(alloc),
            placements: Vec::new(alloc),
            sent: Vec::new(alloc),
        }
    }

    /// Whether the incarnation was started there before.
    pub(crate) fn has_started(&self, node: usize, inc: Incarnation) -> bool
        ensures { result ≡ is_used node inc (listed_of self.now).started }
    {
        was_started(&self.started, node, inc)
    }

    /// Makes one place more for an incarnation that is started.
    pub(crate) fn make_start_room(&mut self) -> Result<(), AllocError>
        ensures same { listed_of self.new ≡ listed_of self.old }
        ensures room { OnOk result (vec_len self.new.started < vec_capacity self.new.started) }
    {
        self.started.reserve(1)?;
        Ok(())
    }

    /// The incarnation was started there. Takes no memory.
    pub(crate) fn add_start(&mut self, node: usize, inc: Incarnation)
        requires { vec_len self.old.started < vec_capacity self.old.started }
        ensures { listed_of self.new ≡ with_start node inc (listed_of self.old) }
    {
        self.started.push_reserved(Started { node, inc });
    }

    /// The server stops: its lives close. Takes no memory.
    pub(crate) fn close_all(&mut self, acted: Acted)
        ensures { listed_of self.new ≡ with_closed acted (listed_of self.old) }
    {
        close_all_lives(&mut self.lives, &acted);
    }

    /// Makes one place more in each list that a server's step adds to.
    pub(crate) fn make_room(&mut self) -> Result<(), AllocError>
        ensures same { listed_of self.new ≡ listed_of self.old }
        ensures room { OnOk result (HasRoom self.new) }
    {
        self.publications.reserve(1)?;
        self.lives.reserve(1)?;
        self.placements.reserve(1)?;
        self.sent.reserve(1)?;
        Ok(())
    }

    /// What a server's step adds is listed. Gives what the server answers. Takes no memory.
    pub(crate) fn keep(&mut self, acted: Acted, noted: Noted, did: Did) -> Answer
        requires { HasRoom self.old }
        ensures answer { result ≡ did.answer }
        ensures lists { IsAdded acted noted did (listed_of self.old) (listed_of self.new) }
    {
        keep_all(
            acted,
            noted,
            did,
            &mut self.publications,
            &mut self.lives,
            &mut self.placements,
            &mut self.sent,
        )
    }
}

/// Whether the incarnation is one of those.
fn was_started(started: &[Started], node: usize, inc: Incarnation) -> bool
    ensures { result ≡ is_used node inc (map started_of started.now) }
{
    for start in started {
        if start.node == node && start.inc == inc {
            return true;
        }
    }
    false
}

/// A subscription that an event opens, if its id is free.
#[derive(Drop)]
pub(crate) struct Opening {
    pub(crate) conn: ConnId,
    pub(crate) key: Key,
    pub(crate) sid: Sid,
}

/// What an event may add.
#[derive(Drop)]
pub(crate) struct Noted {
    pub(crate) publication: Option<Publication>,
    pub(crate) opening: Option<Opening>,
}

/// The publication that an event makes in this step, under this name.
fn publication_in(
    asked: &EventRef<'_>,
    id: PubId,
    step: u64,
) -> Result<Option<Publication>, AllocError>
    ensures { IfOk result (λ noted.
        option_to_list (option_map publication_of noted)
        ≡ published_by id step (asked_of asked.now)) }
{
    let EventRef::Own(
        OwnEvent::Publish {
            conn,
            publication,
            ..
        },
    ) = *asked
    else {
        return Ok(None);
    };
    let message = publication.message.try_clone()?;
    Ok(Some(Publication {
        step,
        id,
        message,
        publisher: *conn,
        echo: publication.echo,
    }))
}

/// The subscription that an event opens, if its id is free.
fn opening_in(alloc: Global, asked: &EventRef<'_>) -> Result<Option<Opening>, AllocError>
    ensures { IfOk result (λ noted. noted ≡ opening_by (asked_of asked.now)) }
{
    let EventRef::Own(OwnEvent::OfConn { conn, event }) = *asked else {
        return Ok(None);
    };
    let ConnEvent::Subscribe { key, sid } = event else {
        return Ok(None);
    };
    let key = key.try_clone(alloc)?;
    let sid = sid.try_clone(alloc)?;
    Ok(Some(Opening {
        conn: *conn,
        key,
        sid,
    }))
}

/// What an event may add in this step, where the next publication is called so.
pub(crate) fn note(
    alloc: Global,
    asked: &EventRef<'_>,
    id: PubId,
    step: u64,
) -> Result<Noted, AllocError>
    ensures { IfOk result (λ noted. AreNoted id step (asked_of asked.now) noted) }
{
    let publication = publication_in(asked, id, step)?;
    let opening = opening_in(alloc, asked)?;
    Ok(Noted {
        publication,
        opening,
    })
}
