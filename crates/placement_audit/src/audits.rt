//! The audit: what a subscription is due of a publication, entries by their names, what was placed so far, and the list from front to end.

ghost use Rattle.std.specs.Prelude.{◌≡◌, map, IfOk, ◌++◌, ◌∷◌, [], List, if◌then◌else◌, OnOk, true, not, ℕ, Option, None};
ghost use Rattle.client_frames.specs.Messages.{due_bytes as all_due};
ghost use Rattle.cluster_world.specs.InCode.{publication_of, life_of};
ghost use Rattle.placement_audit.specs.InCode.{placement_of, lent_life, lent_publication};
ghost use Rattle.placement_audit.specs.Tests.{is_mode, is_not_before, is_open, is_for as is_right_for, is_due as is_all_due, any_due as any_life, any_owed as any_source, is_owed as owes};
ghost use Rattle.std.specs.Ordering.{is_eq};
ghost use Rattle.world_law.specs.State.{Publication as Source, Life as Opened, Placement as Placing, Cluster, World as Reached, new_world};
ghost use Rattle.placement_audit.specs.Named.{named_at, AreSources, AreLives};
ghost use Rattle.std.specs.BTreeSet.{contains};
ghost use Rattle.placement_audit.specs.declared.keys.Served.{Served as Key};
ghost use Rattle.placement_audit.specs.Keys.{served_cmp};
ghost use Rattle.placement_audit.specs.Seen.{AreSeen, IsNoted, IsJudged};
ghost use Rattle.placement_audit.specs.Verdicts.{IsVerdict};
ghost use Rattle.world_law.specs.Events.{Event};
ghost use Rattle.world_law.specs.Headline.{IsCluster};
ghost use Rattle.world_law.specs.Steps.{Run};

use crate::keys::{LifeKey, PublicationKey, Served};
use crate::placements::Placement;
use claim_race::Race;
use client_frames::{message_body, message_line};
use cluster_world::{Life, Publication, World};
use line_fields::CR_LF;
use outbox::Mode;
use std::alloc::{AllocError, Global};
use std::collections::{BTreeMap, BTreeSet};
use sub_table::SubTable;
use subj::QueueName;
use world_law::publications_are_placed_once;

/// Whether what has this queue name, or none, is placed in this mode.
fn is_of_mode(queue: &Option<QueueName>, mode: &Mode) -> bool
    ensures { result ≡ is_mode queue.now mode.now }
{
    match (queue, mode) {
        (None, Mode::Plain) => true,
        (None, Mode::Queue(_)) => false,
        (Some(_), Mode::Plain) => false,
        (Some(name), Mode::Queue(other)) => name.bytes() == other.bytes(),
    }
}

/// Whether what closed then, if it did, had not closed before the step.
fn is_still_open(closed: Option<u64>, step: u64) -> bool
    ensures { result ≡ is_not_before step closed }
{
    match closed {
        None => true,
        Some(closed) => step <= closed,
    }
}

/// Whether the subscription was open at the step.
fn is_open_at(life: &Life, step: u64) -> bool
    ensures { result ≡ is_open (life_of life.now) step }
{
    life.opened < step && is_still_open(life.closed, step)
}

/// Whether the placement is as the publication and the subscription want it, but for its bytes.
fn is_for(source: &Publication, life: &Life, placement: &Placement) -> bool
    ensures { result
        ≡ is_right_for (publication_of source.now) (life_of life.now) (placement_of placement.now) }
{
    source.step < placement.step
        && is_open_at(life, placement.step)
        && life.conn == placement.conn
        && is_of_mode(&life.key.queue, &placement.mode)
        && life.key.pattern.matches(&source.message.subject().lent())
}

/// All bytes that the subscription is due of the publication, at a connection that takes headers or does not.
fn due_bytes(
    alloc: Global,
    source: &Publication,
    life: &Life,
    takes_headers: bool,
) -> Result<Vec<u8>, AllocError>
    ensures { IfOk result (λ bytes.
        bytes.items ≡ all_due source.now.message life.now.sid takes_headers) }
{
    let mut bytes = message_line(alloc, &source.message, &life.sid, takes_headers)?;
    bytes.extend_from_slice(CR_LF)?;
    bytes.extend_from_slice(message_body(&source.message, takes_headers))?;
    bytes.extend_from_slice(CR_LF)?;
    Ok(bytes)
}

/// Whether the placement is what the subscription is due of the publication.
fn is_due(
    alloc: Global,
    source: &Publication,
    life: &Life,
    placement: &Placement,
) -> Result<bool, AllocError>
    ensures { IfOk result (λ is.
        is
        ≡ is_all_due (publication_of source.now) (life_of life.now) (placement_of placement.now)) }
{
    if !is_for(source, life, placement) {
        return Ok(false);
    }
    let bytes = due_bytes(alloc, source, life, placement.headers)?;
    Ok(bytes.as_slice() == placement.bytes.as_slice())
}

/// Whether it is what one of these subscriptions is due of the publication.
fn any_due(
    alloc: Global,
    source: &Publication,
    lives: &[&Life],
    placement: &Placement,
) -> Result<bool, AllocError>
    ensures { IfOk result (λ is.
        is
        ≡ any_life (publication_of source.now) (placement_of placement.now)
        (map lent_life lives.now)) }
{
    for life in lives {
        if is_due(alloc, source, *life, placement)? {
            return Ok(true);
        }
    }
    Ok(false)
}

/// Whether it is what one of these subscriptions is due of one of these publications.
pub(crate) fn any_owed(
    alloc: Global,
    sources: &[&Publication],
    lives: &[&Life],
    placement: &Placement,
) -> Result<bool, AllocError>
    ensures { IfOk result (λ is.
        is
        ≡ any_source (placement_of placement.now) (map lent_life lives.now)
        (map lent_publication sources.now)) }
{
    for source in sources {
        if any_due(alloc, *source, lives, placement)? {
            return Ok(true);
        }
    }
    Ok(false)
}

/// Publications under their names. Two of a foreign log may have one name.
pub(crate) type Sources<'a> = BTreeMap<PublicationKey, Vec<&'a Publication>>;

/// Subscriptions under their names. Two of a foreign log may have one name.
pub(crate) type Lives<'a> = BTreeMap<LifeKey, Vec<&'a Life>>;

/// Puts an entry behind those of the key.
fn push_entry<'a, K: Ord + Drop, T>(
    alloc: Global,
    named: &mut BTreeMap<K, Vec<&'a T>>,
    key: K,
    entry: &'a T,
) -> Result<(), AllocError>
    ensures { OnOk result ((q : K)
        → named_at K.cmp named.new q
        ≡ (if is_eq (K.cmp key q) then named_at K.cmp named.old key ++ entry.entry ∷ []
        else named_at K.cmp named.old q)) }
{
    if let Some(list) = named.get_mut(&key) {
        if list.push(entry).is_err() {
            return Err(AllocError);
        }
        return Ok(());
    }
    let mut list = Vec::new(alloc);
    list.push(entry)?;
    named.insert(key, list)?;
    Ok(())
}

/// The publications by their names.
pub(crate) fn by_publication<'a>(
    alloc: Global,
    publications: &'a [Publication],
) -> Result<Sources<'a>, AllocError>
    ensures { IfOk result (λ sources. AreSources sources (map publication_of publications.now)) }
{
    let mut sources = BTreeMap::new(alloc);
    for publication in publications {
        let key = PublicationKey { id: publication.id };
        push_entry(alloc, &mut sources, key, publication)?;
    }
    Ok(sources)
}

/// The subscriptions by their names.
pub(crate) fn by_life<'a>(alloc: Global, lives: &'a [Life]) -> Result<Lives<'a>, AllocError>
    ensures { IfOk result (λ named. AreLives named (map life_of lives.now)) }
{
    let mut named = BTreeMap::new(alloc);
    for life in lives {
        push_entry(alloc, &mut named, LifeKey { id: life.id }, life)?;
    }
    Ok(named)
}

/// Whether the placement is what the subscription that it names is due of the publication that it names.
pub(crate) fn is_owed(
    alloc: Global,
    sources: &Sources<'_>,
    lives: &Lives<'_>,
    placement: &Placement,
) -> Result<bool, AllocError>
    ensures { (ps : List Source) (ls : List Opened)
        → AreSources sources.now ps
        → AreLives lives.now ls
        → IfOk result (λ is. is ≡ owes ps ls (placement_of placement.now)) }
{
    let Some(sources) = sources.get(&PublicationKey { id: placement.id }) else {
        return Ok(false);
    };
    let Some(lives) = lives.get(&LifeKey { id: placement.life }) else {
        return Ok(false);
    };
    any_owed(alloc, sources, lives, placement)
}

/// Puts the key in. Gives whether it was not in before.
fn insert_new(seen: &mut BTreeSet<Served>, key: Served) -> Result<bool, AllocError>
    ensures told { IfOk result (λ is_new. is_new ≡ not (contains served_cmp seen.old key)) }
    ensures kept { OnOk result ((q : Key)
        → contains served_cmp seen.new q
        ≡ (if is_eq (served_cmp key q) then true else contains served_cmp seen.old q)) }
{
    match seen.insert(key) {
        Ok(is_new) => Ok(is_new),
        Err(_) => Err(AllocError),
    }
}

/// Notes a placement. Gives whether none before it was of the same publication for the same plain subscription or queue name; what is
/// noted counts only then.
pub(crate) fn note_first(
    alloc: Global,
    seen: &mut BTreeSet<Served>,
    placement: &Placement,
) -> Result<bool, AllocError>
    ensures { (done : List Placing)
        → AreSeen seen.old done
        → IfOk result (IsNoted done (placement_of placement.now) seen.new) }
{
    if seen.contains(&Served::plainly(placement)) {
        return Ok(false);
    }
    let served = Served::of(alloc, placement)?;
    insert_new(seen, served)
}

/// Notes a placement. Gives whether, behind those before it, it keeps the clause; what is noted counts only then.
fn judge(
    alloc: Global,
    sources: &Sources<'_>,
    lives: &Lives<'_>,
    seen: &mut BTreeSet<Served>,
    placement: &Placement,
) -> Result<bool, AllocError>
    ensures { (ps : List Source) (ls : List Opened) (done : List Placing)
        → AreSources sources.now ps
        → AreLives lives.now ls
        → AreSeen seen.old done
        → IfOk result (IsJudged ps ls done (placement_of placement.now) seen.new) }
{
    if !is_owed(alloc, sources, lives, placement)? {
        return Ok(false);
    }
    note_first(alloc, seen, placement)
}

/// The number from 1 of the first placement that breaks the clause.
fn first_breach(
    alloc: Global,
    sources: &Sources<'_>,
    lives: &Lives<'_>,
    placements: &[Placement],
) -> Result<Option<u64>, AllocError>
    ensures { (ps : List Source) (ls : List Opened)
        → AreSources sources.now ps
        → AreLives lives.now ls
        → IfOk result (IsVerdict ps ls (map placement_of placements.now)) }
{
    let mut seen = BTreeSet::new(alloc);
    for place in 0..placements.len() {
        if !judge(alloc, sources, lives, &mut seen, &placements[place])? {
            return Ok(Some(place as u64 + 1));
        }
    }
    Ok(None)
}

/// The number, from 1, of the first placement that breaks the clause with those before it; None where none does.
///
/// The clause: of one publication at most one placement is for one plain subscription, and at most one for one queue name, over all servers,
/// incarnations and connections. And each placement is the exact `MSG` or `HMSG` of a publication of an earlier step, for a
/// subscription of that connection, id and queue name that matches, was opened at an earlier step and did not close at an earlier
/// one; it is `HMSG` just where the publication has headers and the placement says that its connection took them. It is judged by these
/// lists alone: whether a connection said that it takes headers is not judged, nor the order of a subscription's publications. Placements
/// have to stand in the order of placing; the two other lists may stand in any, and where several of them have one name, one that fits is
/// enough.
///
/// Of n placements it takes a time that grows as n log n, where no name stands for many entries; it takes memory for the names of all three lists.
pub fn audit(
    alloc: Global,
    publications: &[Publication],
    lives: &[Life],
    placements: &[Placement],
) -> Result<Option<u64>, AllocError>
    ensures { IfOk result (IsVerdict (map publication_of publications.now) (map life_of lives.now)
        (map placement_of placements.now)) }
{
    let sources = by_publication(alloc, publications)?;
    let lives = by_life(alloc, lives)?;
    first_breach(alloc, &sources, &lives, placements)
}

/// Of every run of the exact cluster: an audit of its lists, if it has memory, gives None. It does nothing.
pub fn runs_pass_the_audit()
    ensures { (c : Cluster)
        → IsCluster c
        → (events : List Event) (w : Reached)
        → Run c (new_world c) events w
        → (found : Option ℕ)
        → IsVerdict w.publications w.lives w.placements found
        → found ≡ None }
{
    publications_are_placed_once()
}

/// Of every cluster in code, whoever made the value and whatever was done with it: an audit of its lists, if it has memory, gives None. It does
/// nothing.
pub fn worlds_pass_the_audit<T: SubTable, R: Race>(world: &World<T, R>)
    ensures { ∥ ((found : Option ℕ)
        → IsVerdict world.now.world.publications world.now.world.lives world.now.world.placements
        found → found ≡ None) ∥₁ }
{
    world.keeps_headline()
}
