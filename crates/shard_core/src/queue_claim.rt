//! The choice of a member of a queue group.

ghost use Rattle.std.specs.Prelude.{◌≡◌, filter, IfOk, IsTrue, OnErr, OnOk};
ghost use Rattle.client_frames.specs.Messages.{line_forms};
ghost use Rattle.outbox.specs.Views.{with_entry};
ghost use Rattle.shard_core.specs.Boxes.{IsSeatOf, IsSettled};
ghost use Rattle.shard_core.specs.Claims.{is_member};
ghost use Rattle.shard_core.specs.Held.{ClaimsAreWhole, HasChosen, candidate_told, copy_of, shard_with};
ghost use Rattle.shard_core.specs.Opened.{AreRising};
ghost use Rattle.sub_table.specs.Subscriptions.{gets};
ghost use Rattle.subj.specs.QueueNames.{is_named as named};
ghost use Rattle.shard_core.specs.Owed.{due_entry as entry_due, owed_entry, placed_for};
ghost use Rattle.shard_core.specs.Shards.{client_at, clients_with_change, fits};
ghost use Rattle.shard_core.specs.Tallies.{lent_subs};

use crate::calls::{Candidate, Placed};
use crate::connections::Conns;
use crate::delivery_buffer::{due_lengths, due_mode, due_placed, may_get};
use crate::openings::Openings;
use crate::standings::Seat;
use client_frames::{MessageLines, message_body};
use std::alloc::{AllocError, Global};
use sub_table::{SubTable, Subscription};
use subj::{Job, QueueName, SubId};

/// A job in hand, the queue name of it that is claimed, and whether a copy of the entry is asked for.
#[derive(Clone, Copy)]
pub struct QueueClaim<'a> {
    pub alloc: Global,
    pub shard: u64,
    pub job: &'a Job,
    pub name: &'a QueueName,
    pub copies: bool,
}

/// Whether the subscription is a member of the queue group of this name.
fn is_named(name: &QueueName, sub: &Subscription) -> bool
    ensures { result ≡ named name.now sub.now.key.queue }
{
    match &sub.key.queue {
        None => false,
        Some(other) => other.bytes() == name.bytes(),
    }
}

/// Whether the subscription has room for the entry that it would be owed.
fn has_room(claim: &QueueClaim, lines: &MessageLines, conns: &Conns, sub: &Subscription) -> bool
    requires { lines.now ≡ line_forms claim.now.job.now.message }
    ensures { result
        ≡ fits (client_at sub.now.conn conns.now.next)
        (owed_entry claim.now.shard conns.now.next claim.now.job.now sub.now.key.queue sub.now) }
{
    conns.has_room(sub.conn, due_lengths(claim.job, lines, sub))
}

/// Whether it is a candidate, of those that match.
fn is_candidate(claim: &QueueClaim, lines: &MessageLines, conns: &Conns, sub: &Subscription) -> bool
    requires { lines.now ≡ line_forms claim.now.job.now.message }
    ensures { result
        ≡ is_member claim.now.shard conns.now.next claim.now.job.now claim.now.name.now sub.now }
{
    is_named(claim.name, sub) && may_get(claim.job, sub) && has_room(claim, lines, conns, sub)
}

/// Keeps the candidates among those that match.
fn keep_candidates(
    claim: &QueueClaim,
    lines: &MessageLines,
    conns: &Conns,
    subs: &mut Vec<&Subscription>,
)
    requires { lines.now ≡ line_forms claim.now.job.now.message }
    ensures { lent_subs subs.new.items
        ≡ filter (is_member claim.now.shard conns.now.next claim.now.job.now claim.now.name.now)
        (lent_subs subs.old.items) }
{
    subs.retain(|sub| is_candidate(claim, lines, conns, sub));
}

/// A copy of the entry that the member is owed at a connection that takes headers or does not, where it is asked for.
fn copy_for(
    claim: &QueueClaim,
    lines: &MessageLines,
    sub: &Subscription,
    headers: bool,
) -> Result<Option<Placed>, AllocError>
    requires { lines.now ≡ line_forms claim.now.job.now.message }
    ensures { IfOk result (λ placed.
        placed
        ≡ copy_of claim.now.copies
        (placed_for claim.now.shard headers claim.now.job.now sub.now.key.queue sub.now)) }
{
    if !claim.copies {
        return Ok(None);
    }
    let placed = due_placed(claim.alloc, claim.shard, claim.job, lines, sub, headers)?;
    Ok(Some(placed))
}

/// The candidates among the members of the queue group, in order of opening.
fn open_candidates<'a, T: SubTable>(
    claim: &QueueClaim,
    lines: &MessageLines,
    conns: &Conns,
    openings: &'a Openings<T>,
) -> Result<Vec<&'a Subscription>, AllocError>
    requires { lines.now ≡ line_forms claim.now.job.now.message }
    ensures all { IfOk result (λ subs.
        lent_subs subs.items
        ≡ filter (is_member claim.now.shard conns.now.next claim.now.job.now claim.now.name.now)
        (filter (gets claim.now.job.now.message.subject) openings.now.subs)) }
    ensures rising { AreRising openings.now.subs }
{
    let mut subs = openings.members(&claim.job.message.subject().lent(), claim.name)?;
    keep_candidates(claim, lines, conns, &mut subs);
    Ok(subs)
}

/// Stages the entry that the member is owed.
fn stage_due(
    claim: &QueueClaim,
    lines: &MessageLines,
    conns: &mut Conns,
    sub: &Subscription,
    seat: Seat,
) -> Result<(), AllocError>
    requires lines { lines.now ≡ line_forms claim.now.job.now.message }
    requires seat { IsSeatOf sub.now.conn seat conns.old.next }
    requires room { IsTrue (fits (client_at sub.now.conn conns.old.next)
        (entry_due claim.now.shard seat.takes_headers claim.now.job.now sub.now.key.queue
        sub.now)) }
    ensures shown { conns.new.shown ≡ conns.old.shown }
    ensures staged { OnOk result (conns.new.next
        ≡ clients_with_change
        (with_entry
        (entry_due claim.now.shard seat.takes_headers claim.now.job.now sub.now.key.queue sub.now))
        sub.now.conn conns.old.next) }
    ensures err { OnErr result (conns.new.next ≡ conns.old.next) }
{
    let line = lines.line(&sub.sid, seat.takes_headers)?;
    let mode = due_mode(claim.alloc, sub)?;
    let id = SubId {
        shard: claim.shard,
        serial: sub.serial,
    };
    let body = message_body(&claim.job.message, seat.takes_headers);
    conns.stage_message(seat, claim.job.id, id, mode, &line, body)
}

/// Stages the entry of the member that is chosen, and tells of it.
fn stage_chosen(
    claim: &QueueClaim,
    lines: &MessageLines,
    conns: &mut Conns,
    sub: &Subscription,
) -> Result<Candidate, AllocError>
    requires lines { lines.now ≡ line_forms claim.now.job.now.message }
    requires room { IsTrue (fits (client_at sub.now.conn conns.old.next)
        (owed_entry claim.now.shard conns.old.next claim.now.job.now sub.now.key.queue sub.now)) }
    ensures shown { conns.new.shown ≡ conns.old.shown }
    ensures told { IfOk result (λ candidate.
        candidate
        ≡ candidate_told claim.now.copies claim.now.shard conns.old.next claim.now.job.now
        sub.now) }
    ensures staged { OnOk result (conns.new.next
        ≡ clients_with_change
        (with_entry
        (owed_entry claim.now.shard conns.old.next claim.now.job.now sub.now.key.queue sub.now))
        sub.now.conn conns.old.next) }
    ensures err { OnErr result (conns.new.next ≡ conns.old.next) }
{
    let Some(seat) = conns.seat(sub.conn) else {
        // required: it has room
        unreachable!()
    };
    let placed = copy_for(claim, lines, sub, seat.takes_headers)?;
    stage_due(claim, lines, conns, sub, seat)?;
    let sub = SubId {
        shard: claim.shard,
        serial: sub.serial,
    };
    Ok(Candidate { sub, placed })
}

/// The member that is chosen, whose entry is staged; none where there is no candidate.
fn choose_with<T: SubTable>(
    claim: &QueueClaim,
    lines: &MessageLines,
    conns: &mut Conns,
    openings: &Openings<T>,
) -> Result<Option<Candidate>, AllocError>
    requires lines { lines.now ≡ line_forms claim.now.job.now.message }
    requires settled { IsSettled conns.old }
    ensures shown { conns.new.shown ≡ conns.old.shown }
    ensures ok { IfOk result (λ candidate.
        HasChosen claim.now.copies (shard_with claim.now.shard conns.old.shown openings.now.subs)
        claim.now.job.now claim.now.name.now candidate conns.new.next) }
    ensures err { OnErr result (conns.new.next ≡ conns.old.next) }
{
    let subs = open_candidates(claim, lines, conns, openings)?;
    let count = subs.len() as u64;
    if count == 0 {
        return Ok(None);
    }
    let place = claim.job.turn.get() % count;
    let candidate = stage_chosen(claim, lines, conns, subs[place as usize])?;
    Ok(Some(candidate))
}

/// As [`choose_with`], with the lines of the job's message.
pub fn choose<T: SubTable>(
    claim: &QueueClaim,
    conns: &mut Conns,
    openings: &Openings<T>,
) -> Result<Option<Candidate>, AllocError>
    requires { IsSettled conns.old }
    ensures shown { conns.new.shown ≡ conns.old.shown }
    ensures ok { IfOk result (λ candidate.
        HasChosen claim.now.copies (shard_with claim.now.shard conns.old.shown openings.now.subs)
        claim.now.job.now claim.now.name.now candidate conns.new.next) }
    ensures err { OnErr result (conns.new.next ≡ conns.old.next) }
{
    let lines = MessageLines::new(claim.alloc, &claim.job.message)?;
    choose_with(claim, &lines, conns, openings)
}

/// A candidate that is placed by the next call is the step of a claim that is won, and one that is not is the step
/// of a claim that is not.
pub fn claims_are_whole()
    ensures { ClaimsAreWhole }
{}
