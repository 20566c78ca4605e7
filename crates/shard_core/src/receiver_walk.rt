//! The walk over the receivers that are noted of a subject, for a job with short messages.

ghost use Rattle.std.specs.Prelude.{◌≡◌, ◌+◌, ◌<◌, ◌^◌, ◌++◌, Bool, [], true, false, filter, length, All, IsTrue, OnOk};
ghost use Rattle.client_frames.specs.Messages.{head_for, tail_for, tails_of};
ghost use Rattle.outbox.specs.Views.{with_entry};
ghost use Rattle.sub_table.specs.Subscriptions.{gets};
ghost use Rattle.sub_table.specs.declared.Subscription.{Subscription as Opened};
ghost use Rattle.shard_core.specs.Boxes.{IsSeatOf, form_length};
ghost use Rattle.shard_core.specs.Opened.{AreRising};
ghost use Rattle.shard_core.specs.Owed.{walk, walk_after_put, is_due as is_owed};
ghost use Rattle.shard_core.specs.Received.{receivers_of};
ghost use Rattle.shard_core.specs.ReceiverSteps.{IsFoundAs, ends_at, entry_for, is_due_to, with_noted};
ghost use Rattle.shard_core.specs.Shards.{client_at, clients_with_change, fits};
ghost use Rattle.shard_core.specs.Tallies.{Follows, put_if_due as put_matching, walk_matching};

use crate::connections::Conns;
use crate::delivery_buffer::{DeliveryBuffer, is_last, may_get_at};
use crate::openings::Openings;
use crate::receiver::Receiver;
use crate::standings::{FormLengths, Seat, Standing};
use client_frames::MessageTails;
use outbox::Mode;
use std::alloc::AllocError;
use sub_table::SubTable;
use subj::{Job, SubId};

/// Whether Begin places the job for the receiver.
fn is_due(job: &Job, receiver: &Receiver) -> bool
    ensures { result ≡ is_due_to job.now receiver.now }
{
    receiver.is_plain() && may_get_at(job, receiver.conn())
}

/// Whether Begin places the job for any of these.
fn any_due(job: &Job, receivers: &[Receiver]) -> bool
    ensures { result ≡ false → filter (is_due_to job.now) receivers.now ≡ [] }
{
    for receiver in receivers {
        if is_due(job, receiver) {
            return true;
        }
    }
    false
}

/// How many bytes the message has for the receiver, at a connection that takes headers or does not.
fn len_for(tails: &MessageTails, receiver: &Receiver, takes_headers: bool) -> usize
    ensures { result
        ≡ length
        (head_for tails.now receiver.now.head takes_headers ++ tail_for tails.now takes_headers) }
{
    tails.head(receiver.head(), takes_headers).len() + tails.tail(takes_headers).len()
}

/// How many bytes the message has for the receiver, in each form.
fn lengths_for(tails: &MessageTails, receiver: &Receiver) -> FormLengths
    ensures { (option : Bool)
        → form_length result option
        ≡ length (head_for tails.now receiver.now.head option ++ tail_for tails.now option) }
{
    let plain = len_for(tails, receiver, false);
    let headed = len_for(tails, receiver, true);
    FormLengths { plain, headed }
}

/// Whether the message that comes next is the last one of the receiver.
fn ends<T: SubTable>(openings: &Openings<T>, receiver: &Receiver) -> bool
    requires { All (λ sub. sub.delivered + 1 < 2 ^ 64) openings.now.subs }
    ensures { result ≡ ends_at openings.now.subs receiver.now }
{
    if !receiver.is_limited() {
        return false;
    }
    match openings.table().get(receiver.serial()) {
        None => false,
        Some(sub) => is_last(sub),
    }
}

/// Stages the message for the receiver, which has room for it.
fn stage_for(
    conns: &mut Conns,
    shard: u64,
    job: &Job,
    tails: &MessageTails,
    receiver: &Receiver,
    seat: Seat,
) -> Result<(), AllocError>
    requires seat { IsSeatOf receiver.now.conn seat conns.old.next }
    requires room { IsTrue (fits (client_at receiver.now.conn conns.old.next)
        (entry_for shard job.now.id tails.now receiver.now seat.takes_headers)) }
    ensures shown { conns.new.shown ≡ conns.old.shown }
    ensures ok { OnOk result (conns.new.next
        ≡ clients_with_change
        (with_entry (entry_for shard job.now.id tails.now receiver.now seat.takes_headers))
        receiver.now.conn conns.old.next) }
{
    let head = tails.head(receiver.head(), seat.takes_headers);
    let tail = tails.tail(seat.takes_headers);
    let serial = receiver.serial();
    conns.stage_parts(
        seat,
        job.id,
        SubId { shard, serial },
        Mode::Plain,
        head,
        tail,
    )
}

/// Gives the receiver its message, for which there is room, unseen.
fn give<T: SubTable>(
    buffer: &mut DeliveryBuffer,
    conns: &mut Conns,
    openings: &Openings<T>,
    job: &Job,
    tails: &MessageTails,
    receiver: &Receiver,
    seat: Seat,
) -> Result<(), AllocError>
    requires counts { All (λ sub. sub.delivered + 1 < 2 ^ 64) openings.now.subs }
    requires seat { IsSeatOf receiver.now.conn seat conns.old.next }
    requires room { IsTrue (fits (client_at receiver.now.conn conns.old.next)
        (entry_for buffer.old.shard job.now.id tails.now receiver.now seat.takes_headers)) }
    ensures shown { conns.new.shown ≡ conns.old.shown }
    ensures conns { OnOk result (conns.new.next
        ≡ clients_with_change
        (with_entry
        (entry_for buffer.old.shard job.now.id tails.now receiver.now seat.takes_headers))
        receiver.now.conn conns.old.next) }
    ensures buffer { OnOk result (buffer.new
        ≡ with_noted receiver.now.serial (ends_at openings.now.subs receiver.now) buffer.old) }
{
    let shard = buffer.shard();
    buffer.note_given(receiver.serial(), ends(openings, receiver))?;
    stage_for(conns, shard, job, tails, receiver, seat)
}

/// One step of the walk, unseen.
fn put<T: SubTable>(
    buffer: &mut DeliveryBuffer,
    conns: &mut Conns,
    openings: &Openings<T>,
    job: &Job,
    tails: &MessageTails,
    receiver: &Receiver,
) -> Result<(), AllocError>
    requires tails { tails.now ≡ tails_of job.now.message }
    requires counts { All (λ sub. sub.delivered + 1 < 2 ^ 64) openings.now.subs }
    requires copies { buffer.old.copies ≡ false }
    ensures shown { conns.new.shown ≡ conns.old.shown }
    ensures copies { OnOk result (buffer.new.copies ≡ false) }
    ensures ok { OnOk result ((sub : Opened)
        → IsFoundAs openings.now.subs job.now.message.subject receiver.now sub
        → Follows openings.now.subs job.now (λ s w. walk_after_put s job.now w sub) conns.old.next
        buffer.old conns.new.next buffer.new) }
{
    let conn = receiver.conn();
    match conns.standing(conn, lengths_for(tails, receiver)) {
        Standing::Shut => Ok(()),
        Standing::Full(seat) => buffer.shut(conns, openings, conn, seat),
        Standing::Ready(seat) => give(buffer, conns, openings, job, tails, receiver, seat),
    }
}

/// One receiver, unseen.
fn put_if_due<T: SubTable>(
    buffer: &mut DeliveryBuffer,
    conns: &mut Conns,
    openings: &Openings<T>,
    job: &Job,
    tails: &MessageTails,
    receiver: &Receiver,
) -> Result<(), AllocError>
    requires tails { tails.now ≡ tails_of job.now.message }
    requires counts { All (λ sub. sub.delivered + 1 < 2 ^ 64) openings.now.subs }
    requires copies { buffer.old.copies ≡ false }
    ensures shown { conns.new.shown ≡ conns.old.shown }
    ensures copies { OnOk result (buffer.new.copies ≡ false) }
    ensures ok { OnOk result ((sub : Opened)
        → IsFoundAs openings.now.subs job.now.message.subject receiver.now sub
        → Follows openings.now.subs job.now (λ s w. put_matching s job.now w sub) conns.old.next
        buffer.old conns.new.next buffer.new) }
{
    if !is_due(job, receiver) {
        return Ok(());
    }
    put(buffer, conns, openings, job, tails, receiver)
}

/// The walk over the receivers, unseen.
fn put_each<T: SubTable>(
    buffer: &mut DeliveryBuffer,
    conns: &mut Conns,
    openings: &Openings<T>,
    job: &Job,
    tails: &MessageTails,
    receivers: &[Receiver],
) -> Result<(), AllocError>
    requires tails { tails.now ≡ tails_of job.now.message }
    requires counts { All (λ sub. sub.delivered + 1 < 2 ^ 64) openings.now.subs }
    requires copies { buffer.old.copies ≡ false }
    requires rising { AreRising openings.now.subs }
    requires receivers { receivers.now
        ≡ receivers_of job.now.message.subject
        (filter (gets job.now.message.subject) openings.now.subs) }
    ensures shown { conns.new.shown ≡ conns.old.shown }
    ensures ok { OnOk result (Follows openings.now.subs job.now
        (λ s w. walk_matching s job.now (filter (gets job.now.message.subject) openings.now.subs) w)
        conns.old.next buffer.old conns.new.next buffer.new) }
{
    for receiver in receivers {
        put_if_due(buffer, conns, openings, job, tails, receiver)?;
    }
    Ok(())
}

/// The whole walk over all receivers of the job's subject, unseen, without copies of the entries. What stands behind the ids of the
/// subscriptions is spelt once, in the memory of `tails`, where the job is due to any.
pub fn walk_receivers<T: SubTable>(
    buffer: &mut DeliveryBuffer,
    conns: &mut Conns,
    openings: &Openings<T>,
    job: &Job,
    tails: &mut MessageTails,
    receivers: &[Receiver],
) -> Result<(), AllocError>
    requires counts { All (λ sub. sub.delivered + 1 < 2 ^ 64) openings.now.subs }
    requires copies { buffer.old.copies ≡ false }
    requires rising { AreRising openings.now.subs }
    requires receivers { receivers.now
        ≡ receivers_of job.now.message.subject
        (filter (gets job.now.message.subject) openings.now.subs) }
    ensures shown { conns.new.shown ≡ conns.old.shown }
    ensures ok { OnOk result (Follows openings.now.subs job.now
        (λ s w. walk s job.now (filter (is_owed job.now) s.subs) w) conns.old.next buffer.old
        conns.new.next buffer.new) }
{
    if !any_due(job, receivers) {
        return Ok(());
    }
    tails.write(&job.message)?;
    put_each(buffer, conns, openings, job, tails, receivers)
}
