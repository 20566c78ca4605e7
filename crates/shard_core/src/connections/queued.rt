//! Messages to members of queue groups, put for connections.

ghost use Rattle.std.specs.Prelude.{◌≡◌, ◌+◌, ◌≤◌, ◌<◌, ◌^◌, ◌++◌, length, IsTrue, OnOk, OnErr};
ghost use Rattle.outbox.specs.Views.{with_entry, spelt_entry};
ghost use Rattle.outbox.specs.declared.entries.Mode.TheVariants.{Queue};
ghost use Rattle.shard_core.specs.Boxes.{HasRoomAt, IsBoxStaged, IsSeated};
ghost use Rattle.shard_core.specs.ClaimRuns.{HasRoomAt as HasRoomForRun};
ghost use Rattle.shard_core.specs.Shards.{client_at, clients_with_change, fits};

use super::{Conn, Conns, note_staged};
use crate::standings::Seat;
use std::alloc::AllocError;
use subj::{PubId, QueueName, SubId};

/// Stages a message to a member of the queue group of this name for the connection at the place, which has room for it.
fn stage_queued_at(
    conns: &mut Vec<Conn>,
    place: usize,
    id: PubId,
    sub: SubId,
    name: &QueueName,
    head: &[u8],
    tail: &[u8],
) -> Result<(), AllocError>
    requires within { place < length conns.old.items }
    requires fits { length head.now + length tail.now < 2 ^ 64 }
    requires room { HasRoomAt place
        (length (spelt_entry id sub (Queue name.now) (head.now ++ tail.now)).bytes)
        conns.old.items }
    ensures ok { OnOk result (IsBoxStaged place
        (with_entry (spelt_entry id sub (Queue name.now) (head.now ++ tail.now))) conns.old.items
        conns.new.items) }
    ensures err { OnErr result
        (IsBoxStaged place (λ backlog. backlog) conns.old.items conns.new.items) }
{
    let conn = &mut conns[place];
    conn.outbox.stage_queued(id, sub, name, head, tail)?;
    Ok(())
}

impl Conns {
    /// How many of so many entries, each of at most so many bytes, may be put for the connection, behind all that was put or staged.
    pub fn room_for_most(&self, seat: Seat, len: usize, most: usize) -> usize
        requires seat { IsSeated seat self.now.next }
        requires some { 0 < len }
        ensures most { result ≤ most }
        ensures room { 0 < result → HasRoomForRun result len (client_at seat.conn self.now.next) }
    {
        let conn = &self.conns[seat.place];
        conn.outbox.room_for_most(len, most)
    }

    /// Puts a message to a member of the queue group of this name, for which there is room, unseen: its bytes in two parts, up to the id
    /// of the subscription and with it, and behind that. Want of memory leaves all as it was.
    pub fn stage_queued(
        &mut self,
        seat: Seat,
        id: PubId,
        sub: SubId,
        name: &QueueName,
        head: &[u8],
        tail: &[u8],
    ) -> Result<(), AllocError>
        requires seat { IsSeated seat self.old.next }
        requires fits { length head.now + length tail.now < 2 ^ 64 }
        requires room { IsTrue (fits (client_at seat.conn self.old.next)
            (spelt_entry id sub (Queue name.now) (head.now ++ tail.now))) }
        ensures shown { self.new.shown ≡ self.old.shown }
        ensures ok { OnOk result (self.new.next
            ≡ clients_with_change
            (with_entry (spelt_entry id sub (Queue name.now) (head.now ++ tail.now)))
            seat.conn self.old.next) }
        ensures err { OnErr result (self.new.next ≡ self.old.next) }
    {
        let place = seat.place;
        note_staged(&mut self.places, seat)?;
        stage_queued_at(&mut self.conns, place, id, sub, name, head, tail)?;
        Ok(())
    }
}
