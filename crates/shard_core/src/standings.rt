//! How a connection stands to an entry: it is shut, full, or ready; and what room it has left.

ghost use Rattle.shard_core.specs.Boxes.{form_length, standing_of};
ghost use Rattle.std.specs.Prelude.{◌≡◌, ◌-◌, length};
ghost use Rattle.outbox.specs.Views.{has_room, size_of};

use outbox::Outbox;
use sub_table::Room;
use subj::ConnId;

/// How many bytes a message has in each of its two forms. Both are the same where it has no header block.
#[derive(Clone, Copy)]
pub struct FormLengths {
    /// At a connection that takes no headers.
    pub plain: usize,
    /// At a connection that takes headers.
    pub headed: usize,
}

/// How many bytes an entry has at a connection that takes headers or does not.
pub(crate) fn len_of(lengths: FormLengths, takes_headers: bool) -> usize
    ensures { result ≡ form_length lengths takes_headers }
{
    if takes_headers {
        lengths.headed
    } else {
        lengths.plain
    }
}

/// Where a connection stands.
#[derive(Clone, Copy)]
pub struct Seat {
    pub(crate) conn: ConnId,
    pub(crate) place: usize,
    /// Whether the connection takes headers.
    pub takes_headers: bool,
}

/// How a connection stands to an entry of so many bytes in the form that it is due, once all that was staged is shown.
#[derive(Clone, Copy)]
pub enum Standing {
    /// It is not there, or it is shut.
    Shut,
    /// It is open and stands here, without room for the entry.
    Full(Seat),
    /// It stands here, with room for the entry.
    Ready(Seat),
}

/// How the connection of this outbox stands to an entry of so many bytes in the form that it is due.
pub(crate) fn standing_at(outbox: &Outbox, seat: Seat, lengths: FormLengths) -> Standing
    ensures { result
        ≡ standing_of seat
        (has_room outbox.now.max_entries outbox.now.max_bytes
        (form_length lengths seat.takes_headers) outbox.now.next)
        outbox.now.next.shut }
{
    if outbox.room(len_of(lengths, seat.takes_headers)) {
        return Standing::Ready(seat);
    }
    if outbox.is_closing() {
        Standing::Shut
    } else {
        Standing::Full(seat)
    }
}

/// What room is left behind the entries that wait.
pub(crate) fn room_of(outbox: &Outbox) -> Room
    ensures { result ≡ record {
      entries = outbox.now.max_entries - length outbox.now.shown.entries;
      bytes = outbox.now.max_bytes - size_of outbox.now.shown.entries;
    } }
{
    Room {
        entries: outbox.entries_left(),
        bytes: outbox.bytes_left(),
    }
}
