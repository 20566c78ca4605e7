//! Laws of the loop, each the contract of a function that does nothing.

ghost use Rattle.node_net.specs.Holds.{TurnsAreServed};
ghost use Rattle.node_net.specs.Reading.{FramesAreThoseThatCame};
ghost use Rattle.node_net.specs.Sending.{KeptInOrder, LostAtTheEnd, NothingBehindALoss};

use net_streams::Stream;
use server_calls::ServerCalls;

/// The calls that are made in a turn of a client's connection, of the shard and of the hub, under which lock so ever, are together one run in its
/// life: by `client_calls` they lead from what stood to be asked before to what is asked behind it.
pub fn turns_are_served<C: ServerCalls>()
    ensures { TurnsAreServed C.Shard.made C.Shard.number C.lacks C.Hub.published C.Hub.pushed }
{}

/// What the stream of a connection took of bytes that were sent, and behind it what waits, is what waited before and behind it these
/// bytes, in order, but for those at the end for which there was no memory: then the connection is given up, and nothing more is sent to it.
pub fn sent_bytes_keep_their_order<S: Stream>()
    ensures kept { KeptInOrder S.gave S.wrote }
    ensures lost { LostAtTheEnd S.gave S.wrote }
    ensures behind { NothingBehindALoss S.gave S.wrote }
{}

/// Whenever bytes come over a route and whenever frames are read: the frames that were read are those that all the bytes tell, from the first
/// on and in order. None is left out before a later one, none is read twice, and none is made up.
pub fn routes_read_what_came()
    ensures { FramesAreThoseThatCame }
{}
