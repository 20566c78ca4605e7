//! Laws of all runs of writes together, as the contracts of functions that do nothing.

ghost use Rattle.net_streams.specs.Lives.{KeepsOrder, EndsAtFailure, HoldsWhatItTook};

use crate::stream::Stream;

/// Whenever bytes are put behind those that are unwritten, whenever runs of writes are made, and however much the stream takes at a
/// time: what it took, and behind it what is unwritten, is all that was put there, in order. Once it has failed it takes nothing.
pub fn bytes_keep_their_order<S: Stream>()
    ensures order { KeepsOrder S.gave S.wrote }
    ensures failed { EndsAtFailure S.gave S.wrote }
{}

/// What a stream in memory shows as written is what it took.
pub fn memory_holds_what_it_took()
    ensures { HoldsWhatItTook }
{}
