//! Laws of streams, as contracts of functions that do nothing.
ghost use Rattle.wire_cut.specs.Reading.{Grammar, ReadsInParts, ReadsByLooks, WaitsForMore};
ghost use Rattle.wire_cut.specs.Reading.{FollowsGrammar, ExpectsAgain, ExpectsWhenFed};

/// What is read of a stream by a grammar is a function of its bytes, whatever parts they come in. A
/// look at the bytes at hand finds the next piece, and what it finds stands whatever comes behind.
pub fn stream_is_read_in_parts<Awaited, Item>()
    ensures parts { (grammar : Grammar Awaited Item) → ReadsInParts grammar }
    ensures looks { (grammar : Grammar Awaited Item) → ReadsByLooks grammar }
    ensures waits { (grammar : Grammar Awaited Item) → WaitsForMore grammar }
{}

/// A caller that feeds a cutter, takes pieces from it and announces each payload reads the stream by
/// its grammar. Bytes may be fed between a piece and the announcement, and a second announcement
/// counts alone.
pub fn cutter_follows_grammar<Awaited, Item>()
    ensures follows { (grammar : Grammar Awaited Item) → FollowsGrammar grammar }
    ensures again { ExpectsAgain }
    ensures when_fed { ExpectsWhenFed }
{}
