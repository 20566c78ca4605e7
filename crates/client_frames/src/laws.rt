//! Laws of the definitions, each the contract of a call that does nothing.

ghost use Rattle.client_frames.specs.Spelling.{MeansWhatItSpells, SpellsWhatItMeans, SpellsOneCommand};
ghost use Rattle.client_frames.specs.Causes.{IsRefusedForItsCause, HasTheCauseItIsRefusedFor, HasOneCause};
ghost use Rattle.client_frames.specs.Streams.{client_grammar};
ghost use Rattle.wire_cut.specs.Reading.{ReadsInParts, ReadsByLooks, WaitsForMore};

/// What a line means is what its bytes spell: no line spells two commands, and a line that spells
/// none is refused for its cause, of which it has exactly one. (NATS documentation, "Client
/// Protocol"; the refusals are this project's profile.)
pub fn line_has_one_meaning()
    ensures means { MeansWhatItSpells }
    ensures spells { SpellsWhatItMeans }
    ensures one { SpellsOneCommand }
    ensures refused { IsRefusedForItsCause }
    ensures cause { HasTheCauseItIsRefusedFor }
    ensures one_cause { HasOneCause }
{}

/// What a client's stream asks for depends on its bytes alone: it is read alike in any parts, and
/// piece by piece, whatever comes behind.
pub fn stream_is_read_in_parts()
    ensures parts { ReadsInParts client_grammar }
    ensures looks { ReadsByLooks client_grammar }
    ensures waits { WaitsForMore client_grammar }
{}
