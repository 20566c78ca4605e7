//! Laws of the definitions, each the contract of a call that does nothing.

ghost use Rattle.route_frames.specs.Laws.{AreLines, ArePayloads, IsCutAgain, IsPayloadCutAgain, IsAnnouncedAgain, IsReadAgain, CanonicalIsSpelt, BeginsNoOther, SpeltIsRead, ReadIsSpelt, AnnouncedIsTold, ToldIsAnnounced, SpellsOneFrame, AnnouncesOneSize};
ghost use Rattle.route_frames.specs.InStream.{AreReadInAnyParts};

/// What is written of a frame is read as that frame again, whatever follows it: its line is within
/// [`ROUTE_LINE`](subj::ROUTE_LINE), holds no CR LF and is cut at its own, it tells the size of the
/// payload, which is within [`MAX_SNAPSHOT`](subj::MAX_SNAPSHOT) and is cut by that size, and the two
/// mean the frame.
pub fn canonical_is_read_again()
    ensures lines { AreLines }
    ensures line { IsCutAgain }
    ensures size { IsAnnouncedAgain }
    ensures payloads { ArePayloads }
    ensures payload { IsPayloadCutAgain }
    ensures frame { IsReadAgain }
    ensures spelt { CanonicalIsSpelt }
{}

/// No canonical spelling of a frame begins that of another.
pub fn spelling_begins_no_other()
    ensures { BeginsNoOther }
{}

/// What is spelt is what is read: a line and its payload mean a frame just where they spell it, and a
/// line announces a size just where that is told of it. So no bytes spell two frames.
pub fn spelt_is_what_is_read()
    ensures spelt { SpeltIsRead }
    ensures read { ReadIsSpelt }
    ensures announced { AnnouncedIsTold }
    ensures told { ToldIsAnnounced }
    ensures one_frame { SpellsOneFrame }
    ensures one_size { AnnouncesOneSize }
{}

/// Frames that are written one behind the other are read from a stream as these frames, in whatever
/// parts its bytes come, and then whatever follows them is read.
pub fn written_is_read_in_any_parts()
    ensures { AreReadInAnyParts }
{
    canonical_is_read_again();
}
