//! What each event of a hub is in the cluster law. The calls do nothing: their contracts are the laws.

ghost use Rattle.hub_core.specs.AsLaw.{PublishesInLaw, ReceivesInLaw, MeetsInLaw, AnnouncesInLaw, DrainsInLaw, CutsUnseen, TakesUnseen};
ghost use Rattle.hub_core.specs.Local.{LocalJobsFollow};
ghost use Rattle.hub_core.specs.Steps.{StaysSound};
ghost use Rattle.hub_core.specs.Wanted.{NamesAreWanted};

/// A publish that is not refused is one of the law's: its queue names are split without overlap among the own
/// job and one frame at most to each other server, each at the greatest incarnation seen.
pub fn publishes_follow_the_law()
    ensures { PublishesInLaw }
{}

/// A frame that is not refused is one that the law takes: it is for this incarnation of this server, of no
/// incarnation below the greatest seen, and above the mark, the next change, or a snapshot at or above the
/// last one heard.
pub fn receives_follow_the_law()
    ensures { ReceivesInLaw }
{}

/// A session that is kept tells of its peer's incarnation, and its snapshot is all interest at its number.
pub fn sessions_follow_the_law()
    ensures { MeetsInLaw }
{}

/// A collect that is not refused tells its changes with their numbers, and the interest after them.
pub fn collects_follow_the_law()
    ensures { AnnouncesInLaw }
{}

/// A drain that is not refused tells of one change, which clears, and the interest after it, which is none.
pub fn drains_follow_the_law()
    ensures { DrainsInLaw }
{}

/// The law sees nothing of a cut, nor of frames that are taken.
pub fn the_rest_is_unseen()
    ensures cut { CutsUnseen }
    ensures take { TakesUnseen }
{}

/// A hub is sound at its start, and each step keeps it so: each server has its place, the server itself is
/// never up, whoever is up was seen, and no outbox has more frames than it may.
pub fn sound_hubs_stay_sound()
    ensures { StaysSound }
{}

/// The queue names of a publication stand in strictly rising order of bytes, and are just those of keys that
/// match, of its own counts or of what an eligible peer has told.
pub fn queue_names_are_wanted()
    ensures { NamesAreWanted }
{}

/// Where a server serves all queue names itself that want a subject, and no eligible peer has a plain key that matches it, a publication on
/// it is refused just where no turn is issued, and owes a job with these names and no frame, whatever its word; and so does the next one
/// behind it.
pub fn local_jobs_follow()
    ensures { LocalJobsFollow }
{}
