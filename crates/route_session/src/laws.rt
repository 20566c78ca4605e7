//! Which sessions are kept. The calls do nothing: their contracts are the laws.

ghost use Rattle.route_session.specs.Laws.{InfoKeepsBest, ConnectKeepsBest, BestIsKept, EndsAgree};
ghost use Rattle.route_session.specs.OverRuns.{BestStaysKept};

/// Of the session that is kept for a peer and one that is completed the better stays: the new one where it
/// is not refused, and the kept one where the new one is a duplicate.
pub fn the_better_session_stays()
    ensures info { InfoKeepsBest }
    ensures connect { ConnectKeepsBest }
{}

/// Of offers that come one after the other the best is kept: one of them, than which none is better; and of
/// those that are as good the first.
pub fn the_best_offer_is_kept()
    ensures { BestIsKept }
{}

/// Two ends to which the same dials were offered, under the same incarnations, keep the same one, whatever
/// the orders in which they came.
pub fn both_ends_keep_the_same()
    ensures { EndsAgree }
{}

/// Over every run of session events from the start: what is kept for a peer is the best of all that were offered for it since its
/// kept session was last cut, whether they were kept or refused as duplicates.
pub fn the_best_stays_kept()
    ensures { BestStaysKept }
{}
