//! What holds of every legal run of a server on threads: laws over the definitions.

ghost use Rattle.thread_law.specs.Once.{LegalRunsAreOnce};

/// Of every legal run: each publication stands in one job, which one publish or one frame of a peer gave, and those of one
/// incarnation come in rising number. Over all shards no publication is put twice for one queue name, nor twice for one
/// subscription; and each subscription gets those of one incarnation in rising number.
pub fn legal_runs_are_once()
    ensures { LegalRunsAreOnce }
{}
