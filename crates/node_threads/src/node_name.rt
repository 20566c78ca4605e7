//! The name of a server on threads.

use std::marker::Brand;

/// What tells the values under the locks of one server from those of another. (Profile.)
///
/// A server lives in a function that is generic in its name; the call of that function picks it.
pub trait NodeName {
    ghost use Rattle.std.specs.Prelude.{Bool, List};
    ghost use Rattle.atomic_table.specs.Seated.{TableId};
    ghost use Rattle.claim_cells.specs.Seats.{RaceId};

    /// The race of its shards.
    ghost race: { RaceId };

    /// The lanes of its shards, that of shard 1 first.
    ghost lanes: { List TableId };

    /// Whether what is done under its locks is kept in writing.
    ghost keep: { Bool };
}

impl NodeName for Brand {
    ghost use Rattle.std.specs.Prelude.{[], false};
    ghost use Rattle.node_threads.specs.Names.{no_race};

    ghost race = { no_race };

    ghost lanes = { [] };

    ghost keep = { false };
}
