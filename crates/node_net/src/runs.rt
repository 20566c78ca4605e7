//! What a link has come to, after a run of what it asks.

ghost use Rattle.std.specs.Prelude.{◌≡◌, ◌<◌, ◌^◌, ◌+◌, ◌-◌, min};

use crate::limits::MESSAGE_COST;

/// As how many bytes a message counts whose header block and payload have so many; an answer counts as one of none.
pub(crate) fn cost_of(body: usize) -> usize {
    body.saturating_add(MESSAGE_COST)
}

/// What a run came to. A run is what is done under one hold of a lock.
#[derive(Clone, Copy, PartialEq, Eq)]
pub(crate) enum Ran {
    /// More bytes are needed.
    Waits,
    /// More is to be done, which may be of another kind.
    Goes,
    /// A shard is a window behind: the same is asked again once the shards have worked.
    Busy,
    /// There was no memory. The same is asked again later.
    Short,
    /// Nothing is asked any more: the connection is closed once its last line is written.
    Shut,
    /// What came is refused: the connection is closed.
    Refused,
    /// Another server told another name than it had proved: the connection is closed.
    Posed,
}

/// What a run has done beside what it came to.
#[derive(Clone, Copy)]
pub(crate) struct RunOutcome {
    pub end: Ran,
    /// As how many bytes the messages count that were handed to the shards.
    pub issued: usize,
    /// Whether jobs are left that were not handed to all shards, for want of memory.
    pub is_unpushed: bool,
    /// As how many bytes the lines count that were put for the client itself.
    pub replied: usize,
    /// Whether the hub has not heard of all that the shard opened and closed.
    pub has_deltas: bool,
    /// Whether the client was told of a refusal behind which it is closed.
    pub is_refused: bool,
    /// Whether nothing was asked in it.
    pub is_empty: bool,
}

impl RunOutcome {
    /// A run that has done nothing else.
    pub fn of(end: Ran) -> RunOutcome
        ensures { result.end ≡ end }
    {
        RunOutcome {
            end,
            issued: 0,
            is_unpushed: false,
            replied: 0,
            has_deltas: false,
            is_refused: false,
            is_empty: true,
        }
    }

    /// A message that counts as so many bytes was handed to the shards; none was for 0.
    pub fn count(&mut self, bytes: usize)
        ensures { self.new.end ≡ self.old.end }
    {
        self.issued = self.issued.saturating_add(bytes);
    }

    /// So many messages were handed to the shards, which have so many bytes together.
    pub fn count_run(&mut self, count: u64, bytes: usize)
        ensures end { self.new.end ≡ self.old.end }
        ensures issued { 0 < count → 0 < self.new.issued }
    {
        let cost = MESSAGE_COST.saturating_mul(count as usize);
        self.issued = self.issued.saturating_add(bytes).saturating_add(cost);
    }
}
