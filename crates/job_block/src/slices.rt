//! Jobs that stand in a block one behind another.

ghost use Rattle.std.specs.Prelude.{◌≡◌, ◌≤◌, ◌<◌, ◌==◌, drop, length, slice_get, take, Some};
ghost use Rattle.job_block.specs.Blocks.{AreAlike};

use crate::blocks::JobBlock;
use crate::lent_jobs::LentJob;
use std::marker::Model;

/// Jobs that stand in a block one behind another.
///
/// Seen as their list.
#[derive(Drop)]
pub struct JobSlice<'a> {
    block: &'a JobBlock,
    start: usize,
    /// The place behind the last of them.
    end: usize,
}

impl<'a> Model for JobSlice<'a> {
    ghost use Rattle.std.specs.Prelude.{◌≤◌, List, length, slice_range};
    ghost use Rattle.subj.specs.declared.jobs.Job.{Job};

    ghost Value = { List Job };

    ghost view = { λ slice. slice_range slice.block.now.jobs slice.start slice.end };

    ghost invariant = { λ slice.
        (slice.start ≤ slice.end) × (slice.end ≤ length slice.block.now.jobs) };
}

impl<'a> JobSlice<'a> {
    /// The jobs of the block from this place on, counted from 0.
    pub fn from(block: &'a JobBlock, start: usize) -> JobSlice<'a>
        requires { start ≤ length block.now.jobs }
        ensures { result ≡ drop start block.now.jobs }
    {
        JobSlice {
            block,
            start,
            end: block.len(),
        }
    }

    /// How many jobs there are.
    pub fn len(&self) -> usize
        ensures { result ≡ length self.now }
    {
        self.end - self.start
    }

    /// Whether there are no jobs.
    pub fn is_empty(&self) -> bool
        ensures { result ≡ (length self.now == 0) }
    {
        self.end == self.start
    }

    /// The job at this place, counted from 0.
    pub fn get(&self, place: usize) -> LentJob<'a>
        requires { place < length self.now }
        ensures { slice_get self.now place ≡ Some result }
    {
        let _end = self.end;
        self.block.get(self.start + place)
    }

    /// The first so many jobs.
    pub fn first(&self, count: usize) -> JobSlice<'a>
        requires { count ≤ length self.now }
        ensures { result ≡ take count self.now }
    {
        JobSlice {
            block: self.block,
            start: self.start,
            end: self.start + count,
        }
    }

    /// The jobs behind the first so many.
    pub fn behind(&self, count: usize) -> JobSlice<'a>
        requires { count ≤ length self.now }
        ensures { result ≡ drop count self.now }
    {
        JobSlice {
            block: self.block,
            start: self.start + count,
            end: self.end,
        }
    }

    /// How many jobs from the first on are a run: each but the first has no header block and a payload of at most
    /// [`SHORT_BYTES`](crate::SHORT_BYTES), and has the subject, the publisher, the echo and the queue names of the one before it.
    pub fn run_len(&self) -> usize
        ensures most { result ≤ length self.now }
        ensures some { 0 < length self.now → 0 < result }
        ensures run { AreAlike (take result self.now) }
    {
        if self.start == self.end {
            return 0;
        }
        let mut end = self.start + 1;
        while end < self.end && self.block.goes_on(end) {
            end += 1;
        }
        end - self.start
    }
}
