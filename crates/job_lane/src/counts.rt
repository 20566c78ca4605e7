//! How many jobs may wait in a lane, as the end that pushes knows it.

ghost use Rattle.std.specs.Prelude.{◌≡◌, ◌+◌, ◌-◌, ◌<◌, ◌≤◌, ◌∷◌, ◌++◌, [], nat_le, length, drop, IfOk};
ghost use Rattle.job_lane.specs.Rule.{total_of};

use std::alloc::{AllocError, Global};
use std::collections::VecDeque;
use std::marker::Model;

/// How many jobs each of the last runs has that were pushed, and how many jobs these may be together.
#[derive(Drop)]
pub struct Count {
    most: usize,
    jobs: usize,
    lengths: VecDeque<usize>,
}

impl Model for Count {
    ghost use Rattle.std.specs.VecDeque.{deque_capacity};
    ghost use Rattle.job_lane.specs.Rule.{Counts, IsCount};

    ghost Value = { Counts };

    ghost view = { λ count. record { most = count.most; lengths = count.lengths.items } };

    ghost invariant = { λ count.
        IsCount count.most count.jobs count.lengths.items (deque_capacity count.lengths) };
}

impl Count {
    /// Of no run, for at most so many jobs.
    pub fn new(alloc: Global, most: usize) -> Result<Count, AllocError>
        ensures { IfOk result (λ count. count ≡ record { most = most; lengths = [] }) }
    {
        let lengths = VecDeque::with_capacity(alloc, most)?;
        Ok(Count {
            most,
            jobs: 0,
            lengths,
        })
    }

    /// Whether a run of so many jobs may be added.
    pub fn has_room(&self, jobs: usize) -> bool
        ensures { result ≡ nat_le (total_of self.now.lengths + jobs) self.now.most }
    {
        jobs <= self.most - self.jobs
    }

    /// Adds a run of so many jobs.
    #[tactic(auto, using(crate::proofs::Lists::total_snoc, crate::proofs::Lists::some_snoc))]
    pub fn add(&mut self, jobs: usize)
        requires some { 0 < jobs }
        requires room { total_of self.old.lengths + jobs ≤ self.old.most }
        ensures { self.new
            ≡ record { most = self.old.most; lengths = self.old.lengths ++ jobs ∷ [] } }
    {
        self.lengths.push_back_reserved(jobs);
        self.jobs += jobs;
    }

    /// Forgets the first run.
    fn forget_first(&mut self)
        requires { 0 < length self.old.lengths }
        ensures { self.new ≡ record { most = self.old.most; lengths = drop 1 self.old.lengths } }
    {
        match self.lengths.pop_front() {
            Some(jobs) => self.jobs -= jobs,
            // required: there is a run
            None => unreachable!(),
        }
    }

    /// Forgets all but the last so many runs.
    pub fn keep_last(&mut self, runs: usize)
        ensures { self.new ≡ record {
          most = self.old.most;
          lengths = drop (length self.old.lengths - runs) self.old.lengths;
        } }
    {
        let forgotten = self.lengths.len().saturating_sub(runs);
        for _forgotten in 0..forgotten {
            self.forget_first();
        }
    }
}
