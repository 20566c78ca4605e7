//! Runs of jobs.

ghost use Rattle.std.specs.Prelude.{◌≡◌, ◌<◌, ◌≤◌, true, false, length, drop, IfOk, IfErr};
ghost use Rattle.job_lane.specs.Runs.{GoesOn};

use job_block::{JobBlock, JobSlice};
use std::alloc::{AllocError, Global};
use std::marker::Model;
use std::sync::Arc;

/// One or more jobs that were made one behind another. Each lane that they are handed to shares them.
/// (Profile.)
///
/// Seen as the list of the jobs.
#[derive(Drop)]
pub struct Run {
    block: Arc<JobBlock, Global>,
    /// How many jobs of the block stand before those of the run.
    before: usize,
}

impl Model for Run {
    ghost use Rattle.std.specs.Prelude.{List, drop, length, ◌<◌};
    ghost use Rattle.std.specs.Arc.{arc_value};
    ghost use Rattle.subj.specs.declared.jobs.Job.{Job};

    ghost Value = { List Job };

    ghost view = { λ run. drop run.before (arc_value run.block).jobs };

    ghost invariant = { λ run. run.before < length (arc_value run.block).jobs };
}

impl Run {
    /// A run of the jobs of this block. Required: there is one at least. Where there is no memory the block comes back.
    pub fn new(alloc: Global, block: JobBlock) -> Result<Run, JobBlock>
        requires { 0 < length block.jobs }
        ensures ok { IfOk result (λ run. run ≡ block.jobs) }
        ensures err { IfErr result (λ back. back ≡ block) }
    {
        match Arc::new(alloc, block) {
            Ok(block) => Ok(Run { block, before: 0 }),
            Err(failed) => Err(failed.value),
        }
    }

    /// The same run, for one more lane. The jobs are shared and not copied.
    pub fn try_clone(&self) -> Result<Run, AllocError>
        ensures { IfOk result (λ run. run ≡ self.now) }
    {
        let block = Arc::try_clone(&self.block)?;
        Ok(Run {
            block,
            before: self.before,
        })
    }

    /// The jobs, in order.
    pub fn jobs(&self) -> JobSlice<'_>
        ensures same { result ≡ self.now }
        ensures some { 0 < length self.now }
    {
        JobSlice::from(&self.block, self.before)
    }

    /// How many jobs it has.
    pub(crate) fn len(&self) -> usize
        ensures same { result ≡ length self.now }
        ensures some { 0 < result }
    {
        self.jobs().len()
    }

    /// Leaves its first job behind where there is another: whether it did.
    pub(crate) fn go_on(&mut self) -> bool
        ensures more { result ≡ true → GoesOn self.old self.new }
        ensures last { result ≡ false → (self.new ≡ self.old) × (length self.old ≡ 1) }
    {
        let last = self.block.len() - 1;
        if self.before >= last {
            return false;
        }
        self.before += 1;
        true
    }

    /// Leaves so many of its first jobs behind. Required: it has more.
    pub(crate) fn leave(&mut self, count: usize)
        requires { count ≤ length (drop 1 self.old) }
        ensures { self.new ≡ drop count self.old }
    {
        // so many jobs there are, and as many can be counted
        let _len = self.block.len();
        self.before += count;
    }
}
