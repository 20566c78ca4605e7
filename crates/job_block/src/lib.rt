//! The jobs of several publications in one block: their bytes one behind another, so that a job costs no memory of
//! its own.
//!
//! ```text
//! let mut block = JobBlock::new(alloc, first_turn, 32)?;
//! block.push(&publication, origin, queues)?;
//! let job = block.get(0);
//! let parts = job.publication();
//! block.clear(next_turn);
//! ```
//!
//! Read first: [`JobBlock`], [`JobSlice`], [`LentJob`]. The files in reading order: `publications` is what is put
//! into a block, `blocks` the block, `lent_jobs` and `slices` how its jobs are seen; `spans` and `kept` are how it
//! keeps them.
#![tactic(auto)]

mod blocks;
mod kept;
mod lent_jobs;
mod publications;
mod slices;
mod spans;

pub use blocks::{JOB_BYTES, JobBlock, KEPT_BYTES};
pub use kept::{Origin, SHARED_BYTES, SHORT_BYTES};
pub use lent_jobs::LentJob;
pub use publications::{LentPub, PublicationParts};
pub use slices::JobSlice;
