//! A lane: the bounded queue by which one thread hands jobs to another, in order.
//!
//! ```text
//! let (mut near, mut far) = lane(alloc, LANE_CAPACITY)?;
//! let run = Run::new(alloc, block).ok().ok_or("memory")?;
//! let is_pushed = near.push(rt, run).is_ok();
//! let turn = far.pop(rt);
//! let jobs = far.waiting();
//! ```
//!
//! Read first: [`Run`], [`LaneIn`], [`LaneOut`]. The files in reading order: `runs` is what a lane carries, `ends`
//! its two ends; `rule`, `steps` and `counts` are what its queue keeps.
#![tactic(auto)]

mod counts;
mod ends;
mod rule;
mod runs;
mod steps;

pub use ends::{LANE_CAPACITY, LaneIn, LaneOut, lane, meet};
pub use runs::Run;
