//! The parts of one server in code: a shard with the jobs that wait for it ([`ShardWithJobs`]), and the hub with
//! its sessions ([`HubWithSessions`]).
//!
//! ```text
//! let mut side = HubWithSessions::new(alloc, server)?;
//! let mut line: ShardWithJobs<ListTable> = ShardWithJobs::new(alloc, 1, 1)?;
//! let conn = line.attach()?;
//! line.subscribe(conn, key, sid)?;
//! let told = side.collect(1, line.deltas())?;
//! ```
//!
//! Whoever has them under one roof is a server; so has whoever keeps each under a lock of its own.
//!
//! Read first: [`ShardWithJobs`], [`HubWithSessions`], [`Issued`]. The files in reading order: `lines`, `side` and
//! `jobs` (a job for each line).
#![tactic(auto)]

mod jobs;
mod lines;
mod side;
mod told;

pub use jobs::{fill, finished_by, issue, route, take_in};
pub use lines::{Claimed, ShardWithJobs, place_of_conn, place_of_shard};
pub use side::{HubWithSessions, is_message};
pub use told::{CollectResult, Issued, Received};
