//! The report of a server on threads at its end: the server made a legal run, and its tapes and the passes of its
//! callers say the same.
//!
//! ```text
//! let mut pass = Pass::new(alloc);
//! let conn = pass.attach(rt, &node, 1)?;
//! pass.publish(rt, &node, conn, &publication, 0)?;
//! passes.push(pass)?;
//! let report = finish(rt, alloc, node, passes)?;
//! ```
//!
//! A server (`thread_node`) needs none of it to run: a caller that wants no report makes the server's own calls.
//!
//! Read first: [`Pass`], [`Report`], [`Unfinished`]. The files in reading order: `passes` is what a caller asked
//! and was told, with the server's calls that tell it to a pass (`hub_calls`, `shard_calls`), `hub_lists` and
//! `shard_lists` what a pass keeps of an answer and lends, and `asking` the events that it keeps. `report` is the
//! end, and `issued` names the publications that it tells of. That what was written down is what callers were told
//! is seen by `asked`, `passes_told`, `same` and `order`, with `hub_replay` and `shard_replay`, which do again what
//! stands on the tapes; that the hub was handed what the shards gave is seen by `handing`. `laws` says that what is
//! done again is what the run did. `faults` says why there is no report.
#![tactic(auto)]

mod asked;
mod asking;
mod faults;
mod handing;
mod hub_lists;
mod hub_replay;
mod issued;
mod laws;
mod order;
mod passes;
mod passes_told;
mod report;
mod same;
mod shard_lists;
mod shard_replay;

pub use faults::Unfinished;
pub use hub_lists::HubLists;
pub use issued::IssuedJob;
pub use laws::{hub_tapes_are_answered, tapes_are_answered};
pub use passes::{Call, CallAnswer, Pass};
pub use report::{Report, finish};
pub use shard_lists::ShardLists;
