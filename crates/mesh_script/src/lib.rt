//! Plays a script: makes its events in a cluster, one after another, and writes a line for each.
//!
//! ```text
//! let mut source = MemSource::new(bytes);
//! let mut sink = MemSink::new(alloc);
//! script_run::<ListTable, PlainRace, _, _>(alloc, &mut source, &mut sink)?;
//! match_run(alloc, b"orders.*", b"orders.new", &mut sink)?;
//! ```
//!
//! [`play`] makes the events of a script in the exact cluster and writes a line for each of them, and for each
//! question and behind each delivery one that is no event's; then one for each message that was placed, and a last
//! line; [`script_run`] reads the script first, and [`script_world_run`] gives the cluster too. Beside it,
//! [`match_run`] tells whether one pattern matches one subject. [`delivery`] gives the work that a publication still
//! needs in a cluster that is settled for it.
//!
//! Read first: [`play`], [`script_run`], [`PlayFault`]. The files in reading order: `player`, which asks for the
//! events of each step and makes them, `settled_order`, which orders the work behind a delivery, `whole_runs`, which
//! reads a script first, and `output`, which writes lines.
#![tactic(auto)]

mod output;
mod player;
mod settled_order;
mod whole_runs;

pub use output::PlayFault;
pub use player::play;
pub use settled_order::{Origin, delivery, order_of, placements_are_told};
pub use whole_runs::{MatchFault, RunFault, match_run, script_run, script_world_run};
