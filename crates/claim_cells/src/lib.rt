//! The race of a server's shards for queue names, on threads: a table of atomic words that the hub and each shard
//! change without a lock, each through a seat of its own.
//!
//! ```text
//! let (cells, mut hub, mut seats) = Cells::new(alloc, 1)?;
//! let mut seat = seats.pop().unwrap();
//! cells.issue(&mut hub)?;
//! cells.see(&mut seat);
//! let won = seat.has_turn() && cells.claim(&mut seat, 0);
//! ```
//!
//! What is proved holds between any two steps, whatever threads make them and in whatever order they come. Which
//! shard wins a pair, that a thread gets on, and one common order of all steps are not said.
//!
//! Read first: [`Cells`], [`ShardSeat`], [`CellsRace`]. The files in reading order: `seats` are what the hub and
//! each shard step with, `cells` has the calls, `steps` the steps on single words and `plays` their rule; `closing`
//! is the end of a race, and `cells_race` the same race for one thread.
#![tactic(auto)]

mod cells;
mod cells_race;
mod closing;
mod parts;
mod plays;
mod seats;
mod steps;

pub use cells::Cells;
pub use cells_race::CellsRace;
pub use closing::Closed;
pub use parts::{HubPart, ShardPart};
pub use seats::{HubSeat, ShardSeat};
pub use subj::{Busy, Finished, Turn};
