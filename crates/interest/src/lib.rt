//! The interest of a server's clients: how many subscriptions are open for each key, and what the other servers are
//! told when that changes.
//!
//! ```text
//! let mut counts = Local::new(alloc)?;
//! let mut view = View::new(alloc);
//! if let Some(change) = counts.apply(&Delta { key, up: true })? {
//!     view.apply_update(1, change)?;
//! }
//! ```
//!
//! Read first: [`Change`], [`Local`], [`View`]. The files in reading order: `changes` is what is told; `local` is
//! the server's own interest, and `views` that of a peer, both over keys in order (`ordered_keys`, `keys`). `seeks`
//! with `sights` finds the keys that match a subject, `matches` and `names` say who wants it. `tally` and
//! `recounts` count many changes at once.
#![tactic(auto)]

mod changes;
mod faults;
mod keys;
mod laws;
mod local;
mod matches;
mod names;
mod ordered_keys;
mod recounts;
mod seeks;
mod sights;
mod tally;
mod views;

pub use changes::Change;
pub use faults::InterestFault;
pub use keys::Keys;
pub use laws::{
    counts_and_changes_agree, counts_are_of_the_open, counts_can_be_told, openings_are_counted,
    views_are_of_their_origin,
};
pub use local::{Local, told_weight};
pub use names::{FoundNames, TooManyNames};
pub use recounts::{Numbers, Recount};
pub use tally::DeltaPlan;
pub use views::View;
