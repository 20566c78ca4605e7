//! The contents of the frames that servers send each other, as values; each value can be written as bytes.
//!
//! ```text
//! let key = Key { pattern, queue: None };
//! let weighted = WeightedKey::new(key, 1).ok_or("a weight")?;
//! let frame = Numbered::new(from, inc, to, to_inc, 1, Body::Plus(weighted));
//! let frame = RouteFrame::Numbered(frame.ok_or("a frame")?);
//! ```
//!
//! Read first: [`RouteFrame`], [`Body`], [`SnapshotKeys`]. The files in reading order: `info` and `connect` are how
//! two servers greet one another; `bodies` is what a numbered frame says, with `snapshots` of interest, and
//! `frames` has all frames. `valid` says what holds of each value.
#![tactic(auto)]

mod bodies;
mod connect;
mod frames;
mod info;
mod snapshots;
mod valid;

pub use bodies::Body;
pub use connect::RouteConnect;
pub use frames::{Numbered, RouteFrame};
pub use info::RouteInfo;
pub use snapshots::{SnapshotKeys, WeightedKey};
