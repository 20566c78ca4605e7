//! Reads and writes the frames of routes, which the servers of a cluster send each other. What they hold is of
//! `route_values`, and is named here too, so that a crate above needs no other.
//!
//! ```text
//! let line = RouteLine::read(alloc, text)?;
//! let frame = line.into_frame(alloc, payload)?;
//! let mut out = Vec::new(alloc);
//! encode(&frame, &mut out)?;
//! ```
//!
//! Read first: [`RouteLine`], [`encode`], [`RouteFault`]. The files in reading order: `line_reading` splits a line
//! and judges it as it stands there; `snapshot_reading` and `greetings` read the texts of snapshots, and of `INFO`
//! and `CONNECT`; `reading` copies what a line says, keeps it until its payload comes, and reads whole frames;
//! `encoding` writes them; `faults` has the refusals.
#![tactic(auto)]

mod encoding;
mod faults;
mod greetings;
mod laws;
mod line_reading;
mod reading;
mod snapshot_reading;

pub use encoding::encode;
pub use faults::RouteFault;
pub use laws::{
    canonical_is_read_again, spelling_begins_no_other, spelt_is_what_is_read,
    written_is_read_in_any_parts,
};
pub use reading::{NumberedLine, RouteLine, Unjoined, decode, payload_size};
pub use route_values::{
    Body, Numbered, RouteConnect, RouteFrame, RouteInfo, SnapshotKeys, WeightedKey,
};
