//! The runs of a server on threads: that of its hub and that of each shard, when they are legal together, and what
//! holds of every legal run.
//!
//! ```text
//! use thread_law::legal_runs_are_once;
//!
//! // A function that calls a law is proved with what the law says.
//! legal_runs_are_once();
//! ```
//!
//! All is definitions and laws: each law is a function with an empty body.
//!
//! Read first: [`legal_runs_are_once`].
#![tactic(auto)]

mod laws;

pub use laws::legal_runs_are_once;
