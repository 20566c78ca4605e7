//! A mesh of servers in one process: [`serve`] runs it as its options say. [`serve_node`] runs one server of a mesh
//! whose others are elsewhere.
//!
//! ```text
//! let given = Given { nodes: 3, port: 4222, shards: 2, inc: 1, word: 0, stop_after: None, loops: 1, log_level: "info", drain_seconds: 30,
//!     control: None };
//! let options = Options::new(given)?;
//! serve(rt, rt.alloc(), &options)?;
//! ```
//!
//! `planned` says which servers a process has and where they are reached; `serving` reads the file of a mesh where
//! there is one, binds the sockets of these servers, and has the names of other servers' hosts looked up, each in a
//! thread of its own; `running` runs each server in threads of its own, one for each of its loops; `control` has both
//! ends of the socket by which they are told to drain; `faults` are the causes for which a mesh is not served any
//! more, and for which none drains.
//!
//! Read first: [`serve`], [`serve_node`], [`ServeFault`].
#![tactic(auto)]

mod control;
mod faults;
mod planned;
mod running;
mod serving;

pub use control::ask_drain;
pub use faults::{DrainFault, NodeFault, SecretFileFault, ServeFault};
pub use planned::ready_line;
pub use serving::{check_mesh, serve, serve_node};
