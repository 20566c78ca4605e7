//! What the command line of the router asks for, and the options of a mesh and of one server of a mesh.
//!
//! ```text
//! match command_of(rt.alloc(), &words) {
//!     Ok(Command::Serve(given)) => serve(rt, rt.alloc(), &Options::new(given)?)?,
//!     Ok(Command::Node(given)) => serve_node(rt, rt.alloc(), &NodeOptions::new(given)?)?,
//!     Ok(command) => run(rt, command),
//!     Err(error) => tell_line(rt, &error),
//! }
//! ```
//!
//! Read first: [`Command`], [`Options`], [`NodeOptions`]. The files in reading order: `command` is what the words
//! ask for, and `options` what a mesh and one server of a mesh are told, or why the options are none.
#![tactic(auto)]

mod command;
mod options;

pub use command::{Command, command_of};
pub use options::{
    Given, MOST_DRAIN_SECONDS, MOST_PATH_BYTES, NodeGiven, NodeOptions, OptionFault, OptionName,
    Options,
};
