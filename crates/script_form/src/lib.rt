//! The form of a script: which bytes are a script, and what each of its steps says.
//!
//! ```text
//! let script = Script::read(alloc, b"{\"nodes\":[\"n1\"],\"shards\":1,\"steps\":[]}")?;
//! for step in script.steps() {
//!     make(script.names(), step);
//! }
//! ```
//!
//! A script is JSON that names the servers of a cluster and says step by step what is done in it. [`Script::read`]
//! reads just those bytes that are one, and tells of all others the first cause for which they are none.
//!
//! Read first: [`Script`], [`Step`], [`ScriptFault`]. The files in reading order: `steps` is what a script says,
//! and the words that it is said with; `script` reads members of a JSON object, a step, and the whole. `faults` has
//! the causes, and where they hold.
#![tactic(auto)]

mod faults;
mod script;
mod steps;

pub use faults::{Place, ScriptError, ScriptFault};
pub use script::Script;
pub use steps::{Act, Member, Step};
