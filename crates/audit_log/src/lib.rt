//! A log of what was published, subscribed and placed in a cluster, as lines of JSON, and the audit of it.
//!
//! ```text
//! let log = Log::read(alloc, bytes)?;
//! let found = log.audit()?;
//! ```
//!
//! Whoever writes such lines, another router too, can have them audited. [`Log::read`] reads just those bytes that
//! are a log, and tells of all others the refusal of the first line that is none of a log's; [`Log::audit`] tells
//! the first placement that breaks the clause with those before it.
//!
//! Read first: [`Log`], [`LogFault`], [`LogError`]. The files in reading order: `entries` says how bytes are called
//! in a line, and reads what an object tells, member by member; `logs` cuts bytes into lines, and gathers what they
//! tell. `faults` has the causes for which bytes are no log.
#![tactic(auto)]

mod entries;
mod faults;
mod logs;

pub use entries::Text;
pub use faults::{LogError, LogFault};
pub use logs::Log;
