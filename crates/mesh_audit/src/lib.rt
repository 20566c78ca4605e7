//! Writes what a script's run published, subscribed and placed as a log, and audits logs.
//!
//! ```text
//! script_audit_run::<TrieTable, CellsRace, _, _>(alloc, &mut source, &mut sink)?;
//! audit_run(alloc, &mut source, &mut sink)?;
//! ```
//!
//! [`script_audit_run`] plays a script, and writes what was published, subscribed and placed behind its text, as
//! the lines of a log. [`audit_run`] reads a log, whoever wrote it, and writes what its audit tells.
//!
//! Read first: [`audit_run`], [`script_audit_run`]. The files in reading order: `running` reads and tells the
//! verdict, and `writing` plays scripts and writes the lines of a log.
#![tactic(auto)]

mod running;
mod writing;

pub use running::{AuditFault, audit_run};
pub use writing::{script_audit_run, write_world};
