//! An audit of what was published, subscribed and placed in a cluster, whoever wrote it down.
//!
//! ```text
//! let found = audit(alloc, &publications, &lives, &placements)?;
//! ```
//!
//! [`audit`] tells the first placement that, with those before it, breaks the clause that every run of the exact
//! cluster keeps: a publication is placed at most once for a plain subscription, and for a queue name for at most
//! one member in the whole cluster; and what is placed is the exact `MSG` or `HMSG` of a publication of an earlier
//! step (`HMSG` just where that has headers and the connection took them), for a subscription that matches and was
//! open at that step. It reads the lists alone, and shares no code with the cluster that made them.
//!
//! Read first: [`Placement`], [`audit`]. The files in reading order: `placements` is a list of placements, one by
//! one; `keys` names as keys in order; `audits` has what a subscription is due of a publication, publications and
//! subscriptions by their names, and what was placed so far, goes over the list, and says what it tells of a run of
//! the exact cluster.
#![tactic(auto)]

mod audits;
mod keys;
mod placements;

pub use audits::{audit, runs_pass_the_audit, worlds_pass_the_audit};
pub use placements::{Placement, each_placement};
