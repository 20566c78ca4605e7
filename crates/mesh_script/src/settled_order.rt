//! The work that a publication still needs in a cluster, in one order that settled delivery allows.
//!
//! ```text
//! let order = delivery(alloc, &world, node, conn, &publication, word)?;
//! world.settled_publish(node, conn, &publication, word, &order)?;
//! ```
//!
//! `settled_law` says in which orders the work of a publication may be done, and that some order always is right.
//! [`order_of`] makes that one, of what the hub of the publication's server planned; [`delivery`] does so of a
//! cluster that is settled for the publication. [`placements_are_told`] is a law of how many messages each event of
//! a run places.

mod deliveries;
mod laws;
mod order;

pub use deliveries::delivery;
pub use laws::placements_are_told;
pub use order::{Origin, order_of};
