//! A cluster of servers as one Rust value, [`World`]; each of its steps is a step of the exact cluster.
//!
//! ```text
//! let mut world: World<ListTable, PlainRace> = World::new(alloc, names, 2)?.ok_or("a cluster")?;
//! let outcome = world.step(&Event::Start { node: 0, inc })?;
//! let outcomes = world.run(&events)?;
//! let placements = world.placements();
//! ```
//!
//! Each step of a [`World`] is a step by the definitions of `world_law`, so what holds of every run holds of it:
//! the headline, and that a cluster at rest delivers (`settled_law`).
//!
//! Read first: [`Event`], [`World`], [`Outcome`]. The files in reading order: `events` and `outcomes`, `records`
//! (what is kept of what was done), `nodes` (the servers, and what an event hands to one), `lists` (what a step
//! adds), and `world`.
#![tactic(auto)]

mod events;
mod lists;
mod nodes;
mod outcomes;
mod records;
mod world;

pub use events::Event;
pub use outcomes::{Delivery, Outcome};
pub use records::{Life, LifeId, Placements, Publication};
pub use world::World;
pub use world_law::WorldFault;
