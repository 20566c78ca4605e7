//! The traits through which connections call a server, so that they work with any server.
//!
//! ```text
//! let Some(mut shard) = server.shard(rt, 1) else {
//!     return;
//! };
//! let id = shard.attach()?;
//! let next = shard.work_next(rt);
//! ```
//!
//! A server has a hub and some shards, which it hands out one at a time (`server`). Of a shard (`shard`) a client's
//! connection makes the calls of `client_calls`, all but publications, which it makes of the hub (`hub`); a route
//! makes its calls of the hub too.
//!
//! Read first: [`ServerCalls`], [`ShardCalls`], [`HubCalls`].
#![tactic(auto)]

mod hub;
mod server;
mod shard;
mod view;

pub use hub::HubCalls;
pub use server::ServerCalls;
pub use shard::{NextJob, ShardCalls};
pub use view::{LoopPlace, LoopView, loop_of_client, one_loop_owns_each_shard};
