//! One shard of a server: its connections with what waits for them, its open subscriptions, and the job that it
//! works off.
//!
//! ```text
//! let mut shard: Shard<ListTable> = Shard::new(alloc, 1, 1)?;
//! let conn = shard.attach()?;
//! shard.subscribe(conn, key, sid)?;
//! let begun = shard.begin(job, false)?;
//! let entries = shard.take(conn, usize::MAX)?;
//! ```
//!
//! Read first: [`Shard`], [`Openings`], [`Conns`]. The files in reading order: `shard` has the calls, `calls` their
//! answers, and `shard/refusals` why they are refused; `connections` keeps the outboxes (`standings`: whether one
//! has room), `openings` the open subscriptions; `delivery_buffer` is what Begin places, by `receiver_walk` where
//! who receives the subject is noted (`receivers`); `queue_claim` with `members` is the choice of one member.
//!
//! A run of jobs of one subject goes to the same receivers, so [`Shard::deliver_run`] (`shard/runs`) delivers it at
//! once, by `run_delivery`; `run_laws` says that this leaves what the jobs leave, worked one after the other.
//! `claim_laws` speaks of jobs that claim one queue name, and `claim_run` works them ([`Shard::work_claims`], in
//! `shard/claims`).
#![tactic(auto)]

mod calls;
mod claim_laws;
mod claim_run;
mod connections;
mod delivery_buffer;
mod dirty_conns;
mod examples;
mod faults;
mod laws;
mod members;
mod notes;
mod openings;
mod queue_claim;
mod receiver;
mod receiver_walk;
mod receivers;
mod run_delivery;
mod run_laws;
mod shard;
mod standings;

pub use calls::{BeginFault, Begun, Candidate, Closed, Placed, Subscribed};
pub use claim_laws::{claims_are_steps, rooms_go_on};
pub use claim_run::Claims;
pub use connections::Conns;
pub use dirty_conns::DirtyConns;
pub use examples::{
    an_outbox_is_filled, claims_place_once, headers_are_sent, maxima_are_kept, members_take_turns,
    openings_are_told, room_is_filled, the_slow_are_closed,
};
pub use faults::ShardFault;
pub use laws::{
    closings_are_told, entries_are_messages, entries_are_put, limits_stay, numbers_tell_shards,
    options_are_chosen, room_decides, shards_follow_the_law, subs_close_by_cause, subs_go_on,
    subs_stay_held,
};
pub use openings::Openings;
pub use queue_claim::claims_are_whole;
pub use run_laws::{
    alike_by_fields, alike_go_to_all, counts_go_on, entries_go_on, run_by_hand, runs_are_worked,
    runs_count_by_receivers, runs_go_by_conns, runs_go_by_receivers, runs_go_on, runs_go_to_noted,
};
pub use shard::Shard;
