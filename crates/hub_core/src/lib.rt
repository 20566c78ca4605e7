//! The hub of a server: it numbers what its clients publish, chooses the server that serves each queue name, keeps
//! a view of each peer's interest, and takes or refuses the frames of peers.
//!
//! ```text
//! let mut hub = Hub::new(alloc, server)?;
//! let told = hub.collect(&deltas)?;
//! let job = hub.publish(conn, &publication, 0, &Finished::new())?;
//! let frames = hub.take_route(1, usize::MAX)?;
//! ```
//!
//! Read first: [`Hub`], [`PublishPlan`], [`HubFault`]. The files in reading order: `hub` has the state, and says
//! why a call is refused (`faults`); `planning` is what a publish owes, by who wants it (`audience`, which is kept
//! in mind of a hot subject) and by the choice of who serves each queue name (`publishing`), and `local` says
//! whether that is a job and nothing else; `collecting` counts what shards tell, by `collects`, which is what peers
//! are told of it, and `drains` how a server tells that it has none any more. `peers` keeps what is known of each:
//! what a frame of a peer does, the snapshot for one that comes up, and the frames that wait. `own_interest` is the
//! server's own. `answers` is what the calls give. `laws` and `examples` are what holds of all this.
#![tactic(auto)]

mod answers;
mod audience;
mod collecting;
mod collects;
mod drains;
mod examples;
mod faults;
mod hub;
mod laws;
mod local;
mod own_interest;
mod peers;
mod planning;
mod publishing;
mod settled;

pub use answers::{CollectResult, Received};
pub use collects::CollectPlan;
pub use drains::DrainPlan;
pub use examples::{
    a_peer_comes_up, a_publication_is_split, changes_are_heard_in_order, frames_are_taken_once,
    frames_need_room, queue_names_are_counted, the_window_is_kept, weights_are_units,
};
pub use faults::HubFault;
pub use hub::Hub;
pub use laws::{
    collects_follow_the_law, drains_follow_the_law, local_jobs_follow, publishes_follow_the_law,
    queue_names_are_wanted, receives_follow_the_law, sessions_follow_the_law,
    sound_hubs_stay_sound, the_rest_is_unseen,
};
pub use publishing::PublishPlan;
