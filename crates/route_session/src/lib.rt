//! The sessions of a server with its peers: who dialed whom, and which completed session with a peer is kept.
//!
//! ```text
//! let mut sessions = Sessions::new(alloc, server);
//! let session = sessions.dial(1)?;
//! let (kept, connect) = sessions.on_info(session, &info, 0)?;
//! assert_eq!(rt; sessions.kept_session(1), Some(session));
//! ```
//!
//! Read first: [`Sessions`], [`Kept`], [`SessionFault`]. The files in reading order: `offers` says which of two
//! sessions is the better one, `session` keeps those that stand, and `sessions` has the calls.
#![tactic(auto)]

mod examples;
mod faults;
mod laws;
mod offers;
mod session;
mod session_ids;
mod sessions;

pub use examples::{
    crossed_dials_keep_one_session, refusals_come_in_order, the_worse_session_is_refused,
};
pub use faults::SessionFault;
pub use laws::{
    both_ends_keep_the_same, the_best_offer_is_kept, the_best_stays_kept, the_better_session_stays,
};
pub use session_ids::SessionId;
pub use sessions::{Kept, Sessions};
