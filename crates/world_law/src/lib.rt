//! The exact cluster as definitions: servers that start and stop, the frames that they send to each other, and what
//! was published, subscribed and placed, found by comparing each server before and after a step; and what holds of
//! every step and of every run.
//!
//! ```text
//! // A function that calls a law is proved with what the law says.
//! publications_are_placed_once();
//! ```
//!
//! Each law is a function with an empty body. In code are only the refusals.
//!
//! Read first: [`publications_are_placed_once`]. The files in reading order: `laws` are those over runs, and
//! `values` those that a cluster as a value can say of itself.
#![tactic(auto)]

mod faults;
mod laws;
mod values;

pub use faults::WorldFault;
pub use laws::{
    a_cut_is_written, a_full_window_refuses_publishes, a_lower_incarnation_is_refused,
    a_restart_is_written, a_restart_refuses_old_frames, a_snapshot_tells_what_was_collected,
    a_stale_message_is_written, carried_worlds_keep_the_headline, carried_worlds_rest_on_this,
    claims_are_written, connections_are_written, crossed_dials_are_written, each_event_goes_on,
    each_event_has_a_step, each_server_ran, echo_is_kept, every_list_is_a_run, finished_turns_stay,
    headers_go_where_they_are_taken, it_rests_on_this, lives_close_by_cause, names_are_unique,
    new_entries_were_put, new_worlds_are_carried, open_lives_are_subscriptions,
    own_messages_are_written, placements_are_one, publications_are_counted,
    publications_are_placed_once, puts_are_placed, scripts_are_runs, servers_are_sound,
    servers_keep_their_laws, starts_and_stops_are_written, steps_keep_worlds_carried,
    taken_frames_were_sent, two_shards_share_a_group, two_words_are_written,
    waiting_entries_are_kept,
};
pub use values::{
    carried_echo_is_kept, carried_frames_were_sent, carried_lives_are_open,
    carried_names_are_unique,
};
