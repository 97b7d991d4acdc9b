//! What commands say of one another. The functions are laws: each clause is a theorem over definitions, and no body does
//! more than to call a law that it stands on.
#![tactic(auto)]

mod laws;

pub use laws::{
    checkpoints_are_resumed, claims_are_found_sound, every_schedule_is_told,
    finished_runs_are_resumed, logs_tell_runs, saved_runs_go_on, sources_are_assembled,
    states_go_on_alike, told_ends_are_of_runs, told_turns_are_scheduled, traces_report_the_same,
    traces_tell_their_times,
};
