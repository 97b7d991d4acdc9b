//! What holds of the machine after every legal journal, and what that gives. The functions are laws
//! with empty bodies: each clause is a theorem over the definitions in specs/.
#![tactic(auto)]

mod flat_laws;
mod full_map_laws;
mod headline;
mod line_laws;
mod machine_laws;
mod run_laws;
mod standing_machine;

pub use flat_laws::{memory_is_flat, same_turns_same_memory};
pub use full_map_laws::{homes_are_full_maps, same_messages_same_home};
pub use headline::ended_journals_are_coherent;
pub use line_laws::{
    answers_are_owed, copies_are_current, no_unlisted_combination, replies_meet_transactions,
    writers_are_alone,
};
pub use machine_laws::{
    clocks_are_small, holders_have_copies, machine_is_sound, waiting_has_a_transaction,
};
pub use run_laws::{
    ended_contexts_stay, halted_machines_rest, never_stuck, replies_are_used, runs_are_bounded,
};
pub use standing_machine::{entries_and_caches_stand, lines_are_sound};
