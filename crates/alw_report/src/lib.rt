//! The report of a run, as text.
#![tactic(auto)]

mod entries;
mod head;
mod json_text;
mod lists;
mod memory;
mod names;
mod reports;
mod values;
mod worked_runs;

pub use entries::{meta_name, put_pointers, state_name};
pub use head::{put_ended, put_ended_line, put_params, put_sizes};
pub use json_text::json;
pub use lists::{
    put_heading, put_memory, put_print_lines, put_prints, put_run_lines, put_runs, put_word_lines,
};
pub use memory::put_line;
pub use names::{kind_name, mode_name, put_status};
pub use reports::{report, summary};
pub use values::{DirectoryLine, DirectoryLines, Report};
pub use worked_runs::{worked_json, worked_reports};
