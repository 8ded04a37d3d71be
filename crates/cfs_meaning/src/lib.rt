//! What a run of scripts means, and what holds of every run.
#![tactic(auto)]

mod devices;
mod example;
mod halt;
mod images;
mod laws;
mod line;
mod power;

pub use devices::{keep_tag, keep_word};
pub use example::{the_lines_answer, the_writes_answer};
pub use halt::Halt;
pub use images::{load, save};
pub use laws::{
    answers_are_only, calm_runs_answer, changes_make_steps, closes_keep_shown, cores_stay_reached,
    crashed_runs_recover, crashes_leave_less, crashes_recover, files_are_good, homes_are_shown,
    lines_change_well, lines_have_answers, lines_keep_shown, lines_keep_stored, logs_follow_lines,
    marks_keep_shown, mounts_map_once, mounts_show, names_keep_shown, names_stay_legal,
    new_stores_are_clear, new_stores_are_home, new_stores_are_stored, open_files_are_granted,
    reads_are_right, runs_keep_cores, runs_keep_mapped, shown_files_recover,
};
pub use line::{crash_line, fail_line, stop_line};
pub use power::{crash, number_of, plan, stop};
