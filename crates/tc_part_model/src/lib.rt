//! Layer 4, partition: what a part means, which is a state of the machine, and that each of its calls keeps it. There is no
//! code here but laws, which are functions that do nothing.
#![tactic(auto)]

mod closing;
mod commit;
mod failing;
mod flushing;
mod inputs;
mod merging;
mod moments;
mod removing;
mod sealing;
mod staging;
mod starting;

pub use closing::{closed_parts_keep_store, closed_parts_open_as_they_are, closings_leave_store};
pub use commit::commits_are_kept;
pub use failing::{failed_devices_leave_store, failed_parts_keep_files, failures_are_kept};
pub use flushing::{
    failed_flushes_are_kept, failed_flushes_leave_store, flushes_are_listed, flushes_begin,
};
pub use inputs::{
    jobs_have_made, merges_go_between, runs_can_merge, sealed_tables_can_flush,
    told_components_are_loaded,
};
pub use merging::{failed_merges_are_kept, merges_are_listed, merges_begin};
pub use moments::moments_follow;
pub use removing::unlisted_files_go;
pub use sealing::{failed_seals_are_kept, seals_are_kept, seals_leave_store};
pub use staging::{staged_is_kept, tables_hold_keys};
pub use starting::{openings_end, parts_start};
