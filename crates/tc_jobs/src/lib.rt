//! Layer 4, partition: what a flush or a merge begins with, and the component that it made, read back and judged.
#![tactic(auto)]

mod fault;
mod flushing;
mod laws;
mod listing;
mod merging;
mod naming;
mod reading;
mod removing;

pub use fault::{JobFault, of_read};
pub use flushing::{FlushInputs, flush_inputs};
pub use laws::inputs_are_newest;
pub use listing::{list_flush, list_merge};
pub use merging::{merge_inputs, merged_head};
pub use naming::{goes_behind, goes_between, names_damage};
pub use reading::{load_own, read_back};
pub use removing::{remove_file, remove_unshared};
