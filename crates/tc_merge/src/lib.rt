//! Layer 3, files: the job that merges neighbouring components into one.
#![tactic(auto)]

mod fault;
mod input;
mod job;
mod laws;
mod least;
mod mergeable;
mod merging;
mod writing;

pub use fault::MergeFault;
pub use job::{MergeJob, MergeOut, MergeParts};
pub use laws::merges_are_made;
pub use mergeable::can_merge;
