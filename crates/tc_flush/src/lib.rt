//! Layer 3, files: the job that makes the component of a sealed memory table.
#![tactic(auto)]

mod counting;
mod entry;
mod job;
mod laws;
mod learning;
mod record;
mod tallying;
mod writing;

pub use counting::counted;
pub use job::{FlushJob, FlushOut, FlushParts};
pub use laws::{flushes_are_made, kept_shapes_fit, lists_are_counted};
pub use learning::names_fit;
