//! Layer 5, engine: one partition of the store, in memory and in its files. It begins with what was opened, writes are staged
//! and committed, keys are looked up, queries get their rows, a table is sealed and flushed, neighbours are merged, and it is closed.
#![tactic(auto)]

mod below;
mod closing;
mod committing;
mod deleting;
mod fault;
mod flushed;
mod flushing;
mod lending;
mod limits;
mod looking;
mod merged;
mod merging;
mod names;
mod own_files;
mod part;
mod querying;
mod records;
mod retired;
mod schema_text;
mod sealing;
mod staging;
mod starting;
mod sweeping;
mod upserting;

pub use fault::PartFault;
pub use limits::Limits;
pub use own_files::{parts_hold_devices, parts_own_files};
pub use part::Part;
pub use records::shape_at;
pub use staging::Staged;
pub use starting::Opened;
