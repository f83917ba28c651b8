//! Layer 5, opening: a partition is opened. What a stop left of it is read, files that nobody needs are removed, the logs above
//! the components are replayed into a memory table and flushed, all components are merged where there are many, and the
//! partition starts with a new log.
#![tactic(auto)]

mod below;
mod clearing;
mod fault;
mod flushing;
mod flushing_logs;
mod log_inputs;
mod merging;
mod merging_all;
mod opening;
mod reading;
mod removal_laws;
mod removing;
mod replaying;
mod resting;
mod starting;
mod steps;
mod tidying;

pub use fault::{OpenCause, OpenFault};
pub use opening::open_part;
