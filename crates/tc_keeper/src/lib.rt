//! Layer 5, engine: what keeps the documents of a run, which are the engines of its partitions, what each shows to scans, and the scan that is out.
#![tactic(auto)]

mod answering;
mod engines;
mod engines_fault;
mod fault;
mod flushing;
mod keeper;
mod lending;
mod schema_texts;
mod seat;
mod settling;
mod showing;
mod window;

pub use engines::Engines;
pub use engines_fault::EnginesFault;
pub use fault::{RunFault, of_engine};
pub use keeper::Keeper;
