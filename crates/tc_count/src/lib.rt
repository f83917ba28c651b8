//! Layer 2, schema: the schema of documents, counted plainly from all of them, which every other count is compared with.
#![tactic(auto)]

mod counting;
mod gathering;
mod inferring;
mod naming;

pub use inferring::{Inferred, infer, shapes_of};
