//! Layer 1, base: the dictionary of a store's member names, which only grows.
#![tactic(auto)]

mod dictionary;
mod fault;
mod index;
mod section;
mod texts;

pub use dictionary::Names;
pub use fault::NamesFault;
