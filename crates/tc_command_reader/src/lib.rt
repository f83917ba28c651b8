//! Layer 2, text: what a line asks for, read straight where it is an upsert.
#![tactic(auto)]

mod reader;
mod upserts;

pub use reader::CommandReader;
