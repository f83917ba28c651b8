//! Layer 2, text: the lines of a source, read piece by piece.
#![tactic(auto)]

mod intake;
mod reader;

pub use intake::{MAX_TAKEN, PIECE};
pub use reader::{Line, Lines};
