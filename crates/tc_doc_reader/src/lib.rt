//! Layer 2, text: the document that a JSON text means, read without a JSON value in between.
#![tactic(auto)]

mod guesses;
mod integers;
mod members;
mod reading;

pub use reading::DocReader;
