//! Layer 2, text: the words of the command line, and what they ask for.
#![tactic(auto)]

mod asked;
mod fault;
mod grammar;
mod run;
mod words;

pub use asked::Invocation;
pub use fault::WordsFault;
pub use run::Options;
pub use words::{check_asked, invocation};
