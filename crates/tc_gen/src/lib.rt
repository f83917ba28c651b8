//! Layer 2, text: the lines that a demonstration runs on, and what it says of their replies.
#![tactic(auto)]

mod feed;
mod laws;
mod tally;
mod texts;

pub use feed::Feed;
pub use laws::generated_lines;
pub use tally::Tally;
