//! Layer 2, text: which document a JSON value means, and which value and which text a document is.
#![tactic(auto)]

mod fault;
mod reading;
mod wholeness;
mod writing;

pub use fault::JsonFault;
pub use reading::doc_of;
pub use wholeness::is_whole;
pub use writing::{text_of, value_of};
