//! Layer 5, engine: the files of all partitions of a store, audited one after the other, and the line that is written for each.
#![tactic(auto)]

mod auditing;
mod fault;
mod line;
mod reasons;

pub use auditing::{Checked, check_all};
pub use fault::CheckedFault;
pub use line::put_verdict;
