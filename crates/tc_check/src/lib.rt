//! Layer 5, opening: an audit of the files of a partition, which reads them as an opening does, then each record of each component that
//! counts, and looks at the logs above these. It says that the files are lawful and how many documents are stored in them, or
//! the first thing that is wrong.
#![tactic(auto)]

mod checking;
mod counting;
mod fault;
mod long;
mod naming;
mod verdict;

pub use checking::check_part;
pub use counting::documents_after;
pub use fault::CheckFault;
pub use long::first_long;
pub use naming::names_fit_behind;
pub use verdict::{Over, Reason, Verdict};
