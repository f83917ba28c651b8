//! Layer 3, files: an audit of components, which reads each record and counts all documents anew.
#![tactic(auto)]

mod auditing;
mod before;
mod counting;
mod fault;
mod law;
mod older;
mod outline;
mod shapes;
mod stop;
mod stored;
mod stored_like;
mod times;
mod verdict;
mod walk;

pub use auditing::audit;
pub use fault::AuditFault;
pub use law::stored_records_make_contents;
pub use verdict::{Verdict, Wrong};
