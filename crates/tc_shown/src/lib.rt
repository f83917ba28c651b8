//! Layer 5, engine: what each partition shows while its engine works on, and a scan over all of them on a thread of its own.
#![tactic(auto)]

mod fault;
mod joined;
mod law;
mod newest;
mod running;
mod scan;
mod shown;
mod snapshot;

pub use fault::ScanFault;
pub use law::parts_are_shown;
pub use running::RunningScan;
pub use scan::{Pass, Scan, ScanOut, Scanned};
pub use shown::Shown;
