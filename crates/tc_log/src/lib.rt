//! Layer 2, disk: the write-ahead log of a partition.
#![tactic(auto)]

mod entry;
mod frame;
mod head;
mod layout;
mod log;
mod reading;
mod reserving;
mod write;

pub use head::LogHead;
pub use layout::MAX_NUMBER;
pub use log::Log;
pub use reading::{LogRead, logs_mean_one, read_frames, read_log_head};
pub use reserving::Frame;
pub use write::{Write, Writes};
