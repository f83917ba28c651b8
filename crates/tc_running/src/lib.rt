//! Layer 4, partition: the jobs that are out, each on a thread of its own while the partition works on, and what a join hands on of it.
#![tactic(auto)]

mod beginning;
mod job;
mod pace;
mod running;
mod running_job;
mod underway;

pub use beginning::{Beginning, Start};
pub use job::Job;
pub use pace::{Free, Pace, Point};
pub use running::Running;
pub use running_job::RunningJob;
