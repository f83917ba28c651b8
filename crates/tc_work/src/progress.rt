//! How far a run is in the commands of one partition.

use std::sync::Arc;
use tc_running::{Pace, Point};

/// The pace of a run, and how many commands of the partition were answered. The count stands still at its type's end.
#[derive(Drop)]
pub(crate) struct Progress<P: Pace> {
    pub(crate) pace: Arc<P>,
    answered: u64,
}

impl<P: Pace> Progress<P> {
    /// No command was answered.
    pub(crate) fn new(pace: Arc<P>) -> Progress<P> {
        Progress { pace, answered: 0 }
    }

    /// The reply to a command of this partition was made, and the run comes to the point behind it.
    pub(crate) fn replied(&mut self, partition: u32) {
        let number = self.answered;
        self.answered = number.saturating_add(1);
        self.pace.at(Point::Replied { partition, number });
    }
}
