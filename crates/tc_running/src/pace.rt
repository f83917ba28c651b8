//! Points that a run comes to, at which a test may hold it.

/// A point of a run.
#[derive(Clone, Copy, Debug, PartialEq, Eq)]
pub enum Point {
    /// The thread of a flush has begun, and made no call on its device yet.
    FlushStarted { partition: u32 },
    /// So has the thread of a merge.
    MergeStarted { partition: u32 },
    /// The thread of a scan has begun, and took no snapshot yet.
    ScanStarted,
    /// It took a snapshot of each partition, and made no read yet.
    ScanTaken,
    /// The reply to a command of the partition was made. They are counted from 0 over the run.
    Replied { partition: u32, number: u64 },
}

/// What is done at the points of a run, on the threads that come to them. It changes no answer.
pub trait Pace: Send + Sync + Drop {
    fn at(&self, point: Point);
}

/// Does nothing.
#[derive(Clone, Copy, Debug, Drop)]
pub struct Free;

impl Pace for Free {
    fn at(&self, _point: Point) {}
}
