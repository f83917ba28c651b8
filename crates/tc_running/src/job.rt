//! What a job is: what it leaves once it has run.

use tc_flush::{FlushJob, FlushOut};
use tc_merge::{MergeJob, MergeOut};
use tc_store::Store;

/// A job that can run on a thread of its own. A value of the type is the job as it was when it began.
pub trait Job {
    /// What is left of it.
    type Out: Drop;

    /// This may be left of it.
    ghost leaves: { Self → Self.Out → Type 0 };
}

impl<S: Store> Job for FlushJob<S> {
    type Out = FlushOut<S>;

    ghost use Rattle.tc_running.specs.Ran.{HasFlushed};

    ghost leaves = { λ job out. HasFlushed S.Device.history S.Device.size S.Device.name S.Watch.counts job out.watch out.device out.outcome };
}

impl<S: Store> Job for MergeJob<S> {
    type Out = MergeOut<S>;

    ghost use Rattle.tc_running.specs.Ran.{HasMerged};

    ghost leaves = { λ job out. HasMerged S.Frozen.content S.Device.history S.Device.size S.Device.name S.Watch.counts job out.watch out.device out.outcome };
}
