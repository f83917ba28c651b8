//! The jobs of a partition that are out.

ghost use Rattle.std.specs.Prelude.{◌≡◌, None, Some, IfSome, is_some};

use crate::beginning::{Beginning, Start};
use crate::pace::Pace;
use crate::running_job::RunningJob;
use std::alloc::Global;
use std::marker::Model;
use std::snapshot::Snapshot;
use std::thread::Threads;
use tc_flush::{FlushJob, FlushOut};
use tc_merge::{MergeJob, MergeOut};
use tc_store::Store;

/// The jobs of one partition that are out: a flush and a merge at most. Contracts see each as it was when it began. It stays on
/// the thread that made it, since that joins the threads of the jobs.
#[derive(Drop)]
pub struct Running<S: Store> {
    flush: Option<RunningJob<FlushJob<S>>>,
    merge: Option<RunningJob<MergeJob<S>>>,
}

impl<S: Store> Model for Running<S> {
    ghost use Rattle.std.specs.Coded.{codes};
    ghost use Rattle.tc_memory.specs.Table.{coded_table};
    ghost use Rattle.tc_running.specs.Jobs.{JobsState};
    ghost use Rattle.tc_schema_model.specs.CountedCode.{coded_counted};

    ghost Value = { JobsState S.Frozen S.Device S.Watch };

    ghost coded = { Prim.hlevel (codes, coded_table, coded_counted) };

    ghost view = { λ r. record { flush = r.flush; merge = r.merge } };
}

impl<S: Store> Running<S> {
    ghost use Rattle.tc_running.specs.Ran.{HasFlushed, HasMerged};

    /// No job.
    pub fn new() -> Running<S>
        ensures { result ≡ record { flush = None; merge = None } }
    {
        Running {
            flush: None,
            merge: None,
        }
    }

    /// Whether a flush is out.
    pub fn is_flushing(&self) -> bool
        ensures { result ≡ is_some self.now.flush }
    {
        self.flush.is_some()
    }

    /// Whether a merge is out.
    pub fn is_merging(&self) -> bool
        ensures { result ≡ is_some self.now.merge }
    {
        self.merge.is_some()
    }

    /// Starts a flush on a thread of its own, which comes to the point of the beginning before the flush makes a call. Where the
    /// thread is refused the flush is run here.
    pub fn start_flush<R: Threads, P: Pace + 'static>(
        &mut self,
        rt: &R,
        alloc: Global,
        job: FlushJob<S>,
        beginning: Beginning<P>,
    )
    where
        S: 'static,
        S::Device: 'static,
        S::Frozen: 'static,
        S::Watch: 'static,
        requires none_out { self.old.flush ≡ None }
        ensures { self.new ≡ record self.old { flush = Some job } }
    {
        self.flush = Some(RunningJob::start(
            rt,
            Snapshot::of(&job),
            beginning,
            move |_start: Start<P>| -> FlushOut<S>
                ensures { HasFlushed S.Device.history S.Device.size S.Device.name S.Watch.counts job result.watch result.device result.outcome }
            { job.run(alloc) },
        ));
    }

    /// Starts a merge, as a flush.
    pub fn start_merge<R: Threads, P: Pace + 'static>(
        &mut self,
        rt: &R,
        alloc: Global,
        job: MergeJob<S>,
        beginning: Beginning<P>,
    )
    where
        S: 'static,
        S::Device: 'static,
        S::Frozen: 'static,
        S::Watch: 'static,
        requires none_out { self.old.merge ≡ None }
        ensures { self.new ≡ record self.old { merge = Some job } }
    {
        self.merge = Some(RunningJob::start(
            rt,
            Snapshot::of(&job),
            beginning,
            move |_start: Start<P>| -> MergeOut<S>
                ensures { HasMerged S.Frozen.content S.Device.history S.Device.size S.Device.name S.Watch.counts job result.watch result.device result.outcome }
            { job.run(alloc) },
        ));
    }

    /// What is left of the flush that is out, once it has run. None, if none is out.
    pub fn join_flush<R: Threads>(&mut self, rt: &R) -> Option<FlushOut<S>>
        ensures taken { self.new ≡ record self.old { flush = None } }
        ensures some { is_some result ≡ is_some self.old.flush }
        ensures ran { IfSome result (λ out. IfSome self.old.flush (λ job. HasFlushed S.Device.history S.Device.size S.Device.name S.Watch.counts job out.watch out.device out.outcome)) }
    {
        match self.flush.take() {
            Some(flush) => Some(flush.join(rt)),
            None => None,
        }
    }

    /// What is left of the merge that is out, once it has run. None, if none is out.
    pub fn join_merge<R: Threads>(&mut self, rt: &R) -> Option<MergeOut<S>>
        ensures taken { self.new ≡ record self.old { merge = None } }
        ensures some { is_some result ≡ is_some self.old.merge }
        ensures ran { IfSome result (λ out. IfSome self.old.merge (λ job. HasMerged S.Frozen.content S.Device.history S.Device.size S.Device.name S.Watch.counts job out.watch out.device out.outcome)) }
    {
        match self.merge.take() {
            Some(merge) => Some(merge.join(rt)),
            None => None,
        }
    }
}
