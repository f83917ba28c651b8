//! A scan that is out.

ghost use Rattle.std.specs.Prelude.{◌≡◌, ◌<◌, ◌^◌, All, length};
ghost use Rattle.tc_command.specs.Commands.{ask_of};
ghost use Rattle.tc_shown.specs.Scans.{HasScanned, ReadsAView};

use crate::scan::{Scan, ScanOut};
use std::alloc::Global;
use std::marker::Model;
use std::snapshot::Snapshot;
use std::thread::Threads;
use tc_running::{Beginning, Job, Pace, RunningJob, Start};
use tc_store::Frozen;

impl<F: Frozen> Job for Scan<F> {
    type Out = ScanOut<F>;

    ghost use Rattle.tc_command.specs.Commands.{ask_of};
    ghost use Rattle.tc_shown.specs.Scans.{HasScanned};

    ghost leaves = { λ scan out. HasScanned F.content F.Watch.counts (ask_of scan.ask) scan.passes.items out.passes.items out.outcome };
}

/// A scan that is out. Contracts see it as it was when it began. It stays on the thread that made it, since that joins its thread.
#[derive(Drop)]
pub struct RunningScan<F: Frozen> {
    job: RunningJob<Scan<F>>,
}

impl<F: Frozen> Model for RunningScan<F> {
    ghost use Rattle.std.specs.Coded.{codes};
    ghost use Rattle.logbook.specs.Pages.{book_coded};
    ghost use Rattle.tc_command.specs.Asks.{coded_hop};
    ghost use Rattle.tc_memory.specs.Table.{coded_table};
    ghost use Rattle.tc_model.specs.DocumentCode.{coded_document};
    ghost use Rattle.tc_schema_model.specs.CountedCode.{coded_counted};
    ghost use Rattle.tc_shown.specs.declared.scan.Scan.{Scan as begun};

    ghost Value = { begun F F.Watch };

    ghost coded = { Prim.hlevel (codes, book_coded, coded_table, coded_counted, coded_document, coded_hop) };

    ghost view = { λ r. r.job };
}

impl<F: Frozen> RunningScan<F> {
    /// Starts a scan on a thread of its own. That comes to the point of the beginning before the scan takes snapshots, and to
    /// `Point::ScanTaken` after that. Where the thread is refused the scan is run here, and both points are passed over.
    pub fn start<R: Threads, P: Pace + 'static>(
        rt: &R,
        alloc: Global,
        scan: Scan<F>,
        beginning: Beginning<P>,
    ) -> RunningScan<F>
    where
        F: 'static,
        F::Watch: 'static,
        requires few { length scan.passes.items < 2 ^ 32 }
        requires reads { All ReadsAView scan.passes.items }
        ensures { result ≡ scan }
    {
        let job = RunningJob::start(
            rt,
            Snapshot::of(&scan),
            beginning,
            move |start: Start<P>| -> ScanOut<F>
                requires few { length scan.passes.items < 2 ^ 32 }
                requires reads { All ReadsAView scan.passes.items }
                ensures { HasScanned F.content F.Watch.counts (ask_of scan.ask) scan.passes.items result.passes.items result.outcome }
            { scan.run(alloc, &start) },
        );
        RunningScan { job }
    }

    /// What is left of it, once it has run.
    pub fn join<R: Threads>(self, rt: &R) -> ScanOut<F>
        ensures { HasScanned F.content F.Watch.counts (ask_of self.ask) self.passes.items result.passes.items result.outcome }
    {
        self.job.join(rt)
    }
}
