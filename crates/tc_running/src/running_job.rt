//! A job that is out.

ghost use Rattle.std.specs.Prelude.{◌≡◌};
ghost use Rattle.tc_running.specs.declared.beginning.Start.{Start};

use crate::beginning::{Beginning, Start};
use crate::job::Job;
use crate::pace::Pace;
use crate::underway::Underway;
use std::marker::Model;
use std::snapshot::Snapshot;
use std::thread;
use std::thread::{Promise, PromisedHandle, Threads};

/// That a job has run: the fact that its thread is promised to keep.
#[derive(Drop)]
pub(crate) struct Ran<J>(Snapshot<J>);

impl<J: Job> Promise<J::Out> for Ran<J> {
    ghost kept_by = { λ ran out. J.leaves ran.0.value out };
}

/// A job that is out. Contracts see it as it was when it began. It stays on the thread that made it, since that joins its thread.
#[derive(Drop)]
pub struct RunningJob<J: Job> {
    at: Underway<PromisedHandle<J::Out, Ran<J>>, J::Out>,
    of: Snapshot<Ran<J>>,
}

impl<J: Job> Model for RunningJob<J> {
    ghost use Rattle.std.specs.Prelude.{◌≡◌};
    ghost use Rattle.tc_running.specs.Jobs.{IsUnderway};

    ghost Value = { J };

    ghost view = { λ r. r.of.value.0.value };

    ghost invariant = { λ r. IsUnderway r.at (λ handle. handle.promise ≡ r.of.value) (λ out. J.leaves r.of.value.0.value out) };
}

impl<J: Job> RunningJob<J> {
    /// Starts a job, whose code is `run`, on a thread of its own. That comes to the point of the beginning before it calls `run`. Where
    /// the thread is refused `run` is called here, and all points are passed over.
    pub fn start<R: Threads, P: Pace + 'static, F: FnOnce(Start<P>) -> J::Out + Send + 'static>(
        rt: &R,
        job: Snapshot<J>,
        beginning: Beginning<P>,
        run: F,
    ) -> RunningJob<J>
    where
        J::Out: Send + 'static,
        requires runs { (start : Start P) → F.pre run start }
        requires leaves { (start : Start P) (out : J.Out) → F.post run start out → J.leaves job.value out }
        ensures { result ≡ job.value }
    {
        let ran = Ran(job);
        let of = Snapshot::of(&ran);
        let (start, refusal) = beginning.split();
        let begun = thread::spawn_with(
            rt,
            ran,
            move || -> J::Out
                requires { F.pre run start }
                ensures { F.post run start result }
            {
                start.reach();
                run(start)
            },
        );
        match begun {
            Ok(handle) => RunningJob {
                at: Underway::OnThread(handle),
                of,
            },
            Err(refused) => {
                refusal.tell();
                RunningJob {
                    at: Underway::Done((refused.value)()),
                    of,
                }
            }
        }
    }

    /// What is left of it, once it has run.
    pub fn join<R: Threads>(self, rt: &R) -> J::Out
        ensures { J.leaves self result }
    {
        let RunningJob { at, of: _ } = self;
        match at {
            Underway::OnThread(handle) => handle.join(rt),
            Underway::Done(out) => out,
        }
    }
}
