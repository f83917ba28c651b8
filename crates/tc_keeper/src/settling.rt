//! The engines are settled, one after the other.

ghost use Rattle.std.specs.Prelude.{◌≡◌, ◌≤◌, ◌<◌, ℕ, false, length, map, All, IfErr, IsErrOf, OnErr, OnOk, Option};
ghost use Rattle.tc_run_model.specs.World.{World};
ghost use Rattle.tc_keeper.specs.EngineFaults.{IfOf};
ghost use Rattle.tc_keeper.specs.Moving.{FailsSettling, Settles, StopsAt};
ghost use Rattle.tc_keeper.specs.Places.{AtEach};
ghost use Rattle.tc_keeper.specs.Standing.{HoldWorld, KeepWorlds};
ghost use Rattle.tc_keeper.specs.WithJobs.{engine_with, with_jobs, AreStaffed, IsStaffed};

use crate::engines::Engines;
use crate::engines_fault::EnginesFault;
use crate::seat::Seat;
use std::alloc::Global;
use std::thread::Threads;
use tc_running::{Pace, Running};
use tc_store::Store;
use tc_work::{EngineFault, Seen};

impl<S: Store, P: Pace> Engines<S, P> {
    /// Settles the engines one after the other, in ascending number, each as `Engine::settle` does. The first fault ends the
    /// call: the engines of greater partitions stay as they are.
    pub fn settle<R: Threads>(&mut self, rt: &R, alloc: Global) -> Result<(), EnginesFault>
    where
        S: 'static,
        S::Device: 'static,
        S::Frozen: 'static,
        S::Watch: 'static,
        P: 'static,
        requires few { length self.old ≤ 16 }
        requires sound { All (λ e. e.engine.part.failed ≡ false) self.old }

        // The engines stand at the same world, and behind a fault each by itself holds its part of it, or has failed and keeps it. So
        // it is of one engine by itself.
        ensures held { (only : Option ℕ) (w : World) → HoldWorld ⟦<S as Seen>⟧.eyes only self.old w → OnOk result (HoldWorld ⟦<S as Seen>⟧.eyes only self.new w) }
        ensures kept { (only : Option ℕ) (w : World) → HoldWorld ⟦<S as Seen>⟧.eyes only self.old w → OnErr result (KeepWorlds ⟦<S as Seen>⟧.eyes only self.new w w) }

        // Over every store each engine is as `Engine::settle` leaves it. The fault is that of the engine whose call failed: those
        // of lower partitions are settled, and those of greater ones stay as they are.
        ensures settled { OnOk result (AtEach (λ p old new. Settles ⟦<S as Seen>⟧.eyes (λ d. S.Device.size d) old new) 0 self.old self.new) }
        ensures stopped { IfErr result (λ fault. IfOf fault (λ p why. (p < length self.old) × AtEach (StopsAt p (Settles ⟦<S as Seen>⟧.eyes (λ d. S.Device.size d)) (FailsSettling ⟦<S as Seen>⟧.eyes why)) 0 self.old self.new)) }
        ensures of_engine { IsErrOf result EnginesFault.Memory → ⊥ }
    {
        settle_each(rt, alloc, &mut self.seats, &mut self.running)
    }
}

/// Settles the engine of each seat, up to the first fault.
fn settle_each<S: Store + 'static, P: Pace + 'static, R: Threads>(
    rt: &R,
    alloc: Global,
    seats: &mut [Seat<S, P>],
    running: &mut [Running<S>],
) -> Result<(), EnginesFault>
where
    S::Device: 'static,
    S::Frozen: 'static,
    S::Watch: 'static,
    requires few { length seats.old ≤ 16 }
    requires sound { All (λ e. e.part.failed ≡ false) (map (λ s. s.engine) seats.old) }
    requires staffed { AreStaffed ⟦<S as Seen>⟧.eyes (map (λ s. s.engine) seats.old) running.old }
    ensures many { length seats.new ≡ length seats.old }
    ensures staffed { AreStaffed ⟦<S as Seen>⟧.eyes (map (λ s. s.engine) seats.new) running.new }
    ensures settled { OnOk result (AtEach (λ p old new. Settles ⟦<S as Seen>⟧.eyes (λ d. S.Device.size d) old new) 0 (with_jobs (map (λ s. s.engine) seats.old) running.old) (with_jobs (map (λ s. s.engine) seats.new) running.new)) }
    ensures stopped { IfErr result (λ fault. IfOf fault (λ p why. (p < length seats.old) × AtEach (StopsAt p (Settles ⟦<S as Seen>⟧.eyes (λ d. S.Device.size d)) (FailsSettling ⟦<S as Seen>⟧.eyes why)) 0 (with_jobs (map (λ s. s.engine) seats.old) running.old) (with_jobs (map (λ s. s.engine) seats.new) running.new))) }
    ensures of_engine { IsErrOf result EnginesFault.Memory → ⊥ }
{
    for at in 0..seats.len() {
        match settle_one(rt, alloc, &mut seats[at], &mut running[at]) {
            Ok(()) => {}
            Err(fault) => {
                return Err(EnginesFault::Of {
                    partition: at as u32,
                    fault,
                });
            }
        }
    }
    Ok(())
}

/// Settles the engine of a seat, whose jobs these are.
fn settle_one<S: Store + 'static, P: Pace + 'static, R: Threads>(
    rt: &R,
    alloc: Global,
    seat: &mut Seat<S, P>,
    running: &mut Running<S>,
) -> Result<(), EngineFault>
where
    S::Device: 'static,
    S::Frozen: 'static,
    S::Watch: 'static,
    requires sound { seat.old.engine.part.failed ≡ false }
    requires staffed { IsStaffed ⟦<S as Seen>⟧.eyes seat.old.engine running.old }
    ensures staffed { IsStaffed ⟦<S as Seen>⟧.eyes seat.new.engine running.new }
    ensures settled { OnOk result (Settles ⟦<S as Seen>⟧.eyes (λ d. S.Device.size d) (engine_with seat.old.engine running.old) (engine_with seat.new.engine running.new)) }
    ensures stopped { IfErr result (λ why. FailsSettling ⟦<S as Seen>⟧.eyes why (engine_with seat.old.engine running.old) (engine_with seat.new.engine running.new)) }
{
    match seat.engine.settle(rt, alloc, running) {
        Ok(()) => Ok(()),
        Err(fault) => Err(fault),
    }
}
