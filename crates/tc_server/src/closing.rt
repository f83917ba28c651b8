//! The partitions of a run are closed, and their kits given back.

ghost use Rattle.std.specs.Prelude.{◌≡◌, ◌≤◌, ◌+◌, ◌++◌, ◌∷◌, true, false, is_some, All, List, length, map, vec_capacity, vec_len};
ghost use Rattle.tc_keeper.specs.Places.{AtEach};
ghost use Rattle.tc_part.specs.FilesOut.{HoldsDevices};
ghost use Rattle.tc_part_model.specs.PartState.{told};
ghost use Rattle.tc_keeper.specs.Faults.{faults_in};
ghost use Rattle.tc_server.specs.Kits.{fault_before, least_fault, IsClosed};
ghost use Rattle.tc_work.specs.JobsOut.{AreOut};
ghost use Rattle.tc_work.specs.Settling.{MaySettle};
ghost use Rattle.tc_work.specs.declared.finishing.Finished.{Finished as finished};

use std::alloc::Global;
use std::thread::Threads;
use tc_keeper::{Engines, RunFault, of_engine};
use tc_running::{Pace, Running};
use tc_store::{Kit, Store};
use tc_work::{Engine, EngineFault, Finished, Seen};

/// Kits that are given back, and the fault with which the engine of the least partition ended, if any did.
#[derive(Drop)]
pub(crate) struct Closed<S: Store> {
    pub(crate) kits: Vec<Kit<S>>,
    pub(crate) fault: Option<RunFault>,
}

/// Closes all engines, and puts their kits before these, in ascending number. There is room for them.
pub(crate) fn close_all<R: Threads, S: Store + 'static, P: Pace + 'static>(
    rt: &R,
    alloc: Global,
    engines: Engines<S, P>,
    kits: Vec<Kit<S>>,
) -> Closed<S>
where
    S::Device: 'static,
    S::Frozen: 'static,
    S::Watch: 'static,
    requires few { length engines ≤ 16 }
    requires readers { All (λ e. is_some e.engine.part.reader ≡ true) engines }
    requires room { length engines + vec_len kits ≤ vec_capacity kits }
    ensures { (ended : List (finished S S.Watch S.Device S.Frozen)) × (result.kits.items ≡ map (λ f. f.kit) ended ++ kits.items) × (result.fault ≡ least_fault 0 (map (λ f. f.outcome) ended))
        × AtEach (λ p e f. IsClosed ⟦<S as Seen>⟧.eyes (λ d. S.Device.size d) e f.outcome (S.history f.kit.store) (faults_in (λ w. S.Watch.counts w) f.kit)) 0 engines ended }
{
    let mut engines = engines;
    let mut kits = kits;
    let mut fault = None;
    for _ in 0..engines.len() {
        let Some((engine, jobs)) = engines.pop() else {
            unreachable!();
        };
        let Finished { kit, outcome } = close(rt, alloc, engine, jobs);
        put_first(&mut kits, kit);
        fault = fault_with(engines.len() as u32, outcome, fault);
    }
    Closed { kits, fault }
}

// Puts a kit before the others, for which there is room.
fn put_first<S: Store>(kits: &mut Vec<Kit<S>>, kit: Kit<S>)
    requires room { vec_len kits.old + 1 ≤ vec_capacity kits.old }
    ensures items { kits.new.items ≡ kit ∷ kits.old.items }
    ensures room { vec_capacity kits.old ≤ vec_capacity kits.new }
    ensures longer { vec_len kits.new ≡ vec_len kits.old + 1 }
{
    if kits.insert(0, kit).is_err() {
        unreachable!();
    }
}

// The fault with which engines ended, of which this one has the least number; those behind it ended by that fault, or by none.
fn fault_with(
    partition: u32,
    outcome: Result<(), EngineFault>,
    behind: Option<RunFault>,
) -> Option<RunFault>
    ensures { result ≡ fault_before partition outcome behind }
{
    match outcome {
        Err(fault) => Some(of_engine(partition, fault)),
        Ok(()) => behind,
    }
}

/// Closes an engine, once its jobs have ended, and gives its kit back. It may have failed.
pub(crate) fn close<R: Threads, S: Store + 'static, P: Pace + 'static>(
    rt: &R,
    alloc: Global,
    engine: Engine<S, P>,
    jobs: Running<S>,
) -> Finished<S>
where
    S::Device: 'static,
    S::Frozen: 'static,
    S::Watch: 'static,
    requires ready { engine.part.failed ≡ false → MaySettle (told S.history S.Device.history S.Frozen.content engine.part) }
    requires reader { is_some engine.part.reader ≡ true }
    requires jobs { AreOut S.history S.Device.history S.Frozen.content S.Device.name engine.part jobs }
    requires devices { HoldsDevices (told S.history S.Device.history S.Frozen.content engine.part) }
    ensures { IsClosed ⟦<S as Seen>⟧.eyes (λ d. S.Device.size d) (record { engine = engine; jobs = jobs }) result.outcome (S.history result.kit.store) (faults_in (λ w. S.Watch.counts w) result.kit) }
{
    engine.components_are_own();
    engine.finish(rt, alloc, jobs)
}
