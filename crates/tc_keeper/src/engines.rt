//! The engines of all partitions of a store.

use crate::seat::Seat;
use std::alloc::Global;
use std::marker::Model;
use std::sync::Arc;
use tc_bytes::Memory;
use tc_list::ComponentList;
use tc_memory::Sealed;
use tc_running::{Pace, Running};
use tc_store::Store;
use tc_work::{Engine, Seen};

/// The engines of the partitions of a store, in ascending number, and the jobs of each that are out. Contracts see a list of
/// engines, each with its jobs. The jobs stay on the thread that made them, and apart from the engines, which go to others.
#[derive(Drop)]
pub struct Engines<S: Store, P: Pace> {
    pub(crate) seats: Vec<Seat<S, P>>,
    pub(crate) running: Vec<Running<S>>,
}

impl<S: Store, P: Pace> Model for Engines<S, P> {
    ghost use Rattle.std.specs.Coded.{codes};
    ghost use Rattle.std.specs.Prelude.{List, map};
    ghost use Rattle.tc_memory.specs.Table.{coded_table};
    ghost use Rattle.tc_schema_model.specs.CountedCode.{coded_counted};
    ghost use Rattle.tc_keeper.specs.WithJobs.{with_jobs, AreStaffed, WithJobs};
    ghost use Rattle.tc_work.specs.Moving.{eyes};

    ghost Value = { List (WithJobs S S.Device S.Frozen S.Watch) };

    ghost coded = { Prim.hlevel (codes, coded_table, coded_counted) };

    ghost view = { λ e. with_jobs (map (λ seat. seat.engine) e.seats.items) e.running.items };

    ghost invariant = { λ e. AreStaffed (eyes S.history S.Device.history S.Frozen.content S.Device.name S.Frozen.size S.Watch.counts) (map (λ seat. seat.engine) e.seats.items) e.running.items };
}

impl<S: Store, P: Pace> Engines<S, P> {
    ghost use Rattle.std.specs.Arc.{arc_value};
    ghost use Rattle.std.specs.Prelude.{◌≡◌, ◌<◌, ℕ, [], ◌∷◌, ◌++◌, true, false, Option, None, Some, is_some, option_map, IfErr, IfOk, IfSome, OnErr, OnOk, length};
    ghost use Rattle.tc_merge.specs.Merging.{GrowNames};
    ghost use Rattle.tc_part.specs.FilesOut.{HoldsDevices};
    ghost use Rattle.tc_part.specs.OwnComponents.{AreOwnComponents};
    ghost use Rattle.tc_part_model.specs.PartState.{told};
    ghost use Rattle.tc_run_model.specs.World.{World};
    ghost use Rattle.tc_work.specs.JobsOut.{AreOut};
    ghost use Rattle.tc_work.specs.Settling.{MaySettle};
    ghost use Rattle.tc_keeper.specs.Places.{AtEach, IsAt};
    ghost use Rattle.tc_keeper.specs.Standing.{HoldWorld, KeepWorlds};
    ghost use Rattle.tc_keeper.specs.WithJobs.{engine_with, no_jobs, ReadsBy};

    /// No engine, with room for so many. Errs only for want of memory.
    pub fn with_capacity(alloc: Global, partitions: u32) -> Result<Engines<S, P>, Memory>
        ensures { IfOk result (λ engines. engines ≡ []) }
    {
        Ok(Engines {
            seats: Vec::with_capacity(alloc, partitions as usize)?,
            running: Vec::with_capacity(alloc, partitions as usize)?,
        })
    }

    /// Adds the engine of the next partition, of which no job is out. Gives it back for want of memory alone, which is not wanting
    /// where there is room. Each engine that was opened holds its devices, and goes on to, whatever is done.
    pub fn push(&mut self, alloc: Global, engine: Engine<S, P>) -> Result<(), Engine<S, P>>
        requires no_jobs { AreOut S.history S.Device.history S.Frozen.content S.Device.name engine.part no_jobs }
        requires ready { engine.part.failed ≡ false → MaySettle (told S.history S.Device.history S.Frozen.content engine.part) }
        requires devices { HoldsDevices (told S.history S.Device.history S.Frozen.content engine.part) }
        ensures pushed { OnOk result (self.new ≡ self.old ++ engine_with engine no_jobs ∷ []) }
        ensures same { OnErr result (self.new ≡ self.old) }
        ensures back { IfErr result (λ back. back ≡ engine) }
    {
        match self.seats.reserve(1) {
            Ok(()) => match self.running.reserve(1) {
                Ok(()) => {
                    self.seats.push_reserved(Seat::of(alloc, engine));
                    self.running.push_reserved(Running::new());
                    Ok(())
                }
                Err(_) => Err(engine),
            },
            Err(_) => Err(engine),
        }
    }

    /// Takes the engine of the greatest partition out, with its jobs that are out, so that it can be finished. Takes no memory.
    pub fn pop(&mut self) -> Option<(Engine<S, P>, Running<S>)>
        ensures last { IfSome result (λ pair. self.old ≡ self.new ++ engine_with pair.0 pair.1 ∷ []) }
        ensures none { result ≡ None → (self.old ≡ []) × (self.new ≡ []) }
        ensures jobs { IfSome result (λ pair. AreOut S.history S.Device.history S.Frozen.content S.Device.name pair.0.part pair.1) }
        ensures ready { IfSome result (λ pair. pair.0.part.failed ≡ false → MaySettle (told S.history S.Device.history S.Frozen.content pair.0.part)) }
        ensures devices { IfSome result (λ pair. HoldsDevices (told S.history S.Device.history S.Frozen.content pair.0.part)) }
    {
        match self.seats.pop() {
            Some(seat) => match self.running.pop() {
                Some(running) => Some((seat.into_engine(), running)),
                None => unreachable!(),
            },
            None => None,
        }
    }

    /// How many there are.
    pub fn len(&self) -> usize
        ensures { result ≡ length self.now }
    {
        self.seats.len()
    }

    /// A law, and no work but a look at each component that is listed in the partition of this number: over every store each is one
    /// of this partition, and what its file is judged to be.
    pub fn components_are_own(&self, at: usize)
        requires there { at < length self.now }
        ensures { IsAt at self.now (λ e. AreOwnComponents S.Frozen.content e.engine.part.number e.engine.part.count e.engine.part.list) }
    {
        self.seats[at].engine.components_are_own();
    }

    /// How many keys the active table of the partition of this number has an entry of.
    pub fn active_len(&self, at: usize) -> usize
        requires there { at < length self.now }
        ensures { IsAt at self.now (λ e. result ≡ length e.engine.part.active) }
    {
        self.seats[at].engine.active_len()
    }

    /// The components that are listed in the partition of this number, the oldest first.
    pub fn list(&self, at: usize) -> &ComponentList<S::Frozen>
        requires there { at < length self.now }
        ensures all { IsAt at self.now (λ e. result.now ≡ e.engine.part.list) }

        // Over every store the names of each go on from those of the one before.
        ensures names { GrowNames [] result.now }
    {
        self.seats[at].engine.list()
    }

    /// The table that is to be flushed in the partition of this number, where there is one.
    pub fn sealed(&self, at: usize) -> Option<&Arc<Sealed>>
        requires there { at < length self.now }
        ensures { IsAt at self.now (λ e. option_map (λ table. arc_value table.now) result ≡ e.engine.part.sealed) }
    {
        self.seats[at].engine.sealed()
    }

    /// Lends the reader's watch of the partition of this number to reads beside the engines, until it is taken back. Its engine
    /// cannot be finished meanwhile; all else goes on.
    pub fn lend_watch(&mut self, at: usize) -> S::Watch
        requires home { IsAt at self.old (λ e. is_some e.engine.part.reader ≡ true) }
        ensures lent { IsAt at self.old (λ e. Some result ≡ e.engine.part.reader) }
        ensures out { AtEach (ReadsBy at None) 0 self.old self.new }
        ensures held { (only : Option ℕ) (w : World) → HoldWorld ⟦<S as Seen>⟧.eyes only self.old w → HoldWorld ⟦<S as Seen>⟧.eyes only self.new w }
        ensures kept { (only : Option ℕ) (w v : World) → KeepWorlds ⟦<S as Seen>⟧.eyes only self.old w v → KeepWorlds ⟦<S as Seen>⟧.eyes only self.new w v }
    {
        self.seats[at].engine.lend_watch()
    }

    /// Takes the reader's watch of the partition of this number back.
    pub fn take_watch(&mut self, at: usize, watch: S::Watch)
        requires out { IsAt at self.old (λ e. e.engine.part.reader ≡ None) }
        ensures home { AtEach (ReadsBy at (Some watch)) 0 self.old self.new }
        ensures held { (only : Option ℕ) (w : World) → HoldWorld ⟦<S as Seen>⟧.eyes only self.old w → HoldWorld ⟦<S as Seen>⟧.eyes only self.new w }
        ensures kept { (only : Option ℕ) (w v : World) → KeepWorlds ⟦<S as Seen>⟧.eyes only self.old w v → KeepWorlds ⟦<S as Seen>⟧.eyes only self.new w v }
    {
        self.seats[at].engine.take_watch(watch)
    }
}
