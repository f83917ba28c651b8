//! The engine: one partition, how its components are merged, and whether a call failed.

use crate::progress::Progress;
use std::marker::Model;
use std::sync::Arc;
use tc_list::{ComponentList, Policy};
use tc_memory::Sealed;
use tc_part::Part;
use tc_running::Pace;
use tc_store::Store;

/// An engine over one partition. Between two calls nothing is staged, and a flush is out where a table is sealed; a merge may be
/// out too. The jobs that are out stand beside the engine, and are handed to the calls that begin and end them. After a call that
/// answers a fault the engine has failed, and takes no more windows.
#[derive(Drop)]
pub struct Engine<S: Store, P: Pace> {
    pub(crate) part: Part<S>,
    pub(crate) policy: Policy,
    pub(crate) progress: Progress<P>,
    pub(crate) failed: bool,
}

impl<S: Store, P: Pace> Model for Engine<S, P> {
    ghost use Rattle.std.specs.Coded.{codes};
    ghost use Rattle.tc_memory.specs.Table.{coded_table};
    ghost use Rattle.tc_schema_model.specs.CountedCode.{coded_counted};
    ghost use Rattle.tc_work.specs.EngineState.{EngineState, IsBetweenCalls};

    ghost Value = { EngineState S S.Device S.Frozen S.Watch };

    ghost coded = { Prim.hlevel (codes, coded_table, coded_counted) };

    ghost view = { λ e. record { part = record e.part { failed = e.failed }; policy = e.policy } };

    ghost invariant = { λ e. IsBetweenCalls (λ f. S.Frozen.size f) e.policy e.part e.failed };
}

impl<S: Store, P: Pace> Engine<S, P> {
    ghost use Rattle.std.specs.Arc.{arc_value};
    ghost use Rattle.std.specs.Prelude.{◌≡◌, [], None, Some, true, false, is_some, length, option_map};
    ghost use Rattle.tc_merge.specs.Merging.{GrowNames};
    ghost use Rattle.tc_part.specs.OwnComponents.{AreOwnComponents};
    ghost use Rattle.tc_running.specs.Jobs.{JobsState};
    ghost use Rattle.tc_work.specs.JobsOut.{AreOut};

    /// The engine of a part, whose components are merged by this policy, and whose run comes to points of this pace. Starts nothing.
    pub fn new(part: Part<S>, policy: Policy, pace: Arc<P>) -> Engine<S, P>
        requires nothing_staged { part.staged ≡ [] }
        requires none_sealed { part.sealed ≡ None }
        requires no_flush { part.flushing ≡ false }
        requires no_merge { part.merging ≡ None }
        ensures made { result ≡ record { part = part; policy = policy } }
        ensures jobs { AreOut S.history S.Device.history S.Frozen.content S.Device.name result.part (record { flush = None; merge = None }) }
    {
        Engine {
            failed: part.failed(),
            part,
            policy,
            progress: Progress::new(pace),
        }
    }

    /// A law, and no work but a look at each listed component: over every store each is one of its partition, and what its file is
    /// judged to be.
    pub fn components_are_own(&self)
        ensures { AreOwnComponents S.Frozen.content self.now.part.number self.now.part.count self.now.part.list }
    {
        self.part.components_are_own();
    }

    /// Whether a call answered a fault.
    pub fn failed(&self) -> bool
        ensures { result ≡ self.now.part.failed }
    {
        self.failed
    }

    /// The length of the active log in bytes. It is 22 exactly where the log has no frame.
    pub fn log_len(&self) -> u64
        ensures { result ≡ S.Device.size self.now.part.log.device }
    {
        self.part.log_len()
    }

    /// How many components are listed.
    pub fn listed(&self) -> usize
        ensures { result ≡ length self.now.part.list }
    {
        self.part.listed()
    }

    /// Whether there is a table that is to be flushed.
    pub fn has_sealed(&self) -> bool
        ensures { result ≡ is_some self.now.part.sealed }
    {
        self.part.has_sealed()
    }

    /// How many keys the active table has an entry of.
    pub fn active_len(&self) -> usize
        ensures { result ≡ length self.now.part.active }
    {
        self.part.active_len()
    }

    /// The components that are listed, the oldest first.
    pub fn list(&self) -> &ComponentList<S::Frozen>
        ensures all { result.now ≡ self.now.part.list }

        // Over every store the names of each go on from those of the one before.
        ensures names { GrowNames [] result.now }
    {
        self.part.list()
    }

    /// The table that is to be flushed, where there is one.
    pub fn sealed(&self) -> Option<&Arc<Sealed>>
        ensures { option_map (λ table. arc_value table.now) result ≡ self.now.part.sealed }
    {
        self.part.sealed()
    }

    /// Lends the reader's watch to reads beside the engine, until it is taken back. The engine cannot be finished meanwhile.
    pub fn lend_watch(&mut self) -> S::Watch
        requires home { is_some self.old.part.reader ≡ true }
        ensures lent { Some result ≡ self.old.part.reader }
        ensures out { self.new ≡ record self.old { part = record self.old.part { reader = None } } }
        ensures jobs { (jobs : JobsState S.Frozen S.Device S.Watch) → AreOut S.history S.Device.history S.Frozen.content S.Device.name self.old.part jobs → AreOut S.history S.Device.history S.Frozen.content S.Device.name self.new.part jobs }
    {
        self.part.lend_watch()
    }

    /// Takes the reader's watch back.
    pub fn take_watch(&mut self, watch: S::Watch)
        requires out { self.old.part.reader ≡ None }
        ensures home { self.new ≡ record self.old { part = record self.old.part { reader = Some watch } } }
        ensures jobs { (jobs : JobsState S.Frozen S.Device S.Watch) → AreOut S.history S.Device.history S.Frozen.content S.Device.name self.old.part jobs → AreOut S.history S.Device.history S.Frozen.content S.Device.name self.new.part jobs }
    {
        self.part.take_watch(watch)
    }
}
