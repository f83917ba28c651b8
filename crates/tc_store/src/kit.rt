//! A store with the watches that its users count with, and where such kits come from.

ghost use Rattle.std.specs.Prelude.{◌≡◌, ◌≢◌, ◌≤◌, ℕ, List, IfOk, IsErrOf};
ghost use Rattle.tc_bytes.specs.Counts.{Rose};
ghost use Rattle.tc_store.specs.Disk.{Disk, IsAtRest};
ghost use Rattle.tc_store.specs.KitFaults.{KitFaults};
ghost use Rattle.tc_store.specs.Moments.{IfTold};

use crate::fault::ShelfFault;
use crate::store::Store;
use std::alloc::Global;

/// The store of a partition, and a watch for each of those who use it.
#[derive(Drop)]
pub struct Kit<S: Store> {
    pub store: S,
    pub main: S::Watch,
    pub flusher: S::Watch,
    pub merger: S::Watch,
    pub reader: S::Watch,
}

/// Gives the kit of each partition.
pub trait Shelf {
    type Store: Store;

    /// How many calls failed.
    ghost faults: { Self → ℕ };

    /// The counts of faults with which the watches of a number's kit would come.
    ghost kit_faults: { Self → ℕ → KitFaults };

    /// The files with which the store of a number's kit would come. None, where they are not told.
    ghost files: { Self → ℕ → List Disk };

    /// Gives the kit of a partition.
    fn kit(&mut self, alloc: Global, number: u32) -> Result<Kit<Self::Store>, ShelfFault>
        ensures files { IfOk result (λ kit. Self.Store.history kit.store ≡ files self.old number) }
        ensures at_rest { IfOk result (λ kit. IfTold (Self.Store.history kit.store) IsAtRest) }
        ensures main { IfOk result (λ kit. (Self.Store.Watch.counts kit.main).faults ≡ (kit_faults self.old number).main) }
        ensures flusher { IfOk result (λ kit. (Self.Store.Watch.counts kit.flusher).faults ≡ (kit_faults self.old number).flusher) }
        ensures merger { IfOk result (λ kit. (Self.Store.Watch.counts kit.merger).faults ≡ (kit_faults self.old number).merger) }
        ensures reader { IfOk result (λ kit. (Self.Store.Watch.counts kit.reader).faults ≡ (kit_faults self.old number).reader) }
        ensures other_faults { (other : ℕ) → other ≢ number → kit_faults self.new other ≡ kit_faults self.old other }
        ensures other_files { (other : ℕ) → other ≢ number → files self.new other ≡ files self.old other }
        ensures same { IsErrOf result ShelfFault.Memory → self.new ≡ self.old }
        ensures faults { faults self.old ≤ faults self.new }
        ensures cause { IsErrOf result ShelfFault.Fault → Rose (faults self.old) (faults self.new) };
}
