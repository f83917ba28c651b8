//! A shelf in memory.

ghost use Rattle.std.specs.Prelude.{◌≡◌, ◌≢◌, ◌<◌, ◌≤◌, ◌↔◌, ℕ, Some, None, All, length, IfOk, OnOk, OnErr, IsErrOf, slice_get};
ghost use Rattle.tc_bytes.specs.Counts.{Rose};
ghost use Rattle.tc_store.specs.Disk.{IsAtRest};
ghost use Rattle.tc_store.specs.Memory.Shelf.{kit_of, kit_faults_of, kit_disks};
ghost use Rattle.tc_store.specs.Memory.Store.{store_disks};
ghost use Rattle.tc_store.specs.Moments.{IfTold};

use crate::fault::ShelfFault;
use crate::kit::{Kit, Shelf};
use crate::mem::store::MemStore;
use crate::mem::watch::MemWatch;
use std::alloc::Global;
use std::marker::Model;
use std::mem;

/// Gives each of its kits once, by its position.
#[derive(Drop)]
pub struct MemShelf {
    kits: Vec<Kit<MemStore>>,
    /// The numbers whose kits were given.
    given: Vec<u32>,
    faults: u64,
}

impl Model for MemShelf {
    ghost use Rattle.std.specs.Prelude.{All};
    ghost use Rattle.tc_store.specs.Disk.{IsAtRest};
    ghost use Rattle.tc_store.specs.Memory.Shelf.{ShelfState};
    ghost use Rattle.tc_store.specs.Memory.Store.{store_disks};
    ghost use Rattle.tc_store.specs.Moments.{IfTold};

    ghost Value = { ShelfState };

    ghost view = { λ s. record { kits = s.kits.items; given = s.given.items; faults = s.faults } };

    ghost invariant = { λ s. All (λ kit. IfTold (store_disks kit.store) IsAtRest) s.kits.items };
}

impl MemShelf {
    /// A shelf of these kits, in whose stores nothing is pending. Takes no memory.
    pub fn new(kits: Vec<Kit<MemStore>>) -> MemShelf
        requires { All (λ kit. IfTold (store_disks kit.store) IsAtRest) kits.items }

        ensures kits { (number : ℕ) → kit_of result number ≡ slice_get kits.items number }
        ensures faults { result.faults ≡ 0 }
    {
        let given = Vec::new(*kits.allocator());
        let faults = 0;
        MemShelf {
            kits,
            given,
            faults,
        }
    }
}

/// A kit with no file. Takes no memory.
fn empty_kit(alloc: Global) -> Kit<MemStore>
    ensures { IfTold (store_disks result.store) IsAtRest }
{
    Kit {
        store: MemStore::new(alloc),
        main: MemWatch::new(Vec::new(alloc)),
        flusher: MemWatch::new(Vec::new(alloc)),
        merger: MemWatch::new(Vec::new(alloc)),
        reader: MemWatch::new(Vec::new(alloc)),
    }
}

/// Gives the kit at a place, and leaves an empty one there.
fn take_kit(alloc: Global, kits: &mut Vec<Kit<MemStore>>, place: usize) -> Kit<MemStore>
    requires within { place < length kits.old.items }
    requires rest { All (λ kit. IfTold (store_disks kit.store) IsAtRest) kits.old.items }
    ensures here { slice_get kits.old.items place ≡ Some result }
    ensures at_rest { IfTold (store_disks result.store) IsAtRest }
    ensures others { (other : ℕ) → other ≢ place → slice_get kits.new.items other ≡ slice_get kits.old.items other }
    ensures rest { All (λ kit. IfTold (store_disks kit.store) IsAtRest) kits.new.items }
{
    let empty = empty_kit(alloc);
    let kit = &mut kits[place];
    mem::replace(kit, empty)
}

impl Shelf for MemShelf {
    type Store = MemStore;

    ghost faults = { λ shelf. shelf.faults };

    ghost kit_faults = { λ shelf number. kit_faults_of (kit_of shelf number) };

    ghost files = { λ shelf number. kit_disks (kit_of shelf number) };

    fn kit(&mut self, alloc: Global, number: u32) -> Result<Kit<MemStore>, ShelfFault>
        ensures given { IfOk result (λ kit. kit_of self.old number ≡ Some kit) }
        ensures once { OnOk result (kit_of self.new number ≡ None) }
        ensures none_there { IsErrOf result ShelfFault.Fault ↔ (kit_of self.old number ≡ None) }
        ensures kept { OnErr result (kit_of self.new number ≡ kit_of self.old number) }
        ensures others { (other : ℕ) → other ≢ number → kit_of self.new other ≡ kit_of self.old other }

        ensures files { IfOk result (λ kit. store_disks kit.store ≡ kit_disks (kit_of self.old number)) }
        ensures at_rest { IfOk result (λ kit. IfTold (store_disks kit.store) IsAtRest) }
        ensures main { IfOk result (λ kit. kit.main.faults ≡ (kit_faults_of (kit_of self.old number)).main) }
        ensures flusher { IfOk result (λ kit. kit.flusher.faults ≡ (kit_faults_of (kit_of self.old number)).flusher) }
        ensures merger { IfOk result (λ kit. kit.merger.faults ≡ (kit_faults_of (kit_of self.old number)).merger) }
        ensures reader { IfOk result (λ kit. kit.reader.faults ≡ (kit_faults_of (kit_of self.old number)).reader) }
        ensures other_faults { (other : ℕ) → other ≢ number → kit_faults_of (kit_of self.new other) ≡ kit_faults_of (kit_of self.old other) }
        ensures other_files { (other : ℕ) → other ≢ number → kit_disks (kit_of self.new other) ≡ kit_disks (kit_of self.old other) }
        ensures same { IsErrOf result ShelfFault.Memory → self.new ≡ self.old }
        ensures faults { self.old.faults ≤ self.new.faults }
        ensures cause { IsErrOf result ShelfFault.Fault → Rose (self.old.faults) (self.new.faults) }
    {
        let place = number as usize;
        if place >= self.kits.len() || self.given.contains(&number) {
            self.faults = self.faults.saturating_add(1);
            return Err(ShelfFault::Fault);
        }
        self.given.push(number)?;
        Ok(take_kit(alloc, &mut self.kits, place))
    }
}
