//! The files of a store of one partition, or of two.

ghost use Rattle.std.specs.Prelude.{All, IfSome};
ghost use Rattle.tc_store.specs.Disk.{IsAtRest};
ghost use Rattle.tc_store.specs.Memory.Store.{store_disks};
ghost use Rattle.tc_store.specs.Moments.{IfTold};
ghost use Rattle.crash_rows.specs.Rests.{AreAtRest};

use std::alloc::Global;
use tc_store::{Kit, MemShelf, MemStore, MemWatch, Shelf};

/// Who makes calls on files.
#[derive(Clone, Copy, PartialEq, Eq)]
pub(crate) enum Who {
    Main,
    Flusher,
    Merger,
}

/// A call on the files of a partition that fails: who makes it, and its number among theirs.
#[derive(Clone, Copy)]
pub(crate) struct Failing {
    pub(crate) partition: u32,
    pub(crate) who: Who,
    pub(crate) call: u64,
}

/// The files of each partition.
#[derive(Drop)]
pub(crate) struct Files {
    pub(crate) first: MemStore,
    pub(crate) second: Option<MemStore>,
}

impl Files {
    ghost use Rattle.std.specs.Prelude.{All, IfSome};
    ghost use Rattle.crash_rows.specs.Rests.{AreAtRest};

    /// No file of one partition, or of two.
    pub(crate) fn none(alloc: Global, are_two: bool) -> Files
        ensures { AreAtRest result }
    {
        let second = if are_two {
            Some(MemStore::new(alloc))
        } else {
            None
        };
        Files {
            first: MemStore::new(alloc),
            second,
        }
    }

    /// What a stop may leave of them, chosen by a number.
    pub(crate) fn stop(self, choice: u64) -> Option<Files>
        ensures { IfSome result AreAtRest }
    {
        let Files { first, second } = self;
        let first = first.stop(choice).ok()?;
        let second = match second {
            Some(second) => Some(second.stop(choice).ok()?),
            None => None,
        };
        Some(Files { first, second })
    }

    /// Their kits.
    pub(crate) fn into_kits(
        self,
        alloc: Global,
        failing: Option<Failing>,
    ) -> Option<Vec<Kit<MemStore>>>
        requires { AreAtRest self }
        ensures { IfSome result (λ kits. All (λ kit. IfTold (store_disks kit.store) IsAtRest) kits.items) }
    {
        let Files { first, second } = self;
        let mut kits = Vec::new(alloc);
        push_kit(&mut kits, kit_of(alloc, 0, first, failing)?)?;
        let Some(second) = second else {
            return Some(kits);
        };
        push_kit(&mut kits, kit_of(alloc, 1, second, failing)?)?;
        Some(kits)
    }

    /// Those of the kits that a run gave back, and behind them of those that it did not ask for.
    pub(crate) fn of(
        alloc: Global,
        kits: Vec<Kit<MemStore>>,
        shelf: &mut MemShelf,
        are_two: bool,
    ) -> Option<Files> {
        let mut kits = kits.into_iter();
        let first = store_of(alloc, kits.next(), shelf, 0)?;
        let second = if are_two {
            Some(store_of(alloc, kits.next(), shelf, 1)?)
        } else {
            None
        };
        Some(Files { first, second })
    }
}

// Adds a kit behind the others.
fn push_kit(kits: &mut Vec<Kit<MemStore>>, kit: Kit<MemStore>) -> Option<()>
    requires rest { All (λ kit. IfTold (store_disks kit.store) IsAtRest) kits.old.items }
    requires one { IfTold (store_disks kit.store) IsAtRest }
    ensures { IfSome result (λ done. All (λ kit. IfTold (store_disks kit.store) IsAtRest) kits.new.items) }
{
    kits.push(kit).ok()
}

fn kit_of(
    alloc: Global,
    partition: u32,
    store: MemStore,
    failing: Option<Failing>,
) -> Option<Kit<MemStore>>
    requires at_rest { IfTold (store_disks store) IsAtRest }
    ensures { IfSome result (λ kit. IfTold (store_disks kit.store) IsAtRest) }
{
    let failing = failing.filter(|failing| failing.partition == partition);
    Some(Kit {
        store,
        main: watch_of(alloc, Who::Main, failing)?,
        flusher: watch_of(alloc, Who::Flusher, failing)?,
        merger: watch_of(alloc, Who::Merger, failing)?,
        reader: MemWatch::new(Vec::new(alloc)),
    })
}

fn watch_of(alloc: Global, who: Who, failing: Option<Failing>) -> Option<MemWatch> {
    let mut numbers = Vec::new(alloc);
    if let Some(failing) = failing {
        if failing.who == who {
            numbers.push(failing.call).ok()?;
        }
    }
    Some(MemWatch::new(numbers))
}

// The store of a kit that came back, or of that which the shelf still has.
fn store_of(
    alloc: Global,
    kit: Option<Kit<MemStore>>,
    shelf: &mut MemShelf,
    partition: u32,
) -> Option<MemStore> {
    let kit = match kit {
        Some(kit) => kit,
        None => shelf.kit(alloc, partition).ok()?,
    };
    let Kit { store, .. } = kit;
    Some(store)
}
