//! A shelf in memory, and a list of names.

ghost use Rattle.std.specs.Prelude.{All, IfSome};
ghost use Rattle.tc_store.specs.Disk.{IsAtRest};
ghost use Rattle.tc_store.specs.Memory.Store.{store_disks};
ghost use Rattle.tc_store.specs.Moments.{IfTold};

use crate::desk::NAME;
use std::alloc::Global;
use tc_rows::{kit_over, store_with, word};
use tc_store::{
    FileName, FileNames, Kit, MemShelf, MemStore, Shelf, ShelfFault, Store, name_order,
};

/// What a shelf of one kit answers for the number 1, and twice for the number 0.
pub(crate) fn kits_given(alloc: Global) -> Option<String> {
    let mut shelf = MemShelf::new(kits(alloc)?);
    let beyond = kit_shown(alloc, &mut shelf, 1)?;
    let first = kit_shown(alloc, &mut shelf, 0)?;
    let again = kit_shown(alloc, &mut shelf, 0)?;
    format!(in alloc;
        "{}, {}, {}",
        beyond.as_str(),
        first.as_str(),
        again.as_str()
    )
    .ok()
}

fn kits(alloc: Global) -> Option<Vec<Kit<MemStore>>>
    ensures { IfSome result (λ kits. All (λ kit. IfTold (store_disks kit.store) IsAtRest) kits.items) }
{
    let store = store_with(alloc, NAME, Vec::new(alloc)).ok()?;
    let mut kits = Vec::new(alloc);
    kits.push(kit_over(alloc, store)).ok()?;
    Some(kits)
}

// Whether a kit was given, and the names in its store.
fn kit_shown(alloc: Global, shelf: &mut MemShelf, number: u32) -> Option<String> {
    match shelf.kit(alloc, number) {
        Ok(kit) => names_shown(alloc, kit),
        Err(ShelfFault::Fault) => word(alloc, "fault"),
        Err(ShelfFault::Memory) => None,
    }
}

fn names_shown(alloc: Global, kit: Kit<MemStore>) -> Option<String> {
    let Kit {
        mut store,
        mut main,
        ..
    } = kit;
    let names = store.names(alloc, &mut main).ok()?;
    format!(in alloc; "{names:?}").ok()
}

/// How the names of a component and of a log are ordered, and a list of both.
pub(crate) fn names_kept(alloc: Global) -> Option<String> {
    let component = FileName::Component { from: 1, to: 2 };
    let order = name_order(&component, &NAME);
    let names = FileNames::of([component, NAME].to_vec(alloc).ok()?);
    let count = names.as_slice().len();
    format!(in alloc; "{order:?}, {count}, {:?}", names.into_inner()).ok()
}
