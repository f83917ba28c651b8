//! Stores in memory: which of their calls fail, and the files that they have at rest.

ghost use Rattle.std.specs.Prelude.{◌≡◌, true, false, IfOk, IfSome};
ghost use Rattle.tc_store.specs.Disk.{IsAtRest, IsSettledHome, IsThere};
ghost use Rattle.tc_store.specs.Memory.Frozen.{frozen_name};
ghost use Rattle.tc_store.specs.Memory.Store.{store_disks};
ghost use Rattle.tc_store.specs.Moments.{IfTold};

use crate::arguments::numbers;
use std::alloc::{AllocError, Global};
use tc_bytes::Bytes;
use tc_store::{FileName, Kit, MemFile, MemFrozen, MemStore, MemWatch, Store, whole_of};

/// A watch that fails nothing.
pub fn unfailing(alloc: Global) -> MemWatch {
    MemWatch::new(Vec::new(alloc))
}

/// A watch that fails the calls of these numbers, between two of them a space.
pub fn failing(alloc: Global, argument: &str) -> Option<MemWatch> {
    Some(MemWatch::new(numbers(alloc, argument)?))
}

/// A store with watches that fail nothing.
pub fn kit_over(alloc: Global, store: MemStore) -> Kit<MemStore>
    ensures { result.store ≡ store }
{
    Kit {
        store,
        main: unfailing(alloc),
        flusher: unfailing(alloc),
        merger: unfailing(alloc),
        reader: unfailing(alloc),
    }
}

/// A store with one file at home, durable as it is.
pub fn store_with(alloc: Global, name: FileName, bytes: Vec<u8>) -> Result<MemStore, AllocError>
    ensures home { IfOk result (λ store. IfTold (store_disks store) (λ disk. IsSettledHome (disk name))) }
    ensures at_rest { IfOk result (λ store. IfTold (store_disks store) IsAtRest) }
{
    let bytes = Bytes::of(bytes);
    let mut files = Vec::new(alloc);
    files.push(MemFile { name, bytes })?;
    Ok(MemStore::with(files))
}

/// Whether a file is there, by a watch that nobody sees.
pub fn is_there(alloc: Global, store: &mut MemStore, name: FileName) -> Option<bool>
    ensures same { store_disks store.new ≡ store_disks store.old }
    ensures there { IfSome result (λ is_there. is_there ≡ true → IfTold (store_disks store.old) (λ disk. IsThere (disk name))) }
    ensures absent { IfSome result (λ is_there. is_there ≡ false → IfTold (store_disks store.old) (λ disk. IsThere (disk name) → ⊥)) }
{
    let names = store.names(alloc, &mut unfailing(alloc)).ok()?;
    Some(names.contains(&name))
}

/// Takes a file of a store at rest, if it is there, by a watch that nobody sees.
pub fn taken(alloc: Global, store: &mut MemStore, name: FileName) -> Option<Option<MemFrozen>>
    requires at_rest { IfTold (store_disks store.old) IsAtRest }
    ensures name { IfSome result (λ found. IfSome found (λ file. frozen_name file ≡ name)) }
{
    if !is_there(alloc, store, name)? {
        return Some(None);
    }
    Some(Some(store.take(alloc, name, &mut unfailing(alloc)).ok()?))
}

/// The files of a store at rest in the order of their names, components first.
pub fn files_in(alloc: Global, store: MemStore) -> Option<Vec<MemFile>>
    requires at_rest { IfTold (store_disks store) IsAtRest }
{
    let mut store = store;
    let mut names = store.names(alloc, &mut unfailing(alloc)).ok()?;
    names.sort().ok()?;
    read_out(alloc, store, names.as_slice())
}

// The files of these names.
fn read_out(alloc: Global, store: MemStore, names: &[FileName]) -> Option<Vec<MemFile>>
    requires at_rest { IfTold (store_disks store) IsAtRest }
{
    let mut store = store;
    let mut files = Vec::new(alloc);
    for name in names {
        store = push_file(alloc, &mut files, store, *name)?;
    }
    Some(files)
}

// Adds a file. The store that is left is at rest again.
fn push_file(
    alloc: Global,
    files: &mut Vec<MemFile>,
    store: MemStore,
    name: FileName,
) -> Option<MemStore>
    requires at_rest { IfTold (store_disks store) IsAtRest }
    ensures at_rest { IfSome result (λ left. IfTold (store_disks left) IsAtRest) }
{
    let mut store = store;
    let file = taken(alloc, &mut store, name)??;
    let bytes = Bytes::of(whole_of(alloc, &file, &mut unfailing(alloc)).ok()?);
    files.push(MemFile { name, bytes }).ok()?;
    store.stop(0).ok()
}
