//! Files that are made in a store in memory.

ghost use Rattle.std.specs.Prelude.{◌≡◌, IfSome};
ghost use Rattle.tc_store.specs.DiskFile.{IsSettled};
ghost use Rattle.tc_store.specs.Memory.Device.{device_files, device_name, device_size};
ghost use Rattle.tc_store.specs.Moments.{IfTold};

use std::alloc::Global;
use tc_rows::{is_there, unfailing};
use tc_store::{Device, FileName, MemDevice, MemStore, Store};

/// An empty file, unless the name is taken.
pub(crate) fn fresh_file(alloc: Global, store: &mut MemStore, name: FileName) -> Option<MemDevice>
    ensures name { IfSome result (λ device. device_name device ≡ name) }
    ensures empty { IfSome result (λ device. device_size device ≡ 0) }
{
    if is_there(alloc, store, name)? {
        return None;
    }
    store.fresh(alloc, name, &mut unfailing(alloc)).ok()
}

/// A file of these bytes, on which nothing is pending, unless the name is taken.
pub(crate) fn settled_file(
    alloc: Global,
    store: &mut MemStore,
    name: FileName,
    bytes: &[u8],
) -> Option<MemDevice>
    ensures settled { IfSome result (λ device. IfTold (device_files device) IsSettled) }
{
    let mut watch = unfailing(alloc);
    let mut device = fresh_file(alloc, store, name)?;
    device.write_at(0, bytes, &mut watch).ok()?;
    match device.sync(&mut watch) {
        Ok(()) => Some(device),
        Err(_) => None,
    }
}
