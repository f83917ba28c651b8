//! A store of one file, what a stop leaves of it, and components that are loaded from bytes.

ghost use Rattle.std.specs.Prelude.{◌≡◌, IfSome};
ghost use Rattle.tc_store.specs.Memory.Device.{device_size};

use crate::answers::shown;
use std::alloc::Global;
use tc_component::Component;
use tc_rows::{store_with, taken, unfailing, word};
use tc_store::{FileName, MemDevice, MemFrozen, MemStore, Store, whole_of};

/// The name of the only file.
const NAME: FileName = FileName::Component { from: 1, to: 1 };

/// A store, and an empty device for its file.
pub(crate) fn begun(alloc: Global) -> Option<(MemStore, MemDevice)>
    ensures { IfSome result (λ made. device_size made.1 ≡ 0) }
{
    let mut store = MemStore::new(alloc);
    let made = store.fresh(alloc, NAME, &mut unfailing(alloc));
    match made {
        Ok(device) => Some((store, device)),
        Err(_) => None,
    }
}

/// The bytes of the file that a stop leaves, or that there is none.
pub(crate) fn left_of(alloc: Global, store: MemStore, choice: u64) -> Option<String> {
    let mut left = store.stop(choice).ok()?;
    match taken(alloc, &mut left, NAME)? {
        Some(file) => bytes_in(alloc, &file),
        None => word(alloc, "absent"),
    }
}

fn bytes_in(alloc: Global, file: &MemFrozen) -> Option<String> {
    let bytes = whole_of(alloc, file, &mut unfailing(alloc)).ok()?;
    shown(alloc, &bytes)
}

/// A component of these bytes, which are at home.
pub(crate) fn component_of(
    alloc: Global,
    bytes: Vec<u8>,
    from: u64,
    to: u64,
) -> Option<Component<MemFrozen>> {
    let mut store = store_with(alloc, NAME, bytes).ok()?;
    let file = taken(alloc, &mut store, NAME)??;
    let name = FileName::Component { from, to };
    Component::load(alloc, file, name, &mut unfailing(alloc)).ok()
}
