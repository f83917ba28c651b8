//! Stores that a partition begins over: with no file but the first log, or with a component of the first generations.

ghost use Rattle.std.specs.Prelude.{◌≡◌, ◌<◌, ◌^◌, ◌∷◌, ◌+◌, [], false, IfSome};
ghost use Rattle.tc_component.specs.Loading.{ComponentState};
ghost use Rattle.tc_component.specs.Spelling.{name_of};
ghost use Rattle.tc_jobs.specs.Lists.{IsListOf};
ghost use Rattle.tc_log.specs.Layout.{empty_size};
ghost use Rattle.tc_part.specs.Openings.{told_opening};
ghost use Rattle.tc_part_model.specs.Starting.{IsOpened};
ghost use Rattle.tc_store.specs.declared.file_name.FileName.TheVariants.{Component as component_name, Log as log_name};
ghost use Rattle.tc_store.specs.declared.mem.frozen.MemFrozen.{MemFrozen as Still};
ghost use Rattle.tc_store.specs.Memory.Device.{device_files, device_name, device_size};
ghost use Rattle.tc_store.specs.Memory.Frozen.{frozen_content, frozen_name};
ghost use Rattle.tc_store.specs.Memory.Store.{store_disks};
ghost use Rattle.part_rows.specs.Laying.{IsLaid};

use crate::first_logs::first_log;
use crate::making::fresh_file;
use std::alloc::Global;
use std::sync::Arc;
use tc_component::Component;
use tc_jobs::goes_behind;
use tc_list::ComponentList;
use tc_log::{Log, LogHead, MAX_NUMBER};
use tc_rows::{store_with, taken, unfailing};
use tc_store::{FileName, MemDevice, MemFrozen, MemStore};

/// A store, what is listed in it, and the log behind that, which has no frame.
#[derive(Drop)]
pub(crate) struct Laid {
    pub(crate) store: MemStore,
    pub(crate) list: ComponentList<MemFrozen>,
    pub(crate) log: Log<MemDevice>,
}

/// A store with no file but the first log.
pub(crate) fn laid_first(alloc: Global) -> Option<Laid>
    ensures laid { IfSome result (λ laid. IsLaid laid.log laid.list) }
    ensures opened { IfSome result (λ laid. IsOpened (told_opening store_disks device_files frozen_content 0 1 laid.store laid.log.device laid.list) []) }
{
    let (store, log) = first_log(alloc)?;
    Some(laid_behind_none(alloc, store, log))
}

// The first log, behind no component.
fn laid_behind_none(alloc: Global, store: MemStore, log: Log<MemDevice>) -> Laid
    requires sound { log.failed ≡ false }
    requires empty { device_size log.device ≡ empty_size }
    requires name { device_name log.device ≡ log_name 1 }
    requires opened { IsOpened (told_opening store_disks device_files frozen_content 0 1 store log.device []) [] }
    ensures laid { IsLaid result.log result.list }
    ensures opened { IsOpened (told_opening store_disks device_files frozen_content 0 1 result.store result.log.device result.list) [] }
{
    let list = ComponentList::new(alloc);
    Laid { store, list, log }
}

/// A store whose component over the generations up to this one has these bytes.
pub(crate) fn laid_over(alloc: Global, to: u64, bytes: Vec<u8>) -> Option<Laid>
    ensures { IfSome result (λ laid. IsLaid laid.log laid.list) }
{
    if to >= MAX_NUMBER {
        return None;
    }
    let name = FileName::Component { from: 1, to };
    let mut store = store_with(alloc, name, bytes).ok()?;
    let file = taken(alloc, &mut store, name)??;
    let list = list_of(alloc, file, to)?;
    let (store, log) = next_log(alloc, store, to)?;
    laid_behind_one(store, list, log, to)
}

// The next log, behind one component.
fn laid_behind_one(
    store: MemStore,
    list: ComponentList<MemFrozen>,
    log: Log<MemDevice>,
    to: u64,
) -> Option<Laid>
    requires one { (c : ComponentState Still) × (list ≡ c ∷ []) × (component_name 1 to ≡ name_of c.index.head) × (frozen_name c.file ≡ component_name 1 to) }
    requires listed { IsListOf 0 1 list }
    requires low { to + 1 < 2 ^ 63 }
    requires sound { log.failed ≡ false }
    requires empty { device_size log.device ≡ empty_size }
    requires name { device_name log.device ≡ log_name (to + 1) }
    ensures { IfSome result (λ laid. IsLaid laid.log laid.list) }
{
    if to == 0 {
        return None;
    }
    Some(Laid { store, list, log })
}

// The component of a file alone, if it is one of partition 0 of 1.
fn list_of(alloc: Global, file: MemFrozen, to: u64) -> Option<ComponentList<MemFrozen>>
    requires name { frozen_name file ≡ component_name 1 to }
    ensures one { IfSome result (λ list. (c : ComponentState Still) × (list ≡ c ∷ []) × (component_name 1 to ≡ name_of c.index.head) × (frozen_name c.file ≡ component_name 1 to)) }
    ensures listed { IfSome result (λ list. IsListOf 0 1 list) }
{
    let name = FileName::Component { from: 1, to };
    let mut list = ComponentList::new(alloc);
    let component = Component::load(alloc, file, name, &mut unfailing(alloc)).ok()?;
    let head = component.head();
    if head.number != 0 || head.count != 1 || !goes_behind(&list, &component) {
        return None;
    }
    list.push(Arc::new(alloc, component).ok()?).ok()?;
    Some(list)
}

// The log behind a generation, which has no frame.
fn next_log(alloc: Global, store: MemStore, to: u64) -> Option<(MemStore, Log<MemDevice>)>
    requires low { to + 1 < 2 ^ 63 }
    ensures sound { IfSome result (λ made. made.1.failed ≡ false) }
    ensures empty { IfSome result (λ made. device_size made.1.device ≡ empty_size) }
    ensures name { IfSome result (λ made. device_name made.1.device ≡ log_name (to + 1)) }
{
    let generation = to + 1;
    let mut store = store;
    let device = fresh_file(alloc, &mut store, FileName::Log { generation })?;
    let head = LogHead {
        number: 0,
        count: 1,
        generation,
    };
    match Log::create(device, &mut unfailing(alloc), head) {
        Ok(log) => Some((store, log)),
        Err(_) => None,
    }
}
