//! A store with the first log of a partition.

ghost use Rattle.std.specs.Prelude.{◌≡◌, [], false, IfSome};
ghost use Rattle.tc_log.specs.Layout.{empty_size};
ghost use Rattle.tc_part.specs.Openings.{told_opening};
ghost use Rattle.tc_part_model.specs.Starting.{IsOpened};
ghost use Rattle.tc_store.specs.declared.file_name.FileName.TheVariants.{Log as log_name};
ghost use Rattle.tc_store.specs.Memory.Device.{device_name, device_size, device_files};
ghost use Rattle.tc_store.specs.Memory.Frozen.{frozen_content};
ghost use Rattle.tc_store.specs.Memory.Store.{store_disks};

use std::alloc::Global;
use tc_log::{Log, LogHead};
use tc_rows::unfailing;
use tc_store::{FileName, MemDevice, MemStore, Store};

/// A store with no file but the first log of partition 0 of 1, and that log, which has no frame.
pub(crate) fn first_log(alloc: Global) -> Option<(MemStore, Log<MemDevice>)>
    ensures sound { IfSome result (λ made. made.1.failed ≡ false) }
    ensures empty { IfSome result (λ made. device_size made.1.device ≡ empty_size) }
    ensures name { IfSome result (λ made. device_name made.1.device ≡ log_name 1) }
    ensures opened { IfSome result (λ made. IsOpened (told_opening store_disks device_files frozen_content 0 1 made.0 made.1.device []) []) }
{
    let mut store = MemStore::new(alloc);
    let mut watch = unfailing(alloc);
    let name = FileName::Log { generation: 1 };
    let Ok(device) = store.fresh(alloc, name, &mut watch) else {
        return None;
    };
    let head = LogHead {
        number: 0,
        count: 1,
        generation: 1,
    };
    match Log::create(device, &mut watch, head) {
        Ok(log) => Some((store, log)),
        Err(_) => None,
    }
}
