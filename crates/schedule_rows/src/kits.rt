//! The stores of a shelf in memory.

ghost use Rattle.std.specs.Prelude.{All, IfOk};
ghost use Rattle.tc_store.specs.Disk.{IsAtRest};
ghost use Rattle.tc_store.specs.Memory.Store.{store_disks};
ghost use Rattle.tc_store.specs.Moments.{IfTold};

use std::alloc::{AllocError, Global};
use tc_rows::kit_over;
use tc_store::{Kit, MemStore};

/// How many partitions a run here has at most.
const MOST: u32 = 4;

/// A kit without files for each partition that there may be.
pub(crate) fn empty_kits(alloc: Global) -> Result<Vec<Kit<MemStore>>, AllocError>
    ensures { IfOk result (λ kits. All (λ kit. IfTold (store_disks kit.store) IsAtRest) kits.items) }
{
    let mut kits = Vec::new(alloc);
    for _ in 0..MOST {
        kits.push(empty_kit(alloc))?;
    }
    Ok(kits)
}

fn empty_kit(alloc: Global) -> Kit<MemStore>
    ensures { IfTold (store_disks result.store) IsAtRest }
{
    kit_over(alloc, MemStore::new(alloc))
}
