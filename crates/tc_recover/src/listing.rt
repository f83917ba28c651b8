//! The names of the files of a partition, in the order in which they are judged.

ghost use Rattle.std.specs.Prelude.{◌≡◌, ◌↔◌, Contains, IfOk, IsErrOf};
ghost use Rattle.std.specs.List.Sorted.{IsStrictlySortedBy};
ghost use Rattle.tc_store.specs.Counted.{IsCounted};
ghost use Rattle.tc_store.specs.Disk.{IsThere};
ghost use Rattle.tc_store.specs.Moments.{IfTold};
ghost use Rattle.tc_store.specs.NameOrder.{name_cmp};
ghost use Rattle.tc_store.specs.declared.file_name.FileName.{FileName as Name};

use std::alloc::Global;
use tc_store::{FileName, Store, StoreFault};

/// The names of all files that are there, each once: components first, by their first and then by their last generation,
/// then logs. Changes no file.
pub(crate) fn listed<S: Store>(
    alloc: Global,
    store: &mut S,
    watch: &mut S::Watch,
) -> Result<Vec<FileName>, StoreFault>
    ensures exact { IfOk result (λ names. IfTold (S.history store.old) (λ disk. (name : Name) → Contains names.items name ↔ IsThere (disk name))) }
    ensures ascend { IfOk result (λ names. IsStrictlySortedBy name_cmp names.items) }
    ensures same { S.history store.new ≡ S.history store.old }
    ensures counted { IsCounted (IsErrOf result StoreFault.Fault) (S.Watch.counts watch.old) (S.Watch.counts watch.new) }
{
    let mut names = store.names(alloc, watch)?;
    names.sort()?;
    names.dedup();
    Ok(names)
}
