//! The files that nobody needs any more, removed.

ghost use Rattle.std.specs.Prelude.{◌≡◌, filter, IfOk, IsErrOf, OnErr, OnOk};
ghost use Rattle.tc_store.specs.Counted.{IsCounted};
ghost use Rattle.tc_recover.specs.Causes.{IsNoRefusal};
ghost use Rattle.tc_recover.specs.Loads.{is_log as of_log};
ghost use Rattle.tc_recover.specs.Removing.{needless_names, removes_all, RemovesFirst};

use crate::cause::FilesCause;
use crate::logs::is_log;
use crate::taken::Taken;
use std::alloc::Global;
use tc_store::Store;

/// Removes all of these files but the open logs above a generation, in their order: closed files, components that do not
/// count, and logs whose writes are in components. Answers the logs that stay. `Disk` comes only where a removal failed; that
/// file counts as removed, and those behind it stay.
pub fn remove_needless<S: Store>(
    alloc: Global,
    store: &mut S,
    last: u64,
    files: Vec<Taken<S::Frozen>>,
    watch: &mut S::Watch,
) -> Result<Vec<Taken<S::Frozen>>, FilesCause>
    ensures kept { IfOk result (λ logs. logs.items ≡ filter (of_log last) files.items) }
    ensures removed { OnOk result (S.history store.new ≡ removes_all (needless_names S.Frozen.name last files.items) (S.history store.old)) }
    ensures partly { OnErr result (RemovesFirst (needless_names S.Frozen.name last files.items) (S.history store.old) (S.history store.new)) }
    ensures causes { IsNoRefusal result }
    ensures counted { IsCounted (IsErrOf result FilesCause.Disk) (S.Watch.counts watch.old) (S.Watch.counts watch.new) }
{
    let mut logs = Vec::new(alloc);
    for taken in files {
        if is_log(last, &taken) {
            logs.push(taken)?;
        } else {
            store.remove(taken.file, watch)?;
        }
    }
    Ok(logs)
}
