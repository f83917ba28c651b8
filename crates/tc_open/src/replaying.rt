//! The writes of logs go into a memory table over the components.

ghost use Rattle.std.specs.Prelude.{◌≡◌, ◌⊎◌, ◌+◌, ℕ, true, List, [], length, map, is_some, All, IfErr, IfOk, IsErrOf, OnOk};
ghost use Rattle.std.specs.List.{AllByRecursion, AllZip};
ghost use Rattle.tc_model.specs.Keyed.{value_of};
ghost use Rattle.tc_log.specs.Writes.{IsWrite, key_of};
ghost use Rattle.tc_plain_model.specs.Writes.{Write as PlainWrite};
ghost use Rattle.tc_lsm_model.specs.Contents.{Content, Partition};
ghost use Rattle.tc_lsm_model.specs.Lists.{live, IsList};
ghost use Rattle.tc_lsm_model.specs.Tables.{table_over};
ghost use Rattle.tc_memory.specs.DocumentTables.{IsTableOf};
ghost use Rattle.tc_component.specs.Loaded.{IsLoadedOf};
ghost use Rattle.tc_machine.specs.Logs.{all_writes, kept_write};
ghost use Rattle.tc_machine.specs.Writes.{IsStorableWrite};
ghost use Rattle.tc_list.specs.Lookups.{HaveNone};
ghost use Rattle.tc_jobs.specs.Faults.{IfHarmed};
ghost use Rattle.tc_part.specs.Harms.{IsHarmIn};
ghost use Rattle.tc_part.specs.Reads.{IsCountedLookup};
ghost use Rattle.tc_open.specs.LastWrites.{written_in, HoldsLast};
ghost use Rattle.tc_open.specs.Reads.{IsCountedUpTo};
ghost use Rattle.tc_open.specs.Replays.{Replayed, Replays};

use crate::below::shape_kept;
use std::alloc::Global;
use tc_jobs::JobFault;
use tc_list::ComponentList;
use tc_log::{Write, Writes};
use tc_memory::Memtable;
use tc_store::Frozen;

/// The memory table that the writes of these logs make over the components, the oldest log first. A new entry keeps the shape
/// of the document that its key has in the components, which takes one read; no read is made for a key that has an entry, nor
/// for one that no component has. `Damaged` has the bytes in whose place a record has to stand. `Disk` comes only where a read
/// failed.
pub(crate) fn replay<F: Frozen>(
    alloc: Global,
    list: &ComponentList<F>,
    logs: &[Writes],
    watch: &mut F::Watch,
) -> Result<Memtable, JobFault>
    requires lawful { All (AllByRecursion IsWrite) logs.now }

    // Where the files are told, it is the table that the writes make over what is live in the components.
    ensures table { (part : Partition) (cs : List Content) (ws : List (List PlainWrite)) → IsList part cs → AllZip (IsLoadedOf (λ file. F.content file)) list.now cs → logs.now ≡ map (λ log. map kept_write log) ws → All IsStorableWrite (all_writes ws)
        → IfOk result (IsTableOf (table_over (live cs) (all_writes ws))) }

    // Over every store it holds of each key what the last write to it leaves, and keeps a shape where a component has a
    // document of the key.
    ensures last { IfOk result (HoldsLast list.now (written_in logs.now)) }

    ensures harmed { IfErr result (λ fault. IfHarmed fault (IsHarmIn (λ file. F.content file) list.now)) }
    ensures counted { IsCountedUpTo (IsErrOf result JobFault.Disk) (length (written_in logs.now)) (F.Watch.counts watch.old) (F.Watch.counts watch.new) }
{
    let mut table = Memtable::new(alloc);
    let mut rest = logs;
    while let Some((log, behind)) = rest.split_first() {
        replay_log(alloc, list, log.as_slice(), &mut table, watch)?;
        rest = behind;
    }
    Ok(table)
}

/// Puts the writes of a log into a table.
fn replay_log<F: Frozen>(
    alloc: Global,
    list: &ComponentList<F>,
    writes: &[Write],
    table: &mut Memtable,
    watch: &mut F::Watch,
) -> Result<(), JobFault>
    requires lawful { AllByRecursion IsWrite writes.now }
    ensures replayed { OnOk result (Replays (λ file. F.content file) list.now writes.now table.old table.new) }
    ensures harmed { IfErr result (λ fault. IfHarmed fault (IsHarmIn (λ file. F.content file) list.now)) }
    ensures counted { IsCountedUpTo (IsErrOf result JobFault.Disk) (length writes.now) (F.Watch.counts watch.old) (F.Watch.counts watch.new) }
{
    let mut rest = writes;
    while let Some((write, behind)) = rest.split_first() {
        replay_write(alloc, list, write, table, watch)?;
        rest = behind;
    }
    Ok(())
}

/// Puts a write into a table.
fn replay_write<F: Frozen>(
    alloc: Global,
    list: &ComponentList<F>,
    write: &Write,
    table: &mut Memtable,
    watch: &mut F::Watch,
) -> Result<(), JobFault>
    requires lawful { IsWrite write.now }
    ensures replayed { OnOk result (Replayed (λ file. F.content file) list.now write.now table.old table.new) }
    ensures harmed { IfErr result (λ fault. IfHarmed fault (IsHarmIn (λ file. F.content file) list.now)) }
    ensures counted { IsCountedLookup (IsErrOf result JobFault.Disk) ((is_some (value_of (key_of write.now) table.old) ≡ true) ⊎ HaveNone list.now (key_of write.now)) (F.Watch.counts watch.old) (F.Watch.counts watch.new) }
{
    match write {
        Write::Upsert { key, bytes } => {
            let below = shape_kept(alloc, list, *key, table, watch)?;
            table.upsert(*key, bytes.copy(alloc)?, below)?;
            Ok(())
        }
        Write::Delete { key } => {
            let below = shape_kept(alloc, list, *key, table, watch)?;
            table.delete(*key, below)?;
            Ok(())
        }
    }
}
