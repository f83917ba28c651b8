//! The logs above the components are flushed as one component, and removed, with the kit of a partition.

ghost use Rattle.std.specs.List.{AllByRecursion, AllZip};
ghost use Rattle.std.specs.Prelude.{◌≡◌, ◌<◌, ◌+◌, ◌^◌, [], List, length, map, All, IfErr, IfOk};
ghost use Rattle.tc_store.specs.Disk.{IsThere};
ghost use Rattle.tc_store.specs.Moments.{EachSince, IfTold};
ghost use Rattle.tc_component.specs.Loaded.{IsLoadedOf};
ghost use Rattle.tc_component.specs.Rows.{part_of};
ghost use Rattle.tc_component.specs.Spelling.{name_of};
ghost use Rattle.tc_list.specs.Intervals.{last_of};
ghost use Rattle.tc_lsm_model.specs.Contents.{Content};
ghost use Rattle.tc_log.specs.Writes.{IsWrite};
ghost use Rattle.tc_machine.specs.Logs.{kept_write};
ghost use Rattle.tc_machine.specs.Pictures.{recovered};
ghost use Rattle.tc_merge.specs.Faults.{IsWatched};
ghost use Rattle.tc_plain_model.specs.Writes.{Write as PlainWrite};
ghost use Rattle.tc_recover.specs.Opening.{found_in};
ghost use Rattle.tc_recover.specs.Refusals.{asked};
ghost use Rattle.tc_jobs.specs.Lists.{IsListOf};
ghost use Rattle.tc_part_model.specs.Leaving.{KeepsStore};
ghost use Rattle.tc_part_model.specs.PartState.{AreTold, told_component};
ghost use Rattle.tc_open.specs.FlushedLogs.{IsFlushListed, IsLogsFlushed, IsReplayDamage};
ghost use Rattle.tc_open.specs.BeingOpened.{AreIn, AreNeedless, IsOpening, LeavesLogged, stored_by};
ghost use Rattle.tc_open.specs.Judged.{IsOfLogs};
ghost use Rattle.tc_open.specs.Listed.{AreFlushed, AreFlushedFrom};
ghost use Rattle.tc_open.specs.OpenCauses.{IfDamaged, IsOfJob};
ghost use Rattle.tc_open.specs.Resting.{AreOwn};
ghost use Rattle.tc_open.specs.Steps.{AreAbove, AreListed, Keeps, Rests, Stands};

use crate::fault::{OpenCause, OpenFault};
use crate::flushing_logs::{LogsFlushed, flush_logs};
use crate::removing::remove_files;
use crate::steps::{Rested, Tidied};
use std::alloc::Global;
use tc_component::Head;
use tc_list::ComponentList;
use tc_log::Writes;
use tc_recover::Partition;
use tc_store::{Kit, Store};

/// Flushes the logs above the components, where there are any, as one component behind the others, also where no write is in
/// them. Then it removes them. `Disk` comes only where a call of the store, a device or a read failed.
pub(crate) fn flush_above<S: Store>(
    alloc: Global,
    part: Partition,
    tidied: Tidied<S>,
) -> Result<Rested<S>, OpenFault<S>>
    requires listed { AreListed (λ file. S.Frozen.name file) (asked part) tidied.list }
    requires above { AreAbove (λ file. S.Frozen.name file) tidied.list tidied.logs.items tidied.writes.items tidied.last }
    requires own { IfTold (S.history tidied.kit.store) (AreOwn tidied.list (map (λ t. S.Frozen.name t.file) tidied.logs.items)) }

    // What was stored is then in the components alone, and a stop leaves it at each moment.
    ensures rests { (cs : List Content) (logs : List (List PlainWrite)) → Stands (λ file. S.Frozen.content file) (asked part) cs logs tidied.list tidied.writes.items (S.history tidied.kit.store)
        → IfOk result (λ r. Rests (λ file. S.Frozen.content file) (asked part) (AreFlushedFrom (asked part) cs logs) (recovered cs logs) r.list (S.history r.kit.store)) }
    ensures keeps { (cs : List Content) (logs : List (List PlainWrite)) → Stands (λ file. S.Frozen.content file) (asked part) cs logs tidied.list tidied.writes.items (S.history tidied.kit.store)
        → IfOk result (λ r. Keeps (asked part) (recovered cs logs).pairs (S.history tidied.kit.store) (S.history r.kit.store)) }
    ensures kept { (cs : List Content) (logs : List (List PlainWrite)) → Stands (λ file. S.Frozen.content file) (asked part) cs logs tidied.list tidied.writes.items (S.history tidied.kit.store)
        → IfErr result (λ fault. Keeps (asked part) (recovered cs logs).pairs (S.history tidied.kit.store) (S.history fault.kit.store)) }
    ensures undamaged { (cs : List Content) (logs : List (List PlainWrite)) → Stands (λ file. S.Frozen.content file) (asked part) cs logs tidied.list tidied.writes.items (S.history tidied.kit.store)
        → IfErr result (λ fault. IfDamaged fault.cause (λ damage. ⊥)) }

    // Where the files of the components are told, so is that of the new one.
    ensures components { IfTold (S.history tidied.kit.store) (λ disk. AreTold (map (told_component S.Frozen.content) tidied.list))
        → IfOk result (λ r. IfTold (S.history r.kit.store) (λ disk. AreTold (map (told_component S.Frozen.content) r.list))) }

    // So it is over every store: behind the components that there were one has the generations of the logs, and no other file is
    // left.
    ensures listed { IfOk result (λ r. AreListed (λ file. S.Frozen.name file) (asked part) r.list) }
    ensures flushed { IfOk result (λ r. AreFlushed (λ older. older ≡ tidied.list) (found_in tidied.list tidied.writes.items) r.list) }
    ensures own { IfOk result (λ r. IfTold (S.history r.kit.store) (AreOwn r.list [])) }

    ensures damaged { IfErr result (λ fault. IfDamaged fault.cause (IsOfLogs (λ file. S.Frozen.content file) (λ file. S.Frozen.name file) (asked part) (λ list. list ≡ tidied.list) (found_in tidied.list tidied.writes.items))) }
    ensures causes { IfErr result (λ fault. IsOfJob fault.cause) }
    ensures home { IfErr result (λ fault. IfTold (S.history fault.kit.store) AreIn) }
    ensures kit { IfOk result (λ r. r.kit ≡ record tidied.kit { store = r.kit.store; main = r.kit.main }) }
    ensures given_back { IfErr result (λ fault. fault.kit ≡ record tidied.kit { store = fault.kit.store; main = fault.kit.main }) }
    ensures watched { IfOk result (λ r. IsWatched ⊥ (S.Watch.counts tidied.kit.main) (S.Watch.counts r.kit.main)) }
    ensures failed { IfErr result (λ fault. IsWatched (fault.cause ≡ OpenCause.Disk) (S.Watch.counts tidied.kit.main) (S.Watch.counts fault.kit.main)) }
{
    let Tidied {
        kit,
        list,
        logs,
        writes,
        last,
    } = tidied;
    if writes.is_empty() {
        return Ok(Rested { kit, list });
    }
    let head = Head {
        number: part.number,
        count: part.count,
        from: last + 1,
        to: last + writes.len() as u64,
    };
    match flush_kit(alloc, kit, list, &writes, head) {
        Ok(Rested { kit, list }) => match remove_files(alloc, kit, head.to, logs) {
            Ok(removed) => Ok(Rested {
                kit: removed.kit,
                list,
            }),
            Err(fault) => Err(fault),
        },
        Err(fault) => Err(fault),
    }
}

/// Flushes these logs as the component of this header.
fn flush_kit<S: Store>(
    alloc: Global,
    kit: Kit<S>,
    list: ComponentList<S::Frozen>,
    writes: &[Writes],
    head: Head,
) -> Result<Rested<S>, OpenFault<S>>
    requires lawful { All (AllByRecursion IsWrite) writes.now }
    requires some { 0 < length writes.now }
    requires from { head.from ≡ last_of list + 1 }
    requires to { head.to ≡ last_of list + length writes.now }
    requires last { head.to < 2 ^ 63 }
    requires free { IfTold (S.history kit.store) (λ disk. IsThere (disk (name_of head)) → ⊥) }

    ensures flushed { (cs : List Content) (ws : List (List PlainWrite)) → IsOpening (part_of head) cs ws (S.history kit.store) → AllZip (IsLoadedOf (λ file. S.Frozen.content file)) list cs → writes.now ≡ map (λ log. map kept_write log) ws
        → IfOk result (λ r. IsLogsFlushed (λ file. S.Frozen.content file) head cs ws r.list (S.history r.kit.store)) }
    ensures keeps { (cs : List Content) (ws : List (List PlainWrite)) → IsOpening (part_of head) cs ws (S.history kit.store) → AllZip (IsLoadedOf (λ file. S.Frozen.content file)) list cs → writes.now ≡ map (λ log. map kept_write log) ws
        → IfOk result (λ r. Keeps (part_of head) (recovered cs ws).pairs (S.history kit.store) (S.history r.kit.store)) }
    ensures kept { (cs : List Content) (ws : List (List PlainWrite)) → IsOpening (part_of head) cs ws (S.history kit.store) → AllZip (IsLoadedOf (λ file. S.Frozen.content file)) list cs → writes.now ≡ map (λ log. map kept_write log) ws
        → IfErr result (λ fault. Keeps (part_of head) (recovered cs ws).pairs (S.history kit.store) (S.history fault.kit.store)) }
    ensures undamaged { (cs : List Content) (ws : List (List PlainWrite)) → IsOpening (part_of head) cs ws (S.history kit.store) → AllZip (IsLoadedOf (λ file. S.Frozen.content file)) list cs → writes.now ≡ map (λ log. map kept_write log) ws
        → IfTold (S.history kit.store) (λ disk. IfErr result (λ fault. IfDamaged fault.cause (λ damage. ⊥))) }

    ensures listed { IfOk result (λ r. IsFlushListed (λ file. S.Frozen.content file) (λ file. S.Frozen.name file) head list r.list (S.history kit.store) (S.history r.kit.store)) }
    ensures partition { IfOk result (λ r. IsListOf head.number head.count list → IsListOf head.number head.count r.list) }
    ensures damaged { IfErr result (λ fault. IfDamaged fault.cause (IsReplayDamage (λ file. S.Frozen.content file) (λ file. S.Frozen.name file) head writes.now list)) }
    ensures causes { IfErr result (λ fault. IsOfJob fault.cause) }
    ensures home { IfTold (S.history kit.store) AreIn → IfErr result (λ fault. IfTold (S.history fault.kit.store) AreIn) }
    ensures kit { IfOk result (λ r. r.kit ≡ record kit { store = r.kit.store; main = r.kit.main }) }
    ensures given_back { IfErr result (λ fault. fault.kit ≡ record kit { store = fault.kit.store; main = fault.kit.main }) }
    ensures watched { IfOk result (λ r. IsWatched ⊥ (S.Watch.counts kit.main) (S.Watch.counts r.kit.main)) }
    ensures failed { IfErr result (λ fault. IsWatched (fault.cause ≡ OpenCause.Disk) (S.Watch.counts kit.main) (S.Watch.counts fault.kit.main)) }
{
    let Kit {
        store,
        main,
        flusher,
        merger,
        reader,
    } = kit;
    let mut store = store;
    let mut list = list;
    let LogsFlushed { watch, outcome } = flush_logs(
        alloc, &mut store, &mut list, writes, head, main,
    );
    let kit = Kit {
        store,
        main: watch,
        flusher,
        merger,
        reader,
    };
    match outcome {
        Ok(()) => Ok(Rested { kit, list }),
        Err(fault) => Err(OpenFault {
            kit,
            cause: OpenCause::from(fault),
        }),
    }
}
