//! The files of a partition are read, and those that nobody needs are removed.

ghost use Rattle.std.specs.Prelude.{◌≡◌, Ok, List, map, IfErr, IfOk};
ghost use Rattle.tc_store.specs.Disk.{IsAtRest};
ghost use Rattle.tc_store.specs.Moments.{IfTold};
ghost use Rattle.tc_lsm_model.specs.Contents.{Content};
ghost use Rattle.tc_machine.specs.Pictures.{recovered};
ghost use Rattle.tc_merge.specs.Faults.{IsWatched};
ghost use Rattle.tc_part_model.specs.PartState.{AreTold, told_component};
ghost use Rattle.tc_plain_model.specs.Writes.{Write as PlainWrite};
ghost use Rattle.tc_recover.specs.Files.{TakesSome};
ghost use Rattle.tc_recover.specs.Lawful.{DiskOpens};
ghost use Rattle.tc_recover.specs.Opening.{DiskJudged, found_in};
ghost use Rattle.tc_recover.specs.Refusals.{asked};
ghost use Rattle.tc_open.specs.BeingOpened.{AreIn};
ghost use Rattle.tc_open.specs.Judged.{AreOfDisk, CauseJudged, IsOpenCause, IsUntouched};
ghost use Rattle.tc_open.specs.OpenCauses.{IfDamaged, IfLayout};
ghost use Rattle.tc_open.specs.Resting.{AreOwn};
ghost use Rattle.tc_open.specs.Steps.{AreAbove, AreListed, Keeps, Stands};

use crate::fault::{OpenCause, OpenFault};
use crate::reading::read_kit;
use crate::removing::remove_files;
use crate::steps::{ReadKit, Removed, Tidied};
use std::alloc::Global;
use tc_recover::{FilesRead, Partition};
use tc_store::{Kit, Store};

/// Reads all files, and removes closed ones, components that do not count, and logs whose writes are in components. `Disk` comes
/// only where a call of the store or a read failed.
pub(crate) fn tidy<S: Store>(
    alloc: Global,
    kit: Kit<S>,
    part: Partition,
) -> Result<Tidied<S>, OpenFault<S>>
    requires at_rest { IfTold (S.history kit.store) IsAtRest }

    // Lawful files are read as what they hold, and stay so.
    ensures stands { IfTold (S.history kit.store) (λ disk. (cs : List Content) (logs : List (List PlainWrite)) → DiskOpens (asked part) disk cs logs
        → IfOk result (λ t. Stands (λ file. S.Frozen.content file) (asked part) cs logs t.list t.writes.items (S.history t.kit.store))) }
    ensures keeps { IfTold (S.history kit.store) (λ disk. (cs : List Content) (logs : List (List PlainWrite)) → DiskOpens (asked part) disk cs logs
        → IfOk result (λ t. Keeps (asked part) (recovered cs logs).pairs (S.history kit.store) (S.history t.kit.store))) }
    ensures kept { IfTold (S.history kit.store) (λ disk. (cs : List Content) (logs : List (List PlainWrite)) → DiskOpens (asked part) disk cs logs
        → IfErr result (λ fault. Keeps (asked part) (recovered cs logs).pairs (S.history kit.store) (S.history fault.kit.store))) }
    ensures lawful { IfTold (S.history kit.store) (λ disk. (cs : List Content) (logs : List (List PlainWrite)) → DiskOpens (asked part) disk cs logs
        → IfErr result (λ fault. IfLayout fault.cause ⊥)) }
    ensures undamaged { IfTold (S.history kit.store) (λ disk. (cs : List Content) (logs : List (List PlainWrite)) → DiskOpens (asked part) disk cs logs
        → IfErr result (λ fault. IfDamaged fault.cause (λ damage. ⊥))) }

    // Where the store tells its files, the answer is what is judged of them.
    ensures judged { IfTold (S.history kit.store) (λ disk. IfOk result (λ t. DiskJudged (asked part) disk (Ok (found_in t.list t.writes.items)))) }
    ensures refused { IfTold (S.history kit.store) (λ disk. IfErr result (λ fault. CauseJudged (λ file. S.Frozen.content file) (λ file. S.Frozen.name file) (asked part) disk fault.cause)) }
    ensures causes { IfErr result (λ fault. IsOpenCause S.Watch (λ file. S.Frozen.size file) (λ file. S.Frozen.content file) (λ file. S.Frozen.name file) (asked part) fault.cause) }
    ensures layout { IfErr result (λ fault. IfLayout fault.cause (TakesSome (S.history kit.store) (S.history fault.kit.store))) }
    ensures untouched { IfErr result (λ fault. IsUntouched (asked part) (S.history kit.store) (S.history fault.kit.store)) }
    ensures home { IfErr result (λ fault. IfTold (S.history fault.kit.store) AreIn) }

    // Then the components are of its files, and where it still tells them, so do the files of these.
    ensures files { IfTold (S.history kit.store) (λ disk. IfOk result (λ t. AreOfDisk (λ file. S.Frozen.content file) disk t.list)) }
    ensures components { IfOk result (λ t. IfTold (S.history t.kit.store) (λ disk. AreTold (map (told_component S.Frozen.content) t.list))) }

    // So it is over every store.
    ensures listed { IfOk result (λ t. AreListed (λ file. S.Frozen.name file) (asked part) t.list) }
    ensures above { IfOk result (λ t. AreAbove (λ file. S.Frozen.name file) t.list t.logs.items t.writes.items t.last) }
    ensures own { IfOk result (λ t. IfTold (S.history t.kit.store) (AreOwn t.list (map (λ taken. S.Frozen.name taken.file) t.logs.items))) }
    ensures kit { IfOk result (λ t. t.kit ≡ record kit { store = t.kit.store; main = t.kit.main }) }
    ensures given_back { IfErr result (λ fault. fault.kit ≡ record kit { store = fault.kit.store; main = fault.kit.main }) }
    ensures watched { IfOk result (λ t. IsWatched ⊥ (S.Watch.counts kit.main) (S.Watch.counts t.kit.main)) }
    ensures failed { IfErr result (λ fault. IsWatched (fault.cause ≡ OpenCause.Disk) (S.Watch.counts kit.main) (S.Watch.counts fault.kit.main)) }
{
    match read_kit(alloc, kit, part) {
        Ok(ReadKit { kit, read }) => {
            let FilesRead {
                list,
                left,
                writes,
                last,
            } = read;
            match remove_files(alloc, kit, last, left) {
                Ok(Removed { kit, logs }) => Ok(Tidied {
                    kit,
                    list,
                    logs,
                    writes,
                    last,
                }),
                Err(fault) => Err(fault),
            }
        }
        Err(fault) => Err(fault),
    }
}
