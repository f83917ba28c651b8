//! The files of a partition are read, with its kit.

ghost use Rattle.std.specs.List.{AllZip};
ghost use Rattle.std.specs.Prelude.{◌≡◌, Ok, List, filter, map, IfErr, IfOk};
ghost use Rattle.tc_store.specs.Disk.{IsAtRest};
ghost use Rattle.tc_store.specs.Moments.{IfTold};
ghost use Rattle.tc_lsm_model.specs.Contents.{Content};
ghost use Rattle.tc_machine.specs.Pictures.{recovered};
ghost use Rattle.tc_merge.specs.Faults.{IsWatched};
ghost use Rattle.tc_part_model.specs.PartState.{AreTold, told_component};
ghost use Rattle.tc_plain_model.specs.Writes.{Write as PlainWrite};
ghost use Rattle.tc_recover.specs.Files.{TakesSome};
ghost use Rattle.tc_recover.specs.Lawful.{DiskOpens};
ghost use Rattle.tc_recover.specs.Loads.{is_log as of_log};
ghost use Rattle.tc_recover.specs.Opening.{DiskJudged, found_in};
ghost use Rattle.tc_recover.specs.Refusals.{asked};
ghost use Rattle.tc_recover.specs.Removing.{needless_names};
ghost use Rattle.tc_open.specs.BeingOpened.{AreIn, AreNeedless};
ghost use Rattle.tc_open.specs.Judged.{AreOfDisk, CauseJudged, IsOpenCause, IsUntouched};
ghost use Rattle.tc_open.specs.OpenCauses.{IfDamaged, IfLayout};
ghost use Rattle.tc_open.specs.Resting.{AreOwn};
ghost use Rattle.tc_open.specs.Steps.{AreAbove, AreListed, Keeps, Stands};

use crate::fault::{OpenCause, OpenFault};
use crate::steps::ReadKit;
use std::alloc::Global;
use tc_lawful::loaded_files_hold;
use tc_recover::{Partition, read_files};
use tc_store::{Kit, Store};

/// Takes all files, and reads them. `Disk` comes only where a call of the store or a read failed.
pub(crate) fn read_kit<S: Store>(
    alloc: Global,
    kit: Kit<S>,
    part: Partition,
) -> Result<ReadKit<S>, OpenFault<S>>
    requires at_rest { IfTold (S.history kit.store) IsAtRest }

    // Lawful files are read as what they hold, and stay so.
    ensures stands { IfTold (S.history kit.store) (λ disk. (cs : List Content) (logs : List (List PlainWrite)) → DiskOpens (asked part) disk cs logs
        → IfOk result (λ r. Stands (λ file. S.Frozen.content file) (asked part) cs logs r.read.list r.read.writes.items (S.history r.kit.store))) }
    ensures spare { IfTold (S.history kit.store) (λ disk. (cs : List Content) (logs : List (List PlainWrite)) → DiskOpens (asked part) disk cs logs
        → IfOk result (λ r. IfTold (S.history r.kit.store) (λ now. AreNeedless cs now (needless_names (λ file. S.Frozen.name file) r.read.last r.read.left.items)))) }
    ensures keeps { IfTold (S.history kit.store) (λ disk. (cs : List Content) (logs : List (List PlainWrite)) → DiskOpens (asked part) disk cs logs
        → IfOk result (λ r. Keeps (asked part) (recovered cs logs).pairs (S.history kit.store) (S.history r.kit.store))) }
    ensures kept { IfTold (S.history kit.store) (λ disk. (cs : List Content) (logs : List (List PlainWrite)) → DiskOpens (asked part) disk cs logs
        → IfErr result (λ fault. Keeps (asked part) (recovered cs logs).pairs (S.history kit.store) (S.history fault.kit.store))) }
    ensures lawful { IfTold (S.history kit.store) (λ disk. (cs : List Content) (logs : List (List PlainWrite)) → DiskOpens (asked part) disk cs logs → IfErr result (λ fault. IfLayout fault.cause ⊥)) }
    ensures undamaged { IfTold (S.history kit.store) (λ disk. (cs : List Content) (logs : List (List PlainWrite)) → DiskOpens (asked part) disk cs logs → IfErr result (λ fault. IfDamaged fault.cause (λ damage. ⊥))) }

    // Where the store tells its files, the answer is what is judged of them.
    ensures judged { IfTold (S.history kit.store) (λ disk. IfOk result (λ r. DiskJudged (asked part) disk (Ok (found_in r.read.list r.read.writes.items)))) }
    ensures refused { IfTold (S.history kit.store) (λ disk. IfErr result (λ fault. CauseJudged (λ file. S.Frozen.content file) (λ file. S.Frozen.name file) (asked part) disk fault.cause)) }
    ensures causes { IfErr result (λ fault. IsOpenCause S.Watch (λ file. S.Frozen.size file) (λ file. S.Frozen.content file) (λ file. S.Frozen.name file) (asked part) fault.cause) }
    ensures layout { IfErr result (λ fault. IfLayout fault.cause (TakesSome (S.history kit.store) (S.history fault.kit.store))) }
    ensures untouched { IfErr result (λ fault. IsUntouched (asked part) (S.history kit.store) (S.history fault.kit.store)) }
    ensures home { IfErr result (λ fault. IfTold (S.history fault.kit.store) AreIn) }

    // Then the components are of its files, and where it still tells them, so do the files of these.
    ensures files { IfTold (S.history kit.store) (λ disk. IfOk result (λ r. AreOfDisk (λ file. S.Frozen.content file) disk r.read.list)) }
    ensures components { IfOk result (λ r. IfTold (S.history r.kit.store) (λ disk. AreTold (map (told_component S.Frozen.content) r.read.list))) }

    // So it is over every store.
    ensures listed { IfOk result (λ r. AreListed (λ file. S.Frozen.name file) (asked part) r.read.list) }
    ensures above { IfOk result (λ r. AreAbove (λ file. S.Frozen.name file) r.read.list (filter (of_log r.read.last) r.read.left.items) r.read.writes.items r.read.last) }
    ensures own { IfOk result (λ r. IfTold (S.history r.kit.store) (AreOwn r.read.list (map (λ t. S.Frozen.name t.file) r.read.left.items))) }
    ensures kit { IfOk result (λ r. r.kit ≡ record kit { store = r.kit.store; main = r.kit.main }) }
    ensures given_back { IfErr result (λ fault. fault.kit ≡ record kit { store = fault.kit.store; main = fault.kit.main }) }
    ensures watched { IfOk result (λ r. IsWatched ⊥ (S.Watch.counts kit.main) (S.Watch.counts r.kit.main)) }
    ensures failed { IfErr result (λ fault. IsWatched (fault.cause ≡ OpenCause.Disk) (S.Watch.counts kit.main) (S.Watch.counts fault.kit.main)) }
{
    loaded_files_hold::<S>();
    let mut kit = kit;
    match read_files(alloc, &mut kit.store, part, &mut kit.main) {
        Ok(read) => Ok(ReadKit { kit, read }),
        Err(cause) => Err(OpenFault {
            kit,
            cause: OpenCause::from(cause),
        }),
    }
}
