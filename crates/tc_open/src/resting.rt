//! All that is done with the files of a partition before it starts.

ghost use Rattle.std.specs.Prelude.{◌≡◌, ◌≤◌, [], List, length, map, IfErr, IfOk};
ghost use Rattle.tc_store.specs.Disk.{IsAtRest};
ghost use Rattle.tc_store.specs.Moments.{IfTold};
ghost use Rattle.tc_lsm_model.specs.Contents.{Content};
ghost use Rattle.tc_machine.specs.Pictures.{recovered};
ghost use Rattle.tc_merge.specs.Faults.{IsWatched};
ghost use Rattle.tc_part_model.specs.PartState.{AreTold, told_component};
ghost use Rattle.tc_plain_model.specs.Writes.{Write as PlainWrite};
ghost use Rattle.tc_recover.specs.Files.{TakesSome};
ghost use Rattle.tc_recover.specs.Lawful.{DiskOpens};
ghost use Rattle.tc_recover.specs.Loading.{interval_of};
ghost use Rattle.tc_recover.specs.Refusals.{asked};
ghost use Rattle.tc_open.specs.BeingOpened.{AreIn};
ghost use Rattle.tc_open.specs.Judged.{CauseJudged, IsOpenCause, IsUntouched, Passes};
ghost use Rattle.tc_open.specs.Listed.{AreOpenedFrom, listed_as, most_listed};
ghost use Rattle.tc_open.specs.OpenCauses.{IfDamaged, IfLayout};
ghost use Rattle.tc_open.specs.Resting.{AreOwn};
ghost use Rattle.tc_open.specs.Steps.{AreListed, Keeps, Rests};

use crate::clearing::clear_logs;
use crate::fault::{OpenCause, OpenFault};
use crate::merging::merge_many;
use crate::steps::Rested;
use std::alloc::Global;
use tc_recover::Partition;
use tc_store::{Kit, Store};

/// Reads the files, removes those that nobody needs, flushes the logs above the components, and merges these where there are many.
pub(crate) fn bring_to_rest<S: Store>(
    alloc: Global,
    kit: Kit<S>,
    part: Partition,
) -> Result<Rested<S>, OpenFault<S>>
    requires at_rest { IfTold (S.history kit.store) IsAtRest }

    // What lawful files hold is then in the components alone, of which there are few.
    ensures rests { IfTold (S.history kit.store) (λ disk. (cs : List Content) (logs : List (List PlainWrite)) → DiskOpens (asked part) disk cs logs
        → IfOk result (λ r. Rests (λ file. S.Frozen.content file) (asked part) (AreOpenedFrom (asked part) cs logs) (recovered cs logs) r.list (S.history r.kit.store))) }
    ensures keeps { IfTold (S.history kit.store) (λ disk. (cs : List Content) (logs : List (List PlainWrite)) → DiskOpens (asked part) disk cs logs
        → IfOk result (λ r. Keeps (asked part) (recovered cs logs).pairs (S.history kit.store) (S.history r.kit.store))) }
    ensures kept { IfTold (S.history kit.store) (λ disk. (cs : List Content) (logs : List (List PlainWrite)) → DiskOpens (asked part) disk cs logs
        → IfErr result (λ fault. Keeps (asked part) (recovered cs logs).pairs (S.history kit.store) (S.history fault.kit.store))) }
    ensures lawful { IfTold (S.history kit.store) (λ disk. (cs : List Content) (logs : List (List PlainWrite)) → DiskOpens (asked part) disk cs logs
        → IfErr result (λ fault. IfLayout fault.cause ⊥)) }
    ensures undamaged { IfTold (S.history kit.store) (λ disk. (cs : List Content) (logs : List (List PlainWrite)) → DiskOpens (asked part) disk cs logs
        → IfErr result (λ fault. IfDamaged fault.cause (λ damage. ⊥))) }

    // Where the store tells its files, the answer is what is judged of them.
    ensures judged { IfTold (S.history kit.store) (λ disk. IfOk result (λ r. Passes (asked part) disk (λ found. map interval_of r.list ≡ listed_as found))) }
    ensures refused { IfTold (S.history kit.store) (λ disk. IfErr result (λ fault. CauseJudged (λ file. S.Frozen.content file) (λ file. S.Frozen.name file) (asked part) disk fault.cause)) }
    ensures causes { IfErr result (λ fault. IsOpenCause S.Watch (λ file. S.Frozen.size file) (λ file. S.Frozen.content file) (λ file. S.Frozen.name file) (asked part) fault.cause) }
    ensures layout { IfErr result (λ fault. IfLayout fault.cause (TakesSome (S.history kit.store) (S.history fault.kit.store))) }
    ensures untouched { IfErr result (λ fault. IsUntouched (asked part) (S.history kit.store) (S.history fault.kit.store)) }
    ensures home { IfErr result (λ fault. IfTold (S.history fault.kit.store) AreIn) }

    // Where it still tells them, so do the files of the components.
    ensures components { IfOk result (λ r. IfTold (S.history r.kit.store) (λ disk. AreTold (map (told_component S.Frozen.content) r.list))) }

    // So it is over every store.
    ensures listed { IfOk result (λ r. AreListed (λ file. S.Frozen.name file) (asked part) r.list) }
    ensures few { IfOk result (λ r. length r.list ≤ most_listed) }
    ensures own { IfOk result (λ r. IfTold (S.history r.kit.store) (AreOwn r.list [])) }
    ensures kit { IfOk result (λ r. r.kit ≡ record kit { store = r.kit.store; main = r.kit.main }) }
    ensures given_back { IfErr result (λ fault. fault.kit ≡ record kit { store = fault.kit.store; main = fault.kit.main }) }
    ensures watched { IfOk result (λ r. IsWatched ⊥ (S.Watch.counts kit.main) (S.Watch.counts r.kit.main)) }
    ensures failed { IfErr result (λ fault. IsWatched (fault.cause ≡ OpenCause.Disk) (S.Watch.counts kit.main) (S.Watch.counts fault.kit.main)) }
{
    match clear_logs(alloc, kit, part) {
        Ok(rested) => merge_many(alloc, part, rested),
        Err(fault) => Err(fault),
    }
}
