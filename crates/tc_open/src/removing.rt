//! Files that nobody needs are removed, with the kit of a partition.

ghost use Rattle.std.specs.Prelude.{◌≡◌, [], List, filter, map, IfErr, IfOk};
ghost use Rattle.tc_store.specs.Moments.{IfTold};
ghost use Rattle.tc_component.specs.Loading.{ComponentState};
ghost use Rattle.tc_lsm_model.specs.Contents.{Content, Partition};
ghost use Rattle.tc_machine.specs.Pictures.{recovered};
ghost use Rattle.tc_merge.specs.Faults.{IsWatched};
ghost use Rattle.tc_part_model.specs.PartState.{IsTold};
ghost use Rattle.tc_plain_model.specs.Writes.{Write};
ghost use Rattle.tc_recover.specs.Loads.{is_log as of_log};
ghost use Rattle.tc_recover.specs.Removing.{needless_names};
ghost use Rattle.tc_open.specs.BeingOpened.{AreIn, AreNeedless, IsOpening};
ghost use Rattle.tc_open.specs.OpenCauses.{IsOfCall};
ghost use Rattle.tc_open.specs.Resting.{AreOwn};
ghost use Rattle.tc_open.specs.Steps.{Keeps};

use crate::fault::{OpenCause, OpenFault};
use crate::removal_laws::needless_files_go;
use crate::steps::Removed;
use std::alloc::Global;
use tc_recover::{Taken, remove_needless};
use tc_store::{Kit, Store};

/// Removes all of these files but the open logs above a generation. `Disk` comes only where a removal failed.
pub(crate) fn remove_files<S: Store>(
    alloc: Global,
    kit: Kit<S>,
    last: u64,
    files: Vec<Taken<S::Frozen>>,
) -> Result<Removed<S>, OpenFault<S>>
    // Where nobody needs them, the partition is opened as it was, and a stop leaves what was stored.
    ensures opening { (part : Partition) (cs : List Content) (logs : List (List Write)) → IsOpening part cs logs (S.history kit.store) → IfTold (S.history kit.store) (λ disk. AreNeedless cs disk (needless_names (λ file. S.Frozen.name file) last files.items))
        → IfOk result (λ r. IsOpening part cs logs (S.history r.kit.store)) }
    ensures keeps { (part : Partition) (cs : List Content) (logs : List (List Write)) → IsOpening part cs logs (S.history kit.store) → IfTold (S.history kit.store) (λ disk. AreNeedless cs disk (needless_names (λ file. S.Frozen.name file) last files.items))
        → IfOk result (λ r. Keeps part (recovered cs logs).pairs (S.history kit.store) (S.history r.kit.store)) }
    ensures kept { (part : Partition) (cs : List Content) (logs : List (List Write)) → IsOpening part cs logs (S.history kit.store) → IfTold (S.history kit.store) (λ disk. AreNeedless cs disk (needless_names (λ file. S.Frozen.name file) last files.items))
        → IfErr result (λ fault. Keeps part (recovered cs logs).pairs (S.history kit.store) (S.history fault.kit.store)) }
    ensures tells { IsTold (S.history kit.store) → IfOk result (λ r. IsTold (S.history r.kit.store)) }
    ensures untold { S.history kit.store ≡ [] → IfOk result (λ r. S.history r.kit.store ≡ []) }

    // Over every store they are gone.
    ensures logs { IfOk result (λ r. r.logs.items ≡ filter (of_log last) files.items) }
    ensures own { (list : List (ComponentState S.Frozen)) → IfTold (S.history kit.store) (AreOwn list (map (λ t. S.Frozen.name t.file) files.items))
        → IfOk result (λ r. IfTold (S.history r.kit.store) (AreOwn list (map (λ t. S.Frozen.name t.file) r.logs.items))) }

    ensures home { IfTold (S.history kit.store) AreIn → IfErr result (λ fault. IfTold (S.history fault.kit.store) AreIn) }
    ensures kit { IfOk result (λ r. r.kit ≡ record kit { store = r.kit.store; main = r.kit.main }) }
    ensures given_back { IfErr result (λ fault. fault.kit ≡ record kit { store = fault.kit.store; main = fault.kit.main }) }
    ensures causes { IfErr result (λ fault. IsOfCall fault.cause) }
    ensures watched { IfOk result (λ r. IsWatched ⊥ (S.Watch.counts kit.main) (S.Watch.counts r.kit.main)) }
    ensures failed { IfErr result (λ fault. IsWatched (fault.cause ≡ OpenCause.Disk) (S.Watch.counts kit.main) (S.Watch.counts fault.kit.main)) }
{
    needless_files_go();
    let mut kit = kit;
    match remove_needless(alloc, &mut kit.store, last, files, &mut kit.main) {
        Ok(logs) => Ok(Removed { kit, logs }),
        Err(cause) => Err(OpenFault {
            kit,
            cause: OpenCause::from(cause),
        }),
    }
}
