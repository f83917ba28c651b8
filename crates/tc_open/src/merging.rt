//! Where more than eight components are listed, all of them are merged into one, with the kit of a partition.

ghost use Rattle.std.specs.Arc.{arc_value};
ghost use Rattle.std.specs.Prelude.{◌≡◌, ◌<◌, ◌≤◌, [], List, length, map, IfErr, IfOk};
ghost use Rattle.tc_store.specs.Moments.{IfTold};
ghost use Rattle.tc_store.specs.StoreCalls.{RemovesSome};
ghost use Rattle.tc_component.specs.Loading.{ComponentState};
ghost use Rattle.tc_lsm_model.specs.Contents.{Content};
ghost use Rattle.tc_machine.specs.Pictures.{recovered};
ghost use Rattle.tc_merge.specs.Faults.{IsWatched};
ghost use Rattle.tc_part_model.specs.PartState.{AreTold, told_component};
ghost use Rattle.tc_recover.specs.Loading.{interval_of};
ghost use Rattle.tc_recover.specs.Refusals.{asked};
ghost use Rattle.tc_recover.specs.Removing.{removes_all};
ghost use Rattle.tc_open.specs.Merges.{head_over, IsMergeDamage};
ghost use Rattle.tc_open.specs.BeingOpened.{AreIn};
ghost use Rattle.tc_open.specs.Listed.{AreMergedFrom, merged_as, most_listed};
ghost use Rattle.tc_open.specs.OpenCauses.{IfDamaged, IsOfCall, IsOfJob};
ghost use Rattle.tc_open.specs.Resting.{AreOwn};
ghost use Rattle.tc_open.specs.Steps.{AreListed, Keeps, Rests, Stands};

use crate::fault::{OpenCause, OpenFault};
use crate::merging_all::{ListMerged, merge_listed};
use crate::removal_laws::needless_files_go;
use crate::steps::Rested;
use std::alloc::Global;
use std::sync::Arc;
use tc_component::Component;
use tc_recover::Partition;
use tc_store::{Kit, Store};

/// How many components a partition may begin with.
const MOST_LISTED: usize = 8;

/// Merges all components into one where more than eight are listed, and removes the files of those that it took the place of.
/// `Disk` comes only where a call of the store, a device or a read failed.
pub(crate) fn merge_many<S: Store>(
    alloc: Global,
    part: Partition,
    rested: Rested<S>,
) -> Result<Rested<S>, OpenFault<S>>
    requires listed { AreListed (λ file. S.Frozen.name file) (asked part) rested.list }
    requires own { IfTold (S.history rested.kit.store) (AreOwn rested.list []) }
    requires told { IfTold (S.history rested.kit.store) (λ disk. AreTold (map (told_component S.Frozen.content) rested.list)) }

    // What was stored is then in few components, and a stop leaves it at each moment.
    ensures rests { (cs : List Content) → Stands (λ file. S.Frozen.content file) (asked part) cs [] rested.list [] (S.history rested.kit.store)
        → IfOk result (λ r. Rests (λ file. S.Frozen.content file) (asked part) (AreMergedFrom cs) (recovered cs []) r.list (S.history r.kit.store)) }
    ensures keeps { (cs : List Content) → Stands (λ file. S.Frozen.content file) (asked part) cs [] rested.list [] (S.history rested.kit.store)
        → IfOk result (λ r. Keeps (asked part) (recovered cs []).pairs (S.history rested.kit.store) (S.history r.kit.store)) }
    ensures kept { (cs : List Content) → Stands (λ file. S.Frozen.content file) (asked part) cs [] rested.list [] (S.history rested.kit.store)
        → IfErr result (λ fault. Keeps (asked part) (recovered cs []).pairs (S.history rested.kit.store) (S.history fault.kit.store)) }
    ensures undamaged { (cs : List Content) → Stands (λ file. S.Frozen.content file) (asked part) cs [] rested.list [] (S.history rested.kit.store) → IfErr result (λ fault. IfDamaged fault.cause (λ damage. ⊥)) }

    // So it is over every store: one has the generations of all where these were too many, and no other file is left.
    ensures merged { IfOk result (λ r. map interval_of r.list ≡ merged_as (map interval_of rested.list)) }
    ensures few { IfOk result (λ r. length r.list ≤ most_listed) }
    ensures listed { IfOk result (λ r. AreListed (λ file. S.Frozen.name file) (asked part) r.list) }
    ensures own { IfOk result (λ r. IfTold (S.history r.kit.store) (AreOwn r.list [])) }
    ensures components { IfOk result (λ r. IfTold (S.history r.kit.store) (λ disk. AreTold (map (told_component S.Frozen.content) r.list))) }

    ensures damaged { IfErr result (λ fault. IfDamaged fault.cause (λ damage. (most_listed < length rested.list) × IsMergeDamage (λ file. S.Frozen.content file) (λ file. S.Frozen.name file) (head_over part.number part.count rested.list) rested.list damage)) }
    ensures causes { IfErr result (λ fault. IsOfJob fault.cause) }
    ensures home { IfErr result (λ fault. IfTold (S.history fault.kit.store) AreIn) }
    ensures kit { IfOk result (λ r. r.kit ≡ record rested.kit { store = r.kit.store; main = r.kit.main }) }
    ensures given_back { IfErr result (λ fault. fault.kit ≡ record rested.kit { store = fault.kit.store; main = fault.kit.main }) }
    ensures watched { IfOk result (λ r. IsWatched ⊥ (S.Watch.counts rested.kit.main) (S.Watch.counts r.kit.main)) }
    ensures failed { IfErr result (λ fault. IsWatched (fault.cause ≡ OpenCause.Disk) (S.Watch.counts rested.kit.main) (S.Watch.counts fault.kit.main)) }
{
    needless_files_go();
    if rested.list.len() <= MOST_LISTED {
        return Ok(rested);
    }
    let Rested { kit, list } = rested;
    let Kit {
        store,
        main,
        flusher,
        merger,
        reader,
    } = kit;
    let mut store = store;
    let mut list = list;
    let ListMerged { watch, outcome } = merge_listed(
        alloc,
        &mut store,
        &mut list,
        part.number,
        part.count,
        main,
    );
    let kit = Kit {
        store,
        main: watch,
        flusher,
        merger,
        reader,
    };
    match outcome {
        Ok(replaced) => match remove_replaced(kit, replaced) {
            Ok(kit) => Ok(Rested { kit, list }),
            Err(fault) => Err(fault),
        },
        Err(fault) => Err(OpenFault {
            kit,
            cause: OpenCause::from(fault),
        }),
    }
}

/// Removes the files of these components. Nobody else has a share of one while a partition is being opened: if somebody had, it
/// could not be taken out of memory.
fn remove_replaced<S: Store>(
    kit: Kit<S>,
    components: Vec<Arc<Component<S::Frozen>>>,
) -> Result<Kit<S>, OpenFault<S>>
    ensures removed { IfOk result (λ k. S.history k.store ≡ removes_all (map (λ (m : ComponentState S.Frozen). S.Frozen.name m.file) (map arc_value components.items)) (S.history kit.store)) }
    ensures partly { IfErr result (λ fault. RemovesSome (map (λ (m : ComponentState S.Frozen). S.Frozen.name m.file) (map arc_value components.items)) (S.history kit.store) (S.history fault.kit.store)) }
    ensures causes { IfErr result (λ fault. IsOfCall fault.cause) }
    ensures kit { IfOk result (λ k. k ≡ record kit { store = k.store; main = k.main }) }
    ensures given_back { IfErr result (λ fault. fault.kit ≡ record kit { store = fault.kit.store; main = fault.kit.main }) }
    ensures watched { IfOk result (λ k. IsWatched ⊥ (S.Watch.counts kit.main) (S.Watch.counts k.main)) }
    ensures failed { IfErr result (λ fault. IsWatched (fault.cause ≡ OpenCause.Disk) (S.Watch.counts kit.main) (S.Watch.counts fault.kit.main)) }
{
    let mut kit = kit;
    for component in components {
        match Arc::try_unwrap(component) {
            Ok(component) => {
                if let Err(fault) = kit.store.remove(component.into_file(), &mut kit.main) {
                    return Err(OpenFault {
                        kit,
                        cause: OpenCause::from(fault),
                    });
                }
            }
            Err(_shared) => {
                return Err(OpenFault {
                    kit,
                    cause: OpenCause::Memory,
                });
            }
        }
    }
    Ok(kit)
}
