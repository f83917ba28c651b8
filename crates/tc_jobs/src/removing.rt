//! Files are removed: of components that a merge took the place of, and of a log that a component covers.

ghost use Rattle.std.specs.Arc.{arc_value};
ghost use Rattle.std.specs.List.{Contains};
ghost use Rattle.std.specs.Prelude.{◌≡◌, ◌⊎◌, ◌++◌, ◌∷◌, [], map, All, IfOk, IsErrOf, OnOk, OnErr};
ghost use Rattle.tc_store.specs.Counted.{IsCounted};
ghost use Rattle.tc_store.specs.DiskFile.{IsSettled};
ghost use Rattle.tc_store.specs.Moments.{IfTold};
ghost use Rattle.tc_store.specs.StoreCalls.{comes_home, frozen_entry, removes, RemovesSome};
ghost use Rattle.tc_jobs.specs.Faults.{IfDamaged};
ghost use Rattle.tc_jobs.specs.Listing.{FailsRemoving};
ghost use Rattle.tc_component.specs.Loading.{ComponentState};

use crate::fault::JobFault;
use std::alloc::Global;
use std::sync::Arc;
use tc_component::Component;
use tc_store::Store;

/// Removes the files of those components of which nobody else has a share, in order, and gives back those that others share.
/// `Disk` comes only where a removal failed; then the files behind that one stay, and no share is given back.
pub fn remove_unshared<S: Store>(
    alloc: Global,
    store: &mut S,
    components: Vec<Arc<Component<S::Frozen>>>,
    watch: &mut S::Watch,
) -> Result<Vec<Arc<Component<S::Frozen>>>, JobFault>
    ensures removed { RemovesSome (map (λ (m : ComponentState S.Frozen). S.Frozen.name m.file) (map arc_value components.items)) (S.history store.old) (S.history store.new) }
    ensures shared { IfOk result (λ shared. All (Contains (map arc_value components.items)) (map arc_value shared.items)) }
    ensures no_damage { IfDamaged result (λ damage. ⊥) }
    ensures counted { IsCounted (IsErrOf result JobFault.Disk) (S.Watch.counts watch.old) (S.Watch.counts watch.new) }
{
    // There is room for all before the first file is removed, which cannot be undone.
    let mut shared = Vec::with_capacity(alloc, components.len())?;
    for component in components {
        remove_or_keep(store, component, &mut shared, watch)?;
    }
    Ok(shared)
}

/// Removes the file of a component if nobody else has a share of it, and else keeps it among those that others share.
fn remove_or_keep<S: Store>(
    store: &mut S,
    component: Arc<Component<S::Frozen>>,
    shared: &mut Vec<Arc<Component<S::Frozen>>>,
    watch: &mut S::Watch,
) -> Result<(), JobFault>
    ensures removed { (S.history store.new ≡ S.history store.old) ⊎ (S.history store.new ≡ removes (S.Frozen.name (arc_value component).file) (S.history store.old)) }
    ensures kept { OnOk result ((shared.new.items ≡ shared.old.items) ⊎ (shared.new.items ≡ shared.old.items ++ component ∷ [])) }
    ensures no_damage { IfDamaged result (λ damage. ⊥) }
    ensures counted { IsCounted (IsErrOf result JobFault.Disk) (S.Watch.counts watch.old) (S.Watch.counts watch.new) }
{
    match Arc::try_unwrap(component) {
        Ok(component) => store.remove(component.into_file(), watch)?,
        Err(component) => shared.push(component)?,
    }
    Ok(())
}

/// Removes the file of a device on which nothing is pending: the log that a component covers. After an `Err` the device came
/// home as it is, or its file counts as removed too. `Disk` comes only where the store failed.
pub fn remove_file<S: Store>(
    alloc: Global,
    store: &mut S,
    device: S::Device,
    watch: &mut S::Watch,
) -> Result<(), JobFault>
    requires { IfTold (S.Device.history device) IsSettled }

    ensures removed { OnOk result (S.history store.new ≡ removes (S.Device.name device) (comes_home (S.Device.name device) frozen_entry (S.Device.history device) (S.history store.old))) }
    ensures failed { OnErr result (FailsRemoving (S.Device.name device) (S.Device.history device) (S.history store.old) (S.history store.new)) }
    ensures no_damage { IfDamaged result (λ damage. ⊥) }
    ensures counted { IsCounted (IsErrOf result JobFault.Disk) (S.Watch.counts watch.old) (S.Watch.counts watch.new) }
{
    let file = store.freeze(alloc, device, watch)?;
    store.remove(file, watch)?;
    Ok(())
}
