//! The component that a job made is listed.

ghost use Rattle.std.specs.Arc.{arc_value};
ghost use Rattle.std.specs.Prelude.{◌≡◌, ◌<◌, ◌≤◌, ◌+◌, ℕ, [], true, false, length, map, take, drop, IfErr, IfOk, IfSome, IsErrOf, OnOk, OnErr};
ghost use Rattle.std.specs.Result.{IsOk};
ghost use Rattle.tc_bytes.specs.Counts.{next_count};
ghost use Rattle.tc_lsm_model.specs.Contents.{Content};
ghost use Rattle.tc_model.specs.Dictionary.{Extends};
ghost use Rattle.tc_names.specs.Section.{section};
ghost use Rattle.tc_store.specs.DiskFile.{IsSettled};
ghost use Rattle.tc_store.specs.Moments.{IfTold};
ghost use Rattle.tc_store.specs.StoreCalls.{comes_home, content_now, frozen_entry};
ghost use Rattle.tc_component.specs.Layout.{names_place};
ghost use Rattle.tc_component.specs.Rows.{head_of, IsComponent};
ghost use Rattle.tc_component.specs.Spelling.{name_of, sizes_in};
ghost use Rattle.tc_list.specs.Intervals.{first_of, last_of};
ghost use Rattle.tc_list.specs.Runs.{in_run};
ghost use Rattle.tc_merge.specs.Faults.{IsWatched};
ghost use Rattle.tc_merge.specs.Merging.{newest_names};
ghost use Rattle.tc_jobs.specs.Faults.{IfDamaged, IfHarmed};
ghost use Rattle.tc_jobs.specs.Listing.{FitsBehind, FitsFor, IsListed, IsReadBack, IsUnlisted, behind, in_place};
ghost use Rattle.tc_jobs.specs.Lists.{FirstExtends, IsListOf};
ghost use Rattle.tc_jobs.specs.ReadBack.{ComesHome};

use crate::fault::JobFault;
use crate::naming::{goes_behind, goes_between, names_damage};
use crate::reading::read_back;
use std::alloc::Global;
use std::sync::Arc;
use tc_component::{Component, Head};
use tc_list::{ComponentList, Run};
use tc_store::{Frozen, Store};

/// Reads back the component of this header from the device of a flush, on which nothing is pending, and lists it behind the
/// others. `Damaged` has the place and the bytes that break the rules, or the names that do not go on from those of the newest
/// one listed. After an `Err` the list is as it was. `Disk` comes only where the store failed or a read did.
pub fn list_flush<S: Store>(
    alloc: Global,
    store: &mut S,
    list: &mut ComponentList<S::Frozen>,
    device: S::Device,
    head: Head,
    watch: &mut S::Watch,
) -> Result<(), JobFault>
    requires settled { IfTold (S.Device.history device) IsSettled }
    requires follows { head.from ≡ last_of list.old + 1 }

    ensures listed { OnOk result (IsListed (IsReadBack S.Frozen.content S.Frozen.name head (S.Device.name device) (S.Device.history device)) (FitsBehind list.old) (behind list.old) list.new) }
    ensures partition { OnOk result ((number count : ℕ) → (head.number ≡ number) → (head.count ≡ count) → IsListOf number count list.old → IsListOf number count list.new) }
    ensures unlisted { OnErr result (list.new ≡ list.old) }

    ensures damaged { IfDamaged result (IsUnlisted (IsReadBack S.Frozen.content S.Frozen.name head (S.Device.name device) (S.Device.history device)) (FitsBehind list.old) head (S.Device.size device) (S.Device.history device)) }
    ensures sound { IfSome (content_now (S.Device.history device)) (λ bytes. (c : Content) → IsComponent c bytes → head_of c ≡ head → Extends c.names (newest_names [] list.old) → IfDamaged result (λ damage. ⊥)) }

    // Of the store only the file of the device changes.
    ensures still { OnOk result (S.history store.new ≡ comes_home (S.Device.name device) frozen_entry (S.Device.history device) (S.history store.old)) }
    ensures still_damaged { IfDamaged result (λ damage. S.history store.new ≡ comes_home (S.Device.name device) frozen_entry (S.Device.history device) (S.history store.old)) }
    ensures home { OnErr result (ComesHome (S.Device.name device) (S.Device.history device) (S.history store.old) (S.history store.new)) }

    ensures reads { IsOk result → (S.Watch.counts watch.new).reads ≡ next_count (next_count (S.Watch.counts watch.old).reads) }
    ensures watched { IsWatched (IsErrOf result JobFault.Disk) (S.Watch.counts watch.old) (S.Watch.counts watch.new) }
{
    let component = read_back(alloc, store, device, head, watch)?;
    let fits = goes_behind(list, &component);
    let shared = share_fitting(alloc, component, fits)?;
    list.push(shared)?;
    Ok(())
}

/// Reads back the component of this header from the device of a merge, on which nothing is pending, and lists it in place of
/// its run, whose components are the answer, the oldest first. `Damaged` has the place and the bytes that break the rules, or
/// the names that do not go together with those on both sides of the run. After an `Err` the list is as it was. `Disk` comes
/// only where the store failed or a read did.
pub fn list_merge<S: Store>(
    alloc: Global,
    store: &mut S,
    list: &mut ComponentList<S::Frozen>,
    device: S::Device,
    run: Run,
    head: Head,
    watch: &mut S::Watch,
) -> Result<Vec<Arc<Component<S::Frozen>>>, JobFault>
    requires settled { IfTold (S.Device.history device) IsSettled }
    requires order { run.first ≤ run.last }
    requires within { run.last < length list.old }
    requires begins { head.from ≡ first_of (in_run run list.old) }
    requires ends { head.to ≡ last_of (in_run run list.old) }

    ensures listed { OnOk result (IsListed (IsReadBack S.Frozen.content S.Frozen.name head (S.Device.name device) (S.Device.history device)) (FitsFor run list.old) (in_place run list.old) list.new) }
    ensures left { IfOk result (λ left. map arc_value left.items ≡ in_run run list.old) }
    ensures partition { OnOk result ((number count : ℕ) → (head.number ≡ number) → (head.count ≡ count) → IsListOf number count list.old → IsListOf number count list.new) }
    ensures unlisted { OnErr result (list.new ≡ list.old) }

    ensures damaged { IfDamaged result (IsUnlisted (IsReadBack S.Frozen.content S.Frozen.name head (S.Device.name device) (S.Device.history device)) (FitsFor run list.old) head (S.Device.size device) (S.Device.history device)) }
    ensures sound { IfSome (content_now (S.Device.history device)) (λ bytes. (c : Content) → IsComponent c bytes → head_of c ≡ head → Extends c.names (newest_names [] (take run.first list.old)) × FirstExtends c.names (drop (run.last + 1) list.old) → IfDamaged result (λ damage. ⊥)) }

    // Of the store only the file of the device changes.
    ensures still { OnOk result (S.history store.new ≡ comes_home (S.Device.name device) frozen_entry (S.Device.history device) (S.history store.old)) }
    ensures still_damaged { IfDamaged result (λ damage. S.history store.new ≡ comes_home (S.Device.name device) frozen_entry (S.Device.history device) (S.history store.old)) }
    ensures home { OnErr result (ComesHome (S.Device.name device) (S.Device.history device) (S.history store.old) (S.history store.new)) }

    ensures reads { IsOk result → (S.Watch.counts watch.new).reads ≡ next_count (next_count (S.Watch.counts watch.old).reads) }
    ensures watched { IsWatched (IsErrOf result JobFault.Disk) (S.Watch.counts watch.old) (S.Watch.counts watch.new) }
{
    let component = read_back(alloc, store, device, head, watch)?;
    let fits = goes_between(list, run, &component);
    let shared = share_fitting(alloc, component, fits)?;
    let left = list.swap_run(run, shared)?;
    Ok(left)
}

/// A component to share, if it fits among the others, and else the damage of its names.
fn share_fitting<F: Frozen>(
    alloc: Global,
    component: Component<F>,
    fits: bool,
) -> Result<Arc<Component<F>>, JobFault>
    ensures shared { IfOk result (λ shared. (arc_value shared ≡ component) × (fits ≡ true)) }
    ensures damaged { IfErr result (λ fault. IfHarmed fault (λ file place bytes. (fits ≡ false) × (file ≡ name_of component.index.head) × (place ≡ names_place (sizes_in component.index)) × (bytes ≡ section component.index.names))) }
    ensures no_disk { IsErrOf result JobFault.Disk → ⊥ }
{
    if !fits {
        return Err(names_damage(alloc, &component));
    }
    Ok(Arc::new(alloc, component)?)
}
