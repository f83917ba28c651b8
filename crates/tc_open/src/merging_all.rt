//! All components of an opening are merged into one.

ghost use Rattle.std.specs.Arc.{arc_value};
ghost use Rattle.std.specs.Prelude.{◌≡◌, ◌+◌, ◌<◌, ◌^◌, ◌-◌, [], List, length, map, drop, take, All, IfErr, IfOk, IfSome, IsErrOf, OnErr, OnOk};
ghost use Rattle.std.specs.List.{AllZip};
ghost use Rattle.std.specs.Result.{IsOk};
ghost use Rattle.tc_model.specs.Dictionary.{Extends};
ghost use Rattle.tc_store.specs.Counted.{Counts};
ghost use Rattle.tc_store.specs.Disk.{IsThere};
ghost use Rattle.tc_store.specs.DiskFile.{IsSettled, settled_file};
ghost use Rattle.tc_store.specs.Gate.{IsShutOr, IsShutOrWhole};
ghost use Rattle.tc_store.specs.Images.{Image};
ghost use Rattle.tc_store.specs.Moments.{IfTold, LeavesAt, LeavesOnly};
ghost use Rattle.tc_store.specs.StoreCalls.{FailsMaking, comes_home, content_now, fresh_file_at, frozen_entry, makes};
ghost use Rattle.tc_component.specs.Loaded.{IsLoadedOf};
ghost use Rattle.tc_component.specs.Rows.{component_bytes, head_of, part_of, IsComponent, IsShortWrite};
ghost use Rattle.tc_component.specs.Spelling.{name_of};
ghost use Rattle.tc_lsm_model.specs.Contents.{Content};
ghost use Rattle.tc_lsm_model.specs.Lists.{live};
ghost use Rattle.tc_lsm_model.specs.Merges.{IsMerge};
ghost use Rattle.tc_list.specs.Intervals.{first_of, last_of};
ghost use Rattle.tc_list.specs.Runs.{in_run};
ghost use Rattle.tc_merge.specs.Faults.{IsHarmIn, IsWatched, IfHarmed as IfMergeHarmed};
ghost use Rattle.tc_merge.specs.Merging.{AreTold, IsRun, merge_bytes, newest_names};
ghost use Rattle.tc_jobs.specs.Faults.{IfDamaged, of_merge};
ghost use Rattle.tc_jobs.specs.Listing.{FitsFor, IsListed, IsReadBack, IsUnlisted, in_place};
ghost use Rattle.tc_jobs.specs.Lists.{FirstExtends, IsListOf};
ghost use Rattle.tc_open.specs.FlushedLogs.{EndsHome, IsFlushGivenUp};
ghost use Rattle.tc_open.specs.Merges.{head_over, whole_run, IsListMerged, IsMergeDamage, IsMergeListed};
ghost use Rattle.tc_open.specs.BeingOpened.{IsKeptWriting, IsOpening};

use std::alloc::Global;
use std::sync::Arc;
use tc_component::{Component, Head, components_are_contents};
use tc_jobs::{JobFault, list_merge, merge_inputs, merged_head};
use tc_list::{ComponentList, Run};
use tc_merge::{MergeFault, MergeJob, MergeOut, MergeParts};
use tc_store::Store;

/// What is left of a merge of all components: the watch, and those that the new one took the place of, or why there is none.
#[derive(Drop)]
pub(crate) struct ListMerged<S: Store> {
    pub(crate) watch: S::Watch,
    pub(crate) outcome: Result<Vec<Arc<Component<S::Frozen>>>, JobFault>,
}

/// Merges all components, of which there are two or more, into one, which is listed in their place. Their files stay in the
/// store: they are needless then. `Damaged` has the bytes in whose place a record has to stand, or what of the component breaks
/// the rules when it is read back. After an `Err` the list is as it was. `Disk` comes only where the store, a device or a read
/// failed.
pub(crate) fn merge_listed<S: Store>(
    alloc: Global,
    store: &mut S,
    list: &mut ComponentList<S::Frozen>,
    number: u32,
    count: u32,
    watch: S::Watch,
) -> ListMerged<S>
    requires several { 1 < length list.old }
    requires of { IsListOf number count list.old }
    requires told { IfTold (S.history store.old) (λ disk. AreTold (λ file. S.Frozen.content file) list.old) }
    requires free { IfTold (S.history store.old) (λ disk. IsThere (disk (name_of (head_over number count list.old))) → ⊥) }

    // On Ok the component holds what all of them hold together, and the partition is opened with it alone.
    ensures merged { (cs : List Content) → IsOpening (record { number = number; count = count }) cs [] (S.history store.old) → AllZip (IsLoadedOf (λ file. S.Frozen.content file)) list.old cs
        → IfOk result.outcome (λ left. IsListMerged (λ file. S.Frozen.content file) (head_over number count list.old) cs list.new (S.history store.new)) }

    // At each moment of the call a stop leaves what was stored, and so it does behind it, where no file is out.
    ensures keeps { (cs : List Content) (c : Content) → IsOpening (record { number = number; count = count }) cs [] (S.history store.old) → AllZip (IsLoadedOf (λ file. S.Frozen.content file)) list.old cs → IsMerge cs c
        → IsKeptWriting (record { number = number; count = count }) (live cs) (IsComponent c) (S.history store.old) (S.history store.new) }

    // So it is over every store.
    ensures listed { IfOk result.outcome (λ left. IsMergeListed (λ file. S.Frozen.content file) (λ file. S.Frozen.name file) (head_over number count list.old) list.old list.new (S.history store.old) (S.history store.new)) }
    ensures partition { OnOk result.outcome (IsListOf number count list.new) }
    ensures replaced { IfOk result.outcome (λ left. map arc_value left.items ≡ list.old) }
    ensures left { OnErr result.outcome ((list.new ≡ list.old) × IsFlushGivenUp (head_over number count list.old) (S.history store.old) (S.history store.new)) }

    // Where the files are told and lawful, nothing is damaged.
    ensures damaged { IfDamaged result.outcome (IsMergeDamage (λ file. S.Frozen.content file) (λ file. S.Frozen.name file) (head_over number count list.old) list.old) }
    ensures undamaged { (cs : List Content) → IsOpening (record { number = number; count = count }) cs [] (S.history store.old) → AllZip (IsLoadedOf (λ file. S.Frozen.content file)) list.old cs
        → IfTold (S.history store.old) (λ disk. IfDamaged result.outcome (λ damage. ⊥)) }

    ensures watched { IsWatched (IsErrOf result.outcome JobFault.Disk) (S.Watch.counts watch) (S.Watch.counts result.watch) }
{
    components_are_contents();
    let run = Run {
        first: 0,
        last: list.len() - 1,
    };
    let head = merged_head(list, run, number, count);
    let mut watch = watch;
    match begin_merge(alloc, store, list, run, head, &mut watch) {
        Ok(begun) => end_merge(
            alloc,
            store,
            list,
            run,
            head,
            run_merge(alloc, begun, head, watch),
        ),
        Err(fault) => ListMerged {
            watch,
            outcome: Err(fault),
        },
    }
}

/// What a merge begins with beside its header and its watch: shares of the components, and a fresh device.
#[derive(Drop)]
struct Begun<S: Store> {
    components: Vec<Arc<Component<S::Frozen>>>,
    device: S::Device,
}

/// Takes shares of the components, and makes the device of the one that they become.
fn begin_merge<S: Store>(
    alloc: Global,
    store: &mut S,
    list: &ComponentList<S::Frozen>,
    run: Run,
    head: Head,
    watch: &mut S::Watch,
) -> Result<Begun<S>, JobFault>
    requires order { run.first < run.last }
    requires within { run.last < length list.now }
    requires free { IfTold (S.history store.old) (λ disk. IsThere (disk (name_of head)) → ⊥) }
    ensures components { IfOk result (λ begun. map arc_value begun.components.items ≡ in_run run list.now) }
    ensures empty { IfOk result (λ begun. S.Device.size begun.device ≡ 0) }
    ensures name { IfOk result (λ begun. S.Device.name begun.device ≡ name_of head) }
    ensures file { IfOk result (λ begun. S.Device.history begun.device ≡ fresh_file_at (name_of head) (S.history store.old)) }
    ensures made { OnOk result (S.history store.new ≡ makes (name_of head) (S.history store.old)) }
    ensures failed { OnErr result (FailsMaking (name_of head) (S.history store.old) (S.history store.new)) }
    ensures undamaged { IfDamaged result (λ damage. ⊥) }
    ensures watched { IsWatched (IsErrOf result JobFault.Disk) (S.Watch.counts watch.old) (S.Watch.counts watch.new) }
{
    let components = merge_inputs(alloc, list, run)?;
    let device = store.fresh(alloc, head.file_name(), watch)?;
    Ok(Begun { components, device })
}

/// Writes the component.
fn run_merge<S: Store>(alloc: Global, begun: Begun<S>, head: Head, watch: S::Watch) -> MergeOut<S>
    requires run { IsRun head (map arc_value begun.components.items) }
    requires empty { S.Device.size begun.device ≡ 0 }
    ensures whole { IsOk result.outcome → AreTold (λ file. S.Frozen.content file) (map arc_value begun.components.items)
        → IfTold (S.Device.history result.device) (λ f. f ≡ settled_file (merge_bytes (λ file. S.Frozen.content file) head (map arc_value begun.components.items))) }
    ensures merged { (cs : List Content) → AllZip (IsLoadedOf (λ file. S.Frozen.content file)) (map arc_value begun.components.items) cs
        → (c : Content) × IsMerge cs c × All IsShortWrite c.entries × (component_bytes c ≡ merge_bytes (λ file. S.Frozen.content file) head (map arc_value begun.components.items)) }
    ensures moments { (before : Image) → AreTold (λ file. S.Frozen.content file) (map arc_value begun.components.items) → IfTold (S.Device.history begun.device) (LeavesAt (IsShutOr before))
        → LeavesOnly (IsShutOrWhole before (merge_bytes (λ file. S.Frozen.content file) head (map arc_value begun.components.items))) (S.Device.history begun.device) (S.Device.history result.device) }
    ensures untold { S.Device.history begun.device ≡ [] → S.Device.history result.device ≡ [] }
    ensures damaged { IfErr result.outcome (λ fault. IfMergeHarmed fault (λ file place bytes. IsHarmIn (λ f. S.Frozen.content f) (map arc_value begun.components.items) file place bytes)) }
    ensures size { IsOk result.outcome → S.Device.size result.device < 2 ^ 63 }
    ensures name { S.Device.name result.device ≡ S.Device.name begun.device }
    ensures watched { IsWatched (IsErrOf result.outcome MergeFault.Disk) (S.Watch.counts watch) (S.Watch.counts result.watch) }
{
    let Begun { components, device } = begun;
    MergeJob::new(MergeParts {
        run: components,
        device,
        head,
        watch,
    })
    .run(alloc)
}

/// Lists what a merge made, where it is whole.
fn end_merge<S: Store>(
    alloc: Global,
    store: &mut S,
    list: &mut ComponentList<S::Frozen>,
    run: Run,
    head: Head,
    out: MergeOut<S>,
) -> ListMerged<S>
    requires settled { IsOk out.outcome → IfTold (S.Device.history out.device) IsSettled }
    requires order { run.first < run.last }
    requires within { run.last < length list.old }
    requires begins { head.from ≡ first_of (in_run run list.old) }
    requires ends { head.to ≡ last_of (in_run run list.old) }
    ensures listed { OnOk result.outcome (IsListed (IsReadBack (λ file. S.Frozen.content file) (λ file. S.Frozen.name file) head (S.Device.name out.device) (S.Device.history out.device)) (FitsFor run list.old) (in_place run list.old) list.new) }
    ensures partition { OnOk result.outcome (IsListOf head.number head.count list.old → IsListOf head.number head.count list.new) }
    ensures replaced { IfOk result.outcome (λ left. map arc_value left.items ≡ in_run run list.old) }
    ensures still { OnOk result.outcome (S.history store.new ≡ comes_home (S.Device.name out.device) frozen_entry (S.Device.history out.device) (S.history store.old)) }
    ensures whole { OnOk result.outcome (IsOk out.outcome) }
    ensures unlisted { OnErr result.outcome (list.new ≡ list.old) }
    ensures home { OnErr result.outcome (EndsHome (IsOk out.outcome) (S.Device.name out.device) (S.Device.history out.device) (S.history store.old) (S.history store.new)) }
    ensures damaged { IsOk out.outcome → IfDamaged result.outcome (IsUnlisted (IsReadBack (λ file. S.Frozen.content file) (λ file. S.Frozen.name file) head (S.Device.name out.device) (S.Device.history out.device)) (FitsFor run list.old) head (S.Device.size out.device) (S.Device.history out.device)) }
    ensures sound { IsOk out.outcome → IfSome (content_now (S.Device.history out.device)) (λ bytes. (c : Content) → IsComponent c bytes → head_of c ≡ head → Extends c.names (newest_names [] (take run.first list.old)) × FirstExtends c.names (drop (run.last + 1) list.old) → IfDamaged result.outcome (λ damage. ⊥)) }
    ensures unmade { IfErr out.outcome (λ cause. IfErr result.outcome (λ fault. fault ≡ of_merge cause)) }
    ensures watched { (old : Counts) → IsWatched (IsErrOf out.outcome MergeFault.Disk) old (S.Watch.counts out.watch) → IsWatched (IsErrOf result.outcome JobFault.Disk) old (S.Watch.counts result.watch) }
{
    let MergeOut {
        watch,
        device,
        outcome,
    } = out;
    let mut watch = watch;
    if let Err(cause) = outcome {
        store.abandon(device);
        return ListMerged {
            watch,
            outcome: Err(cause.into()),
        };
    }
    let outcome = list_merge(alloc, store, list, device, run, head, &mut watch);
    ListMerged { watch, outcome }
}
