//! The job that merges neighbouring components.

ghost use Rattle.std.specs.Arc.{arc_value};
ghost use Rattle.std.specs.Prelude.{◌≡◌, ◌<◌, ◌≤◌, ◌+◌, ◌^◌, [], List, map, All, IsErrOf, IsOk, IfErr};
ghost use Rattle.std.specs.List.{AllZip};
ghost use Rattle.tc_store.specs.DiskFile.{settled_file};
ghost use Rattle.tc_store.specs.Gate.{IsShutOr, IsShutOrWhole};
ghost use Rattle.tc_store.specs.Images.{Image};
ghost use Rattle.tc_store.specs.Moments.{IfTold, LeavesAt, LeavesOnly};
ghost use Rattle.tc_lsm_model.specs.Contents.{Content};
ghost use Rattle.tc_lsm_model.specs.Merges.{IsMerge};
ghost use Rattle.tc_component.specs.Rows.{component_bytes, IsShortWrite};
ghost use Rattle.tc_merge.specs.Faults.{IfHarmed, IsHarmIn, IsJudged, IsWatched};
ghost use Rattle.tc_component.specs.Loaded.{IsLoadedOf};
ghost use Rattle.tc_merge.specs.Merging.{AreTold, IsRun, live_rows, merged_rows, merge_bytes};

use crate::fault::MergeFault;
use crate::laws::merges_are_made;
use crate::writing::{Failed, write};
use std::alloc::Global;
use std::marker::Model;
use std::sync::Arc;
use tc_component::{Component, Head};
use tc_store::Store;

/// What a merge is made of: neighbouring components, the oldest first, an empty device, the header of the merged component,
/// and the watch that counts the calls of the device and the reads.
#[derive(Drop)]
pub struct MergeParts<S: Store> {
    pub run: Vec<Arc<Component<S::Frozen>>>,
    pub device: S::Device,
    pub head: Head,
    pub watch: S::Watch,
}

/// A merge that can be run. Contracts see its parts.
#[derive(Drop)]
pub struct MergeJob<S: Store> {
    parts: MergeParts<S>,
}

impl<S: Store> Model for MergeJob<S> {
    ghost use Rattle.std.specs.Arc.{arc_value};
    ghost use Rattle.std.specs.Coded.{codes};
    ghost use Rattle.std.specs.Prelude.{◌≡◌, map};
    ghost use Rattle.tc_schema_model.specs.CountedCode.{coded_counted};
    ghost use Rattle.tc_merge.specs.Jobs.{JobState};
    ghost use Rattle.tc_merge.specs.Merging.{IsRun};

    ghost Value = { JobState S.Frozen S.Device S.Watch };

    ghost coded = { Prim.hlevel (codes, coded_counted) };

    ghost view = { λ j. record { run = map arc_value j.parts.run.items; device = j.parts.device; head = j.parts.head; watch = j.parts.watch } };

    ghost invariant = { λ j. (S.Device.size j.parts.device ≡ 0) × IsRun j.parts.head (map arc_value j.parts.run.items) };
}

/// What is left of a merge: the watch, the device, and whether its component is whole.
#[derive(Drop)]
pub struct MergeOut<S: Store> {
    pub watch: S::Watch,
    pub device: S::Device,
    pub outcome: Result<(), MergeFault>,
}

impl<S: Store> MergeJob<S> {
    /// A merge of these parts. Takes no memory.
    pub fn new(parts: MergeParts<S>) -> MergeJob<S>
        requires run { IsRun parts.head (map arc_value parts.run.items) }
        requires empty { S.Device.size parts.device ≡ 0 }
        ensures same { result ≡ record { run = map arc_value parts.run.items; device = parts.device; head = parts.head; watch = parts.watch } }
    {
        MergeJob { parts }
    }

    /// Writes the component of the run. Only the records of entries that no newer component of the run has are read, and each
    /// is judged as `fetch` judges it. The outcome is an error only for want of memory, a fault of a read or of the device, and
    /// a damaged record.
    pub fn run(self, alloc: Global) -> MergeOut<S>
        // On Ok the file is that of the merge, and nothing is pending. Its bytes are a function of the parts and of what the
        // files of the components tell.
        ensures whole { IsOk result.outcome → AreTold (λ file. S.Frozen.content file) self.run → IfTold (S.Device.history result.device) (λ f. f ≡ settled_file (merge_bytes (λ file. S.Frozen.content file) self.head self.run)) }

        // Where the files are the components of contents, these are the bytes of the one content that merges them.
        ensures merged { (cs : List Content) → AllZip (IsLoadedOf (λ file. S.Frozen.content file)) self.run cs
            → (c : Content) × IsMerge cs c × All IsShortWrite c.entries × (component_bytes c ≡ merge_bytes (λ file. S.Frozen.content file) self.head self.run) }

        // Each record of the merge was judged as one of the component that it is of.
        ensures judged { IsOk result.outcome → AreTold (λ file. S.Frozen.content file) self.run → All (IsJudged (λ file. S.Frozen.content file) self.run) (merged_rows (λ file. S.Frozen.content file) self.head.from self.run) }

        // At each moment the file is absent, closed, the one before, or this one.
        ensures moments { (before : Image) → AreTold (λ file. S.Frozen.content file) self.run → IfTold (S.Device.history self.device) (LeavesAt (IsShutOr before))
            → LeavesOnly (IsShutOrWhole before (merge_bytes (λ file. S.Frozen.content file) self.head self.run)) (S.Device.history self.device) (S.Device.history result.device) }

        // A device that tells nothing goes on so.
        ensures untold { S.Device.history self.device ≡ [] → S.Device.history result.device ≡ [] }

        ensures damaged { IfErr result.outcome (λ fault. IfHarmed fault (λ file place bytes. IsHarmIn (λ f. S.Frozen.content f) self.run file place bytes)) }
        ensures size { IsOk result.outcome → S.Device.size result.device < 2 ^ 63 }
        ensures name { S.Device.name result.device ≡ S.Device.name self.device }
        // At most one read a record of the merge.
        ensures reads { IsOk result.outcome → (S.Watch.counts result.watch).reads ≤ (S.Watch.counts self.watch).reads + live_rows (merged_rows (λ file. S.Frozen.content file) self.head.from self.run) }
        ensures watched { IsWatched (IsErrOf result.outcome MergeFault.Disk) (S.Watch.counts self.watch) (S.Watch.counts result.watch) }
    {
        merges_are_made::<S::Frozen>();
        let MergeParts {
            run,
            device,
            head,
            watch,
        } = self.parts;
        let mut watch = watch;
        match write::<S>(alloc, run.as_slice(), device, head, &mut watch) {
            Ok(device) => MergeOut {
                watch,
                device,
                outcome: Ok(()),
            },
            Err(Failed { device, cause }) => MergeOut {
                watch,
                device,
                outcome: Err(cause),
            },
        }
    }
}
