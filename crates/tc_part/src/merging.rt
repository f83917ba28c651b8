//! Neighbouring components are merged by a job.

ghost use Rattle.std.specs.Arc.{arc_value};
ghost use Rattle.std.specs.Prelude.{◌≡◌, ◌<◌, [], Some, None, false, true, is_some, map, IfErr, IfOk, IsErrOf, OnOk, OnErr};
ghost use Rattle.tc_store.specs.Counted.{IsCounted};
ghost use Rattle.tc_store.specs.Disk.{IsThere};
ghost use Rattle.tc_store.specs.Moments.{IfTold};
ghost use Rattle.tc_store.specs.StoreCalls.{FailsMaking, fresh_file_at, makes};
ghost use Rattle.tc_component.specs.Spelling.{name_of};
ghost use Rattle.tc_list.specs.Runs.{in_run, neighbours};
ghost use Rattle.tc_lsm_model.specs.Contents.{Content};
ghost use Rattle.tc_lsm_model.specs.Merges.{IsMerge, in_run as contents_in_run};
ghost use Rattle.tc_merge.specs.Merging.{IsRun};
ghost use Rattle.tc_part_model.specs.Changes.{merging_part};
ghost use Rattle.tc_part_model.specs.Leaving.{StoreMomentsLeaveStore};
ghost use Rattle.tc_part_model.specs.Meaning.{IsPart, HasFailedAs};
ghost use Rattle.tc_part.specs.Begun.{BeginsMerge};
ghost use Rattle.tc_part.specs.OwnFiles.{HasOwnFiles};
ghost use Rattle.tc_part.specs.FilesOut.{OnlyDevicesOut};
ghost use Rattle.tc_part_model.specs.PartState.{told};
ghost use Rattle.tc_part_model.specs.PartView.{PartView};
ghost use Rattle.tc_part.specs.Faults.{IsUndamaged};
ghost use Rattle.tc_part.specs.JobHeads.{merged_head as head_over};
ghost use Rattle.tc_part.specs.Ready.{LiesIn};

use crate::fault::PartFault;
use crate::part::Part;
use std::alloc::Global;
use std::sync::Arc;
use tc_component::{Component, Head};
use tc_jobs::{merge_inputs, merged_head};
use tc_list::Run;
use tc_merge::{MergeJob, MergeParts};
use tc_part_model::{merges_begin, moments_follow, runs_can_merge, told_components_are_loaded};
use tc_store::Store;

impl<S: Store> Part<S> {
    /// The job that merges a run, of two components or more. It has the merger's watch until what is left of it is handed to
    /// `finish_merge`. Makes no read.
    pub fn begin_merge(&mut self, alloc: Global, run: Run) -> Result<MergeJob<S>, PartFault>
        requires sound { self.old.failed ≡ false }
        requires none_out { self.old.merging ≡ None }
        requires run { LiesIn self.old.list run }
        requires own { HasOwnFiles (told S.history S.Device.history S.Frozen.content self.old) }

        // On Ok the part is the one whose merge is out, which stores what it stored, and the job is that merge.
        ensures begins { IfOk result (λ job. BeginsMerge S.history S.Device.history S.Frozen.content S.Device.name run job self.old self.new) }

        // A store that tells nothing goes on so, behind a fault too.
        ensures untold { S.history self.old.store ≡ [] → S.history self.new.store ≡ [] }

        // No file is out but those of its devices, behind a fault too.
        ensures devices { OnlyDevicesOut (told S.history S.Device.history S.Frozen.content self.old) → OnlyDevicesOut (told S.history S.Device.history S.Frozen.content self.new) }

        // At each moment of the call a stop leaves what is stored, and so it does behind a fault.
        ensures moments { (p : PartView) (c : Content) → IsPart (told S.history S.Device.history S.Frozen.content self.old) p → IsMerge (contents_in_run (neighbours run) p.list) c
            → StoreMomentsLeaveStore p (merging_part (neighbours run) c p) (told S.history S.Device.history S.Frozen.content self.old) (S.history self.new.store) }
        ensures failed { OnErr result ((p : PartView) → IsPart (told S.history S.Device.history S.Frozen.content self.old) p
            → HasFailedAs (told S.history S.Device.history S.Frozen.content self.new) p None) }
        ensures left { OnErr result (self.new ≡ record self.old { store = self.new.store; main = self.new.main; failed = true }) }

        ensures undamaged { IfErr result (λ fault. IsUndamaged fault) }
        ensures unspent { IsErrOf result PartFault.Spent → ⊥ }
        ensures counted { IsCounted (IsErrOf result PartFault.Disk) (S.Watch.counts self.old.main) (S.Watch.counts self.new.main) }
    {
        merges_begin();
        moments_follow();
        runs_can_merge::<S::Frozen>();
        told_components_are_loaded::<S::Frozen>();
        match self.merge_job(alloc, run) {
            Ok(job) => Ok(job),
            Err(fault) => {
                self.failed = true;
                Err(fault)
            }
        }
    }

    /// The job that merges a run, whose device has a free name.
    fn merge_job(&mut self, alloc: Global, run: Run) -> Result<MergeJob<S>, PartFault>
        requires none_out { self.old.merging ≡ None }
        requires run { LiesIn self.old.list run }
        requires free { IfTold (S.history self.old.store) (λ disk. IsThere (disk (name_of (head_over self.old.number self.old.count run self.old.list))) → ⊥) }
        ensures same { OnOk result (self.new ≡ record self.old { store = self.new.store; main = self.new.main; merger = None; merging = Some (neighbours run) }) }
        ensures components { IfOk result (λ job. job.run ≡ in_run run self.old.list) }
        ensures head { IfOk result (λ job. job.head ≡ head_over self.old.number self.old.count run self.old.list) }
        ensures watch { IfOk result (λ job. Some job.watch ≡ self.old.merger) }
        ensures name { IfOk result (λ job. S.Device.name job.device ≡ name_of (head_over self.old.number self.old.count run self.old.list)) }
        ensures file { IfOk result (λ job. S.Device.history job.device ≡ fresh_file_at (name_of (head_over self.old.number self.old.count run self.old.list)) (S.history self.old.store)) }
        ensures made { OnOk result (S.history self.new.store ≡ makes (name_of (head_over self.old.number self.old.count run self.old.list)) (S.history self.old.store)) }
        ensures unmade { OnErr result (FailsMaking (name_of (head_over self.old.number self.old.count run self.old.list)) (S.history self.old.store) (S.history self.new.store)) }
        ensures left { OnErr result (self.new ≡ record self.old { store = self.new.store; main = self.new.main }) }
        ensures undamaged { IfErr result (λ fault. IsUndamaged fault) }
        ensures unspent { IsErrOf result PartFault.Spent → ⊥ }
        ensures counted { IsCounted (IsErrOf result PartFault.Disk) (S.Watch.counts self.old.main) (S.Watch.counts self.new.main) }
    {
        let head = merged_head(&self.list, run, self.number, self.count);
        let components = merge_inputs(alloc, &self.list, run)?;
        let device = self.store.fresh(alloc, head.file_name(), &mut self.main)?;
        Ok(self.merge_with(run, components, device, head))
    }

    /// The job of these parts, with the merger's watch. It is out from then on.
    fn merge_with(
        &mut self,
        run: Run,
        components: Vec<Arc<Component<S::Frozen>>>,
        device: S::Device,
        head: Head,
    ) -> MergeJob<S>
        requires there { is_some self.old.merger ≡ true }
        requires run { LiesIn self.old.list run }
        requires can { IsRun head (map arc_value components.items) }
        requires empty { S.Device.size device ≡ 0 }
        ensures job { result ≡ record { run = map arc_value components.items; device = device; head = head; watch = result.watch } }
        ensures watch { Some result.watch ≡ self.old.merger }
        ensures same { self.new ≡ record self.old { merger = None; merging = Some (neighbours run) } }
    {
        match self.merger.take() {
            Some(watch) => {
                self.merging = Some(run);
                MergeJob::new(MergeParts {
                    run: components,
                    device,
                    head,
                    watch,
                })
            }
            None => unreachable!(),
        }
    }
}
