//! What a merge made is listed.

ghost use Rattle.std.specs.Arc.{arc_value};
ghost use Rattle.std.specs.Prelude.{◌≡◌, ◌⊎◌, Some, Ok, Err, None, false, true, is_some, map, IfErr, IfOk, IfSome, IsErrOf, OnOk, OnErr};
ghost use Rattle.std.specs.Result.{IsOk};
ghost use Rattle.tc_store.specs.Disk.{home as at_home};
ghost use Rattle.tc_store.specs.DiskFile.{IsSettled};
ghost use Rattle.tc_store.specs.Moments.{IfTold};
ghost use Rattle.tc_store.specs.StoreCalls.{comes_home, content_now, frozen_entry};
ghost use Rattle.tc_component.specs.Rows.{IsComponent, head_of};
ghost use Rattle.tc_merge.specs.Faults.{IsWatched};
ghost use Rattle.tc_lsm_model.specs.Contents.{Content};
ghost use Rattle.tc_list.specs.Runs.{in_run};
ghost use Rattle.tc_jobs.specs.Faults.{of_merge, IfDamaged as IfJobDamaged};
ghost use Rattle.tc_jobs.specs.ReadBack.{ComesHome};
ghost use Rattle.tc_part_model.specs.Changes.{merged_part};
ghost use Rattle.tc_part_model.specs.Leaving.{StoreMomentsLeaveStore};
ghost use Rattle.tc_part.specs.FilesOut.{LogIsOut, OnlyDevicesOut};
ghost use Rattle.tc_part_model.specs.PartState.{AreTold, told, IsTold};
ghost use Rattle.tc_part.specs.Faults.{of_job, IfDamaged};
ghost use Rattle.tc_part.specs.JobHeads.{merged_head as head_over};
ghost use Rattle.tc_part.specs.Reads.{ReadsTwice};
ghost use Rattle.tc_part.specs.MergeEnds.{run_out, merged_name, AreBetween, EndsMerge, FailsMerge, FailsUnmerged, GivesMergeBack, HasRemovedRun, HasReplaced, IsMergeDamage, IsMergeRemoving, IsMergeUndamaged, IsMergeUnlisted, ListsMerge, OfMergeMade};
ghost use Rattle.tc_part.specs.Ready.{AreNamed, LiesIn};

use crate::fault::PartFault;
use crate::part::Part;
use std::alloc::Global;
use std::sync::Arc;
use tc_component::Component;
use tc_jobs::{JobFault, list_merge, merged_head};
use tc_list::Run;
use tc_merge::{MergeFault, MergeOut};
use tc_store::Store;

impl<S: Store> Part<S> {
    /// Takes back what is left of a merge. Where its component is whole, that is listed in place of its run, whose files are
    /// removed where nobody else has a share of them, and else by a later `sweep`. A partition that has failed brings the device home, and does nothing
    /// else. Makes the reads of a component that is loaded.
    pub fn finish_merge(&mut self, alloc: Global, out: MergeOut<S>) -> Result<(), PartFault>
        requires out { is_some self.old.merging ≡ true }
        requires name { S.Device.name out.device ≡ merged_name (run_out self.old) self.old }
        requires settled { IsOk out.outcome → IfTold (S.Device.history out.device) IsSettled }

        // On Ok of a part that had not failed its merge is listed, whatever its files are, and files of its run are removed, and no
        // other. The part stores what it stored.
        ensures listed { OnOk result (self.old.failed ≡ false → ListsMerge S.history S.Device.history S.Frozen.content S.Frozen.name S.Watch.counts out.watch (S.Device.history out.device) self.old self.new) }

        // At each moment of the call a stop leaves what was stored.
        ensures moments { OfMergeMade (told S.history S.Device.history S.Frozen.content self.old) (S.Device.history out.device)
            (λ p. AreTold (told S.history S.Device.history S.Frozen.content self.old).components → StoreMomentsLeaveStore p (merged_part p) (told S.history S.Device.history S.Frozen.content self.old) (S.history self.new.store)) }

        // The device comes home, behind a fault too: no file is out but those of the devices that are left. That of the active log
        // stays out.
        ensures devices { IfTold (S.history self.old.store) (λ disk. IsTold (S.Device.history out.device)) → OnlyDevicesOut (told S.history S.Device.history S.Frozen.content self.old) → OnlyDevicesOut (told S.history S.Device.history S.Frozen.content self.new) }
        ensures log_out { OnOk result (LogIsOut (told S.history S.Device.history S.Frozen.content self.old) → LogIsOut (told S.history S.Device.history S.Frozen.content self.new)) }

        // Nothing is listed of a part that had failed, or where the merge failed.
        ensures given_back { self.old.failed ≡ true → GivesMergeBack S.history S.Device.history S.Frozen.content out.watch (S.Device.history out.device) result self.old self.new }
        ensures unmade { IfErr out.outcome (λ cause. FailsUnmerged S.history S.Device.history S.Frozen.content out.watch (S.Device.history out.device) cause result self.old self.new) }

        // Behind a fault the watch is back, and the part failed: before the component was listed, or behind that.
        ensures left { OnErr result (EndsMerge S.history S.Frozen.content S.Frozen.name out.watch (S.Device.history out.device) self.old self.new) }
        ensures failed { OnErr result (FailsMerge S.history S.Device.history S.Frozen.content (S.Device.history out.device) self.old self.new) }

        // Damage is told of the file of a merge that did not fail, or of the names that it has, and there is none where it is
        // what the merge makes.
        ensures damaged { IsOk out.outcome → IfDamaged result (IsMergeDamage S.Frozen.content S.Frozen.name (S.Device.size out.device) (S.Device.history out.device) (run_out self.old) self.old) }
        ensures undamaged { IsOk out.outcome → IsMergeUndamaged (told S.history S.Device.history S.Frozen.content self.old) (S.Device.history out.device) result }
        ensures unspent { IsErrOf result PartFault.Spent → ⊥ }
        ensures watched { IsWatched (IsOk out.outcome × IsErrOf result PartFault.Disk) (S.Watch.counts self.old.main) (S.Watch.counts self.new.main) }
    {
        let MergeOut {
            watch,
            device,
            outcome,
        } = out;
        self.merger = Some(watch);
        let merging = self.merging.take();
        if self.failed {
            self.store.abandon(device);
            return Ok(());
        }
        match merging {
            Some(run) => match self.end_merge(alloc, device, run, outcome) {
                Ok(()) => Ok(()),
                Err(fault) => {
                    self.failed = true;
                    Err(fault)
                }
            },
            None => unreachable!(),
        }
    }

    /// Lists what a merge made, and removes the files of its run.
    fn end_merge(
        &mut self,
        alloc: Global,
        device: S::Device,
        run: Run,
        outcome: Result<(), MergeFault>,
    ) -> Result<(), PartFault>
        requires back { self.old.merging ≡ None }
        requires run { LiesIn self.old.list run }
        requires name { S.Device.name device ≡ merged_name run self.old }
        requires settled { IsOk outcome → IfTold (S.Device.history device) IsSettled }
        ensures listed { OnOk result (HasReplaced S.Frozen.content S.Frozen.name (S.Device.history device) run self.old self.new.list) }
        ensures same { OnOk result (self.new ≡ record self.old { store = self.new.store; main = self.new.main; list = self.new.list }) }
        ensures removed { OnOk result (HasRemovedRun S.history S.Frozen.name (S.Device.history device) run self.old (S.history self.new.store)) }
        ensures left { OnErr result (IsMergeUnlisted S.history (S.Device.history device) run self.old self.new ⊎ IsMergeRemoving S.Frozen.content S.Frozen.name S.history (S.Device.history device) run self.old self.new) }
        ensures unmade { IfErr outcome (λ cause. (result ≡ Err (of_job (of_merge cause))) × (self.new ≡ record self.old { store = self.new.store }) × (S.history self.new.store ≡ comes_home (merged_name run self.old) (λ f. at_home f) (S.Device.history device) (S.history self.old.store))) }
        ensures sound { IsOk outcome → IfSome (content_now (S.Device.history device)) (λ bytes. (c : Content) → IsComponent c bytes → head_of c ≡ head_over self.old.number self.old.count run self.old.list → AreBetween c.names run self.old.list → IfDamaged result (λ damage. ⊥)) }
        ensures damaged { IsOk outcome → IfDamaged result (IsMergeDamage S.Frozen.content S.Frozen.name (S.Device.size device) (S.Device.history device) run self.old) }
        ensures unspent { IsErrOf result PartFault.Spent → ⊥ }
        ensures reads { OnOk result (ReadsTwice (S.Watch.counts self.old.main) (S.Watch.counts self.new.main)) }
        ensures watched { IsWatched (IsOk outcome × IsErrOf result PartFault.Disk) (S.Watch.counts self.old.main) (S.Watch.counts self.new.main) }
    {
        if let Err(cause) = outcome {
            self.store.abandon(device);
            return Err(JobFault::from(cause).into());
        }
        let left = self.replace_run(alloc, device, run)?;
        self.retire(alloc, left)?;
        Ok(())
    }

    /// Lists what a merge made in place of its run, whose components are the answer.
    fn replace_run(
        &mut self,
        alloc: Global,
        device: S::Device,
        run: Run,
    ) -> Result<Vec<Arc<Component<S::Frozen>>>, JobFault>
        requires back { self.old.merging ≡ None }
        requires run { LiesIn self.old.list run }
        requires name { S.Device.name device ≡ merged_name run self.old }
        requires settled { IfTold (S.Device.history device) IsSettled }
        ensures listed { OnOk result (HasReplaced S.Frozen.content S.Frozen.name (S.Device.history device) run self.old self.new.list) }
        ensures replaced { IfOk result (λ left. map arc_value left.items ≡ in_run run self.old.list) }
        ensures named { IfOk result (λ left. AreNamed (λ f. S.Frozen.name f) (map arc_value left.items)) }
        ensures same { OnOk result (self.new ≡ record self.old { store = self.new.store; main = self.new.main; list = self.new.list }) }
        ensures store { OnOk result (S.history self.new.store ≡ comes_home (merged_name run self.old) frozen_entry (S.Device.history device) (S.history self.old.store)) }
        ensures left { OnErr result (self.new ≡ record self.old { store = self.new.store; main = self.new.main }) }
        ensures home { OnErr result (ComesHome (merged_name run self.old) (S.Device.history device) (S.history self.old.store) (S.history self.new.store)) }
        ensures sound { IfSome (content_now (S.Device.history device)) (λ bytes. (c : Content) → IsComponent c bytes → head_of c ≡ head_over self.old.number self.old.count run self.old.list → AreBetween c.names run self.old.list → IfJobDamaged result (λ damage. ⊥)) }
        ensures damaged { IfJobDamaged result (IsMergeDamage S.Frozen.content S.Frozen.name (S.Device.size device) (S.Device.history device) run self.old) }
        ensures reads { OnOk result (ReadsTwice (S.Watch.counts self.old.main) (S.Watch.counts self.new.main)) }
        ensures watched { IsWatched (IsErrOf result JobFault.Disk) (S.Watch.counts self.old.main) (S.Watch.counts self.new.main) }
    {
        let head = merged_head(&self.list, run, self.number, self.count);
        list_merge(
            alloc,
            &mut self.store,
            &mut self.list,
            device,
            run,
            head,
            &mut self.main,
        )
    }
}
