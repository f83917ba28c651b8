//! What a flush made is listed.

ghost use Rattle.std.specs.Prelude.{◌≡◌, ◌⊎◌, [], Some, Ok, Err, None, false, true, is_some, IfErr, IfOk, IfSome, IsErrOf, OnOk, OnErr};
ghost use Rattle.std.specs.Result.{IsOk};
ghost use Rattle.tc_store.specs.Disk.{home as at_home};
ghost use Rattle.tc_store.specs.DiskFile.{IsSettled};
ghost use Rattle.tc_store.specs.Moments.{IfTold};
ghost use Rattle.tc_store.specs.StoreCalls.{comes_home, content_now, frozen_entry};
ghost use Rattle.tc_model.specs.Dictionary.{Extends};
ghost use Rattle.tc_component.specs.Rows.{IsComponent, head_of};
ghost use Rattle.tc_merge.specs.Merging.{newest_names};
ghost use Rattle.tc_part.specs.JobHeads.{flushed_head};
ghost use Rattle.tc_lsm_model.specs.Contents.{Content};
ghost use Rattle.tc_merge.specs.Faults.{IsWatched};
ghost use Rattle.tc_jobs.specs.Faults.{IfDamaged as IfJobDamaged};
ghost use Rattle.tc_jobs.specs.ReadBack.{ComesHome};
ghost use Rattle.tc_part_model.specs.Changes.{flushed_part};
ghost use Rattle.tc_part_model.specs.Leaving.{StoreMomentsLeaveStore};
ghost use Rattle.tc_part.specs.FilesOut.{LogIsOut, OnlyDevicesOut, TellsLogs};
ghost use Rattle.tc_part_model.specs.PartState.{told, IsTold};
ghost use Rattle.tc_part.specs.Faults.{of_device, IfDamaged};
ghost use Rattle.tc_part.specs.Reads.{ReadsTwice};
ghost use Rattle.tc_part.specs.MergeEnds.{merged_name, run_out};
ghost use Rattle.tc_part.specs.FlushEnds.{flushed_name, EndsFlush, FailsFlush, FailsUnmade, GivesFlushBack, HasListed, HasUncovered, IsFlushCovering, IsFlushDamage, IsFlushUndamaged, IsFlushUnlisted, ListsFlush, OfFlushMade};

use crate::fault::PartFault;
use crate::part::Part;
use std::alloc::Global;
use tc_flush::FlushOut;
use tc_jobs::{JobFault, inputs_are_newest, list_flush, remove_file};
use tc_log::Log;
use tc_part_model::{
    failed_parts_keep_files, flushes_are_listed, sealed_tables_can_flush,
    told_components_are_loaded,
};
use tc_store::{DeviceFault, Store};

impl<S: Store> Part<S> {
    /// Takes back what is left of a flush. Where its component is whole, that is listed, and the log that it covers is removed.
    /// A partition that has failed brings the device home, and does nothing else. Makes the reads of a component that is loaded.
    pub fn finish_flush(&mut self, alloc: Global, out: FlushOut<S>) -> Result<(), PartFault>
        requires out { self.old.flushing ≡ true }
        requires name { S.Device.name out.device ≡ flushed_name self.old }
        requires settled { IsOk out.outcome → IfTold (S.Device.history out.device) IsSettled }

        // On Ok of a part that had not failed its flush is listed, whatever its files are, and the log that it covers is gone. The
        // part stores what it stored.
        ensures listed { OnOk result (self.old.failed ≡ false → ListsFlush S.history S.Device.history S.Frozen.content S.Frozen.name S.Watch.counts out.watch (S.Device.history out.device) self.old self.new) }

        // At each moment of the call a stop leaves what was stored.
        ensures moments { OfFlushMade (told S.history S.Device.history S.Frozen.content self.old) (S.Device.history out.device) (λ p c. StoreMomentsLeaveStore p (flushed_part c p) (told S.history S.Device.history S.Frozen.content self.old) (S.history self.new.store)) }

        // The device comes home, and that of the log whose table is listed, behind a fault too: no file is out but those of the
        // devices that are left. That of the active log stays out.
        ensures devices { IfTold (S.history self.old.store) (λ disk. IsTold (S.Device.history out.device)) → TellsLogs (told S.history S.Device.history S.Frozen.content self.old) → OnlyDevicesOut (told S.history S.Device.history S.Frozen.content self.old) → OnlyDevicesOut (told S.history S.Device.history S.Frozen.content self.new) }
        ensures log_out { OnOk result (LogIsOut (told S.history S.Device.history S.Frozen.content self.old) → LogIsOut (told S.history S.Device.history S.Frozen.content self.new)) }

        // What a merge that is out makes has the name that it had.
        ensures merge_named { is_some self.old.merging ≡ true → merged_name (run_out self.new) self.new ≡ merged_name (run_out self.old) self.old }

        // Nothing is listed of a part that had failed, or where the flush failed.
        ensures given_back { self.old.failed ≡ true → GivesFlushBack S.history S.Device.history S.Frozen.content out.watch (S.Device.history out.device) result self.old self.new }
        ensures unmade { IfErr out.outcome (λ cause. FailsUnmade S.history S.Device.history S.Frozen.content out.watch (S.Device.history out.device) cause result self.old self.new) }

        // Behind a fault the watch is back, and the part failed: before the component was listed, or behind that.
        ensures left { OnErr result (EndsFlush S.history S.Device.history S.Frozen.content S.Frozen.name out.watch (S.Device.history out.device) self.old self.new) }
        ensures failed { OnErr result (FailsFlush S.history S.Device.history S.Frozen.content (S.Device.history out.device) self.old self.new) }
        ensures undamaged { IsFlushUndamaged (told S.history S.Device.history S.Frozen.content self.old) (S.Device.history out.device) result }
        ensures damaged { IfDamaged result (IsFlushDamage S.Frozen.content S.Frozen.name (S.Device.size out.device) (S.Device.history out.device) self.old) }
        ensures unspent { IsErrOf result PartFault.Spent → ⊥ }
        ensures watched { IsWatched (IsOk out.outcome × IsErrOf result PartFault.Disk) (S.Watch.counts self.old.main) (S.Watch.counts self.new.main) }
    {
        flushes_are_listed();
        failed_parts_keep_files();
        told_components_are_loaded::<S::Frozen>();
        sealed_tables_can_flush();
        inputs_are_newest::<S::Frozen>();
        let FlushOut {
            watch,
            device,
            outcome,
        } = out;
        self.flusher = Some(watch);
        if self.failed {
            self.store.abandon(device);
            return Ok(());
        }
        match self.end_flush(alloc, device, outcome) {
            Ok(()) => Ok(()),
            Err(fault) => {
                self.failed = true;
                Err(fault)
            }
        }
    }

    /// Lists what a flush made, and removes the log that it covers.
    fn end_flush(
        &mut self,
        alloc: Global,
        device: S::Device,
        outcome: Result<(), DeviceFault>,
    ) -> Result<(), PartFault>
        requires sound { self.old.failed ≡ false }
        requires sealed { is_some self.old.sealed ≡ true }
        requires back { self.old.flushing ≡ false }
        requires name { S.Device.name device ≡ flushed_name self.old }
        requires settled { IsOk outcome → IfTold (S.Device.history device) IsSettled }
        ensures listed { OnOk result (HasListed S.Frozen.content S.Frozen.name (S.Device.history device) self.old self.new.list) }
        ensures same { OnOk result (self.new ≡ record self.old { store = self.new.store; main = self.new.main; list = self.new.list; sealed = None; sealed_log = None }) }
        ensures uncovered { OnOk result (HasUncovered S.history S.Device.history (S.Device.history device) self.old (S.history self.new.store)) }
        ensures left { OnErr result (IsFlushUnlisted S.history (S.Device.history device) self.old self.new ⊎ IsFlushCovering S.Frozen.content S.Frozen.name S.history S.Device.history (S.Device.history device) self.old self.new) }
        ensures unmade { IfErr outcome (λ cause. (result ≡ Err (of_device cause)) × (self.new ≡ record self.old { store = self.new.store }) × (S.history self.new.store ≡ comes_home (flushed_name self.old) (λ f. at_home f) (S.Device.history device) (S.history self.old.store))) }
        ensures sound { IfSome (content_now (S.Device.history device)) (λ bytes. (c : Content) → IsComponent c bytes → head_of c ≡ flushed_head self.old.number self.old.count self.old.generation → Extends c.names (newest_names [] self.old.list) → IfDamaged result (λ damage. ⊥)) }
        ensures damaged { IfDamaged result (IsFlushDamage S.Frozen.content S.Frozen.name (S.Device.size device) (S.Device.history device) self.old) }
        ensures unspent { IsErrOf result PartFault.Spent → ⊥ }
        ensures reads { OnOk result (ReadsTwice (S.Watch.counts self.old.main) (S.Watch.counts self.new.main)) }
        ensures watched { IsWatched (IsOk outcome × IsErrOf result PartFault.Disk) (S.Watch.counts self.old.main) (S.Watch.counts self.new.main) }
    {
        if let Err(cause) = outcome {
            self.store.abandon(device);
            return Err(cause.into());
        }
        let log = self.push_flushed(alloc, device)?;
        remove_file(alloc, &mut self.store, log.give_back(), &mut self.main)?;
        Ok(())
    }

    /// Lists what a flush made, and takes the log that it covers out of the partition.
    fn push_flushed(&mut self, alloc: Global, device: S::Device) -> Result<Log<S::Device>, JobFault>
        requires sound { self.old.failed ≡ false }
        requires sealed { is_some self.old.sealed ≡ true }
        requires back { self.old.flushing ≡ false }
        requires name { S.Device.name device ≡ flushed_name self.old }
        requires settled { IfTold (S.Device.history device) IsSettled }
        ensures listed { OnOk result (HasListed S.Frozen.content S.Frozen.name (S.Device.history device) self.old self.new.list) }
        ensures log { IfOk result (λ log. Some log ≡ self.old.sealed_log) }
        ensures same { OnOk result (self.new ≡ record self.old { store = self.new.store; main = self.new.main; list = self.new.list; sealed = None; sealed_log = None }) }
        ensures store { OnOk result (S.history self.new.store ≡ comes_home (flushed_name self.old) frozen_entry (S.Device.history device) (S.history self.old.store)) }
        ensures left { OnErr result (self.new ≡ record self.old { store = self.new.store; main = self.new.main }) }
        ensures home { OnErr result (ComesHome (flushed_name self.old) (S.Device.history device) (S.history self.old.store) (S.history self.new.store)) }
        ensures sound { IfSome (content_now (S.Device.history device)) (λ bytes. (c : Content) → IsComponent c bytes → head_of c ≡ flushed_head self.old.number self.old.count self.old.generation → Extends c.names (newest_names [] self.old.list) → IfJobDamaged result (λ damage. ⊥)) }
        ensures damaged { IfJobDamaged result (IsFlushDamage S.Frozen.content S.Frozen.name (S.Device.size device) (S.Device.history device) self.old) }
        ensures reads { IfOk result (λ log. ReadsTwice (S.Watch.counts self.old.main) (S.Watch.counts self.new.main)) }
        ensures watched { IsWatched (IsErrOf result JobFault.Disk) (S.Watch.counts self.old.main) (S.Watch.counts self.new.main) }
    {
        let head = self.flush_head();
        list_flush(
            alloc,
            &mut self.store,
            &mut self.list,
            device,
            head,
            &mut self.main,
        )?;
        self.sealed = None;
        match self.sealed_log.take() {
            Some(log) => Ok(log),
            None => unreachable!(),
        }
    }
}
