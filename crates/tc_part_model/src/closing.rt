//! Laws of a part that is closed.

ghost use Rattle.std.specs.Prelude.{◌≡◌, ◌-◌, ◌+◌, ◌<◌, ℕ, false, List, length, Option, Some, None, IsSome};
ghost use Rattle.tc_store.specs.declared.file_name.FileName.TheVariants.{Log};
ghost use Rattle.tc_store.specs.Disk.{home};
ghost use Rattle.tc_store.specs.DiskFile.{DiskFile};
ghost use Rattle.tc_store.specs.Moments.{IfTold};
ghost use Rattle.tc_store.specs.StoreCalls.{comes_home};
ghost use Rattle.tc_plain_model.specs.Writes.{Write};
ghost use Rattle.tc_machine.specs.State.{logs, sealed_logs};
ghost use Rattle.tc_part_model.specs.Calls.{RestsWith};
ghost use Rattle.tc_part_model.specs.Leaving.{FailedMomentsLeaveStore, KeepsStore, OpensAs};
ghost use Rattle.tc_part_model.specs.Meaning.{HasFailedAs, IsPart};
ghost use Rattle.tc_part_model.specs.PartFiles.{active_name, sealed_name};
ghost use Rattle.tc_part_model.specs.PartState.{Told};
ghost use Rattle.tc_part_model.specs.PartView.{PartView, state_of, store_of};

/// A law, and no work. Once the devices of its logs are at home, whatever a stop leaves of the store of a part holds what was
/// stored, without the frame or with it. A part that runs is one that fails with no frame, as far as its files go; its logs
/// have these names.
pub fn closed_parts_keep_store()
    ensures named { (t : Told) (p : PartView) → IsPart t p → active_name p ≡ Log t.generation }
    ensures covers { (t : Told) (p : PartView) (covered : List DiskFile) → IsPart t p → t.sealed_log ≡ Some covered → IsSome p.sealed × (0 < length (sealed_logs p.sealed)) × (sealed_name p ≡ Log (t.generation - 1)) }
    ensures one { (t : Told) (p : PartView) (frame : Option (List Write)) → HasFailedAs t p frame → IfTold (comes_home (active_name p) (λ f. home f) t.log t.disks) (KeepsStore p.part (store_of p) frame) }
    ensures both { (t : Told) (p : PartView) (frame : Option (List Write)) (covered : List DiskFile) → HasFailedAs t p frame → t.sealed_log ≡ Some covered → IsSome p.sealed → 0 < length (sealed_logs p.sealed)
        → IfTold (comes_home (sealed_name p) (λ f. home f) covered (comes_home (active_name p) (λ f. home f) t.log t.disks)) (KeepsStore p.part (store_of p) frame) }
{}

/// A law, and no work. Once the devices of its logs are at home, on which nothing is pending, whatever a stop leaves of the store
/// of a part without jobs opens as its components and the logs of its tables, which have so many bytes as their devices have.
pub fn closed_parts_open_as_they_are()
    ensures one { (t : Told) (p : PartView) (bytes : ℕ) → IsPart t p → t.flushing ≡ false → t.merging ≡ None → t.sealed_log ≡ None → IfTold t.log (RestsWith bytes)
        → IfTold (comes_home (active_name p) (λ f. home f) t.log t.disks) (OpensAs p.part p.list (logs (state_of p)) bytes) }
    ensures both { (t : Told) (p : PartView) (bytes more : ℕ) (covered : List DiskFile) → IsPart t p → t.flushing ≡ false → t.merging ≡ None → t.sealed_log ≡ Some covered → IsSome p.sealed → length (sealed_logs p.sealed) ≡ 1
        → IfTold t.log (RestsWith bytes) → IfTold covered (RestsWith more)
        → IfTold (comes_home (sealed_name p) (λ f. home f) covered (comes_home (active_name p) (λ f. home f) t.log t.disks)) (OpensAs p.part p.list (logs (state_of p)) (more + bytes)) }
{}

/// A law, and no work. At each moment at which the devices of its logs come home a stop leaves what was stored, whatever its jobs
/// had done by then.
pub fn closings_leave_store()
    ensures one { (t : Told) (p : PartView) (frame : Option (List Write)) → HasFailedAs t p frame → FailedMomentsLeaveStore p frame t (comes_home (active_name p) (λ f. home f) t.log t.disks) }
    ensures both { (t : Told) (p : PartView) (frame : Option (List Write)) (covered : List DiskFile) → HasFailedAs t p frame → t.sealed_log ≡ Some covered → IsSome p.sealed → 0 < length (sealed_logs p.sealed)
        → FailedMomentsLeaveStore p frame t (comes_home (sealed_name p) (λ f. home f) covered (comes_home (active_name p) (λ f. home f) t.log t.disks)) }
{}
