//! Laws of a part that fails.

ghost use Rattle.std.specs.Prelude.{◌≡◌, true, List, Option, Some, None};
ghost use Rattle.tc_store.specs.Disk.{home};
ghost use Rattle.tc_store.specs.DiskFile.{DiskFile};
ghost use Rattle.tc_store.specs.Moments.{IfTold, LeavesAt};
ghost use Rattle.tc_store.specs.StoreCalls.{comes_home};
ghost use Rattle.tc_plain_model.specs.Writes.{Pairs, Write};
ghost use Rattle.tc_component.specs.Rows.{IsComponent};
ghost use Rattle.tc_machine.specs.Components.{file_of};
ghost use Rattle.tc_machine.specs.State.{Flushing, Merging, flush_name};
ghost use Rattle.tc_machine.specs.Steps.{IsFlushed, IsShutOrHas};
ghost use Rattle.tc_lsm_model.specs.Contents.{Content, Partition};
ghost use Rattle.tc_part_model.specs.Calls.{HasMade, MakesFlush};
ghost use Rattle.tc_part_model.specs.Leaving.{FailedMomentsLeaveStore};
ghost use Rattle.tc_part_model.specs.Meaning.{IsPart, HasFailed, HasFailedAs};
ghost use Rattle.tc_part_model.specs.PartState.{Told};
ghost use Rattle.tc_part_model.specs.PartView.{PartView, store_of};

/// A law, and no work. A part that fails while its store and its logs are as they were keeps what it stored.
pub fn failures_are_kept()
    ensures { (t u : Told) (p : PartView) → IsPart t p → u.failed ≡ true → u.disks ≡ t.disks → u.log ≡ t.log → u.sealed_log ≡ t.sealed_log → HasFailed u p.part (store_of p) None }
{}

/// A law, and no work. So it is of the part seen in documents, which then goes on to say what the files of its jobs are: the
/// device of a flush or of a merge comes home to a part that has failed, and what is stored stays.
pub fn failed_parts_keep_files()
    ensures fails { (t u : Told) (p : PartView) → IsPart t p → u.failed ≡ true → u.disks ≡ t.disks → u.log ≡ t.log → u.sealed_log ≡ t.sealed_log → HasFailedAs u p None }
    ensures stores { (t : Told) (p : PartView) (frame : Option (List Write)) → HasFailedAs t p frame → HasFailed t p.part (store_of p) frame }
    ensures view { (t : Told) (part : Partition) (pairs : Pairs) (frame : Option (List Write)) (has : HasFailed t part pairs frame) → HasFailedAs t has.view frame }
    ensures flush { (t u : Told) (p : PartView) (frame : Option (List Write)) (j : Flushing) (device : List DiskFile) → HasFailedAs t p frame → p.flush ≡ Some j → IfTold device (LeavesAt (IsShutOrHas (IsFlushed p.part p.list p.sealed)))
        → u.failed ≡ true → u.log ≡ t.log → u.sealed_log ≡ t.sealed_log → u.disks ≡ comes_home (flush_name j) (λ f. home f) device t.disks → HasFailedAs u p frame }
    ensures merge { (t u : Told) (p : PartView) (frame : Option (List Write)) (m : Merging) (device : List DiskFile) → HasFailedAs t p frame → p.merge ≡ Some m → IfTold device (LeavesAt (IsShutOrHas (IsComponent m.target)))
        → u.failed ≡ true → u.log ≡ t.log → u.sealed_log ≡ t.sealed_log → u.disks ≡ comes_home (file_of m.target) (λ f. home f) device t.disks → HasFailedAs u p frame }
{}

/// A law, and no work. At the moment at which the device of a flush or of a merge comes home to a part that has failed, a stop
/// leaves what was stored. A device with the whole component is such a device.
pub fn failed_devices_leave_store()
    ensures flush { (t : Told) (p : PartView) (frame : Option (List Write)) (j : Flushing) (device : List DiskFile) → HasFailedAs t p frame → p.flush ≡ Some j → IfTold device (LeavesAt (IsShutOrHas (IsFlushed p.part p.list p.sealed)))
        → FailedMomentsLeaveStore p frame t (comes_home (flush_name j) (λ f. home f) device t.disks) }
    ensures merge { (t : Told) (p : PartView) (frame : Option (List Write)) (m : Merging) (device : List DiskFile) → HasFailedAs t p frame → p.merge ≡ Some m → IfTold device (LeavesAt (IsShutOrHas (IsComponent m.target)))
        → FailedMomentsLeaveStore p frame t (comes_home (file_of m.target) (λ f. home f) device t.disks) }
    ensures whole_flush { (t : Told) (p : PartView) (c : Content) (device covered : List DiskFile) → IsPart t p → t.flushing ≡ true → t.sealed_log ≡ Some covered → MakesFlush p c → HasMade c t.disks device
        → IfTold device (LeavesAt (IsShutOrHas (IsFlushed p.part p.list p.sealed))) }
    ensures whole_merge { (t : Told) (m : Merging) (device : List DiskFile) → HasMade m.target t.disks device → IfTold device (LeavesAt (IsShutOrHas (IsComponent m.target))) }
{}
