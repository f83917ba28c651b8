//! Laws of a flush: it begins, and what it made is listed.

ghost use Rattle.std.specs.Prelude.{◌≡◌, ◌-◌, ◌++◌, ◌∷◌, true, false, List, [], Some, None};
ghost use Rattle.tc_store.specs.declared.file_name.FileName.TheVariants.{Component, Log};
ghost use Rattle.tc_store.specs.Disk.{Disk, home};
ghost use Rattle.tc_store.specs.DiskFile.{DiskFile, IsSettled};
ghost use Rattle.tc_store.specs.Moments.{IfTold};
ghost use Rattle.tc_store.specs.StoreCalls.{FailsMaking, comes_home, frozen_entry, makes, removes};
ghost use Rattle.tc_memory.specs.Table.{Table};
ghost use Rattle.tc_lsm_model.specs.Contents.{Content};
ghost use Rattle.tc_part_model.specs.Calls.{HasMade, MakesFlush};
ghost use Rattle.tc_part_model.specs.Changes.{flushed_part, flushing_part};
ghost use Rattle.tc_part_model.specs.Leaving.{StoreMomentsLeaveStore};
ghost use Rattle.tc_part_model.specs.Meaning.{IsPart, IsOfContent, HasFailed, HasFailedAs};
ghost use Rattle.tc_part_model.specs.PartState.{Told, ToldComponent};
ghost use Rattle.tc_part_model.specs.PartView.{PartView, store_of};

/// A law, and no work. Where a table is sealed and no flush is out, the part is the one whose flush is out once the file of its
/// component is out. At each moment, and where the file was not made, a stop leaves what was stored.
pub fn flushes_begin()
    ensures begun { (t u : Told) (p : PartView) (table : Table) → IsPart t p → t.sealed ≡ Some table → t.flushing ≡ false
        → u ≡ record t { disks = makes (Component (t.generation - 1) (t.generation - 1)) t.disks; flushing = true } → IsPart u (flushing_part p) }
    ensures moments { (t : Told) (p : PartView) (table : Table) → IsPart t p → t.sealed ≡ Some table → t.flushing ≡ false
        → StoreMomentsLeaveStore (flushing_part p) (flushing_part p) t (makes (Component (t.generation - 1) (t.generation - 1)) t.disks) }
    ensures not_made { (t u : Told) (p : PartView) (table : Table) → IsPart t p → t.sealed ≡ Some table → t.flushing ≡ false → u.failed ≡ true → u.log ≡ t.log → u.sealed_log ≡ t.sealed_log
        → FailsMaking (Component (t.generation - 1) (t.generation - 1)) t.disks u.disks → HasFailed u p.part (store_of p) None }
    ensures not_made_as { (t u : Told) (p : PartView) (table : Table) → IsPart t p → t.sealed ≡ Some table → t.flushing ≡ false → u.failed ≡ true → u.log ≡ t.log → u.sealed_log ≡ t.sealed_log
        → FailsMaking (Component (t.generation - 1) (t.generation - 1)) t.disks u.disks → HasFailedAs u p None }
    ensures not_made_moments { (t : Told) (p : PartView) (table : Table) (disks : List Disk) → IsPart t p → t.sealed ≡ Some table → t.flushing ≡ false
        → FailsMaking (Component (t.generation - 1) (t.generation - 1)) t.disks disks → StoreMomentsLeaveStore p p t disks }
    ensures stored { (p : PartView) → store_of (flushing_part p) ≡ store_of p }
{}

/// A law, and no work. Once the component of the flush is still and listed, and the log that it covers is gone, the part is the
/// one whose flush is listed, and stores what it stored. At each moment a stop leaves that.
pub fn flushes_are_listed()
    ensures listed { (t u : Told) (p : PartView) (c : Content) (component : ToldComponent) (device covered : List DiskFile) → IsPart t p → t.flushing ≡ true → t.sealed_log ≡ Some covered → MakesFlush p c → IsOfContent component c → HasMade c t.disks device
        → IfTold covered IsSettled
        → u ≡ record t { disks = removes (Log (t.generation - 1)) (comes_home (Log (t.generation - 1)) frozen_entry covered (comes_home (Component (t.generation - 1) (t.generation - 1)) frozen_entry device t.disks)); sealed = None; sealed_log = None; components = t.components ++ component ∷ []; flushing = false }
        → IsPart u (flushed_part c p) }
    ensures stored { (t : Told) (p : PartView) (c : Content) (covered : List DiskFile) → IsPart t p → t.flushing ≡ true → t.sealed_log ≡ Some covered → MakesFlush p c → store_of (flushed_part c p) ≡ store_of p }
    ensures moments { (t : Told) (p : PartView) (c : Content) (device covered : List DiskFile) → IsPart t p → t.flushing ≡ true → t.sealed_log ≡ Some covered → MakesFlush p c → HasMade c t.disks device → IfTold covered IsSettled
        → StoreMomentsLeaveStore p (flushed_part c p) t (removes (Log (t.generation - 1)) (comes_home (Log (t.generation - 1)) frozen_entry covered (comes_home (Component (t.generation - 1) (t.generation - 1)) frozen_entry device t.disks))) }
{}

/// A law, and no work. Where the component is still and was not listed, or was listed and the log that it covers came home, the
/// files keep what was stored.
pub fn failed_flushes_are_kept()
    ensures not_listed { (t u : Told) (p : PartView) (c : Content) (device covered : List DiskFile) → IsPart t p → t.flushing ≡ true → t.sealed_log ≡ Some covered → MakesFlush p c → HasMade c t.disks device → u.failed ≡ true → u.log ≡ t.log
        → u.sealed_log ≡ t.sealed_log → u.disks ≡ comes_home (Component (t.generation - 1) (t.generation - 1)) frozen_entry device t.disks → HasFailedAs u p None }
    ensures log_home { (t u : Told) (p : PartView) (c : Content) (device covered : List DiskFile) → IsPart t p → t.flushing ≡ true → t.sealed_log ≡ Some covered → MakesFlush p c → HasMade c t.disks device → u.failed ≡ true → u.log ≡ t.log
        → u.sealed_log ≡ None → u.disks ≡ comes_home (Log (t.generation - 1)) (λ f. home f) covered (comes_home (Component (t.generation - 1) (t.generation - 1)) frozen_entry device t.disks) → HasFailedAs u (flushed_part c p) None }
{}

/// A law, and no work. So it is at each moment: a stop leaves what was stored.
pub fn failed_flushes_leave_store()
    ensures not_listed { (t : Told) (p : PartView) (c : Content) (device covered : List DiskFile) → IsPart t p → t.flushing ≡ true → t.sealed_log ≡ Some covered → MakesFlush p c → HasMade c t.disks device
        → StoreMomentsLeaveStore p p t (comes_home (Component (t.generation - 1) (t.generation - 1)) frozen_entry device t.disks) }
    ensures log_home { (t : Told) (p : PartView) (c : Content) (device covered : List DiskFile) → IsPart t p → t.flushing ≡ true → t.sealed_log ≡ Some covered → MakesFlush p c → HasMade c t.disks device
        → StoreMomentsLeaveStore p (flushed_part c p) t (comes_home (Log (t.generation - 1)) (λ f. home f) covered (comes_home (Component (t.generation - 1) (t.generation - 1)) frozen_entry device t.disks)) }
{}
