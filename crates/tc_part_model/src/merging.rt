//! Laws of a merge: it begins, and what it made is listed in place of its run.

ghost use Rattle.std.specs.Prelude.{◌≡◌, ◌≤◌, ◌+◌, true, List, length, Some, None};
ghost use Rattle.std.specs.List.{AllZip};
ghost use Rattle.tc_store.specs.Disk.{Disk};
ghost use Rattle.tc_store.specs.DiskFile.{DiskFile};
ghost use Rattle.tc_store.specs.StoreCalls.{FailsMaking, comes_home, frozen_entry, makes};
ghost use Rattle.tc_lsm_model.specs.Contents.{Content};
ghost use Rattle.tc_lsm_model.specs.Merges.{IsMerge, Run, in_run};
ghost use Rattle.tc_machine.specs.Components.{file_of};
ghost use Rattle.tc_machine.specs.State.{Merging};
ghost use Rattle.tc_part_model.specs.Calls.{HasMade};
ghost use Rattle.tc_part_model.specs.Changes.{merged_part, merging_part};
ghost use Rattle.tc_part_model.specs.Leaving.{StoreMomentsLeaveStore};
ghost use Rattle.tc_part_model.specs.Meaning.{IsPart, IsOfContent, HasFailed, HasFailedAs};
ghost use Rattle.tc_part_model.specs.PartState.{Told, AreTold};
ghost use Rattle.tc_part_model.specs.PartView.{PartView, store_of};

/// A law, and no work. Where no merge is out, the part is the one whose merge is out once the file of the component is out
/// that a run of two or more makes. At each moment, and where the file was not made, a stop leaves what was stored.
pub fn merges_begin()
    ensures begun { (t u : Told) (p : PartView) (run : Run) (c : Content) → IsPart t p → 2 ≤ run.length → run.first + run.length ≤ length p.list → IsMerge (in_run run p.list) c → t.merging ≡ None
        → u ≡ record t { disks = makes (file_of c) t.disks; merging = Some run } → IsPart u (merging_part run c p) }
    ensures moments { (t : Told) (p : PartView) (run : Run) (c : Content) → IsPart t p → 2 ≤ run.length → run.first + run.length ≤ length p.list → IsMerge (in_run run p.list) c → t.merging ≡ None
        → StoreMomentsLeaveStore (merging_part run c p) (merging_part run c p) t (makes (file_of c) t.disks) }
    ensures not_made { (t u : Told) (p : PartView) (run : Run) (c : Content) → IsPart t p → 2 ≤ run.length → run.first + run.length ≤ length p.list → IsMerge (in_run run p.list) c → t.merging ≡ None
        → u.failed ≡ true → u.log ≡ t.log → u.sealed_log ≡ t.sealed_log → FailsMaking (file_of c) t.disks u.disks → HasFailed u p.part (store_of p) None }
    ensures not_made_as { (t u : Told) (p : PartView) (run : Run) (c : Content) → IsPart t p → 2 ≤ run.length → run.first + run.length ≤ length p.list → IsMerge (in_run run p.list) c → t.merging ≡ None
        → u.failed ≡ true → u.log ≡ t.log → u.sealed_log ≡ t.sealed_log → FailsMaking (file_of c) t.disks u.disks → HasFailedAs u p None }
    ensures not_made_moments { (t : Told) (p : PartView) (run : Run) (c : Content) (disks : List Disk) → IsPart t p → 2 ≤ run.length → run.first + run.length ≤ length p.list → IsMerge (in_run run p.list) c → t.merging ≡ None
        → FailsMaking (file_of c) t.disks disks → StoreMomentsLeaveStore p p t disks }
    ensures stored { (p : PartView) (run : Run) (c : Content) → store_of (merging_part run c p) ≡ store_of p }
{}

/// A law, and no work. Once the component of the merge is still and listed in place of its run, the part is the one whose merge
/// is listed, and stores what it stored. At each moment a stop leaves that.
pub fn merges_are_listed()
    ensures listed { (t u : Told) (p : PartView) (m : Merging) (device : List DiskFile) → IsPart t p → p.merge ≡ Some m → HasMade m.target t.disks device → AreTold t.components → AllZip IsOfContent u.components (merged_part p).list
        → u ≡ record t { disks = comes_home (file_of m.target) frozen_entry device t.disks; components = u.components; merging = None } → IsPart u (merged_part p) }
    ensures stored { (t : Told) (p : PartView) (m : Merging) → IsPart t p → p.merge ≡ Some m → store_of (merged_part p) ≡ store_of p }
    ensures moments { (t : Told) (p : PartView) (m : Merging) (device : List DiskFile) → IsPart t p → p.merge ≡ Some m → HasMade m.target t.disks device → StoreMomentsLeaveStore p (merged_part p) t (comes_home (file_of m.target) frozen_entry device t.disks) }
{}

/// A law, and no work. Where the component is still and was not listed, the files keep what was stored.
pub fn failed_merges_are_kept()
    ensures { (t u : Told) (p : PartView) (m : Merging) (device : List DiskFile) → IsPart t p → p.merge ≡ Some m → HasMade m.target t.disks device → u.failed ≡ true → u.log ≡ t.log → u.sealed_log ≡ t.sealed_log
        → u.disks ≡ comes_home (file_of m.target) frozen_entry device t.disks → HasFailedAs u p None }
{}
