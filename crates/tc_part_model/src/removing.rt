//! Laws of the removal of files that no listed component has.

ghost use Rattle.std.specs.Prelude.{◌≡◌, ◌⊎◌, true, List, Option, Some, None, All, map};
ghost use Rattle.tc_store.specs.Disk.{Disk};
ghost use Rattle.tc_store.specs.declared.file_name.FileName.{FileName as Name};
ghost use Rattle.tc_store.specs.StoreCalls.{RemovesSome};
ghost use Rattle.tc_plain_model.specs.Writes.{Write};
ghost use Rattle.tc_lsm_model.specs.Merges.{in_run};
ghost use Rattle.tc_machine.specs.Components.{file_of};
ghost use Rattle.tc_machine.specs.State.{Merging};
ghost use Rattle.tc_part_model.specs.Calls.{IsUnlisted};
ghost use Rattle.tc_part_model.specs.Changes.{merged_part};
ghost use Rattle.tc_part_model.specs.Leaving.{StoreMomentsLeaveStore};
ghost use Rattle.tc_part_model.specs.Meaning.{IsPart, HasFailedAs};
ghost use Rattle.tc_part_model.specs.PartState.{Told};
ghost use Rattle.tc_part_model.specs.PartView.{PartView};

/// A law, and no work. Once a merge is listed in place of its run, the components of the run are not listed. Some or all files
/// of components that are not listed may be removed, in any number of calls: the part stays what it is, and so it is where one
/// of the calls failed. At each moment a stop leaves what was stored.
pub fn unlisted_files_go()
    ensures run { (t : Told) (p : PartView) (m : Merging) → IsPart t p → p.merge ≡ Some m → All (IsUnlisted (merged_part p).list) (map file_of (in_run m.run p.list)) }
    ensures part { (t u : Told) (p : PartView) (names : List Name) → IsPart t p → All (IsUnlisted p.list) names → RemovesSome names t.disks u.disks → u ≡ record t { disks = u.disks } → IsPart u p }
    ensures moments { (t : Told) (p : PartView) (names : List Name) (disks : List Disk) → IsPart t p → All (IsUnlisted p.list) names → RemovesSome names t.disks disks → StoreMomentsLeaveStore p p t disks }
    ensures failed { (t u : Told) (p : PartView) (frame : Option (List Write)) (names : List Name) → HasFailedAs t p frame → All (IsUnlisted p.list) names → RemovesSome names t.disks u.disks
        → u.failed ≡ true → u.log ≡ t.log → u.sealed_log ≡ t.sealed_log → HasFailedAs u p frame }
{}
