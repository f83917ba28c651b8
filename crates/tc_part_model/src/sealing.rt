//! Laws of a seal.

ghost use Rattle.std.specs.Prelude.{◌≡◌, ◌+◌, true, List, [], Some, None};
ghost use Rattle.tc_store.specs.declared.file_name.FileName.TheVariants.{Log};
ghost use Rattle.tc_store.specs.Disk.{Disk, home};
ghost use Rattle.tc_store.specs.DiskFile.{DiskFile};
ghost use Rattle.tc_store.specs.StoreCalls.{FailsMaking, comes_home, fresh_file_at, makes};
ghost use Rattle.tc_log.specs.Spelling.{IsHead};
ghost use Rattle.tc_machine.specs.Logs.{log_head};
ghost use Rattle.tc_part_model.specs.Calls.{Creates, HasCreated};
ghost use Rattle.tc_part_model.specs.Changes.{sealed_part};
ghost use Rattle.tc_part_model.specs.Leaving.{NextLogMoments, StoreMomentsLeaveStore};
ghost use Rattle.tc_part_model.specs.Meaning.{IsPart, HasFailed, HasFailedAs};
ghost use Rattle.tc_part_model.specs.PartState.{Told};
ghost use Rattle.tc_part_model.specs.PartView.{PartView, store_of};

/// A law, and no work. Where no table is sealed and nothing is staged, the part is the one whose active table is sealed once
/// the next log is there, and stores what it stored.
pub fn seals_are_kept()
    ensures sealed { (t u : Told) (p : PartView) (device : List DiskFile) → IsPart t p → t.sealed ≡ None → t.staged ≡ [] → device ≡ fresh_file_at (Log (t.generation + 1)) t.disks → IsHead (log_head t.part (t.generation + 1))
        → HasCreated (log_head t.part (t.generation + 1)) device u.log
        → u ≡ record t { disks = makes (Log (t.generation + 1)) t.disks; log = u.log; sealed_log = Some t.log; generation = t.generation + 1; sealed = Some t.active; active = [] }
        → IsPart u (sealed_part p) }
    ensures stored { (t : Told) (p : PartView) → IsPart t p → t.sealed ≡ None → t.staged ≡ [] → store_of (sealed_part p) ≡ store_of p }
{}

/// A law, and no work. At each moment of a seal a stop leaves what was stored: of the store, of the next log, and where no
/// file was made, or the log was not created and its device came home.
pub fn seals_leave_store()
    ensures store { (t : Told) (p : PartView) → IsPart t p → t.sealed ≡ None → t.staged ≡ [] → StoreMomentsLeaveStore p p t (makes (Log (t.generation + 1)) t.disks) }
    ensures next_log { (t : Told) (p : PartView) (device log : List DiskFile) → IsPart t p → t.sealed ≡ None → t.staged ≡ [] → device ≡ fresh_file_at (Log (t.generation + 1)) t.disks → IsHead (log_head t.part (t.generation + 1))
        → Creates (log_head t.part (t.generation + 1)) device log → NextLogMoments p log }
    ensures not_made { (t : Told) (p : PartView) (disks : List Disk) → IsPart t p → t.sealed ≡ None → t.staged ≡ [] → FailsMaking (Log (t.generation + 1)) t.disks disks → StoreMomentsLeaveStore p p t disks }
    ensures broken { (t : Told) (p : PartView) (device broken : List DiskFile) → IsPart t p → t.sealed ≡ None → t.staged ≡ [] → device ≡ fresh_file_at (Log (t.generation + 1)) t.disks → IsHead (log_head t.part (t.generation + 1))
        → Creates (log_head t.part (t.generation + 1)) device broken → StoreMomentsLeaveStore p p t (comes_home (Log (t.generation + 1)) (λ f. home f) broken (makes (Log (t.generation + 1)) t.disks)) }
{}

/// A law, and no work. Where a seal failed, the files keep what was stored: as the part that it was.
pub fn failed_seals_are_kept()
    ensures not_made { (t u : Told) (p : PartView) → IsPart t p → t.sealed ≡ None → t.staged ≡ [] → u.failed ≡ true → u.log ≡ t.log → u.sealed_log ≡ t.sealed_log → FailsMaking (Log (t.generation + 1)) t.disks u.disks
        → HasFailed u p.part (store_of p) None }
    ensures not_made_as { (t u : Told) (p : PartView) → IsPart t p → t.sealed ≡ None → t.staged ≡ [] → u.failed ≡ true → u.log ≡ t.log → u.sealed_log ≡ t.sealed_log → FailsMaking (Log (t.generation + 1)) t.disks u.disks
        → HasFailedAs u p None }
    ensures broken { (t u : Told) (p : PartView) (device broken : List DiskFile) → IsPart t p → t.sealed ≡ None → t.staged ≡ [] → device ≡ fresh_file_at (Log (t.generation + 1)) t.disks → IsHead (log_head t.part (t.generation + 1))
        → Creates (log_head t.part (t.generation + 1)) device broken → u.failed ≡ true → u.log ≡ t.log → u.sealed_log ≡ t.sealed_log
        → u.disks ≡ comes_home (Log (t.generation + 1)) (λ f. home f) broken (makes (Log (t.generation + 1)) t.disks) → HasFailed u p.part (store_of p) None }
    ensures broken_as { (t u : Told) (p : PartView) (device broken : List DiskFile) → IsPart t p → t.sealed ≡ None → t.staged ≡ [] → device ≡ fresh_file_at (Log (t.generation + 1)) t.disks → IsHead (log_head t.part (t.generation + 1))
        → Creates (log_head t.part (t.generation + 1)) device broken → u.failed ≡ true → u.log ≡ t.log → u.sealed_log ≡ t.sealed_log
        → u.disks ≡ comes_home (Log (t.generation + 1)) (λ f. home f) broken (makes (Log (t.generation + 1)) t.disks) → HasFailedAs u p None }
{}
