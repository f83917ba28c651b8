//! Laws of a part that begins.

ghost use Rattle.std.specs.Prelude.{◌≡◌, ◌++◌, ◌∷◌, [], true, false, List, Option, Some, None};
ghost use Rattle.tc_store.specs.Disk.{Disk, home, out, put, is_out};
ghost use Rattle.tc_store.specs.DiskFile.{DiskFile};
ghost use Rattle.tc_store.specs.Moments.{IfTold};
ghost use Rattle.tc_store.specs.StoreCalls.{comes_home};
ghost use Rattle.tc_store.specs.declared.file_name.FileName.{FileName as Name};
ghost use Rattle.tc_component.specs.Spelling.{Index};
ghost use Rattle.tc_lsm_model.specs.Contents.{Partition, Content};
ghost use Rattle.tc_lsm_model.specs.Lists.{live, names_of};
ghost use Rattle.tc_machine.specs.Kept.{IsKept};
ghost use Rattle.tc_machine.specs.State.{State};
ghost use Rattle.tc_machine.specs.Steps.{StartsPart};
ghost use Rattle.tc_part_model.specs.Leaving.{FailedMomentsLeaveStore, KeepsStore};
ghost use Rattle.tc_part_model.specs.Meaning.{IsPart, plain_of};
ghost use Rattle.tc_part_model.specs.PartState.{ToldComponent};
ghost use Rattle.tc_part_model.specs.PartView.{store_of};
ghost use Rattle.tc_part_model.specs.Newest.{newest_index};
ghost use Rattle.tc_part_model.specs.Starting.{ToldOpening, IsOpened, IsOpenedAt, first_log, started, started_part};

/// A law, and no work. What an opening hands in makes up a part, whose names, documents and generation are counted by the newest
/// component. As a plain store it has what is live in the list, and the names of the list. Where it is not begun and the device
/// of the log comes home, whatever a stop leaves holds what is live, and so it is at that moment.
pub fn parts_start()
    ensures started { (o : ToldOpening) (list : List Content) → IsOpened o list → IsPart (started o) (started_part o.part list) }
    ensures plain { (o : ToldOpening) (list : List Content) → IsOpened o list → plain_of (started o) (started_part o.part list) ≡ record { pairs = live list; taken = names_of list } }
    ensures newest { (before : Option Index) (older : List ToldComponent) (c : ToldComponent) → newest_index before (older ++ c ∷ []) ≡ Some c.index }
    ensures not_begun_moments { (o : ToldOpening) (list : List Content) → IsOpened o list → FailedMomentsLeaveStore (started_part o.part list) None (started o) (comes_home (first_log list) (λ f. home f) o.log o.disks) }
    ensures stored { (part : Partition) (list : List Content) → store_of (started_part part list) ≡ live list }
    ensures not_begun { (o : ToldOpening) (list : List Content) → IsOpened o list → IfTold (comes_home (first_log list) (λ f. home f) o.log o.disks) (KeepsStore o.part (live list) None) }
{}

/// A law, and no work. Where an opening has come to its end in the machine, and no file is out but the log that it made, what it
/// hands in is opened.
pub fn openings_end()
    ensures { (part : Partition) (s : State) (disk : Disk) (log : DiskFile) → IsKept part s → StartsPart part s → s.failed ≡ false → s.merge ≡ None
        → s.files ≡ put (first_log s.list) (home log) disk → disk (first_log s.list) ≡ out → ((name : Name) → is_out (disk name) ≡ true → name ≡ first_log s.list) → IsOpenedAt part s.list disk log }
{}
