//! When the files of a store that were taken, read and audited are lawful.

ghost use Rattle.std.specs.Prelude.{◌≡◌, ◌∷◌, ◌↔◌, ℕ, List, Some, Ok, All};
ghost use Rattle.tc_store.specs.Disk.{Disk, IsAtRest, content_of};
ghost use Rattle.tc_component.specs.Loading.{ComponentState};
ghost use Rattle.tc_component.specs.Spelling.{Holds};
ghost use Rattle.tc_log.specs.declared.write.Write.{Write as LogWrite};
ghost use Rattle.tc_plain_model.specs.Writes.{Write};
ghost use Rattle.tc_lsm_model.specs.Contents.{Content, Partition as OnePartition};
ghost use Rattle.tc_recover.specs.declared.taken.Taken.{Taken as TakenFile};
ghost use Rattle.tc_recover.specs.Lawful.{DiskOpens};
ghost use Rattle.tc_recover.specs.Loading.{interval_of, tile_name};
ghost use Rattle.tc_recover.specs.Opening.{AreAllTaken, DiskJudged, IsReadOf, found_in};
ghost use Rattle.tc_lawful.specs.Audited.{IsAudited};

use crate::files::judged_files_are_lawful;
use tc_component::written_is_read;
use tc_recover::lawful_files_are_read;
use tc_store::Store;

/// A law, and no work. A disk at rest of which all files were taken, and these components and writes were read, opens as
/// contents and logs exactly where an audit finds that these are theirs.
pub fn audited_disks_are_lawful<S: Store>()
    ensures { (part : OnePartition) (disk : Disk) (past new : List Disk) (files left : List (TakenFile S.Frozen S.Watch)) (list : List (ComponentState S.Frozen)) (writes : List (List LogWrite)) (last : ℕ) (cs : List Content) (logs : List (List Write))
        → IsAtRest disk → AreAllTaken S.Frozen.content S.Frozen.name files (disk ∷ past) new → DiskJudged part disk (Ok (found_in list writes)) → IsReadOf files list left last
        → IsAudited S.Frozen.content part list writes cs logs ↔ DiskOpens part disk cs logs }
{
    lawful_files_are_read();
    judged_files_are_lawful();
}

/// A law, and no work. The file of each component that was read tells what the disk has under the component's name, and it is a
/// component with what was read of it, whatever its records are.
pub fn loaded_files_hold<S: Store>()
    ensures told { (disk : Disk) (past new : List Disk) (files left : List (TakenFile S.Frozen S.Watch)) (list : List (ComponentState S.Frozen)) (last : ℕ)
        → IsAtRest disk → AreAllTaken S.Frozen.content S.Frozen.name files (disk ∷ past) new → IsReadOf files list left last → All (λ x. S.Frozen.content x.file ≡ content_of (disk (tile_name (interval_of x)))) list }
    ensures hold { (part : OnePartition) (disk : Disk) (past new : List Disk) (files left : List (TakenFile S.Frozen S.Watch)) (list : List (ComponentState S.Frozen)) (writes : List (List LogWrite)) (last : ℕ)
        → IsAtRest disk → AreAllTaken S.Frozen.content S.Frozen.name files (disk ∷ past) new → DiskJudged part disk (Ok (found_in list writes)) → IsReadOf files list left last → All (λ x. (bytes : List ℕ) × (S.Frozen.content x.file ≡ Some bytes) × Holds bytes x.index) list }
{
    written_is_read();
}
