//! Laws of the files that nobody needs, of a partition that is being opened.

ghost use Rattle.std.specs.Prelude.{List};
ghost use Rattle.tc_plain_model.specs.Writes.{Write};
ghost use Rattle.tc_lsm_model.specs.Contents.{Content, Partition};
ghost use Rattle.tc_store.specs.Disk.{Disk};
ghost use Rattle.tc_store.specs.Moments.{EachSince, IfTold};
ghost use Rattle.tc_store.specs.declared.file_name.FileName.{FileName as Name};
ghost use Rattle.tc_store.specs.StoreCalls.{RemovesSome};
ghost use Rattle.tc_open.specs.BeingOpened.{AreNeedless, IsOpening, LeavesLogged};

/// A law, and no work. Some or all files that nobody needs may be removed while a partition is being opened: components that
/// are not listed, logs that the components cover, and logs that are closed. It stays what it is, also where a removal failed,
/// and at each moment a stop leaves what is stored.
pub(crate) fn needless_files_go()
    ensures opening { (part : Partition) (cs : List Content) (ws : List (List Write)) (names : List Name) (disks later : List Disk) → IsOpening part cs ws disks → IfTold disks (λ disk. AreNeedless cs disk names) → RemovesSome names disks later → IsOpening part cs ws later }
    ensures moments { (part : Partition) (cs : List Content) (ws : List (List Write)) (names : List Name) (disks later : List Disk) → IsOpening part cs ws disks → IfTold disks (λ disk. AreNeedless cs disk names) → RemovesSome names disks later
        → EachSince (LeavesLogged part cs ws) disks later }
{}
