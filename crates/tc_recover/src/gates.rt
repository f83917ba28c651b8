//! The files of a partition, each taken and its gate read.

ghost use Rattle.std.specs.Prelude.{◌≡◌, ◌⊎◌, ◌↔◌, ◌<◌, ◌^◌, [], ◌∷◌, length, filter, Contains, OnOk, OnErr, IfOk, IfSome, IsErrOf};
ghost use Rattle.std.specs.List.Sorted.{IsStrictlySortedBy};
ghost use Rattle.tc_bytes.specs.Codec.{IsBytes};
ghost use Rattle.tc_store.specs.Disk.{IsAtRest, IsSettledHome, IsThere};
ghost use Rattle.tc_store.specs.Gate.{is_open_file};
ghost use Rattle.tc_store.specs.Moments.{IfTold};
ghost use Rattle.tc_store.specs.NameOrder.{name_cmp};
ghost use Rattle.tc_store.specs.StoreCalls.{takes, content_at};
ghost use Rattle.tc_store.specs.declared.file_name.FileName.{FileName as Name};
ghost use Rattle.tc_recover.specs.Causes.{IsNoRefusal};
ghost use Rattle.tc_recover.specs.Files.{is_long, picture_in, picture_at, names_in, AreBytes, AreTold, AreGates, AreNamed, takes_all, TakesFirst, TakesSome};
ghost use Rattle.tc_recover.specs.Reads.{IsCountedTimes};

use crate::cause::FilesCause;
use crate::listing::listed;
use crate::taken::Taken;
use std::alloc::Global;
use tc_store::{FileName, Frozen, Store, is_open};

/// Takes all files that are there, and reads the gate of each, by one read of a file of more than one byte: components
/// first, by their first and then by their last generation, then logs. Where that fails, some are still, and nothing else
/// changed. `Disk` comes only where a call of the store or a read failed.
pub fn take_all<S: Store>(
    alloc: Global,
    store: &mut S,
    watch: &mut S::Watch,
) -> Result<Vec<Taken<S::Frozen>>, FilesCause>
    requires at_rest { IfTold (S.history store.old) IsAtRest }
    ensures exact { IfOk result (λ files. IfTold (S.history store.old) (λ disk. (name : Name) → Contains (names_in files.items) name ↔ IsThere (disk name))) }
    ensures ascend { IfOk result (λ files. IsStrictlySortedBy name_cmp (names_in files.items)) }
    ensures taken { IfOk result (λ files. S.history store.new ≡ takes_all (names_in files.items) (S.history store.old)) }
    ensures partly { OnErr result (TakesSome (S.history store.old) (S.history store.new)) }
    ensures named { IfOk result (λ files. AreNamed S.Frozen.name files.items) }
    ensures told { IfOk result (λ files. IfTold (S.history store.old) (λ disk. AreTold S.Frozen.content files.items)) }
    ensures picture { IfOk result (λ files. IfTold (S.history store.old) (λ disk. picture_in S.Frozen.content files.items ≡ picture_at disk (names_in files.items))) }
    ensures gates { IfOk result (λ files. AreGates S.Frozen.content files.items) }
    ensures bytes { IfOk result (λ files. AreBytes S.Frozen.content files.items) }
    ensures causes { IsNoRefusal result }
    ensures counted { IfOk result (λ files. IsCountedTimes ⊥ (Unit {0}) (length (filter (is_long S.Frozen.size) files.items)) (S.Watch.counts watch.old) (S.Watch.counts watch.new)) }
    ensures faults { IsCountedTimes (IsErrOf result FilesCause.Disk) ⊥ 0 (S.Watch.counts watch.old) (S.Watch.counts watch.new) }
{
    let names = listed(alloc, store, watch)?;
    let files = take_files(alloc, store, &names, watch)?;
    Ok(files)
}

/// Takes the files of these names, in their order, and reads the gate of each, by one read of a file of more than one
/// byte. Where that fails, those that were taken are still, and no other file changed. `Disk` comes only where a call of the
/// store or a read failed.
fn take_files<S: Store>(
    alloc: Global,
    store: &mut S,
    names: &[FileName],
    watch: &mut S::Watch,
) -> Result<Vec<Taken<S::Frozen>>, FilesCause>
    requires at_home { IfTold (S.history store.old) (λ disk. (name : Name) → Contains names.now name → IsSettledHome (disk name)) }
    requires ascend { IsStrictlySortedBy name_cmp names.now }
    ensures taken { OnOk result (S.history store.new ≡ takes_all names.now (S.history store.old)) }
    ensures partly { OnErr result (TakesFirst names.now (S.history store.old) (S.history store.new)) }
    ensures names { IfOk result (λ files. names_in files.items ≡ names.now) }
    ensures named { IfOk result (λ files. AreNamed S.Frozen.name files.items) }
    ensures told { IfOk result (λ files. IfTold (S.history store.old) (λ disk. AreTold S.Frozen.content files.items)) }
    ensures picture { IfOk result (λ files. IfTold (S.history store.old) (λ disk. picture_in S.Frozen.content files.items ≡ picture_at disk names.now)) }
    ensures gates { IfOk result (λ files. AreGates S.Frozen.content files.items) }
    ensures bytes { IfOk result (λ files. AreBytes S.Frozen.content files.items) }
    ensures causes { IsNoRefusal result }
    ensures counted { IfOk result (λ files. IsCountedTimes ⊥ (Unit {0}) (length (filter (is_long S.Frozen.size) files.items)) (S.Watch.counts watch.old) (S.Watch.counts watch.new)) }
    ensures faults { IsCountedTimes (IsErrOf result FilesCause.Disk) ⊥ 0 (S.Watch.counts watch.old) (S.Watch.counts watch.new) }
{
    let mut files = Vec::new(alloc);
    let mut rest = names;
    while let Some((name, behind)) = rest.split_first() {
        let file = take_file(alloc, store, *name, watch)?;
        files.push(file)?;
        rest = behind;
    }
    Ok(files)
}

/// Takes a file, and reads its gate.
fn take_file<S: Store>(
    alloc: Global,
    store: &mut S,
    name: FileName,
    watch: &mut S::Watch,
) -> Result<Taken<S::Frozen>, FilesCause>
    requires { IfTold (S.history store.old) (λ disk. IsSettledHome (disk name)) }
    ensures taken { OnOk result (S.history store.new ≡ takes name (S.history store.old)) }
    ensures failed { OnErr result ((S.history store.new ≡ S.history store.old) ⊎ (S.history store.new ≡ takes name (S.history store.old))) }
    ensures name { IfOk result (λ t. t.name ≡ name) }
    ensures named { IfOk result (λ t. S.Frozen.name t.file ≡ t.name) }
    ensures told { IfOk result (λ t. S.Frozen.content t.file ≡ content_at name (S.history store.old)) }
    ensures gate { IfOk result (λ t. IfSome (S.Frozen.content t.file) (λ bytes. t.open ≡ is_open_file bytes)) }
    ensures bytes { IfOk result (λ t. IfSome (S.Frozen.content t.file) (λ bytes. IsBytes bytes × (length bytes < 2 ^ 63))) }
    ensures causes { IsNoRefusal result }
    ensures long { IfOk result (λ t. IsCountedTimes ⊥ (Unit {0}) (length (filter (is_long S.Frozen.size) (t ∷ []))) (S.Watch.counts watch.old) (S.Watch.counts watch.new)) }
    ensures faults { IsCountedTimes (IsErrOf result FilesCause.Disk) ⊥ 0 (S.Watch.counts watch.old) (S.Watch.counts watch.new) }
{
    let file = store.take(alloc, name, watch)?;
    // A file that is asked for its length says that the bytes it tells are bytes.
    let _length = file.len();
    let open = is_open(&file, watch)?;
    Ok(Taken { name, file, open })
}
