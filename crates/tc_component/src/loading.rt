//! What is read of a component when it is loaded.

ghost use Rattle.std.specs.Prelude.{◌≡◌, ◌<◌, ◌≤◌, ◌+◌, ◌-◌, ℕ, List, Err, length, take, drop, IfOk, IfSome, IsErrOf};
ghost use Rattle.std.specs.Result.{IsOk};
ghost use Rattle.tc_store.specs.Counted.{IsCountedOnce};
ghost use Rattle.tc_store.specs.Judging.{Judges, IfDamaged, IsNoDamage, damage as a_damage};
ghost use Rattle.tc_component.specs.Layout.{file_size, number_end, directory_place};
ghost use Rattle.tc_component.specs.Loading.{loaded_index, IsCountedTwice};
ghost use Rattle.tc_component.specs.Reading.{file_judged};
ghost use Rattle.tc_component.specs.Spelling.{sizes_of, name_of, IsIndex};

use crate::head::{Head, Sizes, version_in};
use crate::layout::RECORDS_PLACE;
use crate::reading::{Parts, front_in, named_head_in, parts_in};
use std::alloc::Global;
use tc_store::{FileName, Frozen, ReadFault, bytes_of};

/// What a component has beside its records.
#[derive(Drop)]
pub(crate) struct Loaded {
    pub version: u8,
    pub head: Head,
    pub sizes: Sizes,
    pub parts: Parts,
}

/// What the file of this name has beside its records, by two reads.
pub(crate) fn loaded_of<F: Frozen>(
    alloc: Global,
    file: &F,
    name: FileName,
    watch: &mut F::Watch,
) -> Result<Loaded, ReadFault>
    ensures judged { IfSome (F.content file.now) (λ bytes. Judges loaded_index result (file_judged name bytes)) }
    ensures lawful { IfOk result (λ l. IsIndex (loaded_index l) × (name ≡ name_of l.head)) }
    ensures sizes { IfOk result (λ l. l.sizes ≡ sizes_of l.parts.directory l.parts.names l.parts.schema) }
    ensures sized { IfOk result (λ l. file_size l.sizes ≡ F.size file.now) }
    ensures short { IfOk result (λ l. file_size l.sizes < number_end) }
    ensures damaged { IfDamaged result (λ place bytes. (whole : List ℕ) × (length whole ≡ F.size file.now) × (file_judged name whole ≡ Err (a_damage place bytes))) }
    ensures counted { IsCountedTwice (IsErrOf result ReadFault.Disk) (IsOk result) (F.Watch.counts watch.old) (F.Watch.counts watch.new) }
    ensures reads { (F.Watch.counts watch.new).reads ≤ (F.Watch.counts watch.old).reads + 2 }
{
    let size = file.len();
    let front = front_in(alloc, file, watch)?;
    let (head, sizes) = named_head_in(alloc, name, size, &front)?;
    let version = version_in(&front);
    let rest = rest_in(alloc, file, sizes, watch)?;
    let parts = parts_in(alloc, version, head, sizes, rest)?;
    Ok(Loaded {
        version,
        head,
        sizes,
        parts,
    })
}

/// The bytes that stand behind the records.
fn rest_in<F: Frozen>(
    alloc: Global,
    file: &F,
    sizes: Sizes,
    watch: &mut F::Watch,
) -> Result<Vec<u8>, ReadFault>
    requires { file_size sizes ≡ F.size file.now }
    ensures read { IfOk result (λ read. IfSome (F.content file.now) (λ bytes. read.items ≡ take (F.size file.now - directory_place sizes) (drop (directory_place sizes) bytes))) }
    ensures length { IfOk result (λ read. length read.items ≡ F.size file.now - directory_place sizes) }
    ensures no_damage { IsNoDamage result }
    ensures counted { IsCountedOnce (IsErrOf result ReadFault.Disk) (IsOk result) (F.Watch.counts watch.old) (F.Watch.counts watch.new) }
{
    let size = file.len();
    let at = RECORDS_PLACE + sizes.records;
    bytes_of(alloc, file, at, (size - at) as usize, watch)
}
