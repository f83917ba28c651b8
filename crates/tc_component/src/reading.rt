//! What the bytes of a component are judged to be.

ghost use Rattle.std.specs.Prelude.{◌≡◌, ◌≤◌, ◌<◌, ◌+◌, ◌-◌, ◌*◌, min, ◌&&◌, ◌==◌, Err, [], length, IfOk, IfSome, IsErrOf};
ghost use Rattle.std.specs.Result.{IsOk};
ghost use Rattle.tc_bytes.specs.Codec.{IsBytes};
ghost use Rattle.tc_store.specs.Counted.{IsCountedOnce};
ghost use Rattle.tc_store.specs.Judging.{Judges, IfDamaged, IsNoDisk, IsNoDamage, or_damage, damage as a_damage};
ghost use Rattle.tc_names.specs.Section.{read_section};
ghost use Rattle.tc_schema.specs.Reading.{read_schema};
ghost use Rattle.tc_component.specs.Columns.{IsMarked};
ghost use Rattle.tc_component.specs.Found.{FrontFound, RestFound};
ghost use Rattle.tc_component.specs.Layout.{head_place, head_size, slot_size, number_end, file_size, directory_place};
ghost use Rattle.tc_component.specs.Loading.{parts_of, same_pair};
ghost use Rattle.tc_component.specs.Reading.{version_told, is_named, directory_read, front_of, front_judged, rest_judged};

use crate::directory::{Directory, marks_in};
use crate::head::{Head, Sizes, head_in, is_named_by, len_of_file};
use crate::kept_schema::KeptSchema;
use crate::layout::{HEAD_LEN, HEAD_PLACE, RECORDS_PLACE, SLOT_LEN};
use std::alloc::Global;
use tc_names::{Names, NamesFault};
use tc_schema::{Schema, SchemaFault};
use tc_store::{FileName, Frozen, ReadFault, bytes_of, damaged};

/// What a component has behind its records.
#[derive(Drop)]
pub(crate) struct Parts {
    pub directory: Directory,
    pub names: Names,
    pub schema: KeptSchema,
}

/// The bytes that stand where the header has its place.
pub(crate) fn front_in<F: Frozen>(
    alloc: Global,
    file: &F,
    watch: &mut F::Watch,
) -> Result<Vec<u8>, ReadFault>
    ensures read { IfOk result (λ read. IfSome (F.content file.now) (λ bytes. read.items ≡ front_of bytes)) }
    ensures length { IfOk result (λ read. length read.items ≡ min (F.size file.now - min (F.size file.now) head_place) head_size) }
    ensures no_damage { IsNoDamage result }
    ensures counted { IsCountedOnce (IsErrOf result ReadFault.Disk) (IsOk result) (F.Watch.counts watch.old) (F.Watch.counts watch.new) }
{
    let at = file.len().min(HEAD_PLACE as u64);
    let count = (file.len() - at).min(HEAD_LEN as u64) as usize;
    bytes_of(alloc, file, at, count, watch)
}

/// These bytes as the header of a component of this name, in a file of this length.
pub(crate) fn named_head_in(
    alloc: Global,
    name: FileName,
    size: u64,
    front: &[u8],
) -> Result<(Head, Sizes), ReadFault>
    ensures judged { Judges same_pair result (front_judged name size front.now) }
    ensures found { length front.now ≤ head_size → IfOk result (λ h. FrontFound (version_told front.now) name size front.now (h.0, h.1)) }
    ensures sized { IfOk result (λ h. file_size h.1 ≡ size) }
    ensures no_disk { IsNoDisk result }
{
    match head_in(front) {
        Some((head, sizes, _)) if is_header_of(name, size, head, sizes) => Ok((head, sizes)),
        _ => Err(damaged(alloc, HEAD_PLACE, front)),
    }
}

fn is_header_of(name: FileName, size: u64, head: Head, sizes: Sizes) -> bool
    ensures { result ≡ is_named name head && file_size sizes == size }
{
    is_named_by(name, head) && len_of_file(sizes) == u128::from(size)
}

/// The directory, the names and the schema, which stand behind the records.
pub(crate) fn parts_in(
    alloc: Global,
    version: u8,
    head: Head,
    sizes: Sizes,
    rest: Vec<u8>,
) -> Result<Parts, ReadFault>
    requires short { file_size sizes < number_end }
    requires sized { length rest.items ≡ sizes.entries * slot_size + sizes.names + sizes.schema }
    ensures judged { Judges (parts_of version head) result (rest_judged version (head, sizes) rest.items) }
    ensures found { IfOk result (λ parts. RestFound version (head, sizes) rest.items (parts_of version head parts)) }
    ensures no_disk { IsNoDisk result }
{
    are_bytes(&rest);
    match judged_parts_in(alloc, version, head, sizes, rest) {
        Ok(parts) => Ok(parts),
        Err(fault) => Err(fault),
    }
}

/// A law, and no work: what a slice of bytes has are bytes.
#[inline(always)]
fn are_bytes(bytes: &[u8])
    ensures { IsBytes bytes.now }
{}

fn judged_parts_in(
    alloc: Global,
    version: u8,
    head: Head,
    sizes: Sizes,
    rest: Vec<u8>,
) -> Result<Parts, ReadFault>
    requires short { file_size sizes < number_end }
    requires sized { length rest.items ≡ sizes.entries * slot_size + sizes.names + sizes.schema }
    ensures judged { Judges (parts_of version head) result (rest_judged version (head, sizes) rest.items) }
    ensures no_disk { IsNoDisk result }
{
    let (own, behind) = rest.as_slice().split_at(sizes.entries as usize * SLOT_LEN);
    let (named, counted) = behind.split_at(sizes.names as usize);
    let names_at = RECORDS_PLACE + sizes.records + sizes.entries * SLOT_LEN as u64;
    let marks = judged_marks_in(alloc, sizes, own)?;
    let names = judged_names_in(alloc, names_at, named)?;
    let schema = judged_schema_in(alloc, names_at + sizes.names, names.len(), counted)?;
    Ok(Parts {
        directory: Directory::of(sizes, rest, marks),
        names,
        schema,
    })
}

fn judged_marks_in(alloc: Global, sizes: Sizes, own: &[u8]) -> Result<Vec<u64>, ReadFault>
    requires { directory_place sizes < number_end }
    ensures marked { IfOk result (λ marks. IsMarked sizes own.now marks.items) }
    ensures damaged { IfDamaged result (λ place bytes. or_damage (directory_read sizes.entries sizes.records [] own.now) (a_damage (directory_place sizes) own.now) ≡ Err (a_damage place bytes)) }
    ensures no_disk { IsNoDisk result }
{
    match marks_in(alloc, sizes, own)? {
        Some(marks) => Ok(marks),
        None => Err(damaged(alloc, (RECORDS_PLACE + sizes.records) as usize, own)),
    }
}

fn judged_names_in(alloc: Global, place: u64, named: &[u8]) -> Result<Names, ReadFault>
    ensures judged { Judges (λ names. names) result (or_damage (read_section named.now) (a_damage place named.now)) }
    ensures no_disk { IsNoDisk result }
{
    match Names::from_bytes(alloc, named) {
        Ok(names) => Ok(names),
        Err(NamesFault::NotNames) => Err(damaged(alloc, place as usize, named)),
        Err(NamesFault::Memory) => Err(ReadFault::Memory),
    }
}

fn judged_schema_in(
    alloc: Global,
    place: u64,
    names: u32,
    counted: &[u8],
) -> Result<KeptSchema, ReadFault>
    ensures judged { Judges (λ schema. schema) result (or_damage (read_schema names counted.now) (a_damage place counted.now)) }
    ensures no_disk { IsNoDisk result }
{
    match Schema::from_bytes(alloc, counted, names) {
        Ok(schema) => Ok(KeptSchema::of(alloc, &schema, counted)?),
        Err(SchemaFault::NotASchema) => Err(damaged(alloc, place as usize, counted)),
        Err(SchemaFault::Memory) => Err(ReadFault::Memory),
    }
}
