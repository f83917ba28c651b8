//! The test whether a table can be flushed.

ghost use Rattle.std.specs.Prelude.{◌≡◌, ◌↔◌, ◌+◌, ◌<◌, ◌^◌, ◌-◌, ◌∷◌, [], All, IfNone, IfOk, IfSome, IsTrue, false, length, min};
ghost use Rattle.std.specs.Bool.{OnTrue};
ghost use Rattle.tc_schema_model.specs.Counted.{nothing, total_at, IsCanonical};
ghost use Rattle.tc_schema_model.specs.Occurrences.{Path};
ghost use Rattle.tc_memory.specs.DocumentTables.{IsTableOf};
ghost use Rattle.tc_memory.specs.Meaning.{IsLawfulHeld, entry_of};
ghost use Rattle.tc_lsm_model.specs.Tables.{Table, shapes_held};
ghost use Rattle.tc_flush.specs.Counting.{HasRoom, IsCounted as CountsOf, IsShort, names_held, records_kept};
ghost use Rattle.tc_flush.specs.Flushable.{CanCount, CanFlush, values_of};
ghost use Rattle.tc_flush.specs.Recounting.{FitsEach, all_removed, names_with, shapes_kept};

use crate::learning::names_fit;
use crate::tallying::count_entries;
use std::alloc::Global;
use tc_bytes::Memory;
use tc_compact::names_agree;
use tc_infer::{fit_together, subtract_if_fits};
use tc_memory::{Entry, Held, Sealed, tables_keep_documents};
use tc_names::Names;
use tc_record::{RecordRef, one_document};
use tc_schema::Schema;

/// Documents and names are fewer than this.
const MOST: u64 = 0x1_0000_0000;

/// A record that can be compacted has fewer bytes.
const LONG: usize = 0x4000_0000;

/// Where no place counts so many values there is room for those of few documents with short records.
const HIGH: u64 = 0x8000_0000_0000_0000;

/// Whether a table can be flushed over a schema and its names. Errs only for want of memory.
pub fn counted(
    alloc: Global,
    sealed: &Sealed,
    schema: &Schema,
    names: &Names,
) -> Result<bool, Memory>
    ensures exact { IfOk result (λ yes. IsTrue yes ↔ CountsOf names.now schema.now sealed.now) }
    ensures can { IfOk result (λ yes. IsTrue yes → (t : Table) → IsTableOf t sealed.now → CanFlush names.now schema.now t) }
{
    let known = names.len();
    if !schema.numbers_below(known) {
        return Ok(false);
    }
    // a copy of the schema may be the most that a load takes
    if !keeps_shapes(sealed) {
        return has_room(alloc, sealed, schema, names);
    }
    let mut left = schema.copy(alloc)?;
    if !take_if_fits(sealed, names, &mut left) {
        return Ok(false);
    }
    has_room(alloc, sealed, &left, names)
}

/// Whether a table keeps a shape of what is below.
fn keeps_shapes(sealed: &Sealed) -> bool
    ensures { result ≡ false → shapes_kept sealed.now ≡ [] }
{
    let mut entries = sealed.entries();
    while let Some(entry) = entries.next() {
        if entry.below.is_some() {
            return true;
        }
    }
    false
}

/// Takes off the shapes that a table keeps, each once, and answers whether the schema fitted each. Takes no memory.
fn take_if_fits(sealed: &Sealed, names: &Names, left: &mut Schema) -> bool
    requires canonical { IsCanonical (length names.now) left.old }
    ensures fits { IsTrue result ↔ FitsEach names.now (shapes_kept sealed.now) left.old }
    ensures removed { OnTrue result (left.new ≡ all_removed names.now (shapes_kept sealed.now) left.old) }
{
    let _known = names.len();
    let mut entries = sealed.entries();
    while let Some(entry) = entries.next() {
        if let Some(shape) = entry.below {
            if !subtract_if_fits(left, names, shape) {
                return false;
            }
        }
    }
    true
}

/// Whether there is room for the documents of a table, their names and their values. Where no place counts many values
/// there is room for those of few documents; else they are counted apart. Errs only for want of memory.
fn has_room(alloc: Global, sealed: &Sealed, left: &Schema, names: &Names) -> Result<bool, Memory>
    requires { IsCanonical (length names.now) left.now }
    ensures { IfOk result (λ yes. IsTrue yes ↔ HasRoom sealed.now left.now names.now) }
{
    tables_keep_documents();
    names_agree();
    let _entries = sealed.len();
    let Some(held) = short_records(sealed) else {
        return Ok(false);
    };
    if left.documents().saturating_add(held) >= MOST {
        return Ok(false);
    }
    if !have_names_room(sealed, names)? {
        return Ok(false);
    }
    if left.greatest() < HIGH {
        return Ok(true);
    }
    have_values_room(alloc, sealed, left, names)
}

/// Whether there are fewer than 2^32 names with those of a table's documents. Where all members together are few, so are
/// the new names; else they are learned by a copy. Errs only for want of memory.
fn have_names_room(sealed: &Sealed, names: &Names) -> Result<bool, Memory>
    ensures { IfOk result (λ yes. (t : Table) → IsTableOf t sealed.now → IsTrue yes ↔ length (names_with names.now (shapes_held t)) < 2 ^ 32) }
{
    if member_count(sealed).saturating_add(u64::from(names.len())) < MOST {
        return Ok(true);
    }
    names_fit(sealed, names)
}

/// Whether each path has fewer than 2^64 values with those of a table's documents. Errs only for want of memory.
fn have_values_room(
    alloc: Global,
    sealed: &Sealed,
    left: &Schema,
    names: &Names,
) -> Result<bool, Memory>
    requires canonical { IsCanonical (length names.now) left.now }
    requires can { (t : Table) → IsTableOf t sealed.now → CanCount names.now nothing t }
    ensures { IfOk result (λ yes. (t : Table) → IsTableOf t sealed.now → IsTrue yes ↔ ((path : Path) → total_at names.now left.now path + values_of (shapes_held t) path < 2 ^ 64)) }
{
    let mut known = names.copy()?;
    let mut apart = Schema::empty(alloc);
    count_entries(sealed, &mut apart, &mut known)?;
    // that the names are a dictionary
    let _known = known.len();
    Ok(fit_together(&apart, left))
}

/// How many records a table keeps, if all are short.
fn short_records(sealed: &Sealed) -> Option<u64>
    ensures count { IfSome result (λ held. held ≡ length (records_kept sealed.now)) }
    ensures short { IfSome result (λ held. All IsShort (records_kept sealed.now)) }
    ensures long { IfNone result (All IsShort (records_kept sealed.now) → ⊥) }
{
    let _entries = sealed.len();
    let mut held = 0;
    let mut entries = sealed.entries();
    while let Some(entry) = entries.next() {
        if let Held::Live(bytes) = entry.held {
            if bytes.as_slice().len() >= LONG {
                return None;
            }
            held += 1;
        }
    }
    Some(held)
}

/// How many members the documents of a table have together, or 2^64 - 1 where they have more.
fn member_count(sealed: &Sealed) -> u64
    ensures { (t : Table) → IsTableOf t sealed.now → result ≡ min (length (names_held t)) (2 ^ 64 - 1) }
{
    names_agree();
    let mut members: u64 = 0;
    let mut entries = sealed.entries();
    while let Some(entry) = entries.next() {
        members = members.saturating_add(members_of(entry));
    }
    members
}

/// How many members the document of an entry has, if there is one.
fn members_of(entry: Entry<'_>) -> u64
    requires { IsLawfulHeld entry.held }
    ensures { (t : Table) → IsTableOf t (entry_of entry.entry ∷ []) → result ≡ length (names_held t) }
{
    names_agree();
    one_document();
    match entry.held {
        Held::Gone => 0,
        Held::Live(bytes) => u64::from(RecordRef::known(bytes.as_slice()).member_count()),
    }
}
