//! Numbers become names.

ghost use Rattle.std.specs.Prelude.{◌≡◌, ◌++◌, ℕ, List, false, IfOk, OnOk, IsErrOf, length, map};
ghost use Rattle.tc_model.specs.Document.{Document};
ghost use Rattle.tc_record.specs.Borrowed.{numbered_tokens};
ghost use Rattle.tc_record.specs.Record.{NumberedTree, numbers, joined, record_of, IsRecordOf};
ghost use Rattle.tc_record.specs.Widths.{width_bytes};
ghost use Rattle.tc_compact.specs.Compacted.{IsNumberedUnder};
ghost use Rattle.tc_compact.specs.Slots.{numbers_in};
ghost use Rattle.tc_compact.specs.Meant.{name_at, expanded, HasRoom};

use crate::dictionary::is_dictionary;
use crate::layout::{begin, values_len};
use crate::meaning::name_meant;
use crate::sizing::len_with_names;
use crate::slot_sum::sum_of_names;
use crate::spelling::spells_document;
use std::alloc::Global;
use tc_bytes::{Bytes, Memory};
use tc_names::Names;
use tc_record::{Label, NAMED_FORM, RecordFault, RecordRef, Width, put_number};

/// The record of form 0 whose form 1 or 2 under a dictionary these bytes are. `NotARecord` comes exactly where there is none:
/// the bytes are no record of these forms, a number has no name, the names of an object do not ascend, or the record of
/// form 0 would have 4,294,967,296 bytes or more.
pub fn expand(alloc: Global, bytes: &[u8], names: &Names) -> Result<Bytes, RecordFault>
    ensures found { IfOk result (λ record_bytes. (d : Document) × IsRecordOf d record_bytes × IsNumberedUnder names.now d bytes.now) }
    ensures again { (d : Document) (record_bytes : List ℕ) → IsRecordOf d record_bytes → IsNumberedUnder names.now d bytes.now → IfOk result (λ expanded. expanded ≡ record_bytes) }
    ensures refused { IsErrOf result RecordFault.NotARecord → (d : Document) (record_bytes : List ℕ) → IsRecordOf d record_bytes → IsNumberedUnder names.now d bytes.now → ⊥ }
{
    let Some(record) = RecordRef::of(bytes) else {
        return Err(RecordFault::NotARecord);
    };
    if record.named() {
        return Err(RecordFault::NotARecord);
    }
    if !spells_document(record.again(), names) {
        return Err(RecordFault::NotARecord);
    }
    let expanded = with_names(alloc, &record, names)?;
    Ok(Bytes::of(expanded))
}

/// The bytes of a record with numbers that has room, with names in place of these. Errs only for want of memory.
fn with_names(alloc: Global, from: &RecordRef<'_>, names: &Names) -> Result<Vec<u8>, Memory>
    requires numbered { from.now.named ≡ false }
    requires room { HasRoom names.now from.now }
    ensures { IfOk result (λ out. (n : NumberedTree) → from.now.tokens ≡ numbered_tokens n → out.items ≡ record_of (expanded names.now n)) }
{
    is_dictionary(names);
    let _bytes = from.bytes();
    let sum = sum_of_names(from, names);
    let values = values_len(NAMED_FORM, from);
    let Some(len) = len_with_names(values, sum) else {
        unreachable!()
    };
    let width = sum.width();
    let mut out = begin(alloc, len, NAMED_FORM, from, width.bytes())?;
    put_name_lengths(from, names, width, &mut out)?;
    put_names(from, names, &mut out)?;
    Ok(out)
}

/// Appends the lengths of the names of a record's numbers. Errs only for want of memory.
fn put_name_lengths(
    from: &RecordRef<'_>,
    names: &Names,
    width: Width,
    out: &mut Vec<u8>,
) -> Result<(), Memory>
    ensures { OnOk result (out.new.items ≡ out.old.items ++ numbers (width_bytes width) (map length (map (name_at names.now) (numbers_in from.now.tokens)))) }
{
    let mut cursor = from.cursor();
    while let Some(token) = cursor.next() {
        if let Label::Number(number) = token.label {
            put_number(width, name_meant(names, number).len(), out)?;
        }
    }
    Ok(())
}

/// Appends the names of a record's numbers. Errs only for want of memory.
fn put_names(from: &RecordRef<'_>, names: &Names, out: &mut Vec<u8>) -> Result<(), Memory>
    ensures { OnOk result (out.new.items ≡ out.old.items ++ joined (map (name_at names.now) (numbers_in from.now.tokens))) }
{
    let mut cursor = from.cursor();
    while let Some(token) = cursor.next() {
        if let Label::Number(number) = token.label {
            out.extend_from_slice(name_meant(names, number).as_bytes())?;
        }
    }
    Ok(())
}
