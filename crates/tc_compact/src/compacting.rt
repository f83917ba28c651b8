//! Names become numbers.

ghost use Rattle.std.specs.Prelude.{◌≡◌, ◌<◌, ◌^◌, [], List, true, IfOk, OnOk, length, map};
ghost use Rattle.tc_model.specs.Document.{Name, Document};
ghost use Rattle.tc_model.specs.Dictionary.{Extends, IsDictionary, all_learned, number as name_number};
ghost use Rattle.tc_model.specs.KnownNames.{HasEach};
ghost use Rattle.tc_record.specs.Record.{labels, greatest as greatest_of, spelling_of, IsRecordOf};
ghost use Rattle.tc_compact.specs.Compacted.{IsCompactedRecordOf};
ghost use Rattle.tc_compact.specs.Slots.{names_in};
ghost use Rattle.tc_compact.specs.Layout.{parts_of, whole};

use crate::layout::{begin, greatest, put_slots, values_len};
use crate::learning::learn_names;
use std::alloc::Global;
use tc_bytes::{Bytes, Memory};
use tc_names::Names;
use tc_record::{HEADER_SIZE, PACKED_FORM, RecordRef, column_bytes, least_width};

/// The record of form 2 of a record of form 0 that has fewer than 1,073,741,824 bytes. New names are learned from the
/// front of the record: the name of a member, and then those within its value. Errs only for want of memory, with some
/// of the new names learned.
pub fn compact(alloc: Global, from: RecordRef<'_>, names: &mut Names) -> Result<Bytes, Memory>
    requires named { from.named ≡ true }
    requires short { length from.bytes < 2 ^ 30 }
    requires room { length (all_learned names.old (names_in from.tokens)) < 2 ^ 32 }
    ensures compacted { IfOk result (λ bytes. (d : Document) → IsRecordOf d from.entry.bytes → (newer : List Name) → IsDictionary newer → Extends newer names.new → IsCompactedRecordOf newer d bytes) }
    ensures learned { OnOk result (names.new ≡ all_learned names.old (names_in from.entry.tokens)) }
    ensures extends { Extends names.new names.old }
    ensures dictionary { IsDictionary names.new }
{
    // that the bytes spell a document
    let _bytes = from.bytes();
    let numbers = learn_names(alloc, &from, names)?;
    compact_numbered(alloc, from, numbers.as_slice())
}

/// The same where the numbers of the record's names are known, in the order of its members. Errs only for want of memory.
pub fn compact_numbered(
    alloc: Global,
    from: RecordRef<'_>,
    numbers: &[u32],
) -> Result<Bytes, Memory>
    requires named { from.named ≡ true }
    requires short { length from.bytes < 2 ^ 30 }
    requires members { length numbers.now ≡ length (names_in from.tokens) }
    ensures compacted { IfOk result (λ bytes. (d : Document) → IsRecordOf d from.entry.bytes → (names : List Name) → IsDictionary names → HasEach names (names_in from.entry.tokens) → numbers.now ≡ map (name_number names) (names_in from.entry.tokens) → IsCompactedRecordOf names d bytes) }
{
    let _bytes = from.bytes();
    let greatest = greatest(numbers);
    with_numbers(alloc, PACKED_FORM, &from, numbers, greatest)
}

/// A record of a form with these slots, of which this is the greatest. Errs only for want of memory.
fn with_numbers(
    alloc: Global,
    form: u8,
    from: &RecordRef<'_>,
    numbers: &[u32],
    greatest: u32,
) -> Result<Bytes, Memory>
    requires members { length numbers.now ≡ length (labels from.now.tokens) }
    requires greatest { greatest_of numbers.now ≡ greatest }
    requires short { length (whole (spelling_of form) form (parts_of from.now.tokens) numbers.now []) < 2 ^ 32 }
    ensures { IfOk result (λ bytes. bytes ≡ whole (spelling_of form) form (parts_of from.now.tokens) numbers.now []) }
{
    let members = from.member_count();
    let slots = column_bytes(form, members, greatest) as usize;
    let len = HEADER_SIZE + values_len(form, from) + slots;
    let width = least_width(form, members, greatest);
    let mut out = begin(alloc, len as u32, form, from, width)?;
    put_slots(form, numbers, greatest, &mut out)?;
    Ok(Bytes::of(out))
}
