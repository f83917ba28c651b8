//! A record that is written by the parts of another one, as a form spells them.

ghost use Rattle.std.specs.Prelude.{◌≡◌, ◌<◌, ◌^◌, ◌++◌, ◌∷◌, [], IfOk, OnOk, length, map};
ghost use Rattle.std.specs.Int.{w32, to_be_bytes};
ghost use Rattle.tc_record.specs.Record.{texts, labels, greatest as greatest_of, spelling_of, column_in};
ghost use Rattle.tc_compact.specs.Layout.{parts_of, values, counts, front};

use crate::cutting::{lengths_in_bytes, tags_and_fixed};
use std::alloc::Global;
use tc_bits::ColumnWriter;
use tc_bytes::Memory;
use tc_record::{Column, HEADER_SIZE, RecordRef, column_bits, column_bytes, least_width};

/// How many bytes the columns before the slots take in a form.
pub(crate) fn values_len(form: u8, from: &RecordRef<'_>) -> usize
    ensures len { result ≡ length (values (spelling_of form) (parts_of from.now.tokens)) }
    ensures most { result < 2 ^ 36 }
{
    let _bytes = from.bytes();
    let lengths = column_bytes(form, from.text_count(), from.longest_text()) as usize;
    from.tags().len() + from.fixed().len() + from.texts().len() + lengths
}

/// All of a record that stands before its slots, in memory of its own. Errs only for want of memory.
pub(crate) fn begin(
    alloc: Global,
    len: u32,
    form: u8,
    from: &RecordRef<'_>,
    slot_width: u8,
) -> Result<Vec<u8>, Memory>
    ensures { IfOk result (λ out. out.items ≡ front (spelling_of form) form len (parts_of from.now.tokens) (length (labels from.now.tokens)) slot_width) }
{
    let mut out = Vec::with_capacity(alloc, len as usize)?;
    put_front(len, form, from, slot_width, &mut out)?;
    Ok(out)
}

/// Appends all of a record that stands before its slots. Errs only for want of memory.
pub(crate) fn put_front(
    len: u32,
    form: u8,
    from: &RecordRef<'_>,
    slot_width: u8,
    out: &mut Vec<u8>,
) -> Result<(), Memory>
    ensures { OnOk result (out.new.items ≡ out.old.items ++ front (spelling_of form) form len (parts_of from.now.tokens) (length (labels from.now.tokens)) slot_width) }
{
    out.extend_from_slice(&header_of(len, form, from, slot_width))?;
    put_values(form, from, out)?;
    Ok(())
}

/// The header of a record in a form.
fn header_of(len: u32, form: u8, from: &RecordRef<'_>, slot_width: u8) -> [u8; HEADER_SIZE]
    ensures { result ≡ to_be_bytes w32 len ++ (form ∷ (counts (spelling_of form) (parts_of from.now.tokens) (length (labels from.now.tokens)) ++ slot_width ∷ [])) }
{
    let text_count = from.text_count();
    let width = least_width(form, text_count, from.longest_text());
    let total = len.to_be_bytes();
    let tags = from.token_count().to_be_bytes();
    let fixed = from.fixed_size().to_be_bytes();
    let texts = text_count.to_be_bytes();
    let members = from.member_count().to_be_bytes();
    [
        total[0], total[1], total[2], total[3], form, tags[0], tags[1], tags[2], tags[3], fixed[0],
        fixed[1], fixed[2], fixed[3], texts[0], texts[1], texts[2], texts[3], width, members[0],
        members[1], members[2], members[3], slot_width,
    ]
}

/// Appends the columns before the slots. Errs only for want of memory.
fn put_values(form: u8, from: &RecordRef<'_>, out: &mut Vec<u8>) -> Result<(), Memory>
    ensures { OnOk result (out.new.items ≡ out.old.items ++ values (spelling_of form) (parts_of from.now.tokens)) }
{
    out.extend_from_slice(tags_and_fixed(from))?;
    put_lengths(form, from, out)?;
    out.extend_from_slice(from.texts())?;
    Ok(())
}

/// Appends the lengths of texts. Errs only for want of memory.
fn put_lengths(form: u8, from: &RecordRef<'_>, out: &mut Vec<u8>) -> Result<(), Memory>
    ensures { OnOk result (out.new.items ≡ out.old.items ++ column_in (spelling_of form) (map length (texts from.now.tokens))) }
{
    let longest = from.longest_text();
    match lengths_in_bytes(from) {
        Some(lengths) => put_bytes(form, lengths, longest, out),
        None => put_column(form, from.text_lengths(), longest, out),
    }
}

/// Appends a column of numbers that are a byte each, of which this is the greatest. Errs only for want of memory.
pub(crate) fn put_bytes(
    form: u8,
    numbers: &[u8],
    greatest: u32,
    out: &mut Vec<u8>,
) -> Result<(), Memory>
    requires { greatest_of numbers.now ≡ greatest }
    ensures { OnOk result (out.new.items ≡ out.old.items ++ column_in (spelling_of form) numbers.now) }
{
    let mut writer = ColumnWriter::of(column_bits(form, greatest));
    for number in numbers {
        writer.push(u32::from(*number), out)?;
    }
    writer.end(out)?;
    Ok(())
}

/// Appends a column of numbers, of which this is the greatest. Errs only for want of memory.
pub(crate) fn put_column(
    form: u8,
    numbers: Column<'_>,
    greatest: u32,
    out: &mut Vec<u8>,
) -> Result<(), Memory>
    requires { greatest_of numbers ≡ greatest }
    ensures { OnOk result (out.new.items ≡ out.old.items ++ column_in (spelling_of form) numbers.entry) }
{
    let mut left = numbers;
    let mut writer = ColumnWriter::of(column_bits(form, greatest));
    while let Some(number) = left.next() {
        writer.push(number, out)?;
    }
    writer.end(out)?;
    Ok(())
}

/// Appends slots, of which this is the greatest. Errs only for want of memory.
pub(crate) fn put_slots(
    form: u8,
    slots: &[u32],
    greatest: u32,
    out: &mut Vec<u8>,
) -> Result<(), Memory>
    requires { greatest_of slots.now ≡ greatest }
    ensures { OnOk result (out.new.items ≡ out.old.items ++ column_in (spelling_of form) slots.now) }
{
    let mut writer = ColumnWriter::of(column_bits(form, greatest));
    for slot in slots {
        writer.push(*slot, out)?;
    }
    writer.end(out)?;
    Ok(())
}

/// The greatest slot, or 0 where there is none.
pub(crate) fn greatest(slots: &[u32]) -> u32
    ensures { result ≡ greatest_of slots.now }
{
    let mut greatest = 0;
    for slot in slots {
        greatest = (*slot).max(greatest);
    }
    greatest
}
