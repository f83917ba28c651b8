//! Numbers of whole bytes become numbers of bits.

ghost use Rattle.std.specs.Prelude.{◌≡◌, ◌++◌, OnOk};
ghost use Rattle.tc_record.specs.Record.{numbered_form, in_bits, column_in};
ghost use Rattle.tc_compact.specs.Slots.{numbers_in};
ghost use Rattle.tc_compact.specs.Repacked.{IsRepackedOf};

use crate::cutting::slots_in_bytes;
use crate::layout::{put_bytes, put_column, put_front, values_len};
use tc_bytes::Memory;
use tc_record::{HEADER_SIZE, PACKED_FORM, RecordRef, column_bytes, least_width};

/// Puts in place of some bytes the record of form 2 of a record of form 1: the same tree, with the numbers of its columns in bits.
/// Their room is used again, so that many records need it once. Errs only for want of memory.
pub fn repack(of: RecordRef<'_>, out: &mut Vec<u8>) -> Result<(), Memory>
    requires { of.form ≡ numbered_form }
    ensures { OnOk result (IsRepackedOf of.entry.bytes out.new.items) }
{
    let _bytes = of.bytes();
    let members = of.member_count();
    let greatest = of.greatest_slot();
    let slots = column_bytes(PACKED_FORM, members, greatest) as usize;
    let len = HEADER_SIZE + values_len(PACKED_FORM, &of) + slots;
    let width = least_width(PACKED_FORM, members, greatest);
    out.clear();
    put_front(len as u32, PACKED_FORM, &of, width, out)?;
    put_packed_slots(&of, out)?;
    Ok(())
}

/// Appends the slots of a record of form 1 in bits. Errs only for want of memory.
fn put_packed_slots(of: &RecordRef<'_>, out: &mut Vec<u8>) -> Result<(), Memory>
    requires { of.now.form ≡ numbered_form }
    ensures { OnOk result (out.new.items ≡ out.old.items ++ column_in in_bits (numbers_in of.now.tokens)) }
{
    let _bytes = of.bytes();
    let greatest = of.greatest_slot();
    match slots_in_bytes(of) {
        Some(slots) => put_bytes(PACKED_FORM, slots, greatest, out),
        None => put_column(PACKED_FORM, of.slots(), greatest, out),
    }
}
