//! The slots of a directory.

ghost use Rattle.std.specs.Prelude.{◌≡◌, ◌<◌, ◌≤◌, ◌++◌, length, option_map, IfSome, OnOk};
ghost use Rattle.std.specs.Int.{w32, w64};
ghost use Rattle.tc_bytes.specs.Reading.{number_at, passing_at};
ghost use Rattle.tc_component.specs.Columns.{front_slot};
ghost use Rattle.tc_component.specs.Layout.{number_end, slot_size};
ghost use Rattle.tc_component.specs.Reading.{is_key, is_length, slot_at};
ghost use Rattle.tc_component.specs.Spelling.{slot_bytes};

use crate::layout::{LEAST_RECORD, MAX_NUMBER};
use tc_bytes::{Memory, put_u32, put_u64, u32_at, u64_at};

/// What a directory has of an entry: its key, and how many bytes its record has, which are none where it is gone.
#[derive(Clone, Copy, Debug, PartialEq, Eq)]
pub struct Slot {
    pub key: u64,
    pub length: u32,
}

/// Appends a slot to the bytes of a directory.
// A merge pushes an entry in a few dozen instructions; a call of its own for each part of it would cost as much as the
// part.
#[inline(always)]
pub(crate) fn put_slot(slot: Slot, directory: &mut Vec<u8>) -> Result<(), Memory>
    ensures { OnOk result (directory.new.items ≡ directory.old.items ++ slot_bytes slot) }
{
    put_u64(directory, slot.key)?;
    put_u32(directory, slot.length)
}

/// The slot that the first bytes are, whatever it says.
// A walk over a directory takes a few instructions an entry.
#[inline(always)]
pub(crate) fn front_of_slots(bytes: &[u8]) -> Slot
    requires { slot_size ≤ length bytes.now }
    ensures { result ≡ front_slot bytes.now }
{
    Slot {
        key: u64::from_be_bytes([
            bytes[0], bytes[1], bytes[2], bytes[3], bytes[4], bytes[5], bytes[6], bytes[7],
        ]),
        length: u32::from_be_bytes([bytes[8], bytes[9], bytes[10], bytes[11]]),
    }
}

/// A slot from the front of the bytes.
pub(crate) fn slot_in(bytes: &[u8]) -> Option<(Slot, &[u8])>
    ensures slot { option_map (λ x. (x.0, x.1.now)) result ≡ slot_at bytes.now }
    ensures small { IfSome result (λ x. x.0.key < number_end) }
{
    let (key, rest) = key_in(bytes)?;
    let (length, rest) = length_in(rest)?;
    Some((Slot { key, length }, rest))
}

fn key_in(bytes: &[u8]) -> Option<(u64, &[u8])>
    ensures key { option_map (λ x. (x.0, x.1.now)) result ≡ passing_at is_key (number_at w64) bytes.now }
    ensures small { IfSome result (λ x. x.0 < number_end) }
{
    let (key, rest) = u64_at(bytes)?;
    if key <= MAX_NUMBER {
        Some((key, rest))
    } else {
        None
    }
}

fn length_in(bytes: &[u8]) -> Option<(u32, &[u8])>
    ensures { option_map (λ x. (x.0, x.1.now)) result ≡ passing_at is_length (number_at w32) bytes.now }
{
    let (length, rest) = u32_at(bytes)?;
    if length == 0 || length >= LEAST_RECORD {
        Some((length, rest))
    } else {
        None
    }
}
