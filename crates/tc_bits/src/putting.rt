//! An element written into a column.

ghost use Rattle.std.specs.Prelude.{◌≡◌, ◌≤◌, ◌<◌, ◌+◌, ◌*◌, ◌^◌, ◌%◌, ℕ, length, slice_set};
ghost use Rattle.tc_bits.specs.Bits.{elements, with_bits, with_field as with_field_of, value as value_spelled};

use crate::reading::value_of;

/// Writes the element at a place of a column, and changes no other bit. Takes no memory.
pub fn put(into: &mut [u8], width: u8, at: u32, value: u32)
    requires least { 1 ≤ width }
    requires most { width ≤ 32 }
    requires fits { value < 2 ^ width }
    requires room { width * at + width ≤ 8 * length into.old }
    ensures len { length into.new ≡ length into.old }
    ensures put { value_spelled into.new ≡ with_bits width (width * at) value into.old }
    ensures elements { (count : ℕ) → at < count → width * count ≤ 8 * length into.old → elements width count into.new ≡ slice_set (elements width count into.old) at value }
{
    let place = u64::from(width) * u64::from(at);
    let (_, rest) = into.split_at_mut((place / 8) as usize);
    put_after(rest, width, (place % 8) as u8, value);
}

/// Writes so many bits after fewer than eight others.
#[inline(always)]
fn put_after(into: &mut [u8], width: u8, shift: u8, value: u32)
    requires least { 1 ≤ width }
    requires most { width ≤ 32 }
    requires fits { value < 2 ^ width }
    requires shift { shift < 8 }
    requires room { shift + width ≤ 8 * length into.old }
    ensures len { length into.new ≡ length into.old }
    ensures put { value_spelled into.new ≡ with_bits width shift value into.old }
{
    let (front, _) = into.split_at_mut(into.len().min(8));
    put_in_front(front, width, shift, value);
}

/// The same in at most eight bytes.
fn put_in_front(into: &mut [u8], width: u8, shift: u8, value: u32)
    requires short { length into.old ≤ 8 }
    requires least { 1 ≤ width }
    requires most { width ≤ 32 }
    requires fits { value < 2 ^ width }
    requires room { shift + width ≤ 8 * length into.old }
    ensures len { length into.new ≡ length into.old }
    ensures put { value_spelled into.new ≡ with_bits width shift value into.old }
{
    let above = 8 * into.len() as u8 - shift - width;
    let number = with_field(value_of(into), above, width, value);
    put_low_bytes(number, into);
}

/// Fills at most eight bytes with the lowest ones of a number, the highest of them first.
fn put_low_bytes(number: u64, into: &mut [u8])
    requires { length into.old ≤ 8 }
    ensures len { length into.new ≡ length into.old }
    ensures put { value_spelled into.new ≡ number % 2 ^ (8 * length into.old) }
{
    let bytes = number.to_be_bytes();
    let (_, low) = bytes.split_at(8 - into.len());
    into.copy_from_slice(low);
}

/// A number with these bits above so many others.
#[inline(always)]
fn with_field(number: u64, above: u8, width: u8, value: u32) -> u64
    requires least { 1 ≤ width }
    requires most { width ≤ 32 }
    requires fits { value < 2 ^ width }
    requires room { above + width ≤ 64 }
    ensures { result ≡ with_field_of above width value number }
{
    let field = (number >> above) & ((1u64 << width) - 1);
    number - (field << above) + (u64::from(value) << above)
}
