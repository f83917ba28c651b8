//! How wide the numbers of a column are in a form, and how long it is.

ghost use Rattle.std.specs.Prelude.{◌≡◌, ◌≤◌, ◌<◌, ◌^◌, ℕ, List, length};
ghost use Rattle.std.specs.List.{AllByRecursion};
ghost use Rattle.tc_bits.specs.Bits.{column};
ghost use Rattle.tc_record.specs.Record.{greatest as greatest_of, column_in, spelling_of};
ghost use Rattle.tc_record.specs.Sections.{least_width as least};

use crate::header::PACKED_FORM;
use crate::widths::Width;
use tc_bits::{size_of_column, width_of};

/// The least width for so many numbers in a form, of which this is the greatest. Takes no memory.
pub fn least_width(form: u8, count: u32, greatest: u32) -> u8
    ensures { result ≡ least (spelling_of form) count greatest }
{
    if count == 0 {
        0
    } else {
        width_holding(form, greatest)
    }
}

/// The least width of a form that holds a number.
fn width_holding(form: u8, number: u32) -> u8
    ensures { result ≡ (spelling_of form).least number }
{
    if form == PACKED_FORM {
        width_of(number)
    } else {
        Width::holding(u64::from(number)).bytes()
    }
}

/// How many bits a number has in a column of a form, where this is the greatest. Takes no memory.
pub fn column_bits(form: u8, greatest: u32) -> u8
    ensures some { 1 ≤ result }
    ensures most { result ≤ 32 }
    ensures holds { (ns : List ℕ) → greatest_of ns ≡ greatest → AllByRecursion (λ n. n < 2 ^ result) ns }
    ensures spells { (ns : List ℕ) → greatest_of ns ≡ greatest → column result ns ≡ column_in (spelling_of form) ns }
{
    bits_holding(form, greatest)
}

/// How many bits the least width of a form for a number has.
fn bits_holding(form: u8, number: u32) -> u8
    ensures { result ≡ (spelling_of form).bits ((spelling_of form).least number) }
{
    if form == PACKED_FORM {
        width_of(number)
    } else {
        8 * Width::holding(u64::from(number)).bytes()
    }
}

/// How many bytes a column of so many numbers takes in a form, where this is the greatest. Takes no memory.
pub fn column_bytes(form: u8, count: u32, greatest: u32) -> u64
    ensures len { (ns : List ℕ) → length ns ≡ count → greatest_of ns ≡ greatest → result ≡ length (column_in (spelling_of form) ns) }
    ensures most { result < 2 ^ 35 }
{
    size_of_column(count, column_bits(form, greatest))
}
