//! A column, written number by number.

ghost use Rattle.std.specs.Prelude.{◌≡◌, ◌≤◌, ◌<◌, ◌+◌, ◌-◌, ◌*◌, ◌/◌, ◌%◌, ◌^◌, ◌++◌, ◌∷◌, [], ℕ, List, OnOk};
ghost use Rattle.std.specs.Int.{bytes_high_first};
ghost use Rattle.std.specs.List.{AllByRecursion};
ghost use Rattle.tc_bits.specs.Bits.{column, written as bytes_written};

use std::alloc::AllocError;
use std::marker::Model;

/// A column that is written at the end of bytes, four of them at a time. Contracts see how many bits a number has, and the bits
/// that wait until they fill so many.
#[derive(Drop)]
pub struct ColumnWriter {
    width: u8,
    waiting: u64,
    bits: u8,
}

impl Model for ColumnWriter {
    ghost use Rattle.std.specs.Prelude.{◌≤◌, ◌<◌, ◌^◌};
    ghost use Rattle.tc_bits.specs.Bits.{Waiting};

    ghost Value = { Waiting };

    ghost view = { λ w. record { width = w.width; number = w.waiting; bits = w.bits } };

    ghost invariant = { λ w. (1 ≤ w.width) × (w.width ≤ 32) × (w.bits < 32) × (w.waiting < 2 ^ w.bits) };
}

impl ColumnWriter {
    /// A column of numbers of so many bits, of which none is written yet. Takes no memory.
    pub fn of(width: u8) -> ColumnWriter
        requires least { 1 ≤ width }
        requires most { width ≤ 32 }
        ensures width { result.width ≡ width }
        ensures nothing { (ns : List ℕ) → bytes_written result ns ≡ column width ns }
    {
        ColumnWriter {
            width,
            waiting: 0,
            bits: 0,
        }
    }

    /// Writes one number more. Errs only for want of memory.
    #[inline(always)]
    pub fn push(&mut self, number: u32, out: &mut Vec<u8>) -> Result<(), AllocError>
        requires fits { number < 2 ^ self.old.width }
        ensures width { self.new.width ≡ self.old.width }
        ensures written { OnOk result ((ns : List ℕ) → AllByRecursion (λ n. n < 2 ^ self.old.width) ns → out.new.items ++ bytes_written self.new ns ≡ out.old.items ++ bytes_written self.old (number ∷ ns)) }
    {
        let waiting = with_number(self.waiting, self.bits, self.width, number);
        let bits = self.bits + self.width;
        if bits < 32 {
            self.waiting = waiting;
            self.bits = bits;
            return Ok(());
        }
        put_four(waiting, bits - 32, out)?;
        self.waiting = lowest(waiting, bits - 32);
        self.bits = bits - 32;
        Ok(())
    }

    /// Writes the bits that wait, and zeros after them up to the end of a byte. Errs only for want of memory.
    pub fn end(self, out: &mut Vec<u8>) -> Result<(), AllocError>
        ensures { OnOk result (out.new.items ≡ out.old.items ++ bytes_written self []) }
    {
        let size = (self.bits + 7) / 8;
        put_low(filled(self.waiting, 8 * size - self.bits), size, out)?;
        Ok(())
    }
}

/// Fewer than 32 bits, as a number, with a number of so many bits after them.
#[inline(always)]
fn with_number(waiting: u64, bits: u8, width: u8, number: u32) -> u64
    requires few { bits < 32 }
    requires small { waiting < 2 ^ bits }
    requires most { width ≤ 32 }
    requires fits { number < 2 ^ width }
    ensures { result ≡ waiting * 2 ^ width + number }
{
    (waiting << width) + u64::from(number)
}

/// The lowest bits of a number.
#[inline(always)]
fn lowest(number: u64, bits: u8) -> u64
    requires { bits < 32 }
    ensures { result ≡ number % 2 ^ bits }
{
    number & ((1u64 << bits) - 1)
}

/// A number of 32 bits with zeros after it.
fn filled(number: u64, zeros: u8) -> u64
    requires few { zeros < 8 }
    requires small { number < 2 ^ 32 }
    ensures { result ≡ number * 2 ^ zeros }
{
    number << zeros
}

/// Appends the four bytes that stand above so many bits of a number. Errs only for want of memory.
#[inline(always)]
fn put_four(number: u64, below: u8, out: &mut Vec<u8>) -> Result<(), AllocError>
    requires few { below < 32 }
    requires small { number < 2 ^ (32 + below) }
    ensures { OnOk result (out.new.items ≡ out.old.items ++ bytes_high_first 4 (number / 2 ^ below)) }
{
    out.extend_from_slice(&((number >> below) as u32).to_be_bytes())?;
    Ok(())
}

/// Appends so many of the lowest bytes of a number, the highest of them first. Errs only for want of memory.
fn put_low(number: u64, count: u8, out: &mut Vec<u8>) -> Result<(), AllocError>
    requires { count ≤ 8 }
    ensures { OnOk result (out.new.items ≡ out.old.items ++ bytes_high_first count number) }
{
    let bytes = number.to_be_bytes();
    let (_, low) = bytes.split_at(8 - usize::from(count));
    out.extend_from_slice(low)?;
    Ok(())
}
