//! How many bytes a number of a column takes.

ghost use Rattle.std.specs.Prelude.{◌≡◌, ◌++◌, OnOk};
ghost use Rattle.std.specs.Int.{bytes_high_first};
ghost use Rattle.tc_record.specs.Record.{width_of};
ghost use Rattle.tc_record.specs.Widths.{width_bytes};

use std::alloc::AllocError;

/// The bytes of each number of a column: none where the column is empty.
#[derive(Clone, Copy)]
pub enum Width {
    Zero,
    One,
    Two,
    Four,
}

impl Width {
    /// The least of 1, 2 and 4 bytes that holds a number of 32 bits.
    pub fn holding(number: u64) -> Width
        ensures { width_bytes result ≡ width_of number }
    {
        if number < 256 {
            Width::One
        } else if number < 65536 {
            Width::Two
        } else {
            Width::Four
        }
    }

    /// How many bytes a number of the column takes.
    pub fn bytes(self) -> u8
        ensures { result ≡ width_bytes self }
    {
        match self {
            Width::Zero => 0,
            Width::One => 1,
            Width::Two => 2,
            Width::Four => 4,
        }
    }
}

/// Appends the lowest bytes of a number, the highest of them first.
// Mostly one byte, which takes fewer instructions than a call.
#[inline(always)]
pub fn put_number(width: Width, number: usize, out: &mut Vec<u8>) -> Result<(), AllocError>
    ensures { OnOk result (out.new.items ≡ out.old.items ++ bytes_high_first (width_bytes width) number) }
{
    let bytes = number.to_be_bytes();
    match width {
        Width::Zero => Ok(()),
        Width::One => Ok(out.push(bytes[7])?),
        Width::Two => out.extend_from_slice(&bytes[6..]),
        Width::Four => out.extend_from_slice(&bytes[4..]),
    }
}
