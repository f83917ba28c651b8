//! The header of a log.

ghost use Rattle.std.specs.Prelude.{◌≡◌, [], ◌∷◌, ◌++◌, option_map};
ghost use Rattle.std.specs.Int.{w32, w64};
ghost use Rattle.tc_bytes.specs.Reading.{number_at, passing_at};
ghost use Rattle.tc_log.specs.Reading.{head_at, is_magic, is_generation};
ghost use Rattle.tc_log.specs.Spelling.{head_bytes};

use crate::layout::MAX_NUMBER;
use tc_bytes::{u32_at, u64_at};

const MAGIC: u32 = 0x5443_4c31;

/// Which log a file is: the number of its partition, how many partitions there are, and the generation, which is from
/// 1 to 2^63 - 1.
#[derive(Clone, Copy, Debug, PartialEq, Eq)]
pub struct LogHead {
    pub number: u32,
    pub count: u32,
    pub generation: u64,
}

/// A header from the front of the bytes.
pub(crate) fn head_in(bytes: &[u8]) -> Option<(LogHead, &[u8])>
    ensures { option_map (λ x. (x.0, x.1.now)) result ≡ head_at bytes.now }
{
    let (_, rest) = magic_in(bytes)?;
    let (number, rest) = u32_at(rest)?;
    let (count, rest) = u32_at(rest)?;
    let (generation, rest) = generation_in(rest)?;
    let head = LogHead {
        number,
        count,
        generation,
    };
    Some((head, rest))
}

fn magic_in(bytes: &[u8]) -> Option<(u32, &[u8])>
    ensures { option_map (λ x. (x.0, x.1.now)) result ≡ passing_at is_magic (number_at w32) bytes.now }
{
    let (magic, rest) = u32_at(bytes)?;
    if magic == MAGIC {
        Some((magic, rest))
    } else {
        None
    }
}

fn generation_in(bytes: &[u8]) -> Option<(u64, &[u8])>
    ensures { option_map (λ x. (x.0, x.1.now)) result ≡ passing_at is_generation (number_at w64) bytes.now }
{
    let (generation, rest) = u64_at(bytes)?;
    if generation > 0 && generation <= MAX_NUMBER {
        Some((generation, rest))
    } else {
        None
    }
}

/// The bytes of a header, and the closed gate behind it.
pub(crate) fn head_and_gate(head: LogHead) -> [u8; 21]
    ensures { result ≡ head_bytes head ++ 0 ∷ [] }
{
    let magic = MAGIC.to_be_bytes();
    let number = head.number.to_be_bytes();
    let count = head.count.to_be_bytes();
    let generation = head.generation.to_be_bytes();
    [
        magic[0],
        magic[1],
        magic[2],
        magic[3],
        number[0],
        number[1],
        number[2],
        number[3],
        count[0],
        count[1],
        count[2],
        count[3],
        generation[0],
        generation[1],
        generation[2],
        generation[3],
        generation[4],
        generation[5],
        generation[6],
        generation[7],
        0,
    ]
}
