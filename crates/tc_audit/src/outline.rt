//! A hash of what the records of documents of one shape have in common.

use tc_alike::numbers_of;
use tc_record::RecordRef;

/// An odd number whose bits are spread.
const FACTOR: u64 = 0x9e37_79b9_7f4a_7c15;

/// A hash of the tags and the numbers of a record. Takes no memory.
pub(crate) fn hash_of(of: &RecordRef<'_>) -> u64 {
    mixed(mixed(0, of.tags()), numbers_of(of))
}

/// A hash with bytes behind what was hashed before: eight at a time, and the last eight as they stand at the end.
#[inline(always)]
fn mixed(before: u64, bytes: &[u8]) -> u64 {
    let mut hash = before;
    let mut left = bytes;
    while left.len() > 8 {
        let (front, rest) = left.split_at(8);
        hash = with_word(hash, word_of(front));
        left = rest;
    }
    let last = &bytes[bytes.len() - bytes.len().min(8)..];
    with_word(hash, word_of(last))
}

/// A word of the first eight bytes, or of all where they are fewer, some of which stand in it twice.
#[inline(always)]
fn word_of(bytes: &[u8]) -> u64 {
    let len = bytes.len();
    if len >= 8 {
        return u64::from_le_bytes([
            bytes[0], bytes[1], bytes[2], bytes[3], bytes[4], bytes[5], bytes[6], bytes[7],
        ]);
    }
    if len >= 4 {
        let front = u32::from_le_bytes([bytes[0], bytes[1], bytes[2], bytes[3]]);
        let back = u32::from_le_bytes([
            bytes[len - 4],
            bytes[len - 3],
            bytes[len - 2],
            bytes[len - 1],
        ]);
        return (u64::from(front) << 32) | u64::from(back);
    }
    if len == 0 {
        return 0;
    }
    u64::from(bytes[0]) | (u64::from(bytes[len / 2]) << 8) | (u64::from(bytes[len - 1]) << 16)
}

#[inline(always)]
fn with_word(hash: u64, word: u64) -> u64 {
    let mixed = (hash ^ word).wrapping_mul(FACTOR);
    mixed ^ (mixed >> 29)
}
