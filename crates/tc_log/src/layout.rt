//! The tags, the sizes and the limit of numbers in the bytes of a log.

/// The greatest key, and the greatest generation.
pub const MAX_NUMBER: u64 = 0x7fff_ffff_ffff_ffff;

/// An entry with a record.
pub(crate) const UPSERT: u8 = 1;

/// An entry without one.
pub(crate) const DELETE: u8 = 2;

/// A key and a tag.
pub(crate) const ENTRY_FRONT: usize = 9;

/// Where the header begins, and how long it is.
pub(crate) const HEAD_PLACE: usize = 1;

pub(crate) const HEAD_LEN: usize = 20;

/// Bytes at the front of a frame that tell of its body: the gate, the number of writes, the length of the body.
pub(crate) const LEADING: usize = 9;
