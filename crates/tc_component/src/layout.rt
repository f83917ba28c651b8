//! The places and the sizes in the bytes of a component.

/// The greatest key and the greatest generation.
pub(crate) const MAX_NUMBER: u64 = 0x7fff_ffff_ffff_ffff;

/// The least number of bytes of a record.
pub(crate) const LEAST_RECORD: u32 = 25;

/// Where the header begins, and how long it is.
pub(crate) const HEAD_PLACE: usize = 1;

pub(crate) const HEAD_LEN: usize = 60;

/// Where the records begin.
pub(crate) const RECORDS_PLACE: u64 = 61;

/// How many bytes a slot of the directory has.
pub(crate) const SLOT_LEN: usize = 12;

/// In memory, so many entries of a directory stand between two marks. The fewer, the shorter is the walk to where a record
/// begins; a mark has eight bytes.
pub(crate) const MARK_STEP: usize = 8;

/// Records are written in pieces of at least so many bytes, but for the last.
pub(crate) const PIECE_LEN: usize = 65_536;

/// A cursor reads so many bytes at once, or one record where that is longer.
pub(crate) const WINDOW_LEN: usize = 65_536;
