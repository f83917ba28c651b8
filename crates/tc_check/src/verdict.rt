//! What an audit says of the files of a partition.

use tc_difference::Found;
use tc_store::{Damage, FileName};

/// The files of a partition are lawful, and so many documents are stored in them, or this is the first thing that is wrong.
#[derive(Drop, Debug)]
pub enum Verdict {
    Right { documents: u64 },
    Wrong(Reason),
}

/// What is wrong with the files of a partition.
#[derive(Drop, Debug)]
pub enum Reason {
    /// Bytes of a file, or open files that do not go together.
    Damaged(Damage),
    /// A file of another partition, or of another number of them.
    Layout { found: u32, found_of: u32 },
    /// The schema of a component shows other numbers than the documents that are live with it have.
    Count { file: FileName, first: Found },
    /// There is more of something than there is room for. The number is the first over the bound, or the length of a record.
    TooMuch { what: Over, number: u64 },
}

/// What there may be too much of.
#[derive(Clone, Copy, Debug, PartialEq, Eq)]
pub enum Over {
    Documents,
    Names,
    RecordBytes,
}
