//! What is found in a directory.

/// An entry that is not gone, by its position in the directory.
#[derive(Clone, Copy, Debug, PartialEq, Eq)]
pub struct Place {
    pub at: usize,
}

/// What a component has of a key: no entry, one that is gone, or one with a record.
#[derive(Clone, Copy, Debug, PartialEq, Eq)]
pub enum Found {
    Absent,
    Gone,
    At(Place),
}

/// An entry of a directory. It has no place where it is gone.
#[derive(Clone, Copy, Debug, PartialEq, Eq)]
pub struct DirEntry {
    pub key: u64,
    pub place: Option<Place>,
}

/// An entry of a directory, and where its record lies in the file: from a place on, so many bytes, which are none where the
/// entry is gone.
#[derive(Clone, Copy, Debug, PartialEq, Eq)]
pub struct Span {
    pub key: u64,
    pub begin: u64,
    pub count: u32,
}
