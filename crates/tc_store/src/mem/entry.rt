//! What a store in memory keeps under a name, and what its calls changed.

use crate::file_name::FileName;
use crate::mem::device::MemDevice;
use std::sync::Arc;
use tc_bytes::Bytes;

/// A file that a store in memory begins with, durable as it is.
#[derive(Drop, Debug)]
pub struct MemFile {
    pub name: FileName,
    pub bytes: Bytes,
}

/// What there is under a name.
#[derive(Drop)]
pub(crate) enum Held {
    /// No file. The removed one had these bytes.
    Gone(Arc<Vec<u8>>),
    Home(MemDevice),
    Still(Arc<Vec<u8>>),
    Out,
}

#[derive(Drop)]
pub(crate) struct Slot {
    pub(crate) name: FileName,
    pub(crate) held: Held,
}

/// What a call did to the file of a name.
#[derive(Drop)]
pub(crate) enum Act {
    /// A file at home was taken.
    Taken,
    /// A file was made, where a removed one had these bytes.
    Made(Option<Arc<Vec<u8>>>),
    /// A file that was out came back, at home or still.
    Returned,
    /// A still file was removed.
    Removed,
}

#[derive(Drop)]
pub(crate) struct Change {
    pub(crate) name: FileName,
    pub(crate) act: Act,
}
