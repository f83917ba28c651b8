//! A file of a partition that was taken.

use tc_store::{FileName, Frozen};

/// The only handle of a file, with the name of the file, and whether its gate is open.
#[derive(Drop)]
pub struct Taken<F: Frozen> {
    pub name: FileName,
    pub file: F,
    pub open: bool,
}
