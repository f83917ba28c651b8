//! Files of the system, opened to be read and made to be written.

use crate::calls::{above_standard, uninterrupted};
use std::fs::{File, OpenOptions};
use std::io::ErrorKind;
use std::{fs, io};

/// A regular file, to be read, with what it holds made durable: whoever wrote it may have been stopped before a sync.
/// What is no regular file is not even opened, since the opening of a pipe waits.
pub(crate) fn open_still(rt: &HostRuntime, path: &str) -> io::Result<File> {
    if !uninterrupted(&|| fs::symlink_metadata(rt, path))?.is_file() {
        return Err(ErrorKind::Unsupported.into());
    }
    let file = above_standard(File::open(rt, path)?)?;
    file.sync_all()?;
    Ok(file)
}

/// A file that was not there, to be written and read.
pub(crate) fn make_file(rt: &HostRuntime, path: &str) -> io::Result<File> {
    let file = OpenOptions::new()
        .read(true)
        .write(true)
        .create_new(true)
        .open(rt, path)?;
    above_standard(file)
}
