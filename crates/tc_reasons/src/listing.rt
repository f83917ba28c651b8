//! The folders and files of a store, looked at from outside.

use std::alloc::{AllocError, Global};
use std::fs::{File, Metadata};
use std::io::{Error, ErrorKind};
use std::os::unix::fs::{FileExt, FileTypeExt};
use std::path::{Path, PathBuf};
use std::{fs, io};
use tc_files::{file_text, name_in};
use tc_store::FileName;

/// Where the files of a partition stand.
pub(crate) fn partition_path(
    alloc: Global,
    folder: &str,
    partition: u32,
) -> Result<PathBuf, AllocError> {
    Path::new(folder).join(alloc, format!(in alloc; "p{partition}")?)
}

/// Where a file of a partition stands.
pub(crate) fn file_path(alloc: Global, path: &str, name: FileName) -> Result<PathBuf, AllocError> {
    Path::new(path).join(alloc, file_text(alloc, name)?)
}

/// The first partition of so many whose folder is not there.
pub(crate) fn missing_partition(
    rt: HostRuntime,
    folder: &str,
    count: u32,
) -> Result<Option<u32>, AllocError> {
    for partition in 0..count {
        let path = partition_path(rt.alloc(), folder, partition)?;
        if !is_folder(rt, path.as_str()) {
            return Ok(Some(partition));
        }
    }
    Ok(None)
}

/// Whether a folder is there.
pub(crate) fn is_folder(rt: HostRuntime, path: &str) -> bool {
    match fs::metadata(&rt, path) {
        Ok(found) => found.is_dir(),
        Err(_) => false,
    }
}

/// The names of what is called as a file of a store, in order: components by their first and then by their last generation,
/// then logs.
pub(crate) fn names_at(rt: HostRuntime, path: &str) -> io::Result<Vec<FileName>> {
    let mut names = Vec::new(rt.alloc());
    for entry in fs::read_dir(&rt, path)? {
        match entry {
            Ok(entry) => {
                if let Some(name) = name_in(entry.file_name()) {
                    names.push(name)?;
                }
            }
            // A name that is no text is the name of another file.
            Err(error) if error.kind() == ErrorKind::InvalidFilename => {}
            Err(error) => return Err(error),
        }
    }
    names.sort()?;
    Ok(names)
}

/// What is at a path in place of a regular file; no link is followed.
pub(crate) fn other_at(rt: HostRuntime, path: &str) -> Option<&'static str> {
    match fs::symlink_metadata(&rt, path) {
        Ok(found) if found.is_file() => None,
        Ok(found) => Some(kind_of(&found)),
        Err(_) => None,
    }
}

/// What kind of thing was found.
pub(crate) fn kind_of(found: &Metadata) -> &'static str {
    let kind = found.file_type();
    if kind.is_file() {
        "a file"
    } else if kind.is_dir() {
        "a folder"
    } else if kind.is_symlink() {
        "a link"
    } else if kind.is_fifo() {
        "a pipe"
    } else if kind.is_socket() {
        "a socket"
    } else {
        "a device"
    }
}

/// What the header of an open file says.
#[derive(Clone, Copy)]
pub(crate) struct Head {
    pub(crate) partition: u32,
    pub(crate) count: u32,
}

/// The numbers in the header of a file; none where the file is not open, is too short, or cannot be read.
pub(crate) fn head_at(rt: HostRuntime, path: &str) -> Option<Head> {
    let bytes = first_bytes(rt, path).ok()?;
    match bytes {
        [1, _, _, _, _, a, b, c, d, e, f, g, h] => Some(Head {
            partition: u32::from_be_bytes([a, b, c, d]),
            count: u32::from_be_bytes([e, f, g, h]),
        }),
        _ => None,
    }
}

// What is no regular file is not even opened, since the opening of a pipe waits.
fn first_bytes(rt: HostRuntime, path: &str) -> io::Result<[u8; 13]> {
    if !fs::symlink_metadata(&rt, path)?.is_file() {
        return Err(ErrorKind::Unsupported.into());
    }
    let mut bytes = [0; 13];
    File::open(&rt, path)?.read_exact_at(&mut bytes, 0)?;
    Ok(bytes)
}

/// Why a file cannot be opened to be read; nothing where it can, or is no regular file.
pub(crate) fn refusal_at(rt: HostRuntime, path: &str) -> Option<Error> {
    if other_at(rt, path).is_some() {
        return None;
    }
    match File::open(&rt, path) {
        Ok(_) => None,
        Err(error) => Some(error),
    }
}
