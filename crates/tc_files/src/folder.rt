//! Folders of the system, made durable and held alone.

use crate::calls::{above_standard, uninterrupted};
use std::fs::File;
use std::io::ErrorKind;
use std::path::Path;
use std::{fs, io};

/// Makes the folder of a partition, the folder of the store that it stands in, and those above it, where they are missing, and
/// makes their names durable. Where the folder of the store was there, its own name is synced too.
pub(crate) fn make_folder(rt: &HostRuntime, store: &str, path: &str) -> io::Result<()> {
    match make_one(rt, path) {
        Err(error) if error.kind() == ErrorKind::NotFound => {
            for end in 1..path.len() {
                make_above(rt, path, end)?;
            }
            make_one(rt, path)
        }
        Err(error) => Err(error),
        Ok(()) => sync_name(rt, store),
    }
}

/// Where a slash stands at `end`, makes the folder that the path in front of it names.
fn make_above(rt: &HostRuntime, path: &str, end: usize) -> io::Result<()> {
    match path.split_at_checked(end) {
        Some((above, rest)) if rest.starts_with('/') => make_one(rt, above),
        _ => Ok(()),
    }
}

/// Makes a folder if it is missing, and its name durable.
fn make_one(rt: &HostRuntime, path: &str) -> io::Result<()> {
    match uninterrupted(&|| fs::create_dir(rt, path)) {
        Ok(()) => sync_above(rt, path),
        Err(_) if is_folder(rt, path) => sync_name(rt, path),
        Err(error) => Err(error),
    }
}

/// Makes the name of a folder durable that was there, as far as that can be done: whoever made it may have been stopped
/// before doing so. A folder above it that this program may not read, or that its system does not sync, is left alone.
fn sync_name(rt: &HostRuntime, path: &str) -> io::Result<()> {
    match sync_above(rt, path) {
        Err(error) if cannot_sync(error.kind()) => Ok(()),
        other => other,
    }
}

fn cannot_sync(kind: ErrorKind) -> bool {
    matches!(
        kind,
        ErrorKind::PermissionDenied | ErrorKind::ReadOnlyFilesystem | ErrorKind::InvalidInput
    )
}

fn is_folder(rt: &HostRuntime, path: &str) -> bool {
    match uninterrupted(&|| fs::metadata(rt, path)) {
        Ok(found) => found.is_dir(),
        Err(_) => false,
    }
}

/// Whether a partition has no folder: nothing has its path, in a folder of the store that is one, or nothing has the path of
/// that. A link that leads nowhere is something: what it leads to may come back.
pub(crate) fn is_missing(rt: &HostRuntime, store: &str, path: &str) -> bool {
    let first = if is_folder(rt, store) { path } else { store };
    match uninterrupted(&|| fs::symlink_metadata(rt, first)) {
        Ok(_) => false,
        Err(error) => error.kind() == ErrorKind::NotFound,
    }
}

/// Syncs the folder that the last name of a path stands in.
fn sync_above(rt: &HostRuntime, path: &str) -> io::Result<()> {
    match Path::new(path).parent() {
        Some(above) if above.as_str().is_empty() => File::open(rt, ".")?.sync_all(),
        Some(above) => File::open(rt, above)?.sync_all(),
        None => Ok(()),
    }
}

/// A folder, under a handle above the standard streams.
pub(crate) fn open_folder(rt: &HostRuntime, path: &str) -> io::Result<File> {
    above_standard(File::open(rt, path)?)
}

/// A folder that no other handle holds, with the names in it made durable. It is held until its last handle is gone, also
/// where the program is killed; there is no lock file.
pub(crate) fn hold_folder(rt: &HostRuntime, path: &str) -> io::Result<File> {
    let folder = open_folder(rt, path)?;
    folder.try_lock()?;
    folder.sync_all()?;
    Ok(folder)
}
