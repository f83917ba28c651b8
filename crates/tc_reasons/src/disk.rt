//! What is said of a call on the files of a partition that failed: where, and why.

use crate::listing::{
    file_path, is_folder, kind_of, names_at, other_at, partition_path, refusal_at,
};
use crate::shown::{Plain, Quoted};
use std::fs;
use std::io::{Error, ErrorKind};
use std::path::{Path, PathBuf};

/// Why a call on the files of a partition failed.
#[derive(Clone, Copy)]
pub enum DiskError {
    /// Its folder was not made, opened or held.
    Folder(Error),
    /// One of its files was not listed, opened, made, read, written, synced or removed.
    File(Error),
}

/// Says where a call failed, and why the system refused it.
pub fn say_disk(
    rt: HostRuntime,
    folder: &str,
    partition: u32,
    error: DiskError,
) -> Result<(), Error> {
    if folder.is_empty() {
        return eprintln!(rt; "FOLDER is an empty word");
    }
    let path = partition_path(rt.alloc(), folder, partition)?;
    match error {
        DiskError::Folder(error) => say_folder(rt, path.as_str(), error),
        DiskError::File(error) => say_file(rt, path.as_str(), error),
    }
}

// A lock is the only thing that a run would have to wait for.
fn say_folder(rt: HostRuntime, path: &str, error: Error) -> Result<(), Error> {
    if error.kind() == ErrorKind::WouldBlock {
        let held = Plain(path);
        eprintln!(rt; "{held}: another program holds it")?;
        return say_who_holds(rt, path);
    }
    if !is_of_a_folder(error.kind()) {
        let place = Plain(path);
        return eprintln!(rt; "{place}: {error}");
    }
    let nearest = nearest_to(rt, path);
    let place = Plain(nearest);
    match fs::symlink_metadata(&rt, nearest) {
        Ok(found) if !is_folder(rt, nearest) => {
            let kind = kind_of(&found);
            eprintln!(rt; "{place} is {kind}, where a folder has to be: {error}")
        }
        _ => eprintln!(rt; "{place}: {error}"),
    }
}

// Says which command shows who holds a folder. One with a control character would not stand on one line, and is left out. A
// path that begins with a dash would be an option.
fn say_who_holds(rt: HostRuntime, path: &str) -> Result<(), Error> {
    if !path.chars().all(|letter| !letter.is_control()) {
        return Ok(());
    }
    let here = if path.starts_with('-') { "./" } else { "" };
    let quoted = Quoted(path);
    eprintln!(rt; "to see which one: fuser -v {here}{quoted}")
}

// Whether the system refuses by this what is asked of the last folder on a path that is there.
fn is_of_a_folder(kind: ErrorKind) -> bool {
    matches!(
        kind,
        ErrorKind::PermissionDenied
            | ErrorKind::ReadOnlyFilesystem
            | ErrorKind::NotADirectory
            | ErrorKind::AlreadyExists
    )
}

// The last of the folders on a path that is there; the one that the program runs in is above each path without a root.
fn nearest_to<'a>(rt: HostRuntime, path: &'a str) -> &'a str {
    for above in Path::new(path).ancestors() {
        if fs::symlink_metadata(&rt, above).is_ok() {
            return above.as_str();
        }
    }
    "."
}

fn say_file(rt: HostRuntime, path: &str, error: Error) -> Result<(), Error> {
    if error.kind() == ErrorKind::Unsupported && say_others(rt, path)? {
        return Ok(());
    }
    if error.kind() == ErrorKind::PermissionDenied {
        if let Some(refused) = find_refused(rt, path, error)? {
            let place = Plain(refused.as_str());
            return eprintln!(rt; "{place}: {error}");
        }
    }
    let place = Plain(path);
    eprintln!(rt; "{place}: {error}")
}

// Says what stands in place of files, and whether anything does.
fn say_others(rt: HostRuntime, path: &str) -> Result<bool, Error> {
    let mut has_said = false;
    for name in names_at(rt, path)? {
        let file = file_path(rt.alloc(), path, name)?;
        if let Some(kind) = other_at(rt, file.as_str()) {
            let place = Plain(file.as_str());
            eprintln!(rt; "{place} is {kind}, where a file has to be")?;
            has_said = true;
        }
    }
    Ok(has_said)
}

// The first file that is refused as this error says.
fn find_refused(rt: HostRuntime, path: &str, error: Error) -> Result<Option<PathBuf>, Error> {
    for name in names_at(rt, path)? {
        let file = file_path(rt.alloc(), path, name)?;
        if let Some(refusal) = refusal_at(rt, file.as_str()) {
            if refusal.raw_os_error() == error.raw_os_error() {
                return Ok(Some(file));
            }
        }
    }
    Ok(None)
}
