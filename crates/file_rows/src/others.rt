//! Names of files, and calls of std on files and folders.

use std::alloc::Global;
use std::fs;
use std::os::unix::fs::symlink;
use tc_files::{file_text, name_in};
use tc_rows::word;

/// Which file is called so, and how that file is called.
pub(crate) fn called(alloc: Global, text: &str) -> Option<String> {
    match name_in(text) {
        Some(name) => {
            let text = file_text(alloc, name).ok()?;
            format!(in alloc; "{name:?} {}", text.as_str()).ok()
        }
        None => word(alloc, "none"),
    }
}

/// A file with this content: its path, a space, and the content.
pub(crate) fn put(rt: HostRuntime, argument: &str) -> Option<String> {
    let (path, content) = argument.split_once(' ')?;
    fs::write(&rt, path, content).ok()?;
    word(rt.alloc(), "ok")
}

/// A file of so many bytes, which repeat a text: its path, a space, their number, a space, and the text.
pub(crate) fn fill(rt: HostRuntime, argument: &str) -> Option<String> {
    let (path, rest) = argument.split_once(' ')?;
    let (count, text) = rest.split_once(' ')?;
    let bytes = text.as_bytes();
    if bytes.is_empty() {
        return None;
    }
    let mut content = Vec::new(rt.alloc());
    for at in 0..count.parse::<usize>().ok()? {
        content.push(bytes[at % bytes.len()]).ok()?;
    }
    fs::write(&rt, path, content.as_slice()).ok()?;
    word(rt.alloc(), "ok")
}

/// What a file holds.
pub(crate) fn show(rt: HostRuntime, path: &str) -> Option<String> {
    fs::read_to_string(&rt, path).ok()
}

/// A folder, and those above it.
pub(crate) fn folder(rt: HostRuntime, path: &str) -> Option<String> {
    fs::create_dir_all(&rt, path).ok()?;
    word(rt.alloc(), "ok")
}

/// A link: what it leads to, a space, and its path.
pub(crate) fn link(rt: HostRuntime, argument: &str) -> Option<String> {
    let (original, path) = argument.split_once(' ')?;
    symlink(&rt, original, path).ok()?;
    word(rt.alloc(), "ok")
}
