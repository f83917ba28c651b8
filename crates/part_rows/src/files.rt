//! The files that a stop leaves.

ghost use Rattle.tc_store.specs.Disk.{IsAtRest};
ghost use Rattle.tc_store.specs.Memory.Store.{store_disks};
ghost use Rattle.tc_store.specs.Moments.{IfTold};

use crate::faults::push_name;
use std::alloc::Global;
use std::fmt::Write;
use tc_rows::files_in;
use tc_store::{FileName, Kit, MemFile, MemStore, MemWatch, Watch};

// The generation behind those whose files are shown.
const END: u64 = 8;

/// Puts down how many calls of each watch failed, and how many were reads, and then the files that a stop leaves.
pub(crate) fn push_left(
    alloc: Global,
    text: &mut String,
    kit: Kit<MemStore>,
    choice: u64,
) -> Option<()> {
    let Kit {
        store,
        main,
        flusher,
        merger,
        ..
    } = kit;
    push_counts(text, "main", &main)?;
    push_counts(text, "flusher", &flusher)?;
    push_counts(text, "merger", &merger)?;
    push_files(alloc, text, store.stop(choice).ok()?)
}

/// Puts down how many files there are, and of those with low generations the names and the bytes: components by their generations,
/// and then logs.
pub(crate) fn push_files(alloc: Global, text: &mut String, store: MemStore) -> Option<()>
    requires at_rest { IfTold (store_disks store) IsAtRest }
{
    let files = files_in(alloc, store)?;
    write!(text, "files {}", files.len()).ok()?;
    for file in files.as_slice() {
        if is_low(file.name) {
            push_file(alloc, text, file)?;
        }
    }
    Some(())
}

fn push_counts(text: &mut String, name: &str, watch: &MemWatch) -> Option<()> {
    write!(text, "{name} {} {}, ", watch.faults(), watch.reads()).ok()
}

// Whether the last generation of a file is below the end of those that are shown.
fn is_low(name: FileName) -> bool {
    match name {
        FileName::Component { to, .. } => to < END,
        FileName::Log { generation } => generation < END,
    }
}

fn push_file(alloc: Global, text: &mut String, file: &MemFile) -> Option<()> {
    let digits = hex::encode(alloc, file.bytes.as_slice()).ok()?;
    write!(text, ",").ok()?;
    push_name(text, file.name)?;
    write!(text, " {}", digits.as_str()).ok()
}
