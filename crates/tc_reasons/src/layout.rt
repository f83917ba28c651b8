//! What is said of a store that was made for another number of partitions.

use crate::listing::{file_path, head_at, missing_partition, names_at, partition_path};
use crate::settings::MOST_PARTITIONS;
use crate::shown::Plain;
use std::io::Error;
use std::path::PathBuf;

/// The partition that a file is of, and the one that was asked for.
#[derive(Clone, Copy)]
pub struct Layout {
    pub partition: u32,
    pub found: u32,
    pub found_of: u32,
    pub asked_of: u32,
}

/// Says how many partitions the store has, or which file is not where it belongs. Partitions with a lower number were opened
/// with the number that was asked for.
pub fn say_layout(
    rt: HostRuntime,
    folder: &str,
    layout: Layout,
    is_demo: bool,
) -> Result<(), Error> {
    let path = partition_path(rt.alloc(), folder, layout.partition)?;
    let is_layout = layout.found < layout.found_of && layout.found_of <= MOST_PARTITIONS;
    if is_layout && layout.partition == 0 && layout.found == 0 {
        let other = find_file(rt, path.as_str(), 0, layout.asked_of)?;
        if other.is_none() {
            return say_partitions(rt, folder, layout.found_of, is_demo);
        }
    }
    match find_file(rt, path.as_str(), layout.found, layout.found_of)? {
        Some(file) => say_stray(rt, folder, file.as_str(), layout, is_layout),
        None => Ok(()),
    }
}

fn say_partitions(rt: HostRuntime, folder: &str, count: u32, is_demo: bool) -> Result<(), Error> {
    let end = if count == 1 { "" } else { "s" };
    if let Some(missing) = missing_partition(rt, folder, count)? {
        let path = partition_path(rt.alloc(), folder, missing)?;
        let place = Plain(path.as_str());
        return eprintln!(rt;
            "this store has {count} partition{end}, and {place} is missing: bring it back, since --partitions {count} makes an empty one"
        );
    }
    if is_demo {
        return eprintln!(rt;
            "this store has {count} partition{end}, and demo takes 2: give it another folder"
        );
    }
    eprintln!(rt; "this store has {count} partition{end}: --partitions {count}")
}

// Says of which partition, or of which store, a file is.
fn say_stray(
    rt: HostRuntime,
    folder: &str,
    file: &str,
    layout: Layout,
    is_layout: bool,
) -> Result<(), Error> {
    let place = Plain(file);
    let found = layout.found;
    let count = layout.found_of;
    if !is_layout {
        return eprintln!(rt; "{place} is damaged: no store has a partition {found} of {count}");
    }
    if count != layout.asked_of {
        return eprintln!(rt; "{place} is of another store: of partition {found} of {count}");
    }
    let home = partition_path(rt.alloc(), folder, found)?;
    let home = Plain(home.as_str());
    eprintln!(rt; "{place} is of partition {found} of {count}: its place is {home}")
}

// The first open file of a folder whose header has these numbers.
fn find_file(
    rt: HostRuntime,
    path: &str,
    partition: u32,
    count: u32,
) -> Result<Option<PathBuf>, Error> {
    for name in names_at(rt, path)? {
        let file = file_path(rt.alloc(), path, name)?;
        if let Some(head) = head_at(rt, file.as_str()) {
            if head.partition == partition && head.count == count {
                return Ok(Some(file));
            }
        }
    }
    Ok(None)
}
