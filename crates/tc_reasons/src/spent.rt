//! What is said where a number or memory has run out.

use crate::listing::{file_path, names_at, partition_path};
use crate::misfit::has;
use crate::settings::MOST_PARTITIONS;
use crate::shown::Plain;
use std::io::Error;
use tc_store::FileName;

/// The last generation.
const LAST: u64 = 9_223_372_036_854_775_807;

/// Says what takes less memory. Takes none.
pub fn say_memory(rt: HostRuntime) -> Result<(), Error> {
    eprintln!(rt;
        "a smaller --memory or --window takes less memory; so does a store that is made with fewer --partitions"
    )?;
    eprintln!(rt;
        "the reply to a query or a collect is made in memory as a whole: ask for fewer documents at once"
    )
}

/// Says what has no number left: a partition with a file of the last generation, or else the input.
pub fn say_spent(rt: HostRuntime, folder: &str) -> Result<(), Error> {
    for partition in 0..MOST_PARTITIONS {
        let path = partition_path(rt.alloc(), folder, partition)?;
        if let Some(name) = find_last(rt, path.as_str()) {
            let file = file_path(rt.alloc(), path.as_str(), name)?;
            let place = Plain(file.as_str());
            return eprintln!(rt; "{place} has the last generation that there is");
        }
    }
    say_input_spent(rt)
}

// A file of the last generation, where a folder can be listed and has one.
fn find_last(rt: HostRuntime, path: &str) -> Option<FileName> {
    for name in names_at(rt, path).ok()? {
        if has(name, LAST) {
            return Some(name);
        }
    }
    None
}

/// Says that the input has no number left.
pub fn say_input_spent(rt: HostRuntime) -> Result<(), Error> {
    eprintln!(rt;
        "9,223,372,036,854,775,807 bytes were read: start again for what is left of the input"
    )
}
