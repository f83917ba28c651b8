//! What still files read.

use crate::answers::{digits, word};
use crate::stores::unfailing;
use std::alloc::Global;
use tc_store::{Frozen, MemFrozen, MemWatch, ReadFault, bytes_of, is_open, whole_of};

/// All bytes, by a watch that nobody sees, as an answer.
pub fn whole(alloc: Global, file: &MemFrozen) -> Option<String> {
    let bytes = whole_of(alloc, file, &mut unfailing(alloc)).ok()?;
    digits(alloc, &bytes)
}

/// Whether the gate is open, as an answer.
pub fn gate(alloc: Global, watch: &mut MemWatch, file: &MemFrozen) -> Option<String> {
    match is_open(file, watch) {
        Ok(is_open) => format!(in alloc; "{is_open}").ok(),
        Err(_) => word(alloc, "fault"),
    }
}

/// So many bytes from a place on, if the file has them: the place, a space, and how many.
pub fn part_of<F: Frozen>(
    alloc: Global,
    watch: &mut F::Watch,
    file: &F,
    argument: &str,
) -> Option<Result<Vec<u8>, ReadFault>> {
    let (at, count) = argument.split_once(' ')?;
    let (at, count) = (at.parse::<u32>().ok()?, count.parse::<u32>().ok()?);
    if u64::from(at) + u64::from(count) > file.len() {
        return None;
    }
    Some(bytes_of(alloc, file, u64::from(at), count as usize, watch))
}
