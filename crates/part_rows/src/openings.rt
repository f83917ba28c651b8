//! Rows of how a partition is opened, over the files that a row gives it.

ghost use Rattle.tc_store.specs.Disk.{IsAtRest};
ghost use Rattle.tc_store.specs.Memory.Store.{store_disks};
ghost use Rattle.tc_store.specs.Moments.{IfTold};

use crate::MEMORY;
use crate::faults::{damage_text, push_name};
use crate::files::push_files;
use std::alloc::Global;
use std::fmt::Write;
use tc_bytes::Bytes;
use tc_open::{OpenCause, open_part};
use tc_part::Limits;
use tc_rows::{bytes, kit_over, numbers, unfailing, word};
use tc_store::{FileName, Kit, MemFile, MemStore, MemWatch, Store};

// What no opening here comes near.
const LIMITS: Limits = Limits {
    names: 100,
    docs: 100,
    memory: MEMORY,
};

// An opening here makes fewer calls on files than this.
const MOST_CALLS: u64 = 100;

/// How a partition is opened: its number, how many there are, and which calls fail; then its files, a `; ` before each.
pub(crate) fn answer_of(alloc: Global, row: &str) -> Option<String> {
    let (heading, files) = split_files(row);
    let numbers = numbers(alloc, heading)?;
    let [number, count, failing @ ..] = numbers.as_slice() else {
        return None;
    };
    let number = u32::try_from(*number).ok()?;
    let count = u32::try_from(*count).ok()?;
    let files = files_of(alloc, files)?;
    let failing = Vec::from_slice(alloc, failing).ok()?;
    match open_part(alloc, kit_of(alloc, files, failing), number, count, LIMITS) {
        Ok(part) => {
            let mut text = String::new(alloc);
            write!(text, "listed {}, log {}", part.listed(), part.log_len()).ok()?;
            push_left(alloc, &mut text, part.close())?;
            Some(text)
        }
        Err(fault) => {
            let mut text = cause_text(alloc, fault.cause)?;
            push_left(alloc, &mut text, fault.kit)?;
            Some(text)
        }
    }
}

/// How many calls on files the opening of partition 0 of 1 makes, each of which is a fault where it fails; then its files, a
/// `; ` before each. None where a call that fails is no fault, and a later one is.
pub(crate) fn calls_of(alloc: Global, row: &str) -> Option<String> {
    let (_heading, files) = split_files(row);
    let mut calls = 0u64;
    for number in 0..MOST_CALLS {
        if is_fault(alloc, files, number)? {
            if calls != number {
                return None;
            }
            calls = number + 1;
        }
    }
    let mut text = word(alloc, "calls")?;
    write!(text, " {calls}").ok()?;
    Some(text)
}

// Whether opening answers a fault of the disk where the call of this number fails.
fn is_fault(alloc: Global, files: &str, number: u64) -> Option<bool> {
    let files = files_of(alloc, files)?;
    let mut failing = Vec::new(alloc);
    failing.push(number).ok()?;
    match open_part(alloc, kit_of(alloc, files, failing), 0, 1, LIMITS) {
        Ok(_part) => Some(false),
        Err(fault) => Some(is_disk(fault.cause)),
    }
}

fn is_disk(cause: OpenCause) -> bool {
    match cause {
        OpenCause::Disk => true,
        _other => false,
    }
}

fn kit_of(alloc: Global, files: Vec<MemFile>, failing: Vec<u64>) -> Kit<MemStore>
    ensures { IfTold (store_disks result.store) IsAtRest }
{
    let mut kit = kit_over(alloc, MemStore::with(files));
    kit.main = MemWatch::new(failing);
    kit
}

// What stands before the files of a row, and the files.
fn split_files(row: &str) -> (&str, &str) {
    row.split_once("; ").unwrap_or((row, ""))
}

// The files of a text, between two of them a `; `.
fn files_of(alloc: Global, text: &str) -> Option<Vec<MemFile>> {
    let mut files = Vec::new(alloc);
    if !text.is_empty() {
        for file in text.split("; ") {
            files.push(file_of(alloc, file)?).ok()?;
        }
    }
    Some(files)
}

// A file: its name, and its bytes, or `-` where it has none.
fn file_of(alloc: Global, text: &str) -> Option<MemFile> {
    let (name, digits) = text.rsplit_once(' ')?;
    let (kind, generations) = name.split_once(' ')?;
    let generations = numbers(alloc, generations)?;
    let digits = if digits == "-" { "" } else { digits };
    Some(MemFile {
        name: name_of(kind, generations.as_slice())?,
        bytes: Bytes::of(bytes(alloc, digits)?),
    })
}

fn name_of(kind: &str, generations: &[u64]) -> Option<FileName> {
    match generations {
        [generation] if kind == "log" => Some(FileName::Log {
            generation: *generation,
        }),
        [from, to] if kind == "component" => Some(FileName::Component {
            from: *from,
            to: *to,
        }),
        _other => None,
    }
}

// Why a partition is not opened. Want of memory is no answer.
fn cause_text(alloc: Global, cause: OpenCause) -> Option<String> {
    match cause {
        OpenCause::Disk => word(alloc, "fault"),
        OpenCause::Damaged(damage) => damage_text(alloc, damage),
        OpenCause::Spent => word(alloc, "spent"),
        OpenCause::Memory => None,
        OpenCause::Layout { found, found_of } => {
            let mut text = word(alloc, "of")?;
            write!(text, " {found} {found_of}").ok()?;
            Some(text)
        }
    }
}

// Puts down the names of the files that are left, the components first, and of those with low generations the bytes.
fn push_left(alloc: Global, text: &mut String, kit: Kit<MemStore>) -> Option<()> {
    let Kit { store, .. } = kit;
    let mut store = store;
    let mut names = store.names(alloc, &mut unfailing(alloc)).ok()?;
    names.sort().ok()?;
    write!(text, "; left").ok()?;
    for name in names {
        push_name(text, name)?;
    }
    write!(text, "; ").ok()?;
    push_files(alloc, text, store.stop(0).ok()?)
}
