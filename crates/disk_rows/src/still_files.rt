//! Calls on a still file that is in hand.

ghost use Rattle.std.specs.Prelude.{◌≡◌, true, IfSome};
ghost use Rattle.tc_store.specs.Gate.{is_open_file};
ghost use Rattle.tc_store.specs.Memory.Frozen.{frozen_content};

use crate::desk::{Desk, Hand};
use std::alloc::Global;
use std::fmt::Write as _;
use tc_log::{LogRead, Write, read_frames, read_log_head};
use tc_rows::{digits, gate, number, part_of, store_fault, whole, word};
use tc_store::{Frozen, MemFrozen, MemWatch, ReadFault, Store, is_open};

/// What a call answers.
pub(crate) fn answer_of(
    alloc: Global,
    desk: &mut Desk,
    file: MemFrozen,
    name: &str,
    argument: &str,
) -> Option<String> {
    match name {
        "remove" => remove(alloc, desk, file),
        "drop" => word(alloc, "ok"),
        _ => {
            let answer = reading(alloc, &mut desk.watch, &file, name, argument);
            desk.hold(Hand::Still(file));
            answer
        }
    }
}

fn remove(alloc: Global, desk: &mut Desk, file: MemFrozen) -> Option<String> {
    match desk.store.remove(file, &mut desk.watch) {
        Ok(()) => word(alloc, "ok"),
        Err(fault) => store_fault(alloc, fault),
    }
}

fn reading(
    alloc: Global,
    watch: &mut MemWatch,
    file: &MemFrozen,
    name: &str,
    argument: &str,
) -> Option<String> {
    match name {
        "len" => number(alloc, file.len()),
        "show" => whole(alloc, file),
        "read" => read(alloc, watch, file, argument),
        "is_open" => gate(alloc, watch, file),
        "head" => head(alloc, watch, file, argument),
        "frames" => frames(alloc, watch, file),
        _ => None,
    }
}

// So many bytes from a place on.
fn read(alloc: Global, watch: &mut MemWatch, file: &MemFrozen, argument: &str) -> Option<String> {
    match part_of(alloc, watch, file, argument)? {
        Ok(bytes) => digits(alloc, &bytes),
        Err(fault) => read_fault(alloc, fault),
    }
}

// The header of a log of this generation.
fn head(alloc: Global, watch: &mut MemWatch, file: &MemFrozen, argument: &str) -> Option<String> {
    let generation = argument.parse::<u64>().ok()?;
    match read_log_head(alloc, file, generation, watch) {
        Ok(head) => format!(in alloc; "{head:?}").ok(),
        Err(fault) => read_fault(alloc, fault),
    }
}

// The gate, and the header and the writes of a log whose gate is open.
fn frames(alloc: Global, watch: &mut MemWatch, file: &MemFrozen) -> Option<String> {
    match is_open(file, watch) {
        Ok(true) => opened(alloc, watch, file),
        Ok(false) => word(alloc, "closed"),
        Err(_) => word(alloc, "fault"),
    }
}

fn opened(alloc: Global, watch: &mut MemWatch, file: &MemFrozen) -> Option<String>
    requires { IfSome (frozen_content file.now) (λ bytes. is_open_file bytes ≡ true) }
{
    match read_frames(alloc, file, watch) {
        Ok(read) => shown(alloc, &read),
        Err(fault) => read_fault(alloc, fault),
    }
}

fn shown(alloc: Global, read: &LogRead) -> Option<String> {
    let mut text = format!(in alloc; "{:?}", read.head).ok()?;
    for write in read.writes.as_slice() {
        push_write(alloc, &mut text, write)?;
    }
    Some(text)
}

fn push_write(alloc: Global, text: &mut String, write: &Write) -> Option<()> {
    match write {
        Write::Upsert { key, bytes } => push_upsert(alloc, text, *key, bytes.as_slice()),
        Write::Delete { key } => write!(text, ", delete {key}").ok(),
    }
}

fn push_upsert(alloc: Global, text: &mut String, key: u64, record: &[u8]) -> Option<()> {
    let digits = digits(alloc, record)?;
    write!(text, ", put {key} {}", digits.as_str()).ok()
}

fn read_fault(alloc: Global, fault: ReadFault) -> Option<String> {
    match fault {
        ReadFault::Disk => word(alloc, "fault"),
        ReadFault::Damaged { place, bytes } => damage(alloc, place, bytes.as_slice()),
        ReadFault::Memory => None,
    }
}

fn damage(alloc: Global, place: u64, bytes: &[u8]) -> Option<String> {
    let digits = digits(alloc, bytes)?;
    format!(in alloc; "damaged at {place}: {}", digits.as_str()).ok()
}
