//! Calls on a still file that is in hand.

use crate::components::shown;
use crate::desk::{Desk, Hand};
use crate::faults::read_fault;
use std::alloc::Global;
use tc_component::{Component, read_head};
use tc_rows::{digits, gate, part_of, whole, word};
use tc_store::{FileName, MemFrozen, MemWatch, ReadFault};

/// What a call answers.
pub(crate) fn answer_of(
    alloc: Global,
    desk: &mut Desk,
    file: MemFrozen,
    name: &str,
    argument: &str,
) -> Option<String> {
    if name == "load" {
        return load(alloc, desk, file, file_name(argument));
    }
    if name == "judge" {
        return judge(alloc, desk, file, file_name(argument));
    }
    let answer = asked(alloc, &mut desk.reader, &file, name, argument);
    desk.hold(Hand::Still(file));
    answer
}

fn asked(
    alloc: Global,
    watch: &mut MemWatch,
    file: &MemFrozen,
    name: &str,
    argument: &str,
) -> Option<String> {
    match name {
        "head" => head(alloc, watch, file, file_name(argument)?),
        "gate" => gate(alloc, watch, file),
        "read" => read(alloc, watch, file, argument),
        "show" => whole(alloc, file),
        _ => None,
    }
}

// The name of a component of these two generations, or of a log of this one.
fn file_name(argument: &str) -> Option<FileName> {
    match argument.split_once(' ') {
        Some((from, to)) => Some(FileName::Component {
            from: from.parse::<u64>().ok()?,
            to: to.parse::<u64>().ok()?,
        }),
        None => Some(FileName::Log {
            generation: argument.parse::<u64>().ok()?,
        }),
    }
}

fn load(alloc: Global, desk: &mut Desk, file: MemFrozen, name: Option<FileName>) -> Option<String> {
    match Component::load(alloc, file, name?, &mut desk.reader) {
        Ok(component) => {
            let answer = shown(alloc, &component);
            desk.hold(Hand::Loaded(component));
            answer
        }
        Err(fault) => read_fault(alloc, fault),
    }
}

// The same, where a damaged section is too long to be shown: its place, and how many bytes it has.
fn judge(
    alloc: Global,
    desk: &mut Desk,
    file: MemFrozen,
    name: Option<FileName>,
) -> Option<String> {
    match Component::load(alloc, file, name?, &mut desk.reader) {
        Ok(component) => {
            desk.hold(Hand::Loaded(component));
            word(alloc, "ok")
        }
        Err(ReadFault::Damaged { place, bytes }) => {
            format!(in alloc; "damaged {place}, {} bytes", bytes.as_slice().len()).ok()
        }
        Err(fault) => read_fault(alloc, fault),
    }
}

fn head(alloc: Global, watch: &mut MemWatch, file: &MemFrozen, name: FileName) -> Option<String> {
    match read_head(alloc, file, name, watch) {
        Ok(head) => format!(in alloc; "{head:?}").ok(),
        Err(fault) => read_fault(alloc, fault),
    }
}

// So many bytes from a place on.
fn read(alloc: Global, watch: &mut MemWatch, file: &MemFrozen, argument: &str) -> Option<String> {
    match part_of(alloc, watch, file, argument)? {
        Ok(bytes) => digits(alloc, &bytes),
        Err(fault) => read_fault(alloc, fault),
    }
}
