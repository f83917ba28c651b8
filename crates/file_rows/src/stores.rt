//! Calls on a store.

use crate::desk::Hand;
use crate::faults::fault;
use std::alloc::Global;
use std::fmt::Write;
use tc_files::{FileStore, file_text, name_in};
use tc_rows::word;
use tc_store::{FileName, Kit, Store};

/// What a call answers, with nothing in hand.
pub(crate) fn answer_of(
    alloc: Global,
    kit: &mut Kit<FileStore>,
    hand: &mut Hand,
    name: &str,
    argument: &str,
) -> Option<String> {
    match (name, name_in(argument)) {
        ("names", _) => names(alloc, kit),
        ("fresh", Some(file)) => fresh(alloc, kit, hand, file),
        ("take", Some(file)) => take(alloc, kit, hand, file),
        _ => None,
    }
}

// The names of the files, in the order of names.
fn names(alloc: Global, kit: &mut Kit<FileStore>) -> Option<String> {
    match kit.store.names(alloc, &mut kit.main) {
        Ok(names) => sorted(alloc, names),
        Err(_) => fault(alloc, kit.main.last_error()),
    }
}

fn sorted(alloc: Global, names: Vec<FileName>) -> Option<String> {
    let mut names = names;
    match names.sort() {
        Ok(()) => shown(alloc, &names),
        Err(_) => None,
    }
}

fn shown(alloc: Global, names: &[FileName]) -> Option<String> {
    let mut text = word(alloc, "names")?;
    for name in names {
        let name = file_text(alloc, *name).ok()?;
        write!(text, " {}", name.as_str()).ok()?;
    }
    Some(text)
}

fn fresh(
    alloc: Global,
    kit: &mut Kit<FileStore>,
    hand: &mut Hand,
    name: FileName,
) -> Option<String> {
    match kit.store.fresh(alloc, name, &mut kit.main) {
        Ok(device) => {
            *hand = Hand::Device(device);
            word(alloc, "ok")
        }
        Err(_) => fault(alloc, kit.main.last_error()),
    }
}

fn take(
    alloc: Global,
    kit: &mut Kit<FileStore>,
    hand: &mut Hand,
    name: FileName,
) -> Option<String> {
    match kit.store.take(alloc, name, &mut kit.main) {
        Ok(file) => {
            *hand = Hand::Still(file);
            word(alloc, "ok")
        }
        Err(_) => fault(alloc, kit.main.last_error()),
    }
}
