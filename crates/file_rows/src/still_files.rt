//! Calls on a still file that is in hand.

use crate::desk::Hand;
use crate::faults::{done, fault};
use std::alloc::Global;
use std::str;
use tc_files::{FileFrozen, FileStore, FileWatch};
use tc_rows::{number, part_of, word};
use tc_store::{Frozen, Kit, Store};

/// What a call answers.
pub(crate) fn answer_of(
    alloc: Global,
    kit: &mut Kit<FileStore>,
    hand: &mut Hand,
    file: FileFrozen,
    name: &str,
    argument: &str,
) -> Option<String> {
    match name {
        "remove" => {
            let called = kit.store.remove(file, &mut kit.main);
            done(alloc, &kit.main, called)
        }
        "drop" => word(alloc, "ok"),
        _ => {
            let answer = reading(alloc, &mut kit.main, &file, name, argument);
            *hand = Hand::Still(file);
            answer
        }
    }
}

fn reading(
    alloc: Global,
    watch: &mut FileWatch,
    file: &FileFrozen,
    name: &str,
    argument: &str,
) -> Option<String> {
    match name {
        "len" => number(alloc, file.len()),
        "read" => read(alloc, watch, file, argument),
        _ => None,
    }
}

// So many bytes from a place on, as text.
fn read(alloc: Global, watch: &mut FileWatch, file: &FileFrozen, argument: &str) -> Option<String> {
    match part_of(alloc, watch, file, argument)? {
        Ok(bytes) => text(alloc, &bytes),
        Err(_) => fault(alloc, watch.last_error()),
    }
}

fn text(alloc: Global, bytes: &[u8]) -> Option<String> {
    word(alloc, str::from_utf8(bytes).ok()?)
}
