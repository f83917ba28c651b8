//! Calls on a file behind its closed gate.

use crate::desk::{Desk, Hand};
use std::alloc::Global;
use tc_rows::{device_answer, word};
use tc_store::{Gated, MemDevice};

/// What a call answers.
pub(crate) fn answer_of(
    alloc: Global,
    desk: &mut Desk,
    gated: Gated<MemDevice>,
    name: &str,
) -> Option<String> {
    match name {
        "open" => open(alloc, desk, gated),
        "back" => back(alloc, desk, gated),
        _ => None,
    }
}

fn open(alloc: Global, desk: &mut Desk, gated: Gated<MemDevice>) -> Option<String> {
    match gated.open_gate(&mut desk.watch) {
        Ok(device) => {
            desk.hold(Hand::Device(device));
            word(alloc, "ok")
        }
        Err(broken) => {
            desk.hold(Hand::Device(broken.device));
            device_answer(alloc, Err(broken.cause))
        }
    }
}

fn back(alloc: Global, desk: &mut Desk, gated: Gated<MemDevice>) -> Option<String> {
    desk.hold(Hand::Device(gated.give_back()));
    word(alloc, "ok")
}
