//! Calls on a shelf.

use crate::desk::{Desk, Hand};
use crate::faults::fault;
use std::alloc::Global;
use tc_rows::word;
use tc_store::Shelf;

/// Another shelf, over this folder. Nothing is held of the one before.
pub(crate) fn shelf(rt: HostRuntime, desk: &mut Desk, folder: &str) -> Option<String> {
    *desk = Desk::new(rt, folder)?;
    word(rt.alloc(), "ok")
}

/// The same for those who only read.
pub(crate) fn reader(rt: HostRuntime, desk: &mut Desk, folder: &str) -> Option<String> {
    *desk = Desk::to_read(rt, folder)?;
    word(rt.alloc(), "ok")
}

/// The kit of a partition, which is kept, or which is another beside the one that is kept.
pub(crate) fn kit(alloc: Global, desk: &mut Desk, number: u32, is_kept: bool) -> Option<String> {
    match desk.shelf.kit(alloc, number) {
        Ok(kit) => {
            if is_kept {
                desk.kit = Some(kit);
            }
            word(alloc, "ok")
        }
        Err(_) => fault(alloc, desk.shelf.last_error()),
    }
}

/// Lets go of the kit, and of what is in hand.
pub(crate) fn leave(alloc: Global, desk: &mut Desk) -> Option<String> {
    desk.hand = Hand::Nothing;
    desk.kit = None;
    word(alloc, "ok")
}
