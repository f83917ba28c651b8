//! Calls on a store.

use crate::desk::{Desk, Hand, NAME};
use crate::samples::LOG;
use std::alloc::Global;
use std::mem;
use tc_rows::{bytes, failing, is_there, store_fault, store_with, taken, word};
use tc_store::{MemStore, Store};

/// What a call answers, with nothing in hand.
pub(crate) fn answer_of(
    alloc: Global,
    desk: &mut Desk,
    name: &str,
    argument: &str,
) -> Option<String> {
    match name {
        "make" => make(alloc, desk),
        "home" => home(alloc, desk, bytes(alloc, argument)?),
        "cut" => home(alloc, desk, cut(alloc, argument)?),
        "turn" => home(alloc, desk, turned(alloc, argument)?),
        _ => None,
    }
}

/// A watch that fails the calls of these numbers.
pub(crate) fn fails(alloc: Global, desk: &mut Desk, argument: &str) -> Option<String> {
    desk.watch = failing(alloc, argument)?;
    word(alloc, "ok")
}

/// The names of the files.
pub(crate) fn names(alloc: Global, desk: &mut Desk) -> Option<String> {
    match desk.store.names(alloc, &mut desk.watch) {
        Ok(names) => format!(in alloc; "{names:?}").ok(),
        Err(fault) => store_fault(alloc, fault),
    }
}

/// A stop, at which what is in hand is lost, and then the file is taken if it is there.
pub(crate) fn stop(alloc: Global, desk: &mut Desk, argument: &str) -> Option<String> {
    let choice = argument.parse::<u64>().ok()?;
    desk.hold(Hand::Nothing);
    let store = mem::replace(&mut desk.store, MemStore::new(alloc));
    let mut left = store.stop(choice).ok()?;
    let Some(file) = taken(alloc, &mut left, NAME)? else {
        return word(alloc, "absent");
    };
    desk.store = left;
    desk.hold(Hand::Still(file));
    word(alloc, "ok")
}

// A store with one file at home, durable as it is, which is taken.
fn home(alloc: Global, desk: &mut Desk, bytes: Vec<u8>) -> Option<String> {
    let mut store = store_with(alloc, NAME, bytes).ok()?;
    let taken = store.take(alloc, NAME, &mut desk.watch);
    desk.store = store;
    match taken {
        Ok(file) => {
            desk.hold(Hand::Still(file));
            word(alloc, "ok")
        }
        Err(fault) => store_fault(alloc, fault),
    }
}

// The first bytes of the worked log.
fn cut(alloc: Global, argument: &str) -> Option<Vec<u8>> {
    let length = argument.parse::<usize>().ok()?;
    Vec::from_slice(alloc, LOG.get(..length)?).ok()
}

// The worked log with the highest bit of a byte turned.
fn turned(alloc: Global, argument: &str) -> Option<Vec<u8>> {
    let at = argument.parse::<usize>().ok()?;
    let mut bytes = Vec::from_slice(alloc, &LOG).ok()?;
    let byte = bytes.get_mut(at)?;
    *byte ^= 0x80;
    Some(bytes)
}

// A file is made, where there is none.
fn make(alloc: Global, desk: &mut Desk) -> Option<String> {
    if is_there(alloc, &mut desk.store, NAME)? {
        return None;
    }
    match desk.store.fresh(alloc, NAME, &mut desk.watch) {
        Ok(device) => {
            desk.hold(Hand::Device(device));
            word(alloc, "ok")
        }
        Err(fault) => store_fault(alloc, fault),
    }
}
