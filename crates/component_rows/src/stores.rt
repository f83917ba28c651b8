//! Calls on a store, with nothing or a device in hand.

ghost use Rattle.tc_store.specs.Disk.{IsAtRest};
ghost use Rattle.tc_store.specs.Memory.Store.{store_disks};
ghost use Rattle.tc_store.specs.Moments.{IfTold};

use crate::builders::begin;
use crate::desk::{Desk, Hand, NAME};
use crate::nesting::nested;
use crate::samples::{EMPTY, PACKED, WORKED};
use std::alloc::Global;
use std::mem;
use tc_rows::{bytes, failing, store_with, taken, word};
use tc_store::{MemDevice, MemStore, Store};

/// What a call answers, with nothing in hand.
pub(crate) fn answer_of(
    alloc: Global,
    desk: &mut Desk,
    name: &str,
    argument: &str,
) -> Option<String> {
    match name {
        "fails" => {
            desk.writer = failing(alloc, argument)?;
            word(alloc, "ok")
        }
        "misses" => {
            desk.reader = failing(alloc, argument)?;
            word(alloc, "ok")
        }
        "home" => home(alloc, desk, sample(alloc, argument)?),
        "cut" => home(alloc, desk, cut(alloc, argument)?),
        "turn" => home(alloc, desk, turned(alloc, argument)?),
        "nest" => home(alloc, desk, nested(alloc, argument)?),
        "begin" => begin(alloc, desk, argument),
        "stop" => stop(alloc, desk, argument),
        _ => None,
    }
}

/// What a stop answers, with a device in hand, which comes home.
pub(crate) fn left_of(
    alloc: Global,
    desk: &mut Desk,
    device: MemDevice,
    name: &str,
    argument: &str,
) -> Option<String> {
    if name != "stop" {
        return None;
    }
    desk.store.abandon(device);
    stop(alloc, desk, argument)
}

// The bytes of a worked component, or of these digits.
fn sample(alloc: Global, argument: &str) -> Option<Vec<u8>> {
    match argument {
        "worked" => bytes(alloc, WORKED),
        "packed" => bytes(alloc, PACKED),
        "empty" => bytes(alloc, EMPTY),
        _ => bytes(alloc, argument),
    }
}

// So many bytes of a sample.
fn cut(alloc: Global, argument: &str) -> Option<Vec<u8>> {
    let (name, length) = argument.split_once(' ')?;
    let mut bytes = sample(alloc, name)?;
    bytes.truncate(length.parse::<usize>().ok()?);
    Some(bytes)
}

// A sample with other bytes from a place on.
fn turned(alloc: Global, argument: &str) -> Option<Vec<u8>> {
    let (name, behind) = argument.split_once(' ')?;
    let (at, digits) = behind.split_once(' ')?;
    let (bytes, others) = (sample(alloc, name)?, bytes(alloc, digits)?);
    let front = bytes.get(..at.parse::<usize>().ok()?)?;
    let rest = bytes.get(front.len().checked_add(others.len())?..)?;
    let mut turned = Vec::from_slice(alloc, front).ok()?;
    turned.extend_from_slice(&others).ok()?;
    turned.extend_from_slice(rest).ok()?;
    Some(turned)
}

// A file at home, durable as it is, which is taken.
fn home(alloc: Global, desk: &mut Desk, bytes: Vec<u8>) -> Option<String> {
    let store = store_with(alloc, NAME, bytes).ok()?;
    held(alloc, desk, store)
}

// A stop, and then the file is taken if it is there.
fn stop(alloc: Global, desk: &mut Desk, argument: &str) -> Option<String> {
    let choice = argument.parse::<u64>().ok()?;
    let store = mem::replace(&mut desk.store, MemStore::new(alloc));
    let left = store.stop(choice).ok()?;
    held(alloc, desk, left)
}

// The file of a store at rest is in hand, if it is there.
fn held(alloc: Global, desk: &mut Desk, store: MemStore) -> Option<String>
    requires { IfTold (store_disks store) IsAtRest }
{
    let mut store = store;
    match taken(alloc, &mut store, NAME)? {
        Some(file) => {
            desk.hold(Hand::Still(file));
            word(alloc, "ok")
        }
        None => word(alloc, "absent"),
    }
}
