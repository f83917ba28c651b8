//! Calls on a device that is in hand.

use crate::desk::Hand;
use crate::faults::{done, fault};
use std::alloc::Global;
use tc_files::{FileDevice, FileStore, FileWatch};
use tc_rows::{number, word};
use tc_store::{Device, Kit, Store};

/// What a call answers.
pub(crate) fn answer_of(
    alloc: Global,
    kit: &mut Kit<FileStore>,
    hand: &mut Hand,
    device: FileDevice,
    name: &str,
    argument: &str,
) -> Option<String> {
    match name {
        "freeze" => freeze(alloc, kit, hand, device),
        "abandon" => abandon(alloc, kit, device),
        _ => {
            let mut device = device;
            let answer = writing(alloc, &mut device, &mut kit.main, name, argument);
            *hand = Hand::Device(device);
            answer
        }
    }
}

fn writing(
    alloc: Global,
    device: &mut FileDevice,
    watch: &mut FileWatch,
    name: &str,
    argument: &str,
) -> Option<String> {
    match name {
        "write" => write(alloc, device, watch, argument),
        "sync" => {
            let called = device.sync(watch);
            done(alloc, watch, called)
        }
        "len" => number(alloc, device.len()),
        _ => None,
    }
}

// The bytes of a text from a place on: the place, a space, and the text.
fn write(
    alloc: Global,
    device: &mut FileDevice,
    watch: &mut FileWatch,
    argument: &str,
) -> Option<String> {
    let (at, text) = argument.split_once(' ')?;
    let at = at.parse::<u64>().ok()?;
    if at > device.len() {
        return None;
    }
    let called = device.write_at(at, text.as_bytes(), watch);
    done(alloc, watch, called)
}

fn freeze(
    alloc: Global,
    kit: &mut Kit<FileStore>,
    hand: &mut Hand,
    device: FileDevice,
) -> Option<String> {
    match kit.store.freeze(alloc, device, &mut kit.main) {
        Ok(file) => {
            *hand = Hand::Still(file);
            word(alloc, "ok")
        }
        Err(_) => fault(alloc, kit.main.last_error()),
    }
}

fn abandon(alloc: Global, kit: &mut Kit<FileStore>, device: FileDevice) -> Option<String> {
    kit.store.abandon(device);
    word(alloc, "ok")
}
