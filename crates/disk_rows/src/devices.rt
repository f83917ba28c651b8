//! Calls on a device that is in hand.

ghost use Rattle.std.specs.Prelude.{◌≡◌};
ghost use Rattle.tc_store.specs.Memory.Device.{device_size};

use crate::desk::{Desk, Hand};
use crate::logs::created;
use std::alloc::Global;
use tc_log::{LogHead, MAX_NUMBER};
use tc_rows::{bytes, device_answer, number, number_and_bytes, store_fault, word};
use tc_store::{Device, Gated, MemDevice, MemWatch, Store};

/// What a call answers.
pub(crate) fn answer_of(
    alloc: Global,
    desk: &mut Desk,
    device: MemDevice,
    name: &str,
    argument: &str,
) -> Option<String> {
    match name {
        "freeze" => freeze(alloc, desk, device),
        "abandon" => abandon(alloc, desk, device),
        "gate" => gate(alloc, desk, device, argument),
        "create" => create(alloc, desk, device, argument),
        _ => written(alloc, desk, device, name, argument),
    }
}

fn written(
    alloc: Global,
    desk: &mut Desk,
    device: MemDevice,
    name: &str,
    argument: &str,
) -> Option<String> {
    let mut device = device;
    let answer = writing(alloc, &mut device, &mut desk.watch, name, argument);
    desk.hold(Hand::Device(device));
    answer
}

fn writing(
    alloc: Global,
    device: &mut MemDevice,
    watch: &mut MemWatch,
    name: &str,
    argument: &str,
) -> Option<String> {
    match name {
        "write" => write(alloc, device, watch, argument),
        "sync" => device_answer(alloc, device.sync(watch)),
        "len" => number(alloc, device.len()),
        _ => None,
    }
}

fn write(
    alloc: Global,
    device: &mut MemDevice,
    watch: &mut MemWatch,
    argument: &str,
) -> Option<String> {
    let (at, bytes) = number_and_bytes(alloc, argument)?;
    if at > device.len() {
        return None;
    }
    device_answer(alloc, device.write_at(at, &bytes, watch))
}

// A sync, and the file is frozen where it was done.
fn freeze(alloc: Global, desk: &mut Desk, device: MemDevice) -> Option<String> {
    let mut device = device;
    if let Err(fault) = device.sync(&mut desk.watch) {
        desk.hold(Hand::Device(device));
        return device_answer(alloc, Err(fault));
    }
    match desk.store.freeze(alloc, device, &mut desk.watch) {
        Ok(file) => {
            desk.hold(Hand::Still(file));
            word(alloc, "ok")
        }
        Err(fault) => store_fault(alloc, fault),
    }
}

fn abandon(alloc: Global, desk: &mut Desk, device: MemDevice) -> Option<String> {
    desk.store.abandon(device);
    word(alloc, "ok")
}

// A closed gate, and bytes behind it.
fn gate(alloc: Global, desk: &mut Desk, device: MemDevice, argument: &str) -> Option<String> {
    if device.len() != 0 {
        return None;
    }
    match Gated::begin(device, &mut desk.watch) {
        Ok(gated) => behind_gate(alloc, desk, gated, argument),
        Err(broken) => {
            desk.hold(Hand::Device(broken.device));
            device_answer(alloc, Err(broken.cause))
        }
    }
}

fn behind_gate(
    alloc: Global,
    desk: &mut Desk,
    gated: Gated<MemDevice>,
    argument: &str,
) -> Option<String>
    requires { device_size gated ≡ 1 }
{
    let mut gated = gated;
    let bytes = bytes(alloc, argument)?;
    let result = gated.write(1, &bytes, &mut desk.watch);
    desk.hold(Hand::Gate(gated));
    device_answer(alloc, result)
}

// A log of the number of a partition, how many there are, and the generation.
fn create(alloc: Global, desk: &mut Desk, device: MemDevice, argument: &str) -> Option<String> {
    let head = head(argument)?;
    if device.len() != 0 || head.generation == 0 || head.generation > MAX_NUMBER {
        return None;
    }
    created(alloc, desk, device, head)
}

fn head(argument: &str) -> Option<LogHead> {
    let (number, behind) = argument.split_once(' ')?;
    let (count, generation) = behind.split_once(' ')?;
    Some(LogHead {
        number: number.parse::<u32>().ok()?,
        count: count.parse::<u32>().ok()?,
        generation: generation.parse::<u64>().ok()?,
    })
}
