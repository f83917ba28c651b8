//! Calls on a log that is written.

ghost use Rattle.std.specs.Prelude.{◌≡◌, ◌<◌, false, IfSome};
ghost use Rattle.disk_rows.specs.Writes.{IsShortWrite};
ghost use Rattle.tc_log.specs.Layout.{number_end};
ghost use Rattle.tc_store.specs.Memory.Device.{device_size};

use crate::desk::{Desk, Hand};
use std::alloc::Global;
use tc_bytes::Bytes;
use tc_log::{Frame, Log, LogHead, MAX_NUMBER, Write};
use tc_record::is_stored_record;
use tc_rows::{device_answer, number, number_and_bytes, word};
use tc_store::MemDevice;

// The bytes of a record, at most.
const MOST: usize = 65_536;

/// A log of which no append failed.
#[derive(Drop)]
pub(crate) struct GoodLog {
    log: Log<MemDevice>,
    ghost good: { log.failed ≡ false },
}

/// What a call answers.
pub(crate) fn answer_of(
    alloc: Global,
    desk: &mut Desk,
    good: GoodLog,
    name: &str,
    argument: &str,
) -> Option<String> {
    match name {
        "put" => append(alloc, desk, good, put(alloc, argument)?),
        "delete" => append(alloc, desk, good, delete(argument)?),
        "len" => len(alloc, desk, good),
        "back" => back(alloc, desk, good),
        _ => None,
    }
}

// The upsert of a key, with the bytes of a record.
fn put(alloc: Global, argument: &str) -> Option<Write>
    ensures { IfSome result IsShortWrite }
{
    let (key, bytes) = number_and_bytes(alloc, argument)?;
    if key > MAX_NUMBER || bytes.len() > MOST || !is_stored_record(&bytes) {
        return None;
    }
    let bytes = Bytes::of(bytes);
    Some(Write::Upsert { key, bytes })
}

fn delete(argument: &str) -> Option<Write>
    ensures { IfSome result IsShortWrite }
{
    let key = argument.parse::<u64>().ok()?;
    if key > MAX_NUMBER {
        return None;
    }
    Some(Write::Delete { key })
}

// A frame of one write. After a fault the device is in hand.
fn append(alloc: Global, desk: &mut Desk, good: GoodLog, write: Write) -> Option<String>
    requires { IsShortWrite write }
{
    let GoodLog { mut log } = good;
    let frame = reserved(alloc, &mut log, write)?;
    match log.append(frame, &mut desk.watch) {
        Ok(()) => {
            desk.hold(Hand::Log(GoodLog { log }));
            word(alloc, "ok")
        }
        Err(fault) => {
            desk.hold(Hand::Device(log.give_back()));
            device_answer(alloc, Err(fault))
        }
    }
}

fn reserved(alloc: Global, log: &mut Log<MemDevice>, write: Write) -> Option<Frame>
    requires { IsShortWrite write }
    ensures same { log.new ≡ log.old }
{
    let mut writes = Vec::new(alloc);
    writes.push(write).ok()?;
    log.reserve(alloc, &writes).ok()
}

fn len(alloc: Global, desk: &mut Desk, good: GoodLog) -> Option<String> {
    let length = good.log.len();
    desk.hold(Hand::Log(good));
    number(alloc, length)
}

fn back(alloc: Global, desk: &mut Desk, good: GoodLog) -> Option<String> {
    let GoodLog { log } = good;
    desk.hold(Hand::Device(log.give_back()));
    word(alloc, "ok")
}

/// Makes a log in an empty file.
pub(crate) fn created(
    alloc: Global,
    desk: &mut Desk,
    device: MemDevice,
    head: LogHead,
) -> Option<String>
    requires empty { device_size device ≡ 0 }
    requires first { 0 < head.generation }
    requires last { head.generation < number_end }
{
    match Log::create(device, &mut desk.watch, head) {
        Ok(log) => {
            desk.hold(Hand::Log(GoodLog { log }));
            word(alloc, "ok")
        }
        Err(broken) => {
            desk.hold(Hand::Device(broken.device));
            device_answer(alloc, Err(broken.cause))
        }
    }
}
