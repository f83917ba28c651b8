//! Calls on a component that is written.

ghost use Rattle.std.specs.Prelude.{◌≡◌, false, IfSome, IsTrue};
ghost use Rattle.tc_component.specs.Building.{IsWrittenRecord};
ghost use Rattle.tc_store.specs.Memory.Device.{device_size};

use crate::desk::{Desk, Hand, NAME};
use std::alloc::Global;
use tc_component::{Builder, Head};
use tc_names::Names;
use tc_record::{PACKED_FORM, RecordRef};
use tc_rows::{bytes, device_answer, number_and_bytes, numbers, word};
use tc_schema::Schema;
use tc_store::{Broken, MemDevice, MemStore, MemWatch, Store};

// The bytes of a record, at most.
const MOST: usize = 0x10_0000;

/// A builder of which no call failed.
pub(crate) struct GoodBuilder {
    builder: Builder<MemDevice>,
    ghost good: { builder.failed ≡ false },
}

impl Drop for GoodBuilder {
    /// One call, so that whoever drops it sees nothing of the builder.
    fn drop(self) {
        let GoodBuilder { builder } = self;
        drop(builder);
    }
}

impl GoodBuilder {
    fn into_builder(self) -> Builder<MemDevice>
        ensures { result.failed ≡ false }
    {
        let GoodBuilder { builder } = self;
        builder
    }
}

/// What a call answers.
pub(crate) fn answer_of(
    alloc: Global,
    desk: &mut Desk,
    good: GoodBuilder,
    name: &str,
    argument: &str,
) -> Option<String> {
    match name {
        "push" => push(alloc, desk, good, number_and_bytes(alloc, argument)),
        "fill" => push(alloc, desk, good, filled(alloc, argument)),
        "gone" => gone(alloc, desk, good, argument),
        "finish" => finish(alloc, desk, good, argument),
        "back" => settled(alloc, desk, Ok(back(good))),
        _ => None,
    }
}

/// A component is begun in a new store: the number of its partition, how many there are, and its generations.
pub(crate) fn begin(alloc: Global, desk: &mut Desk, argument: &str) -> Option<String> {
    let head = head(alloc, argument)?;
    let mut store = MemStore::new(alloc);
    let made = store.fresh(alloc, NAME, &mut desk.writer);
    desk.keep(store);
    match made {
        Ok(device) => {
            let begun = begun(alloc, device, head, &mut desk.writer);
            going_on(alloc, desk, begun)
        }
        Err(_) => word(alloc, "fault"),
    }
}

fn head(alloc: Global, argument: &str) -> Option<Head> {
    let numbers = numbers(alloc, argument)?;
    let [number, count, from, to] = numbers.as_slice() else {
        return None;
    };
    Some(Head {
        number: u32::try_from(*number).ok()?,
        count: u32::try_from(*count).ok()?,
        from: *from,
        to: *to,
    })
}

fn begun(
    alloc: Global,
    device: MemDevice,
    head: Head,
    watch: &mut MemWatch,
) -> Result<GoodBuilder, Broken<MemDevice>>
    requires { device_size device ≡ 0 }
{
    match Builder::begin(alloc, device, head, watch) {
        Ok(builder) => Ok(GoodBuilder { builder }),
        Err(broken) => Err(broken),
    }
}

// The builder is in hand, or after a fault its device.
fn going_on(
    alloc: Global,
    desk: &mut Desk,
    called: Result<GoodBuilder, Broken<MemDevice>>,
) -> Option<String> {
    match called {
        Ok(good) => {
            desk.hold(Hand::Builder(good));
            word(alloc, "ok")
        }
        Err(broken) => settled(alloc, desk, Err(broken)),
    }
}

// The device is in hand.
fn settled(
    alloc: Global,
    desk: &mut Desk,
    called: Result<MemDevice, Broken<MemDevice>>,
) -> Option<String> {
    match called {
        Ok(device) => {
            desk.hold(Hand::Device(device));
            word(alloc, "ok")
        }
        Err(Broken { device, cause }) => {
            desk.hold(Hand::Device(device));
            device_answer(alloc, Err(cause))
        }
    }
}

// A key of one byte, and a record of one text: how many of this byte the text has, the bytes in front of it, and behind it
// the column of one number, which is 0.
fn filled(alloc: Global, argument: &str) -> Option<(u64, Vec<u8>)> {
    let (key, behind) = argument.split_once(' ')?;
    let (length, front) = behind.split_once(' ')?;
    let key = key.parse::<u8>().ok()?;
    let length = length.parse::<u32>().ok()?;
    let text = vec![in alloc; key; length as usize].ok()?;
    let mut record = bytes(alloc, front)?;
    record.extend_from_slice(&text).ok()?;
    record.push(0).ok()?;
    Some((u64::from(key), record))
}

fn push(
    alloc: Global,
    desk: &mut Desk,
    good: GoodBuilder,
    entry: Option<(u64, Vec<u8>)>,
) -> Option<String> {
    let (key, bytes) = entry?;
    let record = bytes.as_slice();
    if record.len() > MOST {
        return None;
    }
    if !is_written(record) {
        return None;
    }
    let pushed = pushed(good, key, Some(record), &mut desk.writer);
    going_on(alloc, desk, pushed)
}

// Whether bytes are a record as a builder takes them.
fn is_written(bytes: &[u8]) -> bool
    ensures { IsTrue result → IsWrittenRecord bytes.now }
{
    match RecordRef::numbered(bytes, PACKED_FORM) {
        Some(_record) => true,
        None => false,
    }
}

fn gone(alloc: Global, desk: &mut Desk, good: GoodBuilder, argument: &str) -> Option<String> {
    let key = argument.parse::<u64>().ok()?;
    let pushed = pushed(good, key, None, &mut desk.writer);
    going_on(alloc, desk, pushed)
}

// The bytes of the names and of the schema.
fn finish(alloc: Global, desk: &mut Desk, good: GoodBuilder, argument: &str) -> Option<String> {
    let (named, counted) = argument.split_once(' ')?;
    let names = names_of(alloc, named)?;
    let schema = schema_of(alloc, counted, names.len())?;
    let finished = finished(good, &names, &schema, &mut desk.writer);
    settled(alloc, desk, finished)
}

fn names_of(alloc: Global, digits: &str) -> Option<Names> {
    let bytes = bytes(alloc, digits)?;
    Names::from_bytes(alloc, &bytes).ok()
}

fn schema_of(alloc: Global, digits: &str, names: u32) -> Option<Schema> {
    let bytes = bytes(alloc, digits)?;
    Schema::from_bytes(alloc, &bytes, names).ok()
}

fn pushed(
    good: GoodBuilder,
    key: u64,
    held: Option<&[u8]>,
    watch: &mut MemWatch,
) -> Result<GoodBuilder, Broken<MemDevice>>
    requires { IfSome held (λ bytes. IsWrittenRecord bytes.now) }
{
    let mut builder = good.into_builder();
    match builder.push(key, held, watch) {
        Ok(()) => Ok(GoodBuilder { builder }),
        Err(cause) => Err(Broken {
            device: builder.give_back(),
            cause,
        }),
    }
}

fn finished(
    good: GoodBuilder,
    names: &Names,
    schema: &Schema,
    watch: &mut MemWatch,
) -> Result<MemDevice, Broken<MemDevice>> {
    good.into_builder().finish(names, schema, watch)
}

fn back(good: GoodBuilder) -> MemDevice {
    good.into_builder().give_back()
}
