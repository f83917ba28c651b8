//! The flush of a table, and what a stop leaves of it.

ghost use Rattle.std.specs.Prelude.{◌≡◌};
ghost use Rattle.tc_store.specs.Memory.Device.{device_size};

use crate::desk::Desk;
use crate::stores::{begun, left_of};
use std::alloc::Global;
use std::sync::Arc;
use tc_component::Head;
use tc_flush::{FlushJob, FlushOut, FlushParts, counted};
use tc_memory::Sealed;
use tc_rows::{device_answer, numbers, word};
use tc_store::{MemDevice, MemStore, MemWatch, Store, StoreFault, Watch};

/// The flush of the table: the number of its partition, how many there are, its generations, and what a stop behind it
/// chooses.
pub(crate) fn flush(alloc: Global, desk: &mut Desk, argument: &str) -> Option<String> {
    let (head, choice) = asked(alloc, argument)?;
    let (store, device) = begun(alloc)?;
    flushed(alloc, desk, store, device, head, choice)
}

/// The header and the choice of a stop that are asked for.
pub(crate) fn asked(alloc: Global, argument: &str) -> Option<(Head, u64)> {
    let numbers = numbers(alloc, argument)?;
    let [number, count, from, to, choice] = numbers.as_slice() else {
        return None;
    };
    let head = Head {
        number: u32::try_from(*number).ok()?,
        count: u32::try_from(*count).ok()?,
        from: *from,
        to: *to,
    };
    Some((head, *choice))
}

fn flushed(
    alloc: Global,
    desk: &mut Desk,
    store: MemStore,
    device: MemDevice,
    head: Head,
    choice: u64,
) -> Option<String>
    requires { device_size device ≡ 0 }
{
    match job_of(alloc, desk, device, head)? {
        Some(job) => ran(alloc, store, job, choice),
        None => word(alloc, "not counted"),
    }
}

// The flush of the table, if it can be flushed.
fn job_of(
    alloc: Global,
    desk: &mut Desk,
    device: MemDevice,
    head: Head,
) -> Option<Option<FlushJob<MemStore>>>
    requires { device_size device ≡ 0 }
{
    let names = desk.names.copy().ok()?;
    let schema = desk.schema.copy(alloc).ok()?;
    let sealed = Arc::new(alloc, desk.take_table(alloc).seal()).ok()?;
    let table: &Sealed = &sealed;
    if !counted(alloc, table, &schema, &names).ok()? {
        return Some(None);
    }
    Some(Some(FlushJob::new(FlushParts {
        sealed,
        schema,
        names,
        device,
        head,
        watch: desk.take_watch(alloc),
    })))
}

// The outcome of the flush, how many calls failed, whether the next would, and what a stop leaves.
fn ran(alloc: Global, store: MemStore, job: FlushJob<MemStore>, choice: u64) -> Option<String> {
    let FlushOut {
        watch,
        device,
        outcome,
    } = job.run(alloc);
    let mut store = store;
    store.abandon(device);
    let outcome = device_answer(alloc, outcome)?;
    let (faults, next) = counts(alloc, &mut store, watch)?;
    let left = left_of(alloc, store, choice)?;
    format!(in alloc;
        "{}, faults {faults}, next {next}, {}",
        outcome.as_str(),
        left.as_str()
    )
    .ok()
}

/// How many calls failed, and what one more answers.
pub(crate) fn counts(
    alloc: Global,
    store: &mut MemStore,
    watch: MemWatch,
) -> Option<(u64, &'static str)> {
    let mut watch = watch;
    let faults = watch.faults();
    match store.names(alloc, &mut watch) {
        Ok(_) => Some((faults, "ok")),
        Err(StoreFault::Fault) => Some((faults, "fault")),
        Err(StoreFault::Memory) => None,
    }
}
