//! The merge of the loaded components, and what a stop leaves of it.

ghost use Rattle.std.specs.Prelude.{◌≡◌};
ghost use Rattle.tc_store.specs.Memory.Device.{device_size};

use crate::answers::shown;
use crate::desk::Desk;
use crate::flushes::{asked, counts};
use crate::lists::Shared;
use crate::stores::{begun, left_of};
use std::alloc::Global;
use std::sync::Arc;
use tc_bytes::Bytes;
use tc_component::Head;
use tc_merge::{MergeFault, MergeJob, MergeOut, MergeParts, can_merge};
use tc_rows::word;
use tc_store::{FileName, MemDevice, MemStore, Store, Watch};

/// The merge of the loaded components: the number of their partition, how many there are, the generations of the merged
/// one, and what a stop behind it chooses.
pub(crate) fn merge(alloc: Global, desk: &mut Desk, argument: &str) -> Option<String> {
    let (head, choice) = asked(alloc, argument)?;
    let (store, device) = begun(alloc)?;
    ran(alloc, store, job_of(alloc, desk, device, head)?, choice)
}

// The merge of the loaded components, if they can be merged.
fn job_of(
    alloc: Global,
    desk: &mut Desk,
    device: MemDevice,
    head: Head,
) -> Option<MergeJob<MemStore>>
    requires { device_size device ≡ 0 }
{
    let run = copies(alloc, &desk.loaded)?;
    if !can_merge(head, &run) {
        return None;
    }
    Some(MergeJob::new(MergeParts {
        run,
        device,
        head,
        watch: desk.take_watch(alloc),
    }))
}

fn copies(alloc: Global, loaded: &[Shared]) -> Option<Vec<Shared>> {
    let mut run = Vec::new(alloc);
    for component in loaded {
        run.push(Arc::try_clone(component).ok()?).ok()?;
    }
    Some(run)
}

// The outcome of the merge, how many calls failed and how many read, whether the next call would fail, and what a stop
// leaves.
fn ran(alloc: Global, store: MemStore, job: MergeJob<MemStore>, choice: u64) -> Option<String> {
    let MergeOut {
        watch,
        device,
        outcome,
    } = job.run(alloc);
    let mut store = store;
    store.abandon(device);
    let outcome = outcome_text(alloc, outcome)?;
    let reads = watch.reads();
    let (faults, next) = counts(alloc, &mut store, watch)?;
    let left = left_of(alloc, store, choice)?;
    format!(in alloc;
        "{}, faults {faults}, reads {reads}, next {next}, {}",
        outcome.as_str(),
        left.as_str()
    )
    .ok()
}

fn outcome_text(alloc: Global, outcome: Result<(), MergeFault>) -> Option<String> {
    match outcome {
        Ok(()) => word(alloc, "ok"),
        Err(MergeFault::Disk) => word(alloc, "fault"),
        Err(MergeFault::Damaged { file, place, bytes }) => damage_text(alloc, file, place, &bytes),
        Err(MergeFault::Memory) => None,
    }
}

fn damage_text(alloc: Global, file: FileName, place: u64, bytes: &Bytes) -> Option<String> {
    let FileName::Component { from, to } = file else {
        return None;
    };
    let bytes = shown(alloc, bytes.as_slice())?;
    format!(in alloc; "damaged {from} to {to} at {place} {}", bytes.as_str()).ok()
}
