//! What the jobs of a partition begin and end with: components of given bytes are listed as those that jobs made.

ghost use Rattle.std.specs.Prelude.{◌≡◌, ◌≤◌, ◌<◌, ◌+◌, length, IfSome};
ghost use Rattle.tc_list.specs.Intervals.{first_of, last_of};
ghost use Rattle.tc_list.specs.Runs.{in_run};
ghost use Rattle.tc_store.specs.DiskFile.{IsSettled};
ghost use Rattle.tc_store.specs.Memory.Device.{device_files};
ghost use Rattle.tc_store.specs.Moments.{IfTold};

use crate::faults::{job_outcome, push_name};
use crate::files::push_files;
use crate::making::settled_file;
use std::alloc::Global;
use std::fmt::Write;
use std::sync::Arc;
use tc_compact::shape_of;
use tc_component::{Component, Head};
use tc_jobs::{
    FlushInputs, JobFault, flush_inputs, list_flush, list_merge, merge_inputs, merged_head,
    remove_file, remove_unshared,
};
use tc_list::{ComponentList, Run};
use tc_log::MAX_NUMBER;
use tc_memory::{Memtable, Sealed};
use tc_names::Names;
use tc_record::RecordRef;
use tc_rows::{bytes, number_and_bytes, numbers, word};
use tc_store::{FileName, MemDevice, MemFrozen, MemStore, MemWatch, Watch};

/// The store and the components of a row. Files are made without a fault; the watch is of the calls that list and remove.
#[derive(Drop)]
pub(crate) struct Bench {
    store: MemStore,
    list: ComponentList<MemFrozen>,
    shares: Vec<Arc<Component<MemFrozen>>>,
    watch: MemWatch,
}

/// What a job made: two numbers that say where it goes, the number of a partition, and the bytes of a file.
#[derive(Drop)]
struct Made {
    first: u64,
    last: u64,
    number: u32,
    bytes: Vec<u8>,
}

impl Bench {
    /// A store without a file, of which these calls fail.
    pub(crate) fn begun(alloc: Global, failing: Vec<u64>) -> Bench {
        Bench {
            store: MemStore::new(alloc),
            list: ComponentList::new(alloc),
            shares: Vec::new(alloc),
            watch: MemWatch::new(failing),
        }
    }

    /// Lists a component behind the others, as that of a flush: its generations, the number of a partition, and its bytes.
    pub(crate) fn list(&mut self, alloc: Global, argument: &str) -> Option<String> {
        let made = made_of(alloc, argument)?;
        if made.first == 0 || made.first - 1 != last_in(&self.list) {
            return None;
        }
        let head = Head {
            number: made.number,
            count: 1,
            from: made.first,
            to: made.last,
        };
        let device = settled_file(alloc, &mut self.store, head.file_name(), &made.bytes)?;
        job_outcome(alloc, self.append(alloc, device, head))
    }

    /// Lists a component in place of a run, as that of a merge, and removes the files that nobody shares: the first and the
    /// last place of the run, the number of a partition, and the bytes.
    pub(crate) fn place(&mut self, alloc: Global, argument: &str) -> Option<String> {
        let made = made_of(alloc, argument)?;
        let run = run_of(made.first, made.last, self.list.len())?;
        let head = merged_head(&self.list, run, made.number, 1);
        let device = settled_file(alloc, &mut self.store, head.file_name(), &made.bytes)?;
        job_outcome(alloc, self.replace(alloc, device, run, head))
    }

    /// Takes one more share of each component of a run: its first and its last place.
    pub(crate) fn share(&mut self, alloc: Global, argument: &str) -> Option<String> {
        let places = numbers(alloc, argument)?;
        let [first, last] = places.as_slice() else {
            return None;
        };
        let run = run_of(*first, *last, self.list.len())?;
        let mut text = word(alloc, "shared")?;
        for share in merge_inputs(alloc, &self.list, run).ok()? {
            push_name(&mut text, share.file_name())?;
            self.shares.push(share).ok()?;
        }
        Some(text)
    }

    /// What the flush of a table begins with that takes a key out: the key, and the record of the document below it.
    pub(crate) fn inputs(&self, alloc: Global, argument: &str) -> Option<String> {
        let (key, below) = number_and_bytes(alloc, argument)?;
        let sealed = table_without(alloc, key, &below)?;
        match flush_inputs(alloc, &sealed, &self.list) {
            Ok(inputs) => inputs_text(alloc, &inputs),
            Err(fault) => job_outcome(alloc, Err(fault)),
        }
    }

    /// Removes a log that a component covers: its generation, and the bytes of its file.
    pub(crate) fn uncover(&mut self, alloc: Global, argument: &str) -> Option<String> {
        let (generation, bytes) = number_and_bytes(alloc, argument)?;
        let name = FileName::Log { generation };
        let device = settled_file(alloc, &mut self.store, name, &bytes)?;
        let removed = remove_file(alloc, &mut self.store, device, &mut self.watch);
        job_outcome(alloc, removed)
    }

    /// Puts down what is listed, how many calls failed and how many were reads, and the files.
    pub(crate) fn end(self, alloc: Global, text: &mut String) -> Option<()> {
        let Bench {
            store,
            list,
            watch,
            ..
        } = self;
        write!(text, "listed").ok()?;
        for component in list.as_slice() {
            push_name(text, component.file_name())?;
        }
        write!(text, ", main {} {}, ", watch.faults(), watch.reads()).ok()?;
        push_files(alloc, text, store.stop(0).ok()?)
    }

    // Lists what a flush made.
    fn append(&mut self, alloc: Global, device: MemDevice, head: Head) -> Result<(), JobFault>
        requires settled { IfTold (device_files device) IsSettled }
        requires follows { head.from ≡ last_of self.old.list + 1 }
    {
        let Bench {
            store,
            list,
            watch,
            ..
        } = self;
        list_flush(alloc, store, list, device, head, watch)
    }

    // Lists what a merge made, and removes the files of its run.
    fn replace(
        &mut self,
        alloc: Global,
        device: MemDevice,
        run: Run,
        head: Head,
    ) -> Result<(), JobFault>
        requires settled { IfTold (device_files device) IsSettled }
        requires order { run.first ≤ run.last }
        requires within { run.last < length self.old.list }
        requires begins { head.from ≡ first_of (in_run run self.old.list) }
        requires ends { head.to ≡ last_of (in_run run self.old.list) }
    {
        let Bench {
            store,
            list,
            watch,
            ..
        } = self;
        let left = list_merge(alloc, store, list, device, run, head, watch)?;
        remove_unshared(alloc, store, left, watch)?;
        Ok(())
    }
}

// What a job made, of its words.
fn made_of(alloc: Global, argument: &str) -> Option<Made> {
    let (heading, digits) = argument.rsplit_once(' ')?;
    let numbers = numbers(alloc, heading)?;
    let [first, last, number] = numbers.as_slice() else {
        return None;
    };
    Some(Made {
        first: *first,
        last: *last,
        number: u32::try_from(*number).ok()?,
        bytes: bytes(alloc, digits)?,
    })
}

// The last generation of a list, or 0 where nothing is listed.
fn last_in(list: &ComponentList<MemFrozen>) -> u64
    ensures { result ≡ last_of list.now }
{
    match list.as_slice().split_last() {
        Some((newest, _older)) => newest.head().to,
        None => 0,
    }
}

// A run of a list of so many components.
fn run_of(first: u64, last: u64, len: usize) -> Option<Run>
    ensures order { IfSome result (λ run. run.first ≤ run.last) }
    ensures within { IfSome result (λ run. run.last < len) }
{
    let first = usize::try_from(first).ok()?;
    let last = usize::try_from(last).ok()?;
    if first > last || last >= len {
        return None;
    }
    Some(Run { first, last })
}

// The sealed table that takes out a key, over the document of a record.
fn table_without(alloc: Global, key: u64, below: &[u8]) -> Option<Arc<Sealed>> {
    if key > MAX_NUMBER {
        return None;
    }
    let Some(record) = RecordRef::of(below) else {
        return None;
    };
    let shape = shape_of(alloc, record, &Names::new(alloc)).ok()?;
    let mut table = Memtable::new(alloc);
    table.delete(key, Some(shape)).ok()?;
    Arc::new(alloc, table.seal()).ok()
}

fn inputs_text(alloc: Global, inputs: &FlushInputs) -> Option<String> {
    let names = inputs.names.len();
    let documents = inputs.schema.documents();
    format!(in alloc; "names {names}, documents {documents}").ok()
}
