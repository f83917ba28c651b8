//! Calls that merge the components of memory tables.

use crate::flushes::{Below, flushed};
use crate::silent::{SilentDevice, SilentFile, SilentStore, Tally};
use anyhow::{Result, bail};
use std::alloc::Global;
use std::sync::Arc;
use tc_component::{Component, Found, Head};
use tc_memory::Sealed;
use tc_merge::{MergeJob, MergeParts, can_merge};
use tc_record::{PACKED_FORM, RecordRef};
use tc_store::{Device, FileName, Frozen, Store};

/// A component that jobs share.
pub(crate) type Shared = Arc<Component<SilentFile>>;

/// How many reads were made, and how many bytes the files have.
#[derive(Drop)]
pub(crate) struct Merged {
    pub reads: u64,
    pub bytes: u64,
}

/// The components of tables, the oldest first, each flushed over those before it.
pub(crate) fn components_of(alloc: Global, tables: &[Arc<Sealed>]) -> Result<Vec<Shared>> {
    let mut run = Vec::new(alloc);
    let mut below = Below::none(alloc);
    for table in tables {
        let component = flushed(alloc, table, &below)?;
        below = Below::behind(alloc, &component)?;
        run.push(Arc::new(alloc, component)?)?;
    }
    Ok(run)
}

/// Merges components into one so often, each time into the room of the time before.
pub(crate) fn merged_again(alloc: Global, run: &[Shared], rounds: u32) -> Result<Merged> {
    let mut watch = Tally::none();
    let mut bytes = 0u64;
    let mut room = Vec::new(alloc);
    for _ in 0..rounds {
        let (device, _name) = merge(alloc, run, room, &mut watch)?;
        bytes = bytes.wrapping_add(device.len());
        room = device.into_room();
    }
    let reads = watch.reads;
    Ok(Merged { reads, bytes })
}

/// The records of a merge, one behind the other, as a window has them: walking over records that lie apart in memory would
/// measure the memory.
#[derive(Drop)]
pub(crate) struct Records {
    bytes: Vec<u8>,
    lens: Vec<usize>,
}

impl Records {
    pub(crate) fn none(alloc: Global) -> Records {
        Records {
            bytes: Vec::new(alloc),
            lens: Vec::new(alloc),
        }
    }

    /// How many of them are a record, of any form or of form 2.
    fn lawful(&self, asked: Asked) -> u64 {
        let mut rest = self.bytes.as_slice();
        let mut lawful = 0u64;
        for len in &self.lens {
            let Some((record, behind)) = rest.split_at_checked(*len) else {
                return lawful;
            };
            if asked.is(record) {
                lawful = lawful.wrapping_add(1);
            }
            rest = behind;
        }
        lawful
    }
}

/// What is asked of bytes: whether they are a record, or one of form 2, as a merge asks.
#[derive(Clone, Copy)]
pub(crate) enum Asked {
    Either,
    Numbered,
}

impl Asked {
    fn is(self, bytes: &[u8]) -> bool {
        match self {
            Asked::Either => RecordRef::of(bytes).is_some(),
            Asked::Numbered => RecordRef::numbered(bytes, PACKED_FORM).is_some(),
        }
    }
}

/// Judges each record so often, and answers how many there are.
pub(crate) fn judged_again(records: &Records, asked: Asked, rounds: u32) -> Result<u64> {
    let count = records.lens.len() as u64;
    for _ in 0..rounds {
        if records.lawful(asked) != count {
            bail!("a merged record is none");
        }
    }
    Ok(count)
}

/// Takes as many bytes as a merge out of a file and into another so often, as a merge takes them: what a window reads of each
/// of four places in turn, and a piece as long. What a file in memory does for a merge takes so long, and is no part of it.
pub(crate) fn copied_again(alloc: Global, records: &Records, rounds: u32) -> Result<Merged> {
    let name = FileName::Component { from: 1, to: 1 };
    let mut watch = Tally::none();
    let mut source = SilentDevice::within(name, Vec::new(alloc));
    source.write_at(0, &records.bytes, &mut watch)?;
    let file = SilentStore {}.freeze(alloc, source, &mut watch)?;
    let mut windows = Vec::new(alloc);
    for _ in 0..STREAMS {
        windows.push(filled(alloc, WINDOW_LEN)?)?;
    }
    let mut made = Merged { reads: 0, bytes: 0 };
    let mut room = Vec::new(alloc);
    for _ in 0..rounds {
        let mut device = SilentDevice::within(name, room);
        copy(&file, &mut windows, &mut device, &mut watch)?;
        made.bytes = made.bytes.wrapping_add(device.len());
        room = device.into_room();
    }
    made.reads = watch.reads;
    Ok(made)
}

/// How many components a merge of the benchmark has.
const STREAMS: usize = 4;

/// How many bytes a merge reads and writes together.
const WINDOW_LEN: usize = 65_536;

fn filled(alloc: Global, len: usize) -> Result<Vec<u8>> {
    let mut bytes = Vec::new(alloc);
    bytes.resize(len, 0)?;
    Ok(bytes)
}

/// Takes a file into a device, by one window of each of its parts in turn.
fn copy(
    file: &SilentFile,
    windows: &mut Vec<Vec<u8>>,
    device: &mut SilentDevice,
    watch: &mut Tally,
) -> Result<()> {
    let part = file.len() / STREAMS as u64;
    let turns = (part / WINDOW_LEN as u64).saturating_add(1);
    for turn in 0..turns {
        let mut begin = turn.saturating_mul(WINDOW_LEN as u64);
        let count = part.saturating_sub(begin).min(WINDOW_LEN as u64);
        for window in windows.iter_mut() {
            window.resize(count as usize, 0)?;
            copy_window(file, begin, window, device, watch)?;
            begin = begin.wrapping_add(part);
        }
    }
    Ok(())
}

fn copy_window(
    file: &SilentFile,
    begin: u64,
    window: &mut [u8],
    device: &mut SilentDevice,
    watch: &mut Tally,
) -> Result<()> {
    if begin > file.len() || window.len() as u64 > file.len() - begin {
        bail!("a window ends behind the file");
    }
    file.read(begin, window, watch)?;
    let end = device.len();
    device.write_at(end, window, watch)?;
    Ok(())
}

/// The file of their merge, which is whole, in this room.
fn merge(
    alloc: Global,
    run: &[Shared],
    room: Vec<u8>,
    watch: &mut Tally,
) -> Result<(SilentDevice, FileName)> {
    let (from, to) = (1, run.len() as u64);
    let name = FileName::Component { from, to };
    let head = Head {
        number: 0,
        count: 1,
        from,
        to,
    };
    let run = shares_of(alloc, run)?;
    if !can_merge(head, &run) {
        bail!("the components cannot be merged");
    }
    let device = SilentDevice::within(name, room);
    let job: MergeJob<SilentStore> = MergeJob::new(MergeParts {
        run,
        device,
        head,
        watch: Tally::none(),
    });
    let out = job.run(alloc);
    out.outcome?;
    watch.add(&out.watch);
    Ok((out.device, name))
}

fn shares_of(alloc: Global, run: &[Shared]) -> Result<Vec<Shared>> {
    let mut shares = Vec::new(alloc);
    for component in run {
        shares.push(Arc::try_clone(component)?)?;
    }
    Ok(shares)
}

/// The records of their merge.
pub(crate) fn records_of(alloc: Global, run: &[Shared]) -> Result<Records> {
    let mut watch = Tally::none();
    let (device, name) = merge(alloc, run, Vec::new(alloc), &mut watch)?;
    let file = SilentStore {}.freeze(alloc, device, &mut watch)?;
    let whole = Component::load(alloc, file, name, &mut watch)?;
    let mut records = Records::none(alloc);
    for at in 0..whole.len() {
        if let Found::At(place) = whole.find(whole.entry(at).key) {
            let record = whole.fetch(alloc, place, &mut watch)?;
            records.bytes.extend_from_slice(record.as_slice())?;
            records.lens.push(record.as_slice().len())?;
        }
    }
    Ok(records)
}
