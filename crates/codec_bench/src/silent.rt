//! Files in memory that tell nothing, and a watch that counts what is done to them.

ghost use Rattle.std.specs.Prelude.{◌≡◌, ◌<◌, ◌^◌, [], None, length};

use std::alloc::Global;
use tc_store::{Device, DeviceFault, FileName, Frozen, FrozenFault, Store, StoreFault, Watch};

const MAX_LEN: usize = 0x7fff_ffff_ffff_ffff;

/// Counts reads, writes and syncs. No call fails but for want of memory, and a write or a take that cannot be done.
#[derive(Drop)]
pub(crate) struct Tally {
    faults: u64,
    pub reads: u64,
    pub writes: u64,
    pub syncs: u64,
}

impl Tally {
    ghost use Rattle.tc_store.specs.Counted.{IsCounted};
    ghost use Rattle.codec_bench.specs.Counts.{counts_of};

    pub(crate) fn none() -> Tally {
        Tally {
            faults: 0,
            reads: 0,
            writes: 0,
            syncs: 0,
        }
    }

    /// Adds what another watch counted.
    pub(crate) fn add(&mut self, other: &Tally) {
        self.reads = self.reads.saturating_add(other.reads);
        self.writes = self.writes.saturating_add(other.writes);
        self.syncs = self.syncs.saturating_add(other.syncs);
    }

    fn add_fault(&mut self)
        ensures { IsCounted (Unit {0}) (counts_of self.old) (counts_of self.new) }
    {
        self.faults = self.faults.saturating_add(1);
    }
}

impl Watch for Tally {
    ghost use Rattle.codec_bench.specs.Counts.{counts_of};

    ghost counts = { counts_of };

    fn faults(&self) -> u64 {
        self.faults
    }

    fn reads(&self) -> u64 {
        self.reads
    }
}

/// A file that is being written.
#[derive(Drop)]
pub(crate) struct SilentDevice {
    name: FileName,
    bytes: Vec<u8>,
    ghost limit: { length bytes.items < 2 ^ 63 },
}

impl SilentDevice {
    /// An empty file that is written into room that was there before, so that its growth costs nothing once the room was
    /// used.
    pub(crate) fn within(name: FileName, room: Vec<u8>) -> SilentDevice
        ensures { length result.bytes.items ≡ 0 }
    {
        let mut bytes = room;
        bytes.clear();
        SilentDevice { name, bytes }
    }

    /// The room of a file that nobody reads any more.
    pub(crate) fn into_room(self) -> Vec<u8> {
        self.bytes
    }
}

impl Device for SilentDevice {
    type Watch = Tally;

    ghost name = { λ d. d.name };

    ghost size = { λ d. length d.bytes.items };

    ghost history = { λ d. [] };

    ghost told_size = { λ d. tt };

    ghost content_may_stay = { λ d. tt };

    fn len(&self) -> u64 {
        self.bytes.len() as u64
    }

    fn write_at(&mut self, at: u64, bytes: &[u8], watch: &mut Tally) -> Result<(), DeviceFault> {
        watch.writes = watch.writes.saturating_add(1);
        let place = at as usize;
        if bytes.len() > MAX_LEN - place {
            watch.add_fault();
            return Err(DeviceFault::Fault);
        }
        let overlap = bytes.len().min(self.bytes.len() - place);
        let (over, behind) = bytes.split_at(overlap);
        self.bytes.extend_from_slice(behind)?;
        self.bytes[place..place + overlap].copy_from_slice(over);
        Ok(())
    }

    fn sync(&mut self, watch: &mut Tally) -> Result<(), DeviceFault> {
        watch.syncs = watch.syncs.saturating_add(1);
        Ok(())
    }
}

/// A still file.
#[derive(Drop)]
pub(crate) struct SilentFile {
    name: FileName,
    bytes: Vec<u8>,
    ghost limit: { length bytes.items < 2 ^ 63 },
}

impl Frozen for SilentFile {
    type Watch = Tally;

    ghost name = { λ f. f.name };

    ghost size = { λ f. length f.bytes.items };

    ghost content = { λ f. None };

    ghost told_size = { λ f. tt };

    fn len(&self) -> u64 {
        self.bytes.len() as u64
    }

    fn read(&self, at: u64, into: &mut [u8], watch: &mut Tally) -> Result<(), FrozenFault> {
        watch.reads = watch.reads.saturating_add(1);
        let start = at as usize;
        let end = start + into.len();
        into.copy_from_slice(&self.bytes[start..end]);
        Ok(())
    }
}

/// Makes and freezes files, and keeps none.
#[derive(Drop)]
pub(crate) struct SilentStore {}

impl Store for SilentStore {
    type Watch = Tally;

    type Device = SilentDevice;

    type Frozen = SilentFile;

    ghost history = { λ s. [] };

    ghost content_may_stay = { λ s name. tt };

    fn names(&mut self, alloc: Global, _watch: &mut Tally) -> Result<Vec<FileName>, StoreFault> {
        Ok(Vec::new(alloc))
    }

    fn take(
        &mut self,
        _alloc: Global,
        _name: FileName,
        watch: &mut Tally,
    ) -> Result<SilentFile, StoreFault> {
        watch.add_fault();
        Err(StoreFault::Fault)
    }

    fn fresh(
        &mut self,
        alloc: Global,
        name: FileName,
        _watch: &mut Tally,
    ) -> Result<SilentDevice, StoreFault> {
        Ok(SilentDevice {
            name,
            bytes: Vec::new(alloc),
        })
    }

    fn freeze(
        &mut self,
        _alloc: Global,
        device: SilentDevice,
        _watch: &mut Tally,
    ) -> Result<SilentFile, StoreFault> {
        let SilentDevice { name, bytes } = device;
        Ok(SilentFile { name, bytes })
    }

    fn remove(&mut self, file: SilentFile, _watch: &mut Tally) -> Result<(), StoreFault> {
        drop(file);
        Ok(())
    }

    fn abandon(&mut self, device: SilentDevice) {
        drop(device);
    }
}
