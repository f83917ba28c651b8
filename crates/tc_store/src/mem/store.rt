//! A store in memory.

ghost use Rattle.std.specs.Prelude.{◌≡◌, ◌≤◌, ◌↔◌, ◌+◌, [], ◌∷◌, None, true, reverse, vec_len, vec_capacity, OnOk, OnErr, IfOk, IsErrOf};
ghost use Rattle.tc_store.specs.Counted.{IsCounted};
ghost use Rattle.tc_store.specs.Disk.{none, home, IsThere, IsSettledHome, ListsNames};
ghost use Rattle.tc_store.specs.DiskFile.{IsSettled};
ghost use Rattle.tc_store.specs.Memory.Disk.{disk_of, disks_of, file_entry, owed_by, owed_of, entry_of};
ghost use Rattle.tc_store.specs.Memory.Watch.{counts_of, is_failing, after_call};
ghost use Rattle.tc_store.specs.Moments.{IfTold};
ghost use Rattle.tc_store.specs.StoreCalls.{takes, content_at, makes, fresh_file_at, FailsMaking, returns_as, comes_home, content_now, frozen_entry, removes};

use crate::fault::StoreFault;
use crate::file_name::FileName;
use crate::mem::device::{MemDevice, push_in_room};
use crate::mem::entry::{Act, Change, Held, MemFile, Slot};
use crate::mem::frozen::MemFrozen;
use crate::mem::slots::{
    make_slot, names_of, owed, remove_slot, return_slot, shares_of, take_from,
};
use crate::mem::stop::files_left;
use crate::mem::watch::MemWatch;
use crate::store::Store;
use std::alloc::{AllocError, Global};

/// Files in memory, with a record of the calls that changed them.
#[derive(Drop)]
pub struct MemStore {
    /// The files that were never taken.
    pub(crate) files: Vec<MemFile>,
    /// The others, each name once.
    slots: Vec<Slot>,
    /// The changes so far, the oldest first. It has room for the changes of files that are still or out.
    past: Vec<Change>,
    owed: usize,
    ghost counted: { owed ≡ owed_by slots.items },
    ghost room: { vec_len past + owed ≤ vec_capacity past },
}

impl MemStore {
    ghost use Rattle.tc_store.specs.Disk.{IsAtRest};
    ghost use Rattle.tc_store.specs.Memory.Remains.{IsLeftBy};
    ghost use Rattle.tc_store.specs.Memory.Store.{store_disks, SameParts};

    /// A store with no file. Takes no memory.
    pub fn new(alloc: Global) -> MemStore
        ensures empty { store_disks result ≡ (λ name. none None) ∷ [] }
        ensures at_rest { IfTold (store_disks result) IsAtRest }
    {
        MemStore::with(Vec::new(alloc))
    }

    /// A store with these files, at home and durable as they are. Of several of one name the first counts. Takes no memory.
    pub fn with(files: Vec<MemFile>) -> MemStore
        ensures files { store_disks result ≡ file_entry files.items ∷ [] }
        ensures at_rest { IfTold (store_disks result) IsAtRest }
    {
        let alloc = *files.allocator();
        MemStore {
            files,
            slots: Vec::new(alloc),
            past: Vec::new(alloc),
            owed: 0,
        }
    }

    /// What a stop now may leave, as a store of its own. Each write since a file's last sync is there, lost, torn, or other
    /// bytes in its range; a file that was never synced may be absent, or the removed one that had its name; a removed file
    /// may be back. The digits of the number choose: 0 loses nothing but removed files, and each outcome of these kinds has
    /// its number. A file that is out is lost: bring its device home first.
    pub fn stop(self, choice: u64) -> Result<MemStore, AllocError>
        ensures left { IfOk result (λ store. IfTold (store_disks self) (λ disk. IsLeftBy disk (store_disks store))) }
        ensures at_rest { IfOk result (λ store. IfTold (store_disks store) IsAtRest) }
    {
        let alloc = *self.files.allocator();
        let left = files_left(alloc, &self.files, &self.slots, choice)?;
        Ok(MemStore::with(left))
    }

    /// Makes room for so many changes more.
    fn make_room(&mut self, changes: usize) -> Result<(), AllocError>
        requires { changes ≤ 3 }
        ensures same { store_disks self.new ≡ store_disks self.old }
        ensures parts { SameParts self.old self.new }
        ensures room { OnOk result (vec_len self.new.past + self.new.owed + changes ≤ vec_capacity self.new.past) }
    {
        self.past.reserve(self.owed + changes)
    }

    /// Gives a file that is out another entry. What is not out of this store changes nothing.
    fn return_as(&mut self, name: FileName, held: Held)
        requires { owed_of held ≤ 1 }
        ensures { store_disks self.new ≡ returns_as name (entry_of held) (store_disks self.old) }
    {
        let kept = owed(&held);
        if return_slot(&mut self.slots, &name, held) {
            let act = Act::Returned;
            push_in_room(&mut self.past, Change { name, act });
            self.owed = self.owed + kept - 2;
        }
    }

    /// Removes a still file. What is none of this store changes nothing.
    fn remove_still(&mut self, name: FileName)
        ensures { store_disks self.new ≡ removes name (store_disks self.old) }
    {
        if remove_slot(&mut self.slots, &name) {
            let act = Act::Removed;
            push_in_room(&mut self.past, Change { name, act });
            self.owed -= 1;
        }
    }
}

impl Store for MemStore {
    type Watch = MemWatch;

    type Device = MemDevice;

    type Frozen = MemFrozen;

    ghost use Rattle.tc_store.specs.Memory.Device.{device_name, device_files, device_size};
    ghost use Rattle.tc_store.specs.Memory.Frozen.{frozen_name, frozen_size, frozen_content};
    ghost use Rattle.tc_store.specs.Memory.Store.{store_disks};
    ghost use Rattle.tc_store.specs.Memory.StoreLaws.{disk_may_stay};

    ghost history = { λ s. disks_of (disk_of s.files.items s.slots.items) (reverse s.past.items) };

    ghost content_may_stay = { λ s name. disk_may_stay s.files.items s.slots.items name };

    fn names(&mut self, alloc: Global, watch: &mut MemWatch) -> Result<Vec<FileName>, StoreFault>
        ensures names { IfOk result (λ names. IfTold (store_disks self.old) (ListsNames names.items)) }
        ensures same { store_disks self.new ≡ store_disks self.old }
        ensures counted { IsCounted (IsErrOf result StoreFault.Fault) (counts_of watch.old) (counts_of watch.new) }
        ensures numbered { watch.new ≡ after_call watch.old }
        ensures fails { IsErrOf result StoreFault.Fault ↔ (is_failing watch.old ≡ true) }
    {
        if watch.call_fails() {
            return Err(StoreFault::Fault);
        }
        Ok(names_of(alloc, &self.files, &self.slots)?)
    }

    fn take(
        &mut self,
        alloc: Global,
        name: FileName,
        watch: &mut MemWatch,
    ) -> Result<MemFrozen, StoreFault>
        requires { IfTold (store_disks self.old) (λ disk. IsSettledHome (disk name)) }

        ensures taken { OnOk result (store_disks self.new ≡ takes name (store_disks self.old)) }
        ensures content { IfOk result (λ file. frozen_content file ≡ content_at name (store_disks self.old)) }
        ensures name { IfOk result (λ file. frozen_name file ≡ name) }
        ensures same { OnErr result (store_disks self.new ≡ store_disks self.old) }
        ensures counted { IsCounted (IsErrOf result StoreFault.Fault) (counts_of watch.old) (counts_of watch.new) }
        ensures numbered { watch.new ≡ after_call watch.old }
        ensures fails { IsErrOf result StoreFault.Fault ↔ (is_failing watch.old ≡ true) }
    {
        if watch.call_fails() {
            return Err(StoreFault::Fault);
        }
        self.make_room(2)?;
        let bytes = take_from(alloc, &mut self.files, &mut self.slots, name)?;
        let act = Act::Taken;
        push_in_room(&mut self.past, Change { name, act });
        self.owed += 1;
        Ok(MemFrozen { name, bytes })
    }

    fn fresh(
        &mut self,
        alloc: Global,
        name: FileName,
        watch: &mut MemWatch,
    ) -> Result<MemDevice, StoreFault>
        requires { IfTold (store_disks self.old) (λ disk. IsThere (disk name) → ⊥) }

        ensures made { OnOk result (store_disks self.new ≡ makes name (store_disks self.old)) }
        ensures file { IfOk result (λ device. device_files device ≡ fresh_file_at name (store_disks self.old)) }
        ensures empty { IfOk result (λ device. device_size device ≡ 0) }
        ensures name { IfOk result (λ device. device_name device ≡ name) }
        ensures failed { OnErr result (FailsMaking name (store_disks self.old) (store_disks self.new)) }
        ensures counted { IsCounted (IsErrOf result StoreFault.Fault) (counts_of watch.old) (counts_of watch.new) }
        ensures numbered { watch.new ≡ after_call watch.old }
        ensures fails { IsErrOf result StoreFault.Fault ↔ (is_failing watch.old ≡ true) }
    {
        if watch.call_fails() {
            return Err(StoreFault::Fault);
        }
        self.make_room(3)?;
        let (one, other) = make_slot(&mut self.slots, name)?;
        let act = Act::Made(one);
        push_in_room(&mut self.past, Change { name, act });
        self.owed += 2;
        Ok(MemDevice::new(alloc, name, other))
    }

    fn freeze(
        &mut self,
        alloc: Global,
        device: MemDevice,
        watch: &mut MemWatch,
    ) -> Result<MemFrozen, StoreFault>
        requires { IfTold (device_files device) IsSettled }

        ensures frozen { OnOk result (store_disks self.new ≡ comes_home (device_name device) frozen_entry (device_files device) (store_disks self.old)) }
        ensures content { IfOk result (λ file. frozen_content file ≡ content_now (device_files device)) }
        ensures size { IfOk result (λ file. frozen_size file ≡ device_size device) }
        ensures name { IfOk result (λ file. frozen_name file ≡ device_name device) }
        ensures abandoned { OnErr result (store_disks self.new ≡ comes_home (device_name device) home (device_files device) (store_disks self.old)) }
        ensures counted { IsCounted (IsErrOf result StoreFault.Fault) (counts_of watch.old) (counts_of watch.new) }
        ensures numbered { watch.new ≡ after_call watch.old }
        ensures fails { IsErrOf result StoreFault.Fault ↔ (is_failing watch.old ≡ true) }
    {
        let name = device.file_name();
        if watch.call_fails() {
            self.return_as(name, Held::Home(device));
            return Err(StoreFault::Fault);
        }
        match shares_of(alloc, device.bytes()) {
            Ok((one, bytes)) => {
                self.return_as(name, Held::Still(one));
                Ok(MemFrozen { name, bytes })
            }
            Err(_) => {
                self.return_as(name, Held::Home(device));
                Err(StoreFault::Memory)
            }
        }
    }

    fn remove(&mut self, file: MemFrozen, watch: &mut MemWatch) -> Result<(), StoreFault>
        ensures removed { store_disks self.new ≡ removes (frozen_name file) (store_disks self.old) }
        ensures counted { IsCounted (IsErrOf result StoreFault.Fault) (counts_of watch.old) (counts_of watch.new) }
        ensures numbered { watch.new ≡ after_call watch.old }
        ensures fails { IsErrOf result StoreFault.Fault ↔ (is_failing watch.old ≡ true) }
    {
        self.remove_still(file.name);
        if watch.call_fails() {
            return Err(StoreFault::Fault);
        }
        Ok(())
    }

    fn abandon(&mut self, device: MemDevice) {
        self.return_as(device.file_name(), Held::Home(device));
    }
}
