//! A device in memory, which keeps a record of its calls.

ghost use Rattle.std.specs.Prelude.{◌≡◌, ◌⊎◌, ◌↔◌, ◌<◌, ◌≤◌, ◌+◌, ◌^◌, ◌++◌, ◌||◌, [], ◌∷◌, length, reverse, true, max, OnOk, OnErr, IsErr, IsErrOf, vec_len, vec_capacity, option_map};
ghost use Rattle.tc_store.specs.Counted.{IsCounted};
ghost use Rattle.tc_store.specs.Memory.DeviceCalls.{file_after};
ghost use Rattle.tc_store.specs.DiskFile.{empty_file, overlaid, written, synced_file};
ghost use Rattle.tc_store.specs.Memory.Watch.{counts_of, is_failing, after_call, IsNumbered};
ghost use Rattle.tc_store.specs.Moments.{goes_on, IfTold, FailsWriting};

use crate::device::Device;
use crate::fault::DeviceFault;
use crate::file_name::FileName;
use crate::mem::watch::MemWatch;
use crate::watch::Watch;
use std::alloc::{AllocError, Global};
use std::sync::Arc;

const MAX_LEN: usize = 0x7fff_ffff_ffff_ffff;

#[derive(Drop)]
pub(crate) enum DeviceCall {
    Written { at: u64, bytes: Vec<u8> },
    Tried { at: u64, count: usize },
    Synced,
}

/// A file in memory that is being written.
#[derive(Drop)]
pub struct MemDevice {
    name: FileName,
    pub(crate) before: Option<Arc<Vec<u8>>>,
    content: Vec<u8>,
    /// The calls so far, the oldest first.
    pub(crate) calls: Vec<DeviceCall>,
    ghost replayed: { content.items ≡ (file_after (option_map (λ bytes. bytes.value.items) before) (reverse calls.items)).content },
    ghost limit: { length content.items < 2 ^ 63 },
}

impl MemDevice {
    ghost use Rattle.tc_store.specs.Memory.Device.{device_name, device_size, device_files};

    /// An empty file of this name, where a removed one had these bytes. Takes no memory.
    pub(crate) fn new(alloc: Global, name: FileName, before: Option<Arc<Vec<u8>>>) -> MemDevice
        ensures name { device_name result ≡ name }
        ensures files { device_files result ≡ empty_file (option_map (λ bytes. bytes.value.items) before) ∷ [] }
    {
        MemDevice {
            name,
            before,
            content: Vec::new(alloc),
            calls: Vec::new(alloc),
        }
    }

    pub(crate) fn file_name(&self) -> FileName
        ensures { result ≡ device_name self.now }
    {
        self.name
    }

    /// What a read would give.
    pub(crate) fn bytes(&self) -> &[u8]
        ensures content { IfTold (device_files self.now) (λ f. result.now ≡ f.content) }
        ensures length { length result.now ≡ device_size self.now }
    {
        &self.content
    }
}

/// Numbers a call of a device that is to write too far or not, and tells whether it fails.
fn is_refused(watch: &mut MemWatch, is_too_far: bool) -> bool
    ensures exact { result ≡ (is_failing watch.old || is_too_far) }
    ensures numbered { IsNumbered watch.old watch.new }
    ensures counted { IsCounted (result ≡ true) (counts_of watch.old) (counts_of watch.new) }
{
    if watch.call_fails() {
        return true;
    }
    if is_too_far {
        watch.add_fault();
    }
    is_too_far
}

/// Adds an item where there is room for it.
pub(crate) fn push_in_room<T: Drop>(items: &mut Vec<T>, item: T)
    requires { vec_len items.old < vec_capacity items.old }
    ensures items { items.new.items ≡ items.old.items ++ item ∷ [] }
    ensures capacity { vec_capacity items.old ≤ vec_capacity items.new }
{
    if items.push(item).is_err() {
        unreachable!();
    }
}

/// Lays bytes over those from a place on, and past the end.
pub(crate) fn overlay(content: &mut Vec<u8>, at: usize, bytes: &[u8]) -> Result<(), AllocError>
    requires { at ≤ length content.old.items }
    ensures ok { OnOk result (content.new.items ≡ overlaid at bytes.now content.old.items) }
    ensures err { OnErr result (content.new.items ≡ content.old.items) }
{
    let overlap = bytes.len().min(content.len() - at);
    let (over, behind) = bytes.split_at(overlap);
    content.extend_from_slice(behind)?;
    content[at..at + overlap].copy_from_slice(over);
    Ok(())
}

impl Device for MemDevice {
    type Watch = MemWatch;

    ghost use Rattle.tc_store.specs.Memory.Device.{device_name, device_size, device_files};

    ghost name = { device_name };

    ghost size = { device_size };

    ghost history = { device_files };

    ghost use Rattle.std.proofs.Common.{ap};
    ghost use Rattle.tc_store.specs.Memory.DeviceLaws.{may_stay_after};

    ghost told_size = { λ d. ap length d.replayed };

    ghost content_may_stay = { λ d. may_stay_after (option_map (λ bytes. bytes.value.items) d.before) (reverse d.calls.items) };

    fn len(&self) -> u64 {
        self.content.len() as u64
    }

    fn write_at(&mut self, at: u64, bytes: &[u8], watch: &mut MemWatch) -> Result<(), DeviceFault>
        requires { at ≤ device_size self.old }

        ensures written { OnOk result (device_files self.new ≡ goes_on (written at bytes.now) (device_files self.old)) }
        ensures longer { OnOk result (device_size self.new ≡ max (device_size self.old) (at + length bytes.now)) }
        ensures failed { IsErrOf result DeviceFault.Fault → FailsWriting at (length bytes.now) (device_files self.old) (device_files self.new) }
        ensures no_memory { IsErrOf result DeviceFault.Memory → device_files self.new ≡ device_files self.old }
        ensures same_size { IsErrOf result DeviceFault.Memory → device_size self.new ≡ device_size self.old }
        ensures too_far { 2 ^ 63 ≤ at + length bytes.now → IsErr result }
        ensures name { device_name self.new ≡ device_name self.old }
        ensures counted { IsCounted (IsErrOf result DeviceFault.Fault) (counts_of watch.old) (counts_of watch.new) }

        ensures numbered { IsNumbered watch.old watch.new }
        ensures fails { is_failing watch.old ≡ true → IsErr result }
        ensures no_other { IsErrOf result DeviceFault.Fault → (is_failing watch.old ≡ true) ⊎ (2 ^ 63 ≤ at + length bytes.now) }
    {
        let place = at as usize;
        let fails = is_refused(watch, bytes.len() > MAX_LEN - place);
        self.calls.reserve(1)?;
        if fails {
            push_in_room(
                &mut self.calls,
                DeviceCall::Tried {
                    at,
                    count: bytes.len(),
                },
            );
            return Err(DeviceFault::Fault);
        }
        let copy = Vec::from_slice(*self.content.allocator(), bytes)?;
        overlay(&mut self.content, place, bytes)?;
        push_in_room(&mut self.calls, DeviceCall::Written { at, bytes: copy });
        Ok(())
    }

    fn sync(&mut self, watch: &mut MemWatch) -> Result<(), DeviceFault>
        ensures synced { OnOk result (device_files self.new ≡ goes_on synced_file (device_files self.old)) }
        ensures failed { OnErr result (device_files self.new ≡ device_files self.old) }
        ensures size { device_size self.new ≡ device_size self.old }
        ensures name { device_name self.new ≡ device_name self.old }
        ensures counted { IsCounted (IsErrOf result DeviceFault.Fault) (counts_of watch.old) (counts_of watch.new) }

        ensures numbered { watch.new ≡ after_call watch.old }
        ensures fails { IsErrOf result DeviceFault.Fault ↔ (is_failing watch.old ≡ true) }
    {
        if watch.call_fails() {
            return Err(DeviceFault::Fault);
        }
        self.calls.reserve(1)?;
        push_in_room(&mut self.calls, DeviceCall::Synced);
        Ok(())
    }
}
