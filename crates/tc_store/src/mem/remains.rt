//! What a stop leaves of one file in memory.

ghost use Rattle.std.specs.Prelude.{◌≡◌, ◌<◌, ◌≤◌, ◌+◌, ℕ, List, Option, Some, None, false, length, slice_index_or, option_map, OnOk, IfOk, IfSome};
ghost use Rattle.tc_store.specs.declared.mem.device.DeviceCall.{DeviceCall};
ghost use Rattle.tc_store.specs.Memory.DeviceCalls.{after_device_call};
ghost use Rattle.tc_store.specs.DiskFile.{DiskFile, empty_file};
ghost use Rattle.tc_store.specs.Disk.{MayLeaveAt};
ghost use Rattle.tc_store.specs.Images.{MayLeave, IsImageOf};
ghost use Rattle.tc_store.specs.Memory.Disk.{entry_of};
ghost use Rattle.tc_store.specs.Memory.Remains.{file_from, is_sync, Lays, IsUnsynced, IsAbsent};

use crate::mem::choices::Choices;
use crate::mem::device::{DeviceCall, MemDevice, overlay};
use crate::mem::entry::Held;
use std::alloc::{AllocError, Global};
use std::sync::Arc;

/// Lays bytes over those from a place on, behind zeros where the old ones end before it.
fn lay(image: &mut Vec<u8>, at: u64, bytes: &[u8]) -> Result<(), AllocError>
    ensures { OnOk result ((count : ℕ) → length bytes.now ≤ count → Lays at count image.old.items image.new.items) }
{
    let alloc = *image.allocator();
    let place = at as usize;
    let gap = place.saturating_sub(image.len());
    let zeros = vec![in alloc; 0; gap]?;
    image.extend_from_slice(&zeros)?;
    overlay(image, place, bytes)
}

/// So many times one byte, which is chosen: small numbers choose small bytes, and 0 comes last.
fn other_bytes(alloc: Global, count: usize, choices: &mut Choices) -> Result<Vec<u8>, AllocError>
    ensures { IfOk result (λ bytes. length bytes.items ≡ count) }
{
    let byte = (choices.choose(256) as u8).wrapping_add(1);
    vec![in alloc; byte; count]
}

/// A place to tear bytes at, from the middle on.
fn tear(bytes: &[u8], choices: &mut Choices) -> usize
    ensures { result ≤ length bytes.now }
{
    let places = bytes.len() as u64 + 1;
    let place = (bytes.len() as u64 / 2 + choices.choose(places)) % places;
    place as usize
}

/// Makes a write that was not synced: whole, not at all, up to a place, or with other bytes.
fn write_perhaps(
    image: &mut Vec<u8>,
    at: u64,
    bytes: &[u8],
    choices: &mut Choices,
) -> Result<(), AllocError>
    ensures { OnOk result (Lays at (length bytes.now) image.old.items image.new.items) }
{
    match choices.choose(4) {
        0 => lay(image, at, bytes),
        1 => Ok(()),
        2 => {
            let place = tear(bytes, choices);
            lay(image, at, &bytes[..place])
        }
        _other => spoil(image, at, bytes.len(), choices),
    }
}

/// Lays other bytes over those of a range.
fn spoil(
    image: &mut Vec<u8>,
    at: u64,
    count: usize,
    choices: &mut Choices,
) -> Result<(), AllocError>
    ensures { OnOk result (Lays at count image.old.items image.new.items) }
{
    let others = other_bytes(*image.allocator(), count, choices)?;
    lay(image, at, &others)
}

/// Does to what is left of a file what an unsynced call may have done.
fn redo_perhaps(
    image: &mut Vec<u8>,
    call: &DeviceCall,
    choices: &mut Choices,
) -> Result<(), AllocError>
    requires { is_sync call.now ≡ false }
    ensures { OnOk result ((f : DiskFile) → IsImageOf f image.old.items → IsImageOf (after_device_call call.now f) image.new.items) }
{
    match call {
        DeviceCall::Written { at, bytes } => write_perhaps(image, *at, bytes, choices),
        DeviceCall::Tried { at, count } => {
            if choices.choose(2) == 0 {
                return Ok(());
            }
            spoil(image, *at, *count, choices)
        }
        DeviceCall::Synced => unreachable!(),
    }
}

/// Does what unsynced calls may have done.
fn redo_all_perhaps(
    image: &mut Vec<u8>,
    calls: &[DeviceCall],
    choices: &mut Choices,
) -> Result<(), AllocError>
    requires { (k : ℕ) (d : DeviceCall) → k < length calls.now → is_sync (slice_index_or calls.now k d) ≡ false }
    ensures { OnOk result ((f : DiskFile) → IsImageOf f image.old.items → IsImageOf (file_from f calls.now) image.new.items) }
{
    for call in calls {
        redo_perhaps(image, call, choices)?;
    }
    Ok(())
}

/// Does to a content what a call did.
fn redo(content: &mut Vec<u8>, call: &DeviceCall) -> Result<(), AllocError>
    ensures { OnOk result ((f : DiskFile) → f.content ≡ content.old.items → (after_device_call call.now f).content ≡ content.new.items) }
{
    if let DeviceCall::Written { at, bytes } = call {
        let place = (*at as usize).min(content.len());
        overlay(content, place, bytes)?;
    }
    Ok(())
}

/// The content after these calls.
fn content_after(alloc: Global, calls: &[DeviceCall]) -> Result<Vec<u8>, AllocError>
    ensures { IfOk result (λ content. (before : Option (List ℕ)) → (file_from (empty_file before) calls.now).content ≡ content.items) }
{
    let mut content = Vec::new(alloc);
    for call in calls {
        redo(&mut content, call)?;
    }
    Ok(content)
}

fn is_sync_call(call: &DeviceCall) -> bool
    ensures { result ≡ is_sync call.now }
{
    matches!(call, DeviceCall::Synced)
}

/// How many calls there are up to the last sync.
fn settled_count(calls: &[DeviceCall]) -> usize
    ensures within { result ≤ length calls.now }
    ensures unsynced { result ≡ 0 → (before : Option (List ℕ)) → IsUnsynced before (file_from (empty_file before) calls.now) }
    ensures pending { (k : ℕ) (d : DeviceCall) → result ≤ k → k < length calls.now → is_sync (slice_index_or calls.now k d) ≡ false }
{
    let mut settled = 0;
    for (i, call) in calls.iter().enumerate() {
        if is_sync_call(call) {
            settled = i + 1;
        }
    }
    settled
}

/// A copy of bytes that are left for sure.
pub(crate) fn copied(alloc: Global, bytes: &[u8]) -> Result<Option<Vec<u8>>, AllocError>
    ensures { IfOk result (λ copy. option_map (λ image. image.items) copy ≡ Some bytes.now) }
{
    Ok(Some(Vec::from_slice(alloc, bytes)?))
}

/// What is left of a removed file.
fn removed_image(
    alloc: Global,
    bytes: &[u8],
    choices: &mut Choices,
) -> Result<Option<Vec<u8>>, AllocError>
    ensures { IfOk result (λ left. IfSome left (λ image. image.items ≡ bytes.now)) }
{
    if choices.choose(2) == 0 {
        return Ok(None);
    }
    copied(alloc, bytes)
}

/// What is left under the name of a file whose own name was lost.
fn unnamed_image(
    alloc: Global,
    before: &Option<Arc<Vec<u8>>>,
    choices: &mut Choices,
) -> Result<Option<Vec<u8>>, AllocError>
    ensures { IfOk result (λ left. IfSome left (λ image. option_map (λ bytes. bytes.value.items) before.now ≡ Some image.items)) }
{
    match before {
        Some(bytes) => removed_image(alloc, bytes, choices),
        None => Ok(None),
    }
}

/// What is left of a file that is written.
fn device_image(
    alloc: Global,
    before: &Option<Arc<Vec<u8>>>,
    calls: &[DeviceCall],
    choices: &mut Choices,
) -> Result<Option<Vec<u8>>, AllocError>
    ensures { IfOk result (λ left. MayLeave (file_from (empty_file (option_map (λ bytes. bytes.value.items) before.now)) calls.now) (option_map (λ image. image.items) left)) }
{
    let settled = settled_count(calls);
    if settled == 0 && choices.choose(2) == 1 {
        return unnamed_image(alloc, before, choices);
    }
    let (done, pending) = calls.split_at(settled);
    let mut image = content_after(alloc, done)?;
    redo_all_perhaps(&mut image, pending, choices)?;
    Ok(Some(image))
}

/// What is left of what is held under a name. A file that is out is absent.
pub(crate) fn held_image(
    alloc: Global,
    held: &Held,
    choices: &mut Choices,
) -> Result<Option<Vec<u8>>, AllocError>
    ensures { IfOk result (λ left. MayLeaveAt IsAbsent (entry_of held.now) (option_map (λ image. image.items) left)) }
{
    match held {
        Held::Gone(bytes) => removed_image(alloc, bytes, choices),
        Held::Home(device) => device_image(alloc, &device.before, &device.calls, choices),
        Held::Still(bytes) => copied(alloc, bytes),
        Held::Out => Ok(None),
    }
}
