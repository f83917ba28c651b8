//! How the slots of a store in memory change.

ghost use Rattle.std.specs.Prelude.{◌≡◌, ◌<◌, ◌+◌, ℕ, length, slice_index_or, slice_set, true, false, All, List, Option, Some, IfNone, IfSome, OnOk, OnErr, IfOk, option_map, IsTrue, ◌↔◌, Contains};
ghost use Rattle.tc_store.specs.declared.mem.entry.MemFile.{MemFile};
ghost use Rattle.tc_store.specs.declared.mem.entry.Slot.{Slot};
ghost use Rattle.tc_store.specs.Disk.{same_name, put, none, home, still, out, is_out, is_still, content_of, IsThere, IsSettledHome, ListsNames};
ghost use Rattle.tc_store.specs.Memory.Names.{ListsSome};
ghost use Rattle.tc_store.specs.DiskFile.{settled_file};
ghost use Rattle.tc_store.specs.Memory.Disk.{disk_of, file_entry, owed_by, owed_of, entry_of, with_held, IsFirstSlot, IsFirstFile, PutsEntry};

use crate::file_name::{FileName, is_same};
use crate::mem::entry::{Held, MemFile, Slot};
use std::alloc::{AllocError, Global};
use std::mem;
use std::sync::Arc;

/// Where a name stands among the slots.
pub(crate) fn slot_of(slots: &[Slot], name: &FileName) -> Option<usize>
    ensures none { IfNone result (All (λ slot. same_name slot.name name.now ≡ false) slots.now) }
    ensures first { IfSome result (IsFirstSlot slots.now name.now) }
{
    slots.iter().position(|slot| is_same(&slot.name, name))
}

/// Where a name stands among the files.
pub(crate) fn file_of(files: &[MemFile], name: &FileName) -> Option<usize>
    ensures none { IfNone result (All (λ file. same_name file.name name.now ≡ false) files.now) }
    ensures first { IfSome result (IsFirstFile files.now name.now) }
{
    files.iter().position(|file| is_same(&file.name, name))
}

/// Puts something else into a slot, and gives what was held there.
fn swap_held(slots: &mut Vec<Slot>, at: usize, held: Held) -> Held
    requires { at < length slots.old.items }
    ensures slots { (d : Slot) → slots.new.items ≡ slice_set slots.old.items at (with_held (slice_index_or slots.old.items at d) held) }
    ensures was { (d : Slot) → result ≡ (slice_index_or slots.old.items at d).held }
{
    let slot = &mut slots[at];
    mem::replace(&mut slot.held, held)
}

/// How many changes are owed to what is held.
pub(crate) fn owed(held: &Held) -> usize
    ensures { result ≡ owed_of held.now }
{
    match held {
        Held::Out => 2,
        Held::Still(_) => 1,
        _other => 0,
    }
}

fn is_out_held(held: &Held) -> bool
    ensures { result ≡ is_out (entry_of held.now) }
{
    matches!(held, Held::Out)
}

fn is_still_held(held: &Held) -> bool
    ensures { result ≡ is_still (entry_of held.now) }
{
    matches!(held, Held::Still(_))
}

/// Puts something else into the slot of a file that is out. Tells whether there is one.
pub(crate) fn return_slot(slots: &mut Vec<Slot>, name: &FileName, held: Held) -> bool
    ensures exact { (files : List MemFile) → is_out (disk_of files slots.old.items name.now) ≡ result }
    ensures puts { result ≡ true → PutsEntry name.now (entry_of held) slots.old.items slots.new.items }
    ensures owed { result ≡ true → owed_by slots.new.items + 2 ≡ owed_by slots.old.items + owed_of held }
    ensures same { result ≡ false → slots.new.items ≡ slots.old.items }
{
    match slot_of(slots, name) {
        Some(at) => {
            if !is_out_held(&slots[at].held) {
                return false;
            }
            let _out = swap_held(slots, at, held);
            true
        }
        None => false,
    }
}

/// Makes a removed file of a still one. Tells whether there is one.
pub(crate) fn remove_slot(slots: &mut Vec<Slot>, name: &FileName) -> bool
    ensures exact { (files : List MemFile) → is_still (disk_of files slots.old.items name.now) ≡ result }
    ensures puts { result ≡ true → (files : List MemFile) → PutsEntry name.now (none (content_of (disk_of files slots.old.items name.now))) slots.old.items slots.new.items }
    ensures owed { result ≡ true → owed_by slots.new.items + 1 ≡ owed_by slots.old.items }
    ensures same { result ≡ false → slots.new.items ≡ slots.old.items }
{
    match slot_of(slots, name) {
        Some(at) => {
            if !is_still_held(&slots[at].held) {
                return false;
            }
            match swap_held(slots, at, Held::Out) {
                Held::Still(bytes) => {
                    let _out = swap_held(slots, at, Held::Gone(bytes));
                    true
                }
                _other => unreachable!(),
            }
        }
        None => false,
    }
}

/// Copies bytes, and shares the copy.
pub(crate) fn shares_of(
    alloc: Global,
    bytes: &[u8],
) -> Result<(Arc<Vec<u8>>, Arc<Vec<u8>>), AllocError>
    ensures one { IfOk result (λ both. both.0.value.items ≡ bytes.now) }
    ensures other { IfOk result (λ both. both.1.value.items ≡ bytes.now) }
{
    let one = Arc::new(alloc, Vec::from_slice(alloc, bytes)?)?;
    let other = one.clone()?;
    Ok((one, other))
}

/// Makes a file at home still, and gives a share of its bytes.
fn take_slot(
    alloc: Global,
    slots: &mut Vec<Slot>,
    name: FileName,
    at: usize,
) -> Result<Arc<Vec<u8>>, AllocError>
    requires first { IsFirstSlot slots.old.items name at }
    requires settled { (d : Slot) → IsSettledHome (entry_of (slice_index_or slots.old.items at d).held) }
    ensures puts { IfOk result (λ bytes. PutsEntry name (still bytes.value.items) slots.old.items slots.new.items) }
    ensures was { IfOk result (λ bytes. (d : Slot) → entry_of (slice_index_or slots.old.items at d).held ≡ home (settled_file bytes.value.items)) }
    ensures owed { OnOk result (owed_by slots.new.items ≡ owed_by slots.old.items + 1) }
    ensures same { OnErr result (slots.new.items ≡ slots.old.items) }
{
    let (one, other) = match &slots[at].held {
        Held::Home(device) => shares_of(alloc, device.bytes())?,
        _other => unreachable!(),
    };
    let _home = swap_held(slots, at, Held::Still(one));
    Ok(other)
}

/// Makes a still file of one that was never taken, and gives a share of its bytes.
fn take_file(
    alloc: Global,
    files: &mut Vec<MemFile>,
    slots: &mut Vec<Slot>,
    name: FileName,
) -> Result<Arc<Vec<u8>>, AllocError>
    requires free { All (λ slot. same_name slot.name name ≡ false) slots.old.items }
    requires settled { IsSettledHome (file_entry files.old.items name) }
    ensures puts { IfOk result (λ bytes. disk_of files.new.items slots.new.items ≡ put name (still bytes.value.items) (disk_of files.old.items slots.old.items)) }
    ensures was { IfOk result (λ bytes. file_entry files.old.items name ≡ home (settled_file bytes.value.items)) }
    ensures owed { OnOk result (owed_by slots.new.items ≡ owed_by slots.old.items + 1) }
    ensures same_files { OnErr result (files.new.items ≡ files.old.items) }
    ensures same_slots { OnErr result (slots.new.items ≡ slots.old.items) }
{
    match file_of(files, &name) {
        Some(at) => {
            let (one, other) = shares_of(alloc, files[at].bytes.as_slice())?;
            let held = Held::Still(one);
            slots.push(Slot { name, held })?;
            let _file = files.remove(at);
            Ok(other)
        }
        None => unreachable!(),
    }
}

/// Puts an empty file that is out where there is none, and gives two shares of what the removed one held.
pub(crate) fn make_slot(
    slots: &mut Vec<Slot>,
    name: FileName,
) -> Result<(Option<Arc<Vec<u8>>>, Option<Arc<Vec<u8>>>), AllocError>
    requires { (at : ℕ) (d : Slot) → IsFirstSlot slots.old.items name at → IsThere (entry_of (slice_index_or slots.old.items at d).held) → ⊥ }
    ensures puts { OnOk result (PutsEntry name out slots.old.items slots.new.items) }
    ensures was { IfOk result (λ both. (files : List MemFile) → (IsThere (disk_of files slots.old.items name) → ⊥)
        → disk_of files slots.old.items name ≡ none (option_map (λ bytes. bytes.value.items) both.0)) }
    ensures two { IfOk result (λ both. option_map (λ bytes. bytes.value.items) both.1 ≡ option_map (λ bytes. bytes.value.items) both.0) }
    ensures owed { OnOk result (owed_by slots.new.items ≡ owed_by slots.old.items + 2) }
    ensures same { OnErr result (slots.new.items ≡ slots.old.items) }
{
    match slot_of(slots, &name) {
        Some(at) => {
            let (one, other) = match &slots[at].held {
                Held::Gone(bytes) => (bytes.clone()?, bytes.clone()?),
                _other => unreachable!(),
            };
            let _gone = swap_held(slots, at, Held::Out);
            Ok((Some(one), Some(other)))
        }
        None => {
            let held = Held::Out;
            slots.push(Slot { name, held })?;
            Ok((None, None))
        }
    }
}

/// Makes a file at home still, and gives a share of its bytes.
pub(crate) fn take_from(
    alloc: Global,
    files: &mut Vec<MemFile>,
    slots: &mut Vec<Slot>,
    name: FileName,
) -> Result<Arc<Vec<u8>>, AllocError>
    requires { IsSettledHome (disk_of files.old.items slots.old.items name) }
    ensures puts { IfOk result (λ bytes. disk_of files.new.items slots.new.items ≡ put name (still bytes.value.items) (disk_of files.old.items slots.old.items)) }
    ensures was { IfOk result (λ bytes. disk_of files.old.items slots.old.items name ≡ home (settled_file bytes.value.items)) }
    ensures owed { OnOk result (owed_by slots.new.items ≡ owed_by slots.old.items + 1) }
    ensures same_files { OnErr result (files.new.items ≡ files.old.items) }
    ensures same_slots { OnErr result (slots.new.items ≡ slots.old.items) }
{
    match slot_of(slots, &name) {
        Some(at) => take_slot(alloc, slots, name, at),
        None => take_file(alloc, files, slots, name),
    }
}

fn is_held(held: &Held) -> bool
    ensures { IsTrue result ↔ IsThere (entry_of held.now) }
{
    !matches!(held, Held::Gone(_))
}

/// Whether a file of this name is there.
fn is_there(files: &[MemFile], slots: &[Slot], name: &FileName) -> bool
    ensures { IsTrue result ↔ IsThere (disk_of files.now slots.now name.now) }
{
    match slot_of(slots, name) {
        Some(at) => is_held(&slots[at].held),
        None => match file_of(files, name) {
            Some(_) => true,
            None => false,
        },
    }
}

/// Lists a name, if its file is there and it is not yet listed.
fn list_name(
    names: &mut Vec<FileName>,
    files: &[MemFile],
    slots: &[Slot],
    name: FileName,
) -> Result<(), AllocError>
    requires { ListsSome names.old.items (disk_of files.now slots.now) }
    ensures some { OnOk result (ListsSome names.new.items (disk_of files.now slots.now)) }
    ensures kept { OnOk result ((n : FileName) → Contains names.old.items n → Contains names.new.items n) }
    ensures listed { OnOk result (IsThere (disk_of files.now slots.now name) → Contains names.new.items name) }
{
    if is_there(files, slots, &name) && !names.contains(&name) {
        names.push(name)?;
    }
    Ok(())
}

/// The names of the files that are there.
pub(crate) fn names_of(
    alloc: Global,
    files: &[MemFile],
    slots: &[Slot],
) -> Result<Vec<FileName>, AllocError>
    ensures { IfOk result (λ names. ListsNames names.items (disk_of files.now slots.now)) }
{
    let mut names = Vec::new(alloc);
    for slot in slots {
        list_name(&mut names, files, slots, slot.name)?;
    }
    for file in files {
        list_name(&mut names, files, slots, file.name)?;
    }
    Ok(names)
}
