//! What a stop leaves of the files of a store in memory.

ghost use Rattle.std.specs.Prelude.{Contains, option_map, OnOk, IfOk};
ghost use Rattle.tc_store.specs.declared.file_name.FileName.{FileName};
ghost use Rattle.tc_store.specs.Disk.{Disk, IsPictureOf, MayLeaveAt};
ghost use Rattle.tc_store.specs.Memory.Disk.{disk_of};
ghost use Rattle.tc_store.specs.Memory.Remains.{IsAbsent, IsPictureSoFar, picture_of};

use crate::file_name::FileName;
use crate::mem::choices::Choices;
use crate::mem::entry::{MemFile, Slot};
use crate::mem::remains::{copied, held_image};
use crate::mem::slots::{file_of, slot_of};
use std::alloc::{AllocError, Global};
use tc_bytes::Bytes;

/// What is left under a name.
fn name_image(
    alloc: Global,
    files: &[MemFile],
    slots: &[Slot],
    name: &FileName,
    choices: &mut Choices,
) -> Result<Option<Vec<u8>>, AllocError>
    ensures { IfOk result (λ left. MayLeaveAt IsAbsent (disk_of files.now slots.now name.now) (option_map (λ image. image.items) left)) }
{
    match slot_of(slots, name) {
        Some(at) => held_image(alloc, &slots[at].held, choices),
        None => match file_of(files, name) {
            Some(at) => copied(alloc, files[at].bytes.as_slice()),
            None => Ok(None),
        },
    }
}

/// Adds a file to those that are left, unless it is absent, and its name to the decided ones.
fn decide(
    left: &mut Vec<MemFile>,
    decided: &mut Vec<FileName>,
    name: FileName,
    image: Option<Vec<u8>>,
) -> Result<(), AllocError>
    requires { Contains decided.old.items name → ⊥ }
    ensures some { OnOk result ((disk : Disk) → MayLeaveAt IsAbsent (disk name) (option_map (λ bytes. bytes.items) image)
        → IsPictureSoFar decided.old.items disk (picture_of left.old.items) → IsPictureSoFar decided.new.items disk (picture_of left.new.items)) }
    ensures kept { OnOk result ((n : FileName) → Contains decided.old.items n → Contains decided.new.items n) }
    ensures listed { OnOk result (Contains decided.new.items name) }
{
    decided.push(name)?;
    match image {
        Some(image) => {
            let bytes = Bytes::of(image);
            left.push(MemFile { name, bytes })?;
            Ok(())
        }
        None => Ok(()),
    }
}

/// Decides what is left under a name, if it is not yet decided.
fn leave_name(
    left: &mut Vec<MemFile>,
    decided: &mut Vec<FileName>,
    files: &[MemFile],
    slots: &[Slot],
    name: FileName,
    choices: &mut Choices,
) -> Result<(), AllocError>
    requires { IsPictureSoFar decided.old.items (disk_of files.now slots.now) (picture_of left.old.items) }
    ensures some { OnOk result (IsPictureSoFar decided.new.items (disk_of files.now slots.now) (picture_of left.new.items)) }
    ensures kept { OnOk result ((n : FileName) → Contains decided.old.items n → Contains decided.new.items n) }
    ensures listed { OnOk result (Contains decided.new.items name) }
{
    if decided.contains(&name) {
        return Ok(());
    }
    let image = name_image(*decided.allocator(), files, slots, &name, choices)?;
    decide(left, decided, name, image)
}

/// The files that a stop leaves, chosen by a number.
pub(crate) fn files_left(
    alloc: Global,
    files: &[MemFile],
    slots: &[Slot],
    choice: u64,
) -> Result<Vec<MemFile>, AllocError>
    ensures { IfOk result (λ left. IsPictureOf (λ name. IsAbsent) (disk_of files.now slots.now) (picture_of left.items)) }
{
    let mut choices = Choices::of(choice);
    let mut left = Vec::new(alloc);
    let mut decided = Vec::new(alloc);
    for slot in slots {
        leave_name(
            &mut left,
            &mut decided,
            files,
            slots,
            slot.name,
            &mut choices,
        )?;
    }
    for file in files {
        leave_name(
            &mut left,
            &mut decided,
            files,
            slots,
            file.name,
            &mut choices,
        )?;
    }
    Ok(left)
}
