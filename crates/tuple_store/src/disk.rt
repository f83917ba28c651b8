//! Why a call on the files of a partition failed.

use tc_files::{FileShelf, FileStore};
use tc_reasons::DiskError;
use tc_server::RunFault;
use tc_store::Kit;

/// Why the kit of the fault's partition was not given, or else why a call on its files failed; nothing where none did.
pub(crate) fn disk_error(
    shelf: &FileShelf,
    fault: &Option<RunFault>,
    kits: &[Kit<FileStore>],
) -> Option<DiskError> {
    let Some(RunFault::Disk { partition }) = fault else {
        return None;
    };
    if let Some(error) = shelf.last_error() {
        return Some(DiskError::Folder(error));
    }
    let kit = kits.get(*partition as usize)?;
    let error = kit
        .main
        .last_error()
        .or(kit.flusher.last_error())
        .or(kit.merger.last_error())
        .or(kit.reader.last_error())?;
    Some(DiskError::File(error))
}
