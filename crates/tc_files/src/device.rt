//! A file of the system that is being written.

ghost use Rattle.std.specs.Prelude.{◌≡◌, ◌<◌, ◌≤◌, ◌+◌, ◌^◌, ◌↔◌, [], length, max, true, OnOk, OnErr, IsErr, IsErrOf};
ghost use Rattle.tc_store.specs.Counted.{IsCounted};
ghost use Rattle.tc_store.specs.DiskFile.{written, synced_file};
ghost use Rattle.tc_store.specs.Moments.{goes_on, FailsWriting};

use crate::frozen::FileFrozen;
use crate::watch::FileWatch;
use std::alloc::Global;
use std::fs::File;
use std::io;
use std::io::ErrorKind;
use std::os::unix::fs::FileExt;
use std::path::PathBuf;
use std::sync::Arc;
use tc_store::{Device, DeviceFault, FileName};

/// The most bytes that a file of a store has.
pub(crate) const MAX_LEN: u64 = 0x7fff_ffff_ffff_ffff;

/// A file that is being written. Its first sync makes its name durable too. It keeps its folder held, and syncs it under a handle of
/// its own: a system may tell each handle once that the folder could not be written, and another file's sync may have been told.
pub struct FileDevice {
    pub(crate) name: FileName,
    pub(crate) path: PathBuf,
    pub(crate) file: File,
    pub(crate) folder: Arc<File>,
    pub(crate) own_folder: File,
    pub(crate) len: u64,
    /// Whether a sync made the name durable.
    pub(crate) is_named: bool,
    /// Whether a sync failed. The system may have dropped what it could not write, so no later one can be trusted.
    pub(crate) has_failed: bool,
    ghost limit: { len < 2 ^ 63 },
}

impl Drop for FileDevice {
    /// One call, so that whoever drops a device sees none of its fields.
    fn drop(self) {
        let FileDevice {
            name: _,
            path,
            file,
            folder,
            own_folder,
            len: _,
            is_named: _,
            has_failed: _,
        } = self;
        drop(path);
        drop(file);
        drop(folder);
        drop(own_folder);
    }
}

impl FileDevice {
    ghost use Rattle.tc_files.specs.Device.{device_name, device_size, has_failed};

    /// The same file under the same handle, to be read.
    pub(crate) fn into_frozen(self, alloc: Global) -> FileFrozen
        ensures name { result.name ≡ device_name self }
        ensures size { result.len ≡ device_size self }
    {
        let len = self.len;
        let FileDevice {
            name,
            path,
            file,
            folder: _,
            own_folder: _,
            len: _,
            is_named: _,
            has_failed: _,
        } = self;
        FileFrozen::of(alloc, name, path, file, len)
    }

    /// Syncs the file, and at first its folder too. Makes no call once a sync failed.
    fn make_durable(&self) -> io::Result<()>
        ensures failing { has_failed self.now ≡ true → IsErr result }
    {
        if self.has_failed {
            return Err(ErrorKind::Other.into());
        }
        if self.is_named {
            return self.file.sync_data();
        }
        self.file.sync_all()?;
        self.own_folder.sync_all()
    }
}

impl Device for FileDevice {
    type Watch = FileWatch;

    ghost use Rattle.tc_files.specs.Device.{device_name, device_size, device_files, has_failed};
    ghost use Rattle.tc_files.specs.Watch.{counts_of, error_of};

    ghost name = { device_name };

    ghost size = { device_size };

    ghost history = { device_files };

    ghost told_size = { λ _. tt };

    ghost content_may_stay = { λ _. tt };

    fn len(&self) -> u64 {
        self.len
    }

    fn write_at(&mut self, at: u64, bytes: &[u8], watch: &mut FileWatch) -> Result<(), DeviceFault>
        requires { at ≤ device_size self.old }

        ensures written { OnOk result (device_files self.new ≡ goes_on (written at bytes.now) (device_files self.old)) }
        ensures longer { OnOk result (device_size self.new ≡ max (device_size self.old) (at + length bytes.now)) }
        ensures failed { IsErrOf result DeviceFault.Fault → FailsWriting at (length bytes.now) (device_files self.old) (device_files self.new) }
        ensures no_memory { IsErrOf result DeviceFault.Memory → device_files self.new ≡ device_files self.old }
        ensures same_size { IsErrOf result DeviceFault.Memory → device_size self.new ≡ device_size self.old }
        ensures too_far { 2 ^ 63 ≤ at + length bytes.now → IsErr result }
        ensures name { device_name self.new ≡ device_name self.old }
        ensures counted { IsCounted (IsErrOf result DeviceFault.Fault) (counts_of watch.old) (counts_of watch.new) }

        ensures same_failure { has_failed self.new ≡ has_failed self.old }
    {
        let count = bytes.len() as u64;
        if count > MAX_LEN - at {
            return Err(watch.device_fault(ErrorKind::FileTooLarge.into()));
        }
        match self.file.write_all_at(bytes, at) {
            Ok(()) => {
                self.len = self.len.max(at + count);
                Ok(())
            }
            Err(error) => Err(watch.device_fault(error)),
        }
    }

    fn sync(&mut self, watch: &mut FileWatch) -> Result<(), DeviceFault>
        ensures synced { OnOk result (device_files self.new ≡ goes_on synced_file (device_files self.old)) }
        ensures failed { OnErr result (device_files self.new ≡ device_files self.old) }
        ensures size { device_size self.new ≡ device_size self.old }
        ensures name { device_name self.new ≡ device_name self.old }
        ensures counted { IsCounted (IsErrOf result DeviceFault.Fault) (counts_of watch.old) (counts_of watch.new) }

        // Once a sync failed, each later one fails.
        ensures failing { has_failed self.old ≡ true → IsErr result }
        ensures fails { (has_failed self.new ≡ true) ↔ IsErr result }
    {
        match self.make_durable() {
            Ok(()) => {
                self.is_named = true;
                Ok(())
            }
            Err(error) => {
                self.has_failed = true;
                Err(watch.device_fault(error))
            }
        }
    }
}
