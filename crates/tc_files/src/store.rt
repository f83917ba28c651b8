//! The files of one folder.

ghost use Rattle.std.specs.Path.{path_buf_bytes, path_join};
ghost use Rattle.std.specs.Prelude.{◌≡◌, [], IfOk};
ghost use Rattle.tc_files.specs.Names.{name_text};

use crate::calls::uninterrupted;
use crate::device::{FileDevice, MAX_LEN};
use crate::file::{make_file, open_still};
use crate::folder::open_folder;
use crate::frozen::FileFrozen;
use crate::name::{file_text, name_in};
use crate::watch::FileWatch;
use std::alloc::Global;
use std::fs::File;
use std::io::ErrorKind;
use std::path::PathBuf;
use std::sync::Arc;
use std::{fs, io};
use tc_store::{FileName, Store, StoreFault};

/// The files of one folder, which this store alone holds. Files of other names are neither listed nor touched. Without a folder
/// there are no files, and none can be made.
pub struct FileStore {
    pub(crate) rt: HostRuntime,
    pub(crate) path: PathBuf,
    pub(crate) folder: Option<Arc<File>>,
}

impl Drop for FileStore {
    /// One call, so that whoever drops a store sees none of its fields.
    fn drop(self) {
        let FileStore {
            rt: _,
            path,
            folder,
        } = self;
        drop(path);
        drop(folder);
    }
}

impl FileStore {
    /// Where the file of a name stands.
    fn path_of(&self, alloc: Global, name: FileName) -> io::Result<PathBuf>
        ensures { IfOk result (λ path. path_buf_bytes path ≡ path_join (path_buf_bytes self.now.path) (name_text name)) }
    {
        Ok(self.path.join(alloc, file_text(alloc, name)?)?)
    }

    /// The files whose names are those of a store. No other is looked at.
    fn listed(&self, alloc: Global) -> io::Result<Vec<FileName>> {
        let mut names = Vec::new(alloc);
        if self.folder.is_none() {
            return Ok(names);
        }
        for entry in fs::read_dir(&self.rt, self.path.as_str())? {
            match entry {
                Ok(entry) => {
                    if let Some(name) = name_in(entry.file_name()) {
                        names.push(name)?;
                    }
                }
                // A name that is no text is the name of another file.
                Err(error) if error.kind() == ErrorKind::InvalidFilename => {}
                Err(error) => return Err(error),
            }
        }
        Ok(names)
    }

    /// The file of a name, to be read, as long as the system says.
    fn taken(&self, alloc: Global, name: FileName) -> io::Result<FileFrozen>
        ensures { IfOk result (λ file. file.name ≡ name) }
    {
        let path = self.path_of(alloc, name)?;
        let file = open_still(&self.rt, path.as_str())?;
        let len = uninterrupted(&|| file.metadata())?.len();
        if len > MAX_LEN {
            return Err(ErrorKind::FileTooLarge.into());
        }
        Ok(FileFrozen::of(alloc, name, path, file, len))
    }

    /// An empty file of a name, whose name is not durable yet.
    fn made(&self, alloc: Global, name: FileName) -> io::Result<FileDevice>
        ensures name { IfOk result (λ device. device.name ≡ name) }
        ensures empty { IfOk result (λ device. device.len ≡ 0) }
    {
        let Some(folder) = &self.folder else {
            return Err(ErrorKind::NotFound.into());
        };
        let folder = Arc::try_clone(folder)?;
        let path = self.path_of(alloc, name)?;
        let own_folder = open_folder(&self.rt, self.path.as_str())?;
        let file = make_file(&self.rt, path.as_str())?;
        Ok(FileDevice {
            name,
            path,
            file,
            folder,
            own_folder,
            len: 0,
            is_named: false,
            has_failed: false,
        })
    }
}

impl Store for FileStore {
    type Watch = FileWatch;

    type Device = FileDevice;

    type Frozen = FileFrozen;

    ghost history = { λ _. [] };

    ghost content_may_stay = { λ _ _. tt };

    fn names(&mut self, alloc: Global, watch: &mut FileWatch) -> Result<Vec<FileName>, StoreFault> {
        match uninterrupted(&|| self.listed(alloc)) {
            Ok(names) => Ok(names),
            Err(error) => Err(watch.store_fault(error)),
        }
    }

    fn take(
        &mut self,
        alloc: Global,
        name: FileName,
        watch: &mut FileWatch,
    ) -> Result<FileFrozen, StoreFault> {
        match self.taken(alloc, name) {
            Ok(file) => Ok(file),
            Err(error) => Err(watch.store_fault(error)),
        }
    }

    fn fresh(
        &mut self,
        alloc: Global,
        name: FileName,
        watch: &mut FileWatch,
    ) -> Result<FileDevice, StoreFault> {
        match self.made(alloc, name) {
            Ok(device) => Ok(device),
            Err(error) => Err(watch.store_fault(error)),
        }
    }

    fn freeze(
        &mut self,
        alloc: Global,
        device: FileDevice,
        _watch: &mut FileWatch,
    ) -> Result<FileFrozen, StoreFault> {
        Ok(device.into_frozen(alloc))
    }

    fn remove(&mut self, file: FileFrozen, watch: &mut FileWatch) -> Result<(), StoreFault> {
        let path = file.path.as_str();
        match uninterrupted(&|| fs::remove_file(&self.rt, path)) {
            Ok(()) => Ok(()),
            Err(error) => Err(watch.store_fault(error)),
        }
    }

    fn abandon(&mut self, _device: FileDevice) {}
}
