//! A folder with a folder for each partition.

ghost use Rattle.std.specs.Prelude.{◌≡◌, None, [], false, true};

use crate::folder::{hold_folder, is_missing, make_folder};
use crate::store::FileStore;
use crate::watch::{FileWatch, is_refused_memory};
use std::alloc::Global;
use std::fs::File;
use std::io;
use std::io::ErrorKind;
use std::path::Path;
use std::sync::Arc;
use tc_store::{Kit, Shelf, ShelfFault};
use tc_value::Text;

/// Keeps the files of partition n in the folder `pn` of its folder. Folders that are missing are made, or else, for those who
/// only read, have no files.
#[derive(Drop)]
pub struct FileShelf {
    rt: HostRuntime,
    folder: Text,
    makes_folders: bool,
    faults: u64,
    last_error: Option<io::Error>,
}

impl FileShelf {
    ghost use Rattle.tc_files.specs.Shelf.{makes_folders, shelf_faults, shelf_error};

    /// A shelf over this folder, which makes the folders that are missing. Takes no memory and makes no call of the system.
    pub fn new(rt: HostRuntime, folder: Text) -> FileShelf
        ensures makes { makes_folders result ≡ true }
        ensures faults { shelf_faults result ≡ 0 }
        ensures error { shelf_error result ≡ None }
    {
        FileShelf::over(rt, folder, true)
    }

    /// A shelf over this folder for those who only read. It makes no folder: a partition whose folder is missing has no files,
    /// and gets none. Takes no memory and makes no call of the system.
    pub fn to_read(rt: HostRuntime, folder: Text) -> FileShelf
        ensures makes { makes_folders result ≡ false }
        ensures faults { shelf_faults result ≡ 0 }
        ensures error { shelf_error result ≡ None }
    {
        FileShelf::over(rt, folder, false)
    }

    fn over(rt: HostRuntime, folder: Text, makes: bool) -> FileShelf
        ensures makes { makes_folders result ≡ makes }
        ensures faults { shelf_faults result ≡ 0 }
        ensures error { shelf_error result ≡ None }
    {
        FileShelf {
            rt,
            folder,
            makes_folders: makes,
            faults: 0,
            last_error: None,
        }
    }

    /// Why the last kit was not given of those that failed by a fault. Takes no memory.
    pub fn last_error(&self) -> Option<io::Error>
        ensures { result ≡ shelf_error self.now }
    {
        self.last_error
    }

    /// The store of a partition, whose folder is held. No folder has an empty path, which would stand for the one that the
    /// program runs in.
    fn store(&self, alloc: Global, number: u32) -> io::Result<FileStore> {
        if self.folder.as_str().is_empty() {
            return Err(ErrorKind::NotFound.into());
        }
        let name = format!(in alloc; "p{number}")?;
        let path = Path::new(self.folder.as_str()).join(alloc, name)?;
        let folder = self.held(alloc, path.as_str())?;
        Ok(FileStore {
            rt: self.rt,
            path,
            folder,
        })
    }

    /// The folder of a partition, held. It is made where it is missing, or is none.
    fn held(&self, alloc: Global, path: &str) -> io::Result<Option<Arc<File>>> {
        let store = self.folder.as_str();
        if self.makes_folders {
            make_folder(&self.rt, store, path)?;
        } else if is_missing(&self.rt, store, path) {
            return Ok(None);
        }
        Ok(Some(Arc::new(alloc, hold_folder(&self.rt, path)?)?))
    }
}

impl Shelf for FileShelf {
    type Store = FileStore;

    ghost use Rattle.tc_files.specs.Shelf.{shelf_faults};

    ghost faults = { shelf_faults };

    ghost kit_faults = { λ _ _. record { main = 0; flusher = 0; merger = 0; reader = 0 } };

    ghost files = { λ _ _. [] };

    fn kit(&mut self, alloc: Global, number: u32) -> Result<Kit<FileStore>, ShelfFault> {
        match self.store(alloc, number) {
            Ok(store) => Ok(Kit {
                store,
                main: FileWatch::new(),
                flusher: FileWatch::new(),
                merger: FileWatch::new(),
                reader: FileWatch::new(),
            }),
            Err(error) if is_refused_memory(&error) => Err(ShelfFault::Memory),
            Err(error) => {
                self.last_error = Some(error);
                self.faults = self.faults.saturating_add(1);
                Err(ShelfFault::Fault)
            }
        }
    }
}
