//! What is told of files that do not hold what they should.

ghost use Rattle.std.specs.Prelude.{◌≡◌};
ghost use Rattle.tc_store.specs.declared.damage.ReadFault.TheVariants.{Memory as no_memory};

use crate::file_name::FileName;
use std::alloc::{AllocError, AllocFailed};
use std::marker::Model;
use tc_bytes::Bytes;
use thiserror::Error;

/// A list of names of files.
#[derive(Drop, Debug)]
pub struct FileNames {
    names: Vec<FileName>,
}

impl Model for FileNames {
    ghost use Rattle.std.specs.Prelude.{List};
    ghost use Rattle.tc_store.specs.declared.file_name.FileName.{FileName};

    ghost Value = { List FileName };

    ghost view = { λ n. n.names.items };
}

impl FileNames {
    /// The list of these names. Takes no memory.
    pub fn of(names: Vec<FileName>) -> FileNames
        ensures same { result ≡ names.items }
    {
        FileNames { names }
    }

    /// The names, borrowed.
    pub fn as_slice(&self) -> &[FileName]
        ensures same { result.now ≡ self.now }
    {
        self.names.as_slice()
    }

    /// The names as a vector. Takes no memory.
    pub fn into_inner(self) -> Vec<FileName>
        ensures same { result.items ≡ self }
    {
        self.names
    }
}

/// What was found damaged: bytes at a place of a file, or files whose names do not go together.
#[derive(Drop, Debug)]
pub enum Damage {
    Bytes {
        file: FileName,
        place: u64,
        bytes: Bytes,
    },
    Files {
        names: FileNames,
    },
}

/// Why the reading of a file failed. `Damaged` keeps the bytes that were read at the place.
#[derive(Drop, Debug, Error)]
pub enum ReadFault {
    #[error("a read failed")]
    Disk,
    #[error("the file is damaged at byte {place}")]
    Damaged { place: u64, bytes: Bytes },
    #[error("no memory")]
    Memory,
}

impl From<AllocError> for ReadFault {
    ghost from_gives = { λ _ e. e ≡ no_memory };

    fn from(_: AllocError) -> ReadFault {
        ReadFault::Memory
    }
}

impl<T: Drop> From<AllocFailed<T>> for ReadFault {
    ghost from_gives = { λ _ e. e ≡ no_memory };

    fn from(_: AllocFailed<T>) -> ReadFault {
        ReadFault::Memory
    }
}
