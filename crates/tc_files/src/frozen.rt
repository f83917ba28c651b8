//! A still file of the system.

ghost use Rattle.std.specs.Prelude.{◌≡◌, ◌<◌, ◌^◌, None};

use crate::watch::FileWatch;
use std::alloc::Global;
use std::fs::File;
use std::io;
use std::os::unix::fs::FileExt;
use std::path::PathBuf;
use tc_store::{FileName, Frozen, FrozenFault};

/// The most bytes of a file that is kept in memory.
const MAX_KEPT: u64 = 131_072;

/// A file that no longer changes. Reads leave no position behind, so threads may share it. A short file is kept in memory: a call
/// of the system takes a fifth of the time that a `get` of a small document takes.
pub struct FileFrozen {
    pub(crate) name: FileName,
    pub(crate) path: PathBuf,
    file: File,
    pub(crate) len: u64,
    /// All bytes of a short file, and else none.
    kept: Vec<u8>,
    ghost limit: { len < 2 ^ 63 },
}

impl FileFrozen {
    /// A file of so many bytes. One that cannot be kept, since it is long, or cannot be read now, or since memory is wanting, is
    /// read where its bytes are asked for.
    pub(crate) fn of(
        alloc: Global,
        name: FileName,
        path: PathBuf,
        file: File,
        len: u64,
    ) -> FileFrozen
        requires { len < 2 ^ 63 }
        ensures name { result.name ≡ name }
        ensures size { result.len ≡ len }
    {
        let kept = match bytes_of_short(alloc, &file, len) {
            Ok(bytes) => bytes,
            Err(_) => Vec::new(alloc),
        };
        FileFrozen {
            name,
            path,
            file,
            len,
            kept,
        }
    }
}

/// All bytes of a file of so many, where it is short, and else none.
fn bytes_of_short(alloc: Global, file: &File, len: u64) -> io::Result<Vec<u8>> {
    if len > MAX_KEPT {
        return Ok(Vec::new(alloc));
    }
    let mut bytes = vec![in alloc; 0u8; len as usize]?;
    file.read_exact_at(&mut bytes, 0)?;
    Ok(bytes)
}

impl Drop for FileFrozen {
    /// One call, so that whoever drops a file sees none of its fields.
    fn drop(self) {
        let FileFrozen {
            name: _,
            path,
            file,
            len: _,
            kept,
        } = self;
        drop(path);
        drop(file);
        drop(kept);
    }
}

impl Frozen for FileFrozen {
    type Watch = FileWatch;

    ghost name = { λ f. f.name };

    ghost size = { λ f. f.len };

    ghost content = { λ _. None };

    ghost told_size = { λ _. tt };

    fn len(&self) -> u64 {
        self.len
    }

    fn read(&self, at: u64, into: &mut [u8], watch: &mut FileWatch) -> Result<(), FrozenFault> {
        watch.reads = watch.reads.saturating_add(1);
        if self.kept.len() as u64 == self.len {
            let begin = at as usize;
            into.copy_from_slice(&self.kept[begin..begin + into.len()]);
            return Ok(());
        }
        match self.file.read_exact_at(into, at) {
            Ok(()) => Ok(()),
            Err(error) => {
                watch.add_fault(error);
                Err(FrozenFault)
            }
        }
    }
}
