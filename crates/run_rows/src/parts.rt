//! The files of all partitions that a run may have.

ghost use Rattle.std.specs.Prelude.{All, IfSome};
ghost use Rattle.tc_store.specs.Disk.{IsAtRest};
ghost use Rattle.tc_store.specs.Memory.Store.{store_disks};
ghost use Rattle.tc_store.specs.Moments.{IfTold};

use crate::files::Files;
use std::alloc::{AllocError, Global};
use tc_store::{Kit, MemStore};

/// How many partitions a store in memory may have.
const MOST: usize = 16;

/// The files of each partition, and which of them the rows are about.
#[derive(Drop)]
pub(crate) struct Parts {
    files: Vec<Files>,
    of: usize,
}

impl Parts {
    /// No file of any partition, and rows about the first one.
    pub(crate) fn new(alloc: Global) -> Result<Parts, AllocError> {
        let mut files = Vec::new(alloc);
        for _ in 0..MOST {
            files.push(Files::new(alloc))?;
        }
        Ok(Parts { files, of: 0 })
    }

    /// The rows behind are about the partition of this number.
    pub(crate) fn choose(&mut self, argument: &str) -> Option<()> {
        let of = argument.parse::<usize>().ok()?;
        self.files.get(of)?;
        self.of = of;
        Some(())
    }

    /// The files of the partition that the rows are about.
    pub(crate) fn chosen(&mut self) -> Option<&mut Files> {
        self.files.get_mut(self.of)
    }

    /// The kits of the next run. The run behind it has no file, and no call on its files fails.
    pub(crate) fn kits(&mut self, alloc: Global) -> Option<Vec<Kit<MemStore>>>
        ensures { IfSome result (λ kits. All (λ kit. IfTold (store_disks kit.store) IsAtRest) kits.items) }
    {
        let mut kits = Vec::new(alloc);
        for at in 0..self.files.len() {
            kits.push(self.files.get_mut(at)?.kit(alloc)?).ok()?;
        }
        Some(kits)
    }

    /// Keeps the files of a run that has ended, in the order of their partitions.
    pub(crate) fn keep(&mut self, kits: Vec<Kit<MemStore>>) {
        let mut at = 0usize;
        for kit in kits {
            if let Some(files) = self.files.get_mut(at) {
                files.keep(kit);
            }
            at = at.saturating_add(1);
        }
        self.of = 0;
    }
}
