//! Why the files of a partition are not read or removed.

ghost use Rattle.std.specs.Prelude.{◌≡◌};
ghost use Rattle.tc_recover.specs.declared.cause.FilesCause.TheVariants.{Memory as no_memory};
ghost use Rattle.tc_recover.specs.Causes.{of_store, of_frozen, of_job, IsOfRead};

use std::alloc::{AllocError, AllocFailed};
use tc_jobs::JobFault;
use tc_store::{Damage, FileName, FrozenFault, ReadFault, StoreFault};
use thiserror::Error;

/// Why the files of a partition are not read or removed. `Layout` has the number and the count of partitions that a file keeps,
/// where others were asked for.
#[derive(Drop, Debug, Error)]
pub enum FilesCause {
    #[error("a file operation failed")]
    Disk,
    #[error("a file is damaged")]
    Damaged(Damage),
    #[error("a file is of partition {found} of {found_of}")]
    Layout { found: u32, found_of: u32 },
    #[error("no memory")]
    Memory,
}

impl From<AllocError> for FilesCause {
    ghost from_gives = { λ _ e. e ≡ no_memory };

    fn from(_: AllocError) -> FilesCause {
        FilesCause::Memory
    }
}

impl<T: Drop> From<AllocFailed<T>> for FilesCause {
    ghost from_gives = { λ _ e. e ≡ no_memory };

    fn from(_: AllocFailed<T>) -> FilesCause {
        FilesCause::Memory
    }
}

impl From<StoreFault> for FilesCause {
    ghost from_gives = { λ f e. e ≡ of_store f };

    fn from(fault: StoreFault) -> FilesCause {
        match fault {
            StoreFault::Fault => FilesCause::Disk,
            StoreFault::Memory => FilesCause::Memory,
        }
    }
}

impl From<FrozenFault> for FilesCause {
    ghost from_gives = { λ f e. e ≡ of_frozen f };

    fn from(_: FrozenFault) -> FilesCause {
        FilesCause::Disk
    }
}

impl From<JobFault> for FilesCause {
    ghost from_gives = { λ f e. e ≡ of_job f };

    fn from(fault: JobFault) -> FilesCause {
        match fault {
            JobFault::Disk => FilesCause::Disk,
            JobFault::Damaged(damage) => FilesCause::Damaged(damage),
            JobFault::Memory => FilesCause::Memory,
        }
    }
}

/// The cause that a fault of reading the file of this name is.
pub(crate) fn of_read(file: FileName, fault: ReadFault) -> FilesCause
    ensures { IsOfRead file fault result }
{
    match fault {
        ReadFault::Disk => FilesCause::Disk,
        ReadFault::Damaged { place, bytes } => FilesCause::Damaged(Damage::Bytes {
            file,
            place,
            bytes,
        }),
        ReadFault::Memory => FilesCause::Memory,
    }
}
