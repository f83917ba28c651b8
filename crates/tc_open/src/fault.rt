//! Why a partition is not opened, by what a call below answered, and what is given back then.

ghost use Rattle.std.specs.Prelude.{◌≡◌};
ghost use Rattle.tc_open.specs.OpenCauses.{of_files, of_store, of_device, of_job, of_read as read_fault};

use tc_jobs::JobFault;
use tc_part::PartFault;
use tc_recover::FilesCause;
use tc_store::{Damage, DeviceFault, Kit, Store, StoreFault};
use thiserror::Error;

/// Why a partition is not opened. `Layout` has the number and the count of partitions that a file keeps, where others were
/// asked for. `Spent` comes where no generation is left for a log.
#[derive(Drop, Debug, Error)]
pub enum OpenCause {
    #[error("a file operation failed")]
    Disk,
    #[error("a file is damaged")]
    Damaged(Damage),
    #[error("a file is of partition {found} of {found_of}")]
    Layout { found: u32, found_of: u32 },
    #[error("no generation is left")]
    Spent,
    #[error("no memory")]
    Memory,
}

impl From<FilesCause> for OpenCause {
    ghost from_gives = { λ f e. e ≡ of_files f };

    fn from(cause: FilesCause) -> OpenCause {
        match cause {
            FilesCause::Disk => OpenCause::Disk,
            FilesCause::Damaged(damage) => OpenCause::Damaged(damage),
            FilesCause::Layout { found, found_of } => OpenCause::Layout { found, found_of },
            FilesCause::Memory => OpenCause::Memory,
        }
    }
}

impl From<StoreFault> for OpenCause {
    ghost from_gives = { λ f e. e ≡ of_store f };

    fn from(fault: StoreFault) -> OpenCause {
        match fault {
            StoreFault::Fault => OpenCause::Disk,
            StoreFault::Memory => OpenCause::Memory,
        }
    }
}

impl From<DeviceFault> for OpenCause {
    ghost from_gives = { λ f e. e ≡ of_device f };

    fn from(fault: DeviceFault) -> OpenCause {
        match fault {
            DeviceFault::Fault => OpenCause::Disk,
            DeviceFault::Memory => OpenCause::Memory,
        }
    }
}

impl From<JobFault> for OpenCause {
    ghost from_gives = { λ f e. e ≡ of_job f };

    fn from(fault: JobFault) -> OpenCause {
        match fault {
            JobFault::Disk => OpenCause::Disk,
            JobFault::Damaged(damage) => OpenCause::Damaged(damage),
            JobFault::Memory => OpenCause::Memory,
        }
    }
}

/// The fault of a job in which a record was not read.
pub(crate) fn of_read(fault: PartFault) -> JobFault
    requires { fault ≡ PartFault.Spent → ⊥ }
    ensures { result ≡ read_fault fault }
{
    match fault {
        PartFault::Disk => JobFault::Disk,
        PartFault::Damaged(damage) => JobFault::Damaged(damage),
        PartFault::Spent => unreachable!(),
        PartFault::Memory => JobFault::Memory,
    }
}

/// A partition that was not opened: its store with the watches, and why.
#[derive(Drop)]
pub struct OpenFault<S: Store> {
    pub kit: Kit<S>,
    pub cause: OpenCause,
}
