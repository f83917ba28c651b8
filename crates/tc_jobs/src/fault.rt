//! Why the beginning or the end of a job failed.

ghost use Rattle.std.specs.Prelude.{◌≡◌};
ghost use Rattle.tc_jobs.specs.declared.fault.JobFault.TheVariants.{Memory as no_memory};
ghost use Rattle.tc_jobs.specs.Faults.{of_device, of_file, of_merge, of_store};

use std::alloc::{AllocError, AllocFailed};
use tc_merge::MergeFault;
use tc_store::{Damage, DeviceFault, FileName, ReadFault, StoreFault};
use thiserror::Error;

/// Why a job was not begun, or why what it made was not taken.
#[derive(Drop, Debug, Error)]
pub enum JobFault {
    #[error("a file operation failed")]
    Disk,
    #[error("a file is damaged")]
    Damaged(Damage),
    #[error("no memory")]
    Memory,
}

impl From<AllocError> for JobFault {
    ghost from_gives = { λ _ e. e ≡ no_memory };

    fn from(_: AllocError) -> JobFault {
        JobFault::Memory
    }
}

impl<T: Drop> From<AllocFailed<T>> for JobFault {
    ghost from_gives = { λ _ e. e ≡ no_memory };

    fn from(_: AllocFailed<T>) -> JobFault {
        JobFault::Memory
    }
}

impl From<StoreFault> for JobFault {
    ghost from_gives = { λ f e. e ≡ of_store f };

    fn from(fault: StoreFault) -> JobFault {
        match fault {
            StoreFault::Fault => JobFault::Disk,
            StoreFault::Memory => JobFault::Memory,
        }
    }
}

impl From<DeviceFault> for JobFault {
    ghost from_gives = { λ f e. e ≡ of_device f };

    fn from(fault: DeviceFault) -> JobFault {
        match fault {
            DeviceFault::Fault => JobFault::Disk,
            DeviceFault::Memory => JobFault::Memory,
        }
    }
}

impl From<MergeFault> for JobFault {
    ghost from_gives = { λ f e. e ≡ of_merge f };

    fn from(fault: MergeFault) -> JobFault {
        match fault {
            MergeFault::Disk => JobFault::Disk,
            MergeFault::Damaged { file, place, bytes } => {
                JobFault::Damaged(Damage::Bytes { file, place, bytes })
            }
            MergeFault::Memory => JobFault::Memory,
        }
    }
}

/// The same fault, of the file that was read.
pub fn of_read(file: FileName, fault: ReadFault) -> JobFault
    ensures { result ≡ of_file file fault }
{
    match fault {
        ReadFault::Disk => JobFault::Disk,
        ReadFault::Damaged { place, bytes } => {
            JobFault::Damaged(Damage::Bytes { file, place, bytes })
        }
        ReadFault::Memory => JobFault::Memory,
    }
}
