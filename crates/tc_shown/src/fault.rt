//! Why a scan fails.

ghost use Rattle.std.specs.Prelude.{◌≡◌};
ghost use Rattle.tc_shown.specs.declared.fault.ScanFault.TheVariants.{Memory as no_memory};
ghost use Rattle.tc_shown.specs.Scans.{of_query as told_of};

use std::alloc::{AllocError, AllocFailed};
use tc_bytes::Bytes;
use tc_query::QueryFault;
use tc_store::FileName;
use thiserror::Error;

/// Why a scan failed. `Damaged` keeps the bytes that were read at the place of the file.
#[derive(Drop, Debug, Error)]
pub enum ScanFault {
    #[error("a read of partition {partition} failed")]
    Disk {
        partition: u32,
    },
    #[error("a file of partition {partition} is damaged at byte {place}")]
    Damaged {
        partition: u32,
        file: FileName,
        place: u64,
        bytes: Bytes,
    },
    #[error("no memory")]
    Memory,
}

impl From<AllocError> for ScanFault {
    ghost from_gives = { λ _ e. e ≡ no_memory };

    fn from(_: AllocError) -> ScanFault {
        ScanFault::Memory
    }
}

impl<T: Drop> From<AllocFailed<T>> for ScanFault {
    ghost from_gives = { λ _ e. e ≡ no_memory };

    fn from(_: AllocFailed<T>) -> ScanFault {
        ScanFault::Memory
    }
}

/// The same fault, of a partition.
pub(crate) fn of_query(partition: u32, fault: QueryFault) -> ScanFault
    ensures { result ≡ told_of partition fault }
{
    match fault {
        QueryFault::Disk => ScanFault::Disk { partition },
        QueryFault::Damaged { file, place, bytes } => ScanFault::Damaged {
            partition,
            file,
            place,
            bytes,
        },
        QueryFault::Memory => ScanFault::Memory,
    }
}
