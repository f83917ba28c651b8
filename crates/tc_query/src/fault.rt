//! Why a query fails.

ghost use Rattle.std.specs.Prelude.{◌≡◌};
ghost use Rattle.tc_query.specs.Faults.{OfDamage};
ghost use Rattle.tc_query.specs.declared.fault.QueryFault.TheVariants.{Memory as no_memory, Disk as disk_fault};
ghost use Rattle.tc_store.specs.declared.damage.ReadFault.TheVariants.{Disk as read_fault, Damaged as damage_read};

use std::alloc::{AllocError, AllocFailed};
use tc_bytes::Bytes;
use tc_store::{FileName, ReadFault};
use thiserror::Error;

/// Why a query failed. `Damaged` keeps the bytes that were read at the place of the file.
#[derive(Drop, Debug, Error)]
pub enum QueryFault {
    #[error("a read failed")]
    Disk,
    #[error("a file is damaged at byte {place}")]
    Damaged {
        file: FileName,
        place: u64,
        bytes: Bytes,
    },
    #[error("no memory")]
    Memory,
}

impl From<AllocError> for QueryFault {
    ghost from_gives = { λ _ e. e ≡ no_memory };

    fn from(_: AllocError) -> QueryFault {
        QueryFault::Memory
    }
}

impl<T: Drop> From<AllocFailed<T>> for QueryFault {
    ghost from_gives = { λ _ e. e ≡ no_memory };

    fn from(_: AllocFailed<T>) -> QueryFault {
        QueryFault::Memory
    }
}

/// The same fault, of a file that is read.
pub(crate) fn of_read(file: FileName, fault: ReadFault) -> QueryFault
    ensures cause { result ≡ disk_fault → fault ≡ read_fault }
    ensures harmed { OfDamage result (λ of place bytes. (of ≡ file) × (fault ≡ damage_read place bytes)) }
{
    match fault {
        ReadFault::Disk => QueryFault::Disk,
        ReadFault::Damaged { place, bytes } => QueryFault::Damaged { file, place, bytes },
        ReadFault::Memory => QueryFault::Memory,
    }
}
