//! Why a call of a partition failed.

ghost use Rattle.std.specs.Prelude.{◌≡◌};
ghost use Rattle.tc_record.specs.declared.fault.RecordFault.TheVariants.{NotARecord as not_a_record};
ghost use Rattle.tc_store.specs.declared.damage.Damage.TheVariants.{Bytes as damage_of};
ghost use Rattle.tc_store.specs.declared.damage.ReadFault.TheVariants.{Disk as read_fault, Damaged as damage_read};
ghost use Rattle.tc_part.specs.declared.fault.PartFault.TheVariants.{Memory as no_memory, Disk as disk_fault, Damaged as damage_found};
ghost use Rattle.tc_part.specs.Faults.{of_device, of_job, of_query as query_fault, of_store};
ghost use Rattle.tc_part.specs.Harms.{IsOfRead};

use std::alloc::{AllocError, AllocFailed};
use tc_bytes::Bytes;
use tc_jobs::JobFault;
use tc_query::QueryFault;
use tc_record::RecordFault;
use tc_store::{Damage, DeviceFault, FileName, ReadFault, StoreFault};
use thiserror::Error;

/// Why a call of a partition failed. The partition has failed then too.
#[derive(Drop, Debug, Error)]
pub enum PartFault {
    #[error("a file operation failed")]
    Disk,
    #[error("a file is damaged")]
    Damaged(Damage),
    #[error("a number of writes or generations is spent")]
    Spent,
    #[error("no memory")]
    Memory,
}

impl From<AllocError> for PartFault {
    ghost from_gives = { λ _ e. e ≡ no_memory };

    fn from(_: AllocError) -> PartFault {
        PartFault::Memory
    }
}

impl<T: Drop> From<AllocFailed<T>> for PartFault {
    ghost from_gives = { λ _ e. e ≡ no_memory };

    fn from(_: AllocFailed<T>) -> PartFault {
        PartFault::Memory
    }
}

impl From<DeviceFault> for PartFault {
    ghost from_gives = { λ f e. e ≡ of_device f };

    fn from(fault: DeviceFault) -> PartFault {
        match fault {
            DeviceFault::Fault => PartFault::Disk,
            DeviceFault::Memory => PartFault::Memory,
        }
    }
}

impl From<StoreFault> for PartFault {
    ghost from_gives = { λ f e. e ≡ of_store f };

    fn from(fault: StoreFault) -> PartFault {
        match fault {
            StoreFault::Fault => PartFault::Disk,
            StoreFault::Memory => PartFault::Memory,
        }
    }
}

impl From<JobFault> for PartFault {
    ghost from_gives = { λ f e. e ≡ of_job f };

    fn from(fault: JobFault) -> PartFault {
        match fault {
            JobFault::Disk => PartFault::Disk,
            JobFault::Damaged(damage) => PartFault::Damaged(damage),
            JobFault::Memory => PartFault::Memory,
        }
    }
}

/// The same fault, of a file that is read.
pub(crate) fn of_read(file: FileName, fault: ReadFault) -> PartFault
    ensures cause { result ≡ disk_fault → fault ≡ read_fault }
    ensures harmed { IsOfRead result (λ of place bytes. (of ≡ file) × (fault ≡ damage_read place bytes)) }
{
    match fault {
        ReadFault::Disk => PartFault::Disk,
        ReadFault::Damaged { place, bytes } => damaged(file, place, bytes),
        ReadFault::Memory => PartFault::Memory,
    }
}

/// The same fault, of the bytes that stand at a place of a file.
pub(crate) fn of_record(file: FileName, place: u64, bytes: Bytes, fault: RecordFault) -> PartFault
    ensures cause { result ≡ disk_fault → ⊥ }
    ensures harmed { IsOfRead result (λ of at kept. (of ≡ file) × (at ≡ place) × (kept ≡ bytes) × (fault ≡ not_a_record)) }
{
    match fault {
        RecordFault::NotARecord => damaged(file, place, bytes),
        RecordFault::Memory => PartFault::Memory,
    }
}

/// The same fault, of a query.
pub(crate) fn of_query(fault: QueryFault) -> PartFault
    ensures { result ≡ query_fault fault }
{
    match fault {
        QueryFault::Disk => PartFault::Disk,
        QueryFault::Damaged { file, place, bytes } => damaged(file, place, bytes),
        QueryFault::Memory => PartFault::Memory,
    }
}

/// Damage of these bytes at a place of a file.
pub(crate) fn damaged(file: FileName, place: u64, bytes: Bytes) -> PartFault
    ensures { result ≡ damage_found (damage_of file place bytes) }
{
    PartFault::Damaged(Damage::Bytes { file, place, bytes })
}
