//! Why a merge fails.

ghost use Rattle.std.specs.Prelude.{◌≡◌};
ghost use Rattle.tc_store.specs.declared.damage.ReadFault.TheVariants.{Disk as read_fault, Damaged as damage_read};
ghost use Rattle.tc_merge.specs.Faults.{IfHarmed, IsHarmless};
ghost use Rattle.tc_merge.specs.declared.fault.MergeFault.TheVariants.{Memory as no_memory, Disk as disk_fault};
ghost use Rattle.tc_store.specs.declared.fault.DeviceFault.TheVariants.{Fault as device_fault};

use std::alloc::{AllocError, AllocFailed};
use tc_bytes::Bytes;
use tc_store::{DeviceFault, FileName, ReadFault};
use thiserror::Error;

/// Why a merge failed. `Damaged` keeps the bytes that were read at the place of the file.
#[derive(Drop, Debug, Error)]
pub enum MergeFault {
    #[error("a read, a write or a sync failed")]
    Disk,
    #[error("a file is damaged at byte {place}")]
    Damaged {
        file: FileName,
        place: u64,
        bytes: Bytes,
    },
    #[error("no memory")]
    Memory,
}

impl From<AllocError> for MergeFault {
    ghost from_gives = { λ _ e. e ≡ no_memory };

    fn from(_: AllocError) -> MergeFault {
        MergeFault::Memory
    }
}

impl<T: Drop> From<AllocFailed<T>> for MergeFault {
    ghost from_gives = { λ _ e. e ≡ no_memory };

    fn from(_: AllocFailed<T>) -> MergeFault {
        MergeFault::Memory
    }
}

/// The same fault, of a device.
pub(crate) fn of_device(fault: DeviceFault) -> MergeFault
    ensures cause { result ≡ disk_fault → fault ≡ device_fault }
    ensures sound { IsHarmless result }
{
    match fault {
        DeviceFault::Fault => MergeFault::Disk,
        DeviceFault::Memory => MergeFault::Memory,
    }
}

/// The same fault, of a file that is read.
pub(crate) fn of_read(file: FileName, fault: ReadFault) -> MergeFault
    ensures cause { result ≡ disk_fault → fault ≡ read_fault }
    ensures harmed { IfHarmed result (λ of place bytes. (of ≡ file) × (fault ≡ damage_read place bytes)) }
{
    match fault {
        ReadFault::Disk => MergeFault::Disk,
        ReadFault::Damaged { place, bytes } => MergeFault::Damaged { file, place, bytes },
        ReadFault::Memory => MergeFault::Memory,
    }
}
