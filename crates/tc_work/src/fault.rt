//! Why a call of an engine failed.

ghost use Rattle.std.specs.Prelude.{◌≡◌};
ghost use Rattle.tc_work.specs.declared.fault.EngineFault.TheVariants.{Memory as no_memory};
ghost use Rattle.tc_work.specs.Faults.{of_part};

use std::alloc::{AllocError, AllocFailed};
use tc_part::PartFault;
use tc_store::Damage;
use thiserror::Error;

/// Why a call of an engine failed. The engine has failed then too.
#[derive(Drop, Debug, Error)]
pub enum EngineFault {
    #[error("a file operation failed")]
    Disk,
    #[error("a file is damaged")]
    Damaged(Damage),
    #[error("a number of writes or generations is spent")]
    Spent,
    #[error("no memory")]
    Memory,
}

impl From<AllocError> for EngineFault {
    ghost from_gives = { λ _ e. e ≡ no_memory };

    fn from(_: AllocError) -> EngineFault {
        EngineFault::Memory
    }
}

impl<T: Drop> From<AllocFailed<T>> for EngineFault {
    ghost from_gives = { λ _ e. e ≡ no_memory };

    fn from(_: AllocFailed<T>) -> EngineFault {
        EngineFault::Memory
    }
}

impl From<PartFault> for EngineFault {
    ghost from_gives = { λ f e. e ≡ of_part f };

    fn from(fault: PartFault) -> EngineFault {
        match fault {
            PartFault::Disk => EngineFault::Disk,
            PartFault::Damaged(damage) => EngineFault::Damaged(damage),
            PartFault::Spent => EngineFault::Spent,
            PartFault::Memory => EngineFault::Memory,
        }
    }
}
