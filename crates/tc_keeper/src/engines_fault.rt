//! Why a call of engines failed.

ghost use Rattle.std.specs.Prelude.{◌≡◌};
ghost use Rattle.tc_keeper.specs.declared.engines_fault.EnginesFault.TheVariants.{Memory as no_memory};

use std::alloc::{AllocError, AllocFailed};
use tc_work::EngineFault;
use thiserror::Error;

/// Why a call of engines failed.
#[derive(Drop, Debug, Error)]
pub enum EnginesFault {
    /// The engine of a partition failed, and that of no lower one.
    #[error("the engine of partition {partition} failed")]
    Of { partition: u32, fault: EngineFault },
    #[error("no memory")]
    Memory,
}

impl From<AllocError> for EnginesFault {
    ghost from_gives = { λ _ e. e ≡ no_memory };

    fn from(_: AllocError) -> EnginesFault {
        EnginesFault::Memory
    }
}

impl<T: Drop> From<AllocFailed<T>> for EnginesFault {
    ghost from_gives = { λ _ e. e ≡ no_memory };

    fn from(_: AllocFailed<T>) -> EnginesFault {
        EnginesFault::Memory
    }
}
