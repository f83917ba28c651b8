//! Why bytes gave no document.

use std::alloc::{AllocError, AllocFailed};
use thiserror::Error;

/// Why bytes gave no document.
#[derive(Clone, Copy, Debug, PartialEq, Eq, Error)]
pub enum RecordFault {
    /// No object of depth at most 32 has these bytes as its record of form 0.
    #[error("the bytes are no record with names")]
    NotARecord,
    /// Memory was wanting.
    #[error("no memory")]
    Memory,
}

impl From<AllocError> for RecordFault {
    ghost use Rattle.std.specs.Prelude.{◌≡◌};
    ghost use Rattle.tc_record.specs.declared.fault.RecordFault.TheVariants.{Memory};

    ghost from_gives = { λ _ fault. fault ≡ Memory };

    fn from(_cause: AllocError) -> RecordFault {
        RecordFault::Memory
    }
}

impl<T: Drop> From<AllocFailed<T>> for RecordFault {
    ghost use Rattle.std.specs.Prelude.{◌≡◌};
    ghost use Rattle.tc_record.specs.declared.fault.RecordFault.TheVariants.{Memory};

    ghost from_gives = { λ _ fault. fault ≡ Memory };

    fn from(_cause: AllocFailed<T>) -> RecordFault {
        RecordFault::Memory
    }
}
