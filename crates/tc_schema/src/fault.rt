//! Why bytes gave no schema.

use std::alloc::AllocFailed;
use tc_bytes::Memory;
use thiserror::Error;

/// Why bytes gave no schema.
#[derive(Clone, Copy, Debug, PartialEq, Eq, Error)]
pub enum SchemaFault {
    /// No schema has these bytes.
    #[error("the bytes are no schema")]
    NotASchema,
    /// Memory was wanting.
    #[error("no memory")]
    Memory,
}

impl From<Memory> for SchemaFault {
    ghost use Rattle.std.specs.Prelude.{◌≡◌};
    ghost use Rattle.tc_schema.specs.declared.fault.SchemaFault.TheVariants.{Memory};

    ghost from_gives = { λ _ fault. fault ≡ Memory };

    fn from(_cause: Memory) -> SchemaFault {
        SchemaFault::Memory
    }
}

impl<T: Drop> From<AllocFailed<T>> for SchemaFault {
    ghost use Rattle.std.specs.Prelude.{◌≡◌};
    ghost use Rattle.tc_schema.specs.declared.fault.SchemaFault.TheVariants.{Memory};

    ghost from_gives = { λ _ fault. fault ≡ Memory };

    fn from(_cause: AllocFailed<T>) -> SchemaFault {
        SchemaFault::Memory
    }
}
