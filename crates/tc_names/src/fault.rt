//! Why bytes gave no dictionary.

use std::alloc::AllocFailed;
use tc_bytes::Memory;
use thiserror::Error;

/// Why bytes gave no dictionary.
#[derive(Clone, Copy, Debug, PartialEq, Eq, Error)]
pub enum NamesFault {
    /// No dictionary has these bytes.
    #[error("the bytes are no names section")]
    NotNames,
    /// Memory was wanting.
    #[error("no memory")]
    Memory,
}

impl From<Memory> for NamesFault {
    ghost use Rattle.std.specs.Prelude.{◌≡◌};
    ghost use Rattle.tc_names.specs.declared.fault.NamesFault.TheVariants.{Memory};

    ghost from_gives = { λ _ fault. fault ≡ Memory };

    fn from(_cause: Memory) -> NamesFault {
        NamesFault::Memory
    }
}

impl<T: Drop> From<AllocFailed<T>> for NamesFault {
    ghost use Rattle.std.specs.Prelude.{◌≡◌};
    ghost use Rattle.tc_names.specs.declared.fault.NamesFault.TheVariants.{Memory};

    ghost from_gives = { λ _ fault. fault ≡ Memory };

    fn from(_cause: AllocFailed<T>) -> NamesFault {
        NamesFault::Memory
    }
}
