//! Why a JSON value is no document.

ghost use Rattle.std.specs.Prelude.{◌≡◌};
ghost use Rattle.tc_json.specs.declared.fault.JsonFault.TheVariants.{Memory};

use std::alloc::{AllocError, AllocFailed};
use thiserror::Error;

/// Why a JSON value is no document. Where a value has both faults, it is not whole.
#[derive(Clone, Copy, Debug, PartialEq, Eq, Error)]
pub enum JsonFault {
    #[error("a number is no integer of 64 bits")]
    NotWhole,
    #[error("the value nests too deep")]
    TooDeep,
    #[error("no memory")]
    Memory,
}

impl From<AllocError> for JsonFault {
    ghost from_gives = { λ _ e. e ≡ Memory };

    fn from(_error: AllocError) -> JsonFault {
        JsonFault::Memory
    }
}

impl<T: Drop> From<AllocFailed<T>> for JsonFault {
    ghost from_gives = { λ _ e. e ≡ Memory };

    fn from(_failed: AllocFailed<T>) -> JsonFault {
        JsonFault::Memory
    }
}
