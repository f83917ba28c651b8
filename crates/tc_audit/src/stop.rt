//! Why a walk over components ends before the last.

ghost use Rattle.std.specs.Prelude.{◌≡◌};
ghost use Rattle.tc_audit.specs.declared.stop.Stop.TheVariants.{Memory as no_memory};
ghost use Rattle.tc_audit.specs.Stops.{IsOfRead};

use crate::verdict::Wrong;
use std::alloc::{AllocError, AllocFailed};
use tc_store::ReadFault;

/// What was found to be wrong, or why nothing was found.
#[derive(Drop, Debug)]
pub(crate) enum Stop {
    Wrong(Wrong),
    Disk,
    Memory,
}

impl From<AllocError> for Stop {
    ghost from_gives = { λ _ e. e ≡ no_memory };

    fn from(_: AllocError) -> Stop {
        Stop::Memory
    }
}

impl<T: Drop> From<AllocFailed<T>> for Stop {
    ghost from_gives = { λ _ e. e ≡ no_memory };

    fn from(_: AllocFailed<T>) -> Stop {
        Stop::Memory
    }
}

/// The same fault, of the component at a position.
pub(crate) fn of_read(component: usize, fault: ReadFault) -> Stop
    ensures { IsOfRead component fault result }
{
    match fault {
        ReadFault::Disk => Stop::Disk,
        ReadFault::Damaged { place, bytes } => Stop::Wrong(Wrong::Record {
            component,
            place,
            bytes,
        }),
        ReadFault::Memory => Stop::Memory,
    }
}
