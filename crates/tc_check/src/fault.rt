//! Why files are not audited.

ghost use Rattle.std.specs.Prelude.{◌≡◌};
ghost use Rattle.tc_check.specs.declared.fault.CheckFault.TheVariants.{Memory as no_memory};
ghost use Rattle.tc_check.specs.Faults.{of_audit};

use std::alloc::{AllocError, AllocFailed};
use tc_audit::AuditFault;
use thiserror::Error;

/// Why the files of a partition are not audited.
#[derive(Clone, Copy, Debug, PartialEq, Eq, Error)]
pub enum CheckFault {
    #[error("a file operation failed")]
    Disk,
    #[error("no memory")]
    Memory,
}

impl From<AllocError> for CheckFault {
    ghost from_gives = { λ _ e. e ≡ no_memory };

    fn from(_: AllocError) -> CheckFault {
        CheckFault::Memory
    }
}

impl<T: Drop> From<AllocFailed<T>> for CheckFault {
    ghost from_gives = { λ _ e. e ≡ no_memory };

    fn from(_: AllocFailed<T>) -> CheckFault {
        CheckFault::Memory
    }
}

impl From<AuditFault> for CheckFault {
    ghost from_gives = { λ fault e. e ≡ of_audit fault };

    fn from(fault: AuditFault) -> CheckFault {
        match fault {
            AuditFault::Disk => CheckFault::Disk,
            AuditFault::Memory => CheckFault::Memory,
        }
    }
}
