//! Why not all lines of an audit are written.

ghost use Rattle.std.specs.Prelude.{◌≡◌};
ghost use Rattle.tc_verdicts.specs.Faults.{fault_of_check, fault_of_shelf};
ghost use Rattle.tc_verdicts.specs.declared.fault.CheckedFault.TheVariants.{Memory as no_memory};

use std::alloc::AllocError;
use tc_check::CheckFault;
use tc_store::ShelfFault;
use thiserror::Error;

/// Why the lines of an audit are not written, or not all of them.
#[derive(Clone, Copy, Debug, PartialEq, Eq, Error)]
pub enum CheckedFault {
    /// A write of the lines failed, after this many bytes of them.
    #[error("a write failed after {taken} bytes")]
    Write { taken: u64 },
    /// A call on the files of a partition failed.
    #[error("a file operation failed in partition {partition}")]
    Disk { partition: u32 },
    /// Memory was wanting.
    #[error("no memory")]
    Memory,
}

impl CheckedFault {
    ghost use Rattle.std.specs.Prelude.{◌≡◌, Some};
    ghost use Rattle.tc_verdicts.specs.Faults.{status_of};

    /// The exit status of an audit that ended by this fault.
    pub fn status(self) -> u8
        ensures { result ≡ status_of (Some self) }
    {
        match self {
            CheckedFault::Write { .. } => 4,
            CheckedFault::Disk { .. } => 5,
            CheckedFault::Memory => 7,
        }
    }
}

impl From<AllocError> for CheckedFault {
    ghost from_gives = { λ _ e. e ≡ no_memory };

    fn from(_: AllocError) -> CheckedFault {
        CheckedFault::Memory
    }
}

/// The fault of an audit for which the kit of this partition was not given.
pub(crate) fn of_shelf(partition: u32, fault: ShelfFault) -> CheckedFault
    ensures { result ≡ fault_of_shelf partition fault }
{
    match fault {
        ShelfFault::Fault => CheckedFault::Disk { partition },
        ShelfFault::Memory => CheckedFault::Memory,
    }
}

/// The fault of an audit that came to no verdict on this partition.
pub(crate) fn of_check(partition: u32, fault: CheckFault) -> CheckedFault
    ensures { result ≡ fault_of_check partition fault }
{
    match fault {
        CheckFault::Disk => CheckedFault::Disk { partition },
        CheckFault::Memory => CheckedFault::Memory,
    }
}
