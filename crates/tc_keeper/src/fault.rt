//! The fault that ends a run.

ghost use Rattle.std.specs.Prelude.{◌≡◌};
ghost use Rattle.tc_edge.specs.declared.streams.WriteFault.{WriteFault};
ghost use Rattle.tc_keeper.specs.Faults.{fault_of_engine};
ghost use Rattle.tc_keeper.specs.Partitions.{fault_of_scan};
ghost use Rattle.tc_keeper.specs.declared.fault.RunFault.TheVariants.{Memory, Write};

use std::alloc::{AllocError, AllocFailed};
use tc_edge::WriteFault;
use tc_shown::ScanFault;
use tc_store::Damage;
use tc_work::EngineFault;

/// The fault that ended a run; what is said of it is `fault_text`.
#[derive(Drop, Debug)]
pub enum RunFault {
    /// The words are no command line.
    Usage,
    /// A read of the input failed.
    Read,
    /// A write of a window's replies failed, after this many bytes of them.
    Write {
        taken: u64,
    },
    /// The input has more bytes, or a partition more generations or writes, than can be counted.
    Spent,
    /// A call on the files of a partition failed.
    Disk {
        partition: u32,
    },
    /// The files of a partition do not hold what they should.
    Damaged {
        partition: u32,
        damage: Damage,
    },
    /// Memory was wanting.
    Memory,
    /// A file of a partition is of another one, or of another number of partitions.
    Layout {
        partition: u32,
        found: u32,
        found_of: u32,
        asked_of: u32,
    },
}

impl RunFault {
    ghost use Rattle.std.specs.Prelude.{◌≡◌, Some};
    ghost use Rattle.tc_keeper.specs.Faults.{status_of};

    /// The exit status of a run that ended by this fault.
    pub fn status(&self) -> u8
        ensures { result ≡ status_of (Some self.now) }
    {
        match self {
            RunFault::Usage => 2,
            RunFault::Read => 3,
            RunFault::Write { .. } => 4,
            RunFault::Disk { .. } => 5,
            RunFault::Damaged { .. } => 6,
            RunFault::Memory => 7,
            RunFault::Layout { .. } => 8,
            RunFault::Spent => 9,
        }
    }
}

impl From<AllocError> for RunFault {
    ghost from_gives = { λ _ e. e ≡ Memory };

    fn from(_error: AllocError) -> RunFault {
        RunFault::Memory
    }
}

impl<T: Drop> From<AllocFailed<T>> for RunFault {
    ghost from_gives = { λ _ e. e ≡ Memory };

    fn from(_failed: AllocFailed<T>) -> RunFault {
        RunFault::Memory
    }
}

impl From<WriteFault> for RunFault {
    ghost from_gives = { λ f e. e ≡ Write f.taken };

    fn from(fault: WriteFault) -> RunFault {
        RunFault::Write { taken: fault.taken }
    }
}

/// The fault of a run whose engine of this partition failed.
pub fn of_engine(partition: u32, fault: EngineFault) -> RunFault
    ensures { result ≡ fault_of_engine partition fault }
{
    match fault {
        EngineFault::Disk => RunFault::Disk { partition },
        EngineFault::Damaged(damage) => RunFault::Damaged { partition, damage },
        EngineFault::Spent => RunFault::Spent,
        EngineFault::Memory => RunFault::Memory,
    }
}

/// The fault of a run whose scan failed.
pub(crate) fn of_scan(fault: ScanFault) -> RunFault
    ensures { result ≡ fault_of_scan fault }
{
    match fault {
        ScanFault::Disk { partition } => RunFault::Disk { partition },
        ScanFault::Damaged {
            partition,
            file,
            place,
            bytes,
        } => RunFault::Damaged {
            partition,
            damage: Damage::Bytes { file, place, bytes },
        },
        ScanFault::Memory => RunFault::Memory,
    }
}
