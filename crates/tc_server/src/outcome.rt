//! How a run ends.

ghost use Rattle.std.specs.Prelude.{◌≡◌};
ghost use Rattle.tc_server.specs.OpeningFaults.{fault_of_opening, fault_of_shelf};

use tc_keeper::RunFault;
use tc_open::OpenCause;
use tc_store::{Kit, ShelfFault, Store};

/// The fault of a run for which this one of so many partitions was not opened.
pub(crate) fn of_opening(partition: u32, asked_of: u32, cause: OpenCause) -> RunFault
    ensures { result ≡ fault_of_opening partition asked_of cause }
{
    match cause {
        OpenCause::Disk => RunFault::Disk { partition },
        OpenCause::Damaged(damage) => RunFault::Damaged { partition, damage },
        OpenCause::Layout { found, found_of } => RunFault::Layout {
            partition,
            found,
            found_of,
            asked_of,
        },
        OpenCause::Spent => RunFault::Spent,
        OpenCause::Memory => RunFault::Memory,
    }
}

/// The fault of a run for which the kit of this partition was not given.
pub(crate) fn of_shelf(partition: u32, fault: ShelfFault) -> RunFault
    ensures { result ≡ fault_of_shelf partition fault }
{
    match fault {
        ShelfFault::Fault => RunFault::Disk { partition },
        ShelfFault::Memory => RunFault::Memory,
    }
}

/// How a run ended: its exit status, the fault where the status is not 0, and each kit that the shelf gave, all files of
/// which are at home.
#[derive(Drop)]
pub struct Served<S: Store> {
    pub status: u8,
    pub fault: Option<RunFault>,
    pub kits: Vec<Kit<S>>,
}

impl<S: Store> Served<S> {
    ghost use Rattle.std.specs.Prelude.{◌≡◌};
    ghost use Rattle.tc_keeper.specs.Faults.{status_of};

    /// A run that ended by this fault, or by none.
    pub(crate) fn of(fault: Option<RunFault>, kits: Vec<Kit<S>>) -> Served<S>
        ensures status { result.status ≡ status_of fault }
        ensures fault { result.fault ≡ fault }
        ensures kits { result.kits ≡ kits }
    {
        let status = match &fault {
            Some(fault) => fault.status(),
            None => 0,
        };
        Served {
            status,
            fault,
            kits,
        }
    }
}
