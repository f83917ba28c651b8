//! The faults of readers, as answers.

use std::alloc::Global;
use tc_rows::{digits, word};
use tc_store::ReadFault;

/// The answer for the fault of a reader.
pub(crate) fn read_fault(alloc: Global, fault: ReadFault) -> Option<String> {
    match fault {
        ReadFault::Disk => word(alloc, "fault"),
        ReadFault::Damaged { place, bytes } => {
            let digits = digits(alloc, bytes.as_slice())?;
            format!(in alloc; "damaged {place} {}", digits.as_str()).ok()
        }
        ReadFault::Memory => None,
    }
}
