//! Names of files and faults, as answers.

use std::alloc::Global;
use std::fmt::Write;
use tc_jobs::JobFault;
use tc_part::PartFault;
use tc_rows::word;
use tc_store::{Damage, FileName};

/// A fault, as an answer. Want of memory is none.
pub(crate) fn fault_word(alloc: Global, fault: PartFault) -> Option<String> {
    match fault {
        PartFault::Disk => word(alloc, "fault"),
        PartFault::Damaged(damage) => damage_text(alloc, damage),
        PartFault::Spent => word(alloc, "spent"),
        PartFault::Memory => None,
    }
}

/// How the end of a job went, as an answer. Want of memory is none.
pub(crate) fn job_outcome(alloc: Global, done: Result<(), JobFault>) -> Option<String> {
    match done {
        Ok(()) => word(alloc, "ok"),
        Err(JobFault::Disk) => word(alloc, "fault"),
        Err(JobFault::Damaged(damage)) => damage_text(alloc, damage),
        Err(JobFault::Memory) => None,
    }
}

/// Damage, as an answer.
pub(crate) fn damage_text(alloc: Global, damage: Damage) -> Option<String> {
    match damage {
        Damage::Bytes { file, place, bytes } => {
            let mut text = word(alloc, "damaged")?;
            push_name(&mut text, file)?;
            let bytes = hex::encode(alloc, bytes.as_slice()).ok()?;
            write!(text, " at {place} {}", bytes.as_str()).ok()?;
            Some(text)
        }
        Damage::Files { names } => {
            let mut text = word(alloc, "damaged")?;
            for name in names.as_slice() {
                push_name(&mut text, *name)?;
            }
            Some(text)
        }
    }
}

/// The name of a file, behind a space.
pub(crate) fn push_name(text: &mut String, name: FileName) -> Option<()> {
    match name {
        FileName::Component { from, to } => write!(text, " component {from} {to}").ok(),
        FileName::Log { generation } => write!(text, " log {generation}").ok(),
    }
}
