//! The check of a store's files.

use crate::IN_MEMORY;
use crate::disk::disk_error;
use crate::kits::empty_kits;
use crate::reasons::{Errors, say_reason};
use std::io::Error;
use std::process::ExitCode;
use tc_edge::StdSink;
use tc_files::FileShelf;
use tc_reasons::{DiskError, Kept};
use tc_server::{RunFault, fault_text};
use tc_store::{MemShelf, Shelf, Store};
use tc_value::Text;
use tc_verdicts::{Checked, CheckedFault, check_all};

/// Checks the files of so many partitions, writes a line for each, and answers the exit status. Nothing is made or changed.
pub(crate) fn check_in(rt: HostRuntime, folder: Text, partitions: u32) -> ExitCode {
    if folder.as_str() == IN_MEMORY {
        check_in_memory(rt, partitions)
    } else {
        check_in_folder(rt, folder, partitions)
    }
}

// A store in memory has no files at first.
fn check_in_memory(rt: HostRuntime, partitions: u32) -> ExitCode {
    match empty_kits(rt.alloc()) {
        Ok(kits) => {
            let check = check_over(rt, partitions, &mut MemShelf::new(kits));
            report(rt, &check, None)
        }
        Err(_) => {
            say(rt, &RunFault::Memory, None, None);
            ExitCode::from(CheckedFault::Memory.status())
        }
    }
}

fn check_in_folder(rt: HostRuntime, folder: Text, partitions: u32) -> ExitCode {
    let mut shelf = FileShelf::to_read(rt, folder);
    let check = check_over(rt, partitions, &mut shelf);
    let error = disk_error(&shelf, &check.fault(), check.checked.kits.as_slice());
    report(rt, &check, error)
}

/// How a check ended, and why the last write failed of those that did.
#[derive(Drop)]
struct Check<S: Store> {
    checked: Checked<S>,
    write_error: Option<Error>,
}

impl<S: Store> Check<S> {
    /// The fault of a run that is told in the same words.
    fn fault(&self) -> Option<RunFault> {
        match self.checked.fault? {
            CheckedFault::Write { taken } => Some(RunFault::Write { taken }),
            CheckedFault::Disk { partition } => Some(RunFault::Disk { partition }),
            CheckedFault::Memory => Some(RunFault::Memory),
        }
    }
}

// Checks the stores of a shelf.
fn check_over<H: Shelf>(rt: HostRuntime, partitions: u32, shelf: &mut H) -> Check<H::Store> {
    let mut sink = StdSink::new(Kept::new(rt.stdout()));
    let checked = check_all(rt.alloc(), partitions, shelf, &mut sink);
    Check {
        checked,
        write_error: sink.into_inner().last_error(),
    }
}

// Says by which fault a check ended, if by any, and why, and answers its exit status.
fn report<S: Store>(rt: HostRuntime, check: &Check<S>, disk: Option<DiskError>) -> ExitCode {
    if let Some(fault) = &check.fault() {
        say(rt, fault, check.write_error, disk);
    }
    ExitCode::from(check.checked.status)
}

// Says the first line of a fault, and those below it. What cannot be said, since memory or standard error fails, is left out.
fn say(rt: HostRuntime, fault: &RunFault, write: Option<Error>, disk: Option<DiskError>) {
    if let Ok(text) = fault_text(rt.alloc(), fault) {
        let _ = eprintln!(rt; "{}", text.as_str());
    }
    match fault {
        RunFault::Memory => {
            let _ = eprintln!(rt;
                "check keeps in memory the keys and names that the files of one partition have, and what its logs hold"
            );
        }
        other => {
            let errors = Errors {
                read: None,
                write,
                disk,
            };
            say_reason(rt, other, errors);
        }
    }
}
