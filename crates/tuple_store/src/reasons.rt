//! What is said below the first line of the fault that ended a run or a check.

use crate::IN_MEMORY;
use std::io::Error;
use tc_reasons::{
    DiskError, Layout, say_damage, say_disk, say_input_spent, say_layout, say_memory, say_spent,
    say_stream, say_usage,
};
use tc_server::{RunFault, words};
use tc_value::Text;
use tc_words::WordsFault;

/// The errors of the system that a fault came of.
#[derive(Clone, Copy)]
pub(crate) struct Errors {
    /// Why the last read failed of those that did.
    pub(crate) read: Option<Error>,
    /// Why the last write failed of those that did.
    pub(crate) write: Option<Error>,
    /// Why the last call on the files of the fault's partition failed.
    pub(crate) disk: Option<DiskError>,
}

/// Says why a run ended by this fault. What cannot be said, since memory or standard error fails, is left out.
pub(crate) fn say_reason(rt: HostRuntime, fault: &RunFault, errors: Errors) {
    let _ = match fault {
        RunFault::Usage => say_words(rt),
        RunFault::Read => say_stream(rt, "standard input", errors.read),
        RunFault::Write { .. } => say_stream(rt, "standard output", errors.write),
        RunFault::Memory => say_memory(rt),
        other => say_of_files(rt, other, errors.disk),
    };
}

fn say_words(rt: HostRuntime) -> Result<(), Error> {
    match words(&rt) {
        Ok(words) => say_usage(rt, Some(words.as_slice())),
        Err(WordsFault::Usage) => say_usage(rt, None),
        Err(WordsFault::Memory) => Ok(()),
    }
}

// Without memory for the words there is no folder to speak of. A store in memory has none, and one of these faults alone.
fn say_of_files(rt: HostRuntime, fault: &RunFault, error: Option<DiskError>) -> Result<(), Error> {
    let Ok(words) = words(&rt) else {
        return Ok(());
    };
    let Some((folder, rest)) = words.as_slice().split_first() else {
        return Ok(());
    };
    let folder = folder.as_str();
    match fault {
        RunFault::Disk { partition } => match error {
            Some(error) => say_disk(rt, folder, *partition, error),
            None => Ok(()),
        },
        RunFault::Damaged { partition, damage } => say_damage(rt, folder, *partition, damage),
        RunFault::Layout {
            partition,
            found,
            found_of,
            asked_of,
        } => {
            let layout = Layout {
                partition: *partition,
                found: *found,
                found_of: *found_of,
                asked_of: *asked_of,
            };
            say_layout(rt, folder, layout, is_demo(rest))
        }
        RunFault::Spent => say_no_number(rt, folder),
        _ => Ok(()),
    }
}

fn say_no_number(rt: HostRuntime, folder: &str) -> Result<(), Error> {
    if folder == IN_MEMORY {
        say_input_spent(rt)
    } else {
        say_spent(rt, folder)
    }
}

fn is_demo(words: &[Text]) -> bool {
    match words.first() {
        Some(word) => word.as_str() == "demo",
        None => false,
    }
}
