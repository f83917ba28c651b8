//! Faults, as answers.

use std::alloc::Global;
use std::io;
use tc_files::FileWatch;
use tc_rows::word;

/// A fault, and of which kind the system's error was.
pub(crate) fn fault(alloc: Global, error: Option<io::Error>) -> Option<String> {
    match error {
        Some(error) => format!(in alloc; "fault {:?}", error.kind()).ok(),
        None => None,
    }
}

/// What a call answered that a watch counts: nothing, or a fault.
pub(crate) fn done<E: Drop>(
    alloc: Global,
    watch: &FileWatch,
    called: Result<(), E>,
) -> Option<String> {
    match called {
        Ok(()) => word(alloc, "ok"),
        Err(_) => fault(alloc, watch.last_error()),
    }
}
