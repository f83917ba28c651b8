//! The words of the command line.

use std::alloc::Global;
use tc_rows::words;
use tc_value::Text;
use tc_words::{WordsFault, check_asked, invocation};

/// What words ask for, which stand between single spaces.
pub(crate) fn asked(alloc: Global, line: &str) -> Option<String> {
    shown(alloc, words(alloc, line)?.as_slice())
}

/// What words ask for, or that they are no command line.
pub(crate) fn shown(alloc: Global, words: &[Text]) -> Option<String> {
    match check_asked(alloc, words) {
        Ok(Some(partitions)) => format!(in alloc; "Check {{ partitions: {partitions} }}\n").ok(),
        Ok(None) => shown_invocation(alloc, words),
        Err(_) => None,
    }
}

fn shown_invocation(alloc: Global, words: &[Text]) -> Option<String> {
    match invocation(alloc, words) {
        Ok(asked) => format!(in alloc; "{asked:?}\n").ok(),
        Err(WordsFault::Memory) => None,
        Err(fault) => format!(in alloc; "{fault}\n").ok(),
    }
}
