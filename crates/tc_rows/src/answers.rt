//! Short answers. Want of memory is none.

use std::alloc::Global;
use std::fmt::Write;
use tc_store::{DeviceFault, StoreFault};

/// A word.
pub fn word(alloc: Global, word: &str) -> Option<String> {
    String::from_str(alloc, word).ok()
}

/// A number.
pub fn number(alloc: Global, number: u64) -> Option<String> {
    format!(in alloc; "{number}").ok()
}

/// Bytes in hexadecimal digits, or that there is none.
pub fn digits(alloc: Global, bytes: &[u8]) -> Option<String> {
    if bytes.is_empty() {
        return word(alloc, "empty");
    }
    hex::encode(alloc, bytes).ok()
}

/// How a call on a device went.
pub fn device_answer(alloc: Global, called: Result<(), DeviceFault>) -> Option<String> {
    match called {
        Ok(()) => word(alloc, "ok"),
        Err(DeviceFault::Fault) => word(alloc, "fault"),
        Err(DeviceFault::Memory) => None,
    }
}

/// The fault of a store.
pub fn store_fault(alloc: Global, fault: StoreFault) -> Option<String> {
    match fault {
        StoreFault::Fault => word(alloc, "fault"),
        StoreFault::Memory => None,
    }
}

/// Adds how many calls failed, and how many reads were made.
pub fn push_counts(text: &mut String, faults: u64, reads: u64) -> Option<()> {
    write!(text, "faults {faults}, reads {reads}").ok()
}
