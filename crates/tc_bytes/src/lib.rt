//! Layer 1, base: byte strings, and the fields of a binary format.
#![tactic(auto)]

mod byte_string;
mod reading;
mod writing;

pub use byte_string::Bytes;
pub use reading::{counted_at, slice_at, u8_at, u16_at, u32_at, u64_at};
use std::alloc::AllocError;
pub use writing::{put_counted, put_u32, put_u64};

/// That memory was wanting: the error of each call that fails in no other way.
pub type Memory = AllocError;
