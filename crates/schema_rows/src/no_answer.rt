//! Rows that have no answer.

use std::alloc::{AllocError, AllocFailed};

/// A row is out of form, or asks for what is not there, or there was no memory.
#[derive(Clone, Copy)]
pub(crate) struct NoAnswer;

impl From<AllocError> for NoAnswer {
    fn from(_: AllocError) -> NoAnswer {
        NoAnswer
    }
}

impl<T: Drop> From<AllocFailed<T>> for NoAnswer {
    fn from(_: AllocFailed<T>) -> NoAnswer {
        NoAnswer
    }
}
