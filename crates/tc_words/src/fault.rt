//! Why words are refused.
ghost use Rattle.std.specs.Prelude.{◌≡◌};
ghost use Rattle.clap.specs.Words.{kind_of};
ghost use Rattle.tc_words.specs.Fault.{fault_of_kind};
ghost use Rattle.tc_words.specs.declared.fault.WordsFault.TheVariants.{Memory};

use clap::error::ErrorKind;
use std::alloc::{AllocError, AllocFailed};
use thiserror::Error;

/// Why words are refused.
#[derive(Clone, Copy, Debug, PartialEq, Eq, Error)]
pub enum WordsFault {
    /// The words are no `run` and no `demo`: they name neither, ask for help, or have an option or a number out of form.
    #[error("the words are no command line")]
    Usage,
    /// No memory was left.
    #[error("no memory")]
    Memory,
}

impl From<AllocError> for WordsFault {
    ghost from_gives = { λ _ fault. fault ≡ Memory };

    fn from(_error: AllocError) -> WordsFault {
        WordsFault::Memory
    }
}

impl<T: Drop> From<AllocFailed<T>> for WordsFault {
    ghost from_gives = { λ _ fault. fault ≡ Memory };

    fn from(_failed: AllocFailed<T>) -> WordsFault {
        WordsFault::Memory
    }
}

impl From<clap::Error> for WordsFault {
    ghost from_gives = { λ error fault. fault ≡ fault_of_kind (kind_of error) };

    fn from(error: clap::Error) -> WordsFault {
        match error.kind() {
            ErrorKind::OutOfMemory => WordsFault::Memory,
            _ => WordsFault::Usage,
        }
    }
}
