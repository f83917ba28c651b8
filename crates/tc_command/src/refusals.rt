//! Why a line is refused.

ghost use Rattle.std.specs.Prelude.{◌≡◌};
ghost use Rattle.tc_json.specs.declared.fault.JsonFault.{JsonFault};
ghost use Rattle.tc_request_model.specs.Reply.{refusal_name};
ghost use Rattle.tc_command.specs.Refusals.{refusal_of, refusal_number, fault_of};
ghost use Rattle.tc_command.specs.declared.refusals.ParseFault.TheVariants.{Memory};

use std::alloc::{AllocError, AllocFailed};
use std::fmt;
use tc_json::JsonFault;
use thiserror::Error;

/// Why a line is refused.
#[derive(Clone, Copy, Debug, PartialEq, Eq)]
pub enum Refusal {
    Oversized,
    Malformed,
    Unknown,
    NotWhole,
    TooDeep,
    Key,
    NamesFull,
    Full,
    Busy,
    NoScan,
}

impl Refusal {
    /// The place of a refusal in the order in which refusals are tested, from 1 on.
    pub fn number(self) -> u8
        ensures { result ≡ refusal_number (refusal_of self) }
    {
        match self {
            Refusal::Oversized => 1,
            Refusal::Malformed => 2,
            Refusal::Unknown => 3,
            Refusal::NotWhole => 4,
            Refusal::TooDeep => 5,
            Refusal::Key => 6,
            Refusal::NamesFull => 7,
            Refusal::Full => 8,
            Refusal::Busy => 9,
            Refusal::NoScan => 10,
        }
    }

    /// The name of a refusal in replies.
    pub fn name(self) -> &'static str
        ensures { result.now ≡ refusal_name (refusal_of self) }
    {
        match self {
            Refusal::Oversized => "oversized",
            Refusal::Malformed => "malformed",
            Refusal::Unknown => "unknown",
            Refusal::NotWhole => "not_whole",
            Refusal::TooDeep => "too_deep",
            Refusal::Key => "key",
            Refusal::NamesFull => "names_full",
            Refusal::Full => "full",
            Refusal::Busy => "busy",
            Refusal::NoScan => "no_scan",
        }
    }
}

impl fmt::Display for Refusal {
    fn fmt<W: fmt::Write>(&self, f: &mut fmt::Formatter<W>) -> fmt::Result {
        f.write_str(self.name())
    }
}

/// Why a line gives no command.
#[derive(Clone, Copy, Debug, PartialEq, Eq, Error)]
pub enum ParseFault {
    #[error("the line is refused: {0}")]
    Refused(Refusal),
    #[error("no memory")]
    Memory,
}

impl From<Refusal> for ParseFault {
    ghost use Rattle.tc_command.specs.declared.refusals.ParseFault.TheVariants.{Refused};

    ghost from_gives = { λ r e. e ≡ Refused r };

    fn from(refusal: Refusal) -> ParseFault {
        ParseFault::Refused(refusal)
    }
}

impl From<AllocError> for ParseFault {
    ghost from_gives = { λ _ e. e ≡ Memory };

    fn from(_error: AllocError) -> ParseFault {
        ParseFault::Memory
    }
}

impl<T: Drop> From<AllocFailed<T>> for ParseFault {
    ghost from_gives = { λ _ e. e ≡ Memory };

    fn from(_failed: AllocFailed<T>) -> ParseFault {
        ParseFault::Memory
    }
}

impl From<JsonFault> for ParseFault {
    ghost from_gives = { λ f e. e ≡ fault_of f };

    fn from(fault: JsonFault) -> ParseFault {
        match fault {
            JsonFault::NotWhole => ParseFault::Refused(Refusal::NotWhole),
            JsonFault::TooDeep => ParseFault::Refused(Refusal::TooDeep),
            JsonFault::Memory => ParseFault::Memory,
        }
    }
}
