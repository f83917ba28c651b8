//! Layer 1, base: numbers as text, in decimal digits.
#![tactic(auto)]

mod laws;
mod number;

pub use laws::numbers_are_printed;
pub use number::number_between;
