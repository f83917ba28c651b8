//! Layer 2, records: what records have in common that have the same tags, and the same numbers in place of names.
#![tactic(auto)]

mod alike;
mod bound;
mod spelling;

pub use alike::{is_alike, numbers_of};
pub use bound::is_surely_short;
pub use spelling::spells_like;
