//! Layer 2, schema: where two schemas of one dictionary first show different numbers.
#![tactic(auto)]

mod comparing;
mod differing;
mod found;
mod fronts;
mod kinds;
mod laws;
mod met;

pub use differing::first_difference;
pub use found::Found;
pub use laws::one_is_first;

#[cfg(test)]
mod tests;
