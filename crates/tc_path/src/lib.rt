//! Layer 3, files: the values that a path reaches in a record, without making its document.
#![tactic(auto)]

mod comparing;
mod finding;
mod leading;
mod reaching;
mod selecting;
mod standing;
mod trail;
mod value;

pub use finding::first;
pub use leading::{Lead, Spot, hops_of, lead_of};
pub use reaching::reaches;
pub use selecting::select;
pub use standing::reaches_at;
pub use value::ValueRef;
