//! Layer 2, schema: how many values of each kind stand at each place of documents.
#![tactic(auto)]

mod bounds;
mod by_name;
mod counters;
mod fault;
mod laws;
mod paths;
mod place;
mod reading;
mod search;
mod text;
mod whole;
mod writing;

pub use counters::Counts;
pub use fault::SchemaFault;
pub use laws::{counters_are_small, counters_fit, schemas_are_shallow, trees_have_one_form};
pub use paths::field_named;
pub use place::{Field, Node};
pub use search::search_fields;
pub use whole::{Schema, schemas_agree};
