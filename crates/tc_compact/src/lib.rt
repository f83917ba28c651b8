//! Layer 2, records: records whose members carry the numbers of their names in a dictionary.
#![tactic(auto)]

mod compacting;
mod cutting;
mod decoding;
mod dictionary;
mod expanding;
mod guessing;
mod law;
mod layout;
mod learning;
mod meaning;
mod order;
mod outline;
mod repacking;
mod shaping;
mod sizing;
mod slot_sum;
mod spelling;

pub use compacting::{compact, compact_numbered};
pub use decoding::{document_of, value_behind};
pub use expanding::expand;
pub use law::{document_meant, names_agree, round_trip};
pub use repacking::repack;
pub use shaping::shape_of;
pub use sizing::expanded_size;
pub use spelling::spells_document;
