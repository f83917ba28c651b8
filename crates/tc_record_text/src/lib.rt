//! Layer 2, records: the JSON text of what a record spells, put after other text without making its document.
#![tactic(auto)]

mod flat_rows;
mod keyed;
mod labels;
mod memo;
mod places;
mod reaching;
mod rows;
mod sheet;
mod skipping;
mod staged;
mod values;

pub use keyed::{put_document, text_of_document};
pub use labels::{closes, has_name, name_of};
pub use rows::put_row;
pub use skipping::{skip, skip_to_close};
