//! Layer 2, records: the vector-based record of a document.
#![tactic(auto)]

mod building;
mod column;
mod column_sizes;
mod columns;
mod cursor;
mod decoding;
mod encoding;
mod fault;
mod flat_rows;
mod header;
mod judging;
mod judging_ascii;
mod judging_numbers;
mod kinds;
mod law;
mod measure;
mod names_left;
mod nesting;
mod numbers;
mod passing;
mod reader;
mod record_ref;
mod sections;
mod sizing;
mod stored;
mod tags;
mod token;
mod totals;
mod walking;
mod widths;

pub use column::Column;
pub use column_sizes::{column_bits, column_bytes, least_width};
pub use cursor::Cursor;
pub use decoding::decode;
pub use encoding::encode;
pub use fault::RecordFault;
pub use header::{NAMED_FORM, NUMBERED_FORM, PACKED_FORM};
pub use law::{one_document, record_within_weight};
pub use names_left::NamesLeft;
pub use reader::precedes;
pub use record_ref::RecordRef;
pub use sizing::{HEADER_SIZE, size};
pub use stored::is_stored_record;
pub use token::{Label, Piece, Token};
pub use widths::{Width, put_number};
