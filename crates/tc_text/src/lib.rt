//! Layer 2, text: the JSON text of names, scalars and marks, put after other text without a tree of values.
#![tactic(auto)]

mod plain;
mod quoting;
mod scalars;

pub use plain::is_plain;
pub use quoting::put_quoted;
pub use scalars::{put_bool, put_comma, put_int, put_mark, put_name, put_unsigned};
