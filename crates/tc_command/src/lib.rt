//! Layer 2, text: what a line asks for, and the line that answers it.
#![tactic(auto)]

mod asks;
mod commands;
mod conversions;
mod document_lines;
mod forms;
mod keyed_lines;
mod line;
mod refusals;
mod replies;
mod texts;

pub use asks::{Ask, Hop, PathExpr};
pub use commands::Command;
pub use conversions::upsert_of;
pub use line::{MAX_LINE, parse};
pub use refusals::{ParseFault, Refusal};
pub use replies::{Counts, Reply, Row, Rows, Schemas};
pub use texts::put_line;
