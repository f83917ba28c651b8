//! Layer 2, schema: one document more or one less in a schema that is inferred, and the names that are new in it.
#![tactic(auto)]

mod adding;
mod counting;
mod fresh;
mod guessing;
mod known;
mod learned;
mod learning;
mod met;
mod numbering;
mod recording;
mod subtracting;
mod taking;
mod taking_known;
mod taking_walk;
mod together;
mod tokens;
mod walking;

pub use adding::add;
pub use fresh::count_fresh;
pub use known::add_known;
pub use learned::add_learning;
pub use met::Met;
pub use recording::add_record;
pub use subtracting::{shapes_fit, subtract, subtract_if_fits};
pub use taking_known::take_known;
pub use together::fit_together;
