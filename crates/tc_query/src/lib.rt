//! Layer 4, partition: the rows that a query gets over what a partition stores.
#![tactic(auto)]

mod ahead;
mod fault;
mod known;
mod looking;
mod reader;
mod record;
mod row;
mod rows;
mod walk;

pub use fault::QueryFault;
pub use row::row_of_known;
pub use rows::rows_over;
