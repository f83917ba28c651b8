//! Layer 5, engine: the commands of a window shared out to partitions, and the replies of the partitions put together.
#![tactic(auto)]

mod gathering;
mod laws;
mod placed;
mod rows;
mod splitting;

pub use gathering::gather;
pub use laws::{kinds_are_gathered, rendered_are_gathered, replies_are_gathered};
pub use placed::{Placed, Replies, Routed};
pub use splitting::split;
