//! Layer 4, partition: what a partition publishes to its readers. One publisher writes it, lenses read it, and all that is
//! read begins one history of writes.
#![tactic(auto)]

mod change;
mod chunk;
mod content;
mod happened;
mod history;
mod law;
mod lens;
mod mark;
mod past;
mod piece;
mod publisher;
mod rooms;
mod rule;
mod snapshot;
mod step;
mod view;

pub use change::Change;
pub use chunk::Chunk;
pub use content::Content;
pub use happened::Happened;
pub use law::histories_hold_writes;
pub use lens::Lens;
pub use past::Past;
pub use publisher::Publisher;
pub use rooms::Rooms;
pub use rule::{Agrees, Key};
pub use snapshot::{Note, Snapshot};
pub use step::Step;
pub use view::View;
