//! Layer 5, engine: the commands of a window run over one partition, and its writes made one frame; the log is emptied into a
//! component, and components are merged, by jobs on threads beside the windows.
#![tactic(auto)]

mod answering;
mod emptying;
mod engine;
mod fault;
mod finishing;
mod flushing;
mod merging;
mod progress;
mod room;
mod schema_text;
mod seen;
mod settling;
mod staging;
mod sweeping;
mod window;

pub use engine::Engine;
pub use fault::EngineFault;
pub use finishing::Finished;
pub use seen::Seen;
pub use tc_running::{Free, Pace, Point, Running};
