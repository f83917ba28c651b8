//! Layer 6, programs: what is said of a fault below its first line: why it came, where, and what would serve. All is looked at from
//! outside, once the run has ended: the words, and the names, kinds and headers of the files in a folder.
#![tactic(auto)]

mod damaged;
mod disk;
mod kept;
mod layout;
mod listing;
mod misfit;
mod settings;
mod shown;
mod spent;
mod unfit;
mod usage;

pub use damaged::say_damage;
pub use disk::{DiskError, say_disk};
pub use kept::{Kept, say_stream};
pub use layout::{Layout, say_layout};
pub use spent::{say_input_spent, say_memory, say_spent};
pub use usage::say_usage;
