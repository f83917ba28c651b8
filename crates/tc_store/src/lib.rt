//! Layer 2, disk: files and what a stop may leave of them, with stores, devices and gates, and their forms in memory.
#![tactic(auto)]

mod damage;
mod device;
mod fault;
mod file_name;
mod frozen;
mod gate;
mod judging;
mod kit;
mod laws;
mod mem;
mod store;
mod watch;

pub use damage::{Damage, FileNames, ReadFault};
pub use device::Device;
pub use fault::{DeviceFault, FrozenFault, ShelfFault, StoreFault};
pub use file_name::{FileName, name_order};
pub use frozen::Frozen;
pub use gate::{Broken, Gated, is_open};
pub use judging::{bytes_of, damaged, whole_of};
pub use kit::{Kit, Shelf};
pub use laws::stops_follow_files;
pub use mem::{MemDevice, MemFile, MemFrozen, MemShelf, MemStore, MemWatch};
pub use store::Store;
pub use watch::Watch;
