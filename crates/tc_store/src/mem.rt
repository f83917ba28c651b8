//! Stores, devices and shelves in memory.

mod choices;
mod device;
mod entry;
mod frozen;
mod remains;
mod shelf;
mod slots;
mod stop;
mod store;
mod watch;

pub use device::MemDevice;
pub use entry::MemFile;
pub use frozen::MemFrozen;
pub use shelf::MemShelf;
pub use store::MemStore;
pub use watch::MemWatch;
