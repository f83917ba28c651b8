//! Layer 2, disk: stores over the folders and files of the system, which tell no content.
#![tactic(auto)]

mod calls;
mod device;
mod file;
mod folder;
mod frozen;
mod laws;
mod name;
mod shelf;
mod store;
mod watch;

pub use device::FileDevice;
pub use frozen::FileFrozen;
pub use laws::names_are_apart;
pub use name::{file_text, name_in};
pub use shelf::FileShelf;
pub use store::FileStore;
pub use watch::FileWatch;

#[cfg(test)]
mod tests;
