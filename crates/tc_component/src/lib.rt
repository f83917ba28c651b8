//! Layer 3, files: the component file of a partition, written, loaded and searched.
#![tactic(auto)]

mod builder;
mod component;
mod cursor;
mod directory;
mod fetching;
mod found;
mod head;
mod kept_schema;
mod law;
mod layout;
mod loading;
mod reading;
mod slot;
mod spool;

pub use builder::Builder;
pub use component::{Component, read_head};
pub use cursor::RecordCursor;
pub use found::{DirEntry, Found, Place, Span};
pub use head::Head;
pub use law::{components_are_contents, written_is_read};
pub use slot::Slot;
