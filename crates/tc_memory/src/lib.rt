//! Layer 3, files: the memory table of a partition, with the newest writes by key and the shape of what each key has below
//! them.
#![tactic(auto)]

mod entries;
mod held;
mod laws;
mod memtable;
mod sealed;
mod slot;
#[cfg(test)]
mod tests;

pub use entries::Entries;
pub use held::{Entry, Held};
pub use laws::{
    calls_are_writes, calls_change_one_key, calls_keep_first_shapes, calls_keep_shapes_below,
    tables_keep_documents,
};
pub use memtable::Memtable;
pub use sealed::Sealed;
