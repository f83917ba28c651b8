//! The difference that a caller is told.

use tc_value::{Kind, Step};

/// The first place where two schemas show different numbers: the path, the kind, and what each shows there. The names
/// of the path are its own, so that it outlives the dictionary.
#[derive(Drop, Debug)]
pub struct Found {
    pub path: Vec<Step>,
    pub kind: Kind,
    /// What the schema that is kept shows there.
    pub kept: u64,
    /// What the schema of what was counted shows there.
    pub counted: u64,
}
