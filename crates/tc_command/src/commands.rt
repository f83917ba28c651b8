//! The commands.

use crate::asks::Ask;
use tc_value::Doc;

/// What a line asks the store to do. The document of an upsert lacks the member `id`, which is its key.
#[derive(Drop, Debug)]
pub enum Command {
    Upsert { key: u64, doc: Doc },
    Delete { key: u64 },
    Get { key: u64 },
    Query(Ask),
    Flush,
    Schema,
    Scan(Ask),
    Collect,
}
