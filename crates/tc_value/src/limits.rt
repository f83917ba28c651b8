//! What documents are bounded by.

/// How deep a document may nest, where a line or a record holds it.
pub const MAX_DEPTH: u32 = 32;
