//! What a table lends of a key.

use tc_bytes::Bytes;
use tc_value::Shape;

/// What is held of a key: that its document is gone, or the document's record, in form 0 and without the key.
#[derive(Clone, Copy, Debug)]
pub enum Held<'a> {
    Gone,
    Live(&'a Bytes),
}

/// An entry of a table: a key, what is held of it, and the shape of the document that it has below the table, or
/// none where it has none there.
#[derive(Clone, Copy, Debug)]
pub struct Entry<'a> {
    pub key: u64,
    pub held: Held<'a>,
    pub below: Option<&'a Shape>,
}
