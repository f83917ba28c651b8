//! Calls on a memory table, and on what it stands over.

use crate::desk::Desk;
use std::alloc::Global;
use tc_bytes::Bytes;
use tc_compact::shape_of;
use tc_memory::Memtable;
use tc_names::Names;
use tc_record::{RecordRef, is_stored_record};
use tc_rows::{bytes, word};
use tc_schema::Schema;
use tc_value::Shape;

// Keys are below this.
const END: u64 = 0x8000_0000_0000_0000;

/// The table stands over these names, and over a schema whose numbers need not be below theirs.
pub(crate) fn below(alloc: Global, desk: &mut Desk, argument: &str) -> Option<String> {
    let (named, counted) = argument.split_once(' ')?;
    let named = bytes(alloc, named)?;
    desk.names = Names::from_bytes(alloc, &named).ok()?;
    let counted = bytes(alloc, counted)?;
    desk.schema = Schema::from_bytes(alloc, &counted, u32::MAX).ok()?;
    word(alloc, "ok")
}

/// The upsert of a key: its document's record, and perhaps the record of the document that it has below the table.
pub(crate) fn put(alloc: Global, table: &mut Memtable, argument: &str) -> Option<String> {
    let (key, behind) = argument.split_once(' ')?;
    let (digits, below) = behind.split_once(' ').unwrap_or((behind, ""));
    let key = key.parse::<u64>().ok()?;
    let bytes = bytes(alloc, digits)?;
    if key >= END || !is_stored_record(&bytes) {
        return None;
    }
    let shape = shape_below(alloc, below)?;
    table.upsert(key, Bytes::of(bytes), shape).ok()?;
    word(alloc, "ok")
}

/// The delete of a key, and perhaps the record of the document that it has below the table.
pub(crate) fn delete(alloc: Global, table: &mut Memtable, argument: &str) -> Option<String> {
    let (key, below) = argument.split_once(' ').unwrap_or((argument, ""));
    let key = key.parse::<u64>().ok()?;
    if key >= END {
        return None;
    }
    let shape = shape_below(alloc, below)?;
    table.delete(key, shape).ok()?;
    word(alloc, "ok")
}

// The shape of a record's document, or none of no digits.
fn shape_below(alloc: Global, digits: &str) -> Option<Option<Shape>> {
    if digits.is_empty() {
        return Some(None);
    }
    let bytes = bytes(alloc, digits)?;
    let of = RecordRef::of(&bytes)?;
    let shape = shape_of(alloc, of, &Names::new(alloc)).ok()?;
    Some(Some(shape))
}
