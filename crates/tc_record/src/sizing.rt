//! The length of a document's record.

ghost use Rattle.std.specs.Prelude.{◌≡◌, ◌≤◌, ◌<◌, ◌^◌, IfSome, IfNone, nat_lt, if◌then◌else◌, length};
ghost use Rattle.tc_value.specs.Meaning.{tree_of};
ghost use Rattle.tc_record.specs.Record.{record_of};
ghost use Rattle.tc_model.specs.Stored.{IsObject};
ghost use Rattle.tc_record.specs.Widths.{width_bytes};
ghost use Rattle.tc_record.specs.Measured.{column_width, column_len, record_len};

use crate::measure::{ColumnSum, Measure, measure_document};
use crate::widths::Width;
use tc_value::Doc;

/// How many bytes the header of a record has.
pub const HEADER_SIZE: usize = 23;

/// The length of the record of form 0, or `None` where the document is no object or its record would have 4,294,967,296
/// bytes or more. Takes no memory.
pub fn size(doc: &Doc) -> Option<u32>
    ensures some { IfSome result (λ len. IsObject (tree_of doc.now) × (len ≡ length (record_of (tree_of doc.now)))) }
    ensures none { IfNone result (IsObject (tree_of doc.now) → 2 ^ 32 ≤ length (record_of (tree_of doc.now))) }
{
    match doc {
        Doc::Object(_) => within_u32(len_of_record(measure_document(doc))),
        _ => None,
    }
}

fn within_u32(len: u64) -> Option<u32>
    ensures { result ≡ (if nat_lt len (2 ^ 32) then Some len else None) }
{
    if len < 0x1_0000_0000 {
        Some(len as u32)
    } else {
        None
    }
}

pub(crate) fn width_of_column(column: ColumnSum) -> Width
    ensures { width_bytes result ≡ column_width column }
{
    if column.count == 0 {
        Width::Zero
    } else {
        Width::holding(column.greatest)
    }
}

fn len_of_column(column: ColumnSum) -> u64
    ensures { result ≡ column_len column }
{
    let width = width_of_column(column).bytes();
    column
        .count
        .saturating_mul(u64::from(width))
        .saturating_add(column.bytes)
}

pub(crate) fn len_of_record(measure: Measure) -> u64
    ensures { result ≡ record_len measure }
{
    let values = (HEADER_SIZE as u64)
        .saturating_add(measure.tags)
        .saturating_add(measure.fixed);
    let texts = len_of_column(measure.texts);
    let names = len_of_column(measure.names);
    values.saturating_add(texts.saturating_add(names))
}
