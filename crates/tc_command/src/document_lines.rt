//! The lines of replies that hold texts of documents and schemas, which are copied one after the other.

ghost use Rattle.std.specs.Prelude.{◌≡◌, ◌++◌, OnOk};
ghost use Rattle.serde_json.specs.Data.{array};
ghost use Rattle.serde_json.specs.Written.{compact_text};
ghost use Rattle.tc_request_model.specs.Reply.{counts_data};
ghost use Rattle.tc_request_model.specs.Rendered.{text_or_null, rows_array, texts_array, got_line as found_text, rows_line as rows_text, schemas_line as schemas_text, collected_line as collected_text};

use crate::replies::{Counts, Row, Rows, Schemas};
use std::alloc::AllocError;
use tc_bytes::Bytes;
use tc_text::{put_comma, put_mark, put_unsigned};

// What a line takes beside the texts in it, but for counts.
const ROOM: usize = 64;

/// Puts the line of the document of a key, or of none.
pub(crate) fn put_found_line(text: &Option<Bytes>, out: &mut Vec<u8>) -> Result<(), AllocError>
    ensures { OnOk result (out.new.items ≡ out.old.items ++ found_text text.now) }
{
    out.extend_from_slice(b"{\"doc\":")?;
    put_found(text, out)?;
    out.extend_from_slice(b"}\n")
}

fn put_found(text: &Option<Bytes>, out: &mut Vec<u8>) -> Result<(), AllocError>
    ensures { OnOk result (out.new.items ≡ out.old.items ++ text_or_null text.now) }
{
    match text {
        Some(text) => out.extend_from_slice(text.as_slice()),
        None => out.extend_from_slice(b"null"),
    }
}

/// Puts the line of rows.
pub(crate) fn put_rows_line(rows: &Rows, out: &mut Vec<u8>) -> Result<(), AllocError>
    ensures { OnOk result (out.new.items ≡ out.old.items ++ rows_text rows.now) }
{
    out.extend_from_slice(b"{\"rows\":")?;
    put_rows(rows, out)?;
    out.extend_from_slice(b"}\n")
}

/// Puts the line of the schemas of all partitions.
pub(crate) fn put_schemas_line(schemas: &Schemas, out: &mut Vec<u8>) -> Result<(), AllocError>
    ensures { OnOk result (out.new.items ≡ out.old.items ++ schemas_text schemas.now) }
{
    out.extend_from_slice(b"{\"schemas\":")?;
    put_schemas(schemas, out)?;
    out.extend_from_slice(b"}\n")
}

/// Puts the line of the rows of a scan, with how many writes of each partition they come after.
pub(crate) fn put_collected_line(
    rows: &Rows,
    upto: &Counts,
    out: &mut Vec<u8>,
) -> Result<(), AllocError>
    ensures { OnOk result (out.new.items ≡ out.old.items ++ collected_text rows.now upto.now) }
{
    out.extend_from_slice(b"{\"rows\":")?;
    put_rows(rows, out)?;
    out.extend_from_slice(b",\"upto\":")?;
    put_counts(upto, out)?;
    out.extend_from_slice(b"}\n")
}

// This room, and that for a text more with what stands before it.
fn and_room(room: usize, text: &Bytes) -> usize {
    room.saturating_add(text.as_slice().len()).saturating_add(1)
}

// Room for the texts of rows and what stands between them, so that a long line is never moved as it grows.
fn rows_room(rows: &[Row]) -> usize {
    let mut room = ROOM;
    for row in rows {
        room = and_room(room, &row.text);
    }
    room
}

// Room for the texts of schemas, likewise.
fn schemas_room(texts: &[Bytes]) -> usize {
    let mut room = ROOM;
    for text in texts {
        room = and_room(room, text);
    }
    room
}

fn put_rows(rows: &Rows, out: &mut Vec<u8>) -> Result<(), AllocError>
    ensures { OnOk result (out.new.items ≡ out.old.items ++ rows_array rows.now) }
{
    let mut later = false;
    let rows = rows.as_slice();
    out.reserve(rows_room(rows))?;
    put_mark(b'[', out)?;
    for row in rows {
        put_comma(later, out)?;
        out.extend_from_slice(row.text.as_slice())?;
        later = true;
    }
    put_mark(b']', out)
}

fn put_schemas(schemas: &Schemas, out: &mut Vec<u8>) -> Result<(), AllocError>
    ensures { OnOk result (out.new.items ≡ out.old.items ++ texts_array schemas.now) }
{
    let mut later = false;
    let texts = schemas.as_slice();
    out.reserve(schemas_room(texts))?;
    put_mark(b'[', out)?;
    for text in texts {
        put_comma(later, out)?;
        out.extend_from_slice(text.as_slice())?;
        later = true;
    }
    put_mark(b']', out)
}

fn put_counts(counts: &Counts, out: &mut Vec<u8>) -> Result<(), AllocError>
    ensures { OnOk result (out.new.items ≡ out.old.items ++ compact_text (array (counts_data counts.now))) }
{
    let mut later = false;
    let counts = counts.as_slice();
    put_mark(b'[', out)?;
    for upto in counts {
        put_comma(later, out)?;
        put_unsigned(*upto, out)?;
        later = true;
    }
    put_mark(b']', out)
}
