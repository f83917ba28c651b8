//! The records that tables and logs keep.

ghost use Rattle.std.specs.Prelude.{◌≡◌, ◌<◌, ◌+◌, ◌^◌, ◌↔◌, IsTrue, length};
ghost use Rattle.tc_record.specs.StoredRecord.{IsStoredRecord};
ghost use Rattle.tc_record.specs.StoredTest.{is_id as id_label, depth_behind, lacks_id, is_stored};
ghost use Rattle.tc_record.specs.WalkView.{key_of, piece_of};

use crate::record_ref::RecordRef;
use crate::token::{Label, Piece};

/// Whether the bytes are a record with names whose object has no member `id`. Takes no memory.
pub fn is_stored_record(bytes: &[u8]) -> bool
    ensures test { result ≡ is_stored bytes.now }
    ensures stored { IsTrue result ↔ IsStoredRecord bytes.now }
{
    passes(bytes)
}

fn passes(bytes: &[u8]) -> bool
    ensures { result ≡ is_stored bytes.now }
{
    match RecordRef::of(bytes) {
        Some(found) => found.named() && has_no_id(found),
        None => false,
    }
}

fn has_no_id(found: RecordRef<'_>) -> bool
    requires { length found.tokens < 2 ^ 32 }
    ensures { result ≡ lacks_id 0 found.entry.tokens }
{
    let mut cursor = found.cursor();
    let mut depth = 0;
    while let Some(token) = cursor.next() {
        if depth == 1 && is_id(token.label) {
            return false;
        }
        depth = depth_after(token.value, depth);
    }
    true
}

fn is_id(label: Label<'_>) -> bool
    ensures { result ≡ id_label (key_of label.entry) }
{
    match label {
        Label::Name(name) => name == "id",
        _ => false,
    }
}

/// How many arrays and objects are open behind a piece.
fn depth_after(piece: Piece<'_>, depth: usize) -> usize
    requires { depth + 1 < 2 ^ 64 }
    ensures { result ≡ depth_behind (piece_of piece.entry) depth }
{
    match piece {
        Piece::Array | Piece::Object => depth + 1,
        Piece::Close => depth.saturating_sub(1),
        _ => depth,
    }
}
