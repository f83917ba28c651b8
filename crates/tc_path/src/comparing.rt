//! Values of a record compared with documents.

ghost use Rattle.std.specs.Prelude.{◌≡◌, ◌≤◌, List, IsTrue, false, length, map};
ghost use Rattle.tc_model.specs.Tree.{leaf, items_of, members_of};
ghost use Rattle.tc_model.specs.Document.{Name, null, boolean, integer, text};
ghost use Rattle.tc_value.specs.Meaning.{tree_of, member_of};
ghost use Rattle.tc_record.specs.WalkView.{piece_of};
ghost use Rattle.tc_record.specs.Building.{innermost, outer, value_in, member_in, value_read};
ghost use Rattle.tc_compact.specs.Meant.{levels_meant};
ghost use Rattle.tc_request_model.specs.Equal.{same_document, same_items, same_members};
ghost use Rattle.tc_path.specs.Same.{is_same, holds_none, scalar_in};

use tc_names::Names;
use tc_record::{Cursor, Piece, Token};
use tc_record_text::{closes, has_name, skip};
use tc_value::{Doc, Member};

/// Whether the value that a token is or opens is this document. If it is not, the cursor stands behind the value, where the
/// walk goes on there.
pub(crate) fn is_value(
    cursor: &mut Cursor<'_>,
    token: Token<'_>,
    names: &Names,
    doc: &Doc,
    goes_on: bool,
) -> bool
    ensures same { result ≡ is_same (value_read (piece_of token.entry.value) (levels_meant names.now cursor.old)).0 (tree_of doc.now) }
    ensures behind { IsTrue goes_on → result ≡ false → levels_meant names.now cursor.new ≡ (value_read (piece_of token.entry.value) (levels_meant names.now cursor.old)).1 }
    ensures shorter { length cursor.new ≤ length cursor.old }
{
    match token.value {
        Piece::Array => is_opened(cursor, token, names, doc, goes_on),
        Piece::Object => is_opened(cursor, token, names, doc, goes_on),
        scalar => is_scalar(scalar, doc),
    }
}

/// Whether the array or the object that a token opens is this document. If it is not, the cursor stands behind the close,
/// where the walk goes on there.
fn is_opened(
    cursor: &mut Cursor<'_>,
    token: Token<'_>,
    names: &Names,
    doc: &Doc,
    goes_on: bool,
) -> bool
    ensures same { result ≡ is_same (value_read (piece_of token.entry.value) (levels_meant names.now cursor.old)).0 (tree_of doc.now) }
    ensures behind { IsTrue goes_on → result ≡ false → levels_meant names.now cursor.new ≡ (value_read (piece_of token.entry.value) (levels_meant names.now cursor.old)).1 }
    ensures shorter { length cursor.new ≤ length cursor.old }
{
    if !goes_on {
        return equals_value(cursor, token, names, doc);
    }
    // A comparison that fails leaves its cursor anywhere.
    let mut ahead = cursor.again();
    if equals_value(&mut ahead, token, names, doc) {
        return true;
    }
    skip(cursor, token.value);
    false
}

/// Whether the value that a token is or opens is this document. If it is, the cursor stands behind it.
#[cycle(comparing)]
pub(crate) fn equals_value(
    cursor: &mut Cursor<'_>,
    token: Token<'_>,
    names: &Names,
    doc: &Doc,
) -> bool
    ensures same { result ≡ is_same (value_read (piece_of token.entry.value) (levels_meant names.now cursor.old)).0 (tree_of doc.now) }
    ensures behind { IsTrue result → levels_meant names.now cursor.new ≡ (value_read (piece_of token.entry.value) (levels_meant names.now cursor.old)).1 }
    ensures shorter { length cursor.new ≤ length cursor.old }
{
    match token.value {
        Piece::Array => match doc {
            Doc::Array(items) => equals_items(cursor, names, items.as_slice()),
            _other => false,
        },
        Piece::Object => match doc {
            Doc::Object(members) => equals_members(cursor, names, members.as_slice()),
            _other => false,
        },
        scalar => is_scalar(scalar, doc),
    }
}

/// Whether the items up to the close of their array are these documents.
#[cycle(comparing)]
fn equals_items(cursor: &mut Cursor<'_>, names: &Names, items: &[Doc]) -> bool
    ensures same { result ≡ same_items (items_of (map value_in (innermost (levels_meant names.now cursor.old)))) (items_of (map tree_of items.now)) }
    ensures behind { IsTrue result → levels_meant names.now cursor.new ≡ outer (levels_meant names.now cursor.old) }
    ensures shorter { length cursor.new ≤ length cursor.old }
{
    for item in items {
        match cursor.next() {
            None => return false,
            Some(token) => if !equals_value(cursor, token, names, item) {
                return false;
            },
        }
    }
    ends_here(cursor)
}

/// Whether the members up to the close of their object are these.
#[cycle(comparing)]
fn equals_members(cursor: &mut Cursor<'_>, names: &Names, members: &[Member]) -> bool
    ensures same { result ≡ same_members (members_of (map member_in (innermost (levels_meant names.now cursor.old)))) (members_of (map member_of members.now)) }
    ensures behind { IsTrue result → levels_meant names.now cursor.new ≡ outer (levels_meant names.now cursor.old) }
    ensures shorter { length cursor.new ≤ length cursor.old }
{
    for member in members {
        match cursor.next() {
            None => return false,
            Some(token) => {
                if !has_name(token.label, names, member.name.as_str()) {
                    return false;
                }
                if !equals_value(cursor, token, names, &member.value) {
                    return false;
                }
            }
        }
    }
    ends_here(cursor)
}

/// Whether an array or an object holds nothing more. If it does not, the cursor stands behind its close.
fn ends_here(cursor: &mut Cursor<'_>) -> bool
    ensures ends { (names : List Name) → result ≡ holds_none (innermost (levels_meant names cursor.old)) }
    ensures behind { (names : List Name) → IsTrue result → levels_meant names cursor.new ≡ outer (levels_meant names cursor.old) }
    ensures shorter { length cursor.new ≤ length cursor.old }
{
    match cursor.next() {
        None => true,
        Some(token) => closes(token.value),
    }
}

/// Whether the scalar that a piece is, if it is one, is this document.
fn is_scalar(piece: Piece<'_>, doc: &Doc) -> bool
    ensures { result ≡ is_same (scalar_in (piece_of piece.entry)) (tree_of doc.now) }
{
    match piece {
        Piece::Null => is_null(doc),
        Piece::Bool(value) => is_bool(doc, value),
        Piece::Int(value) => is_int(doc, value),
        Piece::Text(value) => is_text(doc, value),
        _other => false,
    }
}

fn is_null(doc: &Doc) -> bool
    ensures { result ≡ same_document (leaf null) (tree_of doc.now) }
{
    match doc {
        Doc::Null => true,
        _other => false,
    }
}

fn is_bool(doc: &Doc, value: bool) -> bool
    ensures { result ≡ same_document (leaf (boolean value)) (tree_of doc.now) }
{
    match doc {
        Doc::Bool(own) => value == *own,
        _other => false,
    }
}

fn is_int(doc: &Doc, value: i64) -> bool
    ensures { result ≡ same_document (leaf (integer value)) (tree_of doc.now) }
{
    match doc {
        Doc::Int(own) => value == *own,
        _other => false,
    }
}

fn is_text(doc: &Doc, value: &str) -> bool
    ensures { result ≡ same_document (leaf (text value.now)) (tree_of doc.now) }
{
    match doc {
        Doc::Text(own) => value == own.as_str(),
        _other => false,
    }
}
