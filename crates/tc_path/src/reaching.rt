//! Whether a path reaches a document in a record.

ghost use Rattle.std.specs.Prelude.{◌≡◌, ◌≤◌, ◌∷◌, false, List, IsTrue, length, map, slice_get, option_to_list};
ghost use Rattle.tc_model.specs.Document.{Name, Document, member_at};
ghost use Rattle.tc_value.specs.Meaning.{tree_of};
ghost use Rattle.tc_command.specs.Asks.{hop_of};
ghost use Rattle.tc_record.specs.WalkView.{piece_of};
ghost use Rattle.tc_record.specs.Building.{outer, value_read};
ghost use Rattle.tc_compact.specs.Meant.{levels_meant, IsRecordUnder};
ghost use Rattle.tc_request_model.specs.Paths.{reached, hopped};
ghost use Rattle.tc_request_model.specs.Rows.{is_among};
ghost use Rattle.tc_path.specs.Reached.{value_at, is_reached};
ghost use Rattle.tc_record_text.specs.Left.{array_left, object_left, items_left, members_left};

use crate::comparing::is_value;
use tc_command::{Hop, PathExpr};
use tc_compact::document_meant;
use tc_names::Names;
use tc_record::{Cursor, Piece, RecordRef, Token};
use tc_record_text::{closes, has_name, skip, skip_to_close};
use tc_value::Doc;

/// Whether one of the values that a path reaches, in the document that a record of any form spells under a dictionary, is
/// this document. A boolean is no number. The dictionary is read only where members carry numbers. Takes no memory.
pub fn reaches(of: RecordRef<'_>, names: &Names, path: &PathExpr, doc: &Doc) -> bool
    ensures { (d : Document) → IsRecordUnder names.now d of.entry.bytes → result ≡ is_among (tree_of doc.now) (reached path.now d) }
{
    document_meant();
    let _bytes = of.bytes();
    let mut cursor = of.cursor();
    reaches_of_tokens(&mut cursor, names, path.as_slice(), doc)
}

/// Whether hops reach the document from the value whose tokens these are.
fn reaches_of_tokens(cursor: &mut Cursor<'_>, names: &Names, hops: &[Hop], doc: &Doc) -> bool
    ensures found { result ≡ is_reached (tree_of doc.now) (map hop_of hops.now) (option_to_list (value_at names.now cursor.old)) }
{
    match cursor.next() {
        None => false,
        Some(token) => reaches_from(cursor, token, names, hops, doc, false),
    }
}

// In the functions below the walk may go on behind the value that they look at. Only then does the cursor have to stand there
// where they do not find the document, so that nothing is passed in vain.

/// Whether hops reach the document from the value that a token is or opens. If they do not, the cursor stands behind that
/// value, where the walk goes on there.
#[cycle(reaching)]
fn reaches_from(
    cursor: &mut Cursor<'_>,
    token: Token<'_>,
    names: &Names,
    hops: &[Hop],
    doc: &Doc,
    goes_on: bool,
) -> bool
    ensures found { result ≡ is_reached (tree_of doc.now) (map hop_of hops.now) (option_to_list (value_read (piece_of token.entry.value) (levels_meant names.now cursor.old)).0) }
    ensures behind { IsTrue goes_on → result ≡ false → levels_meant names.now cursor.new ≡ (value_read (piece_of token.entry.value) (levels_meant names.now cursor.old)).1 }
    ensures shorter { length cursor.new ≤ length cursor.old }
{
    match hops {
        [] => is_value(cursor, token, names, doc, goes_on),
        [hop, rest @ ..] => reaches_hopped(cursor, token.value, names, hop, rest, doc, goes_on),
    }
}

/// Whether a hop and further hops reach the document from the value that a piece is or opens.
#[cycle(reaching)]
fn reaches_hopped(
    cursor: &mut Cursor<'_>,
    piece: Piece<'_>,
    names: &Names,
    hop: &Hop,
    rest: &[Hop],
    doc: &Doc,
    goes_on: bool,
) -> bool
    ensures found { result ≡ is_reached (tree_of doc.now) (hop_of hop.now ∷ map hop_of rest.now) (option_to_list (value_read (piece_of piece.entry) (levels_meant names.now cursor.old)).0) }
    ensures behind { IsTrue goes_on → result ≡ false → levels_meant names.now cursor.new ≡ (value_read (piece_of piece.entry) (levels_meant names.now cursor.old)).1 }
    ensures shorter { length cursor.new ≤ length cursor.old }
{
    match piece {
        Piece::Array => reaches_in_array(cursor, names, hop, rest, doc, goes_on),
        Piece::Object => reaches_in_object(cursor, names, hop, rest, doc, goes_on),
        _scalar => false,
    }
}

/// Whether a hop and further hops reach the document from the array that was opened.
#[cycle(reaching)]
fn reaches_in_array(
    cursor: &mut Cursor<'_>,
    names: &Names,
    hop: &Hop,
    rest: &[Hop],
    doc: &Doc,
    goes_on: bool,
) -> bool
    ensures found { result ≡ is_reached (tree_of doc.now) (map hop_of rest.now) (hopped (hop_of hop.now) (array_left (levels_meant names.now cursor.old))) }
    ensures behind { IsTrue goes_on → result ≡ false → levels_meant names.now cursor.new ≡ outer (levels_meant names.now cursor.old) }
    ensures shorter { length cursor.new ≤ length cursor.old }
{
    match hop {
        Hop::Name(_) => {
            close_if(cursor, goes_on);
            false
        }
        Hop::At(place) => if *place < 0 {
            close_if(cursor, goes_on);
            false
        } else {
            reaches_in_item(cursor, names, *place as u64, rest, doc, goes_on)
        },
        Hop::Any => reaches_in_each(cursor, names, rest, doc),
    }
}

/// Whether a hop and further hops reach the document from the object that was opened.
#[cycle(reaching)]
fn reaches_in_object(
    cursor: &mut Cursor<'_>,
    names: &Names,
    hop: &Hop,
    rest: &[Hop],
    doc: &Doc,
    goes_on: bool,
) -> bool
    ensures found { result ≡ is_reached (tree_of doc.now) (map hop_of rest.now) (hopped (hop_of hop.now) (object_left (levels_meant names.now cursor.old))) }
    ensures behind { IsTrue goes_on → result ≡ false → levels_meant names.now cursor.new ≡ outer (levels_meant names.now cursor.old) }
    ensures shorter { length cursor.new ≤ length cursor.old }
{
    match hop {
        Hop::Name(name) => reaches_in_member(cursor, names, name.as_str(), rest, doc, goes_on),
        Hop::At(_) => {
            close_if(cursor, goes_on);
            false
        }
        Hop::Any => {
            close_if(cursor, goes_on);
            false
        }
    }
}

/// Whether hops reach the document from the item at a place, counted from 0.
#[cycle(reaching)]
fn reaches_in_item(
    cursor: &mut Cursor<'_>,
    names: &Names,
    place: u64,
    hops: &[Hop],
    doc: &Doc,
    goes_on: bool,
) -> bool
    ensures found { result ≡ is_reached (tree_of doc.now) (map hop_of hops.now) (option_to_list (slice_get (items_left (levels_meant names.now cursor.old)) place)) }
    ensures behind { IsTrue goes_on → result ≡ false → levels_meant names.now cursor.new ≡ outer (levels_meant names.now cursor.old) }
    ensures shorter { length cursor.new ≤ length cursor.old }
{
    let mut left = place;
    while let Some(token) = cursor.next() {
        if closes(token.value) {
            return false;
        }
        if left == 0 {
            return reaches_and_close(cursor, token, names, hops, doc, goes_on);
        }
        left -= 1;
        skip(cursor, token.value);
    }
    false
}

/// Whether hops reach the document from an item, one item after the other.
#[cycle(reaching)]
fn reaches_in_each(cursor: &mut Cursor<'_>, names: &Names, hops: &[Hop], doc: &Doc) -> bool
    ensures found { result ≡ is_reached (tree_of doc.now) (map hop_of hops.now) (items_left (levels_meant names.now cursor.old)) }
    ensures behind { result ≡ false → levels_meant names.now cursor.new ≡ outer (levels_meant names.now cursor.old) }
    ensures shorter { length cursor.new ≤ length cursor.old }
{
    while let Some(token) = cursor.next() {
        if closes(token.value) {
            return false;
        }
        if reaches_from(cursor, token, names, hops, doc, true) {
            return true;
        }
    }
    false
}

/// Whether hops reach the document from the member of a name.
#[cycle(reaching)]
fn reaches_in_member(
    cursor: &mut Cursor<'_>,
    names: &Names,
    name: &str,
    hops: &[Hop],
    doc: &Doc,
    goes_on: bool,
) -> bool
    ensures found { result ≡ is_reached (tree_of doc.now) (map hop_of hops.now) (option_to_list (member_at name.now (members_left (levels_meant names.now cursor.old)))) }
    ensures behind { IsTrue goes_on → result ≡ false → levels_meant names.now cursor.new ≡ outer (levels_meant names.now cursor.old) }
    ensures shorter { length cursor.new ≤ length cursor.old }
{
    while let Some(token) = cursor.next() {
        if closes(token.value) {
            return false;
        }
        if has_name(token.label, names, name) {
            return reaches_and_close(cursor, token, names, hops, doc, goes_on);
        }
        skip(cursor, token.value);
    }
    false
}

/// Whether hops reach the document from the value that a token is or opens. If they do not, the cursor stands behind the
/// close of what holds that value, where the walk goes on there.
#[cycle(reaching)]
fn reaches_and_close(
    cursor: &mut Cursor<'_>,
    token: Token<'_>,
    names: &Names,
    hops: &[Hop],
    doc: &Doc,
    goes_on: bool,
) -> bool
    ensures found { result ≡ is_reached (tree_of doc.now) (map hop_of hops.now) (option_to_list (value_read (piece_of token.entry.value) (levels_meant names.now cursor.old)).0) }
    ensures behind { IsTrue goes_on → result ≡ false → levels_meant names.now cursor.new ≡ outer (value_read (piece_of token.entry.value) (levels_meant names.now cursor.old)).1 }
    ensures shorter { length cursor.new ≤ length cursor.old }
{
    if reaches_from(cursor, token, names, hops, doc, goes_on) {
        return true;
    }
    close_if(cursor, goes_on);
    false
}

/// Moves behind the close of what is open, where the walk goes on there.
fn close_if(cursor: &mut Cursor<'_>, goes_on: bool)
    ensures behind { (names : List Name) → IsTrue goes_on → levels_meant names cursor.new ≡ outer (levels_meant names cursor.old) }
    ensures shorter { length cursor.new ≤ length cursor.old }
{
    if goes_on {
        skip_to_close(cursor);
    }
}
