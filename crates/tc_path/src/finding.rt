//! The first value that a path reaches in a record.

ghost use Rattle.std.specs.Prelude.{◌≡◌, ◌≤◌, ◌∷◌, Some, false, IfSome, IfNone, length, map, slice_get, option_map, option_to_list};
ghost use Rattle.tc_model.specs.Document.{Document, member_at};
ghost use Rattle.tc_command.specs.Asks.{hop_of};
ghost use Rattle.tc_record.specs.WalkView.{token_of, piece_of};
ghost use Rattle.tc_record.specs.Building.{outer, value_read};
ghost use Rattle.tc_compact.specs.Meant.{levels_meant, IsRecordUnder};
ghost use Rattle.tc_request_model.specs.Paths.{reached, hopped};
ghost use Rattle.tc_path.specs.Reached.{value_at, first_in, first_reached, IsLawful};
ghost use Rattle.tc_record_text.specs.Left.{array_left, object_left, items_left, members_left};
ghost use Rattle.tc_record_text.specs.Skipped.{is_close};

use crate::value::ValueRef;
use tc_command::{Hop, PathExpr};
use tc_compact::document_meant;
use tc_names::Names;
use tc_record::{Cursor, Piece, RecordRef, Token};
use tc_record_text::{closes, has_name, skip, skip_to_close};

/// The first value, in preorder, that a path reaches in the document that a record of any form spells under a
/// dictionary; `None` where it reaches none. The dictionary is read only where members carry numbers. Takes no memory.
pub fn first<'a>(of: RecordRef<'a>, names: &Names, path: &PathExpr) -> Option<ValueRef<'a>>
    ensures first { (d : Document) → IsRecordUnder names.now d of.entry.bytes → option_map (value_at names.now) result ≡ option_map Some (first_in (reached path.now d)) }
    ensures lawful { (d : Document) → IsRecordUnder names.now d of.entry.bytes → IfSome result (IsLawful names.now) }
{
    document_meant();
    let _bytes = of.bytes();
    first_of_tokens(of.cursor(), names, path.as_slice())
}

/// The first value that hops reach from the one whose tokens these are.
fn first_of_tokens<'a>(tokens: Cursor<'a>, names: &Names, hops: &[Hop]) -> Option<ValueRef<'a>>
    ensures first { option_map (value_at names.now) result ≡ option_map Some (first_reached (map hop_of hops.now) (option_to_list (value_at names.now tokens.entry))) }
    ensures lawful { IsLawful names.now tokens.entry → IfSome result (IsLawful names.now) }
{
    let mut cursor = tokens;
    match cursor.next() {
        None => None,
        Some(token) => if closes(token.value) {
            None
        } else {
            first_from(&mut cursor, token, names, hops)
        },
    }
}

/// The first value that hops reach from the one that a token is or opens. If they reach none, the cursor stands behind
/// that value.
#[cycle(finding)]
fn first_from<'a>(
    cursor: &mut Cursor<'a>,
    token: Token<'a>,
    names: &Names,
    hops: &[Hop],
) -> Option<ValueRef<'a>>
    requires { is_close (piece_of token.value) ≡ false }
    ensures found { option_map (value_at names.now) result ≡ option_map Some (first_reached (map hop_of hops.now) (option_to_list (value_read (piece_of token.entry.value) (levels_meant names.now cursor.old)).0)) }
    ensures lawful { IsLawful names.now (token_of token.entry ∷ cursor.old) → IfSome result (IsLawful names.now) }
    ensures behind { IfNone result (levels_meant names.now cursor.new ≡ (value_read (piece_of token.entry.value) (levels_meant names.now cursor.old)).1) }
    ensures shorter { length cursor.new ≤ length cursor.old }
{
    match hops {
        [] => Some(ValueRef::of(token, cursor)),
        [hop, rest @ ..] => first_hopped(cursor, token.value, names, hop, rest),
    }
}

/// The first value that a hop and further hops reach from the value that a piece is or opens.
#[cycle(finding)]
fn first_hopped<'a>(
    cursor: &mut Cursor<'a>,
    piece: Piece<'a>,
    names: &Names,
    hop: &Hop,
    rest: &[Hop],
) -> Option<ValueRef<'a>>
    ensures found { option_map (value_at names.now) result ≡ option_map Some (first_reached (hop_of hop.now ∷ map hop_of rest.now) (option_to_list (value_read (piece_of piece.entry) (levels_meant names.now cursor.old)).0)) }
    ensures lawful { IsLawful names.now cursor.old → IfSome result (IsLawful names.now) }
    ensures behind { IfNone result (levels_meant names.now cursor.new ≡ (value_read (piece_of piece.entry) (levels_meant names.now cursor.old)).1) }
    ensures shorter { length cursor.new ≤ length cursor.old }
{
    match piece {
        Piece::Array => first_in_array(cursor, names, hop, rest),
        Piece::Object => first_in_object(cursor, names, hop, rest),
        _scalar => None,
    }
}

/// The first value that a hop and further hops reach from the array that was opened.
#[cycle(finding)]
fn first_in_array<'a>(
    cursor: &mut Cursor<'a>,
    names: &Names,
    hop: &Hop,
    rest: &[Hop],
) -> Option<ValueRef<'a>>
    ensures found { option_map (value_at names.now) result ≡ option_map Some (first_reached (map hop_of rest.now) (hopped (hop_of hop.now) (array_left (levels_meant names.now cursor.old)))) }
    ensures lawful { IsLawful names.now cursor.old → IfSome result (IsLawful names.now) }
    ensures behind { IfNone result (levels_meant names.now cursor.new ≡ outer (levels_meant names.now cursor.old)) }
    ensures shorter { length cursor.new ≤ length cursor.old }
{
    match hop {
        Hop::Name(_) => {
            skip_to_close(cursor);
            None
        }
        Hop::At(place) => if *place < 0 {
            skip_to_close(cursor);
            None
        } else {
            first_in_item(cursor, names, *place as u64, rest)
        },
        Hop::Any => first_in_each(cursor, names, rest),
    }
}

/// The first value that a hop and further hops reach from the object that was opened.
#[cycle(finding)]
fn first_in_object<'a>(
    cursor: &mut Cursor<'a>,
    names: &Names,
    hop: &Hop,
    rest: &[Hop],
) -> Option<ValueRef<'a>>
    ensures found { option_map (value_at names.now) result ≡ option_map Some (first_reached (map hop_of rest.now) (hopped (hop_of hop.now) (object_left (levels_meant names.now cursor.old)))) }
    ensures lawful { IsLawful names.now cursor.old → IfSome result (IsLawful names.now) }
    ensures behind { IfNone result (levels_meant names.now cursor.new ≡ outer (levels_meant names.now cursor.old)) }
    ensures shorter { length cursor.new ≤ length cursor.old }
{
    match hop {
        Hop::Name(name) => first_in_member(cursor, names, name.as_str(), rest),
        Hop::At(_) => {
            skip_to_close(cursor);
            None
        }
        Hop::Any => {
            skip_to_close(cursor);
            None
        }
    }
}

/// The first value that hops reach from the item at a place, counted from 0.
#[cycle(finding)]
fn first_in_item<'a>(
    cursor: &mut Cursor<'a>,
    names: &Names,
    place: u64,
    hops: &[Hop],
) -> Option<ValueRef<'a>>
    ensures found { option_map (value_at names.now) result ≡ option_map Some (first_reached (map hop_of hops.now) (option_to_list (slice_get (items_left (levels_meant names.now cursor.old)) place))) }
    ensures lawful { IsLawful names.now cursor.old → IfSome result (IsLawful names.now) }
    ensures behind { IfNone result (levels_meant names.now cursor.new ≡ outer (levels_meant names.now cursor.old)) }
    ensures shorter { length cursor.new ≤ length cursor.old }
{
    let mut left = place;
    while let Some(token) = cursor.next() {
        if closes(token.value) {
            return None;
        }
        if left == 0 {
            return first_and_close(cursor, token, names, hops);
        }
        left -= 1;
        skip(cursor, token.value);
    }
    None
}

/// The first value that hops reach from an item, one item after the other.
#[cycle(finding)]
fn first_in_each<'a>(cursor: &mut Cursor<'a>, names: &Names, hops: &[Hop]) -> Option<ValueRef<'a>>
    ensures found { option_map (value_at names.now) result ≡ option_map Some (first_reached (map hop_of hops.now) (items_left (levels_meant names.now cursor.old))) }
    ensures lawful { IsLawful names.now cursor.old → IfSome result (IsLawful names.now) }
    ensures behind { IfNone result (levels_meant names.now cursor.new ≡ outer (levels_meant names.now cursor.old)) }
    ensures shorter { length cursor.new ≤ length cursor.old }
{
    while let Some(token) = cursor.next() {
        if closes(token.value) {
            return None;
        }
        if let Some(found) = first_from(cursor, token, names, hops) {
            return Some(found);
        }
    }
    None
}

/// The first value that hops reach from the member of a name.
#[cycle(finding)]
fn first_in_member<'a>(
    cursor: &mut Cursor<'a>,
    names: &Names,
    name: &str,
    hops: &[Hop],
) -> Option<ValueRef<'a>>
    ensures found { option_map (value_at names.now) result ≡ option_map Some (first_reached (map hop_of hops.now) (option_to_list (member_at name.now (members_left (levels_meant names.now cursor.old))))) }
    ensures lawful { IsLawful names.now cursor.old → IfSome result (IsLawful names.now) }
    ensures behind { IfNone result (levels_meant names.now cursor.new ≡ outer (levels_meant names.now cursor.old)) }
    ensures shorter { length cursor.new ≤ length cursor.old }
{
    while let Some(token) = cursor.next() {
        if closes(token.value) {
            return None;
        }
        if has_name(token.label, names, name) {
            return first_and_close(cursor, token, names, hops);
        }
        skip(cursor, token.value);
    }
    None
}

/// The first value that hops reach from the one that a token is or opens. If they reach none, the cursor stands behind
/// the close of what holds that value.
#[cycle(finding)]
fn first_and_close<'a>(
    cursor: &mut Cursor<'a>,
    token: Token<'a>,
    names: &Names,
    hops: &[Hop],
) -> Option<ValueRef<'a>>
    requires { is_close (piece_of token.value) ≡ false }
    ensures found { option_map (value_at names.now) result ≡ option_map Some (first_reached (map hop_of hops.now) (option_to_list (value_read (piece_of token.entry.value) (levels_meant names.now cursor.old)).0)) }
    ensures lawful { IsLawful names.now (token_of token.entry ∷ cursor.old) → IfSome result (IsLawful names.now) }
    ensures behind { IfNone result (levels_meant names.now cursor.new ≡ outer (value_read (piece_of token.entry.value) (levels_meant names.now cursor.old)).1) }
    ensures shorter { length cursor.new ≤ length cursor.old }
{
    match first_from(cursor, token, names, hops) {
        Some(found) => Some(found),
        None => {
            skip_to_close(cursor);
            None
        }
    }
}
