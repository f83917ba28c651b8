//! All values that a path reaches in a record.

ghost use Rattle.std.specs.Prelude.{◌≡◌, ◌≤◌, ◌∷◌, ◌++◌, Some, false, IfOk, length, map, flat_map, slice_get, option_to_list};
ghost use Rattle.std.specs.List.{AllByRecursion};
ghost use Rattle.tc_model.specs.Document.{Document, member_at};
ghost use Rattle.tc_command.specs.Asks.{hop_of};
ghost use Rattle.tc_record.specs.WalkView.{token_of, piece_of};
ghost use Rattle.tc_record.specs.Building.{outer, value_read};
ghost use Rattle.tc_compact.specs.Meant.{levels_meant, IsRecordUnder};
ghost use Rattle.tc_request_model.specs.Paths.{reached, hopped};
ghost use Rattle.tc_path.specs.Reached.{value_at, values_at, IsLawful};
ghost use Rattle.tc_record_text.specs.Left.{array_left, object_left, items_left, members_left};
ghost use Rattle.tc_record_text.specs.Skipped.{is_close};

use crate::value::ValueRef;
use std::alloc::{AllocError, Global};
use tc_command::{Hop, PathExpr};
use tc_compact::document_meant;
use tc_names::Names;
use tc_record::{Cursor, Piece, RecordRef, Token};
use tc_record_text::{closes, has_name, skip, skip_to_close};

/// All values, in preorder, that a path reaches in the document that a record of any form spells under a dictionary.
/// The dictionary is read only where members carry numbers. Errs only for want of memory.
pub fn select<'a>(
    alloc: Global,
    of: RecordRef<'a>,
    names: &Names,
    path: &PathExpr,
) -> Result<Vec<ValueRef<'a>>, AllocError>
    ensures all { (d : Document) → IsRecordUnder names.now d of.entry.bytes → IfOk result (λ values. values_at names.now values.items ≡ map Some (reached path.now d)) }
    ensures lawful { (d : Document) → IsRecordUnder names.now d of.entry.bytes → IfOk result (λ values. AllByRecursion (IsLawful names.now) values.items) }
{
    document_meant();
    let _bytes = of.bytes();
    all_of_tokens(alloc, of.cursor(), names, path.as_slice())
}

/// All values that hops reach from the one whose tokens these are.
fn all_of_tokens<'a>(
    alloc: Global,
    tokens: Cursor<'a>,
    names: &Names,
    hops: &[Hop],
) -> Result<Vec<ValueRef<'a>>, AllocError>
    ensures lawful { IsLawful names.now tokens.entry → IfOk result (λ values. AllByRecursion (IsLawful names.now) values.items) }
    ensures all { IfOk result (λ values. values_at names.now values.items ≡ map Some (flat_map (reached (map hop_of hops.now)) (option_to_list (value_at names.now tokens.entry)))) }
{
    let mut values = Vec::new(alloc);
    let mut cursor = tokens;
    if let Some(token) = cursor.next() {
        if !closes(token.value) {
            all_from(&mut cursor, token, names, hops, &mut values)?;
        }
    }
    Ok(values)
}

/// Takes all values that hops reach from the one that a token is or opens, and moves behind that value.
#[cycle(selecting)]
fn all_from<'a>(
    cursor: &mut Cursor<'a>,
    token: Token<'a>,
    names: &Names,
    hops: &[Hop],
    values: &mut Vec<ValueRef<'a>>,
) -> Result<(), AllocError>
    requires { is_close (piece_of token.value) ≡ false }
    ensures all { IfOk result (λ done. values_at names.now values.new.items ≡ values_at names.now values.old.items ++ map Some (flat_map (reached (map hop_of hops.now)) (option_to_list (value_read (piece_of token.entry.value) (levels_meant names.now cursor.old)).0))) }
    ensures lawful { IsLawful names.now (token_of token.entry ∷ cursor.old) → AllByRecursion (IsLawful names.now) values.old.items → IfOk result (λ done. AllByRecursion (IsLawful names.now) values.new.items) }
    ensures behind { IfOk result (λ done. levels_meant names.now cursor.new ≡ (value_read (piece_of token.entry.value) (levels_meant names.now cursor.old)).1) }
    ensures shorter { length cursor.new ≤ length cursor.old }
{
    match hops {
        [] => {
            values.push(ValueRef::of(token, cursor))?;
            skip(cursor, token.value);
            Ok(())
        }
        [hop, rest @ ..] => all_hopped(cursor, token.value, names, hop, rest, values),
    }
}

/// Takes all values that a hop and further hops reach from the value that a piece is or opens.
#[cycle(selecting)]
fn all_hopped<'a>(
    cursor: &mut Cursor<'a>,
    piece: Piece<'a>,
    names: &Names,
    hop: &Hop,
    rest: &[Hop],
    values: &mut Vec<ValueRef<'a>>,
) -> Result<(), AllocError>
    ensures all { IfOk result (λ done. values_at names.now values.new.items ≡ values_at names.now values.old.items ++ map Some (flat_map (reached (hop_of hop.now ∷ map hop_of rest.now)) (option_to_list (value_read (piece_of piece.entry) (levels_meant names.now cursor.old)).0))) }
    ensures lawful { IsLawful names.now cursor.old → AllByRecursion (IsLawful names.now) values.old.items → IfOk result (λ done. AllByRecursion (IsLawful names.now) values.new.items) }
    ensures behind { IfOk result (λ done. levels_meant names.now cursor.new ≡ (value_read (piece_of piece.entry) (levels_meant names.now cursor.old)).1) }
    ensures shorter { length cursor.new ≤ length cursor.old }
{
    match piece {
        Piece::Array => all_in_array(cursor, names, hop, rest, values),
        Piece::Object => all_in_object(cursor, names, hop, rest, values),
        _scalar => Ok(()),
    }
}

/// Takes all values that a hop and further hops reach from the array that was opened.
#[cycle(selecting)]
fn all_in_array<'a>(
    cursor: &mut Cursor<'a>,
    names: &Names,
    hop: &Hop,
    rest: &[Hop],
    values: &mut Vec<ValueRef<'a>>,
) -> Result<(), AllocError>
    ensures all { IfOk result (λ done. values_at names.now values.new.items ≡ values_at names.now values.old.items ++ map Some (flat_map (reached (map hop_of rest.now)) (hopped (hop_of hop.now) (array_left (levels_meant names.now cursor.old))))) }
    ensures lawful { IsLawful names.now cursor.old → AllByRecursion (IsLawful names.now) values.old.items → IfOk result (λ done. AllByRecursion (IsLawful names.now) values.new.items) }
    ensures behind { IfOk result (λ done. levels_meant names.now cursor.new ≡ outer (levels_meant names.now cursor.old)) }
    ensures shorter { length cursor.new ≤ length cursor.old }
{
    match hop {
        Hop::Name(_) => {
            skip_to_close(cursor);
            Ok(())
        }
        Hop::At(place) => if *place < 0 {
            skip_to_close(cursor);
            Ok(())
        } else {
            all_in_item(cursor, names, *place as u64, rest, values)
        },
        Hop::Any => all_in_each(cursor, names, rest, values),
    }
}

/// Takes all values that a hop and further hops reach from the object that was opened.
#[cycle(selecting)]
fn all_in_object<'a>(
    cursor: &mut Cursor<'a>,
    names: &Names,
    hop: &Hop,
    rest: &[Hop],
    values: &mut Vec<ValueRef<'a>>,
) -> Result<(), AllocError>
    ensures all { IfOk result (λ done. values_at names.now values.new.items ≡ values_at names.now values.old.items ++ map Some (flat_map (reached (map hop_of rest.now)) (hopped (hop_of hop.now) (object_left (levels_meant names.now cursor.old))))) }
    ensures lawful { IsLawful names.now cursor.old → AllByRecursion (IsLawful names.now) values.old.items → IfOk result (λ done. AllByRecursion (IsLawful names.now) values.new.items) }
    ensures behind { IfOk result (λ done. levels_meant names.now cursor.new ≡ outer (levels_meant names.now cursor.old)) }
    ensures shorter { length cursor.new ≤ length cursor.old }
{
    match hop {
        Hop::Name(name) => all_in_member(cursor, names, name.as_str(), rest, values),
        Hop::At(_) => {
            skip_to_close(cursor);
            Ok(())
        }
        Hop::Any => {
            skip_to_close(cursor);
            Ok(())
        }
    }
}

/// Takes all values that hops reach from the item at a place, counted from 0.
#[cycle(selecting)]
fn all_in_item<'a>(
    cursor: &mut Cursor<'a>,
    names: &Names,
    place: u64,
    hops: &[Hop],
    values: &mut Vec<ValueRef<'a>>,
) -> Result<(), AllocError>
    ensures all { IfOk result (λ done. values_at names.now values.new.items ≡ values_at names.now values.old.items ++ map Some (flat_map (reached (map hop_of hops.now)) (option_to_list (slice_get (items_left (levels_meant names.now cursor.old)) place)))) }
    ensures lawful { IsLawful names.now cursor.old → AllByRecursion (IsLawful names.now) values.old.items → IfOk result (λ done. AllByRecursion (IsLawful names.now) values.new.items) }
    ensures behind { IfOk result (λ done. levels_meant names.now cursor.new ≡ outer (levels_meant names.now cursor.old)) }
    ensures shorter { length cursor.new ≤ length cursor.old }
{
    let mut left = place;
    while let Some(token) = cursor.next() {
        if closes(token.value) {
            return Ok(());
        }
        if left == 0 {
            all_from(cursor, token, names, hops, values)?;
            skip_to_close(cursor);
            return Ok(());
        }
        left -= 1;
        skip(cursor, token.value);
    }
    Ok(())
}

/// Takes all values that hops reach from each item, one item after the other.
#[cycle(selecting)]
fn all_in_each<'a>(
    cursor: &mut Cursor<'a>,
    names: &Names,
    hops: &[Hop],
    values: &mut Vec<ValueRef<'a>>,
) -> Result<(), AllocError>
    ensures all { IfOk result (λ done. values_at names.now values.new.items ≡ values_at names.now values.old.items ++ map Some (flat_map (reached (map hop_of hops.now)) (items_left (levels_meant names.now cursor.old)))) }
    ensures lawful { IsLawful names.now cursor.old → AllByRecursion (IsLawful names.now) values.old.items → IfOk result (λ done. AllByRecursion (IsLawful names.now) values.new.items) }
    ensures behind { IfOk result (λ done. levels_meant names.now cursor.new ≡ outer (levels_meant names.now cursor.old)) }
    ensures shorter { length cursor.new ≤ length cursor.old }
{
    while let Some(token) = cursor.next() {
        if closes(token.value) {
            return Ok(());
        }
        all_from(cursor, token, names, hops, values)?;
    }
    Ok(())
}

/// Takes all values that hops reach from the member of a name.
#[cycle(selecting)]
fn all_in_member<'a>(
    cursor: &mut Cursor<'a>,
    names: &Names,
    name: &str,
    hops: &[Hop],
    values: &mut Vec<ValueRef<'a>>,
) -> Result<(), AllocError>
    ensures all { IfOk result (λ done. values_at names.now values.new.items ≡ values_at names.now values.old.items ++ map Some (flat_map (reached (map hop_of hops.now)) (option_to_list (member_at name.now (members_left (levels_meant names.now cursor.old)))))) }
    ensures lawful { IsLawful names.now cursor.old → AllByRecursion (IsLawful names.now) values.old.items → IfOk result (λ done. AllByRecursion (IsLawful names.now) values.new.items) }
    ensures behind { IfOk result (λ done. levels_meant names.now cursor.new ≡ outer (levels_meant names.now cursor.old)) }
    ensures shorter { length cursor.new ≤ length cursor.old }
{
    while let Some(token) = cursor.next() {
        if closes(token.value) {
            return Ok(());
        }
        if has_name(token.label, names, name) {
            all_from(cursor, token, names, hops, values)?;
            skip_to_close(cursor);
            return Ok(());
        }
        skip(cursor, token.value);
    }
    Ok(())
}
