//! All values that a path reaches in a record, as text.

ghost use Rattle.std.specs.Prelude.{◌≡◌, ◌≤◌, ◌∷◌, ◌++◌, false, OnOk, length, map, flat_map, slice_get, option_to_list};
ghost use Rattle.tc_model.specs.Document.{member_at};
ghost use Rattle.tc_command.specs.Asks.{hop_of};
ghost use Rattle.tc_record.specs.WalkView.{piece_of};
ghost use Rattle.tc_record.specs.Building.{outer, value_read, document_read};
ghost use Rattle.tc_compact.specs.Meant.{levels_meant, tokens_meant};
ghost use Rattle.tc_request_model.specs.Paths.{reached, hopped};
ghost use Rattle.tc_record_text.specs.KeptLabels.{AreLabels};
ghost use Rattle.tc_record_text.specs.Left.{array_left, object_left, items_left, members_left};
ghost use Rattle.tc_record_text.specs.Listed.{listed};
ghost use Rattle.tc_record_text.specs.Skipped.{is_close};

use crate::labels::{closes, has_name};
use crate::memo::LabelMemo;
use crate::skipping::{skip, skip_to_close};
use crate::values::put_alone;
use std::alloc::AllocError;
use tc_command::Hop;
use tc_names::Names;
use tc_record::{Cursor, Piece, Token};
use tc_text::put_mark;

/// Puts the texts of all values that hops reach from the one whose tokens these are, each with a comma after it.
pub(crate) fn put_reached(
    tokens: Cursor<'_>,
    names: &Names,
    memo: &mut LabelMemo,
    hops: &[Hop],
    out: &mut Vec<u8>,
) -> Result<(), AllocError>
    requires { AreLabels names.now memo.old.kept.items }
    ensures { OnOk result (out.new.items ≡ out.old.items ++ listed (flat_map (reached (map hop_of hops.now)) (option_to_list (document_read (tokens_meant names.now tokens.entry))))) }
{
    let mut cursor = tokens;
    if let Some(token) = cursor.next() {
        if !closes(token.value) {
            put_from(&mut cursor, token, names, memo, hops, out)?;
        }
    }
    Ok(())
}

// The texts of all values that hops reach from the one that a token is or opens, and the cursor moves on to what follows it.
#[cycle(reaching)]
fn put_from(
    cursor: &mut Cursor<'_>,
    token: Token<'_>,
    names: &Names,
    memo: &mut LabelMemo,
    hops: &[Hop],
    out: &mut Vec<u8>,
) -> Result<(), AllocError>
    requires value { is_close (piece_of token.value) ≡ false }
    requires labels { AreLabels names.now memo.old.kept.items }
    ensures all { OnOk result (out.new.items ≡ out.old.items ++ listed (flat_map (reached (map hop_of hops.now)) (option_to_list (value_read (piece_of token.entry.value) (levels_meant names.now cursor.old)).0))) }
    ensures behind { OnOk result (levels_meant names.now cursor.new ≡ (value_read (piece_of token.entry.value) (levels_meant names.now cursor.old)).1) }
    ensures shorter { length cursor.new ≤ length cursor.old }
    ensures labels { AreLabels names.now memo.new.kept.items }
{
    match hops {
        [] => {
            put_alone(cursor, token, names, memo, out)?;
            put_mark(b',', out)
        }
        [hop, rest @ ..] => put_hopped(cursor, token.value, names, memo, hop, rest, out),
    }
}

// The texts of all values that a hop and further hops reach from the value that a piece is or opens.
#[cycle(reaching)]
fn put_hopped(
    cursor: &mut Cursor<'_>,
    piece: Piece<'_>,
    names: &Names,
    memo: &mut LabelMemo,
    hop: &Hop,
    rest: &[Hop],
    out: &mut Vec<u8>,
) -> Result<(), AllocError>
    requires { AreLabels names.now memo.old.kept.items }
    ensures all { OnOk result (out.new.items ≡ out.old.items ++ listed (flat_map (reached (hop_of hop.now ∷ map hop_of rest.now)) (option_to_list (value_read (piece_of piece.entry) (levels_meant names.now cursor.old)).0))) }
    ensures behind { OnOk result (levels_meant names.now cursor.new ≡ (value_read (piece_of piece.entry) (levels_meant names.now cursor.old)).1) }
    ensures shorter { length cursor.new ≤ length cursor.old }
    ensures labels { AreLabels names.now memo.new.kept.items }
{
    match piece {
        Piece::Array => put_in_array(cursor, names, memo, hop, rest, out),
        Piece::Object => put_in_object(cursor, names, memo, hop, rest, out),
        _scalar => Ok(()),
    }
}

// The texts of all values that a hop and further hops reach from the array that was opened.
#[cycle(reaching)]
fn put_in_array(
    cursor: &mut Cursor<'_>,
    names: &Names,
    memo: &mut LabelMemo,
    hop: &Hop,
    rest: &[Hop],
    out: &mut Vec<u8>,
) -> Result<(), AllocError>
    requires { AreLabels names.now memo.old.kept.items }
    ensures all { OnOk result (out.new.items ≡ out.old.items ++ listed (flat_map (reached (map hop_of rest.now)) (hopped (hop_of hop.now) (array_left (levels_meant names.now cursor.old))))) }
    ensures behind { OnOk result (levels_meant names.now cursor.new ≡ outer (levels_meant names.now cursor.old)) }
    ensures shorter { length cursor.new ≤ length cursor.old }
    ensures labels { AreLabels names.now memo.new.kept.items }
{
    match hop {
        Hop::Name(_) => {
            skip_to_close(cursor);
            Ok(())
        }
        Hop::At(place) => if *place < 0 {
            skip_to_close(cursor);
            Ok(())
        } else {
            put_in_item(cursor, names, memo, *place as u64, rest, out)
        },
        Hop::Any => put_in_each(cursor, names, memo, rest, out),
    }
}

// The texts of all values that a hop and further hops reach from the object that was opened.
#[cycle(reaching)]
fn put_in_object(
    cursor: &mut Cursor<'_>,
    names: &Names,
    memo: &mut LabelMemo,
    hop: &Hop,
    rest: &[Hop],
    out: &mut Vec<u8>,
) -> Result<(), AllocError>
    requires { AreLabels names.now memo.old.kept.items }
    ensures all { OnOk result (out.new.items ≡ out.old.items ++ listed (flat_map (reached (map hop_of rest.now)) (hopped (hop_of hop.now) (object_left (levels_meant names.now cursor.old))))) }
    ensures behind { OnOk result (levels_meant names.now cursor.new ≡ outer (levels_meant names.now cursor.old)) }
    ensures shorter { length cursor.new ≤ length cursor.old }
    ensures labels { AreLabels names.now memo.new.kept.items }
{
    match hop {
        Hop::Name(name) => put_in_member(cursor, names, memo, name.as_str(), rest, out),
        Hop::At(_) => {
            skip_to_close(cursor);
            Ok(())
        }
        Hop::Any => {
            skip_to_close(cursor);
            Ok(())
        }
    }
}

// The texts of all values that hops reach from the item at a place, counted from 0.
#[cycle(reaching)]
fn put_in_item(
    cursor: &mut Cursor<'_>,
    names: &Names,
    memo: &mut LabelMemo,
    place: u64,
    hops: &[Hop],
    out: &mut Vec<u8>,
) -> Result<(), AllocError>
    requires { AreLabels names.now memo.old.kept.items }
    ensures all { OnOk result (out.new.items ≡ out.old.items ++ listed (flat_map (reached (map hop_of hops.now)) (option_to_list (slice_get (items_left (levels_meant names.now cursor.old)) place)))) }
    ensures behind { OnOk result (levels_meant names.now cursor.new ≡ outer (levels_meant names.now cursor.old)) }
    ensures shorter { length cursor.new ≤ length cursor.old }
    ensures labels { AreLabels names.now memo.new.kept.items }
{
    let mut left = place;
    while let Some(token) = cursor.next() {
        if closes(token.value) {
            return Ok(());
        }
        if left == 0 {
            put_from(cursor, token, names, memo, hops, out)?;
            skip_to_close(cursor);
            return Ok(());
        }
        left -= 1;
        skip(cursor, token.value);
    }
    Ok(())
}

// The texts of all values that hops reach from each item, one item after the other.
#[cycle(reaching)]
fn put_in_each(
    cursor: &mut Cursor<'_>,
    names: &Names,
    memo: &mut LabelMemo,
    hops: &[Hop],
    out: &mut Vec<u8>,
) -> Result<(), AllocError>
    requires { AreLabels names.now memo.old.kept.items }
    ensures all { OnOk result (out.new.items ≡ out.old.items ++ listed (flat_map (reached (map hop_of hops.now)) (items_left (levels_meant names.now cursor.old)))) }
    ensures behind { OnOk result (levels_meant names.now cursor.new ≡ outer (levels_meant names.now cursor.old)) }
    ensures shorter { length cursor.new ≤ length cursor.old }
    ensures labels { AreLabels names.now memo.new.kept.items }
{
    let within = memo.repeats;
    while let Some(token) = cursor.next() {
        if closes(token.value) {
            memo.repeats = within;
            return Ok(());
        }
        put_from(cursor, token, names, memo, hops, out)?;
        memo.repeats = true;
    }
    Ok(())
}

// The texts of all values that hops reach from the member of a name.
#[cycle(reaching)]
fn put_in_member(
    cursor: &mut Cursor<'_>,
    names: &Names,
    memo: &mut LabelMemo,
    name: &str,
    hops: &[Hop],
    out: &mut Vec<u8>,
) -> Result<(), AllocError>
    requires { AreLabels names.now memo.old.kept.items }
    ensures all { OnOk result (out.new.items ≡ out.old.items ++ listed (flat_map (reached (map hop_of hops.now)) (option_to_list (member_at name.now (members_left (levels_meant names.now cursor.old)))))) }
    ensures behind { OnOk result (levels_meant names.now cursor.new ≡ outer (levels_meant names.now cursor.old)) }
    ensures shorter { length cursor.new ≤ length cursor.old }
    ensures labels { AreLabels names.now memo.new.kept.items }
{
    while let Some(token) = cursor.next() {
        if closes(token.value) {
            return Ok(());
        }
        if has_name(token.label, names, name) {
            put_from(cursor, token, names, memo, hops, out)?;
            skip_to_close(cursor);
            return Ok(());
        }
        skip(cursor, token.value);
    }
    Ok(())
}
