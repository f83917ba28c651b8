//! The text of values in a record.

ghost use Rattle.std.specs.Prelude.{◌≡◌, ◌≤◌, ◌++◌, OnOk, IfSome, true, false, length, map};
ghost use Rattle.serde_json.specs.Written.{compact_text, items_text, members_text};
ghost use Rattle.tc_model.specs.Json.{data_of, items_data, members_data};
ghost use Rattle.tc_model.specs.Tree.{items_of, members_of};
ghost use Rattle.tc_record.specs.WalkView.{piece_of};
ghost use Rattle.tc_record.specs.Building.{innermost, outer, value_in, member_in, value_read};
ghost use Rattle.tc_compact.specs.Meant.{levels_meant};
ghost use Rattle.tc_record_text.specs.KeptLabels.{AreLabels};

use crate::flat_rows::{FlatRow, OBJECT_TAG, put_rows};
use crate::labels::closes;
use crate::memo::{LabelMemo, put_label};
use crate::sheet::Sheet;
use std::alloc::AllocError;
use tc_names::Names;
use tc_record::{Cursor, Piece, Token};
use tc_text::{put_bool, put_int, put_quoted};

/// Puts the text of the value that a token is or opens, with what the value holds taken from the cursor, where numbers mean
/// names of the dictionary. Errs only for want of memory, and then leaves some first part of the text.
// built into those who put values: the token that is handed over, and the call, cost more than most scalars
#[cycle(values)]
#[inline(always)]
pub(crate) fn put_value(
    cursor: &mut Cursor<'_>,
    token: Token<'_>,
    names: &Names,
    memo: &mut LabelMemo,
    sheet: &mut Sheet,
) -> Result<(), AllocError>
    requires { AreLabels names.now memo.old.kept.items }
    ensures text { OnOk result (IfSome (value_read (piece_of token.entry.value) (levels_meant names.now cursor.old)).0 (λ d. sheet.new ≡ sheet.old ++ compact_text (data_of d))) }
    ensures behind { OnOk result (levels_meant names.now cursor.new ≡ (value_read (piece_of token.entry.value) (levels_meant names.now cursor.old)).1) }
    ensures shorter { length cursor.new ≤ length cursor.old }
    ensures labels { AreLabels names.now memo.new.kept.items }
{
    match token.value {
        Piece::Array => {
            sheet.put_byte(b'[')?;
            put_items(cursor, names, memo, sheet)
        }
        Piece::Object => {
            sheet.put_byte(b'{')?;
            put_members(false, cursor, names, memo, sheet)
        }
        _scalar => sheet.put_scalar(token.value),
    }
}

// The items up to the close of their array, and its bracket.
#[cycle(values)]
fn put_items(
    cursor: &mut Cursor<'_>,
    names: &Names,
    memo: &mut LabelMemo,
    sheet: &mut Sheet,
) -> Result<(), AllocError>
    requires { AreLabels names.now memo.old.kept.items }
    ensures text { OnOk result (sheet.new ≡ sheet.old ++ items_text false (items_data (items_of (map value_in (innermost (levels_meant names.now cursor.old)))))) }
    ensures behind { OnOk result (levels_meant names.now cursor.new ≡ outer (levels_meant names.now cursor.old)) }
    ensures shorter { length cursor.new ≤ length cursor.old }
    ensures labels { AreLabels names.now memo.new.kept.items }
{
    let within = memo.repeats;
    let mut later = false;
    while let Some(token) = cursor.next() {
        if closes(token.value) {
            memo.repeats = within;
            return sheet.put_byte(b']');
        }
        sheet.put_comma(later)?;
        put_value(cursor, token, names, memo, sheet)?;
        later = true;
        memo.repeats = true;
        if memo.looks_for_rows() && opens_object(cursor) {
            put_alike(cursor, names, memo, sheet)?;
        }
    }
    sheet.put_byte(b']')
}

/// Whether the next token opens an object, as its tag tells.
#[inline(always)]
fn opens_object(cursor: &Cursor<'_>) -> bool {
    let tags = cursor.tags();
    !tags.is_empty() && tags[0] == OBJECT_TAG
}

/// Puts the items that stand next and are alike, each behind a comma, where they are objects of few scalars.
#[inline(never)]
fn put_alike(
    cursor: &mut Cursor<'_>,
    names: &Names,
    memo: &mut LabelMemo,
    sheet: &mut Sheet,
) -> Result<(), AllocError>
    requires { AreLabels names.now memo.old.kept.items }
    ensures text { OnOk result (sheet.new ++ items_text true (items_data (items_of (map value_in (innermost (levels_meant names.now cursor.new))))) ≡ sheet.old ++ items_text true (items_data (items_of (map value_in (innermost (levels_meant names.now cursor.old)))))) }
    ensures outer { OnOk result (outer (levels_meant names.now cursor.new) ≡ outer (levels_meant names.now cursor.old)) }
    ensures shorter { length cursor.new ≤ length cursor.old }
    ensures labels { AreLabels names.now memo.new.kept.items }
{
    let rows = match FlatRow::of(cursor, names, sheet.allocator()) {
        Some(row) => {
            // rows are gathered by themselves
            sheet.waiting.put_out(&mut sheet.text)?;
            put_rows(cursor, &row, names, &mut sheet.text)?
        }
        None => 0,
    };
    memo.count_look(rows);
    Ok(())
}

/// Puts the members up to the close of their object, and its bracket, after a comma if a member stands before them.
#[cycle(values)]
pub(crate) fn put_members(
    before: bool,
    cursor: &mut Cursor<'_>,
    names: &Names,
    memo: &mut LabelMemo,
    sheet: &mut Sheet,
) -> Result<(), AllocError>
    requires { AreLabels names.now memo.old.kept.items }
    ensures text { OnOk result (sheet.new ≡ sheet.old ++ members_text before (members_data (members_of (map member_in (innermost (levels_meant names.now cursor.old)))))) }
    ensures behind { OnOk result (levels_meant names.now cursor.new ≡ outer (levels_meant names.now cursor.old)) }
    ensures shorter { length cursor.new ≤ length cursor.old }
    ensures labels { AreLabels names.now memo.new.kept.items }
{
    let mut later = before;
    while let Some(token) = cursor.next() {
        if closes(token.value) {
            return sheet.put_byte(b'}');
        }
        put_label(later, token.label, names, memo, sheet)?;
        put_value(cursor, token, names, memo, sheet)?;
        later = true;
    }
    sheet.put_byte(b'}')
}

/// Puts the text of a value by itself, behind other text.
pub(crate) fn put_alone(
    cursor: &mut Cursor<'_>,
    token: Token<'_>,
    names: &Names,
    memo: &mut LabelMemo,
    out: &mut Vec<u8>,
) -> Result<(), AllocError>
    requires { AreLabels names.now memo.old.kept.items }
    ensures text { OnOk result (IfSome (value_read (piece_of token.entry.value) (levels_meant names.now cursor.old)).0 (λ d. out.new.items ≡ out.old.items ++ compact_text (data_of d))) }
    ensures behind { OnOk result (levels_meant names.now cursor.new ≡ (value_read (piece_of token.entry.value) (levels_meant names.now cursor.old)).1) }
    ensures shorter { length cursor.new ≤ length cursor.old }
    ensures labels { AreLabels names.now memo.new.kept.items }
{
    match token.value {
        Piece::Null => out.extend_from_slice(b"null"),
        Piece::Bool(value) => put_bool(value, out),
        Piece::Int(value) => put_int(value, out),
        Piece::Text(value) => put_quoted(value, out),
        _open => {
            let mut sheet = Sheet::of(out);
            let put = put_value(cursor, token, names, memo, &mut sheet);
            let back = sheet.give_back(out);
            put?;
            back
        }
    }
}
