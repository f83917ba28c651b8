//! Items of an array that are objects of scalars and alike, put as rows: their labels are put together once.

ghost use Rattle.std.specs.Prelude.{◌≡◌, ◌≤◌, ◌∷◌, ◌++◌, [], ℕ, List, Some, OnOk, IfSome, true, length, map, option_map, take};
ghost use Rattle.json.specs.Print.{quoted};
ghost use Rattle.serde_json.specs.Written.{items_text};
ghost use Rattle.tc_model.specs.Document.{Scalar};
ghost use Rattle.tc_model.specs.Json.{items_data};
ghost use Rattle.tc_model.specs.Tree.{items_of};
ghost use Rattle.tc_record.specs.Building.{innermost, outer, value_in, name_told};
ghost use Rattle.tc_record.specs.Preorder.{scalar};
ghost use Rattle.tc_record.specs.Record.{labels as labels_of};
ghost use Rattle.tc_record.specs.WalkView.{piece_of, key_of};
ghost use Rattle.tc_compact.specs.Meant.{key_meant, levels_meant};
ghost use Rattle.tc_record_text.specs.FlatTexts.{row_labels, row_text};
ghost use Rattle.tc_record_text.specs.FlatRows.{label_in, opening_of, IsRowUnder};

use crate::labels::name_of;
use crate::staged::{MOST_LABEL, ShortText, Staged};
use std::alloc::{AllocError, Global};
use tc_names::Names;
use tc_record::{Cursor, Label, Piece};
use tc_text::put_name;

/// How many members a row has at most.
const MOST_MEMBERS: usize = 16;

const TEXT_TAG: u8 = 4;

pub(crate) const OBJECT_TAG: u8 = 6;

const CLOSE_TAG: u8 = 7;

/// A row: where it stands, its tags, and the labels of its members.
#[derive(Drop)]
pub(crate) struct FlatRow<'a> {
    pub(crate) start: Cursor<'a>,
    pub(crate) tags: &'a [u8],
    pub(crate) labels: Vec<ShortText>,
}

impl<'a> FlatRow<'a> {
    ghost use Rattle.std.specs.Prelude.{◌≡◌, IfSome};
    ghost use Rattle.tc_record_text.specs.FlatRows.{IsRowUnder};

    /// The item that stands next, as a row, where it is an object of few scalars with short names. None also comes for want of
    /// memory.
    pub(crate) fn of(cursor: &Cursor<'a>, names: &Names, alloc: Global) -> Option<FlatRow<'a>>
        ensures { IfSome result (IsRowUnder names.now) }
    {
        let tags = row_tags(cursor.tags())?;
        let start = cursor.again();
        let mut walk = cursor.again();
        let first = walk.next()?;
        let Label::Bare = first.label else {
            return None;
        };
        let mut labels = Vec::new(alloc);
        for place in 0..tags.len() - 2 {
            let token = walk.next()?;
            let Label::Number(_) = token.label else {
                return None;
            };
            let label = short_label(place == 0, name_of(token.label, names), alloc)?;
            if labels.push(label).is_err() {
                return None;
            }
        }
        Some(FlatRow {
            start,
            tags,
            labels,
        })
    }
}

/// The tags of an object of a few scalars, if the first tags are these.
fn row_tags(tags: &[u8]) -> Option<&[u8]>
    ensures some { IfSome result (λ own. 3 ≤ length own.now) }
    ensures few { IfSome result (λ own. length own.now ≤ 18) }
{
    if tags.is_empty() || tags[0] != OBJECT_TAG {
        return None;
    }
    let most = tags.len().min(MOST_MEMBERS + 2);
    for place in 1..most {
        let tag = tags[place];
        if tag == CLOSE_TAG {
            return if place > 1 {
                Some(&tags[..place + 1])
            } else {
                None
            };
        }
        if tag > TEXT_TAG {
            return None;
        }
    }
    None
}

/// A label as a short text, with what stands before it: a comma, and before the first one a bracket too. None where it is not
/// short, or for want of memory.
fn short_label(first: bool, name: &str, alloc: Global) -> Option<ShortText>
    ensures { IfSome result (λ text. label_in text ≡ opening_of first ++ (quoted name.now ++ 58 ∷ [])) }
{
    let mut text = Vec::new(alloc);
    if first && text.extend_from_slice(b",{").is_err() {
        return None;
    }
    if put_name(!first, name, &mut text).is_err() {
        return None;
    }
    short_of(text.as_slice())
}

/// A text that is short, as one.
fn short_of(text: &[u8]) -> Option<ShortText>
    ensures { IfSome result (λ short. label_in short ≡ text.now) }
{
    if text.len() > MOST_LABEL {
        return None;
    }
    let mut bytes = [0; MOST_LABEL];
    bytes[..text.len()].copy_from_slice(text);
    Some(ShortText {
        bytes,
        len: text.len() as u8,
    })
}

/// Puts the items that stand next and are like a row, each behind a comma, and answers how many there were. Errs only for want of
/// memory.
#[inline(never)]
pub(crate) fn put_rows(
    cursor: &mut Cursor<'_>,
    row: &FlatRow<'_>,
    names: &Names,
    out: &mut Vec<u8>,
) -> Result<usize, AllocError>
    requires { IsRowUnder names.now row.now }
    ensures text { OnOk result (out.new.items ++ items_text true (items_data (items_of (map value_in (innermost (levels_meant names.now cursor.new))))) ≡ out.old.items ++ items_text true (items_data (items_of (map value_in (innermost (levels_meant names.now cursor.old)))))) }
    ensures outer { OnOk result (outer (levels_meant names.now cursor.new) ≡ outer (levels_meant names.now cursor.old)) }
    ensures shorter { length cursor.new ≤ length cursor.old }
{
    let _names = names.len();
    let count = row.labels.len();
    let mut staged = Staged::new();
    let mut room = [Piece::Null; MOST_MEMBERS];
    let mut rows = 0usize;
    while cursor.labels_like(&row.start, count as u32) && cursor.take_row(row.tags, &mut room) {
        put_members_of(&row.labels, &room, &mut staged, out)?;
        rows = rows.saturating_add(1);
    }
    staged.put_out(out)?;
    Ok(rows)
}

/// Puts labels, each with its value behind it, and the end of their object.
#[inline(always)]
fn put_members_of(
    labels: &[ShortText],
    values: &[Piece<'_>],
    staged: &mut Staged,
    out: &mut Vec<u8>,
) -> Result<(), AllocError>
    requires { length labels.now ≤ length values.now }
    ensures { OnOk result ((scalars : List Scalar) → map piece_of (take (length labels.now) values.now) ≡ map scalar scalars → out.new.items ++ staged.new ≡ out.old.items ++ (staged.old ++ row_text (map label_in labels.now) scalars)) }
{
    for place in 0..labels.len() {
        staged.put_short(&labels[place], out)?;
        staged.put_scalar(values[place], out)?;
    }
    staged.put_byte(b'}', out)
}
