//! Whether columns spell the tokens of a record of form 1 or 2 all of whose texts are ASCII. Such texts may be cut anywhere, and
//! together they are as long as their lengths say: so no length is read, and it is enough that there is one for each text.

ghost use Rattle.std.specs.Prelude.{◌≡◌, ◌≢◌, ◌≤◌, ◌<◌, ◌∷◌, [], None, Some, IsTrue, false, length, is_some, if◌then◌else◌};
ghost use Rattle.std.specs.List.{sum};
ghost use Rattle.std.specs.Str.{IsAscii};
ghost use Rattle.tc_record.specs.AsciiTexts.{uncut_of};
ghost use Rattle.tc_record.specs.Record.{close_tag};
ghost use Rattle.tc_record.specs.Walk.{walk, in_object, is_used_up as used_up};
ghost use Rattle.tc_record.specs.Moves.{label_moves, token_moves};
ghost use Rattle.tc_record.specs.WalkView.{columns_of, format_of, numbers_of};
ghost use Rattle.tc_record.specs.Stack.{kind_of, kinds_of};

use crate::kinds::Kinds;
use crate::reader::{Columns, Format, piece_in};
use crate::tags::{ARRAY_TAG, BOOLEAN_TAG, CLOSE_TAG, INTEGER_TAG, OBJECT_TAG, TEXT_TAG};

/// Whether these are the tags behind the first one. What is open is empty behind a close alone, so it is asked for there.
pub(crate) fn has_further_ascii_tokens(tags: &[u8], format: Format, columns: Columns<'_>) -> bool
    requires numbered { format.named ≡ false }
    requires ascii { IsAscii columns.texts.now }
    requires summed { sum (numbers_of columns.lengths) ≡ length columns.texts.now }
    ensures { result ≡ is_some (walk (format_of format) tags.now (in_object None ∷ []) (columns_of columns.entry)) }
{
    let mut kinds = Kinds::in_object();
    let mut left = columns;
    for place in 0..tags.len() {
        let tag = tags[place];
        if tag == CLOSE_TAG {
            kinds.close();
            if kinds.depth == 0 {
                return place + 1 == tags.len() && is_used_up(left);
            }
        } else if !passes(format, tag, &mut kinds, &mut left) {
            return false;
        }
    }
    false
}

/// Whether a value of this tag, or the opening of one, stands next in what is open. Each tag is looked at first and by itself: with
/// the close of the loop that is one jump, where a label that is passed before would make it two.
#[inline(always)]
fn passes(format: Format, tag: u8, kinds: &mut Kinds, columns: &mut Columns<'_>) -> bool
    requires numbered { format.named ≡ false }
    requires inside { 0 < kinds.old.depth }
    requires value { tag ≢ close_tag }
    requires ascii { IsAscii columns.old.texts.now }
    requires within { sum (numbers_of columns.old.lengths) ≤ length columns.old.texts.now }
    ensures moves { token_moves (format_of format) tag (kinds_of kinds.old.arrays kinds.old.depth) (uncut_of columns.old) ≡ (if result then Some (kinds_of kinds.new.arrays kinds.new.depth, uncut_of columns.new) else None) }
    ensures inside { IsTrue result → 0 < kinds.new.depth }
    ensures texts { IsTrue result → columns.new.texts.now ≡ columns.old.texts.now }
    ensures within { IsTrue result → sum (numbers_of columns.new.lengths) ≤ length columns.new.texts.now }
{
    if tag == INTEGER_TAG {
        passes_value(format, INTEGER_TAG, kinds, columns)
    } else if tag == TEXT_TAG {
        passes_value(format, TEXT_TAG, kinds, columns)
    } else if tag == BOOLEAN_TAG {
        passes_value(format, BOOLEAN_TAG, kinds, columns)
    } else if tag == OBJECT_TAG {
        passes_value(format, OBJECT_TAG, kinds, columns)
    } else if tag == ARRAY_TAG {
        passes_value(format, ARRAY_TAG, kinds, columns)
    } else {
        passes_value(format, tag, kinds, columns)
    }
}

/// Whether a value of this tag, or the opening of one, stands next in what is open. Of a text no more is passed than its length.
#[inline(always)]
fn passes_value(format: Format, tag: u8, kinds: &mut Kinds, columns: &mut Columns<'_>) -> bool
    requires numbered { format.named ≡ false }
    requires inside { 0 < kinds.old.depth }
    requires value { tag ≢ close_tag }
    requires ascii { IsAscii columns.old.texts.now }
    requires within { sum (numbers_of columns.old.lengths) ≤ length columns.old.texts.now }
    ensures moves { token_moves (format_of format) tag (kinds_of kinds.old.arrays kinds.old.depth) (uncut_of columns.old) ≡ (if result then Some (kinds_of kinds.new.arrays kinds.new.depth, uncut_of columns.new) else None) }
    ensures inside { IsTrue result → 0 < kinds.new.depth }
    ensures texts { IsTrue result → columns.new.texts.now ≡ columns.old.texts.now }
    ensures within { IsTrue result → sum (numbers_of columns.new.lengths) ≤ length columns.new.texts.now }
{
    if !passes_label(format, kinds.arrays % 2 == 1, columns) {
        return false;
    }
    if tag == TEXT_TAG {
        return columns.lengths.passes();
    }
    match piece_in(tag, columns) {
        None => false,
        Some(piece) => kinds.open(piece),
    }
}

/// Whether the label of a value stands next, which in an object is a number, and in an array nothing.
#[inline(always)]
fn passes_label(format: Format, in_array: bool, columns: &mut Columns<'_>) -> bool
    requires { format.named ≡ false }
    ensures label { label_moves (format_of format) (kind_of in_array) (uncut_of columns.old) ≡ (if result then Some (kind_of in_array, uncut_of columns.new) else None) }
    ensures lengths { columns.new.lengths ≡ columns.old.lengths }
    ensures texts { columns.new.texts ≡ columns.old.texts }
{
    if in_array {
        return true;
    }
    columns.slots.passes()
}

/// Whether nothing is left of the columns. Behind the last length no text is left.
fn is_used_up(columns: Columns<'_>) -> bool
    ensures { result ≡ used_up (uncut_of columns.entry) }
{
    columns.fixed.is_empty()
        && columns.lengths.is_empty()
        && columns.slots.is_empty()
        && columns.names.is_empty()
}
