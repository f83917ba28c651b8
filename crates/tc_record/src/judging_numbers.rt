//! Whether columns spell the tokens of a record of form 1 or 2. Members of its objects carry numbers, which may come in any
//! order, so that of what is open it is enough to know which are arrays.

ghost use Rattle.std.specs.Prelude.{◌≡◌, ◌≢◌, ◌<◌, ◌∷◌, [], None, false, length, is_some, if◌then◌else◌};
ghost use Rattle.std.specs.List.{sum};
ghost use Rattle.tc_record.specs.Record.{close_tag};
ghost use Rattle.tc_record.specs.Walk.{walk, in_object, tokens_read};
ghost use Rattle.tc_record.specs.Moves.{label_moves, token_moves};
ghost use Rattle.tc_record.specs.WalkView.{columns_of, format_of, numbers_of};
ghost use Rattle.tc_record.specs.Stack.{kind_of, kinds_of};

use crate::judging::is_used_up;
use crate::judging_ascii::has_further_ascii_tokens;
use crate::kinds::Kinds;
use crate::reader::{Columns, Format, piece_in};
use crate::tags::{CLOSE_TAG, OBJECT_TAG};

/// Whether tags and columns spell the tokens of an object, and nothing else.
pub(crate) fn has_numbered_tokens(tags: &[u8], format: Format, columns: Columns<'_>) -> bool
    requires numbered { format.named ≡ false }
    requires summed { sum (numbers_of columns.lengths) ≡ length columns.texts.now }
    ensures { result ≡ is_some (tokens_read (format_of format) tags.now (columns_of columns.entry)) }
{
    match tags {
        [] => false,
        [first, rest @ ..] => *first == OBJECT_TAG && has_further(rest, format, columns),
    }
}

/// Whether these are the tags behind the first one.
fn has_further(tags: &[u8], format: Format, columns: Columns<'_>) -> bool
    requires numbered { format.named ≡ false }
    requires summed { sum (numbers_of columns.lengths) ≡ length columns.texts.now }
    ensures { result ≡ is_some (walk (format_of format) tags.now (in_object None ∷ []) (columns_of columns.entry)) }
{
    if columns.texts.is_ascii() {
        has_further_ascii_tokens(tags, format, columns)
    } else {
        has_further_tokens(tags, format, columns)
    }
}

/// The same for texts of all characters, none of which may be cut.
fn has_further_tokens(tags: &[u8], format: Format, columns: Columns<'_>) -> bool
    requires { format.named ≡ false }
    ensures { result ≡ is_some (walk (format_of format) tags.now (in_object None ∷ []) (columns_of columns.entry)) }
{
    let mut kinds = Kinds::in_object();
    let mut left = columns;
    for tag in tags {
        if !passes(format, *tag, &mut kinds, &mut left) {
            return false;
        }
    }
    kinds.depth == 0 && is_used_up(left)
}

/// Whether a token of this tag stands next, with what is open and the columns moved on.
#[inline(always)]
fn passes(format: Format, tag: u8, kinds: &mut Kinds, columns: &mut Columns<'_>) -> bool
    requires { format.named ≡ false }
    ensures { token_moves (format_of format) tag (kinds_of kinds.old.arrays kinds.old.depth) (columns_of columns.old) ≡ (if result then Some (kinds_of kinds.new.arrays kinds.new.depth, columns_of columns.new) else None) }
{
    if kinds.depth == 0 {
        return false;
    }
    if tag == CLOSE_TAG {
        kinds.close();
        return true;
    }
    passes_value(format, tag, kinds, columns)
}

/// Whether a value of this tag, or the opening of one, stands next in what is open.
#[inline(always)]
pub(crate) fn passes_value(
    format: Format,
    tag: u8,
    kinds: &mut Kinds,
    columns: &mut Columns<'_>,
) -> bool
    requires numbered { format.named ≡ false }
    requires inside { 0 < kinds.old.depth }
    requires value { tag ≢ close_tag }
    ensures { token_moves (format_of format) tag (kinds_of kinds.old.arrays kinds.old.depth) (columns_of columns.old) ≡ (if result then Some (kinds_of kinds.new.arrays kinds.new.depth, columns_of columns.new) else None) }
{
    if !passes_label(format, kinds.arrays % 2 == 1, columns) {
        return false;
    }
    match piece_in(tag, columns) {
        None => false,
        Some(piece) => kinds.open(piece),
    }
}

/// Whether the label of a value stands next, which in an object is a number, and in an array nothing.
#[inline(always)]
fn passes_label(format: Format, in_array: bool, columns: &mut Columns<'_>) -> bool
    requires { format.named ≡ false }
    ensures { label_moves (format_of format) (kind_of in_array) (columns_of columns.old) ≡ (if result then Some (kind_of in_array, columns_of columns.new) else None) }
{
    if in_array {
        return true;
    }
    columns.slots.passes()
}
