//! Whether columns spell the tokens of a record, judged without a token made.

ghost use Rattle.std.specs.Prelude.{◌≡◌, ◌∷◌, [], None, is_some, if◌then◌else◌, option_map};
ghost use Rattle.tc_record.specs.Walk.{walk, in_object, tokens_read, is_used_up as used_up};
ghost use Rattle.tc_record.specs.Moves.{label_moves, token_moves};
ghost use Rattle.tc_record.specs.WalkView.{columns_of, level_of, format_of};
ghost use Rattle.tc_record.specs.Stack.{stack_of};

use crate::nesting::Nesting;
use crate::reader::{Columns, Format, Level, name_in, piece_in};
use crate::tags::{CLOSE_TAG, OBJECT_TAG};

/// Whether tags and columns spell the tokens of an object, and nothing else.
pub(crate) fn has_tokens(tags: &[u8], format: Format, columns: Columns<'_>) -> bool
    ensures { result ≡ is_some (tokens_read (format_of format) tags.now (columns_of columns.entry)) }
{
    match tags {
        [] => false,
        [first, rest @ ..] => *first == OBJECT_TAG && has_further_tokens(rest, format, columns),
    }
}

/// Whether these are the tags behind the first one. What is open is made where it is used: moved, it is copied whole.
fn has_further_tokens(tags: &[u8], format: Format, columns: Columns<'_>) -> bool
    ensures { result ≡ is_some (walk (format_of format) tags.now (in_object None ∷ []) (columns_of columns.entry)) }
{
    let mut nesting = Nesting::in_object();
    let mut left = columns;
    for tag in tags {
        if !passes(format, *tag, &mut nesting, &mut left) {
            return false;
        }
    }
    nesting.depth == 0 && is_used_up(left)
}

/// Whether a token of this tag stands next, with what is open and the columns moved on. The parts are built into the
/// loop: a level or a slice that is handed over in memory costs more than all that is done with it.
#[inline(always)]
fn passes<'a>(format: Format, tag: u8, nesting: &mut Nesting<'a>, columns: &mut Columns<'a>) -> bool
    ensures { token_moves (format_of format) tag (stack_of nesting.old.levels nesting.old.depth) (columns_of columns.old) ≡ (if result then Some (stack_of nesting.new.levels nesting.new.depth, columns_of columns.new) else None) }
{
    if nesting.depth == 0 {
        return false;
    }
    if tag == CLOSE_TAG {
        nesting.depth -= 1;
        return true;
    }
    let place = nesting.depth - 1;
    match level_behind(format, nesting.levels[place], columns) {
        None => false,
        Some(behind) => {
            nesting.levels[place] = behind;
            match piece_in(tag, columns) {
                None => false,
                Some(piece) => nesting.open(piece),
            }
        }
    }
}

/// The level behind the label of a value that stands in a level.
#[inline(always)]
fn level_behind<'a>(
    format: Format,
    level: Level<'a>,
    columns: &mut Columns<'a>,
) -> Option<Level<'a>>
    ensures { label_moves (format_of format) (level_of level.entry) (columns_of columns.old) ≡ option_map (λ l. (level_of l, columns_of columns.new)) result }
{
    match level {
        Level::Array => Some(level),
        Level::Object => member_behind(format, None, columns),
        Level::Behind(last) => member_behind(format, Some(last), columns),
    }
}

/// The level of an object behind the label of its next member.
#[inline(always)]
fn member_behind<'a>(
    format: Format,
    last: Option<&'a str>,
    columns: &mut Columns<'a>,
) -> Option<Level<'a>>
    ensures { label_moves (format_of format) (in_object (option_map (λ n. n.now) last.entry)) (columns_of columns.old) ≡ option_map (λ l. (level_of l, columns_of columns.new)) result }
{
    if format.named {
        let name = name_in(last, columns)?;
        return Some(Level::Behind(name));
    }
    let _number = columns.slots.next()?;
    Some(Level::Object)
}

/// Whether nothing is left of the columns.
pub(crate) fn is_used_up(columns: Columns<'_>) -> bool
    ensures { result ≡ used_up (columns_of columns.entry) }
{
    columns.fixed.is_empty()
        && columns.lengths.is_empty()
        && columns.texts.is_empty()
        && columns.slots.is_empty()
        && columns.names.is_empty()
}
