//! A walk over the tokens of a record that was judged.

ghost use Rattle.std.specs.Prelude.{◌≡◌, ◌∷◌, [], option_map};
ghost use Rattle.tc_record.specs.Walk.{known_step, label_at, without_last, in_object};
ghost use Rattle.tc_record.specs.WalkView.{token_of, key_of, columns_of, format_of};
ghost use Rattle.tc_record.specs.Stack.{kind_of, kinds_of};

use crate::kinds::Kinds;
use crate::reader::{Columns, Format, name_in, piece_in};
use crate::tags::CLOSE_TAG;
use crate::token::{Label, Piece, Token};

/// What is open, and what is left of the columns after the tags. The names of a judged record are known to ascend, so none is
/// kept: those who walk move and copy a cursor, and it stays small.
#[derive(Clone, Copy)]
pub(crate) struct Walk<'a> {
    pub(crate) format: Format,
    pub(crate) columns: Columns<'a>,
    pub(crate) kinds: Kinds,
}

impl<'a> Walk<'a> {
    /// The walk behind the first token of a record, which opens an object.
    pub(crate) fn in_object(format: Format, columns: Columns<'a>) -> Walk<'a>
        ensures format { result.format ≡ format }
        ensures columns { columns_of result.columns ≡ columns_of columns.entry }
        ensures levels { kinds_of result.kinds.arrays result.kinds.depth ≡ in_object None ∷ [] }
    {
        Walk {
            format,
            columns,
            kinds: Kinds::in_object(),
        }
    }

    /// The token of a tag, or `None` where no token can stand there.
    #[inline(always)]
    pub(crate) fn step(&mut self, tag: u8) -> Option<Token<'a>>
        ensures step { option_map (λ t. (token_of t, kinds_of self.new.kinds.arrays self.new.kinds.depth, columns_of self.new.columns)) result ≡ known_step (format_of self.old.format) tag (kinds_of self.old.kinds.arrays self.old.kinds.depth) (columns_of self.old.columns) }
        ensures format { self.new.format ≡ self.old.format }
    {
        token_in(self.format, tag, &mut self.kinds, &mut self.columns)
    }
}

/// The token of a tag, with what is open and the columns moved on.
#[inline(always)]
fn token_in<'a>(
    format: Format,
    tag: u8,
    kinds: &mut Kinds,
    columns: &mut Columns<'a>,
) -> Option<Token<'a>>
    ensures { option_map (λ t. (token_of t, kinds_of kinds.new.arrays kinds.new.depth, columns_of columns.new)) result ≡ known_step (format_of format) tag (kinds_of kinds.old.arrays kinds.old.depth) (columns_of columns.old) }
{
    if kinds.depth == 0 {
        return None;
    }
    if tag == CLOSE_TAG {
        kinds.close();
        return Some(Token {
            label: Label::Bare,
            value: Piece::Close,
        });
    }
    let label = label_in(format, kinds.arrays % 2 == 1, columns)?;
    let value = piece_in(tag, columns)?;
    if kinds.open(value) {
        Some(Token { label, value })
    } else {
        None
    }
}

/// The label of a value that stands in an array or in an object.
#[inline(always)]
fn label_in<'a>(format: Format, in_array: bool, columns: &mut Columns<'a>) -> Option<Label<'a>>
    ensures { option_map (λ l. (key_of l, kind_of in_array, columns_of columns.new)) result ≡ option_map without_last (label_at (format_of format) (kind_of in_array) (columns_of columns.old)) }
{
    if in_array {
        return Some(Label::Bare);
    }
    if format.named {
        let name = name_in(None, columns)?;
        return Some(Label::Name(name));
    }
    let number = columns.slots.next()?;
    Some(Label::Number(number))
}
