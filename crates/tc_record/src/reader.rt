//! The columns of a record, read value by value.

ghost use Rattle.std.specs.Prelude.{◌≡◌, option_map};
ghost use Rattle.tc_record.specs.Walk.{utf8_at, text_at, name_at, bool_at, integer_at, piece_at, is_above as stands_above};
ghost use Rattle.std.specs.Ordering.{is_lt};
ghost use Rattle.tc_model.specs.Document.{name_cmp};
ghost use Rattle.tc_record.specs.WalkView.{piece_of, columns_of};

use crate::numbers::Numbers;
use crate::tags::{ARRAY_TAG, BOOLEAN_TAG, INTEGER_TAG, NULL_TAG, OBJECT_TAG, TEXT_TAG};
use crate::token::Piece;
use tc_bytes::{u8_at, u64_at};

/// What is left of the columns beside the tags, where texts and names are UTF-8. Readers move it on in place: it is
/// wider than five slices, and each token would copy it several times.
#[derive(Clone, Copy)]
pub(crate) struct Columns<'a> {
    pub(crate) fixed: &'a [u8],
    pub(crate) lengths: Numbers<'a>,
    pub(crate) texts: &'a str,
    pub(crate) slots: Numbers<'a>,
    pub(crate) names: &'a str,
}

/// The form, and whether members carry names.
#[derive(Clone, Copy)]
pub(crate) struct Format {
    pub(crate) form: u8,
    pub(crate) named: bool,
}

/// An array or an object that is open, of an object also with the name of the member before, if names are to ascend.
#[derive(Clone, Copy)]
pub(crate) enum Level<'a> {
    Array,
    Object,
    Behind(&'a str),
}

/// So many bytes of a text, if a character ends there: just then they are UTF-8.
#[inline(always)]
pub(crate) fn str_at(text: &str, count: u32) -> Option<(&str, &str)>
    ensures { option_map (λ x. (x.0.now, x.1.now)) result ≡ utf8_at count text.now }
{
    match text.split_at_checked(count as usize) {
        Some((front, rest)) => Some((front, rest)),
        None => None,
    }
}

/// The next text, by its length.
#[inline(always)]
fn text_in<'a>(columns: &mut Columns<'a>) -> Option<&'a str>
    ensures { option_map (λ t. (t.now, columns_of columns.new)) result ≡ text_at (columns_of columns.old) }
{
    let len = columns.lengths.next()?;
    let (text, texts) = str_at(columns.texts, len)?;
    columns.texts = texts;
    Some(text)
}

#[inline(always)]
fn bool_in(columns: &mut Columns<'_>) -> Option<bool>
    ensures { option_map (λ b. (b, columns_of columns.new)) result ≡ bool_at (columns_of columns.old) }
{
    let (byte, fixed) = u8_at(columns.fixed)?;
    columns.fixed = fixed;
    match byte {
        0 => Some(false),
        1 => Some(true),
        _ => None,
    }
}

#[inline(always)]
fn integer_in<'a>(columns: &mut Columns<'a>) -> Option<Piece<'a>>
    ensures { option_map (λ p. (piece_of p, columns_of columns.new)) result ≡ integer_at (columns_of columns.old) }
{
    let (bits, fixed) = u64_at(columns.fixed)?;
    columns.fixed = fixed;
    Some(Piece::Int(bits.cast_signed()))
}

/// A value, or the opening of one, by its tag.
#[inline(always)]
pub(crate) fn piece_in<'a>(tag: u8, columns: &mut Columns<'a>) -> Option<Piece<'a>>
    ensures { option_map (λ p. (piece_of p, columns_of columns.new)) result ≡ piece_at tag (columns_of columns.old) }
{
    if tag == NULL_TAG {
        Some(Piece::Null)
    } else if tag == BOOLEAN_TAG {
        let value = bool_in(columns)?;
        Some(Piece::Bool(value))
    } else if tag == INTEGER_TAG {
        integer_in(columns)
    } else if tag == TEXT_TAG {
        let text = text_in(columns)?;
        Some(Piece::Text(text))
    } else if tag == ARRAY_TAG {
        Some(Piece::Array)
    } else if tag == OBJECT_TAG {
        Some(Piece::Object)
    } else {
        None
    }
}

/// A name by its length, if it stands above the name before it.
#[inline(always)]
pub(crate) fn name_in<'a>(last: Option<&'a str>, columns: &mut Columns<'a>) -> Option<&'a str>
    ensures { option_map (λ n. (n.now, columns_of columns.new)) result ≡ name_at (option_map (λ n. n.now) last.entry) (columns_of columns.old) }
{
    let len = columns.slots.next()?;
    let (name, names) = str_at(columns.names, len)?;
    if !is_above(last, name) {
        return None;
    }
    columns.names = names;
    Some(name)
}

/// Whether a name stands above the one before it, if there is one.
#[inline(always)]
fn is_above(last: Option<&str>, name: &str) -> bool
    ensures { result ≡ stands_above (option_map (λ n. n.now) last.entry) name.now }
{
    match last {
        None => true,
        Some(before) => precedes(before, name),
    }
}

/// Whether a name stands before another one. Most differ at their first byte, which costs less than a call. Takes no memory.
#[inline(always)]
pub fn precedes(name: &str, other: &str) -> bool
    ensures { result ≡ is_lt (name_cmp name.now other.now) }
{
    let (front, back) = (name.as_bytes(), other.as_bytes());
    if !front.is_empty() && !back.is_empty() && front[0] != back[0] {
        return front[0] < back[0];
    }
    name < other
}
