//! Items of an array that are objects of scalars, taken as a whole.

ghost use Rattle.std.specs.Prelude.{◌≡◌, ◌-◌, true, [], None, Some, IfSome, IfNone, IsTrue, is_some, unwrap_or, length, map, take};
ghost use Rattle.tc_model.specs.Document.{Scalar};
ghost use Rattle.tc_record.specs.FlatRows.{IsRowBefore};
ghost use Rattle.tc_record.specs.Held.{tokens_left};
ghost use Rattle.tc_record.specs.Preorder.{scalar, object_opened, closed, token};
ghost use Rattle.tc_record.specs.Stack.{kinds_of};
ghost use Rattle.tc_record.specs.Walk.{Key, known_step};
ghost use Rattle.tc_record.specs.WalkView.{piece_of, columns_of, format_of};

use crate::token::{Label, Piece, Token};
use crate::walking::Walk;

/// The tags behind an object of scalars that stands next in an array, if the tags of the object are these; its values are put into
/// the room from its start on, and the walk is moved on. Else the walk stays.
#[inline(always)]
pub(crate) fn row_taken<'a>(
    left: &'a [u8],
    walk: &mut Walk<'a>,
    tags: &[u8],
    room: &mut [Piece<'a>],
) -> Option<&'a [u8]>
    requires { IsTrue (is_some (tokens_left true left.now walk.old)) }
    ensures taken { IfSome result (λ rest. IsRowBefore (unwrap_or (tokens_left true rest.now walk.new) []) (map piece_of (take (length tags.now - 2) room.new)) (unwrap_or (tokens_left true left.now walk.old) [])) }
    ensures left { IfSome result (λ rest. IsTrue (is_some (tokens_left true rest.now walk.new))) }
    ensures stays { IfNone result (walk.new ≡ walk.old) }
{
    let size = tags.len();
    if size < 2 || left.len() < size || room.len() < size - 2 || walk.format.named {
        return None;
    }
    // a copy, since what each token moves on stays in registers then
    let mut here = *walk;
    if left[0] != tags[0] || !opens_object(&mut here, tags[0]) {
        return None;
    }
    for place in 0..size - 2 {
        let tag = tags[place + 1];
        if left[place + 1] != tag {
            return None;
        }
        room[place] = scalar_in(&mut here, tag)?;
    }
    if left[size - 1] != tags[size - 1] || !closes_object(&mut here, tags[size - 1]) {
        return None;
    }
    *walk = here;
    Some(&left[size..])
}

/// Whether an object without a label is opened, with the walk moved on behind it.
#[inline(always)]
fn opens_object(walk: &mut Walk<'_>, tag: u8) -> bool
    ensures step { IsTrue result → known_step (format_of walk.old.format) tag (kinds_of walk.old.kinds.arrays walk.old.kinds.depth) (columns_of walk.old.columns) ≡ Some (token None object_opened, kinds_of walk.new.kinds.arrays walk.new.kinds.depth, columns_of walk.new.columns) }
    ensures format { walk.new.format ≡ walk.old.format }
{
    match walk.step(tag) {
        Some(
            Token {
                label: Label::Bare,
                value: Piece::Object,
            },
        ) => true,
        _other => false,
    }
}

/// The value of a member, if it is a scalar and has a number for a label, with the walk moved on behind it. The number is not
/// asked for.
#[inline(always)]
fn scalar_in<'a>(walk: &mut Walk<'a>, tag: u8) -> Option<Piece<'a>>
    ensures step { IfSome result (λ value. (key : Key) × (s : Scalar) × (piece_of value ≡ scalar s) × (known_step (format_of walk.old.format) tag (kinds_of walk.old.kinds.arrays walk.old.kinds.depth) (columns_of walk.old.columns) ≡ Some (token (Some key) (scalar s), kinds_of walk.new.kinds.arrays walk.new.kinds.depth, columns_of walk.new.columns))) }
    ensures format { walk.new.format ≡ walk.old.format }
{
    match walk.step(tag) {
        Some(
            Token {
                label: Label::Number(_),
                value,
            },
        ) => scalar_of(value),
        _other => None,
    }
}

/// A piece, if it is a scalar.
#[inline(always)]
fn scalar_of(value: Piece<'_>) -> Option<Piece<'_>>
    ensures { IfSome result (λ same. (same ≡ value.entry) × ((s : Scalar) × (piece_of value.entry ≡ scalar s))) }
{
    match value {
        Piece::Null => Some(value),
        Piece::Bool(_) => Some(value),
        Piece::Int(_) => Some(value),
        Piece::Text(_) => Some(value),
        Piece::Array => None,
        Piece::Object => None,
        Piece::Close => None,
    }
}

/// Whether what is open is closed, with the walk moved on behind that.
#[inline(always)]
fn closes_object(walk: &mut Walk<'_>, tag: u8) -> bool
    ensures step { IsTrue result → known_step (format_of walk.old.format) tag (kinds_of walk.old.kinds.arrays walk.old.kinds.depth) (columns_of walk.old.columns) ≡ Some (token None closed, kinds_of walk.new.kinds.arrays walk.new.kinds.depth, columns_of walk.new.columns) }
    ensures format { walk.new.format ≡ walk.old.format }
{
    match walk.step(tag) {
        Some(
            Token {
                label: Label::Bare,
                value: Piece::Close,
            },
        ) => true,
        _other => false,
    }
}
