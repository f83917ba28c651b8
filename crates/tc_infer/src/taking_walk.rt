//! A record taken off a place by one walk over its tokens, where it fits. Members carry their names or the numbers of these.
//! Nothing here takes memory. Where a value does not fit, some of it may have been taken off.

ghost use Rattle.std.specs.Prelude.{◌≡◌, ◌≤◌, ◌&&◌, IfSome, is_some, length};
ghost use Rattle.std.specs.Bool.{OnTrue};
ghost use Rattle.tc_model.specs.Dictionary.{number_of, number};
ghost use Rattle.tc_record.specs.WalkView.{key_of};
ghost use Rattle.tc_schema_model.specs.Counted.{held, field_at, IsCanonical, IsBelowCanonical, AreFieldsCanonical};
ghost use Rattle.tc_schema_model.specs.Added.{removed, items_removed, members_removed, kept_item, member_removed};
ghost use Rattle.tc_schema_model.specs.Fits.{is_fit, are_items_fit, are_members_fit};
ghost use Rattle.tc_value.specs.Kinds.{kind_meant};
ghost use Rattle.tc_schema.specs.Places.{place_counted, below_counted, fields_counted};
ghost use Rattle.tc_infer.specs.Levels.{begun, behind, innermost, outside, without_names, levels_under, name_under};

use crate::guessing::{field_by_guess, number_of_label};
use crate::taking::take_one;
use crate::tokens::kind_begun;
use tc_names::Names;
use tc_record::{Cursor, Label};
use tc_schema::{Field, Node};
use tc_value::Kind;

/// Takes the value whose token was taken off a place, and answers whether it fits there. The cursor then stands behind it.
#[cycle(walking)]
pub fn take_value(cursor: &mut Cursor<'_>, kind: Kind, names: &Names, place: &mut Node) -> bool
    requires canonical { IsCanonical (length names.now) (place_counted place.old) }
    ensures fits { result ≡ is_fit names.now (begun (kind_meant kind) (levels_under names.now cursor.old)) (place_counted place.old) }
    ensures taken { OnTrue result (place_counted place.new ≡ removed names.now (begun (kind_meant kind) (levels_under names.now cursor.old)) (place_counted place.old)) }
    ensures behind { OnTrue result (levels_under names.now cursor.new ≡ behind (kind_meant kind) (levels_under names.now cursor.old)) }
    ensures shorter { length cursor.new ≤ length cursor.old }
{
    if !take_one(&mut place.counts, kind) {
        return false;
    }
    match kind {
        Kind::Array => {
            if !take_items(cursor, names, &mut place.item) {
                return false;
            }
            place.counts.of_kind(Kind::Array) > 0 || place.item.is_none()
        }
        Kind::Object => {
            if !take_members(cursor, names, &mut place.fields) {
                return false;
            }
            place.counts.of_kind(Kind::Object) > 0 || place.fields.as_slice().is_empty()
        }
        _ => true,
    }
}

#[cycle(walking)]
fn take_items(cursor: &mut Cursor<'_>, names: &Names, below: &mut Option<Box<Node>>) -> bool
    requires canonical { IsBelowCanonical (length names.now) (below_counted below.old) }
    ensures fits { result ≡ are_items_fit names.now (without_names (innermost (levels_under names.now cursor.old))) (below_counted below.old) }
    ensures taken { OnTrue result (below_counted below.new ≡ items_removed names.now (without_names (innermost (levels_under names.now cursor.old))) (below_counted below.old)) }
    ensures behind { OnTrue result (levels_under names.now cursor.new ≡ outside (levels_under names.now cursor.old)) }
    ensures shorter { length cursor.new ≤ length cursor.old }
{
    while let Some(token) = cursor.next() {
        match kind_begun(token.value) {
            None => return true,
            Some(kind) => {
                if !take_item(cursor, kind, names, below) {
                    return false;
                }
            }
        }
    }
    true
}

#[cycle(walking)]
fn take_item(
    cursor: &mut Cursor<'_>,
    kind: Kind,
    names: &Names,
    below: &mut Option<Box<Node>>,
) -> bool
    requires canonical { IsBelowCanonical (length names.now) (below_counted below.old) }
    ensures fits { result ≡ is_fit names.now (begun (kind_meant kind) (levels_under names.now cursor.old)) (held (below_counted below.old)) }
    ensures taken { OnTrue result (below_counted below.new ≡ kept_item (removed names.now (begun (kind_meant kind) (levels_under names.now cursor.old)) (held (below_counted below.old)))) }
    ensures behind { OnTrue result (levels_under names.now cursor.new ≡ behind (kind_meant kind) (levels_under names.now cursor.old)) }
    ensures shorter { length cursor.new ≤ length cursor.old }
{
    let Some(place) = below else { return false };
    if !take_value(cursor, kind, names, place) {
        return false;
    }
    if place.counts.total() == 0 {
        *below = None;
    }
    true
}

#[cycle(walking)]
fn take_members(cursor: &mut Cursor<'_>, names: &Names, fields: &mut Vec<Field>) -> bool
    requires canonical { AreFieldsCanonical (length names.now) 0 (fields_counted fields.old.items) }
    ensures fits { result ≡ are_members_fit names.now (innermost (levels_under names.now cursor.old)) (fields_counted fields.old.items) }
    ensures taken { OnTrue result (fields_counted fields.new.items ≡ members_removed names.now (innermost (levels_under names.now cursor.old)) (fields_counted fields.old.items)) }
    ensures behind { OnTrue result (levels_under names.now cursor.new ≡ outside (levels_under names.now cursor.old)) }
    ensures shorter { length cursor.new ≤ length cursor.old }
{
    let mut guess = 0;
    while let Some(token) = cursor.next() {
        match kind_begun(token.value) {
            None => return true,
            Some(kind) => match take_member(cursor, token.label, guess, kind, names, fields) {
                None => return false,
                Some(next) => guess = next,
            },
        }
    }
    true
}

/// Takes a member whose label was taken off its field, by a guess at where that stands. Answers where the next one mostly
/// stands, if the member fits.
#[cycle(walking)]
fn take_member(
    cursor: &mut Cursor<'_>,
    label: Label<'_>,
    guess: usize,
    kind: Kind,
    names: &Names,
    fields: &mut Vec<Field>,
) -> Option<usize>
    requires canonical { AreFieldsCanonical (length names.now) 0 (fields_counted fields.old.items) }
    ensures fits { is_some result ≡ (is_some (number_of names.now (name_under names.now (key_of label.entry))) && is_fit names.now (begun (kind_meant kind) (levels_under names.now cursor.old)) (field_at (number names.now (name_under names.now (key_of label.entry))) (fields_counted fields.old.items))) }
    ensures taken { IfSome result (λ next. fields_counted fields.new.items ≡ member_removed names.now (name_under names.now (key_of label.entry), begun (kind_meant kind) (levels_under names.now cursor.old)) (fields_counted fields.old.items)) }
    ensures behind { IfSome result (λ next. levels_under names.now cursor.new ≡ behind (kind_meant kind) (levels_under names.now cursor.old)) }
    ensures shorter { length cursor.new ≤ length cursor.old }
{
    let Some(number) = number_of_label(label, names) else {
        return None;
    };
    let Some(at) = field_by_guess(fields, guess, number) else {
        return None;
    };
    if !take_value(cursor, kind, names, &mut fields[at].node) {
        return None;
    }
    if fields[at].node.counts.total() == 0 {
        fields.remove(at);
        return Some(at);
    }
    // the fields of documents of one kind mostly follow each other
    Some(at.wrapping_add(1))
}
