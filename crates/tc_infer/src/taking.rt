//! A shape taken off a place, where it fits. Places that count nothing any more leave. Where it does not fit, some of it
//! may have been taken off.

ghost use Rattle.std.specs.Prelude.{◌≡◌, ◌&&◌, is_some, length, map, nat_lt};
ghost use Rattle.std.specs.Bool.{OnTrue};
ghost use Rattle.tc_model.specs.Tree.{items_of, members_of};
ghost use Rattle.tc_model.specs.Dictionary.{number_of, number};
ghost use Rattle.tc_schema_model.specs.Counted.{counter, held, field_at, IsCanonical, IsBelowCanonical, AreFieldsCanonical};
ghost use Rattle.tc_schema_model.specs.Added.{lowered, removed, items_removed, members_removed, kept_item, member_removed};
ghost use Rattle.tc_schema_model.specs.Fits.{is_fit, are_items_fit, are_members_fit};
ghost use Rattle.tc_value.specs.Kinds.{kind_meant};
ghost use Rattle.tc_value.specs.ShapeMeaning.{shape_tree, shape_member};
ghost use Rattle.tc_schema.specs.Places.{place_counted, below_counted, fields_counted};

use tc_names::Names;
use tc_schema::{Counts, Field, Node, search_fields};
use tc_value::{Kind, Shape, ShapeMember};

/// Takes a shape off a place, and answers whether it fits there.
#[cycle(taking)]
pub fn take_shape(shape: &Shape, names: &Names, place: &mut Node) -> bool
    requires canonical { IsCanonical (length names.now) (place_counted place.old) }
    ensures fits { result ≡ is_fit names.now (shape_tree shape.now) (place_counted place.old) }
    ensures taken { OnTrue result (place_counted place.new ≡ removed names.now (shape_tree shape.now) (place_counted place.old)) }
{
    match shape {
        Shape::Null => take_one(&mut place.counts, Kind::Null),
        Shape::Bool => take_one(&mut place.counts, Kind::Bool),
        Shape::Int => take_one(&mut place.counts, Kind::Int),
        Shape::Text => take_one(&mut place.counts, Kind::Text),
        Shape::Array(items) => {
            if !take_one(&mut place.counts, Kind::Array) {
                return false;
            }
            if !take_items(items.as_slice(), names, &mut place.item) {
                return false;
            }
            place.counts.of_kind(Kind::Array) > 0 || place.item.is_none()
        }
        Shape::Object(members) => {
            if !take_one(&mut place.counts, Kind::Object) {
                return false;
            }
            if !take_members(members.as_slice(), names, &mut place.fields) {
                return false;
            }
            place.counts.of_kind(Kind::Object) > 0 || place.fields.as_slice().is_empty()
        }
    }
}

/// One value of a kind less, where there is one.
pub fn take_one(counts: &mut Counts, kind: Kind) -> bool
    ensures fits { result ≡ nat_lt 0 (counter counts.old (kind_meant kind)) }
    ensures taken { OnTrue result (counts.new ≡ lowered (kind_meant kind) 1 counts.old) }
{
    if counts.of_kind(kind) == 0 {
        return false;
    }
    counts.lower(kind, 1);
    true
}

#[cycle(taking)]
fn take_items(items: &[Shape], names: &Names, below: &mut Option<Box<Node>>) -> bool
    requires canonical { IsBelowCanonical (length names.now) (below_counted below.old) }
    ensures fits { result ≡ are_items_fit names.now (items_of (map shape_tree items.now)) (below_counted below.old) }
    ensures taken { OnTrue result (below_counted below.new ≡ items_removed names.now (items_of (map shape_tree items.now)) (below_counted below.old)) }
{
    for item in items {
        if !take_item(item, names, below) {
            return false;
        }
    }
    true
}

#[cycle(taking)]
fn take_item(item: &Shape, names: &Names, below: &mut Option<Box<Node>>) -> bool
    requires canonical { IsBelowCanonical (length names.now) (below_counted below.old) }
    ensures fits { result ≡ is_fit names.now (shape_tree item.now) (held (below_counted below.old)) }
    ensures taken { OnTrue result (below_counted below.new ≡ kept_item (removed names.now (shape_tree item.now) (held (below_counted below.old)))) }
{
    let Some(place) = below else { return false };
    if !take_shape(item, names, place) {
        return false;
    }
    if place.counts.total() == 0 {
        *below = None;
    }
    true
}

#[cycle(taking)]
fn take_members(members: &[ShapeMember], names: &Names, fields: &mut Vec<Field>) -> bool
    requires canonical { AreFieldsCanonical (length names.now) 0 (fields_counted fields.old.items) }
    ensures fits { result ≡ are_members_fit names.now (members_of (map shape_member members.now)) (fields_counted fields.old.items) }
    ensures taken { OnTrue result (fields_counted fields.new.items ≡ members_removed names.now (members_of (map shape_member members.now)) (fields_counted fields.old.items)) }
{
    for member in members {
        if !take_member(member, names, fields) {
            return false;
        }
    }
    true
}

#[cycle(taking)]
fn take_member(member: &ShapeMember, names: &Names, fields: &mut Vec<Field>) -> bool
    requires canonical { AreFieldsCanonical (length names.now) 0 (fields_counted fields.old.items) }
    ensures fits { result ≡ (is_some (number_of names.now (shape_member member.now).0) && is_fit names.now (shape_member member.now).1 (field_at (number names.now (shape_member member.now).0) (fields_counted fields.old.items))) }
    ensures taken { OnTrue result (fields_counted fields.new.items ≡ member_removed names.now (shape_member member.now) (fields_counted fields.old.items)) }
{
    let Some(number) = names.id_of(member.name.as_str()) else {
        return false;
    };
    let Ok(at) = search_fields(fields, number) else {
        return false;
    };
    if !take_shape(&member.value, names, &mut fields[at].node) {
        return false;
    }
    if fields[at].node.counts.total() == 0 {
        fields.remove(at);
    }
    true
}
