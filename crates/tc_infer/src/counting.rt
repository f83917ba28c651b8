//! A shape counted at a place, by names that are all known. Each call errs only for want of memory.

ghost use Rattle.std.specs.Prelude.{◌≡◌, ◌≢◌, ◌<◌, IfOk, IsOk, OnOk, IsTrue, is_some, length, map, slice_get, slice_set, Some};
ghost use Rattle.tc_model.specs.Tree.{items_of, members_of};
ghost use Rattle.tc_model.specs.Dictionary.{number_of, number};
ghost use Rattle.tc_schema_model.specs.Counted.{Counted, nothing, held, an_item, field_at, IsCanonical, IsBelowCanonical, AreFieldsCanonical, AreFieldsOrdered};
ghost use Rattle.tc_schema_model.specs.Added.{added, items_added, members_added, put_field, IsNamed, AreItemsNamed, AreMembersNamed, member_added};
ghost use Rattle.tc_value.specs.ShapeMeaning.{shape_tree, shape_member};
ghost use Rattle.tc_schema_model.specs.Room.{DoesFit, DoFieldsFit};
ghost use Rattle.tc_schema.specs.Places.{place_counted, below_counted, fields_counted, field_counted, listed};

use std::alloc::{AllocError, Global};
use tc_names::Names;
use tc_schema::{Field, Node, search_fields};
use tc_value::{Kind, Shape, ShapeMember};

/// Counts a shape at a place.
#[cycle(counting)]
pub fn count_shape(
    shape: &Shape,
    names: &Names,
    place: &mut Node,
    alloc: Global,
) -> Result<(), AllocError>
    requires named { IsNamed names.now (shape_tree shape.now) }
    requires canonical { IsCanonical (length names.now) (place_counted place.old) }
    requires fits { DoesFit names.now (added names.now (shape_tree shape.now) (place_counted place.old)) }
    ensures { OnOk result (place_counted place.new ≡ added names.now (shape_tree shape.now) (place_counted place.old)) }
{
    match shape {
        Shape::Null => Ok(place.counts.raise(Kind::Null, 1)),
        Shape::Bool => Ok(place.counts.raise(Kind::Bool, 1)),
        Shape::Int => Ok(place.counts.raise(Kind::Int, 1)),
        Shape::Text => Ok(place.counts.raise(Kind::Text, 1)),
        Shape::Array(items) => {
            place.counts.raise(Kind::Array, 1);
            count_items(items.as_slice(), names, &mut place.item, alloc)
        }
        Shape::Object(members) => {
            place.counts.raise(Kind::Object, 1);
            count_members(members.as_slice(), names, &mut place.fields, alloc)
        }
    }
}

#[cycle(counting)]
fn count_items(
    items: &[Shape],
    names: &Names,
    below: &mut Option<Box<Node>>,
    alloc: Global,
) -> Result<(), AllocError>
    requires named { AreItemsNamed names.now (items_of (map shape_tree items.now)) }
    requires canonical { IsBelowCanonical (length names.now) (below_counted below.old) }
    requires fits { DoesFit names.now (held (items_added names.now (items_of (map shape_tree items.now)) (below_counted below.old))) }
    ensures { OnOk result (below_counted below.new ≡ items_added names.now (items_of (map shape_tree items.now)) (below_counted below.old)) }
{
    for item in items {
        count_item(item, names, below, alloc)?;
    }
    Ok(())
}

#[cycle(counting)]
fn count_item(
    item: &Shape,
    names: &Names,
    below: &mut Option<Box<Node>>,
    alloc: Global,
) -> Result<(), AllocError>
    requires named { IsNamed names.now (shape_tree item.now) }
    requires canonical { IsBelowCanonical (length names.now) (below_counted below.old) }
    requires fits { DoesFit names.now (added names.now (shape_tree item.now) (held (below_counted below.old))) }
    ensures { OnOk result (below_counted below.new ≡ an_item (added names.now (shape_tree item.now) (held (below_counted below.old)))) }
{
    match below {
        Some(place) => count_shape(item, names, place, alloc),
        None => {
            let mut place = Box::new(alloc, Node::new(alloc))?;
            count_shape(item, names, &mut place, alloc)?;
            *below = Some(place);
            Ok(())
        }
    }
}

#[cycle(counting)]
fn count_members(
    members: &[ShapeMember],
    names: &Names,
    fields: &mut Vec<Field>,
    alloc: Global,
) -> Result<(), AllocError>
    requires named { AreMembersNamed names.now (members_of (map shape_member members.now)) }
    requires canonical { AreFieldsCanonical (length names.now) 0 (fields_counted fields.old.items) }
    requires fits { DoFieldsFit names.now (members_added names.now (members_of (map shape_member members.now)) (fields_counted fields.old.items)) }
    ensures { OnOk result (fields_counted fields.new.items ≡ members_added names.now (members_of (map shape_member members.now)) (fields_counted fields.old.items)) }
{
    for member in members {
        count_member(member, names, fields, alloc)?;
    }
    Ok(())
}

#[cycle(counting)]
fn count_member(
    member: &ShapeMember,
    names: &Names,
    fields: &mut Vec<Field>,
    alloc: Global,
) -> Result<(), AllocError>
    requires known { IsTrue (is_some (number_of names.now (shape_member member.now).0)) }
    requires named { IsNamed names.now (shape_member member.now).1 }
    requires canonical { AreFieldsCanonical (length names.now) 0 (fields_counted fields.old.items) }
    requires fits { DoesFit names.now (added names.now (shape_member member.now).1 (field_at (number names.now (shape_member member.now).0) (fields_counted fields.old.items))) }
    ensures { OnOk result (fields_counted fields.new.items ≡ member_added names.now (shape_member member.now) (fields_counted fields.old.items)) }
{
    let number = names.id_of(member.name.as_str()).unwrap();
    let at = place_of(number, fields, alloc)?;
    count_shape(&member.value, names, &mut fields[at].node, alloc)
}

/// Where the field of a number stands. One where nothing is counted is made where there is none.
pub fn place_of(number: u32, fields: &mut Vec<Field>, alloc: Global) -> Result<usize, AllocError>
    requires ordered { AreFieldsOrdered 0 (fields_counted fields.old.items) }
    ensures inside { IfOk result (λ i. i < length fields.new.items) }
    ensures here { IfOk result (λ i. slice_get (map field_counted fields.new.items) i ≡ Some (number, field_at number (fields_counted fields.old.items))) }
    ensures sure { field_at number (fields_counted fields.old.items) ≢ nothing → IsOk result }
    ensures written { IfOk result (λ i. (d : Counted) → listed (slice_set (map field_counted fields.new.items) i (number, d)) ≡ put_field number d (fields_counted fields.old.items)) }
{
    match search_fields(fields, number) {
        Ok(place) => Ok(place),
        Err(gap) => {
            let node = Box::new(alloc, Node::new(alloc))?;
            fields.insert(gap, Field { number, node })?;
            Ok(gap)
        }
    }
}
