//! The values at one place, gathered by what they are. Each call errs only for want of memory.

ghost use Rattle.std.specs.Prelude.{◌≡◌, ◌++◌, IfOk, OnOk, length, map};
ghost use Rattle.tc_model.specs.Kinds.{kind_of};
ghost use Rattle.tc_schema_model.specs.Counted.{total};
ghost use Rattle.tc_value.specs.ShapeMeaning.{shape_tree, shape_member};
ghost use Rattle.tc_value.specs.Kinds.{kind_meant};
ghost use Rattle.tc_count.specs.Counting.{CountKinds};
ghost use Rattle.tc_count.specs.Gathered.{items_among, members_among};
ghost use Rattle.tc_schema_model.specs.SchemaText.{items_in, members_in, values_of};

use std::alloc::{AllocError, Global};
use tc_schema::Counts;
use tc_value::{Kind, Shape, ShapeMember};

/// How many of the values are of each kind. Takes no memory.
pub fn counts_of(values: &[Shape]) -> Counts
    ensures counted { CountKinds result (map shape_tree values.now) }
    ensures total { total result ≡ length values.now }
{
    let mut counts = Counts::none();
    for value in values {
        counts.raise(kind_of(value), 1);
    }
    counts
}

fn kind_of(value: &Shape) -> Kind
    ensures { kind_meant result ≡ kind_of (shape_tree value.now) }
{
    match value {
        Shape::Null => Kind::Null,
        Shape::Bool => Kind::Bool,
        Shape::Int => Kind::Int,
        Shape::Text => Kind::Text,
        Shape::Array(_) => Kind::Array,
        Shape::Object(_) => Kind::Object,
    }
}

/// The items of all arrays among the values, in order.
pub fn items_among(values: &[Shape], alloc: Global) -> Result<Vec<Shape>, AllocError>
    ensures { IfOk result (λ items. map shape_tree items.items ≡ items_among (map shape_tree values.now)) }
{
    let mut items = Vec::new(alloc);
    for value in values {
        push_items(value, &mut items, alloc)?;
    }
    Ok(items)
}

fn push_items(value: &Shape, items: &mut Vec<Shape>, alloc: Global) -> Result<(), AllocError>
    ensures { OnOk result (map shape_tree items.new.items ≡ map shape_tree items.old.items ++ items_in (shape_tree value.now)) }
{
    match value {
        Shape::Array(held) => push_shapes(held.as_slice(), items, alloc),
        _ => Ok(()),
    }
}

fn push_shapes(shapes: &[Shape], all: &mut Vec<Shape>, alloc: Global) -> Result<(), AllocError>
    ensures { OnOk result (map shape_tree all.new.items ≡ map shape_tree all.old.items ++ map shape_tree shapes.now) }
{
    for shape in shapes {
        all.push(shape.copy(alloc)?)?;
    }
    Ok(())
}

/// The members of all objects among the values, in order.
pub fn members_among(values: &[Shape], alloc: Global) -> Result<Vec<ShapeMember>, AllocError>
    ensures { IfOk result (λ members. map shape_member members.items ≡ members_among (map shape_tree values.now)) }
{
    let mut members = Vec::new(alloc);
    for value in values {
        push_members(value, &mut members, alloc)?;
    }
    Ok(members)
}

fn push_members(
    value: &Shape,
    members: &mut Vec<ShapeMember>,
    alloc: Global,
) -> Result<(), AllocError>
    ensures { OnOk result (map shape_member members.new.items ≡ map shape_member members.old.items ++ members_in (shape_tree value.now)) }
{
    match value {
        Shape::Object(held) => push_each(held.as_slice(), members, alloc),
        _ => Ok(()),
    }
}

fn push_each(
    members: &[ShapeMember],
    all: &mut Vec<ShapeMember>,
    alloc: Global,
) -> Result<(), AllocError>
    ensures { OnOk result (map shape_member all.new.items ≡ map shape_member all.old.items ++ map shape_member members.now) }
{
    for member in members {
        all.push(ShapeMember {
            name: member.name.copy(alloc)?,
            value: member.value.copy(alloc)?,
        })?;
    }
    Ok(())
}

/// The values of the members of a name, in order.
pub fn values_named(
    name: &str,
    members: &[ShapeMember],
    alloc: Global,
) -> Result<Vec<Shape>, AllocError>
    ensures { IfOk result (λ values. map shape_tree values.items ≡ values_of name.now (map shape_member members.now)) }
{
    let mut values = Vec::new(alloc);
    for member in members {
        if member.name.as_str() == name {
            values.push(member.value.copy(alloc)?)?;
        }
    }
    Ok(values)
}
