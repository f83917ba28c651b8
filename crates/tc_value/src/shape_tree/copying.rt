//! Copies of shapes. Each call errs only for want of memory.

ghost use Rattle.std.specs.Prelude.{◌≡◌, IfOk, map};
ghost use Rattle.tc_value.specs.ShapeMeaning.{shape_tree, shape_member};

use crate::shape_tree::{Shape, ShapeItems, ShapeMember, ShapeMembers};
use std::alloc::{AllocError, Global};

impl Shape {
    /// The same shape in memory of its own.
    #[cycle(copy_shape)]
    pub fn copy(&self, alloc: Global) -> Result<Shape, AllocError>
        ensures { IfOk result (λ copied. shape_tree copied ≡ shape_tree self.now) }
    {
        match self {
            Shape::Null => Ok(Shape::Null),
            Shape::Bool => Ok(Shape::Bool),
            Shape::Int => Ok(Shape::Int),
            Shape::Text => Ok(Shape::Text),
            Shape::Array(items) => Ok(Shape::Array(ShapeItems::of(copy_shape_items(
                &items.items,
                alloc,
            )?))),
            Shape::Object(members) => Ok(Shape::Object(ShapeMembers::of(copy_shape_members(
                &members.members,
                alloc,
            )?))),
        }
    }
}

#[cycle(copy_shape)]
fn copy_shape_items(items: &[Shape], alloc: Global) -> Result<Vec<Shape>, AllocError>
    ensures { IfOk result (λ copied. map shape_tree copied.items ≡ map shape_tree items.now) }
{
    let mut copied = Vec::with_capacity(alloc, items.len())?;
    for item in items {
        copied.push(item.copy(alloc)?)?;
    }
    Ok(copied)
}

#[cycle(copy_shape)]
fn copy_shape_members(
    members: &[ShapeMember],
    alloc: Global,
) -> Result<Vec<ShapeMember>, AllocError>
    ensures { IfOk result (λ copied. map shape_member copied.items ≡ map shape_member members.now) }
{
    let mut copied = Vec::with_capacity(alloc, members.len())?;
    for member in members {
        copied.push(ShapeMember {
            name: member.name.copy(alloc)?,
            value: member.value.copy(alloc)?,
        })?;
    }
    Ok(copied)
}
