//! The shape of a document. Each call errs only for want of memory.

ghost use Rattle.std.specs.Prelude.{◌≡◌, IfOk, map};
ghost use Rattle.tc_value.specs.Meaning.{tree_of, member_of};
ghost use Rattle.tc_value.specs.ShapeMeaning.{shape_tree, shape_member};
ghost use Rattle.tc_model.specs.Document.{member_shape, document_shape};

use crate::document::{Doc, Member};
use crate::shape_tree::{Shape, ShapeItems, ShapeMember, ShapeMembers};
use std::alloc::{AllocError, Global};

impl Doc {
    /// The shape of the document.
    #[cycle(shaping)]
    pub fn shape(&self, alloc: Global) -> Result<Shape, AllocError>
        ensures { IfOk result (λ shape. shape_tree shape ≡ document_shape (tree_of self.now)) }
    {
        match self {
            Doc::Null => Ok(Shape::Null),
            Doc::Bool(_) => Ok(Shape::Bool),
            Doc::Int(_) => Ok(Shape::Int),
            Doc::Text(_) => Ok(Shape::Text),
            Doc::Array(items) => Ok(Shape::Array(ShapeItems::of(shapes_of_items(
                &items.items,
                alloc,
            )?))),
            Doc::Object(members) => Ok(Shape::Object(ShapeMembers::of(shapes_of_members(
                &members.members,
                alloc,
            )?))),
        }
    }
}

#[cycle(shaping)]
fn shapes_of_items(items: &[Doc], alloc: Global) -> Result<Vec<Shape>, AllocError>
    ensures { IfOk result (λ shapes. map shape_tree shapes.items ≡ map document_shape (map tree_of items.now)) }
{
    let mut shapes = Vec::with_capacity(alloc, items.len())?;
    for item in items {
        shapes.push(item.shape(alloc)?)?;
    }
    Ok(shapes)
}

#[cycle(shaping)]
fn shapes_of_members(members: &[Member], alloc: Global) -> Result<Vec<ShapeMember>, AllocError>
    ensures { IfOk result (λ shapes. map shape_member shapes.items ≡ map member_shape (map member_of members.now)) }
{
    let mut shapes = Vec::with_capacity(alloc, members.len())?;
    for member in members {
        shapes.push(ShapeMember {
            name: member.name.copy(alloc)?,
            value: member.value.shape(alloc)?,
        })?;
    }
    Ok(shapes)
}
