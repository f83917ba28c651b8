//! The names of shapes, in preorder, and the dictionary that has learned them.

ghost use Rattle.std.specs.Prelude.{◌≡◌, ◌<◌, ◌^◌, ◌++◌, [], IfOk, OnOk, length, map};
ghost use Rattle.std.specs.List.{AllByRecursion};
ghost use Rattle.tc_model.specs.Tree.{items_of, members_of};
ghost use Rattle.tc_model.specs.Dictionary.{all_learned};
ghost use Rattle.tc_model.specs.ShapeNames.{names_within, names_of_items, names_of_members};
ghost use Rattle.tc_value.specs.ShapeMeaning.{shape_tree, shape_member};

use std::alloc::{AllocError, Global};
use tc_bytes::Memory;
use tc_names::Names;
use tc_value::{Shape, ShapeMember, Text};

/// The names of shapes, one shape after the other. Errs only for want of memory.
pub fn names_of(shapes: &[Shape], alloc: Global) -> Result<Vec<Text>, AllocError>
    ensures { IfOk result (λ names. names.items ≡ names_of_items (items_of (map shape_tree shapes.now))) }
{
    let mut names = Vec::new(alloc);
    push_names_of_items(shapes, &mut names, alloc)?;
    Ok(names)
}

#[cycle(naming)]
fn push_names(shape: &Shape, names: &mut Vec<Text>, alloc: Global) -> Result<(), AllocError>
    ensures { OnOk result (names.new.items ≡ names.old.items ++ names_within (shape_tree shape.now)) }
{
    match shape {
        Shape::Array(items) => push_names_of_items(items.as_slice(), names, alloc),
        Shape::Object(members) => push_names_of_members(members.as_slice(), names, alloc),
        _ => Ok(()),
    }
}

#[cycle(naming)]
fn push_names_of_items(
    items: &[Shape],
    names: &mut Vec<Text>,
    alloc: Global,
) -> Result<(), AllocError>
    ensures { OnOk result (names.new.items ≡ names.old.items ++ names_of_items (items_of (map shape_tree items.now))) }
{
    for item in items {
        push_names(item, names, alloc)?;
    }
    Ok(())
}

#[cycle(naming)]
fn push_names_of_members(
    members: &[ShapeMember],
    names: &mut Vec<Text>,
    alloc: Global,
) -> Result<(), AllocError>
    ensures { OnOk result (names.new.items ≡ names.old.items ++ names_of_members (members_of (map shape_member members.now))) }
{
    for member in members {
        names.push(member.name.copy(alloc)?)?;
        push_names(&member.value, names, alloc)?;
    }
    Ok(())
}

/// The dictionary that has learned names one after the other. Errs only for want of memory.
pub fn dictionary_of(names: &[Text], alloc: Global) -> Result<Names, Memory>
    requires room { length (all_learned [] names.now) < 2 ^ 32 }
    requires short { AllByRecursion (λ name. length name < 2 ^ 32) names.now }
    ensures { IfOk result (λ dictionary. dictionary ≡ all_learned [] names.now) }
{
    let mut dictionary = Names::new(alloc);
    for name in names {
        dictionary.learn(name.as_str())?;
    }
    Ok(dictionary)
}
