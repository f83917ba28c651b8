//! The names of a shape that are new.

ghost use Rattle.std.specs.Prelude.{◌≡◌, ◌+◌, ◌++◌, ◌<◌, ◌^◌, IfOk, OnOk, length, map};
ghost use Rattle.std.specs.List.{AllByRecursion};
ghost use Rattle.tc_model.specs.Tree.{items_of, members_of};
ghost use Rattle.tc_value.specs.ShapeMeaning.{shape_tree, shape_member};
ghost use Rattle.tc_model.specs.ShapeNames.{names_within, names_of_items, names_of_members};
ghost use Rattle.tc_model.specs.Dictionary.{all_learned, learned};

use std::alloc::{AllocError, Global};
use tc_bytes::Memory;
use tc_names::Names;
use tc_value::{Shape, ShapeMember};

/// How many distinct names of a shape are not known yet. Takes no memory where there are none, and errs only for want
/// of memory.
pub fn count_fresh(alloc: Global, shape: &Shape, known: &Names) -> Result<u32, AllocError>
    requires room { length (names_within (shape_tree shape.now)) < 2 ^ 32 }
    requires short { AllByRecursion (λ name. length name < 2 ^ 32) (names_within (shape_tree shape.now)) }
    ensures { IfOk result (λ fresh. length (all_learned known.now (names_within (shape_tree shape.now))) ≡ length known.now + fresh) }
{
    let mut fresh = Names::new(alloc);
    learn_fresh(shape, known, &mut fresh)?;
    Ok(fresh.len())
}

// Learns the names of a shape that are not known. Each of these calls errs only for want of memory.
#[cycle(fresh)]
fn learn_fresh(shape: &Shape, known: &Names, fresh: &mut Names) -> Result<(), Memory>
    requires room { length fresh.old + length (names_within (shape_tree shape.now)) < 2 ^ 32 }
    requires short { AllByRecursion (λ name. length name < 2 ^ 32) (names_within (shape_tree shape.now)) }
    ensures { OnOk result (known.now ++ fresh.new ≡ all_learned (known.now ++ fresh.old) (names_within (shape_tree shape.now))) }
{
    match shape {
        Shape::Array(items) => learn_fresh_of_items(items.as_slice(), known, fresh),
        Shape::Object(members) => learn_fresh_of_members(members.as_slice(), known, fresh),
        _ => Ok(()),
    }
}

#[cycle(fresh)]
fn learn_fresh_of_items(items: &[Shape], known: &Names, fresh: &mut Names) -> Result<(), Memory>
    requires room { length fresh.old + length (names_of_items (items_of (map shape_tree items.now))) < 2 ^ 32 }
    requires short { AllByRecursion (λ name. length name < 2 ^ 32) (names_of_items (items_of (map shape_tree items.now))) }
    ensures { OnOk result (known.now ++ fresh.new ≡ all_learned (known.now ++ fresh.old) (names_of_items (items_of (map shape_tree items.now)))) }
{
    for item in items {
        learn_fresh(item, known, fresh)?;
    }
    Ok(())
}

#[cycle(fresh)]
fn learn_fresh_of_members(
    members: &[ShapeMember],
    known: &Names,
    fresh: &mut Names,
) -> Result<(), Memory>
    requires room { length fresh.old + length (names_of_members (members_of (map shape_member members.now))) < 2 ^ 32 }
    requires short { AllByRecursion (λ name. length name < 2 ^ 32) (names_of_members (members_of (map shape_member members.now))) }
    ensures { OnOk result (known.now ++ fresh.new ≡ all_learned (known.now ++ fresh.old) (names_of_members (members_of (map shape_member members.now)))) }
{
    for member in members {
        learn_unless_known(member.name.as_str(), known, fresh)?;
        learn_fresh(&member.value, known, fresh)?;
    }
    Ok(())
}

// Learns a name that is not known.
fn learn_unless_known(name: &str, known: &Names, fresh: &mut Names) -> Result<(), Memory>
    requires room { length fresh.old + 1 < 2 ^ 32 }
    requires short { length name.now < 2 ^ 32 }
    ensures { OnOk result (known.now ++ fresh.new ≡ learned (known.now ++ fresh.old) name.now) }
{
    match known.id_of(name) {
        Some(_id) => Ok(()),
        None => {
            fresh.learn(name)?;
            Ok(())
        }
    }
}
