//! The names of a shape, learned.

ghost use Rattle.std.specs.Prelude.{◌≡◌, ◌<◌, ◌^◌, OnOk, OnErr, length, map};
ghost use Rattle.std.specs.List.{AllByRecursion};
ghost use Rattle.tc_model.specs.Tree.{items_of, members_of};
ghost use Rattle.tc_model.specs.Dictionary.{Extends, all_learned};
ghost use Rattle.tc_value.specs.ShapeMeaning.{shape_tree, shape_member};
ghost use Rattle.tc_model.specs.ShapeNames.{names_within, names_of_items, names_of_members};

use tc_bytes::Memory;
use tc_names::Names;
use tc_value::{Shape, ShapeMember};

/// Learns the names of a shape in preorder. Errs only for want of memory, with some of the names learned.
#[cycle(learning)]
pub fn learn_names(shape: &Shape, names: &mut Names) -> Result<(), Memory>
    requires room { length (all_learned names.old (names_within (shape_tree shape.now))) < 2 ^ 32 }
    requires short { AllByRecursion (λ name. length name < 2 ^ 32) (names_within (shape_tree shape.now)) }
    ensures ok { OnOk result (names.new ≡ all_learned names.old (names_within (shape_tree shape.now))) }
    ensures err { OnErr result (Extends names.new names.old) }
{
    match shape {
        Shape::Array(items) => learn_names_of_items(items.as_slice(), names),
        Shape::Object(members) => learn_names_of_members(members.as_slice(), names),
        _ => Ok(()),
    }
}

#[cycle(learning)]
fn learn_names_of_items(items: &[Shape], names: &mut Names) -> Result<(), Memory>
    requires room { length (all_learned names.old (names_of_items (items_of (map shape_tree items.now)))) < 2 ^ 32 }
    requires short { AllByRecursion (λ name. length name < 2 ^ 32) (names_of_items (items_of (map shape_tree items.now))) }
    ensures ok { OnOk result (names.new ≡ all_learned names.old (names_of_items (items_of (map shape_tree items.now)))) }
    ensures err { OnErr result (Extends names.new names.old) }
{
    for item in items {
        learn_names(item, names)?;
    }
    Ok(())
}

#[cycle(learning)]
fn learn_names_of_members(members: &[ShapeMember], names: &mut Names) -> Result<(), Memory>
    requires room { length (all_learned names.old (names_of_members (members_of (map shape_member members.now)))) < 2 ^ 32 }
    requires short { AllByRecursion (λ name. length name < 2 ^ 32) (names_of_members (members_of (map shape_member members.now))) }
    ensures ok { OnOk result (names.new ≡ all_learned names.old (names_of_members (members_of (map shape_member members.now)))) }
    ensures err { OnErr result (Extends names.new names.old) }
{
    for member in members {
        names.learn(member.name.as_str())?;
        learn_names(&member.value, names)?;
    }
    Ok(())
}
