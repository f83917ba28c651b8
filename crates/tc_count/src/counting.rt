//! The place of values: they are grouped by kind, and their members by name, and so on below.

ghost use Rattle.std.specs.Prelude.{◌≡◌, ◌≢◌, ◌+◌, ◌<◌, IfOk, OnOk, ℕ, [], None, length, map};
ghost use Rattle.tc_model.specs.Document.{Name};
ghost use Rattle.tc_model.specs.Dictionary.{number_of};
ghost use Rattle.tc_model.specs.Tree.{items_of, members_of};
ghost use Rattle.tc_model.specs.Kinds.{Kind};
ghost use Rattle.tc_schema_model.specs.Occurrences.{Path, items_occurrences, members_occurrences};
ghost use Rattle.tc_schema_model.specs.Counted.{held, numbered_field, documents_of, IsCanonical, IsBelowCanonical, AreFieldsCanonical};
ghost use Rattle.tc_value.specs.ShapeMeaning.{shape_tree, shape_member};
ghost use Rattle.tc_schema.specs.Places.{place_counted, below_counted, fields_counted};
ghost use Rattle.tc_count.specs.Counting.{Shows, FieldsShow, IsZeroUnnumbered};

use crate::gathering::{counts_of, items_among, members_among, values_named};
use std::alloc::{AllocError, Global};
use tc_names::Names;
use tc_schema::{Field, Node};
use tc_value::{Shape, ShapeMember};

/// The place where values stand, of which there are some. Errs only for want of memory, as do the others.
#[cycle(counting)]
pub fn place_of(values: &[Shape], names: &Names, alloc: Global) -> Result<Node, AllocError>
    requires some { 0 < length values.now }
    requires numbered { IsZeroUnnumbered names.now (items_occurrences (items_of (map shape_tree values.now))) }
    ensures shown { IfOk result (λ place. Shows names.now (place_counted place) (items_occurrences (items_of (map shape_tree values.now)))) }
    ensures canonical { IfOk result (λ place. IsCanonical (length names.now) (place_counted place)) }
    ensures some { IfOk result (λ place. 0 < documents_of (place_counted place)) }
{
    // that the names are distinct
    let _known = names.len();
    let items = items_among(values, alloc)?;
    let members = members_among(values, alloc)?;
    let item = item_of(items.as_slice(), names, alloc)?;
    let fields = fields_of(members.as_slice(), names, alloc)?;
    Ok(Node {
        counts: counts_of(values),
        item,
        fields,
    })
}

/// The place of items, if there are any.
#[cycle(counting)]
fn item_of(items: &[Shape], names: &Names, alloc: Global) -> Result<Option<Box<Node>>, AllocError>
    requires numbered { IsZeroUnnumbered names.now (items_occurrences (items_of (map shape_tree items.now))) }
    ensures shown { IfOk result (λ item. Shows names.now (held (below_counted item)) (items_occurrences (items_of (map shape_tree items.now)))) }
    ensures canonical { IfOk result (λ item. IsBelowCanonical (length names.now) (below_counted item)) }
{
    if items.is_empty() {
        return Ok(None);
    }
    let place = place_of(items, names, alloc)?;
    Ok(Some(Box::new(alloc, place)?))
}

/// The places of members, by the numbers of their names.
#[cycle(counting)]
fn fields_of(
    members: &[ShapeMember],
    names: &Names,
    alloc: Global,
) -> Result<Vec<Field>, AllocError>
    requires numbered { (name : Name) → IsZeroUnnumbered names.now (members_occurrences (members_of (map shape_member members.now)) name) }
    ensures shown { IfOk result (λ fields. FieldsShow names.now 0 (fields_counted fields.items) (members_occurrences (members_of (map shape_member members.now)))) }
    ensures canonical { IfOk result (λ fields. AreFieldsCanonical (length names.now) 0 (fields_counted fields.items)) }
{
    let count = names.len();
    let mut fields = Vec::new(alloc);
    for done in 0..count {
        put_first(count - 1 - done, members, names, &mut fields, alloc)?;
    }
    Ok(fields)
}

/// The place of the members whose name has a number, put before the fields of greater numbers if there are such members.
#[cycle(counting)]
fn put_first(
    number: u32,
    members: &[ShapeMember],
    names: &Names,
    fields: &mut Vec<Field>,
    alloc: Global,
) -> Result<(), AllocError>
    requires inside { number < length names.now }
    requires numbered { (name : Name) → IsZeroUnnumbered names.now (members_occurrences (members_of (map shape_member members.now)) name) }
    requires shown { FieldsShow names.now (number + 1) (fields_counted fields.old.items) (members_occurrences (members_of (map shape_member members.now))) }
    requires canonical { AreFieldsCanonical (length names.now) (number + 1) (fields_counted fields.old.items) }
    ensures shown { OnOk result (FieldsShow names.now number (fields_counted fields.new.items) (members_occurrences (members_of (map shape_member members.now)))) }
    ensures canonical { OnOk result (AreFieldsCanonical (length names.now) number (fields_counted fields.new.items)) }
{
    let name = names.name_of(number).unwrap();
    let values = values_named(name, members, alloc)?;
    if values.as_slice().is_empty() {
        return Ok(());
    }
    let place = place_of(values.as_slice(), names, alloc)?;
    let node = Box::new(alloc, place)?;
    fields.insert(0, Field { number, node })?;
    Ok(())
}

/// The place where values stand, or one where nothing is counted.
pub fn root_of(values: &[Shape], names: &Names, alloc: Global) -> Result<Node, AllocError>
    requires numbered { IsZeroUnnumbered names.now (items_occurrences (items_of (map shape_tree values.now))) }
    ensures shown { IfOk result (λ place. Shows names.now (place_counted place) (items_occurrences (items_of (map shape_tree values.now)))) }
    ensures canonical { IfOk result (λ place. IsCanonical (length names.now) (place_counted place)) }
{
    if values.is_empty() {
        return Ok(Node::new(alloc));
    }
    place_of(values, names, alloc)
}
