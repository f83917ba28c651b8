//! Bounds of all places of a schema: the greatest count, and a limit of the numbers of fields.

ghost use Rattle.std.specs.Prelude.{◌≡◌};
ghost use Rattle.tc_schema_model.specs.Bounds.{greatest_total, greatest_below, greatest_of_fields, has_numbers_below, below_has_numbers_below, fields_have_numbers_below};
ghost use Rattle.tc_schema.specs.Places.{place_counted, below_counted, fields_counted};

use crate::place::{Field, Node};

/// The most values that any one place from here on counts. Takes no memory.
#[cycle(greatest)]
pub fn greatest_count(place: &Node) -> u64
    ensures { result ≡ greatest_total (place_counted place.now) }
{
    let below = greatest_of_item(&place.item).max(greatest_in(place.fields.as_slice()));
    place.counts.total().max(below)
}

#[cycle(greatest)]
fn greatest_of_item(item: &Option<Box<Node>>) -> u64
    ensures { result ≡ greatest_below (below_counted item.now) }
{
    match item {
        Some(node) => greatest_count(node),
        None => 0,
    }
}

#[cycle(greatest)]
fn greatest_in(fields: &[Field]) -> u64
    ensures { result ≡ greatest_of_fields (fields_counted fields.now) }
{
    let mut greatest = 0;
    for field in fields {
        greatest = greatest_count(&field.node).max(greatest);
    }
    greatest
}

/// Whether the number of each field from here on is below a limit. Takes no memory.
#[cycle(limited)]
pub fn is_below(place: &Node, limit: u32) -> bool
    ensures { result ≡ has_numbers_below limit (place_counted place.now) }
{
    is_item_below(&place.item, limit) && are_fields_below(place.fields.as_slice(), limit)
}

#[cycle(limited)]
fn is_item_below(item: &Option<Box<Node>>, limit: u32) -> bool
    ensures { result ≡ below_has_numbers_below limit (below_counted item.now) }
{
    match item {
        Some(node) => is_below(node, limit),
        None => true,
    }
}

#[cycle(limited)]
fn are_fields_below(fields: &[Field], limit: u32) -> bool
    ensures { result ≡ fields_have_numbers_below limit (fields_counted fields.now) }
{
    for field in fields {
        if !(field.number < limit && is_below(&field.node, limit)) {
            return false;
        }
    }
    true
}
