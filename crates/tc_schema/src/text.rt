//! The text of a schema, put after other text without a tree of values.

ghost use Rattle.std.specs.Prelude.{◌≡◌, ◌++◌, false, IfOk, OnOk};
ghost use Rattle.serde_json.specs.Written.{compact_text, members_text};
ghost use Rattle.tc_schema_model.specs.SchemaTree.{node_of, item_node_of, field_nodes_of};
ghost use Rattle.tc_schema_model.specs.SchemaText.{node_text, item_text, fields_text};
ghost use Rattle.tc_schema.specs.Places.{place_counted, below_counted, fields_counted};
ghost use Rattle.tc_schema.specs.Values.{named_values, all_scalar_values, array_values, object_values, values_text, is_later, count_front, union_front, union_end};

use crate::by_name::{name_of, places_by_name};
use crate::counters::Counts;
use crate::place::{Field, Node};
use std::alloc::{AllocError, Global};
use tc_names::Names;
use tc_text::{put_comma, put_mark, put_name, put_quoted, put_unsigned};
use tc_value::Kind;

/// Puts the text of a place. Errs only for want of memory, as all that puts text does.
#[cycle(place_text)]
pub fn put_place_text(
    place: &Node,
    names: &Names,
    alloc: Global,
    out: &mut Vec<u8>,
) -> Result<(), AllocError>
    ensures { OnOk result (out.new.items ≡ out.old.items ++ compact_text (node_text names.now (node_of (place_counted place.now)))) }
{
    put_union_front(&place.counts, out)?;
    let later = put_scalars(&place.counts, out)?;
    let arrays = place.counts.of_kind(Kind::Array);
    let later = put_array(later, &place.item, arrays, names, alloc, out)?;
    let objects = place.counts.of_kind(Kind::Object);
    put_object(later, place.fields.as_slice(), objects, names, alloc, out)?;
    put_union_end(&place.counts, out)
}

// Puts the arrays, after a comma if another kind stands before. Answers whether a kind stands before what comes next.
#[cycle(place_text)]
fn put_array(
    later: bool,
    item: &Option<Box<Node>>,
    count: u64,
    names: &Names,
    alloc: Global,
    out: &mut Vec<u8>,
) -> Result<bool, AllocError>
    ensures text { OnOk result (out.new.items ≡ out.old.items ++ values_text later (array_values names.now count (below_counted item.now))) }
    ensures later { IfOk result (λ next. next ≡ is_later later (array_values names.now count (below_counted item.now))) }
{
    if count == 0 {
        return Ok(later);
    }
    put_count(later, count, out)?;
    out.extend_from_slice(b",\"items\":")?;
    put_item(item, names, alloc, out)?;
    out.extend_from_slice(b",\"kind\":\"array\"}")?;
    Ok(true)
}

#[cycle(place_text)]
fn put_item(
    item: &Option<Box<Node>>,
    names: &Names,
    alloc: Global,
    out: &mut Vec<u8>,
) -> Result<(), AllocError>
    ensures { OnOk result (out.new.items ≡ out.old.items ++ compact_text (item_text names.now (item_node_of (below_counted item.now)))) }
{
    match item {
        None => out.extend_from_slice(b"null"),
        Some(place) => put_place_text(place, names, alloc, out),
    }
}

// Puts the objects, after a comma if another kind stands before.
#[cycle(place_text)]
fn put_object(
    later: bool,
    fields: &[Field],
    count: u64,
    names: &Names,
    alloc: Global,
    out: &mut Vec<u8>,
) -> Result<(), AllocError>
    ensures { OnOk result (out.new.items ≡ out.old.items ++ values_text later (object_values names.now count (fields_counted fields.now))) }
{
    if count == 0 {
        return Ok(());
    }
    put_count(later, count, out)?;
    out.extend_from_slice(b",\"fields\":{")?;
    put_fields(fields, names, alloc, out)?;
    out.extend_from_slice(b",\"kind\":\"object\"}")
}

// Puts the fields in the order of their names, and the bracket behind them.
#[cycle(place_text)]
fn put_fields(
    fields: &[Field],
    names: &Names,
    alloc: Global,
    out: &mut Vec<u8>,
) -> Result<(), AllocError>
    ensures { OnOk result (out.new.items ≡ out.old.items ++ members_text false (fields_text names.now (field_nodes_of (fields_counted fields.now)))) }
{
    let places = places_by_name(fields, names, alloc)?;
    let mut later = false;
    for place in places.as_slice() {
        let field = &fields[*place];
        put_name(later, name_of(field.number, names), out)?;
        put_place_text(&field.node, names, alloc, out)?;
        later = true;
    }
    put_mark(b'}', out)
}

// Puts what stands before the kinds of a union, where there are several.
fn put_union_front(counts: &Counts, out: &mut Vec<u8>) -> Result<(), AllocError>
    ensures { OnOk result (out.new.items ≡ out.old.items ++ union_front counts.now) }
{
    if counts.kinds() == 1 {
        return Ok(());
    }
    put_count(false, counts.total(), out)?;
    out.extend_from_slice(b",\"kind\":\"union\",\"kinds\":[")
}

fn put_union_end(counts: &Counts, out: &mut Vec<u8>) -> Result<(), AllocError>
    ensures { OnOk result (out.new.items ≡ out.old.items ++ union_end counts.now) }
{
    if counts.kinds() == 1 {
        return Ok(());
    }
    out.extend_from_slice(b"]}")
}

// Puts the kinds that hold nothing. Answers whether there is one.
fn put_scalars(counts: &Counts, out: &mut Vec<u8>) -> Result<bool, AllocError>
    ensures text { OnOk result (out.new.items ≡ out.old.items ++ values_text false (all_scalar_values counts.now)) }
    ensures later { IfOk result (λ next. next ≡ is_later false (all_scalar_values counts.now)) }
{
    let later = put_scalar(false, "null", counts.of_kind(Kind::Null), out)?;
    let later = put_scalar(later, "boolean", counts.of_kind(Kind::Bool), out)?;
    let later = put_scalar(later, "integer", counts.of_kind(Kind::Int), out)?;
    put_scalar(later, "text", counts.of_kind(Kind::Text), out)
}

// Puts a kind that holds nothing, after a comma if another stands before. Answers whether a kind stands before what comes next.
fn put_scalar(later: bool, kind: &str, count: u64, out: &mut Vec<u8>) -> Result<bool, AllocError>
    ensures text { OnOk result (out.new.items ≡ out.old.items ++ values_text later (named_values kind.now count)) }
    ensures later { IfOk result (λ next. next ≡ is_later later (named_values kind.now count)) }
{
    if count == 0 {
        return Ok(later);
    }
    put_count(later, count, out)?;
    out.extend_from_slice(b",\"kind\":")?;
    put_quoted(kind, out)?;
    put_mark(b'}', out)?;
    Ok(true)
}

// Puts the bracket of a kind and its count, after a comma if another kind stands before.
fn put_count(later: bool, count: u64, out: &mut Vec<u8>) -> Result<(), AllocError>
    ensures { OnOk result (out.new.items ≡ out.old.items ++ count_front later count) }
{
    put_comma(later, out)?;
    out.extend_from_slice(b"{\"count\":")?;
    put_unsigned(count, out)
}
