//! The bytes of a schema.

ghost use Rattle.std.specs.Prelude.{◌≡◌, ◌∷◌, ◌++◌, OnOk, map};
ghost use Rattle.tc_schema_model.specs.Counted.{counter, IsCanonical, IsBelowCanonical, AreFieldsCanonical};
ghost use Rattle.tc_schema_model.specs.SchemaTree.{node_of, item_node_of, field_nodes_of};
ghost use Rattle.tc_schema_model.specs.SchemaBytes.{node_bytes, item_bytes, fields_bytes};
ghost use Rattle.tc_model.specs.Kinds.{tag};
ghost use Rattle.tc_value.specs.Kinds.{kind_meant};
ghost use Rattle.tc_schema.specs.Places.{place_counted, below_counted, fields_counted, field_counted, most_names};
ghost use Rattle.tc_schema.specs.Writing.{tagged, field_part, scalar_part, scalar_parts, array_part, object_part, union_part};

use crate::counters::Counts;
use crate::place::{Field, Node, UNION_TAG};
use std::alloc::AllocError;
use tc_bytes::{put_u32, put_u64};
use tc_value::Kind;

/// Appends the bytes of a place. Errs only for want of memory.
#[cycle(put_place)]
pub fn put_place(place: &Node, out: &mut Vec<u8>) -> Result<(), AllocError>
    requires { IsCanonical most_names (place_counted place.now) }
    ensures { OnOk result (out.new.items ≡ out.old.items ++ node_bytes (node_of (place_counted place.now))) }
{
    put_union(&place.counts, out)?;
    put_scalars(&place.counts, out)?;
    put_arrays(&place.item, place.counts.of_kind(Kind::Array), out)?;
    put_objects(
        place.fields.as_slice(),
        place.counts.of_kind(Kind::Object),
        out,
    )
}

#[cycle(put_place)]
fn put_arrays(item: &Option<Box<Node>>, count: u64, out: &mut Vec<u8>) -> Result<(), AllocError>
    requires { IsBelowCanonical most_names (below_counted item.now) }
    ensures { OnOk result (out.new.items ≡ out.old.items ++ array_part count (below_counted item.now)) }
{
    if count == 0 {
        return Ok(());
    }
    put_tagged(Kind::Array.tag(), count, out)?;
    match item {
        None => Ok(out.push(0)?),
        Some(place) => {
            out.push(1)?;
            put_place(place, out)
        }
    }
}

#[cycle(put_place)]
fn put_objects(fields: &[Field], count: u64, out: &mut Vec<u8>) -> Result<(), AllocError>
    requires { AreFieldsCanonical most_names 0 (fields_counted fields.now) }
    ensures { OnOk result (out.new.items ≡ out.old.items ++ object_part count (fields_counted fields.now)) }
{
    if count == 0 {
        return Ok(());
    }
    put_tagged(Kind::Object.tag(), count, out)?;
    put_u32(out, fields.len() as u32)?;
    for field in fields {
        put_field(field, out)?;
    }
    Ok(())
}

#[cycle(put_place)]
fn put_field(field: &Field, out: &mut Vec<u8>) -> Result<(), AllocError>
    requires { IsCanonical most_names (field_counted field.now).1 }
    ensures { OnOk result (out.new.items ≡ out.old.items ++ field_part (field_counted field.now)) }
{
    put_u32(out, field.number)?;
    put_place(&field.node, out)
}

/// What stands before the kinds of a union, where there are several.
fn put_union(counts: &Counts, out: &mut Vec<u8>) -> Result<(), AllocError>
    ensures { OnOk result (out.new.items ≡ out.old.items ++ union_part counts.now) }
{
    let kinds = counts.kinds();
    if kinds == 1 {
        return Ok(());
    }
    put_tagged(UNION_TAG, counts.total(), out)?;
    Ok(out.push(kinds)?)
}

fn put_scalars(counts: &Counts, out: &mut Vec<u8>) -> Result<(), AllocError>
    ensures { OnOk result (out.new.items ≡ out.old.items ++ scalar_parts counts.now) }
{
    put_scalar(Kind::Null, counts, out)?;
    put_scalar(Kind::Bool, counts, out)?;
    put_scalar(Kind::Int, counts, out)?;
    put_scalar(Kind::Text, counts, out)
}

fn put_scalar(kind: Kind, counts: &Counts, out: &mut Vec<u8>) -> Result<(), AllocError>
    ensures { OnOk result (out.new.items ≡ out.old.items ++ scalar_part (tag (kind_meant kind)) (counter counts.now (kind_meant kind))) }
{
    let count = counts.of_kind(kind);
    if count == 0 {
        return Ok(());
    }
    put_tagged(kind.tag(), count, out)
}

fn put_tagged(tag: u8, count: u64, out: &mut Vec<u8>) -> Result<(), AllocError>
    ensures { OnOk result (out.new.items ≡ out.old.items ++ tagged tag count) }
{
    out.push(tag)?;
    put_u64(out, count)
}
