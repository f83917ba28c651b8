//! What one schema counts added to another, so many times.

ghost use Rattle.std.specs.Prelude.{◌≡◌, ◌+◌, ◌*◌, ◌<◌, ◌^◌, OnOk, OnErr, length};
ghost use Rattle.tc_model.specs.Kinds as kinds;
ghost use Rattle.tc_schema_model.specs.Counted.{nothing, counter, total, field_at, shows, total_at, IsCanonical, IsBelowCanonical, AreFieldsCanonical, HasSmallCounters, BelowHasSmallCounters, FieldsHaveSmallCounters};
ghost use Rattle.tc_schema_model.specs.Added.{raised};
ghost use Rattle.tc_schema_model.specs.Occurrences.{Path};
ghost use Rattle.tc_value.specs.Kinds.{kind_meant};
ghost use Rattle.tc_schema.specs.Places.{place_counted, below_counted, fields_counted, field_counted, most_names};
ghost use Rattle.tc_audit.specs.Times.{counters_with, with_times, below_with, fields_with, field_with};

use std::alloc::{AllocError, Global};
use std::mem;
use tc_bytes::Memory;
use tc_names::Names;
use tc_schema::{Counts, Field, Node, Schema, search_fields};
use tc_value::Kind;

/// Adds what one schema counts to another, so many times. Errs only for want of memory: the schema is then that of no
/// document.
pub(crate) fn add_times(
    schema: &mut Schema,
    names: &Names,
    one: &Schema,
    times: u64,
) -> Result<(), Memory>
    requires some { 0 < times }
    requires canonical { IsCanonical (length names.now) schema.old }
    requires one { IsCanonical (length names.now) one.now }
    requires room { (path : Path) → total_at names.now schema.old path + times * total_at names.now one.now path < 2 ^ 64 }
    ensures added { OnOk result (schema.new ≡ with_times times one.now schema.old) }
    ensures canonical { OnOk result (IsCanonical (length names.now) schema.new) }
    ensures counted { OnOk result ((path : Path) (t : kinds.Kind) → shows names.now schema.new path t ≡ shows names.now schema.old path t + times * shows names.now one.now path t) }
    ensures spent { OnErr result (schema.new ≡ nothing) }
{
    // that the names are distinct
    let _known = names.len();
    let alloc = *schema.root().fields.allocator();
    let mut root = mem::replace(schema, Schema::empty(alloc)).into_root();
    add_place(one.root(), times, &mut root, alloc)?;
    *schema = Schema::of(root);
    Ok(())
}

/// Adds what one place counts, and all below it, to another.
#[cycle(times)]
fn add_place(one: &Node, times: u64, place: &mut Node, alloc: Global) -> Result<(), AllocError>
    requires some { 0 < times }
    requires one { IsCanonical most_names (place_counted one.now) }
    requires canonical { IsCanonical most_names (place_counted place.old) }
    requires small { HasSmallCounters (with_times times (place_counted one.now) (place_counted place.old)) }
    ensures { OnOk result (place_counted place.new ≡ with_times times (place_counted one.now) (place_counted place.old)) }
{
    add_counts(&one.counts, times, &mut place.counts);
    add_items(&one.item, times, &mut place.item, alloc)?;
    add_fields(one.fields.as_slice(), times, &mut place.fields, alloc)
}

#[cycle(times)]
fn add_items(
    one: &Option<Box<Node>>,
    times: u64,
    below: &mut Option<Box<Node>>,
    alloc: Global,
) -> Result<(), AllocError>
    requires some { 0 < times }
    requires one { IsBelowCanonical most_names (below_counted one.now) }
    requires canonical { IsBelowCanonical most_names (below_counted below.old) }
    requires small { BelowHasSmallCounters (below_with times (below_counted one.now) (below_counted below.old)) }
    ensures { OnOk result (below_counted below.new ≡ below_with times (below_counted one.now) (below_counted below.old)) }
{
    let Some(item) = one else { return Ok(()) };
    match below {
        Some(place) => add_place(item, times, place, alloc),
        None => {
            let mut place = Box::new(alloc, Node::new(alloc))?;
            add_place(item, times, &mut place, alloc)?;
            *below = Some(place);
            Ok(())
        }
    }
}

#[cycle(times)]
fn add_fields(
    ones: &[Field],
    times: u64,
    fields: &mut Vec<Field>,
    alloc: Global,
) -> Result<(), AllocError>
    requires some { 0 < times }
    requires one { AreFieldsCanonical most_names 0 (fields_counted ones.now) }
    requires canonical { AreFieldsCanonical most_names 0 (fields_counted fields.old.items) }
    requires small { FieldsHaveSmallCounters (fields_with times (fields_counted ones.now) (fields_counted fields.old.items)) }
    ensures { OnOk result (fields_counted fields.new.items ≡ fields_with times (fields_counted ones.now) (fields_counted fields.old.items)) }
{
    for one in ones {
        add_field(one, times, fields, alloc)?;
    }
    Ok(())
}

#[cycle(times)]
fn add_field(
    one: &Field,
    times: u64,
    fields: &mut Vec<Field>,
    alloc: Global,
) -> Result<(), AllocError>
    requires some { 0 < times }
    requires one { IsCanonical most_names (field_counted one.now).1 }
    requires canonical { AreFieldsCanonical most_names 0 (fields_counted fields.old.items) }
    requires small { HasSmallCounters (with_times times (field_counted one.now).1 (field_at (field_counted one.now).0 (fields_counted fields.old.items))) }
    ensures { OnOk result (fields_counted fields.new.items ≡ field_with times (field_counted one.now) (fields_counted fields.old.items)) }
{
    match search_fields(fields, one.number) {
        Ok(at) => add_place(&one.node, times, &mut fields[at].node, alloc),
        Err(gap) => {
            let mut node = Box::new(alloc, Node::new(alloc))?;
            add_place(&one.node, times, &mut node, alloc)?;
            Ok(fields.insert(
                gap,
                Field {
                    number: one.number,
                    node,
                },
            )?)
        }
    }
}

fn add_counts(one: &Counts, times: u64, counts: &mut Counts)
    requires { total counts.old + times * total one.now < 2 ^ 64 }
    ensures { counts.new ≡ counters_with times one.now counts.old }
{
    add_kind(Kind::Null, one, times, counts);
    add_kind(Kind::Bool, one, times, counts);
    add_kind(Kind::Int, one, times, counts);
    add_kind(Kind::Text, one, times, counts);
    add_kind(Kind::Array, one, times, counts);
    add_kind(Kind::Object, one, times, counts);
}

fn add_kind(kind: Kind, one: &Counts, times: u64, counts: &mut Counts)
    requires { total counts.old + times * counter one.now (kind_meant kind) < 2 ^ 64 }
    ensures { counts.new ≡ raised (kind_meant kind) (times * counter one.now (kind_meant kind)) counts.old }
{
    counts.raise(kind, times * one.of_kind(kind));
}
