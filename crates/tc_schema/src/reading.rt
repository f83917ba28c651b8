//! Places read from bytes, where no more than so many levels nest.

ghost use Rattle.std.specs.Prelude.{◌≡◌, ◌≤◌, ℕ, option_map, option_and_then, IfOk, IfSome};
ghost use Rattle.tc_bytes.specs.Codec.{Gives};
ghost use Rattle.tc_bytes.specs.Reading.{Reader, whole};
ghost use Rattle.tc_schema_model.specs.Counted.{Counted};
ghost use Rattle.tc_schema.specs.Places.{place_counted, below_counted, fields_counted};
ghost use Rattle.tc_schema.specs.Writing.{one_if_some};
ghost use Rattle.tc_schema.specs.Reading.{starts, counter_at, scalar_at, item_at, array_at, fields_at, object_at, place_ended, arrays_at, kinds_at, union_at, place_at, root_at};

use crate::counters::{Counts, one_if_some};
use crate::fault::SchemaFault;
use crate::place::{
    ARRAY_TAG, BOOLEAN_TAG, Field, INTEGER_TAG, NULL_TAG, Node, OBJECT_TAG, TEXT_TAG, UNION_TAG,
};
use std::alloc::Global;
use tc_bytes::{u8_at, u32_at, u64_at};
use tc_value::{Kind, MAX_DEPTH};

/// How many places of a schema stand one within another, at most. Reading recurses no deeper, whatever the bytes, and so
/// does the drop of what was read.
pub const MAX_LEVELS: usize = MAX_DEPTH as usize + 1;

/// The root of the schema that all of the bytes spell, where no more than so many levels nest.
pub fn read_root(
    bytes: &[u8],
    levels: usize,
    names: u32,
    alloc: Global,
) -> Result<Node, SchemaFault>
    ensures { Gives place_counted SchemaFault.NotASchema result (whole (root_at names levels) bytes.now) }
{
    let (root, rest) = read_any_root(bytes, levels, names, alloc)?;
    if !rest.is_empty() {
        return Err(SchemaFault::NotASchema);
    }
    Ok(root)
}

/// A root from the front of the bytes.
fn read_any_root(
    bytes: &[u8],
    levels: usize,
    names: u32,
    alloc: Global,
) -> Result<(Node, &[u8]), SchemaFault>
    ensures { Gives (λ x. (place_counted x.0, x.1.now)) SchemaFault.NotASchema result (root_at names levels bytes.now) }
{
    if starts(0, 1, bytes) {
        return Ok((Node::new(alloc), &bytes[1..]));
    }
    let (root, rest) = read_place(bytes, levels, names, alloc)?;
    if root.counts.total() != root.counts.of_kind(Kind::Object) {
        return Err(SchemaFault::NotASchema);
    }
    Ok((root, rest))
}

/// A place from the front of the bytes, and what stands behind it.
#[cycle(read_place)]
pub fn read_place(
    bytes: &[u8],
    levels: usize,
    names: u32,
    alloc: Global,
) -> Result<(Node, &[u8]), SchemaFault>
    ensures { Gives (λ x. (place_counted x.0, x.1.now)) SchemaFault.NotASchema result (place_at names levels bytes.now) }
{
    if levels == 0 {
        return Err(SchemaFault::NotASchema);
    }
    if starts(UNION_TAG, 1, bytes) {
        read_union(&bytes[1..], levels - 1, names, alloc)
    } else {
        read_kinds(1, bytes, levels - 1, names, alloc)
    }
}

/// Whether a kind of this tag stands here, where so many kinds are to come.
pub fn starts(tag: u8, left: u8, bytes: &[u8]) -> bool
    ensures { result ≡ starts tag left bytes.now }
{
    match bytes {
        [] => false,
        [first, ..] => left > 0 && *first == tag,
    }
}

/// A union: its counter, how many kinds it has, and the kinds, of which the counter is the sum.
#[cycle(read_place)]
fn read_union(
    bytes: &[u8],
    levels: usize,
    names: u32,
    alloc: Global,
) -> Result<(Node, &[u8]), SchemaFault>
    ensures { Gives (λ x. (place_counted x.0, x.1.now)) SchemaFault.NotASchema result (union_at (place_at names levels) names bytes.now) }
{
    let (count, rest) = u64_at(bytes).ok_or(SchemaFault::NotASchema)?;
    let (kinds, rest) = u8_at(rest).ok_or(SchemaFault::NotASchema)?;
    if kinds < 2 {
        return Err(SchemaFault::NotASchema);
    }
    let (place, rest) = read_kinds(kinds, rest, levels, names, alloc)?;
    if place.counts.total() != count {
        return Err(SchemaFault::NotASchema);
    }
    Ok((place, rest))
}

/// So many kinds by ascending tag, which together are fewer than 2^64.
#[cycle(read_place)]
fn read_kinds(
    left: u8,
    bytes: &[u8],
    levels: usize,
    names: u32,
    alloc: Global,
) -> Result<(Node, &[u8]), SchemaFault>
    ensures { Gives (λ x. (place_counted x.0, x.1.now)) SchemaFault.NotASchema result (kinds_at (place_at names levels) names left bytes.now) }
{
    let (scalars, left, rest) = read_scalars(left, bytes).ok_or(SchemaFault::NotASchema)?;
    let (arrays, item, rest) = read_array(left, rest, levels, names, alloc)?;
    let left = left - one_if_some(arrays);
    let (objects, fields, rest) = read_object(left, rest, levels, names, alloc)?;
    place_of(left, scalars, arrays, item, objects, fields, rest)
}

/// The counter of arrays with their items, or 0.
#[cycle(read_place)]
fn read_array(
    left: u8,
    bytes: &[u8],
    levels: usize,
    names: u32,
    alloc: Global,
) -> Result<(u64, Option<Box<Node>>, &[u8]), SchemaFault>
    ensures gives { Gives (λ x. ((x.0, below_counted x.1), x.2.now)) SchemaFault.NotASchema result (array_at (place_at names levels) left bytes.now) }
    ensures counted { IfOk result (λ x. one_if_some x.0 ≤ left) }
{
    if !starts(ARRAY_TAG, left, bytes) {
        return Ok((0, None, bytes));
    }
    let (count, rest) = read_counter(&bytes[1..]).ok_or(SchemaFault::NotASchema)?;
    let (item, rest) = read_item(rest, levels, names, alloc)?;
    Ok((count, item, rest))
}

/// The items of an array, if there are any.
#[cycle(read_place)]
fn read_item(
    bytes: &[u8],
    levels: usize,
    names: u32,
    alloc: Global,
) -> Result<(Option<Box<Node>>, &[u8]), SchemaFault>
    ensures { Gives (λ x. (below_counted x.0, x.1.now)) SchemaFault.NotASchema result (item_at (place_at names levels) bytes.now) }
{
    let (flag, rest) = u8_at(bytes).ok_or(SchemaFault::NotASchema)?;
    if flag == 0 {
        return Ok((None, rest));
    }
    if flag != 1 {
        return Err(SchemaFault::NotASchema);
    }
    let (place, rest) = read_place(rest, levels, names, alloc)?;
    Ok((Some(Box::new(alloc, place)?), rest))
}

/// The counter of objects with their fields, or 0.
#[cycle(read_place)]
fn read_object(
    left: u8,
    bytes: &[u8],
    levels: usize,
    names: u32,
    alloc: Global,
) -> Result<(u64, Vec<Field>, &[u8]), SchemaFault>
    ensures gives { Gives (λ x. ((x.0, fields_counted x.1.items), x.2.now)) SchemaFault.NotASchema result (object_at (place_at names levels) names left bytes.now) }
    ensures counted { IfOk result (λ x. one_if_some x.0 ≤ left) }
{
    if !starts(OBJECT_TAG, left, bytes) {
        return Ok((0, Vec::new(alloc), bytes));
    }
    let (count, rest) = read_counter(&bytes[1..]).ok_or(SchemaFault::NotASchema)?;
    let (many, rest) = u32_at(rest).ok_or(SchemaFault::NotASchema)?;
    let (fields, rest) = read_fields(many, rest, levels, names, alloc)?;
    Ok((count, fields, rest))
}

/// So many fields, whose numbers ascend.
#[cycle(read_place)]
fn read_fields(
    many: u32,
    bytes: &[u8],
    levels: usize,
    names: u32,
    alloc: Global,
) -> Result<(Vec<Field>, &[u8]), SchemaFault>
    ensures { Gives (λ x. (fields_counted x.0.items, x.1.now)) SchemaFault.NotASchema result (fields_at (place_at names levels) names many 0 bytes.now) }
{
    let mut fields = Vec::new(alloc);
    let mut rest = bytes;
    let mut low = 0;
    for done in 0..many {
        let (number, after) = u32_at(rest).ok_or(SchemaFault::NotASchema)?;
        if number < low || number >= names {
            return Err(SchemaFault::NotASchema);
        }
        let (node, after) = read_place(after, levels, names, alloc)?;
        fields.push(Field {
            number,
            node: Box::new(alloc, node)?,
        })?;
        low = number + 1;
        rest = after;
    }
    Ok((fields, rest))
}

/// The place with what was read of it, where no further kind is to come, and what stands behind.
fn place_of(
    left: u8,
    scalars: Scalars,
    arrays: u64,
    item: Option<Box<Node>>,
    objects: u64,
    fields: Vec<Field>,
    rest: &[u8],
) -> Result<(Node, &[u8]), SchemaFault>
    requires { one_if_some objects ≤ left }
    ensures { Gives (λ x. (place_counted x.0, x.1.now)) SchemaFault.NotASchema result
        (place_ended left objects (record { nulls = scalars.nulls; booleans = scalars.booleans; integers = scalars.integers; texts = scalars.texts; arrays = arrays; objects = objects })
        (below_counted item) (fields_counted fields.items) rest.now) }
{
    if left != one_if_some(objects) {
        return Err(SchemaFault::NotASchema);
    }
    let counts = Counts::of(
        scalars.nulls,
        scalars.booleans,
        scalars.integers,
        scalars.texts,
        arrays,
        objects,
    )
    .ok_or(SchemaFault::NotASchema)?;
    Ok((
        Node {
            counts,
            item,
            fields,
        },
        rest,
    ))
}

/// The counters of the scalar kinds of a place. A kind that does not stand there has 0.
#[derive(Clone, Copy)]
struct Scalars {
    nulls: u64,
    booleans: u64,
    integers: u64,
    texts: u64,
}

/// The counters of the scalar kinds, how many kinds are to come behind them, and what stands there.
fn read_scalars(left: u8, bytes: &[u8]) -> Option<(Scalars, u8, &[u8])>
    ensures { (read : Reader Counted) (limit : ℕ) → option_and_then (λ x. arrays_at read limit x.1
        (record { nulls = x.0.nulls; booleans = x.0.booleans; integers = x.0.integers; texts = x.0.texts; arrays = 0; objects = 0 }) x.2.now) result
        ≡ kinds_at read limit left bytes.now }
{
    let (nulls, rest) = read_scalar(NULL_TAG, left, bytes)?;
    let left = left - one_if_some(nulls);
    let (booleans, rest) = read_scalar(BOOLEAN_TAG, left, rest)?;
    let left = left - one_if_some(booleans);
    let (integers, rest) = read_scalar(INTEGER_TAG, left, rest)?;
    let left = left - one_if_some(integers);
    let (texts, rest) = read_scalar(TEXT_TAG, left, rest)?;
    let left = left - one_if_some(texts);
    Some((
        Scalars {
            nulls,
            booleans,
            integers,
            texts,
        },
        left,
        rest,
    ))
}

/// A counter, which is not 0.
fn read_counter(bytes: &[u8]) -> Option<(u64, &[u8])>
    ensures { option_map (λ x. (x.0, x.1.now)) result ≡ counter_at bytes.now }
{
    let (count, rest) = u64_at(bytes)?;
    if count == 0 {
        return None;
    }
    Some((count, rest))
}

/// The counter of a scalar kind, or 0.
fn read_scalar(tag: u8, left: u8, bytes: &[u8]) -> Option<(u64, &[u8])>
    ensures gives { option_map (λ x. (x.0, x.1.now)) result ≡ scalar_at tag left bytes.now }
    ensures counted { IfSome result (λ x. one_if_some x.0 ≤ left) }
{
    if starts(tag, left, bytes) {
        read_counter(&bytes[1..])
    } else {
        Some((0, bytes))
    }
}
