//! Two places are compared, with all that is below them.

ghost use Rattle.std.specs.Prelude.{◌≡◌, ◌+◌, ◌<◌, length, bytes_eq, IfOk};
ghost use Rattle.std.specs.List.{IsDistinct};
ghost use Rattle.tc_schema_model.specs.Counted.{nothing, held, Fields, field_at, IsCanonical, IsBelowCanonical, AreFieldsCanonical};
ghost use Rattle.tc_schema.specs.Places.{place_counted, below_counted, fields_counted};
ghost use Rattle.tc_difference.specs.Comparing.{IsCompared, IsLeastBelow, is_before, is_wanted};
ghost use Rattle.tc_schema_model.specs.SchemaText.{name_at};

use crate::fronts::{after_front, next_number, place_in_front};
use crate::kinds::first_kind;
use crate::met::{Candidate, Met, Way};
use std::alloc::{AllocError, Global};
use tc_names::Names;
use tc_schema::{Field, Node};

/// The first difference between two places: their counters, then what is below their items, and then of the fields that
/// differ that of the least name. Its steps are pushed on the way back, so that each place is compared once, however
/// deep a difference lies. The calls nest as deep as the shallower of the two schemas does, and a schema nests as deep as
/// its bytes say. `empty` stands where only one of the two has a place.
#[cycle(comparing)]
pub fn compare(
    kept: &Node,
    counted: &Node,
    empty: &Node,
    names: &Names,
    alloc: Global,
) -> Result<Option<Met>, AllocError>
    requires kept { IsCanonical (length names.now) (place_counted kept.now) }
    requires counted { IsCanonical (length names.now) (place_counted counted.now) }
    requires empty { place_counted empty.now ≡ nothing }
    requires distinct { IsDistinct bytes_eq names.now }
    ensures { IfOk result (IsCompared names.now (place_counted kept.now) (place_counted counted.now)) }
{
    if let Some(kind) = first_kind(&kept.counts, &counted.counts) {
        return Ok(Some(Met {
            back: Vec::new(alloc),
            kind,
            kept: kept.counts.of_kind(kind),
            counted: counted.counts.of_kind(kind),
        }));
    }
    if let Some(met) = compare_items(&kept.item, &counted.item, empty, names, alloc)? {
        return Ok(Some(met.stepped(Way::Item)?));
    }
    match compare_fields(
        kept.fields.as_slice(),
        counted.fields.as_slice(),
        empty,
        names,
        alloc,
    )? {
        Some(least) => Ok(Some(least.met.stepped(Way::Field(least.number))?)),
        None => Ok(None),
    }
}

#[cycle(comparing)]
fn compare_items(
    kept: &Option<Box<Node>>,
    counted: &Option<Box<Node>>,
    empty: &Node,
    names: &Names,
    alloc: Global,
) -> Result<Option<Met>, AllocError>
    requires kept { IsBelowCanonical (length names.now) (below_counted kept.now) }
    requires counted { IsBelowCanonical (length names.now) (below_counted counted.now) }
    requires empty { place_counted empty.now ≡ nothing }
    requires distinct { IsDistinct bytes_eq names.now }
    ensures { IfOk result (IsCompared names.now (held (below_counted kept.now)) (held (below_counted counted.now))) }
{
    if kept.is_none() && counted.is_none() {
        return Ok(None);
    }
    compare(
        place_or(kept, empty),
        place_or(counted, empty),
        empty,
        names,
        alloc,
    )
}

fn place_or<'a>(item: &'a Option<Box<Node>>, empty: &'a Node) -> &'a Node
    requires { place_counted empty.now ≡ nothing }
    ensures { place_counted result.now ≡ held (below_counted item.now) }
{
    match item {
        Some(place) => place,
        None => empty,
    }
}

/// Of the fields that differ that of the least name, with the first difference below it.
#[cycle(comparing)]
fn compare_fields(
    kept: &[Field],
    counted: &[Field],
    empty: &Node,
    names: &Names,
    alloc: Global,
) -> Result<Option<Candidate>, AllocError>
    requires kept { AreFieldsCanonical (length names.now) 0 (fields_counted kept.now) }
    requires counted { AreFieldsCanonical (length names.now) 0 (fields_counted counted.now) }
    requires empty { place_counted empty.now ≡ nothing }
    requires distinct { IsDistinct bytes_eq names.now }
    ensures { IfOk result (IsLeastBelow names.now (length names.now) (fields_counted kept.now) (fields_counted counted.now)) }
{
    let mut least = None;
    let mut ones = kept;
    let mut others = counted;
    while let Some(number) = next_number(ones, others) {
        let one = place_in_front(ones, number, empty);
        let other = place_in_front(others, number, empty);
        least = lesser_of(one, other, number, least, empty, names, alloc)?;
        ones = after_front(ones, number);
        others = after_front(others, number);
    }
    Ok(least)
}

/// Of the candidate and the field of a number that which has the lesser name, if the field differs. A field whose name
/// comes after that of the candidate is not looked into.
#[cycle(comparing)]
fn lesser_of(
    kept: &Node,
    counted: &Node,
    number: u32,
    least: Option<Candidate>,
    empty: &Node,
    names: &Names,
    alloc: Global,
) -> Result<Option<Candidate>, AllocError>
    requires kept { IsCanonical (length names.now) (place_counted kept.now) }
    requires counted { IsCanonical (length names.now) (place_counted counted.now) }
    requires empty { place_counted empty.now ≡ nothing }
    requires distinct { IsDistinct bytes_eq names.now }
    ensures { IfOk result (λ next. (fs gs : Fields) → field_at number fs ≡ place_counted kept.now → field_at number gs ≡ place_counted counted.now
        → IsLeastBelow names.now number fs gs least → IsLeastBelow names.now (number + 1) fs gs next) }
{
    if !is_wanted(&least, number, names) {
        return Ok(least);
    }
    match compare(kept, counted, empty, names, alloc)? {
        Some(met) => Ok(Some(Candidate { number, met })),
        None => Ok(least),
    }
}

/// Whether a field of this number would take the place of the candidate.
fn is_wanted(least: &Option<Candidate>, number: u32, names: &Names) -> bool
    ensures { result ≡ is_wanted names.now number least.now }
{
    match least {
        Some(candidate) => is_before(names, number, candidate.number),
        None => true,
    }
}

/// Whether the name of a number comes before that of another.
fn is_before(names: &Names, one: u32, other: u32) -> bool
    ensures { result ≡ is_before names.now one other }
{
    name_at(names, one).cmp(name_at(names, other)).is_lt()
}

fn name_at(names: &Names, number: u32) -> &str
    ensures { result.now ≡ name_at names.now number }
{
    names.name_of(number).unwrap_or("")
}
