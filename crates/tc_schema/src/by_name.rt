//! The fields of an object in the order of their names.

ghost use Rattle.std.specs.Prelude.{◌≡◌, ◌<◌, All, IfOk, length, map};
ghost use Rattle.std.specs.List.{range_with_len};
ghost use Rattle.tc_schema_model.specs.SchemaTree.{field_nodes_of};
ghost use Rattle.tc_schema_model.specs.SchemaText.{name_at, fields_text};
ghost use Rattle.tc_schema.specs.Places.{field_counted, fields_counted};
ghost use Rattle.tc_schema.specs.Ordered.{name_in, members_in_order};

use crate::place::Field;
use std::alloc::{AllocError, Global};
use tc_names::Names;

/// The places of fields among all, in the byte order of their names. Of fields with one name, as of numbers without a name,
/// the first alone is there. Errs only for want of memory.
pub fn places_by_name(
    fields: &[Field],
    names: &Names,
    alloc: Global,
) -> Result<Vec<usize>, AllocError>
    ensures members { IfOk result (λ places. members_in_order names.now (map field_counted fields.now) places.items ≡ fields_text names.now (field_nodes_of (fields_counted fields.now))) }
    ensures inside { IfOk result (λ places. All (λ place. place < length fields.now) places.items) }
{
    let mut places = all_places(fields.len(), alloc)?;
    places.sort_by(|a, b| name_in(fields, *a, names).cmp(name_in(fields, *b, names)))?;
    places.dedup_by(|a, b| name_in(fields, *a, names) == name_in(fields, *b, names));
    Ok(places)
}

fn all_places(count: usize, alloc: Global) -> Result<Vec<usize>, AllocError>
    ensures { IfOk result (λ places. places.items ≡ range_with_len 0 count) }
{
    let mut places = Vec::with_capacity(alloc, count)?;
    for place in 0..count {
        places.push(place)?;
    }
    Ok(places)
}

// The name of the field at a place, and the empty one behind the last field.
fn name_in<'a>(fields: &[Field], place: usize, names: &'a Names) -> &'a str
    ensures { result.now ≡ name_in names.now (map field_counted fields.now) place }
{
    match fields.get(place) {
        Some(field) => name_of(field.number, names),
        None => "",
    }
}

/// The name of a number. A number without a name has the empty name.
pub fn name_of(number: u32, names: &Names) -> &str
    ensures { result.now ≡ name_at names.now number }
{
    match names.name_of(number) {
        Some(name) => name,
        None => "",
    }
}
