//! The first fields of two lists that ascend by number.

ghost use Rattle.std.specs.Prelude.{◌≡◌};
ghost use Rattle.tc_schema_model.specs.Counted.{nothing};
ghost use Rattle.tc_schema.specs.Places.{place_counted, fields_counted};
ghost use Rattle.tc_difference.specs.Fronts.{front_of, lesser, place_in_front, after_front};

use tc_schema::{Field, Node};

/// The least number with which one of the two begins, or `None` where both are empty.
pub fn next_number(kept: &[Field], counted: &[Field]) -> Option<u32>
    ensures { result ≡ lesser (front_of (fields_counted kept.now)) (front_of (fields_counted counted.now)) }
{
    lesser(first_number(kept), first_number(counted))
}

fn first_number(fields: &[Field]) -> Option<u32>
    ensures { result ≡ front_of (fields_counted fields.now) }
{
    match fields.first() {
        Some(field) => Some(field.number),
        None => None,
    }
}

fn lesser(one: Option<u32>, other: Option<u32>) -> Option<u32>
    ensures { result ≡ lesser one other }
{
    match one {
        None => other,
        Some(number) => match other {
            None => Some(number),
            Some(second) => Some(number.min(second)),
        },
    }
}

/// The place of the first field if it has the number, and else the empty place.
pub fn place_in_front<'a>(fields: &'a [Field], number: u32, empty: &'a Node) -> &'a Node
    requires { place_counted empty.now ≡ nothing }
    ensures { place_counted result.now ≡ place_in_front number (fields_counted fields.now) }
{
    match fields.first() {
        Some(field) => {
            if field.number == number {
                &field.node
            } else {
                empty
            }
        }
        None => empty,
    }
}

/// The fields after the first one if it has the number, and else all of them.
pub fn after_front(fields: &[Field], number: u32) -> &[Field]
    ensures { fields_counted result.now ≡ after_front number (fields_counted fields.now) }
{
    match fields.split_first() {
        Some((field, rest)) => { if field.number == number { rest } else { fields } }
        None => fields,
    }
}
