//! The counters of a schema by paths.

ghost use Rattle.std.specs.Prelude.{◌≡◌, IfSome, IfNone, ◌∷◌, []};
ghost use Rattle.tc_schema_model.specs.Counted.{nothing, shows, place_at, field_at, numbered_field, AreFieldsOrdered, IsOrdered};
ghost use Rattle.tc_model.specs.Dictionary.{number_of};
ghost use Rattle.tc_schema.specs.Paths.{step_meant, path_meant};
ghost use Rattle.tc_value.specs.Kinds.{kind_meant};
ghost use Rattle.tc_schema.specs.Places.{place_counted, fields_counted};

use crate::place::{Field, Node};
use crate::search::search_fields;
use tc_names::Names;
use tc_value::{Kind, Step};

/// The counter for a kind at a path from a place on, or 0 where nothing is counted there. Takes no memory.
pub fn count_from(place: &Node, names: &Names, path: &[Step], kind: Kind) -> u64
    requires { IsOrdered (place_counted place.now) }
    ensures { result ≡ shows names.now (place_counted place.now) (path_meant path.now) (kind_meant kind) }
{
    let mut here = place;
    for step in path {
        match inside(here, names, step) {
            Some(next) => here = next,
            None => return 0,
        }
    }
    here.counts.of_kind(kind)
}

/// The place that a step leads to.
fn inside<'a>(place: &'a Node, names: &Names, step: &Step) -> Option<&'a Node>
    requires { IsOrdered (place_counted place.now) }
    ensures there { IfSome result (λ next. place_counted next.now ≡ place_at names.now (place_counted place.now) (step_meant step.now ∷ [])) }
    ensures ordered { IfSome result (λ next. IsOrdered (place_counted next.now)) }
    ensures none { IfNone result (place_at names.now (place_counted place.now) (step_meant step.now ∷ []) ≡ nothing) }
{
    match step {
        Step::Item => match &place.item {
            Some(next) => Some(next),
            None => None,
        },
        Step::Field(name) => field_named(place.fields.as_slice(), names, name.as_str()),
    }
}

/// The place of the members of a name, or `None` where there is none. Takes no memory.
pub fn field_named<'a>(fields: &'a [Field], names: &Names, name: &str) -> Option<&'a Node>
    requires { AreFieldsOrdered 0 (fields_counted fields.now) }
    ensures there { IfSome result (λ next. place_counted next.now ≡ numbered_field (number_of names.now name.now) (fields_counted fields.now)) }
    ensures ordered { IfSome result (λ next. IsOrdered (place_counted next.now)) }
    ensures none { IfNone result (numbered_field (number_of names.now name.now) (fields_counted fields.now) ≡ nothing) }
{
    match names.id_of(name) {
        Some(number) => field_numbered(fields, number),
        None => None,
    }
}

fn field_numbered(fields: &[Field], number: u32) -> Option<&Node>
    requires { AreFieldsOrdered 0 (fields_counted fields.now) }
    ensures there { IfSome result (λ next. place_counted next.now ≡ field_at number (fields_counted fields.now)) }
    ensures ordered { IfSome result (λ next. IsOrdered (place_counted next.now)) }
    ensures none { IfNone result (field_at number (fields_counted fields.now) ≡ nothing) }
{
    match search_fields(fields, number) {
        Ok(at) => Some(&fields[at].node),
        Err(_) => None,
    }
}
