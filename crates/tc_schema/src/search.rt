//! Where the fields of a place stand.

ghost use Rattle.std.specs.Prelude.{IfOk, IfErr, map};
ghost use Rattle.tc_schema_model.specs.Counted.{AreFieldsOrdered};
ghost use Rattle.tc_schema.specs.Places.{field_counted, fields_counted};
ghost use Rattle.tc_schema.specs.Search.{IsPlaceOf, IsGapFor};

use crate::place::Field;

/// Where the field of a number stands, or where it would stand. Takes no memory.
pub fn search_fields(fields: &[Field], number: u32) -> Result<usize, usize>
    requires { AreFieldsOrdered 0 (fields_counted fields.now) }
    ensures found { IfOk result (λ i. IsPlaceOf number (map field_counted fields.now) i) }
    ensures missing { IfErr result (λ i. IsGapFor number (map field_counted fields.now) i) }
{
    fields.binary_search_by_key(&number, |field| field.number)
}
