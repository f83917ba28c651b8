//! The text of a schema.

use crate::no_answer::NoAnswer;
use std::alloc::Global;
use std::str;
use tc_names::Names;
use tc_schema::Schema;

/// The text of a schema under a dictionary.
pub(crate) fn text_of_schema(
    alloc: Global,
    schema: &Schema,
    names: &Names,
) -> Result<String, NoAnswer> {
    let mut text = Vec::new(alloc);
    schema.put_text(alloc, names, &mut text)?;
    match str::from_utf8(text.as_slice()) {
        Ok(text) => Ok(String::from_str(alloc, text)?),
        Err(_fault) => Err(NoAnswer),
    }
}
