//! The bytes of names and schemas.

use crate::kept::Kept;
use crate::no_answer::NoAnswer;
use crate::texts::text_of_schema;
use std::alloc::Global;
use tc_names::Names;
use tc_schema::Schema;

/// Threads may share it, and hand it on.
fn share<T: Send + Sync>(_value: &T) {}

/// The bytes of copies of the names and of the schema, and what is read from them again.
pub(crate) fn shown(alloc: Global, kept: Kept) -> Result<(Kept, String), NoAnswer> {
    let names = kept.names.copy()?.to_bytes(alloc)?;
    let schema = kept.schema.copy(alloc)?.to_bytes(alloc)?;
    let text = text_of(alloc, names.as_slice(), schema.as_slice())?;
    let names = hex::encode(alloc, names.as_slice())?;
    let schema = hex::encode(alloc, schema.as_slice())?;
    let answer = format!(in alloc; "{} {} {}", names.as_str(), schema.as_str(), text.as_str())?;
    Ok((kept, answer))
}

// The text of the schema that the bytes spell, and the number of `a`.
fn text_of(alloc: Global, names: &[u8], schema: &[u8]) -> Result<String, NoAnswer> {
    let Ok(names) = Names::from_bytes(alloc, names) else {
        return Err(NoAnswer);
    };
    let Ok(schema) = Schema::from_bytes(alloc, schema, names.len()) else {
        return Err(NoAnswer);
    };
    share(&names);
    share(&schema);
    let text = text_of_schema(alloc, &schema, &names)?;
    let number = names.id_of("a");
    Ok(format!(in alloc; "{} {number:?}", text.as_str())?)
}
