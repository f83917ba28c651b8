//! Components without entries whose schemas nest.

use std::alloc::Global;
use tc_rows::bytes;

// The gate and the header of generation 1 of partition 0 of 1 up to the lengths of its sections: no records, no
// entries, and 9 bytes of names.
const FRONT: &str = "\
    0154434331000000000000000100000000000000010000000000000001\
    000000000000000000000000000000000000000000000009";

// The name `a`, and an object with one field of this name.
const NAMES: &str = "000000010000000161";

const ROOT: &str = "0600000000000000010000000100000000";

// An array with items, and an integer.
const ARRAY: &str = "05000000000000000101";

const INTEGER: &str = "030000000000000001";

/// One in whose schema so many places stand one within another: the object, the arrays in it, and an integer.
pub(crate) fn nested(alloc: Global, argument: &str) -> Option<Vec<u8>> {
    let schema = schema(alloc, argument.parse::<u32>().ok()?)?;
    let length = schema.len() as u64;
    let names = bytes(alloc, NAMES)?;
    let mut file = bytes(alloc, FRONT)?;
    file.extend_from_slice(&length.to_be_bytes()).ok()?;
    file.extend_from_slice(&names).ok()?;
    file.extend_from_slice(&schema).ok()?;
    Some(file)
}

fn schema(alloc: Global, places: u32) -> Option<Vec<u8>> {
    let array = bytes(alloc, ARRAY)?;
    let integer = bytes(alloc, INTEGER)?;
    let mut schema = bytes(alloc, ROOT)?;
    for _array in 2..places {
        schema.extend_from_slice(&array).ok()?;
    }
    schema.extend_from_slice(&integer).ok()?;
    Some(schema)
}
