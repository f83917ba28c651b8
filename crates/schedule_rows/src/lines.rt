//! Lines of runs.

use std::alloc::Global;
use std::fmt::Write;

/// Upserts of documents of some 500 bytes, one for each key below this, and a get of the first one.
pub(crate) fn upserts_and_get(alloc: Global, keys: u32) -> Option<String> {
    let mut input = String::new(alloc);
    for key in 0..keys {
        push_upsert(&mut input, u64::from(key), 480)?;
    }
    push_get(&mut input, 0)?;
    Some(input)
}

/// So many lines about a thousand keys: upserts, deletes, gets, and now and then a query or a flush.
pub(crate) fn mixed(alloc: Global, lines: u64) -> Option<String> {
    let mut input = String::new(alloc);
    for at in 0..lines {
        push_mixed(&mut input, scattered(at))?;
    }
    Some(input)
}

/// A number that looks like any other, of a number.
pub(crate) fn scattered(of: u64) -> u64 {
    let mut number = of.wrapping_add(0x9E37_79B9_7F4A_7C15);
    number = (number ^ (number >> 30)).wrapping_mul(0xBF58_476D_1CE4_E5B9);
    number = (number ^ (number >> 27)).wrapping_mul(0x94D0_49BB_1331_11EB);
    number ^ (number >> 31)
}

fn push_mixed(input: &mut String, chance: u64) -> Option<()> {
    let key = (chance >> 16) % 1_000;
    match chance % 256 {
        0 => input.push_str("{\"op\":\"flush\"}\n").ok(),
        1 => input
            .push_str("{\"op\":\"query\",\"path\":[\"n\"],\"eq\":7}\n")
            .ok(),
        2..=31 => write!(input, "{{\"op\":\"delete\",\"id\":{key}}}\n").ok(),
        32..=95 => push_get(input, key),
        _ => push_upsert(input, key, (chance >> 40) % 200),
    }
}

fn push_get(input: &mut String, key: u64) -> Option<()> {
    write!(input, "{{\"op\":\"get\",\"id\":{key}}}\n").ok()
}

/// Adds an upsert of a document with a number.
pub(crate) fn push_number(input: &mut String, key: u64, number: u64) -> Option<()> {
    write!(
        input,
        "{{\"op\":\"upsert\",\"doc\":{{\"id\":{key},\"n\":{number}}}}}\n"
    )
    .ok()
}

// An upsert of a document with so long a text.
fn push_upsert(input: &mut String, key: u64, long: u64) -> Option<()> {
    let number = long % 10;
    write!(
        input,
        "{{\"op\":\"upsert\",\"doc\":{{\"id\":{key},\"n\":{number},\"text\":\""
    )
    .ok()?;
    for _ in 0..long {
        input.push('x').ok()?;
    }
    input.push_str("\"}}\n").ok()
}
