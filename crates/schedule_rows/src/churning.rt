//! The schema after many writes, flushes and merges, and that of a store which got the live documents alone.

use crate::lines::scattered;
use crate::running::replies;
use std::alloc::Global;
use std::fmt::Write;
use std::sync::Wait;
use std::thread::Threads;
use tc_running::Free;

/// How many keys are written again and again.
const KEYS: usize = 24;

/// Values of all kinds, some of them nested.
const VALUES: [&str; 10] = [
    "null",
    "true",
    "7",
    "\"x\"",
    "[]",
    "{}",
    "[1,\"y\",{\"c\":null}]",
    "{\"d\":{\"e\":[2]}}",
    "[[],[[3]]]",
    "[{\"c\":1,\"d\":{}},{\"d\":[]}]",
];

const SCHEMA: &str = "{\"op\":\"schema\"}\n";

/// Whether the schema after so many upserts and deletes of a few keys, with flushes and merges, is that of a store which got
/// the documents alone that are live then.
pub(crate) fn is_that_of_live<R: AllocGlobal + Threads + Wait + Sync>(
    rt: &R,
    writes: u64,
) -> Option<bool> {
    let alloc = rt.alloc();
    let mut input = String::new(alloc);
    let live = push_writes(alloc, &mut input, writes)?;
    let often = "run --partitions 1 --memory 4096 --merge 2";
    let running = schema_after(rt, often, input)?;
    let plain = schema_after(rt, "run --partitions 1", live_alone(alloc, &live)?)?;
    let has_fields = plain.as_slice().starts_with(b"{\"schemas\":[{");
    Some(has_fields && running.as_slice() == plain.as_slice())
}

// Adds so many writes, and gives of each key the number of its document, if it is live after them.
fn push_writes(alloc: Global, input: &mut String, writes: u64) -> Option<Vec<Option<u64>>> {
    let mut live: Vec<Option<u64>> = Vec::new(alloc);
    live.resize(KEYS, None).ok()?;
    for at in 0..writes {
        let number = scattered(at);
        let key = (number >> 40) as usize % KEYS;
        let slot = live.get_mut(key)?;
        if (number >> 60) % 3 == 0 {
            *slot = None;
            write!(input, "{{\"op\":\"delete\",\"id\":{key}}}\n").ok()?;
        } else {
            *slot = Some(number);
            push_upsert(input, key, number)?;
        }
    }
    Some(live)
}

// The upserts of the live documents, in ascending key.
fn live_alone(alloc: Global, live: &[Option<u64>]) -> Option<String> {
    let mut input = String::new(alloc);
    let mut key = 0usize;
    for slot in live {
        if let Some(number) = slot {
            push_upsert(&mut input, key, *number)?;
        }
        key = key.wrapping_add(1);
    }
    Some(input)
}

// Adds a document of three members, whose kinds and whose third name the number decides.
fn push_upsert(input: &mut String, key: usize, number: u64) -> Option<()> {
    let first = value(number >> 8);
    let second = value(number >> 16);
    let third = value(number >> 24);
    let name = number % 4;
    write!(
        input,
        "{{\"op\":\"upsert\",\"doc\":{{\"id\":{key},\"a\":{first},\"b\":[{second}],\"n{name}\":{third}}}}}\n"
    )
    .ok()
}

fn value(number: u64) -> &'static str {
    VALUES.get((number % 10) as usize).copied().unwrap_or("0")
}

// The last line of a run for these words over this input, after which it is asked for its schema.
fn schema_after<R: AllocGlobal + Threads + Wait + Sync>(
    rt: &R,
    words: &str,
    mut input: String,
) -> Option<Vec<u8>> {
    input.push_str(SCHEMA).ok()?;
    let text = replies(rt, words, input.as_str(), Free)?;
    let mut start = 0;
    for (place, byte) in text.iter().enumerate() {
        if *byte == b'\n' && place + 1 < text.len() {
            start = place + 1;
        }
    }
    text.get(start..)?.to_vec(rt.alloc()).ok()
}
