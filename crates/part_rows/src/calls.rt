//! Writes that are staged, queries, and runs of components that are merged.

ghost use Rattle.std.specs.Prelude.{IfSome};
ghost use Rattle.part_rows.specs.Waiting.{IsShortWrite};

use crate::desk::Desk;
use std::alloc::Global;
use tc_bytes::Bytes;
use tc_command::{Command, parse};
use tc_list::Run;
use tc_log::{MAX_NUMBER, Write};
use tc_record::is_stored_record;
use tc_rows::{number_and_bytes, numbers};

// The bytes of a record, at most.
const MOST: usize = 65_536;

/// Stages the upsert of a key, with the bytes of a record.
pub(crate) fn put(alloc: Global, desk: &mut Desk, argument: &str) -> Option<String> {
    let write = upsert(alloc, argument)?;
    desk.stage(alloc, write)
}

/// Stages the delete of a key.
pub(crate) fn delete(alloc: Global, desk: &mut Desk, argument: &str) -> Option<String> {
    let write = deletion(argument)?;
    desk.stage(alloc, write)
}

/// Asks for rows, by the line of a query.
pub(crate) fn query(alloc: Global, desk: &mut Desk, argument: &str) -> Option<String> {
    match parse(alloc, argument.as_bytes()) {
        Ok(Command::Query(ask)) => desk.query(alloc, &ask),
        _ => None,
    }
}

/// Merges a run of components: the places of its first and of its last one.
pub(crate) fn merge(alloc: Global, desk: &mut Desk, argument: &str) -> Option<String> {
    let places = numbers(alloc, argument)?;
    let [first, last] = places.as_slice() else {
        return None;
    };
    let first = usize::try_from(*first).ok()?;
    let last = usize::try_from(*last).ok()?;
    desk.merge(alloc, Run { first, last })
}

fn upsert(alloc: Global, argument: &str) -> Option<Write>
    ensures { IfSome result IsShortWrite }
{
    let (key, bytes) = number_and_bytes(alloc, argument)?;
    if key > MAX_NUMBER || bytes.len() > MOST || !is_stored_record(&bytes) {
        return None;
    }
    let bytes = Bytes::of(bytes);
    Some(Write::Upsert { key, bytes })
}

fn deletion(argument: &str) -> Option<Write>
    ensures { IfSome result IsShortWrite }
{
    let key = argument.parse::<u64>().ok()?;
    if key > MAX_NUMBER {
        return None;
    }
    Some(Write::Delete { key })
}
