//! Calls on a component that was loaded.

ghost use Rattle.std.specs.Prelude.{◌<◌, length};

use crate::desk::{Desk, Hand};
use crate::faults::read_fault;
use std::alloc::Global;
use std::fmt::Write;
use tc_bytes::Bytes;
use tc_component::{Component, Found};
use tc_rows::{digits, word};
use tc_store::{MemFrozen, MemWatch, ReadFault};

/// What a call answers.
pub(crate) fn answer_of(
    alloc: Global,
    desk: &mut Desk,
    component: Component<MemFrozen>,
    name: &str,
    argument: &str,
) -> Option<String> {
    if name == "file" {
        desk.hold(Hand::Still(component.into_file()));
        return word(alloc, "ok");
    }
    let answer = asked(alloc, &mut desk.reader, &component, name, argument);
    desk.hold(Hand::Loaded(component));
    answer
}

fn asked(
    alloc: Global,
    watch: &mut MemWatch,
    component: &Component<MemFrozen>,
    name: &str,
    argument: &str,
) -> Option<String> {
    let key = argument.parse::<u64>().ok()?;
    match name {
        "find" => found(alloc, component.find(key)),
        "fetch" => fetched(alloc, watch, component, key),
        _ => None,
    }
}

fn found(alloc: Global, found: Found) -> Option<String> {
    match found {
        Found::Absent => word(alloc, "absent"),
        Found::Gone => word(alloc, "gone"),
        Found::At(place) => format!(in alloc; "at {}", place.at).ok(),
    }
}

// The record of a key, or what there is of it.
fn fetched(
    alloc: Global,
    watch: &mut MemWatch,
    component: &Component<MemFrozen>,
    key: u64,
) -> Option<String> {
    match component.find(key) {
        Found::Absent => word(alloc, "absent"),
        Found::Gone => word(alloc, "gone"),
        Found::At(place) => record(alloc, component.fetch(alloc, place, watch)),
    }
}

fn record(alloc: Global, fetched: Result<Bytes, ReadFault>) -> Option<String> {
    match fetched {
        Ok(bytes) => digits(alloc, bytes.as_slice()),
        Err(fault) => read_fault(alloc, fault),
    }
}

/// Which component it is, its entries, the places of its sections and its length, and the bytes of both sections.
pub(crate) fn shown(alloc: Global, component: &Component<MemFrozen>) -> Option<String> {
    let head = component.head();
    let mut text = format!(in alloc; "{head:?}").ok()?;
    for at in 0..component.len() {
        push_entry(&mut text, component, at)?;
    }
    let (names_at, schema_at) = (component.names_at(), component.schema_at());
    let names = component.names().to_bytes(alloc).ok()?;
    let schema = component.schema(alloc).ok()?.to_bytes(alloc).ok()?;
    let (names, schema) = (
        hex::encode(alloc, names.as_slice()).ok()?,
        hex::encode(alloc, schema.as_slice()).ok()?,
    );
    write!(text, ", names at {names_at} {}", names.as_str()).ok()?;
    write!(text, ", schema at {schema_at} {}", schema.as_str()).ok()?;
    write!(text, ", end at {}", component.file_len()).ok()?;
    Some(text)
}

// The key of an entry, and where it stands or that it is gone.
fn push_entry(text: &mut String, component: &Component<MemFrozen>, at: usize) -> Option<()>
    requires { at < length component.now.index.slots }
{
    let entry = component.entry(at);
    match entry.place {
        Some(place) => write!(text, ", {} at {}", entry.key, place.at).ok(),
        None => write!(text, ", {} gone", entry.key).ok(),
    }
}
