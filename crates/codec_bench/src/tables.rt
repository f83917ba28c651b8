//! Memory tables of the documents of standard input.

ghost use Rattle.std.specs.Prelude.{IfOk};
ghost use Rattle.tc_record.specs.StoredRecord.{IsStoredRecord};

use crate::rounds::record_of_document;
use anyhow::{Context, Result, bail};
use serde_json::{Map, Value};
use std::alloc::Global;
use std::collections::BTreeMap;
use std::sync::Arc;
use tc_bytes::Bytes;
use tc_json::doc_of;
use tc_memory::{Memtable, Sealed};
use tc_record::is_stored_record;
use tc_value::{Doc, Shape};

const MAX_KEY: u64 = 0x7fff_ffff_ffff_ffff;

/// One line: a document, whose key is its member `id`, or its place where it has none; or a key alone, whose document goes.
#[derive(Drop)]
enum Line {
    Written(u64, Doc),
    Gone(u64),
}

/// The tables, the oldest first. An empty line ends one. Each keeps the shapes of what the tables before it left.
pub(crate) fn tables_of(alloc: Global, text: &str) -> Result<Vec<Arc<Sealed>>> {
    let mut tables = Vec::new(alloc);
    let mut live = BTreeMap::new(alloc);
    for part in text.split("\n\n") {
        tables.push(Arc::new(alloc, table_of(alloc, part, &mut live)?)?)?;
    }
    Ok(tables)
}

fn table_of(alloc: Global, part: &str, live: &mut BTreeMap<u64, Doc>) -> Result<Sealed> {
    let mut table = Memtable::new(alloc);
    let mut lines = Vec::new(alloc);
    let mut place = 0u32;
    for text in part.lines() {
        let line = line_of(alloc, text, place)?;
        put_line(alloc, &mut table, &line, live)?;
        lines.push(line)?;
        place = place.wrapping_add(1);
    }
    for line in lines {
        match line {
            Line::Written(key, doc) => drop(live.insert(key, doc)?),
            Line::Gone(key) => drop(live.remove(&key)),
        }
    }
    Ok(table.seal())
}

fn put_line(
    alloc: Global,
    table: &mut Memtable,
    line: &Line,
    live: &BTreeMap<u64, Doc>,
) -> Result<()> {
    match line {
        Line::Written(key, doc) => put_document(alloc, table, *key, doc, live),
        Line::Gone(key) => put_gone(alloc, table, *key, live),
    }
}

fn put_document(
    alloc: Global,
    table: &mut Memtable,
    key: u64,
    doc: &Doc,
    live: &BTreeMap<u64, Doc>,
) -> Result<()> {
    if key > MAX_KEY {
        bail!("no key");
    }
    let below = shape_below(alloc, key, live)?;
    let bytes = stored(alloc, doc)?;
    Ok(table.upsert(key, bytes, below)?)
}

fn put_gone(
    alloc: Global,
    table: &mut Memtable,
    key: u64,
    live: &BTreeMap<u64, Doc>,
) -> Result<()> {
    if key > MAX_KEY {
        bail!("no key");
    }
    let below = shape_below(alloc, key, live)?;
    Ok(table.delete(key, below)?)
}

fn shape_below(alloc: Global, key: u64, live: &BTreeMap<u64, Doc>) -> Result<Option<Shape>> {
    match live.get(&key) {
        Some(doc) => Ok(Some(doc.shape(alloc)?)),
        None => Ok(None),
    }
}

fn stored(alloc: Global, doc: &Doc) -> Result<Bytes>
    ensures { IfOk result IsStoredRecord }
{
    let record = record_of_document(alloc, doc)?.context("no record spells the document")?;
    if !is_stored_record(record.as_slice()) {
        bail!("no table takes the document");
    }
    Ok(record)
}

fn line_of(alloc: Global, text: &str, place: u32) -> Result<Line> {
    match Value::from_str(alloc, text)? {
        Value::Object(mut members) => {
            let key = key_taken(&mut members).unwrap_or(u64::from(place));
            Ok(Line::Written(key, doc_of(alloc, &Value::Object(members))?))
        }
        other => Ok(Line::Gone(other.as_u64().context("no key")?)),
    }
}

fn key_taken(members: &mut Map<String, Value>) -> Option<u64> {
    let id = members.remove("id")?;
    id.as_u64()
}
