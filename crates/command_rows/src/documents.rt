//! Documents: read from JSON, written, measured, copied, compared and shaped.

use serde_json::Value;
use std::alloc::Global;
use tc_doc_reader::DocReader;
use tc_json::{JsonFault, doc_of, is_whole, text_of, value_of};
use tc_value::{Doc, Kind, MAX_DEPTH};

/// What a call on documents answers.
pub(crate) fn answer_of(alloc: Global, call: &str, argument: &str) -> Option<String> {
    match call {
        "document" => reading(alloc, argument),
        "read" => read(alloc, argument),
        "same" => same(alloc, argument),
        "tags" => tags(alloc),
        _ => answer_for(alloc, call, &document(alloc, argument)?),
    }
}

fn answer_for(alloc: Global, call: &str, doc: &Doc) -> Option<String> {
    match call {
        "depth" => depth(alloc, doc),
        "copy" => copy(alloc, doc),
        "shape" => shape(alloc, doc),
        _ => None,
    }
}

fn document(alloc: Global, text: &str) -> Option<Doc> {
    doc_of(alloc, &Value::from_str(alloc, text).ok()?).ok()
}

fn reading(alloc: Global, text: &str) -> Option<String> {
    judged(alloc, &Value::from_str(alloc, text).ok()?)
}

// Whether each number of a JSON value is whole, and the document that it means, or why it means none.
fn judged(alloc: Global, value: &Value) -> Option<String> {
    let whole = is_whole(value);
    match doc_of(alloc, value) {
        Ok(doc) => written(alloc, whole, value, &doc),
        Err(JsonFault::Memory) => None,
        Err(fault) => format!(in alloc; "{whole} {fault}\n").ok(),
    }
}

// Whether the document's JSON value is this one, and its text.
fn written(alloc: Global, whole: bool, value: &Value, doc: &Doc) -> Option<String> {
    let same = value_of(alloc, doc).ok()? == *value;
    let text = text_of(alloc, doc).ok()?;
    format!(in alloc; "{whole} {same} {}\n", text.as_str()).ok()
}

// The document that is read without a JSON value, or that this is left to others.
fn read(alloc: Global, text: &str) -> Option<String> {
    let mut reader = DocReader::new(alloc);
    match reader.read(alloc, text).ok()? {
        Some(doc) => read_as(alloc, &doc),
        None => String::from_str(alloc, "left\n").ok(),
    }
}

fn read_as(alloc: Global, doc: &Doc) -> Option<String> {
    let text = text_of(alloc, doc).ok()?;
    format!(in alloc; "read {}\n", text.as_str()).ok()
}

// The depth, and whether the document nests within 0, 1, 2 and 31.
fn depth(alloc: Global, doc: &Doc) -> Option<String> {
    if !doc.nests_within(MAX_DEPTH) {
        return None;
    }
    let within = [
        doc.nests_within(0),
        doc.nests_within(1),
        doc.nests_within(2),
        doc.nests_within(31),
    ];
    format!(in alloc; "{} {within:?}\n", doc.depth()).ok()
}

// Whether the copy is the same, and its text.
fn copy(alloc: Global, doc: &Doc) -> Option<String> {
    let copied = doc.copy(alloc).ok()?;
    let same = copied.same(doc);
    let text = text_of(alloc, &copied).ok()?;
    format!(in alloc; "{same} {}\n", text.as_str()).ok()
}

// Whether two documents, between them a space, are the same.
fn same(alloc: Global, texts: &str) -> Option<String> {
    let (first, second) = texts.split_once(' ')?;
    let same = document(alloc, first)?.same(&document(alloc, second)?);
    format!(in alloc; "{same}\n").ok()
}

// The copy of the document's shape.
fn shape(alloc: Global, doc: &Doc) -> Option<String> {
    let copied = doc.shape(alloc).ok()?.copy(alloc).ok()?;
    format!(in alloc; "{copied:?}\n").ok()
}

fn tags(alloc: Global) -> Option<String> {
    let scalars = [
        Kind::Null.tag(),
        Kind::Bool.tag(),
        Kind::Int.tag(),
        Kind::Text.tag(),
    ];
    let (array, object) = (Kind::Array.tag(), Kind::Object.tag());
    format!(in alloc; "{scalars:?} {array} {object}\n").ok()
}
