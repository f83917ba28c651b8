//! The records of a document, with names and with numbers.

use serde_json::Value;
use std::alloc::Global;
use tc_bytes::Bytes;
use tc_compact::{compact, names_agree};
use tc_json::doc_of;
use tc_names::Names;
use tc_record::{RecordRef, encode, size};

/// The record of a document's text, with names. `None` where there is none, or memory was wanting.
pub(crate) fn named(alloc: Global, text: &str) -> Option<Bytes> {
    let doc = doc_of(alloc, &Value::from_str(alloc, text).ok()?).ok()?;
    match size(&doc) {
        Some(_len) => encode(alloc, &doc).ok(),
        None => None,
    }
}

/// The record with numbers of a short record with names, whose names are learnt.
pub(crate) fn numbered(alloc: Global, bytes: &[u8], names: &mut Names) -> Option<Bytes> {
    if bytes.len() >= 1_000_000 || names.len() >= 1_000_000 {
        return None;
    }
    let record = RecordRef::of(bytes)?;
    if !record.named() {
        return None;
    }
    names_agree();
    compact(alloc, record, names).ok()
}
