//! Calls of the codec, each done so many times. A sum of what they answer keeps them from being left out.

use crate::forms::{compacted, expanded, means_the_same, packs_the_same, shapes_are_the_same};
use anyhow::{Result, bail};
use std::alloc::{AllocError, Global};
use tc_bytes::Bytes;
use tc_record::{Cursor, Piece, RecordFault, RecordRef, decode, encode, size};
use tc_value::Doc;

/// The record of a document, or `None` where it has none.
pub(crate) fn record_of_document(alloc: Global, doc: &Doc) -> Result<Option<Bytes>, AllocError> {
    match size(doc) {
        Some(_len) => Ok(Some(encode(alloc, doc)?)),
        None => Ok(None),
    }
}

/// Does a call by its name, on a document or on a record.
pub(crate) fn sum_of(
    alloc: Global,
    call: &str,
    doc: &Doc,
    bytes: &[u8],
    rounds: u32,
) -> Result<u64> {
    match call {
        "size" => Ok(sizes(doc, rounds)),
        "encode" => Ok(encoded(alloc, doc, rounds)?),
        "decode" => Ok(decoded(alloc, bytes, rounds)?),
        "check" => Ok(checked(bytes, rounds)),
        "cursor" => Ok(walked(bytes, rounds)),
        "again" => Ok(walked_again(bytes)),
        "compact" => Ok(compacted(alloc, bytes, rounds)?),
        "expand" => Ok(expanded(alloc, bytes)?),
        "same" => Ok(u64::from(decode(alloc, bytes)?.same(doc))),
        "pack" => agreed(call, packs_the_same(alloc, bytes)?),
        "document" => agreed(call, means_the_same(alloc, bytes)?),
        "shape" => agreed(call, shapes_are_the_same(alloc, bytes)?),
        other => bail!("no call {other}"),
    }
}

/// 1, where two ways to one answer agree.
fn agreed(call: &str, same: bool) -> Result<u64> {
    if same {
        Ok(1)
    } else {
        bail!("{call}: the answers differ")
    }
}

fn sizes(doc: &Doc, rounds: u32) -> u64 {
    let mut sum = 0u64;
    for _ in 0..rounds {
        if let Some(len) = size(doc) {
            sum = sum.wrapping_add(u64::from(len));
        }
    }
    sum
}

fn encoded(alloc: Global, doc: &Doc, rounds: u32) -> Result<u64, AllocError> {
    if size(doc).is_none() {
        return Ok(0);
    }
    let mut sum = 0u64;
    for _ in 0..rounds {
        let record = encode(alloc, doc)?;
        if let Some(last) = record.as_slice().last() {
            sum = sum.wrapping_add(u64::from(*last));
        }
    }
    Ok(sum)
}

fn decoded(alloc: Global, bytes: &[u8], rounds: u32) -> Result<u64, RecordFault> {
    let mut sum = 0u64;
    for _ in 0..rounds {
        if let Doc::Object(members) = decode(alloc, bytes)? {
            sum = sum.wrapping_add(members.as_slice().len() as u64);
        }
    }
    Ok(sum)
}

/// Asks whether the bytes are a record.
fn checked(bytes: &[u8], rounds: u32) -> u64 {
    let mut sum = 0u64;
    for _ in 0..rounds {
        if RecordRef::of(bytes).is_some() {
            sum = sum.wrapping_add(1);
        }
    }
    sum
}

/// Walks over the tokens of a record, which is looked at as a whole but once.
fn walked(bytes: &[u8], rounds: u32) -> u64 {
    let Some(record) = RecordRef::of(bytes) else {
        return 0;
    };
    let mut sum = 0u64;
    for _ in 0..rounds {
        sum = sum.wrapping_add(walked_once(record.cursor(), bytes.len()));
    }
    sum
}

/// Borrows a record that is known to be one a second time, and walks over it with a second cursor.
fn walked_again(bytes: &[u8]) -> u64 {
    let Some(record) = RecordRef::of(bytes) else {
        return 0;
    };
    let again = RecordRef::known(record.bytes()).again();
    walked_once(again.cursor().again(), bytes.len())
}

fn walked_once(start: Cursor<'_>, len: usize) -> u64 {
    let mut cursor = start;
    let mut sum = 0u64;
    for _ in 0..len {
        match cursor.next() {
            None => break,
            Some(token) => sum = sum.wrapping_add(weight(token.value)),
        }
    }
    sum
}

fn weight(piece: Piece<'_>) -> u64 {
    match piece {
        Piece::Int(value) => value.cast_unsigned(),
        Piece::Text(text) => text.len() as u64,
        Piece::Bool(value) => u64::from(value),
        _ => 1,
    }
}
