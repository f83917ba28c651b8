//! Calls that turn forms of a record into one another.

use std::alloc::Global;
use tc_bytes::{Bytes, Memory};
use tc_compact::{compact, document_of, expand, expanded_size, names_agree, shape_of};
use tc_names::Names;
use tc_record::{PACKED_FORM, RecordFault, RecordRef, decode};

/// The record of form 2, or nothing where the bytes are no short record of form 0.
fn form_of_numbers(
    alloc: Global,
    bytes: &[u8],
    names: &mut Names,
) -> Result<Option<Bytes>, Memory> {
    if bytes.len() >= 1_000_000 || names.len() >= 1_000_000 {
        return Ok(None);
    }
    let Some(record) = RecordRef::of(bytes) else {
        return Ok(None);
    };
    if !record.named() {
        return Ok(None);
    }
    names_agree();
    Ok(Some(compact(alloc, record, names)?))
}

/// The lengths of the records of form 2, added up.
pub(crate) fn compacted(alloc: Global, bytes: &[u8], rounds: u32) -> Result<u64, Memory> {
    let mut names = Names::new(alloc);
    let mut sum = 0u64;
    for _ in 0..rounds {
        if let Some(numbered) = form_of_numbers(alloc, bytes, &mut names)? {
            sum = sum.wrapping_add(numbered.as_slice().len() as u64);
        }
    }
    Ok(sum)
}

/// The length of what the record of form 2 expands to, or 0 where that is not the record.
pub(crate) fn expanded(alloc: Global, bytes: &[u8]) -> Result<u64, RecordFault> {
    let mut names = Names::new(alloc);
    let Some(numbered) = form_of_numbers(alloc, bytes, &mut names)? else {
        return Ok(0);
    };
    let named = expand(alloc, numbered.as_slice(), &names)?;
    if named.as_slice() == bytes {
        Ok(named.as_slice().len() as u64)
    } else {
        Ok(0)
    }
}

/// Whether the record of form 2 is one, is no longer than the record of form 0, and expands to it, as long as was told before.
pub(crate) fn packs_the_same(alloc: Global, bytes: &[u8]) -> Result<bool, RecordFault> {
    let mut names = Names::new(alloc);
    let Some(packed) = form_of_numbers(alloc, bytes, &mut names)? else {
        return Ok(false);
    };
    let Some(again) = RecordRef::of(packed.as_slice()) else {
        return Ok(false);
    };
    if again.form() != PACKED_FORM || again.named() {
        return Ok(false);
    }
    let expands = match expanded_size(again, &names) {
        Some(len) => len as usize == bytes.len(),
        None => false,
    };
    let named = expand(alloc, packed.as_slice(), &names)?;
    let shorter = packed.as_slice().len() <= bytes.len();
    Ok(expands && shorter && named.as_slice() == bytes)
}

/// Whether a record of form 2 has the document that it has when it is expanded, and the counts of the record of form 0.
pub(crate) fn means_the_same(alloc: Global, bytes: &[u8]) -> Result<bool, RecordFault> {
    let mut names = Names::new(alloc);
    let Some(numbered) = form_of_numbers(alloc, bytes, &mut names)? else {
        return Ok(false);
    };
    let Some(record) = RecordRef::of(numbered.as_slice()) else {
        return Ok(false);
    };
    let Some(named) = RecordRef::of(bytes) else {
        return Ok(false);
    };
    let counts = record.token_count() == named.token_count()
        && record.member_count() == named.member_count();
    let expanded = expand(alloc, numbered.as_slice(), &names)?;
    let doc = decode(alloc, expanded.as_slice())?;
    Ok(counts && document_of(alloc, record, &names)?.same(&doc))
}

/// Whether records of both forms have the shape of the decoded document.
pub(crate) fn shapes_are_the_same(alloc: Global, bytes: &[u8]) -> Result<bool, RecordFault> {
    let mut names = Names::new(alloc);
    let Some(numbered) = form_of_numbers(alloc, bytes, &mut names)? else {
        return Ok(false);
    };
    let Some(record) = RecordRef::of(numbered.as_slice()) else {
        return Ok(false);
    };
    let Some(named) = RecordRef::of(bytes) else {
        return Ok(false);
    };
    let wanted = format!(in alloc; "{:?}", decode(alloc, bytes)?.shape(alloc)?)?;
    // A copy keeps its names as a decoded document does.
    let of_named = format!(in alloc; "{:?}", shape_of(alloc, named, &names)?.copy(alloc)?)?;
    let of_numbered = format!(in alloc; "{:?}", shape_of(alloc, record, &names)?.copy(alloc)?)?;
    Ok(of_named == wanted && of_numbered == wanted)
}
