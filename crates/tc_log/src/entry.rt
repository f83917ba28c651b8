//! The entries of a frame's body.

ghost use Rattle.std.specs.Prelude.{◌≡◌, option_map, IfOk, Some, None, if◌then◌else◌};
ghost use Rattle.tc_log.specs.Reading.{is_key, record_at, held_at, fields_at, body_read};
ghost use Rattle.std.specs.Int.{w64};
ghost use Rattle.tc_bytes.specs.Reading.{number_at, passing_at};
ghost use Rattle.tc_log.specs.Writes.{write_of};

use crate::layout::{DELETE, MAX_NUMBER, UPSERT};
use crate::write::Write;
use std::alloc::Global;
use tc_bytes::{Bytes, Memory, slice_at, u8_at, u32_at, u64_at};
use tc_record::is_stored_record;

/// So many writes more, if they are spelled by the body and nothing is left of it.
pub(crate) fn body_in(
    alloc: Global,
    count: u32,
    body: &[u8],
    writes: &mut Vec<Write>,
) -> Result<bool, Memory>
    ensures { IfOk result (λ found. (if found then Some writes.new.items else None) ≡ body_read count writes.old.items body.now) }
{
    let mut rest = body;
    for _ in 0..count {
        let Some((key, record, behind)) = fields_in(rest) else {
            return Ok(false);
        };
        writes.push(owned(alloc, key, record)?)?;
        rest = behind;
    }
    Ok(rest.is_empty())
}

fn owned(alloc: Global, key: u64, held: Option<&[u8]>) -> Result<Write, Memory>
    ensures { IfOk result (λ write. write ≡ write_of (key, option_map (λ r. r.now) held.entry)) }
{
    match held {
        Some(bytes) => Ok(Write::Upsert {
            key,
            bytes: Bytes::of(Vec::from_slice(alloc, bytes)?),
        }),
        None => Ok(Write::Delete { key }),
    }
}

/// The key of an entry, and its record, if it is an upsert.
fn fields_in(bytes: &[u8]) -> Option<(u64, Option<&[u8]>, &[u8])>
    ensures { option_map (λ x. ((x.0, option_map (λ r. r.now) x.1), x.2.now)) result ≡ fields_at bytes.now }
{
    let (key, rest) = key_in(bytes)?;
    let (record, rest) = held_in(rest)?;
    Some((key, record, rest))
}

fn key_in(bytes: &[u8]) -> Option<(u64, &[u8])>
    ensures { option_map (λ x. (x.0, x.1.now)) result ≡ passing_at is_key (number_at w64) bytes.now }
{
    let (key, rest) = u64_at(bytes)?;
    if key <= MAX_NUMBER {
        Some((key, rest))
    } else {
        None
    }
}

fn held_in(bytes: &[u8]) -> Option<(Option<&[u8]>, &[u8])>
    ensures { option_map (λ x. (option_map (λ r. r.now) x.0, x.1.now)) result ≡ held_at bytes.now }
{
    let (kind, rest) = u8_at(bytes)?;
    match kind {
        UPSERT => {
            let (record, rest) = record_in(rest)?;
            Some((Some(record), rest))
        }
        DELETE => Some((None, rest)),
        _ => None,
    }
}

/// A record that stands at the front of the bytes.
fn record_in(bytes: &[u8]) -> Option<(&[u8], &[u8])>
    ensures { option_map (λ x. (x.0.now, x.1.now)) result ≡ record_at bytes.now }
{
    let (total, _) = u32_at(bytes)?;
    let (record, rest) = slice_at(bytes, total as usize)?;
    if is_stored_record(record) {
        Some((record, rest))
    } else {
        None
    }
}
