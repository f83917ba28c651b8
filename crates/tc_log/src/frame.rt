//! The frames of a log.

ghost use Rattle.std.specs.Prelude.{◌≡◌, ◌-◌, length, option_map, [], ◌<◌};
ghost use Rattle.std.specs.Int.{w32};
ghost use Rattle.tc_bytes.specs.Reading.{number_at, passing_at};
ghost use Rattle.tc_store.specs.Judging.{Judges, IsNoDisk, IsDamageOr};
ghost use Rattle.tc_log.specs.Reading.{is_some_number, frame_at, frame_judged, frames_judged, is_gate_open as gate_open};

use crate::entry::body_in;
use crate::layout::LEADING;
use crate::write::Write;
use std::alloc::Global;
use tc_bytes::{counted_at, u32_at};
use tc_store::{ReadFault, damaged};

/// The writes of all frames up to the first gate that is not open, in a file of this length that ends with the bytes.
pub(crate) fn frames_in(alloc: Global, end: usize, bytes: &[u8]) -> Result<Vec<Write>, ReadFault>
    ensures judged { Judges (λ writes. writes.items) result (frames_judged (length bytes.now) end [] bytes.now) }
    ensures no_disk { IsNoDisk result }
{
    let mut writes = Vec::new(alloc);
    let mut rest = bytes;
    for _ in 0..bytes.len() {
        if !is_gate_open(rest) {
            break;
        }
        rest = frame_in(alloc, end, rest, &mut writes)?;
    }
    Ok(writes)
}

fn is_gate_open(bytes: &[u8]) -> bool
    ensures { result ≡ gate_open bytes.now }
{
    match bytes {
        [] => false,
        [gate, ..] => *gate == 1,
    }
}

/// The writes of one frame, read from its gate on, and what stands behind it.
fn frame_in<'a>(
    alloc: Global,
    end: usize,
    bytes: &'a [u8],
    writes: &mut Vec<Write>,
) -> Result<&'a [u8], ReadFault>
    requires { 0 < length bytes.now }
    ensures judged { Judges (λ rest. (writes.new.items, rest.now)) result (frame_judged end writes.old.items bytes.now) }
    ensures no_disk { IsNoDisk result }
{
    let Some((count, body, rest)) = parts_in(&bytes[1..]) else {
        let leading = &bytes[..bytes.len().min(LEADING)];
        return Err(damaged(alloc, end.saturating_sub(bytes.len()), leading));
    };
    if body_in(alloc, count, body, writes)? {
        Ok(rest)
    } else {
        let place = end.saturating_sub(rest.len()).saturating_sub(body.len());
        Err(damaged(alloc, place, body))
    }
}

/// The number of writes and the body, behind the gate.
fn parts_in(bytes: &[u8]) -> Option<(u32, &[u8], &[u8])>
    ensures { option_map (λ x. ((x.0, x.1.now), x.2.now)) result ≡ frame_at bytes.now }
{
    let (count, rest) = count_in(bytes)?;
    let (body, rest) = counted_at(rest)?;
    Some((count, body, rest))
}

fn count_in(bytes: &[u8]) -> Option<(u32, &[u8])>
    ensures { option_map (λ x. (x.0, x.1.now)) result ≡ passing_at is_some_number (number_at w32) bytes.now }
{
    let (count, rest) = u32_at(bytes)?;
    if count > 0 { Some((count, rest)) } else { None }
}
