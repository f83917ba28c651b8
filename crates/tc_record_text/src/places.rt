//! Writing bytes at a place of a buffer that has room. A short text is two copies of a fixed size that overlap, so that it costs
//! no call.

ghost use Rattle.std.specs.Prelude.{◌≡◌, ◌+◌, ◌<◌, ◌≤◌, [], ◌∷◌, length, take, cond};
ghost use Rattle.json.specs.Filled.{Placed};

use std::simd::Simd;

/// Writes one byte, and answers the place behind it, as all of these do.
#[inline(always)]
pub(crate) fn place_byte(buf: &mut [u8], at: usize, byte: u8) -> usize
    requires { at < length buf.old }
    ensures { Placed buf.old buf.new at (byte ∷ []) result }
{
    buf[at] = byte;
    at + 1
}

/// Writes a comma, which counts only where it is wanted.
#[inline(always)]
pub(crate) fn place_comma(buf: &mut [u8], at: usize, comma: bool) -> usize
    requires { at < length buf.old }
    ensures { Placed buf.old buf.new at (cond comma (44 ∷ []) []) result }
{
    buf[at] = b',';
    if comma { at + 1 } else { at }
}

/// Writes a text.
#[inline(always)]
pub(crate) fn place_text(buf: &mut [u8], at: usize, text: &[u8]) -> usize
    requires { at + length text.now ≤ length buf.old }
    ensures { Placed buf.old buf.new at text.now result }
{
    let len = text.len();
    if len > 32 {
        place_long(buf, at, text)
    } else if len >= 16 {
        place_ends::<16>(buf, at, text)
    } else if len >= 8 {
        place_ends::<8>(buf, at, text)
    } else if len >= 4 {
        place_ends::<4>(buf, at, text)
    } else if len >= 2 {
        place_ends::<2>(buf, at, text)
    } else if len == 1 {
        place_front::<1>(buf, at, text)
    } else {
        at
    }
}

// A text that is not short, by one call.
#[inline(always)]
fn place_long(buf: &mut [u8], at: usize, text: &[u8]) -> usize
    requires { at + length text.now ≤ length buf.old }
    ensures { Placed buf.old buf.new at text.now result }
{
    let end = at + text.len();
    buf[at..end].copy_from_slice(text);
    end
}

// The first and the last N bytes.
#[inline(always)]
fn place_ends<const N: usize>(buf: &mut [u8], at: usize, text: &[u8]) -> usize
    requires fits { at + length text.now ≤ length buf.old }
    requires covers { (N ≤ length text.now) × (length text.now ≤ N + N) }
    ensures { Placed buf.old buf.new at text.now result }
{
    let last = text.len() - N;
    place_front::<N>(buf, at, text);
    place_front::<N>(buf, at + last, &text[last..])
}

/// Writes the first N bytes of a text, by one load and one store.
#[inline(always)]
pub(crate) fn place_front<const N: usize>(buf: &mut [u8], at: usize, text: &[u8]) -> usize
    requires { (N ≤ length text.now) × (at + N ≤ length buf.old) }
    ensures { Placed buf.old buf.new at (take N text.now) result }
{
    Simd::<u8, N>::from_slice(text).copy_to_slice(&mut buf[at..]);
    at + N
}
