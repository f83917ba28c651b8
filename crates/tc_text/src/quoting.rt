//! JSON strings: a text between quotes, with the shortest escapes.

ghost use Rattle.std.specs.Prelude.{◌≡◌, ◌<◌, ◌≤◌, [], ◌∷◌, ◌++◌, length, take, OnOk};
ghost use Rattle.std.specs.Bool.{OnTrue};
ghost use Rattle.std.specs.Char.{digit_char};
ghost use Rattle.json.specs.Print.{escape_letter, escape_byte, escape, quoted};

use crate::plain::is_plain;
use crate::scalars::put_mark;
use std::alloc::AllocError;

/// Puts a text between quotes, with its escapes. Errs only for want of memory.
pub fn put_quoted(text: &str, out: &mut Vec<u8>) -> Result<(), AllocError>
    ensures { OnOk result (out.new.items ≡ out.old.items ++ quoted text.now) }
{
    let text = text.as_bytes();
    put_mark(b'"', out)?;
    put_escaped(text, out)?;
    put_mark(b'"', out)
}

fn put_escaped(text: &[u8], out: &mut Vec<u8>) -> Result<(), AllocError>
    ensures { OnOk result (out.new.items ≡ out.old.items ++ escape text.now) }
{
    if is_plain(text) {
        out.extend_from_slice(text)
    } else {
        put_runs(text, out)
    }
}

// What needs no escape is copied run by run.
#[inline(never)]
fn put_runs(text: &[u8], out: &mut Vec<u8>) -> Result<(), AllocError>
    ensures { OnOk result (out.new.items ≡ out.old.items ++ escape text.now) }
{
    let mut left = text;
    while !left.is_empty() {
        let run = plain_run(left);
        out.extend_from_slice(&left[..run])?;
        if run == left.len() {
            return Ok(());
        }
        put_escape(left[run], out)?;
        left = &left[run + 1..];
    }
    Ok(())
}

// How many of the first bytes need no escape.
fn plain_run(text: &[u8]) -> usize
    ensures within { result ≤ length text.now }
    ensures plain { escape (take result text.now) ≡ take result text.now }
{
    for (place, &byte) in text.iter().enumerate() {
        if !is_plain_byte(byte) {
            return place;
        }
    }
    text.len()
}

#[inline(always)]
fn is_plain_byte(byte: u8) -> bool
    ensures { OnTrue result (escape_byte byte ≡ byte ∷ []) }
{
    if byte == b'"' || byte == b'\\' || byte < 0x20 {
        return false;
    }
    true
}

fn put_escape(byte: u8, out: &mut Vec<u8>) -> Result<(), AllocError>
    ensures { OnOk result (out.new.items ≡ out.old.items ++ escape_byte byte) }
{
    let (escape, len) = escape_of(byte);
    out.extend_from_slice(&escape[..len])
}

// The escape of a byte, and how many bytes of the array it takes. A byte that needs none stands for itself.
fn escape_of(byte: u8) -> ([u8; 6], usize)
    ensures value { take result.1 result.0 ≡ escape_byte byte }
    ensures bound { result.1 ≤ 6 }
{
    let letter = letter(byte);
    if letter > 0 {
        return ([b'\\', letter, 0, 0, 0, 0], 2);
    }
    if byte < 0x20 {
        return ([b'\\', b'u', b'0', b'0', hex(byte / 16), hex(byte % 16)], 6);
    }
    ([byte, 0, 0, 0, 0, 0], 1)
}

// The letter of the short escape of a byte, or 0 where it has none.
fn letter(byte: u8) -> u8
    ensures { result ≡ escape_letter byte }
{
    match byte {
        b'"' | b'\\' => byte,
        8 => b'b',
        12 => b'f',
        b'\n' => b'n',
        b'\r' => b'r',
        b'\t' => b't',
        _ => 0,
    }
}

fn hex(digit: u8) -> u8
    requires { digit < 16 }
    ensures { result ≡ digit_char digit }
{
    if digit < 10 {
        b'0' + digit
    } else {
        b'a' - 10 + digit
    }
}
