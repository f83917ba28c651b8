//! The lines of a `get` and a `delete` as programs write them, known from their bytes.

ghost use Rattle.std.specs.Prelude.{◌≡◌, ◌≤◌, ◌++◌, IfSome, IsTrue, codes, decimal};
ghost use Rattle.tc_model.specs.Json.{json_of};
ghost use Rattle.tc_model.specs.Limits.{max_key};
ghost use Rattle.tc_request_model.specs.Request.{request_if_json};
ghost use Rattle.tc_command.specs.Commands.{request_of_command, IsLawful};

use crate::commands::Command;
use itoa::Buffer;

// Bytes of the longest such line, `{"op": "delete", "id": 9223372036854775807}`.
const LONGEST: usize = 43;

const MAX_KEY: u64 = 0x7fff_ffff_ffff_ffff;

/// The command of a line that is a `get` or a `delete` in a spelling that programs write: its members in this order,
/// and no space between them or one behind each comma and colon. `None` says nothing of the line.
pub(crate) fn keyed_in(line: &[u8]) -> Option<Command>
    ensures asked { IfSome result (λ command. request_if_json (json_of line.now) ≡ request_of_command command) }
    ensures lawful { IfSome result IsLawful }
{
    if line.len() > LONGEST {
        return None;
    }
    if let Some(command) = get_in(line) {
        return Some(command);
    }
    delete_in(line)
}

fn get_in(line: &[u8]) -> Option<Command>
    ensures asked { IfSome result (λ command. request_if_json (json_of line.now) ≡ request_of_command command) }
    ensures lawful { IfSome result IsLawful }
{
    if let Some(key) = key_behind(b"{\"op\":\"get\",\"id\":", line) {
        return Some(Command::Get { key });
    }
    let key = key_behind(b"{\"op\": \"get\", \"id\": ", line)?;
    Some(Command::Get { key })
}

fn delete_in(line: &[u8]) -> Option<Command>
    ensures asked { IfSome result (λ command. request_if_json (json_of line.now) ≡ request_of_command command) }
    ensures lawful { IfSome result IsLawful }
{
    if let Some(key) = key_behind(b"{\"op\":\"delete\",\"id\":", line) {
        return Some(Command::Delete { key });
    }
    let key = key_behind(b"{\"op\": \"delete\", \"id\": ", line)?;
    Some(Command::Delete { key })
}

// The key of a line that has this front, a key and a closing brace.
fn key_behind(front: &[u8], line: &[u8]) -> Option<u64>
    ensures spelled { IfSome result (λ n. line.now ≡ front.now ++ (decimal n ++ codes "}")) }
    ensures bound { IfSome result (λ n. n ≤ max_key) }
{
    let digits = before(b"}", behind(front, line)?)?;
    let key = read_as_digits(digits);
    if key <= MAX_KEY && is_spelled(key, digits) {
        Some(key)
    } else {
        None
    }
}

// What stands behind a front.
fn behind<'l>(front: &[u8], line: &'l [u8]) -> Option<&'l [u8]>
    ensures { IfSome result (λ rest. line.now ≡ front.now ++ rest.now) }
{
    line.strip_prefix(front)
}

// What stands before an end.
fn before<'l>(end: &[u8], line: &'l [u8]) -> Option<&'l [u8]>
    ensures { IfSome result (λ rest. line.now ≡ rest.now ++ end.now) }
{
    line.strip_suffix(end)
}

// What the bytes come to as digits, whatever they are.
fn read_as_digits(bytes: &[u8]) -> u64 {
    let mut number = 0u64;
    for byte in bytes {
        let digit = u64::from(byte.wrapping_sub(b'0'));
        number = number.wrapping_mul(10).wrapping_add(digit);
    }
    number
}

// Whether the bytes are the key as it is written, which is so of no letter, no sign, no zero at the front and no number
// that was too large.
fn is_spelled(key: u64, bytes: &[u8]) -> bool
    ensures { IsTrue result → bytes.now ≡ decimal key }
{
    let mut spelling = Buffer::new();
    spelling.format(key).as_bytes() == bytes
}
