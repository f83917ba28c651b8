//! The text of a generated line.

ghost use Rattle.std.specs.Prelude.{◌≡◌, ◌++◌, ◌%◌, IfOk};
ghost use Rattle.std.specs.Fmt.{decimal};
ghost use Rattle.tc_gen.specs.Generated.{line_of, delete_line, upsert_line, members_at, tags_member, user_member, schema_line};

use itoa::Buffer;
use std::alloc::Global;
use tc_bytes::{Bytes, Memory};

// Room for the longest line.
const ROOM: usize = 100;

/// The line of a number, for a key.
pub(crate) fn line_at(alloc: Global, number: u32, key: u32) -> Result<Bytes, Memory>
    ensures { IfOk result (λ line. line ≡ line_of number key) }
{
    if number % 5 == 0 {
        delete_line(alloc, key)
    } else {
        upsert_line(alloc, number, key)
    }
}

/// The line that closes the input.
pub(crate) fn schema_line(alloc: Global) -> Result<Bytes, Memory>
    ensures { IfOk result (λ line. line ≡ schema_line) }
{
    Ok(Bytes::of(Vec::from_slice(alloc, b"{\"op\":\"schema\"}")?))
}

fn delete_line(alloc: Global, key: u32) -> Result<Bytes, Memory>
    ensures { IfOk result (λ line. line ≡ delete_line key) }
{
    let mut line = Vec::with_capacity(alloc, ROOM)?;
    put_number(&mut line, b"{\"op\":\"delete\",\"id\":", key, b"}")?;
    Ok(Bytes::of(line))
}

fn upsert_line(alloc: Global, number: u32, key: u32) -> Result<Bytes, Memory>
    ensures { IfOk result (λ line. line ≡ upsert_line key (members_at number)) }
{
    let mut line = Vec::with_capacity(alloc, ROOM)?;
    put_number(&mut line, b"{\"op\":\"upsert\",\"doc\":{\"id\":", key, b"")?;
    put_members(&mut line, number)?;
    line.extend_from_slice(b"}}")?;
    Ok(Bytes::of(line))
}

// Appends the members behind `id` of the document of a line.
fn put_members(line: &mut Vec<u8>, number: u32) -> Result<(), Memory>
    ensures { IfOk result (λ _. line.new.items ≡ line.old.items ++ members_at number) }
{
    match number % 4 {
        0 => put_number(line, b",\"n\":", number, b""),
        1 => put_number(line, b",\"n\":\"", number, b"\""),
        2 => put_tags_and_user(line, number),
        _ => put_number(line, b",\"n\":null,\"user\":{\"age\":", number % 90, b"}"),
    }
}

fn put_tags_and_user(line: &mut Vec<u8>, number: u32) -> Result<(), Memory>
    ensures { IfOk result (λ _. line.new.items ≡ line.old.items ++ (tags_member number ++ user_member (number % 10))) }
{
    put_number(line, b",\"tags\":[\"t0\",", number, b"]")?;
    put_number(line, b",\"user\":{\"name\":\"u", number % 10, b"\"}")
}

/// Appends a number between two texts.
pub(crate) fn put_number(
    line: &mut Vec<u8>,
    before: &[u8],
    number: u32,
    after: &[u8],
) -> Result<(), Memory>
    ensures { IfOk result (λ _. line.new.items ≡ line.old.items ++ (before.now ++ (decimal number ++ after.now))) }
{
    let mut digits = Buffer::new();
    line.extend_from_slice(before)?;
    line.extend_from_slice(digits.format(number).as_bytes())?;
    line.extend_from_slice(after)
}
