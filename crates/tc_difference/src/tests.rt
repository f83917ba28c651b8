//! Rows of two schemas, and what is told of them. They are worked by hand.

ghost use Rattle.std.specs.Prelude.{length, IfOk};
ghost use Rattle.tc_schema_model.specs.Counted.{IsCanonical};

use crate::{Found, first_difference};
use std::alloc::{AllocError, Global};
use std::test::Fail;
use tc_bytes::{put_u32, put_u64};
use tc_names::Names;
use tc_schema::Schema;
use tc_value::Step;

// The names `b`, `a` and `ab` have the numbers 0, 1 and 2.
const NAMES: [u8; 20] = *b"\0\0\0\x03\0\0\0\x01b\0\0\0\x01a\0\0\0\x02ab";

// The bytes of a schema whose parts are apart. A kind or a union and its counter are a letter and a number; a number of four
// bytes comes after a colon, and a byte after a hyphen.
fn bytes_of(alloc: Global, parts: &str) -> Result<Vec<u8>, AllocError> {
    let mut bytes = Vec::new(alloc);
    for part in parts.as_bytes().split(|byte| *byte == b' ') {
        if let Some((sign, digits)) = part.split_first() {
            put_part(*sign, number_of(digits), &mut bytes)?;
        }
    }
    Ok(bytes)
}

fn number_of(digits: &[u8]) -> u64 {
    let mut number: u64 = 0;
    for digit in digits {
        number = number
            .saturating_mul(10)
            .saturating_add(digit.saturating_sub(b'0') as u64);
    }
    number
}

fn put_part(sign: u8, number: u64, bytes: &mut Vec<u8>) -> Result<(), AllocError> {
    match sign {
        b':' => put_u32(bytes, number.min(9) as u32),
        b'-' => Ok(bytes.push(number.min(9) as u8)?),
        b'n' => put_tagged(1, number, bytes),
        b'b' => put_tagged(2, number, bytes),
        b'i' => put_tagged(3, number, bytes),
        b't' => put_tagged(4, number, bytes),
        b'a' => put_tagged(5, number, bytes),
        b'o' => put_tagged(6, number, bytes),
        _union => put_tagged(8, number, bytes),
    }
}

fn put_tagged(tag: u8, number: u64, bytes: &mut Vec<u8>) -> Result<(), AllocError> {
    bytes.push(tag)?;
    put_u64(bytes, number)
}

// The schema of such parts, under these names.
fn schema_of(alloc: Global, parts: &str, names: &Names) -> Result<Schema, Fail>
    ensures { IfOk result (IsCanonical (length names.now)) }
{
    let bytes = bytes_of(alloc, parts)?;
    match Schema::from_bytes(alloc, bytes.as_slice(), names.len()) {
        Ok(schema) => Ok(schema),
        Err(fault) => Err(Fail::from(fault)),
    }
}

// The steps to a difference, the tag of its kind, and both numbers.
fn text_of(alloc: Global, found: &Found) -> Result<String, AllocError> {
    let mut text = String::new(alloc);
    for step in &found.path {
        put_step(step, &mut text)?;
    }
    let numbers = format!(in alloc; "{} {} {}", found.kind.tag(), found.kept, found.counted)?;
    text.push_str(numbers.as_str())?;
    Ok(text)
}

fn put_step(step: &Step, text: &mut String) -> Result<(), AllocError> {
    match step {
        Step::Item => text.push_str("*")?,
        Step::Field(name) => text.push_str(name.as_str())?,
    }
    Ok(text.push_str(" ")?)
}

// What is told of two schemas, and nothing where they are one.
fn told(alloc: Global, kept: &str, counted: &str, names: &Names) -> Result<String, Fail> {
    let kept = schema_of(alloc, kept, names)?;
    let counted = schema_of(alloc, counted, names)?;
    match first_difference(alloc, &kept, &counted, names) {
        Ok(Some(found)) => Ok(text_of(alloc, &found)?),
        Ok(None) => Ok(String::new(alloc)),
        Err(fault) => Err(Fail::from(fault)),
    }
}

#[test]
fn the_first_difference_is_told(rt: HostRuntime) -> Result<(), Fail> {
    let table = [
        // none
        ("-0", "-0", ""),
        (
            "o2 :2 :0 a1 -1 t3 :1 u2 -2 n1 b1",
            "o2 :2 :0 a1 -1 t3 :1 u2 -2 n1 b1",
            "",
        ),
        // a counter of each kind, and of items
        ("o1 :1 :1 n1", "o1 :1 :1 n2", "a 1 1 2"),
        ("o1 :1 :1 b2", "o1 :1 :1 b1", "a 2 2 1"),
        ("o1 :1 :1 i1", "o1 :1 :1 i2", "a 3 1 2"),
        ("o1 :1 :1 t2", "o1 :1 :1 t1", "a 4 2 1"),
        ("o1 :1 :1 a1 -0", "o1 :1 :1 a2 -0", "a 5 1 2"),
        ("o2 :1 :1 b1", "o1 :1 :1 b1", "6 2 1"),
        ("o1 :1 :1 a1 -1 i2", "o1 :1 :1 a1 -1 i1", "a * 3 2 1"),
        // what only one has
        ("-0", "o1 :0", "6 0 1"),
        ("o1 :0", "o1 :1 :0 t1", "b 4 0 1"),
        ("o1 :1 :2 t1", "o1 :0", "ab 4 1 0"),
        ("o1 :1 :1 a1 -1 i2", "o1 :1 :1 a1 -0", "a * 3 2 0"),
        // kinds by their tags, a path before what goes on from it, items before members
        ("o1 :1 :1 u2 -2 b1 t1", "o1 :1 :1 u2 -2 n1 t1", "a 1 0 1"),
        ("o2 :1 :1 a2 -1 i2", "o2 :1 :1 a1 -1 i1", "a 5 2 1"),
        (
            "o1 :1 :1 u2 -2 a1 -1 i1 o1 :1 :1 i1",
            "o1 :1 :1 u2 -2 a1 -1 t1 o1 :1 :1 t1",
            "a * 3 1 0",
        ),
        (
            "o1 :1 :1 u2 -2 a1 -1 i1 o1 :1 :2 i1",
            "o1 :1 :1 u2 -2 a1 -1 i1 o1 :1 :2 t1",
            "a ab 3 1 0",
        ),
        // members by their names, whatever their numbers
        ("o1 :2 :0 i1 :1 i1", "o1 :2 :0 t1 :1 i1", "b 3 1 0"),
        ("o1 :2 :0 i1 :1 i1", "o1 :2 :0 t1 :1 t1", "a 3 1 0"),
        ("o1 :2 :1 i1 :2 i1", "o1 :2 :1 t1 :2 t1", "a 3 1 0"),
        (
            "o1 :3 :0 i1 :1 i1 :2 i1",
            "o1 :3 :0 t1 :1 i1 :2 t1",
            "ab 3 1 0",
        ),
        ("o1 :2 :0 i1 :2 i1", "o1 :1 :1 i1", "a 3 0 1"),
        (
            "o1 :2 :0 i1 :1 o1 :1 :2 o1 :1 :0 i1",
            "o1 :2 :0 t1 :1 o1 :1 :2 o1 :1 :0 t1",
            "a ab b 3 1 0",
        ),
    ];
    let names = Names::from_bytes(rt.alloc(), &NAMES)?;
    for (kept, counted, want) in table {
        let text = told(rt.alloc(), kept, counted, &names)?;
        assert_eq!(rt; text.as_str(), want, "{kept} and {counted}");
    }
    Ok(())
}
