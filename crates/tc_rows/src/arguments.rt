//! The arguments of calls.

use std::alloc::Global;
use tc_value::Text;

/// The name of a call, and its argument, between them a space. A name alone has an empty argument.
pub fn name_and_argument(call: &str) -> (&str, &str) {
    call.split_once(' ').unwrap_or((call, ""))
}

/// Numbers, between two of them a space.
pub fn numbers(alloc: Global, argument: &str) -> Option<Vec<u64>> {
    let mut numbers = Vec::new(alloc);
    for word in argument.split(' ') {
        numbers.push(word.parse::<u64>().ok()?).ok()?;
    }
    Some(numbers)
}

/// Words, between two of them a space.
pub fn words(alloc: Global, line: &str) -> Option<Vec<Text>> {
    let mut words = Vec::new(alloc);
    for word in line.split(' ') {
        let word = String::from_str(alloc, word).ok()?;
        words.push(Text::of(word)).ok()?;
    }
    Some(words)
}

/// Bytes in hexadecimal digits, in pieces with a `+` between two. A `*` and a number after a piece say how often it
/// stands there.
pub fn bytes(alloc: Global, digits: &str) -> Option<Vec<u8>> {
    let mut bytes = Vec::new(alloc);
    for piece in digits.split('+') {
        push_piece(alloc, &mut bytes, piece)?;
    }
    Some(bytes)
}

fn push_piece(alloc: Global, bytes: &mut Vec<u8>, piece: &str) -> Option<()> {
    let (digits, times) = piece.split_once('*').unwrap_or((piece, "1"));
    let piece = hex::decode(alloc, digits.as_bytes()).ok()?;
    for _ in 0..times.parse::<u32>().ok()? {
        bytes.extend_from_slice(&piece).ok()?;
    }
    Some(())
}

/// A number, a space, and bytes.
pub fn number_and_bytes(alloc: Global, argument: &str) -> Option<(u64, Vec<u8>)> {
    let (number, digits) = argument.split_once(' ')?;
    let bytes = bytes(alloc, digits)?;
    let number = number.parse::<u64>().ok()?;
    Some((number, bytes))
}
