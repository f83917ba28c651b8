//! Texts of documents in an order that looks like chance, the same each time.

use crate::no_answer::NoAnswer;
use std::alloc::Global;

/// Numbers that look like chance.
#[derive(Drop)]
pub(crate) struct Chance {
    state: u64,
}

impl Chance {
    pub(crate) fn of(seed: u64) -> Chance {
        Chance { state: seed }
    }

    /// A number below the limit.
    pub(crate) fn below(&mut self, limit: u64) -> u64 {
        self.state = self
            .state
            .wrapping_mul(6364136223846793005)
            .wrapping_add(1442695040888963407);
        (self.state >> 33).checked_rem(limit).unwrap_or(0)
    }
}

/// The text of an object, whose values nest so deep at most.
pub(crate) fn some_document(
    depth: u32,
    alloc: Global,
    chance: &mut Chance,
) -> Result<String, NoAnswer> {
    let mut text = String::new(alloc);
    push_object(depth, &mut text, chance)?;
    Ok(text)
}

#[cycle(choosing)]
fn push_object(depth: u32, text: &mut String, chance: &mut Chance) -> Result<(), NoAnswer> {
    match chance.below(6) {
        0 => text.push_str("{")?,
        1 => push_member("{\"a\":", depth, text, chance)?,
        2 => push_member("{\"b\":", depth, text, chance)?,
        3 => push_member("{\"c\":", depth, text, chance)?,
        _ => {
            push_member("{\"a\":", depth, text, chance)?;
            push_member(",\"b\":", depth, text, chance)?;
        }
    }
    Ok(text.push_str("}")?)
}

#[cycle(choosing)]
fn push_member(
    front: &str,
    depth: u32,
    text: &mut String,
    chance: &mut Chance,
) -> Result<(), NoAnswer> {
    text.push_str(front)?;
    push_value(depth, text, chance)
}

#[cycle(choosing)]
fn push_value(depth: u32, text: &mut String, chance: &mut Chance) -> Result<(), NoAnswer> {
    if depth == 0 {
        return push_scalar(text, chance);
    }
    match chance.below(4) {
        0 => push_object(depth - 1, text, chance),
        1 => push_array(depth - 1, text, chance),
        _ => push_scalar(text, chance),
    }
}

#[cycle(choosing)]
fn push_array(depth: u32, text: &mut String, chance: &mut Chance) -> Result<(), NoAnswer> {
    text.push_str("[")?;
    for place in 0..chance.below(4) {
        if place > 0 {
            text.push_str(",")?;
        }
        push_value(depth, text, chance)?;
    }
    Ok(text.push_str("]")?)
}

fn push_scalar(text: &mut String, chance: &mut Chance) -> Result<(), NoAnswer> {
    let scalar = match chance.below(4) {
        0 => "null",
        1 => "true",
        2 => "7",
        _ => "\"x\"",
    };
    Ok(text.push_str(scalar)?)
}
