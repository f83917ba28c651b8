//! Generated commands, carried out plainly.

use crate::no_answer::NoAnswer;
use std::alloc::Global;
use tc_command::{Command, parse};
use tc_gen::Feed;
use tc_value::Doc;

// Generated keys are below this.
const KEYS: u64 = 5_000;

/// The documents that so many generated commands leave where there was none, in ascending key.
pub(crate) fn documents(alloc: Global, commands: u32) -> Result<Vec<Doc>, NoAnswer> {
    let mut slots = Vec::new(alloc);
    for _ in 0..KEYS {
        slots.push(None)?;
    }
    let mut feed = Feed::new(commands);
    for _ in 0..commands {
        let Some(line) = feed.next(alloc)? else {
            return Err(NoAnswer);
        };
        carry_out(alloc, line.as_slice(), &mut slots)?;
    }
    let mut docs = Vec::new(alloc);
    for slot in slots {
        if let Some(doc) = slot {
            docs.push(doc)?;
        }
    }
    Ok(docs)
}

fn carry_out(alloc: Global, line: &[u8], slots: &mut Vec<Option<Doc>>) -> Result<(), NoAnswer> {
    match parse(alloc, line) {
        Ok(Command::Upsert { key, doc }) => put(key, Some(doc), slots),
        Ok(Command::Delete { key }) => put(key, None, slots),
        _ => Err(NoAnswer),
    }
}

fn put(key: u64, doc: Option<Doc>, slots: &mut Vec<Option<Doc>>) -> Result<(), NoAnswer> {
    match slots.get_mut(key as usize) {
        Some(slot) => {
            *slot = doc;
            Ok(())
        }
        None => Err(NoAnswer),
    }
}
