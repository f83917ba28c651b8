//! Layer 6, programs: keeps the schema of documents, one row of standard input at a time, and prints its text. A row is
//! a call and its argument, between them a space. The schema is added to and subtracted from, and the text of what is
//! inferred from all documents stands beside it where it differs. `generated` has the documents that so many generated
//! commands leave, carried out plainly, and their schema inferred: a demonstration in `run_rows` has the same text. `no
//! answer` stands for a row out of form, and no document is left then. A row that begins with `#` is a note, and is printed as
//! it is.
#![tactic(auto)]

mod bytes;
mod chance;
mod generated;
mod kept;
mod no_answer;
mod texts;

use chance::{Chance, some_document};
use kept::Kept;
use no_answer::NoAnswer;
use serde_json::Value;
use std::alloc::Global;
use std::{io, mem};
use tc_json::doc_of;
use tc_rows::{Answering, answer_rows, name_and_argument};
use tc_value::Doc;

// So deep do the values of a random document nest, at most.
const DEPTH: u32 = 3;

// After so many random steps the texts are compared.
const STRIDE: u64 = 50;

fn main(rt: HostRuntime) -> io::Result<()> {
    answer_rows(&rt, Kept::none(rt.alloc()))
}

impl<R: AllocGlobal> Answering<R> for Kept {
    fn answer(&mut self, rt: &R, row: &str) -> Option<String> {
        let alloc = rt.alloc();
        let kept = mem::replace(self, Kept::none(alloc));
        match answer_of(alloc, kept, row) {
            Ok((kept, answer)) => {
                *self = kept;
                Some(answer)
            }
            Err(NoAnswer) => None,
        }
    }
}

fn answer_of(alloc: Global, kept: Kept, row: &str) -> Result<(Kept, String), NoAnswer> {
    let (call, argument) = name_and_argument(row);
    match call {
        "none" => shown(alloc, Kept::none(alloc)),
        "add" => shown(alloc, kept.with(alloc, document(alloc, argument)?)?),
        "less" => shown(alloc, kept.without(alloc, place(argument)?)?),
        "random" => shown(alloc, at_random(alloc, argument)?),
        "generated" => shown(alloc, after_generated(alloc, argument)?),
        "bytes" => bytes::shown(alloc, kept),
        _ => Err(NoAnswer),
    }
}

fn document(alloc: Global, text: &str) -> Result<Doc, NoAnswer> {
    let Ok(value) = Value::from_str(alloc, text) else {
        return Err(NoAnswer);
    };
    match doc_of(alloc, &value) {
        Ok(doc) => Ok(doc),
        Err(_fault) => Err(NoAnswer),
    }
}

fn place(word: &str) -> Result<usize, NoAnswer> {
    match word.parse::<usize>() {
        Ok(place) => Ok(place),
        Err(_fault) => Err(NoAnswer),
    }
}

// How many documents there are, and the text of their schema.
fn shown(alloc: Global, kept: Kept) -> Result<(Kept, String), NoAnswer> {
    let (text, anew) = (kept.text(alloc)?, kept.text_anew(alloc)?);
    let answer = if text == anew {
        format!(in alloc; "{} {}", kept.len(), text.as_str())?
    } else {
        format!(in alloc;
            "{} {} differs from {}",
            kept.len(),
            text.as_str(),
            anew.as_str()
        )?
    };
    Ok((kept, answer))
}

// From nothing so many steps of one document more or less, by a seed.
fn at_random(alloc: Global, argument: &str) -> Result<Kept, NoAnswer> {
    let (seed, steps) = argument.split_once(' ').ok_or(NoAnswer)?;
    let mut chance = Chance::of(place(seed)? as u64);
    let mut kept = Kept::none(alloc);
    for step in 0..place(steps)? as u64 {
        kept = stepped(alloc, kept, &mut chance)?;
        if step % STRIDE == STRIDE - 1 && kept.text(alloc)? != kept.text_anew(alloc)? {
            return Ok(kept);
        }
    }
    Ok(kept)
}

// The documents behind so many generated commands.
fn after_generated(alloc: Global, commands: &str) -> Result<Kept, NoAnswer> {
    match commands.parse::<u32>() {
        Ok(commands) => Kept::inferred(alloc, generated::documents(alloc, commands)?),
        Err(_fault) => Err(NoAnswer),
    }
}

fn stepped(alloc: Global, kept: Kept, chance: &mut Chance) -> Result<Kept, NoAnswer> {
    let held = kept.len() as u64;
    if chance.below(2) == 0 && held > 0 {
        let at = chance.below(held) as usize;
        return kept.without(alloc, at);
    }
    let text = some_document(DEPTH, alloc, chance)?;
    kept.with(alloc, document(alloc, text.as_str())?)
}
