//! Layer 6, programs: makes calls of one partition over a store in memory, or of what its jobs begin and end with, one row of
//! standard input at a time, and prints what they answer. A row begins with numbers: what a stop behind it chooses, how many
//! names and how many documents the partition takes, and which calls on files fail, counted from 0. Where ` flush ` follows,
//! behind it stand those of the calls of flushes that fail, behind ` merge ` those of merges, and behind ` over ` a component
//! from generation 1 on: its last generation, and the bytes of its file. Behind all this stands a list of calls, each of a
//! name and its argument, and a `; ` between two; its answers stand in the same order. Last the partition is closed, and the
//! row ends with how many calls on files failed and how many were reads, and the bytes of the files that a stop then leaves.
//! The partition is number 0 of 1, and its store has no file but the first log, unless it has a component and the log behind
//! that. `share` holds the listed components, as somebody does who reads beside the partition, until `forget`. A row of jobs
//! begins with `jobs` and the calls on files that fail; it begins with no file and nothing listed, and ends with what is listed
//! and all files. A row that begins with `open` opens a partition: its number, of how many, and the calls that fail, and then
//! its files, a `; ` before each; it prints how many components are listed and the length of the log, or why there is none,
//! and the files that are left. `calls of` and files, a `; ` before each, counts the calls of an opening, each of which has to
//! be a fault where it fails. `no answer` stands for a row out of form. A row that begins with `#` is a note, and is printed
//! as it is.
#![tactic(auto)]

mod bench;
mod calls;
mod desk;
mod faults;
mod files;
mod first_logs;
mod jobs;
mod laid;
mod making;
mod openings;
mod steps;

use desk::{Desk, Watches};
use laid::{laid_first, laid_over};
use std::alloc::Global;
use std::io;
use tc_part::Limits;
use tc_rows::{
    Answering, answer_calls, answer_rows, failing, name_and_argument, number_and_bytes, numbers,
    unfailing,
};
use tc_store::MemWatch;

// How many bytes of log make a table be sealed. Nothing here seals one by itself.
pub(crate) const MEMORY: u64 = 4096;

fn main(rt: HostRuntime) -> io::Result<()> {
    answer_rows(&rt, Partitions)
}

// Each row has a partition of its own.
#[derive(Drop)]
struct Partitions;

impl<R: AllocGlobal> Answering<R> for Partitions {
    fn answer(&mut self, rt: &R, row: &str) -> Option<String> {
        if let Some(opening) = row.strip_prefix("open ") {
            return openings::answer_of(rt.alloc(), opening);
        }
        if let Some(opening) = row.strip_prefix("calls ") {
            return openings::calls_of(rt.alloc(), opening);
        }
        let (begin, calls) = row.split_once("; ")?;
        if begin.starts_with("jobs") {
            return jobs::answers_of(rt, begin, calls);
        }
        answers_of_part(rt, begin, calls)
    }
}

// The answers of a row of a partition.
fn answers_of_part<R: AllocGlobal>(rt: &R, begin: &str, calls: &str) -> Option<String> {
    let alloc = rt.alloc();
    let (desk, choice) = begun(alloc, begin)?;
    let mut desk = desk;
    let mut answers = answer_calls(rt, &mut desk, calls)?;
    files::push_left(alloc, &mut answers, desk.close(), choice)?;
    Some(answers)
}

// A partition, and what a stop behind the row chooses.
fn begun(alloc: Global, begin: &str) -> Option<(Desk, u64)> {
    let (begin, component) = parted(begin, " over ");
    let (begin, merger) = parted(begin, " merge ");
    let (begin, flusher) = parted(begin, " flush ");
    let numbers = numbers(alloc, begin)?;
    let [choice, names, docs, failing @ ..] = numbers.as_slice() else {
        return None;
    };
    let limits = Limits {
        names: u32::try_from(*names).ok()?,
        docs: u32::try_from(*docs).ok()?,
        memory: MEMORY,
    };
    let watches = Watches {
        main: MemWatch::new(Vec::from_slice(alloc, failing).ok()?),
        flusher: watch_of(alloc, flusher)?,
        merger: watch_of(alloc, merger)?,
    };
    Some((desk_of(alloc, limits, watches, component)?, *choice))
}

// What stands before a word, and what stands behind it, if the word is there.
fn parted<'a>(text: &'a str, word: &str) -> (&'a str, Option<&'a str>) {
    match text.split_once(word) {
        Some((before, behind)) => (before, Some(behind)),
        None => (text, None),
    }
}

// A watch that fails the calls of these numbers.
fn watch_of(alloc: Global, numbers: Option<&str>) -> Option<MemWatch> {
    match numbers {
        Some(numbers) => failing(alloc, numbers),
        None => Some(unfailing(alloc)),
    }
}

// A partition without a component, or over one: its last generation, and the bytes of its file.
fn desk_of(
    alloc: Global,
    limits: Limits,
    watches: Watches,
    component: Option<&str>,
) -> Option<Desk> {
    match component {
        Some(component) => {
            let (to, bytes) = number_and_bytes(alloc, component)?;
            let laid = laid_over(alloc, to, bytes)?;
            Desk::over(alloc, limits, watches, laid, false)
        }
        None => Desk::over(alloc, limits, watches, laid_first(alloc)?, true),
    }
}

impl<R: AllocGlobal> Answering<R> for Desk {
    fn answer(&mut self, rt: &R, call: &str) -> Option<String> {
        let alloc = rt.alloc();
        let (name, argument) = name_and_argument(call);
        match name {
            "put" => calls::put(alloc, self, argument),
            "delete" => calls::delete(alloc, self, argument),
            "get" => self.get(alloc, argument.parse::<u64>().ok()?),
            "query" => calls::query(alloc, self, argument),
            "commit" => self.commit(alloc),
            "seal" => self.seal(alloc),
            "flush" => self.flush(alloc),
            "merge" => calls::merge(alloc, self, argument),
            "share" => self.share(alloc),
            "forget" => self.forget(alloc),
            "sweep" => self.sweep(alloc),
            "tell" => self.tell(alloc),
            "schema" => self.schema(alloc),
            _ => None,
        }
    }
}
