//! Layer 6, programs: fails each call on files of a run in turn, stops the store behind it, opens it again, and compares
//! what is read with a plain store. A row of standard input is a word and its argument. `words` are those of the command
//! line, without the folder, and begin a script; `put`, with a key and the members of a document, `take`, with a key, and
//! `flush` are its lines, and `feed` adds so many messages; `partition` says of which one, 0 or 1, a call fails. `stops`,
//! with whose calls fail (`main`, `flusher` or `merger`) and a number, runs the script once for each of these calls and
//! each choice of a stop below the number. `twice` has the opening behind that fail too, at each of its calls in turn, and
//! stops it there. Both say how many calls failed, how many stops there were, or how many openings had too few calls,
//! behind how many stops something else was read than the windows that were answered leave, or these and the next one, of
//! each partition by itself, and which of these were seen. A row that begins with `#` is a note, and is printed as it is;
//! `no answer` stands for a row out of form.
#![tactic(auto)]

mod feed;
mod files;
mod running;
mod script;
mod stops;
mod twice;

use files::Who;
use script::Script;
use std::io;
use std::sync::Wait;
use std::thread::Threads;
use tc_rows::name_and_argument;

fn main(rt: HostRuntime) -> io::Result<()> {
    let mut script = Script::new(rt.alloc());
    for row in rt.lines(rt.alloc()) {
        answer(&rt, &mut script, row?.as_str())?;
    }
    Ok(())
}

// The rows are read here, since what starts threads cannot be called by a method of a trait.
fn answer<R: Print + AllocGlobal + Threads + Wait + Sync>(
    rt: &R,
    script: &mut Script,
    row: &str,
) -> io::Result<()> {
    if row.starts_with('#') {
        return println!(rt; "{row}");
    }
    match answer_of(rt, script, row) {
        Some(answer) => print_lines(rt, answer.as_str()),
        None => println!(rt; "no answer"),
    }
}

// Prints lines, of which the last one may not be ended.
fn print_lines(rt: &impl Print, lines: &str) -> io::Result<()> {
    if lines.is_empty() || lines.ends_with('\n') {
        return print!(rt; "{lines}");
    }
    println!(rt; "{lines}")
}

// The line that answers a row, if one does.
fn answer_of<R: AllocGlobal + Threads + Wait + Sync>(
    rt: &R,
    script: &mut Script,
    row: &str,
) -> Option<String> {
    let alloc = rt.alloc();
    let (call, argument) = name_and_argument(row);
    match call {
        "stops" => {
            let (who, choices) = argument.split_once(' ')?;
            let choices = choices.parse::<u64>().ok()?;
            stops::answer(rt, alloc, script, who_of(who)?, choices)
        }
        "twice" => twice::answer(rt, alloc, script, who_of(argument)?),
        _ => {
            script.prepare(alloc, call, argument)?;
            Some(String::new(alloc))
        }
    }
}

fn who_of(word: &str) -> Option<Who> {
    match word {
        "main" => Some(Who::Main),
        "flusher" => Some(Who::Flusher),
        "merger" => Some(Who::Merger),
        _ => None,
    }
}
