//! Layer 6, programs: does the public calls on documents, lines, replies and the words of the command line, one a row of
//! standard input, and prints what they answer. A row is the name of a call and its argument, between them a space;
//! `no answer` stands for a row out of form, and for one whose calls err. A row that begins with `#` is a note, and is
//! printed as it is.
#![tactic(auto)]

mod documents;
mod lines;
mod replies;
mod words;

use std::alloc::Global;
use std::io;
use tc_rows::{Answering, answer_rows, name_and_argument};

fn main(rt: HostRuntime) -> io::Result<()> {
    answer_rows(&rt, Commands)
}

// A row has all that its answer takes.
#[derive(Drop)]
struct Commands;

impl<R: AllocGlobal> Answering<R> for Commands {
    fn answer(&mut self, rt: &R, row: &str) -> Option<String> {
        answer_of(rt.alloc(), row)
    }
}

// The lines that answer a row.
fn answer_of(alloc: Global, row: &str) -> Option<String> {
    let (call, argument) = name_and_argument(row);
    match call {
        "words" => words::asked(alloc, argument),
        "no_words" => words::shown(alloc, &[]),
        "reply" => replies::written(alloc, argument),
        "line" => lines::asked(alloc, argument.as_bytes()),
        "padded" => lines::padded(alloc, argument),
        "hex" => lines::hex(alloc, argument),
        _ => documents::answer_of(alloc, call, argument),
    }
}
