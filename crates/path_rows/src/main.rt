//! Layer 6, programs: does the public calls on values by path, one a row of standard input, and prints what they answer.
//! A row is a document, a tab, and the line of a query with a path and a document under `eq`. The answer is how many
//! values the path reaches, the first one and all of them, with `=` before each that equals the document, and whether the path
//! reaches that document. `led there` and `led elsewhere` are what the place tells to which the path leads in a record with numbers,
//! where it tells that. Behind another tab may stand a record of the document in hexadecimal digits, whose numbers are those that a
//! store would take: one of form 1, which no store writes any more. `no answer` stands for a row out of form, and `the forms differ`
//! where a record with numbers answers otherwise than the one with names. A row that begins with `#` is a note, and is printed as it
//! is.
#![tactic(auto)]

mod records;
mod values;

use crate::values::answer_of;
use std::alloc::Global;
use std::io;
use tc_rows::{Answering, answer_rows, bytes};

fn main(rt: HostRuntime) -> io::Result<()> {
    answer_rows(&rt, Paths)
}

// A row has all that its answer takes.
#[derive(Drop)]
struct Paths;

impl<R: AllocGlobal> Answering<R> for Paths {
    fn answer(&mut self, rt: &R, row: &str) -> Option<String> {
        line_of(rt.alloc(), row)
    }
}

// The line that answers a row.
fn line_of(alloc: Global, row: &str) -> Option<String> {
    let (document, rest) = row.split_once('\t')?;
    match rest.split_once('\t') {
        Some((query, digits)) => {
            let spelled = bytes(alloc, digits)?;
            answer_of(alloc, document, query, Some(spelled))
        }
        None => answer_of(alloc, document, rest, None),
    }
}
