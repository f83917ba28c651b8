//! Layer 6, programs: generates lines, shares windows out to partitions and puts replies together, one window a row of
//! standard input, and prints what comes of it. A row is `feed N P`, for N generated lines and P partitions, or
//! `lines P` and the lines themselves, each behind a tab. The answer has the places that each partition gets, and then
//! the replies. `heard N`, and pieces of the lines of replies, each behind a tab, is answered by what a demonstration of N
//! commands says of them. `no answer` stands for a row out of form, and a row that begins with `#` is printed as it is.
#![tactic(auto)]

mod answers;
mod heard;
mod windows;

use crate::answers::answers;
use crate::heard::heard;
use crate::windows::{fed, given, routed};
use std::alloc::Global;
use std::io;
use tc_rows::{Answering, answer_rows};

fn main(rt: HostRuntime) -> io::Result<()> {
    answer_rows(&rt, Shares)
}

// A row has all that its answer takes.
#[derive(Drop)]
struct Shares;

impl<R: AllocGlobal> Answering<R> for Shares {
    fn answer(&mut self, rt: &R, row: &str) -> Option<String> {
        answer_of(rt.alloc(), row)
    }
}

// The lines that answer a row.
fn answer_of(alloc: Global, row: &str) -> Option<String> {
    let (call, argument) = row.split_once(' ')?;
    match call {
        "feed" => {
            let (lines, partitions) = argument.split_once(' ')?;
            let window = routed(alloc, fed(alloc, lines.parse().ok()?)?)?;
            answers(alloc, window, partitions.parse().ok()?)
        }
        "lines" => {
            let (partitions, lines) = argument.split_once('\t')?;
            let window = routed(alloc, given(alloc, lines)?)?;
            answers(alloc, window, partitions.parse().ok()?)
        }
        "heard" => {
            let (commands, pieces) = argument.split_once('\t')?;
            heard(alloc, commands.parse().ok()?, pieces)
        }
        _ => None,
    }
}
