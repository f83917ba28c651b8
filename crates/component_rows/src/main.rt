//! Layer 6, programs: does the public calls on component files in memory, one row of standard input at a time, and
//! prints what they answer. A row is a list of calls, each of a name and its argument, and a `; ` between two. It begins
//! with an empty store and two watches that fail nothing, one of the calls that write and one of those that read; its
//! answers stand in the same order, and behind them how many calls failed and how many reads were made. `no answer`
//! stands for a row out of form. A row that begins with `#` is a note, and is printed as it is.
#![tactic(auto)]

mod builders;
mod components;
mod desk;
mod faults;
mod files;
mod nesting;
mod samples;
mod stores;

use desk::Desk;
use std::alloc::Global;
use std::io;
use tc_rows::{Answering, answer_calls, answer_rows, name_and_argument, push_counts};

fn main(rt: HostRuntime) -> io::Result<()> {
    answer_rows(&rt, Desks)
}

// Each row has a desk of its own.
#[derive(Drop)]
struct Desks;

impl<R: AllocGlobal> Answering<R> for Desks {
    fn answer(&mut self, rt: &R, row: &str) -> Option<String> {
        let mut desk = Desk::empty(rt.alloc());
        let mut answers = answer_calls(rt, &mut desk, row)?;
        let (faults, reads) = desk.counts();
        push_counts(&mut answers, faults, reads)?;
        Some(answers)
    }
}

impl<R: AllocGlobal> Answering<R> for Desk {
    fn answer(&mut self, rt: &R, call: &str) -> Option<String> {
        let (name, argument) = name_and_argument(call);
        answer_of(rt.alloc(), self, name, argument)
    }
}

// The answer of a call.
fn answer_of(alloc: Global, desk: &mut Desk, name: &str, argument: &str) -> Option<String> {
    let hand = desk.take_hand();
    hand.answer_of(alloc, desk, name, argument)
}
