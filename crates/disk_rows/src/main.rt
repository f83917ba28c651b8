//! Layer 6, programs: does the public calls on stores, devices, gates and logs in memory, one row of standard input at a
//! time, and prints what they answer. A row is a list of calls, each of a name and its argument, and a `; ` between two.
//! It begins with an empty store and a watch that fails nothing; its answers stand in the same order, and behind them
//! how many calls failed and how many reads were made. `no answer` stands for a row out of form. A row that begins
//! with `#` is a note, and is printed as it is.
#![tactic(auto)]

mod desk;
mod devices;
mod gates;
mod logs;
mod samples;
mod shelves;
mod still_files;
mod stores;

use desk::{Desk, Hand};
use std::alloc::Global;
use std::io;
use tc_rows::{Answering, answer_calls, answer_rows, name_and_argument, push_counts};

fn main(rt: HostRuntime) -> io::Result<()> {
    answer_rows(&rt, Desks)
}

// Each row has a desk of its own.
#[derive(Drop)]
struct Desks;

impl<R: AllocGlobal> Answering<R> for Desks {
    fn answer(&mut self, rt: &R, row: &str) -> Option<String> {
        let mut desk = Desk::empty(rt.alloc());
        let mut answers = answer_calls(rt, &mut desk, row)?;
        let (faults, reads) = desk.counts();
        push_counts(&mut answers, faults, reads)?;
        Some(answers)
    }
}

impl<R: AllocGlobal> Answering<R> for Desk {
    fn answer(&mut self, rt: &R, call: &str) -> Option<String> {
        let (name, argument) = name_and_argument(call);
        answer_of(rt.alloc(), self, name, argument)
    }
}

// The answer of a call.
fn answer_of(alloc: Global, desk: &mut Desk, name: &str, argument: &str) -> Option<String> {
    match name {
        "lists" => shelves::names_kept(alloc),
        "shelf" => shelves::kits_given(alloc),
        "fails" => stores::fails(alloc, desk, argument),
        "names" => stores::names(alloc, desk),
        "stop" => stores::stop(alloc, desk, argument),
        _ => answer_with(alloc, desk, name, argument),
    }
}

// The answer of a call on what is in hand.
fn answer_with(alloc: Global, desk: &mut Desk, name: &str, argument: &str) -> Option<String> {
    match desk.take_hand() {
        Hand::Nothing => stores::answer_of(alloc, desk, name, argument),
        Hand::Device(device) => devices::answer_of(alloc, desk, device, name, argument),
        Hand::Gate(gated) => gates::answer_of(alloc, desk, gated, name),
        Hand::Log(log) => logs::answer_of(alloc, desk, log, name, argument),
        Hand::Still(file) => still_files::answer_of(alloc, desk, file, name, argument),
    }
}
