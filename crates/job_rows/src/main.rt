//! Layer 6, programs: makes flushes of memory tables, merges of components, lists of them and picks of policies, one row
//! of standard input at a time, and prints what they answer. A row is a list of calls, each of a name and its argument,
//! and a `; ` between two; its answers stand in the same order. It begins with a table of no entry, over no name and no
//! document, and with no component. `no answer` stands for a row out of form. A row that begins with `#` is a note, and
//! is printed as it is.
#![tactic(auto)]

mod answers;
mod desk;
mod flushes;
mod lists;
mod merges;
mod policies;
mod stores;
mod tables;

use desk::Desk;
use std::alloc::Global;
use std::io;
use tc_rows::{Answering, answer_calls, answer_rows, name_and_argument};

fn main(rt: HostRuntime) -> io::Result<()> {
    answer_rows(&rt, Desks)
}

// Each row has a desk of its own.
#[derive(Drop)]
struct Desks;

impl<R: AllocGlobal> Answering<R> for Desks {
    fn answer(&mut self, rt: &R, row: &str) -> Option<String> {
        let mut desk = Desk::empty(rt.alloc());
        answer_calls(rt, &mut desk, row)
    }
}

impl<R: AllocGlobal> Answering<R> for Desk {
    fn answer(&mut self, rt: &R, call: &str) -> Option<String> {
        let (name, argument) = name_and_argument(call);
        answer_of(rt.alloc(), self, name, argument)
    }
}

// The answer of a call.
fn answer_of(alloc: Global, desk: &mut Desk, name: &str, argument: &str) -> Option<String> {
    match name {
        "below" => tables::below(alloc, desk, argument),
        "put" => tables::put(alloc, &mut desk.table, argument),
        "delete" => tables::delete(alloc, &mut desk.table, argument),
        "fails" => desk.fails(alloc, argument),
        "flush" => flushes::flush(alloc, desk, argument),
        "load" => lists::load(alloc, &mut desk.loaded, argument),
        "list" => lists::list(alloc, &desk.loaded, argument),
        "merge" => merges::merge(alloc, desk, argument),
        "constant" => policies::constant(alloc, argument),
        "sized" => policies::sized(alloc, argument),
        _ => None,
    }
}
