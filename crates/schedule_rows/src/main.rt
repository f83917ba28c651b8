//! Layer 6, programs: holds threads of a run at points that they come to, and prints whether they met, and whether the run
//! replies what it may. A row of standard input is a word and its argument. `beside` has a job and a get wait for each other:
//! `flush`, or `merge`. `at once` has the replies of two partitions wait for each other. `scan beside` has a scan and two
//! replies wait for each other, and looks whether the scan's prefix ends between them. Who waits does so for a stated number of
//! turns, so that a job that is run before the get is answered, engines that answer one after the other, or a scan that is
//! answered at its line or at its collect, end the wait unmet. `paces` runs so many paces, each of which holds every point for
//! a while of its own, over four partitions, and says how many of the runs replied otherwise than one partition does. `prefix`
//! tells whether a scan before so many upserts has the rows of the first of them, as many as it says; `whole` whether one over so
//! many documents, an even number, which are written again beside it, has the rows of the plain store behind as many writes as
//! it says. `views` says of how many writes each of ten snapshots of one lens is, before each of which one more write was
//! published, and that of one after them; `lenses` whether a view gives a lens while another one is there, and once that is
//! gone. `waits` has a caller that gives no line before it has so many replies, and says with which status its run ends; after
//! the numbers, one for each line and one for the end, and a `; ` stand the words. `churn` tells whether the schema after so many
//! writes, flushes and merges is that of a store which got the live documents alone. A row that begins with `#` is a note, and
//! is printed as it is; `no answer` stands for a row out of form.
#![tactic(auto)]

mod beside;
mod churning;
mod kits;
mod lines;
mod meeting;
mod running;
mod scanning;
mod views;
mod waiting;
mod wandering;

use std::alloc::Global;
use std::io;
use std::sync::Wait;
use std::thread::Threads;
use tc_rows::{name_and_argument, word};

fn main(rt: HostRuntime) -> io::Result<()> {
    for row in rt.lines(rt.alloc()) {
        answer(&rt, row?.as_str())?;
    }
    Ok(())
}

// The rows are read here, since what starts threads cannot be called by a method of a trait.
fn answer(rt: &(impl Print + AllocGlobal + Threads + Wait + Sync), row: &str) -> io::Result<()> {
    if row.starts_with('#') {
        return println!(rt; "{row}");
    }
    match answer_of(rt, row) {
        Some(answer) => println!(rt; "{}", answer.as_str()),
        None => println!(rt; "no answer"),
    }
}

// The line that answers a row.
fn answer_of(rt: &(impl AllocGlobal + Threads + Wait + Sync), row: &str) -> Option<String> {
    let alloc = rt.alloc();
    let (call, argument) = name_and_argument(row);
    match call {
        "beside" => beside::with_job(rt, argument).and_then(|met| met_text(alloc, met)),
        "at" => beside::of_engines(rt).and_then(|met| met_text(alloc, met)),
        "scan" => scanning::is_between(rt).and_then(|met| met_text(alloc, met)),
        "prefix" => truth_text(
            alloc,
            scanning::is_prefix(rt, argument.parse::<u32>().ok()?)?,
        ),
        "whole" => truth_text(
            alloc,
            scanning::is_whole(rt, argument.parse::<u32>().ok()?)?,
        ),
        "churn" => truth_text(
            alloc,
            churning::is_that_of_live(rt, argument.parse::<u64>().ok()?)?,
        ),
        "views" => views::answer_of(rt),
        "lenses" => views::places(rt),
        "waits" => waiting::answer_of(rt, argument),
        "paces" => {
            let paces = argument.parse::<u64>().ok()?;
            let other = wandering::differing(rt, paces)?;
            format!(in alloc; "{paces} paces, {other} replied otherwise").ok()
        }
        _ => None,
    }
}

fn met_text(alloc: Global, met: bool) -> Option<String> {
    word(alloc, if met { "met" } else { "missed" })
}

fn truth_text(alloc: Global, is: bool) -> Option<String> {
    word(alloc, if is { "so it is" } else { "it is not" })
}
