//! Layer 6, programs: does the public calls on stores over real folders, one row of standard input at a time, and prints
//! what they answer. A row is a list of calls, each of a name and its argument, and a `; ` between two. It begins with a
//! shelf over the folder `row/files`, which is not there yet. Its answers stand in the same order, and behind them how many
//! calls of its last kit failed and how many reads were made. `no answer` stands for a row out of form. A row that begins
//! with `#` is a note, and is printed as it is.
#![tactic(auto)]

mod desk;
mod devices;
mod faults;
mod others;
mod shelves;
mod still_files;
mod stores;

use desk::{Desk, Hand};
use std::alloc::Global;
use std::{fs, io, mem};
use tc_rows::{Answering, answer_calls, answer_rows, name_and_argument, push_counts};
use tc_store::Watch;

fn main(rt: HostRuntime) -> io::Result<()> {
    answer_rows(&rt, Folders)
}

// Each row has a folder of its own.
#[derive(Drop)]
struct Folders;

impl Answering<HostRuntime> for Folders {
    fn answer(&mut self, rt: &HostRuntime, row: &str) -> Option<String> {
        let _ = fs::remove_dir_all(rt, "row");
        let answers = answers_of(*rt, row);
        let _ = fs::remove_dir_all(rt, "row");
        answers
    }
}

impl Answering<HostRuntime> for Desk {
    fn answer(&mut self, rt: &HostRuntime, call: &str) -> Option<String> {
        let (name, argument) = name_and_argument(call);
        answer_of(*rt, self, name, argument)
    }
}

// The answers of a row.
fn answers_of(rt: HostRuntime, row: &str) -> Option<String> {
    let mut desk = Desk::new(rt, "row/files")?;
    let mut answers = answer_calls(&rt, &mut desk, row)?;
    let (faults, reads) = counts(&desk);
    push_counts(&mut answers, faults, reads)?;
    Some(answers)
}

// How many calls failed of those that the kit was used for, and how many reads were made.
fn counts(desk: &Desk) -> (u64, u64) {
    match &desk.kit {
        Some(kit) => (kit.main.faults(), kit.main.reads()),
        None => (0, 0),
    }
}

// The answer of a call.
fn answer_of(rt: HostRuntime, desk: &mut Desk, name: &str, argument: &str) -> Option<String> {
    let alloc = rt.alloc();
    match name {
        "called" => others::called(alloc, argument),
        "put" => others::put(rt, argument),
        "fill" => others::fill(rt, argument),
        "show" => others::show(rt, argument),
        "folder" => others::folder(rt, argument),
        "link" => others::link(rt, argument),
        "shelf" => shelves::shelf(rt, desk, argument),
        "reader" => shelves::reader(rt, desk, argument),
        "leave" => shelves::leave(alloc, desk),
        "kit" => shelves::kit(alloc, desk, argument.parse::<u32>().ok()?, true),
        "other" => shelves::kit(alloc, desk, argument.parse::<u32>().ok()?, false),
        _ => answer_with(alloc, desk, name, argument),
    }
}

// The answer of a call on what is in hand.
fn answer_with(alloc: Global, desk: &mut Desk, name: &str, argument: &str) -> Option<String> {
    let Some(kit) = &mut desk.kit else {
        return None;
    };
    let hand = &mut desk.hand;
    match mem::replace(hand, Hand::Nothing) {
        Hand::Nothing => stores::answer_of(alloc, kit, hand, name, argument),
        Hand::Device(device) => devices::answer_of(alloc, kit, hand, device, name, argument),
        Hand::Still(file) => still_files::answer_of(alloc, kit, hand, file, name, argument),
    }
}
