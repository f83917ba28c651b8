//! Layer 6, programs: a document store that answers lines of JSON on standard input, and keeps its documents in a folder.
#![tactic(auto)]

mod checks;
mod disk;
mod kits;
mod reasons;

use checks::check_in;
use disk::disk_error;
use kits::empty_kits;
use reasons::{Errors, say_reason};
use std::alloc::Global;
use std::io::{Eprint, Error};
use std::process::ExitCode;
use std::sync::Wait;
use std::thread::Threads;
use tc_edge::{StdSink, StdSource};
use tc_files::FileShelf;
use tc_reasons::{DiskError, Kept};
use tc_running::Free;
use tc_server::{Served, run_program, words};
use tc_store::{MemShelf, Shelf, Store};
use tc_value::Text;
use tc_words::{WordsFault, check_asked};

/// The folder that stands for stores in memory, which hold nothing at first and are gone when the program ends.
const IN_MEMORY: &str = ":memory:";

fn main(rt: HostRuntime) -> ExitCode {
    match words(&rt) {
        Ok(words) => start(rt, &rt, words),
        Err(fault) => run_in_memory(rt, &rt, Err(fault)),
    }
}

// Does what the words after the first one ask for, which is the folder. Without a word there is none after it either. Threads
// come as a handle of their own, since only `main` has them to give.
fn start(
    rt: HostRuntime,
    threads: &(impl Eprint + AllocGlobal + Threads + Wait + Sync),
    words: Vec<Text>,
) -> ExitCode {
    let (folder, rest) = split_folder(rt.alloc(), words);
    match check_asked(rt.alloc(), rest.as_slice()) {
        Ok(Some(partitions)) => check_in(rt, folder, partitions),
        Ok(None) => run_in(rt, threads, folder, rest),
        Err(fault) => run_in_memory(rt, threads, Err(fault)),
    }
}

// Runs these words over the store of a folder.
fn run_in(
    rt: HostRuntime,
    threads: &(impl Eprint + AllocGlobal + Threads + Wait + Sync),
    folder: Text,
    words: Vec<Text>,
) -> ExitCode {
    if folder.as_str() == IN_MEMORY {
        run_in_memory(rt, threads, Ok(words))
    } else {
        run_in_folder(rt, threads, folder, words)
    }
}

// The first word, and those after it.
fn split_folder(alloc: Global, mut words: Vec<Text>) -> (Text, Vec<Text>) {
    if words.is_empty() {
        return (Text::of(String::new(alloc)), words);
    }
    let folder = words.remove(0);
    (folder, words)
}

fn run_in_memory(
    rt: HostRuntime,
    threads: &(impl Eprint + AllocGlobal + Threads + Wait + Sync),
    words: Result<Vec<Text>, WordsFault>,
) -> ExitCode {
    let alloc = rt.alloc();
    let run = match empty_kits(alloc) {
        Ok(kits) => run_over(rt, threads, words, &mut MemShelf::new(kits)),
        Err(_) => {
            let words = Err(WordsFault::Memory);
            run_over(rt, threads, words, &mut MemShelf::new(Vec::new(alloc)))
        }
    };
    report(rt, &run, None)
}

fn run_in_folder(
    rt: HostRuntime,
    threads: &(impl Eprint + AllocGlobal + Threads + Wait + Sync),
    folder: Text,
    words: Vec<Text>,
) -> ExitCode {
    let mut shelf = FileShelf::new(rt, folder);
    let run = run_over(rt, threads, Ok(words), &mut shelf);
    let error = disk_error(&shelf, &run.served.fault, run.served.kits.as_slice());
    report(rt, &run, error)
}

/// How a run ended, and why the last read and the last write failed of those that did.
#[derive(Drop)]
struct Run<S: Store> {
    served: Served<S>,
    read_error: Option<Error>,
    write_error: Option<Error>,
}

// Serves standard input over the stores of a shelf.
fn run_over<H: Shelf>(
    rt: HostRuntime,
    threads: &(impl Eprint + AllocGlobal + Threads + Wait + Sync),
    words: Result<Vec<Text>, WordsFault>,
    shelf: &mut H,
) -> Run<H::Store>
where
    H::Store: 'static,
    <H::Store as Store>::Device: 'static,
    <H::Store as Store>::Frozen: 'static,
    <H::Store as Store>::Watch: 'static,
{
    let mut source = StdSource::new(Kept::new(rt.stdin()));
    let mut sink = StdSink::new(Kept::new(rt.stdout()));
    let served = run_program(threads, words, &mut source, &mut sink, shelf, Free);
    Run {
        served,
        read_error: source.into_inner().last_error(),
        write_error: sink.into_inner().last_error(),
    }
}

// Says why a run ended, below the line that it has said, and answers its exit status.
fn report<S: Store>(rt: HostRuntime, run: &Run<S>, disk: Option<DiskError>) -> ExitCode {
    if let Some(fault) = &run.served.fault {
        let errors = Errors {
            read: run.read_error,
            write: run.write_error,
            disk,
        };
        say_reason(rt, fault, errors);
    }
    ExitCode::from(run.served.status)
}
