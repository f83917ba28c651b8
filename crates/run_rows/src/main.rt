//! Layer 6, programs: runs the server over streams and files in memory, as the rows of standard input say, and prints how
//! each run ends. A row is a word and its argument, between them a space. `words` are those of the command line, without the
//! folder; `reads` and `writes` say how many bytes a call takes at most and, behind that, the number of the call that fails;
//! `text`, `line`, `lines`, `padded` and `repeated` make the input. A run begins without files, unless `file` gives it some,
//! by name and bytes, or `again` has it begin with what a stop leaves of the last run's, by the number that chooses; `fails`
//! says which calls on them fail, behind who makes them: `main`, `flusher`, `merger` or `reader`; `partition` says of which partition
//! these rows are, which is the first one where none was chosen since the last run. `serve` runs, `files` shows what a
//! stop leaves of the last run's files, by the number that chooses, and `faults` prints the texts of all faults. `stuttering`
//! reads twice and writes two bytes over a reader and a writer of std of which so many first calls err; `told` is what a source
//! tells of its reads before and after a text that is written, and `streams` prints the texts of the faults of streams. A row
//! that begins with `#` is a note, and is printed as it is; `no answer` stands for a row out of form.
#![tactic(auto)]

mod files;
mod parts;
mod run;
mod shown;
mod streams;

use run::Run;
use std::io;
use std::sync::Wait;
use std::thread::Threads;
use tc_rows::name_and_argument;

fn main(rt: HostRuntime) -> io::Result<()> {
    let mut run = Run::new(rt.alloc())?;
    for row in rt.lines(rt.alloc()) {
        answer(&rt, &mut run, row?.as_str())?;
    }
    Ok(())
}

// The rows are read here, since what starts threads cannot be called by a method of a trait.
fn answer(
    rt: &(impl Print + AllocGlobal + Threads + Wait + Sync),
    run: &mut Run,
    row: &str,
) -> io::Result<()> {
    if row.starts_with('#') {
        return println!(rt; "{row}");
    }
    match answer_of(rt, run, row) {
        Some(answer) => print_lines(rt, answer.as_str()),
        None => println!(rt; "no answer"),
    }
}

// Prints lines, of which the last one may not be ended.
fn print_lines(rt: &impl Print, lines: &str) -> io::Result<()> {
    if lines.is_empty() || lines.ends_with('\n') {
        return print!(rt; "{lines}");
    }
    println!(rt; "{lines}")
}

// The lines that answer a row.
fn answer_of(
    rt: &(impl Print + AllocGlobal + Threads + Wait + Sync),
    run: &mut Run,
    row: &str,
) -> Option<String> {
    let alloc = rt.alloc();
    let (call, argument) = name_and_argument(row);
    match call {
        "serve" => run.serve(rt),
        "files" => run.files(alloc, argument),
        "faults" => shown::faults(alloc),
        "stuttering" => streams::read_and_write(alloc, argument),
        "told" => streams::told(alloc, argument),
        "streams" => streams::faults(alloc),
        _ => {
            run.prepare(alloc, call, argument)?;
            Some(String::new(alloc))
        }
    }
}
