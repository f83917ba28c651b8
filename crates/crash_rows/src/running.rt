//! Runs over stores in memory.

ghost use Rattle.std.specs.Prelude.{IfSome};
ghost use Rattle.crash_rows.specs.Rests.{AreAtRest};

use crate::files::{Failing, Files, Who};
use crate::script::{Counts, Script};
use std::alloc::Global;
use std::fmt::Write;
use std::sync::Wait;
use std::thread::Threads;
use tc_edge::{MemSink, MemSource};
use tc_running::Free;
use tc_server::{Served, serve};
use tc_store::MemShelf;
use tc_value::Text;

/// Bytes that a read or a write of a stream moves at most.
const PIECE: usize = 65_536;

/// How a run ended: its status, what it wrote, and its files.
#[derive(Drop)]
struct Ran {
    status: u8,
    written: Vec<u8>,
    files: Files,
}

/// Runs lines over a store.
fn run<R: Threads + Wait + Sync>(
    rt: &R,
    alloc: Global,
    words: &[Text],
    input: &str,
    files: Files,
    failing: Option<Failing>,
) -> Option<Ran>
    requires at_rest { AreAtRest files }
{
    let are_two = files.second.is_some();
    let input = Vec::from_slice(alloc, input.as_bytes()).ok()?;
    let mut source = MemSource::new(input, PIECE, Vec::new(alloc));
    let mut sink = MemSink::new(alloc, PIECE, Vec::new(alloc));
    let mut shelf = MemShelf::new(files.into_kits(alloc, failing)?);
    let served = serve(rt, alloc, words, &mut source, &mut sink, &mut shelf, Free);
    let Served { status, kits, .. } = served;
    Some(Ran {
        status,
        written: Vec::from_slice(alloc, sink.taken()).ok()?,
        files: Files::of(alloc, kits, &mut shelf, are_two)?,
    })
}

/// A script that is ready to run, what its run writes where nothing fails, and what is read behind each number of its lines, which
/// is nothing where no window ends.
#[derive(Drop)]
pub(crate) struct Trial<'a, R> {
    rt: &'a R,
    pub(crate) script: &'a Script,
    pub(crate) window: usize,
    words: Vec<Text>,
    input: String,
    gets: String,
    whole: Vec<u8>,
    reads: Vec<Vec<u8>>,
}

/// What is read behind a stop.
#[derive(Clone, Copy, PartialEq, Eq)]
pub(crate) enum Found {
    /// What the windows that were answered leave.
    Answered,
    /// What these and the next one leave.
    Next,
    /// What these leave of one partition, and these and the next one of the other.
    Apart,
    Wrong,
}

/// A store that a stop left, and how many lines were answered before it.
#[derive(Drop)]
pub(crate) struct Stopped {
    pub(crate) status: u8,
    answered: usize,
    files: Files,
}

impl<'a, R: Threads + Wait + Sync> Trial<'a, R> {
    /// Runs the script where nothing fails.
    pub(crate) fn of(rt: &'a R, alloc: Global, script: &'a Script) -> Option<Trial<'a, R>> {
        let mut trial = Trial {
            rt,
            script,
            window: script.window()?,
            words: script.words(alloc)?,
            input: script.input(alloc)?,
            gets: gets(alloc, script.keys())?,
            whole: Vec::new(alloc),
            reads: Vec::new(alloc),
        };
        let ran = trial.run(alloc, trial.input.as_str(), trial.no_files(alloc), None)?;
        trial.whole = ran.written;
        let mut end = 0usize;
        for count in 0..script.len().saturating_add(1) {
            let mut reads = Vec::new(alloc);
            if count == end {
                reads = trial.reads_behind(alloc, [count, count])?;
                end = script.window_end(end, trial.window);
            }
            trial.reads.push(reads).ok()?;
        }
        Some(trial)
    }

    // No file of any partition.
    fn no_files(&self, alloc: Global) -> Files
        ensures { AreAtRest result }
    {
        Files::none(alloc, self.script.are_two())
    }

    fn run(&self, alloc: Global, input: &str, files: Files, failing: Option<Failing>) -> Option<Ran>
        requires at_rest { AreAtRest files }
    {
        run(self.rt, alloc, self.words.as_slice(), input, files, failing)
    }

    // What is read behind so many lines, of each partition: what a plain store answers, and the schema of a store that got its
    // documents alone.
    fn reads_behind(&self, alloc: Global, counts: Counts) -> Option<Vec<u8>> {
        let mut reads = self.script.answers(alloc, counts)?;
        let mut input = self.script.rebuilt(alloc, counts)?;
        input.push_str("{\"op\":\"schema\"}\n").ok()?;
        let ran = self.run(alloc, input.as_str(), self.no_files(alloc), None)?;
        push_last_line(&mut reads, ran.written.as_slice())?;
        Some(reads.into_bytes())
    }

    /// Runs the script where a call fails, and stops its store then.
    pub(crate) fn stopped(&self, alloc: Global, failing: Failing, choice: u64) -> Option<Stopped>
        ensures { IfSome result (λ stopped. AreAtRest stopped.files) }
    {
        let ran = self.run(
            alloc,
            self.input.as_str(),
            self.no_files(alloc),
            Some(failing),
        )?;
        if !self.whole.as_slice().starts_with(ran.written.as_slice()) {
            return None;
        }
        Some(Stopped {
            status: ran.status,
            answered: lines_of(ran.written.as_slice()),
            files: ran.files.stop(choice)?,
        })
    }

    /// Opens a store, reads it, and stops it. The opening or a read may fail.
    pub(crate) fn stopped_again(
        &self,
        alloc: Global,
        stopped: Stopped,
        call: u64,
        choice: u64,
    ) -> Option<Stopped>
        requires at_rest { AreAtRest stopped.files }
        ensures { IfSome result (λ stopped. AreAtRest stopped.files) }
    {
        let Stopped {
            answered,
            files,
            ..
        } = stopped;
        let ran = self.run(
            alloc,
            self.gets.as_str(),
            files,
            Some(Failing {
                partition: self.script.failing(),
                who: Who::Main,
                call,
            }),
        )?;
        Some(Stopped {
            status: ran.status,
            answered,
            files: ran.files.stop(choice)?,
        })
    }

    /// What is read of a store that a stop left.
    pub(crate) fn found(&self, alloc: Global, stopped: Stopped) -> Option<Found>
        requires at_rest { AreAtRest stopped.files }
    {
        let Stopped {
            answered,
            files,
            ..
        } = stopped;
        let ran = self.run(alloc, self.gets.as_str(), files, None)?;
        let read = ran.written.as_slice();
        let next = self.script.window_end(answered, self.window);
        if ran.status != 0 {
            Some(Found::Wrong)
        } else if self.is_behind(answered, read) {
            Some(Found::Answered)
        } else if self.is_behind(next, read) {
            Some(Found::Next)
        } else if self.is_apart(alloc, answered, next, read)? {
            Some(Found::Apart)
        } else {
            Some(Found::Wrong)
        }
    }

    // Whether this is read of two partitions, of which the lines of one are fewer than those of the other.
    fn is_apart(&self, alloc: Global, answered: usize, next: usize, read: &[u8]) -> Option<bool> {
        if !self.script.are_two() {
            return Some(false);
        }
        let more = self.reads_behind(alloc, [answered, next])?;
        let less = self.reads_behind(alloc, [next, answered])?;
        Some(more.as_slice() == read || less.as_slice() == read)
    }

    fn is_behind(&self, count: usize, read: &[u8]) -> bool {
        match self.reads.get(count) {
            Some(reads) => reads.as_slice() == read,
            None => false,
        }
    }
}

// A get of each key, and the schema.
fn gets(alloc: Global, keys: u64) -> Option<String> {
    let mut gets = String::new(alloc);
    for key in 0..keys {
        write!(gets, "{{\"op\":\"get\",\"id\":{key}}}\n").ok()?;
    }
    gets.push_str("{\"op\":\"schema\"}\n").ok()?;
    Some(gets)
}

fn lines_of(text: &[u8]) -> usize {
    let mut count = 0usize;
    for byte in text {
        if *byte == b'\n' {
            count = count.saturating_add(1);
        }
    }
    count
}

fn push_last_line(text: &mut String, lines: &[u8]) -> Option<()> {
    let lines = std::str::from_utf8(lines).ok()?;
    let last = lines.lines().last()?;
    text.push_str(last).ok()?;
    text.push('\n').ok()
}
