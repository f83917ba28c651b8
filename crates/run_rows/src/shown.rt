//! What is printed of a run.

use std::alloc::Global;
use std::fmt::{Display, Write};
use std::io::Eprint;
use std::sync::Wait;
use std::thread::Threads;
use std::{io, str};
use tc_bytes::Bytes;
use tc_server::{RunFault, fault_text};
use tc_store::{Damage, FileName, FileNames};

/// Says on standard output what a program says on standard error.
#[derive(Clone, Copy)]
pub(crate) struct OnOutput<'a, R> {
    pub(crate) rt: &'a R,
}

impl<R: Print> Eprint for OnOutput<'_, R> {
    fn eprint<D: Display + Drop>(&self, value: D) -> io::Result<()> {
        self.rt.print(value)
    }

    fn eprintln<D: Display + Drop>(&self, value: D) -> io::Result<()> {
        self.rt.println(value)
    }
}

impl<R: AllocGlobal> Alloc for OnOutput<'_, R> {
    type A = Global;

    fn alloc(&self) -> Global {
        self.rt.alloc()
    }
}

impl<R: Threads> Threads for OnOutput<'_, R> {}

impl<R: Wait> Wait for OnOutput<'_, R> {}

/// The status, how many kits were asked for, and then the lines that were accepted, and how many times each came behind itself.
pub(crate) fn shown(alloc: Global, status: u8, kits: usize, accepted: &[u8]) -> Option<String> {
    let mut text = format!(in alloc; "status {status}, kits {kits}\n").ok()?;
    push_lines(&mut text, str::from_utf8(accepted).ok()?)?;
    Some(text)
}

fn push_lines(text: &mut String, accepted: &str) -> Option<()> {
    let mut times = 0u64;
    let mut last = "";
    for line in accepted.split_inclusive('\n') {
        if line != last {
            push_times(text, times, last)?;
            times = 0;
            last = line;
        }
        times = times.saturating_add(1);
    }
    push_times(text, times, last)
}

// A line that came so many times, or the part of one that was accepted.
fn push_times(text: &mut String, times: u64, line: &str) -> Option<()> {
    if times == 0 {
        return Some(());
    }
    match line.strip_suffix('\n') {
        Some(line) => write!(text, "{times} of {line}\n").ok(),
        None => write!(text, "part {line}\n").ok(),
    }
}

/// The texts of all faults.
pub(crate) fn faults(alloc: Global) -> Option<String> {
    let mut text = String::new(alloc);
    let file = FileName::Log { generation: 1 };
    let bytes = Bytes::of(Vec::new(alloc));
    let place = 30;
    let names = FileNames::of(Vec::new(alloc));
    for fault in [
        RunFault::Usage,
        RunFault::Read,
        RunFault::Write { taken: 12 },
        RunFault::Spent,
        RunFault::Disk { partition: 3 },
        of_files(Damage::Bytes { file, place, bytes }),
        of_files(Damage::Files { names }),
        RunFault::Memory,
        RunFault::Layout {
            partition: 0,
            found: 1,
            found_of: 2,
            asked_of: 4,
        },
    ] {
        text.push_str(fault_text(alloc, &fault).ok()?.as_str())
            .ok()?;
        text.push('\n').ok()?;
    }
    Some(text)
}

// The fault of the first partition's files.
fn of_files(damage: Damage) -> RunFault {
    RunFault::Damaged {
        partition: 0,
        damage,
    }
}
