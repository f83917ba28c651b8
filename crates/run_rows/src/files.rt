//! The files of a partition that a run is over, and those that it leaves.

ghost use Rattle.std.specs.Prelude.{IfSome};
ghost use Rattle.tc_store.specs.Disk.{IsAtRest};
ghost use Rattle.tc_store.specs.Memory.Store.{store_disks};
ghost use Rattle.tc_store.specs.Moments.{IfTold};

use std::alloc::Global;
use std::fmt::Write;
use std::mem;
use tc_bytes::Bytes;
use tc_files::{file_text, name_in};
use tc_rows::{bytes, files_in, word};
use tc_store::{Kit, MemFile, MemStore, MemWatch};

/// The files of the next run, or by which choice a stop makes them of those that the last run left, and the numbers of the
/// calls on them that fail.
#[derive(Drop)]
pub(crate) struct Files {
    given: Vec<MemFile>,
    again: Option<u64>,
    left: MemStore,
    main: Vec<u64>,
    flusher: Vec<u64>,
    merger: Vec<u64>,
    reader: Vec<u64>,
}

impl Files {
    /// No file, and no call that fails.
    pub(crate) fn new(alloc: Global) -> Files {
        Files {
            given: Vec::new(alloc),
            again: None,
            left: MemStore::new(alloc),
            main: Vec::new(alloc),
            flusher: Vec::new(alloc),
            merger: Vec::new(alloc),
            reader: Vec::new(alloc),
        }
    }

    /// The next run is over what a stop leaves of the last one's files, chosen by a number.
    pub(crate) fn again(&mut self, argument: &str) -> Option<()> {
        self.again = Some(argument.parse::<u64>().ok()?);
        Some(())
    }

    /// Gives the next run a file: its name, and its bytes in hexadecimal digits.
    pub(crate) fn give(&mut self, alloc: Global, argument: &str) -> Option<()> {
        let (name, digits) = argument.split_once(' ')?;
        let name = name_in(name)?;
        let bytes = Bytes::of(bytes(alloc, digits)?);
        self.given.push(MemFile { name, bytes }).ok()
    }

    /// Fails calls of the next run: who makes them, and the numbers of those calls, counted from 0.
    pub(crate) fn fail(&mut self, argument: &str) -> Option<()> {
        let (who, numbers) = argument.split_once(' ')?;
        match who {
            "main" => push_numbers(&mut self.main, numbers),
            "flusher" => push_numbers(&mut self.flusher, numbers),
            "merger" => push_numbers(&mut self.merger, numbers),
            "reader" => push_numbers(&mut self.reader, numbers),
            _ => None,
        }
    }

    /// The kit of the next run. The run behind it has no file, and no call on its files fails.
    pub(crate) fn kit(&mut self, alloc: Global) -> Option<Kit<MemStore>>
        ensures { IfSome result (λ kit. IfTold (store_disks kit.store) IsAtRest) }
    {
        Some(Kit {
            store: self.store(alloc)?,
            main: watch_of(alloc, &mut self.main),
            flusher: watch_of(alloc, &mut self.flusher),
            merger: watch_of(alloc, &mut self.merger),
            reader: watch_of(alloc, &mut self.reader),
        })
    }

    fn store(&mut self, alloc: Global) -> Option<MemStore>
        ensures { IfSome result (λ store. IfTold (store_disks store) IsAtRest) }
    {
        match self.again.take() {
            Some(choice) => self.stopped(alloc, choice),
            None => Some(MemStore::with(mem::replace(&mut self.given, Vec::new(alloc)))),
        }
    }

    // What a stop leaves of the last run's files.
    fn stopped(&mut self, alloc: Global, choice: u64) -> Option<MemStore>
        ensures { IfSome result (λ store. IfTold (store_disks store) IsAtRest) }
    {
        mem::replace(&mut self.left, MemStore::new(alloc))
            .stop(choice)
            .ok()
    }

    /// Keeps the files of a run that has ended.
    pub(crate) fn keep(&mut self, kit: Kit<MemStore>) {
        let Kit { store, .. } = kit;
        self.left = store;
    }

    /// A line for each file that a stop leaves of the last run's, chosen by a number: components first, by generation. From
    /// then on it is these that the last run left.
    pub(crate) fn shown(&mut self, alloc: Global, argument: &str) -> Option<String> {
        let store = self.stopped(alloc, argument.parse::<u64>().ok()?)?;
        let files = files_in(alloc, store)?;
        let text = files_text(alloc, &files);
        self.left = MemStore::with(files);
        text
    }
}

fn push_numbers(failing: &mut Vec<u64>, numbers: &str) -> Option<()> {
    for number in numbers.split(' ') {
        failing.push(number.parse::<u64>().ok()?).ok()?;
    }
    Some(())
}

// A watch that fails the calls of these numbers, of which none is left.
fn watch_of(alloc: Global, failing: &mut Vec<u64>) -> MemWatch {
    MemWatch::new(mem::replace(failing, Vec::new(alloc)))
}

// A line for each file.
fn files_text(alloc: Global, files: &[MemFile]) -> Option<String> {
    if files.is_empty() {
        return word(alloc, "no file\n");
    }
    let mut text = String::new(alloc);
    for file in files {
        let name = file_text(alloc, file.name).ok()?;
        let digits = hex::encode(alloc, file.bytes.as_slice()).ok()?;
        write!(text, "{} {}\n", name.as_str(), digits.as_str()).ok()?;
    }
    Some(text)
}
