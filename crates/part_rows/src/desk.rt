//! The partition that a row works on, and its calls.

ghost use Rattle.std.specs.Prelude.{◌≡◌};

use crate::faults::fault_word;
use crate::laid::Laid;
use crate::steps;
use std::alloc::Global;
use std::fmt::Write as _;
use std::marker::Model;
use std::str;
use tc_bytes::Bytes;
use tc_command::{Ask, Reply, Rows, put_line};
use tc_list::{ComponentList, Run};
use tc_log::Write;
use tc_part::{Limits, Opened, Part, PartFault, Staged};
use tc_rows::{unfailing, word};
use tc_store::{Kit, MemFrozen, MemStore, MemWatch};

// The writes of one frame, at most.
const MOST: u32 = 1024;

/// Who counts the calls on files, and which of them fail.
#[derive(Drop)]
pub(crate) struct Watches {
    pub(crate) main: MemWatch,
    pub(crate) flusher: MemWatch,
    pub(crate) merger: MemWatch,
}

/// A partition of which no job is out.
#[derive(Drop)]
pub(crate) struct Desk {
    part: Part<MemStore>,
    /// At most so many writes are staged, unless the partition has failed.
    waiting: u32,
    /// Whether the partition means something, unless it has failed. One over a file of which that is not known does not.
    stands: bool,
    /// The components that somebody shares beside the partition.
    shared: Option<ComponentList<MemFrozen>>,
}

impl Model for Desk {
    ghost use Rattle.std.specs.Prelude.{ℕ};
    ghost use Rattle.part_rows.specs.Standing.{IsAtDesk};

    ghost Value = { ℕ };

    ghost view = { λ d. d.waiting };

    ghost invariant = { λ d. IsAtDesk d.part d.waiting d.stands };
}

impl Desk {
    ghost use Rattle.std.specs.Prelude.{◌≡◌, [], true};
    ghost use Rattle.tc_part.specs.Openings.{told_opening};
    ghost use Rattle.tc_part_model.specs.Starting.{IsOpened};
    ghost use Rattle.tc_store.specs.Memory.Device.{device_files};
    ghost use Rattle.tc_store.specs.Memory.Frozen.{frozen_content};
    ghost use Rattle.tc_store.specs.Memory.Store.{store_disks};
    ghost use Rattle.part_rows.specs.Laying.{IsLaid};
    ghost use Rattle.part_rows.specs.Waiting.{IsShortWrite};

    /// Partition 0 of 1, over what is laid. It stands where that is a lawful opening.
    pub(crate) fn over(
        alloc: Global,
        limits: Limits,
        watches: Watches,
        laid: Laid,
        stands: bool,
    ) -> Option<Desk>
        requires laid { IsLaid laid.log laid.list }
        requires opened { stands ≡ true → IsOpened (told_opening store_disks device_files frozen_content 0 1 laid.store laid.log.device laid.list) [] }
    {
        let Laid { store, list, log } = laid;
        let opened = Opened {
            kit: kit_of(alloc, store, watches),
            number: 0,
            count: 1,
            limits,
            list,
            log,
        };
        match Part::start(alloc, opened) {
            Ok(part) => Some(Desk {
                part,
                waiting: 0,
                stands,
                shared: None,
            }),
            Err(_) => None,
        }
    }

    /// Stages a write.
    pub(crate) fn stage(&mut self, alloc: Global, write: Write) -> Option<String>
        requires { IsShortWrite write }
    {
        if self.part.failed() {
            return word(alloc, "failed");
        }
        if self.waiting >= MOST {
            return None;
        }
        let waiting = self.waiting;
        self.waiting += 1;
        match steps::stage(alloc, &mut self.part, write, waiting, self.stands) {
            Ok(staged) => word(alloc, staged_word(staged)),
            Err(fault) => fault_word(alloc, fault),
        }
    }

    /// Commits what is staged.
    pub(crate) fn commit(&mut self, alloc: Global) -> Option<String> {
        if self.part.failed() {
            return word(alloc, "failed");
        }
        match steps::commit(alloc, &mut self.part, self.waiting, self.stands) {
            Ok(()) => {
                self.waiting = 0;
                word(alloc, "ok")
            }
            Err(fault) => fault_word(alloc, fault),
        }
    }

    /// Seals the active table, unless one is sealed or something is staged.
    pub(crate) fn seal(&mut self, alloc: Global) -> Option<String> {
        if self.part.failed() {
            return word(alloc, "failed");
        }
        if !self.stands || self.waiting > 0 || self.part.has_sealed() {
            return None;
        }
        match steps::seal(alloc, &mut self.part, self.waiting, self.stands) {
            Ok(()) => word(alloc, "ok"),
            Err(fault) => fault_word(alloc, fault),
        }
    }

    /// Flushes the sealed table.
    pub(crate) fn flush(&mut self, alloc: Global) -> Option<String> {
        if self.part.failed() {
            return word(alloc, "failed");
        }
        if !self.stands || !self.part.has_sealed() {
            return None;
        }
        match steps::flush(alloc, &mut self.part, self.waiting, self.stands) {
            Ok(()) => word(alloc, "ok"),
            Err(fault) => fault_word(alloc, fault),
        }
    }

    /// Merges a run of two components or more.
    pub(crate) fn merge(&mut self, alloc: Global, run: Run) -> Option<String> {
        if self.part.failed() {
            return word(alloc, "failed");
        }
        if !self.stands || run.first >= run.last || run.last >= self.part.listed() {
            return None;
        }
        match steps::merge(alloc, &mut self.part, run, self.waiting, self.stands) {
            Ok(()) => word(alloc, "ok"),
            Err(fault) => fault_word(alloc, fault),
        }
    }

    /// Shares the listed components, as somebody does who reads beside the partition.
    pub(crate) fn share(&mut self, alloc: Global) -> Option<String> {
        self.shared = Some(self.part.list().share().ok()?);
        word(alloc, "ok")
    }

    /// Gives up what is shared.
    pub(crate) fn forget(&mut self, alloc: Global) -> Option<String> {
        self.shared = None;
        word(alloc, "ok")
    }

    /// Removes files of components that left the list.
    pub(crate) fn sweep(&mut self, alloc: Global) -> Option<String> {
        if self.part.failed() {
            return word(alloc, "failed");
        }
        match steps::sweep(alloc, &mut self.part, self.waiting, self.stands) {
            Ok(()) => word(alloc, "ok"),
            Err(fault) => fault_word(alloc, fault),
        }
    }

    /// The text of the document of a key.
    pub(crate) fn get(&mut self, alloc: Global, key: u64) -> Option<String> {
        if self.part.failed() {
            return word(alloc, "failed");
        }
        match steps::lookup(alloc, &mut self.part, key, self.waiting, self.stands) {
            Ok(Some(text)) => text_word(alloc, &text),
            Ok(None) => word(alloc, "none"),
            Err(fault) => fault_word(alloc, fault),
        }
    }

    /// The reply to an ask, as its line without the line feed.
    pub(crate) fn query(&mut self, alloc: Global, ask: &Ask) -> Option<String> {
        if self.part.failed() {
            return word(alloc, "failed");
        }
        match steps::rows(alloc, &mut self.part, ask, self.waiting, self.stands) {
            Ok(rows) => rows_text(alloc, rows),
            Err(fault) => fault_word(alloc, fault),
        }
    }

    /// What is told of the partition.
    pub(crate) fn tell(&self, alloc: Global) -> Option<String> {
        let part = &self.part;
        let Limits {
            names,
            docs,
            memory,
        } = part.limits();
        let mut text = String::new(alloc);
        write!(text, "limits {names} {docs} {memory}, ").ok()?;
        write!(text, "listed {}, sizes", part.listed()).ok()?;
        push_numbers(&mut text, &part.sizes(alloc).ok()?)?;
        write!(
            text,
            ", sealed {}, log {}, ",
            part.has_sealed(),
            part.log_len()
        )
        .ok()?;
        write!(text, "failed {}", part.failed()).ok()?;
        Some(text)
    }

    /// The text of the schema.
    pub(crate) fn schema(&self, alloc: Global) -> Option<String> {
        text_word(alloc, &self.part.schema(alloc).ok()?)
    }

    /// Closes the partition.
    pub(crate) fn close(self) -> Kit<MemStore> {
        let Desk { part, .. } = self;
        part.close()
    }
}

fn kit_of(alloc: Global, store: MemStore, watches: Watches) -> Kit<MemStore>
    ensures { result.store ≡ store }
{
    let Watches {
        main,
        flusher,
        merger,
    } = watches;
    Kit {
        store,
        main,
        flusher,
        merger,
        reader: unfailing(alloc),
    }
}

fn staged_word(staged: Staged) -> &'static str {
    match staged {
        Staged::Done { was_live: true } => "was live",
        Staged::Done { was_live: false } => "was not live",
        Staged::NamesFull => "names full",
        Staged::Full => "full",
    }
}

fn text_word(alloc: Global, text: &Bytes) -> Option<String> {
    String::from_str(alloc, str::from_utf8(text.as_slice()).ok()?).ok()
}

fn rows_text(alloc: Global, rows: Rows) -> Option<String> {
    let mut line = Vec::new(alloc);
    put_line(&Reply::Rows(rows), &mut line).ok()?;
    let text = str::from_utf8(&line).ok()?;
    String::from_str(alloc, text.trim_end()).ok()
}

fn push_numbers(text: &mut String, numbers: &[u64]) -> Option<()> {
    for number in numbers {
        write!(text, " {number}").ok()?;
    }
    Some(())
}
