//! What a row works on: a store, a watch of the calls that write and one of those that read, and what is held of the file.

use crate::builders::{self, GoodBuilder};
use crate::{components, files, stores};
use std::alloc::Global;
use std::mem;
use tc_component::Component;
use tc_store::{FileName, MemDevice, MemFrozen, MemStore, MemWatch, Watch};

/// The name of the only file.
pub(crate) const NAME: FileName = FileName::Component { from: 1, to: 1 };

/// What is held of the file.
pub(crate) enum Hand {
    Nothing,
    Device(MemDevice),
    Builder(GoodBuilder),
    Still(MemFrozen),
    Loaded(Component<MemFrozen>),
}

impl Drop for Hand {
    /// One call, so that whoever drops a hand sees nothing of what is in it.
    fn drop(self) {
        match self {
            Hand::Nothing => {}
            Hand::Device(device) => drop(device),
            Hand::Builder(good) => drop(good),
            Hand::Still(file) => drop(file),
            Hand::Loaded(component) => drop(component),
        }
    }
}

impl Hand {
    /// What a call on what is held answers.
    pub(crate) fn answer_of(
        self,
        alloc: Global,
        desk: &mut Desk,
        name: &str,
        argument: &str,
    ) -> Option<String> {
        match self {
            Hand::Nothing => stores::answer_of(alloc, desk, name, argument),
            Hand::Device(device) => stores::left_of(alloc, desk, device, name, argument),
            Hand::Builder(good) => builders::answer_of(alloc, desk, good, name, argument),
            Hand::Still(file) => files::answer_of(alloc, desk, file, name, argument),
            Hand::Loaded(component) => {
                components::answer_of(alloc, desk, component, name, argument)
            }
        }
    }
}

pub(crate) struct Desk {
    pub(crate) store: MemStore,
    pub(crate) writer: MemWatch,
    pub(crate) reader: MemWatch,
    hand: Hand,
}

impl Drop for Desk {
    /// One call, so that whoever drops a desk sees nothing of what is on it.
    fn drop(self) {
        let Desk {
            store,
            writer,
            reader,
            hand,
        } = self;
        drop(store);
        drop(writer);
        drop(reader);
        drop(hand);
    }
}

impl Desk {
    /// An empty store, and watches that fail nothing.
    pub(crate) fn empty(alloc: Global) -> Desk {
        Desk {
            store: MemStore::new(alloc),
            writer: MemWatch::new(Vec::new(alloc)),
            reader: MemWatch::new(Vec::new(alloc)),
            hand: Hand::Nothing,
        }
    }

    pub(crate) fn keep(&mut self, store: MemStore) {
        self.store = store;
    }

    pub(crate) fn hold(&mut self, hand: Hand) {
        self.hand = hand;
    }

    pub(crate) fn take_hand(&mut self) -> Hand {
        mem::replace(&mut self.hand, Hand::Nothing)
    }

    /// How many calls failed, and how many reads were made.
    pub(crate) fn counts(&self) -> (u64, u64) {
        let faults = self.writer.faults().saturating_add(self.reader.faults());
        (faults, self.reader.reads())
    }
}
