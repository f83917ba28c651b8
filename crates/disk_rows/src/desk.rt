//! What a row works on: a store, a watch, and what is held of the file.

use crate::logs::GoodLog;
use std::alloc::Global;
use std::mem;
use tc_store::{FileName, Gated, MemDevice, MemFrozen, MemStore, MemWatch, Watch};

/// The name of the only file.
pub(crate) const NAME: FileName = FileName::Log { generation: 1 };

/// What is held of the file.
#[derive(Drop)]
pub(crate) enum Hand {
    Nothing,
    Device(MemDevice),
    Gate(Gated<MemDevice>),
    Log(GoodLog),
    Still(MemFrozen),
}

pub(crate) struct Desk {
    pub(crate) store: MemStore,
    pub(crate) watch: MemWatch,
    hand: Hand,
}

impl Drop for Desk {
    /// One call, so that whoever drops a desk sees nothing of what is on it.
    fn drop(self) {
        let Desk { store, watch, hand } = self;
        drop(store);
        drop(watch);
        drop(hand);
    }
}

impl Desk {
    /// An empty store, and a watch that fails nothing.
    pub(crate) fn empty(alloc: Global) -> Desk {
        Desk {
            store: MemStore::new(alloc),
            watch: MemWatch::new(Vec::new(alloc)),
            hand: Hand::Nothing,
        }
    }

    pub(crate) fn hold(&mut self, hand: Hand) {
        self.hand = hand;
    }

    pub(crate) fn take_hand(&mut self) -> Hand {
        mem::replace(&mut self.hand, Hand::Nothing)
    }

    /// How many calls failed, and how many reads were made.
    pub(crate) fn counts(&self) -> (u64, u64) {
        (self.watch.faults(), self.watch.reads())
    }
}
